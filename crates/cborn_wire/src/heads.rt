//! Reading and writing heads (RFC 8949 section 3): an initial byte, with the major type in its high
//! three bits and the additional information in its low five, and then the bytes of the argument.

ghost use Rattle.std.specs.Prelude.{◌≡◌, ◌≤◌, ◌<◌, ◌++◌, ◌+◌, ◌*◌, ◌%◌, [], ◌∷◌, ◌/◌, ℕ, List, length, ◌&&◌, take, MatchOption, OnOk, OnErr};
ghost use Rattle.std.specs.Int.{w64, from_be_bytes};
ghost use Rattle.cborn_wire.specs.Common.{AreBytes, code, major_at, WidthFits, IsHead, head_bytes, major_of, Next, EndlessInformation, info_at, is_reserved, is_endless_head, is_always_bounded, is_break, is_other, is_float, is_container, width_bytes, number, ReadsHead, reason_alone, seen_argument, size_in, count_in, Width, One};

use crate::WireReason;
use cborn_model::{Major, Size, StringKind, Width, push_doubling};
use std::alloc::AllocError;

/// What a head says besides its major type.
#[derive(Clone, Copy, PartialEq, Eq, Debug)]
pub enum Argument {
    /// An argument, and the width of the head that holds it.
    Given(Width, u64),
    /// An indefinite length.
    Endless,
}

impl Argument {
    /// How an array or a map says where it ends, and how many items or pairs it announces.
    pub(crate) fn size_and_count(self) -> (Size, Option<u64>)
        ensures size { result.0 ≡ size_in (seen_argument self) }
        ensures count { result.1 ≡ count_in (seen_argument self) }
    {
        match self {
            Argument::Given(width, count) => (Size::Fixed(width), Some(count)),
            Argument::Endless => (Size::Endless, None),
        }
    }
}

/// The head of a data item, or the break, which is major type 7 and `Endless`.
#[derive(Clone, Copy, PartialEq, Eq, Debug)]
pub struct Head {
    /// The major type, from 0 to 7.
    pub major: u8,
    /// What the head says besides the major type.
    pub argument: Argument,
}

impl Head {
    /// The major type.
    #[inline(always)]
    pub fn major_type(&self) -> Major
        ensures { result ≡ major_at self.now.major }
    {
        Major::at(self.major)
    }
}

/// What is read at the front of some bytes.
#[derive(Clone, Copy, PartialEq, Eq, Debug)]
pub enum HeadRead {
    /// A head, and its length in bytes, from 1 to 9.
    Full(Head, usize),
    /// The front of a head, or no byte at all.
    Short,
    /// No head of a data item, whatever follows.
    Bad(WireReason),
}

/// The head at the front of `bytes`; what follows it isn't looked at. It is `Bad` for the reasons
/// that hold whatever is around the head: `ReservedInfo`, `EndlessNotAllowed`, `FloatLeftOut` and
/// `BadSimple` (RFC 8949 sections 3, 3.2.1 and 3.3).
#[tactic(auto, using(cborn_model::proofs::Bytes::are_bytes, crate::proofs::HeadReading::HeadFronts::no_head, crate::proofs::HeadReading::HeadFronts::direct_front))]
#[inline]
pub fn read_head(bytes: &[u8]) -> HeadRead
    ensures { ReadsHead bytes.now result }
{
    let [first, rest @ ..] = bytes else {
        return HeadRead::Short;
    };
    let major = Major::of_initial_byte(*first);
    let information = *first % 32;
    if information < 24 {
        let argument = Argument::Given(Width::Direct, information as u64);
        return HeadRead::Full(head_of(major, argument), 1);
    }
    if is_endless(information) {
        return read_endless(major);
    }
    if is_reserved(information) {
        return HeadRead::Bad(WireReason::ReservedInfo);
    }
    match major {
        Major::Other => read_other(information, rest),
        _ => read_wide(major, wide_width(information), rest),
    }
}

#[inline(always)]
fn head_of(major: Major, argument: Argument) -> Head
    ensures { result ≡ record { major = code major; argument = argument } }
{
    let major = major.number();
    Head { major, argument }
}

/// Reads a head whose argument is at the front of `rest`.
#[tactic(auto, using(cborn_model::proofs::Bytes::are_bytes, crate::proofs::HeadReading::HeadFronts::code_small, crate::proofs::HeadReading::HeadFronts::wide_head))]
#[inline(always)]
fn read_wide(major: Major, width: Width, rest: &[u8]) -> HeadRead
    ensures { (first : ℕ) → first / 32 ≡ code major → info_at (first % 32) ≡ Next width → reason_alone (first ∷ rest.now) ≡ None → ReadsHead (first ∷ rest.now) result }
{
    match read_number(width, rest) {
        Some(n) => {
            let argument = Argument::Given(width, n);
            HeadRead::Full(head_of(major, argument), 1 + width_len(width))
        }
        None => HeadRead::Short,
    }
}

/// Reads the head of a float or of a simple value of two bytes, which is 32 or more (RFC 8949 section 3.3).
fn read_other(information: u8, rest: &[u8]) -> HeadRead
    requires least { 24 ≤ information }
    requires most { information ≤ 27 }
    ensures { (first : ℕ) → first / 32 ≡ 7 → first % 32 ≡ information → ReadsHead (first ∷ rest.now) result }
{
    if is_float(Major::Other, information) {
        return HeadRead::Bad(WireReason::FloatLeftOut);
    }
    match rest {
        [0..32, ..] => HeadRead::Bad(WireReason::BadSimple),
        _ => read_wide(Major::Other, Width::One, rest),
    }
}

/// Reads a head of indefinite length, or the break (RFC 8949 section 3.2).
#[tactic(auto, using(crate::proofs::HeadReading::HeadFronts::code_small, crate::proofs::HeadReading::HeadFronts::endless_head))]
fn read_endless(major: Major) -> HeadRead
    ensures { (first : ℕ) (rest : List ℕ) → first / 32 ≡ code major → info_at (first % 32) ≡ EndlessInformation → ReadsHead (first ∷ rest) result }
{
    if is_always_bounded(major) {
        return HeadRead::Bad(WireReason::EndlessNotAllowed);
    }
    let argument = Argument::Endless;
    HeadRead::Full(head_of(major, argument), 1)
}

/// How many bytes follow the initial byte in a head of this width.
pub(crate) fn width_len(width: Width) -> usize
    ensures { result ≡ width_bytes width }
{
    match width {
        Width::Direct => 0,
        Width::One => 1,
        Width::Two => 2,
        Width::Four => 4,
        Width::Eight => 8,
    }
}

/// Whether this additional information is reserved (RFC 8949 section 3).
pub(crate) fn is_reserved(information: u8) -> bool
    requires { information < 32 }
    ensures { result ≡ is_reserved (info_at information) }
{
    information > 27 && information < 31
}

/// Whether this is the additional information of an indefinite length or the break.
pub(crate) fn is_endless(information: u8) -> bool
    requires { information < 32 }
    ensures { result ≡ is_endless_head (info_at information) }
{
    information == 31
}

/// Whether this major type has no indefinite length (RFC 8949 section 3.2).
pub(crate) fn is_always_bounded(major: Major) -> bool
    ensures { result ≡ is_always_bounded major }
{
    matches!(major, Major::Unsigned | Major::Negative | Major::Tag)
}

pub(crate) fn is_break(major: Major, information: u8) -> bool
    requires { information < 32 }
    ensures { result ≡ is_break major (info_at information) }
{
    major == Major::Other && is_endless(information)
}

/// Whether a head is that of a float (RFC 8949 section 3.3).
pub(crate) fn is_float(major: Major, information: u8) -> bool
    requires { information < 32 }
    ensures { result ≡ (is_other major && is_float (info_at information)) }
{
    major == Major::Other && matches!(information, 25..=27)
}

/// The width of a head with this additional information, from 24 to 27.
pub(crate) fn wide_width(information: u8) -> Width
    requires least { 24 ≤ information }
    requires most { information ≤ 27 }
    ensures { info_at information ≡ Next result }
{
    match information {
        24 => Width::One,
        25 => Width::Two,
        26 => Width::Four,
        _ => Width::Eight,
    }
}

/// The argument of a head of this width, at the front of `bytes`; `None` if it isn't whole.
pub(crate) fn read_number(width: Width, bytes: &[u8]) -> Option<u64>
    ensures { MatchOption result (length bytes.now < width_bytes width) (λ n. (width_bytes width ≤ length bytes.now) × (n ≡ number width (take (width_bytes width) bytes.now))) }
{
    match width {
        Width::Direct => Some(0),
        Width::One => Some(u64::from(*bytes.first()?)),
        Width::Two => Some(u64::from(u16::from_be_bytes(*bytes.first_chunk::<2>()?))),
        Width::Four => Some(u64::from(u32::from_be_bytes(*bytes.first_chunk::<4>()?))),
        Width::Eight => Some(u64::from_be_bytes(*bytes.first_chunk::<8>()?)),
    }
}

/// The major type of strings of this kind (RFC 8949 section 3.1).
#[inline(always)]
pub(crate) fn major_of(kind: StringKind) -> Major
    ensures { result ≡ major_of kind }
{
    match kind {
        StringKind::OfBytes => Major::ByteString,
        StringKind::OfText => Major::TextString,
    }
}

/// The head of major type `major`, from 0 to 6, with the argument `n`, which must fit the width:
/// its bytes come first in the array, and the number is their count (RFC 8949 section 3).
pub fn head_bytes(major: u8, width: Width, n: u64) -> ([u8; 9], usize)
    requires major { major ≤ 6 }
    requires fits { WidthFits width n }
    ensures len { result.1 ≤ 9 }
    ensures head { IsHead major width n (take result.1 result.0) }
{
    first_bytes(Major::at(major), width, n)
}

/// The head of any major type.
pub(crate) fn first_bytes(major: Major, width: Width, n: u64) -> ([u8; 9], usize)
    requires { WidthFits width n }
    ensures some { 0 < result.1 }
    ensures len { result.1 ≤ 9 }
    ensures head { take result.1 result.0 ≡ head_bytes (code major) width n }
{
    let [a, b, c, d, e, f, g, h] = n.to_be_bytes();
    match width {
        Width::Direct => ([major.initial_byte(n as u8), 0, 0, 0, 0, 0, 0, 0, 0], 1),
        Width::One => ([major.initial_byte(24), h, 0, 0, 0, 0, 0, 0, 0], 2),
        Width::Two => ([major.initial_byte(25), g, h, 0, 0, 0, 0, 0, 0], 3),
        Width::Four => ([major.initial_byte(26), e, f, g, h, 0, 0, 0, 0], 5),
        Width::Eight => ([major.initial_byte(27), a, b, c, d, e, f, g, h], 9),
    }
}

/// Appends the head of the major type with the argument `n`, which must fit the width (RFC 8949
/// section 3).
///
/// # Errors
/// `AllocError` if memory is refused; `out` is then unchanged.
#[inline(always)]
pub fn push_head(out: &mut Vec<u8>, major: Major, width: Width, n: u64) -> Result<(), AllocError>
    requires { WidthFits width n }
    ensures added { OnOk result (out.new.items ≡ out.old.items ++ head_bytes (code major) width n) }
    ensures kept { OnErr result (out.new.items ≡ out.old.items) }
{
    if let Width::Direct = width {
        return push_doubling(out, major.initial_byte(n as u8));
    }
    push_wide_head(out, major, width, n)
}

/// Appends a head, out of line, since most heads are one byte. Each width has its own call, for speed.
#[inline(never)]
fn push_wide_head(out: &mut Vec<u8>, major: Major, width: Width, n: u64) -> Result<(), AllocError>
    requires { WidthFits width n }
    ensures added { OnOk result (out.new.items ≡ out.old.items ++ head_bytes (code major) width n) }
    ensures kept { OnErr result (out.new.items ≡ out.old.items) }
{
    let [a, b, c, d, e, f, g, h] = n.to_be_bytes();
    match width {
        Width::Direct => out.extend_from_slice(&[major.initial_byte(n as u8)]),
        Width::One => out.extend_from_slice(&[major.initial_byte(24), h]),
        Width::Two => out.extend_from_slice(&[major.initial_byte(25), g, h]),
        Width::Four => out.extend_from_slice(&[major.initial_byte(26), e, f, g, h]),
        Width::Eight => out.extend_from_slice(&[major.initial_byte(27), a, b, c, d, e, f, g, h]),
    }
}
