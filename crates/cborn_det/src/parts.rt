//! The parts of an encoding, at the end of a buffer: strings, integers and simple values.

ghost use Rattle.std.specs.Prelude.{◌≡◌, ◌++◌};
ghost use Rattle.cborn_det.specs.Common.{ℕ, List, OnOk, OnErr, IsTrue, Ordering, code, is_simple_value, simple};
ghost use Rattle.cborn_det.specs.Appending.{Appends};
ghost use Rattle.cborn_det.specs.devices.Writing.{Writes};
ghost use Rattle.cborn_det.specs.Det.{Det, IsInteger, IsString, major_of};

use crate::heads::put_head;
use cborn_model::{Major, word_of};
use std::alloc::AllocError;

pub(crate) fn push_string(major: Major, bytes: &[u8], out: &mut Vec<u8>) -> Result<(), AllocError>
    ensures { Writes result (IsString (code major) bytes.now) out.old.items out.new.items }
{
    put_head(major, bytes.len() as u64, out)?;
    out.extend_from_slice(bytes)
}

/// The major type of an integer within 64 bits (RFC 8949 section 3.1).
#[inline]
pub fn integer_major(negative: bool) -> Major
    ensures { code result ≡ major_of negative }
{
    if negative {
        Major::Negative
    } else {
        Major::Unsigned
    }
}

/// Appends the integer of this magnitude: a head alone within 64 bits, else tag 2 or 3 and the
/// magnitude as it is (RFC 8949 section 3.4.3).
///
/// # Errors
/// `AllocError` if memory is refused; a front of the integer may then be left in `out`.
pub fn push_integer(negative: bool, magnitude: &[u8], out: &mut Vec<u8>) -> Result<(), AllocError>
    ensures added { OnOk result (Appends (IsInteger negative magnitude.now) out.old.items out.new.items) }
    ensures front { OnErr result ((front : List ℕ) × (out.new.items ≡ out.old.items ++ front)) }
{
    match word_of(magnitude) {
        Some(n) => put_head(integer_major(negative), n, out),
        None => {
            let tag = if negative { 3 } else { 2 };
            put_head(Major::Tag, tag, out)?;
            push_string(Major::ByteString, magnitude, out)?;
            Ok(())
        }
    }
}

pub(crate) fn push_simple(n: u8, out: &mut Vec<u8>) -> Result<(), AllocError>
    requires { IsTrue (is_simple_value n) }
    ensures { (order : List ℕ → List ℕ → Ordering) → Writes result (Det order (simple n)) out.old.items out.new.items }
{
    put_head(Major::Other, u64::from(n), out)
}
