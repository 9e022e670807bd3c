//! What a text begins with. Most functions read `tail`, which follows the first character, and give
//! a front and how many bytes of `tail` it takes.

ghost use Rattle.std.specs.Prelude.{◌≡◌, ℕ, ◌<◌, ◌≤◌, List, [], length, take, drop, slice_index, IfOk, false, ◌⊎◌};
ghost use Rattle.cborn_lex.specs.Common.{ArrayOpen, MapOpen, EmbedClose};
ghost use Rattle.cborn_lex.specs.Cited.{Front as AnyFront, WhiteSpace, is_white, mark_of, marked, start_of, less, greater, hash, paren_front, IsIndicator, Through, Lacks, ReadsFrom, Reads};
ghost use Rattle.cborn_lex.specs.devices.Common.{front_view, FrontStandsFor};

use crate::Result;
use crate::classes::{Kind, Mark, Profile};
use crate::escaped::quoted;
use crate::faults::LexReason;
use crate::integers::{number_at, number_from_digit};
use crate::keywords::word_at;
use crate::slices::{begins_with, find, mark_at, rest_of};
use std::alloc::Global;

/// What a text begins with.
#[derive(Clone, Copy)]
pub enum Front {
    /// White space: a comment.
    WhiteSpace,
    /// A token.
    Read(Kind),
    /// Neither, for this reason.
    Bad(LexReason),
}

/// Reads a comment up to the character `end`, or up to the text's end, where it is `unclosed`.
fn comment(end: u8, tail: &[u8], unclosed: Front) -> (Front, usize)
    ensures within { result.1 ≤ length tail.now }
    ensures reads { (n : ℕ) → ((body : List ℕ) × Through end body (take result.1 tail.now) × (front_view n [] result.0 ≡ WhiteSpace)) ⊎ (Lacks end (take result.1 tail.now) (drop result.1 tail.now) × (front_view n [] result.0 ≡ front_view n [] unclosed)) }
{
    match find(end, tail) {
        Some(i) => (Front::WhiteSpace, i + 1),
        None => (unclosed, tail.len()),
    }
}

/// The front of a bracket, by its first character, and its indicator, which `tail` begins with.
#[inline(always)]
fn bracket(first: u8, tail: &[u8]) -> (Front, usize)
    ensures within { result.1 ≤ length tail.now }
    ensures run { IsIndicator (take result.1 tail.now) (drop result.1 tail.now) }
    ensures array { (n : ℕ) → first ≡ 91 → front_view n [] result.0 ≡ marked ArrayOpen (mark_of (take result.1 tail.now)) }
    ensures map { (n : ℕ) → first ≡ 123 → front_view n [] result.0 ≡ marked MapOpen (mark_of (take result.1 tail.now)) }
    ensures embedded { (n : ℕ) → first ≡ 62 → front_view n [] result.0 ≡ marked EmbedClose (mark_of (take result.1 tail.now)) }
    ensures paren { (n : ℕ) → first ≡ 40 → front_view n [] result.0 ≡ paren_front (take result.1 tail.now) }
{
    let (mark, n) = mark_at(tail);
    let front = match (first, mark) {
        (b'[', Some(mark)) => Front::Read(Kind::ArrayOpen(mark)),
        (b'{', Some(mark)) => Front::Read(Kind::MapOpen(mark)),
        (b'>', Some(mark)) => Front::Read(Kind::EmbedClose(mark)),
        (b'(', Some(Mark::Endless)) => Front::Read(Kind::ChunkOpen),
        (b'(', Some(Mark::Absent)) => Front::Bad(LexReason::UnexpectedCharacter),
        _ => Front::Bad(LexReason::BadIndicator),
    };
    (front, n)
}

/// What a `<` begins.
fn less(tail: &[u8]) -> (Front, usize)
    ensures within { result.1 ≤ length tail.now }
    ensures reads { (n : ℕ) (profile : Profile) (c : ℕ) → ReadsFrom less profile c (take result.1 tail.now) (drop result.1 tail.now) (front_view n [] result.0) }
{
    if begins_with(b'<', tail) {
        (Front::Read(Kind::EmbedOpen), 1)
    } else {
        (Front::Bad(LexReason::UnexpectedCharacter), 0)
    }
}

/// What a `>` begins.
fn greater(tail: &[u8]) -> (Front, usize)
    ensures within { result.1 ≤ length tail.now }
    ensures reads { (n : ℕ) (profile : Profile) (c : ℕ) → ReadsFrom greater profile c (take result.1 tail.now) (drop result.1 tail.now) (front_view n [] result.0) }
{
    if begins_with(b'>', tail) {
        let (front, n) = bracket(b'>', rest_of(tail, 1));
        (front, n + 1)
    } else {
        (Front::Bad(LexReason::UnexpectedCharacter), 0)
    }
}

/// What the first character of `text` begins, which isn't white space, and how many bytes that
/// takes of what follows it. A number is put into `number`, and the content of a string is appended
/// to `out`.
pub fn first_of(
    alloc: Global,
    profile: Profile,
    text: &[u8],
    number: &mut u128,
    out: &mut Vec<u8>,
) -> Result<(Front, usize)>
    requires some { 0 < length text.now }
    requires no_white { is_white (slice_index text.now 0) ≡ false }
    ensures { IfOk result (λ r. (r.1 ≤ length (drop 1 text.now)) × ((a : AnyFront) × ReadsFrom (start_of (slice_index text.now 0)) profile (slice_index text.now 0) (take r.1 (drop 1 text.now)) (drop r.1 (drop 1 text.now)) a × FrontStandsFor r.0 number.new out.old.items out.new.items a)) }
{
    let tail = rest_of(text, 1);
    match text[0] {
        b',' => Ok((Front::Read(Kind::Comma), 0)),
        b':' => Ok((Front::Read(Kind::Colon), 0)),
        b'[' => Ok(bracket(b'[', tail)),
        b'{' => Ok(bracket(b'{', tail)),
        b']' => Ok((Front::Read(Kind::ArrayClose), 0)),
        b'}' => Ok((Front::Read(Kind::MapClose), 0)),
        b')' => Ok((Front::Read(Kind::ParenClose), 0)),
        b'0'..=b'9' => Ok(number_from_digit(text, tail, number)),
        b'-' => Ok(number_at(true, tail, number)),
        b'"' => quoted::<b'"'>(tail, out),
        b'\'' => quoted::<b'\''>(tail, out),
        b'a'..=b'z' | b'A'..=b'Z' => word_at(alloc, text, tail, out),
        b'(' => Ok(bracket(b'(', tail)),
        b'<' => Ok(less(tail)),
        b'>' => Ok(greater(tail)),
        b'/' => Ok(comment(b'/', tail, Front::Bad(LexReason::UnclosedComment))),
        b'#' => Ok(hash(profile, tail)),
        _ => Ok((Front::Bad(LexReason::UnexpectedCharacter), 0)),
    }
}

/// What a `#` begins.
fn hash(profile: Profile, tail: &[u8]) -> (Front, usize)
    ensures within { result.1 ≤ length tail.now }
    ensures reads { (n : ℕ) (c : ℕ) → ReadsFrom hash profile c (take result.1 tail.now) (drop result.1 tail.now) (front_view n [] result.0) }
{
    match profile {
        Profile::One => (Front::Bad(LexReason::UnexpectedCharacter), 0),
        Profile::Two => comment(b'\n', tail, Front::WhiteSpace),
    }
}
