//! Strings between quotes, with the escapes of JSON (RFC 8259 section 7).

ghost use Rattle.std.specs.Prelude.{◌≡◌, ℕ, ◌<◌, ◌≤◌, ◌==◌, ◌⊎◌, List, length, take, drop, slice_index, MatchOption, IfOk, true, false, None, Some};
ghost use Rattle.cborn_lex.specs.Common.{Class, Bytes};
ghost use Rattle.cborn_lex.specs.Cited.{Front as AnyFront, Bad, marked, is_content, is_unclosed, IsQuoted};
ghost use Rattle.cborn_lex.specs.devices.Common.{of_quoted, NoText, front_view, FrontStandsFor};

use crate::Result;
use crate::classes::{Kind, Mark};
use crate::faults::LexReason;
use crate::fronts::Front;
use crate::letters::push_letters;
use crate::slices::{mark_at, rest_of};

/// The offset in `tail` of the first quote that isn't after a backslash, if there is one.
#[tactic(auto, using(crate::proofs::Contents::Ends::one_more, crate::proofs::Contents::Ends::two_more, crate::proofs::Contents::Ends::ends, crate::proofs::Contents::Ends::ends_escaped))]
fn content_end(quote: u8, tail: &[u8]) -> Option<usize>
    requires { (quote == 92) ≡ false }
    ensures { MatchOption result (is_unclosed quote tail.now ≡ true) (λ i. (i < length tail.now) × (is_content quote (take i tail.now) ≡ true) × (slice_index tail.now i ≡ quote)) }
{
    let mut at: usize = 0;
    while at < tail.len() {
        if tail[at] == b'\\' {
            if at + 1 >= tail.len() {
                return None;
            }
            at += 2;
        } else if tail[at] == quote {
            return Some(at);
        } else {
            at += 1;
        }
    }
    None
}

/// Why a string is bad, and how many bytes it takes of `tail`, which follows its opening quote.
#[cold]
#[inline(never)]
fn bad_string(quote: u8, tail: &[u8]) -> (LexReason, usize)
    requires no_backslash { (quote == 92) ≡ false }
    requires none { NoText quote tail.now }
    ensures within { result.1 ≤ length tail.now }
    ensures reads { (k : List ℕ → Mark → Class) → IsQuoted quote k (take result.1 tail.now) (drop result.1 tail.now) (Bad result.0) }
{
    let Some(i) = content_end(quote, tail) else {
        return (LexReason::UnclosedString, tail.len());
    };
    let (_mark, m) = mark_at(rest_of(tail, i + 1));
    (LexReason::BadEscape, i + 1 + m)
}

/// The kind of a string between these quotes, or that its indicator is bad.
#[inline(always)]
fn quoted_front(quote: u8, mark: Option<Mark>) -> Front
    ensures { (n : ℕ) (x : List ℕ) → front_view n x result ≡ marked (of_quoted quote x) mark }
{
    match mark {
        Some(mark) if quote == b'"' => Front::Read(Kind::Text(mark)),
        _ => bytes_front(true, mark),
    }
}

/// The kind of a byte string, or that its indicator is bad.
#[inline(always)]
pub fn bytes_front(quoted: bool, mark: Option<Mark>) -> Front
    ensures { (n : ℕ) (x : List ℕ) → front_view n x result ≡ marked (Bytes quoted x) mark }
{
    match mark {
        Some(mark) => Front::Read(Kind::Bytes { quoted, mark }),
        None => Front::Bad(LexReason::BadIndicator),
    }
}

/// Reads a string after its opening quote, a double or a single one, and appends its bytes to `out`.
/// Gives its kind, or what is wrong with it, and how many bytes of `tail` it takes. Each quote has a
/// copy of the code.
pub fn quoted<const QUOTE: u8>(tail: &[u8], out: &mut Vec<u8>) -> Result<(Front, usize)>
    requires { (QUOTE ≡ 34) ⊎ (QUOTE ≡ 39) }
    ensures { IfOk result (λ r. (r.1 ≤ length tail.now) × ((a : AnyFront) × IsQuoted QUOTE (of_quoted QUOTE) (take r.1 tail.now) (drop r.1 tail.now) a × ((n : ℕ) → FrontStandsFor r.0 n out.old.items out.new.items a))) }
{
    let Some(i) = push_letters(QUOTE, tail, 0, out)? else {
        let (reason, n) = bad_string(QUOTE, tail);
        return Ok((Front::Bad(reason), n));
    };
    let (mark, m) = mark_at(rest_of(tail, i + 1));
    Ok((quoted_front(QUOTE, mark), i + 1 + m))
}
