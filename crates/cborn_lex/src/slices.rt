//! Characters and slices of a text, as bytes of UTF-8.

ghost use Rattle.std.specs.Prelude.{◌≡◌, ◌<◌, ◌≤◌, length, take, drop, slice_index, MatchOption, true, ◌==◌, [], ◌∷◌};
ghost use Rattle.cborn_lex.specs.Common.{list_all, is_ascii_digit};
ghost use Rattle.cborn_lex.specs.Cited.{is_white, is_word, is_numeral, is_not, mark_of, begins, has_prefix, IsRun, IsIndicator};

use crate::classes::Mark;
use crate::letters::plain_run;
use cborn_model::Width;

/// Whether a character is white space: a space, a tab, a line feed or a carriage return.
#[inline(always)]
pub fn is_white(c: u8) -> bool
    ensures { result ≡ is_white c }
{
    c == b' ' || c == b'\t' || c == b'\n' || c == b'\r'
}

/// Whether a character may be in a word or an indicator.
fn is_word(c: u8) -> bool
    ensures { result ≡ is_word c }
{
    c.is_ascii_alphanumeric() || c == b'_'
}

/// Whether a character may be in a number.
#[inline(always)]
pub fn is_numeral(c: u8) -> bool
    ensures { result ≡ is_numeral c }
{
    c.is_ascii_alphanumeric() || c == b'.'
}

/// What follows the first `n` bytes of `x`.
#[inline(always)]
pub fn rest_of(x: &[u8], n: usize) -> &[u8]
    requires { n ≤ length x.now }
    ensures { result.now ≡ drop n x.now }
{
    &x[n..]
}

/// The first `n` bytes of `x`.
#[inline(always)]
pub fn front_of(x: &[u8], n: usize) -> &[u8]
    requires { n ≤ length x.now }
    ensures { result.now ≡ take n x.now }
{
    &x[..n]
}

/// Whether `x` begins with the character `c`.
#[inline(always)]
pub fn begins_with(c: u8, x: &[u8]) -> bool
    ensures { result ≡ begins (λ d. d == c) x.now }
{
    x.len() > 0 && x[0] == c
}

/// Whether `x` begins with the bytes `p`.
pub fn has_prefix(p: &[u8], x: &[u8]) -> bool
    ensures { result ≡ has_prefix p.now x.now }
{
    x.len() >= p.len() && &x[..p.len()] == p
}

/// The offset in `tail` of the first byte that is `wanted`, if there is one.
#[tactic(auto, using(crate::proofs::Runs::plain_others))]
pub fn find(wanted: u8, tail: &[u8]) -> Option<usize>
    ensures { MatchOption result (list_all (is_not wanted) tail.now ≡ true) (λ i. (i < length tail.now) × (list_all (is_not wanted) (take i tail.now) ≡ true) × (slice_index tail.now i ≡ wanted)) }
{
    let run = plain_run(wanted, tail);
    if run < tail.len() && tail[run] == wanted {
        return Some(run);
    }
    for (i, c) in tail.iter().enumerate() {
        if *c == wanted {
            return Some(i);
        }
    }
    None
}

/// How many word characters `tail` begins with.
pub fn word_len(tail: &[u8]) -> usize
    ensures within { result ≤ length tail.now }
    ensures run { IsRun is_word (take result tail.now) (drop result tail.now) }
{
    for (i, c) in tail.iter().enumerate() {
        if !is_word(*c) {
            return i;
        }
    }
    tail.len()
}

/// How many characters of a number `tail` begins with.
pub fn numeral_len(tail: &[u8]) -> usize
    ensures within { result ≤ length tail.now }
    ensures run { IsRun is_numeral (take result tail.now) (drop result tail.now) }
{
    for (i, c) in tail.iter().enumerate() {
        if !is_numeral(*c) {
            return i;
        }
    }
    tail.len()
}

/// The encoding indicator that `x` begins with (RFC 8949 section 8.1), and its length in bytes. It
/// is `Mark::Absent` if `x` begins with no underscore, and `None` if the underscore begins no
/// indicator.
#[inline(always)]
pub fn mark_at(x: &[u8]) -> (Option<Mark>, usize)
    ensures within { result.1 ≤ length x.now }
    ensures run { IsIndicator (take result.1 x.now) (drop result.1 x.now) }
    ensures mark { result.0 ≡ mark_of (take result.1 x.now) }
{
    if x.len() == 0 || x[0] != b'_' {
        return (Some(Mark::Absent), 0);
    }
    underscored_mark(x)
}

/// The encoding indicator that the underscore at the front of `x` begins, and its length in bytes. `None`
/// in its place if it is none. Out of line, since few tokens have one.
#[tactic(auto, using(crate::proofs::TwoParts::long_mark, crate::proofs::TwoParts::underscored))]
#[inline(never)]
fn underscored_mark(x: &[u8]) -> (Option<Mark>, usize)
    requires some { 0 < length x.now }
    requires underscore { slice_index x.now 0 ≡ 95 }
    ensures within { result.1 ≤ length x.now }
    ensures run { IsIndicator (take result.1 x.now) (drop result.1 x.now) }
    ensures mark { result.0 ≡ mark_of (take result.1 x.now) }
{
    if x.len() == 1 || !is_word(x[1]) {
        return (Some(Mark::Endless), 1);
    }
    if x.len() > 2 && is_word(x[2]) {
        return (None, word_len(rest_of(x, 1)) + 1);
    }
    match x[1] {
        b'0' => (Some(Mark::Wide(Width::One)), 2),
        b'1' => (Some(Mark::Wide(Width::Two)), 2),
        b'2' => (Some(Mark::Wide(Width::Four)), 2),
        b'3' => (Some(Mark::Wide(Width::Eight)), 2),
        _ => (None, 2),
    }
}
