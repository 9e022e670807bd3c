//! The letters between the quotes of a string (RFC 8259 section 7). A letter is one byte of UTF-8.
//!
//! A *plain* letter stands for itself. The others are the closing quote, a backslash, which begins
//! an escape, and control characters, which no string may have.

ghost use Rattle.std.specs.Prelude.{◌≡◌, ◌≤◌, ◌<◌, ◌+◌, ◌++◌, ℕ, List, true, length, take, drop, map, slice_index, IfOk, OnOk, MatchOption, None, Some, false, encode_utf8, ◌⊎◌};
ghost use Rattle.cborn_lex.specs.Common.{list_all};
ghost use Rattle.cborn_lex.specs.Cited.{is_escape, escape_code};
ghost use Rattle.cborn_lex.specs.devices.Common.{escape_of, is_plain, is_special, LettersSoFar, LettersTaken, NoText};
ghost use Rattle.std.specs.Simd.Lanes.{mask_l};

use crate::Result;
use crate::slices::rest_of;
use crate::units::unit_at;
use std::alloc::AllocError;
use std::simd::prelude::*;

/// How many plain letters `tail` begins with: bytes that are no control characters, no backslashes
/// and not the closing quote `quote` (RFC 8259 section 7).
#[tactic(auto, using(crate::proofs::Runs::more_plain))]
#[inline(always)]
pub fn plain_run(quote: u8, tail: &[u8]) -> usize
    ensures within { result ≤ length tail.now }
    ensures plain { list_all (is_plain quote) (take result tail.now) ≡ true }
    ensures ends { result < length tail.now → is_plain quote (slice_index tail.now result) ≡ false }
{
    let mut at: usize = 0;
    'blocks: while tail.len() - at >= 16 {
        let n = run_of_block(quote, tail, at);
        at += n;
        if n < 16 {
            return at;
        }
    }
    plain_rest(quote, tail, at)
}

/// How many plain letters `tail` begins with. The first `from` are known to be plain.
#[inline(never)]
fn plain_rest(quote: u8, tail: &[u8], from: usize) -> usize
    requires within { from ≤ length tail.now }
    requires plain { list_all (is_plain quote) (take from tail.now) ≡ true }
    ensures within { result ≤ length tail.now }
    ensures plain { list_all (is_plain quote) (take result tail.now) ≡ true }
    ensures ends { result < length tail.now → is_plain quote (slice_index tail.now result) ≡ false }
{
    let mut at = from;
    'letters: while at < tail.len() && is_plain(quote, tail[at]) {
        at += 1;
    }
    at
}

/// Whether the letter `c` is plain: no control character, no backslash and not the closing quote.
#[inline(always)]
fn is_plain(quote: u8, c: u8) -> bool
    ensures { result ≡ is_plain quote c }
{
    c >= 32 && c != b'\\' && c != quote
}

/// How many of the sixteen letters from the offset `at` on come before the first that isn't plain.
#[inline(always)]
fn run_of_block(quote: u8, tail: &[u8], at: usize) -> usize
    requires { at + 16 ≤ length tail.now }
    ensures within { result ≤ 16 }
    ensures plain { list_all (is_plain quote) (take result (drop at tail.now)) ≡ true }
    ensures ends { result < 16 → is_plain quote (slice_index tail.now (at + result)) ≡ false }
{
    let found = special_letters(quote, u8x16::from_slice(&tail[at..]));
    if found == 0 {
        16
    } else {
        found.trailing_zeros() as usize
    }
}

/// A bit for each of the letters, the lowest for the first. It is set if the letter isn't plain.
#[inline(always)]
fn special_letters<const N: usize>(quote: u8, letters: Simd<u8, N>) -> u64
    requires { N ≤ 64 }
    ensures { result ≡ mask_l (map (is_special quote) letters.entry) }
{
    let quotes = letters.simd_eq(Simd::splat(quote));
    let backslashes = letters.simd_eq(Simd::splat(b'\\'));
    let controls = letters.simd_lt(Simd::splat(32));
    (quotes | backslashes | controls).to_bitmask()
}

/// Appends the bytes that the letters of a string stand for, from the offset `from` of `tail` up to
/// the closing quote, and gives the offset of that quote in `tail` (RFC 8259 section 7). `None` if
/// no quote closes the string, or if there is a control character or a backslash that begins no
/// escape. What `out` had always stays. After `None` or an error a part of the bytes may follow it.
///
/// # Errors
/// `AllocError` if memory was refused.
#[tactic(auto, using(crate::proofs::Runs::escape_within))]
#[inline(always)]
pub fn push_letters(
    quote: u8,
    tail: &[u8],
    from: usize,
    out: &mut Vec<u8>,
) -> Result<Option<usize>, AllocError>
    requires double_or_single { (quote ≡ 34) ⊎ (quote ≡ 39) }
    requires within { from ≤ length tail.now }
    ensures letters { IfOk result (λ r. MatchOption r ((old : List ℕ) → LettersSoFar quote tail.now from old out.old.items → NoText quote tail.now) (λ len. (len < length tail.now) × ((old : List ℕ) → LettersSoFar quote tail.now from old out.old.items → LettersTaken quote tail.now len old out.new.items))) }
    ensures before { take (length out.old.items) out.new.items ≡ out.old.items }
{
    let mut at = from;
    'letters: while at < tail.len() {
        let n = push_run(quote, tail, at, out)?;
        at += n;
        if at == tail.len() {
            return Ok(None);
        }
        let c = tail[at];
        if c == quote {
            return Ok(Some(at));
        }
        if c != b'\\' {
            return Ok(None);
        }
        match push_escape(quote, tail, at, out)? {
            Some(end) => {
                let is_dense = n <= 16 && end - at == 2;
                at = push_short_runs(quote, tail, end, is_dense, out)?;
            }
            None => return Ok(None),
        }
    }
    Ok(None)
}

/// Appends what the letters from the offset `from` of `tail` on stand for, as long as they are
/// escapes of two characters and short runs of plain letters. Gives the offset at which it stops.
/// It finds the letters of a block that aren't plain all at once, so that an escape needn't wait
/// for the one before it. That pays only in a long string with many such escapes, so it does
/// nothing in the first 64 letters, nor if `is_dense` is false.
#[inline(always)]
fn push_short_runs(
    quote: u8,
    tail: &[u8],
    from: usize,
    is_dense: bool,
    out: &mut Vec<u8>,
) -> Result<usize>
    requires double_or_single { (quote ≡ 34) ⊎ (quote ≡ 39) }
    requires within { from ≤ length tail.now }
    ensures within { IfOk result (λ at. (from ≤ at) × (at ≤ length tail.now)) }
    ensures letters { IfOk result (λ at. (old : List ℕ) → LettersSoFar quote tail.now from old out.old.items → LettersSoFar quote tail.now at old out.new.items) }
    ensures before { take (length out.old.items) out.new.items ≡ out.old.items }
{
    if !is_dense || from < 64 || tail.len() - from < 96 {
        return Ok(from);
    }
    let mut at = from;
    let mut left = special_letters(quote, u8x64::from_slice(&tail[at..]));
    'escapes: while left != 0 {
        let n = left.trailing_zeros() as usize;
        if n > 16 {
            return Ok(at);
        }
        push_block(&tail[at..], n, out)?;
        at += n;
        if tail[at] != b'\\' {
            return Ok(at);
        }
        if !push_short_escape(quote, tail, at, out)? {
            return Ok(at);
        }
        at += 2;
        left = left >> n >> 2;
    }
    Ok(at)
}

/// Appends the plain letters from the offset `at` of `tail` on, and gives how many they are.
#[inline(always)]
fn push_run(quote: u8, tail: &[u8], at: usize, out: &mut Vec<u8>) -> Result<usize>
    requires { at ≤ length tail.now }
    ensures within { IfOk result (λ n. at + n ≤ length tail.now) }
    ensures plain { IfOk result (λ n. list_all (is_plain quote) (take n (drop at tail.now)) ≡ true) }
    ensures ends { IfOk result (λ n. at + n < length tail.now → is_plain quote (slice_index tail.now (at + n)) ≡ false) }
    ensures written { IfOk result (λ n. out.new.items ≡ out.old.items ++ take n (drop at tail.now)) }
    ensures before { take (length out.old.items) out.new.items ≡ out.old.items }
{
    if tail.len() - at < 16 {
        return push_long_run(quote, &tail[at..], out);
    }
    let n = run_of_block(quote, tail, at);
    if n < 16 {
        push_block(&tail[at..], n, out)?;
        return Ok(n);
    }
    push_long_run(quote, &tail[at..], out)
}

/// Appends the first `n` of sixteen letters: all sixteen, since a copy of known length is quicker, and
/// then cuts off the rest.
#[inline(always)]
fn push_block(tail: &[u8], n: usize, out: &mut Vec<u8>) -> Result
    requires few { n ≤ 16 }
    requires block { 16 ≤ length tail.now }
    ensures written { OnOk result (out.new.items ≡ out.old.items ++ take n tail.now) }
    ensures before { take (length out.old.items) out.new.items ≡ out.old.items }
{
    let end = out.len() + n;
    out.extend_from_slice(&tail[..16])?;
    out.truncate(end);
    Ok(())
}

/// Appends the plain letters that `tail` begins with, and gives how many they are. It counts them
/// first, so that an empty buffer takes only the memory that they need.
#[inline(never)]
fn push_long_run(quote: u8, tail: &[u8], out: &mut Vec<u8>) -> Result<usize>
    ensures within { IfOk result (λ n. n ≤ length tail.now) }
    ensures plain { IfOk result (λ n. list_all (is_plain quote) (take n tail.now) ≡ true) }
    ensures ends { IfOk result (λ n. n < length tail.now → is_plain quote (slice_index tail.now n) ≡ false) }
    ensures written { IfOk result (λ n. out.new.items ≡ out.old.items ++ take n tail.now) }
    ensures before { take (length out.old.items) out.new.items ≡ out.old.items }
{
    let n = plain_run(quote, tail);
    out.extend_from_slice(&tail[..n])?;
    Ok(n)
}

/// Appends in UTF-8 the character of the escape whose backslash is at the offset `at` of `tail`,
/// and gives the offset after the escape. `None` if the backslash begins no escape.
#[tactic(auto, using(crate::proofs::Runs::unit_escape, crate::proofs::Runs::escape_within))]
#[inline(always)]
fn push_escape(quote: u8, tail: &[u8], at: usize, out: &mut Vec<u8>) -> Result<Option<usize>>
    requires double_or_single { (quote ≡ 34) ⊎ (quote ≡ 39) }
    requires inside { at < length tail.now }
    requires backslash { slice_index tail.now at ≡ 92 }
    ensures escape { IfOk result (λ r. MatchOption r (escape_of quote (drop (at + 1) tail.now) ≡ None) (λ end. (c : ℕ) × (size : ℕ) × (escape_of quote (drop (at + 1) tail.now) ≡ Some (c, size)) × (end ≡ at + size) × (out.new.items ≡ out.old.items ++ encode_utf8 c))) }
    ensures before { take (length out.old.items) out.new.items ≡ out.old.items }
{
    if at + 1 == tail.len() {
        return Ok(None);
    }
    let second = tail[at + 1];
    if second == b'u' {
        let Some(c) = unit_at(rest_of(tail, at + 2)) else {
            return Ok(None);
        };
        push_char(out, c)?;
        return Ok(Some(at + 6 * c.len_utf16()));
    }
    Ok(push_short_escape(quote, tail, at, out)?.then_some(at + 2))
}

/// Appends the character `c` in UTF-8.
fn push_char(bytes: &mut Vec<u8>, c: char) -> Result
    ensures written { OnOk result (bytes.new.items ≡ bytes.old.items ++ encode_utf8 c) }
    ensures before { take (length bytes.old.items) bytes.new.items ≡ bytes.old.items }
{
    let mut room = [0; 4];
    for byte in c.encode_utf8(&mut room).as_bytes() {
        bytes.push(*byte)?;
    }
    Ok(())
}

/// Appends the character of the escape of two characters whose backslash is at the offset `at` of
/// `tail`. `false`, and nothing is appended, if there is no such escape.
#[inline(always)]
fn push_short_escape(quote: u8, tail: &[u8], at: usize, out: &mut Vec<u8>) -> Result<bool>
    requires double_or_single { (quote ≡ 34) ⊎ (quote ≡ 39) }
    requires inside { at + 1 < length tail.now }
    ensures escape { IfOk result (λ found. found ≡ true → (c : ℕ) × (escape_of quote (drop (at + 1) tail.now) ≡ Some (c, 2)) × (out.new.items ≡ out.old.items ++ encode_utf8 c)) }
    ensures none { IfOk result (λ found. found ≡ false → (is_escape quote (slice_index tail.now (at + 1)) ≡ false) × (out.new.items ≡ out.old.items)) }
    ensures before { take (length out.old.items) out.new.items ≡ out.old.items }
{
    let Some(c) = escape_code(quote, tail[at + 1]) else {
        return Ok(false);
    };
    out.push(c)?;
    Ok(true)
}

/// The character of an escape of two characters, whose second is `second`. `None` if there is no
/// such escape. `\'` is an escape only in single quotes.
#[inline(always)]
fn escape_code(quote: u8, second: u8) -> Option<u8>
    requires double_or_single { (quote ≡ 34) ⊎ (quote ≡ 39) }
    ensures { MatchOption result (is_escape quote second ≡ false) (λ c. (is_escape quote second ≡ true) × (c ≡ escape_code second)) }
{
    if second >= 128 {
        return None;
    }
    let c = ESCAPED[second as usize];
    if c == 0 || (c == b'\'' && quote != b'\'') {
        return None;
    }
    Some(c)
}

/// The character of each escape of two characters, by the second one. 0 if there is no such escape.
const ESCAPED: [u8; 128] = [
    0, 0, 0, 0, 0, 0, 0, 0, 0, 0, 0, 0, 0, 0, 0, 0, 0, 0, 0, 0, 0, 0, 0, 0, 0, 0, 0, 0, 0, 0, 0, 0,
    0, 0, b'"', 0, 0, 0, 0, b'\'', 0, 0, 0, 0, 0, 0, 0, b'/', 0, 0, 0, 0, 0, 0, 0, 0, 0, 0, 0, 0,
    0, 0, 0, 0, 0, 0, 0, 0, 0, 0, 0, 0, 0, 0, 0, 0, 0, 0, 0, 0, 0, 0, 0, 0, 0, 0, 0, 0, 0, 0, 0, 0,
    b'\\', 0, 0, 0, 0, 0, 8, 0, 0, 0, 12, 0, 0, 0, 0, 0, 0, 0, 10, 0, 0, 0, 13, 0, 9, 0, 0, 0, 0,
    0, 0, 0, 0, 0, 0, 0,
];
