//! White space, which comments are part of (RFC 8949 section 8, RFC 8610 appendix G.6).

ghost use Rattle.std.specs.Prelude.{◌≡◌, ◌≤◌, ◌<◌, ◌+◌, ◌==◌, [], true, length, take, drop, map, slice_index, IfSome};
ghost use Rattle.cborn_edn.specs.Common.{list_all, Profile as AnyProfile, is_white, is_not, TokensBetween};
ghost use Rattle.std.specs.Simd.Lanes.{mask_l};

use cborn_lex::{Profile, find};
use std::simd::prelude::*;

/// The offset of the first character, from the offset `at` of `text` on, that is neither white
/// space nor in a comment. It is the text's length if there is none. `None` if a comment isn't
/// closed, or if a `#` begins no comment in this profile.
#[inline(never)]
pub(crate) fn skip_white_space(profile: Profile, text: &[u8], at: usize) -> Option<usize>
    requires { at ≤ length text.now }
    ensures within { IfSome result (λ end. end ≤ length text.now) }
    ensures white_space { IfSome result (λ end. TokensBetween profile text.now at end []) }
{
    let mut place = at;
    'white_space: while place < text.len() {
        let c = text[place];
        if is_white(c) {
            place = white_end(text, place);
        } else if c == b'/' {
            place = slashed_end(profile, text, place)?;
        } else if c == b'#' {
            place = line_end(profile, text, place)?;
        } else {
            break;
        }
    }
    Some(place)
}

/// Whether white space or a comment may begin with the character `c`.
#[inline(always)]
pub(crate) fn begins_white_space(c: u8) -> bool {
    matches!(c, b' ' | b'\t' | b'\n' | b'\r' | b'/' | b'#')
}

/// Whether the character `c` is white space: a space, a tab, a line feed or a carriage return.
#[inline(always)]
fn is_white(c: u8) -> bool
    ensures { result ≡ is_white c }
{
    c == b' ' || c == b'\t' || c == b'\n' || c == b'\r'
}

/// An offset after the character of white space at the offset `at`, and after spaces that follow it.
#[inline(always)]
fn white_end(text: &[u8], at: usize) -> usize
    requires inside { at < length text.now }
    requires white { is_white (slice_index text.now at) ≡ true }
    ensures after { at < result }
    ensures within { result ≤ length text.now }
    ensures white_space { (profile : AnyProfile) → TokensBetween profile text.now at result [] }
{
    let next = at + 1;
    if text.len() - next < 16 {
        return next;
    }
    next + spaces_at(text, next)
}

/// How many spaces the sixteen bytes from the offset `at` on begin with.
#[inline(always)]
fn spaces_at(text: &[u8], at: usize) -> usize
    requires { at + 16 ≤ length text.now }
    ensures within { result ≤ 16 }
    ensures white_space { (profile : AnyProfile) → TokensBetween profile text.now at (at + result) [] }
{
    let found = bits_of_others(b' ', u8x16::from_slice(&text[at..]));
    if found == 0 {
        16
    } else {
        found.trailing_zeros() as usize
    }
}

/// How many of the 32 bytes from the offset `at` on come before the first that is `c`.
#[inline(always)]
fn place_in_block(c: u8, text: &[u8], at: usize) -> usize
    requires { at + 32 ≤ length text.now }
    ensures within { result ≤ 32 }
    ensures before { list_all (is_not c) (take result (drop at text.now)) ≡ true }
    ensures found { result < 32 → slice_index text.now (at + result) ≡ c }
{
    let found = bits_of(c, u8x32::from_slice(&text[at..]));
    if found == 0 {
        32
    } else {
        found.trailing_zeros() as usize
    }
}

/// A bit for each of sixteen bytes, the lowest for the first. It is set if the byte isn't `c`.
#[inline(always)]
fn bits_of_others(c: u8, bytes: u8x16) -> u64
    ensures { result ≡ mask_l (map (is_not c) bytes) }
{
    bytes.simd_ne(u8x16::splat(c)).to_bitmask()
}

/// A bit for each of 32 bytes, the lowest for the first. It is set if the byte is `c`.
#[inline(always)]
fn bits_of(c: u8, bytes: u8x32) -> u64
    ensures { result ≡ mask_l (map (λ d. d == c) bytes) }
{
    bytes.simd_eq(u8x32::splat(c)).to_bitmask()
}

/// The offset after the comment between slashes that begins at the offset `at`. `None` if no slash
/// closes it.
#[inline(always)]
fn slashed_end(profile: Profile, text: &[u8], at: usize) -> Option<usize>
    requires inside { at < length text.now }
    requires slash { slice_index text.now at ≡ 47 }
    ensures after { IfSome result (λ end. at < end) }
    ensures within { IfSome result (λ end. end ≤ length text.now) }
    ensures white_space { IfSome result (λ end. TokensBetween profile text.now at end []) }
{
    let next = at + 1;
    if text.len() - next >= 32 {
        let len = place_in_block(b'/', text, next);
        if len < 32 {
            return Some(at + len + 2);
        }
    }
    long_end(profile, text, at)
}

/// The offset after the comment between slashes that begins at the offset `at`, however long it is. `None`
/// if no slash closes it. Out of line, since most comments are short.
#[tactic(auto, using(crate::proofs::Reader::CommonTokens::comment_here, crate::proofs::Common::take_rest))]
#[inline(never)]
fn long_end(profile: Profile, text: &[u8], at: usize) -> Option<usize>
    requires inside { at < length text.now }
    requires slash { slice_index text.now at ≡ 47 }
    ensures after { IfSome result (λ end. at < end) }
    ensures within { IfSome result (λ end. end ≤ length text.now) }
    ensures white_space { IfSome result (λ end. TokensBetween profile text.now at end []) }
{
    let len = find(b'/', &text[at + 1..])?;
    Some(at + len + 2)
}

/// The offset after the comment that goes from the `#` at the offset `at` to the end of its line.
/// `None` in profile 1, which has no such comments.
#[tactic(auto, using(crate::proofs::Reader::CommonTokens::line_here, crate::proofs::Common::take_rest, crate::proofs::Reader::CommonTokens::last_line_here))]
#[inline(never)]
fn line_end(profile: Profile, text: &[u8], at: usize) -> Option<usize>
    requires inside { at < length text.now }
    requires hash { slice_index text.now at ≡ 35 }
    ensures after { IfSome result (λ end. at < end) }
    ensures within { IfSome result (λ end. end ≤ length text.now) }
    ensures white_space { IfSome result (λ end. TokensBetween profile text.now at end []) }
{
    match profile {
        Profile::One => None,
        Profile::Two => match find(b'\n', &text[at + 1..]) {
            Some(len) => Some(at + len + 2),
            None => Some(text.len()),
        },
    }
}
