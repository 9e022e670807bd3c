//! Frequent tokens, found in a text without the lexer (RFC 8949 section 8, RFC 8610 appendix G.3).

ghost use Rattle.std.specs.Prelude.{◌≡◌, ◌≤◌, ◌<◌, ◌+◌, ◌++◌, ◌==◌, ◌||◌, ℕ, List, [], true, false, length, take, drop, slice_index, IfOk, IfSome, MatchOption, if◌then◌else◌};
ghost use Rattle.cborn_edn.specs.Common.{Absent, IsName, IsUtf8, TokensBetween, begins, is_word};
ghost use Rattle.cborn_edn.specs.devices.Common.{IsTokenAt, opening, opening_character, ends_string, NoPieceAt, IsTextAt};
ghost use Rattle.cborn_lex.specs.declared.classes.Class.TheVariants as classes;
ghost use Rattle.cborn_lex.specs.declared.classes.Mark.TheVariants as marks;

use crate::Result;
use crate::white_space::skip_white_space;
use cborn_lex::{Mark, Profile, decimal_at, mark_at, plain_run, push_letters};

/// Of the `{` or `[` at the offset `at` of `text`: whether it begins a map, its indicator, and the offset
/// after it. `None` if no such bracket is there, or if an underscore follows it that begins no indicator.
#[tactic(auto, using(crate::proofs::Reader::Items::opening_here, crate::proofs::Reader::Items::opening_takes, crate::proofs::Common::take_rest))]
#[inline(always)]
pub(crate) fn opening_at(text: &[u8], at: usize) -> Option<(bool, Mark, usize)>
    requires { at < length text.now }
    ensures within { IfSome result (λ r. r.2 ≤ length text.now) }
    ensures token { IfSome result (λ r. (profile : Profile) → IsTokenAt profile text.now at r.2 (opening r.0 r.1)) }
{
    let is_map = text[at] == b'{';
    if text[at] != opening_character(is_map) {
        return None;
    }
    let (mark, len) = mark_at(&text[at + 1..]);
    Some((is_map, mark?, at + 1 + len))
}

/// Whether `text` has a `{`, or else a `[`, at the offset `at`, and no indicator after it.
#[tactic(auto, using(crate::proofs::Reader::Items::bare_opening, crate::proofs::Reader::Items::opening_takes, crate::proofs::Common::take_rest))]
#[inline(always)]
pub(crate) fn opens_at(is_map: bool, text: &[u8], at: usize) -> bool
    ensures within { result ≡ true → at < length text.now }
    ensures token { result ≡ true → (profile : Profile) → IsTokenAt profile text.now at (at + 1) (opening is_map Absent) }
{
    has_byte_at(opening_character(is_map), text, at) && !begins_with(b'_', &text[at + 1..])
}

/// Whether `text` has the byte `c` at the offset `at`.
#[inline(always)]
pub(crate) fn has_byte_at(c: u8, text: &[u8], at: usize) -> bool
    ensures within { result ≡ true → at < length text.now }
    ensures is { result ≡ true → slice_index text.now at ≡ c }
{
    at < text.len() && text[at] == c
}

/// The bracket that begins a map, or else an array.
#[inline(always)]
fn opening_character(is_map: bool) -> u8
    ensures { result ≡ opening_character is_map }
{
    if is_map { b'{' } else { b'[' }
}

/// The indicator of the `>>` at the offset `at` of `text`, where a `>` is, and the offset after it.
/// `None` if there is no second `>`, or if an underscore follows that begins no indicator.
#[tactic(auto, using(crate::proofs::Reader::Items::embed_end_here, crate::proofs::Common::take_rest))]
#[inline(always)]
pub(crate) fn embed_end_at(text: &[u8], at: usize) -> Option<(Mark, usize)>
    requires inside { at < length text.now }
    requires greater { slice_index text.now at ≡ 62 }
    ensures within { IfSome result (λ r. r.1 ≤ length text.now) }
    ensures token { IfSome result (λ r. (profile : Profile) → IsTokenAt profile text.now at r.1 (classes.EmbedClose r.0)) }
{
    let second = at + 1;
    if second == text.len() || text[second] != b'>' {
        return None;
    }
    let (mark, len) = mark_at(&text[second + 1..]);
    Some((mark?, second + 1 + len))
}

/// Whether the `<` at the offset `at` of `text` is the first of a `<<`.
#[inline(always)]
pub(crate) fn embeds_at(text: &[u8], at: usize) -> bool
    requires inside { at < length text.now }
    requires less { slice_index text.now at ≡ 60 }
    ensures within { result ≡ true → at + 2 ≤ length text.now }
    ensures token { result ≡ true → (profile : Profile) → IsTokenAt profile text.now at (at + 2) classes.EmbedOpen }
{
    let second = at + 1;
    second < text.len() && text[second] == b'<'
}

/// Whether an underscore and a space follow the `(` at the offset `at` of `text`.
#[tactic(auto, using(crate::proofs::Reader::Items::chunks_here))]
#[inline(always)]
pub(crate) fn opens_chunks_at(text: &[u8], at: usize) -> bool
    requires inside { at < length text.now }
    requires paren { slice_index text.now at ≡ 40 }
    ensures within { result ≡ true → at + 2 ≤ length text.now }
    ensures token { result ≡ true → (profile : Profile) → IsTokenAt profile text.now at (at + 2) classes.ChunkOpen }
{
    has_byte_at(b'_', text, at + 1) && has_byte_at(b' ', text, at + 2)
}

/// An integer that isn't below zero, or the number of a tag.
#[derive(Clone, Copy)]
pub(crate) struct Integer {
    pub number: u64,
    pub mark: Mark,
    /// Whether it is the number of a tag. The `(` that follows it is then part of the token.
    pub is_tag: bool,
    /// The offset after the token.
    pub stop: usize,
}

/// The integer without a minus, or the number of a tag, at the offset `at` of `text`. `None` if it
/// isn't decimal, has more than 19 digits or has a bad indicator.
#[inline(always)]
pub(crate) fn integer_at(text: &[u8], at: usize) -> Option<Integer>
    requires { at ≤ length text.now }
    ensures within { IfSome result (λ r. r.stop ≤ length text.now) }
    ensures token { IfSome result (λ r. (profile : Profile) → IsTokenAt profile text.now at r.stop (if r.is_tag then classes.TagOpen r.number r.mark else classes.Number false r.number r.mark)) }
{
    let tail = &text[at..];
    let (number, len) = decimal_at(tail)?;
    let after = &tail[len..];
    // A comma follows most numbers.
    if begins_with(b',', after) {
        return Some(Integer {
            number,
            mark: Mark::Absent,
            is_tag: false,
            stop: at + len,
        });
    }
    let (found, size) = mark_at(after);
    let mark = found?;
    let is_tag = begins_with(b'(', &after[size..]);
    let stop = if is_tag {
        at + len + size + 1
    } else {
        at + len + size
    };
    Some(Integer {
        number,
        mark,
        is_tag,
        stop,
    })
}

/// Of the integer with a minus at the offset `at` of `text`: how far it is below zero, and the offset
/// after it. `None` if it isn't decimal, has more than 19 digits or has an indicator.
#[tactic(auto, using(crate::proofs::Reader::Items::negative_here, crate::proofs::Common::take_rest))]
#[inline(always)]
pub(crate) fn negative_at(text: &[u8], at: usize) -> Option<(u64, usize)>
    requires inside { at < length text.now }
    requires minus { slice_index text.now at ≡ 45 }
    ensures within { IfSome result (λ r. r.1 ≤ length text.now) }
    ensures below { IfSome result (λ r. 0 < r.0) }
    ensures token { IfSome result (λ r. (profile : Profile) → IsTokenAt profile text.now at r.1 (classes.Number true r.0 marks.Absent)) }
{
    let tail = &text[at + 1..];
    let (n, len) = decimal_at(tail)?;
    if n == 0 || begins_with(b'_', &tail[len..]) {
        return None;
    }
    Some((n, at + 1 + len))
}

/// Whether `tail` begins with the character `c`.
#[inline(always)]
pub(crate) fn begins_with(c: u8, tail: &[u8]) -> bool
    ensures { result ≡ begins (λ d. d == c) tail.now }
{
    tail.len() > 0 && tail[0] == c
}

/// The simple value of the word at the offset `at` of `text`, if it has one, and the offset after it.
#[inline(always)]
pub(crate) fn word_at(text: &[u8], at: usize) -> Option<(u8, usize)>
    requires { at ≤ length text.now }
    ensures within { IfSome result (λ r. r.1 ≤ length text.now) }
    ensures token { IfSome result (λ r. (profile : Profile) → IsTokenAt profile text.now at r.1 (classes.Word r.0)) }
{
    let (n, rest) = after_name(&text[at..])?;
    if goes_on(rest) {
        return None;
    }
    Some((n, text.len() - rest.len()))
}

/// The simple value whose name `tail` begins with, and what follows the name.
#[inline(always)]
fn after_name(tail: &[u8]) -> Option<(u8, &[u8])>
    ensures { IfSome result (λ r. (w : List ℕ) × IsName w r.0 × (tail.now ≡ w ++ r.1.now)) }
{
    match tail {
        [b't', b'r', b'u', b'e', rest @ ..] => Some((21, rest)),
        [b'n', b'u', b'l', b'l', rest @ ..] => Some((22, rest)),
        [b'f', b'a', b'l', b's', b'e', rest @ ..] => Some((20, rest)),
        [
            b'u',
            b'n',
            b'd',
            b'e',
            b'f',
            b'i',
            b'n',
            b'e',
            b'd',
            rest @ ..,
        ] => Some((23, rest)),
        _ => None,
    }
}

/// Whether `rest` continues a word, or begins a string whose prefix the word is.
#[inline(always)]
fn goes_on(rest: &[u8]) -> bool
    ensures { result ≡ (begins is_word rest.now || begins (λ c. c == 39) rest.now) }
{
    rest.len() > 0 && (rest[0].is_ascii_alphanumeric() || rest[0] == b'_' || rest[0] == b'\'')
}

/// Of the text string without escapes whose opening double quote is at the offset `at` of `text`: the
/// length of its content in bytes, and the offset after it and the white space that follows. `None` if
/// there is none, if it has an indicator, or if another piece may follow.
#[tactic(auto, using(crate::proofs::Reader::Items::plain_here, crate::proofs::Common::take_rest, crate::proofs::Reader::Items::text_at))]
#[inline(always)]
pub(crate) fn plain_text_at(profile: Profile, text: &[u8], at: usize) -> Option<(usize, usize)>
    requires inside { at < length text.now }
    requires quote { slice_index text.now at ≡ 34 }
    ensures within { IfSome result (λ r. at + 1 + r.0 ≤ length text.now) }
    ensures taken { IfSome result (λ r. IsTextAt profile text.now at r.1 (take r.0 (drop (at + 1) text.now))) }
{
    let tail = &text[at + 1..];
    let len = plain_run(b'"', tail);
    if len == tail.len() || tail[len] != b'"' {
        return None;
    }
    let stop = end_of_string(profile, text, at + len + 2)?;
    Some((len, stop))
}

/// Appends the content of the text string whose opening double quote is at the offset `at` of `text`,
/// and moves `at` to the offset in the text after it and the white space that follows. `false` if there
/// is none, if it has an indicator, or if another piece may follow. Then a part of it may stay in `out`.
#[inline(never)]
pub(crate) fn push_text(
    profile: Profile,
    text: &[u8],
    at: &mut usize,
    out: &mut Vec<u8>,
) -> Result<bool>
    requires inside { at.old < length text.now }
    requires quote { slice_index text.now at.old ≡ 34 }
    ensures taken { IfOk result (λ r. r ≡ true → (content : List ℕ) × (out.new.items ≡ out.old.items ++ content) × IsTextAt profile text.now at.old at.new content) }
    ensures before { IfOk result (λ r. take (length out.old.items) out.new.items ≡ out.old.items) }
{
    let tail = &text[*at + 1..];
    let Some(len) = push_letters(b'"', tail, 0, out)? else {
        return Ok(false);
    };
    let Some(stop) = end_of_string(profile, text, *at + len + 2) else {
        return Ok(false);
    };
    *at = stop;
    Ok(true)
}

/// The offset after the white space that follows a string, which ends at the offset `at`. `None` if
/// the string has an indicator, or if another piece may follow.
#[tactic(auto, using(crate::proofs::Reader::CommonTokens::nothing))]
#[inline(always)]
pub(crate) fn end_of_string(profile: Profile, text: &[u8], at: usize) -> Option<usize>
    requires { at ≤ length text.now }
    ensures within { IfSome result (λ stop. stop ≤ length text.now) }
    ensures white_space { IfSome result (λ stop. TokensBetween profile text.now at stop []) }
    ensures ends { IfSome result (λ stop. NoPieceAt text.now stop) }
    ensures no_mark { IfSome result (λ stop. begins (λ c. c == 95) (drop at text.now) ≡ false) }
{
    if at < text.len() && ends_string(text[at]) {
        return Some(at);
    }
    white_space_after(profile, text, at)
}

/// The offset after the white space and comments from the offset `at` on, where a string has ended. `None`
/// if an indicator, or what may be another piece, follows. Out of line, since mostly none of it does.
#[inline(never)]
fn white_space_after(profile: Profile, text: &[u8], at: usize) -> Option<usize>
    requires { at ≤ length text.now }
    ensures within { IfSome result (λ stop. stop ≤ length text.now) }
    ensures white_space { IfSome result (λ stop. TokensBetween profile text.now at stop []) }
    ensures ends { IfSome result (λ stop. NoPieceAt text.now stop) }
    ensures no_mark { IfSome result (λ stop. begins (λ c. c == 95) (drop at text.now) ≡ false) }
{
    if begins_with(b'_', &text[at..]) {
        return None;
    }
    let stop = skip_white_space(profile, text, at)?;
    if stop == text.len() || ends_string(text[stop]) {
        return Some(stop);
    }
    None
}

/// Whether the character `c` ends a string that it follows. No piece of a string begins with it.
#[inline(always)]
pub(crate) fn ends_string(c: u8) -> bool
    ensures { result ≡ ends_string c }
{
    matches!(c, b',' | b']' | b'}' | b':' | b')' | b'>')
}
