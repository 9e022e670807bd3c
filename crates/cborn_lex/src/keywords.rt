//! Words: prefixes of byte strings, `simple(`, and the names of simple values.

ghost use Rattle.std.specs.Prelude.{◌≡◌, ℕ, ◌<◌, ◌≤◌, length, take, drop, [], slice_index, IfOk, true, false, ◌&&◌, bytes_eq, codes, ◌==◌};
ghost use Rattle.cborn_lex.specs.Cited.{Front as AnyFront, begins, word_front, IsPrefixed, prefix_of, IsAfterWord, ReadsWord};
ghost use Rattle.cborn_lex.specs.devices.Common.{front_view, FrontStandsFor};

use crate::Result;
use crate::classes::Kind;
use crate::encoded::{Encoding, in_encoding};
use crate::faults::LexReason;
use crate::fronts::Front;
use crate::slices::{begins_with, front_of, has_prefix, rest_of, word_len};
use std::alloc::Global;

/// The kind of a word that is neither a prefix nor `simple(`, or what is wrong with it.
fn word_front(w: &[u8]) -> Front
    ensures { (n : ℕ) → front_view n [] result ≡ word_front w.now }
{
    if w == b"false".as_slice() {
        Front::Read(Kind::Word(20))
    } else if w == b"true".as_slice() {
        Front::Read(Kind::Word(21))
    } else if w == b"null".as_slice() {
        Front::Read(Kind::Word(22))
    } else if w == b"undefined".as_slice() {
        Front::Read(Kind::Word(23))
    } else if has_prefix(b"NaN", w) || has_prefix(b"Infinity", w) {
        Front::Bad(LexReason::FloatLeftOut)
    } else {
        Front::Bad(LexReason::UnexpectedCharacter)
    }
}

/// Reads a string after its prefix `word` and its opening quote. Gives its kind, or what is wrong
/// with it, and how many bytes of `tail` it takes.
fn prefixed(alloc: Global, word: &[u8], tail: &[u8], out: &mut Vec<u8>) -> Result<(Front, usize)>
    ensures { IfOk result (λ r. (r.1 ≤ length tail.now) × ((a : AnyFront) × IsPrefixed (prefix_of word.now) (take r.1 tail.now) (drop r.1 tail.now) a × ((n : ℕ) → FrontStandsFor r.0 n out.old.items out.new.items a))) }
{
    if word == b"h".as_slice() {
        in_encoding(alloc, Encoding::Hex, tail, out)
    } else if word == b"b64".as_slice() {
        in_encoding(alloc, Encoding::Base64, tail, out)
    } else {
        Ok((Front::Bad(LexReason::UnknownPrefix), 0))
    }
}

/// Reads what the word `word` begins: a string, or the word alone. Gives its kind, or what is wrong
/// with it, and how many bytes it takes of `after`, which follows the word.
#[tactic(auto, using(crate::proofs::Sliced::Words::prefix_made))]
fn after_word(alloc: Global, word: &[u8], after: &[u8], out: &mut Vec<u8>) -> Result<(Front, usize)>
    requires not_simple { (bytes_eq word.now (codes "simple") && begins (λ c. c == 40) after.now) ≡ false }
    ensures { IfOk result (λ r. (r.1 ≤ length after.now) × ((a : AnyFront) × IsAfterWord word.now (take r.1 after.now) (drop r.1 after.now) a × ((n : ℕ) → FrontStandsFor r.0 n out.old.items out.new.items a))) }
{
    if begins_with(b'\'', after) {
        let (front, n) = prefixed(alloc, word, rest_of(after, 1), out)?;
        Ok((front, n + 1))
    } else {
        Ok((word_front(word), 0))
    }
}

/// Reads the word that `text` begins with, and the string whose prefix it is. Gives its kind, or
/// what is wrong with it, and how many bytes it takes of `tail`, which follows the first letter.
pub fn word_at(alloc: Global, text: &[u8], tail: &[u8], out: &mut Vec<u8>) -> Result<(Front, usize)>
    requires some { 0 < length text.now }
    requires tail { tail.now ≡ drop 1 text.now }
    ensures { IfOk result (λ r. (r.1 ≤ length tail.now) × ((a : AnyFront) × ReadsWord (slice_index text.now 0) (take r.1 tail.now) (drop r.1 tail.now) a × ((n : ℕ) → FrontStandsFor r.0 n out.old.items out.new.items a))) }
{
    if let [b'i', b'm', b'p', b'l', b'e', b'(', ..] = tail {
        if text[0] == b's' {
            return Ok((Front::Read(Kind::SimpleOpen), 6));
        }
    }
    let n = word_len(tail);
    let word = front_of(text, n + 1);
    let after = rest_of(tail, n);
    let (front, m) = after_word(alloc, word, after, out)?;
    Ok((front, n + m))
}
