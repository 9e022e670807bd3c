//! Byte strings with the prefix `h` or `b64` (RFC 8949 section 8, RFC 4648).

ghost use Rattle.std.specs.Prelude.{◌≡◌, ℕ, ◌≤◌, List, true, length, take, drop, map, filter, replicate, OnOk, MatchOption, IfOk, false, Some, None, ◌==◌, not, ◌++◌};
ghost use Rattle.cborn_lex.specs.Common.{list_any, decode_of};
ghost use Rattle.cborn_lex.specs.Cited.{Front as AnyFront, is_white, IsHex, base64_text, to_standard, IsBase64, IsUnquoted};
ghost use Rattle.cborn_lex.specs.devices.Common.{strip, IsEncoded, refusal, FrontStandsFor};

use crate::Result;
use crate::escaped::bytes_front;
use crate::faults::LexReason;
use crate::fronts::Front;
use crate::integers::{all_digits, digit_of};
use crate::slices::{find, is_white, mark_at, rest_of};
use base64::DecodeAllocError;
use base64::engine::general_purpose::STANDARD;
use std::alloc::{AllocError, Global};

/// How the content of a string with a prefix encodes its bytes.
#[derive(Clone, Copy)]
pub enum Encoding {
    /// In hexadecimal.
    Hex,
    /// In base64.
    Base64,
}

/// The digits of a content, if there is nothing but white space and comments between them.
fn hex_digits(alloc: Global, content: &[u8]) -> Result<Option<Vec<u8>>>
    ensures { IfOk result (λ r. MatchOption r (strip false content.now ≡ None) (λ v. strip false content.now ≡ Some v.items)) }
{
    let mut digits = Vec::with_capacity(alloc, content.len())?;
    let mut inside = false;
    for c in content {
        if inside {
            inside = *c != b'/';
        } else if digit_of(*c) < 16 {
            digits.push(*c)?;
        } else if *c == b'/' {
            inside = true;
        } else if !is_white(*c) {
            return Ok(None);
        }
    }
    Ok(if inside { None } else { Some(digits) })
}

/// Appends the bytes that digits in hexadecimal write; `false` if they write none.
#[tactic(auto, using(crate::proofs::Contents::Hexes::appended, crate::proofs::Contents::Hexes::decoded_ok, std::proofs::lemmas::Slice::overwrites))]
fn push_digits(digits: &[u8], out: &mut Vec<u8>) -> Result<bool>
    ensures written { IfOk result (λ ok. ok ≡ true → (bytes : List ℕ) × (decode_of digits.now ≡ Ok bytes) × (out.new.items ≡ out.old.items ++ bytes)) }
    ensures none { IfOk result (λ ok. ok ≡ false → (bytes : List ℕ) → decode_of digits.now ≡ Ok bytes → ⊥) }
{
    let start = out.len();
    out.resize(start + digits.len() / 2, 0)?;
    Ok(hex::decode_to_slice(digits, &mut out[start..]).is_ok())
}

/// Appends the bytes that a content in hexadecimal encodes; `false` if it encodes none.
fn push_hex(alloc: Global, content: &[u8], out: &mut Vec<u8>) -> Result<bool>
    ensures written { IfOk result (λ ok. ok ≡ true → (bytes : List ℕ) × IsHex content.now bytes × (out.new.items ≡ out.old.items ++ bytes)) }
    ensures none { IfOk result (λ ok. ok ≡ false → (bytes : List ℕ) → IsHex content.now bytes → ⊥) }
{
    if all_digits(16, content) {
        return push_digits(content, out);
    }
    match hex_digits(alloc, content)? {
        Some(digits) => push_digits(digits.as_slice(), out),
        None => Ok(false),
    }
}

/// The character `c` of base64url in the standard alphabet (RFC 4648 sections 4 and 5).
fn to_standard(c: u8) -> u8
    ensures { result ≡ to_standard c }
{
    match c {
        b'-' => b'+',
        b'_' => b'/',
        _ => c,
    }
}

/// `content` without white space, in the standard alphabet, and padded if it had no padding.
fn standard_text(alloc: Global, content: &[u8]) -> Result<Vec<u8>>
    ensures { IfOk result (λ v. v.items ≡ base64_text content.now) }
{
    let mut text = Vec::with_capacity(alloc, content.len())?;
    for c in content {
        if !is_white(*c) {
            text.push(to_standard(*c))?;
        }
    }
    if !text.as_slice().contains(&b'=') {
        let missing = (4 - text.len() % 4) % 4;
        text.resize(text.len() + missing, b'=')?;
    }
    Ok(text)
}

/// Appends the bytes that a content in base64 encodes; `false` if it encodes none.
fn push_base64(alloc: Global, content: &[u8], out: &mut Vec<u8>) -> Result<bool>
    ensures written { IfOk result (λ ok. ok ≡ true → (bytes : List ℕ) × IsBase64 content.now bytes × (out.new.items ≡ out.old.items ++ bytes)) }
    ensures none { IfOk result (λ ok. ok ≡ false → (bytes : List ℕ) → IsBase64 content.now bytes → ⊥) }
{
    let text = standard_text(alloc, content)?;
    match STANDARD.decode(alloc, text.as_slice()) {
        Ok(bytes) => {
            out.extend_from_slice(bytes.as_slice())?;
            Ok(true)
        }
        Err(DecodeAllocError::OutOfMemory) => Err(AllocError),
        Err(_) => Ok(false),
    }
}

/// Appends the bytes that a content encodes; `false` if it encodes none.
fn push_decoded(
    alloc: Global,
    encoding: Encoding,
    content: &[u8],
    out: &mut Vec<u8>,
) -> Result<bool>
    ensures written { IfOk result (λ ok. ok ≡ true → (bytes : List ℕ) × IsEncoded encoding content.now bytes × (out.new.items ≡ out.old.items ++ bytes)) }
    ensures none { IfOk result (λ ok. ok ≡ false → (bytes : List ℕ) → IsEncoded encoding content.now bytes → ⊥) }
{
    match encoding {
        Encoding::Hex => push_hex(alloc, content, out),
        Encoding::Base64 => push_base64(alloc, content, out),
    }
}

/// Reads a string after its prefix and its opening quote, and appends its bytes to `out`. Gives its
/// kind, or what is wrong with it, and how many bytes of `tail` it takes.
pub fn in_encoding(
    alloc: Global,
    encoding: Encoding,
    tail: &[u8],
    out: &mut Vec<u8>,
) -> Result<(Front, usize)>
    ensures { IfOk result (λ r. (r.1 ≤ length tail.now) × ((a : AnyFront) × IsUnquoted (IsEncoded encoding) (refusal encoding) (take r.1 tail.now) (drop r.1 tail.now) a × ((n : ℕ) → FrontStandsFor r.0 n out.old.items out.new.items a))) }
{
    let Some(i) = find(b'\'', tail) else {
        return Ok((Front::Bad(LexReason::UnclosedString), tail.len()));
    };
    let content = &tail[..i];
    let (mark, m) = mark_at(rest_of(tail, i + 1));
    if push_decoded(alloc, encoding, content, out)? {
        return Ok((bytes_front(false, mark), i + 1 + m));
    }
    match encoding {
        Encoding::Hex => Ok((Front::Bad(LexReason::BadHex), i + 1 + m)),
        Encoding::Base64 => Ok((Front::Bad(LexReason::BadBase64), i + 1 + m)),
    }
}
