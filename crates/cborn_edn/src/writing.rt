//! Parts of the fixed notation, appended to a buffer.

ghost use Rattle.std.specs.Prelude.{◌≡◌, ◌≤◌, ◌++◌, ◌∷◌, ℕ, suc, true, length, OnOk, codes, decimal};
ghost use Rattle.cborn_edn.specs.Common.{flat_map, encode_lower, integer_tree};
ghost use Rattle.cborn_edn.specs.Cited.{mark_for};
ghost use Rattle.cborn_edn.specs.Shown as pure;
ghost use Rattle.cborn_edn.specs.devices.Notating.{is_escaped, quote, content, string_end, size_text};

use crate::Result;
use cborn_model::{Size, StringKind, Width, shortest};
use itoa::Buffer;

/// Appends an integer, and its indicator if its head isn't the shortest.
#[inline(always)]
pub(crate) fn push_integer(negative: bool, width: Width, n: u64, out: &mut Vec<u8>) -> Result
    ensures { OnOk result ((place : ℕ) → out.new.items ≡ out.old.items ++ pure.shown (integer_tree place negative width n)) }
{
    if negative {
        out.extend_from_slice(b"-")?;
        push_successor(n, out)?;
    } else {
        push_decimal(n, out)?;
    }
    push_indicator(width, n, out)
}

/// Appends a number in decimal.
#[inline]
fn push_decimal(n: u64, out: &mut Vec<u8>) -> Result
    ensures { OnOk result (out.new.items ≡ out.old.items ++ decimal n) }
{
    let mut buffer = Buffer::new();
    out.extend_from_slice(buffer.format(n).as_bytes())
}

/// Appends the number after `n` in decimal.
#[inline]
fn push_successor(n: u64, out: &mut Vec<u8>) -> Result
    ensures { OnOk result (out.new.items ≡ out.old.items ++ decimal (suc n)) }
{
    if n < u64::MAX {
        return push_decimal(n + 1, out);
    }
    let mut buffer = Buffer::new();
    out.extend_from_slice(buffer.format(n as u128 + 1).as_bytes())
}

/// Appends the indicator of a head with the argument `n`, if it isn't the shortest.
#[inline(always)]
fn push_indicator(width: Width, n: u64, out: &mut Vec<u8>) -> Result
    ensures { OnOk result (out.new.items ≡ out.old.items ++ pure.indicator (mark_for width n)) }
{
    if width == shortest(n) {
        return Ok(());
    }
    match width {
        Width::Direct => Ok(()),
        Width::One => out.extend_from_slice(b"_0"),
        Width::Two => out.extend_from_slice(b"_1"),
        Width::Four => out.extend_from_slice(b"_2"),
        Width::Eight => out.extend_from_slice(b"_3"),
    }
}

/// Appends a tag's number, its indicator if its head isn't the shortest, and a parenthesis.
pub(crate) fn push_tag(width: Width, n: u64, out: &mut Vec<u8>) -> Result
    ensures { OnOk result (out.new.items ≡ out.old.items ++ (decimal n ++ (pure.indicator (mark_for width n) ++ codes "("))) }
{
    push_decimal(n, out)?;
    push_indicator(width, n, out)?;
    out.extend_from_slice(b"(")
}

/// Appends the opening bracket of an array or a map, and then what `push_size` does.
pub(crate) fn push_bracket(bracket: u8, size: Size, count: Option<u64>, out: &mut Vec<u8>) -> Result
    ensures { OnOk result (out.new.items ≡ out.old.items ++ (bracket ∷ size_text size count)) }
{
    out.extend_from_slice(&[bracket])?;
    push_size(size, count, out)
}

/// Appends the indicator of an array or a map of `count` items or pairs, and a space after it, if it
/// has one. If it has a width and no count, its indicator isn't known yet.
pub(crate) fn push_size(size: Size, count: Option<u64>, out: &mut Vec<u8>) -> Result
    ensures { OnOk result (out.new.items ≡ out.old.items ++ size_text size count) }
{
    match (size, count) {
        (Size::Endless, _) => out.extend_from_slice(b"_ "),
        (Size::Fixed(width), Some(count)) => {
            if width == shortest(count) {
                return Ok(());
            }
            push_indicator(width, count, out)?;
            out.extend_from_slice(b" ")
        }
        (Size::Fixed(_), None) => Ok(()),
    }
}

/// Appends a simple value by its name, or by its number in `simple(..)` (RFC 8949 section 8).
pub(crate) fn push_simple(n: u8, out: &mut Vec<u8>) -> Result
    ensures { OnOk result (out.new.items ≡ out.old.items ++ pure.shown_simple n) }
{
    match n {
        20 => out.extend_from_slice(b"false"),
        21 => out.extend_from_slice(b"true"),
        22 => out.extend_from_slice(b"null"),
        23 => out.extend_from_slice(b"undefined"),
        _ => {
            out.extend_from_slice(b"simple(")?;
            push_decimal(n as u64, out)?;
            out.extend_from_slice(b")")
        }
    }
}

/// Appends what precedes the content of a string of this kind.
#[inline(always)]
pub(crate) fn push_quote(kind: StringKind, out: &mut Vec<u8>) -> Result
    ensures { OnOk result (out.new.items ≡ out.old.items ++ quote kind) }
{
    match kind {
        StringKind::OfBytes => out.extend_from_slice(b"h'"),
        StringKind::OfText => out.extend_from_slice(b"\""),
    }
}

/// Appends bytes of a string of this kind: in hexadecimal, or with escapes.
pub(crate) fn push_content(kind: StringKind, bytes: &[u8], out: &mut Vec<u8>) -> Result
    ensures { OnOk result (out.new.items ≡ out.old.items ++ content kind bytes.now) }
{
    match kind {
        StringKind::OfBytes => push_hex(bytes, out),
        StringKind::OfText => push_escaped(bytes, out),
    }
}

/// Appends what follows the content of a string of `len` bytes: the quote, and the indicator.
#[inline(always)]
pub(crate) fn push_string_end(kind: StringKind, width: Width, len: u64, out: &mut Vec<u8>) -> Result
    ensures { OnOk result (out.new.items ≡ out.old.items ++ string_end kind width len) }
{
    match kind {
        StringKind::OfBytes => out.extend_from_slice(b"'")?,
        StringKind::OfText => out.extend_from_slice(b"\"")?,
    };
    push_indicator(width, len, out)
}

/// How many bytes are written in hexadecimal at a time.
const HEX_BYTES: usize = 32;

/// Appends bytes in hexadecimal.
fn push_hex(bytes: &[u8], out: &mut Vec<u8>) -> Result
    ensures { OnOk result (out.new.items ≡ out.old.items ++ encode_lower bytes.now) }
{
    let mut rest = bytes;
    while rest.len() > HEX_BYTES {
        push_some_hex(&rest[..HEX_BYTES], out)?;
        rest = &rest[HEX_BYTES..];
    }
    push_some_hex(rest, out)
}

/// Appends at most `HEX_BYTES` bytes in hexadecimal.
fn push_some_hex(bytes: &[u8], out: &mut Vec<u8>) -> Result
    requires { length bytes.now ≤ 32 }
    ensures { OnOk result (out.new.items ≡ out.old.items ++ encode_lower bytes.now) }
{
    let mut digits = [0; 2 * HEX_BYTES];
    let digits = &mut digits[..2 * bytes.len()];
    let Ok(()) = hex::encode_to_slice(bytes, digits) else {
        unreachable!();
    };
    out.extend_from_slice(digits)
}

/// Appends `text` with escapes for quotes, backslashes and control characters (RFC 8259 section 7).
fn push_escaped(text: &[u8], out: &mut Vec<u8>) -> Result
    ensures { OnOk result (out.new.items ≡ out.old.items ++ flat_map pure.escaped text.now) }
{
    let mut from = 0;
    for (i, b) in text.iter().enumerate() {
        if is_escaped(*b) {
            out.extend_from_slice(&text[from..i])?;
            push_escape(*b, out)?;
            from = i + 1;
        }
    }
    out.extend_from_slice(&text[from..])
}

/// Whether the byte `b` of a text is written as an escape.
fn is_escaped(b: u8) -> bool
    ensures { result ≡ is_escaped b }
{
    b < 32 || b == b'"' || b == b'\\'
}

/// Appends the escape of the byte `b`.
fn push_escape(b: u8, out: &mut Vec<u8>) -> Result
    requires { is_escaped b ≡ true }
    ensures { OnOk result (out.new.items ≡ out.old.items ++ pure.escaped b) }
{
    match b {
        b'"' => out.extend_from_slice(b"\\\""),
        b'\\' => out.extend_from_slice(b"\\\\"),
        8 => out.extend_from_slice(b"\\b"),
        12 => out.extend_from_slice(b"\\f"),
        b'\n' => out.extend_from_slice(b"\\n"),
        b'\r' => out.extend_from_slice(b"\\r"),
        b'\t' => out.extend_from_slice(b"\\t"),
        _ => {
            out.extend_from_slice(b"\\u00")?;
            push_hex(&[b], out)
        }
    }
}
