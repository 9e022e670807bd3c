//! What strings, integers and bignums mean (RFC 8949 sections 3.1, 3.2.3 and 3.4.3). What a node is
//! built with isn't inlined, so that the recursion over nodes takes little stack.

ghost use Rattle.std.specs.Prelude.{◌≡◌, ◌↔◌};
ghost use Rattle.cborn_judge.specs.Common.{IfOk, IsTrue, IsUtf8, big_endian, item_value, joined_chunks, ChunksAreText, IsNumber};
ghost use Rattle.cborn_model.specs.Value as value;
ghost use Rattle.cborn_judge.specs.devices.Building.{IsBignumItem};
ghost use Rattle.cborn_judge.specs.devices.Encoders.{IsContent};

use cborn_model::{ByteString, Chunk, Form, Item, Node, Result, StringKind, magnitude_of};
use std::alloc::Global;

/// The bytes of the chunks, one after another.
fn join(alloc: Global, chunks: &[Chunk]) -> Result<Vec<u8>>
    ensures { IfOk result (λ bytes. bytes.items ≡ joined_chunks chunks.now) }
{
    let mut bytes = Vec::new(alloc);
    for chunk in chunks {
        bytes.extend_from_slice(chunk.bytes.as_slice())?;
    }
    Ok(bytes)
}

/// The byte string with this content.
#[inline(never)]
pub(crate) fn bytes_of(alloc: Global, bytes: &[u8]) -> Result<Item>
    ensures { IfOk result (λ item. item_value item ≡ value.bytes bytes.now) }
{
    let bytes = bytes.to_vec(alloc)?;
    Ok(Item::Bytes(ByteString::new(bytes)))
}

/// The text string with this content. Any item if that isn't UTF-8.
#[inline(never)]
pub(crate) fn text_of(alloc: Global, bytes: &[u8]) -> Result<Item>
    ensures { IfOk result (λ item. IsUtf8 bytes.now → item_value item ≡ value.text bytes.now) }
{
    match simdutf8::compat::from_utf8(bytes) {
        Ok(text) => Ok(Item::Text(String::from_str(alloc, text)?)),
        Err(_) => bytes_of(alloc, bytes),
    }
}

/// The byte string of these chunks.
#[inline(never)]
pub(crate) fn bytes_of_chunks(alloc: Global, chunks: &[Chunk]) -> Result<Item>
    ensures { IfOk result (λ item. item_value item ≡ value.bytes (joined_chunks chunks.now)) }
{
    let bytes = join(alloc, chunks)?;
    Ok(Item::Bytes(ByteString::new(bytes)))
}

/// The text string of these chunks. Any item if one of them isn't UTF-8.
#[tactic(auto, using(crate::proofs::Meaning::Meanings::joined_text))]
#[inline(never)]
pub(crate) fn text_of_chunks(alloc: Global, chunks: &[Chunk]) -> Result<Item>
    ensures { IfOk result (λ item. ChunksAreText chunks.now → item_value item ≡ value.text (joined_chunks chunks.now)) }
{
    let bytes = join(alloc, chunks)?;
    match String::from_utf8(bytes) {
        Ok(text) => Ok(Item::Text(text)),
        Err(error) => Ok(Item::Bytes(ByteString::new(error.into_bytes()))),
    }
}

/// The integer `n`, or -1 - `n` if it is `negative`.
pub(crate) fn small_integer(alloc: Global, negative: bool, n: u64) -> Result<Item>
    ensures { IfOk result (λ item. IsNumber negative n (item_value item)) }
{
    integer_of(alloc, negative, &n.to_be_bytes())
}

/// The integer of tag 2 or 3 over a byte string (RFC 8949 section 3.4.3); `None` of any other tag.
pub(crate) fn big_integer(alloc: Global, number: u64, content: &Node) -> Result<Option<Item>>
    ensures { IfOk result (IsBignumItem number content.now) }
{
    if number != 2 && number != 3 {
        return Ok(None);
    }
    let negative = number == 3;
    match &content.form {
        Form::Bytes(_, bytes) => Ok(Some(integer_of(alloc, negative, bytes.as_slice())?)),
        Form::ByteChunks(chunks) => {
            let bytes = join(alloc, chunks)?;
            Ok(Some(integer_of(alloc, negative, &bytes)?))
        }
        _ => Ok(None),
    }
}

/// The integer with the number of these bytes. Not inlined: recursion over nodes takes less stack.
#[inline(never)]
fn integer_of(alloc: Global, negative: bool, bytes: &[u8]) -> Result<Item>
    ensures { IfOk result (λ item. IsNumber negative (big_endian bytes.now) (item_value item)) }
{
    let magnitude = magnitude_of(alloc, bytes)?;
    Ok(Item::Int {
        negative,
        magnitude,
    })
}

/// Whether a string of this kind may hold these bytes: a text has to be UTF-8.
#[inline(always)]
pub(crate) fn is_content(kind: StringKind, bytes: &[u8]) -> bool
    ensures { IsTrue result ↔ IsContent kind bytes.now }
{
    match kind {
        StringKind::OfBytes => true,
        StringKind::OfText => is_text(bytes),
    }
}

/// Whether bytes are UTF-8. Most texts are short and ASCII, which is quicker to see.
#[inline(always)]
pub(crate) fn is_text(bytes: &[u8]) -> bool
    ensures { IsTrue result ↔ IsUtf8 bytes.now }
{
    bytes.is_ascii() || is_wide_text(bytes)
}

/// Whether bytes, not all of them ASCII, are UTF-8. A few are seen quicker one by one.
#[inline(never)]
fn is_wide_text(bytes: &[u8]) -> bool
    ensures { IsTrue result ↔ IsUtf8 bytes.now }
{
    if bytes.len() < 32 {
        return std::str::from_utf8(bytes).is_ok();
    }
    simdutf8::is_utf8(bytes)
}
