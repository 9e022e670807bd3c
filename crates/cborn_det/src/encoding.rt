//! The deterministic encoder of items.

ghost use Rattle.std.specs.Prelude.{◌≡◌, ◌↔◌};
ghost use Rattle.cborn_det.specs.Common.{ℕ, List, IfOk, OnOk, OnErr, IsTrue, MatchResult, map, IsProper, AreProper, HasProperPairs, HasNewKeys, Same, values_of, pairs_of, dict};
ghost use Rattle.cborn_model.specs.ItemView.{item_value, pair_value};
ghost use Rattle.cborn_det.specs.Appending.{Appends};
ghost use Rattle.cborn_det.specs.devices.Writing.{AppendsPair, BeginsWith, IsWritten, Writes};
ghost use Rattle.cborn_det.specs.Det.{Det, DetSeq, DetPairs, Entry};

use crate::entries::arrange;
use crate::heads::put_head;
use crate::parts::{push_integer, push_simple, push_string};
use cborn_model::{Item, KeyOrder, Major, Result, Valid};
use std::alloc::{AllocError, Global};

/// The deterministic encoding of `valid` (RFC 8949 section 4.2), with the keys of its maps in the
/// order `O`.
///
/// # Errors
/// `AllocError` if memory is refused.
pub fn encode<O: KeyOrder>(alloc: Global, valid: &Valid) -> Result<Vec<u8>, AllocError>
    ensures { IfOk result (λ bytes. Det O.order valid.now bytes.items) }
{
    let mut out = Vec::new(alloc);
    push_encoding::<O>(alloc, valid.item(), &mut out)?;
    Ok(out)
}

/// The deterministic encodings of `items` (RFC 8949 section 4.2), one after another.
///
/// # Errors
/// `AllocError` if memory is refused.
pub fn encode_all<O: KeyOrder>(alloc: Global, items: &[Valid]) -> Result<Vec<u8>, AllocError>
    ensures { IfOk result (λ bytes. DetSeq O.order items.now bytes.items) }
{
    let mut out = Vec::new(alloc);
    for item in items {
        push_encoding::<O>(alloc, item.item(), &mut out)?;
    }
    Ok(out)
}

/// Whether `a` and `b` have equal deterministic encodings, which is exactly if they are the same
/// item.
///
/// # Errors
/// `AllocError` if memory is refused.
pub fn equal_bytes<O: KeyOrder>(alloc: Global, a: &Valid, b: &Valid) -> Result<bool, AllocError>
    ensures same { IfOk result (λ equal. IsTrue equal ↔ Same a.now b.now) }
    ensures bytes { IfOk result (λ equal. (x y : List ℕ) → Det O.order a.now x → Det O.order b.now y → IsTrue equal ↔ x ≡ y) }
{
    let mut first = Vec::new(alloc);
    push_encoding::<O>(alloc, a.item(), &mut first)?;
    let mut second = Vec::new(alloc);
    push_encoding::<O>(alloc, b.item(), &mut second)?;
    Ok(first == second)
}

/// Appends the deterministic encoding of `item` to `out`, with the keys of its maps in the order
/// `O` (RFC 8949 section 4.2). The item must be valid, but may be of any depth.
///
/// # Errors
/// `AllocError` if memory is refused; `out` is then unchanged.
pub fn push_encoding<O: KeyOrder>(
    alloc: Global,
    item: &Item,
    out: &mut Vec<u8>,
) -> Result<(), AllocError>
    requires { IsProper (item_value item.now) }
    ensures added { OnOk result (Appends (Det O.order (item_value item.now)) out.old.items out.new.items) }
    ensures kept { OnErr result (out.new.items ≡ out.old.items) }
{
    let len = out.len();
    let pushed = push_item::<O>(alloc, item, out);
    if pushed.is_err() {
        out.truncate(len);
    }
    pushed
}

/// Appends the encoding of `item`. If memory is refused, a front of it may be left in `out`.
#[cycle(encoder)]
fn push_item<O: KeyOrder>(alloc: Global, item: &Item, out: &mut Vec<u8>) -> Result<(), AllocError>
    requires { IsProper (item_value item.now) }
    ensures { Writes result (Det O.order (item_value item.now)) out.old.items out.new.items }
{
    match item {
        Item::Int {
            negative,
            magnitude,
        } => push_integer(*negative, magnitude.as_slice(), out),
        Item::Bytes(bytes) => push_string(Major::ByteString, bytes.as_slice(), out),
        Item::Text(text) => push_string(Major::TextString, text.as_bytes(), out),
        Item::Items(items) => {
            let items = items.as_slice();
            put_head(Major::Array, items.len() as u64, out)?;
            push_items::<O>(alloc, items, out)?;
            Ok(())
        }
        Item::Pairs(pairs) => push_map::<O>(alloc, pairs.as_slice(), out),
        Item::Tagged(tag, content) => {
            put_head(Major::Tag, *tag, out)?;
            push_item::<O>(alloc, content.get(), out)
        }
        Item::Simple(n) => push_simple(*n, out),
    }
}

#[cycle(encoder)]
fn push_items<O: KeyOrder>(alloc: Global, items: &[Item], out: &mut Vec<u8>) -> Result<()>
    requires { AreProper (values_of (map item_value items.now)) }
    ensures { Writes result (DetSeq O.order (map item_value items.now)) out.old.items out.new.items }
{
    for item in items {
        push_item::<O>(alloc, item, out)?;
    }
    Ok(())
}

/// Appends the encoding of a map: its pairs as they stand, which are then arranged in the buffer.
#[cycle(encoder)]
fn push_map<O: KeyOrder>(alloc: Global, pairs: &[(Item, Item)], out: &mut Vec<u8>) -> Result<()>
    requires proper { HasProperPairs (pairs_of (map pair_value pairs.now)) }
    requires new { HasNewKeys (pairs_of (map pair_value pairs.now)) }
    ensures { Writes result (Det O.order (dict (pairs_of (map pair_value pairs.now)))) out.old.items out.new.items }
{
    put_head(Major::Map, pairs.len() as u64, out)?;
    let start = out.len();
    let lengths = push_pairs::<O>(alloc, pairs, out)?;
    arrange::<O>(alloc, &lengths, start, out)?;
    Ok(())
}

/// Appends the pairs as they stand, and gives the lengths in bytes of each key and value.
#[cycle(encoder)]
fn push_pairs<O: KeyOrder>(
    alloc: Global,
    pairs: &[(Item, Item)],
    out: &mut Vec<u8>,
) -> Result<Vec<(usize, usize)>, AllocError>
    requires { HasProperPairs (pairs_of (map pair_value pairs.now)) }
    ensures { MatchResult result (λ lengths. (es : List Entry) × DetPairs O.order (pairs_of (map pair_value pairs.now)) es × Appends (IsWritten es lengths.items) out.old.items out.new.items) (λ _. BeginsWith out.old.items out.new.items) }
{
    let mut lengths = Vec::with_capacity(alloc, pairs.len())?;
    for pair in pairs {
        let both = push_pair::<O>(alloc, pair, out)?;
        lengths.push(both)?;
    }
    Ok(lengths)
}

/// Appends a pair, and gives the lengths in bytes of its key and its value.
#[cycle(encoder)]
fn push_pair<O: KeyOrder>(
    alloc: Global,
    pair: &(Item, Item),
    out: &mut Vec<u8>,
) -> Result<(usize, usize), AllocError>
    requires key { IsProper (item_value pair.now.0) }
    requires value { IsProper (item_value pair.now.1) }
    ensures { MatchResult result (λ lengths. AppendsPair O.order (pair_value pair.now) lengths out.old.items out.new.items) (λ _. BeginsWith out.old.items out.new.items) }
{
    let start = out.len();
    push_item::<O>(alloc, &pair.0, out)?;
    let middle = out.len();
    push_item::<O>(alloc, &pair.1, out)?;
    let end = out.len();
    Ok((middle - start, end - middle))
}
