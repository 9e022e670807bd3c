//! What nodes mean (RFC 8949 section 5.3), or their first flaw.

ghost use Rattle.std.specs.Prelude.{◌≡◌, ◌++◌, ◌∷◌};
ghost use Rattle.cborn_judge.specs.Common.{[], ℕ, IfOk, IfErr, OnOk, AllZip, Width, Size, Means, Fits, trees, entries};
ghost use Rattle.cborn_model.specs.Tree as tree;
ghost use Rattle.cborn_judge.specs.Departures.{FindsDefect};
ghost use Rattle.cborn_judge.specs.Flaws.{IsRefusal, IsRefusalOfAll};
ghost use Rattle.cborn_judge.specs.shared.Checked.{DefectIn};
ghost use Rattle.cborn_judge.specs.devices.Building.{IsItemOf};
ghost use Rattle.cborn_judge.specs.devices.Encoding.{IsEncodedAs};

use crate::encoders::{EncodedItems, Encoder};
use crate::faults::Invalid;
use crate::strings::{
    big_integer, bytes_of, bytes_of_chunks, small_integer, text_of, text_of_chunks,
};
use cborn_model::{
    Bytewise, Form, Item, ItemBox, ItemList, KeyOrder, Node, PairList, Result, Spelled, Valid,
    visit_node,
};
use std::alloc::Global;

/// The item that the node means (RFC 8949 section 5.3; bignums: section 3.4.3).
///
/// # Errors
/// `Refused` if it means none, with its first flaw: that at the lowest offset, and there that with
/// the lowest number. `OutOfMemory` if memory is refused.
#[tactic(auto, using(crate::proofs::Meaning::Meanings::meaning_shallow))]
pub fn judge(alloc: Global, spelled: &Spelled) -> Result<Valid, Invalid>
    ensures meant { IfOk result (λ valid. Means spelled.now valid) }
    ensures refused { IfErr result (IsRefusal spelled.now) }
{
    encode::<Bytewise>(alloc, spelled)?;
    let item = item_of(alloc, spelled.node())?;
    Ok(Valid::new(item))
}

/// The items that the nodes mean, in order (RFC 8949 sections 5.3 and 3.4.3).
///
/// # Errors
/// `Refused` if a node means none, with the first flaw of the first such node. `OutOfMemory` if
/// memory is refused.
#[tactic(auto, using(crate::proofs::FirstFlaw::refused_at, crate::proofs::FirstFlaw::passed_on, crate::proofs::FirstFlaw::refused_memory))]
pub fn judge_all(alloc: Global, spelled: &[Spelled]) -> Result<Vec<Valid>, Invalid>
    ensures meant { IfOk result (λ items. AllZip Means spelled.now items.items) }
    ensures refused { IfErr result (IsRefusalOfAll spelled.now) }
{
    let mut items = Vec::with_capacity(alloc, spelled.len())?;
    for node in spelled {
        let item = judge(alloc, node)?;
        items.push(item)?;
    }
    Ok(items)
}

/// The deterministic encoding of what the node means, and its first defect. Errors as of [`judge`].
pub(crate) fn encode<O: KeyOrder>(alloc: Global, spelled: &Spelled) -> Result<EncodedItems, Invalid>
    ensures fits { Fits spelled.now }
    ensures encoded { IfOk result (λ encoded. IsEncodedAs O.order spelled.now encoded.bytes.items) }
    ensures defect { IfOk result (λ encoded. FindsDefect (DefectIn O.order spelled.now) encoded.defect) }
    ensures refused { IfErr result (IsRefusal spelled.now) }
{
    let mut encoder = Encoder::<O>::new(alloc);
    visit_node(&mut encoder, spelled.node())?;
    match encoder.finish() {
        Ok(encoded) => Ok(encoded),
        Err((place, reason)) => Err(Invalid::Refused { place, reason }),
    }
}

/// The item that the node means. Any item if it means none.
#[cycle(built)]
#[inline(always)]
fn item_of(alloc: Global, node: &Node) -> Result<Item>
    ensures { IfOk result (IsItemOf node.now) }
{
    match &node.form {
        Form::Uint(_, n) => small_integer(alloc, false, *n),
        Form::Nint(_, n) => small_integer(alloc, true, *n),
        Form::Bytes(_, bytes) => bytes_of(alloc, bytes.as_slice()),
        Form::Text(_, bytes) => text_of(alloc, bytes.as_slice()),
        Form::ByteChunks(chunks) => bytes_of_chunks(alloc, chunks),
        Form::TextChunks(chunks) => text_of_chunks(alloc, chunks),
        Form::Items(_, nodes) => array_of(alloc, nodes),
        Form::Pairs(_, nodes) => map_of(alloc, nodes),
        Form::Tagged(_, number, content) => tagged_of(alloc, *number, content),
        Form::Simple(n) => Ok(Item::Simple(*n)),
    }
}

/// The array of what these nodes mean.
#[cycle(built)]
#[inline(never)]
fn array_of(alloc: Global, nodes: &[Node]) -> Result<Item>
    ensures { IfOk result (λ item. (p : ℕ) (s : Size) → IsItemOf (tree.Items p s (trees nodes.now)) item) }
{
    let mut items = Vec::with_capacity(alloc, nodes.len())?;
    for node in nodes {
        let item = item_of(alloc, node)?;
        items.push(item)?;
    }
    Ok(Item::Items(ItemList::new(items)))
}

/// The map of what these nodes mean.
#[cycle(built)]
#[inline(never)]
fn map_of(alloc: Global, nodes: &[(Node, Node)]) -> Result<Item>
    ensures { IfOk result (λ item. (p : ℕ) (s : Size) → IsItemOf (tree.Pairs p s (entries nodes.now)) item) }
{
    let mut pairs = Vec::with_capacity(alloc, nodes.len())?;
    for (key, value) in nodes {
        let key = item_of(alloc, key)?;
        let value = item_of(alloc, value)?;
        push_pair(&mut pairs, key, value)?;
    }
    Ok(Item::Pairs(PairList::new(pairs)))
}

/// Adds a pair. Not inlined, so that a level of a map takes less stack.
#[inline(never)]
fn push_pair(pairs: &mut Vec<(Item, Item)>, key: Item, value: Item) -> Result<()>
    ensures { OnOk result (pairs.new.items ≡ pairs.old.items ++ (key, value) ∷ []) }
{
    pairs.push((key, value))?;
    Ok(())
}

/// The tag of this number over what its content means, or the integer of a bignum.
#[cycle(built)]
#[inline(never)]
fn tagged_of(alloc: Global, number: u64, content: &Node) -> Result<Item>
    ensures { IfOk result (λ item. (p : ℕ) (w : Width) → IsItemOf (tree.Tagged p w number content.now) item) }
{
    if let Some(item) = big_integer(alloc, number, content)? {
        return Ok(item);
    }
    let item = item_of(alloc, content)?;
    let content = ItemBox::new(alloc, item)?;
    Ok(Item::Tagged(number, content))
}
