//! Which nodes spell bytes, and [`Spelled`], a node that does.

ghost use Rattle.std.specs.Prelude.{◌≡◌, ◌-◌, ◌^◌, ◌↔◌};
ghost use Rattle.cborn_model.specs.Common.{min, length, IsTrue};
ghost use Rattle.cborn_model.specs.Heads.{WidthFits, SizeFits};
ghost use Rattle.cborn_model.specs.Tree.{depth, depth_all, depth_entries, trees, entries};
ghost use Rattle.cborn_model.specs.Spelled.{Fits, FitsAll, FitsEntries, ChunksFit, IsSpelled};

use crate::{Chunk, Form, Node, Size, Width, is_simple_value};
use std::marker::Model;

/// A node that spells bytes, with a nesting depth of at most 1,024.
#[derive(Drop)]
pub struct Spelled {
    node: Node,
}

impl Model for Spelled {
    ghost use Rattle.cborn_model.specs.Tree.{Tree};
    ghost use Rattle.cborn_model.specs.shared.TreeCode.{tree_code};

    ghost Value = { Tree };

    ghost coded = { tree_code };

    ghost use Rattle.cborn_model.specs.Spelled.{IsSpelled};

    ghost view = { λ s. s.node };

    ghost invariant = { λ s. IsSpelled s.node };
}

impl Spelled {
    /// Wraps `node`, which must spell bytes and be at most 1,024 deep ([`fits`] checks). Takes no
    /// memory.
    pub fn new(node: Node) -> Spelled
        requires { IsSpelled node }
        ensures { result ≡ node }
    {
        Spelled { node }
    }

    /// The node.
    pub fn node(&self) -> &Node
        ensures same { result.now ≡ self.now }
        ensures spelled { IsSpelled self.now }
    {
        &self.node
    }

    /// Unwraps the node.
    pub fn into_node(self) -> Node
        ensures same { result ≡ self }
        ensures spelled { IsSpelled self }
    {
        self.node
    }
}

/// The nesting depth of `node`, in arrays, maps and tags, or `u64::MAX` if it is more. Takes no
/// memory.
#[cycle(depth)]
pub fn depth(node: &Node) -> u64
    ensures { result ≡ min (depth node.now) (2 ^ 64 - 1) }
{
    match &node.form {
        Form::Items(_, items) => items_depth(items).saturating_add(1),
        Form::Pairs(_, pairs) => pairs_depth(pairs).saturating_add(1),
        Form::Tagged(_, _, item) => depth(item).saturating_add(1),
        _ => 0,
    }
}

#[cycle(depth)]
fn items_depth(items: &[Node]) -> u64
    ensures { result ≡ min (depth_all (trees items.now)) (2 ^ 64 - 1) }
{
    let mut deepest = 0u64;
    for item in items {
        deepest = deepest.max(depth(item));
    }
    deepest
}

#[cycle(depth)]
fn pairs_depth(pairs: &[(Node, Node)]) -> u64
    ensures { result ≡ min (depth_entries (entries pairs.now)) (2 ^ 64 - 1) }
{
    let mut deepest = 0u64;
    for (key, value) in pairs {
        deepest = deepest.max(depth(key)).max(depth(value));
    }
    deepest
}

/// Whether `node` spells bytes: each argument, length and count fits its width, no simple value is
/// from 24 to 31, and the depth is at most 1,024. Takes no memory.
pub fn fits(node: &Node) -> bool
    ensures { IsTrue result ↔ IsSpelled node.now }
{
    depth(node) <= 1024 && has_room(node)
}

/// Whether each argument, length and count fits its width, and no simple value is from 24 to 31.
#[cycle(has_room)]
fn has_room(node: &Node) -> bool
    ensures { IsTrue result ↔ Fits node.now }
{
    match &node.form {
        Form::Uint(width, n) | Form::Nint(width, n) => width.holds(*n),
        Form::Bytes(width, bytes) | Form::Text(width, bytes) => {
            width.holds(bytes.as_slice().len() as u64)
        }
        Form::ByteChunks(chunks) | Form::TextChunks(chunks) => chunks_fit(chunks),
        Form::Items(size, items) => size_fits(*size, items.len() as u64) && items_have_room(items),
        Form::Pairs(size, pairs) => size_fits(*size, pairs.len() as u64) && pairs_have_room(pairs),
        Form::Tagged(width, n, item) => width.holds(*n) && has_room(item),
        Form::Simple(n) => is_simple_value(u64::from(*n)),
    }
}

#[cycle(has_room)]
fn items_have_room(items: &[Node]) -> bool
    ensures { IsTrue result ↔ FitsAll (trees items.now) }
{
    for item in items {
        if !has_room(item) {
            return false;
        }
    }
    true
}

#[cycle(has_room)]
fn pairs_have_room(pairs: &[(Node, Node)]) -> bool
    ensures { IsTrue result ↔ FitsEntries (entries pairs.now) }
{
    for (key, value) in pairs {
        if !has_room(key) || !has_room(value) {
            return false;
        }
    }
    true
}

#[tactic(auto, using(crate::proofs::Listed::Deciding::refuted, crate::proofs::Listed::Deciding::failed, crate::proofs::Listed::Fitting::chunk_fits_at))]
fn chunks_fit(chunks: &[Chunk]) -> bool
    ensures { IsTrue result ↔ ChunksFit chunks.now }
{
    for chunk in chunks {
        if !chunk.width.holds(chunk.bytes.as_slice().len() as u64) {
            return false;
        }
    }
    true
}

/// Whether the head of an array or a map of `n` entries can have this size.
fn size_fits(size: Size, n: u64) -> bool
    ensures { IsTrue result ↔ SizeFits size n }
{
    match size {
        Size::Fixed(width) => width.holds(n),
        Size::Endless => true,
    }
}
