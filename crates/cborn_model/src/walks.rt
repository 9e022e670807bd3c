//! Handing nodes to a visitor.

ghost use Rattle.std.specs.Prelude.{◌≡◌};
ghost use Rattle.cborn_model.specs.Common.{length, OnOk, OnErr};
ghost use Rattle.cborn_model.specs.Heads.{WidthFits, SizeFits};
ghost use Rattle.cborn_model.specs.Tree.{Items, Pairs, trees, entries};
ghost use Rattle.cborn_model.specs.Spelled.{Fits, FitsAll, FitsEntries, ChunksFit};
ghost use Rattle.cborn_model.specs.Partial.{Partial, no_part, put, string_tree, IsFree, chunks_tree, TakesString, Proper, CountFits};
ghost use Rattle.cborn_model.specs.shared.Walks.{count_of};

use crate::growth::Result;
use crate::nodes::{Chunk, Form, Node};
use crate::visitors::StringKind::{OfBytes, OfText};
use crate::visitors::{StringKind, Visitor};
use crate::{Size, Width};
use std::alloc::AllocError;

/// Hands a node to a visitor, head by head, in the order of the bytes that it spells (RFC 8949
/// section 3).
///
/// # Errors
/// `AllocError` if memory is refused to the visitor, of which nothing is known then.
#[cycle(visit_node)]
pub fn visit_node<V: Visitor>(visitor: &mut V, node: &Node) -> Result<(), AllocError>
    requires { Fits node.now }
    ensures held { OnOk result ((f : Partial) → IsFree f → V.holds visitor.old f no_part → V.holds visitor.new (put f node.now) no_part) }
    ensures memory { OnErr result V.takes_memory }
{
    let place = node.place;
    match &node.form {
        Form::Uint(width, n) => visitor.integer(place, false, *width, *n),
        Form::Nint(width, n) => visitor.integer(place, true, *width, *n),
        Form::Bytes(width, bytes) => visitor.string(place, OfBytes, *width, bytes.as_slice()),
        Form::Text(width, bytes) => visitor.string(place, OfText, *width, bytes.as_slice()),
        Form::ByteChunks(chunks) => visit_chunks(visitor, place, OfBytes, chunks),
        Form::TextChunks(chunks) => visit_chunks(visitor, place, OfText, chunks),
        Form::Items(size, items) => visit_array(visitor, place, *size, items),
        Form::Pairs(size, pairs) => visit_map(visitor, place, *size, pairs),
        Form::Tagged(width, n, item) => {
            visitor.open_tag(place, *width, *n)?;
            visit_node(visitor, item)?;
            visitor.close()
        }
        Form::Simple(n) => visitor.simple(place, *n),
    }
}

/// Hands an array to a visitor.
#[cycle(visit_node)]
fn visit_array<V: Visitor>(visitor: &mut V, place: u64, size: Size, items: &[Node]) -> Result<()>
    requires size { SizeFits size (length items.now) }
    requires items { FitsAll (trees items.now) }
    ensures held { OnOk result ((f : Partial) → IsFree f → V.holds visitor.old f no_part → V.holds visitor.new (put f (Items place size (trees items.now))) no_part) }
    ensures memory { OnErr result V.takes_memory }
{
    visitor.open_array(place, size, count_of(size, items.len()))?;
    for item in items {
        visit_node(visitor, item)?;
    }
    visitor.close()
}

/// Hands a map to a visitor.
#[cycle(visit_node)]
fn visit_map<V: Visitor>(
    visitor: &mut V,
    place: u64,
    size: Size,
    pairs: &[(Node, Node)],
) -> Result<()>
    requires size { SizeFits size (length pairs.now) }
    requires pairs { FitsEntries (entries pairs.now) }
    ensures held { OnOk result ((f : Partial) → IsFree f → V.holds visitor.old f no_part → V.holds visitor.new (put f (Pairs place size (entries pairs.now))) no_part) }
    ensures memory { OnErr result V.takes_memory }
{
    visitor.open_map(place, size, count_of(size, pairs.len()))?;
    for (key, value) in pairs {
        visit_node(visitor, key)?;
        visit_node(visitor, value)?;
    }
    visitor.close()
}

/// How many items or pairs a head of this size announces.
fn count_of(size: Size, len: usize) -> Option<u64>
    requires { SizeFits size len }
    ensures is { result ≡ count_of size len }
    ensures fits { CountFits size result }
{
    match size {
        Size::Fixed(_) => Some(len as u64),
        Size::Endless => None,
    }
}

/// Hands a string of indefinite length to a visitor.
#[tactic(auto, using(crate::proofs::Listed::Fitting::chunk_fits_at))]
fn visit_chunks<V: Visitor>(
    visitor: &mut V,
    place: u64,
    kind: StringKind,
    chunks: &[Chunk],
) -> Result<()>
    requires { ChunksFit chunks.now }
    ensures held { OnOk result ((f : Partial) → IsFree f → V.holds visitor.old f no_part → V.holds visitor.new (put f (chunks_tree place kind chunks.now)) no_part) }
    ensures memory { OnErr result V.takes_memory }
{
    visitor.open_chunks(place, kind)?;
    for chunk in chunks {
        visitor.string(chunk.place, kind, chunk.width, chunk.bytes.as_slice())?;
    }
    visitor.close()
}
