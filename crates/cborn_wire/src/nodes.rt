//! The visitor [`Nodes`], which builds nodes: it puts what is whole into the innermost open container.

ghost use Rattle.std.specs.Prelude.{◌≡◌, ◌≤◌, List, [], OnOk, IfOk, IfSome, None, ℕ};
ghost use Rattle.cborn_wire.specs.Common.{Tree, trees, depth_all, FitsAll, Partial, top, whole, put, no_part, ended_size, string_tree, Proper, TakesString, IsFree, within, around, seen_nodes, IsHeld, chunks_tree, tree_of};
ghost use Rattle.cborn_wire.specs.devices.OpenNodes.{ended};

use cborn_model::{
    ByteString, Chunk, Form, Node, Size, Spelled, StringKind, Visitor, Width, ended_size,
    push_doubling,
};
use std::alloc::{AllocError, Global};

/// A string of `len` bytes, and those of them that came.
#[derive(Drop)]
pub(crate) struct OpenString {
    pub(crate) place: u64,
    pub(crate) kind: StringKind,
    pub(crate) width: Width,
    pub(crate) len: u64,
    pub(crate) bytes: Vec<u8>,
}

/// Builds the nodes of the items that a source hands it.
#[derive(Drop)]
pub struct Nodes {
    pub(crate) alloc: Global,
    /// The innermost container; the input, if none is open.
    pub(crate) innermost: OpenNode,
    /// Those around it, the innermost of them last.
    pub(crate) outer: Vec<OpenNode>,
    /// The string that comes in parts.
    pub(crate) string: Option<OpenString>,
}

impl Nodes {
    /// A visitor that was handed nothing. Takes no memory.
    pub fn new(alloc: Global) -> Nodes
        ensures { IsHeld result (top []) no_part }
    {
        Nodes {
            alloc,
            innermost: OpenNode::Input(Vec::new(alloc)),
            outer: Vec::new(alloc),
            string: None,
        }
    }

    /// Removes the last whole node. `None` if there is none, or something is open.
    pub(crate) fn take_whole(&mut self) -> Option<Node>
        ensures taken { IfSome result (λ t. (seen_nodes self.old ≡ put (seen_nodes self.new) t) × (seen_nodes self.new ≡ top (whole (seen_nodes self.new)))) }
        ensures none { result ≡ None → (ts : List Tree) → seen_nodes self.old ≡ top ts → ts ≡ [] }
        ensures same { result ≡ None → seen_nodes self.new ≡ seen_nodes self.old }
        ensures string { self.new.string ≡ self.old.string }
    {
        match &mut self.innermost {
            OpenNode::Input(nodes) => nodes.pop(),
            _ => None,
        }
    }

    /// The nodes that it was handed, of which none is open.
    ///
    /// # Errors
    /// `AllocError` if memory is refused.
    pub fn finish(self) -> Result<Vec<Spelled>, AllocError>
        requires { (ts : List Tree) × ⟦<Nodes as Visitor>⟧.holds self (top ts) no_part × FitsAll (trees ts) × (depth_all (trees ts) ≤ 1024) }
        ensures { IfOk result (λ items. (ts : List Tree) → ⟦<Nodes as Visitor>⟧.holds self (top ts) no_part → items.items ≡ ts) }
    {
        let alloc = self.alloc;
        let nodes = whole_nodes(alloc, self.innermost);
        let mut items = Vec::with_capacity(alloc, nodes.len())?;
        for node in nodes {
            items.push(Spelled::new(node))?;
        }
        Ok(items)
    }

    /// Opens a container in the innermost.
    #[tactic(auto, using(crate::proofs::Building::around_push))]
    fn open(&mut self, container: OpenNode) -> Result<(), AllocError>
        ensures { OnOk result ((f g : Partial) → g ≡ within f container → IsHeld self.old f no_part → IsHeld self.new g no_part) }
    {
        let around = std::mem::replace(&mut self.innermost, container);
        self.outer.push(around)?;
        Ok(())
    }

    /// Removes the container around the innermost, and gives it; the input, if there is none.
    #[tactic(auto, using(crate::proofs::Building::popped))]
    fn leave(&mut self) -> OpenNode
        ensures around { around (top []) self.old.outer.items ≡ within (around (top []) self.new.outer.items) result }
        ensures rest { self.new ≡ record self.old { outer = self.new.outer } }
    {
        match self.outer.pop() {
            Some(around) => around,
            None => OpenNode::Input(Vec::new(self.alloc)),
        }
    }
}

/// The nodes of the input; none of another container.
fn whole_nodes(alloc: Global, innermost: OpenNode) -> Vec<Node>
    ensures { (f : Partial) (ts : List Tree) → within f innermost ≡ top ts → result.items ≡ ts }
{
    match innermost {
        OpenNode::Input(nodes) => nodes,
        _ => Vec::new(alloc),
    }
}

impl Visitor for Nodes {
    ghost holds = { IsHeld };

    ghost takes_memory = { Unit {0} };

    fn integer(
        &mut self,
        place: u64,
        negative: bool,
        width: Width,
        n: u64,
    ) -> Result<(), AllocError> {
        let form = match negative {
            true => Form::Nint(width, n),
            false => Form::Uint(width, n),
        };
        self.innermost.put(Node { place, form })
    }

    fn simple(&mut self, place: u64, n: u8) -> Result<(), AllocError> {
        let form = Form::Simple(n);
        self.innermost.put(Node { place, form })
    }

    fn open_array(&mut self, place: u64, size: Size, count: Option<u64>) -> Result<(), AllocError> {
        let head = OpenHead { place, size, count };
        self.open(OpenNode::Items(head, Vec::new(self.alloc)))
    }

    fn open_map(&mut self, place: u64, size: Size, count: Option<u64>) -> Result<(), AllocError> {
        let head = OpenHead { place, size, count };
        self.open(OpenNode::Pairs(head, Vec::new(self.alloc), None))
    }

    fn open_tag(&mut self, place: u64, width: Width, n: u64) -> Result<(), AllocError> {
        self.open(OpenNode::Tag(place, width, n, None))
    }

    fn open_chunks(&mut self, place: u64, kind: StringKind) -> Result<(), AllocError> {
        self.open(OpenNode::Chunks(place, kind, Vec::new(self.alloc)))
    }

    fn close(&mut self) -> Result<(), AllocError> {
        let around = self.leave();
        let container = std::mem::replace(&mut self.innermost, around);
        let Some(node) = container.end(self.alloc)? else {
            return Ok(());
        };
        self.innermost.put(node)
    }

    fn open_string(
        &mut self,
        place: u64,
        kind: StringKind,
        width: Width,
        len: u64,
    ) -> Result<(), AllocError> {
        let bytes = Vec::new(self.alloc);
        self.string = Some(OpenString {
            place,
            kind,
            width,
            len,
            bytes,
        });
        Ok(())
    }

    fn part(&mut self, bytes: &[u8]) -> Result<(), AllocError> {
        if let Some(string) = &mut self.string {
            string.bytes.extend_from_slice(bytes)?;
        }
        Ok(())
    }

    fn close_string(&mut self) -> Result<(), AllocError> {
        let Some(string) = self.string.take() else {
            return Ok(());
        };
        let chunk = Chunk {
            place: string.place,
            width: string.width,
            bytes: ByteString::new(string.bytes),
        };
        self.innermost.put_string(string.kind, chunk)
    }
}

/// The head of an open array or map, and the number of items or pairs that it announces.
#[derive(Clone, Copy)]
pub(crate) struct OpenHead {
    pub(crate) place: u64,
    pub(crate) size: Size,
    pub(crate) count: Option<u64>,
}

impl OpenHead {
    /// The size of what ends with this many items or pairs.
    fn ended_size(self, entries: usize) -> Size
        ensures { result ≡ ended_size self.size self.count entries }
    {
        ended_size(self.size, self.count, entries as u64)
    }
}

/// The input, or an open container in it, with what is whole in it.
#[derive(Drop)]
pub(crate) enum OpenNode {
    Input(Vec<Node>),
    Items(OpenHead, Vec<Node>),
    /// The last is a key whose value is missing.
    Pairs(OpenHead, Vec<(Node, Node)>, Option<Node>),
    /// A tag at this offset, with the width and the number in its head, and its content.
    Tag(u64, Width, u64, Option<Node>),
    /// A string of indefinite length at this offset, of this kind, and its chunks.
    Chunks(u64, StringKind, Vec<Chunk>),
}

impl OpenNode {
    /// Puts a whole node into it. A string of indefinite length takes none.
    #[tactic(auto, using(crate::proofs::Building::pair_push))]
    pub(crate) fn put(&mut self, node: Node) -> Result<(), AllocError>
        ensures { OnOk result ((f : Partial) → IsFree (within f self.old) → within f self.new ≡ put (within f self.old) node) }
    {
        match self {
            OpenNode::Input(nodes) => push_doubling(nodes, node),
            OpenNode::Items(_, items) => push_doubling(items, node),
            OpenNode::Pairs(_, pairs, key) => match key.take() {
                None => {
                    *key = Some(node);
                    Ok(())
                }
                Some(first) => push_doubling(pairs, (first, node)),
            },
            OpenNode::Tag(_, _, _, content) => {
                *content = Some(node);
                Ok(())
            }
            OpenNode::Chunks(..) => Ok(()),
        }
    }

    /// Puts a string of definite length into it: a chunk, or a node.
    pub(crate) fn put_string(&mut self, kind: StringKind, chunk: Chunk) -> Result<(), AllocError>
        ensures { OnOk result ((f : Partial) → Proper (within f self.old) → TakesString (within f self.old) kind → within f self.new ≡ put (within f self.old) (string_tree chunk.place kind chunk.width chunk.bytes)) }
    {
        match self {
            OpenNode::Chunks(_, _, chunks) => push_doubling(chunks, chunk),
            _ => self.put(string_node(kind, chunk)),
        }
    }

    /// The node that it is, if it may end: the input is none, nor is a tag without its content.
    #[tactic(auto, using(cborn_model::proofs::HandedOver::strings))]
    pub(crate) fn end(self, alloc: Global) -> Result<Option<Node>, AllocError>
        ensures { IfOk result (λ o. (f : Partial) → o ≡ ended (within f self)) }
    {
        match self {
            OpenNode::Input(_nodes) => Ok(None),
            OpenNode::Items(head, items) => {
                let form = Form::Items(head.ended_size(items.len()), items);
                let place = head.place;
                Ok(Some(Node { place, form }))
            }
            OpenNode::Pairs(head, pairs, _key) => {
                let form = Form::Pairs(head.ended_size(pairs.len()), pairs);
                let place = head.place;
                Ok(Some(Node { place, form }))
            }
            OpenNode::Tag(place, width, number, content) => {
                let Some(node) = content else {
                    return Ok(None);
                };
                let form = Form::Tagged(width, number, Box::new(alloc, node)?);
                Ok(Some(Node { place, form }))
            }
            OpenNode::Chunks(place, kind, chunks) => {
                let form = chunks_form(kind, chunks);
                Ok(Some(Node { place, form }))
            }
        }
    }
}

/// The string of these chunks.
fn chunks_form(kind: StringKind, chunks: Vec<Chunk>) -> Form
    ensures { (place : ℕ) → tree_of place result ≡ chunks_tree place kind chunks.items }
{
    match kind {
        StringKind::OfBytes => Form::ByteChunks(chunks),
        StringKind::OfText => Form::TextChunks(chunks),
    }
}

/// A string of definite length that is no chunk.
fn string_node(kind: StringKind, chunk: Chunk) -> Node
    ensures { result ≡ string_tree chunk.place kind chunk.width chunk.bytes }
{
    let place = chunk.place;
    let form = match kind {
        StringKind::OfBytes => Form::Bytes(chunk.width, chunk.bytes),
        StringKind::OfText => Form::Text(chunk.width, chunk.bytes),
    };
    Node { place, form }
}
