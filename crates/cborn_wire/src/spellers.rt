//! The visitor [`Speller`], which writes the bytes that items spell.

ghost use Rattle.std.specs.Prelude.{◌≡◌, ◌≤◌, ◌++◌, [], ◌∷◌, List, Some, OnOk, IfOk, vec_capacity};
ghost use Rattle.cborn_wire.specs.Common.{code, WidthFits, head_bytes, Tree, trees, spelled, spelled_all, Opening, Partial, top, inside, put, no_part, CountFits, shape, ending_of, entries_in, IsWritten, IsEnded, OpenSpelling as Container};
ghost use Rattle.cborn_wire.specs.shared.Spelling.{Stands};

use crate::heads::{major_of, push_head};
use crate::placed_heads::set_head;
use cborn_model::{BREAK, Major, Size, StringKind, Visitor, Width, push_doubling, shortest};
use std::alloc::{AllocError, Global};

/// What is to be written where a container ends.
#[derive(Clone, Copy)]
pub(crate) enum Ending {
    /// Nothing: its head says how much it holds.
    Nothing,
    /// The break.
    Break,
    /// The head of an array or a map, of at least this width, in the place of the byte at its start.
    Later(Major, Width),
}

/// An open container.
#[derive(Clone, Copy)]
pub(crate) struct OpenSpelling {
    /// Where its head is, or the byte in its place: an offset in the bytes that are written.
    start: usize,
    /// How many nodes are whole in it.
    nodes: u64,
    ending: Ending,
}

impl OpenSpelling {
    /// Writes what is owed at its end.
    #[inline(always)]
    fn end(self, out: &mut Vec<u8>) -> Result<(), AllocError>
        ensures { OnOk result (IsEnded self.ending self.nodes self.start out.old.items out.new.items) }
    {
        match self.ending {
            Ending::Nothing => Ok(()),
            Ending::Break => push_doubling(out, BREAK),
            Ending::Later(major, width) => {
                if self.start >= out.len() {
                    return Ok(());
                }
                set_head(out, major, width, entries_in(major, self.nodes), self.start)
            }
        }
    }
}

/// How many items or pairs these nodes are.
#[inline(always)]
fn entries_in(major: Major, nodes: u64) -> u64
    ensures { result ≡ entries_in major nodes }
{
    match major {
        Major::Map => nodes / 2,
        _ => nodes,
    }
}

/// What is to be written at the end of a container that says its size so.
#[inline(always)]
fn ending_of(major: Major, size: Size, count: Option<u64>) -> Ending
    ensures { result ≡ ending_of (major, size, count) }
{
    match (size, count) {
        (Size::Fixed(width), None) => Ending::Later(major, width),
        (Size::Fixed(_), Some(_)) => Ending::Nothing,
        (Size::Endless, _) => Ending::Break,
    }
}

/// Writes the bytes that the items spell which a source hands it (RFC 8949 sections 3.1 to 3.4),
/// each head in its width.
#[derive(Drop)]
pub struct Speller {
    out: Vec<u8>,
    /// The open containers, the innermost of them last.
    containers: Vec<OpenSpelling>,
}

impl Speller {
    /// A visitor that was handed nothing. Takes no memory.
    pub fn new(alloc: Global) -> Speller
        ensures { ⟦<Speller as Visitor>⟧.holds result (top []) no_part }
    {
        Speller {
            out: Vec::new(alloc),
            containers: Vec::new(alloc),
        }
    }

    /// A visitor that was handed nothing, with memory for the first `room` bytes that it writes.
    ///
    /// # Errors
    /// `AllocError` if memory is refused.
    pub fn with_room(alloc: Global, room: usize) -> Result<Speller, AllocError>
        ensures { IfOk result (λ s. ⟦<Speller as Visitor>⟧.holds s (top []) no_part) }
    {
        let mut speller = Speller::new(alloc);
        speller.out = Vec::with_capacity(alloc, room)?;
        Ok(speller)
    }

    /// Becomes a visitor that was handed nothing. Keeps its memory.
    pub fn clear(&mut self)
        ensures { ⟦<Speller as Visitor>⟧.holds self.new (top []) no_part }
    {
        self.out.clear();
        self.containers.clear();
    }

    /// How many bytes, or containers open in one another, it has memory for, whichever is more.
    pub fn capacity(&self) -> usize
        ensures { vec_capacity self.now.out ≤ result }
    {
        self.out.capacity().max(self.containers.capacity())
    }

    /// The bytes that the items spell which it was handed, of which none is open.
    pub fn written(&self) -> &[u8]
        requires { (ts : List Tree) × ⟦<Speller as Visitor>⟧.holds self.now (top ts) no_part }
        ensures { (ts : List Tree) → ⟦<Speller as Visitor>⟧.holds self.now (top ts) no_part → result.now ≡ spelled_all (trees ts) }
    {
        &self.out
    }

    /// The bytes that the items spell which it was handed, of which none is open.
    pub fn finish(self) -> Vec<u8>
        requires { (ts : List Tree) × ⟦<Speller as Visitor>⟧.holds self (top ts) no_part }
        ensures { (ts : List Tree) → ⟦<Speller as Visitor>⟧.holds self (top ts) no_part → result.items ≡ spelled_all (trees ts) }
    {
        let Speller { out, .. } = self;
        out
    }

    /// Counts a node whose bytes are written, in the innermost container.
    #[inline(always)]
    fn count(&mut self)
        ensures { (f : Partial) (t : Tree) → Stands self.old f (spelled t) → Stands self.new (put f t) [] }
    {
        if let Some(innermost) = self.containers.last_mut() {
            // Each node has a byte, so fewer than 2^64 are in it.
            innermost.nodes = innermost.nodes.wrapping_add(1);
        }
    }

    /// Writes a node that is one head.
    #[inline(always)]
    fn push_leaf(&mut self, major: Major, width: Width, n: u64) -> Result<(), AllocError>
        requires { WidthFits width n }
        ensures { OnOk result ((f : Partial) (t : Tree) → spelled t ≡ head_bytes (code major) width n → Stands self.old f [] → Stands self.new (put f t) []) }
    {
        push_head(&mut self.out, major, width, n)?;
        self.count();
        Ok(())
    }

    /// Opens a container. Where its number is to come, its head is one byte until its end.
    #[inline(always)]
    fn open(&mut self, major: Major, size: Size, count: Option<u64>) -> Result<(), AllocError>
        requires { CountFits size count }
        ensures { OnOk result ((f : Partial) (o : Opening) → shape o ≡ (major, size, count) → Stands self.old f [] → Stands self.new (inside f o []) []) }
    {
        let opened = OpenSpelling {
            start: self.out.len(),
            nodes: 0,
            ending: ending_of(major, size, count),
        };
        match (size, count) {
            (Size::Fixed(width), Some(n)) => push_head(&mut self.out, major, width, n)?,
            _ => push_doubling(&mut self.out, major.endless_head())?,
        }
        push_doubling(&mut self.containers, opened)
    }

    /// Leaves the innermost container, if there is one, and gives it.
    #[inline(always)]
    fn leave(&mut self) -> Option<OpenSpelling>
        ensures innermost { (c : Container) (outer : List Container) → self.old.containers.items ≡ outer ++ c ∷ [] → (result ≡ Some c) × (self.new.containers.items ≡ outer) }
        ensures out { self.new.out ≡ self.old.out }
    {
        self.containers.pop()
    }
}

impl Visitor for Speller {
    ghost holds = { IsWritten };

    ghost takes_memory = { Unit {0} };

    #[inline(always)]
    fn integer(&mut self, _: u64, negative: bool, width: Width, n: u64) -> Result<(), AllocError> {
        match negative {
            true => self.push_leaf(Major::Negative, width, n),
            false => self.push_leaf(Major::Unsigned, width, n),
        }
    }

    #[inline(always)]
    fn simple(&mut self, _: u64, n: u8) -> Result<(), AllocError> {
        let n = u64::from(n);
        self.push_leaf(Major::Other, shortest(n), n)
    }

    #[inline(always)]
    fn open_array(&mut self, _: u64, size: Size, count: Option<u64>) -> Result<(), AllocError> {
        self.open(Major::Array, size, count)?;
        Ok(())
    }

    #[inline(always)]
    fn open_map(&mut self, _: u64, size: Size, count: Option<u64>) -> Result<(), AllocError> {
        self.open(Major::Map, size, count)?;
        Ok(())
    }

    #[inline(always)]
    fn open_tag(&mut self, _: u64, width: Width, n: u64) -> Result<(), AllocError> {
        self.open(Major::Tag, Size::Fixed(width), Some(n))?;
        Ok(())
    }

    #[inline(always)]
    fn open_chunks(&mut self, _: u64, kind: StringKind) -> Result<(), AllocError> {
        self.open(major_of(kind), Size::Endless, None)?;
        Ok(())
    }

    #[inline(always)]
    fn close(&mut self) -> Result<(), AllocError> {
        if let Some(ended) = self.leave() {
            ended.end(&mut self.out)?;
            self.count();
        }
        Ok(())
    }

    #[inline(always)]
    fn open_string(
        &mut self,
        _: u64,
        kind: StringKind,
        width: Width,
        len: u64,
    ) -> Result<(), AllocError> {
        push_head(&mut self.out, major_of(kind), width, len)
    }

    #[inline(always)]
    fn part(&mut self, bytes: &[u8]) -> Result<(), AllocError> {
        self.out.extend_from_slice(bytes)
    }

    #[inline(always)]
    fn close_string(&mut self) -> Result<(), AllocError> {
        self.count();
        Ok(())
    }
}
