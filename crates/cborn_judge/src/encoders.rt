//! The visitor [`Encoder`], which encodes items, and finds their first flaw and their first defect.

ghost use Rattle.std.specs.Prelude.{◌≡◌, ◌++◌, ◌↔◌, ℕ, List, [], length, Option, None, Some, true, false, IfOk, IfErr, OnOk, IsTrue};
ghost use Rattle.cborn_model.specs.Tree as tree;
ghost use Rattle.cborn_judge.specs.Common.{Ordering, Tree, trees, Width as Wide, StringKind as Kind, Partial, top, put, no_part, part, IsFree, string_tree, IsFirst};
ghost use Rattle.cborn_judge.specs.Reasons.{flaw_rank};
ghost use Rattle.cborn_judge.specs.Departures.{FindsDefect};
ghost use Rattle.cborn_judge.specs.shared.Checked.{DefectInAll};
ghost use Rattle.cborn_judge.specs.shared.Judged.{FlawIn, FindsFlaw};
ghost use Rattle.cborn_judge.specs.devices.Marks.{marks_of};
ghost use Rattle.cborn_judge.specs.devices.Encoding.{kind_major, is_chunks, IsMarked, Coded, AreEncodedAs, Finds};
ghost use Rattle.cborn_judge.specs.devices.Encoders.{kept, IsHeld, StandsIn, StandsAs, Written, IsContent, IsEndedString, IsStringFront};

use crate::defects::Defect;
use crate::faults::{Flaw, InvalidReason, keep, text_flaw};
use crate::levels::{Container, Level};
use crate::marks::from_index;
use crate::pairs::Pairs;
use crate::spellings::head_defect;
use crate::strings::{is_content, is_text};
use cborn_det::{integer_major, put_head};
use cborn_model::{KeyOrder, LeafPair, Major, Result, Size, StringKind, Visitor, Width};
use std::alloc::{AllocError, Global};
use std::marker::PhantomData;

/// A string of `len` bytes that comes in parts.
#[derive(Clone, Copy)]
pub(crate) struct OpenString {
    pub(crate) place: u64,
    pub(crate) kind: StringKind,
    pub(crate) width: Width,
    pub(crate) len: u64,
    /// Where its encoding begins in the buffer.
    pub(crate) start: usize,
    /// Where its content begins there.
    pub(crate) content: usize,
}

/// The encodings of the nodes that are whole, and what is open around the next.
#[derive(Drop)]
pub(crate) struct Encodings {
    pub(crate) out: Vec<u8>,
    /// The innermost container; the input, if none is open.
    pub(crate) innermost: Level,
    /// Those around it, the innermost of them last.
    pub(crate) outer: Vec<Level>,
    pub(crate) pairs: Pairs,
    /// Room for the bytes of a bignum, or for pairs while they are arranged.
    pub(crate) spare: Vec<u8>,
}

/// The items that an encoder was handed, each of which means something.
#[derive(Drop)]
pub struct EncodedItems {
    /// Their deterministic encodings, one after another (RFC 8949 section 4.2).
    pub bytes: Vec<u8>,
    /// Where their spelling first departs from these, if it does.
    pub defect: Option<Defect>,
}

/// Writes the deterministic encodings of the items that a source hands it, with the keys of maps in
/// the order `O` (RFC 8949 section 4.2). In the same look it finds what is wrong with them: the first
/// flaw, and the first defect.
#[derive(Drop)]
pub struct Encoder<O> {
    pub(crate) encodings: Encodings,
    /// The string that comes in parts.
    pub(crate) string: Option<OpenString>,
    pub(crate) flaw: Option<Flaw>,
    pub(crate) defect: Option<Defect>,
    order: PhantomData<O>,
}

impl Encodings {
    /// Counts a whole node, whose encoding stands from `start` on; none does if it means nothing.
    #[inline(always)]
    pub(crate) fn put(&mut self, place: u64, start: usize) -> Result<()>
        ensures held { OnOk result ((order : List ℕ → List ℕ → Ordering) (f : Partial) (t : Tree) (y x : List ℕ) → IsFree f → tree.place t ≡ place → self.old.out.items ≡ y ++ x → start ≡ length y → Coded order t x → StandsAs order self.old f y → StandsIn order self.new (put f t)) }
    {
        let end = self.out.len();
        let has_key = self.innermost.has_key();
        self.innermost.add(end <= start);
        self.mark(has_key, place, start, end)
    }

    /// Marks what stands from `start` to `end`, in a map: the value, if it `has_key`, else the key.
    #[inline(always)]
    fn mark(&mut self, has_key: bool, place: u64, start: usize, end: usize) -> Result<()>
        ensures marked { OnOk result (IsMarked self.old.innermost.container has_key (place, start, end, end) (marks_of self.old.pairs) (marks_of self.new.pairs)) }
        ensures kept { (self.new.out ≡ self.old.out) × (self.new.innermost ≡ self.old.innermost) × (self.new.outer ≡ self.old.outer) }
    {
        match self.innermost.container {
            Container::Map { .. } if has_key => self.pairs.set_end(end),
            Container::Map { .. } => self.pairs.push_pair(place, start, end, end),
            _ => Ok(()),
        }
    }

    /// Writes the head of a string, unless it is one of a string of indefinite length.
    #[inline(always)]
    fn push_string_front(&mut self, kind: StringKind, len: u64) -> Result<()>
        ensures front { OnOk result ((h : List ℕ) × IsStringFront (is_chunks self.old.innermost) kind len h × (self.new.out.items ≡ self.old.out.items ++ h)) }
        ensures rest { (self.new.innermost ≡ self.old.innermost) × (self.new.outer ≡ self.old.outer) × (self.new.pairs ≡ self.old.pairs) }
    {
        if self.innermost.is_chunks() {
            return Ok(());
        }
        put_head(major_of(kind), len, &mut self.out)
    }

    /// Cuts the buffer at `start`, unless what follows is kept.
    #[inline(always)]
    fn cut(&mut self, start: usize, is_kept: bool)
        ensures cut { (y x : List ℕ) → self.old.out.items ≡ y ++ x → start ≡ length y → self.new.out.items ≡ y ++ kept is_kept x }
        ensures rest { (self.new.innermost ≡ self.old.innermost) × (self.new.outer ≡ self.old.outer) × (self.new.pairs ≡ self.old.pairs) }
    {
        if !is_kept {
            self.out.truncate(start);
        }
    }
}

impl<O: KeyOrder> Encoder<O> {
    /// A visitor that was handed nothing. Takes no memory.
    pub fn new(alloc: Global) -> Encoder<O>
        ensures { ⟦<Encoder<O> as Visitor>⟧.holds result (top []) no_part }
    {
        Encoder::over(alloc, Vec::new(alloc))
    }

    /// A visitor that was handed nothing, with room for so many bytes of encodings. An encoding
    /// is seldom longer than what it was read from.
    ///
    /// # Errors
    /// `AllocError` if memory is refused.
    pub fn with_capacity(alloc: Global, capacity: usize) -> Result<Encoder<O>, AllocError>
        ensures { IfOk result (λ encoder. ⟦<Encoder<O> as Visitor>⟧.holds encoder (top []) no_part) }
    {
        let out = Vec::with_capacity(alloc, capacity)?;
        Ok(Encoder::over(alloc, out))
    }

    /// A visitor that was handed nothing, and writes to an empty buffer.
    fn over(alloc: Global, out: Vec<u8>) -> Encoder<O>
        requires { out.items ≡ [] }
        ensures { ⟦<Encoder<O> as Visitor>⟧.holds result (top []) no_part }
    {
        let encodings = Encodings {
            out,
            innermost: Level::new(Container::Input, 0, 0, 0),
            outer: Vec::new(alloc),
            pairs: Pairs::new(alloc),
            spare: Vec::new(alloc),
        };
        Encoder {
            encodings,
            string: None,
            flaw: None,
            defect: None,
            order: PhantomData,
        }
    }

    /// Whether what it was handed so far has a flaw or a defect: whether [`Encoder::finish`] would give
    /// one now.
    #[inline(always)]
    pub fn departs(&self) -> bool
        ensures none { result ≡ false → (ts : List Tree) → ⟦<Encoder<O> as Visitor>⟧.holds self.now (top ts) no_part → FindsFlaw (FlawIn (trees ts)) None × FindsDefect (DefectInAll O.order (trees ts)) None }
        ensures some { result ≡ true → (ts : List Tree) → ⟦<Encoder<O> as Visitor>⟧.holds self.now (top ts) no_part → FindsFlaw (FlawIn (trees ts)) None → FindsDefect (DefectInAll O.order (trees ts)) None → ⊥ }
    {
        self.flaw.is_some() || self.defect.is_some()
    }

    /// The length in bytes of the string that comes in parts. Nothing is known of it where none does.
    #[inline(always)]
    pub fn string_len(&self) -> u64
        ensures { (f : Partial) (p : ℕ) (k : Kind) (w : Wide) (n : ℕ) (x : List ℕ) → ⟦<Encoder<O> as Visitor>⟧.holds self.now f (part p k w n x) → result ≡ n }
    {
        match self.string {
            Some(string) => string.len,
            None => 0,
        }
    }

    /// The encodings of the items that it was handed, and the first defect of their spelling: that at
    /// the lowest offset, and there that with the lowest number.
    ///
    /// # Errors
    /// If an item means nothing, the first flaw of all: its offset in bytes from the start of the
    /// input, and its reason (RFC 8949 section 5.3).
    pub fn finish(self) -> Result<EncodedItems, (u64, InvalidReason)>
        ensures encoded { IfOk result (λ encoded. (ts : List Tree) → ⟦<Encoder<O> as Visitor>⟧.holds self (top ts) no_part → AreEncodedAs O.order ts encoded.bytes.items) }
        ensures defect { IfOk result (λ encoded. (ts : List Tree) → ⟦<Encoder<O> as Visitor>⟧.holds self (top ts) no_part → FindsDefect (DefectInAll O.order (trees ts)) encoded.defect) }
        ensures flawed { IfErr result (λ flaw. (ts : List Tree) → ⟦<Encoder<O> as Visitor>⟧.holds self (top ts) no_part → IsFirst flaw_rank (FlawIn (trees ts)) flaw.0 flaw.1) }
    {
        if let Some(flaw) = self.flaw {
            return Err((flaw.place, flaw.reason));
        }
        let defect = self.defect;
        let encodings = self.encodings;
        let bytes = encodings.out;
        Ok(EncodedItems { bytes, defect })
    }

    /// Begins a string: writes what stands before its content.
    #[inline(always)]
    fn begin_string(
        &mut self,
        place: u64,
        kind: StringKind,
        width: Width,
        len: u64,
    ) -> Result<OpenString>
        ensures string { IfOk result (λ string. (string.place ≡ place) × (string.kind ≡ kind) × (string.width ≡ width) × (string.len ≡ len)) }
        ensures written { IfOk result (λ string. (f : Partial) → StandsIn O.order self.old.encodings f → (h : List ℕ) × Written O.order self.new.encodings string f self.old.encodings.out.items h []) }
        ensures rest { (self.new.flaw ≡ self.old.flaw) × (self.new.defect ≡ self.old.defect) }
    {
        let start = self.encodings.out.len();
        self.encodings.push_string_front(kind, len)?;
        let content = self.encodings.out.len();
        Ok(OpenString {
            place,
            kind,
            width,
            len,
            start,
            content,
        })
    }

    /// Ends a string whose content was written: finds what is wrong with it, and counts it. Nothing of
    /// it is left in the buffer unless it is good.
    #[inline(always)]
    fn end_string(&mut self, string: OpenString, is_good: bool) -> Result<()>
        ensures held { OnOk result ((f : Partial) (y h x : List ℕ) → IsTrue is_good ↔ IsContent string.kind x → IsEndedString O.order self.old.encodings string f y h x → Finds O.order f self.old.flaw self.old.defect → IsHeld O.order self.new (put f (string_tree string.place string.kind string.width x)) no_part) }
    {
        let place = string.place;
        keep(&mut self.flaw, text_flaw(place, is_good));
        keep(
            &mut self.defect,
            head_defect(place, string.width, string.len),
        );
        self.encodings.cut(string.start, is_good);
        if self.encodings.innermost.is_chunks() {
            self.encodings.innermost.add(!is_good);
            return Ok(());
        }
        self.encodings.put(place, string.start)
    }
}

impl<O: KeyOrder> Visitor for Encoder<O> {
    ghost holds = { IsHeld O.order };

    ghost takes_memory = { Unit {0} };

    #[inline(always)]
    fn integer(&mut self, place: u64, negative: bool, width: Width, n: u64) -> Result<()> {
        let start = self.encodings.out.len();
        put_head(integer_major(negative), n, &mut self.encodings.out)?;
        keep(&mut self.defect, head_defect(place, width, n));
        self.encodings.put(place, start)
    }

    #[inline(always)]
    fn simple(&mut self, place: u64, n: u8) -> Result<()> {
        let start = self.encodings.out.len();
        put_head(Major::Other, u64::from(n), &mut self.encodings.out)?;
        self.encodings.put(place, start)
    }

    fn open_array(&mut self, place: u64, size: Size, count: Option<u64>) -> Result<()> {
        self.open(Container::Array { size, count }, place)
    }

    fn open_map(&mut self, place: u64, size: Size, count: Option<u64>) -> Result<()> {
        self.open(Container::Map { size, count }, place)
    }

    fn open_tag(&mut self, place: u64, width: Width, n: u64) -> Result<()> {
        let number = n;
        self.open(Container::Tag { width, number }, place)
    }

    fn open_chunks(&mut self, place: u64, kind: StringKind) -> Result<()> {
        self.open(Container::Chunks(kind), place)
    }

    fn close(&mut self) -> Result<()> {
        let level = self.encodings.innermost;
        match level.container {
            Container::Array { size, count } if level.count < 24 => self.end_array(size, count),
            Container::Map { size, count }
                if self.encodings.pairs.count_from(level.pairs) < 2 && !level.flawed => {
                self.end_rising(size, count)
            }
            Container::Map { size, count } => self.end_map(size, count),
            Container::Tag { width, number } if number != 2 && number != 3 => {
                self.end_tag(width, number)
            }
            _ => self.close_slowly(),
        }
    }

    #[inline(always)]
    fn open_string(&mut self, place: u64, kind: StringKind, width: Width, len: u64) -> Result<()> {
        let string = self.begin_string(place, kind, width, len)?;
        self.string = Some(string);
        Ok(())
    }

    #[inline(always)]
    fn part(&mut self, bytes: &[u8]) -> Result<()> {
        self.encodings.out.extend_from_slice(bytes)?;
        Ok(())
    }

    #[inline(always)]
    fn close_string(&mut self) -> Result<()> {
        let Some(string) = self.string.take() else {
            return Ok(());
        };
        let written = from_index(&self.encodings.out, string.content);
        let is_good = is_content(string.kind, written);
        self.end_string(string, is_good)
    }

    #[inline(always)]
    fn string(&mut self, place: u64, kind: StringKind, width: Width, bytes: &[u8]) -> Result<()> {
        let string = self.begin_string(place, kind, width, bytes.len() as u64)?;
        self.encodings.out.extend_from_slice(bytes)?;
        let is_good = is_content(kind, bytes);
        self.end_string(string, is_good)
    }

    #[inline(always)]
    fn takes_runs() -> bool {
        true
    }

    #[inline(always)]
    fn integers(&mut self, _place: u64, count: u64, spelled: &[u8]) -> Result<bool> {
        self.encodings.out.extend_from_slice(spelled)?;
        self.encodings.innermost.add_items(count);
        Ok(true)
    }

    #[inline(always)]
    fn pair(&mut self, place: u64, pair: LeafPair) -> Result<bool> {
        if !is_text(pair.key_text) || !is_text(pair.value_text) {
            return Ok(false);
        }
        let start = self.encodings.out.len();
        self.encodings.out.extend_from_slice(pair.spelled)?;
        let end = self.encodings.out.len();
        let middle = start.saturating_add(pair.key_len);
        self.encodings.pairs.push_pair(place, start, middle, end)?;
        self.encodings.innermost.add(false);
        self.encodings.innermost.add(false);
        Ok(true)
    }
}

/// The major type of strings of this kind (RFC 8949 section 3.1).
pub(crate) fn major_of(kind: StringKind) -> Major
    ensures { result ≡ kind_major kind }
{
    match kind {
        StringKind::OfBytes => Major::ByteString,
        StringKind::OfText => Major::TextString,
    }
}
