//! The levels that a reader is inside: of each it keeps only what its next head needs; and which initial
//! bytes are allowed next in the innermost.

ghost use Rattle.std.specs.Prelude.{◌≡◌, ◌∷◌, ◌++◌, ◌-◌, ◌<◌, ℕ, List, [], length, take, slice_index_or, true, false, None, Some, IfOk, OnOk, OnErr, ◌%◌, ◌/◌};
ghost use Rattle.cborn_wire.specs.Common.{a_map, an_array, Size, Slot, Level as OneLevel, IsInput, at_none, input_level, is_array, is_chunks, is_at_key, lessened, level_in, may_end, parts_of, room_in, slot_of, with_part, IsNoChunkSlot, info_at, is_bad_chunk, is_of_kind, head_reason, major_at};

use crate::WireReason;
use crate::heads::{is_always_bounded, is_break, is_endless, is_float, is_reserved, major_of};
use cborn_model::{Major, StringKind};
use std::alloc::{AllocError, Global};

/// What a level is.
#[derive(Clone, Copy, PartialEq, Eq)]
pub enum LevelKind {
    /// The input itself: a sequence of items (RFC 8742).
    Sequence,
    Array,
    Map,
    /// A map of which more than 2^64 keys and values are missing.
    GreatMap,
    Tag,
    /// An array of indefinite length.
    EndlessArray,
    /// A map of indefinite length.
    EndlessMap,
    /// A string of indefinite length.
    Chunks(StringKind),
}

/// The input, or an open container in it. Its parts are items, elements, keys and values, the content
/// of a tag, or chunks.
#[derive(Clone, Copy)]
pub struct Level {
    /// The offset of its head in bytes; 0 for the input.
    pub place: u64,
    pub kind: LevelKind,
    /// The argument of its head; 0 where it has none.
    pub argument: u64,
    /// How many parts are missing, modulo 2^64; where no number is announced, 0 minus those that came.
    pub missing: u64,
}

impl Level {
    /// The input, of which nothing was read.
    pub(crate) fn input() -> Level
        ensures { result ≡ input_level 0 }
    {
        Level::new(0, LevelKind::Sequence, 0, 0)
    }

    #[inline(always)]
    pub(crate) fn new(place: u64, kind: LevelKind, argument: u64, missing: u64) -> Level
        ensures { result ≡ record { place = place; kind = kind; argument = argument; missing = missing } }
    {
        Level {
            place,
            kind,
            argument,
            missing,
        }
    }

    /// An array of which nothing but its head was read.
    #[inline(always)]
    pub(crate) fn of_array(place: u64, count: Option<u64>) -> Level
        ensures { (s : Size) → result ≡ level_in (an_array place s count) [] }
    {
        match count {
            None => Level::new(place, LevelKind::EndlessArray, 0, 0),
            Some(n) => Level::new(place, LevelKind::Array, n, n),
        }
    }

    /// A map of which nothing but its head was read.
    #[inline(always)]
    pub(crate) fn of_map(place: u64, count: Option<u64>) -> Level
        ensures { (s : Size) → result ≡ level_in (a_map place s count) [] }
    {
        match count {
            None => Level::new(place, LevelKind::EndlessMap, 0, 0),
            Some(n) if n > 1 << 63 => Level::new(place, LevelKind::GreatMap, n, n.wrapping_add(n)),
            Some(n) => Level::new(place, LevelKind::Map, n, n.wrapping_add(n)),
        }
    }

    /// How many parts are whole, modulo 2^64. Says nothing of a tag.
    pub fn parts(&self) -> u64
        ensures { result ≡ parts_of self.now }
    {
        let announced = match self.kind {
            LevelKind::Map | LevelKind::GreatMap => self.argument.wrapping_add(self.argument),
            _ => self.argument,
        };
        announced.wrapping_sub(self.missing)
    }

    /// Counts one more part, and gives whether it isn't the last, after which nothing is known of it.
    #[inline(always)]
    fn add_part(&mut self) -> bool
        ensures more { result ≡ true → with_part self.old ≡ Some self.new }
        ensures last { result ≡ false → with_part self.old ≡ None }
    {
        self.missing = self.missing.wrapping_sub(1);
        self.missing != 0 || self.goes_on()
    }

    /// Whether there are more parts, where the number of those that are missing is a multiple of 2^64.
    #[cold]
    fn goes_on(&mut self) -> bool
        ensures more { result ≡ true → at_none self.old ≡ Some self.new }
        ensures last { result ≡ false → at_none self.old ≡ None }
    {
        match self.kind {
            LevelKind::Array | LevelKind::Map | LevelKind::Tag => false,
            LevelKind::GreatMap => {
                self.kind = LevelKind::Map;
                true
            }
            _ => true,
        }
    }

    /// Whether it is an array.
    #[inline(always)]
    pub(crate) fn is_array(&self) -> bool
        ensures { result ≡ is_array self.now.kind }
    {
        matches!(self.kind, LevelKind::Array | LevelKind::EndlessArray)
    }

    /// How many parts at most may come in an array.
    #[inline(always)]
    pub(crate) fn room(&self) -> u64
        ensures { result ≡ room_in self.now.kind self.now.missing }
    {
        match self.kind {
            LevelKind::EndlessArray => u64::MAX,
            _ => self.missing,
        }
    }

    /// Whether it is a map in which a key comes next.
    #[inline(always)]
    pub(crate) fn is_at_key(&self) -> bool
        ensures { result ≡ is_at_key self.now.kind self.now.missing }
    {
        match self.kind {
            LevelKind::Map | LevelKind::GreatMap | LevelKind::EndlessMap => self.missing % 2 == 0,
            _ => false,
        }
    }

    /// Whether it is a string of indefinite length.
    #[inline(always)]
    pub(crate) fn is_chunks(&self) -> bool
        ensures { result ≡ is_chunks self.now.kind }
    {
        matches!(self.kind, LevelKind::Chunks(_))
    }

    /// Whether a break may end it.
    #[inline(always)]
    pub(crate) fn may_end(&self) -> bool
        ensures { result ≡ may_end self.now.kind self.now.missing }
    {
        match self.kind {
            LevelKind::EndlessArray | LevelKind::Chunks(_) => true,
            LevelKind::EndlessMap => self.missing % 2 == 0,
            _ => false,
        }
    }

    /// The first reason why a head with this initial byte isn't allowed in it, as far as that byte says.
    /// `is_full`: as many arrays, maps and tags are open as the limit allows.
    pub(crate) fn refusal(&self, is_full: bool, first: u8) -> Option<WireReason>
        ensures { result ≡ head_reason (slot_of self.now.kind self.now.missing) is_full (major_at (first / 32)) (info_at (first % 32)) [] }
    {
        let major = Major::at(first / 32);
        let information = first % 32;
        if is_reserved(information) {
            return Some(WireReason::ReservedInfo);
        }
        if is_endless(information) && is_always_bounded(major) {
            return Some(WireReason::EndlessNotAllowed);
        }
        if self.is_bad_chunk(major, information) {
            return Some(WireReason::BadChunk);
        }
        if is_break(major, information) && !self.may_end() {
            return Some(WireReason::UnexpectedBreak);
        }
        if is_float(major, information) {
            return Some(WireReason::FloatLeftOut);
        }
        if is_full && matches!(major, Major::Array | Major::Map | Major::Tag) {
            return Some(WireReason::TooDeep);
        }
        None
    }

    /// Whether it is an indefinite string, and this is neither a break nor one of its chunks.
    fn is_bad_chunk(&self, major: Major, information: u8) -> bool
        requires { information < 32 }
        ensures { result ≡ is_bad_chunk (slot_of self.now.kind self.now.missing) major (info_at information) }
    {
        match self.kind {
            LevelKind::Chunks(kind) => {
                !is_break(major, information)
                    && (major != major_of(kind) || is_endless(information))
            }
            _ => false,
        }
    }
}

/// The levels that a reader is inside, one inside another. There is always an innermost one.
pub trait Levels {
    /// Those around the innermost, the outermost first.
    ghost outer: { Self → List OneLevel };

    /// The innermost.
    ghost inner: { Self → OneLevel };

    /// Whether memory may be refused to it.
    ghost takes_memory: { Type 0 };

    /// How many there is room for around the innermost.
    ghost most: { ℕ };

    /// The innermost.
    fn innermost(&self) -> Level
        ensures { result ≡ inner self.now };

    /// How many are around the innermost.
    fn count(&self) -> usize
        ensures { result ≡ length (outer self.now) };

    /// Counts one more part of the innermost, and gives whether it isn't the last. After the last
    /// nothing is known of the innermost.
    fn add_part(&mut self) -> bool
        ensures outer { outer self.new ≡ outer self.old }
        ensures more { result ≡ true → with_part (inner self.old) ≡ Some (inner self.new) }
        ensures last { result ≡ false → with_part (inner self.old) ≡ None };

    /// Counts so many more parts of the innermost, where more than these are missing or nobody knows
    /// how many.
    fn add_parts(&mut self, count: u64)
        ensures outer { outer self.new ≡ outer self.old }
        ensures inner { inner self.new ≡ record (inner self.old) { missing = lessened (inner self.old).missing count } };

    /// Opens a level inside the innermost.
    ///
    /// # Errors
    /// `AllocError` where memory for it is refused.
    fn open(&mut self, level: Level) -> Result<(), AllocError>
        requires { length (outer self.old) < most }
        ensures inner { OnOk result (inner self.new ≡ level) }
        ensures outer { OnOk result (outer self.new ≡ outer self.old ++ inner self.old ∷ []) }
        ensures memory { OnErr result takes_memory };

    /// Removes the innermost, and gives whether there is one around it.
    fn leave(&mut self) -> bool
        ensures left { result ≡ true → outer self.old ≡ outer self.new ++ inner self.new ∷ [] }
        ensures none { result ≡ false → outer self.old ≡ [] };
}

impl Default for Level {
    fn default() -> Level {
        Level::input()
    }
}

/// Levels that take memory as they are opened.
#[derive(Drop)]
pub struct GrownLevels {
    inner: Level,
    outer: Vec<Level>,
}

impl GrownLevels {
    /// The input, of which nothing was read. Takes no memory.
    pub fn new(alloc: Global) -> GrownLevels
        ensures { IsInput result.outer.items result.inner }
    {
        GrownLevels {
            inner: Level::input(),
            outer: Vec::new(alloc),
        }
    }

    /// Forgets the parts of the input, in which nothing is open.
    pub(crate) fn start_anew(&mut self)
        ensures outer { self.new.outer.items ≡ self.old.outer.items }
        ensures inner { self.new.inner ≡ input_level 0 }
    {
        self.inner = Level::input();
    }

    /// All levels, the outermost first and the innermost last.
    ///
    /// # Errors
    /// `AllocError` where memory for one more is refused.
    pub fn into_vec(self) -> Result<Vec<Level>, AllocError>
        ensures { IfOk result (λ all. all.items ≡ ⟦<GrownLevels as Levels>⟧.outer self ++ ⟦<GrownLevels as Levels>⟧.inner self ∷ []) }
    {
        let mut all = self.outer;
        all.push(self.inner)?;
        Ok(all)
    }
}

impl Levels for GrownLevels {
    ghost outer = { λ l. l.outer.items };

    ghost inner = { λ l. l.inner };

    ghost takes_memory = { Unit {0} };

    ghost most = { 1026 };

    #[inline(always)]
    fn innermost(&self) -> Level {
        self.inner
    }

    #[inline(always)]
    fn count(&self) -> usize {
        self.outer.len()
    }

    #[inline(always)]
    fn add_part(&mut self) -> bool {
        self.inner.add_part()
    }

    #[inline(always)]
    fn add_parts(&mut self, count: u64) {
        self.inner.missing = self.inner.missing.wrapping_sub(count);
    }

    fn open(&mut self, level: Level) -> Result<(), AllocError> {
        // Part by part, as it was written a moment ago: to load two parts at once has to wait until both
        // are stored.
        let inner = &self.inner;
        let around = Level::new(inner.place, inner.kind, inner.argument, inner.missing);
        self.outer.push(around)?;
        self.inner = level;
        Ok(())
    }

    fn leave(&mut self) -> bool {
        let Some(around) = self.outer.pop() else {
            return false;
        };
        self.inner = around;
        true
    }
}

/// Levels in a table of fixed size.
#[derive(Drop)]
pub struct LevelTable<const MOST: usize> {
    /// The outermost first. After the innermost come levels that were left, or none.
    levels: [Level; MOST],
    /// How many are around the innermost.
    around: usize,
    ghost within: { around < MOST },
}

impl<const MOST: usize> LevelTable<MOST> {
    /// The input, of which nothing was read.
    pub fn new() -> Self
        requires { 0 < MOST }
        ensures { IsInput (⟦<LevelTable<MOST> as Levels>⟧.outer result) (⟦<LevelTable<MOST> as Levels>⟧.inner result) }
    {
        LevelTable {
            levels: [Level::input(); MOST],
            around: 0,
        }
    }
}

impl<const MOST: usize> Levels for LevelTable<MOST> {
    ghost outer = { λ l. take l.around l.levels };

    ghost inner = { λ l. slice_index_or l.levels l.around (input_level 0) };

    ghost takes_memory = { ⊥ };

    ghost most = { MOST - 1 };

    #[inline(always)]
    fn innermost(&self) -> Level {
        self.levels[self.around]
    }

    #[inline(always)]
    fn count(&self) -> usize {
        self.around
    }

    #[inline(always)]
    fn add_part(&mut self) -> bool {
        self.levels[self.around].add_part()
    }

    #[inline(always)]
    fn add_parts(&mut self, count: u64) {
        let missing = self.levels[self.around].missing;
        self.levels[self.around].missing = missing.wrapping_sub(count);
    }

    fn open(&mut self, level: Level) -> Result<(), AllocError> {
        let around = self.around + 1;
        self.levels[around] = level;
        self.around = around;
        Ok(())
    }

    fn leave(&mut self) -> bool {
        if self.around == 0 {
            return false;
        }
        self.around -= 1;
        true
    }
}

/// Whether this initial byte alone says that its head is allowed wherever an item is and one more
/// container may open. That of a simple value, a float or a break doesn't.
#[inline(always)]
pub(crate) fn is_plain(first: u8) -> bool
    ensures endless { result ≡ true → first % 32 ≡ 31 → first < 192 }
    ensures free { result ≡ true → (s : Slot) → IsNoChunkSlot s → head_reason s false (major_at (first / 32)) (info_at (first % 32)) [] ≡ None }
{
    let information = first % 32;
    if information == 31 {
        return first >= 64 && first < 192;
    }
    information < 28 && first < 224
}
