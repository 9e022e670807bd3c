//! The [`HeadReader`], which reads heads from bytes that come in pieces.

ghost use Rattle.std.specs.Prelude.{◌≡◌, ◌∷◌, ◌+◌, ◌/◌, ◌%◌, ◌++◌, ◌<◌, ◌≤◌, ◌^◌, ℕ, List, [], length, take, nat_le, true, false, None, MatchResult, IfOk, Err, ◌⊎◌, alloc_error};
ghost use Rattle.cborn_wire.specs.Common.{Width as Wide, StringKind as Kind, Given, Partial, no_part, part, TakesString, Refused, Memory, WireReason as Reason, AreOpen, slot, open_depth, major_at, info_at, head_reason, Live, State, IsReached, ready, open_in, state, Keeps, seen_head, Here, IsShort, Takes, TakesPiece, TakesSome, IsFresh, IsFed, MayEnd, Reads, ReadsItem, next_head};

use crate::counting::{close_string, take_head, take_heads};
use crate::heads::{read_number, wide_width};
use crate::levels::Levels;
use crate::{Argument, Head, HeadRead, VisitFault, WireReason, read_head};
use cborn_model::{Limit, Visitor, Width};

/// The front of a head at the offset `place`, with the first `len` of `bytes` of its argument.
#[derive(Clone, Copy)]
pub(crate) struct PartialHead {
    pub(crate) place: u64,
    pub(crate) major: u8,
    pub(crate) width: Width,
    pub(crate) bytes: [u8; 8],
    pub(crate) len: usize,
}

/// Reads items from bytes that come in pieces, and hands them to a visitor head by head. What is
/// open is kept in levels that the caller has.
#[derive(Drop)]
pub struct HeadReader {
    pub(crate) limit: u64,
    /// The offset of the next byte.
    pub(crate) at: u64,
    /// How many bytes of a string are to come.
    pub(crate) left: u64,
    pub(crate) head: Option<PartialHead>,
}

/// Why a head with this initial byte isn't allowed next, as far as that byte says.
#[tactic(auto, using(crate::proofs::Visiting::Taking::reason_same))]
fn refusal<L: Levels>(levels: &L, limit: u64, first: u8) -> Option<WireReason>
    ensures { (f : Partial) → Keeps f (L.outer levels.now) (L.inner levels.now) → AreOpen limit (open_in f) → result ≡ head_reason (slot (open_in f)) (nat_le limit (open_depth (open_in f))) (major_at (first / 32)) (info_at (first % 32)) [] }
{
    let is_full = levels.count() as u64 >= limit;
    levels.innermost().refusal(is_full, first)
}

/// How far a [`HeadReader`] reads.
#[derive(Clone, Copy)]
pub enum Until {
    /// To the end of the piece.
    End,
    /// Up to the end of an item that is in no other, or to that of the piece.
    Item,
}

impl HeadReader {
    /// A reader for the maximum nesting depth `limit`, of an input whose first byte is at the offset
    /// `at`.
    pub fn new(limit: Limit, at: u64) -> HeadReader
        ensures { IsFresh limit at result }
    {
        HeadReader {
            limit: limit.get(),
            at,
            left: 0,
            head: None,
        }
    }

    /// The offset of the next byte.
    pub fn at(&self) -> u64
        ensures { result ≡ self.now.at }
    {
        self.at
    }

    /// The offset of the head that comes next, or of the one that is partial.
    pub fn next_head(&self) -> u64
        ensures { result ≡ next_head self.now }
    {
        match self.head {
            Some(head) => head.place,
            None => self.at,
        }
    }

    /// Whether the input may end here: nothing is open, and no head or string is partial.
    #[inline(always)]
    pub fn is_whole<L: Levels>(&self, levels: &L) -> bool
        ensures whole { result ≡ true → MayEnd (L.outer levels.now) self.now }
        ensures cut { result ≡ false → MayEnd (L.outer levels.now) self.now → ⊥ }
    {
        self.head.is_none() && self.left == 0 && levels.count() == 0
    }

    /// Reads `piece`, the next bytes of the input, as far as `until` says, and hands the visitor the
    /// heads in it. Gives the number of bytes that it read: at least one, if there is one.
    ///
    /// # Errors
    /// `Refused` if a head in the piece isn't allowed where it is, at its offset from the start of
    /// the input; reader, levels and visitor are then before that head. `Memory` if memory is
    /// refused to levels or visitor; then nothing is known of the three.
    #[tactic(auto, using(crate::proofs::Visiting::Pieces::reached_now))]
    pub fn read<L: Levels, V: Visitor>(
        &mut self,
        levels: &mut L,
        visitor: &mut V,
        piece: &[u8],
        until: Until,
    ) -> Result<usize, VisitFault>
        requires fed { (base : ℕ) × (x : List ℕ) × IsFed (V.holds visitor.old) (L.outer levels.old) (L.inner levels.old) self.old base x }
        requires room { self.old.at + length piece.now < 2 ^ 64 }
        requires levels { self.old.limit + 1 < L.most }
        ensures fed { (base : ℕ) (x : List ℕ) → IsFed (V.holds visitor.old) (L.outer levels.old) (L.inner levels.old) self.old base x → Reads (V.holds visitor.new) (L.outer levels.new) (L.inner levels.new) self.new base x piece.now result }
        ensures item { until ≡ Until.Item → (base : ℕ) (x : List ℕ) → IsFed (V.holds visitor.old) (L.outer levels.old) (L.inner levels.old) self.old base x → ReadsItem self.old.limit base x piece.now result }
        ensures end { until ≡ Until.End → IfOk result (λ n. n ≡ length piece.now) }
        ensures stops { IfOk result (λ n. (n ≡ length piece.now) ⊎ MayEnd (L.outer levels.new) self.new) }
        ensures some { IfOk result (λ n. 0 < length piece.now → 0 < n) }
        ensures within { IfOk result (λ n. n ≤ length piece.now) }
        ensures limit { self.new.limit ≡ self.old.limit }
        ensures at { IfOk result (λ n. self.new.at ≡ self.old.at + n) }
        ensures memory { result ≡ Err (Memory alloc_error) → V.takes_memory ⊎ L.takes_memory }
    {
        let mut rest = piece;
        while !rest.is_empty() {
            let len = self.take(levels, visitor, rest)?;
            self.at += len as u64;
            rest = &rest[len..];
            if matches!(until, Until::Item) && self.is_whole(levels) {
                return Ok(piece.len() - rest.len());
            }
        }
        Ok(piece.len())
    }

    /// Takes heads, or a part of a head or a string, at the front of `piece`, and gives their length.
    #[tactic(auto, using(crate::proofs::Visiting::Taking::between_here))]
    #[inline(always)]
    fn take<L: Levels, V: Visitor>(
        &mut self,
        levels: &mut L,
        visitor: &mut V,
        piece: &[u8],
    ) -> Result<usize, VisitFault>
        requires here { (s : State) × (base : ℕ) × Here (V.holds visitor.old) (L.outer levels.old) (L.inner levels.old) self.old s × IsReached self.old.limit base s }
        requires levels { self.old.limit + 1 < L.most }
        requires some { 0 < length piece.now }
        requires room { self.old.at + length piece.now < 2 ^ 64 }
        ensures goes { (s : State) (base : ℕ) → Here (V.holds visitor.old) (L.outer levels.old) (L.inner levels.old) self.old s → IsReached self.old.limit base s → TakesPiece self.old.limit s piece.now (V.holds visitor.new) (L.outer levels.new) (L.inner levels.new) self.new.left self.old.at self.new.head result }
        ensures some { TakesSome (length piece.now) self.old self.new result }
        ensures kept { (p : ℕ) (r : Reason) → result ≡ Err (Refused p r) → (p ≡ next_head self.old) × (visitor.new ≡ visitor.old) × (levels.new ≡ levels.old) × (self.new ≡ self.old) }
        ensures memory { result ≡ Err (Memory alloc_error) → V.takes_memory ⊎ L.takes_memory }
    {
        if let Some(head) = self.head {
            return self.take_argument(levels, visitor, head, piece);
        }
        if self.left > 0 {
            return self.take_content(levels, visitor, piece);
        }
        let len = take_heads(levels, visitor, self.limit, self.at, piece)?;
        if len > 0 {
            return Ok(len);
        }
        self.take_head(levels, visitor, piece)
    }

    /// Takes a head at the front of `piece`, or the initial byte of one that ends after the piece.
    #[tactic(auto, using(crate::proofs::HeadReading::HeadFronts::short_front, crate::proofs::HeadReading::HeadSteps::first_refused, crate::proofs::HeadReading::HeadSteps::head_fits))]
    #[inline(never)]
    fn take_head<L: Levels, V: Visitor>(
        &mut self,
        levels: &mut L,
        visitor: &mut V,
        piece: &[u8],
    ) -> Result<usize, VisitFault>
        requires some { 0 < length piece.now }
        requires room { self.old.at + length piece.now < 2 ^ 64 }
        requires between { self.old.head ≡ None }
        requires none { self.old.left ≡ 0 }
        requires open { length (L.outer levels.old) < L.most }
        ensures goes { (f : Partial) → V.holds visitor.old f no_part → Keeps f (L.outer levels.old) (L.inner levels.old) → AreOpen self.old.limit (open_in f) → TakesPiece self.old.limit (state self.old.at f no_part) piece.now (V.holds visitor.new) (L.outer levels.new) (L.inner levels.new) self.new.left self.old.at self.new.head result }
        ensures some { TakesSome (length piece.now) self.old self.new result }
        ensures kept { (p : ℕ) (r : Reason) → result ≡ Err (Refused p r) → (p ≡ self.old.at) × (visitor.new ≡ visitor.old) × (levels.new ≡ levels.old) × (self.new ≡ self.old) }
        ensures memory { result ≡ Err (Memory alloc_error) → V.takes_memory ⊎ L.takes_memory }
    {
        let first = piece[0];
        let place = self.at;
        if let Some(reason) = refusal(levels, self.limit, first) {
            return Err(VisitFault::Refused { place, reason });
        }
        match read_head(piece) {
            HeadRead::Full(head, len) => {
                self.left = take_head(levels, visitor, place + len as u64, place, head)?;
                Ok(len)
            }
            HeadRead::Short => {
                self.head = Some(PartialHead {
                    place,
                    major: first / 32,
                    width: wide_width(first % 32),
                    bytes: [0; 8],
                    len: 0,
                });
                Ok(1)
            }
            HeadRead::Bad(reason) => Err(VisitFault::Refused { place, reason }),
        }
    }

    /// Takes the next byte of an argument whose initial byte was in an earlier piece.
    #[inline(never)]
    fn take_argument<L: Levels, V: Visitor>(
        &mut self,
        levels: &mut L,
        visitor: &mut V,
        head: PartialHead,
        piece: &[u8],
    ) -> Result<usize, VisitFault>
        requires short { IsShort head }
        requires some { 0 < length piece.now }
        requires room { self.old.at + length piece.now < 2 ^ 64 }
        requires open { length (L.outer levels.old) < L.most }
        ensures goes { (f : Partial) → V.holds visitor.old f no_part → Keeps f (L.outer levels.old) (L.inner levels.old) → Takes f (major_at head.major) (Given head.width 0) → TakesPiece self.old.limit (Live self.old.at (ready f) (open_in f) (seen_head head)) piece.now (V.holds visitor.new) (L.outer levels.new) (L.inner levels.new) self.new.left self.old.at self.new.head result }
        ensures some { TakesSome (length piece.now) self.old self.new result }
        ensures kept { (p : ℕ) (r : Reason) → result ≡ Err (Refused p r) → (p ≡ head.place) × (visitor.new ≡ visitor.old) × (levels.new ≡ levels.old) × (self.new ≡ self.old) }
        ensures memory { result ≡ Err (Memory alloc_error) → V.takes_memory ⊎ L.takes_memory }
    {
        let mut bytes = head.bytes;
        bytes[head.len] = piece[0];
        let len = head.len + 1;
        let Some(n) = read_number(head.width, &bytes[..len]) else {
            self.head = Some(PartialHead { bytes, len, ..head });
            return Ok(1);
        };
        let argument = Argument::Given(head.width, n);
        let major = head.major;
        let end = self.at + 1;
        self.left = take_head(levels, visitor, end, head.place, Head { major, argument })?;
        self.head = None;
        Ok(1)
    }

    /// Takes the next bytes of a string.
    #[inline(never)]
    fn take_content<L: Levels, V: Visitor>(
        &mut self,
        levels: &mut L,
        visitor: &mut V,
        piece: &[u8],
    ) -> Result<usize, VisitFault>
        requires some { 0 < length piece.now }
        requires room { self.old.at + length piece.now < 2 ^ 64 }
        requires between { self.old.head ≡ None }
        requires amid { 0 < self.old.left }
        ensures goes { (f : Partial) (p : ℕ) (k : Kind) (w : Wide) (n : ℕ) (x : List ℕ) → V.holds visitor.old f (part p k w n x) → Keeps f (L.outer levels.old) (L.inner levels.old) → TakesString f k → self.old.left + length x ≡ n → TakesPiece self.old.limit (state self.old.at f (part p k w n x)) piece.now (V.holds visitor.new) (L.outer levels.new) (L.inner levels.new) self.new.left self.old.at self.new.head result }
        ensures some { TakesSome (length piece.now) self.old self.new result }
        ensures kept { (p : ℕ) (r : Reason) → result ≡ Err (Refused p r) → (p ≡ next_head self.old) × (visitor.new ≡ visitor.old) × (levels.new ≡ levels.old) × (self.new ≡ self.old) }
        ensures memory { result ≡ Err (Memory alloc_error) → V.takes_memory ⊎ L.takes_memory }
    {
        let taken = self.left.min(piece.len() as u64) as usize;
        visitor.part(&piece[..taken])?;
        self.left -= taken as u64;
        if self.left == 0 {
            self.left = close_string(levels, visitor, self.at + taken as u64)?;
        }
        Ok(taken)
    }
}
