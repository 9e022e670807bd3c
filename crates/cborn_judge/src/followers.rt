//! The visitor [`Follower`], which sees as heads are read whether bytes are deterministic encodings
//! (RFC 8949 section 4.2). Nothing is written.

ghost use Rattle.std.specs.Prelude.{◌≡◌, ◌<◌, ℕ, List, [], length, take, drop, MatchOption, ⊤, IsTrue};
ghost use Rattle.cborn_model.specs.Partial.{top, no_part};
ghost use Rattle.cborn_model.specs.Heads.{head_bytes};
ghost use Rattle.cborn_judge.specs.devices.Following.{Began, Entered, MapEntered, StringBegan, IsBignumTag, IsCounted, IsHeld, IsLeft, PairTaken};

use crate::open_maps::OpenMaps;
use crate::spellings::is_loose;
use crate::strings::is_text;
use cborn_model::{KeyOrder, LeafPair, Size, StringKind, Visitor, Width, shortest};
use std::alloc::AllocError;
use std::marker::{Brand, PhantomData};

/// The input that is followed, which proofs alone know.
pub trait Input {
    ghost input: { List ℕ };
}

impl Input for Brand {
    ghost input = { [] };
}

/// Whether a container has a head with this number, which is the shortest.
#[inline(always)]
fn is_counted(size: Size, count: Option<u64>) -> bool
    ensures { IsTrue result → IsCounted size count }
{
    match (size, count) {
        (Size::Fixed(width), Some(n)) => width == shortest(n),
        _ => false,
    }
}

/// Follows the heads of an input, and sees whether this is the deterministic encodings of what it holds,
/// the keys of maps in the order `O` (RFC 8949 section 4.2). Of what is whole it keeps nothing, and of an
/// open map its last two keys, by where they are in the input.
#[derive(Drop)]
pub struct Follower<'a, O, I, const MOST: usize> {
    pub(crate) bytes: &'a [u8],
    /// Whether something isn't encoded deterministically, means nothing, or is in `MOST` maps or more.
    pub departed: bool,
    /// Whether the bytes of a bignum come next.
    pub(crate) magnitude: bool,
    /// How many arrays and tags are open in the innermost map; one more if no map is open.
    pub(crate) inside: usize,
    pub(crate) maps: OpenMaps<MOST>,
    of: PhantomData<(O, I)>,
}

impl<'a, O: KeyOrder, I: Input, const MOST: usize> Follower<'a, O, I, MOST> {
    /// A follower of these bytes, of which nothing was read. It takes no memory.
    pub fn over(bytes: &'a [u8]) -> Self
        requires input { bytes.now ≡ I.input }
        requires room { 0 < MOST }
        ensures { ⟦<Follower<'a, O, I, MOST> as Visitor>⟧.holds result (top []) no_part }
    {
        Follower {
            bytes,
            departed: false,
            magnitude: false,
            inside: 1,
            maps: OpenMaps::new(),
            of: PhantomData,
        }
    }

    /// Begins an item at the offset `place`. It departs unless it is `sound`.
    #[inline(always)]
    fn begin(&mut self, place: u64, sound: bool)
        ensures { Began O.order self.old self.new place sound }
    {
        if !sound || self.magnitude {
            self.departed = true;
        }
        let bytes = self.bytes;
        if self.inside == 0 && !self.maps.begin::<O>(bytes, place as usize) {
            self.departed = true;
        }
    }

    /// Begins an array or a tag at the offset `place`. It departs unless its head is `sound`.
    #[inline(always)]
    fn enter(&mut self, place: u64, sound: bool, magnitude: bool)
        ensures { Entered O.order self.old self.new place sound magnitude }
    {
        self.begin(place, sound);
        self.magnitude = magnitude;
        match self.inside.checked_add(1) {
            Some(inside) => self.inside = inside,
            None => self.departed = true,
        }
    }

    /// Begins a map at the offset `place`. It departs unless its head is `sound`.
    #[inline(always)]
    fn enter_map(&mut self, place: u64, sound: bool)
        ensures { MapEntered O.order self.old self.new place sound }
    {
        self.begin(place, sound);
        if !self.maps.open(self.inside) {
            self.departed = true;
        }
        self.inside = 0;
    }

    /// Leaves the innermost container.
    #[inline(always)]
    fn leave(&mut self)
        ensures { IsLeft self.old self.new }
    {
        if self.inside > 0 {
            self.inside -= 1;
            return;
        }
        match self.maps.leave() {
            Some(inside) => self.inside = inside,
            None => self.departed = true,
        }
    }

    /// Takes a key of `key_len` bytes at the offset `place`, and its value.
    #[inline(always)]
    fn take_pair(&mut self, place: u64, key_len: usize)
        ensures { PairTaken O.order self.old self.new place key_len }
    {
        let bytes = self.bytes;
        let start = place as usize;
        let Some(end) = start.checked_add(key_len) else {
            self.departed = true;
            return;
        };
        if self.inside > 0 || !self.maps.pair::<O>(bytes, start, end) {
            self.departed = true;
        }
    }

    /// Begins a string with this content at the offset `place`.
    #[inline(always)]
    fn begin_string(&mut self, place: u64, kind: StringKind, width: Width, content: &[u8])
        ensures { StringBegan O.order self.old self.new place kind width content.now }
    {
        let sound = width == shortest(content.len() as u64);
        if self.magnitude {
            self.magnitude = false;
            if !sound || kind == StringKind::OfText || is_loose(content) {
                self.departed = true;
            }
            return;
        }
        let sound = sound && (kind == StringKind::OfBytes || is_text(content));
        self.begin(place, sound);
    }
}

/// Whether the tag `n` is that of a bignum (RFC 8949 section 3.4.3).
fn is_bignum(n: u64) -> bool
    ensures { IsBignumTag n result }
{
    n == 2 || n == 3
}

/// The content of a string of `len` bytes, whose head is at the offset `place` and has `head_len` bytes.
fn content_at(bytes: &[u8], place: u64, head_len: usize, len: u64) -> Option<&[u8]>
    ensures { MatchOption result ⊤ (λ y. (length y.now ≡ len) × (y.now ≡ take len (drop head_len (drop place bytes.now)))) }
{
    let spelled = bytes.get(place as usize..)?;
    spelled.get(head_len..)?.get(..len as usize)
}

/// The length in bytes of a head of this width.
fn head_len(width: Width) -> usize
    ensures { (major : ℕ) (n : ℕ) → length (head_bytes major width n) ≡ result }
{
    match width {
        Width::Direct => 1,
        Width::One => 2,
        Width::Two => 3,
        Width::Four => 5,
        Width::Eight => 9,
    }
}

impl<'a, O: KeyOrder, I: Input, const MOST: usize> Visitor for Follower<'a, O, I, MOST> {
    ghost holds = { λ v f c. IsHeld O.order I.input v f c };

    ghost takes_memory = { ⊥ };

    #[inline(always)]
    fn integer(
        &mut self,
        place: u64,
        _negative: bool,
        width: Width,
        n: u64,
    ) -> Result<(), AllocError> {
        self.begin(place, width == shortest(n));
        Ok(())
    }

    #[inline(always)]
    fn simple(&mut self, place: u64, _n: u8) -> Result<(), AllocError> {
        self.begin(place, true);
        Ok(())
    }

    #[inline(always)]
    fn open_array(&mut self, place: u64, size: Size, count: Option<u64>) -> Result<(), AllocError> {
        self.enter(place, is_counted(size, count), false);
        Ok(())
    }

    #[inline(always)]
    fn open_map(&mut self, place: u64, size: Size, count: Option<u64>) -> Result<(), AllocError> {
        self.enter_map(place, is_counted(size, count));
        Ok(())
    }

    #[inline(always)]
    fn open_tag(&mut self, place: u64, width: Width, n: u64) -> Result<(), AllocError> {
        self.enter(place, width == shortest(n), is_bignum(n));
        Ok(())
    }

    fn open_chunks(&mut self, _place: u64, _kind: StringKind) -> Result<(), AllocError> {
        self.departed = true;
        Ok(())
    }

    #[inline(always)]
    fn close(&mut self) -> Result<(), AllocError> {
        self.leave();
        Ok(())
    }

    fn open_string(
        &mut self,
        place: u64,
        kind: StringKind,
        width: Width,
        len: u64,
    ) -> Result<(), AllocError> {
        match content_at(self.bytes, place, head_len(width), len) {
            Some(content) => self.begin_string(place, kind, width, content),
            None => self.departed = true,
        }
        Ok(())
    }

    fn part(&mut self, _bytes: &[u8]) -> Result<(), AllocError> {
        Ok(())
    }

    fn close_string(&mut self) -> Result<(), AllocError> {
        Ok(())
    }

    #[inline(always)]
    fn string(
        &mut self,
        place: u64,
        kind: StringKind,
        width: Width,
        bytes: &[u8],
    ) -> Result<(), AllocError> {
        self.begin_string(place, kind, width, bytes);
        Ok(())
    }

    #[inline(always)]
    fn takes_runs() -> bool {
        true
    }

    #[inline(always)]
    fn integers(&mut self, _place: u64, _count: u64, _spelled: &[u8]) -> Result<bool, AllocError> {
        Ok(true)
    }

    #[inline(always)]
    fn pair(&mut self, place: u64, pair: LeafPair) -> Result<bool, AllocError> {
        if !is_text(pair.key_text) || !is_text(pair.value_text) {
            self.departed = true;
            return Ok(true);
        }
        self.take_pair(place, pair.key_len);
        Ok(true)
    }
}
