//! The maps that are open where a [`Follower`](crate::Follower) is, one inside another.

ghost use Rattle.std.specs.Prelude.{◌≡◌, ◌∷◌, ◌++◌, ◌<◌, [], take, slice_range, IsTrue, IfSome};
ghost use Rattle.cborn_judge.specs.devices.Rising.{Begins, EndsKey, RisesAbove, TakesPair, fresh, innermost, key_before};

use cborn_model::KeyOrder;

/// Where a key is in the input.
#[derive(Clone, Copy)]
pub(crate) struct KeySpan {
    pub(crate) start: usize,
    /// The offset after its last byte.
    pub(crate) end: usize,
}

impl KeySpan {
    /// The key in these bytes of the input.
    #[inline(always)]
    fn of(self, bytes: &[u8]) -> Option<&[u8]>
        ensures { IfSome result (λ key. key.now ≡ slice_range bytes.now self.start self.end) }
    {
        bytes.get(self.start..self.end)
    }

    /// Whether the key is above the one before it, or none is before it.
    #[inline(always)]
    fn is_above<O: KeyOrder>(self, bytes: &[u8], before: Option<KeySpan>) -> bool
        ensures { IsTrue result → RisesAbove O.order (key_before bytes.now before) (slice_range bytes.now self.start self.end) }
    {
        let Some(before) = before else {
            return true;
        };
        match (before.of(bytes), self.of(bytes)) {
            (Some(before), Some(key)) => O::compare(before, key).is_lt(),
            _ => false,
        }
    }
}

/// An open map.
#[derive(Clone, Copy)]
pub(crate) struct OpenMap {
    /// How many arrays and tags are open in the map around it.
    pub(crate) around: usize,
    /// Whether a value comes next.
    pub(crate) at_value: bool,
    /// Where the key of that begins.
    pub(crate) key: usize,
    /// The last key after which a value began.
    pub(crate) before: Option<KeySpan>,
}

impl OpenMap {
    /// A map in which nothing began yet.
    #[inline(always)]
    fn new(around: usize) -> OpenMap
        ensures { result ≡ fresh around }
    {
        OpenMap {
            around,
            at_value: false,
            key: 0,
            before: None,
        }
    }

    /// Begins a key or a value at the offset `place` of `bytes`, and gives whether it may: so it may not
    /// where the key that ends there isn't above the one before it.
    #[inline(always)]
    fn begin<O: KeyOrder>(&mut self, bytes: &[u8], place: usize) -> bool
        ensures { IsTrue result → Begins O.order bytes.now self.old place self.new }
    {
        if !self.at_value {
            self.at_value = true;
            self.key = place;
            return true;
        }
        self.at_value = false;
        let start = self.key;
        let end = place;
        self.end_key::<O>(bytes, KeySpan { start, end })
    }

    /// Ends a key, and gives whether it is above the one before it.
    #[inline(always)]
    fn end_key<O: KeyOrder>(&mut self, bytes: &[u8], key: KeySpan) -> bool
        ensures { IsTrue result → EndsKey O.order bytes.now self.old key.start key.end self.new }
    {
        let rises = key.is_above::<O>(bytes, self.before);
        self.before = Some(key);
        rises
    }
}

/// Maps that are open, one inside another, in a table of fixed size.
#[derive(Drop)]
pub(crate) struct OpenMaps<const MOST: usize> {
    /// The outermost first, and before it one for the input. After the innermost come maps that were
    /// left, or none.
    pub(crate) maps: [OpenMap; MOST],
    /// How many are around the innermost, the input counted.
    pub(crate) around: usize,
    ghost within: { around < MOST },
}

impl<const MOST: usize> OpenMaps<MOST> {
    /// No map.
    pub(crate) fn new() -> Self
        requires { 0 < MOST }
        ensures { take result.around result.maps ≡ [] }
    {
        OpenMaps {
            maps: [OpenMap::new(0); MOST],
            around: 0,
        }
    }

    /// Begins a key or a value in the innermost map, as [`OpenMap::begin`] does.
    #[inline(always)]
    pub(crate) fn begin<O: KeyOrder>(&mut self, bytes: &[u8], place: usize) -> bool
        ensures outer { take self.new.around self.new.maps ≡ take self.old.around self.old.maps }
        ensures begins { IsTrue result → Begins O.order bytes.now (innermost self.old.around self.old.maps) place (innermost self.new.around self.new.maps) }
    {
        self.maps[self.around].begin::<O>(bytes, place)
    }

    /// Takes a key, from the offset `start` of `bytes` to `end`, and its value, and gives whether they
    /// may come.
    #[inline(always)]
    pub(crate) fn pair<O: KeyOrder>(&mut self, bytes: &[u8], start: usize, end: usize) -> bool
        ensures outer { take self.new.around self.new.maps ≡ take self.old.around self.old.maps }
        ensures takes { IsTrue result → TakesPair O.order bytes.now (innermost self.old.around self.old.maps) start end (innermost self.new.around self.new.maps) }
    {
        let at_value = self.maps[self.around].at_value;
        self.maps[self.around].end_key::<O>(bytes, KeySpan { start, end }) && !at_value
    }

    /// Opens a map, and gives whether there is room for it.
    #[inline(always)]
    pub(crate) fn open(&mut self, inside: usize) -> bool
        ensures outer { IsTrue result → take self.new.around self.new.maps ≡ take self.old.around self.old.maps ++ innermost self.old.around self.old.maps ∷ [] }
        ensures inner { IsTrue result → innermost self.new.around self.new.maps ≡ fresh inside }
    {
        let around = self.around + 1;
        if around >= MOST {
            return false;
        }
        self.maps[around] = OpenMap::new(inside);
        self.around = around;
        true
    }

    /// Leaves the innermost map, and gives how many arrays and tags are open in the one around it.
    #[inline(always)]
    pub(crate) fn leave(&mut self) -> Option<usize>
        ensures around { IfSome result (λ n. n ≡ (innermost self.old.around self.old.maps).around) }
        ensures outer { IfSome result (λ n. take self.old.around self.old.maps ≡ take self.new.around self.new.maps ++ innermost self.new.around self.new.maps ∷ []) }
    {
        let inside = self.maps[self.around].around;
        self.around = self.around.checked_sub(1)?;
        Some(inside)
    }
}
