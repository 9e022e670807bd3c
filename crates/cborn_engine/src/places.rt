//! The visitor [`Places`], which keeps where items and their parts begin.

ghost use Rattle.std.specs.Prelude.{◌≡◌, ◌++◌, ◌∷◌};
ghost use Rattle.cborn_engine.specs.Common.{ℕ, List, [], length, slice_get, OnOk, Partial, Opening, top, inside, no_part, place_of};
ghost use Rattle.cborn_engine.specs.devices.Tops.{IsHeld};

use cborn_model::{Size, StringKind, Visitor, Width};
use std::alloc::{AllocError, Global};

/// Keeps where the first two items begin that are in no other, and the last two parts of each open
/// container, as offsets in bytes from the start of the input.
#[derive(Drop)]
pub struct Places {
    pub first: Option<u64>,
    pub second: Option<u64>,
    /// The last two parts of the innermost open container, or of the input. In the place of one that
    /// isn't there is the container itself, or 0.
    pub last: (u64, u64),
    /// Those of the input, and of the containers around that one, the outermost first.
    pub around: Vec<(u64, u64)>,
    /// The string that comes in parts.
    pub string: Option<u64>,
}

impl Places {
    /// A visitor that was handed nothing. Takes no memory.
    pub fn new(alloc: Global) -> Places
        ensures { IsHeld result (top []) no_part }
    {
        Places {
            first: None,
            second: None,
            last: (0, 0),
            around: Vec::new(alloc),
            string: None,
        }
    }

    /// Keeps where an item begins.
    #[inline(always)]
    fn begin(&mut self, place: u64)
        ensures outside { (xs : List ℕ) → length self.old.around.items ≡ 0 → self.old.first ≡ slice_get xs 0 → self.old.second ≡ slice_get xs 1 → (self.new.first ≡ slice_get (xs ++ place ∷ []) 0) × (self.new.second ≡ slice_get (xs ++ place ∷ []) 1) }
        ensures inside { (length self.old.around.items ≡ 0 → ⊥) → (self.new.first ≡ self.old.first) × (self.new.second ≡ self.old.second) }
        ensures rest { self.new ≡ record self.old { first = self.new.first; second = self.new.second; last = self.new.last } }
    {
        self.last = (self.last.1, place);
        if !self.around.is_empty() {
            return;
        }
        if self.first.is_none() {
            self.first = Some(place);
        } else if self.second.is_none() {
            self.second = Some(place);
        }
    }

    /// Keeps where a container begins.
    #[inline(always)]
    fn open(&mut self, place: u64) -> Result<(), AllocError>
        ensures { OnOk result ((f : Partial) (o : Opening) → place_of o ≡ place → IsHeld self.old f no_part → IsHeld self.new (inside f o []) no_part) }
    {
        self.begin(place);
        self.around.push(self.last)?;
        self.last = (place, place);
        Ok(())
    }
}

impl Visitor for Places {
    ghost holds = { IsHeld };

    ghost takes_memory = { Unit {0} };

    fn integer(
        &mut self,
        place: u64,
        _negative: bool,
        _width: Width,
        _n: u64,
    ) -> Result<(), AllocError> {
        self.begin(place);
        Ok(())
    }

    fn simple(&mut self, place: u64, _n: u8) -> Result<(), AllocError> {
        self.begin(place);
        Ok(())
    }

    fn open_array(
        &mut self,
        place: u64,
        _size: Size,
        _count: Option<u64>,
    ) -> Result<(), AllocError> {
        self.open(place)
    }

    fn open_map(&mut self, place: u64, _size: Size, _count: Option<u64>) -> Result<(), AllocError> {
        self.open(place)
    }

    fn open_tag(&mut self, place: u64, _width: Width, _n: u64) -> Result<(), AllocError> {
        self.open(place)
    }

    fn open_chunks(&mut self, place: u64, _kind: StringKind) -> Result<(), AllocError> {
        self.open(place)
    }

    fn close(&mut self) -> Result<(), AllocError> {
        if let Some(last) = self.around.pop() {
            self.last = last;
        }
        Ok(())
    }

    fn open_string(
        &mut self,
        place: u64,
        _kind: StringKind,
        _width: Width,
        _len: u64,
    ) -> Result<(), AllocError> {
        self.string = Some(place);
        Ok(())
    }

    fn part(&mut self, _bytes: &[u8]) -> Result<(), AllocError> {
        Ok(())
    }

    fn close_string(&mut self) -> Result<(), AllocError> {
        if let Some(place) = self.string.take() {
            self.begin(place);
        }
        Ok(())
    }
}
