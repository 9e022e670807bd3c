//! What spells the items in each open `<<`.

ghost use Rattle.std.specs.Prelude.{ℕ, ◌≡◌, ◌<◌, ◌≤◌, [], ◌∷◌, List, length, take, MatchOption, OnOk};
ghost use Rattle.cborn_model.specs.Partial.{top, no_part};
ghost use Rattle.cborn_wire.specs.declared.spellers.Speller.{Speller as OneSpeller};
ghost use Rattle.cborn_edn.specs.Common.{Integer, WidthFits};
ghost use Rattle.cborn_edn.specs.Says.{is_nil};
ghost use Rattle.cborn_edn.specs.devices.Events.{Fits};
ghost use Rattle.cborn_edn.specs.devices.Handed.{InnermostFollows};

use crate::Result;
use crate::events::{Event, hand_to};
use cborn_model::{Visitor, Width};
use cborn_wire::Speller;
use std::alloc::Global;
use std::marker::Model;

/// The most bytes, and containers in one another, that a speller keeps room for to be used again.
const KEPT: usize = 256;

/// The spellers of the open `<<`. In contracts they are a list with the innermost first.
#[derive(Drop)]
pub(crate) struct Spellers {
    alloc: Global,
    /// Those of the open `<<`, the outermost first, and then some that are used again.
    spellers: Vec<Speller>,
    /// How many `<<` are open.
    depth: usize,
}

impl Model for Spellers {
    ghost use Rattle.std.specs.Prelude.{List, take, length, ◌≤◌};
    ghost use Rattle.cborn_wire.specs.declared.spellers.Speller.{Speller as OneSpeller};
    ghost use mathlib.Core.List as lists;

    ghost Value = { List OneSpeller };

    ghost view = { λ l. lists.reverse (take l.depth l.spellers.items) };

    ghost invariant = { λ l. l.depth ≤ length l.spellers.items };
}

impl Spellers {
    /// None are open.
    pub(crate) fn new(alloc: Global) -> Spellers
        ensures { result ≡ [] }
    {
        Spellers {
            alloc,
            spellers: Vec::new(alloc),
            depth: 0,
        }
    }

    /// Whether none are open.
    #[inline(always)]
    pub(crate) fn is_empty(&self) -> bool
        ensures { result ≡ is_nil self.now }
    {
        self.depth == 0
    }

    /// Adds one, which is then the innermost and was handed nothing.
    pub(crate) fn open(&mut self) -> Result
        ensures { OnOk result ((p : OneSpeller) × (self.new ≡ p ∷ self.old) × ⟦<Speller as Visitor>⟧.holds p (top []) no_part) }
    {
        make_room(self.alloc, self.depth, &mut self.spellers)?;
        self.spellers[self.depth].clear();
        self.depth += 1;
        Ok(())
    }

    /// The innermost, if there is one.
    pub(crate) fn innermost(&self) -> Option<&Speller>
        ensures { MatchOption result (self.now ≡ []) (λ p. (ps : List OneSpeller) × (self.now ≡ p.now ∷ ps)) }
    {
        if self.depth == 0 {
            return None;
        }
        Some(&self.spellers[self.depth - 1])
    }

    /// Takes off the innermost, if there is one. It is used again unless it takes much memory.
    pub(crate) fn shut(&mut self)
        ensures { (p : OneSpeller) (ps : List OneSpeller) → self.old ≡ p ∷ ps → self.new ≡ ps }
    {
        if self.depth == 0 {
            return;
        }
        self.depth -= 1;
        if self.spellers[self.depth].capacity() > KEPT {
            self.spellers.truncate(self.depth);
        }
    }

    /// Hands an integer to the innermost, if there is one.
    #[inline(always)]
    pub(crate) fn integer(&mut self, place: usize, negative: bool, width: Width, n: u64) -> Result
        requires { WidthFits width n }
        ensures { OnOk result ((content : List ℕ) → InnermostFollows (Integer negative width n) place content self.old self.new) }
    {
        if self.depth == 0 {
            return Ok(());
        }
        self.spellers[self.depth - 1].integer(place as u64, negative, width, n)
    }

    /// Hands an event to the innermost, if there is one.
    #[inline(never)]
    pub(crate) fn hand(&mut self, event: Event, place: usize, content: &[u8]) -> Result
        requires { Fits event content.now }
        ensures { OnOk result (InnermostFollows event place content.now self.old self.new) }
    {
        if self.depth == 0 {
            return Ok(());
        }
        hand_to(event, place, content, &mut self.spellers[self.depth - 1])
    }
}

/// Adds a speller to those of which `depth` are in use, if that is all of them.
fn make_room(alloc: Global, depth: usize, spellers: &mut Vec<Speller>) -> Result
    requires { depth ≤ length spellers.old.items }
    ensures kept { take depth spellers.new.items ≡ take depth spellers.old.items }
    ensures least { depth ≤ length spellers.new.items }
    ensures room { OnOk result (depth < length spellers.new.items) }
{
    if depth == spellers.len() {
        spellers.push(Speller::new(alloc))?;
    }
    Ok(())
}
