//! The items of bytes that are held whole, one after another.
ghost use Rattle.std.specs.Prelude.{◌≡◌};
ghost use Rattle.cborn_engine.specs.Common.{None, Ok, Err, length, IfOk, IfErr, IfSome, EndsItem};
ghost use Rattle.cborn_engine.specs.Items.{GivesItem};

use cborn_model::Limit;
use cborn_wire::{WireFault, item_end};
use std::alloc::Global;
use std::marker::Model;

/// The items of a sequence of bytes (RFC 8742) that is held whole, one after another. Each is found
/// when it is asked for, in time linear in its length, and what follows it isn't read yet.
#[derive(Drop)]
pub struct Items<'a> {
    alloc: Global,
    limit: Limit,
    input: &'a [u8],
    at: usize,
}

impl<'a> Model for Items<'a> {
    ghost use Rattle.std.specs.Prelude.{◌≤◌, length};
    ghost use Rattle.cborn_engine.specs.Items.{Cutting};
    ghost use Rattle.cborn_engine.specs.devices.CuttingCode.{cutting_code};

    ghost Value = { Cutting };

    ghost coded = { cutting_code };

    ghost view = { λ s. record { limit = s.limit; input = s.input.now; at = s.at } };

    ghost invariant = { λ s. s.at ≤ length s.input.now };
}

impl<'a> Items<'a> {
    /// The items of these bytes, of which there may be more than 2^30. Takes no memory.
    pub fn new(alloc: Global, limit: Limit, input: &'a [u8]) -> Items<'a>
        ensures { result ≡ record { limit = limit; input = input.now; at = 0 } }
    {
        Items {
            alloc,
            limit,
            input,
            at: 0,
        }
    }

    /// The bytes of the next item, as they stand in the input (RFC 8949 section 3). `None`: the input
    /// ends here.
    ///
    /// # Errors
    /// `Refused` if no item within the nesting limit is next, with the one fault that is met, at its
    /// offset in bytes from the start of the input. `OutOfMemory` if memory is refused. After either
    /// the same item is next.
    pub fn next_item(&mut self) -> Result<Option<&'a [u8]>, WireFault>
        ensures item { IfOk result (λ found. IfSome found (λ item. GivesItem self.old self.new item.now)) }
        ensures none { result ≡ Ok None → (self.new ≡ self.old) × (self.old.at ≡ length self.old.input) }
        ensures refused { IfErr result (λ why. (self.new ≡ self.old) × EndsItem self.old.limit self.old.input self.old.at (Err why)) }
    {
        let start = self.at;
        let Some(end) = item_end(self.alloc, self.limit, self.input, start)? else {
            return Ok(None);
        };
        self.at = end;
        Ok(Some(&self.input[start..end]))
    }
}
