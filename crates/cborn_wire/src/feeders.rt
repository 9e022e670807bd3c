//! The [`Feeder`], a reader of input that comes in pieces.

ghost use Rattle.std.specs.Prelude.{◌≡◌, ◌+◌, ◌<◌, ◌^◌, length, [], true, false};
ghost use Rattle.cborn_wire.specs.Common.{IsMade, pending, seen, start, nothing, open_in, seen_nodes};
ghost use Rattle.cborn_wire.specs.devices.ItemReading.{Runs, ReadsItem};

use crate::head_readers::{HeadReader, Until};
use crate::levels::GrownLevels;
use crate::nodes::Nodes;
use crate::{VisitFault, WireFault, WireReason};
use cborn_model::{Limit, Spelled};
use std::alloc::Global;
use std::collections::VecDeque;
use std::marker::Model;

/// Reads a sequence of items (RFC 8742) that comes in pieces, cut anywhere. Keeps only the
/// unfinished item and the complete ones that weren't taken, and reserves nothing by a length or a
/// count that the bytes declare. Feeding takes time in proportion to a piece's length, and taking
/// an item costs no more than moving it.
#[derive(Drop)]
pub struct Feeder {
    fed: u64,
    reader: ItemReader,
    /// The whole items that weren't taken.
    ready: VecDeque<Spelled>,
    /// The fault of the piece that was refused.
    fault: Option<WireFault>,
}

impl Model for Feeder {
    ghost use Rattle.cborn_wire.specs.Feeding.{Feeding};
    ghost use Rattle.cborn_wire.specs.devices.FeedingCode.{feeding_code};

    ghost Value = { Feeding };

    ghost coded = { feeding_code };

    ghost use Rattle.cborn_wire.specs.devices.FeederView.{seen_feeder, Keeps};

    ghost view = { seen_feeder };

    ghost invariant = { Keeps };
}

impl Feeder {
    ghost use Rattle.std.specs.Prelude.{◌≡◌, ◌+◌, ◌^◌, ◌<◌, ◌++◌, [], length, None, Some, Err, IfOk, OnErr};
    ghost use Rattle.std.specs.Option.{option_to_list};
    ghost use Rattle.std.specs.List.{flat_map};
    ghost use Rattle.cborn_wire.specs.Common.{trees, spelled, Wellformed, WireFault, Truncated, Fault, fresh, Feeds};
    ghost use Rattle.cborn_wire.specs.declared.faults.WireFault.TheVariants.{Refused};
    ghost use Rattle.cborn_wire.specs.Feeding.{IsFed};

    /// A feeder that was fed nothing, for the maximum nesting depth `limit`. Takes no memory.
    pub fn new(alloc: Global, limit: Limit) -> Feeder
        ensures { result ≡ fresh limit }
    {
        Feeder {
            fed: 0,
            reader: ItemReader::new(alloc, limit, 0),
            ready: VecDeque::new(alloc),
            fault: None,
        }
    }

    /// The number of bytes in all pieces that were accepted.
    pub fn fed(&self) -> u64
        ensures { result ≡ self.now.fed }
    {
        self.fed
    }

    /// Reads `piece`, the next bytes of the input. All pieces together may have at most 2^64-1
    /// bytes.
    ///
    /// # Errors
    ///
    /// `Refused` if a head in the piece isn't allowed where it is (no well-formed input begins so),
    /// at its offset from the start of the input. `OutOfMemory` if memory is refused. After either,
    /// this and each later call answers the same fault, [`Feeder::fed`] stays as it is, and the
    /// items that were complete before the fault can still be taken (after `OutOfMemory` some of
    /// them).
    pub fn feed(&mut self, piece: &[u8]) -> Result<(), WireFault>
        requires { self.old.fed + length piece.now < 2 ^ 64 }
        ensures fed { self.old.fault ≡ None → Feeds piece.now self.old result self.new }
        ensures again { (e : WireFault) → self.old.fault ≡ Some e → (result ≡ Err e) × (self.new ≡ self.old) }
    {
        if let Some(fault) = self.fault {
            return Err(fault);
        }
        if let Err(fault) = read_piece(&mut self.reader, &mut self.ready, piece) {
            self.fault = Some(fault);
            return Err(fault);
        }
        self.fed += piece.len() as u64;
        Ok(())
    }

    /// The first complete item that wasn't yet taken, if there is one. Takes no memory.
    pub fn take(&mut self) -> Option<Spelled>
        ensures first { self.old.items ≡ option_to_list result ++ self.new.items }
        ensures none { result ≡ None → self.old.items ≡ [] }
        ensures rest { self.new ≡ record self.old { held = self.new.held; items = self.new.items } }
        ensures held { self.old.fault ≡ None → self.old.held ≡ flat_map spelled (option_to_list result) ++ self.new.held }
        ensures fed { self.old.fault ≡ None → IsFed self.new }
    {
        self.ready.pop_front()
    }

    /// Ends the input, and gives the complete items that weren't yet taken. Takes no memory.
    ///
    /// # Errors
    ///
    /// `Truncated`, at the input's length, if an item is unfinished; the fault of an earlier
    /// refusal, if there was one.
    pub fn finish(self) -> Result<Vec<Spelled>, WireFault>
        ensures items { self.fault ≡ None → IfOk result (λ v. (v.items ≡ self.items) × Wellformed self.limit (trees self.items) self.held) }
        ensures cut { self.fault ≡ None → OnErr result ((result ≡ Err (Refused self.fed Truncated)) × Fault self.limit self.held (length self.held) Truncated) }
        ensures again { (e : WireFault) → self.fault ≡ Some e → result ≡ Err e }
    {
        if let Some(fault) = self.fault {
            return Err(fault);
        }
        if !self.reader.heads.is_whole(&self.reader.levels) {
            return Err(WireFault::Refused {
                place: self.fed,
                reason: WireReason::Truncated,
            });
        }
        Ok(self.ready.into_vec())
    }
}

/// Reads `piece`, and puts the items that it completes, also those before an error, after `ready`.
fn read_piece(
    reader: &mut ItemReader,
    ready: &mut VecDeque<Spelled>,
    piece: &[u8],
) -> Result<(), WireFault>
    requires made { IsMade reader.old }
    requires room { reader.old.heads.at + length piece.now < 2 ^ 64 }
    ensures runs { Runs piece.now reader.old ready.old.items reader.new ready.new.items result }
    ensures limit { reader.new.heads.limit ≡ reader.old.heads.limit }
{
    let mut rest = piece;
    while !rest.is_empty() {
        let (len, item) = reader.read_item(rest)?;
        if let Some(item) = item {
            ready.push_back(item)?;
        }
        rest = &rest[len..];
    }
    Ok(())
}

/// Reads items one after another from pieces, and keeps only the item that isn't whole.
#[derive(Drop)]
pub(crate) struct ItemReader {
    pub(crate) heads: HeadReader,
    pub(crate) levels: GrownLevels,
    pub(crate) nodes: Nodes,
}

impl ItemReader {
    /// A reader of bytes from the offset `at` on. Takes no memory.
    #[tactic(auto, using(crate::proofs::Feeding::ItemSteps::fresh_made))]
    pub(crate) fn new(alloc: Global, limit: Limit, at: u64) -> ItemReader
        ensures made { IsMade result }
        ensures start { seen [] result ≡ start at }
        ensures limit { result.heads.limit ≡ limit }
        ensures at { result.heads.at ≡ at }
    {
        ItemReader {
            heads: HeadReader::new(limit, at),
            levels: GrownLevels::new(alloc),
            nodes: Nodes::new(alloc),
        }
    }

    /// Reads `piece` up to the end of an item or to its own. Gives the number of bytes that it read, at
    /// least one if there is one, and the item if it is whole. After an error only the limit is known.
    #[tactic(auto, using(crate::proofs::Feeding::ItemSteps::fails_item))]
    pub(crate) fn read_item(&mut self, piece: &[u8]) -> Result<(usize, Option<Spelled>), VisitFault>
        requires made { IsMade self.old }
        requires room { self.old.heads.at + length piece.now < 2 ^ 64 }
        ensures item { ReadsItem piece.now self.old self.new result }
        ensures limit { self.new.heads.limit ≡ self.old.heads.limit }
    {
        let len = self
            .heads
            .read(&mut self.levels, &mut self.nodes, piece, Until::Item)?;
        let Some(node) = self.nodes.take_whole() else {
            return Ok((len, None));
        };
        // The items that were given are counted no more.
        self.levels.start_anew();
        Ok((len, Some(Spelled::new(node))))
    }
}
