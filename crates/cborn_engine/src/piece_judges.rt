//! The [`PieceJudge`], which judges bytes that come in pieces.

ghost use Rattle.std.specs.Prelude.{◌≡◌, ◌+◌, ◌<◌, ◌^◌, ◌++◌};
ghost use Rattle.cborn_engine.specs.Common.{ℕ, List, [], length, IfOk, IfErr, OnOk, top, no_part, Kind};
ghost use Rattle.cborn_wire.specs.declared.faults.VisitFault.TheVariants.{Refused};
ghost use Rattle.cborn_engine.specs.devices.Encoding.{AreJudged};
ghost use Rattle.cborn_engine.specs.devices.Judging.{IsJudging};
ghost use Rattle.cborn_engine.specs.devices.Malformed.{IsRefusedHeld};

use crate::faults::EngineFault;
use cborn_judge::{EncodedItems, Encoder, Invalid};
use cborn_model::{KeyOrder, Limit, Visitor};
use cborn_wire::{GrownLevels, HeadReader, Until, VisitFault, WireFault, WireReason};
use std::alloc::{AllocError, Global};

/// A string of so many bytes or more is long.
const LONG_STRING: u64 = 1 << 12;

/// Judges bytes that come in pieces: encodes what they hold, and finds their first fault, flaw and
/// defect. No piece is kept.
#[derive(Drop)]
pub(crate) struct PieceJudge<O> {
    heads: HeadReader,
    levels: GrownLevels,
    encoder: Encoder<O>,
    /// The fault of the bytes so far, with its offset.
    fault: Option<(u64, WireReason)>,
}

impl<O: KeyOrder> PieceJudge<O> {
    /// A judge of bytes of which none came yet, with an encoder that was handed nothing. Takes no memory.
    #[tactic(auto, using(cborn_wire::proofs::Visiting::Ending::fresh_fed))]
    pub(crate) fn over(alloc: Global, limit: Limit, encoder: Encoder<O>) -> PieceJudge<O>
        requires { ⟦<Encoder<O> as Visitor>⟧.holds encoder (top []) no_part }
        ensures { IsJudging ⟦<Encoder<O> as Visitor>⟧.holds result [] limit }
    {
        PieceJudge {
            heads: HeadReader::new(limit, 0),
            levels: GrownLevels::new(alloc),
            encoder,
            fault: None,
        }
    }

    /// Takes the next bytes. After a fault they are passed over.
    #[tactic(auto, using(crate::proofs::Streams::Judging::stays))]
    pub(crate) fn take(&mut self, piece: &[u8]) -> Result<(), AllocError>
        requires { (limit : ℕ) × (x : List ℕ) × IsJudging ⟦<Encoder<O> as Visitor>⟧.holds self.old x limit × (length x + length piece.now < 2 ^ 64) }
        ensures { OnOk result ((limit : ℕ) (x : List ℕ) → IsJudging ⟦<Encoder<O> as Visitor>⟧.holds self.old x limit → IsJudging ⟦<Encoder<O> as Visitor>⟧.holds self.new (x ++ piece.now) limit) }
    {
        if self.fault.is_some() {
            return Ok(());
        }
        let read = self
            .heads
            .read(&mut self.levels, &mut self.encoder, piece, Until::End);
        match read {
            Ok(_) => Ok(()),
            Err(why) => {
                self.fault = Some(fault_in(why)?);
                Ok(())
            }
        }
    }

    /// Whether the next bytes are better judged as they come than kept until they are all there. So it
    /// is where the bytes so far are no deterministic encodings, and where they end amid a long string,
    /// which is judged as quickly. It only chooses a way, so no clause says when.
    pub(crate) fn goes_on(&self) -> bool {
        self.fault.is_some() || self.encoder.departs() || self.encoder.string_len() >= LONG_STRING
    }

    /// What is judged of the bytes, which have ended, or the fault of their content.
    pub(crate) fn finish(self) -> Result<EncodedItems, EngineFault>
        ensures judged { IfOk result (λ found. (limit : ℕ) (x : List ℕ) → IsJudging ⟦<Encoder<O> as Visitor>⟧.holds self x limit → AreJudged O.order limit x found.bytes.items found.defect) }
        ensures refused { IfErr result (λ why. (limit : ℕ) (x : List ℕ) → IsJudging ⟦<Encoder<O> as Visitor>⟧.holds self x limit → IsRefusedHeld Kind.Wire limit x why) }
    {
        if let Some((place, reason)) = self.fault {
            return Err(EngineFault::Wire(WireFault::Refused { place, reason }));
        }
        if !self.heads.is_whole(&self.levels) {
            let place = self.heads.at();
            let reason = WireReason::Truncated;
            return Err(EngineFault::Wire(WireFault::Refused { place, reason }));
        }
        match self.encoder.finish() {
            Ok(encoded) => Ok(encoded),
            Err((place, reason)) => Err(EngineFault::Invalid(Invalid::Refused { place, reason })),
        }
    }
}

/// The fault of bytes, with its offset, for which they were refused, unless memory was.
fn fault_in(why: VisitFault) -> Result<(u64, WireReason), AllocError>
    ensures { IfOk result (λ fault. why ≡ Refused fault.0 fault.1) }
{
    match why {
        VisitFault::Refused { place, reason } => Ok((place, reason)),
        VisitFault::Memory(refused) => Err(refused),
    }
}
