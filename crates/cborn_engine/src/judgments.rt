//! Judging bytes: what the items that they hold are encoded as, and where they first depart from
//! that, or why they hold none. One look finds it all, and keeps no tree.

ghost use Rattle.cborn_engine.specs.Common.{[], IfOk, IfErr, Kind};
ghost use Rattle.cborn_engine.specs.devices.Encoding.{AreJudged};
ghost use Rattle.cborn_engine.specs.devices.Judging.{IsJudging};
ghost use Rattle.cborn_engine.specs.devices.Malformed.{IsRefusedHeld};

use crate::faults::EngineFault;
use crate::piece_judges::PieceJudge;
use crate::refusals::fault_or_refusal;
use cborn_judge::{EncodedItems, Encoder};
use cborn_model::{KeyOrder, Limit, Visitor};
use std::alloc::Global;

/// The deterministic encodings of the items that bytes hold, and the first defect of the bytes (RFC 8949
/// section 4.2), or the fault of their content; that also where memory was refused, if they have one.
pub fn judge_bytes<O: KeyOrder>(
    alloc: Global,
    limit: Limit,
    input: &[u8],
) -> Result<EncodedItems, EngineFault>
    ensures judged { IfOk result (λ found. AreJudged O.order limit input.now found.bytes.items found.defect) }
    ensures refused { IfErr result (IsRefusedHeld Kind.Wire limit input.now) }
{
    // An encoding is longer than what it was read from only where an indefinite length, which takes
    // two bytes, becomes the head of 256 entries or more.
    let capacity = input.len().saturating_add(input.len() / 256 + 8);
    match Encoder::<O>::with_capacity(alloc, capacity) {
        Ok(encoder) => judge_whole(limit, input, PieceJudge::over(alloc, limit, encoder)),
        Err(refused) => Err(fault_or_refusal(refused, limit, input)),
    }
}

/// What `judge_bytes` answers, by a judge to which nothing came.
fn judge_whole<O: KeyOrder>(
    limit: Limit,
    input: &[u8],
    judge: PieceJudge<O>,
) -> Result<EncodedItems, EngineFault>
    requires { IsJudging ⟦<Encoder<O> as Visitor>⟧.holds judge [] limit }
    ensures judged { IfOk result (λ found. AreJudged O.order limit input.now found.bytes.items found.defect) }
    ensures refused { IfErr result (IsRefusedHeld Kind.Wire limit input.now) }
{
    let mut judge = judge;
    match judge.take(input) {
        Ok(()) => judge.finish(),
        Err(refused) => Err(fault_or_refusal(refused, limit, input)),
    }
}
