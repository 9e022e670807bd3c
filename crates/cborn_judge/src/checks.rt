//! The check whether a node spells the deterministic encoding of what it means.

ghost use Rattle.std.specs.Prelude.{◌≡◌, ◌↔◌};
ghost use Rattle.cborn_judge.specs.Common.{IfOk, IfErr, None};
ghost use Rattle.cborn_judge.specs.Defects.{IsCheck, IsDeterministic};
ghost use Rattle.cborn_judge.specs.Flaws.{IsRefusal};

use crate::defects::Defect;
use crate::faults::Invalid;
use crate::judgments::encode;
use cborn_model::{KeyOrder, Spelled};
use std::alloc::Global;

/// The first defect of the node: where its spelling first departs from the deterministic encoding
/// of the item that it means (RFC 8949 section 4.2), with the keys of maps in the order `O`. `None`
/// if it is that encoding.
///
/// # Errors
/// `Refused`, with the node's first flaw, if it means no item. `OutOfMemory` if memory is refused.
#[tactic(auto, using(crate::proofs::FirstDefect::concluded))]
pub fn first_defect<O: KeyOrder>(
    alloc: Global,
    spelled: &Spelled,
) -> Result<Option<Defect>, Invalid>
    ensures first { IfOk result (IsCheck O.order spelled.now) }
    ensures deterministic { IfOk result (λ defect. (defect ≡ None) ↔ IsDeterministic O.order spelled.now) }
    ensures refused { IfErr result (IsRefusal spelled.now) }
{
    let encoded = encode::<O>(alloc, spelled)?;
    Ok(encoded.defect)
}
