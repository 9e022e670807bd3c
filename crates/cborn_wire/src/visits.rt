//! Handing the items that bytes spell to a visitor.

ghost use Rattle.std.specs.Prelude.{◌≡◌, ◌+◌, ◌<◌, ℕ, List, [], Err, OnOk, ◌⊎◌, alloc_error};
ghost use Rattle.cborn_wire.specs.Common.{Tree, trees, Wellformed, PlacedAll, top, no_part, Refused, Memory, WireReason as Reason, Fault, IsInput};

use crate::{GrownLevels, HeadReader, Levels, Until, VisitFault, WireReason};
use cborn_model::{Limit, Visitor};
use std::alloc::Global;

/// Hands the items of `bytes`, a sequence (RFC 8742) within the nesting limit, to a visitor that was
/// handed nothing. Places are offsets in bytes from their start.
///
/// # Errors
/// `Refused` if the bytes are no such sequence, with the one fault that they have (RFC 8949 section
/// 3), at its offset in bytes from their start. `Memory` if memory is refused, to the visitor or
/// for what is open. After both nothing is known of the visitor.
pub fn visit<V: Visitor>(
    alloc: Global,
    limit: Limit,
    bytes: &[u8],
    visitor: &mut V,
) -> Result<(), VisitFault>
    requires { V.holds visitor.old (top []) no_part }
    ensures items { OnOk result ((ts : List Tree) × V.holds visitor.new (top ts) no_part × Wellformed limit (trees ts) bytes.now × PlacedAll 0 (trees ts)) }
    ensures fault { (p : ℕ) (r : Reason) → result ≡ Err (Refused p r) → Fault limit bytes.now p r }
{
    visit_in(&mut GrownLevels::new(alloc), limit, bytes, visitor)
}

/// What [`visit`] does, with these levels, of which only the input is open.
#[inline(always)]
pub(crate) fn visit_in<L: Levels, V: Visitor>(
    levels: &mut L,
    limit: Limit,
    bytes: &[u8],
    visitor: &mut V,
) -> Result<(), VisitFault>
    requires most { limit + 1 < L.most }
    requires levels { IsInput (L.outer levels.old) (L.inner levels.old) }
    requires nothing { V.holds visitor.old (top []) no_part }
    ensures items { OnOk result ((ts : List Tree) × V.holds visitor.new (top ts) no_part × Wellformed limit (trees ts) bytes.now × PlacedAll 0 (trees ts)) }
    ensures fault { (p : ℕ) (r : Reason) → result ≡ Err (Refused p r) → Fault limit bytes.now p r }
    ensures memory { result ≡ Err (Memory alloc_error) → V.takes_memory ⊎ L.takes_memory }
{
    let mut reader = HeadReader::new(limit, 0);
    match reader.read(levels, visitor, bytes, Until::End) {
        Ok(_) if reader.is_whole(levels) => Ok(()),
        Ok(_) => Err(VisitFault::at(bytes.len() as u64, WireReason::Truncated)),
        Err(fault) => Err(fault),
    }
}
