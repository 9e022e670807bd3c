//! Where the item that starts at an offset ends.

ghost use Rattle.std.specs.Prelude.{◌≡◌, ◌∷◌, ◌++◌, ◌≤◌, ℕ, List, [], None, length, drop, IfOk, IfSome};
ghost use Rattle.cborn_wire.specs.Common.{Tree, depth, spelled, Fits, top, no_part, IsFirstItem, EndsItem, EndsHeld};

use crate::head_readers::{HeadReader, Until};
use crate::levels::GrownLevels;
use crate::scanning::Nothing;
use crate::{VisitFault, WireFault, WireReason};
use cborn_model::{Limit, Visitor};
use std::alloc::{AllocError, Global};

/// Where the item ends that starts in `bytes` at the offset `start`, which is at most their length:
/// the offset after it (RFC 8949 section 3). What follows the item isn't read. `None`: the bytes end
/// at `start`. Offsets are in bytes from the start of `bytes`.
///
/// # Errors
/// `Refused` if no item within the nesting limit starts there, with the one fault that is met:
/// `Truncated`, at the length of `bytes`, if they end before the item does. `OutOfMemory` if memory
/// for the open levels is refused.
#[tactic(auto, using(crate::proofs::Visiting::Ending::ends_item))]
pub fn item_end(
    alloc: Global,
    limit: Limit,
    bytes: &[u8],
    start: usize,
) -> Result<Option<usize>, WireFault>
    requires { start ≤ length bytes.now }
    ensures { EndsItem limit bytes.now start result }
{
    Ok(visit_item(alloc, limit, bytes, start, &mut Nothing)?)
}

/// Where an item ends, as [`item_end`] says. A visitor that was handed nothing is handed the item.
#[inline(always)]
pub(crate) fn visit_item<V: Visitor>(
    alloc: Global,
    limit: Limit,
    bytes: &[u8],
    start: usize,
    visitor: &mut V,
) -> Result<Option<usize>, VisitFault>
    requires start { start ≤ length bytes.now }
    requires nothing { V.holds visitor.old (top []) no_part }
    ensures { EndsHeld (λ t. V.holds visitor.new (top (t ∷ [])) no_part) limit bytes.now start result }
{
    if start == bytes.len() {
        return Ok(None);
    }
    let mut reader = HeadReader::new(limit, start as u64);
    let mut levels = GrownLevels::new(alloc);
    match reader.read(&mut levels, visitor, &bytes[start..], Until::Item) {
        Ok(len) if reader.is_whole(&levels) => Ok(Some(start + len)),
        Ok(_) => Err(VisitFault::at(bytes.len() as u64, WireReason::Truncated)),
        Err(why) => Err(why),
    }
}

/// Where the first item of some bytes ends: an offset in bytes from their start (RFC 8949 section
/// 3, RFC 8742). What follows the item isn't read. `None`: the bytes don't begin with a whole item
/// that is no deeper than the highest nesting limit.
///
/// # Errors
/// `AllocError` where memory for the open levels is refused.
pub fn first_end(alloc: Global, bytes: &[u8]) -> Result<Option<usize>, AllocError>
    ensures item { IfOk result (λ found. IfSome found (λ end. (end ≤ length bytes.now) × ((t : Tree) × IsFirstItem 1024 0 t bytes.now (drop end bytes.now)))) }
    ensures none { IfOk result (λ found. found ≡ None → (t : Tree) (rest : List ℕ) → bytes.now ≡ spelled t ++ rest → Fits t → depth t ≤ 1024 → ⊥) }
{
    match visit_item(alloc, Limit::HIGHEST, bytes, 0, &mut Nothing) {
        Ok(end) => Ok(end),
        Err(VisitFault::Refused { .. }) => Ok(None),
        Err(VisitFault::Memory(refused)) => Err(refused),
    }
}
