//! Reading input that is in memory.

ghost use Rattle.std.specs.Prelude.{◌≡◌, ◌+◌, ◌≤◌, ℕ, length, drop, Err, IfOk};
ghost use Rattle.cborn_wire.specs.Common.{trees, Wellformed, PlacedAll, WireReason, Fault, IsFirstItem, ItemFault};
ghost use Rattle.cborn_wire.specs.declared.faults.WireFault.TheVariants.{Refused};

use crate::first_items::visit_item;
use crate::nodes::Nodes;
use crate::{WireFault, WireReason, visit};
use cborn_model::{Limit, Spelled};
use std::alloc::Global;

/// The items of `bytes`, a sequence (RFC 8742) within the nesting limit.
///
/// # Errors
///
/// `Refused` if the bytes are no such sequence, with the one fault that they have (RFC 8949 section
/// 3), at its offset in bytes from their start. `OutOfMemory` if memory is refused.
pub fn read_all(alloc: Global, limit: Limit, bytes: &[u8]) -> Result<Vec<Spelled>, WireFault>
    ensures items { IfOk result (λ v. Wellformed limit (trees v.items) bytes.now × PlacedAll 0 (trees v.items)) }
    ensures fault { (p : ℕ) (r : WireReason) → result ≡ Err (Refused p r) → Fault limit bytes.now p r }
{
    let mut nodes = Nodes::new(alloc);
    visit(alloc, limit, bytes, &mut nodes)?;
    Ok(nodes.finish()?)
}

/// The item that begins in `bytes` at the offset `start`, which is at most their length, and the
/// offset where it ends. What follows isn't checked. Offsets are in bytes from the start of
/// `bytes`.
///
/// # Errors
///
/// `Refused` if no item within the nesting limit begins there, with the one fault that is met (RFC
/// 8949 section 3): `Truncated`, at the length of `bytes`, if they end before the item does.
/// `OutOfMemory` if memory is refused.
pub fn read_one(
    alloc: Global,
    limit: Limit,
    bytes: &[u8],
    start: usize,
) -> Result<(Spelled, usize), WireFault>
    requires { start ≤ length bytes.now }
    ensures item { IfOk result (λ r. (r.1 ≤ length bytes.now) × IsFirstItem limit start r.0 (drop start bytes.now) (drop r.1 bytes.now)) }
    ensures fault { (p : ℕ) (r : WireReason) → result ≡ Err (Refused p r) → (q : ℕ) × (p ≡ start + q) × ItemFault limit (drop start bytes.now) q r }
{
    let mut nodes = Nodes::new(alloc);
    let Some(end) = visit_item(alloc, limit, bytes, start, &mut nodes)? else {
        // the bytes end at `start`
        return Err(WireFault::Refused {
            place: start as u64,
            reason: WireReason::Truncated,
        });
    };
    let Some(node) = nodes.take_whole() else {
        unreachable!()
    };
    Ok((Spelled::new(node), end))
}
