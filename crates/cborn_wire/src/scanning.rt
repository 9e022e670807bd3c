//! Whether bytes are well-formed, and if not, where and why. No item is kept.

ghost use Rattle.std.specs.Prelude.{◌+◌, ◌<◌, ◌≤◌, MatchOption};
ghost use Rattle.cborn_wire.specs.Common.{Trees, Wellformed, PlacedAll, Fault};

use crate::levels::LevelTable;
use crate::visits::visit_in;
use crate::{VisitFault, WireReason};
use cborn_model::{Limit, Size, StringKind, Visitor, Width};
use std::alloc::AllocError;

/// The visitor that keeps nothing.
#[derive(Drop)]
pub struct Nothing;

impl Visitor for Nothing {
    ghost holds = { λ v f c. Unit {0} };

    ghost takes_memory = { ⊥ };

    fn integer(&mut self, _: u64, _: bool, _: Width, _: u64) -> Result<(), AllocError> {
        Ok(())
    }

    fn simple(&mut self, _: u64, _: u8) -> Result<(), AllocError> {
        Ok(())
    }

    fn open_array(&mut self, _: u64, _: Size, _: Option<u64>) -> Result<(), AllocError> {
        Ok(())
    }

    fn open_map(&mut self, _: u64, _: Size, _: Option<u64>) -> Result<(), AllocError> {
        Ok(())
    }

    fn open_tag(&mut self, _: u64, _: Width, _: u64) -> Result<(), AllocError> {
        Ok(())
    }

    fn open_chunks(&mut self, _: u64, _: StringKind) -> Result<(), AllocError> {
        Ok(())
    }

    fn close(&mut self) -> Result<(), AllocError> {
        Ok(())
    }

    fn open_string(&mut self, _: u64, _: StringKind, _: Width, _: u64) -> Result<(), AllocError> {
        Ok(())
    }

    fn part(&mut self, _: &[u8]) -> Result<(), AllocError> {
        Ok(())
    }

    fn close_string(&mut self) -> Result<(), AllocError> {
        Ok(())
    }
}

/// The one fault of `bytes` if they are no sequence of items (RFC 8742) within the nesting limit:
/// its offset in bytes from their start, and the reason (RFC 8949 section 3). `None` if they are
/// one. Takes no memory, and of the stack more under a limit above the usual one.
pub fn scan(limit: Limit, bytes: &[u8]) -> Option<(u64, WireReason)>
    ensures { MatchOption result ((ts : Trees) × Wellformed limit ts bytes.now × PlacedAll 0 ts) (λ f. Fault limit bytes.now f.0 f.1) }
{
    if limit.get() <= 128 {
        return scan_with::<131>(limit, bytes);
    }
    scan_with::<1027>(limit, bytes)
}

/// What [`scan`] gives, with room for `MOST` levels.
#[inline(never)]
fn scan_with<const MOST: usize>(limit: Limit, bytes: &[u8]) -> Option<(u64, WireReason)>
    requires levels { limit + 2 < MOST }
    requires most { MOST ≤ 1027 }
    ensures { MatchOption result ((ts : Trees) × Wellformed limit ts bytes.now × PlacedAll 0 ts) (λ f. Fault limit bytes.now f.0 f.1) }
{
    match visit_in(&mut LevelTable::<MOST>::new(), limit, bytes, &mut Nothing) {
        Ok(()) => None,
        Err(VisitFault::Refused { place, reason }) => Some((place, reason)),
        Err(VisitFault::Memory(_)) => unreachable!(),
    }
}
