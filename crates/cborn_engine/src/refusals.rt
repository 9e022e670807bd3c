//! Why bytes are refused that aren't well-formed: for their fault.
ghost use Rattle.std.specs.Prelude.{◌≡◌, ◌⊎◌};
ghost use Rattle.cborn_engine.specs.Common.{EngineFault, IsWellformed};
ghost use Rattle.cborn_engine.specs.devices.Malformed.{IsWireFault};

use crate::faults::EngineFault;
use cborn_model::Limit;
use cborn_wire::{WireFault, scan};
use std::alloc::{AllocError, Global};

/// The fault of bytes that aren't well-formed.
pub fn fault_of_bytes(limit: Limit, input: &[u8]) -> EngineFault
    requires { IsWellformed limit input.now → ⊥ }
    ensures { IsWireFault limit input.now result }
{
    match scan(limit, input) {
        Some((place, reason)) => EngineFault::Wire(WireFault::Refused { place, reason }),
        None => unreachable!(),
    }
}

/// What is answered of bytes where a growth was refused: the fault of those that aren't well-formed,
/// whatever memory there is; else `OutOfMemory`.
pub fn fault_or_refusal(refused: AllocError, limit: Limit, input: &[u8]) -> EngineFault
    ensures { IsWireFault limit input.now result ⊎ IsWellformed limit input.now × (result ≡ EngineFault.OutOfMemory) }
{
    match scan(limit, input) {
        Some((place, reason)) => EngineFault::Wire(WireFault::Refused { place, reason }),
        None => EngineFault::from(refused),
    }
}
