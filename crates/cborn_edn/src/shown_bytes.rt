//! The fixed notation of what bytes hold, with no nodes made of them.

ghost use Rattle.std.specs.Prelude.{IfOk};
ghost use Rattle.cborn_edn.specs.ShownBytes.{Notates};

use crate::Notator;
use cborn_model::Limit;
use cborn_wire::{VisitFault, WireReason, visit};
use std::alloc::{AllocError, Global};

/// The fixed notation of bytes, or why they have none. A `place` is an offset in bytes from their
/// start.
#[derive(Drop)]
pub enum Notated {
    /// The notation, in UTF-8, with a line for each item.
    Text(Vec<u8>),
    /// The bytes hold no items within the limit; this is their one fault (RFC 8949 section 3).
    Malformed { place: u64, reason: WireReason },
    /// The bytes hold items, and this is the lowest place of a text string or a text chunk that
    /// isn't UTF-8.
    NotUtf8 { place: u64 },
}

/// The fixed notation of the items that the bytes hold, a sequence (RFC 8742) within the nesting
/// limit, or why there is none. The text is empty if the bytes are.
///
/// # Errors
/// `AllocError` if memory is refused.
pub fn show_bytes(alloc: Global, limit: Limit, bytes: &[u8]) -> Result<Notated, AllocError>
    ensures { IfOk result (Notates limit bytes.now) }
{
    let mut notator = Notator::new(alloc);
    match visit(alloc, limit, bytes, &mut notator) {
        Ok(()) => {}
        Err(VisitFault::Refused { place, reason }) => {
            return Ok(Notated::Malformed { place, reason });
        }
        Err(VisitFault::Memory(refused)) => return Err(refused),
    }
    if let Some(place) = notator.bad {
        return Ok(Notated::NotUtf8 { place });
    }
    Ok(Notated::Text(notator.into_text()?))
}
