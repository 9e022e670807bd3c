//! Why bytes are not well-formed (RFC 8949 section 3 and appendix C).

ghost use Rattle.std.specs.Prelude.{◌≡◌};
ghost use Rattle.cborn_wire.specs.declared.faults.WireFault.TheVariants.{OutOfMemory};
ghost use Rattle.cborn_wire.specs.declared.faults.VisitFault.TheVariants.{Memory, Refused};

use std::alloc::{AllocError, AllocFailed};
use thiserror::Error;

/// What is wrong with a head, or that more must follow. docs/LIBRARY.md numbers the reasons in this
/// order. No number ever changes: a new reason goes last.
#[derive(Clone, Copy, PartialEq, Eq, Debug, Error)]
pub enum WireReason {
    /// The additional information is 28, 29 or 30, which is reserved.
    #[error("reserved additional information")]
    ReservedInfo,
    /// An integer or a tag of indefinite length.
    #[error("indefinite length not allowed")]
    EndlessNotAllowed,
    /// In an indefinite string, neither a break nor a definite string of the same kind.
    #[error("bad chunk")]
    BadChunk,
    /// A break where an item is needed.
    #[error("unexpected break")]
    UnexpectedBreak,
    /// A float, which is never accepted.
    #[error("float left out")]
    FloatLeftOut,
    /// A simple value below 32 in two bytes (RFC 8949 section 3.3).
    #[error("bad simple")]
    BadSimple,
    /// An array, a map or a tag inside as many as the limit allows.
    #[error("too deep")]
    TooDeep,
    /// The input ends where more must follow.
    #[error("truncated")]
    Truncated,
}

/// Why items could not be read.
#[derive(Clone, Copy, PartialEq, Eq, Debug, Error)]
pub enum WireFault {
    /// The bytes are not well-formed. `place` is the offset of the head that isn't allowed there,
    /// in bytes from the start of the input; for `Truncated` it is the input's length.
    #[error("offset {place}: {reason}")]
    Refused { place: u64, reason: WireReason },
    /// Memory was refused.
    #[error("out of memory")]
    OutOfMemory,
}

/// Why the items of bytes could not be handed to a visitor.
#[derive(Clone, Copy, PartialEq, Eq, Debug, Error)]
pub enum VisitFault {
    /// The bytes are not well-formed, as `WireFault::Refused` says.
    #[error("offset {place}: {reason}")]
    Refused { place: u64, reason: WireReason },
    /// Memory was refused, to the visitor or for what is open.
    #[error("out of memory")]
    Memory(AllocError),
}

impl VisitFault {
    /// The bytes are not well-formed at this place.
    pub(crate) fn at(place: u64, reason: WireReason) -> VisitFault
        ensures { result ≡ Refused place reason }
    {
        VisitFault::Refused { place, reason }
    }
}

impl From<AllocError> for WireFault {
    ghost from_gives = { λ _ e. e ≡ OutOfMemory };

    fn from(_error: AllocError) -> WireFault {
        WireFault::OutOfMemory
    }
}

impl<T: Drop> From<AllocFailed<T>> for WireFault {
    ghost from_gives = { λ _ e. e ≡ OutOfMemory };

    fn from(_error: AllocFailed<T>) -> WireFault {
        WireFault::OutOfMemory
    }
}

impl From<AllocError> for VisitFault {
    ghost from_gives = { λ refused e. e ≡ Memory refused };

    fn from(refused: AllocError) -> VisitFault {
        VisitFault::Memory(refused)
    }
}

impl From<VisitFault> for WireFault {
    ghost use Rattle.cborn_wire.specs.Visits.{wire_fault};

    ghost from_gives = { λ why e. e ≡ wire_fault why };

    fn from(why: VisitFault) -> WireFault {
        match why {
            VisitFault::Refused { place, reason } => WireFault::Refused { place, reason },
            VisitFault::Memory(refused) => WireFault::from(refused),
        }
    }
}
