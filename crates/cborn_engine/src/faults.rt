//! Why an input is refused, or could not be read, or its answer not be written.
ghost use Rattle.std.specs.Prelude.{◌≡◌};
ghost use Rattle.cborn_engine.specs.Common.{CompareFault, EngineFault};

use crate::stream_faults::InputFault;
use cborn_edn::{EdnFault, ShowFault};
use cborn_judge::Invalid;
use cborn_lex::LexFault;
use cborn_wire::WireFault;
use std::alloc::AllocError;
use thiserror::Error;

/// Why a call gave no answer. A fault of a crate below never holds want of memory here: that is
/// `OutOfMemory`.
#[derive(Clone, Copy, PartialEq, Eq, Debug, Error)]
pub enum EngineFault {
    /// The bytes are not well-formed.
    #[error("{0}")]
    Wire(WireFault),
    /// The text is no notation of items.
    #[error("{0}")]
    Edn(EdnFault),
    /// An item is not valid.
    #[error("{0}")]
    Invalid(Invalid),
    /// The nodes have no notation.
    #[error("{0}")]
    Show(ShowFault),
    /// The text is not UTF-8. The place is the length of its longest front that is, in bytes.
    #[error("offset {0}: not UTF-8")]
    TextInput(u64),
    /// The reader failed.
    #[error("read failed")]
    ReadFault,
    /// The input is longer than it may be.
    #[error("input too long")]
    TooLong,
    /// The writer failed. What went out before is a front of the answer.
    #[error("write failed")]
    WriteFault,
    /// Memory was refused.
    #[error("out of memory")]
    OutOfMemory,
}

/// Why two inputs could not be compared.
#[derive(Clone, Copy, PartialEq, Eq, Debug, Error)]
pub enum CompareFault {
    /// The first input gave no items. Not a byte of the second was read.
    #[error("first: {0}")]
    First(EngineFault),
    /// The second input gave no items.
    #[error("second: {0}")]
    Second(EngineFault),
    /// Memory was refused.
    #[error("out of memory")]
    OutOfMemory,
}

impl From<AllocError> for EngineFault {
    ghost from_gives = { λ _ e. e ≡ EngineFault.OutOfMemory };

    fn from(_why: AllocError) -> Self {
        EngineFault::OutOfMemory
    }
}

impl From<AllocError> for CompareFault {
    ghost from_gives = { λ _ e. e ≡ CompareFault.OutOfMemory };

    fn from(_why: AllocError) -> Self {
        CompareFault::OutOfMemory
    }
}

impl From<InputFault> for EngineFault {
    ghost use Rattle.cborn_engine.specs.Faults.{of_input};

    ghost from_gives = { λ why e. e ≡ of_input why };

    fn from(why: InputFault) -> Self {
        match why {
            InputFault::ReadFault => EngineFault::ReadFault,
            InputFault::TooLong => EngineFault::TooLong,
            InputFault::OutOfMemory => EngineFault::OutOfMemory,
        }
    }
}

impl From<WireFault> for EngineFault {
    ghost use Rattle.cborn_engine.specs.Faults.{of_wire};

    ghost from_gives = { λ why e. e ≡ of_wire why };

    fn from(why: WireFault) -> Self {
        match why {
            WireFault::OutOfMemory => EngineFault::OutOfMemory,
            why => EngineFault::Wire(why),
        }
    }
}

impl From<EdnFault> for EngineFault {
    ghost use Rattle.cborn_engine.specs.Faults.{of_edn};

    ghost from_gives = { λ why e. e ≡ of_edn why };

    fn from(why: EdnFault) -> Self {
        match why {
            EdnFault::OutOfMemory | EdnFault::Lex(LexFault::OutOfMemory) =>
                EngineFault::OutOfMemory,
            why => EngineFault::Edn(why),
        }
    }
}

impl From<ShowFault> for EngineFault {
    ghost use Rattle.cborn_engine.specs.Faults.{of_show};

    ghost from_gives = { λ why e. e ≡ of_show why };

    fn from(why: ShowFault) -> Self {
        match why {
            ShowFault::OutOfMemory => EngineFault::OutOfMemory,
            why => EngineFault::Show(why),
        }
    }
}

impl From<Invalid> for EngineFault {
    ghost use Rattle.cborn_engine.specs.Faults.{of_invalid};

    ghost from_gives = { λ why e. e ≡ of_invalid why };

    fn from(why: Invalid) -> Self {
        match why {
            Invalid::OutOfMemory => EngineFault::OutOfMemory,
            why => EngineFault::Invalid(why),
        }
    }
}
