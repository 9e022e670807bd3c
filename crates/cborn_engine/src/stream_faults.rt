//! Why an input could not be read.
ghost use Rattle.std.specs.Prelude.{◌≡◌};
ghost use Rattle.cborn_engine.specs.Common.{InputFault};

use std::alloc::AllocError;
use thiserror::Error;

/// Why an input was not read to its end.
#[derive(Clone, Copy, PartialEq, Eq, Debug, Error)]
pub enum InputFault {
    /// The reader failed.
    #[error("read failed")]
    ReadFault,
    /// The input is longer than allowed.
    #[error("input too long")]
    TooLong,
    /// Memory was refused.
    #[error("out of memory")]
    OutOfMemory,
}

impl From<AllocError> for InputFault {
    ghost from_gives = { λ _ e. e ≡ InputFault.OutOfMemory };

    fn from(_why: AllocError) -> Self {
        InputFault::OutOfMemory
    }
}
