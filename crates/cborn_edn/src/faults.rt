//! Why a text was not read, or nodes were not shown.

ghost use Rattle.std.specs.Prelude.{◌≡◌};
ghost use Rattle.cborn_edn.specs.declared.faults.EdnFault.TheVariants.{OutOfMemory};
ghost use Rattle.cborn_edn.specs.declared.faults.ShowFault.TheVariants.{OutOfMemory as ShowOutOfMemory};
ghost use Rattle.cborn_edn.specs.devices.MeaningErrors.{lexical};

use cborn_lex::LexFault;
use std::alloc::AllocError;
use thiserror::Error;

/// What is wrong with the tokens of a text, or with what they mean.
#[derive(Clone, Copy, PartialEq, Eq, Debug, Error)]
pub enum EdnReason {
    /// The first token with which no text of the grammar goes on.
    #[error("unexpected token")]
    UnexpectedToken,
    /// The text ends where something must still follow.
    #[error("unexpected end")]
    UnexpectedEnd,
    /// A token that makes the nesting exceed the limit.
    #[error("too deep")]
    TooDeep,
    /// A number, a length or a count that does not fit the width that its indicator asks for.
    #[error("indicator too narrow")]
    IndicatorTooNarrow,
    /// An indicator where none is allowed.
    #[error("indicator not allowed")]
    IndicatorNotAllowed,
    /// A text piece after the start of a byte string.
    #[error("mixed string")]
    MixedString,
    /// A chunk of another kind than the first.
    #[error("mixed chunks")]
    MixedChunks,
    /// The joined bytes of a text string or of a text chunk are not UTF-8.
    #[error("text not UTF-8")]
    TextNotUtf8,
    /// A simple value that is negative, from 24 to 31, or above 255.
    #[error("bad simple")]
    BadSimple,
    /// A tag number above 2^64-1.
    #[error("tag too large")]
    TagTooLarge,
}

/// Why no items were read.
#[derive(Clone, Copy, PartialEq, Eq, Debug, Error)]
pub enum EdnFault {
    /// A part of the text is no token.
    #[error("{0}")]
    Lex(LexFault),
    /// A syntax error or a meaning error. `place` is its offset, in bytes from the start of the
    /// text.
    #[error("offset {place}: {reason}")]
    Refused { place: u64, reason: EdnReason },
    /// Memory was refused.
    #[error("out of memory")]
    OutOfMemory,
}

/// Why nodes were not shown.
#[derive(Clone, Copy, PartialEq, Eq, Debug, Error)]
pub enum ShowFault {
    /// A text string or a text chunk is not UTF-8. `place` is the lowest place of such a node or
    /// chunk.
    #[error("offset {place}: not UTF-8")]
    NotUtf8 { place: u64 },
    /// Memory was refused.
    #[error("out of memory")]
    OutOfMemory,
}

impl From<AllocError> for EdnFault {
    ghost from_gives = { λ _ e. e ≡ OutOfMemory };

    fn from(error: AllocError) -> EdnFault {
        EdnFault::OutOfMemory
    }
}

impl From<LexFault> for EdnFault {
    ghost from_gives = { λ fault e. e ≡ lexical fault };

    /// Out of memory is the same fault, whichever crate asked for the memory.
    fn from(fault: LexFault) -> EdnFault {
        match fault {
            LexFault::Refused { .. } => EdnFault::Lex(fault),
            LexFault::OutOfMemory => EdnFault::OutOfMemory,
        }
    }
}

impl From<AllocError> for ShowFault {
    ghost from_gives = { λ _ e. e ≡ ShowOutOfMemory };

    fn from(error: AllocError) -> ShowFault {
        ShowFault::OutOfMemory
    }
}

impl EdnReason {
    ghost use Rattle.cborn_edn.specs.Faults.{number_of};

    /// The number of the reason: 20 to 22 for syntax errors, 30 to 36 for meaning errors. Of
    /// several meaning errors at one place the one with the lowest number is reported.
    pub(crate) fn number(self) -> u8
        ensures { result ≡ number_of self }
    {
        match self {
            EdnReason::UnexpectedToken => 20,
            EdnReason::UnexpectedEnd => 21,
            EdnReason::TooDeep => 22,
            EdnReason::IndicatorTooNarrow => 30,
            EdnReason::IndicatorNotAllowed => 31,
            EdnReason::MixedString => 32,
            EdnReason::MixedChunks => 33,
            EdnReason::TextNotUtf8 => 34,
            EdnReason::BadSimple => 35,
            EdnReason::TagTooLarge => 36,
        }
    }
}
