//! Why a text is not made of tokens.

ghost use Rattle.std.specs.Prelude.{◌≡◌};
ghost use Rattle.cborn_lex.specs.Common.{OutOfMemory};

use std::alloc::{AllocError, AllocFailed};
use thiserror::Error;

/// What is wrong with a token. docs/LIBRARY.md numbers the reasons in this order. No number ever
/// changes: a new reason goes last.
#[derive(Clone, Copy, PartialEq, Eq, Debug, Error)]
pub enum LexReason {
    /// No token begins like this.
    #[error("unexpected character")]
    UnexpectedCharacter,
    /// A string without a closing quote.
    #[error("unclosed string")]
    UnclosedString,
    /// A comment without a closing slash.
    #[error("unclosed comment")]
    UnclosedComment,
    /// An escape that JSON (RFC 8259 section 7) doesn't have, half of a surrogate pair, or a raw
    /// control character.
    #[error("bad escape")]
    BadEscape,
    /// `h'..'` with an odd number of digits, or with anything but digits, white space and comments.
    #[error("bad hex")]
    BadHex,
    /// `b64'..'` that isn't the base64 (RFC 4648 sections 4 and 5) of any bytes.
    #[error("bad base64")]
    BadBase64,
    /// A word right before a single quote that is neither `h` nor `b64`.
    #[error("unknown prefix")]
    UnknownPrefix,
    /// A number that is neither an integer nor a float.
    #[error("bad number")]
    BadNumber,
    /// An integer with a magnitude of 2^128 or more.
    #[error("number too large")]
    NumberTooLarge,
    /// An underscore that begins no encoding indicator, or none that is allowed there.
    #[error("bad indicator")]
    BadIndicator,
    /// A float.
    #[error("float left out")]
    FloatLeftOut,
}

/// Why tokens could not be read.
#[derive(Clone, Copy, PartialEq, Eq, Debug, Error)]
pub enum LexFault {
    /// The text isn't made of tokens. `place` is the offset of the first bad token, in bytes from
    /// the start of the text.
    #[error("offset {place}: {reason}")]
    Refused { place: u64, reason: LexReason },
    /// Memory was refused.
    #[error("out of memory")]
    OutOfMemory,
}

impl From<AllocError> for LexFault {
    ghost from_gives = { λ _ e. e ≡ OutOfMemory };

    fn from(error: AllocError) -> LexFault {
        LexFault::OutOfMemory
    }
}

impl<T: Drop> From<AllocFailed<T>> for LexFault {
    ghost from_gives = { λ _ e. e ≡ OutOfMemory };

    fn from(error: AllocFailed<T>) -> LexFault {
        LexFault::OutOfMemory
    }
}
