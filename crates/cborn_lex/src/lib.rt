//! The tokens of CBOR's diagnostic notation (RFC 8949 section 8, RFC 8610 appendix G).
//!
//! A text is read from left to right as white space and tokens, each as long as its form allows:
//!
//! ```text
//! [_ 1_1, 24(h'01'), "é"]  / a comment /
//! ─┬ ─┬─│ ╶┬╴╶─┬─╴││ ─┬─└ ArrayClose
//!  │  │ │  │   │  ││  └ Text, the bytes c3 a9
//!  │  │ │  │   │  │└ Comma
//!  │  │ │  │   │  └ ParenClose
//!  │  │ │  │   └ Bytes, the byte 01
//!  │  │ │  └ TagOpen, the number 24
//!  │  │ └ Comma
//!  │  └ Number, 1 with the indicator Wide(Two)
//!  └ ArrayOpen, with the indicator Endless
//! ```
//!
//! [`tokens`] gives the tokens of a text in a list, and [`token_from`] one by one. Both call
//! [`next_token`], which gives a token without its number or content: it puts the number into a
//! variable of the caller's, and appends the bytes of a string to a buffer of the caller's.
//!
//! # Terms
//!
//! - *White space* is spaces, tabs, line feeds, carriage returns and comments (RFC 8610 appendix
//!   G.6).
//! - A *token* is a bracket, a comma, a colon, a number, a word or a string. Its *class* is what it
//!   is, with its number or the bytes of its string, and its *kind* is the same without these. A
//!   *bare token* has a kind alone.
//! - An *indicator* or *mark* is the end of a token that asks for an indefinite length or for the
//!   width of a head (RFC 8949 section 8.1).
//! - The *front* of a text is the white space or the token that it begins with, or what is wrong
//!   there.
//! - The *content* of a string is what is between its quotes, and a *letter* is one byte of it.
//! - A *lexical fault* is a place where neither white space nor a token begins.
//!
//! # The definitions
//!
//! - `specs/Good.antt`: what white space and tokens are, and which tokens a text has. Start here.
//!   It uses `Tokens.antt` (characters and indicators), `Numbers.antt` and `Strings.antt`.
//! - `Bad.antt`: where a text has a lexical fault, and why.
//! - `Kinds.antt`: a token in two parts, as `next_token` gives it.
//!
//! `Forms.antt` says the same by the first character of a front. It serves the proofs, and [`laws`]
//! holds it against the definitions.
//!
//! # The modules
//!
//! - `classes` and `faults`: the types. `lexer`: the three functions above.
//! - `fronts`: what the front of a text is, by its first character. `integers`, `keywords`,
//!   `escaped` (strings in quotes) and `encoded` (strings with a prefix) read what begins there.
//! - `letters`: the letters of a string in quotes, sixteen at once. `units`: its escapes `\uXXXX`.
//! - `slices`: parts of a text, and indicators.
//!
//! [`decimal_at`], [`mark_at`], [`find`], [`plain_run`] and [`push_letters`] are for a reader that
//! looks for frequent tokens before it asks for any token.
#![tactic(auto)]

mod classes;
mod encoded;
mod escaped;
mod faults;
mod fronts;
mod integers;
mod keywords;
pub mod laws;
mod letters;
mod lexer;
mod slices;
mod units;

pub use classes::{BareToken, Class, Kind, Mark, Profile, Token};
pub use faults::{LexFault, LexReason};
pub use integers::decimal_at;
pub use letters::{plain_run, push_letters};
pub use lexer::{next_token, token_from, tokens};
pub use slices::{find, mark_at};
use std::alloc::AllocError;
pub use units::{code_at, is_low, unit_at};

/// A result that is an error only where memory is refused, unless it names another error.
type Result<T = (), E = AllocError> = std::result::Result<T, E>;
