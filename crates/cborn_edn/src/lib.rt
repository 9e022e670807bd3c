//! Diagnostic notation of data items (RFC 8949 section 8, RFC 8610 appendix G): texts are read as
//! bytes or as nodes, and nodes are written as text.
//!
//! ```text
//! text    [1, "a" h'62'_1]
//! tokens  [ 1 , "a" h'62'_1 ]     `cborn_lex` reads them, one at a time
//! bytes   82 01 79 00 02 61 62    a visitor writes them
//! nodes   Items of Uint and Text: the string "ab", whose length takes two bytes
//! ```
//!
//! [`read_text`] gives the bytes of a text, or why it has none. [`visit_text`] hands the nodes to a
//! visitor, head by head, each with its place in the text, and [`read_notation`] gives them.
//! [`show`] writes nodes in the fixed notation, which has one text for each list of nodes.
//!
//! # Terms
//!
//! - A *token* is a bracket, a comma, a colon, a number, a word or a quoted string, with its
//!   *indicator* (RFC 8949 section 8.1). Its *place* is its offset in the text, in bytes. Between
//!   tokens there may be *white space*, which comments are part of.
//! - An *item* is one data item, of one token or of many.
//! - Strings that follow one another are *pieces* of one string: `"a" h'62'` is `"ab"`. What is
//!   *embedded* in `<<..>>` is a piece too: the bytes of its items.
//! - A *chunk* is a part of a string of indefinite length: `(_ "a", "b" h'62')` has two chunks, and
//!   the second has two pieces.
//! - A *lexical fault* is a place where no token begins. A *syntax error* is the first token
//!   with which no text of the grammar goes on, or the end of a text that has to go on. A *meaning
//!   error* is what is wrong in a text of the grammar, as a number that is too large for the width
//!   that its indicator asks for. A lexical fault is reported before any syntax error, and a syntax
//!   error before any meaning error.
//! - An *open bracket* is that of an array, a map, a tag or a `<<` whose end hasn't been read.
//!   `simple(` and `(_` are none.
//! - The *phase* is what the reader has read last in the innermost open bracket. It decides, with
//!   the *level*, the kind of that bracket, which tokens may follow.
//!
//! # The definitions
//!
//! - `specs/Grammar.antt`: the grammar, as one relation between tokens, the nodes that they say and
//!   their meaning errors. Start here.
//! - `Says.antt`: the node and the meaning errors of one number, one tag, one simple value and one
//!   string.
//! - `Faults.antt`: why a text notates nothing.
//! - `Spelling.antt`: the bytes that a text spells.
//! - `Starts.antt`: the places of nodes and chunks.
//! - `Shown.antt`: the fixed notation. `Plain.antt`: the notation of a deterministic encoding.
//! - `ReadingBack.antt`: what the laws of reading back need, as nodes without their places.
//!
//! [`laws`] has what is proved of the definitions alone: above all, that the fixed notation notates
//! the nodes that it shows.
//!
//! # The reader
//!
//! What is read is handed to a visitor at once, as events: a head, a whole string, or the end of a
//! container. No byte is written, but for the pieces of a string that is open. How many items an array
//! has, or pairs a map, is known where it ends.
//!
//! What is embedded in `<<..>>` is the content of a string. So it goes to a visitor of its own, which
//! writes the bytes that it spells, and these are a piece of the string.
//!
//! A meaning error doesn't stop the reader. It keeps the first one and reads on, but hands nothing over
//! any more, since the text notates nothing. So it still finds a later syntax error, which is reported
//! in place of the meaning error.
//!
//! Read the modules in this order:
//!
//! - `passes`: the loop over the tokens, how deep each goes, and the answer at the end of the text.
//! - `states`: what is kept: the phase, the open brackets, and the string that is read.
//! - `events`: what a visitor is handed. `spellers`: what writes the bytes that are embedded.
//! - `steps`: the grammar: what each token does in each phase. `endings`, `containers`, `strings` and
//!   `numbers` change what is kept, and hand over. `meaning_errors` keeps the first meaning error.
//! - `white_space` and `frequent`: frequent tokens are found in a text without the lexer. `quick`,
//!   `quick_items` and `quick_ends` take them at once, and leave all others to `steps`. They are for
//!   speed alone.
//! - `readers`: a visitor builds nodes of what it is handed.
//! - `notators`, `showing`, `shown_bytes` and `writing`: nodes become text, if each text string is
//!   UTF-8.
//!
//! The proofs use a second form of the grammar: trees (`specs/devices/Syntax.antt`), and a machine
//! that takes one token after another and builds a tree (`Machine.antt`). What the reader keeps
//! shows a state of the machine (`Shows.antt`), as does what was handed over (`Handed.antt`), and a
//! token that the reader takes is a step of the machine. The law `short_form` says that the trees and the relation agree.
#![tactic(auto)]

mod containers;
mod endings;
mod events;
mod faults;
mod frequent;
pub mod laws;
mod meaning_errors;
mod notators;
mod numbers;
mod passes;
mod quick;
mod quick_ends;
mod quick_items;
mod readers;
mod showing;
mod shown_bytes;
mod spellers;
mod states;
mod steps;
mod strings;
mod white_space;
mod writing;

pub use faults::{EdnFault, EdnReason, ShowFault};
pub use meaning_errors::MeaningError;
pub use notators::Notator;
pub use passes::{read_text, visit_text};
pub use readers::read_notation;
pub use showing::show;
pub use shown_bytes::{Notated, show_bytes};
use std::alloc::AllocError;

/// A result that is an error only where memory is refused, unless it names another error.
type Result<T = (), E = AllocError> = std::result::Result<T, E>;
