//! CBOR data items (RFC 8949) as values: as they are spelled in bytes, and as they are meant.
//!
//! ```text
//! 82     18 64    5f     41   61        ff
//! head   head     head   head content   break
//! │      │        │      └── chunk      after the last chunk
//! │      │        └── node: ByteChunks, one chunk of width Direct
//! │      └── node: Uint(One, 100); the argument 100 follows the initial byte
//! └── node: Items(Fixed(Direct), ..), an array of the two nodes above
//! ```
//!
//! - A *head* is an initial byte, with the major type in its high three bits, and the bytes that
//!   follow it. Its *argument* is a number: an integer, a length, a count or a tag.
//! - The [`Width`] of a head is the number of bytes that its argument takes after the initial
//!   byte. Most numbers can be written in several widths; [`shortest`] gives the narrowest.
//! - A [`Chunk`] is a definite string inside an indefinite one.
//! - A [`Node`] is a data item as it is spelled: its place, which is the offset of its head in
//!   bytes, and its [`Form`]. Nothing is lost: a node spells one list of bytes.
//! - An [`Item`] is what a node means. Widths, chunks and places are gone, and a bignum is the
//!   integer that it encodes.
//!
//! The crate has two halves. *Spelled*: [`fits`] says whether a node spells any bytes, and a
//! [`Spelled`] is one that does, at most 1,024 deep. *Meant*: [`is_valid`] says whether an item is
//! valid, a [`Valid`] is one that is, and [`same`] says whether two of these are the same.
//! [`Limit`] is the nesting depth that a caller allows, [`KeyOrder`] an order of map keys, and
//! [`Fault`] what is wrong at an offset; [`earlier`] says which of two comes first.
//!
//! The definitions are in `specs/`, apart from the code: `Bytes` and `Heads`; `Tree` (the pure
//! node), `Spelled` (its bytes, and when it fits) and `Placed`; `Value` (the pure item, and
//! `Same`), `Valid` and `Meaning` (which item a node means); `Orders`; `First` and `Earliest` (the
//! first of several faults). Devices of the proofs are in `specs/devices/`. [`laws`] has what is
//! proved of the definitions alone.
#![tactic(auto)]

mod comparisons;
mod growth;
mod heads;
mod items;
pub mod laws;
mod limits;
mod magnitudes;
mod nodes;
mod orders;
mod precedence;
mod spellings;
mod strings;
mod validity;
mod visitors;
mod walks;

pub use comparisons::same;
pub use growth::{Result, push_doubling};
pub use heads::{BREAK, Major, Size, Width, ended_size, is_simple_value, shortest};
pub use items::{Item, ItemBox, ItemList, PairList};
pub use limits::Limit;
pub use magnitudes::{magnitude_of, without_zeros, word_of};
pub use nodes::{Chunk, Form, Node};
pub use orders::{Bytewise, KeyOrder, KnownOrder, LengthFirst};
pub use precedence::{Fault, earlier, earliest};
pub use spellings::{Spelled, depth, fits};
pub use strings::ByteString;
pub use validity::{Valid, is_valid};
pub use visitors::{LeafPair, StringKind, Visitor};
pub use walks::visit_node;
