//! The deterministic encoding of data items (RFC 8949 section 4.2): each head as short as it can
//! be, definite lengths alone, an integer within 64 bits as a head, and the pairs of each map in
//! the order of their keys' encodings. That order is the caller's choice.
//!
//! An item is written to the end of one buffer: `encoding` goes through it, and `parts` appends its
//! strings and numbers. Once all pairs of a map are written, `entries` arranges them in the buffer:
//! nothing is moved if their keys rise already, else the map is copied once. `heads` has the
//! shortest head. Callers that write an encoding without an item use it too, and `push_integer`.
//!
//! `laws` has what follows from the definitions: two valid items have equal encodings exactly if
//! they are the same.
#![tactic(auto)]

mod encoding;
mod entries;
mod heads;
pub mod laws;
mod parts;

pub use encoding::{encode, encode_all, equal_bytes, push_encoding};
pub use heads::{put_head, set_head};
pub use parts::{integer_major, push_integer};
