//! The bytes of data items: read, checked and written (RFC 8949 section 3).
//!
//! An *open container* is an array, a map, a tag or an indefinite string whose head was read and
//! whose end wasn't.
//!
//! - A [`HeadReader`] reads bytes that come in pieces, cut anywhere, and hands each head and each
//!   string to a visitor (`cborn_model::Visitor`). What is open are its [`Levels`], a stack in the
//!   place of recursion, which says where a head isn't allowed. `counting` has what a head makes of
//!   them, and takes heads at once where they are allowed; `leaves` takes items that hold no others one
//!   after another, and several at once where the visitor does so.
//! - A [`Feeder`] is fed an input in pieces, and gives items as they are completed, one after
//!   another. [`read_all`] reads an input that is in memory. A visitor builds the nodes (`nodes`): it
//!   puts what is whole into the innermost open container.
//! - [`scan`] says whether an input in memory is well-formed, or what its one fault is: the reader
//!   with a visitor that keeps nothing. [`item_end`] says where the item at an offset ends,
//!   likewise, and [`read_one`] reads it, with the visitor that builds nodes.
//! - A [`Speller`] is a visitor that writes the bytes which its items spell. The head of an array or a
//!   map whose number is known at its end takes the place of one byte then (`placed_heads`).
//!   [`spell`] and [`spell_all`] hand it nodes.
//! - `heads` reads and writes single heads. [`integers_at`] tells integers with the shortest heads by
//!   their first bytes (`short_integers`).
//!
//! A reader of the definitions starts at `specs/Faults.antt`: where bytes are not well-formed, and
//! why. `cborn_model` defines which nodes well-formed bytes spell. `specs/SlotFaults.antt` has the
//! faults again, as the reader finds them: by a table over what is open (`specs/Slots.antt`).
//! `specs/Feeding.antt` is what contracts see of a feeder, `specs/Reading.antt` is about one item,
//! and `specs/Visits.antt` has the fault of a visit as these give it. `specs/devices` and
//! `specs/shared` serve the proofs. [`laws`] has what is proved of the definitions alone.
#![tactic(auto)]

mod counting;
mod faults;
mod feeders;
mod first_items;
mod head_readers;
mod heads;
pub mod laws;
mod leaves;
mod levels;
mod nodes;
mod placed_heads;
mod readers;
mod scanning;
mod short_integers;
mod spellers;
mod spelling;
mod visits;

pub use faults::{VisitFault, WireFault, WireReason};
pub use feeders::Feeder;
pub use first_items::{first_end, item_end};
pub use head_readers::{HeadReader, Until};
pub use heads::{Argument, Head, HeadRead, head_bytes, push_head, read_head};
pub use levels::{GrownLevels, Level, LevelKind, LevelTable, Levels};
pub use nodes::Nodes;
pub use placed_heads::set_head;
pub use readers::{read_all, read_one};
pub use scanning::{Nothing, scan};
pub use short_integers::{Integers, integers_at};
pub use spellers::Speller;
pub use spelling::{spell, spell_all};
pub use visits::visit;
