//! Explanations in lines for people: where an input is refused or isn't deterministic, and why.
//!
//! ```text
//! path  item 0 [1]
//! bytes 82 01 >f9< 3c 00
//! why   a float of 16 bits begins here, and floats are left out
//! ```
//!
//! Another call refused the input, and reported a fault. [`explain_fault`] is given it and the input, and
//! walks over that up to the offset: over bytes from head to head, over a text from token to token.
//! [`explain_defect`] does so for bytes that aren't deterministic. [`explain_comparison`] says where two
//! inputs hold other items, or encode the same ones differently. [`hint_of`] says whether bytes look like a
//! text, and [`Look`] does so of bytes that come in pieces.
//!
//! A path leads from item to part up to an offset ([`path_to`]), or to where two inputs differ
//! ([`find_difference`]). `specs/Paths.antt` defines where over the nodes that the bytes spell, and
//! it is proved that the paths lead there. The path is read off the levels that a `HeadReader` of
//! `cborn_wire` has open after the bytes before that offset. Of the lines it is proved that they are
//! written safely, that each call ends, and that equal bytes give none. No clause says which words
//! they have. docs/FORMATS.md has their form.
//!
//! - `notes`: the lines of one input; start here. `comparisons`: those of two. `differences`: of two that
//!   hold other items. `same_items`: of two that hold the same.
//! - `paths`: paths, that to an offset, and how they are written. `first_differences`: where two inputs differ.
//! - `byte_walks`: a walk over bytes to an offset. `text_walks`: one over a text from token to token.
//! - `faults`: the faults that are in the content of an input. `hints`: whether bytes look like a text.
//! - `byte_causes`, `text_causes`: the sentence for each reason. `text_spots`: the character within a token
//!   that is at fault. `quotes`: quoted pieces of the input. `items`: single items, read for the sentences.
#![tactic(auto)]

mod byte_causes;
mod byte_walks;
mod comparisons;
mod differences;
mod faults;
mod first_differences;
mod hints;
mod items;
mod notes;
mod paths;
mod quotes;
mod same_items;
mod text_causes;
mod text_spots;
mod text_walks;

pub use comparisons::{Compared, explain_comparison};
pub use differences::explain_difference;
pub use faults::place_of;
pub use first_differences::{Difference, find_difference};
pub use hints::{Hint, Look, hint_of};
pub use notes::{explain_defect, explain_fault};
pub use paths::{Path, Step, path_to};
pub use quotes::Escaped;
pub use same_items::explain_same;
pub use text_walks::NotationText;
