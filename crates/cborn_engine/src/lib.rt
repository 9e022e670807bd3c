//! Sequences of data items (RFC 8742) end to end: from readers to writers.
//!
//! [`load`] reads a whole input, bytes or notation ([`Kind`]), and gives its items as they are
//! spelled. [`normalise`] and [`show_all`] go on to a writer; [`compare`] and [`check`] answer.
//! What is read from is a [`Source`], what is written to a [`Sink`], both of which count their
//! failures; [`Counted`] makes them of the readers and writers of std. `whole_inputs` reads all of
//! an input, `pieces` the next piece of one that isn't kept, and `outputs` writes a whole answer and
//! flushes it. `specs/Failures.antt` says how the counts go on, `specs/Collecting.antt` and
//! `specs/Writing.antt` what was taken from a reader and given to a writer, and `specs/Streams.antt`
//! what both do around the answer of a call over what is held.
//!
//! A reader of the definitions starts at `specs/Holding.antt` (what an input holds, and its
//! canonical form) and `specs/Canonical.antt` (the headline). `Refusing` says why an input is
//! refused; `Loading`, `Showing`, `Comparing` and `Checking` say what the other calls answer.
//! [`laws`] has the headline in one place. In the code `texts` makes texts, bytes and nodes of
//! what was read, and `inputs` hands nodes out. `piece_judges` encodes bytes that come in
//! pieces and finds their first flaw or defect, in one look that keeps no tree (`cborn_judge`);
//! `judgments` does so with bytes that are held, and `judged_inputs` with those of a reader, which
//! are kept whole only where they may be their own encodings; `answered_inputs` says what is answered
//! for either. `encodings` encodes a whole input, `showings` writes it in another form (`cborn_edn`),
//! `checks` looks whether it is deterministic, and `refusals` says why an input is refused. `fronts`
//! sees whether bytes are their own encodings.
//! `conversions`, `comparisons` and `checks` have the calls over readers of any number of items,
//! `counted_streams` those with a count, and `slices` those over inputs that are held whole;
//! `differences` finds where two encodings differ.
//!
//! [`Items`] cuts bytes into their items, one after another (`specs/Items.antt`).
//!
//! How many items an input has to hold ([`Count`]) is an argument of the calls over slices, and of
//! those of `counted_streams` over readers; `specs/Counts.antt` says what they answer.
#![tactic(auto)]

mod answered_inputs;
mod checks;
mod comparisons;
mod conversions;
mod count_faults;
mod counted_streams;
mod counters;
mod counts;
mod differences;
mod encodings;
mod faults;
mod fronts;
mod inputs;
mod items;
mod judged_inputs;
mod judgments;
mod kinds;
pub mod laws;
mod outputs;
mod piece_judges;
mod pieces;
mod places;
mod refusals;
mod showings;
mod sinks;
mod slices;
mod sources;
mod stream_faults;
mod texts;
mod whole_inputs;

pub use checks::check;
pub use comparisons::compare;
pub use conversions::{normalise, show_all};
pub use count_faults::{CompareCountFault, CountFault};
pub use counted_streams::{check_stream, compare_streams, normalise_stream, show_stream};
pub use counters::Counted;
pub use counts::Count;
pub use faults::{CompareFault, EngineFault};
pub use inputs::{load, load_within};
pub use items::Items;
pub use kinds::Kind;
pub use places::Places;
pub use sinks::Sink;
pub use slices::{check_slice, compare_slices, normalise_slice, same_items, show_slice};
pub use sources::Source;
