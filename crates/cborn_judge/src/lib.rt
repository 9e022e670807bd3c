//! What items mean: validity, and the check for the deterministic encoding (RFC 8949 sections 4.2
//! and 5.3).
//!
//! Two questions are answered about items. *Do they mean something?* *Do they spell their
//! deterministic encodings?* One visitor answers both, whatever the items are read from:
//! [`Encoder`] takes them head by head, writes what they are encoded as, and keeps the first flaw
//! and the first defect. `levels`, `pairs` and `marks` are what it keeps of open containers, `hints`
//! are numbers by which most keys are sorted, `ends` says how containers end, and `spellings` has the
//! defects of single heads. [`Follower`] writes nothing, and sees whether bytes are their own encodings.
//! [`judge`] hands the encoder a node, and builds the item of one that means something (`judgments`,
//! `strings`); [`first_defect`] tells the first defect of a node (`checks`). A flaw is an
//! [`InvalidReason`] at a place (`faults`), and a defect a [`DefectReason`] at one (`defects`).
//!
//! A reader of the definitions starts at `specs/Flaws.antt` (what is wrong with a node, and what
//! comes first) and `specs/Defects.antt` (where a spelling departs from the deterministic
//! encoding), with `specs/Reasons.antt` for the numbers; `cborn_model` defines what a node means.
//! Devices of the proofs are in `specs/devices/`. [`laws`] has what is proved of the definitions: no
//! flaw means an item, and no defect the deterministic encoding.
#![tactic(auto)]

mod checks;
mod defects;
mod encoders;
mod ends;
mod faults;
mod followers;
mod hints;
mod judgments;
pub mod laws;
mod levels;
mod marks;
mod open_maps;
mod pairs;
mod spellings;
mod strings;

pub use cborn_model::{Fault, earlier, earliest};
pub use checks::first_defect;
pub use defects::{Defect, DefectReason};
pub use encoders::{EncodedItems, Encoder};
pub use faults::{Invalid, InvalidReason};
pub use followers::{Follower, Input};
pub use judgments::{judge, judge_all};
