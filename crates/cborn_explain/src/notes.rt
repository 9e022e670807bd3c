//! The lines of an explanation: where, what is there, and why.

use crate::byte_causes::RefusedBytes;
use crate::byte_walks::place_in;
use crate::faults::place_of;
use crate::hints::hint_of;
use crate::items::ItemReader;
use crate::paths::{Pairs, Step, joined, path_line, step_text};
use crate::quotes::{CutNotation, Text, hex_around, slice_of, text_around};
use crate::text_causes::RefusedText;
use crate::text_spots::spot_of;
use crate::text_walks::{NotationText, TextWalk, walk_text};
use cborn_edn::EdnFault;
use cborn_engine::{CountFault, EngineFault, Kind};
use cborn_judge::Defect;
use cborn_lex::LexFault;
use cborn_model::Limit;
use std::alloc::{AllocError, Global};

/// Lines that say where an input is refused, and why. Another call reported the fault of this input, which
/// is read as `kind`, under the same limit. Of bytes they are the path to the offset of the fault, the bytes
/// around it, a sentence, and a hint where the bytes look like a text. Of a text they are the path, the line
/// and the column of the offset, that line with a mark below, and a sentence; where a whole token was
/// reported, the mark is at the character within it that is at fault. An offset beyond the end counts as
/// the end. Empty where the fault isn't in the content of the input.
///
/// # Errors
/// `AllocError` where memory is refused.
pub fn explain_fault(
    alloc: Global,
    limit: Limit,
    kind: Kind,
    input: &[u8],
    fault: CountFault,
) -> Result<String, AllocError> {
    let items = ItemReader { alloc, limit };
    let Some(place) = place_of(fault) else {
        return Ok(String::new(alloc));
    };
    let Some(text) = NotationText::of(kind, input) else {
        let refused = RefusedBytes::at(items, input, place)?;
        return lines_of_bytes(&refused, &refused.fault(fault)?);
    };
    lines_of_text(&items, text, place_in(input, place), fault)
}

/// Lines that say where bytes aren't deterministic, and why: those of [`explain_fault`] for the first
/// defect of the bytes, which another call reported.
///
/// # Errors
/// `AllocError` where memory is refused.
pub fn explain_defect(
    alloc: Global,
    limit: Limit,
    bytes: &[u8],
    defect: Defect,
) -> Result<String, AllocError> {
    let refused = RefusedBytes::at(ItemReader { alloc, limit }, bytes, defect.place)?;
    lines_of_bytes(&refused, &refused.defect(defect.reason)?)
}

/// The lines on some bytes. `why` is the sentence.
fn lines_of_bytes(refused: &RefusedBytes<'_>, why: &str) -> Text {
    let (alloc, walk) = (refused.items.alloc, &refused.walk);
    let path = path_line(&refused.items, walk, &walk.path(alloc)?, Pairs::Numbered)?;
    let around = hex_around(alloc, walk.bytes, refused.place)?;
    let mut lines = format!(in alloc; "  path  {path}\n  bytes {around}\n  why   {why}\n")?;
    if let Some(hint) = hint_of(walk.bytes) {
        write!(lines, "  hint  {hint}\n")?;
    }
    Ok(lines)
}

/// The lines on a text. `place` is the offset of the fault.
fn lines_of_text(
    items: &ItemReader,
    input: NotationText<'_>,
    place: usize,
    fault: CountFault,
) -> Text {
    let (alloc, text) = (items.alloc, input.text);
    let walk = &walk_text(alloc, input, place)?;
    let spot = match fault {
        CountFault::Engine(EngineFault::Edn(EdnFault::Lex(LexFault::Refused { reason, .. }))) =>
            spot_of(text, place, reason),
        _ => place,
    };
    let refused = RefusedText {
        input,
        items,
        place,
        spot,
        walk,
    };
    let path = text_path(alloc, text, walk)?;
    let around = text_around(alloc, text, spot)?;
    let why = refused.fault(fault)?;
    format!(in alloc; "  path  {path}\n{around}  why   {why}\n")
}

/// The path to where a walk over a text has come, cut before a bracket that isn't kept, or whose parts.
fn text_path(alloc: Global, text: &[u8], walk: &TextWalk) -> Text {
    let mut steps = Vec::new(alloc);
    steps.push(step_text(alloc, Step::Item(walk.items), &"", Pairs::Numbered)?)?;
    for open in walk.open.iter().take_while(|open| !open.is_lost) {
        if let Some(step) = open.step() {
            let key = CutNotation(slice_of(text, open.key.0, open.key.1));
            steps.push(step_text(alloc, step, &key, Pairs::Numbered)?)?;
        }
    }
    let is_cut = walk.beyond > 0 || walk.open.iter().any(|open| open.is_lost);
    joined(alloc, &steps, if is_cut { " .." } else { "" })
}
