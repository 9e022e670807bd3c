//! What is said of two inputs that were compared, and where their parts are.

use crate::differences::explain_difference;
use crate::faults::answered;
use crate::items::ItemReader;
use crate::paths::Step;
use crate::quotes::{At, Text, valid_front};
use crate::same_items::explain_same;
use crate::text_walks::NotationText;
use cborn_edn::read_notation;
use cborn_engine::{Count, CountFault, EngineFault, Kind, normalise_slice, show_slice};
use cborn_model::{Form, KeyOrder, Limit, Spelled};
use std::alloc::{AllocError, Global};

/// Lines that say where two inputs differ: in their items, or, where they hold the same, in how these
/// are encoded. Empty where both spell the same bytes, and where one of them is refused. `kinds` are
/// their formats, and `O` is the order of keys in which maps are gone through. `are_same` is what
/// another call answered that compared the items under this limit.
///
/// # Errors
/// `AllocError` where memory is refused.
pub fn explain_comparison<O: KeyOrder>(
    alloc: Global,
    limit: Limit,
    kinds: (Kind, Kind),
    inputs: (&[u8], &[u8]),
    are_same: bool,
) -> Result<String, AllocError> {
    let lines = answered(compared_lines::<O>(alloc, limit, kinds, inputs, are_same))?;
    // a compared input isn't refused
    Ok(lines.unwrap_or(String::new(alloc)))
}

/// What [`explain_comparison`] gives of two inputs.
fn compared_lines<O: KeyOrder>(
    alloc: Global,
    limit: Limit,
    kinds: (Kind, Kind),
    (first, second): (&[u8], &[u8]),
    are_same: bool,
) -> Result<String, CountFault> {
    let spelled = &show_slice(alloc, limit, Count::Any, kinds.0, Kind::Wire, first)?;
    let text = NotationText::of(kinds.0, first);
    let ours = Compared { spelled, text };
    let spelled = &show_slice(alloc, limit, Count::Any, kinds.1, Kind::Wire, second)?;
    let text = NotationText::of(kinds.1, second);
    let theirs = Compared { spelled, text };
    if are_same {
        return Ok(explain_same(alloc, limit, ours, theirs)?);
    }
    let first = normalise_slice::<O>(alloc, limit, Count::Any, kinds.0, Kind::Wire, first)?;
    let second = normalise_slice::<O>(alloc, limit, Count::Any, kinds.1, Kind::Wire, second)?;
    Ok(explain_difference::<O>(alloc, limit, (ours, theirs), &first, &second)?)
}

/// One of two inputs that are compared.
#[derive(Clone, Copy)]
pub struct Compared<'a> {
    /// The bytes that it is, or that its text spells.
    pub spelled: &'a [u8],
    /// The text, where it is one.
    pub text: Option<NotationText<'a>>,
}

impl Compared<'_> {
    /// Where a part of the input begins: of bytes the offset, of a text the line and the column too. It is
    /// at the offset `at` of the bytes that the input spells, and `steps` lead to it.
    pub(crate) fn place(&self, items: &ItemReader, at: usize, steps: &[Step]) -> Text {
        let alloc = items.alloc;
        let Some(input) = self.text else {
            return format!(in alloc; "at offset {at}");
        };
        let text = valid_front(input.text);
        let nodes = read_notation(alloc, items.limit, input.profile, text);
        let nodes = nodes.map_err(|why| CountFault::Engine(EngineFault::from(why)));
        let place = match answered(nodes)? {
            Some(nodes) => place_of(&nodes, steps).map_or(text.len(), |place| place as usize),
            // a compared input isn't refused
            None => 0,
        };
        let at = At(input.text, place);
        format!(in alloc; "at {at} (offset {place})")
    }
}

/// The place of the part to which a path leads: at the end of chunks that of their string. `None`: the end.
fn place_of(nodes: &[Spelled], steps: &[Step]) -> Option<u64> {
    let [Step::Item(index), inner @ ..] = steps else {
        return None;
    };
    let mut node = nodes.get(*index as usize)?.node();
    for step in inner {
        node = match (*step, &node.form) {
            (Step::Element(index), Form::Items(_, items)) => items.get(index as usize)?,
            (Step::Key(index), Form::Pairs(_, pairs)) => &pairs.get(index as usize)?.0,
            (Step::Value(index), Form::Pairs(_, pairs)) => &pairs.get(index as usize)?.1,
            (Step::Content(_), Form::Tagged(_, _, content)) => content,
            (Step::Chunk(index), Form::ByteChunks(chunks) | Form::TextChunks(chunks)) => {
                let chunk = chunks.get(index as usize);
                return Some(chunk.map_or(node.place, |chunk| chunk.place));
            }
            _ => return Some(node.place),
        };
    }
    Some(node.place)
}
