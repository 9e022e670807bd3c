//! The lines on where two sequences of items differ, and what each has there.

ghost use Rattle.std.specs.Prelude.{◌≡◌, [], IfOk};
ghost use Rattle.std.specs.String.{string_bytes};

use crate::byte_causes::plural;
use crate::byte_walks::{Walk, content_of, end_of_item, item_at, whole_head};
use crate::comparisons::Compared;
use crate::faults::Found;
use crate::first_differences::{Difference, common_len, walk_to_difference};
use crate::items::ItemReader;
use crate::paths::{Pairs, Step, path_line};
use crate::quotes::{Hex, Text, slice_of};
use cborn_model::{KeyOrder, Limit, Major};
use cborn_wire::{Argument, LevelKind};
use std::alloc::{AllocError, Global};
use std::cmp::Ordering;

/// How many bytes, from the first that differs on, are written of items whose notations are cut to one text.
const REST: usize = 8;

/// Lines that say where two inputs differ. `first` and `second` are their deterministic encodings,
/// with the keys of maps in the order `O`. The lines give the path to the first place at which these
/// differ, or to the outermost key around it, and where that is in each input, with what is there. Of
/// two arrays or maps of different lengths they give the first element or key that only one has.
/// Empty where the encodings are equal.
///
/// # Errors
/// `AllocError` where memory is refused.
pub fn explain_difference<'a, O: KeyOrder>(
    alloc: Global,
    limit: Limit,
    inputs: (Compared<'a>, Compared<'a>),
    first: &'a [u8],
    second: &'a [u8],
) -> Result<String, AllocError>
    ensures same { IfOk result (λ text. first.now ≡ second.now → string_bytes text ≡ []) }
{
    let items = &ItemReader { alloc, limit };
    let Some((walk, difference)) = walk_to_difference(alloc, first, second)? else {
        return Ok(String::new(alloc));
    };
    let mut ours = Side::new(items, inputs.0, first, (&walk, &difference))?;
    let mut theirs = Side::new(items, inputs.1, second, (&walk, &difference))?;
    let is_key = matches!(difference.path.steps.last(), Some(Step::Key(_)));
    let order = is_key.then_some(O::compare(ours.item, theirs.item));
    let path = path_line(items, &walk, &difference.path, Pairs::Named)?;
    let first = ours.line(order, &theirs)?;
    let second = theirs.line(order.map(Ordering::reverse), &ours)?;
    let lone = if is_key {
        String::new(alloc)
    } else {
        lone_parts::<O>(&mut ours, &mut theirs)?
    };
    format!(in alloc; "  path   {path}\n  first  {first}\n  second {second}{lone}\n")
}

/// What one of two inputs has where they differ.
#[derive(Drop)]
struct Side<'a> {
    items: &'a ItemReader,
    input: Compared<'a>,
    /// The deterministic encoding of the item. Empty where the items end.
    item: &'a [u8],
    notation: String,
    /// The offset of the item in the bytes that the input spells, or of a part of it that was entered.
    at: usize,
    /// The path that leads there.
    steps: Vec<Step>,
}

impl<'a> Side<'a> {
    /// The side of the input whose items are encoded as `encoded`, which differs from the other there.
    fn new(
        items: &'a ItemReader,
        input: Compared<'a>,
        encoded: &'a [u8],
        (walk, difference): (&Walk<'_>, &Difference),
    ) -> Result<Side<'a>, AllocError> {
        let item = item_at(items.alloc, encoded, difference.place as usize)?;
        let (notation, steps) = (items.notation(item)?, Vec::new(items.alloc));
        let mut side = Side {
            items,
            input,
            item,
            notation,
            at: 0,
            steps,
        };
        for (i, step) in difference.path.steps.iter().enumerate() {
            let key = match *step {
                Step::Value(_) => walk.key_at(i),
                _ => item,
            };
            side.enter(*step, key)?;
        }
        Ok(side)
    }

    /// Goes on to a part of what begins here: to that with this index, or to the pair of an encoded key.
    fn enter(&mut self, step: Step, key: &[u8]) -> Result<(), AllocError> {
        let bytes = self.input.spelled;
        if !matches!(step, Step::Item(_)) {
            let head = whole_head(slice_of(bytes, self.at, bytes.len()));
            self.at = self.at.saturating_add(head.map_or(0, |(_, len)| len));
        }
        let (step, skipped) = match step {
            Step::Item(index) | Step::Element(index) => (step, index),
            Step::Key(_) => (Step::Key(self.find(key)?), 0),
            Step::Value(_) => (Step::Value(self.find(key)?), 1),
            _ => (step, 0),
        };
        for _ in 0..skipped {
            self.at = end_of_item(self.items.alloc, bytes, self.at)?;
        }
        self.steps.push(step)?;
        Ok(())
    }

    /// Goes to the key of this map that is the same as an encoded one, and answers the index of its pair.
    fn find(&mut self, key: &[u8]) -> Result<u64, AllocError> {
        let found = self.items.find_key(self.input.spelled, self.at, key)?;
        let (index, at) = found.unwrap_or((0, self.at));
        self.at = at;
        Ok(index)
    }

    /// Where the item is, and its notation, or where those of both are the same text the bytes that differ.
    /// `order` is how a key compares with that of the other side: the lesser is missing in the other map.
    fn line(&self, order: Option<Ordering>, other: &Side<'_>) -> Text {
        let (alloc, notation) = (self.items.alloc, self.notation.as_str());
        let place = self.input.place(self.items, self.at, &self.steps)?;
        if self.item.is_empty() {
            return format!(in alloc; "nothing: the items end {place}");
        }
        if let (None, Some((kind, count))) = (order, count_of(self.item)) {
            return format!(in alloc; "{place}: {kind} of {count}: {notation}");
        }
        let key = if order.is_some() { "the key " } else { "" };
        let rest = if notation == other.notation.as_str() {
            rest(alloc, self.item, other.item)?
        } else {
            String::new(alloc)
        };
        let lacks = match order {
            Some(Ordering::Less) => ", which the other map lacks",
            _ => "",
        };
        format!(in alloc; "{place}: {key}{notation}{rest}{lacks}")
    }

    /// Enters an element or a key: a line on where it is, and its notation. `part` is its encoding.
    fn part_line(&mut self, name: &str, step: Step, part: &[u8]) -> Text {
        self.enter(step, part)?;
        let alloc = self.items.alloc;
        let place = self.input.place(self.items, self.at, &self.steps)?;
        let notation = self.items.notation(part)?;
        match step {
            Step::Element(index) => format!(in alloc;
                "\n  part   [{index}] of the {name} {place}: {notation}"
            ),
            _ => format!(in alloc; "\n  key    of the {name} {place}: {notation}"),
        }
    }
}

/// The kind and the length of an encoded array or map. `None`: it is neither.
fn count_of(item: &[u8]) -> Option<(&'static str, u64)> {
    let (head, _) = whole_head(item)?;
    match (head.major_type(), head.argument) {
        (Major::Array, Argument::Given(_, count)) => Some(("an array", count)),
        (Major::Map, Argument::Given(_, count)) => Some(("a map", count)),
        _ => None,
    }
}

/// The bytes from the first that differs on: of two strings those of the content, else of the encoding.
fn rest(alloc: Global, ours: &[u8], theirs: &[u8]) -> Text {
    let (left, right, what) = match (content_of(ours), content_of(theirs)) {
        ([], _) | (_, []) => (ours, theirs, "its encoding "),
        (left, right) => (left, right, ""),
    };
    let len = common_len(left, right);
    if what.is_empty() && len == left.len() {
        return format!(in alloc; ", of {len} byte{}", plural(len as u64));
    }
    let bytes = Hex(slice_of(left, len, left.len()), REST);
    format!(in alloc; ", {what}from byte {len} on: {bytes}")
}

/// Lines on the first part that only one of two arrays or of two maps has, or on elements that differ.
fn lone_parts<O: KeyOrder>(ours: &mut Side<'_>, theirs: &mut Side<'_>) -> Text {
    let alloc = ours.items.alloc;
    let Some((step, order, left, right)) = lone_part::<O>(alloc, ours.item, theirs.item)? else {
        return Ok(String::new(alloc));
    };
    let (mut first, mut second) = (String::new(alloc), String::new(alloc));
    if order != Ordering::Greater {
        first = ours.part_line("first", step, left)?;
    }
    if order != Ordering::Less {
        second = theirs.part_line("second", step, right)?;
    }
    let lacks = match order {
        Ordering::Less => ", which the second lacks",
        Ordering::Equal => "",
        Ordering::Greater => ", which the first lacks",
    };
    format!(in alloc; "{first}{second}{lacks}")
}

/// The step to a part, which of two has it alone (`Less`: the first), and the encodings that they have there.
type Parts<'a> = (Step, Ordering, &'a [u8], &'a [u8]);

/// The first part that only one of two encoded arrays or of two maps has, or the first elements that differ.
fn lone_part<'a, O: KeyOrder>(alloc: Global, left: &'a [u8], right: &'a [u8]) -> Found<Parts<'a>> {
    let (Some((head, start)), Some((other, begin))) = (whole_head(left), whole_head(right)) else {
        return Ok(None);
    };
    let (left, right) = (
        slice_of(left, start, left.len()),
        slice_of(right, begin, right.len()),
    );
    match (head.major_type(), other.major_type()) {
        (Major::Array, Major::Array) => lone_element(alloc, left, right),
        (Major::Map, Major::Map) => lone_key::<O>(alloc, left, right),
        _ => Ok(None),
    }
}

/// The first element that only one of two lists has, where the rest is the same, or else those that differ.
fn lone_element<'a>(alloc: Global, left: &'a [u8], right: &'a [u8]) -> Found<Parts<'a>> {
    let Some((walk, difference)) = walk_to_difference(alloc, left, right)? else {
        return Ok(None);
    };
    let Some(Step::Item(index)) = difference.path.steps.first().copied() else {
        return Ok(None);
    };
    let at = walk.place_of(1);
    let (left, right) = (
        slice_of(left, at, left.len()),
        slice_of(right, at, right.len()),
    );
    let order = if ends_with_items(alloc, left, right)? {
        Ordering::Less
    } else if ends_with_items(alloc, right, left)? {
        Ordering::Greater
    } else {
        Ordering::Equal
    };
    let (left, right) = (item_at(alloc, left, 0)?, item_at(alloc, right, 0)?);
    Ok(Some((Step::Element(index), order, left, right)))
}

/// Whether `items` are one or more items and then those of `last`.
fn ends_with_items(alloc: Global, items: &[u8], last: &[u8]) -> Result<bool, AllocError> {
    let len = items.len().saturating_sub(last.len());
    if len == 0 || !items.ends_with(last) {
        return Ok(false);
    }
    let walk = Walk::to(alloc, items, len)?;
    Ok(walk.at == len && walk.innermost().kind == LevelKind::Sequence)
}

/// The first key that only one of two lists of pairs has.
fn lone_key<'a, O: KeyOrder>(
    alloc: Global,
    mut left: &'a [u8],
    mut right: &'a [u8],
) -> Found<Parts<'a>> {
    'pairs: for _ in 0..left.len().saturating_add(right.len()) {
        let (ours, theirs) = (item_at(alloc, left, 0)?, item_at(alloc, right, 0)?);
        let order = match (ours, theirs) {
            ([], []) => break,
            (_, []) => Ordering::Less,
            ([], _) => Ordering::Greater,
            _ => O::compare(ours, theirs),
        };
        if order != Ordering::Equal {
            return Ok(Some((Step::Key(0), order, ours, theirs)));
        }
        left = slice_of(left, end_of_item(alloc, left, ours.len())?, left.len());
        right = slice_of(right, end_of_item(alloc, right, theirs.len())?, right.len());
    }
    Ok(None)
}
