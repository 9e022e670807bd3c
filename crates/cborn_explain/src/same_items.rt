//! The lines on where two inputs that hold the same items are encoded differently.

ghost use Rattle.std.specs.Prelude.{◌≡◌, [], IfOk};
ghost use Rattle.std.specs.String.{string_bytes};

use crate::byte_causes::{plural, shortest_head};
use crate::byte_walks::{end_of_item, holds_parts};
use crate::comparisons::Compared;
use crate::first_differences::walk_to_difference;
use crate::items::ItemReader;
use crate::paths::{Pairs, path_line};
use crate::quotes::{Hex, Text, slice_of};
use cborn_model::{Limit, Major};
use cborn_wire::{Argument, HeadRead, Level, LevelKind, read_head};
use std::alloc::{AllocError, Global};

/// How many bytes of an item are written at most.
const ITEM: usize = 12;

/// Lines that say where two inputs that hold the same items differ in their bytes, or in those that
/// their texts spell: the path to the first byte that differs, and where it is in each input, with the
/// bytes there and how they encode the item. Where the keys of a map come in another order, the path
/// leads to the first such key. Empty where the bytes are equal.
///
/// # Errors
/// `AllocError` where memory is refused.
pub fn explain_same(
    alloc: Global,
    limit: Limit,
    first: Compared<'_>,
    second: Compared<'_>,
) -> Result<String, AllocError>
    ensures same { IfOk result (λ text. first.entry.spelled ≡ second.entry.spelled → string_bytes text ≡ []) }
{
    let items = &ItemReader { alloc, limit };
    let found = walk_to_difference(alloc, first.spelled, second.spelled)?;
    let Some((walk, difference)) = found else {
        return Ok(String::new(alloc));
    };
    let ours = items.encoded_at(first.spelled, walk.item_place())?;
    let theirs = items.encoded_at(second.spelled, walk.item_place())?;
    // the same items differ here only where the keys of a map come in another order
    let is_order = matches!((&ours, &theirs), (Some(ours), Some(theirs)) if **ours != **theirs);
    let (path, at, why) = if is_order {
        let why = "\n  why    the keys come in another order";
        (difference.path, difference.place as usize, why)
    } else {
        (walk.path(alloc)?, walk.at, "")
    };
    let level = (!is_order).then_some(walk.innermost());
    let ours = item_or_break(alloc, first.spelled, at)?;
    let theirs = item_or_break(alloc, second.spelled, at)?;
    let our_place = first.place(items, at, &path.steps)?;
    let their_place = second.place(items, at, &path.steps)?;
    let our_spelling = spelling(items, level, ours, theirs)?;
    let their_spelling = spelling(items, level, theirs, ours)?;
    let path = path_line(items, &walk, &path, Pairs::Numbered)?;
    format!(in alloc;
        "  path   {path}\n  first  {our_place}: {our_spelling}\n  second {their_place}: {their_spelling}{why}\n"
    )
}

/// The bytes of the item at an offset, of a chunk, or of the break that ends the chunks.
fn item_or_break(alloc: Global, bytes: &[u8], at: usize) -> Result<&[u8], AllocError> {
    let end = end_of_item(alloc, bytes, at)?;
    Ok(slice_of(bytes, at, end.max(at.saturating_add(1))))
}

/// The bytes of an item, and what its head does that the head of `other`, the same item in the other input,
/// doesn't. `level` is what it is in. `None`: it is a key, and the other input has another key there.
fn spelling(items: &ItemReader, level: Option<Level>, item: &[u8], other: &[u8]) -> Text {
    let (alloc, bytes) = (items.alloc, Hex(item, ITEM));
    let Some(level) = level else {
        let key = items.notation(item)?;
        return format!(in alloc; "{bytes}, the key {key}");
    };
    let (HeadRead::Full(head, _), HeadRead::Full(other, _)) = (read_head(item), read_head(other))
    else {
        return format!(in alloc; "{bytes}");
    };
    let major = head.major_type();
    let how = match (head.argument, other.argument) {
        (Argument::Endless, _) if major == Major::Other => "the end of the chunks",
        (Argument::Endless, _) => "an indefinite length",
        (Argument::Given(_, n), theirs) if is_other_length(level, n, theirs) => {
            let what = if level.kind == LevelKind::Tag {
                "bignum"
            } else {
                "chunk"
            };
            return format!(in alloc; "{bytes}, a {what} of {n} byte{}", plural(n));
        }
        _ if major == Major::Tag && other.major_type() != Major::Tag =>
            "a bignum that could be an integer",
        (Argument::Given(width, n), _) if !width.is_shortest_for(n) => {
            let short = shortest_head(alloc, major, n)?;
            return format!(in alloc; "{bytes}, a long head: {short} is the shortest");
        }
        (_, Argument::Endless) => "a definite length",
        _ => "the shortest head",
    };
    format!(in alloc; "{bytes}, {how}")
}

/// Whether a string of `n` bytes is part of one, or of a bignum, of which the other input has other parts.
fn is_other_length(level: Level, n: u64, other: Argument) -> bool {
    match other {
        Argument::Given(_, m) => holds_parts(level) && n != m,
        Argument::Endless => matches!(level.kind, LevelKind::Chunks(_)),
    }
}
