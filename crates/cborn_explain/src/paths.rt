//! Paths: where an offset in some bytes is among their items, and how that is written in a line.

ghost use Rattle.std.specs.Prelude.{IfOk};
ghost use Rattle.cborn_explain.specs.Paths.{LeadsTo};

use crate::byte_walks::{Walk, place_in};
use crate::items::ItemReader;
use crate::quotes::Text;
use std::alloc::{AllocError, Global};
use std::fmt::Display;

/// A step of a path: from an item to one of its parts. Parts are counted from 0.
#[derive(Clone, Copy, PartialEq, Eq, Debug)]
pub enum Step {
    /// To the item of the input with this index.
    Item(u64),
    /// To the element of an array with this index.
    Element(u64),
    /// To the key of the pair of a map with this index.
    Key(u64),
    /// To the value of the pair of a map with this index.
    Value(u64),
    /// To the content of a tag with this number.
    Content(u128),
    /// To the chunk with this index of a string of indefinite length.
    Chunk(u64),
    /// To the item with this index of a byte string that a text writes as `<<..>>`.
    Embedded(u64),
}

/// A path: the step to an item of the input, and then the steps inwards, the innermost last.
#[derive(Drop)]
pub struct Path {
    pub steps: Vec<Step>,
}

/// The path to `place`, an offset in bytes from the start of `bytes` (RFC 8949 section 3). It leads
/// to the head that begins there, or to the one whose argument or string the place is in. Where the
/// bytes before the place aren't well-formed, it leads to the first head that isn't whole, isn't
/// allowed, or is deeper than the highest nesting limit.
///
/// # Errors
/// `AllocError` where memory for the path is refused.
pub fn path_to(alloc: Global, bytes: &[u8], place: u64) -> Result<Path, AllocError>
    ensures leads { IfOk result (λ path. LeadsTo bytes.now place path.steps.items) }
{
    let walk = Walk::to(alloc, bytes, place_in(bytes, place))?;
    walk.path(alloc)
}

/// How pairs are written in a path: with their indexes, or by keys alone, as two inputs may have others.
#[derive(Clone, Copy, PartialEq, Eq)]
pub(crate) enum Pairs {
    Numbered,
    Named,
}

/// The steps of a path in a line. `walk` is a walk over the bytes whose path it is, or a front of it.
pub(crate) fn path_line(items: &ItemReader, walk: &Walk<'_>, path: &Path, pairs: Pairs) -> Text {
    let mut steps = Vec::new(items.alloc);
    for (i, step) in path.steps.iter().enumerate() {
        let key = match step {
            Step::Value(_) => items.notation(walk.key_at(i))?,
            _ => String::new(items.alloc),
        };
        steps.push(step_text(items.alloc, *step, &key, pairs)?)?;
    }
    joined(items.alloc, &steps, "")
}

/// The texts of steps, and then `end`. Of those in a row that are alike there is one, with their count.
pub(crate) fn joined(alloc: Global, steps: &[String], end: &str) -> Text {
    let mut path = String::new(alloc);
    for run in steps.chunk_by(|step, next| step.as_str() == next.as_str()) {
        if let [step, ..] = run {
            let gap = if path.is_empty() { "" } else { " " };
            write!(path, "{gap}{step}")?;
        }
        let times = run.len();
        if times > 1 {
            write!(path, "*{times}")?;
        }
    }
    path.push_str(end)?;
    Ok(path)
}

/// The text of a step. `key` displays as the key where the step leads to a value of a map.
pub(crate) fn step_text<K: Display>(alloc: Global, step: Step, key: &K, pairs: Pairs) -> Text {
    match step {
        Step::Key(_) if pairs == Pairs::Named => format!(in alloc; "{{key}}"),
        Step::Value(_) if pairs == Pairs::Named => format!(in alloc; "{{{key}}}"),
        Step::Item(index) => format!(in alloc; "item {index}"),
        Step::Element(index) => format!(in alloc; "[{index}]"),
        Step::Key(index) => format!(in alloc; "{{key #{index}}}"),
        Step::Value(index) => format!(in alloc; "{{{key} #{index}}}"),
        Step::Content(number) => format!(in alloc; "{number}()"),
        Step::Chunk(index) => format!(in alloc; "(_ #{index})"),
        Step::Embedded(index) => format!(in alloc; "<<{index}>>"),
    }
}
