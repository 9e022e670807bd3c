//! A walk over the first bytes of an input: what is open at their end, and where the parts of that
//! begin. Heads with the bytes of their strings, and where an item ends.

ghost use Rattle.std.specs.Prelude.{◌≡◌, ◌≤◌, ◌⊎◌, length, IfOk, OnOk, Err, alloc_error};
ghost use Rattle.cborn_wire.specs.declared.faults.VisitFault.TheVariants.{Memory};
ghost use Rattle.cborn_explain.specs.devices.Walks.{step_of, path_of, place_at, IsWalked};

use crate::paths::{Path, Step};
use crate::quotes::slice_of;
use cborn_engine::Places;
use cborn_model::{Limit, Major};
use cborn_wire::{
    Argument, GrownLevels, Head, HeadRead, HeadReader, Level, LevelKind, Until, VisitFault,
    first_end, read_head,
};
use std::alloc::{AllocError, Global};

/// A walk from head to head, between two of them.
#[derive(Drop)]
pub(crate) struct Walk<'a> {
    pub(crate) bytes: &'a [u8],
    /// The input and what is open in it, the innermost last.
    levels: Vec<Level>,
    parts: Places,
    /// The offset in bytes of the head that comes next.
    pub(crate) at: usize,
}

impl<'a> Walk<'a> {
    /// A walk to the head that is at `place` or around it, or before it to one that isn't whole or allowed.
    pub(crate) fn to(alloc: Global, bytes: &'a [u8], place: usize) -> Result<Self, AllocError>
        requires { place ≤ length bytes.now }
        ensures { IfOk result (λ walk. IsWalked bytes.now place walk.at walk.levels.items) }
    {
        let mut reader = HeadReader::new(Limit::HIGHEST, 0);
        let mut levels = GrownLevels::new(alloc);
        let mut parts = Places::new(alloc);
        // a reader that refuses a head stands before it
        had_memory(reader.read(&mut levels, &mut parts, &bytes[..place], Until::End))?;
        let at = parts.string.unwrap_or(reader.next_head()) as usize;
        let levels = levels.into_vec()?;
        Ok(Walk {
            bytes,
            levels,
            parts,
            at,
        })
    }

    /// The path to the head that comes next.
    pub(crate) fn path(&self, alloc: Global) -> Result<Path, AllocError>
        ensures { IfOk result (λ path. path.steps.items ≡ path_of self.now.levels.items) }
    {
        let mut steps = Vec::new(alloc);
        for level in &self.levels {
            steps.push(step(level))?;
        }
        Ok(Path { steps })
    }

    /// The offset of the head of the level with this index, or of the head that comes next.
    pub(crate) fn place_of(&self, index: usize) -> usize
        ensures { result ≡ place_at self.now.levels.items index self.now.at }
    {
        match self.levels.get(index) {
            Some(level) => level.place as usize,
            None => self.at,
        }
    }

    /// The innermost level: an open container, or else the input.
    pub(crate) fn innermost(&self) -> Level {
        self.levels.last().copied().unwrap_or_default()
    }

    /// The offset of the item to which the next head belongs: a string in chunks or a bignum as a whole.
    pub(crate) fn item_place(&self) -> usize {
        let around = self.levels.iter().rev();
        let outermost = around.take_while(|level| holds_parts(**level)).last();
        outermost.map_or(self.at, |level| level.place as usize)
    }

    /// The last key in the level with this index, a map in which a value is next.
    pub(crate) fn key_at(&self, index: usize) -> &'a [u8] {
        let end = self.place_of(index.saturating_add(1));
        let (before, last) = self.last_two(index);
        slice_of(self.bytes, if last < end { last } else { before }, end)
    }

    /// Where the last key begins and ends in the innermost level, a map in which a key is next.
    pub(crate) fn last_key(&self) -> (usize, usize) {
        self.last_two(self.levels.len().saturating_sub(1))
    }

    /// Where the last two parts begin of the level with this index.
    fn last_two(&self, index: usize) -> (usize, usize) {
        let (before, last) = *self.parts.around.get(index).unwrap_or(&self.parts.last);
        (before as usize, last as usize)
    }
}

/// Fails if memory was refused to a reader.
fn had_memory(read: Result<usize, VisitFault>) -> Result<(), AllocError>
    ensures { OnOk result (read ≡ Err (Memory alloc_error) → ⊥) }
{
    match read {
        Err(VisitFault::Memory(refused)) => Err(refused),
        _ => Ok(()),
    }
}

/// Whether a level holds chunks of a string or the bytes of a bignum: parts of one value.
pub(crate) fn holds_parts(level: Level) -> bool {
    match level.kind {
        LevelKind::Chunks(_) => true,
        LevelKind::Tag => level.argument == 2 || level.argument == 3,
        _ => false,
    }
}

/// The step to the next part of a level.
fn step(level: &Level) -> Step
    ensures { result ≡ step_of level.now }
{
    let parts = level.parts();
    match level.kind {
        LevelKind::Sequence => Step::Item(parts),
        LevelKind::Array | LevelKind::EndlessArray => Step::Element(parts),
        LevelKind::Tag => Step::Content(u128::from(level.argument)),
        LevelKind::Chunks(_) => Step::Chunk(parts),
        _ if parts % 2 == 0 => Step::Key(parts / 2),
        _ => Step::Value(parts / 2),
    }
}

/// The offset as an index: at most the length of the bytes.
pub(crate) fn place_in(bytes: &[u8], place: u64) -> usize
    ensures within { result ≤ length bytes.now }
    ensures place { (result ≡ place) ⊎ ((result ≡ length bytes.now) × (length bytes.now ≤ place)) }
{
    place.min(bytes.len() as u64) as usize
}

/// The head at the start of the bytes, and its length with the content of its string. `None`: none is whole.
pub(crate) fn whole_head(bytes: &[u8]) -> Option<(Head, usize)> {
    let HeadRead::Full(head, len) = read_head(bytes) else {
        return None;
    };
    let content = content_len(head);
    let is_whole = content <= bytes.len().saturating_sub(len) as u64;
    is_whole.then_some((head, len.saturating_add(content as usize)))
}

/// How many bytes of content follow the head of a string. 0: it is no such head, or of indefinite length.
pub(crate) fn content_len(head: Head) -> u64 {
    match (head.major_type(), head.argument) {
        (Major::ByteString | Major::TextString, Argument::Given(_, count)) => count,
        _ => 0,
    }
}

/// The content of the string that some bytes begin with. Empty where they begin with none.
pub(crate) fn content_of(bytes: &[u8]) -> &[u8] {
    whole_head(bytes).map_or(&[], |(head, len)| {
        slice_of(bytes, len.saturating_sub(content_len(head) as usize), len)
    })
}

/// Where the item at `at` ends, or the offset of the first head there that isn't whole or isn't allowed.
pub(crate) fn end_of_item(alloc: Global, bytes: &[u8], at: usize) -> Result<usize, AllocError> {
    let rest = slice_of(bytes, at, bytes.len());
    let end = match first_end(alloc, rest)? {
        Some(end) => end,
        None => Walk::to(alloc, rest, rest.len())?.at,
    };
    Ok(at.saturating_add(end))
}

/// The bytes of the item at an offset; of one that isn't whole or isn't allowed, those before that head.
pub(crate) fn item_at(alloc: Global, bytes: &[u8], at: usize) -> Result<&[u8], AllocError> {
    Ok(slice_of(bytes, at, end_of_item(alloc, bytes, at)?))
}
