//! What is open while items are encoded, and how it opens.

ghost use Rattle.std.specs.Prelude.{◌≡◌, OnOk};
ghost use Rattle.cborn_judge.specs.devices.Encoding.{head_of, opened, after, after_items, has_key, is_chunks};
ghost use Rattle.cborn_judge.specs.devices.Encoders.{OpensAs};

use crate::encoders::{Encoder, major_of};
use cborn_det::put_head;
use cborn_model::{KeyOrder, Major, Result, Size, StringKind, Width};

/// What an open container is.
#[derive(Clone, Copy)]
pub(crate) enum Container {
    /// The input, in which everything else is.
    Input,
    Array { size: Size, count: Option<u64> },
    Map { size: Size, count: Option<u64> },
    Tag { width: Width, number: u64 },
    /// A string of indefinite length.
    Chunks(StringKind),
}

impl Container {
    /// The major type of its head, and the argument if that is known from the start.
    #[inline(always)]
    pub(crate) fn head(self) -> (Major, Option<u64>)
        ensures { result ≡ head_of self }
    {
        match self {
            Container::Input => (Major::Other, None),
            Container::Array { count, .. } => (Major::Array, count),
            Container::Map { count, .. } => (Major::Map, count),
            Container::Tag { number, .. } => (Major::Tag, Some(number)),
            Container::Chunks(kind) => (major_of(kind), None),
        }
    }
}

/// An open container.
#[derive(Clone, Copy)]
pub(crate) struct Level {
    pub(crate) container: Container,
    /// The offset of its head in the input.
    pub(crate) place: u64,
    /// Where its encoding begins in the buffer.
    pub(crate) start: usize,
    /// Where what is in it begins there.
    pub(crate) content: usize,
    /// How many pairs are marked of the maps around it.
    pub(crate) pairs: usize,
    /// How many nodes are whole in it, modulo 2^64.
    pub(crate) count: u64,
    /// Whether a node in it means nothing.
    pub(crate) flawed: bool,
}

impl Level {
    /// A container in which nothing stands yet.
    #[inline(always)]
    pub(crate) fn new(container: Container, place: u64, start: usize, pairs: usize) -> Level
        ensures { result ≡ opened container place start pairs }
    {
        Level {
            container,
            place,
            start,
            content: start,
            pairs,
            count: 0,
            flawed: false,
        }
    }

    /// Counts one more whole node, which means nothing if it is `flawed`.
    #[inline(always)]
    pub(crate) fn add(&mut self, flawed: bool)
        ensures { self.new ≡ after self.old flawed }
    {
        self.count = self.count.wrapping_add(1);
        if flawed {
            self.flawed = true;
        }
    }

    /// Counts so many more whole items of an array, each of which means something.
    #[inline(always)]
    pub(crate) fn add_items(&mut self, count: u64)
        ensures { self.new ≡ after_items self.old count }
    {
        self.count = self.count.wrapping_add(count);
    }

    /// Whether a key came in it whose value is missing, if it is a map.
    #[inline(always)]
    pub(crate) fn has_key(&self) -> bool
        ensures { result ≡ has_key self.now }
    {
        self.count % 2 == 1
    }

    /// Whether it is a string of indefinite length.
    #[inline(always)]
    pub(crate) fn is_chunks(&self) -> bool
        ensures { result ≡ is_chunks self.now }
    {
        matches!(self.container, Container::Chunks(_))
    }
}

impl<O: KeyOrder> Encoder<O> {
    /// Opens a container at `place`, with its head, or a byte in the place of one not known yet.
    #[inline(always)]
    pub(crate) fn open(&mut self, container: Container, place: u64) -> Result<()>
        ensures { OnOk result (OpensAs O.order container place self.old self.new) }
    {
        if self.encodings.outer.len() != self.encodings.outer.capacity() {
            return self.open_level(container, place);
        }
        // a copy, so that the short way needs the container nowhere in memory
        let opened = container;
        self.open_slowly(opened, place)
    }

    /// What [`Encoder::open`] does where memory has to grow.
    #[inline(never)]
    fn open_slowly(&mut self, container: Container, place: u64) -> Result<()>
        ensures { OnOk result (OpensAs O.order container place self.old self.new) }
    {
        self.open_level(container, place)
    }

    /// What [`Encoder::open`] does.
    #[inline(always)]
    fn open_level(&mut self, container: Container, place: u64) -> Result<()>
        ensures { OnOk result (OpensAs O.order container place self.old self.new) }
    {
        let start = self.encodings.out.len();
        let level = Level::new(container, place, start, self.encodings.pairs.len());
        self.encodings.outer.push(self.encodings.innermost)?;
        self.encodings.innermost = level;
        let (major, argument) = container.head();
        put_head(major, argument.unwrap_or(0), &mut self.encodings.out)?;
        self.encodings.innermost.content = self.encodings.out.len();
        Ok(())
    }
}
