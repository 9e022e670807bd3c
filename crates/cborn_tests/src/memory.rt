//! Readers and writers over memory that fail at a chosen call.
ghost use Rattle.std.specs.Prelude.{Some};

use cborn_engine::{Sink, Source};
use std::alloc::{AllocError, Global};
use std::io;
use std::io::ErrorKind;

/// A reader that gives at most `step` bytes a call, fails at one call, and counts its calls.
#[derive(Drop)]
pub struct Bytes<'a> {
    pub rest: &'a [u8],
    step: usize,
    calls_to_failure: u64,
    failed: u64,
    pub calls: u64,
}

impl<'a> Bytes<'a> {
    /// A reader of these bytes that never fails.
    pub fn new(rest: &'a [u8], step: usize) -> Self {
        Bytes::failing(rest, step, u64::MAX)
    }

    /// A reader of these bytes that fails after this many calls.
    pub fn failing(rest: &'a [u8], step: usize, calls_to_failure: u64) -> Self {
        Bytes {
            rest,
            step,
            calls_to_failure,
            failed: 0,
            calls: 0,
        }
    }
}

impl Source for Bytes<'_> {
    ghost remaining = { λ b. Some b.rest.now };

    ghost failed = { λ b. b.failed };

    ghost asked = { λ b. b.calls };

    fn read_some(&mut self, buf: &mut [u8]) -> io::Result<usize> {
        self.calls = self.calls.saturating_add(1);
        if self.calls_to_failure == 0 {
            self.failed = self.failed.saturating_add(1);
            return Err(io::Error::from(ErrorKind::Interrupted));
        }
        self.calls_to_failure -= 1;
        let count = buf.len().min(self.step.max(1)).min(self.rest.len());
        let (now, later) = self.rest.split_at(count);
        buf[..count].copy_from_slice(now);
        self.rest = later;
        Ok(count)
    }

    fn failures(&self) -> u64 {
        self.failed
    }
}

/// What a writer does at its chosen call.
#[derive(Clone, Copy)]
pub enum Trouble {
    Nothing,
    Fails,
    TakesNothing,
    FailsToFlush,
}

/// The room of a writer in bytes. It is allocated at the start, so that no write needs memory.
const ROOM: usize = 1 << 14;

/// A writer into a vector that accepts at most `step` bytes a call, up to its trouble.
#[derive(Drop)]
pub struct Taken {
    pub bytes: Vec<u8>,
    step: usize,
    calls_to_trouble: u64,
    trouble: Trouble,
    failed: u64,
    pub writes: u64,
    pub flushes: u64,
}

impl Taken {
    /// A writer that accepts all bytes.
    pub fn new(alloc: Global) -> Result<Self, AllocError> {
        Taken::troubled(alloc, 4096, 0, Trouble::Nothing)
    }

    /// A writer that accepts `step` bytes a call, and has its trouble after this many calls.
    pub fn troubled(
        alloc: Global,
        step: usize,
        calls_to_trouble: u64,
        trouble: Trouble,
    ) -> Result<Self, AllocError> {
        Ok(Taken {
            bytes: Vec::with_capacity(alloc, ROOM)?,
            step,
            calls_to_trouble,
            trouble,
            failed: 0,
            writes: 0,
            flushes: 0,
        })
    }
}

impl Sink for Taken {
    ghost contents = { λ t. Some t.bytes.items };

    ghost failed = { λ t. t.failed };

    fn write_some(&mut self, piece: &[u8]) -> io::Result<usize> {
        self.writes = self.writes.saturating_add(1);
        if self.calls_to_trouble == 0 && matches!(self.trouble, Trouble::Fails) {
            self.failed = self.failed.saturating_add(1);
            return Err(io::Error::from(ErrorKind::Other));
        }
        if self.calls_to_trouble == 0 && matches!(self.trouble, Trouble::TakesNothing) {
            if !piece.is_empty() {
                self.failed = self.failed.saturating_add(1);
            }
            return Ok(0);
        }
        self.calls_to_trouble = self.calls_to_trouble.saturating_sub(1);
        let count = piece.len().min(self.step.max(1));
        if self.bytes.extend_from_slice(&piece[..count]).is_err() {
            self.failed = self.failed.saturating_add(1);
            return Err(io::Error::from(ErrorKind::OutOfMemory));
        }
        Ok(count)
    }

    fn flush_all(&mut self) -> io::Result<()> {
        self.flushes = self.flushes.saturating_add(1);
        if matches!(self.trouble, Trouble::FailsToFlush) {
            self.failed = self.failed.saturating_add(1);
            return Err(io::Error::from(ErrorKind::Other));
        }
        Ok(())
    }

    fn failures(&self) -> u64 {
        self.failed
    }
}
