//! Readers and writers of std, with counts of their failures, reads and bytes.
ghost use Rattle.std.specs.Prelude.{◌≡◌};
ghost use Rattle.cborn_engine.specs.Common.{ReadsAtMost, WritesAtMost, Keeps, ReadConsumes, WriteAppends};
ghost use Rattle.cborn_engine.specs.Failures.{one_more, failures_after, failures_after_write, unflushed_after_write, unflushed_after_flush};

use crate::sinks::Sink;
use crate::sources::Source;
use std::io;
use std::io::{IsTerminal, Read, Write};
use std::marker::Model;

/// A reader or a writer of std that counts its failures, the reads that were asked for, and the
/// bytes that were written since the last flush that didn't fail. No count goes beyond `u64::MAX`.
/// An interrupted call is a failure like any other: nothing is tried again.
#[derive(Drop)]
pub struct Counted<T> {
    inner: T,
    failed: u64,
    asked: u64,
    unflushed: u64,
}

impl<T> Model for Counted<T> {
    ghost use Rattle.cborn_engine.specs.Counters.{Counts};

    ghost Value = { Counts T };

    ghost view = { λ c. record { inner = c.inner; failed = c.failed; asked = c.asked; unflushed = c.unflushed } };
}

impl<T> Counted<T> {
    /// Wraps a reader or a writer, with all counts at 0.
    pub fn new(inner: T) -> Self
        ensures inner { result.inner ≡ inner }
        ensures failures { result.failed ≡ 0 }
        ensures calls { result.asked ≡ 0 }
        ensures unflushed { result.unflushed ≡ 0 }
    {
        Counted {
            inner,
            failed: 0,
            asked: 0,
            unflushed: 0,
        }
    }
}

impl<T: IsTerminal> IsTerminal for Counted<T> {
    /// Whether the reader or the writer is a terminal.
    fn is_terminal(&self) -> bool {
        self.inner.is_terminal()
    }
}

impl<T: Read> Source for Counted<T> {
    ghost remaining = { λ c. T.remaining c.inner };

    ghost failed = { λ c. c.failed };

    ghost asked = { λ c. c.asked };

    fn read_some(&mut self, buf: &mut [u8]) -> io::Result<usize>
        ensures bound { ReadsAtMost result buf.new }
        ensures bytes { ReadConsumes (T.remaining self.old.inner) (T.remaining self.new.inner) result buf.new }
        ensures failures { self.new.failed ≡ failures_after result self.old.failed }
        ensures calls { self.new.asked ≡ one_more self.old.asked }
    {
        self.asked = self.asked.saturating_add(1);
        let result = self.inner.read(buf);
        if result.is_err() {
            self.failed = self.failed.saturating_add(1);
        }
        result
    }

    fn failures(&self) -> u64 {
        self.failed
    }
}

impl<T: Write> Sink for Counted<T> {
    ghost contents = { λ c. T.contents c.inner };

    ghost failed = { λ c. c.failed };

    ghost unflushed = { λ c. c.unflushed };

    fn write_some(&mut self, piece: &[u8]) -> io::Result<usize>
        ensures bound { WritesAtMost result piece.now }
        ensures bytes { WriteAppends (T.contents self.old.inner) (T.contents self.new.inner) result piece.now }
        ensures failures { self.new.failed ≡ failures_after_write result piece.now self.old.failed }
        ensures unflushed { self.new.unflushed ≡ unflushed_after_write result self.old.unflushed }
    {
        let result = self.inner.write(piece);
        if let Ok(count) = &result {
            self.unflushed = self.unflushed.saturating_add(*count as u64);
        }
        let is_failure = match &result {
            Ok(count) => *count == 0 && !piece.is_empty(),
            Err(_) => true,
        };
        if is_failure {
            self.failed = self.failed.saturating_add(1);
        }
        result
    }

    fn flush_all(&mut self) -> io::Result<()>
        ensures bytes { Keeps (T.contents self.old.inner) (T.contents self.new.inner) }
        ensures failures { self.new.failed ≡ failures_after result self.old.failed }
        ensures unflushed { self.new.unflushed ≡ unflushed_after_flush result self.old.unflushed }
    {
        let result = self.inner.flush();
        if result.is_err() {
            self.failed = self.failed.saturating_add(1);
        } else {
            self.unflushed = 0;
        }
        result
    }

    fn failures(&self) -> u64 {
        self.failed
    }
}

/// For `write!` and other callers of std: the methods of [`Sink`], by std's names.
impl<T: Write> Write for Counted<T> {
    ghost contents = { λ c. T.contents c.inner };

    fn write(&mut self, piece: &[u8]) -> io::Result<usize>
        ensures bound { WritesAtMost result piece.now }
        ensures bytes { WriteAppends (T.contents self.old.inner) (T.contents self.new.inner) result piece.now }
        ensures failures { self.new.failed ≡ failures_after_write result piece.now self.old.failed }
        ensures unflushed { self.new.unflushed ≡ unflushed_after_write result self.old.unflushed }
    {
        self.write_some(piece)
    }

    fn flush(&mut self) -> io::Result<()>
        ensures bytes { Keeps (T.contents self.old.inner) (T.contents self.new.inner) }
        ensures failures { self.new.failed ≡ failures_after result self.old.failed }
        ensures unflushed { self.new.unflushed ≡ unflushed_after_flush result self.old.unflushed }
    {
        self.flush_all()
    }
}
