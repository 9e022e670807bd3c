//! What bytes are written to.
ghost use Rattle.std.specs.Prelude.{◌≡◌};
ghost use Rattle.cborn_engine.specs.Common.{ℕ, List, Option, OnOk, WritesAtMost, Keeps, WriteAppends};
ghost use Rattle.cborn_engine.specs.Failures.{failures_after, failures_after_write};

use std::io;

/// A writer that counts its failures.
pub trait Sink {
    /// The bytes that were written, if they are known.
    ghost contents: { Self → Option (List ℕ) };

    /// How many writes and flushes failed.
    ghost failed: { Self → ℕ };

    /// How many bytes were taken and not flushed yet, if the writer counts them; 0 if it doesn't.
    ghost unflushed: { Self → ℕ } = { λ _. 0 };

    /// Takes bytes from the front of `piece`, and gives their number. An error, or 0 for a piece
    /// that isn't empty, is counted as a failure, and no byte is taken.
    fn write_some(&mut self, piece: &[u8]) -> io::Result<usize>
        ensures bound { WritesAtMost result piece.now }
        ensures bytes { WriteAppends (contents self.old) (contents self.new) result piece.now }
        ensures failures { failed self.new ≡ failures_after_write result piece.now (failed self.old) };

    /// Flushes all that was taken. An error is counted as a failure.
    fn flush_all(&mut self) -> io::Result<()>
        ensures bytes { Keeps (contents self.old) (contents self.new) }
        ensures failures { failed self.new ≡ failures_after result (failed self.old) }
        ensures flushed { OnOk result (unflushed self.new ≡ 0) };

    /// How many calls gave an error, or took nothing of a piece that isn't empty. The count stays
    /// at `u64::MAX` once it is there.
    fn failures(&self) -> u64
        ensures { result ≡ failed self.now };
}
