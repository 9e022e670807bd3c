//! What bytes are read from.
ghost use Rattle.std.specs.Prelude.{◌≡◌, ◌≤◌, ◌+◌};
ghost use Rattle.cborn_engine.specs.Common.{ℕ, List, Option, ReadsAtMost, ReadConsumes};
ghost use Rattle.cborn_engine.specs.Failures.{failures_after};

use std::io;

/// A reader that counts its failures.
pub trait Source {
    /// The bytes that are still to come, if they are known.
    ghost remaining: { Self → Option (List ℕ) };

    /// How many reads failed.
    ghost failed: { Self → ℕ };

    /// How many reads were asked for, if the reader counts them; 0 if it doesn't.
    ghost asked: { Self → ℕ } = { λ _. 0 };

    /// Puts the next bytes at the front of `buf`, and gives their number: 0 only at the end, or if
    /// `buf` is empty. An error is counted as a failure, and gives no bytes.
    fn read_some(&mut self, buf: &mut [u8]) -> io::Result<usize>
        ensures bound { ReadsAtMost result buf.new }
        ensures bytes { ReadConsumes (remaining self.old) (remaining self.new) result buf.new }
        ensures failures { failed self.new ≡ failures_after result (failed self.old) }
        ensures calls { asked self.new ≤ asked self.old + 1 };

    /// How many calls gave an error. The count stays at `u64::MAX` once it is there.
    fn failures(&self) -> u64
        ensures { result ≡ failed self.now };
}
