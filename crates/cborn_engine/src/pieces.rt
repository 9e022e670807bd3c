//! Reading an input in pieces.
ghost use Rattle.std.specs.Prelude.{◌≡◌, ◌≤◌, ◌<◌, ◌+◌, ◌^◌};
ghost use Rattle.cborn_engine.specs.Common.{length, take, drop, OnOk};
ghost use Rattle.cborn_engine.specs.Failures.{failures_after_read};
ghost use Rattle.cborn_engine.specs.Collecting.{PieceAnswers};

use crate::sources::Source;
use crate::stream_faults::InputFault;
use std::alloc::AllocError;

/// Reads the next piece of an input to the front of `buf`, and gives its length in bytes: 0 only at
/// the end. The input may have at most `left` more bytes; of one that is longer, one byte too many
/// is read at most. `buf` must not be empty, and `left` must be below 2^64 - 1.
///
/// # Errors
/// `ReadFault` if the reader fails. `TooLong` if it gives more than `left` bytes.
pub fn read_piece<R: Source>(reader: &mut R, buf: &mut [u8], left: u64) -> Result<usize, InputFault>
    requires room { 0 < length buf.old }
    requires bounded { left + 1 < 2 ^ 64 }
    ensures piece { PieceAnswers (R.remaining reader.old) (R.remaining reader.new) left buf.new result }
    ensures failures { R.failed reader.new ≡ failures_after_read result (R.failed reader.old) }
    ensures calls { R.asked reader.new ≤ R.asked reader.old + 1 }
{
    let room = (left + 1).min(buf.len() as u64) as usize;
    let count = match reader.read_some(&mut buf[..room]) {
        Ok(count) => count,
        Err(_) => return Err(InputFault::ReadFault),
    };
    if count as u64 > left {
        return Err(InputFault::TooLong);
    }
    Ok(count)
}

/// The first length of a buffer, in bytes: a small input needs no more. It is also the least by which
/// a buffer grows.
const FIRST_ROOM: usize = 512;

/// The most by which a buffer grows at once, in bytes.
const MOST_ROOM: usize = 1 << 16;

/// Makes room for a piece after the first `filled` bytes, which stay. A full buffer grows by its
/// length, but by no less than `FIRST_ROOM` and by no more than `MOST_ROOM`.
pub fn make_room(bytes: &mut Vec<u8>, filled: usize) -> Result<(), AllocError>
    requires { filled ≤ length bytes.old.items }
    ensures front { OnOk result (take filled bytes.new.items ≡ take filled bytes.old.items) }
    ensures room { OnOk result (filled < length bytes.new.items) }
{
    if filled < bytes.len() {
        return Ok(());
    }
    bytes.resize(filled + filled.max(FIRST_ROOM).min(MOST_ROOM), 0)
}

/// Reads the next piece of an input, as [`read_piece`] does, to `bytes` from the offset `filled` on. The
/// bytes before that offset stay.
pub fn read_after<R: Source>(
    reader: &mut R,
    bytes: &mut Vec<u8>,
    filled: usize,
    left: u64,
) -> Result<usize, InputFault>
    requires room { filled < length bytes.old.items }
    requires bounded { left + 1 < 2 ^ 64 }
    ensures front { take filled bytes.new.items ≡ take filled bytes.old.items }
    ensures piece { PieceAnswers (R.remaining reader.old) (R.remaining reader.new) left (drop filled bytes.new.items) result }
    ensures failures { R.failed reader.new ≡ failures_after_read result (R.failed reader.old) }
    ensures calls { R.asked reader.new ≤ R.asked reader.old + 1 }
{
    read_piece(reader, &mut bytes[filled..], left)
}
