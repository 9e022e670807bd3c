//! Reading all bytes of an input.
ghost use Rattle.std.specs.Prelude.{◌≡◌, ◌≤◌, ◌<◌, ◌+◌, ◌^◌};
ghost use Rattle.cborn_engine.specs.Common.{length};
ghost use Rattle.cborn_engine.specs.Failures.{failures_after_read};
ghost use Rattle.cborn_engine.specs.Collecting.{Collects, CollectsOn};

use crate::pieces::{make_room, read_after};
use crate::sources::Source;
use crate::stream_faults::InputFault;
use std::alloc::Global;

/// All bytes of an input, which may have at most `most`; `most` must be below 2^64 - 1.
///
/// # Errors
/// `ReadFault` if the reader fails, which ends the reading. `TooLong` if it gives `most` + 1 bytes;
/// no more are read. `OutOfMemory` if memory is refused.
pub fn read_bytes<R: Source>(
    alloc: Global,
    most: u64,
    reader: &mut R,
) -> Result<Vec<u8>, InputFault>
    requires { most + 1 < 2 ^ 64 }
    ensures collects { Collects most (R.remaining reader.old) (R.remaining reader.new) result }
    ensures failures { R.failed reader.new ≡ failures_after_read result (R.failed reader.old) }
    ensures calls { R.asked reader.new ≤ R.asked reader.old + most + 1 }
{
    read_on(most, Vec::new(alloc), reader)
}

/// What `read_bytes` gives of an input whose first bytes are `front`, and were read. The others are
/// read straight into the buffer that is the answer, which grows with them.
pub fn read_on<R: Source>(most: u64, front: Vec<u8>, reader: &mut R) -> Result<Vec<u8>, InputFault>
    requires bounded { most + 1 < 2 ^ 64 }
    requires within { length front.items ≤ most }
    ensures collects { CollectsOn front.items most (R.remaining reader.old) (R.remaining reader.new) result }
    ensures failures { R.failed reader.new ≡ failures_after_read result (R.failed reader.old) }
    ensures calls { R.asked reader.new + length front.items ≤ R.asked reader.old + most + 1 }
{
    let mut bytes = front;
    let mut filled = bytes.len();
    'pieces: loop {
        make_room(&mut bytes, filled)?;
        let count = read_after(reader, &mut bytes, filled, most - filled as u64)?;
        if count == 0 {
            bytes.truncate(filled);
            return Ok(bytes);
        }
        filled += count;
    }
}
