//! Reading an input. Bytes are judged as they are read where they depart early from their
//! deterministic encodings; then none of them is kept.
ghost use Rattle.std.specs.Prelude.{◌≡◌, ◌≤◌, ◌+◌};
ghost use Rattle.cborn_engine.specs.Common.{length, take, Count, Kind};
ghost use Rattle.cborn_engine.specs.devices.Counting.{read_failures};
ghost use Rattle.cborn_engine.specs.devices.Judging.{ReadsInput, ReadsWhole};
ghost use Rattle.cborn_engine.specs.Reading.{most_bytes};

use crate::counts::Count;
use crate::faults::EngineFault;
use crate::inputs::MOST;
use crate::kinds::Kind;
use crate::piece_judges::PieceJudge;
use crate::pieces::read_after;
use crate::sources::Source;
use crate::whole_inputs::{read_bytes, read_on};
use cborn_judge::{EncodedItems, Encoder};
use cborn_model::{KeyOrder, Limit};
use std::alloc::Global;

/// An input that was read to its end.
#[derive(Drop)]
pub(crate) enum Input {
    /// All of it, whatever it holds.
    Whole(Vec<u8>),
    /// What its bytes hold, encoded.
    Judged(EncodedItems),
}

/// Reads an input, of at most 2^30 bytes. A text is kept whole, and so are bytes that have to hold a
/// given number of items. A fault of the content of bytes is answered where it was found.
pub(crate) fn read_input<O: KeyOrder, R: Source>(
    alloc: Global,
    limit: Limit,
    count: Count,
    kind: Kind,
    reader: &mut R,
) -> Result<Input, EngineFault>
    ensures input { ReadsInput O.order count kind limit (R.remaining reader.old) (R.remaining reader.new) result }
    ensures failures { R.failed reader.new ≡ read_failures result (R.failed reader.old) }
    ensures calls { R.asked reader.new ≤ R.asked reader.old + most_bytes + 1 }
{
    if kind == Kind::Wire && count == Count::Any {
        return read_judged::<O, R>(alloc, limit, reader);
    }
    Ok(Input::Whole(read_bytes(alloc, MOST, reader)?))
}

/// The bytes that are read at a time.
const PIECE: usize = 1 << 16;

/// Reads bytes that may hold any number of items. If the first piece departs from its encodings, all
/// pieces are judged as they come. Else the bytes are likely to be their own encodings, which is quicker
/// to see of all at once; but not where they are long strings. A piece that isn't full is likely all.
fn read_judged<O: KeyOrder, R: Source>(
    alloc: Global,
    limit: Limit,
    reader: &mut R,
) -> Result<Input, EngineFault>
    ensures input { ReadsInput O.order Count.Any Kind.Wire limit (R.remaining reader.old) (R.remaining reader.new) result }
    ensures failures { R.failed reader.new ≡ read_failures result (R.failed reader.old) }
    ensures calls { R.asked reader.new ≤ R.asked reader.old + most_bytes + 1 }
{
    let mut judge = PieceJudge::over(alloc, limit, Encoder::<O>::new(alloc));
    let mut piece = Vec::new(alloc);
    piece.resize(PIECE, 0)?;
    let mut left = MOST;
    'pieces: loop {
        let count = read_after(reader, &mut piece, 0, left)?;
        if count == 0 {
            return Ok(Input::Judged(judge.finish()?));
        }
        if left == MOST && count < PIECE {
            return read_whole(piece, count, reader);
        }
        judge.take(&piece[..count])?;
        if left == MOST && !judge.goes_on() {
            return read_whole(piece, count, reader);
        }
        left -= count as u64;
    }
}

/// Reads on to the end of an input of which the first `count` bytes of `piece` were read.
fn read_whole<R: Source>(piece: Vec<u8>, count: usize, reader: &mut R) -> Result<Input, EngineFault>
    requires { count ≤ most_bytes }
    ensures whole { ReadsWhole (take count piece.items) (R.remaining reader.old) (R.remaining reader.new) result }
    ensures failures { R.failed reader.new ≡ read_failures result (R.failed reader.old) }
    ensures calls { R.asked reader.new + length (take count piece.items) ≤ R.asked reader.old + most_bytes + 1 }
{
    let mut front = piece;
    front.truncate(count);
    Ok(Input::Whole(read_on(MOST, front, reader)?))
}
