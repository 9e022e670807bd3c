//! Whether bytes are deterministic.
ghost use Rattle.std.specs.Prelude.{◌≤◌, ◌+◌};
ghost use Rattle.cborn_engine.specs.Common.{length, EngineFault};
ghost use Rattle.cborn_engine.specs.Failures.{CountsFault};
ghost use Rattle.cborn_engine.specs.Checking.{Checks};
ghost use Rattle.cborn_engine.specs.Reading.{most_bytes};
ghost use Rattle.cborn_engine.specs.Counts.{CheckedWhole};

use crate::count_faults::of_any;
use crate::counted_streams::check_stream;
use crate::counts::Count;
use crate::faults::EngineFault;
use crate::fronts::is_deterministic;
use crate::judgments::judge_bytes;
use crate::sources::Source;
use cborn_judge::Defect;
use cborn_model::{KeyOrder, Limit};
use std::alloc::Global;

/// The first defect of the bytes of an input, if they aren't the deterministic encodings of the
/// items that they hold, the keys of maps in the order `O` (RFC 8949 section 4.2). None: they are.
/// The input has at most 2^30 bytes.
///
/// # Errors
/// `ReadFault`, `TooLong`, `Wire` and `OutOfMemory`, as `load_within` gives them for bytes, and
/// `Invalid`: the first flaw of the first item that isn't valid, at its offset in bytes from the
/// start of the input. A defect is reported only of bytes whose items are all valid.
#[tactic(auto, using(crate::proofs::CountAnswers::Any::any_counts, crate::proofs::CountAnswers::Any::any_answered))]
pub fn check<O: KeyOrder, R: Source>(
    alloc: Global,
    limit: Limit,
    reader: &mut R,
) -> Result<Option<Defect>, EngineFault>
    ensures checks { Checks O.order limit most_bytes (R.remaining reader.old) (R.remaining reader.new) result }
    ensures failures { CountsFault EngineFault.ReadFault result (R.failed reader.old) (R.failed reader.new) }
    ensures calls { R.asked reader.new ≤ R.asked reader.old + most_bytes + 1 }
{
    of_any(check_stream::<O, R>(alloc, limit, Count::Any, reader))
}

/// The first defect of these bytes, if they hold items; else the fault of their content. Where memory was
/// refused, that fault is answered if they have one.
pub fn check_input<O: KeyOrder>(
    alloc: Global,
    limit: Limit,
    input: &[u8],
) -> Result<Option<Defect>, EngineFault>
    ensures { length input.now ≤ most_bytes → CheckedWhole O.order limit input.now result }
{
    if is_deterministic::<O>(limit, input) {
        return Ok(None);
    }
    let encoded = judge_bytes::<O>(alloc, limit, input)?;
    Ok(encoded.defect)
}
