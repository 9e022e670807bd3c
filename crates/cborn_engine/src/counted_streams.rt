//! The calls over readers and writers. Each reads a whole input, makes the call over what is held, and
//! sends the answer.
ghost use Rattle.std.specs.Prelude.{◌≡◌, ◌≢◌, ◌≤◌, ◌⊎◌, ◌+◌};
ghost use Rattle.cborn_engine.specs.Common.{ℕ, List, Err, IfErr, OnOk, Consumes, Appends, EngineFault, CountFault, CompareCountFault};
ghost use Rattle.cborn_engine.specs.Canonical.{IsNormalForm};
ghost use Rattle.cborn_engine.specs.Comparing.{IsHeldWhole};
ghost use Rattle.cborn_engine.specs.devices.Counts.{ReadsCount, bytes_of};
ghost use Rattle.cborn_engine.specs.Counts.{NormalisesCount, ShowsCount, ChecksCount, ComparesCount};
ghost use Rattle.cborn_engine.specs.Reading.{most_bytes};
ghost use Rattle.cborn_engine.specs.Showing.{SpellSameBytes};
ghost use Rattle.cborn_engine.specs.Streams.{IsSent};
ghost use Rattle.cborn_engine.specs.Failures.{CountsFault};

use crate::answered_inputs::{defect_of, encodings_of, form_of};
use crate::count_faults::{CompareCountFault, CountFault};
use crate::counts::Count;
use crate::differences::difference;
use crate::inputs::MOST;
use crate::judged_inputs::read_input;
use crate::kinds::Kind;
use crate::outputs::write_answer;
use crate::sinks::Sink;
use crate::slices::show_slice;
use crate::sources::Source;
use crate::whole_inputs::read_bytes;
use cborn_judge::Defect;
use cborn_model::{KeyOrder, Limit};
use std::alloc::Global;
use std::borrow::CowSlice;

/// Writes the canonical form of the items that the input holds, as `normalise` does.
///
/// # Errors
/// `Engine`, with the fault that `normalise` gives. Where it gives none, `NoItem` or
/// `MoreItems`; at these the writer is as it was.
#[tactic(auto, using(crate::proofs::CountAnswers::Streamed::quiet_counted, crate::proofs::CountAnswers::Streamed::sent_quiet))]
pub fn normalise_stream<O: KeyOrder, R: Source, W: Sink>(
    alloc: Global,
    limit: Limit,
    count: Count,
    in_kind: Kind,
    out_kind: Kind,
    reader: &mut R,
    writer: &mut W,
) -> Result<(), CountFault>
    ensures normalises { NormalisesCount count O.order in_kind out_kind limit most_bytes (R.remaining reader.old) (R.remaining reader.new) (W.contents writer.old) (W.contents writer.new) result }
    ensures headline { OnOk result ((input : List ℕ) × (output : List ℕ) × Consumes (R.remaining reader.old) (R.remaining reader.new) input × Appends (W.contents writer.old) (W.contents writer.new) output × IsNormalForm O.order in_kind out_kind limit input output) }
    ensures read_failures { CountsFault (CountFault.Engine EngineFault.ReadFault) result (R.failed reader.old) (R.failed reader.new) }
    ensures write_failures { CountsFault (CountFault.Engine EngineFault.WriteFault) result (W.failed writer.old) (W.failed writer.new) }
    ensures untouched { IfErr result (λ why. why ≢ CountFault.Engine EngineFault.WriteFault → writer.new ≡ writer.old) }
    ensures flushed { OnOk result (W.unflushed writer.new ≡ 0) }
    ensures calls { R.asked reader.new ≤ R.asked reader.old + most_bytes + 1 }
{
    let input = read_input::<O, R>(alloc, limit, count, in_kind, reader)?;
    let answer = form_of::<O>(alloc, limit, count, in_kind, out_kind, &input);
    send(answer, writer)
}

/// Writes the items of the input as they are spelled, as `show_all` does.
///
/// # Errors
/// `Engine`, with the fault that `show_all` gives. Where it gives none, `NoItem` or
/// `MoreItems`; at these the writer is as it was.
#[tactic(auto, using(crate::proofs::CountAnswers::Streamed::quiet, crate::proofs::CountAnswers::Streamed::quiet_counted, crate::proofs::CountAnswers::Streamed::sent_quiet, crate::proofs::CountAnswers::Streamed::unshown_quiet, crate::proofs::Held::SameBytes::written))]
pub fn show_stream<R: Source, W: Sink>(
    alloc: Global,
    limit: Limit,
    count: Count,
    in_kind: Kind,
    out_kind: Kind,
    reader: &mut R,
    writer: &mut W,
) -> Result<(), CountFault>
    ensures shows { ShowsCount count in_kind out_kind limit most_bytes (R.remaining reader.old) (R.remaining reader.new) (W.contents writer.old) (W.contents writer.new) result }
    ensures same_bytes { OnOk result ((input : List ℕ) × (output : List ℕ) × Consumes (R.remaining reader.old) (R.remaining reader.new) input × Appends (W.contents writer.old) (W.contents writer.new) output × SpellSameBytes in_kind out_kind limit input output) }
    ensures read_failures { CountsFault (CountFault.Engine EngineFault.ReadFault) result (R.failed reader.old) (R.failed reader.new) }
    ensures write_failures { CountsFault (CountFault.Engine EngineFault.WriteFault) result (W.failed writer.old) (W.failed writer.new) }
    ensures untouched { IfErr result (λ why. why ≢ CountFault.Engine EngineFault.WriteFault → writer.new ≡ writer.old) }
    ensures flushed { OnOk result (W.unflushed writer.new ≡ 0) }
    ensures calls { R.asked reader.new ≤ R.asked reader.old + most_bytes + 1 }
{
    let input = read_bytes(alloc, MOST, reader)?;
    let answer = show_slice(alloc, limit, count, in_kind, out_kind, &input);
    send(answer, writer)
}

/// Writes an answer, or hands on why there is none; then the writer is as it was. Where the writer fails,
/// a front of the answer went out.
fn send<W: Sink>(
    answer: Result<CowSlice<'_, u8, Global>, CountFault>,
    writer: &mut W,
) -> Result<(), CountFault>
    requires { answer ≢ Err (CountFault.Engine EngineFault.WriteFault) }
    ensures sent { (output : List ℕ) × Appends (W.contents writer.old) (W.contents writer.new) output × IsSent (CountFault.Engine EngineFault.WriteFault) (λ a. a ≡ bytes_of answer.entry) output result }
    ensures failures { CountsFault (CountFault.Engine EngineFault.WriteFault) result (W.failed writer.old) (W.failed writer.new) }
    ensures untouched { IfErr result (λ why. why ≢ CountFault.Engine EngineFault.WriteFault → writer.new ≡ writer.old) }
    ensures flushed { OnOk result (W.unflushed writer.new ≡ 0) }
{
    let answer = answer?;
    Ok(write_answer(writer, &answer)?)
}

/// What `check` answers of bytes. Those that hold another number of items than they have to are
/// refused, also where they have a defect.
///
/// # Errors
/// `Engine`, with the fault that `check` gives. Else `NoItem` or `MoreItems`.
#[tactic(auto, using(crate::proofs::CountAnswers::Streamed::quiet_counted))]
pub fn check_stream<O: KeyOrder, R: Source>(
    alloc: Global,
    limit: Limit,
    count: Count,
    reader: &mut R,
) -> Result<Option<Defect>, CountFault>
    ensures checks { ChecksCount count O.order limit most_bytes (R.remaining reader.old) (R.remaining reader.new) result }
    ensures failures { CountsFault (CountFault.Engine EngineFault.ReadFault) result (R.failed reader.old) (R.failed reader.new) }
    ensures calls { R.asked reader.new ≤ R.asked reader.old + most_bytes + 1 }
{
    let input = read_input::<O, R>(alloc, limit, count, Kind::Wire, reader)?;
    defect_of::<O>(alloc, limit, count, &input)
}

/// Compares what two inputs hold, as `compare` does.
///
/// # Errors
/// `First`, where the first input isn't taken, by the fault that `normalise_stream` gives for it; then
/// not a byte of the second was read. `Second`, likewise, where the first input is taken and the
/// second isn't. `OutOfMemory` may come at any time, and is never inside of `First` or `Second`.
pub fn compare_streams<O: KeyOrder, R: Source, Q: Source>(
    alloc: Global,
    limit: Limit,
    count: Count,
    kind_a: Kind,
    first: &mut R,
    kind_b: Kind,
    second: &mut Q,
) -> Result<Option<u64>, CompareCountFault>
    ensures compares { ComparesCount count kind_a kind_b limit (R.remaining first.old) (R.remaining first.new) (Q.remaining second.old) (Q.remaining second.new) result }
    ensures unread { (why : CountFault) → result ≡ Err (CompareCountFault.First why) → second.new ≡ second.old }
    ensures first_held { (second.new ≡ second.old) ⊎ IsHeldWhole kind_a limit (R.remaining first.old) (R.remaining first.new) }
    ensures first_failures { CountsFault (CompareCountFault.First (CountFault.Engine EngineFault.ReadFault)) result (R.failed first.old) (R.failed first.new) }
    ensures second_failures { CountsFault (CompareCountFault.Second (CountFault.Engine EngineFault.ReadFault)) result (Q.failed second.old) (Q.failed second.new) }
    ensures first_calls { R.asked first.new ≤ R.asked first.old + most_bytes + 1 }
    ensures second_calls { Q.asked second.new ≤ Q.asked second.old + most_bytes + 1 }
{
    let ours = match read_counted::<O, R>(alloc, limit, count, kind_a, first) {
        Ok(bytes) => bytes,
        Err(why) => return Err(CompareCountFault::of_first(why)),
    };
    let theirs = match read_counted::<O, Q>(alloc, limit, count, kind_b, second) {
        Ok(bytes) => bytes,
        Err(why) => return Err(CompareCountFault::of_second(why)),
    };
    Ok(difference::<O>(alloc, limit, &ours, &theirs)?)
}

/// What the whole input holds, encoded, where that are as many items as it has to hold.
#[tactic(auto, using(crate::proofs::CountAnswers::Streamed::quiet_counted))]
fn read_counted<O: KeyOrder, R: Source>(
    alloc: Global,
    limit: Limit,
    count: Count,
    kind: Kind,
    reader: &mut R,
) -> Result<Vec<u8>, CountFault>
    ensures reads { ReadsCount count O.order kind limit (R.remaining reader.old) (R.remaining reader.new) result }
    ensures failures { CountsFault (CountFault.Engine EngineFault.ReadFault) result (R.failed reader.old) (R.failed reader.new) }
    ensures calls { R.asked reader.new ≤ R.asked reader.old + most_bytes + 1 }
{
    let input = read_input::<O, R>(alloc, limit, count, kind, reader)?;
    encodings_of::<O>(alloc, limit, count, kind, input)
}
