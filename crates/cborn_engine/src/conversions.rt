//! From a reader to a writer.
ghost use Rattle.std.specs.Prelude.{◌≡◌, ◌≢◌, ◌≤◌, ◌+◌};
ghost use Rattle.cborn_engine.specs.Common.{ℕ, List, IfOk, IfErr, OnOk, Consumes, Appends, EngineFault};
ghost use Rattle.cborn_engine.specs.Canonical.{Normalises, IsNormalForm};
ghost use Rattle.cborn_engine.specs.Reading.{most_bytes};
ghost use Rattle.cborn_engine.specs.Showing.{Shows, SpellSameBytes};
ghost use Rattle.cborn_engine.specs.Failures.{CountsFault};

use crate::count_faults::of_any;
use crate::counted_streams::{normalise_stream, show_stream};
use crate::counts::Count;
use crate::faults::EngineFault;
use crate::kinds::Kind;
use crate::sinks::Sink;
use crate::sources::Source;
use cborn_model::{KeyOrder, Limit};
use std::alloc::Global;

/// Writes the canonical form of the items that the input holds: their deterministic encodings one
/// after another, the keys of maps in the order `O` (RFC 8949 section 4.2), or the fixed notation
/// of these. The writer is flushed after the answer, also where that is empty. The input has at
/// most 2^30 bytes.
///
/// # Errors
/// Those of `load_within`, and `Invalid`: the first flaw of the first item that isn't valid, at its
/// offset in bytes from the start of the input. At these the writer is as it was. `WriteFault`
/// where the writer failed; then a front of the answer went out.
#[tactic(auto, using(crate::proofs::CountAnswers::Any::any_counts, crate::proofs::CountAnswers::Any::any_ok, crate::proofs::CountAnswers::Any::any_kept, crate::proofs::CountAnswers::Any::any_written))]
pub fn normalise<O: KeyOrder, R: Source, W: Sink>(
    alloc: Global,
    limit: Limit,
    in_kind: Kind,
    out_kind: Kind,
    reader: &mut R,
    writer: &mut W,
) -> Result<(), EngineFault>
    ensures normalises { Normalises O.order in_kind out_kind limit most_bytes (R.remaining reader.old) (R.remaining reader.new) (W.contents writer.old) (W.contents writer.new) result }
    ensures headline { OnOk result ((input : List ℕ) × (output : List ℕ) × Consumes (R.remaining reader.old) (R.remaining reader.new) input × Appends (W.contents writer.old) (W.contents writer.new) output × IsNormalForm O.order in_kind out_kind limit input output) }
    ensures read_failures { CountsFault EngineFault.ReadFault result (R.failed reader.old) (R.failed reader.new) }
    ensures write_failures { CountsFault EngineFault.WriteFault result (W.failed writer.old) (W.failed writer.new) }
    ensures untouched { IfErr result (λ why. why ≢ EngineFault.WriteFault → writer.new ≡ writer.old) }
    ensures flushed { OnOk result (W.unflushed writer.new ≡ 0) }
    ensures calls { R.asked reader.new ≤ R.asked reader.old + most_bytes + 1 }
{
    let count = Count::Any;
    of_any(normalise_stream::<O, R, W>(alloc, limit, count, in_kind, out_kind, reader, writer))
}

/// Writes the items of the input as they are spelled: as bytes (RFC 8949 section 3), or in the
/// fixed notation (section 8). The writer is flushed after the answer, also where that is empty.
/// The input has at most 2^30 bytes.
///
/// # Errors
/// Those of `load_within`, and `Show` where the output is notation and a text string in it isn't
/// UTF-8, at the lowest place of one. At these the writer is as it was. `WriteFault` where the
/// writer failed; then a front of the answer went out.
#[tactic(auto, using(crate::proofs::CountAnswers::Any::any_counts, crate::proofs::CountAnswers::Any::any_ok, crate::proofs::CountAnswers::Any::any_kept, crate::proofs::CountAnswers::Any::any_written))]
pub fn show_all<R: Source, W: Sink>(
    alloc: Global,
    limit: Limit,
    in_kind: Kind,
    out_kind: Kind,
    reader: &mut R,
    writer: &mut W,
) -> Result<(), EngineFault>
    ensures shows { Shows in_kind out_kind limit most_bytes (R.remaining reader.old) (R.remaining reader.new) (W.contents writer.old) (W.contents writer.new) result }
    ensures same_bytes { OnOk result ((input : List ℕ) × (output : List ℕ) × Consumes (R.remaining reader.old) (R.remaining reader.new) input × Appends (W.contents writer.old) (W.contents writer.new) output × SpellSameBytes in_kind out_kind limit input output) }
    ensures read_failures { CountsFault EngineFault.ReadFault result (R.failed reader.old) (R.failed reader.new) }
    ensures write_failures { CountsFault EngineFault.WriteFault result (W.failed writer.old) (W.failed writer.new) }
    ensures untouched { IfErr result (λ why. why ≢ EngineFault.WriteFault → writer.new ≡ writer.old) }
    ensures flushed { OnOk result (W.unflushed writer.new ≡ 0) }
    ensures calls { R.asked reader.new ≤ R.asked reader.old + most_bytes + 1 }
{
    let count = Count::Any;
    of_any(show_stream(alloc, limit, count, in_kind, out_kind, reader, writer))
}
