//! What is answered for an input that was read.
ghost use Rattle.std.specs.Prelude.{◌≢◌};
ghost use Rattle.cborn_engine.specs.Common.{ℕ, List, Ok, Err, CountFault, EngineFault, Kind};
ghost use Rattle.cborn_engine.specs.Canonical.{FormAnswers};
ghost use Rattle.cborn_engine.specs.Checking.{CheckAnswers};
ghost use Rattle.cborn_engine.specs.Counts.{CountAnswer};
ghost use Rattle.cborn_engine.specs.devices.Counts.{bytes_of};
ghost use Rattle.cborn_engine.specs.devices.Encoding.{EncodeAnswers};
ghost use Rattle.cborn_engine.specs.devices.Judging.{InputAnswers};
ghost use Rattle.cborn_engine.specs.Reading.{most_bytes};

use crate::count_faults::CountFault;
use crate::counts::Count;
use crate::judged_inputs::Input;
use crate::kinds::Kind;
use crate::slices::{check_slice, encode_counted, normalise_slice, written_as};
use cborn_judge::Defect;
use cborn_model::{KeyOrder, Limit};
use std::alloc::Global;
use std::borrow::CowSlice;

/// The canonical form of what an input holds, as `normalise_slice` gives it.
pub(crate) fn form_of<'a, O: KeyOrder>(
    alloc: Global,
    limit: Limit,
    count: Count,
    in_kind: Kind,
    out_kind: Kind,
    input: &'a Input,
) -> Result<CowSlice<'a, u8, Global>, CountFault>
    requires { (x : List ℕ) × InputAnswers O.order count in_kind limit x (Ok input.now) }
    ensures form { (x : List ℕ) → InputAnswers O.order count in_kind limit x (Ok input.now) → CountAnswer count in_kind limit x (FormAnswers O.order in_kind out_kind limit most_bytes x) (bytes_of result) }
    ensures read { result ≢ Err (CountFault.Engine EngineFault.ReadFault) }
    ensures written { result ≢ Err (CountFault.Engine EngineFault.WriteFault) }
{
    match input {
        Input::Whole(bytes) => {
            normalise_slice::<O>(alloc, limit, count, in_kind, out_kind, bytes)
        }
        Input::Judged(encoded) => {
            let lent = CowSlice::Borrowed(encoded.bytes.as_slice());
            Ok(written_as(alloc, limit, out_kind, lent)?)
        }
    }
}

/// The first defect of bytes, as `check_slice` gives it.
pub(crate) fn defect_of<O: KeyOrder>(
    alloc: Global,
    limit: Limit,
    count: Count,
    input: &Input,
) -> Result<Option<Defect>, CountFault>
    ensures defect { (x : List ℕ) → InputAnswers O.order count Kind.Wire limit x (Ok input.now) → CountAnswer count Kind.Wire limit x (CheckAnswers O.order limit most_bytes x) result }
    ensures read { result ≢ Err (CountFault.Engine EngineFault.ReadFault) }
{
    match input {
        Input::Whole(bytes) => check_slice::<O>(alloc, limit, count, bytes),
        Input::Judged(encoded) => Ok(encoded.defect),
    }
}

/// What an input holds, encoded, as `encode_counted` gives it. Bytes that are that already are moved.
pub(crate) fn encodings_of<O: KeyOrder>(
    alloc: Global,
    limit: Limit,
    count: Count,
    kind: Kind,
    input: Input,
) -> Result<Vec<u8>, CountFault>
    ensures encodings { (x : List ℕ) → InputAnswers O.order count kind limit x (Ok input) → CountAnswer count kind limit x (EncodeAnswers O.order kind limit most_bytes x) result }
    ensures read { result ≢ Err (CountFault.Engine EngineFault.ReadFault) }
{
    match input {
        Input::Whole(bytes) => {
            match encode_counted::<O>(alloc, limit, count, kind, &bytes)? {
                None => Ok(bytes),
                Some(encodings) => Ok(encodings),
            }
        }
        Input::Judged(encoded) => Ok(encoded.bytes),
    }
}
