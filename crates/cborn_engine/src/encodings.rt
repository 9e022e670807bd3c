//! Encoding what a whole input holds. The encodings are written as bytes or a text are read; no tree is
//! kept.
ghost use Rattle.std.specs.Prelude.{◌≡◌, ◌≤◌};
ghost use Rattle.cborn_engine.specs.Common.{Kind, length, IfOk, IfErr, IsTrue};
ghost use Rattle.cborn_engine.specs.devices.Encoding.{IsEncoded, kind_of};
ghost use Rattle.cborn_engine.specs.Reading.{most_bytes};
ghost use Rattle.cborn_engine.specs.devices.Malformed.{IsRefusedHeld};

use crate::faults::EngineFault;
use crate::fronts::is_deterministic;
use crate::judgments::judge_bytes;
use crate::kinds::{Kind, profile_of};
use crate::texts::hand_text;
use cborn_judge::{Encoder, Invalid};
use cborn_lex::Profile;
use cborn_model::{KeyOrder, Limit};
use std::alloc::Global;

/// Whether the whole input is the deterministic encodings of what it holds, one after another, as far as
/// `is_deterministic` sees it. False of a text.
pub fn is_own_encoding<O: KeyOrder>(limit: Limit, kind: Kind, input: &[u8]) -> bool
    ensures { IsTrue result → (kind ≡ Kind.Wire) × IsEncoded O.order kind limit input.now input.now }
{
    kind == Kind::Wire && is_deterministic::<O>(limit, input)
}

/// The deterministic encodings of what an input holds, one after another, or the fault of its content.
pub fn encode_input<O: KeyOrder>(
    alloc: Global,
    limit: Limit,
    kind: Kind,
    input: &[u8],
) -> Result<Vec<u8>, EngineFault>
    requires { length input.now ≤ most_bytes }
    ensures encoded { IfOk result (λ bytes. IsEncoded O.order kind limit input.now bytes.items) }
    ensures refused { IfErr result (IsRefusedHeld kind limit input.now) }
{
    match profile_of(kind) {
        None => encode_bytes::<O>(alloc, limit, input),
        Some(profile) => encode_text::<O>(alloc, limit, profile, input),
    }
}

/// What `encode_input` answers of bytes.
#[tactic(auto, using(crate::proofs::Answers::judged))]
fn encode_bytes<O: KeyOrder>(
    alloc: Global,
    limit: Limit,
    input: &[u8],
) -> Result<Vec<u8>, EngineFault>
    ensures encoded { IfOk result (λ bytes. IsEncoded O.order Kind.Wire limit input.now bytes.items) }
    ensures refused { IfErr result (IsRefusedHeld Kind.Wire limit input.now) }
{
    let encoded = judge_bytes::<O>(alloc, limit, input)?;
    Ok(encoded.bytes)
}

/// What `encode_input` answers of a text.
fn encode_text<O: KeyOrder>(
    alloc: Global,
    limit: Limit,
    profile: Profile,
    input: &[u8],
) -> Result<Vec<u8>, EngineFault>
    requires { length input.now ≤ most_bytes }
    ensures encoded { IfOk result (λ bytes. IsEncoded O.order (kind_of profile) limit input.now bytes.items) }
    ensures refused { IfErr result (IsRefusedHeld (kind_of profile) limit input.now) }
{
    let mut encoder = Encoder::<O>::with_capacity(alloc, input.len() / 2)?;
    hand_text(alloc, limit, profile, input, &mut encoder)?;
    match encoder.finish() {
        Ok(encoded) => Ok(encoded.bytes),
        Err((place, reason)) => Err(EngineFault::Invalid(Invalid::Refused { place, reason })),
    }
}
