//! Reading a whole input, and writing what it holds in another form. Bytes that are to stay bytes
//! are what their nodes spell, once it is known that they are well-formed. Else they are read head
//! by head, and become notation on the way. A text becomes bytes first.
ghost use Rattle.std.specs.Prelude.{◌≡◌, ◌≢◌, ◌≤◌};
ghost use Rattle.cborn_engine.specs.Common.{ℕ, length, IfOk, IfErr, IsTrue, IsFalse, WireReason, Fault, IsWellformed, Kind};
ghost use Rattle.cborn_engine.specs.devices.Encoding.{kind_of};
ghost use Rattle.cborn_engine.specs.Reading.{most_bytes};
ghost use Rattle.cborn_engine.specs.Showing.{IsShown};
ghost use Rattle.cborn_engine.specs.devices.Malformed.{IsUnshownHeld};

use crate::faults::EngineFault;
use crate::kinds::{Kind, profile_of};
use crate::refusals::{fault_of_bytes, fault_or_refusal};
use crate::texts::bytes_of_text;
use cborn_edn::{Notated, ShowFault, show_bytes};
use cborn_lex::Profile;
use cborn_model::Limit;
use cborn_wire::{WireFault, scan};
use std::alloc::Global;

/// Whether an input is well-formed bytes that are to stay bytes. Where it isn't, and is of bytes
/// that are to stay bytes, it has a fault.
#[tactic(auto, using(crate::proofs::Answers::none_found, crate::proofs::Answers::own_spelling, crate::proofs::Answers::some_found))]
pub fn is_own_spelling(limit: Limit, in_kind: Kind, out_kind: Kind, input: &[u8]) -> bool
    ensures own { IsTrue result → IsShown in_kind out_kind limit input.now input.now }
    ensures malformed { IsFalse result → in_kind ≡ Kind.Wire → out_kind ≡ Kind.Wire → (p : ℕ) × (r : WireReason) × Fault limit input.now p r }
{
    in_kind == Kind::Wire && out_kind == Kind::Wire && scan(limit, input).is_none()
}

/// The items of an input as they are spelled, in a form of this kind. Bytes that stay as they are
/// have their answer from `is_own_spelling`, and are not copied here.
#[inline(always)]
pub fn show_input(
    alloc: Global,
    limit: Limit,
    in_kind: Kind,
    out_kind: Kind,
    input: &[u8],
) -> Result<Vec<u8>, EngineFault>
    requires short { length input.now ≤ most_bytes }
    requires malformed { in_kind ≡ Kind.Wire → out_kind ≡ Kind.Wire → IsWellformed limit input.now → ⊥ }
    ensures shown { IfOk result (λ bytes. IsShown in_kind out_kind limit input.now bytes.items) }
    ensures unshown { IfErr result (IsUnshownHeld in_kind out_kind limit input.now) }
{
    match profile_of(in_kind) {
        None => tell_bytes(alloc, limit, out_kind, input),
        Some(profile) => tell_text(alloc, limit, profile, out_kind, input),
    }
}

/// What `show_input` answers of bytes.
#[inline(always)]
fn tell_bytes(
    alloc: Global,
    limit: Limit,
    out_kind: Kind,
    input: &[u8],
) -> Result<Vec<u8>, EngineFault>
    requires { out_kind ≡ Kind.Wire → IsWellformed limit input.now → ⊥ }
    ensures shown { IfOk result (λ bytes. IsShown Kind.Wire out_kind limit input.now bytes.items) }
    ensures unshown { IfErr result (IsUnshownHeld Kind.Wire out_kind limit input.now) }
{
    match out_kind {
        Kind::Wire => Err(fault_of_bytes(limit, input)),
        Kind::Notation | Kind::Notation2 => notate_bytes(alloc, limit, out_kind, input),
    }
}

/// Bytes in notation. The fault of bytes that aren't well-formed is answered also where memory was
/// refused, and else `Show` where a text string isn't UTF-8.
#[inline(always)]
fn notate_bytes(
    alloc: Global,
    limit: Limit,
    out_kind: Kind,
    input: &[u8],
) -> Result<Vec<u8>, EngineFault>
    requires { out_kind ≢ Kind.Wire }
    ensures shown { IfOk result (λ bytes. IsShown Kind.Wire out_kind limit input.now bytes.items) }
    ensures unshown { IfErr result (IsUnshownHeld Kind.Wire out_kind limit input.now) }
{
    let notated = match show_bytes(alloc, limit, input) {
        Ok(notated) => notated,
        Err(refused) => return Err(fault_or_refusal(refused, limit, input)),
    };
    match notated {
        Notated::Text(answer) => Ok(answer),
        Notated::Malformed { place, reason } => {
            Err(EngineFault::Wire(WireFault::Refused { place, reason }))
        }
        Notated::NotUtf8 { place } => Err(EngineFault::Show(ShowFault::NotUtf8 { place })),
    }
}

/// What `show_input` answers of a text: the bytes that it spells, in a form of this kind, or why it
/// spells none. The text strings that it notates are UTF-8, so that they have a notation.
#[tactic(auto, using(crate::proofs::Held::NotatedTexts::spelled_shows, crate::proofs::Answers::as_text, crate::proofs::Answers::never_wire, crate::proofs::Answers::as_bytes))]
fn tell_text(
    alloc: Global,
    limit: Limit,
    profile: Profile,
    out_kind: Kind,
    input: &[u8],
) -> Result<Vec<u8>, EngineFault>
    requires { length input.now ≤ most_bytes }
    ensures shown { IfOk result (λ bytes. IsShown (kind_of profile) out_kind limit input.now bytes.items) }
    ensures unshown { IfErr result (IsUnshownHeld (kind_of profile) out_kind limit input.now) }
{
    let bytes = bytes_of_text(alloc, limit, profile, input)?;
    match out_kind {
        Kind::Wire => Ok(bytes),
        Kind::Notation | Kind::Notation2 => match show_bytes(alloc, limit, &bytes)? {
            Notated::Text(answer) => Ok(answer),
            Notated::Malformed { .. } => unreachable!(),
            Notated::NotUtf8 { .. } => unreachable!(),
        },
    }
}
