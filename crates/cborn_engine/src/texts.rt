//! The text that the bytes of an input are, and what it notates.
ghost use Rattle.std.specs.Prelude.{◌≡◌, ◌≤◌};
ghost use Rattle.cborn_engine.specs.Common.{ℕ, List, [], length, IfOk, IfErr, OnOk, IsUtf8, Profile as ProfileSpec, top, no_part, Tree, trees, Notates};
ghost use Rattle.cborn_engine.specs.devices.Encoding.{kind_of};
ghost use Rattle.cborn_edn.specs.Spelling.{IsSpelling};
ghost use Rattle.cborn_engine.specs.Holding.{SpellsInPlace};
ghost use Rattle.cborn_engine.specs.Loading.{IsNoFlaw};
ghost use Rattle.cborn_engine.specs.devices.Malformed.{IsRefusedHeld};

use crate::faults::EngineFault;
use cborn_edn::{read_notation, read_text, visit_text};
use cborn_lex::Profile;
use cborn_model::{Limit, Spelled, Visitor};
use simdutf8::compat::from_utf8;
use std::alloc::Global;

/// The text that bytes are. The fault of others is the length of their longest front that is UTF-8.
pub fn text_of(bytes: &[u8]) -> Result<&str, EngineFault>
    ensures text { IfOk result (λ text. (text.now ≡ bytes.now) × IsUtf8 bytes.now) }
    ensures refused { IfErr result (λ why. (profile : ProfileSpec) (limit : ℕ) → IsRefusedHeld (kind_of profile) limit bytes.now why × IsNoFlaw why) }
    ensures none { IfErr result (λ _. IsUtf8 bytes.now → ⊥) }
{
    match from_utf8(bytes) {
        Ok(text) => Ok(text),
        Err(why) => Err(EngineFault::TextInput(why.valid_up_to() as u64)),
    }
}

/// The bytes that the nodes spell which a text notates, or the fault of its content.
pub fn bytes_of_text(
    alloc: Global,
    limit: Limit,
    profile: Profile,
    input: &[u8],
) -> Result<Vec<u8>, EngineFault>
    ensures spelled { IfOk result (λ bytes. IsUtf8 input.now × IsSpelling profile limit input.now bytes.items) }
    ensures refused { IfErr result (λ why. IsRefusedHeld (kind_of profile) limit input.now why × IsNoFlaw why) }
{
    let text = text_of(input)?;
    Ok(read_text(alloc, limit, profile, text)?)
}

/// The nodes that a text notates, or the fault of its content.
pub fn notated_nodes(
    alloc: Global,
    limit: Limit,
    profile: Profile,
    input: &[u8],
) -> Result<Vec<Spelled>, EngineFault>
    ensures spelled { IfOk result (λ nodes. SpellsInPlace (kind_of profile) limit input.now nodes.items) }
    ensures refused { IfErr result (λ why. IsRefusedHeld (kind_of profile) limit input.now why × IsNoFlaw why) }
{
    let text = text_of(input)?;
    Ok(read_notation(alloc, limit, profile, text)?)
}

/// Hands the nodes that a text notates to a visitor that was handed nothing, with their places in the
/// text. After an error nothing is known of the visitor.
pub fn hand_text<V: Visitor>(
    alloc: Global,
    limit: Limit,
    profile: Profile,
    input: &[u8],
    visitor: &mut V,
) -> Result<(), EngineFault>
    requires { V.holds visitor.old (top []) no_part }
    ensures nodes { OnOk result (IsUtf8 input.now × ((nodes : List Tree) × V.holds visitor.new (top nodes) no_part × Notates profile limit input.now (trees nodes))) }
    ensures refused { IfErr result (λ why. IsRefusedHeld (kind_of profile) limit input.now why × IsNoFlaw why) }
{
    let text = text_of(input)?;
    Ok(visit_text(alloc, limit, profile, text, visitor)?)
}
