//! How many items an input has to hold, and whether one that spells nodes does.
ghost use Rattle.std.specs.Prelude.{◌≡◌, ◌≤◌, ◌⊎◌};
ghost use Rattle.cborn_engine.specs.Common.{List, length, IfErr, OnOk, Tree, EngineFault, Kind, CountFault, Count};
ghost use Rattle.cborn_engine.specs.devices.Encoding.{kind_of};
ghost use Rattle.cborn_engine.specs.Holding.{Spells};
ghost use Rattle.cborn_engine.specs.Counts.{SpellsCount, SpellsOne, IsNotOne};
ghost use Rattle.cborn_engine.specs.Reading.{most_bytes};

use crate::count_faults::CountFault;
use crate::kinds::{Kind, profile_of};
use crate::places::Places;
use crate::texts::hand_text;
use cborn_lex::Profile;
use cborn_model::Limit;
use cborn_wire::first_end;
use std::alloc::Global;

/// How many items an input has to hold.
#[derive(Clone, Copy, PartialEq, Eq, Debug)]
pub enum Count {
    /// Any number of items, also none.
    Any,
    /// Exactly one item.
    One,
}

/// Refuses an input that spells nodes, but not as many as it has to. One that may spell any number isn't
/// looked at.
#[inline(always)]
pub fn expect(
    alloc: Global,
    limit: Limit,
    count: Count,
    kind: Kind,
    input: &[u8],
) -> Result<(), CountFault>
    requires short { length input.now ≤ most_bytes }
    requires spelled { (nodes : List Tree) × Spells kind limit input.now nodes }
    ensures counted { OnOk result (SpellsCount count kind limit input.now) }
    ensures refused { IfErr result (λ why. (count ≡ Count.One) × ((why ≡ CountFault.Engine EngineFault.OutOfMemory) ⊎ IsNotOne kind limit input.now why)) }
{
    match count {
        Count::Any => Ok(()),
        Count::One => expect_one(alloc, limit, kind, input),
    }
}

/// Refuses an input that spells nodes, but not exactly one.
fn expect_one(alloc: Global, limit: Limit, kind: Kind, input: &[u8]) -> Result<(), CountFault>
    requires short { length input.now ≤ most_bytes }
    requires spelled { (nodes : List Tree) × Spells kind limit input.now nodes }
    ensures one { OnOk result (SpellsOne kind limit input.now) }
    ensures refused { IfErr result (λ why. (why ≡ CountFault.Engine EngineFault.OutOfMemory) ⊎ IsNotOne kind limit input.now why) }
{
    match profile_of(kind) {
        None => one_in_bytes(alloc, limit, input),
        Some(profile) => one_in_text(alloc, limit, profile, input),
    }
}

/// What `expect_one` answers of bytes. They are walked over up to the end of the first item.
#[tactic(auto, using(crate::proofs::CountAnswers::Second::none_first, crate::proofs::CountAnswers::Second::none_in_bytes, crate::proofs::CountAnswers::Second::second_in_bytes))]
fn one_in_bytes(alloc: Global, limit: Limit, input: &[u8]) -> Result<(), CountFault>
    requires spelled { (nodes : List Tree) × Spells Kind.Wire limit input.now nodes }
    ensures one { OnOk result (SpellsOne Kind.Wire limit input.now) }
    ensures refused { IfErr result (λ why. (why ≡ CountFault.Engine EngineFault.OutOfMemory) ⊎ IsNotOne Kind.Wire limit input.now why) }
{
    let most = limit.get();
    prove!(most <= 1024);
    let Some(end) = first_end(alloc, input)? else {
        return Err(CountFault::NoItem(input.len() as u64));
    };
    if end == input.len() {
        return Ok(());
    }
    Err(CountFault::MoreItems(end as u64))
}

/// What `expect_one` answers of a text. It is read to its end.
#[tactic(auto, using(crate::proofs::Answers::known_error, crate::proofs::CountAnswers::Refused::refused_memory, crate::proofs::CountAnswers::Second::none_in_text))]
fn one_in_text(
    alloc: Global,
    limit: Limit,
    profile: Profile,
    input: &[u8],
) -> Result<(), CountFault>
    requires short { length input.now ≤ most_bytes }
    requires spelled { (nodes : List Tree) × Spells (kind_of profile) limit input.now nodes }
    ensures one { OnOk result (SpellsOne (kind_of profile) limit input.now) }
    ensures refused { IfErr result (λ why. (why ≡ CountFault.Engine EngineFault.OutOfMemory) ⊎ IsNotOne (kind_of profile) limit input.now why) }
{
    let mut items = Places::new(alloc);
    hand_text(alloc, limit, profile, input, &mut items)?;
    if items.first.is_none() {
        return Err(CountFault::NoItem(input.len() as u64));
    }
    match items.second {
        None => Ok(()),
        Some(place) => Err(CountFault::MoreItems(place)),
    }
}
