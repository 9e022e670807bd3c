//! The calls of the engine, with an order of keys that C gave a number of, and of explanations.
ghost use Rattle.std.specs.Prelude.{◌≡◌, ◌≤◌, ◌*◌, ◌↔◌, length, IsTrue, IfOk, IfSome, IfNone};
ghost use Rattle.std.specs.Cow.{cow_slice_items};
ghost use Rattle.cborn_engine.specs.declared.kinds.Kind.TheVariants as kinds;
ghost use Rattle.cborn_engine.specs.Counts.{CountAnswer, NormalisedWhole, CheckedWhole};
ghost use Rattle.cborn_c.specs.Answers.{Matched};
ghost use Rattle.cborn_c.specs.Calls.{IsExplained, IsFaultOf};
ghost use Rattle.cborn_c.specs.Numbers.{order_of, IsOfFormat};

use crate::numbers::{KeyOrdering, defect_at, fault_at, of_first};
use cborn_engine::{
    CompareCountFault, Count, CountFault, Kind, check_slice, normalise_slice, same_items,
};
use cborn_explain::{explain_comparison, explain_defect, explain_fault};
use cborn_judge::Defect;
use cborn_model::{Bytewise, LengthFirst, Limit};
use std::alloc::{AllocError, Global};
use std::borrow::CowSlice;

/// Makes a call of the engine that is generic over the order of keys, with this order.
macro_rules! by_order {
    ($order:expr, $call:ident($($argument:expr),*)) => {
        match $order {
            KeyOrdering::Bytewise => $call::<Bytewise>($($argument),*),
            KeyOrdering::LengthFirst => $call::<LengthFirst>($($argument),*),
        }
    };
}

/// The canonical form of the items of the input, with the keys of maps in this order.
#[inline(always)]
pub fn normalised<'a>(
    alloc: Global,
    limit: Limit,
    count: Count,
    order: KeyOrdering,
    from: Kind,
    to: Kind,
    input: &'a [u8],
) -> Result<CowSlice<'a, u8, Global>, CountFault>
    ensures normalised { CountAnswer count from limit input.now (NormalisedWhole (order_of order) from to limit input.now) result }
    ensures room { IfOk result (λ output. from ≡ kinds.Wire → to ≡ kinds.Wire → 3 * length (cow_slice_items output) ≤ 4 * length input.now) }
{
    by_order!(order, normalise_slice(alloc, limit, count, from, to, input))
}

/// The first defect of the bytes. `None`: they are deterministic under this order.
#[inline(always)]
pub fn checked(
    alloc: Global,
    limit: Limit,
    count: Count,
    order: KeyOrdering,
    input: &[u8],
) -> Result<Option<Defect>, CountFault>
    ensures { CountAnswer count kinds.Wire limit input.now (CheckedWhole (order_of order) limit input.now) result }
{
    by_order!(order, check_slice(alloc, limit, count, input))
}

/// Whether two inputs hold the same items. The answer doesn't depend on an order of keys.
#[inline(always)]
pub fn matched(
    alloc: Global,
    limit: Limit,
    count: Count,
    from_a: Kind,
    first: &[u8],
    from_b: Kind,
    second: &[u8],
) -> Result<bool, CompareCountFault>
    ensures { Matched count from_a from_b limit first.now second.now result }
{
    same_items::<Bytewise>(alloc, limit, count, from_a, first, from_b, second)
}

/// Lines that say where two inputs differ. Maps are gone through in this order of keys. `same` says
/// whether the inputs hold the same items.
pub fn compared_lines(
    alloc: Global,
    limit: Limit,
    order: KeyOrdering,
    kinds: (Kind, Kind),
    inputs: (&[u8], &[u8]),
    same: bool,
) -> Result<String, AllocError> {
    by_order!(order, explain_comparison(alloc, limit, kinds, inputs, same))
}

/// Whether the class of a number is one of the faults in the content of an input of this format.
fn is_of_format(kind: Kind, number: u32) -> bool
    ensures { IsTrue result ↔ IsOfFormat kind number }
{
    let class = number / 256;
    match kind {
        Kind::Wire => matches!(class, 1 | 5 | 7) || number == 0x402,
        Kind::Notation | Kind::Notation2 => matches!(class, 2 | 3 | 5 | 7) || number == 0x401,
    }
}

/// A fault in the content of an input of this format that has this number. `None`: there is none.
fn content_fault_at(kind: Kind, number: u32, place: u64) -> Option<CountFault>
    ensures some { IfSome result (λ why. IsFaultOf kind number) }
    ensures none { IfNone result (IsFaultOf kind number → ⊥) }
{
    if is_of_format(kind, number) {
        fault_at(number, place)
    } else {
        None
    }
}

/// The explanation of a fault or a defect, whose number and offset in bytes another call reported for
/// this input, or that memory for it is refused. `None`: no input of this format has a defect, or a
/// fault in its content, with this number.
pub fn explained(
    alloc: Global,
    limit: Limit,
    kind: Kind,
    bytes: &[u8],
    number: u32,
    place: u64,
) -> Option<Result<String, AllocError>>
    ensures some { IfSome result (λ answer. IsExplained kind number) }
    ensures none { IfNone result (IsExplained kind number → ⊥) }
{
    if let (Kind::Wire, Some(reason)) = (kind, defect_at(number)) {
        let defect = Defect { place, reason };
        return Some(explain_defect(alloc, limit, bytes, defect));
    }
    let fault = content_fault_at(kind, of_first(number), place)?;
    Some(explain_fault(alloc, limit, kind, bytes, fault))
}
