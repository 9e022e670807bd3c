//! Whether two inputs hold the same items. Each is read whole and encoded, the first before a byte
//! of the second is read; the encodings are equal exactly if the items are the same.
ghost use Rattle.std.specs.Prelude.{◌≡◌, ◌≤◌, ◌⊎◌, ◌+◌};
ghost use Rattle.cborn_engine.specs.Common.{Err, CompareFault, EngineFault};
ghost use Rattle.cborn_engine.specs.Comparing.{Compares, IsHeldWhole};
ghost use Rattle.cborn_engine.specs.Failures.{CountsFault};
ghost use Rattle.cborn_engine.specs.Reading.{most_bytes};

use crate::counted_streams::compare_streams;
use crate::counts::Count;
use crate::faults::CompareFault;
use crate::kinds::Kind;
use crate::sources::Source;
use cborn_model::{KeyOrder, Limit};
use std::alloc::Global;

/// Compares what two inputs hold. None: they hold the same items. Else the least index, from 0, at
/// which the items differ or only one input has an item. The answer doesn't depend on `O`. Each
/// input has at most 2^30 bytes.
///
/// # Errors
/// `First`, where the first input gave no items, by `ReadFault`, `TooLong` or the fault of its
/// content as `normalise` gives it, at its offset in bytes from the start of that input; then not a
/// byte of the second was read. `Second`, likewise, where the first input gave items and the second
/// gave none. `OutOfMemory` may come at any time, before a byte of the second was read or once the
/// first is known to hold items, and is never inside of `First` or `Second`.
#[tactic(auto, using(crate::proofs::CountAnswers::Any::compared_any, crate::proofs::CountAnswers::Any::any_compared))]
pub fn compare<O: KeyOrder, R: Source, Q: Source>(
    alloc: Global,
    limit: Limit,
    kind_a: Kind,
    first: &mut R,
    kind_b: Kind,
    second: &mut Q,
) -> Result<Option<u64>, CompareFault>
    ensures compares { Compares kind_a kind_b limit most_bytes (R.remaining first.old) (R.remaining first.new) (Q.remaining second.old) (Q.remaining second.new) result }
    ensures unread { (why : EngineFault) → result ≡ Err (CompareFault.First why) → second.new ≡ second.old }
    ensures first_held { (second.new ≡ second.old) ⊎ IsHeldWhole kind_a limit (R.remaining first.old) (R.remaining first.new) }
    ensures first_failures { CountsFault (CompareFault.First EngineFault.ReadFault) result (R.failed first.old) (R.failed first.new) }
    ensures second_failures { CountsFault (CompareFault.Second EngineFault.ReadFault) result (Q.failed second.old) (Q.failed second.new) }
    ensures first_calls { R.asked first.new ≤ R.asked first.old + most_bytes + 1 }
    ensures second_calls { Q.asked second.new ≤ Q.asked second.old + most_bytes + 1 }
{
    match compare_streams::<O, R, Q>(alloc, limit, Count::Any, kind_a, first, kind_b, second) {
        Ok(answer) => Ok(answer),
        Err(why) => Err(why.of_any()),
    }
}
