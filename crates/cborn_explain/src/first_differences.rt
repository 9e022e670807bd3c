//! Where two sequences of items first differ.

ghost use Rattle.std.specs.Prelude.{◌≡◌, ◌≤◌, ◌<◌, length, take, slice_index_or, IfOk, MatchOption};
ghost use Rattle.cborn_explain.specs.Paths.{LeadsToDifference, up_to_key};

use crate::byte_walks::Walk;
use crate::faults::Found;
use crate::paths::{Path, Step};
use std::alloc::{AllocError, Global};

/// Where two sequences of items first differ.
#[derive(Drop)]
pub struct Difference {
    /// The offset in bytes of the head that differs, the same in both inputs. Where the difference
    /// is in a key of a map, it is the offset of the key.
    pub place: u64,
    /// The path to that offset, the same in both inputs.
    pub path: Path,
}

/// The offset and the path at which two sequences of items first differ. For a difference within a
/// key they are those of the outermost key around it. `None`: the bytes are equal.
///
/// # Errors
/// `AllocError` where memory for the path is refused.
pub fn find_difference(
    alloc: Global,
    first: &[u8],
    second: &[u8],
) -> Result<Option<Difference>, AllocError>
    ensures leads { IfOk result (λ found. MatchOption found (first.now ≡ second.now) (λ d. LeadsToDifference first.now second.now d.place d.path.steps.items)) }
{
    Ok(walk_to_difference(alloc, first, second)?.map(|(_, difference)| difference))
}

/// A walk over `first` to where the two first differ, and what [`find_difference`] gives.
pub(crate) fn walk_to_difference<'a>(
    alloc: Global,
    first: &'a [u8],
    second: &[u8],
) -> Found<(Walk<'a>, Difference)>
    ensures { IfOk result (λ found. MatchOption found (first.now ≡ second.now) (λ both. LeadsToDifference first.now second.now both.1.place both.1.path.steps.items)) }
{
    let common = common_len(first, second);
    if common == first.len() && common == second.len() {
        return Ok(None);
    }
    let walk = Walk::to(alloc, first, common)?;
    let mut path = walk.path(alloc)?;
    let len = len_to_key(&path.steps);
    path.steps.truncate(len);
    let place = walk.place_of(len) as u64;
    Ok(Some((walk, Difference { place, path })))
}

/// How many steps lead to the first key on a path, or to its end.
fn len_to_key(steps: &[Step]) -> usize
    ensures within { result ≤ length steps.now }
    ensures path { take result steps.now ≡ up_to_key steps.now }
{
    for (i, step) in steps.iter().enumerate() {
        if let Step::Key(_) = step {
            return i + 1;
        }
    }
    steps.len()
}

/// How many bytes the two inputs have in common at their start.
pub(crate) fn common_len(first: &[u8], second: &[u8]) -> usize
    ensures ours { result ≤ length first.now }
    ensures theirs { result ≤ length second.now }
    ensures same { take result first.now ≡ take result second.now }
    ensures differ { result < length first.now → result < length second.now → slice_index_or first.now result 0 ≡ slice_index_or second.now result 0 → ⊥ }
{
    let most = first.len().min(second.len());
    for i in 0..most {
        if first[i] != second[i] {
            return i;
        }
    }
    most
}
