//! How lists grow.

ghost use Rattle.std.specs.Prelude.{◌≡◌, ◌<◌, ◌≤◌, ◌+◌, ◌*◌, ◌∷◌, ◌++◌};
ghost use Rattle.cborn_model.specs.Common.{max, [], OnOk, OnErr, vec_len, vec_capacity};

use std::alloc::AllocError;

/// What a call gives to which memory may be refused.
pub type Result<T, E = AllocError> = std::result::Result<T, E>;

/// Appends `one`. The capacity starts at one and doubles: most lists of elements, pairs and chunks
/// are short, and in a deep nest most have a single entry, which then takes no more memory than it
/// needs.
///
/// # Errors
/// `AllocError` if memory is refused; the list is unchanged.
#[inline(always)]
pub fn push_doubling<T: Drop>(list: &mut Vec<T>, one: T) -> Result<(), AllocError>
    ensures added { OnOk result (list.new.items ≡ list.old.items ++ one ∷ []) }
    ensures kept { OnErr result (list.new.items ≡ list.old.items) }
    ensures room { vec_capacity list.new ≤ max (vec_capacity list.old) (2 * vec_len list.old + 1) }
{
    if list.len() == list.capacity() {
        double(list)?;
    }
    list.push_reserved(one);
    Ok(())
}

/// Doubles the capacity of a full list, from 0 to 1.
#[cold]
#[inline(never)]
fn double<T>(list: &mut Vec<T>) -> Result<(), AllocError>
    ensures items { list.new.items ≡ list.old.items }
    ensures room { OnOk result (vec_len list.new < vec_capacity list.new) }
    ensures most { OnOk result (vec_capacity list.new ≤ max (vec_capacity list.old) (vec_len list.old + max 1 (vec_len list.old))) }
    ensures kept { OnErr result (vec_capacity list.new ≡ vec_capacity list.old) }
{
    let more = list.len().max(1);
    list.reserve_exact(more)
}
