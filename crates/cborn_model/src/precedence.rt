//! Which of several faults comes first.

ghost use Rattle.std.specs.Prelude.{◌≡◌};
ghost use Rattle.cborn_model.specs.Common.{ℕ};
ghost use Rattle.cborn_model.specs.Earliest.{IsEarlier, IsEarliest};

/// Something wrong at an offset, for a reason that has a number. The first of several is the one at
/// the lowest offset, and there the one with the lowest number.
pub trait Fault: Copy {
    /// Its offset and the number of its reason, as contracts see them.
    ghost key: { Self → ℕ × ℕ };

    /// Its offset in bytes, and the number of its reason. Takes no memory.
    fn place_and_number(self) -> (u64, u8)
        ensures { result ≡ key self };
}

/// The one of two faults that comes first. Takes no memory.
pub fn earlier<F: Fault>(fault: F, next: F) -> F
    ensures { IsEarlier F.key fault next result }
{
    let (place, number) = fault.place_and_number();
    let (next_place, next_number) = next.place_and_number();
    if next_place < place || (next_place == place && next_number < number) {
        next
    } else {
        fault
    }
}

/// The first of what was found so far and what was found next; `None` if nothing was. Takes no
/// memory.
pub fn earliest<F: Fault>(so_far: Option<F>, next: Option<F>) -> Option<F>
    ensures { IsEarliest F.key so_far next result }
{
    match (so_far, next) {
        (None, next) => next,
        (so_far, None) => so_far,
        (Some(fault), Some(next)) => Some(earlier(fault, next)),
    }
}
