//! Meaning errors. The first is kept and reported: the one with the lowest place, and of several at
//! one place the one whose reason has the lowest number.

ghost use Rattle.std.specs.Prelude.{◌≡◌, false};
ghost use Rattle.cborn_edn.specs.Says as says;
ghost use Rattle.cborn_edn.specs.devices.MeaningErrors as pure;
ghost use Rattle.cborn_edn.specs.devices.Common.{Notes};

use crate::EdnReason;
use cborn_lex::Mark;

/// A meaning error. `place` is its offset, in bytes from the start of the text.
#[derive(Clone, Copy)]
pub struct MeaningError {
    pub place: u64,
    pub reason: EdnReason,
}

/// The first meaning error, if there is one.
pub(crate) type FirstError = Option<MeaningError>;

/// The first of two meaning errors.
pub(crate) fn earlier(one: FirstError, other: FirstError) -> FirstError
    ensures { result ≡ pure.earlier one other }
{
    match (one, other) {
        (Some(a), Some(b)) => Some(if no_later(a, b) { a } else { b }),
        (Some(a), None) => Some(a),
        (None, b) => b,
    }
}

/// Whether `a` has a lower place than `b`, or has the same place and no higher number.
fn no_later(a: MeaningError, b: MeaningError) -> bool
    ensures { result ≡ pure.no_later a b }
{
    a.place < b.place || (a.place == b.place && a.reason.number() <= b.reason.number())
}

/// Notes one more meaning error: `error` keeps the first of both.
#[cold]
#[inline(never)]
pub(crate) fn note(place: usize, reason: EdnReason, error: &mut FirstError)
    ensures { Notes error.old error.new (says.unless false place reason) }
{
    let place = place as u64;
    *error = earlier(*error, Some(MeaningError { place, reason }));
}

/// Notes a meaning error at `place`, unless `good` holds.
#[inline(always)]
pub(crate) fn note_unless(holds: bool, place: usize, reason: EdnReason, error: &mut FirstError)
    ensures { Notes error.old error.new (says.unless holds place reason) }
{
    if !holds {
        note(place, reason, error);
    }
}

/// Notes what is wrong with the indicator at `place` of a definite head with the argument `n`.
#[inline(always)]
pub(crate) fn note_width(mark: Mark, n: u64, place: usize, error: &mut FirstError)
    ensures { Notes error.old error.new (says.width_errors place mark n) }
{
    match mark {
        Mark::Absent => {}
        Mark::Endless => note(place, EdnReason::IndicatorNotAllowed, error),
        Mark::Wide(width) => {
            note_unless(width.holds(n), place, EdnReason::IndicatorTooNarrow, error);
        }
    }
}

/// Whether there is no meaning error.
#[inline(always)]
pub(crate) fn is_none(error: FirstError) -> bool
    ensures { result ≡ pure.is_none error }
{
    matches!(error, None)
}
