//! Flaws: why a node means no item (RFC 8949 sections 3.1, 3.4.3 and 5.6), and what is kept of faults.

ghost use Rattle.std.specs.Prelude.{◌≡◌};
ghost use Rattle.cborn_judge.specs.Common.{OutOfMemory, false, Some, IsEarliest, NotUtf8};
ghost use Rattle.cborn_judge.specs.Reasons.{flaw_rank};
ghost use Rattle.cborn_judge.specs.shared.Judged.{FindsFlaw};

use cborn_model::{Fault, earliest};
use std::alloc::{AllocError, AllocFailed};
use thiserror::Error;

/// Why a node means no item. The reasons are numbered from 1 in this order.
#[derive(Clone, Copy, PartialEq, Eq, Debug, Error)]
pub enum InvalidReason {
    /// A text string, or a chunk of one, is not UTF-8 (RFC 8949 section 3.1).
    #[error("not UTF-8")]
    NotUtf8,
    /// The content of tag 2 or 3 is not a byte string (RFC 8949 section 3.4.3).
    #[error("bad bignum")]
    BadBignum,
    /// A key is the same as an earlier key of its map (RFC 8949 section 5.6).
    #[error("duplicate key")]
    DuplicateKey,
}

/// Why there is no valid item.
#[derive(Clone, Copy, PartialEq, Eq, Debug, Error)]
pub enum Invalid {
    /// The node means no item. `place` is the offset of the head of the string or chunk that is not
    /// UTF-8, of the tag, or of the later key, in bytes from the start of the input that the node
    /// was read from.
    #[error("offset {place}: {reason}")]
    Refused { place: u64, reason: InvalidReason },
    /// Memory was refused.
    #[error("out of memory")]
    OutOfMemory,
}

impl From<AllocError> for Invalid {
    ghost from_gives = { λ _ e. e ≡ OutOfMemory };

    fn from(_why: AllocError) -> Invalid {
        Invalid::OutOfMemory
    }
}

impl<T: Drop> From<AllocFailed<T>> for Invalid {
    ghost from_gives = { λ _ e. e ≡ OutOfMemory };

    fn from(_why: AllocFailed<T>) -> Invalid {
        Invalid::OutOfMemory
    }
}

impl InvalidReason {
    /// The number of the reason, from 1.
    pub(crate) fn number(self) -> u8
        ensures { result ≡ flaw_rank self }
    {
        self as u8 + 1
    }
}

/// What is wrong, and at which offset.
#[derive(Clone, Copy)]
pub(crate) struct Flaw {
    pub place: u64,
    pub reason: InvalidReason,
}

impl Fault for Flaw {
    ghost key = { λ f. (f.place, flaw_rank f.reason) };

    fn place_and_number(self) -> (u64, u8) {
        (self.place, self.reason.number())
    }
}

/// The flaw of a string at `place`, if it isn't good.
#[inline(always)]
pub(crate) fn text_flaw(place: u64, is_good: bool) -> Option<Flaw>
    ensures { FindsFlaw (λ p r. (p ≡ place) × (r ≡ NotUtf8) × (is_good ≡ false)) result }
{
    if is_good {
        return None;
    }
    let reason = InvalidReason::NotUtf8;
    Some(Flaw { place, reason })
}

/// Keeps the first of what was found so far and what was found next.
#[inline(always)]
pub(crate) fn keep<F: Fault>(first: &mut Option<F>, next: Option<F>)
    ensures { IsEarliest F.key first.old next first.new }
{
    let Some(fault) = next else {
        return;
    };
    if may_precede(*first, fault) {
        keep_earlier(first, fault);
    }
}

/// Whether `fault` may come before what was found so far. As a rule it is at a higher place.
#[inline(always)]
pub(crate) fn may_precede<F: Fault>(first: Option<F>, fault: F) -> bool
    ensures { result ≡ false → IsEarliest F.key first (Some fault) first }
{
    match first {
        Some(so_far) => so_far.place_and_number().0 >= fault.place_and_number().0,
        None => true,
    }
}

/// What [`keep`] does where something was found that may come first.
#[cold]
#[inline(never)]
pub(crate) fn keep_earlier<F: Fault>(first: &mut Option<F>, fault: F)
    ensures { IsEarliest F.key first.old (Some fault) first.new }
{
    *first = earliest(*first, Some(fault));
}
