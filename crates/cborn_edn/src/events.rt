//! What is read is handed over, event by event, as it is read.
//!
//! What is outside of `<<..>>` goes to the visitor. What is inside is spelled, since it is the content
//! of a string. After a meaning error nothing is handed over any more, since the text notates nothing.

ghost use Rattle.std.specs.Prelude.{◌≡◌, ◌∷◌, List, true, OnOk, if◌then◌else◌};
ghost use Rattle.cborn_edn.specs.Common.{Partial, put, no_part, IsFree};
ghost use Rattle.cborn_edn.specs.devices.Common.{bignum_of, Fits, Follows, first_error, is_none, State, noted, Hands, AllHanded, InnermostFollows};

use crate::Result;
use crate::meaning_errors::{FirstError, is_none};
use crate::spellers::Spellers;
use cborn_model::{Size, StringKind, Visitor, Width, shortest};

/// A head, a whole string or the end of a container. Its content is a value of its own.
#[derive(Clone, Copy)]
pub(crate) enum Event {
    Integer {
        negative: bool,
        width: Width,
        n: u64,
    },
    /// An integer outside 64 bits. Its content is the bytes of its argument.
    Bignum {
        negative: bool,
    },
    Simple(u8),
    /// How many items follow isn't known yet.
    Array(Size),
    /// How many pairs follow isn't known yet.
    Map(Size),
    Tag(Width, u64),
    /// A definite string with this content.
    String(StringKind, Width),
    /// The head of a string of indefinite length at this place, and its first chunk.
    FirstChunk(usize, StringKind, Width),
    /// A string of indefinite length without a chunk.
    NoChunks(StringKind),
    /// The innermost container ends.
    Close,
}

/// Hands an event at `place` to a visitor.
#[inline(always)]
pub(crate) fn hand_to<V: Visitor>(
    event: Event,
    place: usize,
    content: &[u8],
    visitor: &mut V,
) -> Result
    requires { Fits event content.now }
    ensures { OnOk result (Follows event place content.now (V.holds visitor.old) (V.holds visitor.new)) }
{
    let place = place as u64;
    match event {
        Event::Integer { negative, width, n } => visitor.integer(place, negative, width, n),
        Event::Bignum { negative } => hand_bignum(negative, place, content, visitor),
        Event::Simple(n) => visitor.simple(place, n),
        Event::Array(size) => visitor.open_array(place, size, None),
        Event::Map(size) => visitor.open_map(place, size, None),
        Event::Tag(width, n) => visitor.open_tag(place, width, n),
        Event::String(kind, width) => visitor.string(place, kind, width, content),
        Event::FirstChunk(outer, kind, width) => {
            visitor.open_chunks(outer as u64, kind)?;
            visitor.string(place, kind, width, content)
        }
        Event::NoChunks(kind) => {
            visitor.open_chunks(place, kind)?;
            visitor.close()
        }
        Event::Close => visitor.close(),
    }
}

/// Hands over an integer outside 64 bits: a byte string under the tag 2 or 3 (RFC 8949 section 3.4.3).
#[cold]
#[inline(never)]
fn hand_bignum<V: Visitor>(negative: bool, place: u64, bytes: &[u8], visitor: &mut V) -> Result
    ensures { OnOk result ((f : Partial) → IsFree f → V.holds visitor.old f no_part → V.holds visitor.new (put f (bignum_of place negative bytes.now)) no_part) }
{
    let width = shortest(bytes.len() as u64);
    visitor.open_tag(place, Width::Direct, 2 + negative as u64)?;
    visitor.string(place, StringKind::OfBytes, width, bytes)?;
    visitor.close()
}

/// Hands an event over, if there is no meaning error since the innermost `<<`.
#[tactic(auto, using(crate::proofs::Lemmas::silenced))]
#[inline(always)]
pub(crate) fn hand<V: Visitor>(
    event: Event,
    place: usize,
    content: &[u8],
    error: FirstError,
    spellers: &mut Spellers,
    visitor: &mut V,
) -> Result
    requires { is_none error ≡ true → Fits event content.now }
    ensures { OnOk result ((s u : State) (ss : List State) → error ≡ first_error (noted u) → Hands event place content.now s u → AllHanded (V.holds visitor.old) spellers.old (s ∷ ss) → AllHanded (V.holds visitor.new) spellers.new (u ∷ ss)) }
{
    if !is_none(error) {
        return Ok(());
    }
    if spellers.is_empty() {
        return hand_to(event, place, content, visitor);
    }
    hand_inside(event, place, content, spellers)
}

/// Hands an event to the innermost speller. A copy of the event is made here, so that no memory is
/// written for one that goes to the visitor.
#[inline(always)]
fn hand_inside(event: Event, place: usize, content: &[u8], spellers: &mut Spellers) -> Result
    requires { Fits event content.now }
    ensures { OnOk result (InnermostFollows event place content.now spellers.old spellers.new) }
{
    if let Event::Integer { negative, width, n } = event {
        return spellers.integer(place, negative, width, n);
    }
    let copy = event;
    spellers.hand(copy, place, content)
}
