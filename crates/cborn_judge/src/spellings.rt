//! The defects of single heads, of bignums and of the order of keys.

ghost use Rattle.std.specs.Prelude.{◌↔◌};
ghost use Rattle.cborn_judge.specs.Common.{IsTrue, ended_size};
ghost use Rattle.cborn_judge.specs.Departures.{FindsDefect, LongAt, LooseBytesAt, NotAboveAt};
ghost use Rattle.cborn_judge.specs.shared.Checked.{SizeAt};
ghost use Rattle.cborn_judge.specs.Defects.{IsLoose};

use crate::defects::{Defect, DefectReason};
use cborn_model::{KeyOrder, Size, Width, shortest};

/// The defect of a head at the offset `place` with the argument `n`, if it is not the shortest (RFC
/// 8949 section 4.2.1).
#[inline]
pub(crate) fn head_defect(place: u64, width: Width, n: u64) -> Option<Defect>
    ensures { FindsDefect (LongAt place width n) result }
{
    if width == shortest(n) {
        return None;
    }
    let reason = DefectReason::LongHead;
    Some(Defect { place, reason })
}

/// The defect of the head of an array or a map of `n` entries, with this size and count at first.
#[inline(always)]
pub(crate) fn ended_defect(place: u64, size: Size, count: Option<u64>, n: u64) -> Option<Defect>
    ensures { FindsDefect (SizeAt place (ended_size size count n) n) result }
{
    let Size::Fixed(width) = size else {
        let reason = DefectReason::EndlessLength;
        return Some(Defect { place, reason });
    };
    if width == shortest(n) || count.is_none() && !width.holds(n) {
        return None;
    }
    let reason = DefectReason::LongHead;
    Some(Defect { place, reason })
}

/// The defect of a bignum at the offset `place` with these bytes, if they begin with a zero or are
/// at most eight (RFC 8949 section 3.4.3).
#[inline]
pub(crate) fn loose_defect(place: u64, bytes: &[u8]) -> Option<Defect>
    ensures { FindsDefect (LooseBytesAt place bytes.now) result }
{
    if is_loose(bytes) {
        let reason = DefectReason::LooseBignum;
        return Some(Defect { place, reason });
    }
    None
}

/// Whether the bytes of a bignum begin with 0 or are at most eight: then its integer has a shorter
/// encoding (RFC 8949 section 3.4.3).
#[inline]
pub(crate) fn is_loose(bytes: &[u8]) -> bool
    ensures { IsTrue result ↔ IsLoose bytes.now }
{
    bytes.len() <= 8 || bytes[0] == 0
}

/// The defect of a key at the offset `place`, if its encoding is not above `previous`, that of the
/// key before it, in the order `O` (RFC 8949 section 4.2.1).
#[inline]
pub(crate) fn order_defect<O: KeyOrder>(
    place: u64,
    previous: &[u8],
    encoding: &[u8],
) -> Option<Defect>
    ensures { FindsDefect (NotAboveAt O.order place previous.now encoding.now) result }
{
    if O::compare(previous, encoding).is_lt() {
        return None;
    }
    let reason = DefectReason::KeyOrder;
    Some(Defect { place, reason })
}
