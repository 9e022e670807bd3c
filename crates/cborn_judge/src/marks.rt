//! Where the pairs of a map lie in a buffer, what is wrong with their order, and how they are
//! arranged.

ghost use Rattle.std.specs.Prelude.{◌≡◌, ◌<◌, ◌^◌, ◌++◌};
ghost use Rattle.cborn_judge.specs.Common.{ℕ, List, length, map, take, drop, flat_map, true, false, Option, None, IfOk, IfSome, IsTrue, OnOk, AllByRecursion, IsPermutation, joined, IsEarliest};
ghost use Rattle.cborn_judge.specs.Departures.{FindsDefect};
ghost use Rattle.cborn_judge.specs.Reasons.{defect_rank};
ghost use Rattle.cborn_judge.specs.shared.Judged.{FindsFlaw};
ghost use Rattle.cborn_judge.specs.devices.Encoding.{Row, row_entries, Mark as Marked, AreMarked, AreFilled, AreArranged, RowRepeat, FindsDescent};
ghost use Rattle.cborn_judge.specs.devices.Marks.{mark_of, narrow_of, mark_hint, narrow_hint, between, key_of, pair_of, AreHinted, is_above, mark_order, FallAt, TieAt, FallsIn, TiesIn};

use crate::defects::Defect;
use crate::faults::{Flaw, InvalidReason};
use crate::hints::{common_front, hint};
use crate::spellings::order_defect;
use cborn_model::{KeyOrder, Result, earliest};
use std::cmp::Ordering;

/// Where a key and its value lie in a buffer.
#[derive(Clone, Copy)]
pub(crate) struct Mark {
    /// The offset of the key in the input.
    pub(crate) place: u64,
    /// Where the key begins in the buffer.
    pub(crate) start: usize,
    /// Where it ends, and the value begins.
    pub(crate) middle: usize,
    /// Where the value ends.
    pub(crate) end: usize,
    /// The hint for the key; 0 until [`descent`] keeps it here. It is only for the sort.
    pub(crate) hint: u64,
}

/// A mark whose offsets fit 32 bits, in less room.
#[derive(Clone, Copy)]
pub(crate) struct NarrowMark {
    place: u32,
    start: u32,
    middle: u32,
    end: u32,
    hint: u64,
}

/// A mark, in whatever room it is kept.
pub(crate) trait Spot: Copy {
    /// What it marks, as contracts see it.
    ghost seen: { Self → Marked };

    /// The mark.
    fn mark(self) -> Mark
        ensures { mark_of result ≡ seen self };

    /// The hint that it keeps, as contracts see it.
    ghost hinted: { Self → ℕ };

    /// The hint that it keeps.
    fn hint(self) -> u64
        ensures { result ≡ hinted self };

    /// Keeps a hint.
    fn set_hint(&mut self, hint: u64)
        ensures set { hinted self.new ≡ hint }
        ensures kept { seen self.new ≡ seen self.old };
}

impl Spot for Mark {
    ghost seen = { mark_of };

    ghost hinted = { mark_hint };

    #[inline(always)]
    fn mark(self) -> Mark {
        self
    }

    #[inline(always)]
    fn hint(self) -> u64 {
        self.hint
    }

    #[inline(always)]
    fn set_hint(&mut self, hint: u64) {
        self.hint = hint;
    }
}

impl Spot for NarrowMark {
    ghost seen = { narrow_of };

    ghost hinted = { narrow_hint };

    #[inline(always)]
    fn mark(self) -> Mark {
        Mark {
            place: u64::from(self.place),
            start: self.start as usize,
            middle: self.middle as usize,
            end: self.end as usize,
            hint: self.hint,
        }
    }

    #[inline(always)]
    fn hint(self) -> u64 {
        self.hint
    }

    #[inline(always)]
    fn set_hint(&mut self, hint: u64) {
        self.hint = hint;
    }
}

impl NarrowMark {
    /// The mark of these offsets; `None` if one of them doesn't fit 32 bits.
    #[inline(always)]
    pub(crate) fn of(place: u64, start: usize, middle: usize, end: usize) -> Option<NarrowMark>
        ensures narrow { IfSome result (λ narrow. narrow_of narrow ≡ (place, start, middle, end)) }
        ensures wide { result ≡ None → place < 2 ^ 32 → start < 2 ^ 32 → middle < 2 ^ 32 → end < 2 ^ 32 → ⊥ }
    {
        Some(NarrowMark {
            place: u32::try_from(place).ok()?,
            start: u32::try_from(start).ok()?,
            middle: u32::try_from(middle).ok()?,
            end: u32::try_from(end).ok()?,
            hint: 0,
        })
    }

    /// Sets where the value ends, if that fits, and gives whether it does.
    #[inline(always)]
    pub(crate) fn set_end(&mut self, end: usize) -> bool
        ensures set { result ≡ true → (p s m e : ℕ) → narrow_of self.old ≡ (p, s, m, e) → narrow_of self.new ≡ (p, s, m, end) }
        ensures kept { result ≡ false → self.new ≡ self.old }
    {
        let Ok(end) = u32::try_from(end) else {
            return false;
        };
        self.end = end;
        true
    }
}

/// What `Pairs::descent` does.
pub(crate) fn descent<O: KeyOrder, S: Spot>(
    spots: &mut Vec<S>,
    from: usize,
    out: &[u8],
) -> Option<Defect>
    ensures found { (start : ℕ) → FindsDescent O.order start (drop from (map S.seen spots.old.items)) out.now result }
    ensures hinted { AreHinted S.hinted S.seen O.order out.now (drop from spots.new.items) }
    ensures kept { map S.seen spots.new.items ≡ map S.seen spots.old.items }
{
    if from > spots.len() {
        return None;
    }
    first_fall::<O, S>(&mut spots[from..], out)
}

/// What `Pairs::arrange` does.
pub(crate) fn arrange<O: KeyOrder, S: Spot>(
    spots: &mut Vec<S>,
    from: usize,
    start: usize,
    spare: &mut Vec<u8>,
    out: &mut Vec<u8>,
) -> Result<Option<Flaw>>
    requires { AreHinted S.hinted S.seen O.order out.old.items (drop from spots.old.items) }
    ensures repeat { IfOk result (λ flaw. (y : List ℕ) (rows : List Row) → start ≡ length y → out.old.items ≡ y ++ joined (row_entries rows) → AreMarked start rows (drop from (map S.seen spots.old.items)) → FindsFlaw (RowRepeat rows) flaw) }
    ensures arranged { IfOk result (λ flaw. flaw ≡ None → (y : List ℕ) (rows : List Row) → start ≡ length y → out.old.items ≡ y ++ joined (row_entries rows) → AreMarked start rows (drop from (map S.seen spots.old.items)) → AreFilled rows → (x : List ℕ) × AreArranged O.order rows x × (out.new.items ≡ y ++ x)) }
    ensures front { OnOk result ((y z : List ℕ) → start ≡ length y → out.old.items ≡ y ++ z → (x : List ℕ) × (out.new.items ≡ y ++ x)) }
    ensures before { take from (map S.seen spots.new.items) ≡ take from (map S.seen spots.old.items) }
{
    if from > spots.len() {
        return Ok(None);
    }
    arrange_all::<O, S>(&mut spots[from..], start, spare, out)
}

/// Arranges the pairs that lie in `out` from `start` on.
fn arrange_all<O: KeyOrder, S: Spot>(
    spots: &mut [S],
    start: usize,
    spare: &mut Vec<u8>,
    out: &mut Vec<u8>,
) -> Result<Option<Flaw>>
    requires { AreHinted S.hinted S.seen O.order out.old.items spots.old }
    ensures repeat { IfOk result (λ flaw. (y : List ℕ) (rows : List Row) → start ≡ length y → out.old.items ≡ y ++ joined (row_entries rows) → AreMarked start rows (map S.seen spots.old) → FindsFlaw (RowRepeat rows) flaw) }
    ensures arranged { IfOk result (λ flaw. flaw ≡ None → (y : List ℕ) (rows : List Row) → start ≡ length y → out.old.items ≡ y ++ joined (row_entries rows) → AreMarked start rows (map S.seen spots.old) → AreFilled rows → (x : List ℕ) × AreArranged O.order rows x × (out.new.items ≡ y ++ x)) }
    ensures front { OnOk result ((y z : List ℕ) → start ≡ length y → out.old.items ≡ y ++ z → (x : List ℕ) × (out.new.items ≡ y ++ x)) }
{
    let flaw = sort_apart::<O, S>(spots, out);
    if flaw.is_none() {
        set(spots, start, spare, out)?;
    }
    Ok(flaw)
}

/// Sorts marks so that their keys rise, and gives the first key that is the same as an earlier one.
/// They are sorted by the hints that they keep, then equal ones by others, and else by the bytes.
fn sort_apart<O: KeyOrder, S: Spot>(spots: &mut [S], out: &[u8]) -> Option<Flaw>
    requires { AreHinted S.hinted S.seen O.order out.now spots.old }
    ensures { (y : List ℕ) (rows : List Row) → out.now ≡ y ++ joined (row_entries rows) → AreMarked (length y) rows (map S.seen spots.old) → FindsFlaw (RowRepeat rows) result × (result ≡ None → AreFilled rows → AreArranged O.order rows (flat_map (pair_of out.now) (map S.seen spots.new))) }
{
    spots.sort_unstable_by_key(|spot| spot.hint());
    if do_rise::<O, S>(spots, out) {
        return None;
    }
    sort_runs::<O, S>(spots, out);
    if do_rise::<O, S>(spots, out) {
        return None;
    }
    spots.sort_unstable_by(|a, b| compare_keys::<O>(out, a.mark(), b.mark()));
    first_tie(spots, out)
}

/// Whether each key is above the one before it. Where the hint is higher, the bytes aren't looked at.
fn do_rise<O: KeyOrder, S: Spot>(spots: &[S], out: &[u8]) -> bool
    requires { AreHinted S.hinted S.seen O.order out.now spots.now }
    ensures { IsTrue result → FindsDefect (FallsIn O.order out.now (map S.seen spots.now)) None }
{
    spots.is_sorted_by(|a, b| is_above::<O, S>(out, *a, *b))
}

/// Whether the second has the higher hint, or else the key that is above the other's.
#[inline(always)]
fn is_above<O: KeyOrder, S: Spot>(out: &[u8], a: S, b: S) -> bool
    ensures { result ≡ is_above S.hinted S.seen O.order out.now a b }
{
    a.hint() < b.hint() || O::compare(key_in(out, a.mark()), key_in(out, b.mark())).is_lt()
}

/// Sorts marks that follow one another with equal hints by their keys.
fn sort_runs<O: KeyOrder, S: Spot>(spots: &mut [S], out: &[u8])
    ensures moved { IsPermutation (map S.seen spots.old) (map S.seen spots.new) }
    ensures hinted { AreHinted S.hinted S.seen O.order out.now spots.old → AreHinted S.hinted S.seen O.order out.now spots.new }
{
    let mut start = 0;
    for last in 0..spots.len() {
        let end = last + 1;
        if end < spots.len() && spots[end].hint() == spots[last].hint() {
            continue;
        }
        if start < last {
            sort_run::<O, S>(&mut spots[start..end], out);
        }
        start = end;
    }
}

/// Sorts marks that have the same hint by their keys: by hints for what comes after the front that
/// all have in common, then by the keys. Each gets its hint back: `do_rise` compares by it first.
#[inline(never)]
fn sort_run<O: KeyOrder, S: Spot>(spots: &mut [S], out: &[u8])
    ensures moved { IsPermutation (map S.seen spots.old) (map S.seen spots.new) }
    ensures hinted { (n : ℕ) → AllByRecursion (λ s. S.hinted s ≡ n) spots.old → AllByRecursion (λ s. S.hinted s ≡ n) spots.new }
{
    let Some(first) = spots.first() else {
        return;
    };
    let hint = first.hint();
    let common = common_len(spots, out);
    hint_after::<O, S>(common, spots, out);
    spots.sort_unstable_by(|a, b| match a.hint().cmp(&b.hint()) {
        Ordering::Equal => compare_keys::<O>(out, a.mark(), b.mark()),
        unequal => unequal,
    });
    set_hints(hint, spots);
}

/// Each mark gets this hint.
fn set_hints<S: Spot>(hint: u64, spots: &mut [S])
    ensures set { AllByRecursion (λ s. S.hinted s ≡ hint) spots.new }
    ensures kept { map S.seen spots.new ≡ map S.seen spots.old }
{
    for spot in spots.iter_mut() {
        spot.set_hint(hint);
    }
}

/// How many bytes at their front all keys of these marks have in common.
fn common_len<S: Spot>(spots: &[S], out: &[u8]) -> usize {
    let mut common: &[u8] = spots.first().map_or(&[], |spot| key_in(out, spot.mark()));
    for spot in spots {
        let key = key_in(out, spot.mark());
        if !key.starts_with(common) {
            common = common_front(common, key);
        }
    }
    common.len()
}

/// Each mark gets the hint for what comes after the first `common` bytes of its key.
fn hint_after<O: KeyOrder, S: Spot>(common: usize, spots: &mut [S], out: &[u8])
    ensures { map S.seen spots.new ≡ map S.seen spots.old }
{
    let known = O::known();
    for spot in spots.iter_mut() {
        let key = key_in(out, spot.mark());
        spot.set_hint(hint(known, from_index(key, common)));
    }
}

/// The first key that isn't above the one before it, of those that have an encoding. Each mark gets
/// its hint, and where that is higher than the one before, the bytes aren't looked at.
fn first_fall<O: KeyOrder, S: Spot>(spots: &mut [S], out: &[u8]) -> Option<Defect>
    ensures found { FindsDefect (FallsIn O.order out.now (map S.seen spots.old)) result }
    ensures hinted { AreHinted S.hinted S.seen O.order out.now spots.new }
    ensures kept { map S.seen spots.new ≡ map S.seen spots.old }
{
    let known = O::known();
    let mut first: Option<Defect> = None;
    let mut before: &[u8] = &[];
    let mut last = hint(known, before);
    for spot in spots.iter_mut() {
        let mark = spot.mark();
        let key = key_in(out, mark);
        let hint = hint(known, key);
        spot.set_hint(hint);
        if hint <= last {
            first = keep_fall::<O>(first, mark.place, before, key);
        }
        if !key.is_empty() {
            before = key;
            last = hint;
        }
    }
    first
}

/// The first of what was found so far and the defect of `key`, as `fall` gives it.
#[inline(always)]
fn keep_fall<O: KeyOrder>(
    first: Option<Defect>,
    place: u64,
    before: &[u8],
    key: &[u8],
) -> Option<Defect>
    ensures { (next : Option Defect) × FindsDefect (FallAt O.order before.now key.now place) next × IsEarliest (λ d. (d.place, defect_rank d.reason)) first next result }
{
    match first {
        Some(found) if found.place < place => first,
        _ => earliest(first, fall::<O>(place, before, key)),
    }
}

/// The defect of `key` at `place`, if it isn't above the one before it; none where either is empty.
fn fall<O: KeyOrder>(place: u64, before: &[u8], key: &[u8]) -> Option<Defect>
    ensures { FindsDefect (FallAt O.order before.now key.now place) result }
{
    if before.is_empty() || key.is_empty() {
        return None;
    }
    order_defect::<O>(place, before, key)
}

/// How two marks compare: by their keys, and at equal keys by where they lie.
#[inline(never)]
fn compare_keys<O: KeyOrder>(out: &[u8], a: Mark, b: Mark) -> Ordering
    ensures { result ≡ mark_order O.order out.now (mark_of a) (mark_of b) }
{
    O::compare(key_in(out, a), key_in(out, b)).then(a.start.cmp(&b.start))
}

/// The first key that is the same as the one before it, and not empty.
fn first_tie<S: Spot>(spots: &[S], out: &[u8]) -> Option<Flaw>
    ensures { FindsFlaw (TiesIn out.now (map S.seen spots.now)) result }
{
    let mut first: Option<Flaw> = None;
    let mut before: &[u8] = &[];
    for spot in spots {
        let mark = spot.mark();
        let key = key_in(out, mark);
        first = earliest(first, tie(mark.place, before, key));
        before = key;
    }
    first
}

/// The flaw of `key` at the offset `place`, if it is the same as the one before it, and not empty.
#[tactic(auto, using(crate::proofs::Encoding::PairsRead::empty))]
fn tie(place: u64, before: &[u8], key: &[u8]) -> Option<Flaw>
    ensures { FindsFlaw (TieAt before.now key.now place) result }
{
    if key.is_empty() {
        return None;
    }
    if before != key {
        return None;
    }
    let reason = InvalidReason::DuplicateKey;
    Some(Flaw { place, reason })
}

/// Writes the pairs that `out` has from `start` on in the order of the marks, by way of `spare`.
fn set<S: Spot>(spots: &[S], start: usize, spare: &mut Vec<u8>, out: &mut Vec<u8>) -> Result<()>
    ensures { OnOk result (out.new.items ≡ take start out.old.items ++ flat_map (pair_of out.old.items) (map S.seen spots.now)) }
{
    spare.clear();
    spare.reserve(out.len().saturating_sub(start))?;
    copy_pairs(spots, out, spare)?;
    out.truncate(start);
    out.extend_from_slice(spare)
}

/// Copies pairs one after another to the end of `copy`.
fn copy_pairs<S: Spot>(spots: &[S], out: &[u8], copy: &mut Vec<u8>) -> Result<()>
    ensures { OnOk result (copy.new.items ≡ copy.old.items ++ flat_map (pair_of out.now) (map S.seen spots.now)) }
{
    for spot in spots {
        let mark = spot.mark();
        copy.extend_from_slice(bytes_between(out, mark.start, mark.end))?;
    }
    Ok(())
}

/// The key that is marked. Empty if it lies outside.
#[inline(always)]
fn key_in(out: &[u8], mark: Mark) -> &[u8]
    ensures { result.now ≡ key_of out.now (mark_of mark) }
{
    bytes_between(out, mark.start, mark.middle)
}

/// The bytes from one offset to another, as far as there are any.
#[inline(always)]
fn bytes_between(bytes: &[u8], start: usize, end: usize) -> &[u8]
    ensures { result.now ≡ between start end bytes.now }
{
    if let Some(all) = bytes.get(start..end) {
        return all;
    }
    let rest = from_index(bytes, start);
    rest.get(..end.saturating_sub(start)).unwrap_or(rest)
}

/// The items from an index on.
#[inline(always)]
pub(crate) fn from_index<T>(items: &[T], from: usize) -> &[T]
    ensures { result.now ≡ drop from items.now }
{
    items.get(from..).unwrap_or(&[])
}
