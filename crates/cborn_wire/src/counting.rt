//! What heads make of the levels, and of what a visitor holds: one by one, or those at the front of a
//! piece whose initial bytes show that they are allowed.

ghost use Rattle.std.specs.Prelude.{◌≡◌, ◌<◌, ℕ, List, [], length, true, false, None, OnErr, IfOk, Err, ◌⊎◌, alloc_error, ◌+◌, ◌/◌, ◌%◌, ◌^◌, ◌≤◌, nat_le};
ghost use Rattle.cborn_wire.specs.Common.{Width as Wide, StringKind as Kind, Opening, Partial, inside, no_part, part, put, string_tree, TakesItem, TakesString, Tree, Refused, Memory, WireReason as Reason, Level as OneLevel, major_of, HeadFits, AreOpen, slot, open_depth, major_at, seen_argument, ArgumentFits, is_always_bounded, is_container, info_at, head_reason, finished, holding, ended, content_at, after_head, is_all, is_full, IsReached, may_end, level_in, with_part, ready, open_in, Keeps, Takes, Stands, Gives, state, TakesHead};
ghost use Rattle.cborn_wire.specs.declared.heads.Argument.TheVariants.{Endless};
ghost use Rattle.cborn_model.specs.declared.heads.Major.TheVariants as majors;

use crate::leaves::{given_head, take_leaves};
use crate::levels::{Level, LevelKind, Levels, is_plain};
use crate::{Argument, Head, VisitFault, WireReason};
use cborn_model::{Major, StringKind, Visitor, Width};
use std::alloc::AllocError;

/// Counts an item that ends at `end` in the innermost level, and closes it after its last part. Gives 0.
#[inline(always)]
pub(crate) fn finish<L: Levels, V: Visitor>(
    levels: &mut L,
    visitor: &mut V,
    end: u64,
) -> Result<u64, AllocError>
    ensures string { (f : Partial) (p : ℕ) (k : Kind) (w : Wide) (x : List ℕ) → TakesString f k → V.holds visitor.old (put f (string_tree p k w x)) no_part → Keeps f (L.outer levels.old) (L.inner levels.old) → IfOk result (λ left. Stands (V.holds visitor.new) (L.outer levels.new) (L.inner levels.new) left end (finished end (ready f) (open_in f) (string_tree p k w x))) }
    ensures goes { (f : Partial) (t : Tree) → TakesItem f → V.holds visitor.old (put f t) no_part → Keeps f (L.outer levels.old) (L.inner levels.old) → IfOk result (λ left. Stands (V.holds visitor.new) (L.outer levels.new) (L.inner levels.new) left end (finished end (ready f) (open_in f) t)) }
    ensures zero { IfOk result (λ left. left ≡ 0) }
    ensures memory { OnErr result V.takes_memory }
{
    if levels.add_part() {
        return Ok(0);
    }
    close(levels, visitor, end)
}

/// Closes the innermost level, whose last part is whole, counts it in the next, and so on. Gives 0.
#[inline(never)]
fn close<L: Levels, V: Visitor>(
    levels: &mut L,
    visitor: &mut V,
    end: u64,
) -> Result<u64, AllocError>
    ensures goes { (f : Partial) (t : Tree) (l : OneLevel) → V.holds visitor.old (put f t) no_part → Keeps f (L.outer levels.old) l → with_part l ≡ None → IfOk result (λ left. Stands (V.holds visitor.new) (L.outer levels.new) (L.inner levels.new) left end (finished end (ready f) (open_in f) t)) }
    ensures zero { IfOk result (λ left. left ≡ 0) }
    ensures memory { OnErr result V.takes_memory }
{
    'levels: while levels.leave() {
        visitor.close()?;
        if levels.add_part() {
            return Ok(0);
        }
    }
    Ok(0)
}

/// Ends the innermost level by a break that ends at the offset `end`. Gives 0.
#[inline(always)]
pub(crate) fn end_innermost<L: Levels, V: Visitor>(
    levels: &mut L,
    visitor: &mut V,
    end: u64,
) -> Result<u64, AllocError>
    requires { may_end (L.inner levels.old).kind (L.inner levels.old).missing ≡ true }
    ensures goes { (place : ℕ) (f : Partial) → V.holds visitor.old f no_part → Keeps f (L.outer levels.old) (L.inner levels.old) → IfOk result (λ left. Stands (V.holds visitor.new) (L.outer levels.new) (L.inner levels.new) left end (ended end place (ready f) (open_in f))) }
    ensures zero { IfOk result (λ left. left ≡ 0) }
    ensures memory { OnErr result V.takes_memory }
{
    if !levels.leave() {
        return Ok(0);
    }
    visitor.close()?;
    finish(levels, visitor, end)
}

/// Ends a string, at the offset `end`, of which the visitor has all bytes. Gives 0.
#[inline(always)]
pub(crate) fn close_string<L: Levels, V: Visitor>(
    levels: &mut L,
    visitor: &mut V,
    end: u64,
) -> Result<u64, AllocError>
    ensures goes { (f : Partial) (p : ℕ) (k : Kind) (w : Wide) (n : ℕ) (x : List ℕ) → length x ≡ n → TakesString f k → V.holds visitor.old f (part p k w n x) → Keeps f (L.outer levels.old) (L.inner levels.old) → IfOk result (λ left. Stands (V.holds visitor.new) (L.outer levels.new) (L.inner levels.new) left end (finished end (ready f) (open_in f) (string_tree p k w x))) }
    ensures memory { OnErr result V.takes_memory }
{
    visitor.close_string()?;
    finish(levels, visitor, end)
}

/// Goes into a container that the visitor has opened, or ends it at once if it announces none. Gives 0.
#[tactic(auto, using(crate::proofs::Visiting::Counting::opens, crate::proofs::Visiting::Counting::ends_empty))]
#[inline(always)]
fn enter<L: Levels, V: Visitor>(
    levels: &mut L,
    visitor: &mut V,
    end: u64,
    level: Level,
    count: Option<u64>,
) -> Result<u64, AllocError>
    requires { length (L.outer levels.old) < L.most }
    ensures goes { (f : Partial) (o : Opening) → TakesItem f → HeadFits o → level ≡ level_in o [] → is_full o 0 ≡ is_all count 0 → V.holds visitor.old (inside f o []) no_part → Keeps f (L.outer levels.old) (L.inner levels.old) → IfOk result (λ left. Stands (V.holds visitor.new) (L.outer levels.new) (L.inner levels.new) left end (holding end (ready f) (open_in f) o [])) }
    ensures zero { IfOk result (λ left. left ≡ 0) }
    ensures memory { OnErr result (V.takes_memory ⊎ L.takes_memory) }
{
    if let Some(0) = count {
        visitor.close()?;
        return finish(levels, visitor, end);
    }
    levels.open(level)?;
    Ok(0)
}

/// Takes the head at `place` of an array, a map or a tag, which ends at the offset `end`. Gives 0.
#[tactic(auto, using(crate::proofs::Visiting::Counting::announces))]
#[inline(always)]
pub(crate) fn open_container<L: Levels, V: Visitor>(
    levels: &mut L,
    visitor: &mut V,
    end: u64,
    place: u64,
    head: Head,
) -> Result<u64, AllocError>
    requires container { is_container (major_at head.major) ≡ true }
    requires bounded { head.argument ≡ Endless → is_always_bounded (major_at head.major) ≡ false }
    requires fits { ArgumentFits (seen_argument head.argument) }
    requires room { length (L.outer levels.old) < L.most }
    ensures goes { (f : Partial) → Takes f (major_at head.major) (seen_argument head.argument) → V.holds visitor.old f no_part → Keeps f (L.outer levels.old) (L.inner levels.old) → IfOk result (λ left. Stands (V.holds visitor.new) (L.outer levels.new) (L.inner levels.new) left end (after_head end place (ready f) (open_in f) (major_at head.major) (seen_argument head.argument))) }
    ensures zero { IfOk result (λ left. left ≡ 0) }
    ensures memory { OnErr result (V.takes_memory ⊎ L.takes_memory) }
{
    let (size, count) = head.argument.size_and_count();
    match (head.major_type(), head.argument) {
        (Major::Array, _) => {
            visitor.open_array(place, size, count)?;
            enter(levels, visitor, end, Level::of_array(place, count), count)
        }
        (Major::Map, _) => {
            visitor.open_map(place, size, count)?;
            enter(levels, visitor, end, Level::of_map(place, count), count)
        }
        (_, Argument::Given(width, n)) => {
            visitor.open_tag(place, width, n)?;
            let level = Level::new(place, LevelKind::Tag, n, 1);
            enter(levels, visitor, end, level, Some(1))
        }
        (_, Argument::Endless) => unreachable!(),
    }
}

/// Takes the head of a string, from the offset `place` to `end`. Gives how many bytes are to come.
#[inline(always)]
fn take_string<L: Levels, V: Visitor>(
    levels: &mut L,
    visitor: &mut V,
    end: u64,
    place: u64,
    string: (StringKind, Argument),
) -> Result<u64, AllocError>
    requires fits { ArgumentFits (seen_argument string.1) }
    requires room { length (L.outer levels.old) < L.most }
    ensures goes { (f : Partial) → Takes f (major_of string.0) (seen_argument string.1) → V.holds visitor.old f no_part → Keeps f (L.outer levels.old) (L.inner levels.old) → IfOk result (λ left. Stands (V.holds visitor.new) (L.outer levels.new) (L.inner levels.new) left end (after_head end place (ready f) (open_in f) (major_of string.0) (seen_argument string.1))) }
    ensures memory { OnErr result (V.takes_memory ⊎ L.takes_memory) }
{
    let (kind, argument) = string;
    let Argument::Given(width, len) = argument else {
        visitor.open_chunks(place, kind)?;
        levels.open(Level::new(place, LevelKind::Chunks(kind), 0, 0))?;
        return Ok(0);
    };
    visitor.open_string(place, kind, width, len)?;
    if len == 0 {
        return close_string(levels, visitor, end);
    }
    Ok(len)
}

/// Takes a head, from the offset `place` to `end`. Gives how many bytes of a string are to come.
#[tactic(auto, using(crate::proofs::Visiting::Counting::breaks_not))]
#[inline(always)]
pub(crate) fn take_head<L: Levels, V: Visitor>(
    levels: &mut L,
    visitor: &mut V,
    end: u64,
    place: u64,
    head: Head,
) -> Result<u64, VisitFault>
    requires fits { ArgumentFits (seen_argument head.argument) }
    requires room { length (L.outer levels.old) < L.most }
    ensures goes { (f : Partial) → Takes f (major_at head.major) (seen_argument head.argument) → V.holds visitor.old f no_part → Keeps f (L.outer levels.old) (L.inner levels.old) → Gives (V.holds visitor.new) (L.outer levels.new) (L.inner levels.new) end (ready f) (after_head end place (ready f) (open_in f) (major_at head.major) (seen_argument head.argument)) result }
    ensures kept { (p : ℕ) (r : Reason) → result ≡ Err (Refused p r) → (p ≡ place) × (visitor.new ≡ visitor.old) × (levels.new ≡ levels.old) }
    ensures memory { result ≡ Err (Memory alloc_error) → V.takes_memory ⊎ L.takes_memory }
{
    match (head.major_type(), head.argument) {
        (Major::Unsigned | Major::Negative, Argument::Given(width, n)) => {
            let negative = head.major_type() == Major::Negative;
            visitor.integer(place, negative, width, n)?;
            Ok(finish(levels, visitor, end)?)
        }
        (Major::ByteString, argument) => {
            let string = (StringKind::OfBytes, argument);
            Ok(take_string(levels, visitor, end, place, string)?)
        }
        (Major::TextString, argument) => {
            let string = (StringKind::OfText, argument);
            Ok(take_string(levels, visitor, end, place, string)?)
        }
        (Major::Array | Major::Map, _) | (Major::Tag, Argument::Given(..)) => {
            Ok(open_container(levels, visitor, end, place, head)?)
        }
        (Major::Other, Argument::Given(Width::One, 0..32)) => {
            Err(VisitFault::at(place, WireReason::BadSimple))
        }
        (Major::Other, Argument::Given(Width::Direct | Width::One, n)) => {
            visitor.simple(place, n as u8)?;
            Ok(finish(levels, visitor, end)?)
        }
        (Major::Other, Argument::Given(..)) => {
            Err(VisitFault::at(place, WireReason::FloatLeftOut))
        }
        (Major::Other, Argument::Endless) if levels.innermost().may_end() => {
            Ok(end_innermost(levels, visitor, end)?)
        }
        (Major::Other, Argument::Endless) => {
            Err(VisitFault::at(place, WireReason::UnexpectedBreak))
        }
        (_, Argument::Endless) => Err(VisitFault::at(place, WireReason::EndlessNotAllowed)),
    }
}

/// Whether a head with this initial byte is allowed next. False too where that takes more to find out.
#[inline(always)]
fn is_allowed<L: Levels>(levels: &L, limit: u64, first: u8) -> bool
    ensures endless { result ≡ true → first % 32 ≡ 31 → first < 192 }
    ensures room { result ≡ true → length (L.outer levels.now) < limit }
    ensures free { result ≡ true → (f : Partial) → Keeps f (L.outer levels.now) (L.inner levels.now) → AreOpen limit (open_in f) → None ≡ head_reason (slot (open_in f)) (nat_le limit (open_depth (open_in f))) (major_at (first / 32)) (info_at (first % 32)) [] }
{
    if !is_plain(first) || levels.count() as u64 >= limit {
        return false;
    }
    !levels.innermost().is_chunks()
}

/// Takes the head of indefinite length or the break at the front of `piece`, as `take_whole` does.
#[tactic(auto, using(crate::proofs::Visiting::Heads::container_at, crate::proofs::Visiting::Heads::bounded_not))]
#[inline(always)]
fn take_endless<L: Levels, V: Visitor>(
    levels: &mut L,
    visitor: &mut V,
    limit: u64,
    place: u64,
    piece: &[u8],
) -> Result<usize, AllocError>
    requires some { 0 < length piece.now }
    requires far { place + length piece.now < 2 ^ 64 }
    requires levels { limit < L.most }
    ensures goes { (f : Partial) → V.holds visitor.old f no_part → Keeps f (L.outer levels.old) (L.inner levels.old) → AreOpen limit (open_in f) → IfOk result (λ n. 0 < n → TakesHead limit place f piece.now (V.holds visitor.new) (L.outer levels.new) (L.inner levels.new) n) }
    ensures within { IfOk result (λ n. n ≤ length piece.now) }
    ensures none { IfOk result (λ n. n ≡ 0 → (visitor.new ≡ visitor.old) × (levels.new ≡ levels.old)) }
    ensures memory { OnErr result (V.takes_memory ⊎ L.takes_memory) }
{
    let first = piece[0];
    if first == 255 {
        if !levels.innermost().may_end() {
            return Ok(0);
        }
        end_innermost(levels, visitor, place + 1)?;
        return Ok(1);
    }
    if first < 128 || first % 32 != 31 || !is_allowed(levels, limit, first) {
        return Ok(0);
    }
    let (major, argument) = (first / 32, Argument::Endless);
    open_container(levels, visitor, place + 1, place, Head { major, argument })?;
    Ok(1)
}

/// Takes what is whole at the front of `piece`, which is at the offset `place`: a container's head, a
/// break, or leaves as `take_leaves` does. Gives its length in bytes; 0 where it takes nothing, since a
/// head or a string isn't whole, isn't allowed, or takes more to be found allowed.
#[tactic(auto, using(crate::proofs::Visiting::Heads::container_at))]
#[inline(always)]
fn take_whole<L: Levels, V: Visitor>(
    levels: &mut L,
    visitor: &mut V,
    limit: u64,
    place: u64,
    piece: &[u8],
) -> Result<usize, AllocError>
    requires some { 0 < length piece.now }
    requires far { place + length piece.now < 2 ^ 64 }
    requires levels { limit < L.most }
    ensures goes { (f : Partial) → V.holds visitor.old f no_part → Keeps f (L.outer levels.old) (L.inner levels.old) → AreOpen limit (open_in f) → IfOk result (λ n. 0 < n → TakesHead limit place f piece.now (V.holds visitor.new) (L.outer levels.new) (L.inner levels.new) n) }
    ensures within { IfOk result (λ n. n ≤ length piece.now) }
    ensures none { IfOk result (λ n. n ≡ 0 → (visitor.new ≡ visitor.old) × (levels.new ≡ levels.old)) }
    ensures memory { OnErr result (V.takes_memory ⊎ L.takes_memory) }
{
    let Some(head) = given_head(piece) else {
        return take_endless(levels, visitor, limit, place, piece);
    };
    if head.first < 128 || head.first >= 224 {
        return take_leaves(levels, visitor, place, head, piece);
    }
    if !is_allowed(levels, limit, head.first) {
        return Ok(0);
    }
    let end = place + head.len as u64;
    let len = head.len;
    let (major, argument) = (head.first / 32, Argument::Given(head.width, head.argument));
    open_container(levels, visitor, end, place, Head { major, argument })?;
    Ok(len)
}

/// Takes what `take_whole` does, again and again, until nothing is open. Gives the length in bytes. After
/// `AllocError` nothing is known of levels and visitor.
#[inline(always)]
pub(crate) fn take_heads<L: Levels, V: Visitor>(
    levels: &mut L,
    visitor: &mut V,
    limit: u64,
    place: u64,
    piece: &[u8],
) -> Result<usize, AllocError>
    requires far { place + length piece.now < 2 ^ 64 }
    requires levels { limit < L.most }
    ensures goes { (f : Partial) (base : ℕ) → V.holds visitor.old f no_part → Keeps f (L.outer levels.old) (L.inner levels.old) → IsReached limit base (state place f no_part) → IfOk result (λ n. 0 < n → TakesHead limit place f piece.now (V.holds visitor.new) (L.outer levels.new) (L.inner levels.new) n) }
    ensures within { IfOk result (λ n. n ≤ length piece.now) }
    ensures none { IfOk result (λ n. n ≡ 0 → (visitor.new ≡ visitor.old) × (levels.new ≡ levels.old)) }
    ensures memory { OnErr result (V.takes_memory ⊎ L.takes_memory) }
{
    let mut rest = piece;
    let mut at = place;
    'heads: while !rest.is_empty() {
        let len = take_whole(levels, visitor, limit, at, rest)?;
        if len == 0 {
            return Ok(piece.len() - rest.len());
        }
        rest = &rest[len..];
        at += len as u64;
        if levels.count() == 0 {
            return Ok(piece.len() - rest.len());
        }
    }
    Ok(piece.len() - rest.len())
}
