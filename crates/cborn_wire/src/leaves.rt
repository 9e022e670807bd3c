//! Leaves that have one head: integers, simple values of one byte and strings of definite length.
//! They are taken whole from the front of a piece, one after another, or several at a time: integers
//! of an array, and a key with its value.

ghost use Rattle.std.specs.Prelude.{◌≡◌, ◌+◌, ◌<◌, ◌≤◌, ◌/◌, ◌%◌, ◌^◌, ℕ, List, length, take, drop, slice_index, OnOk, OnErr, IfOk, MatchOption, ⊤, Option, true};
ghost use Rattle.cborn_wire.specs.Common.{AreBytes, WidthFits, least, Partial, no_part, put, IsFree, major_at, IsGiven, IsLeafOf, IsLeaf, content_len, leaf_tree, TakesHead, TakesRun, Next, info_at, Keeps, is_array, is_at_key, text_in as content_of_text, Level as OneLevel};

use crate::counting::finish;
use crate::heads::{read_number, width_len};
use crate::levels::{Level, Levels};
use crate::short_integers::integers_at;
use cborn_model::{LeafPair, StringKind, Visitor, Width, shortest};
use std::alloc::AllocError;

/// A head with an argument, at the front of some bytes.
#[derive(Clone, Copy)]
pub(crate) struct GivenHead {
    /// The initial byte.
    pub(crate) first: u8,
    pub(crate) width: Width,
    pub(crate) argument: u64,
    /// The length of the head in bytes.
    pub(crate) len: usize,
}

/// The head at the front of `bytes`, if it has an argument and is no float and no simple value of
/// two bytes. It says less than `read_head`, and takes half of its instructions here.
#[tactic(auto, using(cborn_model::proofs::Bytes::are_bytes, crate::proofs::Visiting::Leaves::given_direct))]
#[inline(always)]
pub(crate) fn given_head(bytes: &[u8]) -> Option<GivenHead>
    ensures { MatchOption result ⊤ (IsGiven bytes.now) }
{
    let [first, rest @ ..] = bytes else {
        return None;
    };
    let first = *first;
    let information = first % 32;
    if information < 24 {
        return Some(GivenHead {
            first,
            width: Width::Direct,
            argument: u64::from(information),
            len: 1,
        });
    }
    if information > 27 || first >= 224 {
        return None;
    }
    match information {
        24 => wide_head(first, Width::One, rest),
        25 => wide_head(first, Width::Two, rest),
        26 => wide_head(first, Width::Four, rest),
        _ => wide_head(first, Width::Eight, rest),
    }
}

/// The head whose argument is at the front of `rest`. At each call the width is a constant.
#[tactic(auto, using(crate::proofs::Visiting::Leaves::given_wide))]
#[inline(always)]
fn wide_head(first: u8, width: Width, rest: &[u8]) -> Option<GivenHead>
    ensures { (x : List ℕ) → AreBytes x → 1 ≤ length x → first ≡ slice_index x 0 → rest.now ≡ drop 1 x → first < 224 → info_at (first % 32) ≡ Next width → MatchOption result ⊤ (IsGiven x) }
{
    let argument = read_number(width, rest)?;
    let len = 1 + width_len(width);
    Some(GivenHead {
        first,
        width,
        argument,
        len,
    })
}

/// A leaf that is whole at the front of some bytes.
#[derive(Clone, Copy)]
pub(crate) struct Leaf {
    pub(crate) head: GivenHead,
    /// Where it ends.
    pub(crate) end: usize,
}

/// The leaf that is whole at the front of `bytes`.
#[inline(always)]
pub(crate) fn leaf_at(bytes: &[u8]) -> Option<Leaf>
    ensures { MatchOption result ⊤ (λ leaf. IsLeafOf bytes.now leaf.head leaf.end) }
{
    let head = given_head(bytes)?;
    leaf_of(head, bytes)
}

/// The leaf with this head, if it is whole at the front of `bytes`.
#[inline(always)]
fn leaf_of(head: GivenHead, bytes: &[u8]) -> Option<Leaf>
    requires { IsGiven bytes.now head }
    ensures { MatchOption result ⊤ (λ leaf. IsLeafOf bytes.now leaf.head leaf.end × (leaf.head ≡ head)) }
{
    if head.first < 64 || head.first >= 224 {
        let end = head.len;
        return Some(Leaf { head, end });
    }
    if head.first >= 128 || head.argument > (bytes.len() - head.len) as u64 {
        return None;
    }
    let end = head.len + head.argument as usize;
    Some(Leaf { head, end })
}

/// Hands a leaf to a visitor. `bytes` is the content of a string, and empty of other leaves.
#[tactic(auto, using(crate::proofs::Visiting::Leaves::bytes_are, crate::proofs::Visiting::Leaves::text_is, crate::proofs::Visiting::Leaves::string_free))]
#[inline(always)]
pub(crate) fn visit_leaf<V: Visitor>(
    visitor: &mut V,
    place: u64,
    head: GivenHead,
    bytes: &[u8],
) -> Result<(), AllocError>
    requires leaf { IsLeaf (major_at (head.first / 32)) head.width }
    requires fits { WidthFits head.width head.argument }
    requires bytes { length bytes.now ≡ content_len (major_at (head.first / 32)) head.argument }
    ensures held { OnOk result ((f : Partial) → IsFree f → V.holds visitor.old f no_part → V.holds visitor.new (put f (leaf_tree place (major_at (head.first / 32)) head.width head.argument bytes.now)) no_part) }
    ensures memory { OnErr result V.takes_memory }
{
    if head.first < 64 {
        return visitor.integer(place, head.first >= 32, head.width, head.argument);
    }
    if head.first >= 224 {
        return visitor.simple(place, head.argument as u8);
    }
    match head.first < 96 {
        true => visitor.string(place, StringKind::OfBytes, head.width, bytes),
        false => visitor.string(place, StringKind::OfText, head.width, bytes),
    }
}

/// Takes leaves at the front of `piece`, which begins with this head at the offset `place`: one, or
/// those that the visitor takes at a time. Gives their length in bytes. 0: the head is none of a leaf,
/// or the leaf isn't whole, or no item is allowed here.
#[inline(always)]
pub(crate) fn take_leaves<L: Levels, V: Visitor>(
    levels: &mut L,
    visitor: &mut V,
    place: u64,
    head: GivenHead,
    piece: &[u8],
) -> Result<usize, AllocError>
    requires given { IsGiven piece.now head }
    requires room { place + length piece.now < 2 ^ 64 }
    ensures goes { (limit : ℕ) (f : Partial) → V.holds visitor.old f no_part → Keeps f (L.outer levels.old) (L.inner levels.old) → IfOk result (λ n. 0 < n → TakesHead limit place f piece.now (V.holds visitor.new) (L.outer levels.new) (L.inner levels.new) n) }
    ensures within { IfOk result (λ n. n ≤ length piece.now) }
    ensures none { IfOk result (λ n. n ≡ 0 → (visitor.new ≡ visitor.old) × (levels.new ≡ levels.old)) }
    ensures memory { OnErr result V.takes_memory }
{
    let level = levels.innermost();
    if level.is_chunks() {
        return Ok(0);
    }
    let Some(leaf) = leaf_of(head, piece) else {
        return Ok(0);
    };
    let taken = take_run(visitor, level, leaf, place, piece)?;
    levels.add_parts(taken.before_last);
    finish(levels, visitor, place + taken.len as u64)?;
    Ok(taken.len)
}

/// What was taken of some bytes.
#[derive(Clone, Copy)]
pub(crate) struct Taken {
    /// How many bytes.
    pub(crate) len: usize,
    /// How many leaves before the last.
    pub(crate) before_last: u64,
}

/// Takes this leaf at the front of `bytes`, with those after it that the visitor takes at a time.
#[inline(always)]
pub(crate) fn take_run<V: Visitor>(
    visitor: &mut V,
    level: Level,
    leaf: Leaf,
    place: u64,
    bytes: &[u8],
) -> Result<Taken, AllocError>
    requires { IsLeafOf bytes.now leaf.head leaf.end }
    ensures taken { IfOk result (λ t. TakesRun place bytes.now level t.before_last (V.holds visitor.old) (V.holds visitor.new) t.len) }
    ensures memory { OnErr result V.takes_memory }
{
    if let Some(taken) = take_several(visitor, level, leaf, place, bytes)? {
        return Ok(taken);
    }
    visit_leaf(visitor, place, leaf.head, &bytes[leaf.head.len..leaf.end])?;
    let (len, before_last) = (leaf.end, 0);
    Ok(Taken { len, before_last })
}

/// Takes a run of integers, or a key and its value. `None`: the visitor took nothing.
#[inline(always)]
fn take_several<V: Visitor>(
    visitor: &mut V,
    level: Level,
    leaf: Leaf,
    place: u64,
    bytes: &[u8],
) -> Result<Option<Taken>, AllocError>
    requires { IsLeafOf bytes.now leaf.head leaf.end }
    ensures taken { IfOk result (λ r. MatchOption r (visitor.new ≡ visitor.old) (λ t. TakesRun place bytes.now level t.before_last (V.holds visitor.old) (V.holds visitor.new) t.len)) }
    ensures memory { OnErr result V.takes_memory }
{
    if !V::takes_runs() {
        return Ok(None);
    }
    if level.is_array() {
        return take_integers(visitor, level, leaf, place, bytes);
    }
    if level.is_at_key() {
        return take_pair(visitor, leaf, place, bytes);
    }
    Ok(None)
}

/// Takes integers of an array. `None`: the visitor took nothing, or there is only one.
#[inline(always)]
fn take_integers<V: Visitor>(
    visitor: &mut V,
    level: Level,
    leaf: Leaf,
    place: u64,
    bytes: &[u8],
) -> Result<Option<Taken>, AllocError>
    requires { is_array level.kind ≡ true }
    ensures taken { IfOk result (λ r. MatchOption r (visitor.new ≡ visitor.old) (λ t. TakesRun place bytes.now level t.before_last (V.holds visitor.old) (V.holds visitor.new) t.len)) }
    ensures memory { OnErr result V.takes_memory }
{
    // A run is worth to look for where a second integer begins.
    if leaf.head.first > 63 || leaf.end >= bytes.len() || bytes[leaf.end] > 63 {
        return Ok(None);
    }
    let run = integers_at(bytes, level.room());
    if run.count < 2 || !visitor.integers(place, run.count, &bytes[..run.len])? {
        return Ok(None);
    }
    let (len, before_last) = (run.len, run.count - 1);
    Ok(Some(Taken { len, before_last }))
}

/// Takes a key and the value after it, where both are leaves with the shortest heads.
#[inline(always)]
fn take_pair<V: Visitor>(
    visitor: &mut V,
    key: Leaf,
    place: u64,
    bytes: &[u8],
) -> Result<Option<Taken>, AllocError>
    requires { IsLeafOf bytes.now key.head key.end }
    ensures taken { IfOk result (λ r. MatchOption r (visitor.new ≡ visitor.old) (λ t. (level : OneLevel) → is_at_key level.kind level.missing ≡ true → TakesRun place bytes.now level t.before_last (V.holds visitor.old) (V.holds visitor.new) t.len)) }
    ensures memory { OnErr result V.takes_memory }
{
    let after = &bytes[key.end..];
    let Some(value) = leaf_at(after) else {
        return Ok(None);
    };
    if !is_short(key.head) || !is_short(value.head) {
        return Ok(None);
    }
    let len = key.end + value.end;
    let pair = LeafPair {
        spelled: &bytes[..len],
        key_len: key.end,
        key_text: text_in(key.head, &bytes[..key.end]),
        value_text: text_in(value.head, &after[..value.end]),
    };
    if !visitor.pair(place, pair)? {
        return Ok(None);
    }
    let before_last = 1;
    Ok(Some(Taken { len, before_last }))
}

/// Whether a head is the shortest.
#[inline(always)]
fn is_short(head: GivenHead) -> bool
    requires { WidthFits head.width head.argument }
    ensures { result ≡ true → head.width ≡ least head.argument }
{
    match head.width {
        Width::Direct => true,
        width => width == shortest(head.argument),
    }
}

/// The content of the leaf with this head that is spelled so, if it is a text; else nothing.
#[inline(always)]
fn text_in(head: GivenHead, spelled: &[u8]) -> &[u8]
    requires { head.len ≤ length spelled.now }
    ensures { (place : ℕ) → result.now ≡ content_of_text (leaf_tree place (major_at (head.first / 32)) head.width head.argument (drop head.len spelled.now)) }
{
    if head.first < 96 || head.first >= 128 {
        return &[];
    }
    &spelled[head.len..]
}
