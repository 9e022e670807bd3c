//! Strings piece by piece (RFC 8610 appendix G.4), and their chunks (RFC 8949 section 3.2.3).

ghost use Rattle.std.specs.Prelude.{◌≡◌, ℕ, ◌≤◌, ◌++◌, List, Bool, length, take, drop, Option, Some, None, OnOk, true, ◌&&◌};
ghost use Rattle.cborn_edn.specs.Says as says;
ghost use Rattle.cborn_edn.specs.Common.{Here as Where, Has, WantsChunk, StringKind as Kind, OfText, IsUtf8, Absent};
ghost use Rattle.cborn_edn.specs.devices.Common.{Span as Place, Pieces as Joined, Strings, StringsBefore, strings, string, chunked, piece, text, no_string, after_strings, Stack, Home, as_item, as_chunk, wants, has, builds, wants_chunk, at_home, with_piece, joint, kind_or, Notes, Shows, piece_of, string_event, chunk_event, Reads};

use crate::events::{Event, hand};
use crate::meaning_errors::{FirstError, note_unless, note_width};
use crate::numbers::{is_absent, width_for};
use crate::states::{Chunks, Here, Joint, Phase, Writer};
use crate::{EdnReason, Result};
use cborn_lex::Mark;
use cborn_model::{StringKind, Visitor, shortest};

/// Whether both are byte strings, or both text strings.
#[inline(always)]
fn are_same(one: StringKind, other: StringKind) -> bool
    ensures { result ≡ says.same_kind one other }
{
    one == other
}

/// Whether a piece of the kind `next` may be a part of a string: any but text of a byte string.
#[inline(always)]
fn may_join(kind: StringKind, next: StringKind) -> bool
    ensures { result ≡ says.may_join kind next }
{
    kind == StringKind::OfText || next == StringKind::OfBytes
}

/// Notes what is wrong with a piece of the kind `kind` at `place` after those of `string`.
#[tactic(auto, using(crate::proofs::Reader::Joints::piece_noted))]
pub(crate) fn note_piece(string: Joint, kind: StringKind, place: usize, error: &mut FirstError)
    ensures { (s t : says.Str) → string ≡ joint s → kind ≡ t.kind → place ≡ t.place → Notes error.old error.new (says.piece_errors s t) }
{
    let reason = EdnReason::IndicatorNotAllowed;
    note_unless(is_absent(string.mark), string.mark_place, reason, error);
    let reason = EdnReason::MixedString;
    note_unless(may_join(string.kind, kind), place, reason, error);
}

/// Notes what is wrong with a whole string, whose bytes are `content`. `may_end` says whether its
/// indicator may ask for an indefinite length without a chunk.
#[inline(always)]
fn note_string(may_end: bool, string: Joint, content: &[u8], error: &mut FirstError)
    ensures { (s : says.Str) → string ≡ joint s → (s.known ≡ true → content.now ≡ s.bytes) → Notes error.old error.new (says.string_errors may_end s) }
{
    note_mark(may_end, string, content.len() as u64, error);
    if string.known {
        let reason = EdnReason::TextNotUtf8;
        note_unless(is_good(string.kind, content), string.place, reason, error);
    }
}

/// Notes what is wrong with the indicator of a whole string of `size` bytes, as `note_string` does.
#[tactic(auto, using(crate::proofs::Reader::Joints::mark_endless, crate::proofs::Reader::Joints::mark_wide, crate::proofs::Reader::Joints::mark_unknown))]
fn note_mark(may_end: bool, string: Joint, size: u64, error: &mut FirstError)
    ensures { (s : says.Str) → string ≡ joint s → (s.known ≡ true → size ≡ length s.bytes) → Notes error.old error.new (says.mark_errors may_end s) }
{
    if is_endless(string.mark) {
        let reason = EdnReason::IndicatorNotAllowed;
        note_unless(may_end, string.mark_place, reason, error);
    } else if string.known {
        note_width(string.mark, size, string.mark_place, error);
    }
}

/// Whether an indicator asks for an indefinite length.
#[inline(always)]
pub(crate) fn is_endless(mark: Mark) -> bool
    ensures { result ≡ says.is_endless mark }
{
    matches!(mark, Mark::Endless)
}

/// Whether the content of a string is UTF-8, if it is a text string. Most are short and ASCII, which is
/// quicker to see. Escapes leave that alone.
#[inline]
pub(crate) fn is_good(kind: StringKind, content: &[u8]) -> bool
    ensures { result ≡ says.is_good kind content.now }
{
    match kind {
        StringKind::OfBytes => true,
        StringKind::OfText => content.is_ascii() || simdutf8::is_utf8(content),
    }
}

/// Whether a piece of `size` bytes is `''` or `""`.
#[inline(always)]
fn is_lone(quoted: bool, size: usize) -> bool
    ensures { (x : List ℕ) → size ≡ length x → result ≡ (quoted && says.is_nil x) }
{
    quoted && size == 0
}

/// A token that is a piece of a string. It is `quoted` if it is in quotes without a prefix.
#[derive(Clone, Copy)]
pub(crate) struct StringToken {
    pub(crate) kind: StringKind,
    pub(crate) quoted: bool,
    pub(crate) place: usize,
    pub(crate) mark: Mark,
}

/// Adds a piece to a string, or begins a string with it. Its bytes are the last of the pieces.
#[inline(always)]
pub(crate) fn add_piece(token: StringToken, here: &mut Here, writer: &mut Writer)
    requires { writer.old.start ≤ length writer.old.pieces.items }
    ensures shows { (h : Home) (o : Option Joined) (a : Place) (x base : List ℕ) → token.place ≡ a.start → writer.old.pieces.items ≡ base ++ x → (token.kind ≡ OfText → token.quoted ≡ true) → Shows here.old writer.old base (at_home h o) → Shows here.new writer.new writer.new.pieces.items (builds h (with_piece o (piece_of token.kind a token.quoted x token.mark))) }
    ensures spellers { writer.new.spellers ≡ writer.old.spellers }
{
    here.phase = Phase::Builds;
    let Some(string) = writer.string else {
        writer.string = Some(Joint {
            kind: token.kind,
            place: token.place,
            mark: token.mark,
            mark_place: token.place,
            lone: is_lone(token.quoted, writer.pieces.len() - writer.start),
            known: true,
        });
        return;
    };
    note_piece(string, token.kind, token.place, &mut writer.error);
    writer.string = Some(Joint {
        mark: token.mark,
        mark_place: token.place,
        lone: false,
        ..string
    });
}

/// Ends a string, which is then an item.
#[inline(always)]
pub(crate) fn end_item<V: Visitor>(here: &mut Here, writer: &mut Writer, visitor: &mut V) -> Result
    requires { (st : Stack) × (ps : Joined) × Reads (V.holds visitor.old) here.old writer.old writer.old.pieces.items (builds (as_item st) ps) }
    ensures { OnOk result ((st : Stack) (ps : Joined) → Reads (V.holds visitor.old) here.old writer.old writer.old.pieces.items (builds (as_item st) ps) → Reads (V.holds visitor.new) here.new writer.new writer.new.pieces.items (has st (string ps))) }
{
    put_string(writer, visitor)?;
    here.phase = Phase::Has;
    Ok(())
}

/// Hands over the string that is open, which has ended.
#[inline(never)]
fn put_string<V: Visitor>(writer: &mut Writer, visitor: &mut V) -> Result
    requires { (here : Where) × (st : Stack) × (ps : Joined) × Reads (V.holds visitor.old) here writer.old writer.old.pieces.items (builds (as_item st) ps) }
    ensures { OnOk result ((here : Where) (st : Stack) (ps : Joined) → Reads (V.holds visitor.old) here writer.old writer.old.pieces.items (builds (as_item st) ps) → Reads (V.holds visitor.new) (record here { phase = Has }) writer.new writer.new.pieces.items (has st (string ps))) }
{
    let Some(joint) = writer.string else {
        unreachable!();
    };
    let content = &writer.pieces[writer.start..];
    note_string(joint.lone, joint, content, &mut writer.error);
    let event = string_event(joint, content.len());
    let spellers = &mut writer.spellers;
    hand(event, joint.place, content, writer.error, spellers, visitor)?;
    drop_pieces(writer);
    Ok(())
}

/// What is handed over of a whole string that is an item, with a content of `len` bytes.
#[inline(always)]
fn string_event(joint: Joint, len: usize) -> Event
    ensures { result ≡ string_event joint len }
{
    if joint.lone && is_endless(joint.mark) {
        return Event::NoChunks(joint.kind);
    }
    Event::String(joint.kind, width_for(joint.mark, len as u64))
}

/// Forgets the pieces of the innermost string, which has ended.
#[inline(always)]
fn drop_pieces(writer: &mut Writer)
    ensures rest { writer.new ≡ record writer.old { pieces = writer.new.pieces; string = None } }
    ensures pieces { writer.new.pieces.items ≡ take writer.old.start writer.old.pieces.items }
{
    writer.pieces.truncate(writer.start);
    writer.string = None;
}

/// Opens a string in chunks at `place`.
#[inline(always)]
pub(crate) fn open_chunks(place: usize, here: &mut Here, writer: &mut Writer)
    ensures shows { (st : Stack) (a : Place) → place ≡ a.start → Shows here.old writer.old writer.old.pieces.items (wants st) → Shows here.new writer.new writer.new.pieces.items (wants_chunk st a no_string) }
    ensures spellers { writer.new.spellers ≡ writer.old.spellers }
{
    writer.chunks = Some(Chunks { place, kind: None });
    here.phase = Phase::WantsChunk;
}

/// Ends a string, which is then a chunk.
#[inline(always)]
pub(crate) fn end_chunk<V: Visitor>(here: &mut Here, writer: &mut Writer, visitor: &mut V) -> Result
    requires { (st : Stack) × (s : Place) × (b : StringsBefore) × (ps : Joined) × Reads (V.holds visitor.old) here.old writer.old writer.old.pieces.items (builds (as_chunk st s b) ps) }
    ensures { OnOk result ((st : Stack) (s a : Place) (b : StringsBefore) (ps : Joined) → Reads (V.holds visitor.old) here.old writer.old writer.old.pieces.items (builds (as_chunk st s b) ps) → Reads (V.holds visitor.new) here.new writer.new writer.new.pieces.items (wants_chunk st s (after_strings (strings b ps) a))) }
{
    put_chunk(writer, visitor)?;
    here.phase = Phase::WantsChunk;
    Ok(())
}

/// Hands over the string that is open, which has ended and is a chunk.
#[inline(never)]
fn put_chunk<V: Visitor>(writer: &mut Writer, visitor: &mut V) -> Result
    requires { (here : Where) × (st : Stack) × (s : Place) × (b : StringsBefore) × (ps : Joined) × Reads (V.holds visitor.old) here writer.old writer.old.pieces.items (builds (as_chunk st s b) ps) }
    ensures { OnOk result ((here : Where) (st : Stack) (s a : Place) (b : StringsBefore) (ps : Joined) → Reads (V.holds visitor.old) here writer.old writer.old.pieces.items (builds (as_chunk st s b) ps) → Reads (V.holds visitor.new) (record here { phase = WantsChunk }) writer.new writer.new.pieces.items (wants_chunk st s (after_strings (strings b ps) a))) }
{
    let Some(joint) = writer.string else {
        unreachable!();
    };
    let Some(chunks) = writer.chunks else {
        unreachable!();
    };
    let kind = kind_or(chunks.kind, joint.kind);
    writer.chunks = Some(Chunks {
        kind: Some(kind),
        ..chunks
    });
    let content = &writer.pieces[writer.start..];
    note_chunk(kind, joint, content, &mut writer.error);
    let event = chunk_event(chunks, joint, content.len());
    let spellers = &mut writer.spellers;
    hand(event, joint.place, content, writer.error, spellers, visitor)?;
    drop_pieces(writer);
    Ok(())
}

/// What is handed over of a chunk of `len` bytes: the head of the string too, if it is the first.
#[inline(always)]
fn chunk_event(chunks: Chunks, joint: Joint, len: usize) -> Event
    ensures { result ≡ chunk_event chunks joint len }
{
    let width = width_for(joint.mark, len as u64);
    match chunks.kind {
        Some(_) => Event::String(joint.kind, width),
        None => Event::FirstChunk(chunks.place, joint.kind, width),
    }
}

/// The kind of the first chunk: `first`, or `next` if there was no chunk before.
#[inline(always)]
fn kind_or(first: Option<StringKind>, next: StringKind) -> StringKind
    ensures { result ≡ kind_or first next }
{
    first.unwrap_or(next)
}

/// Notes what is wrong with a chunk. `kind` is that of the first chunk.
fn note_chunk(kind: StringKind, string: Joint, content: &[u8], error: &mut FirstError)
    ensures { (s : says.Str) → string ≡ joint s → (s.known ≡ true → content.now ≡ s.bytes) → Notes error.old error.new (says.chunk_errors kind s) }
{
    let reason = EdnReason::MixedChunks;
    note_unless(are_same(kind, string.kind), string.place, reason, error);
    note_string(false, string, content, error);
}

/// Ends a string of one or more chunks, which is then an item.
#[tactic(auto, using(crate::proofs::HandedOver::Strings::hands_chunks_end, crate::proofs::Reader::Built::chunks_shown, crate::proofs::Reader::Results::on_ok))]
#[inline(always)]
pub(crate) fn end_chunks<V: Visitor>(
    here: &mut Here,
    writer: &mut Writer,
    visitor: &mut V,
) -> Result
    ensures { OnOk result ((st : Stack) (s a e : Place) (ss : Strings) → Reads (V.holds visitor.old) here.old writer.old writer.old.pieces.items (wants_chunk st s (after_strings ss a)) → Reads (V.holds visitor.new) here.new writer.new writer.new.pieces.items (has st (chunked s ss e))) }
{
    writer.chunks = None;
    here.phase = Phase::Has;
    let spellers = &mut writer.spellers;
    hand(Event::Close, 0, &[], writer.error, spellers, visitor)
}

/// Takes a text string at the offset `here.at` with its shortest head, which is an item.
#[tactic(auto, using(crate::proofs::Lemmas::hands_text, crate::proofs::Lemmas::leaf_shown, crate::proofs::Lemmas::on_ok, crate::proofs::Lemmas::text_item, crate::proofs::Lemmas::text_noted))]
#[inline(always)]
pub(crate) fn put_text<V: Visitor>(
    content: &[u8],
    here: &mut Here,
    writer: &mut Writer,
    visitor: &mut V,
) -> Result
    ensures read { OnOk result ((st : Stack) (a : Place) → here.old.at ≡ a.start → IsUtf8 content.now → Reads (V.holds visitor.old) here.old writer.old writer.old.pieces.items (wants st) → Reads (V.holds visitor.new) here.new writer.new writer.new.pieces.items (has st (string (piece (text a content.now Absent))))) }
    ensures at { OnOk result (here.new.at ≡ here.old.at) }
{
    here.phase = Phase::Has;
    let event = Event::String(StringKind::OfText, shortest(content.len() as u64));
    let spellers = &mut writer.spellers;
    hand(event, here.at, content, writer.error, spellers, visitor)
}

/// Takes a text string as `put_text` does: the pieces from the offset `start` on, which it forgets.
#[tactic(auto, using(crate::proofs::Lemmas::hands_text, crate::proofs::Lemmas::leaf_shown, crate::proofs::Common::take_rest, crate::proofs::Lemmas::text_item, crate::proofs::Lemmas::text_noted))]
#[inline(always)]
pub(crate) fn put_last_piece<V: Visitor>(
    start: usize,
    here: &mut Here,
    writer: &mut Writer,
    visitor: &mut V,
) -> Result
    requires { start ≤ length writer.old.pieces.items }
    ensures read { OnOk result ((st : Stack) (a : Place) → here.old.at ≡ a.start → IsUtf8 (drop start writer.old.pieces.items) → Reads (V.holds visitor.old) here.old writer.old (take start writer.old.pieces.items) (wants st) → Reads (V.holds visitor.new) here.new writer.new writer.new.pieces.items (has st (string (piece (text a (drop start writer.old.pieces.items) Absent))))) }
    ensures at { OnOk result (here.new.at ≡ here.old.at) }
{
    here.phase = Phase::Has;
    let content = &writer.pieces[start..];
    let event = Event::String(StringKind::OfText, shortest(content.len() as u64));
    let spellers = &mut writer.spellers;
    hand(event, here.at, content, writer.error, spellers, visitor)?;
    writer.pieces.truncate(start);
    Ok(())
}
