//! Brackets that open and end, and commas and colons between items.

ghost use Rattle.std.specs.Prelude.{◌≡◌, ℕ, ◌<◌, ◌^◌, [], ◌∷◌, ◌++◌, List, length, Option, Some, None, OnOk, true, false, ◌&&◌, if◌then◌else◌};
ghost use Rattle.cborn_edn.specs.Common.{Here as Where, Builds, Tree, trees, spelled_all, Mark as Indicator, Speller as OneSpeller, top, no_part, OpenBracket as Opened, Writer as Writing, Has, Wants, OfBytes};
ghost use Rattle.cborn_edn.specs.devices.Common.{Span as Place, Item, Content, Pieces as Joined, no_item, no_pair, array, map, tag, embedded, row, RowBefore, after_row, pairs, PairsBefore, after_pairs, Stack, Nest, in_row, in_key, in_value, in_tag, in_array, in_embed, Home, State, with_piece, wants, has, builds, at_home, Shows, content_state, entries_at, IsSpelled, Reads, joint, Notes, after_opening, Sized};
ghost use Rattle.cborn_edn.specs.Cited.{Str, joined, piece_errors, size_errors};
ghost use Rattle.cborn_edn.specs.devices.Handed as pure;

use crate::Result;
use crate::events::{Event, hand};
use crate::meaning_errors::{FirstError, earlier, is_none, note_width};
use crate::numbers::{OUTSIDE, note_tag, width_for};
use crate::states::{Around, Here, Joint, Level, OpenBracket, Phase, Writer};
use crate::strings::{is_endless, note_piece};
use cborn_lex::Mark;
use cborn_model::{Size, StringKind, Visitor, Width};
use cborn_wire::Speller;

/// The size of an array or a map with this indicator, whose number of items or pairs isn't known yet.
#[inline(always)]
fn size_asked(mark: Mark) -> Size
    ensures { result ≡ pure.size_asked mark }
{
    match mark {
        Mark::Absent => Size::Fixed(Width::Direct),
        Mark::Endless => Size::Endless,
        Mark::Wide(width) => Size::Fixed(width),
    }
}

/// Opens a map, or else an array, at the offset `here.at`.
#[tactic(auto, using(crate::proofs::Lemmas::both_ok, crate::proofs::Lemmas::free, crate::proofs::Lemmas::no_left, crate::proofs::Lemmas::opened_read, crate::proofs::Lemmas::same_errors))]
#[inline(always)]
pub(crate) fn open_sized<V: Visitor>(
    is_map: bool,
    mark: Mark,
    here: &mut Here,
    writer: &mut Writer,
    visitor: &mut V,
) -> Result
    ensures { OnOk result ((st : Stack) (a : Place) → here.old.at ≡ a.start → Reads (V.holds visitor.old) here.old writer.old writer.old.pieces.items (wants st) → Reads (V.holds visitor.new) here.new writer.new writer.new.pieces.items (wants (after_opening is_map st a mark))) }
{
    let place = here.at;
    let size = size_asked(mark);
    let spellers = &mut writer.spellers;
    if is_map {
        let event = Event::Map(size);
        hand(event, place, &[], writer.error, spellers, visitor)?;
        return open_bracket(Level::Key, mark, place, here, writer);
    }
    let event = Event::Array(size);
    hand(event, place, &[], writer.error, spellers, visitor)?;
    open_bracket(Level::Array, mark, place, here, writer)
}

/// Opens a tag at `place`, whose content is wanted.
#[inline(always)]
pub(crate) fn open_tag<V: Visitor>(
    number: u128,
    mark: Mark,
    place: usize,
    here: &mut Here,
    writer: &mut Writer,
    visitor: &mut V,
) -> Result
    ensures { OnOk result ((st : Stack) (a : Place) → place ≡ a.start → Reads (V.holds visitor.old) here.old writer.old writer.old.pieces.items (wants st) → Reads (V.holds visitor.new) here.new writer.new writer.new.pieces.items (wants (in_tag st a number mark))) }
{
    note_tag(number, mark, place, &mut writer.error);
    let n = (number % OUTSIDE) as u64;
    let event = Event::Tag(width_for(mark, n), n);
    let spellers = &mut writer.spellers;
    hand(event, place, &[], writer.error, spellers, visitor)?;
    open_bracket(Level::Tag, Mark::Absent, 0, here, writer)
}

/// Opens a `<<` at `place`, as the first piece of a string or a later one.
#[inline(always)]
pub(crate) fn open_embedded(place: usize, here: &mut Here, writer: &mut Writer) -> Result
    ensures shows { OnOk result ((h : Home) (o : Option Joined) (a : Place) → place ≡ a.start → Shows here.old writer.old writer.old.pieces.items (at_home h o) → Shows here.new writer.new writer.new.pieces.items (wants (in_row (in_embed h o a) no_item))) }
    ensures spellers { OnOk result ((p : OneSpeller) × (writer.new.spellers ≡ p ∷ writer.old.spellers) × ⟦<Speller as Visitor>⟧.holds p (top []) no_part) }
{
    open_around(writer)?;
    open_bracket(Level::Embedded, Mark::Absent, place, here, writer)
}

/// Keeps what is around a `<<` that opens, and begins what is inside.
#[inline(never)]
fn open_around(writer: &mut Writer) -> Result
    ensures kept { OnOk result (writer.new ≡ record writer.old { start = length writer.old.pieces.items; around = record { start = writer.old.start; string = writer.old.string; chunks = writer.old.chunks; error = writer.old.error } ∷ writer.old.around; spellers = writer.new.spellers; string = None; chunks = None; error = None }) }
    ensures spellers { OnOk result ((p : OneSpeller) × (writer.new.spellers ≡ p ∷ writer.old.spellers) × ⟦<Speller as Visitor>⟧.holds p (top []) no_part) }
{
    let around = Around {
        start: writer.start,
        string: writer.string.take(),
        chunks: writer.chunks.take(),
        error: writer.error.take(),
    };
    writer.around.open(around)?;
    writer.start = writer.pieces.len();
    writer.spellers.open()
}

/// Opens a bracket, in which an item is wanted.
#[inline(always)]
fn open_bracket(
    level: Level,
    mark: Mark,
    place: usize,
    here: &mut Here,
    writer: &mut Writer,
) -> Result
    ensures here { OnOk result (here.new ≡ record { at = here.old.at; count = 0; phase = Wants; level = level }) }
    ensures writer { OnOk result (writer.new ≡ record writer.old { brackets = record { place = place; count = here.old.count; level = here.old.level; mark = mark } ∷ writer.old.brackets }) }
{
    let bracket = OpenBracket {
        place,
        count: here.count,
        level: here.level,
        mark,
    };
    writer.brackets.open(bracket)?;
    here.count = 0;
    here.phase = Phase::Wants;
    here.level = level;
    Ok(())
}

/// How many items or pairs the innermost bracket has, where it ends.
#[inline(always)]
fn all_entries(here: &Here) -> u64
    requires { here.now.count < 2 ^ 63 }
    ensures { result ≡ entries_at here.now.phase here.now.count }
{
    match here.phase {
        Phase::Has => here.count + 1,
        _ => here.count,
    }
}

/// Takes off the innermost bracket, which is then an item, and gives it.
#[inline(always)]
fn shut(here: &mut Here, writer: &mut Writer) -> OpenBracket
    requires { 0 < length writer.old.brackets }
    ensures rest { writer.new ≡ record writer.old { brackets = writer.new.brackets } }
    ensures was { writer.old.brackets ≡ result ∷ writer.new.brackets }
    ensures top { (f : Opened) (fs : List Opened) → writer.old.brackets ≡ f ∷ fs → (result ≡ f) × (writer.new ≡ record writer.old { brackets = fs }) × (here.new ≡ record here.old { count = f.count; phase = Has; level = f.level }) }
{
    let Some(bracket) = writer.brackets.shut() else {
        unreachable!();
    };
    here.count = bracket.count;
    here.phase = Phase::Has;
    here.level = bracket.level;
    bracket
}

/// Notes what is wrong with the indicator of an array or a map of `count` items or pairs.
#[inline(always)]
fn note_size(bracket: OpenBracket, count: u64, error: &mut FirstError)
    ensures { Notes error.old error.new (size_errors bracket.place bracket.mark count) }
{
    if !is_endless(bracket.mark) {
        note_width(bracket.mark, count, bracket.place, error);
    }
}

/// Ends an array or a map.
#[inline(always)]
pub(crate) fn close_sized<V: Visitor>(
    here: &mut Here,
    writer: &mut Writer,
    visitor: &mut V,
) -> Result
    requires small { here.old.count < 2 ^ 63 }
    requires open { 0 < length writer.old.brackets }
    ensures { OnOk result ((s u : State) (a : Place) → Sized a s u → Reads (V.holds visitor.old) here.old writer.old writer.old.pieces.items s → Reads (V.holds visitor.new) here.new writer.new writer.new.pieces.items u) }
{
    let count = all_entries(here);
    let bracket = shut(here, writer);
    note_size(bracket, count, &mut writer.error);
    let spellers = &mut writer.spellers;
    hand(Event::Close, 0, &[], writer.error, spellers, visitor)
}

/// Ends a tag.
#[inline(always)]
pub(crate) fn close_tag<V: Visitor>(here: &mut Here, writer: &mut Writer, visitor: &mut V) -> Result
    requires { 0 < length writer.old.brackets }
    ensures { OnOk result ((st : Stack) (s a : Place) (n : ℕ) (m : Indicator) (i : Item) → Reads (V.holds visitor.old) here.old writer.old writer.old.pieces.items (has (in_tag st s n m) i) → Reads (V.holds visitor.new) here.new writer.new writer.new.pieces.items (has st (tag s n m i a))) }
{
    shut(here, writer);
    let spellers = &mut writer.spellers;
    hand(Event::Close, 0, &[], writer.error, spellers, visitor)
}

/// Ends a `<<` with a `>>` at `place`: it is then a piece of a string.
#[inline(always)]
pub(crate) fn close_embedded(
    mark: Mark,
    place: usize,
    here: &mut Here,
    writer: &mut Writer,
) -> Result
    requires { (h : Home) × (o : Option Joined) × (s : Place) × (c : Content) × Shows here.old writer.old writer.old.pieces.items (content_state (in_embed h o s) c) × IsSpelled writer.old.spellers (content_state (in_embed h o s) c) }
    ensures shows { OnOk result ((h : Home) (o : Option Joined) (s a : Place) (c : Content) → place ≡ a.start → Shows here.old writer.old writer.old.pieces.items (content_state (in_embed h o s) c) → IsSpelled writer.old.spellers (content_state (in_embed h o s) c) → Shows here.new writer.new writer.new.pieces.items (builds h (with_piece o (embedded s c a mark)))) }
    ensures spellers { OnOk result ((p : OneSpeller) × (writer.old.spellers ≡ p ∷ writer.new.spellers)) }
{
    let bracket = shut(here, writer);
    close_around(mark, bracket.place, place, writer)?;
    here.phase = Phase::Builds;
    Ok(())
}

/// Ends a `<<` at `opened`, whose bracket was taken off, with a `>>` at `place`.
#[inline(never)]
fn close_around(mark: Mark, opened: usize, place: usize, writer: &mut Writer) -> Result
    requires { (here : Where) × (f : Opened) × (h : Home) × (o : Option Joined) × (s : Place) × (c : Content) × Shows here (record writer.old { brackets = f ∷ writer.old.brackets }) writer.old.pieces.items (content_state (in_embed h o s) c) × IsSpelled writer.old.spellers (content_state (in_embed h o s) c) }
    ensures shows { OnOk result ((here : Where) (f : Opened) (h : Home) (o : Option Joined) (s a : Place) (c : Content) → f.place ≡ opened → place ≡ a.start → Shows here (record writer.old { brackets = f ∷ writer.old.brackets }) writer.old.pieces.items (content_state (in_embed h o s) c) → IsSpelled writer.old.spellers (content_state (in_embed h o s) c) → Shows (record here { count = f.count; phase = Builds; level = f.level }) writer.new writer.new.pieces.items (builds h (with_piece o (embedded s c a mark)))) }
    ensures spellers { OnOk result ((p : OneSpeller) × (writer.old.spellers ≡ p ∷ writer.new.spellers)) }
{
    let Some(speller) = writer.spellers.innermost() else {
        unreachable!();
    };
    let known = is_none(writer.error);
    push_spelled(known, speller, &mut writer.pieces)?;
    writer.spellers.shut();
    let Some(around) = writer.around.shut() else {
        unreachable!();
    };
    writer.error = earlier(around.error, writer.error);
    let error = &mut writer.error;
    let string = with_embedded(around.string, opened, known, mark, place, error);
    writer.start = around.start;
    writer.chunks = around.chunks;
    writer.string = Some(string);
    Ok(())
}

/// Appends the bytes of what is embedded, if it is known.
#[inline(always)]
fn push_spelled(known: bool, speller: &Speller, pieces: &mut Vec<u8>) -> Result
    requires { known ≡ true → (ts : List Tree) × ⟦<Speller as Visitor>⟧.holds speller.now (top ts) no_part }
    ensures { OnOk result ((ts : List Tree) → (known ≡ true → ⟦<Speller as Visitor>⟧.holds speller.now (top ts) no_part) → pieces.new.items ≡ pieces.old.items ++ (if known then spelled_all (trees ts) else [])) }
{
    if known {
        pieces.extend_from_slice(speller.written())?;
    }
    Ok(())
}

/// The string of the pieces `before` and of one that is embedded, from the `<<` at `opened` to the `>>`
/// at `place`, and has no meaning error if it is `known`. Notes what is wrong with the piece.
#[inline(always)]
fn with_embedded(
    before: Option<Joint>,
    opened: usize,
    known: bool,
    mark: Mark,
    place: usize,
    error: &mut FirstError,
) -> Joint
    ensures alone { (t : Str) → before ≡ None → t.kind ≡ OfBytes → t.place ≡ opened → t.lone ≡ false → t.known ≡ known → t.mark ≡ mark → t.mark_place ≡ place → (result ≡ joint t) × (error.new ≡ error.old) }
    ensures more { (s t : Str) → before ≡ Some (joint s) → t.kind ≡ OfBytes → t.place ≡ opened → t.known ≡ known → t.mark ≡ mark → t.mark_place ≡ place → (result ≡ joint (joined s t)) × Notes error.old error.new (piece_errors s t) }
{
    match before {
        Some(string) => {
            note_piece(string, StringKind::OfBytes, opened, error);
            Joint {
                mark,
                mark_place: place,
                lone: false,
                known: string.known & known,
                ..string
            }
        }
        None => Joint {
            kind: StringKind::OfBytes,
            place: opened,
            mark,
            mark_place: place,
            lone: false,
            known,
        },
    }
}
