//! The grammar: what each token does in each phase. Each function answers whether the grammar has
//! such a token there.

ghost use Rattle.std.specs.Prelude.{◌≡◌, ℕ, ◌<◌, ◌^◌, Bool, true, false, List, IfOk};
ghost use Rattle.cborn_edn.specs.devices.Common.{Span as Place, Item, Pieces as Joined, Stack, Home, State, wants, has, builds, wants_number, has_number, Shows, Reads, is_piece, takes_no_piece, IsReady, Takes, Turned, Turns, EndsAt};
ghost use Rattle.cborn_edn.specs.Common.{Mark as Indicator, class_of};

use crate::Result;
use crate::containers::{open_embedded, open_sized, open_tag};
use crate::endings::{end_embedded, end_part, end_sized, end_tag};
use crate::numbers::{Numeral, close_simple, open_simple, put_number, put_simple, put_word};
use crate::states::{Here, Phase, Writer};
use crate::strings::{StringToken, add_piece, end_chunk, end_chunks, end_item, open_chunks};
use cborn_lex::{BareToken, Kind};
use cborn_model::{StringKind, Visitor};

/// Takes a token that was read. Its number is `number`, and the content of a string was appended to
/// the pieces. Answers whether the grammar has such a token here. If not, `here` and `writer` are not
/// to be used any more.
pub(crate) fn take<V: Visitor>(
    token: BareToken,
    number: u128,
    here: &mut Here,
    writer: &mut Writer,
    visitor: &mut V,
) -> Result<bool>
    requires { (s : State) × IsReady (V.holds visitor.old) token.kind number here.old writer.old s }
    ensures { IfOk result (λ ok. (s : State) → Takes (V.holds visitor.old) (V.holds visitor.new) token.kind number token.start here.old writer.old here.new writer.new ok s) }
{
    if is_piece(token.kind) {
        return take_piece(token, number, here, writer, visitor);
    }
    match here.phase {
        Phase::Wants | Phase::WantsMore => begin(token, number, here, writer, visitor),
        Phase::Has => after(token, number, here, writer, visitor),
        Phase::Builds => after_pieces(token, number, here, writer, visitor),
        Phase::WantsChunk => Ok(false),
        Phase::WantsNumber => begin_number(token, number, here, writer, visitor),
        Phase::HasNumber => Ok(after_number(token, number, here, writer)),
    }
}

/// Whether a token is a piece of a string, or begins one.
#[inline(always)]
pub(crate) fn is_piece(kind: Kind) -> bool
    ensures { result ≡ is_piece kind }
{
    matches!(kind, Kind::Text(_) | Kind::Bytes { .. } | Kind::EmbedOpen)
}

/// Takes a piece of a string, or a `<<`, which begins one.
#[tactic(auto, using(crate::proofs::Lemmas::no_piece_taken))]
fn take_piece<V: Visitor>(
    token: BareToken,
    number: u128,
    here: &mut Here,
    writer: &mut Writer,
    visitor: &mut V,
) -> Result<bool>
    requires piece { is_piece token.kind ≡ true }
    requires ready { (s : State) × IsReady (V.holds visitor.old) token.kind number here.old writer.old s }
    ensures { IfOk result (λ ok. (s : State) → Takes (V.holds visitor.old) (V.holds visitor.new) token.kind number token.start here.old writer.old here.new writer.new ok s) }
{
    if takes_no_piece(here.phase) {
        return Ok(false);
    }
    let place = token.start;
    match token.kind {
        Kind::Text(mark) => {
            let piece = StringToken {
                kind: StringKind::OfText,
                quoted: true,
                place,
                mark,
            };
            add_piece(piece, here, writer);
            Ok(true)
        }
        Kind::Bytes { quoted, mark } => {
            let piece = StringToken {
                kind: StringKind::OfBytes,
                quoted,
                place,
                mark,
            };
            add_piece(piece, here, writer);
            Ok(true)
        }
        Kind::EmbedOpen => {
            open_embedded(place, here, writer)?;
            Ok(true)
        }
        _ => unreachable!(),
    }
}

/// Whether no piece of a string is allowed in this phase.
fn takes_no_piece(phase: Phase) -> bool
    ensures { result ≡ takes_no_piece phase }
{
    matches!(phase, Phase::Has | Phase::WantsNumber | Phase::HasNumber)
}

/// Takes a token that is no piece where an item is wanted.
fn begin<V: Visitor>(
    token: BareToken,
    number: u128,
    here: &mut Here,
    writer: &mut Writer,
    visitor: &mut V,
) -> Result<bool>
    requires bare { is_piece token.kind ≡ false }
    requires ready { (st : Stack) × IsReady (V.holds visitor.old) token.kind number here.old writer.old (wants st) }
    ensures { IfOk result (λ ok. (st : Stack) → Turns (V.holds visitor.old) (V.holds visitor.new) token.kind number token.start here.old writer.old here.new writer.new ok (wants st)) }
{
    let place = token.start;
    match token.kind {
        Kind::ArrayOpen(mark) => {
            here.at = place;
            open_sized(false, mark, here, writer, visitor)?;
            Ok(true)
        }
        Kind::MapOpen(mark) => {
            here.at = place;
            open_sized(true, mark, here, writer, visitor)?;
            Ok(true)
        }
        Kind::TagOpen(mark) => {
            open_tag(number, mark, place, here, writer, visitor)?;
            Ok(true)
        }
        Kind::ChunkOpen => {
            open_chunks(place, here, writer);
            Ok(true)
        }
        Kind::SimpleOpen => {
            open_simple(place, here, writer);
            Ok(true)
        }
        Kind::Number { negative, mark } => {
            let numeral = Numeral {
                negative,
                magnitude: number,
                mark,
            };
            put_number(numeral, place, here, writer, visitor)?;
            Ok(true)
        }
        Kind::Word(n) => {
            put_word(n, place, here, writer, visitor)?;
            Ok(true)
        }
        Kind::ArrayClose => end_sized(false, here, writer, visitor),
        Kind::MapClose => end_sized(true, here, writer, visitor),
        Kind::EmbedClose(mark) => end_embedded(mark, place, here, writer, visitor),
        Kind::ParenClose | Kind::Comma | Kind::Colon => Ok(false),
        _ => unreachable!(),
    }
}

/// Takes a token after an item.
fn after<V: Visitor>(
    token: BareToken,
    number: u128,
    here: &mut Here,
    writer: &mut Writer,
    visitor: &mut V,
) -> Result<bool>
    requires few { here.old.count < 2 ^ 63 }
    requires shows { (st : Stack) × (i : Item) × Reads (V.holds visitor.old) here.old writer.old writer.old.pieces.items (has st i) }
    ensures { IfOk result (λ ok. (st : Stack) (i : Item) → Turns (V.holds visitor.old) (V.holds visitor.new) token.kind number token.start here.old writer.old here.new writer.new ok (has st i)) }
{
    match token.kind {
        Kind::ArrayClose => end_sized(false, here, writer, visitor),
        Kind::MapClose => end_sized(true, here, writer, visitor),
        Kind::EmbedClose(mark) => end_embedded(mark, token.start, here, writer, visitor),
        Kind::ParenClose => end_tag(here, writer, visitor),
        Kind::Colon => Ok(end_part(true, here, writer)),
        Kind::Comma => Ok(end_part(false, here, writer)),
        _ => Ok(false),
    }
}

/// Ends the pieces of a string or of a chunk, and takes the token after them.
#[tactic(auto, using(crate::proofs::Lemmas::item_home, crate::proofs::Lemmas::chunk_home))]
fn after_pieces<V: Visitor>(
    token: BareToken,
    number: u128,
    here: &mut Here,
    writer: &mut Writer,
    visitor: &mut V,
) -> Result<bool>
    requires few { here.old.count < 2 ^ 63 }
    requires shows { (h : Home) × (ps : Joined) × Reads (V.holds visitor.old) here.old writer.old writer.old.pieces.items (builds h ps) }
    ensures { IfOk result (λ ok. (h : Home) (ps : Joined) → EndsAt (V.holds visitor.old) (V.holds visitor.new) token.kind number token.start here.old writer.old here.new writer.new ok h ps) }
{
    if writer.chunks.is_none() {
        end_item(here, writer, visitor)?;
        return after(token, number, here, writer, visitor);
    }
    match token.kind {
        Kind::Comma => {
            end_chunk(here, writer, visitor)?;
            Ok(true)
        }
        Kind::ParenClose => {
            end_chunk(here, writer, visitor)?;
            end_chunks(here, writer, visitor)?;
            Ok(true)
        }
        _ => Ok(false),
    }
}

/// Takes a token where the number of a simple value is wanted.
fn begin_number<V: Visitor>(
    token: BareToken,
    number: u128,
    here: &mut Here,
    writer: &mut Writer,
    visitor: &mut V,
) -> Result<bool>
    ensures { IfOk result (λ ok. (st : Stack) (s : Place) → Turns (V.holds visitor.old) (V.holds visitor.new) token.kind number token.start here.old writer.old here.new writer.new ok (wants_number st s)) }
{
    match token.kind {
        Kind::Number { negative, mark } => {
            let numeral = Numeral {
                negative,
                magnitude: number,
                mark,
            };
            put_simple(numeral, token.start, here, writer, visitor)?;
            Ok(true)
        }
        _ => Ok(false),
    }
}

/// Takes a token after the number of a simple value.
fn after_number(token: BareToken, number: u128, here: &mut Here, writer: &Writer) -> bool
    ensures { (st : Stack) (s b a : Place) (n : Bool) (v : ℕ) (m : Indicator) (x : List ℕ) → Shows here.old writer.now writer.now.pieces.items (has_number st s b n v m) → Turned result (has_number st s b n v m) (class_of token.kind number x) a here.new writer.now }
{
    match token.kind {
        Kind::ParenClose => {
            close_simple(here);
            true
        }
        _ => false,
    }
}
