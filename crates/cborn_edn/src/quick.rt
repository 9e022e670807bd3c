//! Frequent tokens, taken without the lexer: an item with the comma or colon after it, one other
//! token, or white space.
//!
//! Each function answers whether it took something. If it took nothing, `tokens` and `steps` take
//! what is there. All functions are in line, so that `here` is kept in registers.

ghost use Rattle.std.specs.Prelude.{◌≡◌, ◌≤◌, ◌<◌, [], true, length, slice_index, IfOk};
ghost use Rattle.cborn_edn.specs.Common.{Profile, TokensBetween};
ghost use Rattle.cborn_edn.specs.devices.Common.{IsInside, Goes};
ghost use Rattle.cborn_edn.specs.declared.states.Phase.TheVariants as phases;

use crate::Result;
use crate::frequent::{has_byte_at, integer_at};
use crate::numbers::{Numeral, close_simple, put_simple};
use crate::quick_ends::{take_after, take_after_pieces, take_sized_ends};
use crate::quick_items::{
    take_chunked, take_embedded, take_integer, take_negative, take_openings, take_text, take_word,
};
use crate::states::{Here, Phase, Source, Writer};
use crate::white_space::{begins_white_space, skip_white_space};
use cborn_model::Visitor;

/// Takes what is next in the text, if it is frequent.
#[inline(always)]
pub(crate) fn take_common<V: Visitor>(
    source: Source,
    here: &mut Here,
    writer: &mut Writer,
    visitor: &mut V,
) -> Result<bool>
    requires { IsInside (V.holds visitor.old) source here.old writer.old }
    ensures { IfOk result (Goes (V.holds visitor.new) source.entry here.old here.new writer.new) }
{
    let taken = take_before(source, here, writer, visitor)?;
    if here.phase == Phase::Has && here.at < source.text.len() {
        return take_after(source, here, writer, visitor);
    }
    Ok(taken)
}

/// Takes what is next in the text, if it is frequent and no item was read last. Ends a string.
#[inline(always)]
fn take_before<V: Visitor>(
    source: Source,
    here: &mut Here,
    writer: &mut Writer,
    visitor: &mut V,
) -> Result<bool>
    requires { IsInside (V.holds visitor.old) source here.old writer.old }
    ensures { IfOk result (Goes (V.holds visitor.new) source.entry here.old here.new writer.new) }
{
    match here.phase {
        Phase::Wants | Phase::WantsMore => {}
        Phase::Has | Phase::WantsChunk => return Ok(false),
        Phase::Builds => return take_after_pieces(source, here, writer, visitor),
        Phase::WantsNumber => return take_simple_number(source, here, writer, visitor),
        Phase::HasNumber => return take_simple_end(source, here, writer, visitor),
    }
    match source.text.as_bytes()[here.at] {
        b'0'..=b'9' => take_integer(source, here, writer, visitor),
        b'"' => take_text(source, here, writer, visitor),
        b'-' => take_negative(source, here, writer, visitor),
        b'[' => take_openings(false, source, here, writer, visitor),
        b'{' => take_openings(true, source, here, writer, visitor),
        b'f' | b'n' | b't' | b'u' => take_word(source, here, writer, visitor),
        b'<' => take_embedded(source, here, writer, visitor),
        b'(' => take_chunked(source, here, writer, visitor),
        b']' if here.phase == Phase::Wants => take_sized_ends(false, source, here, writer, visitor),
        b'}' if here.phase == Phase::Wants => take_sized_ends(true, source, here, writer, visitor),
        _ => take_white_space(source, here, writer, visitor),
    }
}

/// Passes over a space, if there is one.
#[tactic(auto, using(crate::proofs::Reader::CommonTokens::white_here))]
#[inline(always)]
pub(crate) fn skip_space(text: &str, here: &mut Here)
    requires { here.old.at ≤ length text.now }
    ensures white { (profile : Profile) → TokensBetween profile text.now here.old.at here.new.at [] }
    ensures within { here.new.at ≤ length text.now }
    ensures rest { here.new ≡ record here.old { at = here.new.at } }
    ensures on { here.old.at ≤ here.new.at }
{
    if has_byte_at(b' ', text.as_bytes(), here.at) {
        here.at += 1;
    }
}

/// Takes white space, which comments are part of.
#[tactic(auto, using(crate::proofs::Lemmas::skipped, crate::proofs::Lemmas::white_here))]
#[inline(always)]
pub(crate) fn take_white_space<V: Visitor>(
    source: Source,
    here: &mut Here,
    writer: &mut Writer,
    visitor: &mut V,
) -> Result<bool>
    requires { IsInside (V.holds visitor.old) source here.old writer.old }
    ensures { IfOk result (Goes (V.holds visitor.new) source.entry here.old here.new writer.new) }
{
    let bytes = source.text.as_bytes();
    if !begins_white_space(bytes[here.at]) {
        return Ok(false);
    }
    let next = here.at + 1;
    if bytes[here.at] == b' ' && next < bytes.len() && !begins_white_space(bytes[next]) {
        here.at = next;
        return Ok(true);
    }
    let Some(stop) = skip_white_space(source.profile, bytes, here.at) else {
        return Ok(false);
    };
    let taken = stop > here.at;
    here.at = stop;
    Ok(taken)
}

/// Takes the number in `simple(..)`.
#[inline(always)]
fn take_simple_number<V: Visitor>(
    source: Source,
    here: &mut Here,
    writer: &mut Writer,
    visitor: &mut V,
) -> Result<bool>
    requires inside { IsInside (V.holds visitor.old) source here.old writer.old }
    requires number { here.old.phase ≡ phases.WantsNumber }
    ensures { IfOk result (Goes (V.holds visitor.new) source.entry here.old here.new writer.new) }
{
    let Some(found) = integer_at(source.text.as_bytes(), here.at) else {
        return Ok(false);
    };
    if found.is_tag || writer.brackets.count() > source.limit {
        return Ok(false);
    }
    let numeral = Numeral {
        negative: false,
        magnitude: found.number as u128,
        mark: found.mark,
    };
    put_simple(numeral, here.at, here, writer, visitor)?;
    here.at = found.stop;
    Ok(true)
}

/// Takes the `)` of `simple(..)`.
#[inline(always)]
fn take_simple_end<V: Visitor>(
    source: Source,
    here: &mut Here,
    writer: &mut Writer,
    visitor: &mut V,
) -> Result<bool>
    requires inside { IsInside (V.holds visitor.old) source here.old writer.old }
    requires number { here.old.phase ≡ phases.HasNumber }
    ensures { IfOk result (Goes (V.holds visitor.new) source.entry here.old here.new writer.new) }
{
    let bytes = source.text.as_bytes();
    if bytes[here.at] != b')' {
        return Ok(false);
    }
    let at = here.at;
    close_simple(here);
    here.at = at + 1;
    Ok(true)
}
