//! Frequent items, and brackets that open, taken without the lexer where an item is wanted. Each
//! function answers whether it took something.

ghost use Rattle.std.specs.Prelude.{◌≡◌, slice_index, IfOk};
ghost use Rattle.cborn_edn.specs.devices.Common.{IsInside, IsWanting, Goes};

use crate::Result;
use crate::containers::{open_embedded, open_sized, open_tag};
use crate::frequent::{
    embeds_at, integer_at, negative_at, opening_at, opens_at, opens_chunks_at, plain_text_at,
    push_text, word_at,
};
use crate::numbers::{Numeral, put_number, put_word};
use crate::quick_ends::take_sized_ends;
use crate::states::{Here, Phase, Source, Writer};
use crate::strings::{open_chunks, put_last_piece, put_text};
use cborn_lex::Mark;
use cborn_model::Visitor;

/// Takes an integer without a minus, or the number of a tag and its `(`.
#[inline(always)]
pub(crate) fn take_integer<V: Visitor>(
    source: Source,
    here: &mut Here,
    writer: &mut Writer,
    visitor: &mut V,
) -> Result<bool>
    requires { IsWanting (V.holds visitor.old) source here.old writer.old }
    ensures { IfOk result (Goes (V.holds visitor.new) source.entry here.old here.new writer.new) }
{
    let Some(found) = integer_at(source.text.as_bytes(), here.at) else {
        return Ok(false);
    };
    if found.is_tag {
        if writer.brackets.count() >= source.limit {
            return Ok(false);
        }
        open_tag(
            found.number as u128,
            found.mark,
            here.at,
            here,
            writer,
            visitor,
        )?;
        here.at = found.stop;
        return Ok(true);
    }
    if writer.brackets.count() > source.limit {
        return Ok(false);
    }
    let numeral = Numeral {
        negative: false,
        magnitude: found.number as u128,
        mark: found.mark,
    };
    put_number(numeral, here.at, here, writer, visitor)?;
    here.at = found.stop;
    Ok(true)
}

/// Takes an integer below zero.
#[inline(always)]
pub(crate) fn take_negative<V: Visitor>(
    source: Source,
    here: &mut Here,
    writer: &mut Writer,
    visitor: &mut V,
) -> Result<bool>
    requires wanting { IsWanting (V.holds visitor.old) source here.old writer.old }
    requires minus { slice_index source.text.now here.old.at ≡ 45 }
    ensures { IfOk result (Goes (V.holds visitor.new) source.entry here.old here.new writer.new) }
{
    let Some((n, stop)) = negative_at(source.text.as_bytes(), here.at) else {
        return Ok(false);
    };
    if writer.brackets.count() > source.limit {
        return Ok(false);
    }
    let numeral = Numeral {
        negative: true,
        magnitude: n as u128,
        mark: Mark::Absent,
    };
    put_number(numeral, here.at, here, writer, visitor)?;
    here.at = stop;
    Ok(true)
}

/// Takes the word of a simple value.
#[inline(always)]
pub(crate) fn take_word<V: Visitor>(
    source: Source,
    here: &mut Here,
    writer: &mut Writer,
    visitor: &mut V,
) -> Result<bool>
    requires { IsWanting (V.holds visitor.old) source here.old writer.old }
    ensures { IfOk result (Goes (V.holds visitor.new) source.entry here.old here.new writer.new) }
{
    let Some((n, stop)) = word_at(source.text.as_bytes(), here.at) else {
        return Ok(false);
    };
    put_word(n, here.at, here, writer, visitor)?;
    here.at = stop;
    Ok(true)
}

/// Takes a text string of one piece without an indicator, and the white space after it.
#[inline(always)]
pub(crate) fn take_text<V: Visitor>(
    source: Source,
    here: &mut Here,
    writer: &mut Writer,
    visitor: &mut V,
) -> Result<bool>
    requires wanting { IsWanting (V.holds visitor.old) source here.old writer.old }
    requires quote { slice_index source.text.now here.old.at ≡ 34 }
    ensures { IfOk result (Goes (V.holds visitor.new) source.entry here.old here.new writer.new) }
{
    let bytes = source.text.as_bytes();
    if let Some((len, stop)) = plain_text_at(source.profile, bytes, here.at) {
        let content = &bytes[here.at + 1..here.at + 1 + len];
        put_text(content, here, writer, visitor)?;
        here.at = stop;
        return Ok(true);
    }
    let start = writer.pieces.len();
    let mut stop = here.at;
    if !push_text(source.profile, bytes, &mut stop, &mut writer.pieces)? {
        writer.pieces.truncate(start);
        return Ok(false);
    }
    put_last_piece(start, here, writer, visitor)?;
    here.at = stop;
    Ok(true)
}

/// Takes each `{`, or else each `[`, without an indicator, and what ends them, if that follows at once.
#[inline(always)]
pub(crate) fn take_openings<V: Visitor>(
    is_map: bool,
    source: Source,
    here: &mut Here,
    writer: &mut Writer,
    visitor: &mut V,
) -> Result<bool>
    requires { IsWanting (V.holds visitor.old) source here.old writer.old }
    ensures { IfOk result (Goes (V.holds visitor.new) source.entry here.old here.new writer.new) }
{
    let was = here.at;
    'brackets: while opens_at(is_map, source.text.as_bytes(), here.at) {
        if writer.brackets.count() >= source.limit {
            return Ok(false);
        }
        let at = here.at;
        open_sized(is_map, Mark::Absent, here, writer, visitor)?;
        here.at = at + 1;
    }
    if here.phase == Phase::Wants && here.at < source.text.len() {
        take_sized_ends(is_map, source, here, writer, visitor)?;
    }
    Ok(here.at > was)
}

/// Takes a `[` or a `{` and its indicator, if an item is wanted.
#[inline(always)]
pub(crate) fn take_marked<V: Visitor>(
    source: Source,
    here: &mut Here,
    writer: &mut Writer,
    visitor: &mut V,
) -> Result<bool>
    requires { IsInside (V.holds visitor.old) source here.old writer.old }
    ensures { IfOk result (Goes (V.holds visitor.new) source.entry here.old here.new writer.new) }
{
    if !matches!(here.phase, Phase::Wants | Phase::WantsMore) {
        return Ok(false);
    }
    let Some((is_map, mark, stop)) = opening_at(source.text.as_bytes(), here.at) else {
        return Ok(false);
    };
    if writer.brackets.count() >= source.limit {
        return Ok(false);
    }
    open_sized(is_map, mark, here, writer, visitor)?;
    here.at = stop;
    Ok(true)
}

/// Takes a `<<`, which begins the first piece of a string.
#[inline(always)]
pub(crate) fn take_embedded<V: Visitor>(
    source: Source,
    here: &mut Here,
    writer: &mut Writer,
    visitor: &mut V,
) -> Result<bool>
    requires wanting { IsWanting (V.holds visitor.old) source here.old writer.old }
    requires less { slice_index source.text.now here.old.at ≡ 60 }
    ensures { IfOk result (Goes (V.holds visitor.new) source.entry here.old here.new writer.new) }
{
    if !embeds_at(source.text.as_bytes(), here.at) || writer.brackets.count() >= source.limit {
        return Ok(false);
    }
    let at = here.at;
    open_embedded(at, here, writer)?;
    here.at = at + 2;
    Ok(true)
}

/// Takes a `(_`, if a space follows it.
#[inline(always)]
pub(crate) fn take_chunked<V: Visitor>(
    source: Source,
    here: &mut Here,
    writer: &mut Writer,
    visitor: &mut V,
) -> Result<bool>
    requires wanting { IsWanting (V.holds visitor.old) source here.old writer.old }
    requires paren { slice_index source.text.now here.old.at ≡ 40 }
    ensures { IfOk result (Goes (V.holds visitor.new) source.entry here.old here.new writer.new) }
{
    if !opens_chunks_at(source.text.as_bytes(), here.at) {
        return Ok(false);
    }
    let at = here.at;
    open_chunks(at, here, writer);
    here.at = at + 2;
    Ok(true)
}
