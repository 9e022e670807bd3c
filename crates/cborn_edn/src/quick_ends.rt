//! Frequent tokens after an item or after the pieces of a string, taken without the lexer. Each
//! function answers whether it took something.

ghost use Rattle.std.specs.Prelude.{◌≡◌, ◌<◌, ◌⊎◌, true, length, slice_index, IfOk, if◌then◌else◌};
ghost use Rattle.cborn_edn.specs.declared.states.Phase.TheVariants as phases;
ghost use Rattle.cborn_edn.specs.devices.Common.{IsInside, Goes};
ghost use Rattle.cborn_edn.specs.devices.Steps as pure;

use crate::Result;
use crate::containers::close_sized;
use crate::endings::{end_embedded, end_part, end_tag, ends_sized};
use crate::frequent::{embed_end_at, ends_string, has_byte_at};
use crate::quick::{skip_space, take_white_space};
use crate::states::{Here, Source, Writer};
use crate::strings::{end_chunk, end_chunks, end_item};
use cborn_model::Visitor;

/// Takes what follows an item: a comma, a colon, a bracket that ends, or white space.
#[inline(always)]
pub(crate) fn take_after<V: Visitor>(
    source: Source,
    here: &mut Here,
    writer: &mut Writer,
    visitor: &mut V,
) -> Result<bool>
    requires inside { IsInside (V.holds visitor.old) source here.old writer.old }
    requires has { here.old.phase ≡ phases.Has }
    ensures { IfOk result (Goes (V.holds visitor.new) source.entry here.old here.new writer.new) }
{
    match source.text.as_bytes()[here.at] {
        b',' => take_separator(false, source, here, writer, visitor),
        b':' => take_separator(true, source, here, writer, visitor),
        b']' => take_sized_ends(false, source, here, writer, visitor),
        b'}' => take_sized_ends(true, source, here, writer, visitor),
        b')' => take_tag_end(source, here, writer, visitor),
        b'>' => take_embed_end(source, here, writer, visitor),
        _ => take_white_space(source, here, writer, visitor),
    }
}

/// Takes a colon or else a comma after an item, and a space after it.
#[inline(always)]
fn take_separator<V: Visitor>(
    is_colon: bool,
    source: Source,
    here: &mut Here,
    writer: &mut Writer,
    visitor: &mut V,
) -> Result<bool>
    requires inside { IsInside (V.holds visitor.old) source here.old writer.old }
    requires has { here.old.phase ≡ phases.Has }
    requires separator { slice_index source.text.now here.old.at ≡ (if is_colon then 58 else 44) }
    ensures { IfOk result (Goes (V.holds visitor.new) source.entry here.old here.new writer.new) }
{
    let at = here.at;
    if !end_part(is_colon, here, writer) {
        return Ok(false);
    }
    here.at = at + 1;
    skip_space(source.text, here);
    Ok(true)
}

/// Takes each `}` of a map, or each `]` of an array, up to the first other character.
#[inline(always)]
pub(crate) fn take_sized_ends<V: Visitor>(
    is_map: bool,
    source: Source,
    here: &mut Here,
    writer: &mut Writer,
    visitor: &mut V,
) -> Result<bool>
    requires inside { IsInside (V.holds visitor.old) source here.old writer.old }
    requires ends { (here.old.phase ≡ phases.Has) ⊎ (here.old.phase ≡ phases.Wants) }
    ensures { IfOk result (Goes (V.holds visitor.new) source.entry here.old here.new writer.new) }
{
    let was = here.at;
    'brackets: while closes(is_map, source.text.as_bytes(), here) {
        let at = here.at;
        close_sized(here, writer, visitor)?;
        here.at = at + 1;
    }
    Ok(here.at > was)
}

/// Whether a `}` of a map or a `]` of an array is next, which may end there.
#[inline(always)]
fn closes(is_map: bool, text: &[u8], here: &Here) -> bool
    ensures within { result ≡ true → here.now.at < length text.now }
    ensures bracket { result ≡ true → slice_index text.now here.now.at ≡ (if is_map then 125 else 93) }
    ensures ends { result ≡ true → pure.ends_sized is_map here.now.phase here.now.level ≡ true }
{
    let bracket = if is_map { b'}' } else { b']' };
    has_byte_at(bracket, text, here.at) && ends_sized(is_map, here.phase, here.level)
}

/// Takes the `)` of a tag.
#[inline(always)]
fn take_tag_end<V: Visitor>(
    source: Source,
    here: &mut Here,
    writer: &mut Writer,
    visitor: &mut V,
) -> Result<bool>
    requires inside { IsInside (V.holds visitor.old) source here.old writer.old }
    requires has { here.old.phase ≡ phases.Has }
    requires paren { slice_index source.text.now here.old.at ≡ 41 }
    ensures { IfOk result (Goes (V.holds visitor.new) source.entry here.old here.new writer.new) }
{
    let at = here.at;
    if !end_tag(here, writer, visitor)? {
        return Ok(false);
    }
    here.at = at + 1;
    Ok(true)
}

/// Takes a `>>` after an item.
#[inline(always)]
fn take_embed_end<V: Visitor>(
    source: Source,
    here: &mut Here,
    writer: &mut Writer,
    visitor: &mut V,
) -> Result<bool>
    requires inside { IsInside (V.holds visitor.old) source here.old writer.old }
    requires has { here.old.phase ≡ phases.Has }
    requires greater { slice_index source.text.now here.old.at ≡ 62 }
    ensures { IfOk result (Goes (V.holds visitor.new) source.entry here.old here.new writer.new) }
{
    let Some((mark, stop)) = embed_end_at(source.text.as_bytes(), here.at) else {
        return Ok(false);
    };
    if !end_embedded(mark, here.at, here, writer, visitor)? {
        return Ok(false);
    }
    here.at = stop;
    Ok(true)
}

/// Takes what follows the pieces of a string, if it begins no other piece, and ends the string.
#[inline(always)]
pub(crate) fn take_after_pieces<V: Visitor>(
    source: Source,
    here: &mut Here,
    writer: &mut Writer,
    visitor: &mut V,
) -> Result<bool>
    requires inside { IsInside (V.holds visitor.old) source here.old writer.old }
    requires builds { here.old.phase ≡ phases.Builds }
    ensures { IfOk result (Goes (V.holds visitor.new) source.entry here.old here.new writer.new) }
{
    if !ends_string(source.text.as_bytes()[here.at]) {
        return Ok(false);
    }
    let at = here.at;
    if writer.chunks.is_none() {
        end_item(here, writer, visitor)?;
        here.at = at;
        return Ok(false);
    }
    match source.text.as_bytes()[at] {
        b',' => {
            end_chunk(here, writer, visitor)?;
            here.at = at + 1;
            Ok(true)
        }
        b')' => {
            end_chunk(here, writer, visitor)?;
            end_chunks(here, writer, visitor)?;
            here.at = at + 1;
            Ok(true)
        }
        _ => Ok(false),
    }
}
