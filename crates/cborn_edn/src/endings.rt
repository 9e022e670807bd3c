//! What may end or follow after an item, by the kind of the innermost bracket. Each `end_..`
//! answers whether the token is allowed there, and changes nothing if it isn't.

ghost use Rattle.std.specs.Prelude.{◌≡◌, ◌<◌, ◌^◌, false, IfOk};
ghost use Rattle.cborn_edn.specs.Common.{EmbedClose, ParenClose};
ghost use Rattle.cborn_edn.specs.devices.Common.{Span as Place, Item, Stack, State, has, Shows, Reads, MayEnd, Turned, Taken};
ghost use Rattle.cborn_edn.specs.devices.Steps as pure;

use crate::Result;
use crate::containers::{close_embedded, close_sized, close_tag};
use crate::states::{Here, Level, Phase, Writer};
use cborn_lex::Mark;
use cborn_model::Visitor;

/// Whether the innermost bracket is of this kind.
#[inline(always)]
fn is_in(kind: Level, level: Level) -> bool
    ensures { result ≡ pure.is_in kind level }
{
    match (kind, level) {
        (Level::Array, Level::Array) | (Level::Embedded, Level::Embedded) => true,
        (Level::Key, Level::Key) | (Level::Value, Level::Value) | (Level::Tag, Level::Tag) => true,
        _ => false,
    }
}

/// Whether commas separate items there: in an array, in a `<<`, or where no bracket is open.
#[inline(always)]
fn is_row(level: Level) -> bool
    ensures { result ≡ pure.is_row level }
{
    matches!(level, Level::Outside | Level::Array | Level::Embedded)
}

/// Whether the innermost bracket is a map that may end in this phase; or else whether it is an array.
#[inline(always)]
pub(crate) fn ends_sized(is_map: bool, phase: Phase, level: Level) -> bool
    ensures { result ≡ pure.ends_sized is_map phase level }
{
    if !is_map {
        return is_in(Level::Array, level);
    }
    match phase {
        Phase::Has => is_in(Level::Value, level),
        _ => is_in(Level::Key, level),
    }
}

/// Ends a map with a `}`, or an array with a `]`, if one may end there.
#[inline(always)]
pub(crate) fn end_sized<V: Visitor>(
    is_map: bool,
    here: &mut Here,
    writer: &mut Writer,
    visitor: &mut V,
) -> Result<bool>
    requires few { here.old.count < 2 ^ 63 }
    requires shows { (s : State) × MayEnd s × Reads (V.holds visitor.old) here.old writer.old writer.old.pieces.items s }
    ensures taken { IfOk result (λ ok. (s : State) (a : Place) → MayEnd s → Reads (V.holds visitor.old) here.old writer.old writer.old.pieces.items s → Taken (V.holds visitor.new) ok s (pure.sized_end is_map) a here.new writer.new) }
    ensures kept { IfOk result (λ ok. ok ≡ false → (here.new ≡ here.old) × (writer.new ≡ writer.old) × (visitor.new ≡ visitor.old)) }
{
    if !ends_sized(is_map, here.phase, here.level) {
        return Ok(false);
    }
    close_sized(here, writer, visitor)?;
    Ok(true)
}

/// Ends a `<<` with a `>>` at `place`, if one may end there.
#[inline(always)]
pub(crate) fn end_embedded<V: Visitor>(
    mark: Mark,
    place: usize,
    here: &mut Here,
    writer: &mut Writer,
    visitor: &mut V,
) -> Result<bool>
    requires { (s : State) × MayEnd s × Reads (V.holds visitor.old) here.old writer.old writer.old.pieces.items s }
    ensures taken { IfOk result (λ ok. (s : State) (a : Place) → place ≡ a.start → MayEnd s → Reads (V.holds visitor.old) here.old writer.old writer.old.pieces.items s → Taken (V.holds visitor.new) ok s (EmbedClose mark) a here.new writer.new) }
    ensures kept { IfOk result (λ ok. ok ≡ false → (here.new ≡ here.old) × (writer.new ≡ writer.old) × (visitor.new ≡ visitor.old)) }
{
    if !is_in(Level::Embedded, here.level) {
        return Ok(false);
    }
    close_embedded(mark, place, here, writer)?;
    Ok(true)
}

/// Ends a tag with a `)` after an item, if one may end there.
#[inline(always)]
pub(crate) fn end_tag<V: Visitor>(
    here: &mut Here,
    writer: &mut Writer,
    visitor: &mut V,
) -> Result<bool>
    requires { (st : Stack) × (i : Item) × Reads (V.holds visitor.old) here.old writer.old writer.old.pieces.items (has st i) }
    ensures taken { IfOk result (λ ok. (st : Stack) (i : Item) (a : Place) → Reads (V.holds visitor.old) here.old writer.old writer.old.pieces.items (has st i) → Taken (V.holds visitor.new) ok (has st i) ParenClose a here.new writer.new) }
    ensures kept { IfOk result (λ ok. ok ≡ false → (here.new ≡ here.old) × (writer.new ≡ writer.old) × (visitor.new ≡ visitor.old)) }
{
    if !is_in(Level::Tag, here.level) {
        return Ok(false);
    }
    close_tag(here, writer, visitor)?;
    Ok(true)
}

/// Takes a colon after a key; or else a comma, if another item or pair may follow there.
#[inline(always)]
pub(crate) fn end_part(is_colon: bool, here: &mut Here, writer: &Writer) -> bool
    requires { here.old.count < 2 ^ 63 }
    ensures taken { (st : Stack) (i : Item) (a : Place) → Shows here.old writer.now writer.now.pieces.items (has st i) → Turned result (has st i) (pure.separator_of is_colon) a here.new writer.now }
    ensures kept { result ≡ false → here.new ≡ here.old }
{
    if is_colon {
        if !is_in(Level::Key, here.level) {
            return false;
        }
        here.phase = Phase::Wants;
        here.level = Level::Value;
        return true;
    }
    if is_in(Level::Value, here.level) {
        here.count += 1;
        here.phase = Phase::WantsMore;
        here.level = Level::Key;
        return true;
    }
    if !is_row(here.level) {
        return false;
    }
    here.count += 1;
    here.phase = Phase::WantsMore;
    true
}
