//! Integers, tags and simple values, and what is wrong with their indicators.

ghost use Rattle.std.specs.Prelude.{◌≡◌, ◌<◌, ◌++◌, ◌∷◌, ℕ, Bool, List, OnOk};
ghost use Rattle.cborn_edn.specs.Common.{digits_of, Mark as Indicator, Writer as Writing, Bignum};
ghost use Rattle.cborn_edn.specs.devices.Common.{Span as Place, number, word, simple, Stack, State, wants, has, wants_number, has_number, Shows, noted, Hands, AllHanded, Reads, Notes, first_error};
ghost use Rattle.cborn_edn.specs.Says as says;

use crate::events::{Event, hand};
use crate::meaning_errors::{FirstError, is_none, note, note_unless, note_width};
use crate::states::{Here, Phase, Writer};
use crate::{EdnReason, Result};
use cborn_lex::Mark;
use cborn_model::{Visitor, Width, is_simple_value, shortest};

/// The number of a token: `magnitude`, or `-magnitude` if `negative`, with its indicator.
#[derive(Clone, Copy)]
pub(crate) struct Numeral {
    pub(crate) negative: bool,
    pub(crate) magnitude: u128,
    pub(crate) mark: Mark,
}

/// The lowest number that doesn't fit 64 bits.
pub(crate) const OUTSIDE: u128 = 18446744073709551616;

/// The width of a head with the argument `n`: the one that the indicator asks for, or the shortest.
#[inline(always)]
pub(crate) fn width_for(mark: Mark, n: u64) -> Width
    ensures { result ≡ says.width mark n }
{
    match mark {
        Mark::Wide(width) => width,
        _ => shortest(n),
    }
}

/// The argument of the head of an integer: `n` for the integer `n`, and `n` for `-1-n`.
#[inline(always)]
pub(crate) fn argument_of(negative: bool, magnitude: u128) -> u128
    ensures { result ≡ says.argument_of negative magnitude }
{
    if negative && magnitude > 0 {
        magnitude - 1
    } else {
        magnitude
    }
}

/// Whether an integer is below zero, as -0 isn't.
#[inline(always)]
pub(crate) fn is_below(negative: bool, magnitude: u128) -> bool
    ensures { result ≡ says.is_below negative magnitude }
{
    negative && magnitude > 0
}

/// Whether an integer is from -2^64 to 2^64-1. Any other is written as a tag over a byte string.
#[inline(always)]
pub(crate) fn is_small(negative: bool, magnitude: u128) -> bool
    ensures { result ≡ says.is_small negative magnitude }
{
    argument_of(negative, magnitude) < OUTSIDE
}

/// Notes what is wrong with the indicator of an integer at `place`.
#[inline(always)]
fn note_number(numeral: Numeral, place: usize, error: &mut FirstError)
    ensures { Notes error.old error.new (says.number_errors place numeral.negative numeral.magnitude numeral.mark) }
{
    let argument = argument_of(numeral.negative, numeral.magnitude);
    if argument >= OUTSIDE {
        let reason = EdnReason::IndicatorNotAllowed;
        note_unless(is_absent(numeral.mark), place, reason, error);
    } else {
        note_width(numeral.mark, argument as u64, place, error);
    }
}

/// Appends the bytes of `n`, the highest first, without leading zeros.
#[tactic(auto, using(crate::proofs::Reader::Modest::one_digit))]
fn push_digits(n: u128, out: &mut Vec<u8>) -> Result
    ensures { OnOk result (out.new.items ≡ out.old.items ++ digits_of 256 n) }
{
    if n > 0 {
        push_digits(n / 256, out)?;
        out.push((n % 256) as u8)?;
    }
    Ok(())
}

/// Whether there is no indicator.
#[inline(always)]
pub(crate) fn is_absent(mark: Mark) -> bool
    ensures { result ≡ says.is_absent mark }
{
    matches!(mark, Mark::Absent)
}

/// Notes what is wrong with the number of a tag, and with its indicator.
#[inline(always)]
pub(crate) fn note_tag(number: u128, mark: Mark, place: usize, error: &mut FirstError)
    ensures { Notes error.old error.new (says.tag_errors place mark number) }
{
    if number < OUTSIDE {
        note_width(mark, number as u64, place, error);
    } else {
        note(place, EdnReason::TagTooLarge, error);
    }
}

/// Notes what is wrong with the simple value of a number at `place`, whose `simple(` is at `opened`.
fn note_simple(numeral: Numeral, opened: usize, place: usize, error: &mut FirstError)
    ensures { Notes error.old error.new (says.simple_errors opened place numeral.negative numeral.magnitude numeral.mark) }
{
    let good = is_simple(numeral.negative, numeral.magnitude);
    note_unless(good, opened, EdnReason::BadSimple, error);
    let reason = EdnReason::IndicatorNotAllowed;
    note_unless(is_absent(numeral.mark), place, reason, error);
}

/// Whether there is a simple value with this number.
fn is_simple(negative: bool, magnitude: u128) -> bool
    ensures { result ≡ says.is_simple negative magnitude }
{
    !is_below(negative, magnitude) && magnitude < 256 && is_simple_value(magnitude as u64)
}

/// Takes an integer, which is an item.
#[inline(always)]
pub(crate) fn put_number<V: Visitor>(
    numeral: Numeral,
    place: usize,
    here: &mut Here,
    writer: &mut Writer,
    visitor: &mut V,
) -> Result
    ensures { OnOk result ((st : Stack) (a : Place) → place ≡ a.start → Reads (V.holds visitor.old) here.old writer.old writer.old.pieces.items (wants st) → Reads (V.holds visitor.new) here.new writer.new writer.new.pieces.items (has st (number a numeral.negative numeral.magnitude numeral.mark))) }
{
    here.phase = Phase::Has;
    note_number(numeral, place, &mut writer.error);
    let negative = is_below(numeral.negative, numeral.magnitude);
    let argument = argument_of(numeral.negative, numeral.magnitude);
    if argument >= OUTSIDE {
        return put_bignum(negative, argument, place, writer, visitor);
    }
    let n = argument as u64;
    let width = width_for(numeral.mark, n);
    let event = Event::Integer { negative, width, n };
    let spellers = &mut writer.spellers;
    hand(event, place, &[], writer.error, spellers, visitor)
}

/// Hands over an integer outside 64 bits, whose argument is `n`.
#[cold]
#[inline(never)]
fn put_bignum<V: Visitor>(
    negative: bool,
    n: u128,
    place: usize,
    writer: &mut Writer,
    visitor: &mut V,
) -> Result
    ensures rest { OnOk result (writer.new ≡ record writer.old { pieces = writer.new.pieces; spellers = writer.new.spellers }) }
    ensures pieces { OnOk result (writer.new.pieces.items ≡ writer.old.pieces.items) }
    ensures handed { OnOk result ((s u : State) (ss : List State) → writer.old.error ≡ first_error (noted u) → Hands (Bignum negative) place (digits_of 256 n) s u → AllHanded (V.holds visitor.old) writer.old.spellers (s ∷ ss) → AllHanded (V.holds visitor.new) writer.new.spellers (u ∷ ss)) }
{
    let start = writer.pieces.len();
    push_digits(n, &mut writer.pieces)?;
    let content = &writer.pieces[start..];
    let event = Event::Bignum { negative };
    let spellers = &mut writer.spellers;
    hand(event, place, content, writer.error, spellers, visitor)?;
    writer.pieces.truncate(start);
    Ok(())
}

/// Takes the simple value `n` of a word, which is an item.
#[tactic(auto, using(crate::proofs::Lemmas::free, crate::proofs::Lemmas::leaf_shown, crate::proofs::Lemmas::no_left, crate::proofs::Lemmas::on_ok, crate::proofs::Lemmas::same_errors))]
#[inline(always)]
pub(crate) fn put_word<V: Visitor>(
    n: u8,
    place: usize,
    here: &mut Here,
    writer: &mut Writer,
    visitor: &mut V,
) -> Result
    requires { n < 24 }
    ensures { OnOk result ((st : Stack) (a : Place) → place ≡ a.start → Reads (V.holds visitor.old) here.old writer.old writer.old.pieces.items (wants st) → Reads (V.holds visitor.new) here.new writer.new writer.new.pieces.items (has st (word a n))) }
{
    here.phase = Phase::Has;
    let event = Event::Simple(n);
    let spellers = &mut writer.spellers;
    hand(event, place, &[], writer.error, spellers, visitor)
}

/// Takes the number in `simple(..)`.
#[tactic(auto, using(crate::proofs::Lemmas::leaf_shown, crate::proofs::Lemmas::silenced, crate::proofs::Lemmas::simple_noted, crate::proofs::Lemmas::free, crate::proofs::Lemmas::no_left, crate::proofs::Lemmas::on_ok))]
#[inline(always)]
pub(crate) fn put_simple<V: Visitor>(
    numeral: Numeral,
    place: usize,
    here: &mut Here,
    writer: &mut Writer,
    visitor: &mut V,
) -> Result
    ensures { OnOk result ((st : Stack) (s a : Place) → place ≡ a.start → Reads (V.holds visitor.old) here.old writer.old writer.old.pieces.items (wants_number st s) → Reads (V.holds visitor.new) here.new writer.new writer.new.pieces.items (has_number st s a numeral.negative numeral.magnitude numeral.mark)) }
{
    here.phase = Phase::HasNumber;
    let opened = writer.simple;
    note_simple(numeral, opened, place, &mut writer.error);
    if !is_none(writer.error) {
        return Ok(());
    }
    let event = Event::Simple(numeral.magnitude as u8);
    let spellers = &mut writer.spellers;
    hand(event, opened, &[], writer.error, spellers, visitor)
}

/// Opens `simple(` at `place`.
pub(crate) fn open_simple(place: usize, here: &mut Here, writer: &mut Writer)
    ensures shows { (st : Stack) (a : Place) → place ≡ a.start → Shows here.old writer.old writer.old.pieces.items (wants st) → Shows here.new writer.new writer.new.pieces.items (wants_number st a) }
    ensures spellers { writer.new.spellers ≡ writer.old.spellers }
{
    writer.simple = place;
    here.phase = Phase::WantsNumber;
}

/// Ends `simple(..)`, which is then an item.
#[inline(always)]
pub(crate) fn close_simple(here: &mut Here)
    ensures { (w : Writing) (out : List ℕ) (st : Stack) (s b a : Place) (n : Bool) (v : ℕ) (m : Indicator) → Shows here.old w out (has_number st s b n v m) → Shows here.new w out (has st (simple s b n v m a)) }
{
    here.phase = Phase::Has;
}
