//! The calls over inputs that are held whole. Such an input is read where it lies, and where it is
//! its own answer, that is lent and not copied.
ghost use Rattle.std.specs.Prelude.{◌≡◌, ◌≢◌, ◌<◌, ◌≤◌, ◌*◌, ◌↔◌};
ghost use Rattle.cborn_engine.specs.Common.{ℕ, List, length, Err, IfOk, IfErr, IsTrue, cow_slice_items, Value, Values, DetValues, CountFault, Count, EngineFault, Kind};
ghost use Rattle.cborn_engine.specs.Bytes.{BytesHold};
ghost use Rattle.cborn_engine.specs.Canonical.{IsCanonical, IsNormalForm};
ghost use Rattle.cborn_engine.specs.Comparing.{AreCompared};
ghost use Rattle.cborn_engine.specs.Counts.{CountAnswer, NormalisedWhole, ShownWhole, CheckedWhole, IsTaken, AreRefusedWhole, of_the_first};
ghost use Rattle.cborn_engine.specs.devices.Counts.{EncodedWhole, own_or};
ghost use Rattle.cborn_engine.specs.devices.Encoding.{IsEncoded, IsFixedText, IsWrittenAs};
ghost use Rattle.cborn_engine.specs.Holding.{Holds, HoldSameItems};
ghost use Rattle.cborn_engine.specs.Showing.{SpellSameBytes};
ghost use Rattle.cborn_engine.specs.Whole.{TellsFaultAs};
ghost use Rattle.cborn_engine.specs.Reading.{most_bytes};

use crate::checks::check_input;
use crate::count_faults::{CompareCountFault, CountFault};
use crate::counts::{Count, expect};
use crate::differences::difference;
use crate::encodings::{encode_input, is_own_encoding};
use crate::faults::EngineFault;
use crate::inputs::MOST;
use crate::kinds::Kind;
use crate::showings::{is_own_spelling, show_input};
use cborn_edn::{Notated, show_bytes};
use cborn_judge::Defect;
use cborn_model::{KeyOrder, Limit};
use std::alloc::{AllocError, Global};
use std::borrow::CowSlice;

/// The canonical form of the items that an input holds: their deterministic encodings one after
/// another, the keys of maps in the order `O` (RFC 8949 section 4.2), or the fixed notation of
/// these. It is lent from the input where that is these bytes. From bytes to bytes it is at most a
/// third longer than the input.
///
/// # Errors
/// `TooLong` where the input has more than 2^30 bytes. Else the fault of its content, as
/// `normalise` gives it, at its offset in bytes from the start of the input, or `OutOfMemory`. Where
/// there is none of these, `NoItem` or `MoreItems`.
#[tactic(auto, using(crate::proofs::Answers::lent_encoded, crate::proofs::Answers::room, crate::proofs::Canonical::OfBytes::encoded_bytes, crate::proofs::Answers::held))]
pub fn normalise_slice<'a, O: KeyOrder>(
    alloc: Global,
    limit: Limit,
    count: Count,
    in_kind: Kind,
    out_kind: Kind,
    input: &'a [u8],
) -> Result<CowSlice<'a, u8, Global>, CountFault>
    ensures normalised { CountAnswer count in_kind limit input.now (NormalisedWhole O.order in_kind out_kind limit input.now) result }
    ensures headline { IfOk result (λ output. IsNormalForm O.order in_kind out_kind limit input.now (cow_slice_items output)) }
    ensures bytes { IfOk result (λ output. in_kind ≡ Kind.Wire → out_kind ≡ Kind.Wire → (items : Values) × BytesHold input.now items × DetValues O.order items (cow_slice_items output)) }
    ensures room { IfOk result (λ output. in_kind ≡ Kind.Wire → out_kind ≡ Kind.Wire → 3 * length (cow_slice_items output) ≤ 4 * length input.now) }
    ensures malformed { length input.now ≤ most_bytes → TellsFaultAs CountFault.Engine in_kind limit input.now result }
{
    let encodings = encode_slice::<O>(alloc, limit, in_kind, input)?;
    let answer = written_as(alloc, limit, out_kind, lent(input, encodings))?;
    expect(alloc, limit, count, in_kind, input)?;
    Ok(answer)
}

/// The items of an input as they are spelled, valid or not: as bytes (RFC 8949 section 3), which are
/// lent from an input of bytes, or in the fixed notation (section 8).
///
/// # Errors
/// `TooLong` where the input has more than 2^30 bytes. Else the fault of its content, as `show_all`
/// gives it, at its offset in bytes from the start of the input, or `OutOfMemory`. Where there is none
/// of these, `NoItem` or `MoreItems`.
#[inline(always)]
#[tactic(auto, using(crate::proofs::Held::SameBytes::same_bytes))]
pub fn show_slice<'a>(
    alloc: Global,
    limit: Limit,
    count: Count,
    in_kind: Kind,
    out_kind: Kind,
    input: &'a [u8],
) -> Result<CowSlice<'a, u8, Global>, CountFault>
    ensures shown { CountAnswer count in_kind limit input.now (ShownWhole in_kind out_kind limit input.now) result }
    ensures same_bytes { IfOk result (λ output. SpellSameBytes in_kind out_kind limit input.now (cow_slice_items output)) }
    ensures malformed { length input.now ≤ most_bytes → TellsFaultAs CountFault.Engine in_kind limit input.now result }
    ensures unfailing { count ≡ Count.Any → in_kind ≡ Kind.Wire → out_kind ≡ Kind.Wire → result ≢ Err (CountFault.Engine EngineFault.OutOfMemory) }
{
    let answer = spell_slice(alloc, limit, in_kind, out_kind, input)?;
    expect(alloc, limit, count, in_kind, input)?;
    Ok(answer)
}

/// The first defect of bytes, if they aren't the deterministic encodings of the items that they
/// hold, the keys of maps in the order `O` (RFC 8949 section 4.2). None: they are.
///
/// # Errors
/// `TooLong` where there are more than 2^30 bytes. Else the fault of their content, as `check`
/// gives it, at its offset from their start, or `OutOfMemory`. Where there is none of these, `NoItem`
/// or `MoreItems`, also of bytes that have a defect.
#[inline(always)]
pub fn check_slice<O: KeyOrder>(
    alloc: Global,
    limit: Limit,
    count: Count,
    input: &[u8],
) -> Result<Option<Defect>, CountFault>
    ensures checked { CountAnswer count Kind.Wire limit input.now (CheckedWhole O.order limit input.now) result }
    ensures malformed { length input.now ≤ most_bytes → TellsFaultAs CountFault.Engine Kind.Wire limit input.now result }
{
    if is_too_long(input) {
        return Err(CountFault::Engine(EngineFault::TooLong));
    }
    let defect = check_input::<O>(alloc, limit, input)?;
    expect(alloc, limit, count, Kind::Wire, input)?;
    Ok(defect)
}

/// Compares what two inputs hold. None: they hold the same items. Else the least index, from 0, at
/// which the items differ or only one input has an item. The answer doesn't depend on `O`.
///
/// # Errors
/// `First`, where the first input isn't taken, by the fault that `normalise_slice` gives for it.
/// `Second`, likewise, where the first is taken and the second isn't. `OutOfMemory` is never inside
/// of these.
#[tactic(auto, using(crate::proofs::Answers::unfaulted, crate::proofs::Comparison::Compared::bytes_compared))]
pub fn compare_slices<O: KeyOrder>(
    alloc: Global,
    limit: Limit,
    count: Count,
    kind_a: Kind,
    first: &[u8],
    kind_b: Kind,
    second: &[u8],
) -> Result<Option<u64>, CompareCountFault>
    ensures compared { IfOk result (λ answer. IsTaken count kind_a limit first.now × IsTaken count kind_b limit second.now × AreCompared kind_a kind_b limit first.now second.now answer) }
    ensures refused { IfErr result (AreRefusedWhole count kind_a kind_b limit first.now second.now) }
    ensures malformed { length first.now ≤ most_bytes → TellsFaultAs of_the_first kind_a limit first.now result }
{
    let (ours, theirs) = encode_both::<O>(alloc, limit, count, kind_a, first, kind_b, second)?;
    Ok(difference::<O>(alloc, limit, &ours, &theirs)?)
}

/// Whether two inputs hold the same items. They do exactly if their canonical forms are equal. What
/// each holds is encoded, the keys of maps in the order `O`, and the encodings are compared; the
/// answer doesn't depend on `O`.
///
/// # Errors
/// Those of `compare_slices`.
pub fn same_items<O: KeyOrder>(
    alloc: Global,
    limit: Limit,
    count: Count,
    kind_a: Kind,
    first: &[u8],
    kind_b: Kind,
    second: &[u8],
) -> Result<bool, CompareCountFault>
    ensures same { IfOk result (λ same. IsTrue same ↔ HoldSameItems kind_a kind_b limit first.now second.now) }
    ensures forms { IfOk result (λ same. (out : Kind) (v w : List ℕ) → IsCanonical O.order kind_a out limit first.now v → IsCanonical O.order kind_b out limit second.now w → IsTrue same ↔ (v ≡ w)) }
    ensures taken { IfOk result (λ same. IsTaken count kind_a limit first.now × IsTaken count kind_b limit second.now) }
    ensures refused { IfErr result (AreRefusedWhole count kind_a kind_b limit first.now second.now) }
    ensures malformed { length first.now ≤ most_bytes → TellsFaultAs of_the_first kind_a limit first.now result }
{
    let (ours, theirs) = encode_both::<O>(alloc, limit, count, kind_a, first, kind_b, second)?;
    Ok(*ours == *theirs)
}

/// What `show_slice` answers of an input that may hold any number of items.
#[inline(always)]
fn spell_slice<'a>(
    alloc: Global,
    limit: Limit,
    in_kind: Kind,
    out_kind: Kind,
    input: &'a [u8],
) -> Result<CowSlice<'a, u8, Global>, EngineFault>
    ensures shown { ShownWhole in_kind out_kind limit input.now result }
    ensures unfailing { in_kind ≡ Kind.Wire → out_kind ≡ Kind.Wire → result ≢ Err EngineFault.OutOfMemory }
{
    if is_too_long(input) {
        return Err(EngineFault::TooLong);
    }
    if is_own_spelling(limit, in_kind, out_kind, input) {
        return Ok(CowSlice::Borrowed(input));
    }
    Ok(CowSlice::Owned(show_input(alloc, limit, in_kind, out_kind, input)?))
}

/// Whether an input is longer than allowed.
fn is_too_long(input: &[u8]) -> bool
    ensures { IsTrue result ↔ most_bytes < length input.now }
{
    input.len() as u64 > MOST
}

/// The deterministic encodings of what an input holds, one after another. `None`: they are the input.
#[tactic(auto, using(crate::proofs::Answers::short))]
fn encode_slice<O: KeyOrder>(
    alloc: Global,
    limit: Limit,
    kind: Kind,
    input: &[u8],
) -> Result<Option<Vec<u8>>, EngineFault>
    ensures { EncodedWhole O.order kind limit input.now result }
{
    if is_too_long(input) {
        return Err(EngineFault::TooLong);
    }
    if is_own_encoding::<O>(limit, kind, input) {
        return Ok(None);
    }
    Ok(Some(encode_input::<O>(alloc, limit, kind, input)?))
}

/// What `encode_slice` answers, where the input holds as many items as it has to hold.
#[tactic(auto, using(crate::proofs::CountAnswers::Answered::kept_counted, crate::proofs::Answers::unfaulted))]
pub fn encode_counted<O: KeyOrder>(
    alloc: Global,
    limit: Limit,
    count: Count,
    kind: Kind,
    input: &[u8],
) -> Result<Option<Vec<u8>>, CountFault>
    ensures { CountAnswer count kind limit input.now (EncodedWhole O.order kind limit input.now) result }
{
    let encodings = encode_slice::<O>(alloc, limit, kind, input)?;
    expect(alloc, limit, count, kind, input)?;
    Ok(encodings)
}

/// Encodings, or the input, where they are that.
fn lent<'a>(input: &'a [u8], encodings: Option<Vec<u8>>) -> CowSlice<'a, u8, Global>
    ensures { cow_slice_items result ≡ own_or input.now encodings }
{
    match encodings {
        None => CowSlice::Borrowed(input),
        Some(bytes) => CowSlice::Owned(bytes),
    }
}

/// The deterministic encodings of what two inputs hold, those of each one after another.
fn encode_both<'a, 'b, O: KeyOrder>(
    alloc: Global,
    limit: Limit,
    count: Count,
    kind_a: Kind,
    first: &'a [u8],
    kind_b: Kind,
    second: &'b [u8],
) -> Result<(CowSlice<'a, u8, Global>, CowSlice<'b, u8, Global>), CompareCountFault>
    ensures taken { IfOk result (λ both. IsTaken count kind_a limit first.now × IsTaken count kind_b limit second.now) }
    ensures encoded { IfOk result (λ both. IsEncoded O.order kind_a limit first.now (cow_slice_items both.0) × IsEncoded O.order kind_b limit second.now (cow_slice_items both.1)) }
    ensures refused { IfErr result (AreRefusedWhole count kind_a kind_b limit first.now second.now) }
{
    let ours = match encode_counted::<O>(alloc, limit, count, kind_a, first) {
        Ok(encodings) => lent(first, encodings),
        Err(why) => return Err(CompareCountFault::of_first(why)),
    };
    let theirs = match encode_counted::<O>(alloc, limit, count, kind_b, second) {
        Ok(encodings) => lent(second, encodings),
        Err(why) => return Err(CompareCountFault::of_second(why)),
    };
    Ok((ours, theirs))
}

/// Bytes that hold items, as an output of this kind: themselves, or their fixed notation.
pub(crate) fn written_as<'a>(
    alloc: Global,
    limit: Limit,
    kind: Kind,
    bytes: CowSlice<'a, u8, Global>,
) -> Result<CowSlice<'a, u8, Global>, AllocError>
    requires { (items : List Value) × Holds Kind.Wire limit (cow_slice_items bytes) items }
    ensures { IfOk result (λ answer. IsWrittenAs kind (cow_slice_items bytes.entry) (cow_slice_items answer)) }
{
    match kind {
        Kind::Wire => Ok(bytes),
        Kind::Notation | Kind::Notation2 => {
            Ok(CowSlice::Owned(fixed_text(alloc, limit, &bytes)?))
        }
    }
}

/// Bytes that hold items, in notation. They have one: such bytes are well-formed, and their text strings
/// are UTF-8.
fn fixed_text(alloc: Global, limit: Limit, bytes: &[u8]) -> Result<Vec<u8>, AllocError>
    requires { (items : List Value) × Holds Kind.Wire limit bytes.now items }
    ensures { IfOk result (λ text. IsFixedText bytes.now text.items) }
{
    match show_bytes(alloc, limit, bytes)? {
        Notated::Text(text) => Ok(text),
        Notated::Malformed { .. } => unreachable!(),
        Notated::NotUtf8 { .. } => unreachable!(),
    }
}
