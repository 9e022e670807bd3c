//! The calls of `cborn_engine` for C, as `include/cborn.h` declares them.
//!
//! C passes a slice as a pointer and then a length, and a `Global` as nothing. A call answers a number.
//! Where its answer has bytes too, it writes them to a buffer of the caller's. Where that is too small
//! it writes nothing to it, and reports the length that the answer has; `cborn_words` doesn't report it.
//! Nothing is kept between calls.
//!
//! `specs/Calls.antt` says what each call answers, `specs/Numbers.antt` what the numbers mean.
#![tactic(auto)]

/// Takes what a number from C means. Where it means nothing, the call answers that.
macro_rules! take {
    ($meant:ident = $found:expr) => {
        let Some($meant) = $found else {
            return BAD_ARGUMENT;
        };
    };
}

mod answers;
mod calls;
mod numbers;

ghost use Rattle.std.specs.Prelude.{◌≡◌, ◌≢◌, ◌≤◌, ◌+◌, ◌/◌, length};
ghost use Rattle.cborn_engine.specs.declared.counts.Count.TheVariants as counts;
ghost use Rattle.cborn_c.specs.Numbers.{numbered_kind, numbered_order};
ghost use Rattle.cborn_c.specs.Calls.{NormaliseCall, ShowCall, CheckCall, CompareCall, SameCall, ItemEndCall, WordsCall, ExplainCall, ComparisonCall};

use answers::{
    CbornTold, compare_fault_told, defect_told, difference_told, end_told, put, put_text,
    put_words, same_told,
};
use calls::{checked, compared_lines, explained, matched, normalised};
use cborn_engine::{Count, compare_slices, show_slice};
use cborn_model::{Bytewise, Limit};
use cborn_wire::item_end;
use numbers::{BAD_ARGUMENT, defect_at, fault_at, kind_at, of_first, order_at};
use std::alloc::Global;

/// Writes the canonical form of the items of `input` to the start of `out`: their deterministic
/// encodings (RFC 8949 section 4.2), or the fixed notation of these. `from` and `to` number a format,
/// `order` an order of keys. `depth` is the nesting limit, from 1 to 1,024. `told` gets the offset of
/// a fault, in bytes from the start of `input`, and the length of the answer in bytes. From bytes to
/// bytes, a buffer that is a third longer than the input is never too small. Answers `OK`.
///
/// # Errors
/// `TOO_SMALL` where the answer is longer than `out`; its length is reported. `BAD_ARGUMENT` where
/// `from`, `to` or `order` numbers nothing or `depth` is no limit; `told` is then unchanged. Else the
/// number of the fault of `input`. At each of these `out` is unchanged.
#[unsafe(no_mangle)]
pub extern "C" fn cborn_normalise(
    alloc: Global,
    from: u32,
    to: u32,
    order: u32,
    depth: u64,
    input: &[u8],
    out: &mut [u8],
    told: &mut CbornTold,
) -> u32
    ensures call { NormaliseCall counts.Any (numbered_kind from) (numbered_kind to) (numbered_order order) depth input.now out.old out.new told.old told.new result }
    ensures room { from ≡ 0 → to ≡ 0 → length input.now + length input.now / 3 ≤ length out.old → result ≢ 1 }
{
    take!(from = kind_at(from));
    take!(to = kind_at(to));
    take!(order = order_at(order));
    take!(limit = Limit::new(depth));
    let answer = normalised(alloc, limit, Count::Any, order, from, to, input);
    put(answer, out, told)
}

/// Writes the items of `input` as they are spelled to the start of `out`: as bytes (RFC 8949
/// section 3), or in the fixed notation (section 8). `from` and `to` number a format. `depth` is the
/// nesting limit, from 1 to 1,024. `told` gets the offset of a fault, in bytes from the start of
/// `input`, and the length of the answer in bytes. Invalid items are written too. Notation has one
/// exception: a text string that isn't UTF-8 is refused. Answers `OK`.
///
/// # Errors
/// `TOO_SMALL` where the answer is longer than `out`; its length is reported. `BAD_ARGUMENT` where
/// `from` or `to` numbers nothing or `depth` is no limit; `told` is then unchanged. Else the number of
/// the fault of `input`. At each of these `out` is unchanged.
#[unsafe(no_mangle)]
pub extern "C" fn cborn_show(
    alloc: Global,
    from: u32,
    to: u32,
    depth: u64,
    input: &[u8],
    out: &mut [u8],
    told: &mut CbornTold,
) -> u32
    ensures { ShowCall counts.Any (numbered_kind from) (numbered_kind to) depth input.now out.old out.new told.old told.new result }
{
    take!(from = kind_at(from));
    take!(to = kind_at(to));
    take!(limit = Limit::new(depth));
    let answer = show_slice(alloc, limit, Count::Any, from, to, input);
    put(answer, out, told)
}

/// `OK` if the bytes of `input` are the deterministic encodings of the items that they hold (RFC 8949
/// section 4.2), else the number of the first defect. `order` numbers an order of keys. `depth` is the
/// nesting limit, from 1 to 1,024. `place` gets the offset of the defect, in bytes from the start of
/// `input`, or 0 where there is none.
///
/// # Errors
/// `BAD_ARGUMENT` where `order` numbers nothing or `depth` is no limit; `place` is then unchanged. Else
/// the number of the fault of `input`, and `place` gets its offset, in bytes from the start of `input`.
#[unsafe(no_mangle)]
pub extern "C" fn cborn_check(
    alloc: Global,
    order: u32,
    depth: u64,
    input: &[u8],
    place: &mut u64,
) -> u32
    ensures { CheckCall counts.Any (numbered_order order) depth input.now place.old place.new result }
{
    take!(order = order_at(order));
    take!(limit = Limit::new(depth));
    defect_told(checked(alloc, limit, Count::Any, order, input), place)
}

/// `OK` if two inputs hold the same items (RFC 8949 section 2), else `DIFFERENT`, and `place` gets the
/// index, from 0, of the first item that differs. An item that only one input has differs too. At `OK`
/// `place` gets 0. `from_a` and `from_b` number the formats of `first` and `second`. `depth` is the
/// nesting limit, from 1 to 1,024.
///
/// # Errors
/// `BAD_ARGUMENT` where `from_a` or `from_b` numbers nothing or `depth` is no limit; `place` is then
/// unchanged. `OUT_OF_MEMORY` where memory is refused, for either input; `place` gets 0. Else the
/// number of the fault of `first`, or `OF_SECOND` more than that of `second`, and `place` gets its
/// offset in bytes from the start of that input.
#[unsafe(no_mangle)]
pub extern "C" fn cborn_compare(
    alloc: Global,
    from_a: u32,
    from_b: u32,
    depth: u64,
    first: &[u8],
    second: &[u8],
    place: &mut u64,
) -> u32
    ensures { CompareCall (numbered_kind from_a) (numbered_kind from_b) depth first.now second.now place.old place.new result }
{
    take!(from_a = kind_at(from_a));
    take!(from_b = kind_at(from_b));
    take!(limit = Limit::new(depth));
    let any = Count::Any;
    let answer = compare_slices::<Bytewise>(alloc, limit, any, from_a, first, from_b, second);
    difference_told(answer, place)
}

/// `OK` if two inputs hold the same items (RFC 8949 section 2), else `DIFFERENT`. They do if and only
/// if their canonical forms are equal. `from_a` and `from_b` number the formats of `first` and
/// `second`. `depth` is the nesting limit, from 1 to 1,024. `place` gets 0, since nothing looks for
/// where they differ.
///
/// # Errors
/// Those of `cborn_compare`.
#[unsafe(no_mangle)]
pub extern "C" fn cborn_same(
    alloc: Global,
    from_a: u32,
    from_b: u32,
    depth: u64,
    first: &[u8],
    second: &[u8],
    place: &mut u64,
) -> u32
    ensures { SameCall counts.Any (numbered_kind from_a) (numbered_kind from_b) depth first.now second.now place.old place.new result }
{
    take!(from_a = kind_at(from_a));
    take!(from_b = kind_at(from_b));
    take!(limit = Limit::new(depth));
    let answer = matched(alloc, limit, Count::Any, from_a, first, from_b, second);
    same_told(answer, place)
}

/// Writes the deterministic encoding of the one item that `input` has to hold to the start of `out`
/// (RFC 8949 section 4.2), or the fixed notation of it. The arguments are those of `cborn_normalise`.
///
/// # Errors
/// Each error of `cborn_normalise`. Of an input without a fault: `NO_ITEM` where it holds no item, with
/// its length as the offset, and `MORE_ITEMS` where it holds more than one, with the offset of the
/// second. These two come before `TOO_SMALL`. At each of these `out` is unchanged.
#[unsafe(no_mangle)]
pub extern "C" fn cborn_normalise_one(
    alloc: Global,
    from: u32,
    to: u32,
    order: u32,
    depth: u64,
    input: &[u8],
    out: &mut [u8],
    told: &mut CbornTold,
) -> u32
    ensures call { NormaliseCall counts.One (numbered_kind from) (numbered_kind to) (numbered_order order) depth input.now out.old out.new told.old told.new result }
    ensures room { from ≡ 0 → to ≡ 0 → length input.now + length input.now / 3 ≤ length out.old → result ≢ 1 }
{
    take!(from = kind_at(from));
    take!(to = kind_at(to));
    take!(order = order_at(order));
    take!(limit = Limit::new(depth));
    let answer = normalised(alloc, limit, Count::One, order, from, to, input);
    put(answer, out, told)
}

/// Writes the one item that `input` has to hold as it is spelled, valid or not, to the start of
/// `out`: as bytes (RFC 8949 section 3), or in the fixed notation (section 8). The arguments are those
/// of `cborn_show`.
///
/// # Errors
/// Each error of `cborn_show`. Of an input without a fault: `NO_ITEM` where it holds no item, with its
/// length as the offset, and `MORE_ITEMS` where it holds more than one, with the offset of the second.
/// These two come before `TOO_SMALL`. At each of these `out` is unchanged.
#[unsafe(no_mangle)]
pub extern "C" fn cborn_show_one(
    alloc: Global,
    from: u32,
    to: u32,
    depth: u64,
    input: &[u8],
    out: &mut [u8],
    told: &mut CbornTold,
) -> u32
    ensures { ShowCall counts.One (numbered_kind from) (numbered_kind to) depth input.now out.old out.new told.old told.new result }
{
    take!(from = kind_at(from));
    take!(to = kind_at(to));
    take!(limit = Limit::new(depth));
    let answer = show_slice(alloc, limit, Count::One, from, to, input);
    put(answer, out, told)
}

/// `OK` if the one item that `input` has to hold is deterministic (RFC 8949 section 4.2), else the
/// number of the first defect. The arguments are those of `cborn_check`. An input that doesn't hold
/// exactly one item is refused even where it has a defect.
///
/// # Errors
/// Each error of `cborn_check`. Where it has none: `NO_ITEM` where the input holds no item, with its
/// length as the offset, and `MORE_ITEMS` where it holds more than one, with the offset of the second.
#[unsafe(no_mangle)]
pub extern "C" fn cborn_check_one(
    alloc: Global,
    order: u32,
    depth: u64,
    input: &[u8],
    place: &mut u64,
) -> u32
    ensures { CheckCall counts.One (numbered_order order) depth input.now place.old place.new result }
{
    take!(order = order_at(order));
    take!(limit = Limit::new(depth));
    defect_told(checked(alloc, limit, Count::One, order, input), place)
}

/// `OK` if two inputs, each of which has to hold exactly one item, hold the same one (RFC 8949
/// section 2), else `DIFFERENT`. `place` gets 0 in both cases. The arguments are those of
/// `cborn_compare`.
///
/// # Errors
/// Those of `cborn_compare`. `NO_ITEM` and `MORE_ITEMS` are among the faults.
#[unsafe(no_mangle)]
pub extern "C" fn cborn_compare_one(
    alloc: Global,
    from_a: u32,
    from_b: u32,
    depth: u64,
    first: &[u8],
    second: &[u8],
    place: &mut u64,
) -> u32
    ensures { SameCall counts.One (numbered_kind from_a) (numbered_kind from_b) depth first.now second.now place.old place.new result }
{
    take!(from_a = kind_at(from_a));
    take!(from_b = kind_at(from_b));
    take!(limit = Limit::new(depth));
    let answer = matched(alloc, limit, Count::One, from_a, first, from_b, second);
    same_told(answer, place)
}

/// `OK` if a well-formed item starts in `input`, which is CBOR bytes, at the offset `start` (RFC 8949
/// section 3), and `place` gets the offset after it. `depth` is the nesting limit, from 1 to 1,024.
/// What follows the item isn't read: the items of a sequence (RFC 8742) are found one after another in
/// linear time. Offsets are in bytes from the start of `input`, which may have more than 2^30.
///
/// # Errors
/// `NO_ITEM` where `input` ends at `start`; `place` gets its length. The number of the fault where no
/// well-formed item starts there; `place` gets its offset. `OUT_OF_MEMORY` where memory is refused;
/// `place` gets 0. `BAD_ARGUMENT` where `start` is beyond the end or `depth` is no limit; `place` is
/// then unchanged.
#[unsafe(no_mangle)]
pub extern "C" fn cborn_item_end(
    alloc: Global,
    depth: u64,
    input: &[u8],
    start: u64,
    place: &mut u64,
) -> u32
    ensures { ItemEndCall depth input.now start place.old place.new result }
{
    if start > input.len() as u64 {
        return BAD_ARGUMENT;
    }
    take!(limit = Limit::new(depth));
    let answer = item_end(alloc, limit, input, start as usize);
    end_told(answer, input.len(), place)
}

/// Writes the words of a fault or a defect to the start of `out`, as the program prints them, and then
/// a zero byte. `number` is that of a fault or a defect, as another call answered it. A fault of a
/// second input has the same words, and `OUT_OF_MEMORY` and `TOO_LONG` have words too. 64 bytes are
/// always enough. Answers `OK`.
///
/// # Errors
/// `TOO_SMALL` where `out` is too small. `BAD_ARGUMENT` where no fault and no defect has this number.
/// At both `out` is unchanged.
#[unsafe(no_mangle)]
pub extern "C" fn cborn_words(number: u32, out: &mut [u8]) -> u32
    ensures call { WordsCall number out.old out.new result }
    ensures room { 64 ≤ length out.old → result ≢ 1 }
{
    if let Some(reason) = defect_at(number) {
        return put_words(&reason, out);
    }
    match fault_at(of_first(number), 0) {
        Some(why) => put_words(&why, out),
        None => BAD_ARGUMENT,
    }
}

/// Writes an explanation of a fault or a defect to the start of `out`, in UTF-8: the lines that the
/// program adds with `--explain`, which say where in `input`, what is there, and why. Another call
/// reported `number` and `place` for this input, under the same limit. The number may be that of a
/// second input's fault. An offset beyond the end counts as the end. `told` gets the length of the
/// explanation in bytes, and 0 as the offset. Answers `OK`.
///
/// # Errors
/// `TOO_SMALL` where the explanation is longer than `out`; its length is reported. `BAD_ARGUMENT`
/// where `from` numbers nothing, `depth` is no limit, or no input of that format has a defect, or a
/// fault in its content, with this number; `told` is then unchanged. `TOO_LONG` is no fault in the
/// content. `OUT_OF_MEMORY` where memory is refused; `told` gets 0 as the length and as the offset. At
/// each of these `out` is unchanged.
#[unsafe(no_mangle)]
pub extern "C" fn cborn_explain(
    alloc: Global,
    from: u32,
    depth: u64,
    input: &[u8],
    number: u32,
    place: u64,
    out: &mut [u8],
    told: &mut CbornTold,
) -> u32
    ensures { ExplainCall (numbered_kind from) depth number out.old out.new told.old told.new result }
{
    take!(from = kind_at(from));
    take!(limit = Limit::new(depth));
    take!(answer = explained(alloc, limit, from, input, number, place));
    put_text(answer, out, told)
}

/// Writes where two inputs differ to the start of `out`, in UTF-8: the lines that the program adds with
/// `compare --explain`. Where the inputs hold the same items, they say where their encodings first
/// differ; where both spell the same bytes there are none. `from_a`, `from_b` and `depth` are those of
/// `cborn_compare`, and maps are gone through in the order of keys that `order` numbers.
/// `told` gets the length of the lines in bytes, and 0 as the offset. Answers `OK`.
///
/// # Errors
/// `TOO_SMALL` where the lines are longer than `out`; their length is reported. `BAD_ARGUMENT` where
/// `from_a`, `from_b` or `order` numbers nothing or `depth` is no limit; `told` is then unchanged. Those
/// of `cborn_compare` where an input is refused or memory is: `told` gets the offset of the fault, and 0
/// as the length. At each of these `out` is unchanged.
#[unsafe(no_mangle)]
pub extern "C" fn cborn_explain_comparison(
    alloc: Global,
    from_a: u32,
    from_b: u32,
    order: u32,
    depth: u64,
    first: &[u8],
    second: &[u8],
    out: &mut [u8],
    told: &mut CbornTold,
) -> u32
    ensures { ComparisonCall (numbered_kind from_a) (numbered_kind from_b) (numbered_order order) depth first.now second.now out.old out.new told.old told.new result }
{
    take!(from_a = kind_at(from_a));
    take!(from_b = kind_at(from_b));
    take!(order = order_at(order));
    take!(limit = Limit::new(depth));
    let kinds = (from_a, from_b);
    match matched(alloc, limit, Count::Any, from_a, first, from_b, second) {
        Ok(same) => {
            let answer = compared_lines(alloc, limit, order, kinds, (first, second), same);
            put_text(answer, out, told)
        }
        Err(why) => {
            told.length = 0;
            compare_fault_told(why, &mut told.place)
        }
    }
}

/// The version of the library as one number: the major version times 65,536, the minor one times 256,
/// and the patch. It is 0.6.0. What follows a release has the number of the next release.
#[unsafe(no_mangle)]
pub extern "C" fn cborn_version() -> u32
    ensures { result ≡ 1536 }
{
    0x000600
}
