//! How answers are reported to C.
ghost use Rattle.std.specs.Prelude.{◌≡◌, ◌<◌, ◌∷◌, ◌++◌, []};
ghost use Rattle.cborn_c.specs.Numbers.{counted_number, counted_place};
ghost use Rattle.cborn_c.specs.Calls.{IsPut, WordsPut, TextTold, Told, CheckTold, CompareFaultTold, CompareTold, SameTold, EndTold};

use crate::numbers::{
    DIFFERENT, OF_SECOND, OK, OUT_OF_MEMORY, TOO_SMALL, number_counted, number_defect,
};
use arrayvec::ArrayString;
use cborn_engine::{CompareCountFault, CountFault, EngineFault};
use cborn_explain::place_of;
use cborn_judge::Defect;
use cborn_wire::WireFault;
use std::alloc::{AllocError, Global};
use std::borrow::CowSlice;
use std::fmt::{Display, Write};

/// What the line of a fault at offset 0 has before the words.
const AT_START: &[u8] = b"offset 0: ";

/// What a call reports besides its number.
#[repr(C)]
#[derive(Drop)]
pub struct CbornTold {
    /// The offset of a fault, in bytes from the start of the input. 0 where there is none.
    pub place: u64,
    /// The length of the answer in bytes, even where the buffer was too small. 0 at a fault.
    pub length: u64,
}

/// Writes an answer to the start of `out`, or reports its fault. Answers the number for C. Where `out`
/// is too small, or at a fault, `out` is unchanged.
pub fn put(
    answer: Result<CowSlice<'_, u8, Global>, CountFault>,
    out: &mut [u8],
    told: &mut CbornTold,
) -> u32
    ensures { Told answer.entry out.old out.new told.new result }
{
    match answer {
        Ok(bytes) => {
            let length = bytes.len();
            told.place = 0;
            told.length = length as u64;
            if length > out.len() {
                return TOO_SMALL;
            }
            out[..length].copy_from_slice(&bytes);
            OK
        }
        Err(why) => {
            told.place = place_of(why).unwrap_or(0);
            told.length = 0;
            number_counted(why)
        }
    }
}

/// Reports a place, and answers the number for C that goes with it.
fn told(place: &mut u64, at: u64, number: u32) -> u32
    ensures { (place.new ≡ at) × (result ≡ number) }
{
    *place = at;
    number
}

/// Reports a fault, and answers its number for C.
fn fault_told(why: CountFault, place: &mut u64) -> u32
    ensures told { (place.new ≡ counted_place why) × (result ≡ counted_number why) }
    ensures small { result < 65536 }
{
    told(place, place_of(why).unwrap_or(0), number_counted(why))
}

/// Reports a defect, that there is none, or the fault of the input. Answers the number for C.
pub fn defect_told(answer: Result<Option<Defect>, CountFault>, place: &mut u64) -> u32
    ensures { CheckTold answer place.new result }
{
    match answer {
        Ok(None) => told(place, 0, OK),
        Ok(Some(defect)) => told(place, defect.place, number_defect(defect.reason)),
        Err(why) => fault_told(why, place),
    }
}

/// Reports a difference, that there is none, or the fault of an input. Answers the number for C.
pub fn difference_told(answer: Result<Option<u64>, CompareCountFault>, place: &mut u64) -> u32
    ensures { CompareTold answer place.new result }
{
    match answer {
        Ok(None) => told(place, 0, OK),
        Ok(Some(index)) => told(place, index, DIFFERENT),
        Err(why) => compare_fault_told(why, place),
    }
}

/// Reports whether two inputs hold the same items, or the fault of one. Answers the number for C.
pub fn same_told(answer: Result<bool, CompareCountFault>, place: &mut u64) -> u32
    ensures { SameTold answer place.new result }
{
    match answer {
        Ok(true) => told(place, 0, OK),
        Ok(false) => told(place, 0, DIFFERENT),
        Err(why) => compare_fault_told(why, place),
    }
}

/// Reports why two inputs weren't compared. Answers the number for C.
pub fn compare_fault_told(why: CompareCountFault, place: &mut u64) -> u32
    ensures { CompareFaultTold why place.new result }
{
    match why {
        CompareCountFault::First(why) => fault_told(why, place),
        CompareCountFault::Second(why) => fault_told(why, place) + OF_SECOND,
        CompareCountFault::OutOfMemory => told(place, 0, OUT_OF_MEMORY),
    }
}

/// Reports where an item of an input of this length ends, that the input ends where it would start,
/// or why no item starts there. Answers the number for C.
pub fn end_told(
    answer: Result<Option<usize>, WireFault>,
    input_length: usize,
    place: &mut u64,
) -> u32
    ensures { EndTold answer input_length place.new result }
{
    let why = match answer {
        Ok(Some(end)) => return told(place, end as u64, OK),
        Ok(None) => CountFault::NoItem(input_length as u64),
        Err(why) => CountFault::Engine(EngineFault::Wire(why)),
    };
    fault_told(why, place)
}

/// Writes an explanation to the start of `out`, and answers the number for C. `told` gets its length in
/// bytes. Where `out` is too small, or memory was refused, `out` is unchanged.
pub fn put_text(answer: Result<String, AllocError>, out: &mut [u8], told: &mut CbornTold) -> u32
    ensures { TextTold answer out.old out.new told.new result }
{
    let bytes = match answer {
        Ok(text) => Ok(CowSlice::Owned(text.into_bytes())),
        Err(refused) => Err(CountFault::from(refused)),
    };
    put(bytes, out, told)
}

/// Writes the words of a fault or a defect, without an offset, to the start of `out`, and then a zero
/// byte: at most 64 bytes in all. Answers `OK`, or `TOO_SMALL` where they don't fit; `out` is then
/// unchanged.
pub fn put_words<T: Display>(why: &T, out: &mut [u8]) -> u32
    ensures { WordsPut out.old out.new result }
{
    let mut line = ArrayString::<63>::new();
    // of longer words the pieces that don't fit would be missing
    let _written = write!(line, "{why}");
    let bytes = line.as_str().as_bytes();
    match bytes.strip_prefix(AT_START) {
        Some(words) => put_line(words, out),
        None => put_line(bytes, out),
    }
}

/// Writes a text and then a zero byte to the start of `out`, or answers `TOO_SMALL` where they don't fit.
fn put_line(text: &[u8], out: &mut [u8]) -> u32
    ensures { IsPut (text.now ++ 0 ∷ []) out.old out.new result }
{
    let length = text.len();
    if length >= out.len() {
        return TOO_SMALL;
    }
    out[..length].copy_from_slice(text);
    out[length] = 0;
    OK
}
