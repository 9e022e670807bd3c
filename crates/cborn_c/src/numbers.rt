//! The numbers of formats, orders of keys, faults and defects in C. That of a fault or a defect has its
//! class in the second byte from below, and its reason in the lowest. No number ever changes its meaning.
ghost use Rattle.std.specs.Prelude.{◌≡◌, ◌≢◌, ◌<◌, ◌≤◌, ◌+◌, ◌⊎◌, IfSome, IfNone};
ghost use Rattle.cborn_engine.specs.declared.count_faults.CountFault.{CountFault};
ghost use Rattle.cborn_c.specs.Numbers.{numbered_kind, numbered_order, defect_number, fault_number, counted_number};

use cborn_edn::{EdnFault, EdnReason, ShowFault};
use cborn_engine::{CountFault, EngineFault, Kind};
use cborn_judge::{DefectReason, Invalid, InvalidReason};
use cborn_lex::{LexFault, LexReason};
use cborn_wire::{WireFault, WireReason};

/// The answer was written, the inputs hold the same items, or the input is deterministic.
pub const OK: u32 = 0;
/// The buffer is too small.
pub const TOO_SMALL: u32 = 1;
/// An argument numbers no format, no order of keys, no fault and no defect, or is no nesting limit.
pub const BAD_ARGUMENT: u32 = 2;
/// Out of memory.
pub const OUT_OF_MEMORY: u32 = 3;
/// The input has more than 2^30 bytes.
pub const TOO_LONG: u32 = 4;
/// Two inputs hold different items.
pub const DIFFERENT: u32 = 5;
/// What is added to the number of a fault of the second of two inputs.
pub const OF_SECOND: u32 = 0x10000;

/// The sort order of map keys (RFC 8949 sections 4.2.1 and 4.2.3).
#[derive(Clone, Copy)]
pub enum KeyOrdering {
    Bytewise,
    LengthFirst,
}

/// The format with this number. `None`: no format has it.
pub fn kind_at(number: u32) -> Option<Kind>
    ensures { result ≡ numbered_kind number }
{
    match number {
        0 => Some(Kind::Wire),
        1 => Some(Kind::Notation),
        2 => Some(Kind::Notation2),
        _ => None,
    }
}

/// The order of keys with this number. `None`: no order has it.
pub fn order_at(number: u32) -> Option<KeyOrdering>
    ensures { result ≡ numbered_order number }
{
    match number {
        0 => Some(KeyOrdering::Bytewise),
        1 => Some(KeyOrdering::LengthFirst),
        _ => None,
    }
}

/// The number of a defect, for which bytes aren't deterministic.
pub fn number_defect(reason: DefectReason) -> u32
    ensures { result ≡ defect_number reason }
{
    0x601 + reason as u32
}

/// The number of a fault. Calls from C have no reader and no writer that fails otherwise than for memory.
fn number_fault(why: EngineFault) -> u32
    ensures number { result ≡ fault_number why }
    ensures small { result < 65536 }
{
    match why {
        EngineFault::Wire(WireFault::Refused { reason, .. }) => 0x101 + reason as u32,
        EngineFault::Edn(EdnFault::Lex(LexFault::Refused { reason, .. })) => 0x201 + reason as u32,
        EngineFault::Edn(EdnFault::Refused { reason, .. }) => 0x301 + reason as u32,
        EngineFault::TextInput(_) => 0x401,
        EngineFault::Show(ShowFault::NotUtf8 { .. }) => 0x402,
        EngineFault::Invalid(Invalid::Refused { reason, .. }) => 0x501 + reason as u32,
        EngineFault::TooLong => TOO_LONG,
        _ => OUT_OF_MEMORY,
    }
}

/// The number of a fault of an input that has to hold a given number of items.
pub fn number_counted(why: CountFault) -> u32
    ensures number { result ≡ counted_number why }
    ensures small { result < 65536 }
{
    match why {
        CountFault::Engine(why) => number_fault(why),
        CountFault::NoItem(_) => 0x701,
        CountFault::MoreItems(_) => 0x702,
    }
}

/// A fault that has a place and a reason.
macro_rules! refused {
    ($fault:ident, $place:ident, $reason:expr) => {
        $fault::Refused { place: $place, reason: $reason }
    };
}

/// That of a token.
macro_rules! lex {
    ($place:ident, $reason:ident) => {
        EngineFault::Edn(EdnFault::Lex(refused!(LexFault, $place, LexReason::$reason)))
    };
}

/// A fault that has this number, at an offset in bytes. `None`: no fault has it.
pub fn fault_at(number: u32, place: u64) -> Option<CountFault>
    ensures numbered { IfSome result (λ why. counted_number why ≡ number) }
    ensures every { IfNone result ((why : CountFault) → counted_number why ≢ number) }
{
    Some(CountFault::Engine(match number {
        OUT_OF_MEMORY => EngineFault::OutOfMemory,
        TOO_LONG => EngineFault::TooLong,
        0x101 => EngineFault::Wire(refused!(WireFault, place, WireReason::ReservedInfo)),
        0x102 => EngineFault::Wire(refused!(WireFault, place, WireReason::EndlessNotAllowed)),
        0x103 => EngineFault::Wire(refused!(WireFault, place, WireReason::BadChunk)),
        0x104 => EngineFault::Wire(refused!(WireFault, place, WireReason::UnexpectedBreak)),
        0x105 => EngineFault::Wire(refused!(WireFault, place, WireReason::FloatLeftOut)),
        0x106 => EngineFault::Wire(refused!(WireFault, place, WireReason::BadSimple)),
        0x107 => EngineFault::Wire(refused!(WireFault, place, WireReason::TooDeep)),
        0x108 => EngineFault::Wire(refused!(WireFault, place, WireReason::Truncated)),
        0x201 => lex!(place, UnexpectedCharacter),
        0x202 => lex!(place, UnclosedString),
        0x203 => lex!(place, UnclosedComment),
        0x204 => lex!(place, BadEscape),
        0x205 => lex!(place, BadHex),
        0x206 => lex!(place, BadBase64),
        0x207 => lex!(place, UnknownPrefix),
        0x208 => lex!(place, BadNumber),
        0x209 => lex!(place, NumberTooLarge),
        0x20a => lex!(place, BadIndicator),
        0x20b => lex!(place, FloatLeftOut),
        0x301 => EngineFault::Edn(refused!(EdnFault, place, EdnReason::UnexpectedToken)),
        0x302 => EngineFault::Edn(refused!(EdnFault, place, EdnReason::UnexpectedEnd)),
        0x303 => EngineFault::Edn(refused!(EdnFault, place, EdnReason::TooDeep)),
        0x304 => EngineFault::Edn(refused!(EdnFault, place, EdnReason::IndicatorTooNarrow)),
        0x305 => EngineFault::Edn(refused!(EdnFault, place, EdnReason::IndicatorNotAllowed)),
        0x306 => EngineFault::Edn(refused!(EdnFault, place, EdnReason::MixedString)),
        0x307 => EngineFault::Edn(refused!(EdnFault, place, EdnReason::MixedChunks)),
        0x308 => EngineFault::Edn(refused!(EdnFault, place, EdnReason::TextNotUtf8)),
        0x309 => EngineFault::Edn(refused!(EdnFault, place, EdnReason::BadSimple)),
        0x30a => EngineFault::Edn(refused!(EdnFault, place, EdnReason::TagTooLarge)),
        0x401 => EngineFault::TextInput(place),
        0x402 => EngineFault::Show(ShowFault::NotUtf8 { place }),
        0x501 => EngineFault::Invalid(refused!(Invalid, place, InvalidReason::NotUtf8)),
        0x502 => EngineFault::Invalid(refused!(Invalid, place, InvalidReason::BadBignum)),
        0x503 => EngineFault::Invalid(refused!(Invalid, place, InvalidReason::DuplicateKey)),
        0x701 => return Some(CountFault::NoItem(place)),
        0x702 => return Some(CountFault::MoreItems(place)),
        _ => return None,
    }))
}

/// The defect that has this number. `None`: no defect has it.
pub fn defect_at(number: u32) -> Option<DefectReason>
    ensures numbered { IfSome result (λ reason. defect_number reason ≡ number) }
    ensures every { IfNone result ((number < 1537) ⊎ (1540 < number)) }
{
    match number {
        0x601 => Some(DefectReason::LongHead),
        0x602 => Some(DefectReason::EndlessLength),
        0x603 => Some(DefectReason::LooseBignum),
        0x604 => Some(DefectReason::KeyOrder),
        _ => None,
    }
}

/// The number without `OF_SECOND` where it is greater, as those of a second input are; else the number.
pub fn of_first(number: u32) -> u32
    ensures first { number ≤ 65536 → result ≡ number }
    ensures second { 65536 < number → result + 65536 ≡ number }
{
    if number > OF_SECOND {
        number - OF_SECOND
    } else {
        number
    }
}
