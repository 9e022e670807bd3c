//! Readers and writers that give or accept little, or fail.
use super::memory::{Bytes, Taken, Trouble};
use cborn_engine::{Counted, EngineFault, Kind, Sink, load, load_within, normalise};
use cborn_model::{Bytewise, Limit};
use cborn_wire::{WireFault, WireReason, spell_all};
use std::alloc::{AllocError, Global};
use std::process::Abort;
use std::test::Fail;

/// It normalises to 82014161.
const INPUT: &[u8] = b"\x98\x02\x18\x01\x58\x01\x61";

fn normalised(alloc: Global, bytes: &mut Bytes<'_>, out: &mut Taken) -> Result<(), EngineFault> {
    let kind = Kind::Wire;
    normalise::<Bytewise, Bytes<'_>, Taken>(alloc, Limit::USUAL, kind, kind, bytes, out)
}

/// The trouble of a writer of one byte a call and the number of calls before it, what `normalise`
/// answers, what was written, and how many writes, flushes and failures there were.
const TROUBLES: [(u64, Trouble, bool, &[u8], [u64; 3]); 4] = [
    (9, Trouble::Nothing, true, b"\x82\x01\x41\x61", [4, 1, 0]),
    (1, Trouble::Fails, false, b"\x82", [2, 0, 1]),
    (2, Trouble::TakesNothing, false, b"\x82\x01", [3, 0, 1]),
    (
        9,
        Trouble::FailsToFlush,
        false,
        b"\x82\x01\x41\x61",
        [4, 1, 1],
    ),
];

#[test]
fn writers_with_trouble(rt: HostRuntime) -> Result<(), Fail> {
    for (calls, trouble, is_well, taken, counts) in TROUBLES {
        let mut out = Taken::troubled(rt.alloc(), 1, calls, trouble)?;
        let result = normalised(rt.alloc(), &mut Bytes::new(INPUT, 3), &mut out);
        let fault = (!is_well).then_some(EngineFault::WriteFault);
        assert_eq!(rt; result.err(), fault, "{calls} calls, {counts:?}");
        let found = [out.writes, out.flushes, Sink::failures(&out)];
        assert_eq!(rt; found, counts, "{calls} calls");
        assert_eq!(rt; out.bytes.as_slice(), taken, "{calls} calls, {counts:?}");
    }
    Ok(())
}

#[test]
fn inputs_within_a_bound(rt: HostRuntime) -> Result<(), Fail> {
    let mut zeros = Counted::new(b"\x00\x00\x00\x00".as_slice());
    let nodes = load_within(rt.alloc(), Limit::USUAL, 4, Kind::Wire, &mut zeros)?;
    assert_eq!(rt; nodes.len(), 4);
    let mut long = Bytes::new(b"\x1c\x00\x00\x00\x00\x00\x00", 4096);
    let result = load_within(rt.alloc(), Limit::USUAL, 4, Kind::Wire, &mut long);
    assert_eq!(rt; result.err(), Some(EngineFault::TooLong));
    assert_eq!(rt; long.rest.len(), 2);
    let mut bytes = Bytes::new(INPUT, 1);
    let nodes = load(rt.alloc(), Limit::USUAL, Kind::Wire, &mut bytes)?;
    assert_eq!(rt; nodes.len(), 1);
    Ok(())
}

/// What the input of `input_of_pieces` has after its 9,096 integers in 9,098 bytes, and the fault of
/// the input.
const LAST: [(&[u8], Option<(u64, WireReason)>); 4] = [
    (b"", None),
    (b"\x1c", Some((9098, WireReason::ReservedInfo))),
    (b"\x1c\x00\x18", Some((9098, WireReason::ReservedInfo))),
    (b"\x42\x00", Some((9100, WireReason::Truncated))),
];

/// Integers, one of which crosses the end of the first 4,096 bytes, and then `last`.
fn input_of_pieces(alloc: Global, last: &[u8]) -> Result<Vec<u8>, AllocError> {
    let mut bytes = Vec::new(alloc);
    bytes.extend_from_slice(&[0; 4095])?;
    bytes.extend_from_slice(b"\x19\x01\x00")?;
    bytes.extend_from_slice(&[1; 5000])?;
    bytes.extend_from_slice(last)?;
    Ok(bytes)
}

/// Catches a piece that is used twice or not at all, and an offset that counts from the start of a
/// piece.
#[test]
fn inputs_by_pieces(rt: HostRuntime) -> Result<(), Fail> {
    for (last, fault) in LAST {
        let input = input_of_pieces(rt.alloc(), last)?;
        for step in [1, 5, 4096, 9999] {
            let mut bytes = Bytes::new(&input, step);
            match load(rt.alloc(), Limit::USUAL, Kind::Wire, &mut bytes) {
                Ok(nodes) => {
                    assert_eq!(rt; fault, None, "{step}");
                    assert_eq!(rt; nodes.len(), 9096, "{step}");
                    let spelled = spell_all(rt.alloc(), &nodes)?;
                    assert_eq!(rt; spelled.as_slice(), input.as_slice(), "{step}");
                }
                Err(why) => {
                    let refused = fault.map(|(place, reason)| {
                        EngineFault::Wire(WireFault::Refused { place, reason })
                    });
                    assert_eq!(rt; Some(why), refused, "{step}");
                }
            }
        }
    }
    Ok(())
}

/// Asserts that an input of at most `most` bytes from the reader isn't loaded, for this fault.
fn is_refused(rt: &impl Abort, alloc: Global, most: u64, bytes: Bytes<'_>, want: EngineFault) {
    assert!(rt; most < 10000);
    let mut bytes = bytes;
    let result = load_within(alloc, Limit::USUAL, most, Kind::Wire, &mut bytes);
    assert_eq!(rt; result.err(), Some(want));
}

/// Catches a fault that is reported before a failed read or a byte too many that follow it, and one
/// that is reported in place of them.
#[test]
fn troubles_after_faults(rt: HostRuntime) -> Result<(), Fail> {
    let reason = WireReason::ReservedInfo;
    let fault = EngineFault::Wire(WireFault::Refused { place: 1, reason });
    for (length, step, calls) in [
        (2, 1, 2),
        (2, 4096, 1),
        (6, 3, 2),
        (5000, 3, 1667),
        (5000, 4096, 2),
    ] {
        let mut input = Vec::from_slice(rt.alloc(), b"\x00\x1c")?;
        input.resize(length, 0)?;
        let most = length as u64;
        let failing = Bytes::failing(&input, step, calls);
        is_refused(&rt, rt.alloc(), most, failing, EngineFault::ReadFault);
        let bytes = Bytes::new(&input, step);
        let shorter = most.saturating_sub(1);
        is_refused(&rt, rt.alloc(), shorter, bytes, EngineFault::TooLong);
        let bytes = Bytes::new(&input, step);
        is_refused(&rt, rt.alloc(), most, bytes, fault);
    }
    Ok(())
}

fn calls_of_load(alloc: Global, kind: Kind, input: &[u8], step: usize) -> Result<u64, EngineFault> {
    let mut bytes = Bytes::new(input, step);
    match load_within(alloc, Limit::USUAL, 5, kind, &mut bytes) {
        Err(EngineFault::OutOfMemory) => Err(EngineFault::OutOfMemory),
        _ => Ok(bytes.calls),
    }
}

/// Catches a reader that is asked again after its end or a byte too many.
#[test]
fn calls_of_readers(rt: HostRuntime) -> Result<(), Fail> {
    let zeros = b"\x00\x00\x00\x00\x00\x00\x00";
    for (length, step, calls) in [
        (0, 1, 1),
        (3, 1, 4),
        (3, 4096, 2),
        (5, 1, 6),
        (7, 1, 6),
        (7, 4, 2),
        (7, 4096, 1),
    ] {
        let input = &zeros[..length];
        let of_bytes = calls_of_load(rt.alloc(), Kind::Wire, input, step)?;
        assert_eq!(rt; of_bytes, calls, "{length} by {step}");
        let of_text = calls_of_load(rt.alloc(), Kind::Notation, input, step)?;
        assert_eq!(rt; of_text, calls, "{length} by {step}");
    }
    Ok(())
}

/// Catches a reader that is asked again after its failure.
#[test]
fn calls_of_failing_readers(rt: HostRuntime) -> Result<(), Fail> {
    for (calls_to_failure, calls) in [(0, 1), (2, 3), (7, 8), (8, 8)] {
        let mut bytes = Bytes::failing(INPUT, 1, calls_to_failure);
        let result = normalised(rt.alloc(), &mut bytes, &mut Taken::new(rt.alloc())?);
        let fault = (calls_to_failure < 8).then_some(EngineFault::ReadFault);
        assert_eq!(rt; result.err(), fault, "{calls_to_failure}");
        assert_eq!(rt; bytes.calls, calls, "{calls_to_failure}");
    }
    Ok(())
}
