//! One item of bytes that go on after it.
use super::checks::is_item;
use cborn_model::Limit;
use cborn_wire::WireReason::{BadChunk, ReservedInfo, Truncated};
use cborn_wire::{WireFault, WireReason, read_one};

/// Bytes, the offset to read from, and the bytes and the end of the item there.
const FIRST: [(&[u8], usize, &[u8], usize); 8] = [
    (b"\x00\xff", 0, b"\x00", 1),
    (b"\x00\x18\x64\x1c", 1, b"\x18\x64", 3),
    (b"\x1c\x18\x64", 1, b"\x18\x64", 3),
    (b"\x00\xbf\x01\x02\xff\xff", 1, b"\xbf\x01\x02\xff", 5),
    (b"\x82\x00\x01\x02", 0, b"\x82\x00\x01", 3),
    (b"\x82\x00\x01\x02", 2, b"\x01", 3),
    (b"\x5f\x41\x61\xff\xff", 0, b"\x5f\x41\x61\xff", 4),
    (b"\x41\x00\x41", 0, b"\x41\x00", 2),
];

/// Bytes, the offset to read from, and the fault of the item there.
const FAULTS: [(&[u8], usize, u64, WireReason); 3] = [
    (b"\x00", 1, 1, Truncated),
    (b"\x00\x1c", 1, 1, ReservedInfo),
    (b"\xff\x5f\x00", 1, 2, BadChunk),
];

/// Catches an item that takes more than its own bytes, and a reader that judges what follows it.
#[test]
fn reads_one_item(rt: HostRuntime) {
    for (input, start, bytes, end) in FIRST {
        assert!(rt; start <= input.len());
        let read = read_one(rt.alloc(), Limit::USUAL, input, start);
        let (item, stop) = read.expect(&rt, "an item");
        assert_eq!(rt; stop, end, "{input:?}");
        is_item(&rt, rt.alloc(), &item, start as u64, bytes);
    }
}

/// Catches offsets that count from where reading starts.
#[test]
fn refuses_one_item(rt: HostRuntime) {
    for (input, start, place, reason) in FAULTS {
        assert!(rt; start <= input.len());
        let read = read_one(rt.alloc(), Limit::USUAL, input, start);
        let fault = WireFault::Refused { place, reason };
        assert_eq!(rt; read.err(), Some(fault), "{input:?}");
    }
}
