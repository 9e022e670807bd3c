//! A feeder's answers, piece by piece.
use super::checks::is_item;
use cborn_model::Limit;
use cborn_wire::WireReason::{BadSimple, ReservedInfo, Truncated};
use cborn_wire::{Feeder, WireFault, read_all};
use std::alloc::Global;
use std::process::Abort;
use std::test::Fail;

/// Feeds a piece, and compares the answer and the count of bytes after it.
fn feeds(
    rt: &impl Abort,
    feeder: &mut Feeder,
    piece: &[u8],
    answer: Result<(), WireFault>,
    fed: u64,
) {
    assert!(rt; feeder.fed() < 10000 && piece.len() < 10000);
    assert_eq!(rt; feeder.feed(piece), answer);
    assert_eq!(rt; feeder.fed(), fed);
}

/// Takes an item, which has to begin at this offset and spell these bytes.
fn takes(rt: &impl Abort, alloc: Global, feeder: &mut Feeder, place: u64, input: &[u8]) {
    let item = feeder.take().expect(rt, "an item");
    is_item(rt, alloc, &item, place, input);
}

/// Asserts that no item is left to take, and none is unfinished.
fn ends(rt: &impl Abort, mut feeder: Feeder) {
    assert!(rt; feeder.take().is_none());
    assert_eq!(rt; feeder.finish().expect(rt, "no fault").len(), 0);
}

/// Catches offsets that count from the piece, or from the last item that was taken.
#[test]
fn takes_one_by_one(rt: HostRuntime) {
    let mut feeder = Feeder::new(rt.alloc(), Limit::USUAL);
    feeds(&rt, &mut feeder, b"\x01\x18", Ok(()), 2);
    takes(&rt, rt.alloc(), &mut feeder, 0, b"\x01");
    feeds(&rt, &mut feeder, b"\x64\x61", Ok(()), 4);
    takes(&rt, rt.alloc(), &mut feeder, 1, b"\x18\x64");
    feeds(&rt, &mut feeder, b"\x7a", Ok(()), 5);
    takes(&rt, rt.alloc(), &mut feeder, 3, b"\x61\x7a");
    ends(&rt, feeder);
}

/// Catches an item whose offset depends on where the input is cut.
#[test]
fn takes_the_same_at_every_cut(rt: HostRuntime) {
    let input = b"\x01\x18\x64\x61\x7a";
    for cut in 0..=input.len() {
        assert!(rt; cut <= input.len());
        let (first, second) = input.split_at(cut);
        let mut feeder = Feeder::new(rt.alloc(), Limit::USUAL);
        feeds(&rt, &mut feeder, first, Ok(()), cut as u64);
        feeds(&rt, &mut feeder, second, Ok(()), 5);
        takes(&rt, rt.alloc(), &mut feeder, 0, b"\x01");
        takes(&rt, rt.alloc(), &mut feeder, 1, b"\x18\x64");
        takes(&rt, rt.alloc(), &mut feeder, 3, b"\x61\x7a");
        ends(&rt, feeder);
    }
}

/// Catches an item that is handed out before its end, and chunks that end where a piece does.
#[test]
fn takes_chunks_in_pieces(rt: HostRuntime) {
    let mut feeder = Feeder::new(rt.alloc(), Limit::USUAL);
    feeds(&rt, &mut feeder, b"\x5f\x42\x61", Ok(()), 3);
    assert!(rt; feeder.take().is_none());
    feeds(&rt, &mut feeder, b"\x62", Ok(()), 4);
    assert!(rt; feeder.take().is_none());
    feeds(&rt, &mut feeder, b"\x41\x63\xff\x00", Ok(()), 8);
    takes(
        &rt,
        rt.alloc(),
        &mut feeder,
        0,
        b"\x5f\x42\x61\x62\x41\x63\xff",
    );
    takes(&rt, rt.alloc(), &mut feeder, 7, b"\x00");
    ends(&rt, feeder);
}

/// Catches a feeder that reads on after a fault, counts the refused piece, or drops what came before.
#[test]
fn answers_a_fault_again(rt: HostRuntime) {
    let fault = WireFault::Refused {
        place: 1,
        reason: ReservedInfo,
    };
    let mut feeder = Feeder::new(rt.alloc(), Limit::USUAL);
    feeds(&rt, &mut feeder, b"\x00\x1c", Err(fault), 0);
    takes(&rt, rt.alloc(), &mut feeder, 0, b"\x00");
    assert!(rt; feeder.take().is_none());
    feeds(&rt, &mut feeder, b"\x00", Err(fault), 0);
    feeds(&rt, &mut feeder, b"", Err(fault), 0);
    assert!(rt; feeder.take().is_none());
    assert_eq!(rt; feeder.finish().err(), Some(fault));
}

/// Catches a head that is judged before it is whole, and an offset that counts from the piece.
#[test]
fn refuses_a_head_in_pieces(rt: HostRuntime) {
    let fault = WireFault::Refused {
        place: 0,
        reason: BadSimple,
    };
    let mut feeder = Feeder::new(rt.alloc(), Limit::USUAL);
    feeds(&rt, &mut feeder, b"\xf8", Ok(()), 1);
    feeds(&rt, &mut feeder, b"\x18", Err(fault), 1);
    assert_eq!(rt; feeder.finish().err(), Some(fault));
}

/// Catches an empty piece that ends the input, and an unfinished head that isn't missed.
#[test]
fn misses_the_rest_of_a_head(rt: HostRuntime) {
    let fault = WireFault::Refused {
        place: 2,
        reason: Truncated,
    };
    let mut feeder = Feeder::new(rt.alloc(), Limit::USUAL);
    feeds(&rt, &mut feeder, b"\x01", Ok(()), 1);
    feeds(&rt, &mut feeder, b"", Ok(()), 1);
    feeds(&rt, &mut feeder, b"\x18", Ok(()), 2);
    assert_eq!(rt; feeder.finish().err(), Some(fault));
}

/// Catches a feeder that gives up where many items wait. Its contract would be kept.
#[test]
fn keeps_many_items(rt: HostRuntime) -> Result<(), Fail> {
    let bytes = [7; 100_000];
    let mut feeder = Feeder::new(rt.alloc(), Limit::USUAL);
    feeder.feed(&bytes)?;
    takes(&rt, rt.alloc(), &mut feeder, 0, b"\x07");
    assert_eq!(rt; feeder.finish()?.len(), 99_999);
    assert_eq!(rt; read_all(rt.alloc(), Limit::USUAL, &bytes)?.len(), 100_000);
    Ok(())
}
