//! Input in pieces: the answer doesn't depend on where the input is cut.
use super::checks::{are_read_alike, spells};
use super::vectors::{LOOSE, REFUSED, WELLFORMED, of_hex};
use cborn_model::{Limit, Spelled};
use cborn_wire::{Feeder, WireFault, read_all};
use std::alloc::Global;
use std::process::Abort;
use std::test::Fail;

/// Feeds a piece, and ignores the answer: `finish` answers a fault again.
fn feed(rt: &impl Abort, feeder: &mut Feeder, piece: &[u8]) {
    assert!(rt; feeder.fed() < 10000 && piece.len() < 10000);
    let _answer = feeder.feed(piece);
}

/// What is read of pieces of one byte, with an empty piece before each.
pub fn by_bytes(
    rt: &impl Abort,
    alloc: Global,
    limit: Limit,
    input: &[u8],
) -> Result<Vec<Spelled>, WireFault> {
    let mut feeder = Feeder::new(alloc, limit);
    for byte in input {
        feed(rt, &mut feeder, &[]);
        feed(rt, &mut feeder, &[*byte]);
    }
    feeder.finish()
}

/// What is read of two pieces, the first of which has `cut` bytes.
fn by_two(
    rt: &impl Abort,
    alloc: Global,
    input: &[u8],
    cut: usize,
) -> Result<Vec<Spelled>, WireFault> {
    assert!(rt; cut <= input.len());
    let (first, second) = input.split_at(cut);
    let mut feeder = Feeder::new(alloc, Limit::USUAL);
    feed(rt, &mut feeder, first);
    feed(rt, &mut feeder, second);
    feeder.finish()
}

/// Catches a head that is kept for one more piece only.
#[test]
fn reads_by_bytes(rt: HostRuntime) -> Result<(), Fail> {
    for words in WELLFORMED {
        for input in &of_hex(rt.alloc(), words)? {
            let read = by_bytes(&rt, rt.alloc(), Limit::USUAL, input);
            spells(&rt, rt.alloc(), read, input);
        }
    }
    Ok(())
}

/// Catches a fault that is reported later than at its head, or with another offset.
#[test]
fn refuses_by_bytes(rt: HostRuntime) {
    for (input, place, reason) in REFUSED {
        let fault = WireFault::Refused { place, reason };
        let read = by_bytes(&rt, rt.alloc(), Limit::USUAL, input);
        assert_eq!(rt; read.err(), Some(fault), "{input:?}");
    }
}

/// Catches a piece's end that is taken for the end of a head, a string, a chunk or an array.
#[test]
fn reads_at_every_cut(rt: HostRuntime) -> Result<(), Fail> {
    for input in &of_hex(rt.alloc(), LOOSE)? {
        let whole = read_all(rt.alloc(), Limit::USUAL, input)?;
        assert!(rt; input.len() < 100);
        for cut in 0..=input.len() {
            let read = by_two(&rt, rt.alloc(), input, cut)?;
            are_read_alike(&rt, rt.alloc(), &read, &whole);
        }
    }
    Ok(())
}

/// Catches a fault whose offset counts from its piece, and one that the second piece hides.
#[test]
fn refuses_at_every_cut(rt: HostRuntime) {
    for (input, place, reason) in REFUSED {
        let fault = WireFault::Refused { place, reason };
        assert!(rt; input.len() < 100);
        for cut in 0..=input.len() {
            let read = by_two(&rt, rt.alloc(), input, cut);
            assert_eq!(rt; read.err(), Some(fault), "{input:?} cut at {cut}");
        }
    }
}
