//! Each front of each worked input is loaded. What is read and what is refused is a clause. That no front
//! is answered with out of memory is none.
mod inputs;

use self::inputs::{BYTES, TEXTS};
use super::memory::Bytes;
use super::wire::vectors::of_hex;
use cborn_engine::{EngineFault, Kind, load};
use cborn_model::Limit;
use cborn_wire::{WireFault, WireReason, spell_all};
use std::alloc::{AllocError, Global};
use std::process::Abort;
use std::test::Fail;

/// The bytes that an input spells.
fn spelled(alloc: Global, kind: Kind, input: &[u8]) -> Result<Vec<u8>, EngineFault> {
    let nodes = load(alloc, Limit::USUAL, kind, &mut Bytes::new(input, 4096))?;
    Ok(spell_all(alloc, &nodes)?)
}

/// Asserts that each front of the bytes spells itself, is truncated, or has the fault of the whole.
fn are_loaded(rt: &impl Abort, alloc: Global, input: &[u8]) {
    let whole = spelled(alloc, Kind::Wire, input).err();
    assert!(rt; whole != Some(EngineFault::OutOfMemory), "{input:?}");
    for length in 0..=input.len() {
        let cut = EngineFault::Wire(WireFault::Refused {
            place: length as u64,
            reason: WireReason::Truncated,
        });
        match spelled(alloc, Kind::Wire, &input[..length]) {
            Ok(bytes) => assert!(rt; bytes.as_slice() == &input[..length], "{input:?}, {length}"),
            Err(why) => assert!(rt;
                why == cut || Some(why) == whole,
                "{input:?}, {length}: {why}"
            ),
        }
    }
}

/// The map of the keys from 999 down to 0, each with the value 0.
fn great_map(alloc: Global) -> Result<Vec<u8>, AllocError> {
    let mut bytes = Vec::from_slice(alloc, b"\xb9\x03\xe8")?;
    for key in (0..1000u16).rev() {
        let [high, low] = key.to_be_bytes();
        match key {
            0..=23 => bytes.extend_from_slice(&[low, 0])?,
            24..=255 => bytes.extend_from_slice(&[0x18, low, 0])?,
            _ => bytes.extend_from_slice(&[0x19, high, low, 0])?,
        }
    }
    Ok(bytes)
}

/// Catches a front of bytes that is answered with out of memory, or read as other bytes.
#[test]
fn bytes_are_loaded(rt: HostRuntime) -> Result<(), Fail> {
    for input in &of_hex(rt.alloc(), BYTES)? {
        are_loaded(&rt, rt.alloc(), input);
    }
    are_loaded(&rt, rt.alloc(), b"");
    are_loaded(&rt, rt.alloc(), &great_map(rt.alloc())?);
    Ok(())
}

/// Asserts that no front of the text is answered with out of memory.
fn text_is_loaded(rt: &impl Abort, alloc: Global, kind: Kind, input: &[u8]) {
    for length in 0..=input.len() {
        let fault = spelled(alloc, kind, &input[..length]).err();
        let given_up = fault == Some(EngineFault::OutOfMemory);
        assert!(rt; !given_up, "{input:?}, {length}");
    }
}

/// Catches a front of a text that is answered with out of memory.
#[test]
fn texts_are_loaded(rt: HostRuntime) {
    for input in TEXTS {
        text_is_loaded(&rt, rt.alloc(), Kind::Notation, input);
        text_is_loaded(&rt, rt.alloc(), Kind::Notation2, input);
    }
}
