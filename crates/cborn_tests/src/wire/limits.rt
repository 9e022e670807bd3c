//! Nested arrays and tags, up to the limit.
use super::checks::spells;
use super::cuts::by_bytes;
use cborn_model::Limit;
use cborn_wire::read_all;
use std::alloc::{AllocError, Global};
use std::test::Fail;

/// A limit, a byte, how often the input begins with it, and the bytes after that.
const DEEP: [(u64, u8, usize, &[u8]); 9] = [
    (1, 0x80, 1, b""),
    (1, 0x81, 1, b"\x00"),
    (
        1,
        0x00,
        0,
        b"\x80\x81\x00\xc2\x49\x01\x00\x00\x00\x00\x00\x00\x00\x00",
    ),
    (1, 0x81, 1, b"\x7f\x61\x61\xff"),
    (128, 0x81, 128, b"\x00"),
    (128, 0x81, 128, b"\x5f\x41\x00\xff"),
    (128, 0xc1, 128, b"\x00"),
    (1024, 0x81, 1024, b"\x00"),
    (1024, 0xc1, 1024, b"\x00"),
];

/// `count` times the byte `first`, and then `rest`.
fn nested(alloc: Global, first: u8, count: usize, rest: &[u8]) -> Result<Vec<u8>, AllocError> {
    let mut bytes = Vec::new(alloc);
    for _ in 0..count {
        bytes.push(first)?;
    }
    bytes.extend_from_slice(rest)?;
    Ok(bytes)
}

/// Catches a limit that is one too small, or that counts strings, chunks or items in a row.
#[test]
fn allows_as_many_as_the_limit(rt: HostRuntime) -> Result<(), Fail> {
    for (limit, first, count, rest) in DEEP {
        let limit = Limit::new(limit).ok_or("no limit")?;
        let input = nested(rt.alloc(), first, count, rest)?;
        let read = read_all(rt.alloc(), limit, &input);
        spells(&rt, rt.alloc(), read, &input);
        let read = by_bytes(&rt, rt.alloc(), limit, &input);
        spells(&rt, rt.alloc(), read, &input);
    }
    Ok(())
}
