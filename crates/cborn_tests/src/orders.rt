//! An order of keys of a caller's own: the bytewise order reversed.
ghost use Rattle.std.specs.Prelude.{◌≡◌};
ghost use Rattle.cborn_tests.specs.devices.Backwards.{backwards, backwards_order};

use cborn_judge::{Encoder, InvalidReason};
use cborn_model::{KeyOrder, Limit};
use cborn_wire::visit;
use std::alloc::{AllocError, Global};
use std::cmp::Ordering;
use std::test::Fail;

struct Backwards;

impl KeyOrder for Backwards {
    ghost order = { backwards };

    fn compare(a: &[u8], b: &[u8]) -> Ordering {
        b.cmp(a)
    }

    ghost laws = { backwards_order };
}

/// The encodings of what bytes hold, in this order; or the place of their first flaw, and its reason.
fn encode(alloc: Global, bytes: &[u8]) -> Result<Result<Vec<u8>, (u64, InvalidReason)>, Fail> {
    let mut encoder = Encoder::<Backwards>::new(alloc);
    visit(alloc, Limit::USUAL, bytes, &mut encoder)?;
    match encoder.finish() {
        Ok(encoded) => Ok(Ok(encoded.bytes)),
        Err(flaw) => Ok(Err(flaw)),
    }
}

/// Maps, and their encodings in this order: of indefinite length, in keys and values, and with keys
/// that begin alike.
const MAPS: [(&[u8], &[u8]); 4] = [
    (b"\xa2\x03\x04\x01\x02", b"\xa2\x03\x04\x01\x02"),
    (
        b"\xbf\x02\x00\x61a\x01\x20\x02\xff",
        b"\xa3\x61a\x01\x20\x02\x02\x00",
    ),
    (
        b"\xa1\xa2\x01\x00\x02\x00\xa2\x05\x00\x06\x00",
        b"\xa1\xa2\x02\x00\x01\x00\xa2\x06\x00\x05\x00",
    ),
    (
        b"\xa3\x6atwo frontA\x00\x6atwo frontC\x02\x6atwo frontB\x01",
        b"\xa3\x6atwo frontC\x02\x6atwo frontB\x01\x6atwo frontA\x00",
    ),
];

/// Catches pairs that are left as they stand.
#[test]
fn arranges_small_maps(rt: HostRuntime) -> Result<(), Fail> {
    for (bytes, want) in MAPS {
        let answer = encode(rt.alloc(), bytes)?.ok();
        assert_eq!(rt; answer.as_deref(), Some(want), "{bytes:?}");
    }
    Ok(())
}

/// Catches a key that stands twice and isn't found where the keys fall, or is reported at another place.
#[test]
fn finds_a_repeated_key(rt: HostRuntime) -> Result<(), Fail> {
    let flaw = encode(rt.alloc(), b"\xa3\x01\x00\x02\x00\x01\x00")?.err();
    assert_eq!(rt; flaw, Some((5, InvalidReason::DuplicateKey)));
    Ok(())
}

/// A map of the keys 1000 to 2999, from either end, and of 0, whose value is `last`.
fn thousands(alloc: Global, rising: bool, last: &[u8]) -> Result<Vec<u8>, AllocError> {
    let mut out = Vec::from_slice(alloc, b"\xb9\x07\xd1")?;
    for n in 0..2000u16 {
        let key = if rising { 1000 + n } else { 2999 - n };
        let [high, low] = key.to_be_bytes();
        out.extend_from_slice(&[0x19, high, low, 0x42, high, low])?;
    }
    out.push(0)?;
    out.extend_from_slice(last)?;
    Ok(out)
}

/// Catches a wrong order of many pairs, the last of which has an integer or an array for its value.
#[test]
fn arranges_great_maps(rt: HostRuntime) -> Result<(), Fail> {
    for last in [b"\x00".as_slice(), b"\x81\x00".as_slice()] {
        let bytes = thousands(rt.alloc(), true, last)?;
        let want = thousands(rt.alloc(), false, last)?;
        let answer = encode(rt.alloc(), &bytes)?.ok();
        assert!(rt; answer.as_deref() == Some(want.as_slice()), "{last:?}");
    }
    Ok(())
}

/// A map of the keys 100 to 163, from either end. A value is an array of one string, of `len` bytes,
/// or of `middle` where the key is 130.
fn long_pairs(alloc: Global, rising: bool, len: u16, middle: u16) -> Result<Vec<u8>, AllocError> {
    let mut out = Vec::from_slice(alloc, b"\xb8\x40")?;
    for n in 0..64u8 {
        let key = if rising { 100 + n } else { 163 - n };
        let len = if key == 130 { middle } else { len };
        let [high, low] = len.to_be_bytes();
        out.extend_from_slice(&[0x18, key, 0x81, 0x59, high, low])?;
        for _ in 0..len {
            out.push(key)?;
        }
    }
    Ok(out)
}

/// Catches a wrong order in maps of many bytes. All pairs are equally long, or one is longer than the
/// others together.
#[test]
fn arranges_long_maps(rt: HostRuntime) -> Result<(), Fail> {
    for (len, middle) in [(2000, 2000), (500, 50_000)] {
        let bytes = long_pairs(rt.alloc(), true, len, middle)?;
        let want = long_pairs(rt.alloc(), false, len, middle)?;
        let answer = encode(rt.alloc(), &bytes)?.ok();
        assert!(rt;
            answer.as_deref() == Some(want.as_slice()),
            "{len} {middle}"
        );
    }
    Ok(())
}
