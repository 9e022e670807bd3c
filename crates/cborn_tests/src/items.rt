//! Bytes that are cut into their items. By its contract the call could always answer out of memory.
use cborn_engine::Items;
use cborn_model::Limit;
use cborn_wire::{WireFault, WireReason};
use std::test::Fail;

/// Items of appendix A of RFC 8949.
const EXAMPLES: [&[u8]; 6] = [
    b"\x00",
    b"\x83\x01\x82\x02\x03\x82\x04\x05",
    b"\x64IETF",
    b"\x5f\x42\x01\x02\x43\x03\x04\x05\xff",
    b"\xc1\x1a\x51\x4b\x67\xb0",
    b"\xbf\x61a\x01\x61b\x9f\x02\x03\xff\xff",
];

/// Those items one after another (RFC 8742), and then an array that is cut off.
const SEQUENCE: &[u8] =
    b"\x00\x83\x01\x82\x02\x03\x82\x04\x05\x64IETF\x5f\x42\x01\x02\x43\x03\x04\x05\xff\xc1\x1a\x51\x4b\x67\xb0\xbf\x61a\x01\x61b\x9f\x02\x03\xff\xff\x82\x01";

/// Catches an item that is left out or cut elsewhere, and a fault that isn't at its offset in the input
/// or is another one when it is asked for again.
#[test]
fn each_item_and_then_the_fault(rt: HostRuntime) -> Result<(), Fail> {
    let mut items = Items::new(rt.alloc(), Limit::USUAL, SEQUENCE);
    for example in EXAMPLES {
        let item = items.next_item()?;
        assert!(rt; item == Some(example), "{example:?}");
    }
    let cut = WireFault::Refused {
        place: SEQUENCE.len() as u64,
        reason: WireReason::Truncated,
    };
    for _ in 0..2 {
        assert_eq!(rt; items.next_item().err(), Some(cut));
    }
    let whole = &SEQUENCE[..SEQUENCE.len() - 2];
    let mut items = Items::new(rt.alloc(), Limit::USUAL, whole);
    for example in EXAMPLES {
        let item = items.next_item()?;
        assert!(rt; item == Some(example), "{example:?}");
    }
    for _ in 0..2 {
        assert!(rt; items.next_item()?.is_none());
    }
    Ok(())
}
