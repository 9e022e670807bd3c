//! The calls of the encoder have an answer: by their contracts each could always answer out of memory.
//! That the answer is right is a clause. `judge` encodes one item of each form, and the tests of the
//! engine encode worked items.

use cborn_det::{equal_bytes, push_encoding};
use cborn_judge::judge;
use cborn_model::{Bytewise, LengthFirst, Limit, Valid};
use cborn_wire::read_one;
use std::alloc::Global;
use std::test::Fail;

/// Two items, and whether they are the same: maps with their pairs in another order, and strings of
/// both kinds with the same content.
const PAIRS: [(&[u8], &[u8], bool); 4] = [
    (b"\xa2\x01\x02\x03\x04", b"\xa2\x03\x04\x01\x02", true),
    (b"\x00", b"\xf4", false),
    (b"\x41\x61", b"\x61\x61", false),
    (b"\x80", b"\xa0", false),
];

/// The item of these bytes.
fn item_of(alloc: Global, bytes: &[u8]) -> Result<Valid, Fail> {
    let (node, _) = read_one(alloc, Limit::USUAL, bytes, 0)?;
    Ok(judge(alloc, &node)?)
}

/// Catches a comparison that never answers, in either order.
#[test]
fn compares(rt: HostRuntime) -> Result<(), Fail> {
    for (first, second, is_same) in PAIRS {
        let a = item_of(rt.alloc(), first)?;
        let b = item_of(rt.alloc(), second)?;
        let bytewise = equal_bytes::<Bytewise>(rt.alloc(), &a, &b)?;
        let length_first = equal_bytes::<LengthFirst>(rt.alloc(), &a, &b)?;
        assert_eq!(rt; (bytewise, length_first), (is_same, is_same), "{first:?}");
    }
    Ok(())
}

/// Catches a call that never answers, and one that writes over what is there.
#[test]
fn appends(rt: HostRuntime) -> Result<(), Fail> {
    let item = item_of(rt.alloc(), b"\x81\x18\x18")?;
    let mut out = Vec::from_slice(rt.alloc(), b"\x07")?;
    push_encoding::<LengthFirst>(rt.alloc(), item.item(), &mut out)?;
    assert_eq!(rt; out.as_slice(), b"\x07\x81\x18\x18".as_slice());
    Ok(())
}
