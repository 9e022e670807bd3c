//! Bytes are read, judged and encoded by way of nodes: by their contracts these calls could always
//! answer out of memory. One input has each form of a node. Which answer is right is a clause.

use cborn_det::encode_all;
use cborn_judge::{Invalid, InvalidReason, judge, judge_all};
use cborn_model::{Bytewise, Limit};
use cborn_wire::read_all;
use std::test::Fail;

/// Each form of a node: heads that are too wide, chunks, indefinite lengths, keys in falling order, a
/// tag, bignums and a simple value.
const EACH_FORM: &[u8] =
    b"\x18\x01\x38\x05\x58\x01a\x78\x01b\x5f\x41\x01\x41\x02\xff\x7f\x61c\x61d\xff\x9f\x01\x61e\xff\xbf\x02\xa0\x01\x80\xff\xd8\x01\x60\xc2\x42\x00\x05\xc3\x40\xf5";

const ENCODED: &[u8] =
    b"\x01\x25\x41a\x61b\x42\x01\x02\x62cd\x82\x01\x61e\xa2\x01\x80\x02\xa0\xc1\x60\x05\x20\xf5";

/// Catches a form of a node that has no meaning.
#[test]
fn means(rt: HostRuntime) -> Result<(), Fail> {
    let nodes = read_all(rt.alloc(), Limit::USUAL, EACH_FORM)?;
    let items = judge_all(rt.alloc(), &nodes)?;
    let written = encode_all::<Bytewise>(rt.alloc(), &items)?;
    assert_eq!(rt; written.as_slice(), ENCODED);
    Ok(())
}

/// Why the last item is invalid, and where: repeated keys in another order, in chunks or as a bignum,
/// and flaws that come before that of a repeated key.
const REFUSED: [(&[u8], u64, InvalidReason); 9] = [
    (b"\x7f\x61\xc3\x61\xbc\xff", 1, InvalidReason::NotUtf8),
    (b"\xc2\x01", 0, InvalidReason::BadBignum),
    (b"\x81\xc2\x01", 1, InvalidReason::BadBignum),
    (
        b"\xa2\xa2\x01\x02\x03\x04\x00\xa2\x03\x04\x01\x02\x00",
        7,
        InvalidReason::DuplicateKey,
    ),
    (
        b"\xa2\x41\x61\x00\x5f\x41\x61\xff\x00",
        4,
        InvalidReason::DuplicateKey,
    ),
    (
        b"\xa2\x01\x00\xc2\x41\x01\x00",
        3,
        InvalidReason::DuplicateKey,
    ),
    (
        b"\x00\xa2\x01\x00\xc2\x41\x01\x00",
        4,
        InvalidReason::DuplicateKey,
    ),
    (b"\xa2\xc2\x01\x00\xc2\x01\x00", 1, InvalidReason::BadBignum),
    (b"\xa2\x01\x61\xff\x01\x00", 2, InvalidReason::NotUtf8),
];

/// Catches a flaw in whose place out of memory is answered.
#[test]
fn refuses(rt: HostRuntime) -> Result<(), Fail> {
    for (bytes, place, reason) in REFUSED {
        let nodes = read_all(rt.alloc(), Limit::USUAL, bytes)?;
        let wanted = Some(Invalid::Refused { place, reason });
        assert_eq!(rt; judge_all(rt.alloc(), &nodes).err(), wanted, "{bytes:?}");
        let last = nodes.last().ok_or("no item")?;
        assert_eq!(rt; judge(rt.alloc(), last).err(), wanted, "{bytes:?}");
    }
    Ok(())
}
