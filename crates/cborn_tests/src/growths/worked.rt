//! Worked inputs: an item of bytes for each call that gives or accepts nodes, and a text for `load`.
use super::super::memory::Bytes;
use cborn_det::encode;
use cborn_edn::{EdnFault, EdnReason, show};
use cborn_engine::{EngineFault, Kind, load};
use cborn_judge::DefectReason::{EndlessLength, KeyOrder, LongHead, LooseBignum};
use cborn_judge::{Defect, DefectReason, first_defect, judge};
use cborn_model::{Bytewise, LengthFirst, Limit, Spelled};
use cborn_wire::{Feeder, WireFault, spell, spell_all};
use std::alloc::{AllocError, Global};
use std::process::Abort;
use std::test::Fail;

/// The bytes of an item, its text, its encoding in either order of keys, and its first defect.
type Worked<'a> = (&'a [u8], &'a str, &'a [u8], Option<(u64, DefectReason)>);

/// A map with keys in falling order, and its encoding length-first.
const FALLING: (Worked<'static>, &[u8]) = (
    (
        b"\xa8\xf4\x00\x81\x20\x00\x81\x18\x64\x00\x62\x61\x61\x00\x61\x7a\x00\x20\x00\x18\x64\x00\x0a\x00",
        "{false: 0, [-1]: 0, [100]: 0, \"aa\": 0, \"z\": 0, -1: 0, 100: 0, 10: 0}",
        b"\xa8\x0a\x00\x18\x64\x00\x20\x00\x61\x7a\x00\x62\x61\x61\x00\x81\x18\x64\x00\x81\x20\x00\xf4\x00",
        Some((3, KeyOrder)),
    ),
    b"\xa8\x0a\x00\x20\x00\xf4\x00\x18\x64\x00\x61\x7a\x00\x81\x20\x00\x62\x61\x61\x00\x81\x18\x64\x00",
);

/// A map with keys in falling order, a map with a string in chunks, bignums that are loose, in chunks,
/// without bytes or with a long head, strings and tags, keys of two kinds with the same bytes, and a
/// defect in a key, in a chunk and in a value.
const WORKED: [Worked<'static>; 18] = [
    (
        b"\xa2\x03\x04\x01\x81\x02",
        "{3: 4, 1: [2]}",
        b"\xa2\x01\x81\x02\x03\x04",
        Some((3, KeyOrder)),
    ),
    (
        b"\xbf\x61\x7a\x01\x0a\x5f\x41\x01\xff\xff",
        "{_ \"z\": 1, 10: (_ h'01')}",
        b"\xa2\x0a\x41\x01\x61\x7a\x01",
        Some((0, EndlessLength)),
    ),
    (b"\xc2\x41\x01", "2(h'01')", b"\x01", Some((0, LooseBignum))),
    (
        b"\xc2\x5f\x41\x01\xff",
        "2((_ h'01'))",
        b"\x01",
        Some((0, LooseBignum)),
    ),
    (
        b"\xc2\x58\x09\x01\x00\x00\x00\x00\x00\x00\x00\x00",
        "2(h'010000000000000000'_0)",
        b"\xc2\x49\x01\x00\x00\x00\x00\x00\x00\x00\x00",
        Some((1, LongHead)),
    ),
    (
        b"\xc3\x49\x01\x00\x00\x00\x00\x00\x00\x00\x00",
        "3(h'010000000000000000')",
        b"\xc3\x49\x01\x00\x00\x00\x00\x00\x00\x00\x00",
        None,
    ),
    (
        b"\x5f\x41\x01\xff",
        "(_ h'01')",
        b"\x41\x01",
        Some((0, EndlessLength)),
    ),
    (
        b"\x64\x22\x5c\x0a\x01",
        "\"\\\"\\\\\\n\\u0001\"",
        b"\x64\x22\x5c\x0a\x01",
        None,
    ),
    (
        b"\x98\x02\x18\x01\x58\x01\x61",
        "[_0 1_0, h'61'_0]",
        b"\x82\x01\x41\x61",
        Some((0, LongHead)),
    ),
    (b"\xd8\x18\x41\x01", "24(h'01')", b"\xd8\x18\x41\x01", None),
    (b"\xd9\xd9\xf7\x80", "55799([])", b"\xd9\xd9\xf7\x80", None),
    (
        b"\xa2\x41\x61\x00\x61\x61\x00",
        "{h'61': 0, \"a\": 0}",
        b"\xa2\x41\x61\x00\x61\x61\x00",
        None,
    ),
    (b"\xc2\x40", "2(h'')", b"\x00", Some((0, LooseBignum))),
    (b"\xc3\x40", "3(h'')", b"\x20", Some((0, LooseBignum))),
    (
        b"\xa2\x02\x00\x18\x01\x00",
        "{2: 0, 1_0: 0}",
        b"\xa2\x01\x00\x02\x00",
        Some((3, LongHead)),
    ),
    (
        b"\x5f\x58\x01\x61\xff",
        "(_ h'61'_0)",
        b"\x41\x61",
        Some((0, EndlessLength)),
    ),
    (
        b"\xa1\x01\xa2\x02\x00\x01\x00",
        "{1: {2: 0, 1: 0}}",
        b"\xa1\x01\xa2\x01\x00\x02\x00",
        Some((5, KeyOrder)),
    ),
    (b"\x81\x18\x18", "[24]", b"\x81\x18\x18", None),
];

/// The nodes of bytes that are fed in two pieces.
fn fed(rt: &impl Abort, alloc: Global, bytes: &[u8]) -> Result<Vec<Spelled>, WireFault> {
    assert!(rt; bytes.len() < 1000);
    let (first, second) = bytes.split_at(bytes.len() / 2);
    let mut feeder = Feeder::new(alloc, Limit::USUAL);
    feeder.feed(first)?;
    feeder.feed(second)?;
    feeder.finish()
}

/// Asserts that the calls that give or accept nodes have the right answers.
fn is_worked(
    rt: &impl Abort,
    alloc: Global,
    worked: Worked<'_>,
    length_first: &[u8],
) -> Result<(), Fail> {
    let (bytes, text, bytewise, defect) = worked;
    let nodes = fed(rt, alloc, bytes)?;
    let node = nodes.first().ok_or("no item")?;
    assert!(rt; spell(alloc, node)?.as_slice() == bytes, "{text}");
    assert_eq!(rt;
        show(alloc, &nodes)?.as_str().strip_suffix("\n"),
        Some(text)
    );
    let defect = defect.map(|(place, reason)| Defect { place, reason });
    assert_eq!(rt; first_defect::<Bytewise>(alloc, node)?, defect, "{text}");
    let item = judge(alloc, node)?;
    assert!(rt; *encode::<Bytewise>(alloc, &item)? == *bytewise, "{text}");
    assert!(rt;
        *encode::<LengthFirst>(alloc, &item)? == *length_first,
        "{text}"
    );
    Ok(())
}

/// Catches a call that gives up on a form.
#[test]
fn items_worked(rt: HostRuntime) -> Result<(), Fail> {
    let (falling, length_first) = FALLING;
    is_worked(&rt, rt.alloc(), falling, length_first)?;
    for worked in WORKED {
        is_worked(&rt, rt.alloc(), worked, worked.2)?;
    }
    Ok(())
}

/// `first` repeated, `middle`, and `last` repeated as often.
fn nested(
    alloc: Global,
    first: u8,
    count: usize,
    middle: &[u8],
    last: &[u8],
) -> Result<Vec<u8>, AllocError> {
    let mut bytes = Vec::new(alloc);
    bytes.resize(count, first)?;
    bytes.extend_from_slice(middle)?;
    for _ in 0..count {
        bytes.extend_from_slice(last)?;
    }
    Ok(bytes)
}

/// Catches a call that gives up on as many levels as the limit allows.
#[test]
fn nest_worked(rt: HostRuntime) -> Result<(), Fail> {
    let bytes = nested(rt.alloc(), 0x81, 128, b"\x00", b"")?;
    let text = nested(rt.alloc(), b'[', 128, b"0", b"]")?;
    assert_eq!(rt; spelled(rt.alloc(), Kind::Notation, &text)?, bytes);
    let text = String::from_utf8(text)?;
    is_worked(&rt, rt.alloc(), (&bytes, &text, &bytes, None), &bytes)
}

/// Texts, and the bytes that they spell: strings in pieces, embedded items, escapes, and an integer
/// beyond 64 bits.
const TEXTS: [(&str, &[u8]); 10] = [
    ("\"\" h'48656c6c6f20776f726c64' \"\"", b"\x6bHello world"),
    ("\"Hello\" h'20' \"world\"", b"\x6bHello world"),
    ("<<1, 2_0>>", b"\x43\x01\x18\x02"),
    ("<<{1: 1, 1: 2}>>", b"\x45\xa2\x01\x01\x01\x02"),
    ("<<>>", b"\x40"),
    ("\"\\ud83d\\ude00\"", b"\x64\xf0\x9f\x98\x80"),
    ("'it\\'s'", b"\x44it's"),
    ("{1: [_ 2], 3: 4}", b"\xa2\x01\x9f\x02\xff\x03\x04"),
    (
        "-18446744073709551617",
        b"\xc3\x49\x01\x00\x00\x00\x00\x00\x00\x00\x00",
    ),
    ("(_ 'a' 'b', h'63'_0)", b"\x5f\x42ab\x58\x01c\xff"),
];

/// The bytes that an input spells.
fn spelled(alloc: Global, kind: Kind, input: &[u8]) -> Result<Vec<u8>, EngineFault> {
    let nodes = load(alloc, Limit::USUAL, kind, &mut Bytes::new(input, 4096))?;
    Ok(spell_all(alloc, &nodes)?)
}

/// Catches a text that is never loaded.
#[test]
fn texts_worked(rt: HostRuntime) -> Result<(), Fail> {
    for (text, bytes) in TEXTS {
        for kind in [Kind::Notation, Kind::Notation2] {
            let read = spelled(rt.alloc(), kind, text.as_bytes())?;
            assert!(rt; read.as_slice() == bytes, "{text}");
        }
    }
    Ok(())
}

/// Texts that notate no item, and why.
const REFUSED: [(&[u8], EngineFault); 3] = [
    (
        b"h'20' \"a\"",
        EngineFault::Edn(EdnFault::Refused {
            place: 6,
            reason: EdnReason::MixedString,
        }),
    ),
    (
        b"\"\" h'ff'",
        EngineFault::Edn(EdnFault::Refused {
            place: 0,
            reason: EdnReason::TextNotUtf8,
        }),
    ),
    (b"\"\xff\"", EngineFault::TextInput(1)),
];

/// Catches a fault of a text in whose place out of memory is answered.
#[test]
fn texts_refused(rt: HostRuntime) {
    for (text, fault) in REFUSED {
        for kind in [Kind::Notation, Kind::Notation2] {
            let read = spelled(rt.alloc(), kind, text);
            assert_eq!(rt; read.err(), Some(fault));
        }
    }
}
