//! The calls that count the items of an input: for exactly one, each has an answer,
//! and refuses no item and a second item; for any number, it refuses neither. By their contracts they
//! could always answer out of memory.
use super::memory::{Bytes, Taken};
use cborn_engine::{
    CompareCountFault, Count, CountFault, Kind, check_slice, check_stream, compare_slices,
    compare_streams, normalise_slice, normalise_stream, same_items, show_slice, show_stream,
};
use cborn_judge::{Defect, DefectReason};
use cborn_model::{Bytewise, Limit};
use std::alloc::Global;
use std::process::Abort;
use std::test::Fail;

const USUAL: Limit = Limit::USUAL;

const ONE: Count = Count::One;

/// Inputs, and the encoding of their one item, or why they have none.
const ONES: [(Kind, &[u8], Result<&[u8], CountFault>); 8] = [
    (Kind::Wire, b"", Err(CountFault::NoItem(0))),
    (Kind::Wire, b"\x18\x01", Ok(b"\x01")),
    (Kind::Wire, b"\x82\x01\x02", Ok(b"\x82\x01\x02")),
    (Kind::Wire, b"\x01\x02", Err(CountFault::MoreItems(1))),
    (
        Kind::Wire,
        b"\x5f\x41\x01\x40\x41\x02\xff\xf6",
        Err(CountFault::MoreItems(7)),
    ),
    (Kind::Notation, b" //\n", Err(CountFault::NoItem(4))),
    (Kind::Notation, b"1_0", Ok(b"\x01")),
    (Kind::Notation2, b"1, #\n2", Err(CountFault::MoreItems(5))),
];

/// The answer of both calls that encode the one item.
fn encoded(
    rt: &impl Abort,
    alloc: Global,
    kind: Kind,
    input: &[u8],
    wanted: Result<&[u8], CountFault>,
) -> Result<(), Fail> {
    let slice = normalise_slice::<Bytewise>(alloc, USUAL, ONE, kind, Kind::Wire, input);
    let mut out = Taken::new(alloc)?;
    let (wire, reader) = (Kind::Wire, &mut Bytes::new(input, 2));
    let streamed = normalise_stream::<Bytewise, _, _>(
        alloc, USUAL, ONE, kind, wire, reader, &mut out,
    );
    assert_eq!(rt; streamed.err(), wanted.err(), "{input:?}");
    assert!(rt; out.bytes.as_slice() == wanted.unwrap_or(b""), "{input:?}");
    match slice {
        Ok(bytes) => assert!(rt; wanted == Ok(&*bytes), "{input:?}"),
        Err(why) => assert_eq!(rt; Some(why), wanted.err(), "{input:?}"),
    }
    Ok(())
}

/// The answer of both calls that show the one item as bytes: the item as it was.
fn shown(
    rt: &impl Abort,
    alloc: Global,
    kind: Kind,
    input: &[u8],
    fault: Option<CountFault>,
) -> Result<(), Fail> {
    let slice = show_slice(alloc, USUAL, ONE, kind, Kind::Wire, input);
    let mut out = Taken::new(alloc)?;
    let (wire, reader) = (Kind::Wire, &mut Bytes::new(input, 2));
    let streamed = show_stream(alloc, USUAL, ONE, kind, wire, reader, &mut out);
    assert_eq!(rt; streamed.err(), fault, "{input:?}");
    match slice {
        Ok(bytes) => assert!(rt; out.bytes.as_slice() == &*bytes, "{input:?}"),
        Err(why) => assert_eq!(rt; Some(why), fault, "{input:?}"),
    }
    Ok(())
}

/// The answer of both calls that compare two items, for an item and itself.
fn compared(rt: &impl Abort, alloc: Global, kind: Kind, input: &[u8], fault: Option<CountFault>) {
    let wanted = fault.map(CompareCountFault::First);
    let same = same_items::<Bytewise>(alloc, USUAL, ONE, kind, input, kind, input);
    assert_eq!(rt; same.err(), wanted, "{input:?}");
    assert!(rt; same.unwrap_or(true), "{input:?}");
    let (first, second) = (&mut Bytes::new(input, 2), &mut Bytes::new(input, 3));
    let streamed = compare_streams::<Bytewise, _, _>(alloc, USUAL, ONE, kind, first, kind, second);
    assert_eq!(rt; streamed.err(), wanted, "{input:?}");
    assert_eq!(rt; streamed.unwrap_or(None), None, "{input:?}");
}

/// Catches a call that never answers, and a second item that is passed over.
#[test]
fn one_item(rt: HostRuntime) -> Result<(), Fail> {
    for (kind, input, wanted) in ONES {
        encoded(&rt, rt.alloc(), kind, input, wanted)?;
        shown(&rt, rt.alloc(), kind, input, wanted.err())?;
        compared(&rt, rt.alloc(), kind, input, wanted.err());
    }
    Ok(())
}

/// Bytes, and the first defect of their one item, or why they have none.
const CHECKED: [(&[u8], Result<Option<Defect>, CountFault>); 4] = [
    (b"", Err(CountFault::NoItem(0))),
    (b"\x01", Ok(None)),
    (
        b"\x18\x01",
        Ok(Some(Defect {
            place: 0,
            reason: DefectReason::LongHead,
        })),
    ),
    (b"\x01\x18\x01", Err(CountFault::MoreItems(1))),
];

/// Catches a check that looks at the first item only.
#[test]
fn one_item_checked(rt: HostRuntime) {
    for (input, wanted) in CHECKED {
        let slice = check_slice::<Bytewise>(rt.alloc(), USUAL, ONE, input);
        assert_eq!(rt; slice, wanted, "{input:?}");
        let mut reader = Bytes::new(input, 1);
        let streamed = check_stream::<Bytewise, _>(rt.alloc(), USUAL, ONE, &mut reader);
        assert_eq!(rt; streamed, wanted, "{input:?}");
    }
}

/// Catches a difference of two items that isn't at index 0, or none.
#[test]
fn one_item_differs(rt: HostRuntime) {
    let (alloc, kind) = (rt.alloc(), Kind::Wire);
    let found = compare_slices::<Bytewise>(alloc, USUAL, ONE, kind, b"\x01", kind, b"\x02");
    assert_eq!(rt; found, Ok(Some(0)));
}

/// Catches a count of items where any number will do.
#[test]
fn any_items(rt: HostRuntime) -> Result<(), Fail> {
    let (kind, any) = (Kind::Wire, Count::Any);
    for input in [b"".as_slice(), b"\x01\x02"] {
        let answer = normalise_slice::<Bytewise>(rt.alloc(), USUAL, any, kind, kind, input)?;
        assert!(rt; &*answer == input);
        let mut reader = Bytes::new(input, 1);
        let mut out = Taken::new(rt.alloc())?;
        show_stream(rt.alloc(), USUAL, any, kind, kind, &mut reader, &mut out)?;
        assert!(rt; out.bytes.as_slice() == input);
    }
    Ok(())
}
