//! The path to an offset and to a difference is given: by their contracts these calls could always
//! answer out of memory, and the program doesn't make them. Where the path leads is a clause. A look at
//! pieces says what a look at the whole says.

use cborn_explain::{Hint, Look, Step, find_difference, hint_of, path_to};
use std::test::Fail;

/// An item, and then a map of one pair. The value is an array, and its second element a tag of an
/// integer at offset 7.
const FIRST: &[u8] = b"\x00\xa1\x61a\x82\x01\xc1\x02";

/// These bytes with another integer.
const SECOND: &[u8] = b"\x00\xa1\x61a\x82\x01\xc1\x03";

/// The path to the integer.
const PATH: [Step; 4] = [
    Step::Item(1),
    Step::Value(0),
    Step::Element(1),
    Step::Content(1),
];

/// Catches a path that is never given.
#[test]
fn leads_to_a_place(rt: HostRuntime) -> Result<(), Fail> {
    let path = path_to(rt.alloc(), FIRST, 7)?;
    assert_eq!(rt; path.steps.as_slice(), PATH.as_slice());
    Ok(())
}

/// Catches a difference that is never given.
#[test]
fn leads_to_a_difference(rt: HostRuntime) -> Result<(), Fail> {
    let Some(found) = find_difference(rt.alloc(), FIRST, SECOND)? else {
        return Err(Fail::new("no difference"));
    };
    assert_eq!(rt; found.place, 7);
    assert_eq!(rt; found.path.steps.as_slice(), PATH.as_slice());
    let none = find_difference(rt.alloc(), FIRST, FIRST)?;
    assert!(rt; none.is_none());
    Ok(())
}

/// Catches a look that depends on where the input is cut.
#[test]
fn looks_at_pieces(rt: HostRuntime) -> Result<(), Fail> {
    let inputs = [
        (b"8301\n".as_slice(), Some(Hint::Hexadecimal), true),
        (b"83 01\r\n".as_slice(), Some(Hint::Hexadecimal), true),
        (b"831\n".as_slice(), Some(Hint::Notation), true),
        (b"[1, 2]".as_slice(), Some(Hint::Notation), false),
        (b"aAfF\t09\n\n".as_slice(), Some(Hint::Hexadecimal), true),
        (b" \n".as_slice(), Some(Hint::Notation), true),
        (b"~\n".as_slice(), Some(Hint::Notation), true),
        (b"0g\n".as_slice(), Some(Hint::Notation), true),
        (b"12\x7f\n".as_slice(), None, false),
        (b"\x0012\n".as_slice(), None, false),
        (b"12\x0c\n".as_slice(), None, false),
        (b"12\x00\n".as_slice(), None, false),
        (b"".as_slice(), None, false),
    ];
    for (input, hint, ends_line) in inputs {
        assert_eq!(rt; hint_of(input), hint, "{input:?}");
        for cut in 0..=input.len() {
            let mut look = Look::new();
            look.see(&input[..cut]);
            look.see(&input[cut..]);
            assert_eq!(rt; look.hint(), hint, "{input:?} at {cut}");
            assert_eq!(rt; look.ends_line(), ends_line, "{input:?} at {cut}");
        }
    }
    Ok(())
}
