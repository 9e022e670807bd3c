//! A text is read to its nodes, and nodes are shown, in each form. By their contracts these calls
//! could always answer out of memory. Which answer is right is a clause.

use cborn_edn::{EdnFault, EdnReason, Notated, Notator, read_notation, show, show_bytes};
use cborn_lex::Profile;
use cborn_model::{Limit, Size, Visitor, Width};
use cborn_wire::{WireReason, read_all, spell_all};
use std::alloc::{AllocError, Global};
use std::test::Fail;

/// Each form of a number, a string, an escape, an array, a map, a tag and a simple value that both
/// profiles have.
const TEXTS: [&str; 27] = [
    "",
    "\n/ no item / \t//",
    "/a/1, 0x1267, 0o11147, 0b1001001100111, 4711, 0XaB, 0B101, 0O17, -0, 0, -1",
    "23, 24, 255, 256, 65535, 65536, 4294967295, 4294967296, -24, -25, -256, -257, -0x10, -0b1",
    "255_0, 24_0, -257_1, 1_3, 0x1_1, 1_2, 18446744073709551615, -18446744073709551615",
    "1844674407370955159, 1844674407370955160, false, true, null, undefined, -18446744073709551616",
    "18446744073709551616, -18446744073709551617, 340282366920938463463374607431768211455",
    "\"\", '', h'', b64'', \"a\", \"é\", 'é', \"a\\nb\", \"\\\"\\\\\\/\\b\\f\\n\\r\\t\"",
    "\"\\u00fc\", \"\\u6c34\", \"\\ud83d\\ude00\", 'it\\'s', h'48 65 /two/ 6c6c 6f'",
    "b64'EjRWeA', b64'EjRWeA==', b64'_-8', b64'/+8=', h'01'_1, \"b\"_0, 'b'_0",
    "\"012345678901234567890123\", \"\\t12345678901234567890123\"",
    "\"\\\"\\\"\\\"\\\"\\\"\\\"\\\"\\\"\\\"\\\"\\\"\\\"\", \"/ # /\", \"\"_, ''_",
    "\"\" h'48656c6c6f20776f726c64' \"\", \"Hello\" h'20' \"world\", \"a\\n\"\"b\"",
    "\"\" h'c3' h'a9', <<1, 2_0>>, <<{1: 1, 1: 2}>>, << >>, <<>>, \"a\" \"b\"_0",
    "<<1>>_0, <<\"a\"_0>>, 'a' <<1>> 'b', <<1>> h'02' <<>>, 'a' << <<1>> >>_0, (_ 'a' 'b', h'63'_0)",
    "(_ \"a\", \"b\"), \"\\uD834\\uDD1E\", \"\\u005C\", \"\\u005c\", \"\\u0000\\u007F\\u0080\"",
    "\"\\u07ff\\u0800\\uFFFF\", \"\\ud7ff\\uE000\", \"\\ud800\\udc00\\uDBFF\\uDFFF\"",
    "\"\\u00e9\\n\"_1, \"a\\n\"_0, \"\\\"\"_3, \"\" \"\\t\" 'b', \"a\" \"\\u0062\"_0, 'a' h'62' 'c'",
    "(_ \"\\u0061\", \"b\" \"\\n\"), {\"\\\"\": \"\\\\\"}, [\"\\n\"], \"\\u12345\", \"é\\né\"",
    "simple(0x20), simple(0b101), simple( /a/ 0o40 ), [_2 1], {_1 1: [_ ]}",
    "[], [ ], {}, [1], [1, 2], [_ 1_1], {_ }, [_ ], {1: 1, 0x01: 2}, {1: [_ 2], 3: 4}, {_ 1: 2}",
    "[0,0,0,0,0,0,0,0,0,0,0,0,0,0,0,0,0,0,0,0,0,0,0]",
    "[0,0,0,0,0,0,0,0,0,0,0,0,0,0,0,0,0,0,0,0,0,0,0,0], 24(h'01'), 55799([]), 1_0(0)",
    "18446744073709551615(0), 0x10(1), simple(0), simple(20), simple(32), simple(255)",
    "[1, / two / [2, [3]], \"a\" ], {\"a\": {\"b\": []}}, {[1]: {2: 3}, -1: null}, 1, [2], 3",
    " 1 , 2 /end/, [_0 1, 2], {_0 1: 2}, [_1 ], {_3 }",
    "{false: 0, [-1]: 0, [100]: 0, \"aa\": 0, \"z\": 0, -1: 0, 100: 0, 10: 0}",
];

/// Catches a form that is never read.
#[test]
fn reads_each_form(rt: HostRuntime) -> Result<(), Fail> {
    for text in TEXTS {
        read_notation(rt.alloc(), Limit::USUAL, Profile::One, text)?;
        read_notation(rt.alloc(), Limit::USUAL, Profile::Two, text)?;
    }
    Ok(())
}

/// Texts that notate no item, where, and why.
const REFUSED: [(&str, u64, EdnReason); 8] = [
    ("h'20' \"a\"", 6, EdnReason::MixedString),
    ("\"\" h'ff'", 0, EdnReason::TextNotUtf8),
    ("(_ 'a', \"b\")", 8, EdnReason::MixedChunks),
    ("<<simple(24)>>", 2, EdnReason::BadSimple),
    ("'a'_0 'b'", 0, EdnReason::IndicatorNotAllowed),
    ("256_0", 0, EdnReason::IndicatorTooNarrow),
    ("[1 2]", 3, EdnReason::UnexpectedToken),
    ("[1, 2", 5, EdnReason::UnexpectedEnd),
];

/// Catches a fault in whose place out of memory is answered.
#[test]
fn refuses(rt: HostRuntime) {
    for (text, place, reason) in REFUSED {
        let wanted = Some(EdnFault::Refused { place, reason });
        for profile in [Profile::One, Profile::Two] {
            let read = read_notation(rt.alloc(), Limit::USUAL, profile, text);
            assert_eq!(rt; read.err(), wanted, "{text}");
        }
    }
}

/// Comments and commas of profile 2.
const IN_TWO: [&str; 4] = [
    "[1, # one\n2,], {1: 2,}, <<1,>>, [_0 1,], \"#\", / # / 1",
    "# only",
    "1#2",
    "# a / b\n[1 # c\n, # d\n] #",
];

/// Catches a comment or a comma of profile 2 that is never read.
#[test]
fn reads_the_second_profile(rt: HostRuntime) -> Result<(), Fail> {
    for text in IN_TWO {
        read_notation(rt.alloc(), Limit::USUAL, Profile::Two, text)?;
    }
    Ok(())
}

/// What comes this many times before the middle, and what comes as often after it: nests as deep as
/// the limit, and an escape at each place of a block of sixteen letters.
const NESTED: [(&str, usize, &str, &str); 14] = [
    ("[", 128, "", "]"),
    ("1(", 128, "0", ")"),
    ("{0: ", 128, "\"a\"", "}"),
    ("[", 127, "18446744073709551616", "]"),
    ("<<", 128, "", ">>"),
    ("[1, ", 127, "[]", "]"),
    ("\"a", 1, "\\n", "b\""),
    ("\"aaaaaaaaaaaaaaa", 1, "\\n", "\""),
    ("\"aaaaaaaaaaaaaaaa", 1, "\\n", "\""),
    ("\"aaaaaaaaaaaaaaaaa", 1, "\\n", "\""),
    ("\"aaaaaaaaaaaaaaa", 1, "\\n", "bbbbbbbbbbbbbbbb\""),
    ("\"aaaaaaaaaaaaaaaa", 1, "\\n", "bbbbbbbbbbbbbbb\""),
    ("\"", 1, "\\n", "bbbbbbbbbbbbbbbbbbbbbbbbbbbbbbb\""),
    ("\"aaaaaaaaaaaaaaaaaaaaaaaaaaaaaaaa", 1, "\\n", "\""),
];

/// `front` repeated, `middle`, and `back` repeated as often.
fn nested(
    alloc: Global,
    front: &str,
    count: usize,
    middle: &str,
    back: &str,
) -> Result<String, AllocError> {
    let mut text = String::new(alloc);
    for _ in 0..count {
        text.push_str(front)?;
    }
    text.push_str(middle)?;
    for _ in 0..count {
        text.push_str(back)?;
    }
    Ok(text)
}

/// Catches a limit that is one too small, and an escape that isn't read where a block of letters
/// ends.
#[test]
fn reads_nests(rt: HostRuntime) -> Result<(), Fail> {
    for (front, count, middle, back) in NESTED {
        let text = nested(rt.alloc(), front, count, middle, back)?;
        read_notation(rt.alloc(), Limit::USUAL, Profile::One, &text)?;
    }
    Ok(())
}

/// Bytes that have each form of a node, and their text.
const BYTES: &[u8] =
    b"\x5f\x42\x01\x02\x58\x01a\xff\x19\x00\x01\x9f\xff\x7f\xff\x98\x00\xd8\x01\x00\xc2\x41\x01\x38\x00\x78\x01a\xb8\x01\x01\x02\xe0\x63\x22\x5c\x0a\xf8\xff\xbf\x01\x82\x02\x03\xff\xf5";

const SHOWN: &str =
    "(_ h'0102', h'61'_0),\n1_1,\n[_ ],\n\"\"_,\n[_0 ],\n1_0(0),\n2(h'01'),\n-1_0,\n\"a\"_0,\n{_0 1: 2},\nsimple(0),\n\"\\\"\\\\\\n\",\nsimple(255),\n{_ 1: [2, 3]},\ntrue\n";

/// Catches a form that is never shown, or that is never read back.
#[test]
fn shows_each_form(rt: HostRuntime) -> Result<(), Fail> {
    let nodes = read_all(rt.alloc(), Limit::USUAL, BYTES)?;
    let text = show(rt.alloc(), &nodes)?;
    assert_eq!(rt; text.as_str(), SHOWN);
    let back = read_notation(rt.alloc(), Limit::USUAL, Profile::One, SHOWN)?;
    let bytes = spell_all(rt.alloc(), &back)?;
    assert_eq!(rt; bytes.as_slice(), BYTES);
    Ok(())
}

/// Catches bytes that are shown in another way than their nodes.
#[test]
fn shows_bytes_as_their_nodes(rt: HostRuntime) -> Result<(), Fail> {
    match show_bytes(rt.alloc(), Limit::USUAL, BYTES)? {
        Notated::Text(text) => assert_eq!(rt; text.as_slice(), SHOWN.as_bytes()),
        _ => assert!(rt; false),
    }
    Ok(())
}

/// Catches an indicator that isn't inserted, or elsewhere, where a count wasn't known from the start.
#[test]
fn inserts_indicators(rt: HostRuntime) -> Result<(), Fail> {
    let mut notator = Notator::new(rt.alloc());
    notator.open_array(0, Size::Fixed(Width::One), None)?;
    notator.integer(2, false, Width::Direct, 1)?;
    notator.open_map(3, Size::Fixed(Width::Two), None)?;
    notator.integer(6, false, Width::Direct, 2)?;
    notator.open_array(7, Size::Fixed(Width::Direct), None)?;
    notator.integer(8, false, Width::Direct, 3)?;
    notator.close()?;
    notator.close()?;
    notator.close()?;
    let text = notator.finish()?;
    assert_eq!(rt; text.as_slice(), b"[_0 1, {_1 2: [3]}]\n".as_slice());
    Ok(())
}

/// Catches a fault of bytes that a text which isn't UTF-8 hides, and a later such text.
#[test]
fn tells_why_bytes_have_no_text(rt: HostRuntime) -> Result<(), Fail> {
    // a text of one byte that isn't UTF-8, in an array and by itself, and then 0x1c
    match show_bytes(rt.alloc(), Limit::USUAL, b"\x81\x61\xff\x61\xff\x1c")? {
        Notated::Malformed { place, reason } => {
            assert_eq!(rt; place, 5);
            assert!(rt; reason == WireReason::ReservedInfo);
        }
        _ => assert!(rt; false),
    }
    match show_bytes(rt.alloc(), Limit::USUAL, b"\x81\x61\xff\x61\xff\x01")? {
        Notated::NotUtf8 { place } => assert_eq!(rt; place, 1),
        _ => assert!(rt; false),
    }
    Ok(())
}
