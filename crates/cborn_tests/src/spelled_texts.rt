//! That a text is read as bytes, where by its contract the call could answer want of memory each
//! time. Which bytes, and why a text has none, is a clause.

use cborn_edn::{EdnFault, EdnReason, read_text};
use cborn_lex::Profile;
use cborn_model::Limit;
use std::test::Fail;

/// Examples of RFC 8949 Appendix A, and their encodings there; and a map that is invalid, but no
/// fault of the text.
const EXAMPLES: [(&str, &[u8]); 9] = [
    ("[1, [2, 3], [4, 5]]", b"\x83\x01\x82\x02\x03\x82\x04\x05"),
    (
        "{\"a\": 1, \"b\": [2, 3]}",
        b"\xa2\x61a\x01\x61b\x82\x02\x03",
    ),
    (
        "(_ h'0102', h'030405')",
        b"\x5f\x42\x01\x02\x43\x03\x04\x05\xff",
    ),
    (
        "{_ \"a\": 1, \"b\": [_ 2, 3]}",
        b"\xbf\x61a\x01\x61b\x9f\x02\x03\xff\xff",
    ),
    ("1(1363896240)", b"\xc1\x1a\x51\x4b\x67\xb0"),
    (
        "18446744073709551616",
        b"\xc2\x49\x01\x00\x00\x00\x00\x00\x00\x00\x00",
    ),
    ("simple(255)", b"\xf8\xff"),
    ("[\"a\", {_ \"b\": \"c\"}]", b"\x82\x61a\xbf\x61b\x61c\xff"),
    ("{1: 1, 1: 2}", b"\xa2\x01\x01\x01\x02"),
];

#[test]
fn examples_have_bytes(rt: HostRuntime) -> Result<(), Fail> {
    for (text, wanted) in EXAMPLES {
        for profile in [Profile::One, Profile::Two] {
            let bytes = read_text(rt.alloc(), Limit::USUAL, profile, text)?;
            assert_eq!(rt; bytes.as_slice(), wanted, "{text}");
        }
    }
    Ok(())
}

/// What has a tree of the grammar that means nothing, where, and why.
const MEAN_NOTHING: [(&str, u64, EdnReason); 3] = [
    ("simple(24)", 0, EdnReason::BadSimple),
    ("256_0", 0, EdnReason::IndicatorTooNarrow),
    ("(_ \"a\", h'62')", 8, EdnReason::MixedChunks),
];

#[test]
fn a_tree_that_means_nothing_has_none(rt: HostRuntime) {
    for (text, place, reason) in MEAN_NOTHING {
        let wanted = Some(EdnFault::Refused { place, reason });
        let read = read_text(rt.alloc(), Limit::USUAL, Profile::One, text);
        assert_eq!(rt; read.err(), wanted, "{text}");
    }
}
