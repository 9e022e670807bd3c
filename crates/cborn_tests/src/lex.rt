//! Texts are read token by token: by their contracts these calls could always answer out of memory.
//! Which tokens they are is a clause.

use cborn_lex::{
    BareToken, Class, Kind, LexFault, LexReason, Mark, Profile, Token, next_token, token_from,
    tokens,
};
use cborn_model::Width;
use std::alloc::Global;
use std::process::Abort;
use std::test::Fail;

/// Each kind of token, with an encoding indicator and without, and how many tokens these are.
const TEXT: &str =
    "[_0 {_ ] } ) , : << >> >>_3 (_ 1 -1_1 0x1_2 2( 3_0( false simple( \"\\u00e9\"_0 'a' h'61'_1 b64'AQ' // \"\"_";

const COUNT: usize = 23;

/// Catches a kind of token that is never read.
#[test]
fn reads_each_token(rt: HostRuntime) -> Result<(), Fail> {
    for profile in [Profile::One, Profile::Two] {
        let found = tokens(rt.alloc(), profile, TEXT)?;
        assert_eq!(rt; found.len(), COUNT);
    }
    Ok(())
}

/// Catches a token that is never read alone after others.
#[test]
fn reads_token_by_token(rt: HostRuntime) -> Result<(), Fail> {
    let mut at = 0;
    for _ in 0..COUNT {
        assert!(rt; at <= TEXT.len() as u64);
        match token_from(rt.alloc(), Profile::One, TEXT, at)? {
            Some(token) => at = token.stop,
            None => return Err(Fail::new("no token")),
        }
    }
    assert_eq!(rt; at, TEXT.len() as u64);
    Ok(())
}

/// A byte string with a prefix and no indicator.
const PREFIXED: Kind = Kind::Bytes {
    quoted: false,
    mark: Mark::Absent,
};

/// A byte string in single quotes.
const QUOTED: Kind = Kind::Bytes {
    quoted: true,
    mark: Mark::Absent,
};

/// An integer with no minus and no indicator.
const PLAIN: Kind = Kind::Number {
    negative: false,
    mark: Mark::Absent,
};

/// An integer with a minus and no indicator.
const NEGATIVE: Kind = Kind::Number {
    negative: true,
    mark: Mark::Absent,
};

/// A text string with no indicator.
const TEXT_STRING: Kind = Kind::Text(Mark::Absent);

/// Tokens as a text has them: the kind of each, the number of an integer or a tag, and the bytes of
/// a string. They are examples of RFC 8949, section 8 and appendix A, and of RFC 8610, appendix G.
const EXAMPLES: [(&str, Kind, Option<u128>, &[u8]); 37] = [
    ("h'12345678'", PREFIXED, None, b"\x12\x34\x56\x78"),
    ("b64'EjRWeA'", PREFIXED, None, b"\x12\x34\x56\x78"),
    (
        "'hello world'",
        QUOTED,
        None,
        b"\x68\x65\x6c\x6c\x6f\x20\x77\x6f\x72\x6c\x64",
    ),
    ("h'48 65 6c 6c 6f'", PREFIXED, None, b"\x48\x65\x6c\x6c\x6f"),
    (
        "h'68656c /doubled l!/ 6c6f /hello/'",
        PREFIXED,
        None,
        b"hello",
    ),
    ("\"IETF\"", TEXT_STRING, None, b"\x49\x45\x54\x46"),
    ("\"\"", TEXT_STRING, None, b""),
    ("\"\\\"\\\\\"", TEXT_STRING, None, b"\x22\x5c"),
    ("\"\\u00fc\"", TEXT_STRING, None, b"\xc3\xbc"),
    ("\"\\u6c34\"", TEXT_STRING, None, b"\xe6\xb0\xb4"),
    ("\"\\ud800\\udd51\"", TEXT_STRING, None, b"\xf0\x90\x85\x91"),
    (
        "\"http://www.example.com\"",
        TEXT_STRING,
        None,
        b"\x68\x74\x74\x70\x3a\x2f\x2f\x77\x77\x77\x2e\x65\x78\x61\x6d\x70\x6c\x65\x2e\x63\x6f\x6d",
    ),
    ("0", PLAIN, Some(0), b""),
    ("1000000000000", PLAIN, Some(1000000000000), b""),
    (
        "18446744073709551615",
        PLAIN,
        Some(0xffff_ffff_ffff_ffff),
        b"",
    ),
    (
        "18446744073709551616",
        PLAIN,
        Some(0x1_0000_0000_0000_0000),
        b"",
    ),
    ("-100", NEGATIVE, Some(100), b""),
    ("4711", PLAIN, Some(4711), b""),
    ("0x1267", PLAIN, Some(4711), b""),
    ("0o11147", PLAIN, Some(4711), b""),
    ("0b1001001100111", PLAIN, Some(4711), b""),
    ("32(", Kind::TagOpen(Mark::Absent), Some(32), b""),
    ("false", Kind::Word(20), None, b""),
    ("true", Kind::Word(21), None, b""),
    ("null", Kind::Word(22), None, b""),
    ("undefined", Kind::Word(23), None, b""),
    ("simple(", Kind::SimpleOpen, None, b""),
    ("[_", Kind::ArrayOpen(Mark::Endless), None, b""),
    ("{_1", Kind::MapOpen(Mark::Wide(Width::Two)), None, b""),
    ("(_", Kind::ChunkOpen, None, b""),
    ("<<", Kind::EmbedOpen, None, b""),
    (
        ">>_3",
        Kind::EmbedClose(Mark::Wide(Width::Eight)),
        None,
        b"",
    ),
    ("]", Kind::ArrayClose, None, b""),
    ("}", Kind::MapClose, None, b""),
    (")", Kind::ParenClose, None, b""),
    (",", Kind::Comma, None, b""),
    (":", Kind::Colon, None, b""),
];

/// Catches a token of another kind, place or number, and a string whose content isn't appended as it
/// is.
#[test]
fn gives_tokens_in_two_parts(rt: HostRuntime) -> Result<(), Fail> {
    for (token, kind, number, content) in EXAMPLES {
        gives(&rt, rt.alloc(), token, kind, number, content)?;
    }
    Ok(())
}

/// Asserts that this token alone is read with this kind, this number and this content.
fn gives(
    rt: &impl Abort,
    alloc: Global,
    token: &str,
    kind: Kind,
    number: Option<u128>,
    content: &[u8],
) -> Result<(), LexFault> {
    let mut found: u128 = 0;
    let mut out = Vec::from_slice(alloc, b"before")?;
    let read = next_token(alloc, Profile::One, token, 0, &mut found, &mut out)?;
    let wanted = BareToken {
        start: 0,
        stop: token.len(),
        kind,
    };
    assert_eq!(rt; read, Some(wanted), "{token}");
    assert_eq!(rt; out.get(6..), Some(content), "{token}");
    if let Some(number) = number {
        assert_eq!(rt; found, number, "{token}");
    }
    Ok(())
}

/// What a token is: its start and its end, its integer or the number of its tag, if it has one, and the
/// bytes of a string.
type Parts<'a> = (u64, u64, Option<(bool, u128, Mark)>, &'a [u8]);

/// What the token is.
fn parts(token: &Token) -> Parts<'_> {
    let (number, content) = match &token.class {
        Class::Number {
            negative,
            magnitude,
            mark,
        } => (Some((*negative, *magnitude, *mark)), b"".as_slice()),
        Class::TagOpen { number, mark } => (Some((false, *number, *mark)), b"".as_slice()),
        Class::Text { bytes, .. } | Class::Bytes { bytes, .. } => (None, bytes.as_slice()),
        _ => (None, b"".as_slice()),
    };
    (token.start, token.stop, number, content)
}

/// Texts, and all of their tokens.
const PARTS: [(&str, &[Parts<'static>]); 7] = [
    (
        "[_ 1_1]",
        &[
            (0, 2, None, b""),
            (3, 6, Some((false, 1, Mark::Wide(Width::Two))), b""),
            (6, 7, None, b""),
        ],
    ),
    (
        "24(h'01')",
        &[
            (0, 3, Some((false, 24, Mark::Absent)), b""),
            (3, 8, None, b"\x01"),
            (8, 9, None, b""),
        ],
    ),
    (
        "\"é\" 1",
        &[
            (0, 4, None, b"\xc3\xa9"),
            (5, 6, Some((false, 1, Mark::Absent)), b""),
        ],
    ),
    (
        "/a/1//2",
        &[
            (3, 4, Some((false, 1, Mark::Absent)), b""),
            (6, 7, Some((false, 2, Mark::Absent)), b""),
        ],
    ),
    (
        "0x1_1",
        &[(0, 5, Some((false, 1, Mark::Wide(Width::Two))), b"")],
    ),
    (
        "340282366920938463463374607431768211455",
        &[(0, 39, Some((false, u128::MAX, Mark::Absent)), b"")],
    ),
    ("-0", &[(0, 2, Some((false, 0, Mark::Absent)), b"")]),
];

/// Catches a list of tokens that has others, or more, than the text.
#[test]
fn tells_tokens(rt: HostRuntime) -> Result<(), Fail> {
    for (text, wanted) in PARTS {
        for profile in [Profile::One, Profile::Two] {
            let found = tokens(rt.alloc(), profile, text)?;
            assert_eq!(rt; found.len(), wanted.len(), "{text}");
            for (token, right) in found.iter().zip(wanted.iter()) {
                assert_eq!(rt; parts(token), *right, "{text}");
            }
        }
    }
    Ok(())
}

/// Texts with a token that is wrong, its offset, and why it is wrong.
const STOPS: [(&str, u64, LexReason); 27] = [
    ("0x1p3", 0, LexReason::FloatLeftOut),
    ("1e5", 0, LexReason::FloatLeftOut),
    ("1.5", 0, LexReason::FloatLeftOut),
    ("-Infinity", 0, LexReason::FloatLeftOut),
    ("NaN", 0, LexReason::FloatLeftOut),
    ("0xg", 0, LexReason::BadNumber),
    ("007", 0, LexReason::BadNumber),
    ("+1", 0, LexReason::UnexpectedCharacter),
    ("True", 0, LexReason::UnexpectedCharacter),
    ("simple (1)", 0, LexReason::UnexpectedCharacter),
    ("-1(0)", 2, LexReason::UnexpectedCharacter),
    ("1 (0)", 2, LexReason::UnexpectedCharacter),
    ("\u{feff}1", 0, LexReason::UnexpectedCharacter),
    ("\"\\q", 0, LexReason::UnclosedString),
    ("\"abc", 0, LexReason::UnclosedString),
    ("h'00", 0, LexReason::UnclosedString),
    ("\"\\q\"", 0, LexReason::BadEscape),
    ("\"\\ud800\"", 0, LexReason::BadEscape),
    (
        "340282366920938463463374607431768211456",
        0,
        LexReason::NumberTooLarge,
    ),
    ("7_7", 0, LexReason::BadIndicator),
    ("h'4'", 0, LexReason::BadHex),
    ("h'00 / '", 0, LexReason::BadHex),
    ("h'/'/00'", 0, LexReason::BadHex),
    ("b64'/+9'", 0, LexReason::BadBase64),
    ("b32'AA'", 0, LexReason::UnknownPrefix),
    ("/ x", 0, LexReason::UnclosedComment),
    ("1 /x", 2, LexReason::UnclosedComment),
];

/// Catches a wrong token in whose place out of memory is answered.
#[test]
fn tells_stops(rt: HostRuntime) {
    for (text, place, reason) in STOPS {
        let wanted = Some(LexFault::Refused { place, reason });
        for profile in [Profile::One, Profile::Two] {
            assert_eq!(rt; tokens(rt.alloc(), profile, text).err(), wanted, "{text}");
        }
    }
}
