//! The character within a token that is at fault, and the key that a later key repeats.

use crate::faults::Found;
use crate::items::ItemReader;
use crate::quotes::{slice_of, valid_front};
use crate::text_walks::{LastToken, NotationText, TextWalk};
use cborn_engine::Kind;
use cborn_lex::{LexReason, Profile, unit_at};
use cborn_model::Bytewise;
use std::alloc::{AllocError, Global};

/// The offset of the character at fault. `place` is that which was reported, where its token begins.
pub(crate) fn spot_of(text: &[u8], place: usize, reason: LexReason) -> usize {
    let token = text.get(place..).unwrap_or(&[]);
    let within = match reason {
        LexReason::BadEscape => bad_escape(token),
        LexReason::BadHex => bad_hex(token),
        LexReason::BadBase64 => bad_base64(token),
        LexReason::BadNumber => bad_digit(token),
        LexReason::BadIndicator => indicator_at(token),
        _ => 0,
    };
    place.saturating_add(within)
}

/// The index of the first wrong escape of a quoted string, or of a character that has to be escaped.
fn bad_escape(token: &[u8]) -> usize {
    let quote = token.first().copied().unwrap_or(0);
    let mut at = 1;
    'units: for _ in 0..token.len() {
        let rest = token.get(at..).unwrap_or(&[]);
        let Some(len) = unit_len(quote, rest) else {
            break;
        };
        at = at.saturating_add(len);
    }
    at.min(token.len())
}

/// The length of the escape at the start, or 1 for a byte of a character. `None`: it is wrong, or nothing.
fn unit_len(quote: u8, rest: &[u8]) -> Option<usize> {
    match rest {
        [b'\\', b'u', rest @ ..] => unit_at(rest).map(|c| if c.len_utf16() == 1 { 6 } else { 12 }),
        [b'\\', b'\'', ..] if quote == b'\'' => Some(2),
        [b'\\', b, ..] if b"\"\\/bfnrt".contains(b) => Some(2),
        [b'\\', ..] => None,
        [byte, ..] if *byte >= 0x20 => Some(1),
        _ => None,
    }
}

/// The index in `h'..'` of the first character that is no digit, no white space and in no whole comment.
fn bad_hex(token: &[u8]) -> usize {
    let mut comment = None;
    for (i, byte) in token.iter().enumerate().skip(2) {
        match (*byte, comment) {
            (b'/', None) => comment = Some(i),
            (b'/', Some(_)) => comment = None,
            (b'\'', _) => return comment.unwrap_or(i),
            (byte, None) if !is_white(byte) && !byte.is_ascii_hexdigit() => return i,
            _ => {}
        }
    }
    0
}

/// The index in `b64'..'` of the first character that is no digit of base64, no padding and no white space.
fn bad_base64(token: &[u8]) -> usize {
    let is_base64 = |b: u8| b.is_ascii_alphanumeric() || b"+/-_=".contains(&b);
    let mut content = token.iter().skip(4);
    let first = content.position(|b| !is_base64(*b) && !is_white(*b));
    first.map_or(0, |i| i.saturating_add(4))
}

fn is_white(byte: u8) -> bool {
    matches!(byte, b' ' | b'\t' | b'\n' | b'\r')
}

/// The index in a number of the first character that is no digit of its base. 0: all are digits.
fn bad_digit(token: &[u8]) -> usize {
    let body = token.strip_prefix(b"-").unwrap_or(token);
    let (base, skipped) = match body {
        [b'0', b'x' | b'X', ..] => (16, 2),
        [b'0', b'o' | b'O', ..] => (8, 2),
        [b'0', b'b' | b'B', ..] => (2, 2),
        _ => (10, 0),
    };
    let digits = slice_of(body, skipped, body.len());
    let start = token.len().saturating_sub(digits.len());
    let mut digits = digits.iter().enumerate();
    match digits.find(|(_, b)| !char::from(**b).is_digit(base)) {
        Some((i, b)) if b.is_ascii_alphanumeric() || *b == b'.' => start.saturating_add(i),
        _ => 0,
    }
}

/// The index after a string's closing quote or a `>>`, or of another token's first underscore. 0: none.
pub(crate) fn indicator_at(token: &[u8]) -> usize {
    let quote = match token {
        [b'>', b'>', ..] => return 2,
        [b'"', ..] => b'"',
        [b'\'', ..] | [b'h', b'\'', ..] | [b'b', b'6', b'4', b'\'', ..] => b'\'',
        _ => return token.iter().position(|b| *b == b'_').unwrap_or(0),
    };
    let opened = token.iter().position(|b| *b == quote).unwrap_or(0);
    let mut is_escape = false;
    for (i, byte) in token.iter().enumerate().skip(opened.saturating_add(1)) {
        if *byte == quote && !is_escape {
            return i.saturating_add(1);
        }
        is_escape = *byte == b'\\' && !is_escape;
    }
    0
}

/// The offset of the first key before `later` that is the same as `key`, in the map whose bracket is at `map`.
pub(crate) fn earlier_key(
    items: &ItemReader,
    input: NotationText<'_>,
    (map, later): (usize, usize),
    key: &[u8],
) -> Found<usize> {
    let kind = match input.profile {
        Profile::One => Kind::Notation,
        Profile::Two => Kind::Notation2,
    };
    let Some(wanted) = items.encoded::<Bytewise>(kind, key)? else {
        return Ok(None);
    };
    let inside = valid_front(slice_of(input.text, map, later));
    let mut walk = TextWalk::new(items.alloc, input.profile, inside);
    'tokens: for _ in 0..inside.len() {
        if !walk.take_next(inside.len())? {
            break;
        }
        if let Some((from, to)) = walk.key_before_colon() {
            let key = slice_of(inside.as_bytes(), from, to);
            let key = items.encoded::<Bytewise>(kind, key)?;
            if key.is_some_and(|key| *key == *wanted) {
                return Ok(Some(map.saturating_add(from)));
            }
        }
    }
    Ok(None)
}

/// The key that begins at the offset `place` of a text, up to its colon.
pub(crate) fn key_at<'a>(
    alloc: Global,
    input: NotationText<'a>,
    place: usize,
) -> Result<&'a [u8], AllocError> {
    let inside = slice_of(input.text, place, input.text.len());
    let front = valid_front(inside);
    let mut walk = TextWalk::new(alloc, input.profile, front);
    let mut stop = 0;
    'tokens: for _ in 0..front.len() {
        stop = walk.stop;
        if !walk.take_next(front.len())?
            || matches!(walk.last, LastToken::Separator) && walk.open.is_empty()
        {
            break;
        }
    }
    Ok(slice_of(inside, 0, stop))
}
