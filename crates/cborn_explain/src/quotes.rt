//! Quoted pieces of an input. Long pieces are cut. Control characters, and characters that change
//! the direction of a line, are escaped, so that a piece changes nothing but its own line.

use simdutf8::compat::from_utf8;
use std::alloc::{AllocError, Global};
use std::fmt::{self, Display, Formatter};

/// A text, or that memory for it is refused.
pub(crate) type Text = Result<String, AllocError>;

/// How many bytes are written before the one at a place.
const BYTES_BEFORE: usize = 8;
/// How many bytes are written around the one at a place.
const AROUND: usize = 20;
/// How many characters of a piece are written at most.
pub(crate) const PIECE: usize = 40;
/// How many characters of a line are written before a place.
const LINE_BEFORE: usize = 40;
/// How many characters of a line are written from a place on.
const LINE_AFTER: usize = 30;

/// Where spans of characters begin: in turn those that a terminal doesn't show as themselves, since they
/// are controls or not shown, end a line or change the direction of text, and those that it does.
const SPANS: &[u32] = &[
    0, 0x20, 0x7f, 0xa0, 0xad, 0xae, 0x34f, 0x350, 0x61c, 0x61d, 0x115f, 0x1161, 0x17b4, 0x17b6,
    0x180b, 0x1810, 0x200b, 0x2010, 0x2028, 0x2030, 0x205f, 0x2070, 0x3164, 0x3165, 0xd800, 0xf900,
    0xfe00, 0xfe10, 0xfeff, 0xff00, 0xffa0, 0xffa1, 0xfff0, 0xfffc, 0x13430, 0x13440, 0x1bca0,
    0x1bca4, 0x1d173, 0x1d17b, 0xe0000,
];

/// A text that displays with its characters escaped as those of quoted pieces are.
#[derive(Clone, Copy)]
pub struct Escaped<'a> {
    pub text: &'a str,
}

impl Display for Escaped<'_> {
    fn fmt<W: fmt::Write>(&self, f: &mut Formatter<W>) -> fmt::Result {
        for c in self.text.chars() {
            let code = c as u32;
            if SPANS.partition_point(|begin| *begin <= code) % 2 == 0 {
                write!(f, "{c}")?;
            } else {
                write!(f, "\\u{code:04x}")?;
            }
        }
        Ok(())
    }
}

/// The bytes from one index up to another. Empty where there are no such bytes.
pub(crate) fn slice_of(bytes: &[u8], from: usize, to: usize) -> &[u8] {
    bytes.get(from..to).unwrap_or(&[])
}

/// The start of a notation, at most `PIECE` characters. A string that is cut ends in its quote and `..`.
#[derive(Clone, Copy)]
pub(crate) struct CutNotation<'a>(pub(crate) &'a [u8]);

impl Display for CutNotation<'_> {
    fn fmt<W: fmt::Write>(&self, f: &mut Formatter<W>) -> fmt::Result {
        let text = front_of(self.0, PIECE);
        let end = match open_quote(text) {
            _ if text.len() == self.0.len() => "",
            None => "..",
            Some('"') => "\"..",
            Some(_) => "'..",
        };
        write!(f, "{}{end}", Escaped { text })
    }
}

/// At most `most` characters at the start of the bytes, up to the first byte that isn't UTF-8.
pub(crate) fn front_of(bytes: &[u8], most: usize) -> &str {
    let front = valid_front(bytes.get(..most.saturating_mul(4)).unwrap_or(bytes));
    let end = front.char_indices().nth(most);
    end.and_then(|(at, _)| front.get(..at)).unwrap_or(front)
}

/// The quote that ends the string in which this front of a notation ends. `None`: it ends in none.
fn open_quote(front: &str) -> Option<char> {
    let mut open = None;
    let mut is_escaped = false;
    for c in front.chars() {
        match open {
            None if matches!(c, '"' | '\'' | '/') => open = Some(c),
            None if c == '#' => open = Some('\n'),
            Some(_) if is_escaped => is_escaped = false,
            Some('"' | '\'') if c == '\\' => is_escaped = true,
            Some(end) if c == end => open = None,
            _ => {}
        }
    }
    open.filter(|end| matches!(*end, '"' | '\''))
}

/// The longest front of the bytes that is UTF-8.
pub(crate) fn valid_front(bytes: &[u8]) -> &str {
    from_utf8(bytes).unwrap_or_else(|why| {
        from_utf8(slice_of(bytes, 0, why.valid_up_to())).unwrap_or("")
    })
}

/// Bytes in hexadecimal with spaces between: at most so many, and `..` where there are more.
#[derive(Clone, Copy)]
pub(crate) struct Hex<'a>(pub(crate) &'a [u8], pub(crate) usize);

impl Display for Hex<'_> {
    fn fmt<W: fmt::Write>(&self, f: &mut Formatter<W>) -> fmt::Result {
        for (i, byte) in self.0.iter().enumerate() {
            if i == self.1 {
                return write!(f, " ..");
            }
            let gap = if i > 0 { " " } else { "" };
            write!(f, "{gap}{byte:02x}")?;
        }
        Ok(())
    }
}

/// The bytes around an offset in hexadecimal, and the one there as `>00<`, or `><` at the end.
pub(crate) fn hex_around(alloc: Global, bytes: &[u8], place: usize) -> Text {
    let from = place.saturating_sub(BYTES_BEFORE);
    let before = slice_of(bytes, from, place);
    let dots = if from > 0 { ".. " } else { "" };
    let gap = if before.is_empty() { "" } else { " " };
    let before = format!(in alloc; "{dots}{}{gap}", Hex(before, BYTES_BEFORE))?;
    let [byte, after @ ..] = slice_of(bytes, place, bytes.len()) else {
        return format!(in alloc; "{before}><");
    };
    let gap = if after.is_empty() { "" } else { " " };
    let after = Hex(after, AROUND.saturating_sub(place.saturating_sub(from)));
    format!(in alloc; "{before}>{byte:02x}<{gap}{after}")
}

/// The line and the column of an offset in a text, as `1:7`: both from 1, the column in characters.
#[derive(Clone, Copy)]
pub(crate) struct At<'a>(pub(crate) &'a [u8], pub(crate) usize);

impl Display for At<'_> {
    fn fmt<W: fmt::Write>(&self, f: &mut Formatter<W>) -> fmt::Result {
        let before = self.0.get(..self.1).unwrap_or(self.0);
        let line = before.iter().filter(|b| **b == b'\n').count();
        let last = before.rsplit(|b| *b == b'\n').next().unwrap_or(before);
        let column = last.iter().filter(|b| !matches!(**b, 0x80..=0xbf)).count();
        write!(f, "{}:{}", line.saturating_add(1), column.saturating_add(1))
    }
}

/// Lines with the line and the column of an offset of a text, and that line, cut around it, with a mark below.
pub(crate) fn text_around(alloc: Global, text: &[u8], place: usize) -> Text {
    let before = text.get(..place).unwrap_or(text);
    let line = before.rsplit(|b| *b == b'\n').next().unwrap_or(before);
    let line = valid_front(line);
    let from = line.char_indices().rev().take(LINE_BEFORE).last();
    let from = from.map_or(0, |(at, _)| at);
    let dots = if from > 0 { ".." } else { "" };
    let text_before = line.get(from..).unwrap_or("");
    let piece = format!(in alloc; "{dots}{}", Escaped { text: text_before })?;
    let after = slice_of(text, place, text.len());
    let rest = after.split(|b| *b == b'\n' || *b == b'\r').next();
    let rest = rest.unwrap_or(after);
    let front = front_of(rest, LINE_AFTER);
    let cut = if front.len() < rest.len() { ".." } else { "" };
    let (at, rest) = (At(text, place), Escaped { text: front });
    let width = piece.chars().count();
    format!(in alloc;
        "  line  {at}\n  text  {piece}{rest}{cut}\n        {:width$}^\n",
        ""
    )
}
