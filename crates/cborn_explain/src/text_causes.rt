//! Why a text is refused: a sentence for each reason.

use crate::byte_causes::too_deep;
use crate::faults::count_sentence;
use crate::items::ItemReader;
use crate::quotes::{At, CutNotation, Escaped, Text, front_of, slice_of};
use crate::text_spots::{earlier_key, indicator_at, key_at};
use crate::text_walks::{Bracket, LastToken, NotationText, TextWalk};
use cborn_edn::{EdnFault, EdnReason};
use cborn_engine::{CountFault, EngineFault};
use cborn_judge::{Invalid, InvalidReason};
use cborn_lex::{LexFault, LexReason, Profile, code_at, is_low};

/// A text that is refused, and where.
#[derive(Clone, Copy)]
pub(crate) struct RefusedText<'a> {
    pub(crate) input: NotationText<'a>,
    /// It has the nesting limit under which it is refused.
    pub(crate) items: &'a ItemReader,
    /// The offset in bytes that was reported with the reason.
    pub(crate) place: usize,
    /// The offset in bytes of the character at fault, as `spot_of` finds it.
    pub(crate) spot: usize,
    /// A walk to the place.
    pub(crate) walk: &'a TextWalk<'a>,
}

impl<'a> RefusedText<'a> {
    /// The sentence for a fault. Empty where it is none of the content of a text.
    pub(crate) fn fault(&self, fault: CountFault) -> Text {
        let alloc = self.items.alloc;
        let CountFault::Engine(why) = fault else {
            return String::from_str(alloc, count_sentence(fault));
        };
        let sentence = match why {
            EngineFault::TextInput(_) => {
                let byte = self.rest(self.place).first().copied().unwrap_or(0);
                return format!(in alloc;
                    "a text is UTF-8, and the byte {byte:02x} here begins no character or is cut off"
                );
            }
            EngineFault::Edn(EdnFault::Lex(LexFault::Refused { reason, .. })) => return self.token(
                reason,
            ),
            EngineFault::Edn(EdnFault::Refused { reason, .. }) => return self.notation(reason),
            EngineFault::Invalid(Invalid::Refused { reason, .. }) => match reason {
                InvalidReason::DuplicateKey => return self.duplicate_key(),
                InvalidReason::BadBignum =>
                    "tag 2 or 3 makes an integer of a byte string, and here it encloses another item",
                InvalidReason::NotUtf8 => "a text string is UTF-8, and this one isn't",
            },
            _ => "",
        };
        String::from_str(alloc, sentence)
    }

    /// The text from an offset on.
    fn rest(&self, place: usize) -> &'a [u8] {
        slice_of(self.input.text, place, self.input.text.len())
    }

    /// The line and the column of an offset.
    fn at(&self, place: usize) -> At<'a> {
        At(self.input.text, place)
    }

    /// The letters, digits, points, underscores and minus signs in a row from an offset on.
    fn word(&self, place: usize) -> &'a [u8] {
        let rest = self.rest(place);
        rest.split(|b| !is_word(*b)).next().unwrap_or(rest)
    }

    /// The character at fault in quotes, or that the text ends there.
    fn character(&self) -> Text {
        let text = front_of(self.rest(self.spot), 1);
        if text.is_empty() {
            return String::from_str(self.items.alloc, "the end");
        }
        format!(in self.items.alloc; "'{}'", Escaped { text })
    }

    /// Why a token is wrong.
    fn token(&self, reason: LexReason) -> Text {
        let alloc = self.items.alloc;
        let (c, at) = (self.character()?, self.at(self.spot));
        let (token, word) = (self.word(self.place), CutNotation(self.word(self.spot)));
        let number = CutNotation(token.split(|b| *b == b'_').next().unwrap_or(token));
        let token = CutNotation(token);
        let first = self.rest(self.spot).first().copied().unwrap_or(0);
        let is_quote = first == b'\'';
        let sentence = match reason {
            LexReason::UnexpectedCharacter | LexReason::UnknownPrefix if self.is_after_slashes() =>
                "comments are / .. /, and the // before this is an empty one",
            LexReason::UnexpectedCharacter if first == b'#' && self.input.profile == Profile::One =>
                "comments from # to the end of a line are read with notation-2 alone",
            LexReason::UnexpectedCharacter if first.is_ascii_alphabetic() =>
                return format!(in alloc;
                    "'{token}' is no word of the notation: false, true, null and undefined are, and simple("
                ),
            LexReason::UnexpectedCharacter => return format!(in alloc; "{c} begins no token"),
            LexReason::UnclosedString => "the string that begins here has no quote that ends it",
            LexReason::UnclosedComment => "the comment that begins here has no slash that ends it",
            LexReason::BadEscape => return self.bad_escape(),
            LexReason::BadHex if is_quote => return format!(in alloc;
                "the quote at {at} ends the bytes after an odd number of digits"
            ),
            LexReason::BadHex => return format!(in alloc;
                "{c} at {at} is no hexadecimal digit, white space or whole comment"
            ),
            LexReason::BadBase64 if is_quote => return format!(in alloc;
                "the quote at {at} ends the bytes after digits or padding that fit no bytes"
            ),
            LexReason::BadBase64 => return format!(in alloc; "{c} at {at} is no digit of base64"),
            LexReason::UnknownPrefix => return format!(in alloc;
                "'{token}' is no prefix of a string: h is, for hexadecimal, and b64, for base64"
            ),
            LexReason::BadNumber if self.spot > self.place => return format!(in alloc;
                "'{number}' is no number: {c} at {at} is no digit of it"
            ),
            LexReason::BadNumber => return format!(in alloc;
                "'{number}' is no number: it lacks digits, or begins with a 0 that it doesn't need"
            ),
            LexReason::NumberTooLarge =>
                "a number has at most 128 bits: 340282366920938463463374607431768211455 is the greatest",
            LexReason::BadIndicator => return format!(in alloc;
                "'{word}' is no encoding indicator: _, _0, _1, _2 and _3 are, and after ( comes _ alone"
            ),
            LexReason::FloatLeftOut => return format!(in alloc;
                "'{token}' is no integer, and floats are left out"
            ),
        };
        String::from_str(alloc, sentence)
    }

    /// Whether `//` comes before the place, and white space of the same line.
    fn is_after_slashes(&self) -> bool {
        let before = slice_of(self.input.text, 0, self.place);
        let last = before.iter().rposition(|b| !matches!(*b, b' ' | b'\t'));
        let len = last.map_or(0, |index| index.saturating_add(1));
        slice_of(before, 0, len).ends_with(b"//")
    }

    /// What is wrong with an escape, or with a character that has to be escaped.
    fn bad_escape(&self) -> Text {
        let alloc = self.items.alloc;
        let (c, at) = (self.character()?, self.at(self.spot));
        match self.rest(self.spot) {
            [b'\\', b'u', rest @ ..] => match code_at(rest) {
                Some(unit) if is_low(unit) => format!(in alloc;
                    "the escape at {at} is the second half of a pair of surrogates, and no first half comes before it"
                ),
                Some(_) => format!(in alloc;
                    "after the escape at {at}, the first half of a pair of surrogates, the second has to follow"
                ),
                None => format!(in alloc; "after \\u at {at} there are no four hexadecimal digits"),
            },
            [b'\\', ..] => format!(in alloc; "{c} at {at} begins no escape of JSON"),
            _ => format!(in alloc; "{c} at {at} is a control character, which has to be escaped"),
        }
    }

    /// Why the tokens are a syntax error, or notate no item.
    fn notation(&self, reason: EdnReason) -> Text {
        let alloc = self.items.alloc;
        let sentence = match reason {
            EdnReason::UnexpectedToken => {
                let (piece, allowed) = self.allowed();
                let comma = self.note_on_comma();
                return format!(in alloc; "here may come {piece}{allowed}{comma}");
            }
            EdnReason::UnexpectedEnd => return self.unexpected_end(),
            EdnReason::TooDeep => {
                let text = too_deep(self.items, "arrays, maps, tags and <<..>>")?;
                if !self.is_at_number() {
                    return Ok(text);
                }
                return format!(in alloc; "{text}; an integer beyond 64 bits counts as one of them");
            }
            EdnReason::IndicatorTooNarrow =>
                "the number, the length or the count doesn't fit the width that the indicator asks for: _0 has 1 byte, _1 has 2, _2 has 4 and _3 has 8",
            EdnReason::IndicatorNotAllowed => self.unwanted_indicator(),
            EdnReason::MixedString =>
                "pieces after a byte string are bytes too, and this one is a text in double quotes",
            EdnReason::MixedChunks =>
                "the chunks of a string are all of one kind, bytes or text, as the first is",
            EdnReason::TextNotUtf8 =>
                "a text string is UTF-8, and the joined pieces of this one aren't",
            EdnReason::BadSimple => "a simple value is from 0 to 23, or from 32 to 255",
            EdnReason::TagTooLarge => "the number of a tag is at most 18446744073709551615",
        };
        String::from_str(alloc, sentence)
    }

    /// Whether the token at the place is a number. One beyond 64 bits is a level, as a tag of a byte string.
    fn is_at_number(&self) -> bool {
        matches!(self.rest(self.place), [b'-' | b'0'..=b'9', ..])
    }

    /// Why the token at the place may not have its encoding indicator.
    fn unwanted_indicator(&self) -> &'static str {
        let bracket = self.walk.open.last().map(|open| open.bracket);
        match bracket {
            Some(Bracket::Simple) if self.is_at_number() =>
                "the number of a simple value has no encoding indicator",
            _ if self.is_at_number() && self.is_indefinite() =>
                "_ asks for an indefinite length, which numbers and tags don't have",
            _ if self.is_at_number() =>
                "an integer beyond 64 bits is encoded as a bignum, and has no encoding indicator",
            _ if !self.is_indefinite() =>
                "of pieces side by side the last alone has an encoding indicator, for the whole string",
            Some(Bracket::Chunks) => "a chunk has a definite length, so that no _ follows it",
            _ =>
                "only [, {, (, '' and \"\" have _, which is an indefinite length: a string with a prefix, with bytes or in pieces has none",
        }
    }

    /// Whether the token at the place has the encoding indicator `_` alone, or none.
    fn is_indefinite(&self) -> bool {
        let token = self.rest(self.place);
        match slice_of(token, indicator_at(token), token.len()) {
            [b'_', next, ..] => !next.is_ascii_digit(),
            _ => true,
        }
    }

    /// What is missing at the end of the text, and which bracket is open.
    fn unexpected_end(&self) -> Text {
        let (piece, allowed) = self.allowed();
        let mut text = format!(in self.items.alloc;
            "the text ends, and here must come {piece}{allowed}"
        )?;
        if let Some(open) = self.walk.open.last() {
            let (bracket, at) = (opening(open.bracket), self.at(open.place));
            write!(text, ": the {bracket} at {at} is open")?;
        }
        Ok(text)
    }

    /// What may follow the last token: a piece of the string that it is, or what else.
    fn allowed(&self) -> (&'static str, &'static str) {
        let last = self.walk.last;
        let is_whole = matches!(last, LastToken::Piece | LastToken::Item);
        let is_first = matches!(last, LastToken::Opening);
        let may_end = is_first || !is_whole && self.input.profile == Profile::Two;
        let words = match self.walk.open.last() {
            None if is_whole => "a comma, or the end",
            None if is_first => "an item, or the end",
            None => "an item",
            Some(open) => match open.bracket {
                Bracket::Array if is_whole => "a comma or ]",
                Bracket::Array if may_end => "an item or ]",
                Bracket::Map if is_whole && open.is_at_key() => "a colon",
                Bracket::Map if is_whole => "a comma or }",
                Bracket::Map if !open.is_at_key() => "a value",
                Bracket::Map if may_end => "a key or }",
                Bracket::Map => "a key",
                Bracket::Tag(_) | Bracket::Simple if is_whole => ")",
                Bracket::Simple => "a number",
                Bracket::Chunks if is_whole => "a comma or )",
                Bracket::Chunks => "a string",
                Bracket::Embedded if is_whole => "a comma or >>",
                Bracket::Embedded if may_end => "an item or >>",
                _ => "an item",
            },
        };
        match last {
            LastToken::Piece => ("a further piece of the string, or ", words),
            _ => ("", words),
        }
    }

    /// What is said where a bracket is closed after a trailing comma, which profile 2 alone allows.
    fn note_on_comma(&self) -> &'static str {
        let is_closed = match (self.walk.open.last(), self.rest(self.place)) {
            (Some(open), [b']', ..]) => matches!(open.bracket, Bracket::Array),
            (Some(open), [b'>', b'>', ..]) => matches!(open.bracket, Bracket::Embedded),
            (Some(open), [b'}', ..]) => open.is_at_key(),
            _ => false,
        };
        let is_comma = matches!(self.walk.last, LastToken::Separator);
        if is_comma && is_closed && self.input.profile == Profile::One {
            return "; a trailing comma is read with notation-2 alone";
        }
        ""
    }

    /// Which key the key at the place repeats.
    fn duplicate_key(&self) -> Text {
        let alloc = self.items.alloc;
        let key = key_at(alloc, self.input, self.place)?;
        let map = self.walk.open.last().map_or(0, |open| open.place);
        let found = earlier_key(self.items, self.input, (map, self.place), key)?;
        let key = CutNotation(key);
        let Some(place) = found else {
            return format!(in alloc; "the key {key} is the same as an earlier key of this map");
        };
        let at = self.at(place);
        format!(in alloc;
            "the key {key} is the same as the key at {at} (offset {place}) of this map"
        )
    }
}

/// How an opening bracket is quoted.
fn opening(bracket: Bracket) -> &'static str {
    match bracket {
        Bracket::Array => "[",
        Bracket::Map => "{",
        Bracket::Tag(_) => "tag",
        Bracket::Chunks => "(_",
        Bracket::Simple => "simple(",
        Bracket::Embedded => "<<",
    }
}

/// Whether a word, a number or an encoding indicator may hold this character.
fn is_word(byte: u8) -> bool {
    byte.is_ascii_alphanumeric() || matches!(byte, b'_' | b'.' | b'-')
}
