//! Bytes that look like a text: a caller may have forgotten to name its format.

ghost use Rattle.std.specs.Prelude.{◌≡◌, ◌<◌, ◌↔◌, ◌⊎◌, length, All, IsSome, IsTrue, Some, None};
ghost use Rattle.cborn_explain.specs.Hints.{IsTextByte};

use std::fmt::{self, Display, Formatter};

/// What bytes look like.
#[derive(Clone, Copy, PartialEq, Eq, Debug)]
pub enum Hint {
    /// A text of the notation.
    Notation,
    /// Bytes in hexadecimal.
    Hexadecimal,
}

impl Display for Hint {
    fn fmt<W: fmt::Write>(&self, f: &mut Formatter<W>) -> fmt::Result {
        let words = self.words();
        write!(f, "the input {words}")
    }
}

impl Hint {
    /// What is said of an input that looks so, after the words for that input.
    pub fn words(self) -> &'static str {
        match self {
            Hint::Notation => {
                "is a text, and was read as CBOR bytes: normalise and show read diagnostic notation by --from notation, compare by --from-a and --from-b"
            }
            Hint::Hexadecimal => {
                "looks like hexadecimal, and was read as CBOR bytes: xxd -r -p makes bytes of it"
            }
        }
    }
}

/// What the bytes look like, if all are printable ASCII or white space. `None`: one isn't, or there
/// are no bytes.
pub fn hint_of(bytes: &[u8]) -> Option<Hint>
    ensures { IsSome result ↔ All IsTextByte bytes.now × 0 < length bytes.now }
{
    let mut look = Look::new();
    look.see(bytes);
    look.hint()
}

/// What the bytes so far look like. None of them is kept.
#[derive(Clone, Copy)]
pub struct Look {
    /// All of them are printable ASCII or white space.
    pub is_text: bool,
    /// The last byte. `None`: there is none yet. Once a byte is no text, this stays as it was.
    pub last: Option<u8>,
    /// How many of them are hexadecimal digits. Once a byte is no text, this stays as it was.
    pub digits: u64,
    /// One is neither a digit nor white space. Once a byte is no text, this stays as it was.
    pub is_mixed: bool,
}

impl Look {
    /// A look at no bytes yet.
    pub fn new() -> Self
        ensures text { IsTrue result.is_text }
        ensures last { result.last ≡ None }
    {
        Look {
            is_text: true,
            last: None,
            digits: 0,
            is_mixed: false,
        }
    }

    /// Looks at the next bytes. After a byte that isn't text, none is looked at any more.
    pub fn see(&mut self, bytes: &[u8])
        ensures text { IsTrue self.new.is_text ↔ IsTrue self.old.is_text × All IsTextByte bytes.now }
        ensures some { IsTrue self.new.is_text → (IsSome self.new.last ↔ IsSome self.old.last ⊎ (0 < length bytes.now)) }
    {
        if !self.is_text {
            return;
        }
        self.is_text = bytes.iter().all(|b| is_text_byte(*b));
        if self.is_text {
            let digits = bytes.iter().filter(|b| b.is_ascii_hexdigit()).count();
            let spaces = bytes.iter().filter(|b| b.is_ascii_whitespace()).count();
            self.is_mixed = self.is_mixed || digits.saturating_add(spaces) < bytes.len();
            self.digits = self.digits.saturating_add(digits as u64);
            if let Some(last) = bytes.last() {
                self.last = Some(*last);
            }
        }
    }

    /// Whether all bytes so far are text, and the last one ends a line.
    pub fn ends_line(self) -> bool
        ensures { IsTrue result ↔ IsTrue self.is_text × self.last ≡ Some 10 }
    {
        self.is_text && self.last == Some(b'\n')
    }

    /// What the bytes so far look like: the answer of [`hint_of`] for all of them.
    pub fn hint(self) -> Option<Hint>
        ensures { IsSome result ↔ IsTrue self.is_text × IsSome self.last }
    {
        if !self.is_text || self.last.is_none() {
            return None;
        }
        let is_hexadecimal = !self.is_mixed && self.digits > 0 && self.digits % 2 == 0;
        Some(if is_hexadecimal {
            Hint::Hexadecimal
        } else {
            Hint::Notation
        })
    }
}

/// Whether the byte is printable ASCII or white space.
fn is_text_byte(byte: u8) -> bool
    ensures { IsTrue result ↔ IsTextByte byte }
{
    (32 <= byte && byte <= 126) || byte == 9 || byte == 10 || byte == 13
}
