//! Tokens: what they are, and what they mean.

ghost use Rattle.std.specs.Prelude.{◌≡◌};
ghost use Rattle.cborn_lex.specs.Cited.{class_of};

use cborn_model::{ByteString, Width};

/// Which comments a text may have.
#[derive(Clone, Copy, PartialEq, Eq, Debug)]
pub enum Profile {
    /// Comments between slashes (RFC 8610 appendix G.6).
    One,
    /// Comments between slashes, and comments from `#` to the end of their line.
    Two,
}

/// The encoding indicator that ends a token (RFC 8949 section 8.1).
#[derive(Clone, Copy, PartialEq, Eq, Debug)]
pub enum Mark {
    /// None.
    Absent,
    /// `_`: an indefinite length.
    Endless,
    /// `_0`, `_1`, `_2` or `_3`: a head whose argument takes 1, 2, 4 or 8 bytes. Never `Direct`.
    Wide(Width),
}

/// What a token is, without the number of an integer or a tag, and without the content of a string.
#[derive(Clone, Copy, PartialEq, Eq, Debug)]
pub enum Kind {
    /// `[`
    ArrayOpen(Mark),
    /// `{`
    MapOpen(Mark),
    /// `]`
    ArrayClose,
    /// `}`
    MapClose,
    /// `)`
    ParenClose,
    /// `,`
    Comma,
    /// `:`
    Colon,
    /// `<<`
    EmbedOpen,
    /// `>>`
    EmbedClose(Mark),
    /// `(_`, the start of a string in chunks.
    ChunkOpen,
    /// An integer, which is below 0 if `negative` is set.
    Number { negative: bool, mark: Mark },
    /// The number of a tag, with its indicator and its `(`.
    TagOpen(Mark),
    /// `false`, `true`, `null` or `undefined`, by its simple value: 20, 21, 22 or 23.
    Word(u8),
    /// `simple(`
    SimpleOpen,
    /// A string in double quotes.
    Text(Mark),
    /// A string in single quotes (`quoted`), or with the prefix `h` or `b64`.
    Bytes { quoted: bool, mark: Mark },
}

impl Kind {
    /// The class of a token of this kind, with `number` or `content` where it has such a part.
    #[inline(always)]
    pub(crate) fn into_class(self, number: u128, content: Vec<u8>) -> Class
        ensures { result ≡ class_of self number content.items }
    {
        match self {
            Kind::ArrayOpen(mark) => Class::ArrayOpen(mark),
            Kind::MapOpen(mark) => Class::MapOpen(mark),
            Kind::ArrayClose => Class::ArrayClose,
            Kind::MapClose => Class::MapClose,
            Kind::ParenClose => Class::ParenClose,
            Kind::Comma => Class::Comma,
            Kind::Colon => Class::Colon,
            Kind::EmbedOpen => Class::EmbedOpen,
            Kind::EmbedClose(mark) => Class::EmbedClose(mark),
            Kind::ChunkOpen => Class::ChunkOpen,
            Kind::Number { negative, mark } => Class::Number {
                negative,
                magnitude: number,
                mark,
            },
            Kind::TagOpen(mark) => Class::TagOpen { number, mark },
            Kind::Word(n) => Class::Word(n),
            Kind::SimpleOpen => Class::SimpleOpen,
            Kind::Text(mark) => Class::Text {
                bytes: ByteString::new(content),
                mark,
            },
            Kind::Bytes { quoted, mark } => Class::Bytes {
                quoted,
                bytes: ByteString::new(content),
                mark,
            },
        }
    }
}

/// What a token is, without its number or content, and its slice of the text: from `start` up to
/// `stop`, in bytes from the start of the text.
#[derive(Clone, Copy, PartialEq, Eq, Debug)]
pub struct BareToken {
    pub start: usize,
    pub stop: usize,
    pub kind: Kind,
}

/// What a token is, with its number or content. A variant with no comment of its own is that of
/// [`Kind`].
#[derive(Drop)]
pub enum Class {
    ArrayOpen(Mark),
    MapOpen(Mark),
    ArrayClose,
    MapClose,
    ParenClose,
    Comma,
    Colon,
    EmbedOpen,
    EmbedClose(Mark),
    ChunkOpen,
    /// An integer: `magnitude`, or `-magnitude` if `negative` is set, which it isn't at 0.
    Number {
        negative: bool,
        magnitude: u128,
        mark: Mark,
    },
    TagOpen {
        number: u128,
        mark: Mark,
    },
    Word(u8),
    SimpleOpen,
    /// A string in double quotes, by its bytes in UTF-8.
    Text {
        bytes: ByteString,
        mark: Mark,
    },
    /// A string in single quotes (`quoted`), by its bytes in UTF-8; or one with the prefix `h` or
    /// `b64`, by the bytes that it encodes.
    Bytes {
        quoted: bool,
        bytes: ByteString,
        mark: Mark,
    },
}

/// A token, and its slice of the text: from `start` up to `stop`, in bytes from the start of the
/// text.
#[derive(Drop)]
pub struct Token {
    pub start: u64,
    pub stop: u64,
    pub class: Class,
}
