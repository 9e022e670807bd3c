//! A walk over a text from token to token. It keeps the brackets that are open.

use crate::paths::Step;
use crate::quotes::valid_front;
use cborn_engine::Kind as Format;
use cborn_lex::{BareToken, Kind, LexFault, Profile, next_token};
use std::alloc::{AllocError, Global};

/// How many open brackets a walk keeps: those of 1,024 levels, and of a string or a simple value. A wrong
/// token may be inside more, since all tokens are read before levels are counted: those are counted alone.
const MOST_OPEN: usize = 1026;

/// A text of the notation, and the profile that it is read under.
#[derive(Clone, Copy)]
pub struct NotationText<'a> {
    pub profile: Profile,
    pub text: &'a [u8],
}

impl<'a> NotationText<'a> {
    /// An input as a text. `None`: its format is bytes.
    pub(crate) fn of(kind: Format, text: &'a [u8]) -> Option<NotationText<'a>> {
        let profile = match kind {
            Format::Wire => return None,
            Format::Notation => Profile::One,
            Format::Notation2 => Profile::Two,
        };
        Some(NotationText { profile, text })
    }
}

/// What a bracket opens.
#[derive(Clone, Copy)]
pub(crate) enum Bracket {
    Array,
    Map,
    /// A tag of this number.
    Tag(u128),
    /// A string in chunks, after `(_`.
    Chunks,
    /// A simple value, after `simple(`.
    Simple,
    /// Items of a byte string, after `<<`.
    Embedded,
}

/// A bracket that is open.
#[derive(Clone, Copy)]
pub(crate) struct OpenBracket {
    pub(crate) bracket: Bracket,
    /// The offset in bytes of its token.
    pub(crate) place: usize,
    /// How many of its parts a comma or a colon has ended, each a key, a value or another item or chunk.
    pub(crate) parts: u64,
    /// Where the last key of a map begins, and where it ends, once its colon is read. Both else `place`.
    pub(crate) key: (usize, usize),
    /// A comma or a colon came where none may, so that its parts aren't known.
    pub(crate) is_lost: bool,
}

impl OpenBracket {
    /// The step of a path to its first part that isn't ended. `None`: a simple value has no parts.
    pub(crate) fn step(&self) -> Option<Step> {
        match self.bracket {
            Bracket::Array => Some(Step::Element(self.parts)),
            Bracket::Map if self.is_at_key() => Some(Step::Key(self.parts / 2)),
            Bracket::Map => Some(Step::Value(self.parts / 2)),
            Bracket::Tag(number) => Some(Step::Content(number)),
            Bracket::Chunks => Some(Step::Chunk(self.parts)),
            Bracket::Simple => None,
            Bracket::Embedded => Some(Step::Embedded(self.parts)),
        }
    }

    /// Whether it is a map in which a key comes next, or a key has just been read.
    pub(crate) fn is_at_key(&self) -> bool {
        matches!(self.bracket, Bracket::Map) && self.parts % 2 == 0
    }
}

/// What the last token was.
#[derive(Clone, Copy)]
pub(crate) enum LastToken {
    /// None yet, or an opening bracket.
    Opening,
    /// A comma or a colon.
    Separator,
    /// A string. Another piece of it may follow.
    Piece,
    /// The end of any other item.
    Item,
}

/// A walk from token to token, between two of them.
#[derive(Drop)]
pub(crate) struct TextWalk<'a> {
    alloc: Global,
    profile: Profile,
    text: &'a str,
    /// How many items outside of all brackets a comma has ended.
    pub(crate) items: u64,
    /// The brackets that are open, the innermost last.
    pub(crate) open: Vec<OpenBracket>,
    /// How many are open inside of those, beyond `MOST_OPEN`.
    pub(crate) beyond: u64,
    pub(crate) last: LastToken,
    /// The offset in bytes at which the last token ends.
    pub(crate) stop: usize,
    /// A buffer for the content of strings, which the lexer asks for. Nothing reads it.
    content: Vec<u8>,
}

/// A walk to before the first token that ends after the offset `place` of a text, or that is wrong.
pub(crate) fn walk_text(
    alloc: Global,
    input: NotationText<'_>,
    place: usize,
) -> Result<TextWalk<'_>, AllocError> {
    let mut walk = TextWalk::new(alloc, input.profile, valid_front(input.text));
    'tokens: for _ in 0..walk.text.len() {
        if !walk.take_next(place)? {
            break;
        }
    }
    Ok(walk)
}

impl<'a> TextWalk<'a> {
    /// A walk before the first token of a text.
    pub(crate) fn new(alloc: Global, profile: Profile, text: &'a str) -> TextWalk<'a> {
        TextWalk {
            alloc,
            profile,
            text,
            items: 0,
            open: Vec::new(alloc),
            beyond: 0,
            last: LastToken::Opening,
            stop: 0,
            content: Vec::new(alloc),
        }
    }

    /// Goes on past the next token. `false`: it ends after the offset `place` or is wrong, or there is none.
    pub(crate) fn take_next(&mut self, place: usize) -> Result<bool, AllocError> {
        let (alloc, profile, text) = (self.alloc, self.profile, self.text);
        if self.stop > text.len() {
            return Ok(false);
        }
        let mut number: u128 = 0;
        self.content.clear();
        let content = &mut self.content;
        match next_token(alloc, profile, text, self.stop, &mut number, content) {
            Ok(Some(token)) if token.start < place && token.stop <= place => {
                self.take(&token, number)?;
                Ok(true)
            }
            Ok(_) | Err(LexFault::Refused { .. }) => Ok(false),
            Err(LexFault::OutOfMemory) => Err(AllocError),
        }
    }

    /// Goes on past a token. `number` is that of a tag, if the token opens one.
    fn take(&mut self, token: &BareToken, number: u128) -> Result<(), AllocError> {
        let start = token.start;
        match token.kind {
            Kind::ArrayOpen(_) => self.begin(Bracket::Array, start)?,
            Kind::MapOpen(_) => self.begin(Bracket::Map, start)?,
            Kind::TagOpen(_) => self.begin(Bracket::Tag(number), start)?,
            Kind::ChunkOpen => self.begin(Bracket::Chunks, start)?,
            Kind::SimpleOpen => self.begin(Bracket::Simple, start)?,
            Kind::EmbedOpen => self.begin(Bracket::Embedded, start)?,
            Kind::EmbedClose(_) => self.end(LastToken::Piece),
            Kind::ArrayClose | Kind::MapClose | Kind::ParenClose => self.end(LastToken::Item),
            Kind::Comma => self.separate(false),
            Kind::Colon => self.separate(true),
            Kind::Number { .. } | Kind::Word(_) => self.begin_part(LastToken::Item, start),
            Kind::Text(_) | Kind::Bytes { .. } => self.begin_part(LastToken::Piece, start),
        }
        self.stop = token.stop;
        Ok(())
    }

    /// Goes on past a token that begins an item or a piece of it, and keeps where a key begins.
    fn begin_part(&mut self, token: LastToken, start: usize) {
        let is_first = matches!(self.last, LastToken::Opening | LastToken::Separator);
        self.last = token;
        if let Some(open) = self.open.last_mut() {
            if self.beyond == 0 && is_first && open.is_at_key() {
                open.key = (start, start);
            }
        }
    }

    fn begin(&mut self, bracket: Bracket, place: usize) -> Result<(), AllocError> {
        self.begin_part(LastToken::Opening, place);
        if self.open.len() >= MOST_OPEN {
            self.beyond = self.beyond.saturating_add(1);
            return Ok(());
        }
        self.open.push(OpenBracket {
            bracket,
            place,
            parts: 0,
            key: (place, place),
            is_lost: false,
        })?;
        Ok(())
    }

    fn end(&mut self, last: LastToken) {
        if self.beyond == 0 {
            let _ = self.open.pop();
        }
        self.beyond = self.beyond.saturating_sub(1);
        self.last = last;
    }

    /// Goes on past a comma, or the colon after a key.
    fn separate(&mut self, is_colon: bool) {
        let is_whole = matches!(self.last, LastToken::Piece | LastToken::Item);
        self.last = LastToken::Separator;
        if self.beyond > 0 {
            return;
        }
        match self.open.last_mut() {
            Some(open) => {
                if is_colon {
                    open.key.1 = self.stop;
                }
                let is_expected = is_colon == open.is_at_key() && (is_whole || !is_colon);
                open.is_lost = open.is_lost || !is_expected;
                open.parts = open.parts.saturating_add(1);
            }
            None if is_colon => {}
            None => self.items = self.items.saturating_add(1),
        }
    }

    /// Where the key before the last token, a colon, begins and ends, if the only open bracket is its map's.
    pub(crate) fn key_before_colon(&self) -> Option<(usize, usize)> {
        let [open] = self.open.as_slice() else {
            return None;
        };
        let is_value = matches!(open.bracket, Bracket::Map) && open.parts % 2 == 1;
        (is_value && matches!(self.last, LastToken::Separator)).then_some(open.key)
    }
}
