//! What the reader keeps: where it is in the text, the pieces of the strings that are open, and an
//! entry for each open bracket.

use crate::Result;
use crate::meaning_errors::FirstError;
use crate::spellers::Spellers;
use cborn_lex::{Mark, Profile};
use cborn_model::{StringKind, push_doubling};
use std::alloc::Global;
use std::marker::Model;

/// The kind of the innermost open bracket.
#[derive(Clone, Copy, PartialEq, Eq)]
pub(crate) enum Level {
    /// None is open.
    Outside,
    Array,
    /// `<<`
    Embedded,
    /// A map, before the colon of a pair.
    Key,
    /// A map, after the colon of a pair.
    Value,
    Tag,
}

/// What was read last in the innermost bracket, and so what may follow.
#[derive(Clone, Copy, PartialEq, Eq)]
pub(crate) enum Phase {
    /// An opening bracket, a colon, or nothing: an item is wanted.
    Wants,
    /// A comma, after which an item or a key is wanted.
    WantsMore,
    /// A whole item, so that a comma, a colon or the end of the bracket may follow.
    Has,
    /// Pieces of a string or of a chunk, which another piece may follow.
    Builds,
    /// `(_`, or a comma after a chunk: a chunk is wanted.
    WantsChunk,
    /// `simple(`
    WantsNumber,
    /// `simple(` and a number.
    HasNumber,
}

/// A text, the profile of the notation that it is read in, and how many brackets may be open in it. A
/// function that isn't in line is given the three: given the whole, it would have to be in memory.
#[derive(Clone, Copy)]
pub(crate) struct Source<'a> {
    pub(crate) limit: u64,
    pub(crate) profile: Profile,
    pub(crate) text: &'a str,
}

/// Where the reader is: `at` is its offset in the text, in bytes, and `phase` what was read last.
/// `level` is the kind of the innermost open bracket, and `count` how many items or pairs in it have
/// a comma after them.
#[derive(Clone, Copy)]
pub(crate) struct Here {
    pub(crate) at: usize,
    pub(crate) count: u64,
    pub(crate) phase: Phase,
    pub(crate) level: Level,
}

impl Here {
    /// Before the first token.
    pub(crate) const FIRST: Here = Here {
        at: 0,
        count: 0,
        phase: Phase::Wants,
        level: Level::Outside,
    };
}

/// An open bracket. `place` is its offset in the text, and 0 for a tag. `count` and `level` are those
/// of `Here` around it.
#[derive(Clone, Copy)]
pub(crate) struct OpenBracket {
    pub(crate) place: usize,
    pub(crate) count: u64,
    pub(crate) level: Level,
    pub(crate) mark: Mark,
}

/// The pieces of a string that were read so far. The first gives `kind` and `place`, the last gives
/// `mark`.
#[derive(Clone, Copy)]
pub(crate) struct Joint {
    pub(crate) place: usize,
    /// The place of the token that has the indicator.
    pub(crate) mark_place: usize,
    pub(crate) mark: Mark,
    pub(crate) kind: StringKind,
    /// Whether it is one piece, `''` or `""`.
    pub(crate) lone: bool,
    /// Whether the bytes are what is meant: nothing embedded in it has a meaning error.
    pub(crate) known: bool,
}

/// The chunks of a string that were read so far. The first gives the kind. `place` is the offset of
/// the `(_` in the text.
#[derive(Clone, Copy)]
pub(crate) struct Chunks {
    pub(crate) place: usize,
    pub(crate) kind: Option<StringKind>,
}

/// What is kept around an open `<<`: the pieces of its string before it, the chunks of which that
/// string is one, and the first meaning error before it. The bytes of that string begin at the
/// offset `start` of the pieces.
#[derive(Clone, Copy)]
pub(crate) struct Around {
    pub(crate) start: usize,
    pub(crate) string: Option<Joint>,
    pub(crate) chunks: Option<Chunks>,
    pub(crate) error: FirstError,
}

/// What is open. `string` is there while pieces of a string are read, and `chunks` while a string in
/// chunks is read.
#[derive(Drop)]
pub(crate) struct Writer {
    /// The bytes of the pieces of each string that is open, the outermost first.
    pub(crate) pieces: Vec<u8>,
    /// Where those of the innermost string begin, or would begin.
    pub(crate) start: usize,
    pub(crate) brackets: Opened<OpenBracket>,
    pub(crate) around: Opened<Around>,
    /// Spells the items in each open `<<`.
    pub(crate) spellers: Spellers,
    pub(crate) string: Option<Joint>,
    pub(crate) chunks: Option<Chunks>,
    /// The place of the last `simple(`.
    pub(crate) simple: usize,
    /// The first meaning error since the innermost `<<`.
    pub(crate) error: FirstError,
}

/// What is open, as brackets or what is kept around each `<<`. In contracts it is a list with the
/// innermost first.
#[derive(Drop)]
pub(crate) struct Opened<T> {
    all: Vec<T>,
}

impl<T> Model for Opened<T> {
    ghost use Rattle.std.specs.Prelude.{List};
    ghost use mathlib.Core.List as lists;

    ghost Value = { List T };

    ghost view = { λ l. lists.reverse l.all.items };
}

impl Opened<OpenBracket> {
    ghost use Rattle.std.specs.Prelude.{◌≡◌, ◌<◌, ◌^◌, length};

    /// How many are open.
    #[tactic(auto, using(crate::proofs::Reader::Opened::innermost))]
    pub(crate) fn count(&self) -> u64
        ensures count { result ≡ length self.now }
        ensures small { result < 2 ^ 63 }
    {
        self.all.len() as u64
    }
}

impl<T: Drop> Opened<T> {
    ghost use Rattle.std.specs.Prelude.{◌≡◌, [], ◌∷◌, MatchOption, OnOk};

    /// None are open.
    pub(crate) fn new(alloc: Global) -> Opened<T>
        ensures { result ≡ [] }
    {
        Opened {
            all: Vec::new(alloc),
        }
    }

    /// Adds one, which is then the innermost.
    #[tactic(auto, using(crate::proofs::Reader::Opened::innermost))]
    #[inline(always)]
    pub(crate) fn open(&mut self, one: T) -> Result
        ensures { OnOk result (self.new ≡ one ∷ self.old) }
    {
        push_doubling(&mut self.all, one)
    }

    /// Takes off the innermost, if there is one, and gives it.
    pub(crate) fn shut(&mut self) -> Option<T>
        ensures { MatchOption result (self.old ≡ []) (λ f. self.old ≡ f ∷ self.new) }
    {
        self.all.pop()
    }
}
