//! The [`Visitor`], which is handed data items head by head, whatever they are read from.

ghost use Rattle.std.specs.Prelude.{◌≡◌, ◌++◌};
ghost use Rattle.cborn_model.specs.Common.{ℕ, List, [], length, true, false, OnOk, OnErr, IfOk, IsTrue, Width as Wide, StringKind as Kind};
ghost use Rattle.cborn_model.specs.Heads.{WidthFits, is_simple_value};
ghost use Rattle.cborn_model.specs.Tree.{Tree, Simple};
ghost use Rattle.cborn_model.specs.Partial.{Opening, an_array, a_map, a_tag, in_chunks, Partial, inside, Part, no_part, part, put, built, integer_tree, string_tree, Proper, TakesString, IsFree, Ends, CountFits};
ghost use Rattle.cborn_model.specs.shared.Runs.{AreShortIntegers, IsShortPair, puts, InArray, AtKey};

use crate::heads::{Size, Width};
use std::alloc::AllocError;

/// The two kinds of string (RFC 8949 section 3.1).
#[derive(Clone, Copy, PartialEq, Eq, Debug)]
pub enum StringKind {
    /// A byte string, of major type 2.
    OfBytes,
    /// A text string, of major type 3.
    OfText,
}

/// A key and its value. Each is an integer, a simple value or a whole string of definite length, and
/// has the shortest head.
#[derive(Clone, Copy)]
pub struct LeafPair<'a> {
    /// The bytes that they spell, one after another.
    pub spelled: &'a [u8],
    /// How many of these are the key's.
    pub key_len: usize,
    /// The content of the key, if it is a text; else empty.
    pub key_text: &'a [u8],
    /// The content of the value, if it is a text; else empty.
    pub value_text: &'a [u8],
}

/// Takes data items head by head, in the order in which they are read (RFC 8949 section 3), and
/// makes of them what it is for. A source calls it for each head and for the content of each
/// string. A `place` is the offset of a head in bytes from the start of the input.
///
/// A source may hand on a whole string in one call ([`Visitor::string`]), and so it may several
/// integers of an array, or a key and its value, where [`Visitor::takes_runs`] says so. The visitor
/// then holds what it would hold after calls for one at a time.
///
/// What a visitor finds wrong it keeps for later: a method fails only if memory is refused. Then
/// nothing is known of the visitor, and it is called no more.
pub trait Visitor {
    /// `holds v f c`: the visitor v was handed the partial sequence f, and the part c of a string.
    ghost holds: { Self → Partial → Part → Type 0 };

    /// Whether memory may be refused to it.
    ghost takes_memory: { Type 0 };

    /// Takes the integer `n`, or -1 - `n` if it is `negative`.
    fn integer(
        &mut self,
        place: u64,
        negative: bool,
        width: Width,
        n: u64,
    ) -> Result<(), AllocError>
        requires { WidthFits width n }
        ensures held { OnOk result ((f : Partial) → IsFree f → holds self.old f no_part → holds self.new (put f (integer_tree place negative width n)) no_part) }
        ensures memory { OnErr result takes_memory };

    /// Takes the simple value `n`.
    fn simple(&mut self, place: u64, n: u8) -> Result<(), AllocError>
        requires { IsTrue (is_simple_value n) }
        ensures held { OnOk result ((f : Partial) → IsFree f → holds self.old f no_part → holds self.new (put f (Simple place n)) no_part) }
        ensures memory { OnErr result takes_memory };

    /// Begins an array, whose items follow. `count` is their number if it is known before they
    /// come. A size of a fixed width without it asks for a head of at least this width.
    fn open_array(&mut self, place: u64, size: Size, count: Option<u64>) -> Result<(), AllocError>
        requires { CountFits size count }
        ensures held { OnOk result ((f : Partial) → IsFree f → holds self.old f no_part → holds self.new (inside f (an_array place size count) []) no_part) }
        ensures memory { OnErr result takes_memory };

    /// Begins a map, whose keys and values follow in turn. `count` is the number of pairs if it is
    /// known before they come. A size of a fixed width without it asks for a head of at least this
    /// width.
    fn open_map(&mut self, place: u64, size: Size, count: Option<u64>) -> Result<(), AllocError>
        requires { CountFits size count }
        ensures held { OnOk result ((f : Partial) → IsFree f → holds self.old f no_part → holds self.new (inside f (a_map place size count) []) no_part) }
        ensures memory { OnErr result takes_memory };

    /// Begins the tag `n`, whose content follows.
    fn open_tag(&mut self, place: u64, width: Width, n: u64) -> Result<(), AllocError>
        requires { WidthFits width n }
        ensures held { OnOk result ((f : Partial) → IsFree f → holds self.old f no_part → holds self.new (inside f (a_tag place width n) []) no_part) }
        ensures memory { OnErr result takes_memory };

    /// Begins a string of indefinite length, whose chunks follow as strings of its kind.
    fn open_chunks(&mut self, place: u64, kind: StringKind) -> Result<(), AllocError>
        ensures held { OnOk result ((f : Partial) → IsFree f → holds self.old f no_part → holds self.new (inside f (in_chunks place kind) []) no_part) }
        ensures memory { OnErr result takes_memory };

    /// Ends the innermost of what is open: an array, a map, a tag or a string of indefinite length.
    fn close(&mut self) -> Result<(), AllocError>
        ensures held { OnOk result ((f : Partial) (o : Opening) (ts : List Tree) → IsFree f → Ends o ts → holds self.old (inside f o ts) no_part → holds self.new (put f (built o ts)) no_part) }
        ensures memory { OnErr result takes_memory };

    /// Begins a string of `len` bytes, which follow in parts.
    fn open_string(
        &mut self,
        place: u64,
        kind: StringKind,
        width: Width,
        len: u64,
    ) -> Result<(), AllocError>
        requires { WidthFits width len }
        ensures held { OnOk result ((f : Partial) → Proper f → TakesString f kind → holds self.old f no_part → holds self.new f (part place kind width len [])) }
        ensures memory { OnErr result takes_memory };

    /// Takes the next bytes of a string.
    fn part(&mut self, bytes: &[u8]) -> Result<(), AllocError>
        ensures held { OnOk result ((f : Partial) (p : ℕ) (k : Kind) (w : Wide) (n : ℕ) (x : List ℕ) → holds self.old f (part p k w n x) → holds self.new f (part p k w n (x ++ bytes.now))) }
        ensures memory { OnErr result takes_memory };

    /// Ends a string, all of whose bytes came.
    fn close_string(&mut self) -> Result<(), AllocError>
        ensures held { OnOk result ((f : Partial) (p : ℕ) (k : Kind) (w : Wide) (n : ℕ) (x : List ℕ) → Proper f → TakesString f k → length x ≡ n → holds self.old f (part p k w n x) → holds self.new (put f (string_tree p k w x)) no_part) }
        ensures memory { OnErr result takes_memory };

    /// Takes a whole string of definite length.
    #[inline(always)]
    fn string(
        &mut self,
        place: u64,
        kind: StringKind,
        width: Width,
        bytes: &[u8],
    ) -> Result<(), AllocError>
        requires { WidthFits width (length bytes.now) }
        ensures held { OnOk result ((f : Partial) → Proper f → TakesString f kind → holds self.old f no_part → holds self.new (put f (string_tree place kind width bytes.now)) no_part) }
        ensures memory { OnErr result takes_memory }
    {
        self.open_string(place, kind, width, bytes.len() as u64)?;
        self.part(bytes)?;
        self.close_string()
    }

    /// Whether it may take several leaves at once, so that it is worth a source's while to look for
    /// them and call [`Visitor::integers`] and [`Visitor::pair`]. Both may be called whatever this says.
    #[inline(always)]
    fn takes_runs() -> bool {
        false
    }

    /// May take the next `count` items of an array at once, which are integers. `spelled` has their
    /// heads, each the shortest, of which the first is at `place`. Gives whether it took them.
    #[inline(always)]
    fn integers(&mut self, place: u64, count: u64, spelled: &[u8]) -> Result<bool, AllocError>
        ensures taken { IfOk result (λ taken. taken ≡ true → (f : Partial) (ts : List Tree) → IsFree f → InArray f → AreShortIntegers place spelled.now ts → length ts ≡ count → holds self.old f no_part → holds self.new (puts f ts) no_part) }
        ensures left { IfOk result (λ taken. taken ≡ false → self.new ≡ self.old) }
        ensures memory { OnErr result takes_memory }
    {
        Ok(false)
    }

    /// May take the next key of a map and its value at once. The key is at `place`. Gives whether it
    /// took them.
    #[inline(always)]
    fn pair(&mut self, place: u64, pair: LeafPair) -> Result<bool, AllocError>
        ensures taken { IfOk result (λ taken. taken ≡ true → (f : Partial) (k v : Tree) → IsFree f → AtKey f → IsShortPair place pair.entry k v → holds self.old f no_part → holds self.new (put (put f k) v) no_part) }
        ensures left { IfOk result (λ taken. taken ≡ false → self.new ≡ self.old) }
        ensures memory { OnErr result takes_memory }
    {
        Ok(false)
    }
}
