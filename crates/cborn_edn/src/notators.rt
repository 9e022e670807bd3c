//! The visitor [`Notator`], which writes the fixed notation.

ghost use Rattle.std.specs.Prelude.{◌≡◌, ◌++◌, ◌∷◌, ℕ, List, [], true, false, length, drop, None, OnOk, IfOk, IfErr};
ghost use Rattle.cborn_model.specs.Tree.{Tree, trees};
ghost use Rattle.cborn_model.specs.Spelled.{FitsAll};
ghost use Rattle.cborn_model.specs.Partial.{top, an_array, a_map, no_part};
ghost use Rattle.cborn_edn.specs.declared.notators.Late.{Late};
ghost use Rattle.cborn_edn.specs.Shown.{Shown, IsShowFault};
ghost use Rattle.cborn_edn.specs.devices.Notating as pure;
ghost use Rattle.cborn_edn.specs.devices.Notating.{IsHeld, IsCounted, IsEnded};

use crate::strings::is_good;
use crate::writing::{
    push_bracket, push_content, push_integer, push_quote, push_simple, push_size, push_string_end,
    push_tag,
};
use crate::{Result, ShowFault};
use cborn_model::{Size, StringKind, Visitor, Width, ended_size};
use std::alloc::Global;

/// What comes next in a container, or in the input. The late ones are in an array or a map whose
/// indicator is still to be written.
#[derive(Clone, Copy)]
pub(crate) enum Next {
    FirstItem,
    Item,
    FirstElement,
    Element,
    FirstKey,
    Key,
    /// The value of a key.
    Value,
    /// The content of a tag.
    Content,
    TagEnd,
    /// The first chunk of a string of this kind.
    FirstChunk(StringKind),
    Chunk,
    FirstLateElement,
    LateElement,
    FirstLateKey,
    LateKey,
    LateValue,
}

impl Next {
    /// What comes after it.
    #[inline(always)]
    fn after(self) -> Next
        ensures { result ≡ pure.after self }
    {
        match self {
            Next::FirstItem | Next::Item => Next::Item,
            Next::FirstElement | Next::Element => Next::Element,
            Next::FirstKey | Next::Key => Next::Value,
            Next::Value => Next::Key,
            Next::Content | Next::TagEnd => Next::TagEnd,
            Next::FirstChunk(_) | Next::Chunk => Next::Chunk,
            Next::FirstLateElement | Next::LateElement => Next::LateElement,
            Next::FirstLateKey | Next::LateKey => Next::LateValue,
            Next::LateValue => Next::LateKey,
        }
    }
}

/// Appends what is written before the part that comes next.
#[inline(always)]
fn push_separator(next: Next, out: &mut Vec<u8>) -> Result
    ensures { OnOk result (out.new.items ≡ out.old.items ++ pure.separator next) }
{
    match next {
        Next::Element | Next::Key | Next::Chunk => out.extend_from_slice(b", "),
        Next::LateElement | Next::LateKey => out.extend_from_slice(b", "),
        Next::Value | Next::LateValue => out.extend_from_slice(b": "),
        Next::Item => out.extend_from_slice(b",\n"),
        Next::FirstChunk(_) => out.extend_from_slice(b"(_ "),
        _ => Ok(()),
    }
}

/// Appends what is written where a container ends and this would come next.
#[inline(always)]
fn push_ending(next: Next, out: &mut Vec<u8>) -> Result
    ensures { OnOk result (out.new.items ≡ out.old.items ++ pure.ending next) }
{
    match next {
        Next::FirstItem => Ok(()),
        Next::Item => out.extend_from_slice(b"\n"),
        Next::FirstElement | Next::Element => out.extend_from_slice(b"]"),
        Next::FirstLateElement | Next::LateElement => out.extend_from_slice(b"]"),
        Next::Content | Next::TagEnd | Next::Chunk => out.extend_from_slice(b")"),
        Next::FirstChunk(StringKind::OfBytes) => out.extend_from_slice(b"''_"),
        Next::FirstChunk(StringKind::OfText) => out.extend_from_slice(b"\"\"_"),
        _ => out.extend_from_slice(b"}"),
    }
}

/// A string that comes in parts. What is written of its content begins at the index `start`.
#[derive(Clone, Copy)]
pub(crate) struct OpenString {
    place: u64,
    kind: StringKind,
    width: Width,
    len: u64,
    start: usize,
}

/// An array or a map whose indicator is still to be written, since its count wasn't known from the
/// start: where its bracket ends, the least width of its head, and how many items or pairs began.
#[derive(Clone, Copy)]
pub(crate) struct Late {
    at: usize,
    width: Width,
    count: u64,
}

/// Writes the items that a source hands it in the fixed notation (RFC 8949 section 8). Once a text
/// isn't UTF-8 it only looks for such texts at lower places.
#[derive(Drop)]
pub struct Notator {
    out: Vec<u8>,
    next: Next,
    /// What came next in the containers around the innermost, when the one in them began.
    around: Vec<Next>,
    lates: Vec<Late>,
    string: Option<OpenString>,
    /// The lowest place of a text that isn't UTF-8.
    pub(crate) bad: Option<u64>,
}

impl Notator {
    /// A visitor that was handed nothing. Takes no memory.
    pub fn new(alloc: Global) -> Notator
        ensures { ⟦<Notator as Visitor>⟧.holds result (top []) no_part }
    {
        Notator {
            out: Vec::new(alloc),
            next: Next::FirstItem,
            around: Vec::new(alloc),
            lates: Vec::new(alloc),
            string: None,
            bad: None,
        }
    }

    /// The notation of the items that it was handed, in UTF-8: a comma and a line feed separate
    /// them, and a line feed follows the last.
    ///
    /// # Errors
    /// `NotUtf8` with the lowest place of a text string or a text chunk that isn't UTF-8.
    /// `OutOfMemory` if memory is refused.
    pub fn finish(self) -> Result<Vec<u8>, ShowFault>
        ensures shown { IfOk result (λ text. (ts : List Tree) → FitsAll (trees ts) → ⟦<Notator as Visitor>⟧.holds self (top ts) no_part → Shown (trees ts) text.items) }
        ensures refused { IfErr result (λ why. (ts : List Tree) → ⟦<Notator as Visitor>⟧.holds self (top ts) no_part → IsShowFault (trees ts) why) }
    {
        if let Some(place) = self.bad {
            return Err(ShowFault::NotUtf8 { place });
        }
        Ok(self.into_text()?)
    }

    /// What [`Notator::finish`] gives where each text is UTF-8.
    pub(crate) fn into_text(self) -> Result<Vec<u8>>
        requires { self.bad ≡ None }
        ensures { IfOk result (λ text. (ts : List Tree) → FitsAll (trees ts) → ⟦<Notator as Visitor>⟧.holds self (top ts) no_part → Shown (trees ts) text.items) }
    {
        let mut out = self.out;
        push_ending(self.next, &mut out)?;
        Ok(out)
    }

    /// Writes what comes before the next part.
    #[inline(always)]
    fn begin(&mut self) -> Result
        ensures next { self.new.next ≡ self.old.next }
        ensures around { self.new.around ≡ self.old.around }
        ensures string { self.new.string ≡ self.old.string }
        ensures bad { self.new.bad ≡ self.old.bad }
        ensures out { OnOk result (self.new.out.items ≡ self.old.out.items ++ pure.separator self.old.next) }
        ensures lates { OnOk result (IsCounted self.old.next self.old.lates.items self.new.lates.items) }
    {
        match self.next {
            Next::FirstLateElement | Next::LateElement | Next::FirstLateKey | Next::LateKey =>
                self.begin_late(),
            next => push_separator(next, &mut self.out),
        }
    }

    /// Writes what comes before an element of an array or a key of a map, and counts it.
    #[cold]
    #[inline(never)]
    fn begin_late(&mut self) -> Result
        ensures next { self.new.next ≡ self.old.next }
        ensures around { self.new.around ≡ self.old.around }
        ensures string { self.new.string ≡ self.old.string }
        ensures bad { self.new.bad ≡ self.old.bad }
        ensures out { OnOk result (self.new.out.items ≡ self.old.out.items ++ pure.separator self.old.next) }
        ensures lates { OnOk result ((front : List Late) (late : Late) → self.old.lates.items ≡ front ++ late ∷ [] → self.new.lates.items ≡ front ++ pure.more late ∷ []) }
    {
        if let Some(late) = self.lates.pop() {
            let count = late.count.saturating_add(1);
            self.lates.push(Late { count, ..late })?;
        }
        push_separator(self.next, &mut self.out)
    }

    /// Begins an array or a map, in which `first` comes next.
    #[inline(always)]
    fn open(&mut self, bracket: u8, size: Size, count: Option<u64>, first: Next) -> Result
        ensures around { OnOk result (self.new.around.items ≡ self.old.around.items ++ self.old.next ∷ []) }
        ensures next { OnOk result (self.new.next ≡ first) }
        ensures bad { self.new.bad ≡ self.old.bad }
        ensures out { OnOk result (self.old.bad ≡ None → self.new.out.items ≡ (self.old.out.items ++ pure.separator self.old.next) ++ (bracket ∷ pure.size_text size count)) }
        ensures lates { OnOk result (self.old.bad ≡ None → (l : List Late) × IsCounted self.old.next self.old.lates.items l × (self.new.lates.items ≡ l ++ pure.late_at size count (length self.new.out.items) 0)) }
    {
        if self.bad.is_none() {
            self.begin()?;
            push_bracket(bracket, size, count, &mut self.out)?;
            if let (Size::Fixed(width), None) = (size, count) {
                let at = self.out.len();
                let count = 0;
                self.lates.push(Late { at, width, count })?;
            }
        }
        self.enter(first)
    }

    /// Writes what ends the container that ends here.
    #[inline(always)]
    fn end(&mut self) -> Result
        ensures next { self.new.next ≡ self.old.next }
        ensures around { self.new.around ≡ self.old.around }
        ensures bad { self.new.bad ≡ self.old.bad }
        ensures ended { OnOk result (IsEnded self.old.next self.old.lates.items self.old.out.items self.new.lates.items self.new.out.items) }
    {
        match self.next {
            Next::FirstLateElement | Next::LateElement | Next::FirstLateKey | Next::LateKey =>
                self.end_late(),
            next => push_ending(next, &mut self.out),
        }
    }

    /// Writes what ends an array or a map, and its indicator.
    #[cold]
    #[inline(never)]
    fn end_late(&mut self) -> Result
        ensures next { self.new.next ≡ self.old.next }
        ensures around { self.new.around ≡ self.old.around }
        ensures bad { self.new.bad ≡ self.old.bad }
        ensures ended { OnOk result ((front : List Late) (late : Late) (x y : List ℕ) → self.old.lates.items ≡ front ++ late ∷ [] → self.old.out.items ≡ x ++ y → late.at ≡ length x → (self.new.lates.items ≡ front) × (self.new.out.items ≡ (x ++ (pure.late_size late.width late.count ++ y)) ++ pure.ending self.old.next)) }
    {
        if let Some(late) = self.lates.pop() {
            insert_size(late, &mut self.out)?;
        }
        push_ending(self.next, &mut self.out)
    }

    /// Enters a container, in which `first` comes next.
    #[inline(always)]
    fn enter(&mut self, first: Next) -> Result
        ensures around { OnOk result (self.new.around.items ≡ self.old.around.items ++ self.old.next ∷ []) }
        ensures next { OnOk result (self.new.next ≡ first) }
        ensures out { self.new.out ≡ self.old.out }
        ensures bad { self.new.bad ≡ self.old.bad }
        ensures lates { self.new.lates ≡ self.old.lates }
    {
        self.around.push(self.next)?;
        self.next = first;
        Ok(())
    }

    /// Ends the text of a string, or notes that it isn't UTF-8.
    fn end_string(&mut self, string: OpenString) -> Result
        ensures next { self.new.next ≡ self.old.next }
        ensures around { self.new.around ≡ self.old.around }
        ensures lates { self.new.lates ≡ self.old.lates }
        ensures bad { OnOk result (self.new.bad ≡ pure.lowest_with self.old.bad string (drop string.start self.old.out.items)) }
        ensures out { OnOk result (self.new.bad ≡ None → self.new.out.items ≡ self.old.out.items ++ pure.string_end string.kind string.width string.len) }
    {
        if !is_good(string.kind, written_from(string.start, &self.out)) {
            self.bad = Some(least(self.bad, string.place));
        }
        if self.bad.is_some() {
            self.out.clear();
            return Ok(());
        }
        push_string_end(string.kind, string.width, string.len, &mut self.out)
    }
}

impl Visitor for Notator {
    ghost holds = { IsHeld };

    ghost takes_memory = { Unit {0} };

    fn integer(&mut self, _place: u64, negative: bool, width: Width, n: u64) -> Result {
        if self.bad.is_none() {
            self.begin()?;
            push_integer(negative, width, n, &mut self.out)?;
        }
        self.next = self.next.after();
        Ok(())
    }

    fn simple(&mut self, _place: u64, n: u8) -> Result {
        if self.bad.is_none() {
            self.begin()?;
            push_simple(n, &mut self.out)?;
        }
        self.next = self.next.after();
        Ok(())
    }

    fn open_array(&mut self, _place: u64, size: Size, count: Option<u64>) -> Result {
        self.open(b'[', size, count, first_in(false, size, count))
    }

    fn open_map(&mut self, _place: u64, size: Size, count: Option<u64>) -> Result {
        self.open(b'{', size, count, first_in(true, size, count))
    }

    fn open_tag(&mut self, _place: u64, width: Width, n: u64) -> Result {
        if self.bad.is_none() {
            self.begin()?;
            push_tag(width, n, &mut self.out)?;
        }
        self.enter(Next::Content)
    }

    fn open_chunks(&mut self, _place: u64, kind: StringKind) -> Result {
        if self.bad.is_none() {
            self.begin()?;
        }
        self.enter(Next::FirstChunk(kind))
    }

    fn close(&mut self) -> Result {
        if self.bad.is_none() {
            self.end()?;
        }
        if let Some(around) = self.around.pop() {
            self.next = around.after();
        }
        Ok(())
    }

    fn open_string(&mut self, place: u64, kind: StringKind, width: Width, len: u64) -> Result {
        self.begin()?;
        push_quote(kind, &mut self.out)?;
        let start = self.out.len();
        self.string = Some(OpenString {
            place,
            kind,
            width,
            len,
            start,
        });
        Ok(())
    }

    fn part(&mut self, bytes: &[u8]) -> Result {
        match self.string {
            Some(string) => push_content(string.kind, bytes, &mut self.out),
            None => Ok(()),
        }
    }

    fn close_string(&mut self) -> Result {
        if let Some(string) = self.string {
            self.end_string(string)?;
        }
        self.next = self.next.after();
        Ok(())
    }
}

/// What comes first in a map, or else in an array.
#[inline(always)]
fn first_in(is_map: bool, size: Size, count: Option<u64>) -> Next
    ensures array { (place : ℕ) → is_map ≡ false → result ≡ pure.first (an_array place size count) }
    ensures map { (place : ℕ) → is_map ≡ true → result ≡ pure.first (a_map place size count) }
{
    match (size, count) {
        (Size::Fixed(_), None) if is_map => Next::FirstLateKey,
        (Size::Fixed(_), None) => Next::FirstLateElement,
        _ if is_map => Next::FirstKey,
        _ => Next::FirstElement,
    }
}

/// Inserts the indicator of an array or a map that ends. What follows its bracket is moved.
fn insert_size(late: Late, out: &mut Vec<u8>) -> Result
    ensures { OnOk result ((x y : List ℕ) → out.old.items ≡ x ++ y → late.at ≡ length x → out.new.items ≡ x ++ (pure.late_size late.width late.count ++ y)) }
{
    let end = out.len();
    if late.at > end {
        return Ok(());
    }
    let size = ended_size(Size::Fixed(late.width), None, late.count);
    push_size(size, Some(late.count), out)?;
    out[late.at..].rotate_left(end - late.at);
    Ok(())
}

/// What was written from the index `start` on.
#[inline(always)]
fn written_from(start: usize, out: &[u8]) -> &[u8]
    ensures { result.now ≡ drop start out.now }
{
    if start > out.len() {
        return &[];
    }
    &out[start..]
}

/// The lower of two places.
fn least(place: Option<u64>, other: u64) -> u64
    ensures { result ≡ pure.least place other }
{
    match place {
        Some(place) => place.min(other),
        None => other,
    }
}
