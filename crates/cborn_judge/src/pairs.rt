//! The pairs of the maps that are open while items are encoded.

ghost use Rattle.std.specs.Prelude.{◌≡◌, ◌++◌, ◌∷◌};
ghost use Rattle.cborn_judge.specs.Common.{ℕ, List, [], length, map, take, drop, None, IfOk, IfSome, OnOk, joined};
ghost use Rattle.cborn_judge.specs.shared.Judged.{FindsFlaw};
ghost use Rattle.cborn_judge.specs.devices.Encoding.{Row, row_entries, Mark as Marked, AreMarked, AreFilled, AreArranged, RowRepeat, FindsDescent};
ghost use Rattle.cborn_judge.specs.devices.Marks.{mark_of, narrow_of, marks_of, AreAllHinted};

use crate::defects::Defect;
use crate::faults::Flaw;
use crate::marks::{Mark, NarrowMark, Spot, arrange, descent};
use cborn_model::{KeyOrder, Result};
use std::alloc::Global;

/// Marks of pairs. They are narrow until the offsets of one don't fit 32 bits.
#[derive(Drop)]
pub(crate) enum Marks {
    Narrow(Vec<NarrowMark>),
    Wide(Vec<Mark>),
}

/// Where the pairs of the maps that are open lie in a buffer, those of the innermost map last.
#[derive(Drop)]
pub(crate) struct Pairs {
    alloc: Global,
    pub(crate) marks: Marks,
}

impl Pairs {
    /// No pairs. Takes no memory.
    pub(crate) fn new(alloc: Global) -> Pairs
        ensures { marks_of result ≡ [] }
    {
        let marks = Marks::Narrow(Vec::new(alloc));
        Pairs { alloc, marks }
    }

    /// How many pairs are marked.
    #[inline(always)]
    pub(crate) fn len(&self) -> usize
        ensures { result ≡ length (marks_of self.now) }
    {
        match &self.marks {
            Marks::Narrow(narrow) => narrow.len(),
            Marks::Wide(wide) => wide.len(),
        }
    }

    /// How many pairs are marked from the index `from` on.
    #[inline(always)]
    pub(crate) fn count_from(&self, from: usize) -> u64
        ensures { result ≡ length (drop from (marks_of self.now)) }
    {
        self.len().saturating_sub(from) as u64
    }

    /// Marks where the value of the last key ends.
    #[inline(always)]
    pub(crate) fn set_end(&mut self, end: usize) -> Result<()>
        ensures { OnOk result ((ms : List Marked) (p s m e : ℕ) → marks_of self.old ≡ ms ++ (p, s, m, e) ∷ [] → marks_of self.new ≡ ms ++ (p, s, m, end) ∷ []) }
    {
        if let Marks::Narrow(narrow) = &mut self.marks {
            if let Some(last) = narrow.last_mut() {
                if last.set_end(end) {
                    return Ok(());
                }
            }
        }
        self.set_wide_end(end)
    }

    /// What [`Pairs::set_end`] does where marks are wide, or have to become so.
    #[inline(never)]
    fn set_wide_end(&mut self, end: usize) -> Result<()>
        ensures { OnOk result ((ms : List Marked) (p s m e : ℕ) → marks_of self.old ≡ ms ++ (p, s, m, e) ∷ [] → marks_of self.new ≡ ms ++ (p, s, m, end) ∷ []) }
    {
        if let Some(mark) = self.pop() {
            self.add(Mark { end, ..mark })?;
        }
        Ok(())
    }

    /// Marks a key and its value, which is empty while it is missing. There is room as a rule.
    #[inline(never)]
    pub(crate) fn push_pair(
        &mut self,
        place: u64,
        start: usize,
        middle: usize,
        end: usize,
    ) -> Result<()>
        ensures { OnOk result (marks_of self.new ≡ marks_of self.old ++ (place, start, middle, end) ∷ []) }
    {
        if let Marks::Narrow(narrow) = &mut self.marks {
            if narrow.len() != narrow.capacity() {
                if let Some(mark) = NarrowMark::of(place, start, middle, end) {
                    narrow.push(mark)?;
                    return Ok(());
                }
            }
        }
        self.push_mark(place, start, middle, end)
    }

    /// What [`Pairs::push_pair`] does otherwise.
    #[inline(never)]
    fn push_mark(&mut self, place: u64, start: usize, middle: usize, end: usize) -> Result<()>
        ensures { OnOk result (marks_of self.new ≡ marks_of self.old ++ (place, start, middle, end) ∷ []) }
    {
        let hint = 0;
        self.add(Mark {
            place,
            start,
            middle,
            end,
            hint,
        })
    }

    /// Drops all pairs but the first `len`.
    #[inline(always)]
    pub(crate) fn truncate(&mut self, len: usize)
        ensures { marks_of self.new ≡ take len (marks_of self.old) }
    {
        match &mut self.marks {
            Marks::Narrow(narrow) => narrow.truncate(len),
            Marks::Wide(wide) => wide.truncate(len),
        }
    }

    /// The first defect of the order of the pairs in `out` marked from `from` on; without one
    /// their keys rise. A key without an encoding is passed over. Each mark gets its hint.
    pub(crate) fn descent<O: KeyOrder>(&mut self, from: usize, out: &[u8]) -> Option<Defect>
        ensures found { (start : ℕ) → FindsDescent O.order start (drop from (marks_of self.old)) out.now result }
        ensures hinted { AreAllHinted O.order out.now from self.new.marks }
        ensures kept { marks_of self.new ≡ marks_of self.old }
    {
        match &mut self.marks {
            Marks::Narrow(narrow) => descent::<O, NarrowMark>(narrow, from, out),
            Marks::Wide(wide) => descent::<O, Mark>(wide, from, out),
        }
    }

    /// Arranges the pairs that are marked from `from` on, and lie in `out` from `start` on, so that
    /// their keys rise, and gives the first key that is the same as an earlier one. Nothing is
    /// promised of their order then, and where a key has no encoding, nor of what marks say.
    pub(crate) fn arrange<O: KeyOrder>(
        &mut self,
        from: usize,
        start: usize,
        spare: &mut Vec<u8>,
        out: &mut Vec<u8>,
    ) -> Result<Option<Flaw>>
        requires { AreAllHinted O.order out.old.items from self.old.marks }
        ensures repeat { IfOk result (λ flaw. (y : List ℕ) (rows : List Row) → start ≡ length y → out.old.items ≡ y ++ joined (row_entries rows) → AreMarked start rows (drop from (marks_of self.old)) → FindsFlaw (RowRepeat rows) flaw) }
        ensures arranged { IfOk result (λ flaw. flaw ≡ None → (y : List ℕ) (rows : List Row) → start ≡ length y → out.old.items ≡ y ++ joined (row_entries rows) → AreMarked start rows (drop from (marks_of self.old)) → AreFilled rows → (x : List ℕ) × AreArranged O.order rows x × (out.new.items ≡ y ++ x)) }
        ensures front { OnOk result ((y z : List ℕ) → start ≡ length y → out.old.items ≡ y ++ z → (x : List ℕ) × (out.new.items ≡ y ++ x)) }
        ensures before { take from (marks_of self.new) ≡ take from (marks_of self.old) }
    {
        match &mut self.marks {
            Marks::Narrow(narrow) => arrange::<O, NarrowMark>(narrow, from, start, spare, out),
            Marks::Wide(wide) => arrange::<O, Mark>(wide, from, start, spare, out),
        }
    }

    /// Adds a mark.
    fn add(&mut self, mark: Mark) -> Result<()>
        ensures { OnOk result (marks_of self.new ≡ marks_of self.old ++ mark_of mark ∷ []) }
    {
        let Some(small) = NarrowMark::of(mark.place, mark.start, mark.middle, mark.end) else {
            return self.add_wide(mark);
        };
        match &mut self.marks {
            Marks::Narrow(narrow) => narrow.extend_from_slice(&[small])?,
            Marks::Wide(wide) => wide.push(mark)?,
        }
        Ok(())
    }

    /// Adds a mark whose offsets don't fit 32 bits. All are wide from then on.
    #[inline(never)]
    fn add_wide(&mut self, mark: Mark) -> Result<()>
        ensures { OnOk result (marks_of self.new ≡ marks_of self.old ++ mark_of mark ∷ []) }
    {
        match &mut self.marks {
            Marks::Narrow(narrow) => {
                let wide = widened(self.alloc, narrow, mark)?;
                self.marks = Marks::Wide(wide);
            }
            Marks::Wide(wide) => wide.push(mark)?,
        }
        Ok(())
    }

    /// Takes the last mark, if there is one.
    #[inline(always)]
    fn pop(&mut self) -> Option<Mark>
        ensures some { IfSome result (λ mark. marks_of self.old ≡ marks_of self.new ++ mark_of mark ∷ []) }
        ensures none { result ≡ None → marks_of self.old ≡ [] }
    {
        match &mut self.marks {
            Marks::Narrow(narrow) => Some(narrow.pop()?.mark()),
            Marks::Wide(wide) => wide.pop(),
        }
    }
}

/// These marks and one more, all of them wide.
fn widened(alloc: Global, narrow: &[NarrowMark], last: Mark) -> Result<Vec<Mark>>
    ensures { IfOk result (λ wide. map mark_of wide.items ≡ map narrow_of narrow.now ++ mark_of last ∷ []) }
{
    let mut wide = Vec::with_capacity(alloc, narrow.len())?;
    for mark in narrow {
        wide.push(mark.mark())?;
    }
    wide.push(last)?;
    Ok(wide)
}
