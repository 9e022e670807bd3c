//! What standard error gets besides the line of a trouble: explanations, where they are asked for, and
//! the hint that an input looks like a text. A person at a terminal gets the hint without asking.

use crate::inputs::{Kept, Noted, Notes, Side};
use crate::lines::{Answer, DONE, FileName, REFUSED, Trouble, status_of_fault};
use crate::requests::{Action, System, Task};
use cborn_engine::{CompareCountFault, CountFault, EngineFault, Kind};
use cborn_explain::{
    Hint, Look, explain_comparison, explain_defect, explain_fault, hint_of, place_of,
};
use cborn_model::{KeyOrder, Limit};
use std::alloc::{AllocError, Global};
use std::fs;
use std::rt::Files;

/// The line of an explanation for which memory is refused.
const OUT_OF_MEMORY: &str = "  out of memory\n";

/// The lines so far, and which lines are wanted.
#[derive(Drop)]
pub struct Remarks<'a> {
    pub alloc: Global,
    /// Whether a person reads them.
    is_person: bool,
    /// The file that they are on, where it is one of several.
    file: Option<&'a str>,
    limit: Limit,
    /// Whether lines that say where and why are wanted.
    explain: bool,
    /// The lines that are to be printed.
    pub lines: String,
}

impl<'a> Remarks<'a> {
    /// No lines yet, for a task.
    pub fn new<F>(system: &System<'_, F>, task: &Task<'a>) -> Self {
        Remarks {
            alloc: system.alloc,
            is_person: system.is_person,
            file: task.named,
            limit: task.limit,
            explain: task.explain,
            lines: String::new(system.alloc),
        }
    }

    /// A reader with notes of what has to be kept of it.
    pub fn noted<R>(&self, inner: R, side: Side, kind: Kind) -> Noted<R> {
        let kept = if self.explain {
            Kept::Whole(Ok(Vec::new(self.alloc)))
        } else if self.is_person && kind == Kind::Wire {
            Kept::Look(Look::new())
        } else {
            Kept::Nothing
        };
        let notes = Notes { side, kind, kept };
        Noted { inner, notes }
    }

    /// Adds the hint for a person that the file which a read or a write failed of is a folder.
    pub fn on_failure<F: Files>(&mut self, files: &F, task: &Task<'_>, trouble: Trouble<'_>) {
        if let Some(text) = failed_file(task, trouble)
            && self.is_person
            && fs::metadata(files, text).is_ok_and(|found| found.is_dir())
        {
            let name = FileName { text };
            self.add_hint(format!(in self.alloc; "cborn: hint: {name} is a folder\n"));
        }
    }

    /// Adds lines on why an input is refused, or the hint on what it looks like.
    pub fn on_fault(&mut self, notes: &Notes, fault: CountFault) {
        let lines = match &notes.kept {
            Kept::Look(look) if status_of_fault(fault) == REFUSED => return self.hint(notes, *look),
            Kept::Whole(Ok(bytes)) => explain_fault(
                self.alloc, self.limit, notes.kind, bytes, fault,
            ),
            Kept::Whole(Err(refused)) if place_of(fault).is_some() => Err(*refused),
            _ => return,
        };
        self.add(lines);
    }

    /// Adds lines on why an input isn't deterministic, where that was the answer and the input was kept.
    /// Else it adds the hint on what the input looks like.
    pub fn on_answer(&mut self, notes: &Notes, answer: Option<Answer>) {
        let lines = match (&notes.kept, answer) {
            (Kept::Whole(Ok(bytes)), Some(Answer::Defective(defect))) => explain_defect(
                self.alloc, self.limit, bytes, defect,
            ),
            (Kept::Whole(Err(refused)), Some(Answer::Defective(_))) => Err(*refused),
            _ => return self.on_kind(notes),
        };
        self.add(lines);
    }

    /// Adds lines on where two inputs differ and the hints on what they look like. Where one is refused,
    /// it adds lines on why, or a hint.
    pub fn on_comparison<O: KeyOrder>(
        &mut self,
        (first, second): (&Notes, &Notes),
        reported: Result<u8, Trouble<'_>>,
    ) {
        match reported {
            Ok(status) => {
                self.on_compared::<O>(first, second, status == DONE);
                self.on_kind(first);
                self.on_kind(second);
            }
            Err(Trouble::Compare(CompareCountFault::First(fault))) => self.on_fault(first, fault),
            Err(Trouble::Compare(CompareCountFault::Second(fault))) => {
                if !self.explain {
                    self.on_kind(first);
                }
                self.on_fault(second, fault);
            }
            Err(_) => {}
        }
    }

    /// Adds lines on where two inputs differ, in their items or in how these are encoded.
    fn on_compared<O: KeyOrder>(&mut self, first: &Notes, second: &Notes, are_same: bool) {
        let (alloc, limit, kinds) = (self.alloc, self.limit, (first.kind, second.kind));
        let lines = match (&first.kept, &second.kept) {
            (Kept::Whole(Ok(first)), Kept::Whole(Ok(second))) => explain_comparison::<O>(
                alloc,
                limit,
                kinds,
                (first, second),
                are_same,
            ),
            (Kept::Whole(Err(refused)), _) | (_, Kept::Whole(Err(refused))) => Err(*refused),
            _ => return,
        };
        self.add(lines);
    }

    /// Adds the hint on what an input that isn't refused looks like. Where it wasn't kept, that is left out
    /// if its last byte ends no line, unless it looks like hexadecimal: bytes may look like a text by chance.
    fn on_kind(&mut self, notes: &Notes) {
        match &notes.kept {
            Kept::Look(look) if look.ends_line() || look.hint() == Some(Hint::Hexadecimal) => {
                self.hint(notes, *look);
            }
            Kept::Whole(Ok(bytes)) if notes.kind == Kind::Wire => {
                if let Some(hint) = hint_of(bytes) {
                    let (name, words) = (words_for(notes.side).1, hint.words());
                    self.add(format!(in self.alloc; "  hint  {name} {words}\n"));
                }
            }
            Kept::Whole(Err(refused)) if notes.kind == Kind::Wire => self.add(Err(*refused)),
            _ => {}
        }
    }

    /// Adds the hint on an input, if there is one.
    fn hint(&mut self, notes: &Notes, look: Look) {
        if let Some(hint) = look.hint() {
            let line = match self.file {
                Some(text) => {
                    let name = FileName { text };
                    format!(in self.alloc; "cborn: {name}: hint: {hint}\n")
                }
                None => {
                    let place = words_for(notes.side).0;
                    format!(in self.alloc; "cborn: {place}hint: {hint}\n")
                }
            };
            self.add_hint(line);
        }
    }

    /// Adds the line of a hint. It is left out where memory for it is refused.
    fn add_hint(&mut self, hint: Result<String, AllocError>) {
        if let Ok(line) = hint {
            let _ = self.lines.push_str(line.as_str());
        }
    }

    /// Adds an explanation, or that there is no memory for it.
    fn add(&mut self, explanation: Result<String, AllocError>) {
        let is_added = explanation.is_ok_and(|text| self.lines.push_str(text.as_str()).is_ok());
        // of an input that wasn't kept both the explanation and the hint are missing
        if !is_added && !self.lines.as_str().ends_with(OUT_OF_MEMORY) {
            let _ = self.lines.push_str(OUT_OF_MEMORY);
        }
    }
}

/// The front of a line on an input, and the words for it in a sentence.
fn words_for(side: Side) -> (&'static str, &'static str) {
    match side {
        Side::Only => ("", "the input"),
        Side::First => ("first: ", "the first input"),
        Side::Second => ("second: ", "the second input"),
    }
}

/// The name of the file that a read or a write failed of, where one was named.
fn failed_file<'a>(task: &Task<'a>, trouble: Trouble<'_>) -> Option<&'a str> {
    let (fault, is_second) = match trouble {
        Trouble::Engine(CountFault::Engine(fault))
        | Trouble::Compare(CompareCountFault::First(CountFault::Engine(fault))) => (fault, false),
        Trouble::Compare(CompareCountFault::Second(CountFault::Engine(fault))) => (fault, true),
        _ => return None,
    };
    match (fault, task.action) {
        (EngineFault::WriteFault, _) => task.output,
        (EngineFault::ReadFault, Action::Read { file, .. }) => file,
        (EngineFault::ReadFault, Action::Compare { first, second }) => {
            Some(if is_second { second.name } else { first.name })
        }
        _ => None,
    }
}
