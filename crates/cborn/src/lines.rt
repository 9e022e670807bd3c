//! The lines that the program prints, and its exit statuses.
ghost use Rattle.std.specs.Prelude.{◌≡◌, ◌≤◌, ◌⊎◌, IfOk, IfErr, OnOk};
ghost use Rattle.cborn.specs.Statuses.{of_file, status_of_answer, status_of_fault, status_of_trouble};
ghost use Rattle.cborn_engine.specs.declared.EngineFault.TheVariants as fault;
ghost use Rattle.cborn_engine.specs.declared.CountFault.TheVariants as counted;
ghost use Rattle.cborn.specs.declared.lines.Trouble.TheVariants as trouble;

use crate::requests::Task;
use cborn_engine::{CompareCountFault, CountFault, Counted, EngineFault};
use cborn_explain::Escaped;
use cborn_judge::Defect;
use clap::Error;
use clap::error::ErrorKind;
use itoa::Buffer;
use std::alloc::{AllocError, Global};
use std::fmt::{Display, Formatter};
use std::io::Write;
use std::{fmt, io};

/// Done, the inputs hold the same items, or the input is deterministic.
pub const DONE: u8 = 0;
/// The inputs hold different items, or the input isn't deterministic.
pub const DIFFERENT: u8 = 1;
/// An input is refused.
pub const REFUSED: u8 = 2;
/// The command line is wrong.
pub const USAGE: u8 = 3;
/// A file can't be opened, a read or a write failed, or out of memory.
pub const FAILED: u8 = 4;

/// The name of a file. It displays with its characters escaped, since it may hold any, and with the
/// backslash escaped too: a name that has one doesn't look like another whose characters are escaped.
#[derive(Clone, Copy)]
pub struct FileName<'a> {
    pub text: &'a str,
}

impl Display for FileName<'_> {
    fn fmt<W: fmt::Write>(&self, f: &mut Formatter<W>) -> fmt::Result {
        for (index, piece) in self.text.split('\\').enumerate() {
            if index > 0 {
                write!(f, "\\u005c")?;
            }
            write!(f, "{}", Escaped { text: piece })?;
        }
        Ok(())
    }
}

/// The fault of a write or a flush.
pub const UNWRITTEN: CountFault = CountFault::Engine(EngineFault::WriteFault);

/// Why a task wasn't done.
#[derive(Clone, Copy)]
pub enum Trouble<'a> {
    /// The file of this name can't be opened. First comes which of two files it is, as the line says it;
    /// of an only file that is empty.
    CannotRead(&'a str, &'a str),
    /// The engine reported a fault.
    Engine(CountFault),
    /// The engine reported a fault of one of two inputs.
    Compare(CompareCountFault),
    /// The engine reported a fault of the file of this name, one of several.
    OfFile(&'a str, CountFault),
}

impl<'a> Trouble<'a> {
    /// This trouble with `name`, the name of the file that was read: a fault of the engine becomes
    /// `OfFile`. A failed write, and a trouble that names its file, are given back as they are. The
    /// exit status stays the same.
    pub fn of_file(self, name: &'a str) -> Trouble<'a>
        ensures trouble { result ≡ of_file name.entry self.entry }
        ensures status { status_of_trouble result ≡ status_of_trouble self.entry }
    {
        match self {
            Trouble::Engine(CountFault::Engine(EngineFault::WriteFault)) => self,
            Trouble::Engine(fault) => Trouble::OfFile(name, fault),
            _ => self,
        }
    }
}

impl From<CountFault> for Trouble<'_> {
    ghost from_gives = { λ why gave. gave ≡ trouble.Engine why };

    fn from(fault: CountFault) -> Self {
        Trouble::Engine(fault)
    }
}

/// What a command prints in a line on standard output.
#[derive(Clone, Copy)]
pub enum Answer {
    /// The inputs hold the same items.
    Same,
    /// They differ first at the item with this index, from 0, or only one of them has it.
    DifferentAt(u64),
    /// The input is deterministic.
    Deterministic,
    /// The input isn't deterministic, and this is its first defect.
    Defective(Defect),
}

impl Display for Answer {
    fn fmt<W: fmt::Write>(&self, f: &mut Formatter<W>) -> fmt::Result {
        let mut digits = Buffer::new();
        match self {
            Answer::Same => write!(f, "same"),
            Answer::DifferentAt(index) => write!(f, "different at item {}", digits.format(*index)),
            Answer::Deterministic => write!(f, "deterministic"),
            Answer::Defective(defect) => {
                let place = digits.format(defect.place);
                write!(f, "offset {place}: {}", defect.reason)
            }
        }
    }
}

/// Prints an answer on a line and flushes it. Answers the exit status that goes with it: 0 or 1. After the
/// name of a file the line is one write, so that the lines of programs side by side don't mix.
pub fn tell_answer<'a, W: Write>(
    alloc: Global,
    out: &mut Counted<W>,
    name: Option<&str>,
    answer: Answer,
) -> Result<u8, Trouble<'a>>
    ensures status { IfOk result (λ status. status ≡ status_of_answer answer) }
    ensures flushed { OnOk result (out.new.unflushed ≡ 0) }
    ensures trouble { IfErr result (λ why. status_of_trouble why ≡ FAILED) }
{
    match name {
        None => print(out, &answer, "\n")?,
        Some(text) => {
            let line = format!(in alloc; "{}: {answer}\n", FileName { text });
            print(out, &line.map_err(CountFault::from)?, "")?
        }
    }
    Ok(match answer {
        Answer::Same | Answer::Deterministic => DONE,
        Answer::DifferentAt(_) | Answer::Defective(_) => DIFFERENT,
    })
}

/// Prints `text` and then `end`, and flushes.
fn print<W: Write, T: Display>(out: &mut Counted<W>, text: &T, end: &str) -> Result<(), CountFault>
    ensures flushed { OnOk result (out.new.unflushed ≡ 0) }
    ensures fault { IfErr result (λ why. why ≡ counted.Engine fault.WriteFault) }
{
    if write!(out, "{text}{end}").is_err() || out.flush().is_err() {
        return Err(UNWRITTEN);
    }
    Ok(())
}

/// Prints a trouble on a line and `lines` after it, and answers its exit status: 2 or more. A write
/// that fails is ignored, but `lines` aren't printed where the trouble couldn't be.
pub fn tell_trouble<E: Write>(err: &mut E, trouble: Trouble<'_>, lines: &str) -> u8
    ensures status { result ≡ status_of_trouble trouble.entry }
    ensures undone { 2 ≤ result }
{
    if print_trouble(err, trouble).is_ok() {
        print_lines(err, lines);
    }
    status_of_trouble(trouble)
}

/// Prints the lines on a task that is done: explanations of one of several files after its name, or hints,
/// which have it. A write that fails is ignored.
pub fn print_remarks<E: Write>(err: &mut E, task: &Task<'_>, lines: &str) {
    match task.named {
        Some(text) if task.explain && !lines.is_empty() => {
            let _ = write!(err, "  file  {}\n{lines}", FileName { text });
        }
        _ => print_lines(err, lines),
    }
}

/// Prints lines, if there are any. A write that fails is ignored.
fn print_lines<E: Write>(err: &mut E, lines: &str) {
    if !lines.is_empty() {
        let _ = write!(err, "{lines}");
    }
}

fn print_trouble<E: Write>(err: &mut E, trouble: Trouble<'_>) -> io::Result<()> {
    match trouble {
        Trouble::CannotRead(which, text) => {
            writeln!(err, "cborn: {which}cannot read {}", FileName { text })
        }
        Trouble::Engine(fault) => writeln!(err, "cborn: {fault}"),
        Trouble::Compare(fault) => writeln!(err, "cborn: {fault}"),
        Trouble::OfFile(text, fault) => writeln!(err, "cborn: {}: {fault}", FileName { text }),
    }
}

fn status_of_trouble(trouble: Trouble<'_>) -> u8
    ensures status { result ≡ status_of_trouble trouble.entry }
    ensures undone { 2 ≤ result }
{
    match trouble {
        Trouble::Engine(fault)
        | Trouble::OfFile(_, fault)
        | Trouble::Compare(CompareCountFault::First(fault))
        | Trouble::Compare(CompareCountFault::Second(fault)) => status_of_fault(fault),
        _ => FAILED,
    }
}

/// The exit status of a fault: 2 where an input is refused, else 4.
pub fn status_of_fault(fault: CountFault) -> u8
    ensures status { result ≡ status_of_fault fault }
    ensures undone { 2 ≤ result }
{
    match fault {
        CountFault::Engine(EngineFault::ReadFault | EngineFault::WriteFault) => FAILED,
        CountFault::Engine(EngineFault::OutOfMemory) => FAILED,
        _ => REFUSED,
    }
}

/// Prints why the command line gives no task: help or the version to `out`, a mistake to `err`. Answers
/// the exit status.
pub fn tell_usage<W: Write, E: Write>(
    alloc: Global,
    why: &Error,
    out: &mut Counted<W>,
    err: &mut E,
) -> u8
    ensures status { result ≤ 4 }
    ensures refused { result ≡ REFUSED → out.new ≡ out.old }
    ensures usage { result ≡ USAGE → out.new ≡ out.old }
    ensures flushed { result ≤ 1 → out.new.unflushed ≡ 0 }
{
    let text = match text_of(alloc, why) {
        Ok(text) => text,
        Err(refused) => return tell_trouble(err, Trouble::from(CountFault::from(refused)), ""),
    };
    if why.use_stderr() {
        print_lines(err, &text);
        return USAGE;
    }
    match print(out, &text, "") {
        Ok(()) => DONE,
        Err(failed) => tell_trouble(err, Trouble::from(failed), ""),
    }
}

/// Help, the version, or what is wrong with the command line. The lines of a mistake are escaped,
/// since they may quote an argument, which may hold any character.
fn text_of(alloc: Global, why: &Error) -> Result<String, AllocError> {
    if why.kind() == ErrorKind::OutOfMemory {
        return Err(AllocError);
    }
    let text = format!(in alloc; "{why}")?;
    if !why.use_stderr() {
        return Ok(text);
    }
    let mut lines = String::new(alloc);
    for line in text.lines() {
        let line = Escaped { text: line };
        writeln!(lines, "{line}")?;
    }
    Ok(lines)
}

/// Prints why the words of the command line can't be had. Answers the exit status: 3 where a word isn't
/// UTF-8, else 4. A write that fails is ignored.
pub fn tell_words<E: Write>(err: &mut E, why: io::Error) -> u8
    ensures { (result ≡ USAGE) ⊎ (result ≡ FAILED) }
{
    if why.kind() == io::ErrorKind::InvalidData {
        let _ = writeln!(err, "error: an argument is not UTF-8");
        return USAGE;
    }
    let _ = writeln!(err, "cborn: {why}");
    FAILED
}
