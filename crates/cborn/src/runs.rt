//! A run of the program: of one command, or of several files that are checked.
ghost use Rattle.std.specs.Prelude.{◌≡◌, ◌≢◌, ◌≤◌, ◌⊎◌, IfOk, IfErr, OnOk, None};
ghost use Rattle.cborn_engine.specs.declared.EngineFault.TheVariants as fault;
ghost use Rattle.cborn_engine.specs.declared.CountFault.TheVariants as counted;
ghost use Rattle.cborn.specs.Statuses.{status_of_fault, IsRefusal};
ghost use Rattle.cborn.specs.Words.{IsCheckOfFiles};

use crate::inputs::{LateFile, Side};
use crate::lines::{
    Answer, DONE, REFUSED, Trouble, UNWRITTEN, USAGE, print_remarks, tell_answer, tell_trouble,
    tell_usage,
};
use crate::options::read_request;
use crate::remarks::Remarks;
use crate::requests::{Action, Named, Order, Purpose, Request, System, Task};
use crate::saved::SavedFile;
use cborn_engine::{
    CompareCountFault, CountFault, Counted, Source, check_stream, compare_streams,
    normalise_stream, show_stream,
};
use cborn_model::{Bytewise, KeyOrder, LengthFirst};
use std::alloc::Global;
use std::io::{IsTerminal, Read, Write};
use std::rt::Files;
use std::{fs, io};

/// Runs the program with the files of `rt`. Answers its exit status, from 0 to 4. The first of `words`
/// is the program's name. Standard output is `out`. Where the command line is wrong or an input is
/// refused, nothing is written to it, but for what `check` of several files says of the others. Where
/// `err` is a terminal, hints may go there, such as that CBOR bytes go to a terminal.
pub fn run<F: Files, I: Read + Drop, W: Write + IsTerminal, E: Write + IsTerminal + Drop>(
    rt: &F,
    alloc: Global,
    words: &[&str],
    input: I,
    out: &mut Counted<W>,
    mut err: E,
) -> u8
    ensures status { result ≤ 4 }
    ensures refused { result ≡ REFUSED → (out.new ≡ out.old) ⊎ IsCheckOfFiles words.now }
    ensures usage { result ≡ USAGE → out.new ≡ out.old }
    ensures flushed { result ≤ 1 → out.new.unflushed ≡ 0 }
{
    let system = System {
        files: rt,
        alloc,
        is_person: err.is_terminal(),
    };
    let request = match read_request(alloc, words) {
        Ok(request) => request,
        Err(why) => return tell_usage(alloc, &why, out, &mut err),
    };
    if system.is_person && request.task.prints_bytes() && out.is_terminal() {
        let _ = writeln!(
            err,
            "cborn: hint: the answer is bytes: -o FILE writes them to a file, and --to notation makes a text of them"
        );
    }
    if request.others.is_empty() {
        run_task(&system, &request.task, input, out, &mut err).0
    } else {
        check_files(&system, &request, out, &mut err)
    }
}

/// Checks the file of a request and then the others, and prints a line for each: to `out` whether it is
/// deterministic, or to `err` why that can't be said. Answers the worst of their exit statuses. Once `out`
/// fails, no further file is checked.
#[inline(never)]
fn check_files<F: Files, W: Write, E: Write>(
    system: &System<'_, F>,
    request: &Request<'_>,
    out: &mut Counted<W>,
    err: &mut E,
) -> u8
    ensures status { result ≤ 4 }
    ensures usage { result ≢ USAGE }
    ensures flushed { result ≤ 1 → out.new.unflushed ≡ 0 }
{
    let (mut worst, mut is_over) = run_task(system, &request.task, io::empty(), out, err);
    for name in &request.others {
        if is_over {
            break;
        }
        let task = Task {
            action: Action::Read {
                file: Some(name),
                purpose: Purpose::Check,
            },
            named: Some(name),
            ..request.task
        };
        let (status, failed) = run_task(system, &task, io::empty(), out, err);
        worst = worst.max(status);
        is_over = failed;
    }
    worst
}

/// Does a task. Answers its exit status, and whether a write to where its answer goes failed.
fn run_task<F: Files, I: Read + Drop, W: Write, E: Write>(
    system: &System<'_, F>,
    task: &Task<'_>,
    input: I,
    out: &mut Counted<W>,
    err: &mut E,
) -> (u8, bool)
    ensures status { result.0 ≤ 4 }
    ensures refused { result.0 ≡ REFUSED → out.new ≡ out.old }
    ensures usage { result.0 ≢ USAGE }
    ensures flushed { result.0 ≤ 1 → out.new.unflushed ≡ 0 }
{
    let mut remarks = Remarks::new(system, task);
    let trouble = match perform_to(system, task, input, out, &mut remarks) {
        Ok(status) => {
            print_remarks(err, task, remarks.lines.as_str());
            return (status, false);
        }
        Err(trouble) => trouble,
    };
    remarks.on_failure(system.files, task, trouble);
    let failed = matches!(trouble, Trouble::Engine(fault) if fault == UNWRITTEN);
    let why = match task.named {
        Some(name) => trouble.of_file(name),
        None => trouble,
    };
    (tell_trouble(err, why, remarks.lines.as_str()), failed)
}

/// Does a task as `perform` does it. Where it names a file for its answer, that goes there once it is
/// whole, and nothing is written to `out`. Whatever is refused or fails, that file stays as it was.
fn perform_to<'a, F: Files, I: Read + Drop, W: Write>(
    system: &System<'_, F>,
    task: &Task<'a>,
    input: I,
    out: &mut Counted<W>,
    remarks: &mut Remarks<'_>,
) -> Result<u8, Trouble<'a>>
    ensures status { IfOk result (λ status. status ≤ 1) }
    ensures untouched { IfErr result (λ why. IsRefusal why → out.new ≡ out.old) }
    ensures flushed { OnOk result (out.new.unflushed ≡ 0) }
{
    let Some(name) = task.output else {
        return perform(system, task, input, out, remarks);
    };
    let mut file = SavedFile::new(system.files, system.alloc, name);
    let done = perform(system, task, input, &mut Counted::new(&mut file), remarks);
    match done {
        Ok(status) => {
            finish(&mut file, out)?;
            Ok(status)
        }
        Err(trouble) => {
            file.discard();
            Err(trouble)
        }
    }
}

/// Puts a file in its place, after standard output, to which nothing of it went, is flushed. Where that
/// fails, the file stays as it was.
#[inline(never)]
fn finish<F: Files, W: Write>(
    file: &mut SavedFile<'_, '_, F>,
    out: &mut Counted<W>,
) -> Result<(), CountFault>
    ensures flushed { OnOk result (out.new.unflushed ≡ 0) }
    ensures fault { IfErr result (λ why. why ≡ counted.Engine fault.WriteFault) }
{
    if out.flush().is_err() {
        file.discard();
        return Err(UNWRITTEN);
    }
    file.finish().map_err(|_| UNWRITTEN)
}

/// Makes a call with the keys of maps in this order.
macro_rules! by_order {
    ($order:expr, $call:ident($($argument:expr),*)) => {
        match $order {
            Order::Bytewise => $call::<Bytewise, _, _>($($argument),*),
            Order::LengthFirst => $call::<LengthFirst, _, _>($($argument),*),
        }
    };
}

/// Does a task, flushes what it wrote, and answers the exit status: `DONE` or `DIFFERENT`. Adds to
/// `remarks` what standard error gets then, or gets after the line of a trouble.
fn perform<'a, F: Files, I: Read + Drop, W: Write>(
    system: &System<'_, F>,
    task: &Task<'a>,
    input: I,
    out: &mut Counted<W>,
    remarks: &mut Remarks<'_>,
) -> Result<u8, Trouble<'a>>
    ensures status { IfOk result (λ status. status ≤ 1) }
    ensures untouched { IfErr result (λ why. IsRefusal why → out.new ≡ out.old) }
    ensures flushed { OnOk result (out.new.unflushed ≡ 0) }
{
    match task.action {
        Action::Read { file, purpose } => match file {
            None => by_order!(task.order, read_for(task, purpose, input, out, remarks)),
            Some(name) => match fs::open(system.files, name) {
                Ok(file) => by_order!(task.order, read_for(task, purpose, file, out, remarks)),
                Err(_) => Err(Trouble::CannotRead("", name)),
            },
        },
        Action::Compare { first, second } => {
            let files = (first, second);
            by_order!(task.order, compare_files(system, task, files, out, remarks))
        }
    }
}

/// Reads one input, writes and flushes what is asked for, and answers the exit status: `DONE` or
/// `DIFFERENT`.
fn read_for<'a, O: KeyOrder, I: Read + Drop, W: Write>(
    task: &Task<'_>,
    purpose: Purpose,
    input: I,
    out: &mut Counted<W>,
    remarks: &mut Remarks<'_>,
) -> Result<u8, Trouble<'a>>
    ensures status { IfOk result (λ status. status ≤ 1) }
    ensures untouched { IfErr result (λ why. IsRefusal why → out.new ≡ out.old) }
    ensures flushed { OnOk result (out.new.unflushed ≡ 0) }
{
    let mut noted = remarks.noted(input, Side::Only, purpose.from());
    let reader = &mut Counted::new(&mut noted);
    let answer = match answer_for::<O, _, W>(remarks.alloc, task, purpose, reader, out) {
        Ok(answer) => answer,
        Err(fault) => {
            remarks.on_fault(&noted.notes, fault);
            return Err(Trouble::Engine(fault));
        }
    };
    let status = match answer {
        None => DONE,
        Some(answer) => tell_answer(remarks.alloc, out, task.named, answer)?,
    };
    remarks.on_answer(&noted.notes, answer);
    Ok(status)
}

/// Reads one input. Writes and flushes what is asked for, and answers `None`, or answers what is to be
/// printed.
#[tactic(auto, using(crate::proofs::Refusals::refused_is_unwritten))]
fn answer_for<O: KeyOrder, R: Source, W: Write>(
    alloc: Global,
    task: &Task<'_>,
    purpose: Purpose,
    reader: &mut R,
    out: &mut Counted<W>,
) -> Result<Option<Answer>, CountFault>
    ensures untouched { IfErr result (λ why. status_of_fault why ≡ REFUSED → out.new ≡ out.old) }
    ensures flushed { IfOk result (λ answer. answer ≡ None → out.new.unflushed ≡ 0) }
{
    let (limit, count) = (task.limit, task.count);
    match purpose {
        Purpose::Show { from, to } => {
            show_stream(alloc, limit, count, from, to, reader, out)?;
            Ok(None)
        }
        Purpose::Normalise { from, to } => {
            normalise_stream::<O, _, _>(alloc, limit, count, from, to, reader, out)?;
            Ok(None)
        }
        Purpose::Check => match check_stream::<O, _>(alloc, limit, count, reader)? {
            None => Ok(Some(Answer::Deterministic)),
            Some(defect) => Ok(Some(Answer::Defective(defect))),
        },
    }
}

/// Compares two files, prints the answer, and answers the exit status: `DONE` or `DIFFERENT`. The second
/// is opened only once the first has been read and isn't refused.
fn compare_files<'a, O: KeyOrder, F: Files, W: Write>(
    system: &System<'_, F>,
    task: &Task<'_>,
    files: (Named<'a>, Named<'a>),
    out: &mut Counted<W>,
    remarks: &mut Remarks<'_>,
) -> Result<u8, Trouble<'a>>
    ensures status { IfOk result (λ status. status ≤ 1) }
    ensures untouched { IfErr result (λ why. IsRefusal why → out.new ≡ out.old) }
    ensures flushed { OnOk result (out.new.unflushed ≡ 0) }
{
    let (first, second) = files;
    let Ok(file) = fs::open(system.files, first.name) else {
        return Err(Trouble::CannotRead("first: ", first.name));
    };
    let mut ours = remarks.noted(file, Side::First, first.kind);
    let late = LateFile::new(system.files, second.name);
    let mut theirs = remarks.noted(late, Side::Second, second.kind);
    let compared = compare_streams::<O, _, _>(
        system.alloc,
        task.limit,
        task.count,
        first.kind,
        &mut Counted::new(&mut ours),
        second.kind,
        &mut Counted::new(&mut theirs),
    );
    let missing = theirs.inner.is_missing().then_some(second.name);
    let reported = tell_comparison(system.alloc, out, compared, missing);
    remarks.on_comparison::<O>((&ours.notes, &theirs.notes), reported);
    reported
}

/// Prints the answer of a comparison, and answers the exit status: `DONE` or `DIFFERENT`. `missing` is
/// the name of the second file where it couldn't be opened.
fn tell_comparison<'a, W: Write>(
    alloc: Global,
    out: &mut Counted<W>,
    compared: Result<Option<u64>, CompareCountFault>,
    missing: Option<&'a str>,
) -> Result<u8, Trouble<'a>>
    ensures status { IfOk result (λ status. status ≤ 1) }
    ensures untouched { IfErr result (λ why. IsRefusal why → out.new ≡ out.old) }
    ensures flushed { OnOk result (out.new.unflushed ≡ 0) }
{
    match (compared, missing) {
        (Ok(None), _) => tell_answer(alloc, out, None, Answer::Same),
        (Ok(Some(index)), _) => tell_answer(alloc, out, None, Answer::DifferentAt(index)),
        (Err(CompareCountFault::Second(_)), Some(name)) => Err(Trouble::CannotRead(
            "second: ", name,
        )),
        (Err(why), _) => Err(Trouble::Compare(why)),
    }
}
