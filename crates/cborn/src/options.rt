//! From the words of the command line to what they ask for.
ghost use Rattle.std.specs.Prelude.{◌≡◌, ◌<◌, ◌≤◌, ◌⊎◌, length, true, IfOk, IfSome};
ghost use Rattle.cborn.specs.Words.{is_option, plain_count, HasHyphens, IsCheckOfFiles};

use crate::forms::{ABOUT, COMMANDS, Form, NOTES, argument_of};
use crate::requests::{Action, Named, Order, Purpose, Request, Task};
use cborn_engine::{Count, Kind};
use cborn_model::Limit;
use clap::error::ErrorKind;
use clap::{ArgMatches, Command, Error};
use std::alloc::{AllocError, Global};

/// What the words of a command line ask for. The first word is the program's name.
///
/// # Errors
/// What is wrong with the words, a request for help or the version, or `ErrorKind::OutOfMemory`.
pub fn read_request<'a>(alloc: Global, words: &'a [&'a str]) -> Result<Request<'a>, Error>
    ensures several { IfOk result (λ request. 0 < length request.others.items → IsCheckOfFiles words.now) }
{
    let mut program = program(alloc, words)?;
    let why = match program.try_get_matches_from_mut(words) {
        Ok(matches) => match request_of(alloc, words, &matches)? {
            Some(request) => return Ok(request),
            None => program.error(ErrorKind::MissingSubcommand, "a command is required"),
        },
        Err(why) => advised(alloc, words, why),
    };
    Err(why.unwrap_or_else(Error::from))
}

/// The mistake that `clap` found in the words. Where they have an option that the command lacks, and
/// there is a line on it, that line and the usage of the command.
fn advised(alloc: Global, words: &[&str], why: Error) -> Result<Error, AllocError> {
    match advice_on(words) {
        Some((form, line)) if why.kind() == ErrorKind::UnknownArgument => {
            let name = format!(in alloc; "cborn {}", form.name)?;
            let mut command = command(alloc, form, true)?.bin_name(&name)?;
            command.error(ErrorKind::UnknownArgument, line)
        }
        _ => Ok(why),
    }
}

/// What was found in the words. `None`: there is no command.
fn request_of<'a>(
    alloc: Global,
    words: &[&str],
    matches: &ArgMatches<'a>,
) -> Result<Option<Request<'a>>, AllocError>
    ensures several { IfOk result (λ found. IfSome found (λ request. 0 < length request.others.items → IsCheckOfFiles words.now)) }
{
    let Some((name, found)) = matches.subcommand() else {
        return Ok(None);
    };
    let Some(mut task) = task_of(name, found) else {
        return Ok(None);
    };
    let others = others_of(alloc, words, found)?;
    if !others.is_empty() {
        task.named = found.get_str("FILE");
    }
    Ok(Some(Request { task, others }))
}

fn task_of<'a>(name: &str, found: &ArgMatches<'a>) -> Option<Task<'a>> {
    Some(Task {
        action: action_of(name, found)?,
        named: None,
        output: found.get_str("output"),
        order: match found.get_str("order") {
            Some("length-first") => Order::LengthFirst,
            _ => Order::Bytewise,
        },
        limit: Limit::new(found.get_one::<u64>("depth")?)?,
        count: if found.get_flag("one") {
            Count::One
        } else {
            Count::Any
        },
        explain: found.get_flag("explain"),
    })
}

/// The files after the first one of a command line that checks two at least. Of any other there are none.
fn others_of<'a>(
    alloc: Global,
    words: &[&str],
    found: &ArgMatches<'a>,
) -> Result<Vec<&'a str>, AllocError>
    ensures several { IfOk result (λ others. 0 < length others.items → IsCheckOfFiles words.now) }
{
    let mut others = Vec::new(alloc);
    if is_check_of_files(words) {
        if let Some([_, rest @ ..]) = found.get_strs("FILE") {
            others.extend_from_slice(rest)?;
        }
    }
    Ok(others)
}

/// Whether `check` comes after the program's name, and then two words at least that may be names of
/// files.
fn is_check_of_files(words: &[&str]) -> bool
    ensures { result ≡ true → IsCheckOfFiles words.now }
{
    match words.get(1) {
        Some(name) => *name == "check" && may_name_files(words),
        None => false,
    }
}

/// Whether four words are no options, or one of them is `--`.
fn may_name_files(words: &[&str]) -> bool
    ensures { result ≡ true → (4 ≤ plain_count words.now) ⊎ HasHyphens words.now }
{
    let mut count: usize = 0;
    for word in words {
        if *word == "--" {
            return true;
        }
        if !is_option(word) {
            count += 1;
        }
    }
    count >= 4
}

/// Whether the word begins with a hyphen.
fn is_option(word: &str) -> bool
    ensures { result ≡ is_option word.now }
{
    match word.as_bytes() {
        [first, ..] => *first == b'-',
        [] => false,
    }
}

fn action_of<'a>(name: &str, found: &ArgMatches<'a>) -> Option<Action<'a>> {
    let (from, to) = (kind_of(found, "from"), kind_of(found, "to"));
    let purpose = match name {
        "show" => Purpose::Show { from, to },
        "normalise" => Purpose::Normalise { from, to },
        "check" => Purpose::Check,
        "compare" => {
            let first = named_by(found, "FILE_A", "from-a")?;
            let second = named_by(found, "FILE_B", "from-b")?;
            return Some(Action::Compare { first, second });
        }
        _ => return None,
    };
    let file = found.get_str("FILE");
    Some(Action::Read { file, purpose })
}

/// The file that an argument names, which is read as the format that an option names.
fn named_by<'a>(found: &ArgMatches<'a>, file: &str, from: &str) -> Option<Named<'a>> {
    let (name, kind) = (found.get_str(file)?, kind_of(found, from));
    Some(Named { name, kind })
}

/// The format that an option names. A command without that option reads or writes bytes.
fn kind_of(found: &ArgMatches<'_>, name: &str) -> Kind {
    match found.get_str(name) {
        Some("notation") => Kind::Notation,
        Some("notation-2") => Kind::Notation2,
        _ => Kind::Wire,
    }
}

/// The program with its commands. Those that the words don't name have no arguments, which saves time.
fn program<'a>(alloc: Global, words: &[&str]) -> Result<Command<'a>, AllocError> {
    let mut program = Command::new(alloc, "cborn")
        .version("0.6.0-dev")
        .about(ABOUT)
        .after_long_help(NOTES)
        .subcommand_required(true)
        .disable_help_subcommand(true);
    for form in COMMANDS {
        let is_named = words.iter().any(|word| *word == form.name);
        program = program.subcommand(command(alloc, form, is_named)?)?;
    }
    Ok(program)
}

fn command<'a>(alloc: Global, form: &Form, has_arguments: bool) -> Result<Command<'a>, AllocError> {
    let mut command = Command::new(alloc, form.name)
        .about(form.about)
        .after_long_help(form.notes);
    if has_arguments {
        for name in form.arguments.split(' ') {
            command = command.arg(argument_of(alloc, form.name, name))?;
        }
    }
    Ok(command)
}

/// The options that a command may lack, while another has them, or another name is meant by them.
const MISPLACED: &str = "--from --to --order --output -o --in-place -i";

/// The command of the words, and the line on the first of those options that they have and it lacks.
/// `None`: there is no line on these words. Their first is the program's name, the second the command's.
fn advice_on(words: &[&str]) -> Option<(&'static Form, &'static str)> {
    let name = *words.get(1)?;
    let form = COMMANDS.iter().find(|form| form.name == name)?;
    let mut given = MISPLACED
        .split(' ')
        .filter(|option| has_option(words, option));
    let line = given.find_map(|option| line_on(name, option))?;
    Some((form, line))
}

/// Whether an option is among the words, alone or with `=` and a value. After `--` there are no options.
fn has_option(words: &[&str], option: &str) -> bool {
    let mut options = words.iter().take_while(|word| **word != "--");
    options.any(|word| match word.strip_prefix(option) {
        Some(rest) => rest.is_empty() || rest.starts_with('='),
        None => false,
    })
}

/// The line on an option that a command doesn't have. `None`: there is no advice on it.
fn line_on(command: &str, option: &str) -> Option<&'static str> {
    Some(match (command, option) {
        ("compare", "--from") =>
            "compare reads two files, and each has its own format: use '--from-a <KIND>' for FILE_A and '--from-b <KIND>' for FILE_B, in place of '--from'",
        ("compare", "--to") =>
            "compare writes no items, and has no '--to': '--from-a <KIND>' and '--from-b <KIND>' are the formats of its files",
        ("check", "--from") =>
            "check reads bytes alone, and has no '--from': 'cborn show --from notation --to wire' writes the bytes of a text",
        ("check", "--to") =>
            "check writes no items, and has no '--to': 'cborn normalise' writes the deterministic encoding",
        ("show", "--order") =>
            "show sorts nothing, and has no '--order': 'cborn normalise --to notation' sorts the keys of maps",
        ("check", "--output" | "-o") =>
            "check writes no items, and has no '--output': 'cborn normalise --output <FILE>' writes the deterministic encoding to FILE",
        ("normalise" | "show", "--in-place" | "-i") =>
            "there is no such option: '-o <FILE>' writes to FILE once the answer is whole, and FILE may be the input",
        _ => return None,
    })
}
