//! The commands and their arguments, with the texts of help. `-h` prints the short ones, `--help` the notes
//! too. No line of them has more than 80 characters, also as `clap` prints it.

use clap::builder::ValueParser;
use clap::{Arg, ArgAction};
use std::alloc::Global;

/// A command.
#[derive(Clone, Copy)]
pub struct Form {
    pub name: &'static str,
    pub about: &'static str,
    /// The names of its arguments, in the order in which help shows them. An option is without its `--`.
    pub arguments: &'static str,
    /// The last part of what `--help` prints.
    pub notes: &'static str,
}

/// All commands.
pub const COMMANDS: &[Form] = &[
    Form {
        name: "show",
        about: "Writes the input's items as they are encoded, as notation or bytes",
        arguments: "FILE output from to depth one explain",
        notes: "\
Reads a sequence of CBOR data items (RFC 8949) from FILE or from standard input,
and writes each as it is encoded: in diagnostic notation (section 8), a line for
each item, a comma at the end of each line but the last, and an encoding
indicator where a head isn't the shortest; or with --to wire as bytes. Nothing
is sorted or shortened: normalise does that. Invalid items are shown too, with
one exception: a text string that isn't UTF-8 can't be written as notation, and
the input is refused. A FILE named - is a file of that name.

With --from notation --to wire it writes exactly the bytes that the notation
stands for, valid or not. So test vectors can be written by hand. Without --from
notation, text is read as CBOR bytes, and refused only if these are malformed.

Exit status:
  0  done
  2  the input is refused: a line on standard error says at which offset, in
     bytes from its start, and why; nothing is written to standard output
  3  the command line is wrong
  4  the file can't be opened, a read or a write failed, or out of memory

Examples:
  echo 9f 19 00 01 ff | xxd -r -p | cborn show
  prints  [_ 1_1]

  echo '[_ 1_1]' | cborn show --from notation --to wire | xxd -p
  prints  9f190001ff",
    },
    Form {
        name: "normalise",
        about: "Writes the deterministic encoding of the input's items",
        arguments: "FILE output from to order depth one explain",
        notes: "\
Reads a sequence of CBOR data items (RFC 8949) from FILE or from standard input,
and writes the deterministic encoding (section 4.2) of each: shortest heads,
definite lengths, integers in place of bignums where they fit, the keys of each
map sorted. It writes bytes, or with --to notation diagnostic notation
(section 8): a line for each item, and a comma at the end of each line but the
last. Under the same --order and the same --to, two inputs, each of any KIND,
give the same output exactly if they hold the same items. A FILE named - is a
file of that name.

The shell empties f before 'cborn normalise f > f' reads it. 'cborn normalise f
-o f' writes to a new file beside f, which takes its place once the answer is
whole. Whatever is refused or fails, f is as it was.

Without --from notation, text is read as CBOR bytes, and refused only if these
are invalid: 'echo 1 | cborn normalise' writes 31 0a, the integers -18 and 10.

Exit status:
  0  done
  2  the input is refused: a line on standard error says at which offset, in
     bytes from its start, and why; nothing is written to standard output
  3  the command line is wrong
  4  the file can't be opened, a read or a write failed, or out of memory

Examples:
  echo a2 02 00 18 01 00 | xxd -r -p | cborn normalise | xxd -p
  prints  a201000200

  echo '{2: 0, 0x01: [_ ]}' | cborn normalise --from notation --to notation
  prints  {1: [], 2: 0}",
    },
    Form {
        name: "compare",
        about: "Tells whether two inputs hold the same items",
        arguments: "FILE_A FILE_B from-a from-b order depth one explain",
        notes: "\
Reads a sequence of CBOR data items (RFC 8949) from each file, as bytes or as
diagnostic notation (section 8), and prints the line 'same', or 'different at
item N': N counts from 0, and is the first item that differs, or that only one
of the files has. The encoding makes no difference: the widths of heads,
indefinite lengths, the order of a map's pairs, integers encoded as bignums. Nor
does --order. A FILE named - is a file of that name.

Each file has its own option: without --from-a FILE_A is read as CBOR bytes, and
without --from-b FILE_B is, whatever the other one is.

Exit status:
  0  they hold the same items
  1  they differ
  2  a file is refused: a line on standard error says which, at which offset, in
     bytes from its start, and why; nothing is written to standard output
  3  the command line is wrong
  4  a file can't be opened, a read or a write failed, or out of memory

Example:
  echo '{1: [_ 2], 3: 4}' > a; echo a2 03 04 01 81 02 | xxd -r -p > b
  cborn compare --from-a notation a b
  prints  same",
    },
    Form {
        name: "check",
        about: "Tells whether the input is in the deterministic encoding",
        arguments: "FILE order depth one explain",
        notes: "\
Reads a sequence of CBOR data items (RFC 8949), as bytes, from FILE, or from
standard input, and prints the line 'deterministic' if normalise would write
exactly the same bytes. Otherwise it prints 'offset N: ' and the first defect,
which is what isn't deterministic there: 'long head' (not the shortest),
'indefinite length', 'loose bignum' (tag 2 or 3 over at most 8 bytes, or over
bytes that begin with 0) or 'key order'. N counts bytes from the start of the
input. A FILE named - is a file of that name.

Of two or more files each has a line with its name, as 'NAME: deterministic';
that of a file that is refused goes to standard error, after 'cborn: '. The next
file is checked in any case. The exit status is the worst one: 4 before 2 before
1. In names control characters and the backslash are escaped, as \\u000a.

It reads bytes alone. Pasted hexadecimal is text, and can happen to be
deterministic CBOR: use 'xxd -r -p' first. The contents of byte strings aren't
checked, even where they are CBOR.

Exit status:
  0  it is deterministic
  1  it isn't
  2  the input is refused: a line on standard error says at which offset, in
     bytes from its start, and why; nothing is written to standard output
  3  the command line is wrong
  4  the file can't be opened, a read or a write failed, or out of memory

Example:
  echo 18 01 | xxd -r -p | cborn check
  prints  offset 0: long head",
    },
];

/// An argument of a command, by its name.
pub fn argument_of<'a>(alloc: Global, command: &str, name: &'static str) -> Arg<'a> {
    let arg = Arg::new(alloc, name).help(help_of(command, name));
    match (command, name) {
        ("check", "FILE") => arg.num_args(0..).action(ArgAction::Append),
        (_, "FILE") => arg,
        (_, "FILE_A" | "FILE_B") => arg.required(true),
        (_, "output") => arg.short('o').long(name).value_name("FILE"),
        (_, "from" | "from-a" | "from-b") => with_value(arg.long(name), "KIND", READ, "wire"),
        ("show", "to") => with_value(arg.long(name), "KIND", WRITTEN, "notation"),
        (_, "to") => with_value(arg.long(name), "KIND", WRITTEN, "wire"),
        (_, "order") => with_value(arg.long(name), "ORDER", ORDERS, "bytewise"),
        (_, "depth") => with_value(arg.long(name), "N", ValueParser::Unsigned(1, 1024), "128"),
        _ => arg.long(name).action(ArgAction::SetTrue),
    }
}

/// An option with a value: what that is called, which there are, and which it is by default.
fn with_value<'a>(
    arg: Arg<'a>,
    name: &'static str,
    values: ValueParser<'static>,
    default: &'static str,
) -> Arg<'a> {
    arg.value_name(name)
        .value_parser(values)
        .hide_possible_values(true)
        .default_value(default)
}

const READ: ValueParser<'static> = ValueParser::Names(&["wire", "notation", "notation-2"]);

const WRITTEN: ValueParser<'static> = ValueParser::Names(&["wire", "notation"]);

const ORDERS: ValueParser<'static> = ValueParser::Names(&["bytewise", "length-first"]);

/// What help says of an argument of a command.
fn help_of(command: &str, name: &str) -> &'static str {
    match (command, name) {
        ("check", "FILE") => "The files to read, in place of standard input",
        (_, "FILE") => "The file to read, in place of standard input",
        (_, "FILE_A") => "The first file to read: bytes, unless --from-a says otherwise",
        (_, "FILE_B") => "The second file to read: bytes, unless --from-b says otherwise",
        (_, "output") => "\
Write to FILE, once the answer is whole, in place of
standard output; FILE may be the input",
        (_, "from") => "The input's format: wire (bytes), notation or\nnotation-2",
        (_, "from-a") => "The format of FILE_A: wire (bytes), notation or\nnotation-2",
        (_, "from-b") => "The format of FILE_B: wire (bytes), notation or\nnotation-2",
        (_, "to") => "The format to write: wire (bytes) or\nnotation",
        (_, "order") =>
            "Sort map keys bytewise, by encoded bytes (4.2.1), or\nlength-first, shortest first (4.2.3)",
        (_, "depth") => "\
The maximum nesting depth of arrays, maps and tags, 1 to
1024; in notation <<..>> and integers beyond 64 bits
count too",
        (_, "one") => "Refuse an input that holds no item, or more than one",
        _ =>
            "Say on standard error where in the input, and why,\nafter a refusal, a defect or a difference",
    }
}

/// What help says of the program.
pub const ABOUT: &str = "Reads CBOR data items and writes their deterministic encoding";

/// The last part of what `--help` prints of it.
pub const NOTES: &str = "\
CBOR (RFC 8949) can encode one data item in many ways: with longer heads than
needed, with strings in chunks, with the pairs of a map in any order. cborn
writes the one deterministic encoding (section 4.2) of the items that an input
holds, compares two inputs by their items, checks whether an input is
deterministic, or shows how it is encoded.

An input is a sequence of any number of items, one after another: at most 2^30
bytes. Floats are left out: an input with a float is refused. An input or output
has one of these formats, its KIND:
  wire        CBOR bytes
  notation    diagnostic notation, which is CBOR as text for people (RFC 8949
              section 8, RFC 8610 appendix G), with commas between the items
  notation-2  the same, with comments from # to the end of a line, and with one
              trailing comma allowed
Input is read as CBOR bytes unless '--from notation' is given. Text, hexadecimal
included, can happen to be valid CBOR: 'echo 1 | cborn normalise' writes the
bytes 31 0a, which are the integers -18 and 10.
Without FILE, standard input is read. A FILE named - is a file of that name.
'cborn COMMAND --help' says what a command does.

Exit status:
  0  done; the inputs hold the same items; the input is deterministic
  1  the inputs differ; the input isn't deterministic
  2  an input is refused: a line on standard error says at which offset, in
     bytes from the start, and why; nothing is written to standard output
  3  the command line is wrong
  4  a file can't be opened, a read or a write failed, or out of memory

Examples:
  echo 98 02 18 01 58 01 61 | xxd -r -p | cborn normalise | xxd -p
  prints  82014161

  echo '[_ 1_1]' | cborn show --from notation --to wire | xxd -p
  prints  9f190001ff";
