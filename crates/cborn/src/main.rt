//! Reads CBOR data items and writes their deterministic encoding.
//!
//! [`run`] is all of it. It has the words read, does what they ask for, writes remarks to standard error, and
//! answers the exit status. Here it is given what the system gives: words, files and memory. Where the system
//! gives no words, [`tell_words`] says so.
//!
//! - `options`: from the words to a request, by the argument parser `clap`; `requests`: that request, its
//!   task, and what a run is given.
//! - `forms`: the commands and their arguments, with the texts of help.
//! - `runs`: a run, of one command or of several files that are checked, by the calls of `cborn_engine`.
//! - `inputs`: what is read. `saved`: the file that an answer goes to.
//! - `lines`: the lines that are printed, the names in them, and the exit statuses.
//! - `remarks`: what else standard error gets: explanations, and hints.
//!
//! `specs/Statuses.antt` says which exit status goes with what, `specs/Words.antt` when a request has more
//! than one file to check.
#![tactic(auto)]

mod forms;
mod inputs;
mod lines;
mod options;
mod remarks;
mod requests;
mod runs;
mod saved;

use cborn_engine::Counted;
use lines::tell_words;
pub use runs::run;
use std::alloc::Global;
use std::process::ExitCode;
use std::{env, io};

/// Runs the program with what the system gives, and answers its exit status.
fn run_host(rt: &HostRuntime, alloc: Global) -> io::Result<u8> {
    let mut owned = Vec::new(alloc);
    for word in env::args(rt)? {
        owned.push(word)?;
    }
    let mut words = Vec::new(alloc);
    for word in &owned {
        words.push(word.as_str())?;
    }
    let mut out = Counted::new(rt.stdout());
    let input = rt.stdin();
    Ok(run(rt, alloc, &words, input, &mut out, rt.stderr()))
}

fn main(rt: HostRuntime) -> ExitCode {
    match run_host(&rt, rt.alloc()) {
        Ok(status) => ExitCode::from(status),
        Err(why) => ExitCode::from(tell_words(&mut rt.stderr(), why)),
    }
}
