//! What the words of a command line ask for, and what a run is given from outside.

use cborn_engine::{Count, Kind};
use cborn_model::Limit;
use std::alloc::Global;

/// The files and the memory of the system, and who reads standard error.
#[derive(Drop)]
pub struct System<'r, F> {
    pub files: &'r F,
    pub alloc: Global,
    /// Whether that is a person, at a terminal.
    pub is_person: bool,
}

/// What a command line asks for.
#[derive(Drop)]
pub struct Request<'a> {
    pub task: Task<'a>,
    /// The files after the first that are checked in the same way, one after the other.
    pub others: Vec<&'a str>,
}

/// What the program is asked to do with one input, or with two that it compares.
#[derive(Clone, Copy)]
pub struct Task<'a> {
    pub action: Action<'a>,
    /// The file that it reads, where that is one of several: lines on it have its name.
    pub named: Option<&'a str>,
    /// The file that the answer goes to. `None`: it goes to standard output.
    pub output: Option<&'a str>,
    pub order: Order,
    pub limit: Limit,
    pub count: Count,
    /// Whether a refusal, a defect or a difference is followed by lines that say where and why.
    pub explain: bool,
}

impl Task<'_> {
    /// Whether its answer is CBOR bytes that go to standard output.
    pub fn prints_bytes(&self) -> bool {
        let Action::Read { purpose, .. } = self.action else {
            return false;
        };
        match purpose {
            Purpose::Show { to, .. } | Purpose::Normalise { to, .. } => self.output.is_none()
                && to == Kind::Wire,
            Purpose::Check => false,
        }
    }
}

/// What a task does.
#[derive(Clone, Copy)]
pub enum Action<'a> {
    /// Reads one input. Without a file it is standard input.
    Read {
        file: Option<&'a str>,
        purpose: Purpose,
    },
    /// Compares two files.
    Compare {
        first: Named<'a>,
        second: Named<'a>,
    },
}

/// The name of a file, and the format that it is read as.
#[derive(Clone, Copy)]
pub struct Named<'a> {
    pub name: &'a str,
    pub kind: Kind,
}

/// What one input is read for.
#[derive(Clone, Copy)]
pub enum Purpose {
    Show { from: Kind, to: Kind },
    Normalise { from: Kind, to: Kind },
    Check,
}

impl Purpose {
    /// The format of the input.
    pub fn from(self) -> Kind {
        match self {
            Purpose::Show { from, .. } | Purpose::Normalise { from, .. } => from,
            Purpose::Check => Kind::Wire,
        }
    }
}

/// The sort order of map keys.
#[derive(Clone, Copy)]
pub enum Order {
    /// By encoded bytes (RFC 8949 section 4.2.1).
    Bytewise,
    /// Shortest first (RFC 8949 section 4.2.3).
    LengthFirst,
}
