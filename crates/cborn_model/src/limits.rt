//! The nesting limit, which bounds the stack of recursions.

ghost use Rattle.std.specs.Prelude.{◌≡◌, ◌≤◌};
ghost use Rattle.std.specs.Option.{SomeIff};

use std::marker::Model;

/// The maximum nesting depth of arrays, maps and tags, from 1 to 1,024.
#[derive(Clone, Copy, Debug)]
pub struct Limit {
    most: u64,
}

impl Model for Limit {
    ghost use Rattle.std.specs.Prelude.{ℕ, ◌≤◌};

    ghost Value = { ℕ };

    ghost view = { λ l. l.most };

    ghost invariant = { λ l. (1 ≤ l.most) × (l.most ≤ 1024) };

    ghost inverse = { λ n. record { most = n } };
}

impl Limit {
    /// The usual limit, 128.
    pub const USUAL: Limit = Limit { most: 128 };

    /// The highest limit, 1,024.
    pub const HIGHEST: Limit = Limit { most: 1024 };

    /// The limit `most`; `None` unless it is from 1 to 1,024.
    pub fn new(most: u64) -> Option<Limit>
        ensures { SomeIff result ((1 ≤ most) × (most ≤ 1024)) most }
    {
        if most == 0 || most > 1024 {
            None
        } else {
            Some(Limit { most })
        }
    }

    /// The maximum nesting depth, from 1 to 1,024.
    pub fn get(&self) -> u64
        ensures value { result ≡ self.now }
        ensures least { 1 ≤ result }
        ensures most { result ≤ 1024 }
    {
        self.most
    }
}
