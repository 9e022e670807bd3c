//! Tests of the libraries: what no clause says, and no run of the program shows. They are a crate of
//! their own, since a crate with tests is proved twice.
//!
//! - `model`, `wire`, `det`, `judge`, `explain`: bytes, nodes and items. `orders`: an order of keys of a
//!   caller's own.
//! - `lex`, `edn`, `spelled_texts`, `starts`: texts, and the bytes that they notate.
//! - `readers`, `counted`, `counts`, `items`, `slices`, `fronts`: the engine. Readers and writers give or
//!   accept little, or fail; answers borrow from the input.
//! - `growths`, `memory`: each call can succeed, and each growth can be refused.
#![tactic(auto)]

#[cfg(test)]
mod counted;
#[cfg(test)]
mod counts;
#[cfg(test)]
mod det;
#[cfg(test)]
mod edn;
#[cfg(test)]
mod explain;
#[cfg(test)]
mod fronts;
#[cfg(test)]
mod growths;
#[cfg(test)]
mod items;
#[cfg(test)]
mod judge;
#[cfg(test)]
mod lex;
#[cfg(test)]
mod memory;
#[cfg(test)]
mod model;
#[cfg(test)]
mod orders;
#[cfg(test)]
mod readers;
#[cfg(test)]
mod slices;
#[cfg(test)]
mod spelled_texts;
#[cfg(test)]
mod starts;
#[cfg(test)]
mod wire;
