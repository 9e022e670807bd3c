//! Bytes are read, whole and in pieces: by its contract each call could always answer out of memory.

mod checks;
mod cuts;
mod limits;
mod readers;
mod taking;
pub mod vectors;
