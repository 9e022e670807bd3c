//! Answers over inputs that are in memory as a whole. Some answers borrow from the input.
//! `make library-tests` compares the calls for C with the program, on all inputs of the tables.
use cborn_engine::{Count, Kind, normalise_slice, show_slice};
use cborn_model::{Bytewise, Limit};
use std::borrow::CowSlice;
use std::test::Fail;

/// Catches an answer that is copied though it could be borrowed. A copy would be right, but takes memory.
#[test]
fn lent(rt: HostRuntime) -> Result<(), Fail> {
    let (kind, any) = (Kind::Wire, Count::Any);
    let bytes = b"\x82\x01\x41\x61".as_slice();
    let answer = normalise_slice::<Bytewise>(rt.alloc(), Limit::USUAL, any, kind, kind, bytes)?;
    assert!(rt; matches!(answer, CowSlice::Borrowed(it) if it == bytes));
    let bytes = b"\x98\x01\x18\x01".as_slice();
    let answer = show_slice(rt.alloc(), Limit::USUAL, any, kind, kind, bytes)?;
    assert!(rt; matches!(answer, CowSlice::Borrowed(it) if it == bytes));
    Ok(())
}
