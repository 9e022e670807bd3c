//! What no clause of the model says: how much memory its trees take, and that a magnitude is made,
//! where the contract allows out of memory. The other functions have clauses that name the
//! answer for each argument.

use cborn_model::{Item, Node, magnitude_of, push_doubling};
use std::mem::size_of;
use std::test::Fail;

/// Catches a tree that takes more memory because a form has a new part.
#[test]
fn keeps_sizes(rt: HostRuntime) {
    assert!(rt; size_of::<Node>() <= 40, "a node");
    assert!(rt; size_of::<Item>() <= 40, "an item");
}

/// Catches a list that grows by one element, and so takes time by the square of its length.
#[test]
fn grows_by_doubling(rt: HostRuntime) -> Result<(), Fail> {
    let mut list = Vec::new(rt.alloc());
    for (n, room) in [1usize, 2, 4, 4, 8].iter().enumerate() {
        push_doubling(&mut list, n)?;
        assert_eq!(rt; list.capacity(), *room);
    }
    assert_eq!(rt; list.as_slice(), [0usize, 1, 2, 3, 4].as_slice());
    Ok(())
}

/// Catches a magnitude that is never made.
#[test]
fn gives_bytes(rt: HostRuntime) -> Result<(), Fail> {
    let bytes = magnitude_of(rt.alloc(), &258u64.to_be_bytes())?.into_vec();
    assert_eq!(rt; bytes.as_slice(), b"\x01\x02".as_slice());
    Ok(())
}
