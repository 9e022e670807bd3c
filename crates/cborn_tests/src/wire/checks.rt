//! Comparisons that more than one test makes.
use cborn_model::Spelled;
use cborn_wire::{WireFault, spell, spell_all};
use std::alloc::Global;
use std::process::Abort;

/// Asserts that what was read spells these bytes.
pub fn spells(rt: &impl Abort, alloc: Global, read: Result<Vec<Spelled>, WireFault>, input: &[u8]) {
    let items = read.expect(rt, "well-formed");
    let bytes = spell_all(alloc, &items).expect(rt, "memory");
    assert_eq!(rt; bytes.as_slice(), input);
}

/// The offset of the item's head.
fn place_of(item: &Spelled) -> u64 {
    item.node().place
}

/// Asserts that the item begins at this offset and spells these bytes.
pub fn is_item(rt: &impl Abort, alloc: Global, item: &Spelled, place: u64, input: &[u8]) {
    assert_eq!(rt; place_of(item), place);
    let bytes = spell(alloc, item).expect(rt, "memory");
    assert_eq!(rt; bytes.as_slice(), input);
}

/// Asserts that both hold as many items, at the same offsets, which spell the same bytes.
pub fn are_read_alike(rt: &impl Abort, alloc: Global, read: &[Spelled], other: &[Spelled]) {
    assert_eq!(rt; read.len(), other.len());
    for (item, twin) in read.iter().zip(other) {
        let bytes = spell(alloc, twin).expect(rt, "memory");
        is_item(rt, alloc, item, place_of(twin), &bytes);
    }
}
