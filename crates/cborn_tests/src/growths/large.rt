//! Inputs that take many growths.
use super::super::memory::Bytes;
use cborn_det::encode_all;
use cborn_edn::show;
use cborn_engine::{Kind, load};
use cborn_judge::judge_all;
use cborn_model::{Bytewise, Limit, Spelled};
use cborn_wire::{Feeder, read_one, spell_all};
use std::alloc::Global;
use std::process::Abort;
use std::test::Fail;

#[test]
fn long_piece_fed(rt: HostRuntime) -> Result<(), Fail> {
    let mut input = [7; 5006];
    input[..4].copy_from_slice(b"\x9f\x59\x13\x88");
    input[5004] = 0;
    input[5005] = 255;
    let mut feeder = Feeder::new(rt.alloc(), Limit::USUAL);
    feeder.feed(&input)?;
    let nodes = feeder.finish()?;
    assert!(rt; spell_all(rt.alloc(), &nodes)?.as_slice() == input.as_slice());
    Ok(())
}

/// Asserts that the nodes spell these bytes, and that these encode what the nodes mean.
fn is_deterministic(
    rt: &impl Abort,
    alloc: Global,
    nodes: &[Spelled],
    input: &[u8],
) -> Result<(), Fail> {
    assert!(rt; spell_all(alloc, nodes)?.as_slice() == input);
    let items = judge_all(alloc, nodes)?;
    assert!(rt; encode_all::<Bytewise>(alloc, &items)?.as_slice() == input);
    Ok(())
}

/// Catches a call that gives up where a sequence has many items. Its contract would be kept.
#[test]
fn many_items_loaded(rt: HostRuntime) -> Result<(), Fail> {
    let input = [7; 70_000];
    let mut bytes = Bytes::new(&input, 1 << 16);
    let nodes = load(rt.alloc(), Limit::USUAL, Kind::Wire, &mut bytes)?;
    assert_eq!(rt; nodes.len(), 70_000);
    assert_eq!(rt; show(rt.alloc(), &nodes)?.as_str().len(), 209_999);
    is_deterministic(&rt, rt.alloc(), &nodes, &input)
}

/// Catches a call that gives up where a text is long, or an item is far from its start.
#[test]
fn long_inputs_loaded(rt: HostRuntime) -> Result<(), Fail> {
    let mut text = [b' '; 150_000];
    text[149_999] = b'7';
    for kind in [Kind::Notation, Kind::Notation2] {
        let mut bytes = Bytes::new(&text, 1 << 16);
        let nodes = load(rt.alloc(), Limit::USUAL, kind, &mut bytes)?;
        assert_eq!(rt;
            spell_all(rt.alloc(), &nodes)?.as_slice(),
            b"\x07".as_slice()
        );
    }
    let (_, end) = read_one(rt.alloc(), Limit::USUAL, &text, 0)?;
    assert_eq!(rt; end, 1);
    Ok(())
}
