//! The calls that give or accept nodes.
use super::super::memory::Bytes;
use cborn_det::{encode, encode_all, equal_bytes};
use cborn_engine::{EngineFault, Kind, load_within};
use cborn_judge::{Defect, DefectReason, first_defect, judge_all};
use cborn_model::{Bytewise, Limit};
use cborn_wire::{Feeder, WireFault, read_all, read_one, spell_all};
use std::alloc::Global;
use std::process::Abort;
use std::test::Fail;

/// The bytes that an input spells. It is loaded with two bytes a call.
fn loaded(alloc: Global, kind: Kind, input: &[u8]) -> Result<Vec<u8>, EngineFault> {
    let mut bytes = Bytes::new(input, 2);
    let nodes = load_within(alloc, Limit::USUAL, 31, kind, &mut bytes)?;
    Ok(spell_all(alloc, &nodes)?)
}

#[test]
fn inputs_loaded(rt: HostRuntime) -> Result<(), Fail> {
    let spelled = b"\xbf\x61\x7a\x01\x0a\x5f\x41\x01\xff\xff\x18\x02".as_slice();
    let text = b"{_ \"z\": 1, 10: (_ h'01')}, 2_0".as_slice();
    let further = b"{_ \"z\": 1, 10: (_ h'01'),},2_0#".as_slice();
    for (kind, input) in [
        (Kind::Wire, spelled),
        (Kind::Notation, text),
        (Kind::Notation2, further),
    ] {
        assert_eq!(rt; loaded(rt.alloc(), kind, input)?.as_slice(), spelled);
    }
    Ok(())
}

/// A feeder that was given a map in two pieces, and an integer after it; and what it answered at last.
fn fed_in_pieces(rt: &impl Abort, alloc: Global) -> (Feeder, Result<(), WireFault>) {
    let mut feeder = Feeder::new(alloc, Limit::USUAL);
    let first = feeder.feed(b"\xbf\x61\x7a\x01\x0a\x5f\x41");
    let second = feeder.feed(b"\x01\xff\xff\x00");
    if first.is_err() {
        assert_eq!(rt; second, Err(WireFault::OutOfMemory));
    }
    (feeder, second)
}

/// Catches a feeder that forgets that memory was refused, or gives other items than it kept.
#[test]
fn pieces_fed(rt: HostRuntime) -> Result<(), Fail> {
    let (mut feeder, fed) = fed_in_pieces(&rt, rt.alloc());
    let taken = feeder.take().is_some();
    let rest = match feeder.finish() {
        Ok(rest) => rest,
        Err(why) => {
            assert_eq!(rt; fed, Err(why));
            return Err(Fail::from(why));
        }
    };
    assert!(rt; fed.is_ok() && taken);
    assert_eq!(rt;
        spell_all(rt.alloc(), &rest)?.as_slice(),
        b"\x00".as_slice()
    );
    Ok(())
}

#[test]
fn nodes_read(rt: HostRuntime) -> Result<(), Fail> {
    let input = b"\xa2\x02\x00\x01\x5f\x41\x61\xff".as_slice();
    let nodes = read_all(rt.alloc(), Limit::USUAL, input)?;
    assert_eq!(rt; spell_all(rt.alloc(), &nodes)?.as_slice(), input);
    let (_, end) = read_one(rt.alloc(), Limit::USUAL, input, 1)?;
    assert_eq!(rt; end, 2);
    let defect = Defect {
        place: 3,
        reason: DefectReason::KeyOrder,
    };
    assert_eq!(rt;
        first_defect::<Bytewise>(rt.alloc(), &nodes[0])?,
        Some(defect)
    );
    Ok(())
}

#[test]
fn items_judged(rt: HostRuntime) -> Result<(), Fail> {
    let input = b"\xa2\x02\x00\x01\x5f\x41\x61\xff\x18\x01\xc2\x41\x07\x7f\x61\x61\xff\x9f\xff";
    let nodes = read_all(rt.alloc(), Limit::USUAL, input.as_slice())?;
    let items = judge_all(rt.alloc(), &nodes)?;
    assert_eq!(rt; items.len(), 5);
    let first = encode::<Bytewise>(rt.alloc(), &items[0])?;
    assert_eq!(rt; first.as_slice(), b"\xa2\x01\x41\x61\x02\x00".as_slice());
    let all = encode_all::<Bytewise>(rt.alloc(), &items)?;
    assert_eq!(rt;
        all.as_slice(),
        b"\xa2\x01\x41\x61\x02\x00\x01\x07\x61\x61\x80".as_slice()
    );
    assert!(rt; equal_bytes::<Bytewise>(rt.alloc(), &items[1], &items[1])?);
    assert!(rt; !equal_bytes::<Bytewise>(rt.alloc(), &items[1], &items[2])?);
    Ok(())
}
