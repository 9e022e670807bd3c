//! Where two sequences differ whose deterministic encodings are held. The encodings are walked side
//! by side in place, item by item.
ghost use Rattle.cborn_engine.specs.Common.{IfOk, Kind};
ghost use Rattle.cborn_engine.specs.Comparing.{AreCompared};
ghost use Rattle.cborn_engine.specs.devices.Encoding.{IsEncoded};

use cborn_model::{KeyOrder, Limit};
use cborn_wire::first_end;
use std::alloc::{AllocError, Global};

/// The index of the first item at which two deterministic encodings differ, if they do. Memory is taken
/// for the open levels of an item.
pub fn difference<O: KeyOrder>(
    alloc: Global,
    limit: Limit,
    ours: &[u8],
    theirs: &[u8],
) -> Result<Option<u64>, AllocError>
    requires ours { IsEncoded O.order Kind.Wire limit ours.now ours.now }
    requires theirs { IsEncoded O.order Kind.Wire limit theirs.now theirs.now }
    ensures { IfOk result (AreCompared Kind.Wire Kind.Wire limit ours.now theirs.now) }
{
    if ours == theirs {
        return Ok(None);
    }
    let most = limit.get();
    prove!(most <= 1024);
    let mut left = ours;
    let mut right = theirs;
    let mut index = 0;
    'items: while let Some(end) = first_end(alloc, left)? {
        let (item, rest) = left.split_at(end);
        let Some(after) = right.strip_prefix(item) else {
            return Ok(Some(index));
        };
        left = rest;
        right = after;
        index += 1;
    }
    Ok(Some(index))
}
