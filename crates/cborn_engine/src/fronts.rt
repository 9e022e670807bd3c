//! Whether bytes are their own deterministic encodings (RFC 8949 section 4.2).

ghost use Rattle.std.specs.Prelude.{◌≡◌, ◌≤◌, ◌<◌, IsTrue};
ghost use Rattle.cborn_engine.specs.declared.kinds.Kind.TheVariants as kinds;
ghost use Rattle.cborn_engine.specs.devices.Encoding.{IsEncoded};

use cborn_judge::{Follower, Input};
use cborn_model::{KeyOrder, Limit};
use cborn_wire::{HeadReader, LevelTable, Until};
use std::marker::Brand;

/// Whether the bytes are the deterministic encodings of items, one after another, none deeper than
/// `limit`, the keys of maps in the order `O` (RFC 8949 section 4.2). It may be false of bytes that are,
/// as of items deeper than 128 levels: then it takes more to find out. No memory is taken.
pub fn is_deterministic<O: KeyOrder>(limit: Limit, bytes: &[u8]) -> bool
    ensures { IsTrue result → IsEncoded O.order kinds.Wire limit bytes.now bytes.now }
{
    follow::<O, Brand>(limit, bytes)
}

/// What `is_deterministic` gives of this input.
fn follow<O: KeyOrder, I: Input>(limit: Limit, bytes: &[u8]) -> bool
    requires { bytes.now ≡ I.input }
    ensures { IsTrue result → IsEncoded O.order kinds.Wire limit bytes.now bytes.now }
{
    // To fill a large table would take longer than to read a few bytes, and stack for nothing.
    if bytes.len() < 1024 || limit.get() <= 16 {
        return follow_with::<O, I, 19>(limit, bytes);
    }
    follow_with::<O, I, 131>(limit, bytes)
}

/// The bytes that are read at a time, so that reading ends soon after what departs.
const PIECE: usize = 1 << 14;

/// What `follow` gives, with room for `MOST` levels.
#[inline(never)]
fn follow_with<O: KeyOrder, I: Input, const MOST: usize>(limit: Limit, bytes: &[u8]) -> bool
    requires input { bytes.now ≡ I.input }
    requires room { 3 < MOST }
    requires most { MOST ≤ 1027 }
    ensures { IsTrue result → IsEncoded O.order kinds.Wire limit bytes.now bytes.now }
{
    let Some(most) = Limit::new(limit.get().min(MOST as u64 - 3)) else {
        return false;
    };
    let mut levels = LevelTable::<MOST>::new();
    let mut heads = HeadReader::new(most, 0);
    let mut follower = Follower::<O, I, MOST>::over(bytes);
    let mut rest = bytes;
    'pieces: while !rest.is_empty() {
        let (piece, after) = rest.split_at(rest.len().min(PIECE));
        let read = heads.read(&mut levels, &mut follower, piece, Until::End);
        if read.is_err() || follower.departed {
            return false;
        }
        rest = after;
    }
    !follower.departed && heads.is_whole(&levels)
}
