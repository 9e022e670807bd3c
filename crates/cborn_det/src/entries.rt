//! Arranging the entries of a map in a buffer, in which they follow one another. An entry is the
//! bytes of a key and of its value.

ghost use Rattle.std.specs.Prelude.{◌≡◌, ◌++◌, ◌≤◌};
ghost use Rattle.cborn_det.specs.Common.{List, IfOk, OnOk, IsPermutation, length, take, drop, Rising};
ghost use Rattle.cborn_det.specs.devices.Writing.{BeginsWith, IsWritten, entries_of};
ghost use Rattle.cborn_det.specs.shared.Distinct.{HasDistinctKeys};
ghost use Rattle.cborn_det.specs.Det.{Entry, joined, keys};

use cborn_model::KeyOrder;
use std::alloc::{AllocError, Global};

/// Arranges the entries that `out` has from the offset `start` on, so that their keys rise.
/// `lengths` are those of each key and value in bytes.
#[tactic(auto, using(crate::proofs::Steps::begins_take))]
pub(crate) fn arrange<O: KeyOrder>(
    alloc: Global,
    lengths: &[(usize, usize)],
    start: usize,
    out: &mut Vec<u8>,
) -> Result<(), AllocError>
    requires inside { start ≤ length out.old.items }
    requires written { (es : List Entry) × IsWritten es lengths.now (drop start out.old.items) × HasDistinctKeys es }
    ensures arranged { OnOk result ((es : List Entry) → IsWritten es lengths.now (drop start out.old.items) → (fs : List Entry) × IsPermutation es fs × Rising O.order (keys fs) × (out.new.items ≡ take start out.old.items ++ joined fs)) }
    ensures before { BeginsWith (take start out.old.items) out.new.items }
{
    let written = &out[start..];
    let mut entries = entries_in(alloc, lengths, written)?;
    entries.sort_unstable_by(|a, b| O::compare(a.0, b.0));
    let mut arranged = Vec::with_capacity(alloc, written.len())?;
    push_entries(&entries, &mut arranged)?;
    drop(entries);
    out.truncate(start);
    out.extend_from_slice(&arranged)
}

/// The entries in `written`, in their order, as slices of it.
#[tactic(auto, using(crate::proofs::Cutting::cut_fits))]
fn entries_in<'a>(
    alloc: Global,
    lengths: &[(usize, usize)],
    written: &'a [u8],
) -> Result<Vec<(&'a [u8], &'a [u8])>, AllocError>
    requires { (es : List Entry) × IsWritten es lengths.now written.now }
    ensures { IfOk result (λ v. IsWritten (entries_of v.items) lengths.now written.now) }
{
    let mut entries = Vec::with_capacity(alloc, lengths.len())?;
    let mut rest = written;
    for (key_len, value_len) in lengths {
        let (key, after) = rest.split_at(*key_len);
        let (value, after) = after.split_at(*value_len);
        entries.push((key, value))?;
        rest = after;
    }
    Ok(entries)
}

fn push_entries(entries: &[(&[u8], &[u8])], out: &mut Vec<u8>) -> Result<(), AllocError>
    ensures { OnOk result (out.new.items ≡ out.old.items ++ joined (entries_of entries.now)) }
{
    for (key, value) in entries {
        out.extend_from_slice(key)?;
        out.extend_from_slice(value)?;
    }
    Ok(())
}
