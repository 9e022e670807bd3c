//! A head in the place of one byte (RFC 8949 section 3).

ghost use Rattle.std.specs.Prelude.{◌≡◌, ◌<◌, ◌≤◌, ◌+◌, ◌++◌, length, take, drop, OnOk, OnErr};
ghost use Rattle.cborn_wire.specs.shared.Spelling.{with_head};

use crate::heads::first_bytes;
use cborn_model::{Major, Width, shortest};
use std::alloc::AllocError;

/// How many bytes are moved at once.
const BLOCK: usize = 256;

/// Puts the head of the major type with the argument `n`, of at least this width, in the place of the
/// byte at the offset `start`. What follows that byte is moved if the head is longer.
///
/// # Errors
/// `AllocError` if memory is refused; `out` is then unchanged.
#[inline(always)]
pub fn set_head(
    out: &mut Vec<u8>,
    major: Major,
    least: Width,
    n: u64,
    start: usize,
) -> Result<(), AllocError>
    requires { start < length out.old.items }
    ensures placed { OnOk result (out.new.items ≡ with_head major least n start out.old.items) }
    ensures kept { OnErr result (out.new.items ≡ out.old.items) }
{
    if n < 24 {
        if let Width::Direct = least {
            out[start] = major.initial_byte(n as u8);
            return Ok(());
        }
    }
    set_wide_head(out, major, least, n, start)
}

/// Puts a head of any length in the place of the byte at the offset `start`. What follows that byte is
/// moved if the head is longer. Out of line, since most heads are one byte.
#[inline(never)]
fn set_wide_head(
    out: &mut Vec<u8>,
    major: Major,
    least: Width,
    n: u64,
    start: usize,
) -> Result<(), AllocError>
    requires { start < length out.old.items }
    ensures placed { OnOk result (out.new.items ≡ with_head major least n start out.old.items) }
    ensures kept { OnErr result (out.new.items ≡ out.old.items) }
{
    let width = if least.holds(n) { least } else { shortest(n) };
    let (bytes, len) = first_bytes(major, width, n);
    make_room(start + 1, len - 1, out)?;
    write_at(start, &bytes[..len], out);
    Ok(())
}

/// Writes the bytes over those from the offset `start` on.
#[inline(always)]
fn write_at(start: usize, bytes: &[u8], out: &mut Vec<u8>)
    requires { start + length bytes.now ≤ length out.old.items }
    ensures { out.new.items ≡ take start out.old.items ++ (bytes.now ++ drop (start + length bytes.now) out.old.items) }
{
    out[start..start + bytes.len()].copy_from_slice(bytes);
}

/// Moves the bytes from the offset `from` on by `more` bytes, the last ones first, so that none is
/// overwritten. The `more` bytes from `from` on then hold anything.
#[tactic(auto, using(crate::proofs::Shifting::moved))]
fn make_room(from: usize, more: usize, out: &mut Vec<u8>) -> Result<(), AllocError>
    requires inside { from ≤ length out.old.items }
    requires few { more ≤ 8 }
    ensures len { OnOk result (length out.new.items ≡ length out.old.items + more) }
    ensures before { OnOk result (take from out.new.items ≡ take from out.old.items) }
    ensures after { OnOk result (drop (from + more) out.new.items ≡ drop from out.old.items) }
    ensures kept { OnErr result (out.new.items ≡ out.old.items) }
{
    let mut end = out.len();
    out.extend_from_slice(&[0; 8][..more])?;
    let mut block = [0; BLOCK];
    'blocks: while end - from > BLOCK {
        end -= BLOCK;
        move_block(end, BLOCK, more, &mut block, out);
    }
    move_block(from, end - from, more, &mut block, out);
    Ok(())
}

/// Moves the `len` bytes from the offset `from` on by `more` bytes.
#[inline(always)]
fn move_block(from: usize, len: usize, more: usize, block: &mut [u8; BLOCK], out: &mut Vec<u8>)
    requires few { len ≤ 256 }
    requires inside { from + len + more ≤ length out.old.items }
    ensures len { length out.new.items ≡ length out.old.items }
    ensures before { take (from + more) out.new.items ≡ take (from + more) out.old.items }
    ensures after { drop (from + more) out.new.items ≡ take len (drop from out.old.items) ++ drop (from + more + len) out.old.items }
{
    block[..len].copy_from_slice(&out[from..from + len]);
    out[from + more..from + more + len].copy_from_slice(&block[..len]);
}
