//! The shortest head, at the end of a buffer or in the place of a byte (RFC 8949 section 4.2.1). Other
//! crates' passes use it too.

ghost use Rattle.std.specs.Prelude.{◌≡◌, ◌<◌};
ghost use Rattle.cborn_det.specs.Common.{length, OnOk, OnErr, code, IsLeastHead};
ghost use Rattle.cborn_det.specs.Appending.{Appends, Replaces};

use cborn_model::{Major, Width, push_doubling, shortest};
use cborn_wire::push_head;
use std::alloc::AllocError;

/// Appends the shortest head of the major type with the argument `n` (RFC 8949 section 4.2.1).
///
/// # Errors
/// `AllocError` if memory is refused; `out` is then unchanged.
#[inline(always)]
pub fn put_head(major: Major, n: u64, out: &mut Vec<u8>) -> Result<(), AllocError>
    ensures appended { OnOk result (Appends (IsLeastHead (code major) n) out.old.items out.new.items) }
    ensures kept { OnErr result (out.new.items ≡ out.old.items) }
{
    if n < 24 {
        return push_doubling(out, major.initial_byte(n as u8));
    }
    put_long_head(major, n, out)
}

/// What [`put_head`] does where the argument doesn't fit the initial byte.
#[inline(never)]
fn put_long_head(major: Major, n: u64, out: &mut Vec<u8>) -> Result<(), AllocError>
    ensures appended { OnOk result (Appends (IsLeastHead (code major) n) out.old.items out.new.items) }
    ensures kept { OnErr result (out.new.items ≡ out.old.items) }
{
    push_head(out, major, shortest(n), n)
}

/// Puts the shortest head of the major type with the argument `n` in the place of the byte at the
/// offset `start` of `out` (RFC 8949 section 4.2.1).
///
/// # Errors
/// `AllocError` if memory is refused; `out` is then unchanged.
#[inline(always)]
pub fn set_head(major: Major, n: u64, start: usize, out: &mut Vec<u8>) -> Result<(), AllocError>
    requires { start < length out.old.items }
    ensures replaced { OnOk result (Replaces (IsLeastHead (code major) n) start out.old.items out.new.items) }
    ensures kept { OnErr result (out.new.items ≡ out.old.items) }
{
    cborn_wire::set_head(out, major, Width::Direct, n, start)
}
