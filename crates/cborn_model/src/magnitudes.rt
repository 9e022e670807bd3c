//! Magnitudes of integers (RFC 8949 sections 3.1 and 3.4.3): big-endian bytes, and the numbers that
//! they are.

ghost use Rattle.std.specs.Prelude.{◌≡◌, ◌<◌, ◌≤◌, ◌^◌};
ghost use Rattle.cborn_model.specs.Common.{length, IfOk, MatchOption};
ghost use Rattle.cborn_model.specs.Bytes.{AreBytes, IsShortest, big_endian};

use crate::ByteString;
use std::alloc::{AllocError, Global};

/// The magnitude of the number with these big-endian bytes, such as those of a `u64`: the bytes
/// without leading zeros.
///
/// # Errors
/// `AllocError` if memory is refused.
pub fn magnitude_of(alloc: Global, bytes: &[u8]) -> Result<ByteString, AllocError>
    ensures bytes { IfOk result AreBytes }
    ensures shortest { IfOk result IsShortest }
    ensures number { IfOk result (λ magnitude. big_endian magnitude ≡ big_endian bytes.now) }
    ensures length { IfOk result (λ magnitude. length magnitude < 2 ^ 64) }
{
    let digits = without_zeros(bytes).to_vec(alloc)?;
    Ok(ByteString::new(digits))
}

/// The number with these big-endian bytes; `None` from 2^64 on.
#[tactic(auto, using(crate::proofs::Numbers::SomeMagnitude::number_above, crate::proofs::Numbers::OneMagnitude::read_more))]
#[inline]
pub fn word_of(bytes: &[u8]) -> Option<u64>
    ensures { MatchOption result (2 ^ 64 ≤ big_endian bytes.now) (λ n. big_endian bytes.now ≡ n) }
{
    let mut n: u64 = 0;
    for byte in bytes {
        if n >= 0x0100_0000_0000_0000 {
            return None;
        }
        n = n * 256 + *byte as u64;
    }
    Some(n)
}

/// Big-endian bytes without their leading zeros, which leaves the number the same.
pub fn without_zeros(bytes: &[u8]) -> &[u8]
    ensures bytes { AreBytes result.now }
    ensures shortest { IsShortest result.now }
    ensures number { big_endian result.now ≡ big_endian bytes.now }
{
    let mut rest = bytes;
    while let [0, after @ ..] = rest {
        rest = after;
    }
    rest
}
