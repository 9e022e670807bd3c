//! Hints: numbers by which most keys are compared without a look at their bytes.

ghost use Rattle.std.specs.Prelude.{◌≡◌, ◌<◌, ◌≤◌, ◌^◌, length, drop};
ghost use Rattle.cborn_judge.specs.devices.Hints.{front_of, length_hint, hint_of};

use cborn_model::KnownOrder;

/// The hint for a key. Of two keys with different hints, the one with the lower hint comes first.
/// It is 0 where the order isn't known.
#[inline(always)]
pub(crate) fn hint(known: Option<KnownOrder>, key: &[u8]) -> u64
    ensures { result ≡ hint_of known key.now }
{
    match known {
        Some(KnownOrder::Bytewise) => front_number(key),
        Some(KnownOrder::LengthFirst) => length_number(key),
        None => 0,
    }
}

/// The number whose first byte is the length of a key, and whose other seven are the key's first, as
/// if zeros followed it. A key of 255 bytes or more has the number of the byte 255 and seven zeros.
#[inline(always)]
fn length_number(key: &[u8]) -> u64
    ensures { result ≡ length_hint key.now }
{
    if key.len() >= 255 {
        return 255 * 0x100_0000_0000_0000;
    }
    key.len() as u64 * 0x100_0000_0000_0000 + front_number(key) / 256
}

/// The big-endian number of the first eight bytes of a key, as if zeros followed it.
#[inline(always)]
fn front_number(key: &[u8]) -> u64
    ensures { result ≡ front_of 8 key.now }
{
    match key {
        [a, b, c, d, e, f, g, h, ..] => u64::from_be_bytes([*a, *b, *c, *d, *e, *f, *g, *h]),
        [a, b, c, d, ..] => {
            u64::from(u32::from_be_bytes([*a, *b, *c, *d])) * 0x1_0000_0000 + after_four(key)
        }
        _ => u64::from(short_number(key)) * 0x100_0000_0000,
    }
}

/// The big-endian number of the fifth byte on of a key of four to seven, as if zeros followed. It
/// is cut out of the last four, whatever the length: a branch for each would be mispredicted.
#[inline(always)]
fn after_four(key: &[u8]) -> u64
    requires from_four { 4 ≤ length key.now }
    requires to_seven { length key.now < 8 }
    ensures value { result ≡ front_of 4 (drop 4 key.now) }
    ensures below { result < 2 ^ 32 }
{
    let [.., a, b, c, d] = key else {
        unreachable!();
    };
    let last = u64::from(u32::from_be_bytes([*a, *b, *c, *d]));
    (last << (64 - 8 * key.len())) % 0x1_0000_0000
}

/// The big-endian number of the first three bytes, as if zeros followed them.
#[inline(always)]
fn short_number(bytes: &[u8]) -> u32
    ensures value { result ≡ front_of 3 bytes.now }
    ensures below { result < 2 ^ 24 }
{
    match bytes {
        [a, b, c, ..] => u32::from_be_bytes([0, *a, *b, *c]),
        [a, b] => u32::from_be_bytes([0, *a, *b, 0]),
        [a] => u32::from_be_bytes([0, *a, 0, 0]),
        [] => 0,
    }
}

/// The front that two keys have in common.
pub(crate) fn common_front<'a>(a: &'a [u8], b: &[u8]) -> &'a [u8] {
    let len = a.iter().zip(b).take_while(|(x, y)| *x == *y).count();
    a.get(..len).unwrap_or(a)
}
