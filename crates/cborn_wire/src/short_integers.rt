//! Integers with the shortest heads, told apart with few branches, since their widths can't be
//! foretold.

ghost use Rattle.std.specs.Prelude.{◌≡◌, ◌≤◌, ◌<◌, ℕ, List, length, take};
ghost use Rattle.cborn_wire.specs.Common.{Tree, IsInteger, IsShortLeaf, AreShortIntegers, IsIntegerForm, top_of};

/// Integers with the shortest heads at the front of some bytes.
#[derive(Clone, Copy)]
pub struct Integers {
    /// How many.
    pub count: u64,
    /// How many bytes they are.
    pub len: usize,
}

/// The integers at the front of `bytes` whose heads are the shortest (RFC 8949 section 4.2.1), but at
/// most `most`. One that begins in the last eight bytes is left out, since `int_len` doesn't read
/// it. Takes no memory.
pub fn integers_at(bytes: &[u8], most: u64) -> Integers
    ensures len { result.len ≤ length bytes.now }
    ensures most { result.count ≤ most }
    ensures integers { (place : ℕ) → (ts : List Tree) × AreShortIntegers place (take result.len bytes.now) ts × (length ts ≡ result.count) }
{
    let mut rest = bytes;
    let mut count = 0;
    while count < most {
        let len = int_len(rest);
        if len == 0 {
            break;
        }
        rest = &rest[len..];
        count += 1;
    }
    let len = bytes.len() - rest.len();
    Integers { count, len }
}

/// The length in bytes of the integer at the front of the bytes, if its head is the shortest (RFC 8949
/// section 4.2.1) and the bytes are nine or more; else 0. No clause says when it is above 0: an item of
/// which it is 0 is read in another way. Takes no memory.
#[inline(always)]
fn int_len(bytes: &[u8]) -> usize
    ensures len { result ≤ length bytes.now }
    ensures integer { 0 < result → (place : ℕ) → (t : Tree) × IsInteger t × IsShortLeaf place (take result bytes.now) t }
{
    let [first, a, b, c, d, _, _, _, _, ..] = bytes else {
        return 0;
    };
    let (len, least) = form(*first);
    if top(*a, *b, *c, *d) < least {
        return 0;
    }
    len
}

/// The big-endian number of the bytes after the first.
#[inline(always)]
fn top(a: u8, b: u8, c: u8, d: u8) -> u32
    ensures { result ≡ top_of a b c d }
{
    u32::from(a) * 16777216 + u32::from(b) * 65536 + u32::from(c) * 256 + u32::from(d)
}

/// The length of the integer with this initial byte, and the least number of the four bytes after
/// it with which its head is the shortest. The length is 0 where no integer begins so.
#[inline(always)]
fn form(first: u8) -> (usize, u32)
    ensures { 0 < result.0 → IsIntegerForm first result.0 result.1 }
{
    if first > 63 {
        return (0, 0);
    }
    // The wide forms are next to one another by the low five bits, and are looked up rather than branched to.
    // The least arguments 24, 256, 65536 and 2^32 as they are in the four bytes: 24 * 2^24, 256 * 2^16,
    // 65536, and 1 in the upper four of eight.
    match first % 32 {
        0..=23 => (1, 0),
        24 => (2, 402653184),
        25 => (3, 16777216),
        26 => (5, 65536),
        27 => (9, 1),
        _ => (0, 0),
    }
}
