//! The units of UTF-16 that escapes `\uXXXX` write (RFC 8259 section 7).

ghost use Rattle.std.specs.Prelude.{◌≡◌, ◌<◌, ◌≤◌, length, drop, true, IfSome, IfNone, Some, None, if◌then◌else◌};
ghost use Rattle.cborn_lex.specs.Cited.{are_hex, code, is_high, is_low};
ghost use Rattle.cborn_lex.specs.devices.Common.{code_at, low_code, unit_from};

use crate::slices::rest_of;

/// The number that four hexadecimal digits write. `None` if one of them is no such digit.
#[inline(always)]
fn hex_code(a: u8, b: u8, c: u8, d: u8) -> Option<u32>
    ensures value { result ≡ (if are_hex a b c d then Some (code a b c d) else None) }
    ensures small { IfSome result (λ n. n < 65536) }
{
    let a = char::from(a).to_digit(16)?;
    let b = char::from(b).to_digit(16)?;
    let c = char::from(c).to_digit(16)?;
    let d = char::from(d).to_digit(16)?;
    Some(((a * 16 + b) * 16 + c) * 16 + d)
}

/// The unit that the four hexadecimal digits write that `x` begins with. `None` if there are no four.
#[tactic(auto, using(crate::proofs::Contents::Letters::no_code))]
#[inline(always)]
pub fn code_at(x: &[u8]) -> Option<u32>
    ensures value { result ≡ code_at x.now }
    ensures small { IfSome result (λ n. (n < 65536) × (4 ≤ length x.now)) }
{
    let [a, b, c, d, ..] = x else { return None };
    hex_code(*a, *b, *c, *d)
}

/// The low surrogate of the escape that `x` begins with, if there is one.
#[tactic(auto, using(crate::proofs::Contents::Letters::no_low))]
#[inline(never)]
fn low_code(x: &[u8]) -> Option<u32>
    ensures value { result ≡ low_code x.now }
    ensures low { IfSome result (λ n. is_low n ≡ true) }
{
    if x.len() < 6 || x[0] != b'\\' || x[1] != b'u' {
        return None;
    }
    let n = code_at(rest_of(x, 2))?;
    if is_low(n) { Some(n) } else { None }
}

/// The character of an escape `\uXXXX`, or of two for a surrogate pair. `x` is what follows the first
/// `u`. `None` if that is no escape. From its backslash on the escape takes six bytes for each unit of
/// the character. Out of line, since most escapes have two characters.
#[inline(never)]
pub fn unit_at(x: &[u8]) -> Option<char>
    ensures none { IfNone result (unit_from (code_at x.now) (drop 4 x.now) ≡ None) }
    ensures one { IfSome result (λ c. c < 0x1_0000 → unit_from (code_at x.now) (drop 4 x.now) ≡ Some (c, 6)) }
    ensures two { IfSome result (λ c. 0x1_0000 ≤ c → unit_from (code_at x.now) (drop 4 x.now) ≡ Some (c, 12)) }
{
    let n = code_at(x)?;
    if 0xD800 <= n && n < 0xDC00 {
        let m = low_code(rest_of(x, 4))?;
        char::from_u32(0x1_0000 + (n - 0xD800) * 0x400 + (m - 0xDC00))
    } else {
        char::from_u32(n)
    }
}

/// Whether a unit is a low surrogate, the second half of a pair.
#[inline]
pub fn is_low(n: u32) -> bool
    ensures { result ≡ is_low n }
{
    0xDC00 <= n && n < 0xE000
}
