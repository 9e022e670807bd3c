//! Integers and the numbers of tags (RFC 8949 section 8, RFC 8610 appendix G.5).

ghost use Rattle.std.specs.Prelude.{◌≡◌, ◌+◌, ◌*◌, ◌<◌, ◌≤◌, MatchOption, length, take, drop, Bool, [], slice_index, IfSome, true, Ok, Err, false, ◌==◌, ◌||◌, ◌&&◌, not, ◌^◌, if◌then◌else◌, ℕ, IfNone};
ghost use Rattle.cborn_lex.specs.Common.{list_all, list_any, digit_value, is_digit};
ghost use Rattle.cborn_lex.specs.Cited.{begins, is_numeral, integer, within, number, are_digits, number_front, BeginsDecimal, ReadsNumber, IsRun};
ghost use Rattle.cborn_lex.specs.devices.Common.{front_view};

use crate::classes::{Kind, Mark};
use crate::faults::LexReason;
use crate::fronts::Front;
use crate::slices::{begins_with, has_prefix, is_numeral, mark_at, numeral_len, rest_of};

/// The value of a digit, or of a letter as a digit from 10 on. 36 for any other character.
pub fn digit_of(c: u8) -> u8
    ensures { result ≡ digit_value c }
{
    match c {
        b'0'..=b'9' => c - b'0',
        b'A'..=b'Z' => c - b'A' + 10,
        b'a'..=b'z' => c - b'a' + 10,
        _ => 36,
    }
}

/// Whether each character is a digit of the base.
pub fn all_digits(base: u8, ds: &[u8]) -> bool
    ensures { result ≡ list_all (λ d. is_digit d base) ds.now }
{
    ds.iter().all(|d| digit_of(*d) < base)
}

/// Whether there are digits of the base, and nothing else.
fn are_digits(base: u8, ds: &[u8]) -> bool
    ensures { result ≡ are_digits base ds.now }
{
    !ds.is_empty() && all_digits(base, ds)
}

/// The number that digits of the base spell, if it fits 128 bits.
#[tactic(auto, using(crate::proofs::Sliced::Words::too_large, crate::proofs::Sliced::Words::all_read))]
fn value(base: u8, ds: &[u8]) -> Result<u128, LexReason>
    requires { 1 ≤ base }
    ensures { result ≡ within (number base 0 ds.now) }
{
    let mut n: u128 = 0;
    for d in ds {
        let Some(longer) = with_digit(base, n, digit_of(*d)) else {
            return Err(LexReason::NumberTooLarge);
        };
        n = longer;
    }
    Ok(n)
}

/// The number that `n` and one more digit spell, if it fits 128 bits. Most need no test for that.
#[inline(always)]
fn with_digit(base: u8, n: u128, digit: u8) -> Option<u128>
    ensures { MatchOption result (2 ^ 128 ≤ n * base + digit) (λ m. m ≡ n * base + digit) }
{
    if n < ROOM_FOR_MORE {
        return Some(n * base as u128 + digit as u128);
    }
    n.checked_mul(base as u128)?.checked_add(digit as u128)
}

/// Any number below 2^120 has room for one more digit of any base in 128 bits.
const ROOM_FOR_MORE: u128 = 0x0100_0000_0000_0000_0000_0000_0000_0000;

/// Whether `x` has a point, or one of the letters `a` and `b`.
fn has_point_or(a: u8, b: u8, x: &[u8]) -> bool
    ensures { result ≡ list_any (λ c. (c == 46) || ((c == a) || ((c == b) || false))) x.now }
{
    x.iter().any(|c| *c == b'.' || *c == a || *c == b)
}

/// What follows the two characters that name a base, as `0x`.
fn after_two(x: &[u8]) -> &[u8]
    ensures { result.now ≡ drop 2 x.now }
{
    if x.len() < 2 { &x[x.len()..] } else { &x[2..] }
}

/// The integer of base 8 or 2 whose digits are `ds`.
fn based(base: u8, ds: &[u8]) -> Result<u128, LexReason>
    requires { 1 ≤ base }
    ensures { result ≡ (if are_digits base ds.now then within (number base 0 ds.now) else Err LexReason.BadNumber) }
{
    if are_digits(base, ds) {
        value(base, ds)
    } else {
        Err(LexReason::BadNumber)
    }
}

/// The integer that `body`, the text of a number without its minus, spells, or why it spells none.
fn integer(negative: bool, body: &[u8]) -> Result<u128, LexReason>
    ensures { result ≡ integer negative body.now }
{
    if has_prefix(b"0x", body) || has_prefix(b"0X", body) {
        let ds = after_two(body);
        if are_digits(16, ds) {
            value(16, ds)
        } else if has_point_or(b'p', b'P', ds) {
            Err(LexReason::FloatLeftOut)
        } else {
            Err(LexReason::BadNumber)
        }
    } else if has_prefix(b"0o", body) || has_prefix(b"0O", body) {
        based(8, after_two(body))
    } else if has_prefix(b"0b", body) || has_prefix(b"0B", body) {
        based(2, after_two(body))
    } else if are_digits(10, body) {
        if body == b"0".as_slice() || !has_prefix(b"0", body) {
            value(10, body)
        } else {
            Err(LexReason::BadNumber)
        }
    } else if !body.is_empty() && body[0].is_ascii_digit() && has_point_or(b'e', b'E', body) {
        Err(LexReason::FloatLeftOut)
    } else if negative && has_prefix(b"Infinity", body) {
        Err(LexReason::FloatLeftOut)
    } else {
        Err(LexReason::BadNumber)
    }
}

/// Reads an integer of any form after its minus, and gives how many bytes of `body` it takes. Out of
/// line, since most are decimal and short.
#[tactic(auto, using(crate::proofs::Decimals::digits_pass))]
#[inline(never)]
fn any_integer(negative: bool, body: &[u8]) -> (Result<u128, LexReason>, usize)
    ensures within { result.1 ≤ length body.now }
    ensures run { IsRun is_numeral (take result.1 body.now) (drop result.1 body.now) }
    ensures value { result.0 ≡ integer negative (take result.1 body.now) }
{
    let digits = digits_len(body);
    if digits > 0 && body[0] != b'0' && !begins_numeral(rest_of(body, digits)) {
        return (value(10, &body[..digits]), digits);
    }
    let n = numeral_len(body);
    (integer(negative, &body[..n]), n)
}

/// How many decimal digits `tail` begins with.
fn digits_len(tail: &[u8]) -> usize
    ensures within { result ≤ length tail.now }
    ensures digits { list_all (λ d. is_digit d 10) (take result tail.now) ≡ true }
{
    for (i, c) in tail.iter().enumerate() {
        if digit_of(*c) >= 10 {
            return i;
        }
    }
    tail.len()
}

/// Whether `x` begins with a character that may be in a number.
fn begins_numeral(x: &[u8]) -> bool
    ensures { result ≡ begins is_numeral x.now }
{
    x.len() > 0 && is_numeral(x[0])
}

/// The decimal integer that `tail` begins with, and how many digits it has (RFC 8949 section 8, RFC
/// 8610 appendix G.5). `None` if `tail` begins with a number of another form, with no number, or
/// with more than 19 digits. As 19 digits always fit 64 bits, no digit needs a test for overflow.
#[inline(always)]
pub fn decimal_at(tail: &[u8]) -> Option<(u64, usize)>
    ensures within { IfSome result (λ r. r.1 ≤ length tail.now) }
    ensures some { IfSome result (λ r. 0 < r.1) }
    ensures run { IfSome result (λ r. IsRun is_numeral (take r.1 tail.now) (drop r.1 tail.now)) }
    ensures value { IfSome result (λ r. (negative : Bool) → integer negative (take r.1 tail.now) ≡ Ok r.0) }
    ensures none { IfNone result ((len : ℕ) → BeginsDecimal tail.now len → ⊥) }
{
    let mut n: u64 = 0;
    let mut len: usize = 0;
    'digits: while let Some(digit) = digit_at(tail, len) {
        if len == 19 {
            return None;
        }
        n = n * 10 + digit as u64;
        len += 1;
    }
    if len == 0 || (len > 1 && tail[0] == b'0') {
        return None;
    }
    if len < tail.len() && continues_number(tail[len]) {
        return None;
    }
    Some((n, len))
}

/// Whether the character `c`, which is no decimal digit, may be in a number.
#[tactic(auto, using(crate::proofs::Decimals::letter_numeral))]
#[inline(always)]
fn continues_number(c: u8) -> bool
    requires { is_digit c 10 ≡ false }
    ensures { result ≡ is_numeral c }
{
    // A comma follows most numbers.
    c != b',' && (c.is_ascii_alphabetic() || c == b'.')
}

/// The value of the decimal digit at the offset `at` of `tail`; `None` if there is none.
#[inline(always)]
fn digit_at(tail: &[u8], at: usize) -> Option<u8>
    ensures digit { IfSome result (λ d. (at < length tail.now) × (slice_index tail.now at ≡ 48 + d) × (d ≤ 9)) }
    ensures none { IfNone result (at < length tail.now → is_digit (slice_index tail.now at) 10 ≡ false) }
{
    if at >= tail.len() {
        return None;
    }
    let digit = tail[at].wrapping_sub(b'0');
    if digit <= 9 { Some(digit) } else { None }
}

/// Reads an integer after its minus, and gives how many bytes of `body` it takes.
#[inline(always)]
fn integer_at(negative: bool, body: &[u8]) -> (Result<u128, LexReason>, usize)
    ensures within { result.1 ≤ length body.now }
    ensures run { IsRun is_numeral (take result.1 body.now) (drop result.1 body.now) }
    ensures value { result.0 ≡ integer negative (take result.1 body.now) }
{
    match decimal_at(body) {
        Some((n, len)) => (Ok(n as u128), len),
        None => any_integer(negative, body),
    }
}

/// The front of a number, or, if `tagged`, of a tag's number, which is put into `number`.
#[inline(always)]
fn number_front(
    negative: bool,
    tagged: bool,
    mark: Option<Mark>,
    found: Result<u128, LexReason>,
    number: &mut u128,
) -> Front
    ensures { front_view number.new [] result ≡ number_front negative tagged mark found }
{
    match (found, mark) {
        (Err(reason), _) => Front::Bad(reason),
        (Ok(_), None) => Front::Bad(LexReason::BadIndicator),
        (Ok(n), Some(mark)) => {
            *number = n;
            if tagged {
                return Front::Read(Kind::TagOpen(mark));
            }
            let negative = negative && n != 0;
            Front::Read(Kind::Number { negative, mark })
        }
    }
}

/// Reads a number, after its minus if it is `negative`. Gives its kind, or what is wrong with it,
/// and how many bytes of `body` it takes. The number is put into `number`.
pub fn number_at(negative: bool, body: &[u8], number: &mut u128) -> (Front, usize)
    ensures within { result.1 ≤ length body.now }
    ensures reads { ReadsNumber negative [] (take result.1 body.now) (drop result.1 body.now) (front_view number.new [] result.0) }
{
    let (found, n) = integer_at(negative, body);
    let after = rest_of(body, n);
    let (mark, m) = mark_at(after);
    let tagged = !negative & begins_with(b'(', rest_of(after, m));
    let front = number_front(negative, tagged, mark, found, number);
    (front, n + m + tagged as usize)
}

/// Reads the number without a minus that `text` begins with. Gives its kind, or what is wrong with
/// it, and how many bytes it takes of `tail`, which follows its first digit. The number is put into
/// `number`.
#[inline(always)]
pub fn number_from_digit(text: &[u8], tail: &[u8], number: &mut u128) -> (Front, usize)
    requires some { 0 < length text.now }
    requires tail { tail.now ≡ drop 1 text.now }
    requires least { 48 ≤ slice_index text.now 0 }
    requires most { slice_index text.now 0 ≤ 57 }
    ensures within { result.1 ≤ length tail.now }
    ensures reads { ReadsNumber false (take 1 text.now) (take result.1 tail.now) (drop result.1 tail.now) (front_view number.new [] result.0) }
{
    let (front, n) = number_at(false, text, number);
    (front, n - 1)
}
