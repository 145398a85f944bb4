ghost use Rattle.std.specs.Prelude.{◌≡◌, ◌≤◌, ◌^◌, ◌-◌, ◌<◌, if◌then◌else◌, length, nat_le, IfSome, MatchOption};
ghost use Rattle.rbs_lexer.specs.Bytes as bytes;
ghost use Rattle.rbs_lexer.specs.Numbers as numbers;
ghost use Rattle.rbs_lexer.specs.Finds as spec;

use crate::kind::Kind;
use crate::reading::{Found, Reading};

const MOST: u128 = (1 << 127) - 1;

/// The integer at the front, which is refused past 128 bits.
#[tactic(auto, unfolding(crate::specs::Finds::number_front))]
pub fn number(text: &[u8]) -> Option<Found>
    ensures { result ≡ spec.number_front text.now }
{
    match text {
        [b'-', digits @ ..] => sized(1, MOST + 1, digits),
        _ => sized(0, MOST, text),
    }
}

/// Whether the text begins with a digit.
pub fn begins_with_digit(text: &[u8]) -> bool
    ensures { result ≡ bytes.begins_with_digit text.now }
{
    match text {
        [first, ..] => is_digit(*first),
        [] => false,
    }
}

// The integer of the digits at the front, behind a sign of some bytes.
fn sized(sign: usize, limit: u128, text: &[u8]) -> Option<Found>
    requires { sign < 2 }
    ensures { result ≡ spec.sized_front sign limit text.now (spec.digits_len text.now) }
{
    let len = digits_len(text)?;
    Some(Found {
        reading: fitting(limit, &text[..len]),
        len: sign + len,
    })
}

fn fitting(limit: u128, digits: &[u8]) -> Reading
    ensures { result ≡ spec.fitting limit digits.now }
{
    if is_within(limit, digits) {
        Reading::Token(Kind::Integer)
    } else {
        Reading::Refused
    }
}

// How long the digits at the front are, with single `_` between them.
fn digits_len(text: &[u8]) -> Option<usize>
    ensures value { result ≡ spec.digits_len text.now }
    ensures within { IfSome result (λ len. len ≤ length text.now) }
{
    if begins_with_digit(text) {
        Some(digits_front(text))
    } else {
        None
    }
}

fn digits_front(text: &[u8]) -> usize
    ensures value { result ≡ spec.digits_front text.now }
    ensures within { result ≤ length text.now }
{
    for (at, byte) in text.iter().enumerate() {
        if !goes_on(*byte, &text[at + 1..]) {
            return at;
        }
    }
    text.len()
}

// Whether the byte is a digit, or a `_` before one.
fn goes_on(byte: u8, rest: &[u8]) -> bool
    ensures { result ≡ numbers.goes_on byte rest.now }
{
    is_digit(byte) || byte == b'_' && begins_with_digit(rest)
}

/// Whether the byte is a digit.
pub fn is_digit(byte: u8) -> bool
    ensures { result ≡ bytes.is_digit byte }
{
    byte >= b'0' && byte <= b'9'
}

// Whether the number of these digits is at most the limit.
fn is_within(limit: u128, digits: &[u8]) -> bool
    ensures { result ≡ nat_le (numbers.value_from 0 digits.now) limit }
{
    let mut value = 0u128;
    for byte in digits {
        let Some(next) = next_value(limit, value, *byte) else {
            return false;
        };
        value = next;
    }
    value <= limit
}

// The number that goes on by a digit, unless it passes the limit.
fn next_value(limit: u128, value: u128, byte: u8) -> Option<u128>
    ensures { MatchOption result (limit < numbers.value_on value byte) (λ next. next ≡ numbers.value_on value byte) }
{
    if !is_digit(byte) {
        return Some(value);
    }
    let next = value.checked_mul(10)?.checked_add(u128::from(byte - b'0'))?;
    if next <= limit { Some(next) } else { None }
}
