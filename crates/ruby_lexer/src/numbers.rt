ghost use Rattle.std.specs.Prelude.{◌≡◌, ◌≤◌, ◌<◌, ◌+◌, ◌^◌, ◌==◌, ◌||◌, length, Err, IfSome, IsTrue, MatchOption};
ghost use Rattle.ruby_lexer.specs.Characters.{first_is};
ghost use Rattle.ruby_lexer.specs.Numbers as spec;
ghost use Rattle.ruby_lexer.specs.Tokens as tokens;
ghost use Rattle.ruby_lexer.specs.declared.refusal.Form.TheVariants as form;
ghost use Rattle.ruby_lexer.specs.Answers.{Gives};

use crate::characters::{
    begins, begins_with_digit, begins_word, behind, digit_value, has_front, is_digit,
};
use crate::kind::RubyKind;
use crate::placing::{refused, token};
use crate::refusal::{Form, RubyAt};
use crate::state::State;
use crate::token::{RubyToken, RubyValue};

/// In which base the digits of an integer are.
#[derive(Clone, Copy, Debug, PartialEq, Eq)]
pub enum Base {
    Binary,
    Octal,
    Decimal,
    Hexadecimal,
}

fn radix(base: Base) -> u128
    ensures { result ≡ spec.radix base }
{
    match base {
        Base::Binary => 2,
        Base::Octal => 8,
        Base::Decimal => 10,
        Base::Hexadecimal => 16,
    }
}

// The digits of a base.
fn is_digit_of(base: Base, byte: u8) -> bool
    ensures { result ≡ spec.is_digit_of base byte }
{
    match base {
        Base::Binary => byte == b'0' || byte == b'1',
        Base::Octal => byte >= b'0' && byte <= b'7',
        Base::Decimal => is_digit(byte),
        Base::Hexadecimal => byte.is_ascii_hexdigit(),
    }
}

// Whether a digit of the base begins the text.
fn begins_with_digit_of(base: Base, text: &[u8]) -> bool
    ensures { result ≡ first_is (spec.is_digit_of base) text.now }
{
    match text {
        [first, ..] => is_digit_of(base, *first),
        [] => false,
    }
}

// Whether a byte is a digit, or a `_` before a digit.
fn goes_on(base: Base, byte: u8, rest: &[u8]) -> bool
    ensures { result ≡ spec.goes_on base byte rest.now }
{
    is_digit_of(base, byte) || byte == b'_' && begins_with_digit_of(base, rest)
}

fn digits_front(base: Base, text: &[u8]) -> usize
    ensures value { result ≡ spec.digits_front base text.now }
    ensures within { result ≤ length text.now }
{
    for (at, byte) in text.iter().enumerate() {
        if !goes_on(base, *byte, &text[at + 1..]) {
            return at;
        }
    }
    text.len()
}

/// Digits with single `_` between them.
pub fn digits_len(base: Base, text: &[u8]) -> usize
    ensures value { result ≡ spec.digits_len base text.now }
    ensures within { result ≤ length text.now }
{
    if begins_with_digit_of(base, text) {
        digits_front(base, text)
    } else {
        0
    }
}

// ---- fractions and suffixes

// `.` and digits.
fn point_len(text: &[u8]) -> usize
    ensures value { result ≡ spec.point_len text.now }
    ensures within { result ≤ length text.now }
{
    match text {
        [b'.', rest @ ..] if begins_with_digit(rest) => 1 + digits_len(Base::Decimal, rest),
        _ => 0,
    }
}

// `+`, `-` or nothing.
fn sign_len(text: &[u8]) -> usize
    ensures value { result ≡ spec.sign_len text.now }
    ensures within { result ≤ length text.now }
{
    match text {
        [first, ..] => {
            if *first == b'+' || *first == b'-' {
                1
            } else {
                0
            }
        }
        [] => 0,
    }
}

// `e` or `E`.
fn begins_exponent(text: &[u8]) -> bool
    ensures { result ≡ first_is (λ b. b == 101 || b == 69) text.now }
{
    match text {
        [first, ..] => *first == b'e' || *first == b'E',
        [] => false,
    }
}

// Whether these letters are here, and no word character behind them.
fn is_suffix(letters: &str, text: &[u8]) -> bool
    ensures { result ≡ spec.is_suffix letters.now text.now }
{
    has_front(letters, text) && !begins_word(behind(text, letters.len()))
}

// `e` or `E`, a sign or none, and digits.
fn exponent_len(text: &[u8]) -> usize
    ensures value { result ≡ spec.exponent_len text.now }
    ensures within { result ≤ length text.now }
{
    match text {
        [_, rest @ ..] if begins_exponent(text) => {
            let sign = sign_len(rest);
            let digits = digits_len(Base::Decimal, behind(rest, sign));
            if digits == 0 { 0 } else { 1 + sign + digits }
        }
        _ => 0,
    }
}

// What makes a decimal number a float.
fn fraction_len(text: &[u8]) -> usize
    ensures value { result ≡ spec.fraction_len text.now }
    ensures within { result ≤ length text.now }
{
    let point = point_len(text);
    point + exponent_len(behind(text, point))
}

// The suffix here: how long it is, and the form that it makes.
fn suffix(text: &[u8]) -> Option<(usize, Form)>
    ensures value { result ≡ spec.suffix text.now }
    ensures within { IfSome result (λ suffix. suffix.0 ≤ length text.now) }
{
    if is_suffix("ri", text) {
        Some((2, Form::Imaginary))
    } else if is_suffix("r", text) {
        Some((1, Form::Rational))
    } else if is_suffix("i", text) {
        Some((1, Form::Imaginary))
    } else {
        None
    }
}

// ---- numbers

// How many bytes a minus takes, where there is one.
fn minus_len(minus: bool) -> usize
    ensures { result ≡ spec.minus_len minus }
{
    if minus { 1 } else { 0 }
}

const MOST: u128 = 1 << 127;

// The number that goes on by a digit, unless it is more than any that fits.
fn next_value(base: Base, value: u128, byte: u8) -> Option<u128>
    ensures { MatchOption result (2 ^ 127 < spec.value_on base value byte) (λ next. next ≡ spec.value_on base value byte) }
{
    if !is_digit_of(base, byte) {
        return Some(value);
    }
    let next = value
        .checked_mul(radix(base))?
        .checked_add(u128::from(digit_value(byte)))?;
    if next <= MOST { Some(next) } else { None }
}

// The number of these digits, unless it is more than any that fits.
fn value_of(base: Base, digits: &[u8]) -> Option<u128>
    ensures { MatchOption result (2 ^ 127 < spec.value_from base 0 digits.now) (λ value. value ≡ spec.value_from base 0 digits.now) }
{
    let mut value = 0u128;
    for byte in digits {
        let Some(next) = next_value(base, value, *byte) else {
            return None;
        };
        value = next;
    }
    Some(value)
}

// The greatest size that fits 128 bits.
fn limit(minus: bool) -> u128
    ensures { result ≡ spec.limit minus }
{
    if minus { MOST } else { MOST - 1 }
}

// The integer of this size.
fn signed(minus: bool, size: u128) -> i128
    requires { size ≤ spec.limit minus }
    ensures { result ≡ spec.signed minus size }
{
    if !minus {
        size as i128
    } else if size == 0 {
        0
    } else {
        -1 - (size - 1) as i128
    }
}

// An integer of this size and so many bytes.
fn sized(minus: bool, state: State, size: u128, len: usize) -> Result<RubyToken, RubyAt>
    requires { state.place + len < 2 ^ 32 }
    ensures { Gives result (spec.sized minus state size len) }
{
    if size <= limit(minus) {
        let value = RubyValue::Integer(signed(minus, size));
        Ok(token(state, RubyKind::Integer, value, len))
    } else {
        Err(refused(state, len, Form::WideInteger))
    }
}

// An integer of these digits and so many bytes.
fn sized_by(
    minus: bool,
    state: State,
    base: Base,
    digits: &[u8],
    len: usize,
) -> Result<RubyToken, RubyAt>
    requires { state.place + len < 2 ^ 32 }
    ensures { Gives result (spec.sized minus state (spec.value_from base 0 digits.now) len) }
{
    match value_of(base, digits) {
        Some(size) => sized(minus, state, size, len),
        None => Err(refused(state, len, Form::WideInteger)),
    }
}

// The integer whose digits are here, behind so many bytes.
fn integer(
    minus: bool,
    state: State,
    base: Base,
    before: usize,
    digits: &[u8],
) -> Result<RubyToken, RubyAt>
    requires { state.place + before + length digits.now < 2 ^ 32 }
    ensures { Gives result (spec.integer minus state base before digits.now) }
{
    let len = digits_len(base, digits);
    match suffix(behind(digits, len)) {
        Some((more, form)) => Err(refused(state, before + len + more, form)),
        None => sized_by(minus, state, base, &digits[..len], before + len),
    }
}

// The float whose digits are here, behind so many bytes.
fn float(state: State, len: usize, rest: &[u8]) -> RubyAt
    requires { state.place + len + length rest.now < 2 ^ 32 }
    ensures { Err result ≡ spec.with_suffix state len (spec.suffix rest.now) (Err (tokens.refused state len form.Float)) }
{
    match suffix(rest) {
        Some((more, form)) => refused(state, len + more, form),
        None => refused(state, len, Form::Float),
    }
}

// The decimal number whose digits are here, behind so many bytes.
fn decimal(minus: bool, state: State, before: usize, digits: &[u8]) -> Result<RubyToken, RubyAt>
    requires { state.place + before + length digits.now < 2 ^ 32 }
    ensures { Gives result (spec.decimal minus state before digits.now) }
{
    let len = digits_len(Base::Decimal, digits);
    let fraction = fraction_len(behind(digits, len));
    if fraction == 0 {
        integer(minus, state, Base::Decimal, before, digits)
    } else {
        Err(float(
            state,
            before + len + fraction,
            behind(digits, len + fraction),
        ))
    }
}

// Whether `0`, this letter and a digit of the base are here.
fn is_based(letter: u8, base: Base, text: &[u8]) -> bool
    ensures value { result ≡ spec.is_based letter base text.now }
    ensures within { IsTrue result → 2 ≤ length text.now }
{
    match text {
        [b'0', second, rest @ ..] => *second == letter && begins_with_digit_of(base, rest),
        _ => false,
    }
}

// The base of the number here.
fn base_of(text: &[u8]) -> Base
    ensures value { result ≡ spec.base_of text.now }
    ensures within { spec.prefix_len result ≤ length text.now }
{
    if is_based(b'x', Base::Hexadecimal, text) {
        Base::Hexadecimal
    } else if is_based(b'b', Base::Binary, text) {
        Base::Binary
    } else if is_based(b'o', Base::Octal, text) {
        Base::Octal
    } else {
        Base::Decimal
    }
}

// The number of a base that is here.
fn number_of(base: Base, minus: bool, state: State, digits: &[u8]) -> Result<RubyToken, RubyAt>
    requires within { spec.prefix_len base ≤ length digits.now }
    requires fits { state.place + spec.minus_len minus + length digits.now < 2 ^ 32 }
    ensures { Gives result (spec.number_of base minus state digits.now) }
{
    let sign = minus_len(minus);
    match base {
        Base::Decimal => decimal(minus, state, sign, digits),
        _ => integer(minus, state, base, sign + 2, behind(digits, 2)),
    }
}

/// The number here, which has a minus before it or none; the minus, where it is, is where the lexer stands.
#[tactic(auto, unfolding(crate::specs::Numbers::number_here))]
pub fn number_here(minus: bool, state: State, digits: &[u8]) -> Result<RubyToken, RubyAt>
    requires fits { state.place + spec.minus_len minus + length digits.now < 2 ^ 32 }
    ensures { Gives result (spec.number_here minus state digits.now) }
{
    number_of(base_of(digits), minus, state, digits)
}
