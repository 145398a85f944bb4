ghost use Rattle.std.specs.Prelude.{◌≡◌, ◌≤◌, ◌<◌, ◌^◌, ◌-◌, drop, pos, slice_index, IfOk, IfSome, MatchOption};
ghost use Rattle.rbs_lexer.specs.Numbers.{value_on, value_from};
ghost use Rattle.rbs_grammar.specs.Values as spec;
ghost use Rattle.rbs_parser.specs.Escapes.{escape_at};

use src_text::{Mem, NoMemory, Text};
use std::alloc::Global;

const MOST: u128 = (1 << 127) - 1;

/// What a string stands for, its quotes left out and its escapes replaced.
pub fn string_value(alloc: Global, text: &str) -> Mem<Text>
    ensures { IfOk result (λ value. value ≡ spec.string_value text.now) }
{
    quoted(alloc, text.as_bytes())
}

/// The name of a symbol.
#[tactic(auto, unfolding(rbs_grammar::specs::Values::symbol_value))]
pub fn symbol_value(alloc: Global, text: &str) -> Mem<Text>
    ensures { IfOk result (λ value. value ≡ spec.symbol_value text.now) }
{
    let name = past_first(text.as_bytes());
    let first = first_byte(name);
    if first == b'"' || first == b'\'' {
        quoted(alloc, name)
    } else {
        copied(alloc, name)
    }
}

/// The name of a method, its backquotes left out.
#[tactic(auto, unfolding(rbs_grammar::specs::Values::method_name_value))]
pub fn method_name_value(alloc: Global, text: &str) -> Mem<Text>
    ensures { IfOk result (λ value. value ≡ spec.method_name_value text.now) }
{
    let bytes = text.as_bytes();
    if first_byte(bytes) == b'`' {
        copied(alloc, inner(bytes))
    } else {
        Text::from_str(alloc, text)
    }
}

/// The integer that is written so. Past 128 bits, as no token is, it is 0.
#[tactic(auto, unfolding(rbs_grammar::specs::Values::integer_value))]
pub fn integer_value(text: &str) -> i128
    ensures { result ≡ spec.integer_value text.now }
{
    match text.as_bytes() {
        [b'-', digits @ ..] => negative(digits),
        digits => positive(digits),
    }
}

// ---- texts in quotes

fn quoted(alloc: Global, text: &[u8]) -> Mem<Text>
    ensures { IfOk result (λ value. value ≡ spec.string_value text.now) }
{
    let bytes = inner(text);
    if bytes.contains(&b'\\') {
        unescaped(alloc, first_byte(text), bytes)
    } else {
        copied(alloc, bytes)
    }
}

fn first_byte(text: &[u8]) -> u8
    ensures { result ≡ slice_index text.now 0 }
{
    match text {
        [first, ..] => *first,
        [] => 0,
    }
}

fn past_first(text: &[u8]) -> &[u8]
    ensures { result.now ≡ drop 1 text.now }
{
    match text {
        [_, rest @ ..] => rest,
        [] => text,
    }
}

// The bytes between the first and the last.
fn inner(text: &[u8]) -> &[u8]
    ensures { result.now ≡ spec.inner text.now }
{
    match text {
        [_, middle @ .., _] => middle,
        _ => &text[..0],
    }
}

// The text of the bytes, with their escapes replaced.
fn unescaped(alloc: Global, quote: u8, bytes: &[u8]) -> Mem<Text>
    ensures { IfOk result (λ value. value ≡ spec.unescaped quote bytes.now) }
{
    let mut value = Vec::new(alloc);
    let mut rest = bytes;
    while let [first, more @ ..] = rest {
        if let Some(byte) = escape(quote, rest) {
            value.push(byte)?;
            rest = past_first(more);
        } else {
            value.push(*first)?;
            rest = more;
        }
    }
    text_of(value)
}

// What the escape at the front stands for.
fn escape(quote: u8, bytes: &[u8]) -> Option<u8>
    ensures { result ≡ escape_at quote bytes.now }
{
    match bytes {
        [b'\\', byte, ..] => escaped(quote, *byte),
        _ => None,
    }
}

// What stands for the byte behind a backslash.
fn escaped(quote: u8, byte: u8) -> Option<u8>
    ensures { result ≡ spec.escaped quote byte }
{
    if byte == quote || byte == b'\\' {
        return Some(byte);
    }
    match byte {
        b'n' if quote == b'"' => Some(b'\n'),
        b't' if quote == b'"' => Some(b'\t'),
        _ => None,
    }
}

fn copied(alloc: Global, bytes: &[u8]) -> Mem<Text>
    ensures { IfOk result (λ value. value ≡ bytes.now) }
{
    text_of(Vec::from_slice(alloc, bytes)?)
}

// The text of the bytes. Those of a token are UTF-8; for others there would be no memory.
fn text_of(bytes: Vec<u8>) -> Mem<Text>
    ensures { IfOk result (λ value. value ≡ bytes.items) }
{
    match String::from_utf8(bytes) {
        Ok(text) => Ok(Text::from_string(text)),
        Err(_) => Err(NoMemory),
    }
}

// ---- integers

fn positive(digits: &[u8]) -> i128
    ensures { result ≡ spec.sized (2 ^ 127 - 1) pos digits.now }
{
    match value_within(MOST, digits) {
        Some(value) => value as i128,
        None => 0,
    }
}

fn negative(digits: &[u8]) -> i128
    ensures { result ≡ spec.sized (2 ^ 127) spec.negative digits.now }
{
    match value_within(MOST + 1, digits) {
        Some(value) => opposite(value),
        None => 0,
    }
}

fn opposite(value: u128) -> i128
    requires { value ≤ 2 ^ 127 }
    ensures { result ≡ spec.negative value }
{
    if value == 0 {
        0
    } else {
        -1 - (value - 1) as i128
    }
}

// The number of these digits, unless it passes the limit.
fn value_within(limit: u128, digits: &[u8]) -> Option<u128>
    ensures number { MatchOption result (limit < value_from 0 digits.now) (λ value. value ≡ value_from 0 digits.now) }
    ensures within { IfSome result (λ value. value ≤ limit) }
{
    let mut value = 0u128;
    for byte in digits {
        value = next_value(limit, value, *byte)?;
    }
    if value <= limit { Some(value) } else { None }
}

// The number that goes on by a digit, unless it passes the limit.
fn next_value(limit: u128, value: u128, byte: u8) -> Option<u128>
    ensures { MatchOption result (limit < value_on value byte) (λ next. next ≡ value_on value byte) }
{
    if byte < b'0' || byte > b'9' {
        return if value <= limit { Some(value) } else { None };
    }
    let next = value.checked_mul(10)?.checked_add(u128::from(byte - b'0'))?;
    if next <= limit { Some(next) } else { None }
}
