ghost use Rattle.std.specs.Prelude.{◌≡◌, ◌≤◌, ◌<◌, ◌+◌, ◌*◌, ◌==◌, ◌||◌, ◌++◌, length, take, true, IfOk, IsTrue, MatchOption};
ghost use Rattle.std.specs.Char.{digit_value};
ghost use Rattle.ruby_lexer.specs.Characters.{first_is};
ghost use Rattle.ruby_lexer.specs.Strings as spec;
ghost use Rattle.ruby_lexer.specs.Answers.{Reads};

use crate::characters::{begins, behind, digit_value, front, is_line_end, stands_behind};
use crate::lines::line_end_len;
use crate::refusal::RubyAt;
use crate::state::Quotes;
use crate::token::WordsOf;
use src_text::{Mem, Seq};

/// How far a piece of a text goes.
#[derive(Clone, Copy, Debug)]
pub struct Passed {
    pub len: usize,
    /// Whether a line ends with it.
    pub ends_line: bool,
}

/// The byte that closes a text.
pub fn closer(quotes: Quotes) -> u8
    ensures { result ≡ spec.closer quotes }
{
    match quotes {
        Quotes::Plain => b'\'',
        Quotes::Double => b'"',
        Quotes::Symbol => b'"',
        Quotes::Regexp => b'/',
    }
}

/// Whether `#{` is here, in a text that has code in it.
pub fn begins_code(text: &[u8]) -> bool
    ensures value { result ≡ spec.begins_code text.now }
    ensures within { IsTrue result → 2 ≤ length text.now }
{
    match text {
        [b'#', b'{', ..] => true,
        _ => false,
    }
}

/// Whether such a text has code in it.
pub fn has_code(quotes: Quotes) -> bool
    ensures { result ≡ spec.has_code quotes }
{
    match quotes {
        Quotes::Plain => false,
        _ => true,
    }
}

// ---- pieces

/// Appends these bytes.
pub fn append(part: &mut Seq<u8>, bytes: &[u8]) -> Mem<()>
    ensures { IfOk result (λ _. part.new ≡ part.old ++ bytes.now) }
{
    for byte in bytes {
        part.push(*byte)?;
    }
    Ok(())
}

// Appends a piece of so many bytes that stands for these, and doesn't end a line.
fn escape(part: &mut Seq<u8>, bytes: &[u8], len: usize) -> Result<Passed, RubyAt>
    ensures value { Reads (spec.escape bytes.now len) result part.old part.new }
    ensures len { IfOk result (λ passed. passed.len ≡ len) }
{
    append(part, bytes)?;
    Ok(Passed {
        len,
        ends_line: false,
    })
}

// Appends a line's end of so many bytes.
fn line_end(part: &mut Seq<u8>, text: &[u8], len: usize) -> Result<Passed, RubyAt>
    requires { len ≤ length text.now }
    ensures value { Reads (record { value = take len text.now; len = len; ends_line = true }) result part.old part.new }
    ensures len { IfOk result (λ passed. passed.len ≡ len) }
{
    append(part, &text[..len])?;
    Ok(Passed {
        len,
        ends_line: true,
    })
}

/// Appends a piece that is as it is written: a line's end, or a byte.
pub fn as_written(part: &mut Seq<u8>, text: &[u8]) -> Result<Passed, RubyAt>
    requires { 0 < length text.now }
    ensures value { Reads (spec.as_written text.now) result part.old part.new }
    ensures within { IfOk result (λ passed. passed.len ≤ length text.now) }
{
    let end = line_end_len(text);
    if end == 0 {
        escape(part, &text[..1], 1)
    } else {
        line_end(part, text, end)
    }
}

// Appends a piece with the backslash before it; whether it stands for itself too.
fn escaped_as_written(part: &mut Seq<u8>, kept: bool, rest: &[u8]) -> Result<Passed, RubyAt>
    requires { 0 < length rest.now }
    ensures value { Reads (spec.escaped_as_written kept (spec.as_written rest.now)) result part.old part.new }
    ensures within { IfOk result (λ passed. passed.len ≤ 1 + length rest.now) }
{
    if kept {
        part.push(b'\\')?;
    }
    let passed = as_written(part, rest)?;
    Ok(Passed {
        len: passed.len + 1,
        ends_line: passed.ends_line,
    })
}

// `'` or `\`.
fn begins_plain_escape(text: &[u8]) -> bool
    ensures value { result ≡ first_is (λ b. b == 39 || b == 92) text.now }
    ensures within { IsTrue result → 1 ≤ length text.now }
{
    match text {
        [first, ..] => *first == b'\'' || *first == b'\\',
        [] => false,
    }
}

// What is behind a backslash between `'`.
fn plain_escape(part: &mut Seq<u8>, rest: &[u8]) -> Result<Passed, RubyAt>
    ensures value { Reads (spec.plain_escape rest.now) result part.old part.new }
    ensures within { IfOk result (λ passed. passed.len ≤ 1 + length rest.now) }
{
    if begins_plain_escape(rest) {
        escape(part, &rest[..1], 2)
    } else {
        escape(part, b"\\", 1)
    }
}

// The letters that stand for another character.
fn letter_value(byte: u8) -> u8
    ensures { result ≡ spec.letter_value byte }
{
    match byte {
        b'n' => b'\n',
        b't' => b'\t',
        b's' => b' ',
        b'r' => b'\r',
        b'0' => 0,
        b'e' => 27,
        _ => byte,
    }
}

// Hexadecimal digits.
fn hexadecimal_len(text: &[u8]) -> usize
    ensures value { result ≡ spec.hexadecimal_len text.now }
    ensures within { result ≤ length text.now }
{
    for (at, byte) in text.iter().enumerate() {
        if !byte.is_ascii_hexdigit() {
            return at;
        }
    }
    text.len()
}

// The greatest number of a character.
const MOST: u32 = 0x10_ffff;

// The number that goes on by a hexadecimal digit, unless it is more than that of any character.
fn next_value(value: u32, digit: u8) -> Option<u32>
    ensures { MatchOption result (0x10ffff < value * 16 + digit_value digit) (λ next. next ≡ value * 16 + digit_value digit) }
{
    let next = value
        .checked_mul(16)?
        .checked_add(u32::from(digit_value(digit)))?;
    if next <= MOST { Some(next) } else { None }
}

// The number of hexadecimal digits, unless it is more than that of any character.
fn hexadecimal_value(digits: &[u8]) -> Option<u32>
    ensures { MatchOption result (0x10ffff < spec.hexadecimal_value 0 digits.now) (λ value. value ≡ spec.hexadecimal_value 0 digits.now) }
{
    let mut value = 0u32;
    for digit in digits {
        let Some(next) = next_value(value, *digit) else {
            return None;
        };
        value = next;
    }
    Some(value)
}

// Appends the character of this number in so many bytes, or else the `u`.
fn character(part: &mut Seq<u8>, number: u32, len: usize) -> Result<Passed, RubyAt>
    requires { 2 ≤ len }
    ensures value { Reads (spec.character number len) result part.old part.new }
    ensures within { IfOk result (λ passed. passed.len ≤ len) }
{
    match char::from_u32(number) {
        Some(character) => {
            let mut bytes = [0; 4];
            escape(part, character.encode_utf8(&mut bytes).as_bytes(), len)
        }
        None => escape(part, b"u", 2),
    }
}

// Appends the character whose number these digits are, in so many bytes, or else the `u`.
fn character_of(part: &mut Seq<u8>, digits: &[u8], len: usize) -> Result<Passed, RubyAt>
    requires { 2 ≤ len }
    ensures value { Reads (spec.character (spec.hexadecimal_value 0 digits.now) len) result part.old part.new }
    ensures within { IfOk result (λ passed. passed.len ≤ len) }
{
    match hexadecimal_value(digits) {
        Some(number) => character(part, number, len),
        None => escape(part, b"u", 2),
    }
}

// `\u{` digits `}`, by what stands behind the `{`.
fn braced_unicode(part: &mut Seq<u8>, text: &[u8]) -> Result<Passed, RubyAt>
    ensures value { Reads (spec.braced_unicode text.now) result part.old part.new }
    ensures within { IfOk result (λ passed. passed.len ≤ 3 + length text.now) }
{
    let len = hexadecimal_len(text);
    if len != 0 && stands_behind(b'}', len, text) {
        character_of(part, &text[..len], len + 4)
    } else {
        escape(part, b"u", 2)
    }
}

// `\u` and 4 digits, by what stands behind the `u`.
fn short_unicode(part: &mut Seq<u8>, text: &[u8]) -> Result<Passed, RubyAt>
    ensures value { Reads (spec.short_unicode text.now) result part.old part.new }
    ensures within { IfOk result (λ passed. passed.len ≤ 2 + length text.now) }
{
    let digits = front(text, 4);
    if hexadecimal_len(digits) == 4 {
        character_of(part, digits, 6)
    } else {
        escape(part, b"u", 2)
    }
}

// What stands behind `\u`.
fn unicode(part: &mut Seq<u8>, text: &[u8]) -> Result<Passed, RubyAt>
    ensures value { Reads (spec.unicode text.now) result part.old part.new }
    ensures within { IfOk result (λ passed. passed.len ≤ 2 + length text.now) }
{
    match text {
        [b'{', rest @ ..] => braced_unicode(part, rest),
        _ => short_unicode(part, text),
    }
}

// What is behind a backslash between `"`.
fn double_escape(part: &mut Seq<u8>, rest: &[u8]) -> Result<Passed, RubyAt>
    ensures value { Reads (spec.double_escape rest.now) result part.old part.new }
    ensures within { IfOk result (λ passed. passed.len ≤ 1 + length rest.now) }
{
    match rest {
        [first, more @ ..] => {
            if is_line_end(*first) {
                escaped_as_written(part, false, rest)
            } else if *first == b'u' {
                unicode(part, more)
            } else {
                escape(part, &[letter_value(*first)], 2)
            }
        }
        [] => escape(part, b"\\", 1),
    }
}

// What is behind a backslash between `/`: it stays.
fn regexp_escape(part: &mut Seq<u8>, rest: &[u8]) -> Result<Passed, RubyAt>
    ensures value { Reads (spec.regexp_escape rest.now) result part.old part.new }
    ensures within { IfOk result (λ passed. passed.len ≤ 1 + length rest.now) }
{
    match rest {
        [_, ..] => escaped_as_written(part, true, rest),
        [] => escape(part, b"\\", 1),
    }
}

fn escape_of(part: &mut Seq<u8>, quotes: Quotes, rest: &[u8]) -> Result<Passed, RubyAt>
    ensures value { Reads (spec.escape_of quotes rest.now) result part.old part.new }
    ensures within { IfOk result (λ passed. passed.len ≤ 1 + length rest.now) }
{
    match quotes {
        Quotes::Plain => plain_escape(part, rest),
        Quotes::Double => double_escape(part, rest),
        Quotes::Symbol => double_escape(part, rest),
        Quotes::Regexp => regexp_escape(part, rest),
    }
}

/// Appends what the piece here stands for, of a text that isn't at its end.
#[tactic(auto, unfolding(crate::specs::Strings::piece_here))]
pub fn piece_here(part: &mut Seq<u8>, quotes: Quotes, text: &[u8]) -> Result<Passed, RubyAt>
    requires { 0 < length text.now }
    ensures value { Reads (spec.piece_here quotes text.now) result part.old part.new }
    ensures within { IfOk result (λ passed. passed.len ≤ length text.now) }
{
    match text {
        [b'\\', rest @ ..] => escape_of(part, quotes, rest),
        _ => as_written(part, text),
    }
}

// ---- closing

fn is_flag(byte: u8) -> bool
    ensures { result ≡ spec.is_flag byte }
{
    byte == b'i' || byte == b'm' || (byte == b'x' || byte == b'o')
}

/// The letters behind a regexp.
pub fn flags_len(text: &[u8]) -> usize
    ensures value { result ≡ spec.flags_len text.now }
    ensures within { result ≤ length text.now }
{
    for (at, byte) in text.iter().enumerate() {
        if !is_flag(*byte) {
            return at;
        }
    }
    text.len()
}

// The bracket that closes what this one opens.
fn closing(byte: u8) -> Option<u8>
    ensures { result ≡ spec.closing byte }
{
    match byte {
        b'(' => Some(b')'),
        b'[' => Some(b']'),
        b'{' => Some(b'}'),
        b'<' => Some(b'>'),
        _ => None,
    }
}

/// What the words of a list are, by the letter that is here.
pub fn words_of(text: &[u8]) -> Option<WordsOf>
    ensures { result ≡ spec.words_of text.now }
{
    if begins(b'w', text) {
        Some(WordsOf::Strings)
    } else if begins(b'i', text) {
        Some(WordsOf::Symbols)
    } else {
        None
    }
}

/// What closes the bracket that is here.
pub fn closing_here(text: &[u8]) -> Option<u8>
    ensures { result ≡ spec.closing_here text.now }
{
    match text {
        [first, ..] => closing(*first),
        [] => None,
    }
}
