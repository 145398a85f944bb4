ghost use Rattle.std.specs.Prelude.{◌≡◌, ◌≤◌, ◌<◌, length, drop, IfSome, IsTrue};
ghost use Rattle.ruby_lexer.specs.Characters.{first_is};
ghost use Rattle.ruby_lexer.specs.Lines as spec;
ghost use Rattle.ruby_lexer.specs.CommentEnds.{EndsBefore};
ghost use Rattle.ruby_lexer.specs.declared.lines.Look.TheVariants as look;

use crate::characters::{
    begins, begins_with_line_end, begins_with_space, behind, has_bytes, has_front, is_line_end,
    is_space,
};

/// Where a look at the next lines stands.
#[derive(Clone, Copy, Debug, PartialEq, Eq)]
pub enum Look {
    /// At a line's start.
    AtLine,
    /// Behind blanks.
    InLine,
    InComment,
}

/// What a look shows.
#[derive(Clone, Copy, Debug, PartialEq, Eq)]
pub enum Ahead {
    /// Whether a line is gone on with.
    Tells(bool),
    /// The look goes on behind one byte and so many.
    Skips(usize, Look),
}

/// The end of a line.
pub fn line_end_len(text: &[u8]) -> usize
    ensures value { result ≡ spec.line_end_len text.now }
    ensures within { result ≤ length text.now }
{
    match text {
        [first, rest @ ..] => {
            if *first == b'\r' && begins(b'\n', rest) {
                2
            } else if is_line_end(*first) {
                1
            } else {
                0
            }
        }
        [] => 0,
    }
}

/// What stands before a line's end.
pub fn line_len(text: &[u8]) -> usize
    ensures value { result ≡ spec.line_len text.now }
    ensures within { result ≤ length text.now }
{
    for (at, byte) in text.iter().enumerate() {
        if is_line_end(*byte) {
            return at;
        }
    }
    text.len()
}

/// A line with its end.
pub fn whole_line_len(text: &[u8]) -> usize
    ensures value { result ≡ spec.whole_line_len text.now }
    ensures within { result ≤ length text.now }
{
    let len = line_len(text);
    len + line_end_len(&text[len..])
}

/// Whether a line begins at the place.
pub fn begins_line(text: &[u8], place: usize) -> bool
    requires { place ≤ length text.now }
    ensures { result ≡ spec.begins_line text.now place }
{
    place == 0 || is_line_end(text[place - 1])
}

// Whether a line ends here, or the text.
fn ends_line(text: &[u8]) -> bool
    ensures { result ≡ spec.ends_line text.now }
{
    match text {
        [first, ..] => is_line_end(*first),
        [] => true,
    }
}

/// Spaces and tabs.
pub fn spaces_len(text: &[u8]) -> usize
    ensures value { result ≡ spec.spaces_len text.now }
    ensures within { result ≤ length text.now }
{
    for (at, byte) in text.iter().enumerate() {
        if !is_space(*byte) {
            return at;
        }
    }
    text.len()
}

// Whether nothing but spaces and tabs is left of the line.
fn is_blank_line(text: &[u8]) -> bool
    ensures { result ≡ spec.ends_line (drop (spec.spaces_len text.now) text.now) }
{
    ends_line(&text[spaces_len(text)..])
}

/// Whether the rest of the line is this text and then spaces and tabs.
pub fn is_line(line: &str, text: &[u8]) -> bool
    ensures { result ≡ spec.is_line line.now text.now }
{
    is_line_of(line.as_bytes(), text)
}

/// Whether the rest of the line is these bytes and then spaces and tabs.
pub fn is_line_of(line: &[u8], text: &[u8]) -> bool
    ensures { result ≡ spec.is_line line.now text.now }
{
    has_bytes(line, text) && is_blank_line(behind(text, line.len()))
}

/// Whether the rest of the line is exactly this text.
pub fn is_bare_line(line: &str, text: &[u8]) -> bool
    ensures value { result ≡ spec.is_bare_line line.now text.now }
    ensures within { IsTrue result → length line.now ≤ length text.now }
{
    has_front(line, text) && ends_line(behind(text, line.len()))
}

/// A blank: a space, a tab, or a backslash with the line's end that it stands directly before.
pub fn blank_len(text: &[u8]) -> usize
    ensures value { result ≡ spec.blank_len text.now }
    ensures within { result ≤ length text.now }
{
    match text {
        [first, rest @ ..] => {
            if is_space(*first) {
                1
            } else if *first == b'\\' && begins_with_line_end(rest) {
                1 + line_end_len(rest)
            } else {
                0
            }
        }
        [] => 0,
    }
}

// Whether the line that begins here ends a long comment, where one begins.
#[tactic(auto, unfolding(crate::specs::Lines::ends_comment))]
fn ends_comment(begins_here: bool, text: &[u8]) -> bool
    ensures { result ≡ spec.ends_comment begins_here text.now }
{
    begins_here && is_line("=end", text)
}

// Whether the line here begins a long comment.
#[tactic(auto, unfolding(crate::specs::Lines::begins_comment))]
fn begins_comment(text: &[u8]) -> bool
    ensures { result ≡ spec.begins_comment text.now }
{
    is_line("=begin", text)
}

// All up to the next line that is `=end`, and this line with its end, where there is such a line; whether a line begins here.
fn up_to_end(begins_here: bool, text: &[u8]) -> Option<usize>
    ensures value { result ≡ spec.up_to_end begins_here text.now }
    ensures within { IfSome result (λ len. len ≤ length text.now) }
{
    let mut begins = begins_here;
    for (at, byte) in text.iter().enumerate() {
        if ends_comment(begins, behind(text, at)) {
            return Some(at + whole_line_len(behind(text, at)));
        }
        begins = is_line_end(*byte);
    }
    None
}

/// How many bytes are left at the last line that is `=end`, or all where there is none. Where no more are left, no long comment ends.
pub fn last_comment_end(text: &[u8]) -> usize
    ensures { EndsBefore result text.now }
{
    let mut last_end = text.len();
    let mut begins = false;
    for (at, byte) in text.iter().enumerate() {
        if ends_comment(begins, behind(text, at)) {
            last_end = text.len() - at;
        }
        begins = is_line_end(*byte);
    }
    last_end
}

/// A comment from a line `=begin` to a line `=end`, where a line begins here.
pub fn long_comment_len(text: &[u8], last_end: usize) -> usize
    requires { EndsBefore last_end text.now }
    ensures value { result ≡ spec.long_comment_len text.now }
    ensures within { result ≤ length text.now }
{
    if text.len() <= last_end {
        return 0;
    }
    if begins_comment(text) {
        or_zero(up_to_end(false, text))
    } else {
        0
    }
}

fn or_zero(len: Option<usize>) -> usize
    ensures { result ≡ spec.or_zero len }
{
    match len {
        Some(len) => len,
        None => 0,
    }
}

// Whether `.` or `&.` is here, and not `..`.
fn is_dot(text: &[u8]) -> bool
    ensures { result ≡ spec.is_dot text.now }
{
    match text {
        [first, rest @ ..] => {
            *first == b'&' && begins(b'.', rest) || *first == b'.' && !begins(b'.', rest)
        }
        [] => false,
    }
}

fn look_in_line(text: &[u8]) -> Ahead
    requires { 0 < length text.now }
    ensures { result ≡ spec.look_in_line text.now }
{
    let blank = blank_len(text);
    if blank != 0 {
        Ahead::Skips(blank - 1, Look::InLine)
    } else if begins(b'#', text) {
        Ahead::Skips(0, Look::InComment)
    } else {
        Ahead::Tells(is_dot(text))
    }
}

fn look_in_comment(text: &[u8]) -> Ahead
    ensures { result ≡ spec.look_in_comment text.now }
{
    let end = line_end_len(text);
    if end == 0 {
        Ahead::Skips(0, Look::InComment)
    } else {
        Ahead::Skips(end - 1, Look::AtLine)
    }
}

fn look_at_line(text: &[u8], last_end: usize) -> Ahead
    requires some { 0 < length text.now }
    requires ends { EndsBefore last_end text.now }
    ensures { result ≡ spec.look_here look.AtLine text.now }
{
    let comment = long_comment_len(text, last_end);
    if comment == 0 {
        look_in_line(text)
    } else {
        Ahead::Skips(comment - 1, Look::AtLine)
    }
}

fn look_here(look: Look, text: &[u8], last_end: usize) -> Ahead
    requires some { 0 < length text.now }
    requires ends { EndsBefore last_end text.now }
    ensures { result ≡ spec.look_here look text.now }
{
    match look {
        Look::AtLine => look_at_line(text, last_end),
        Look::InLine => look_in_line(text),
        Look::InComment => look_in_comment(text),
    }
}

/// Whether the line that begins here goes on with the line before.
#[tactic(auto, unfolding(crate::specs::Lines::begins_with_dot))]
pub fn begins_with_dot(text: &[u8], last_end: usize) -> bool
    requires { EndsBefore last_end text.now }
    ensures { result ≡ spec.begins_with_dot text.now }
{
    finds_dot(text, last_end)
}

#[tactic(auto, using(crate::proofs::Looks::goes_on, crate::proofs::Looks::told))]
fn finds_dot(text: &[u8], last_end: usize) -> bool
    requires { EndsBefore last_end text.now }
    ensures { result ≡ spec.finds_dot 0 look.AtLine text.now }
{
    let mut rest = text;
    let mut look = Look::AtLine;
    while !rest.is_empty() {
        match look_here(look, rest, last_end) {
            Ahead::Tells(found) => return found,
            Ahead::Skips(len, next) => {
                rest = behind(behind(rest, 1), len);
                look = next;
            }
        }
    }
    false
}
