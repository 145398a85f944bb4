ghost use Rattle.std.specs.Prelude.{◌≡◌, ◌≤◌, ◌<◌, ◌+◌, ◌^◌, length, IfSome};
ghost use Rattle.ruby_lexer.specs.Heredocs as spec;

use crate::characters::{behind, stands_behind, word_len};
use crate::lines::{begins_line, is_line_of, line_end_len, line_len, spaces_len};
use crate::placing::slice;
use crate::state::Heredoc;

/// What stands behind the `<<` of a heredoc. Places are counted from behind it.
#[derive(Clone, Copy, Debug)]
pub struct Opening {
    pub word_start: usize,
    pub word_end: usize,
    /// Whether the word stands in `'`.
    pub plain: bool,
    pub len: usize,
}

// `~`, `-` or nothing.
fn indent_len(text: &[u8]) -> usize
    ensures value { result ≡ spec.indent_len text.now }
    ensures within { result ≤ length text.now }
{
    match text {
        [first, ..] => {
            if *first == b'~' || *first == b'-' {
                1
            } else {
                0
            }
        }
        [] => 0,
    }
}

// An opening by a bare word of this length, behind so many bytes.
fn bare_opening(before: usize, len: usize) -> Option<Opening>
    requires { before + len < 2 ^ 64 }
    ensures value { result ≡ spec.bare_opening before len }
    ensures ordered { IfSome result (λ o. (o.word_start ≤ o.word_end) × (o.word_end ≤ o.len)) }
    ensures within { IfSome result (λ o. o.len ≤ before + len) }
{
    if len == 0 {
        None
    } else {
        Some(Opening {
            word_start: before,
            word_end: before + len,
            plain: false,
            len: before + len,
        })
    }
}

// An opening by a word of this length between quotes, behind so many bytes; the text begins with the word.
fn quoted_opening(quote: u8, before: usize, len: usize, text: &[u8]) -> Option<Opening>
    requires { before + len + 2 < 2 ^ 64 }
    ensures value { result ≡ spec.quoted_opening quote before len text.now }
    ensures ordered { IfSome result (λ o. (o.word_start ≤ o.word_end) × (o.word_end ≤ o.len)) }
    ensures within { IfSome result (λ o. o.len ≤ before + 1 + length text.now) }
{
    if len != 0 && stands_behind(quote, len, text) {
        Some(Opening {
            word_start: before + 1,
            word_end: before + 1 + len,
            plain: quote == b'\'',
            len: before + 2 + len,
        })
    } else {
        None
    }
}

// An opening by a word, bare or between quotes, behind so many bytes.
fn opening_behind(before: usize, text: &[u8]) -> Option<Opening>
    requires { before + length text.now + 2 < 2 ^ 64 }
    ensures value { result ≡ spec.opening_behind before text.now }
    ensures ordered { IfSome result (λ o. (o.word_start ≤ o.word_end) × (o.word_end ≤ o.len)) }
    ensures within { IfSome result (λ o. o.len ≤ before + length text.now) }
{
    match text {
        [b'\'', word @ ..] => quoted_opening(b'\'', before, word_len(word), word),
        [b'"', word @ ..] => quoted_opening(b'"', before, word_len(word), word),
        _ => bare_opening(before, word_len(text)),
    }
}

/// What opens a heredoc, by what stands behind the `<<`.
#[tactic(auto, unfolding(crate::specs::Heredocs::opening_here))]
pub fn opening_here(text: &[u8]) -> Option<Opening>
    requires { length text.now < 2 ^ 32 }
    ensures value { result ≡ spec.opening_here text.now }
    ensures ordered { IfSome result (λ o. (o.word_start ≤ o.word_end) × (o.word_end ≤ o.len)) }
    ensures within { IfSome result (λ o. o.len ≤ length text.now) }
{
    let indent = indent_len(text);
    opening_behind(indent, behind(text, indent))
}

/// The place behind the next line's end.
pub fn next_line(text: &[u8], place: usize) -> Option<usize>
    requires { place + length text.now < 2 ^ 64 }
    ensures { result ≡ spec.next_line text.now place }
{
    let rest = behind(text, place);
    let line = line_len(rest);
    let end = line_end_len(&rest[line..]);
    if end == 0 {
        None
    } else {
        Some(place + (line + end))
    }
}

/// The place where the body of a heredoc begins that opens on a line, before this place.
pub fn body_start(text: &[u8], bodies_end: Option<usize>, place: usize) -> Option<usize>
    requires { place + length text.now < 2 ^ 64 }
    ensures { result ≡ spec.body_start text.now bodies_end place }
{
    match bodies_end {
        Some(bodies_end) => Some(bodies_end),
        None => next_line(text, place),
    }
}

/// Whether the line that ends the heredoc is here.
#[tactic(auto, unfolding(crate::specs::Heredocs::ends_heredoc))]
pub fn ends_heredoc(text: &[u8], heredoc: Heredoc, place: usize, rest: &[u8]) -> bool
    requires { place ≤ length text.now }
    ensures { result ≡ spec.ends_heredoc text.now heredoc place rest.now }
{
    let word = slice(text, heredoc.word_start, heredoc.word_end);
    begins_line(text, place) && is_line_of(word, behind(rest, spaces_len(rest)))
}
