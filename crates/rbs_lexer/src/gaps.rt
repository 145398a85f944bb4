ghost use Rattle.std.specs.Prelude.{◌≡◌, ◌≤◌, ◌<◌, length, IfSome};
ghost use Rattle.rbs_lexer.specs.Bytes as bytes;
ghost use Rattle.rbs_lexer.specs.Gaps as gaps;
ghost use Rattle.rbs_lexer.specs.Finds as spec;

use crate::quotes::up_to;
use crate::reading::{Found, Reading};

/// Some blanks, or a comment.
#[tactic(auto, unfolding(crate::specs::Finds::gap_len))]
pub fn gap_len(text: &[u8]) -> Option<usize>
    ensures value { result ≡ spec.gap_len text.now }
    ensures within { IfSome result (λ len. (0 < len) × (len ≤ length text.now)) }
{
    match text {
        [b'#', rest @ ..] => Some(1 + line_len(rest)),
        [first, rest @ ..] if is_blank(*first) => Some(1 + blanks_len(rest)),
        _ => None,
    }
}

/// An annotation.
#[tactic(auto, unfolding(crate::specs::Finds::annotation_front))]
pub fn annotation(text: &[u8]) -> Option<Found>
    ensures value { result ≡ spec.annotation_front text.now }
    ensures within { IfSome result (λ found. (0 < found.len) × (found.len ≤ length text.now)) }
{
    let [b'%', b'a', opening, rest @ ..] = text else {
        return None;
    };
    let close = closing(*opening)?;
    Some(match up_to(rest, close) {
        Some(len) => Found {
            reading: Reading::Skipped,
            len: 3 + len,
        },
        None => Found {
            reading: Reading::Refused,
            len: text.len(),
        },
    })
}

/// Whether a line ends in the bytes.
pub fn has_line_end(text: &[u8]) -> bool
    ensures { result ≡ bytes.has_line_end text.now }
{
    for byte in text {
        if is_line_end(*byte) {
            return true;
        }
    }
    false
}

// The bracket that closes what this one opens.
fn closing(opening: u8) -> Option<u8>
    ensures { result ≡ gaps.closing opening }
{
    match opening {
        b'{' => Some(b'}'),
        b'(' => Some(b')'),
        b'[' => Some(b']'),
        b'<' => Some(b'>'),
        b'|' => Some(b'|'),
        _ => None,
    }
}

/// Whether the byte is a blank.
pub fn is_blank(byte: u8) -> bool
    ensures { result ≡ bytes.is_blank byte }
{
    byte == b' ' || byte == b'\t' || is_line_end(byte)
}

fn is_line_end(byte: u8) -> bool
    ensures { result ≡ bytes.is_line_end byte }
{
    byte == b'\n' || byte == b'\r'
}

// How many bytes at the front are blanks.
fn blanks_len(text: &[u8]) -> usize
    ensures value { result ≡ spec.blanks_len text.now }
    ensures within { result ≤ length text.now }
{
    for (at, byte) in text.iter().enumerate() {
        if !is_blank(*byte) {
            return at;
        }
    }
    text.len()
}

// How many bytes stand before the line's end.
fn line_len(text: &[u8]) -> usize
    ensures value { result ≡ spec.line_len text.now }
    ensures within { result ≤ length text.now }
{
    for (at, byte) in text.iter().enumerate() {
        if is_line_end(*byte) {
            return at;
        }
    }
    text.len()
}
