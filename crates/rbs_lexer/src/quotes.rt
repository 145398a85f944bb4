ghost use Rattle.std.specs.Prelude.{◌≡◌, ◌≤◌, ◌<◌, length, false, IfSome, not, ◌&&◌, ◌==◌};
ghost use Rattle.rbs_lexer.specs.Finds as spec;

/// A string between `"` or `'`.
#[tactic(auto, unfolding(crate::specs::Finds::string_len))]
pub fn string_len(text: &[u8]) -> Option<usize>
    ensures value { result ≡ spec.string_len text.now }
    ensures within { IfSome result (λ len. (0 < len) × (len ≤ length text.now)) }
{
    match text {
        [b'"', rest @ ..] => Some(1 + closed_len(rest, b'"')?),
        [b'\'', rest @ ..] => Some(1 + closed_len(rest, b'\'')?),
        _ => None,
    }
}

/// A text between backquotes.
#[tactic(auto, unfolding(crate::specs::Finds::backquoted_len))]
pub fn backquoted_len(text: &[u8]) -> Option<usize>
    ensures value { result ≡ spec.backquoted_len text.now }
    ensures within { IfSome result (λ len. (0 < len) × (len ≤ length text.now)) }
{
    match text {
        [b'`', rest @ ..] => Some(1 + up_to(rest, b'`')?),
        _ => None,
    }
}

/// How many bytes go up to and with the first such byte.
pub fn up_to(text: &[u8], close: u8) -> Option<usize>
    ensures value { result ≡ spec.up_to close text.now }
    ensures within { IfSome result (λ len. len ≤ length text.now) }
{
    for (at, byte) in text.iter().enumerate() {
        if *byte == close {
            return Some(at + 1);
        }
    }
    None
}

// How many bytes go up to and with the closing quote.
fn closed_len(text: &[u8], quote: u8) -> Option<usize>
    ensures value { result ≡ spec.closed_len quote false text.now }
    ensures within { IfSome result (λ len. len ≤ length text.now) }
{
    let mut escaped = false;
    for (at, byte) in text.iter().enumerate() {
        if closes(escaped, *byte, quote) {
            return Some(at + 1);
        }
        escaped = escapes(escaped, *byte);
    }
    None
}

// Whether the byte is the closing quote.
fn closes(escaped: bool, byte: u8, quote: u8) -> bool
    ensures { result ≡ (not escaped && byte == quote) }
{
    !escaped && byte == quote
}

// Whether the byte takes the next one along.
fn escapes(escaped: bool, byte: u8) -> bool
    ensures { result ≡ (not escaped && byte == 92) }
{
    !escaped && byte == b'\\'
}
