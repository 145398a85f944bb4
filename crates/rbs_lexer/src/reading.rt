ghost use Rattle.std.specs.Prelude.{◌≡◌};
ghost use Rattle.rbs_lexer.specs.Finds as spec;

use crate::kind::Kind;

/// What a run of bytes is.
#[derive(Clone, Copy, Debug, PartialEq, Eq)]
pub enum Reading {
    Token(Kind),
    /// A blank, a comment or an annotation.
    Skipped,
    /// An integer past 128 bits, or an annotation that isn't closed.
    Refused,
}

/// A run at the front of a text.
#[derive(Clone, Copy, Debug, PartialEq, Eq)]
pub struct Found {
    pub reading: Reading,
    pub len: usize,
}

/// The longer of two runs, and of two of one length the first.
pub fn longer(first: Option<Found>, second: Option<Found>) -> Option<Found>
    ensures { result ≡ spec.longer first second }
{
    match (first, second) {
        (None, _) => second,
        (Some(one), Some(other)) if one.len < other.len => second,
        _ => first,
    }
}

/// The greater of two lengths.
pub fn longer_len(first: Option<usize>, second: Option<usize>) -> Option<usize>
    ensures { result ≡ spec.longer_len first second }
{
    match (first, second) {
        (None, _) => second,
        (_, None) => first,
        (Some(one), Some(other)) => Some(if one < other { other } else { one }),
    }
}

/// A run of this length that is such a token.
pub fn of_kind(kind: Kind, len: Option<usize>) -> Option<Found>
    ensures { result ≡ spec.found_of kind len }
{
    Some(Found {
        reading: Reading::Token(kind),
        len: len?,
    })
}

/// A run of this length that is skipped.
pub fn skipped(len: Option<usize>) -> Option<Found>
    ensures { result ≡ spec.skipped len }
{
    Some(Found {
        reading: Reading::Skipped,
        len: len?,
    })
}
