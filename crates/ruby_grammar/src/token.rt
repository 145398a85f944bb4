//! Tokens as a grammar sees them.

/// A token's kind, and whether a blank stands before it.
#[derive(Clone, Copy, Debug, PartialEq, Eq)]
pub struct Token {
    pub kind: u8,
    pub blank: bool,
}
