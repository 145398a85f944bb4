//! Ordered grammars.

use crate::room::Budget;
use crate::set::TokenSet;
use src_text::{Boxed, Seq};

/// How tokens are read.
#[derive(Debug, Drop)]
pub enum Part {
    /// No token.
    Empty,
    /// A token of the set.
    Token(TokenSet),
    /// One after the other.
    Both(Boxed<Part>, Boxed<Part>),
    /// The first that derives.
    Either(Boxed<Part>, Boxed<Part>),
    /// As many as derive.
    Many(Boxed<Part>),
    /// As many links as derive, 128 at most: where a token of the set stands behind these, that is too deep.
    Chain(TokenSet, Boxed<Part>),
    /// No token, where this doesn't derive.
    Not(Boxed<Part>),
    /// A node with this name.
    Label(u8, Boxed<Part>),
    /// A node with this name, but where the part gives one tree alone that tree.
    Chained(u8, Boxed<Part>),
    /// What a rule of a lower number derives.
    Call(usize),
    /// What a rule derives, which is counted as open while it is read.
    Open(Budget, usize),
    /// The part, where the label that ended last in it is in the table.
    Ended(Seq<bool>, Boxed<Part>),
    /// The part, where a token stands of which the table says that the part may begin with it; kinds past the table's end may stand.
    Guarded(Seq<bool>, Boxed<Part>),
}

/// A rule of a grammar.
#[derive(Debug, Drop)]
pub struct Rule {
    pub part: Part,
    /// Whether what it derives at a place is kept, so that it is read there once.
    pub kept: bool,
}

/// A list of rules, and the number of that which reads a whole list of tokens.
#[derive(Debug, Drop)]
pub struct Grammar {
    pub rules: Seq<Rule>,
    pub start: usize,
}
