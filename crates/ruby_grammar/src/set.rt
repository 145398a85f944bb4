//! Sets of tokens.

ghost use Rattle.std.specs.Prelude.{◌≡◌, ◌+◌, Some, Ok, if◌then◌else◌};
ghost use Rattle.ruby_grammar.specs.Steps as steps;
ghost use Rattle.ruby_grammar.specs.Tokens as spec;

use crate::token::Token;
use src_text::Seq;

/// What is wanted of the blank before a token.
#[derive(Clone, Copy, Debug, PartialEq, Eq)]
pub enum Blank {
    /// A token with one or without.
    Any,
    /// A token with one.
    With,
    /// A token without.
    Without,
}

/// The tokens of some kinds, with or without a blank before them.
#[derive(Debug, Drop)]
pub struct TokenSet {
    /// At each kind's place, whether tokens of that kind are in the set.
    pub kinds: Seq<bool>,
    pub blank: Blank,
}

// Whether a table says so of a number.
pub fn in_table(table: &Seq<bool>, number: u8) -> bool
    ensures { result ≡ spec.in_table table.now number }
{
    match table.get(usize::from(number)) {
        None => false,
        Some(is_in) => *is_in,
    }
}

// Whether a token may stand, by a table of kinds in which those past its end may.
pub fn may_stand(table: &Seq<bool>, token: Token) -> bool
    ensures { result ≡ spec.may_stand table.now (Some token) }
{
    match table.get(usize::from(token.kind)) {
        None => true,
        Some(may) => *may,
    }
}

// Whether a token with a blank or without is wanted.
fn blank_fits(wanted: Blank, blank: bool) -> bool
    ensures { result ≡ spec.blank_fits wanted blank }
{
    match wanted {
        Blank::Any => true,
        Blank::With => blank,
        Blank::Without => !blank,
    }
}

impl TokenSet {
    /// Whether a token is in the set.
    pub fn has(&self, token: Token) -> bool
        ensures { result ≡ spec.has self.now token }
    {
        in_table(&self.kinds, token.kind) && blank_fits(self.blank, token.blank)
    }
}

// Whether a token of a set stands at a place.
pub fn stands_in(tokens: &[Token], set: &TokenSet, place: usize) -> bool
    ensures { steps.token_read tokens.now set.now place ≡ Ok (if result then steps.passed (place + 1) else steps.failed place) }
{
    match tokens.get(place) {
        None => false,
        Some(token) => set.has(*token),
    }
}
