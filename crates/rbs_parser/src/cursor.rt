ghost use Rattle.std.specs.Prelude.{◌≡◌, ◌↔◌, IsTrue, []};
ghost use Rattle.rbs_grammar.specs.Grammar.{begins, begins_two, read_token};
ghost use Rattle.rbs_grammar.specs.Parts.{same};
ghost use Rattle.rbs_grammar.specs.Rules.{is, on_the_line};
ghost use Rattle.rbs_parser.specs.Reading as spec;
ghost use Rattle.rbs_parser.specs.Reading.{Reads};
ghost use Rattle.rbs_parser.specs.Sets.{tokens_of};

use crate::{Refusal, Set};
use rbs_lexer::{Kind, Token};
use std::marker::Model;

/// A place in a list of tokens. Contracts see it as the tokens from there on.
#[derive(Drop)]
pub struct Cursor<'a> {
    rest: &'a [Token<'a>],
}

impl<'a> Model for Cursor<'a> {
    ghost use Rattle.std.specs.Prelude.{List};
    ghost use Rattle.rbs_lexer.specs.Tokens.{Token};

    ghost Value = { List Token };

    ghost view = { λ c. c.rest.now };
}

impl<'a> Cursor<'a> {
    /// At the first of the tokens.
    pub fn new(tokens: &'a [Token<'a>]) -> Cursor<'a>
        ensures { result ≡ tokens.now }
    {
        Cursor { rest: tokens }
    }

    /// The tokens from here on.
    pub fn rest(&self) -> &'a [Token<'a>]
        ensures { result.now ≡ self.now }
    {
        self.rest
    }

    /// Whether no token is left.
    pub fn is_at_end(&self) -> bool
        ensures { IsTrue result ↔ (self.now ≡ []) }
    {
        self.rest.is_empty()
    }

    /// The kind of the next token.
    pub fn kind(&self) -> Option<Kind>
        ensures { result ≡ spec.kind_of self.now }
    {
        match self.rest {
            [] => None,
            [next, ..] => Some(next.kind()),
        }
    }

    /// Whether the next token is in the set.
    pub fn sees(&self, set: Set) -> bool
        ensures { result ≡ begins (tokens_of set) self.now }
    {
        match self.rest {
            [] => false,
            [next, ..] => set.has(next.kind()),
        }
    }

    /// Whether the next token is in the set and stands on the line of the token before it.
    pub fn sees_on_line(&self, set: Set) -> bool
        ensures { result ≡ begins (on_the_line (tokens_of set)) self.now }
    {
        match self.rest {
            [] => false,
            [next, ..] => !next.begins_line() && set.has(next.kind()),
        }
    }

    /// Whether the next token is in the first set and the one behind it in the second.
    pub fn sees_two(&self, first: Set, second: Set) -> bool
        ensures { result ≡ begins_two (tokens_of first) (tokens_of second) self.now }
    {
        match self.rest {
            [] => false,
            [next, rest @ ..] => first.has(next.kind()) && Cursor { rest }.sees(second),
        }
    }

    /// Takes the next token, if it is in the set.
    #[tactic(auto, unfolding(crate::specs::Reading::after))]
    pub fn eat(&mut self, set: Set) -> bool
        ensures found { result ≡ begins (tokens_of set) self.old }
        ensures after { self.new ≡ spec.after (tokens_of set) self.old }
    {
        match self.rest {
            [next, rest @ ..] if set.has(next.kind()) => {
                self.rest = rest;
                true
            }
            _ => false,
        }
    }

    /// The next token, which has to be in the set.
    pub fn expect(&mut self, set: Set) -> Result<&'a Token<'a>, Refusal>
        ensures { Reads (λ t. t.now) (read_token (tokens_of set) same self.old) result self.new }
    {
        match self.rest {
            [next, rest @ ..] if set.has(next.kind()) => {
                self.rest = rest;
                Ok(next)
            }
            _ => Err(Refusal::Syntax),
        }
    }
}
