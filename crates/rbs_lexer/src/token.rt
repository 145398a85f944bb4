ghost use Rattle.std.specs.Prelude.{◌≡◌};

use crate::kind::Kind;
use src_text::{NoMemory, Seq, Span};
use std::marker::Model;

/// A token of a text, whose bytes it lends.
#[derive(Debug, Drop)]
pub struct Token<'a> {
    kind: Kind,
    text: &'a str,
    at: Span,
    begins_line: bool,
}

impl<'a> Model for Token<'a> {
    ghost use Rattle.rbs_lexer.specs.Tokens.{Token as Seen};

    ghost Value = { Seen };

    ghost view = { λ t. record { kind = t.kind; text = t.text.now; at = t.at; begins_line = t.begins_line } };
}

impl<'a> Token<'a> {
    pub fn new(kind: Kind, text: &'a str, at: Span, begins_line: bool) -> Token<'a>
        ensures { result ≡ record { kind = kind; text = text.now; at = at; begins_line = begins_line } }
    {
        Token {
            kind,
            text,
            at,
            begins_line,
        }
    }

    pub fn kind(&self) -> Kind
        ensures { result ≡ self.now.kind }
    {
        self.kind
    }

    /// The bytes, as written.
    pub fn text(&self) -> &'a str
        ensures { result.now ≡ self.now.text }
    {
        self.text
    }

    pub fn at(&self) -> Span
        ensures { result ≡ self.now.at }
    {
        self.at
    }

    /// Whether a line ends between the token before it, or the text's start, and the token.
    pub fn begins_line(&self) -> bool
        ensures { result ≡ self.now.begins_line }
    {
        self.begins_line
    }
}

/// The tokens of a text, up to its end or to the first place where none begins.
#[derive(Debug, Drop)]
pub struct Lexed<'a> {
    pub tokens: Seq<Token<'a>>,
    /// The character that is in no token and isn't skipped, where there is one.
    pub bad: Option<Span>,
}

/// Why a text has no tokens.
#[derive(Clone, Copy, Debug, PartialEq, Eq)]
pub enum BadToken {
    /// The character of this span is the first that is in no token, and isn't skipped.
    At(Span),
    NoMemory,
}

impl From<NoMemory> for BadToken {
    ghost use Rattle.std.specs.Prelude.{◌≡◌};
    ghost use Rattle.rbs_lexer.specs.declared.token.BadToken.TheVariants as bad;

    ghost from_gives = { λ _ e. e ≡ bad.NoMemory };

    fn from(_: NoMemory) -> Self {
        BadToken::NoMemory
    }
}
