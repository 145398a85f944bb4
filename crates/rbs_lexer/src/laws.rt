//! Laws of the tokens. Each function is a law, and does no work.

ghost use Rattle.std.specs.Prelude.{◌≡◌, ℕ, List, Option};
ghost use Rattle.src_text.specs.declared.span.Span.{Span};
ghost use Rattle.rbs_lexer.specs.Tokens.{Token};
ghost use Rattle.rbs_lexer.specs.Lexing.{IsLexed};

/// A text has one list of tokens up to its end, or up to one place where none begins. This holds of all bytes, also those that aren't
/// UTF-8.
pub fn one_lexing()
    ensures { (text : List ℕ) (tokens others : List Token) (bad other : Option Span) → IsLexed text tokens bad → IsLexed text others other → (tokens ≡ others) × (bad ≡ other) }
{}
