ghost use Rattle.std.specs.Prelude.{◌≡◌, ◌<◌, ◌^◌, ℕ, List, length, Result, IfOk};
ghost use Rattle.rbs_lexer.specs.Tokens.{Token};
ghost use Rattle.rbs_grammar.specs.Grammar.{Fault};
ghost use Rattle.rbs_grammar.specs.Parse as grammar;
ghost use Rattle.rbs_grammar.specs.Texts as texts;
ghost use Rattle.rbs_parser.specs.Answers.{IsFound, IsOnly, Parses};

use crate::declarations::file;
use crate::{Cursor, Refusal};
use rbs_lexer::{Token, lex};
use rbs_tree::Decl;
use src_text::{NoMemory, Seq, Span};
use std::alloc::Global;

/// Why a text has no declarations.
#[derive(Clone, Copy, Debug, PartialEq, Eq)]
pub enum ParseFault {
    /// The text can't go on with the token of this span, or with the character where no token begins; at the text's end the span is
    /// empty, and more is wanted.
    Syntax(Span),
    /// One rule too many opens at the token of this span.
    TooDeep(Span),
    NoMemory,
}

impl From<NoMemory> for ParseFault {
    ghost use Rattle.std.specs.Prelude.{◌≡◌};
    ghost use Rattle.rbs_parser.specs.declared.whole.ParseFault.TheVariants as fault;

    ghost from_gives = { λ _ e. e ≡ fault.NoMemory };

    fn from(_: NoMemory) -> Self {
        ParseFault::NoMemory
    }
}

/// How many declarations and types may be open at once, and how many functions.
const LIMIT: usize = 128;

/// The declarations of a signature text.
///
/// Where it has none, the first place is answered at which it can't go on: the first token such that the text before it could, or
/// the first character where no token begins, or the 129th declaration or type that is open at once, or the 129th function.
pub fn parse(alloc: Global, text: &str) -> Result<Seq<Decl>, ParseFault>
    requires { length text.now < 2 ^ 32 }
    // What is answered is so.
    ensures answers { IsFound text.now result }
    // The text has no other answer.
    ensures only { (this : texts.Answer) → texts.IsAnswer text.now this → IsOnly result this }
{
    let lexed = lex(alloc, text)?;
    let mut cursor = Cursor::new(lexed.tokens.as_slice());
    let found = whole(alloc, &mut cursor);
    answered(
        stop_of(text.len() as u32, lexed.bad),
        lexed.bad,
        found,
        cursor.rest(),
    )
}

// The declarations that all the tokens are.
#[tactic(auto, unfolding(rbs_grammar::specs::Parse::parse, rbs_grammar::specs::Texts::room_of_texts))]
fn whole(alloc: Global, cursor: &mut Cursor<'_>) -> Result<Seq<Decl>, Refusal>
    ensures { Parses (grammar.parse texts.room_of_texts cursor.old) result cursor.new }
{
    let found = file(alloc, cursor, LIMIT, LIMIT)?;
    if cursor.is_at_end() {
        Ok(found)
    } else {
        Err(Refusal::Syntax)
    }
}

// The answer by what was found and where the reading stopped.
fn answered(
    stop: Span,
    bad: Option<Span>,
    found: Result<Seq<Decl>, Refusal>,
    rest: &[Token<'_>],
) -> Result<Seq<Decl>, ParseFault>
    ensures { (outcome : Result grammar.Tree (Fault × List Token)) → Parses outcome found rest.now → IsOnly result (texts.answer_of stop bad outcome) }
{
    match found {
        Ok(tree) => at_the_end(bad, tree),
        Err(Refusal::NoMemory) => Err(ParseFault::NoMemory),
        Err(Refusal::Syntax) => Err(ParseFault::Syntax(place_of(stop, rest))),
        Err(Refusal::TooDeep) => Err(ParseFault::TooDeep(place_of(stop, rest))),
    }
}

// The tree of all tokens, unless behind them no token begins.
fn at_the_end(bad: Option<Span>, tree: Seq<Decl>) -> Result<Seq<Decl>, ParseFault>
    ensures { IsOnly result (texts.at_the_end bad tree) }
{
    match bad {
        None => Ok(tree),
        Some(bad) => Err(ParseFault::Syntax(bad)),
    }
}

// Where the tokens end.
fn stop_of(end: u32, bad: Option<Span>) -> Span
    ensures { result ≡ texts.stop_of end bad }
{
    match bad {
        None => Span { start: end, end },
        Some(bad) => bad,
    }
}

// The span of the first of some tokens, or of where they end.
fn place_of(stop: Span, tokens: &[Token<'_>]) -> Span
    ensures { result ≡ texts.place_of stop tokens.now }
{
    match tokens {
        [] => stop,
        [next, ..] => next.at(),
    }
}
