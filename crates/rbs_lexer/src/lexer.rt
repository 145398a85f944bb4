ghost use Rattle.std.specs.Prelude.{◌≡◌, ◌+◌, ◌<◌, ◌≤◌, ◌^◌, List, length, slice_index, chars, Option, Some, IfOk};
ghost use Rattle.std.specs.Char.{len_utf8};
ghost use Rattle.src_text.specs.declared.span.Span.{Span};
ghost use Rattle.rbs_lexer.specs.Tokens.{Token};
ghost use Rattle.rbs_lexer.specs.Lexing.{AreTokens, IsBad, IsLexed, span_of_first};
ghost use Rattle.rbs_lexer.specs.Answers.{Answers, IsTokens, IsBadAt};

use crate::front::front;
use crate::kind::Kind;
use crate::reading::Reading;
use crate::token::{BadToken, Lexed, Token};
use crate::walk::{Walk, begin, past_gap, past_token};
use src_text::{Mem, Seq, Span};
use std::alloc::Global;

/// The tokens of a text: at each place the longest. Whether the name of a method may stand at a place is told by the tokens
/// before it alone, and of two readings of one length a name's comes first.
///
/// Blanks, comments from `#` to the line's end, and annotations (`%a` and what stands in brackets directly behind it) are
/// skipped. Where neither they nor a token begins, the text has no tokens, and the character that begins there is answered. An
/// integer past 128 bits with a sign, a text that isn't closed by its quote, and an annotation that isn't closed are no tokens
/// at their first character.
pub fn tokens<'a>(alloc: Global, text: &'a str) -> Result<Seq<Token<'a>>, BadToken>
    requires { length text.now < 2 ^ 32 }
    // What is answered is so.
    ensures answers { Answers text.now result }
    // The text has no other tokens, and none where a span is answered.
    ensures tokens { (these : List Token) → AreTokens text.now these → IsTokens result these }
    // It has no other such place, and none where tokens are answered.
    ensures bad { (this : Span) → IsBad text.now this → IsBadAt result this }
{
    let lexed = lex(alloc, text)?;
    match lexed.bad {
        None => Ok(lexed.tokens),
        Some(at) => Err(BadToken::At(at)),
    }
}

/// The tokens of a text as far as it has some, and the first place where neither a token begins nor what is skipped.
pub fn lex<'a>(alloc: Global, text: &'a str) -> Mem<Lexed<'a>>
    requires { length text.now < 2 ^ 32 }
    // What is answered is so.
    ensures answers { IfOk result (λ l. IsLexed text.now l.tokens l.bad) }
    // Nothing else is so.
    ensures one { (these : List Token) (bad : Option Span) → IsLexed text.now these bad → IfOk result (λ l. (l.tokens ≡ these) × (l.bad ≡ bad)) }
{
    let mut found = Seq::new(alloc);
    let mut walk = begin();
    while walk.at < text.len() {
        let rest = &text[walk.at..];
        let Some(next) = front(walk.place, rest) else {
            return Ok(Lexed {
                tokens: found,
                bad: Some(first_span(walk.at, rest)),
            });
        };
        let run = &rest[..next.len];
        match next.reading {
            Reading::Token(kind) => {
                found.push(token(walk, kind, run))?;
                walk = past_token(walk, kind, run);
            }
            Reading::Skipped => walk = past_gap(walk, run),
            Reading::Refused => {
                return Ok(Lexed {
                    tokens: found,
                    bad: Some(first_span(walk.at, rest)),
                });
            }
        }
    }
    Ok(Lexed {
        tokens: found,
        bad: None,
    })
}

// The token of a run at which a walk stands.
fn token<'a>(walk: Walk, kind: Kind, run: &'a str) -> Token<'a>
    requires { walk.at + length run.now < 2 ^ 32 }
    ensures { result ≡ record { kind = kind; text = run.now; at = record { start = walk.at; end = walk.at + length run.now }; begins_line = walk.line_ended } }
{
    let at = Span {
        start: walk.at as u32,
        end: (walk.at + run.len()) as u32,
    };
    Token::new(kind, run, at, walk.line_ended)
}

// The span of the first character of what stands behind some bytes.
fn first_span(at: usize, rest: &str) -> Span
    requires some { 0 < length rest.now }
    requires fits { at + length rest.now < 2 ^ 32 }
    ensures { result ≡ span_of_first at rest.now }
{
    Span {
        start: at as u32,
        end: (at + first_len(rest)) as u32,
    }
}

// How many bytes the first character takes.
fn first_len(text: &str) -> usize
    requires { 0 < length text.now }
    ensures value { result ≡ len_utf8 (slice_index (chars text.now) 0) }
    ensures within { result ≤ length text.now }
{
    match text.chars().next() {
        Some(first) => first.len_utf8(),
        None => unreachable!(),
    }
}
