//! The reading of a text's tokens.

ghost use Rattle.std.specs.Prelude.{◌≡◌, ◌-◌, length, map, slice_get, IfOk};
ghost use Rattle.ruby_lexer.specs.Answers.{Gives};
ghost use Rattle.ruby_grammar.specs.Parsed.{Answers, parsed};
ghost use Rattle.ruby_exprs.specs.Derived as spec;
ghost use Rattle.ruby_exprs.specs.Grammar.{ruby_grammar};

use crate::grammar::grammar;
use crate::kinds::kind_number;
use ruby_grammar::{Fault, Token, Tree, parse};
use ruby_lexer::{RubyAt, RubyToken};
use src_text::{Mem, NoMemory, Seq, Span};
use std::alloc::Global;

// The tokens as the grammar sees them.
fn seen(alloc: Global, tokens: &[RubyToken]) -> Mem<Seq<Token>>
    ensures { IfOk result (λ seen. seen ≡ map spec.seen tokens.now) }
{
    let mut seen = Seq::new(alloc);
    for token in tokens {
        let kind = kind_number(token.kind);
        seen.push(Token {
            kind,
            blank: token.blank,
        })?;
    }
    Ok(seen)
}

// The last token's span.
fn last_span(tokens: &[RubyToken]) -> Span
    ensures { result ≡ spec.span_of (slice_get tokens.now (length tokens.now - 1)) }
{
    match tokens.get(tokens.len().saturating_sub(1)) {
        None => Span { start: 0, end: 0 },
        Some(token) => token.span,
    }
}

// The span of the token at a place.
fn span_at(tokens: &[RubyToken], place: usize) -> Span
    ensures { result ≡ spec.span_at tokens.now place }
{
    match tokens.get(place) {
        None => last_span(tokens),
        Some(token) => token.span,
    }
}

// The tree that stands alone in a list.
fn one_tree(tokens: &[RubyToken], trees: Seq<Tree>) -> Result<Tree, RubyAt>
    ensures { result ≡ spec.one_tree tokens.now trees }
{
    let mut trees = trees.into_vec();
    match trees.pop() {
        Some(tree) if trees.is_empty() => Ok(tree),
        _ => Err(RubyAt::Syntax(span_at(tokens, 0))),
    }
}

// What the grammar gives of the tokens.
fn parsed(alloc: Global, tokens: &[RubyToken]) -> Result<Seq<Tree>, Fault>
    ensures { Answers (parsed ruby_grammar (map spec.seen tokens.now)) result }
{
    match seen(alloc, tokens) {
        Err(NoMemory) => Err(Fault::NoMemory),
        Ok(seen) => match grammar(alloc) {
            Err(NoMemory) => Err(Fault::NoMemory),
            Ok(grammar) => parse(alloc, &grammar, seen.as_slice()),
        },
    }
}

/// The concrete tree of the tokens of a text: a node of the label `Program`, whose leaves are the places of the tokens. Where they have
/// none, `Syntax` with the span of the farthest token at which something that was tried failed, or `TooDeep` with that of the token at
/// which a rule, a word or a link too many begins. It never answers `Unsupported`.
#[tactic(auto, unfolding(crate::specs::Derived::derived))]
pub fn derive(alloc: Global, tokens: &[RubyToken]) -> Result<Tree, RubyAt>
    ensures { Gives result (spec.derived tokens.now) }
{
    match parsed(alloc, tokens) {
        Ok(trees) => one_tree(tokens, trees),
        Err(Fault::Syntax(place)) => Err(RubyAt::Syntax(span_at(tokens, place))),
        Err(Fault::TooDeep(place)) => Err(RubyAt::TooDeep(span_at(tokens, place))),
        Err(Fault::NoMemory) => Err(RubyAt::NoMemory),
    }
}
