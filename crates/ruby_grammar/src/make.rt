//! Parts of grammars.

ghost use Rattle.std.specs.Prelude.{◌≡◌, IfOk};
ghost use Rattle.ruby_grammar.specs.Sets as sets;
ghost use Rattle.ruby_grammar.specs.declared.part.Part.TheVariants as part;
ghost use Rattle.ruby_grammar.specs.declared.room.Budget.TheVariants as budget;
ghost use Rattle.ruby_grammar.specs.declared.set.Blank.TheVariants as blank;

use crate::part::Part;
use crate::room::Budget;
use crate::set::{Blank, TokenSet};
use src_text::{Boxed, Mem, Seq};
use std::alloc::Global;

/// Numbers below this are in tables.
#[tactic(auto, unfolding(crate::specs::Sets::table_end))]
fn table_limit() -> u8
    ensures { result ≡ sets.table_end }
{
    128
}

// Whether a number is one of these.
fn is_one_of(numbers: &[u8], number: u8) -> bool
    ensures { result ≡ sets.is_one_of numbers.now number }
{
    numbers.iter().any(|n| *n == number)
}

/// The table that says so of these numbers.
#[tactic(auto, unfolding(crate::specs::Sets::table_of))]
pub fn table_of(alloc: Global, numbers: &[u8]) -> Mem<Seq<bool>>
    ensures { IfOk result (λ table. table ≡ sets.table_of numbers.now) }
{
    let mut table = Seq::new(alloc);
    let mut number = 0;
    'numbers: while number < table_limit() {
        table.push(is_one_of(numbers, number))?;
        number += 1;
    }
    Ok(table)
}

/// The table that says so of all but these numbers.
#[tactic(auto, unfolding(crate::specs::Sets::table_but))]
pub fn table_but(alloc: Global, numbers: &[u8]) -> Mem<Seq<bool>>
    ensures { IfOk result (λ table. table ≡ sets.table_but numbers.now) }
{
    let mut table = Seq::new(alloc);
    let mut number = 0;
    'numbers: while number < table_limit() {
        table.push(!is_one_of(numbers, number))?;
        number += 1;
    }
    Ok(table)
}

/// A token of these kinds.
pub fn token(alloc: Global, kinds: &[u8], blank: Blank) -> Mem<Part>
    ensures { IfOk result (λ p. p ≡ part.Token (sets.tokens_of kinds.now blank)) }
{
    Ok(Part::Token(TokenSet {
        kinds: table_of(alloc, kinds)?,
        blank,
    }))
}

/// A token of all kinds but these.
pub fn token_but(alloc: Global, kinds: &[u8], blank: Blank) -> Mem<Part>
    ensures { IfOk result (λ p. p ≡ part.Token (sets.tokens_but kinds.now blank)) }
{
    Ok(Part::Token(TokenSet {
        kinds: table_but(alloc, kinds)?,
        blank,
    }))
}

/// One after the other.
pub fn both(alloc: Global, first: Part, second: Part) -> Mem<Part>
    ensures { IfOk result (λ p. p ≡ part.Both first second) }
{
    Ok(Part::Both(Boxed::new(alloc, first)?, Boxed::new(alloc, second)?))
}

/// The first that derives.
pub fn either(alloc: Global, first: Part, second: Part) -> Mem<Part>
    ensures { IfOk result (λ p. p ≡ part.Either first second) }
{
    Ok(Part::Either(Boxed::new(alloc, first)?, Boxed::new(alloc, second)?))
}

/// This or no token.
pub fn perhaps(alloc: Global, inner: Part) -> Mem<Part>
    ensures { IfOk result (λ p. p ≡ part.Either inner part.Empty) }
{
    either(alloc, inner, Part::Empty)
}

/// As many as derive.
pub fn many(alloc: Global, inner: Part) -> Mem<Part>
    ensures { IfOk result (λ p. p ≡ part.Many inner) }
{
    Ok(Part::Many(Boxed::new(alloc, inner)?))
}

/// As many links as derive, each of which begins with a token of these kinds.
pub fn chain(alloc: Global, heads: &[u8], link: Part) -> Mem<Part>
    ensures { IfOk result (λ p. p ≡ part.Chain (sets.tokens_of heads.now blank.Any) link) }
{
    let head = TokenSet {
        kinds: table_of(alloc, heads)?,
        blank: Blank::Any,
    };
    Ok(Part::Chain(head, Boxed::new(alloc, link)?))
}

/// No token, where this doesn't derive.
pub fn not(alloc: Global, inner: Part) -> Mem<Part>
    ensures { IfOk result (λ p. p ≡ part.Not inner) }
{
    Ok(Part::Not(Boxed::new(alloc, inner)?))
}

/// A node with this name.
pub fn label(alloc: Global, name: u8, inner: Part) -> Mem<Part>
    ensures { IfOk result (λ p. p ≡ part.Label name inner) }
{
    Ok(Part::Label(name, Boxed::new(alloc, inner)?))
}

/// A node with this name, but where the part gives one tree alone that tree.
pub fn chained(alloc: Global, name: u8, inner: Part) -> Mem<Part>
    ensures { IfOk result (λ p. p ≡ part.Chained name inner) }
{
    Ok(Part::Chained(name, Boxed::new(alloc, inner)?))
}

/// The part, where the label that ended last in it is one of these.
pub fn ended(alloc: Global, labels: &[u8], inner: Part) -> Mem<Part>
    ensures { IfOk result (λ p. p ≡ part.Ended (sets.table_of labels.now) inner) }
{
    Ok(Part::Ended(table_of(alloc, labels)?, Boxed::new(alloc, inner)?))
}

/// What a rule derives that is counted in the first budget.
pub fn opened(rule: usize) -> Part
    ensures { result ≡ part.Open budget.Rules rule }
{
    Part::Open(Budget::Rules, rule)
}

/// What a rule derives that is counted in the second budget.
pub fn worded(rule: usize) -> Part
    ensures { result ≡ part.Open budget.Words rule }
{
    Part::Open(Budget::Words, rule)
}
