//! Guards: what is tried isn't read where it can't begin with the token that stands there.

ghost use Rattle.std.specs.Prelude.{◌≡◌, map, IfOk};
ghost use Rattle.ruby_grammar.specs.declared.part.Part.{Part};
ghost use Rattle.ruby_grammar.specs.declared.part.Part.TheVariants as part;
ghost use Rattle.ruby_grammar.specs.Firsts as spec;

use crate::firsts::{First, first, firsts};
use crate::make;
use crate::part::{Part, Rule};
use crate::set::TokenSet;
use src_text::{Boxed, Mem, Seq};
use std::alloc::Global;

// ---- parts, where there was memory for what they are made of

// A table once more.
fn copied(alloc: Global, table: &Seq<bool>) -> Mem<Seq<bool>>
    ensures { IfOk result (λ copy. copy ≡ table.now) }
{
    Seq::from_slice(alloc, table.as_slice())
}

fn set_copied(alloc: Global, set: &TokenSet) -> Mem<TokenSet>
    ensures { IfOk result (λ copy. copy ≡ set.now) }
{
    Ok(TokenSet {
        kinds: copied(alloc, &set.kinds)?,
        blank: set.blank,
    })
}

fn token(alloc: Global, set: &TokenSet) -> Mem<Part>
    ensures { IfOk result (λ p. p ≡ part.Token set.now) }
{
    Ok(Part::Token(set_copied(alloc, set)?))
}

fn both(alloc: Global, first: Mem<Part>, second: Mem<Part>) -> Mem<Part>
    ensures { (p q : Part) → IfOk first (λ x. x ≡ p) → IfOk second (λ x. x ≡ q) → IfOk result (λ x. x ≡ part.Both p q) }
{
    make::both(alloc, first?, second?)
}

fn either(alloc: Global, first: Mem<Part>, second: Mem<Part>) -> Mem<Part>
    ensures { (p q : Part) → IfOk first (λ x. x ≡ p) → IfOk second (λ x. x ≡ q) → IfOk result (λ x. x ≡ part.Either p q) }
{
    make::either(alloc, first?, second?)
}

fn many(alloc: Global, inner: Mem<Part>) -> Mem<Part>
    ensures { (p : Part) → IfOk inner (λ x. x ≡ p) → IfOk result (λ x. x ≡ part.Many p) }
{
    make::many(alloc, inner?)
}

fn chain(alloc: Global, head: &TokenSet, link: Mem<Part>) -> Mem<Part>
    ensures { (p : Part) → IfOk link (λ x. x ≡ p) → IfOk result (λ x. x ≡ part.Chain head.now p) }
{
    let link = Boxed::new(alloc, link?)?;
    Ok(Part::Chain(set_copied(alloc, head)?, link))
}

fn not(alloc: Global, inner: Mem<Part>) -> Mem<Part>
    ensures { (p : Part) → IfOk inner (λ x. x ≡ p) → IfOk result (λ x. x ≡ part.Not p) }
{
    make::not(alloc, inner?)
}

fn label(alloc: Global, name: u8, inner: Mem<Part>) -> Mem<Part>
    ensures { (p : Part) → IfOk inner (λ x. x ≡ p) → IfOk result (λ x. x ≡ part.Label name p) }
{
    make::label(alloc, name, inner?)
}

fn chained(alloc: Global, name: u8, inner: Mem<Part>) -> Mem<Part>
    ensures { (p : Part) → IfOk inner (λ x. x ≡ p) → IfOk result (λ x. x ≡ part.Chained name p) }
{
    make::chained(alloc, name, inner?)
}

fn ended(alloc: Global, labels: &Seq<bool>, inner: Mem<Part>) -> Mem<Part>
    ensures { (p : Part) → IfOk inner (λ x. x ≡ p) → IfOk result (λ x. x ≡ part.Ended labels.now p) }
{
    let inner = Boxed::new(alloc, inner?)?;
    Ok(Part::Ended(copied(alloc, labels)?, inner))
}

fn behind(alloc: Global, table: &Seq<bool>, inner: Mem<Part>) -> Mem<Part>
    ensures { (p : Part) → IfOk inner (λ x. x ≡ p) → IfOk result (λ x. x ≡ part.Guarded table.now p) }
{
    let inner = Boxed::new(alloc, inner?)?;
    Ok(Part::Guarded(copied(alloc, table)?, inner))
}

// ---- guards

fn is_token(part: &Part) -> bool
    ensures { result ≡ spec.is_token part.now }
{
    match part {
        Part::Token(_) => true,
        _ => false,
    }
}

fn guarded_by(alloc: Global, known: First, part: Part) -> Mem<Part>
    ensures { IfOk result (λ p. p ≡ spec.guarded_by known part) }
{
    match known {
        None => Ok(part),
        Some(table) => Ok(Part::Guarded(table, Boxed::new(alloc, part)?)),
    }
}

// A part that is tried, with a guard where that helps.
#[tactic(auto, unfolding(crate::specs::Firsts::guard))]
fn guard(alloc: Global, firsts: &[First], part: Part) -> Mem<Part>
    ensures { IfOk result (λ p. p ≡ spec.guard firsts.now part) }
{
    if is_token(&part) {
        return Ok(part);
    }
    let known = first(alloc, firsts, &part)?;
    guarded_by(alloc, known, part)
}

fn guard_of(alloc: Global, firsts: &[First], part: Mem<Part>) -> Mem<Part>
    ensures { (p : Part) → IfOk part (λ x. x ≡ p) → IfOk result (λ x. x ≡ spec.guard firsts.now p) }
{
    guard(alloc, firsts, part?)
}

// A part with guards before its alternatives and its repetitions.
#[cycle(guarded)]
fn guarded(alloc: Global, firsts: &[First], part: &Part) -> Mem<Part>
    ensures { IfOk result (λ p. p ≡ spec.guarded firsts.now part.now) }
{
    match part {
        Part::Empty => Ok(Part::Empty),
        Part::Token(set) => token(alloc, set),
        Part::Both(first, second) => both(
            alloc,
            guarded(alloc, firsts, first.get()),
            guarded(alloc, firsts, second.get()),
        ),
        Part::Either(first, second) => either(
            alloc,
            tried(alloc, firsts, first.get()),
            tried(alloc, firsts, second.get()),
        ),
        Part::Many(inner) => many(alloc, tried(alloc, firsts, inner.get())),
        Part::Chain(head, link) => chain(alloc, head, tried(alloc, firsts, link.get())),
        Part::Not(inner) => not(alloc, guarded(alloc, firsts, inner.get())),
        Part::Label(name, inner) => label(alloc, *name, guarded(alloc, firsts, inner.get())),
        Part::Chained(name, inner) => chained(alloc, *name, guarded(alloc, firsts, inner.get())),
        Part::Call(rule) => Ok(Part::Call(*rule)),
        Part::Open(budget, rule) => Ok(Part::Open(*budget, *rule)),
        Part::Ended(labels, inner) => ended(alloc, labels, guarded(alloc, firsts, inner.get())),
        Part::Guarded(table, inner) => behind(alloc, table, guarded(alloc, firsts, inner.get())),
    }
}

// The same, with a guard before the whole.
#[cycle(guarded)]
fn tried(alloc: Global, firsts: &[First], part: &Part) -> Mem<Part>
    ensures { IfOk result (λ p. p ≡ spec.guard firsts.now (spec.guarded firsts.now part.now)) }
{
    guard_of(alloc, firsts, guarded(alloc, firsts, part))
}

// ---- rules

fn guarded_rule(alloc: Global, firsts: &[First], rule: &Rule) -> Mem<Rule>
    ensures { IfOk result (λ r. r ≡ spec.guarded_rule firsts.now rule.now) }
{
    let part = tried(alloc, firsts, &rule.part)?;
    Ok(Rule {
        part,
        kept: rule.kept,
    })
}

fn all_guarded(alloc: Global, firsts: &[First], rules: &[Rule]) -> Mem<Seq<Rule>>
    ensures { IfOk result (λ all. all ≡ map (spec.guarded_rule firsts.now) rules.now) }
{
    let mut all = Seq::new(alloc);
    for rule in rules {
        all.push(guarded_rule(alloc, firsts, rule)?)?;
    }
    Ok(all)
}

/// The rules with guards: what they derive is the same.
#[tactic(auto, unfolding(crate::specs::Firsts::guarded_rules))]
pub fn guarded_rules(alloc: Global, rules: &[Rule]) -> Mem<Seq<Rule>>
    ensures { IfOk result (λ all. all ≡ spec.guarded_rules rules.now) }
{
    let firsts = firsts(alloc, rules)?;
    all_guarded(alloc, firsts.as_slice(), rules)
}
