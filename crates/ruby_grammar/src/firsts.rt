//! With which tokens parts begin.

ghost use Rattle.std.specs.Prelude.{◌≡◌, length, slice_get, Some, IfOk};
ghost use Rattle.ruby_grammar.specs.Firsts as spec;

use crate::engine::rule_at;
use crate::part::{Part, Rule};
use src_text::{Mem, Seq};
use std::alloc::Global;

/// What is known of the first token of a part: nothing, or a table that says of each kind whether the part may begin with it. Then it
/// derives nothing where no token stands. Kinds past the table's end may stand.
pub type First = Option<Seq<bool>>;

// What either of two tables lets stand.
fn union(alloc: Global, first: &[bool], second: &[bool]) -> Mem<Seq<bool>>
    ensures { IfOk result (λ table. table ≡ spec.union first.now second.now) }
{
    let mut table = Seq::new(alloc);
    let mut ones = first;
    let mut others = second;
    'kinds: while let [one, more @ ..] = ones {
        match others {
            [] => return Ok(table),
            [other, rest @ ..] => {
                table.push(*one || *other)?;
                ones = more;
                others = rest;
            }
        }
    }
    Ok(table)
}

// Of one or the other.
fn of_either(alloc: Global, first: First, second: First) -> Mem<First>
    ensures { IfOk result (λ f. f ≡ spec.first_of_either first second) }
{
    match (first, second) {
        (Some(first), Some(second)) => Ok(Some(union(alloc, first.as_slice(), second.as_slice())?)),
        _ => Ok(None),
    }
}

// A table once more.
fn copied(alloc: Global, table: &Seq<bool>) -> Mem<First>
    ensures { IfOk result (λ f. f ≡ Some table.now) }
{
    Ok(Some(Seq::from_slice(alloc, table.as_slice())?))
}

// Of a rule.
fn of_rule(alloc: Global, firsts: &[First], rule: usize) -> Mem<First>
    ensures { IfOk result (λ f. f ≡ spec.known (slice_get firsts.now rule)) }
{
    match firsts.get(rule) {
        Some(Some(table)) => copied(alloc, table),
        _ => Ok(None),
    }
}

// Of two parts, where there was memory for either.
fn of_both(alloc: Global, first: Mem<First>, second: Mem<First>) -> Mem<First>
    ensures { (f g : spec.First) → IfOk first (λ x. x ≡ f) → IfOk second (λ x. x ≡ g) → IfOk result (λ x. x ≡ spec.first_of_either f g) }
{
    of_either(alloc, first?, second?)
}

/// What a part begins with, where this is known of the rules that it may call.
pub fn first(alloc: Global, firsts: &[First], part: &Part) -> Mem<First>
    ensures { IfOk result (λ f. f ≡ spec.first firsts.now part.now) }
{
    match part {
        Part::Token(set) => copied(alloc, &set.kinds),
        Part::Both(inner, _) => first(alloc, firsts, inner.get()),
        Part::Either(one, other) => of_both(
            alloc,
            first(alloc, firsts, one.get()),
            first(alloc, firsts, other.get()),
        ),
        Part::Label(_, inner) => first(alloc, firsts, inner.get()),
        Part::Chained(_, inner) => first(alloc, firsts, inner.get()),
        Part::Ended(_, inner) => first(alloc, firsts, inner.get()),
        Part::Guarded(_, inner) => first(alloc, firsts, inner.get()),
        Part::Call(rule) => of_rule(alloc, firsts, *rule),
        Part::Empty => Ok(None),
        Part::Many(_) => Ok(None),
        Part::Chain(_, _) => Ok(None),
        Part::Not(_) => Ok(None),
        Part::Open(_, _) => Ok(None),
    }
}

// What the rule of a number begins with.
fn first_of_rule(alloc: Global, firsts: &[First], rules: &[Rule], number: usize) -> Mem<First>
    ensures { IfOk result (λ f. f ≡ spec.first_of_rule firsts.now (slice_get rules.now number)) }
{
    match rule_at(rules, number) {
        None => Ok(None),
        Some(rule) => first(alloc, firsts, &rule.part),
    }
}

/// What each rule begins with.
#[tactic(auto, unfolding(crate::specs::Firsts::firsts))]
pub fn firsts(alloc: Global, rules: &[Rule]) -> Mem<Seq<First>>
    ensures { IfOk result (λ all. all ≡ spec.firsts rules.now (length rules.now)) }
{
    let mut all = Seq::new(alloc);
    let mut number = 0;
    'rules: while number < rules.len() {
        let next = first_of_rule(alloc, all.as_slice(), rules, number)?;
        all.push(next)?;
        number += 1;
    }
    Ok(all)
}
