//! The whole grammar.

ghost use Rattle.std.specs.Prelude.{◌≡◌, map, IfOk};
ghost use Rattle.ruby_exprs.specs.Drafts.{Makes};
ghost use Rattle.ruby_exprs.specs.Grammar as spec;

use crate::assignments::{arg_rule, lhs_rule, masgn_rule, mlhs_rule, sasgn_rule};
use crate::calls::{
    args_rule, block_rule, brace_args_rule, brace_block_rule, cargs_rule, command_rule,
    doblock_rule, item_rule, link_rule, mname_rule, pargs_rule, post_parts_rule, post_rule,
};
use crate::definitions::{cpath_rule, def_head_rule, def_name_rule};
use crate::draft::Draft;
use crate::names::{Name, ParamList, Sort, rule_number};
use crate::operators::{
    add_rule, and_rule, band_rule, bor_rule, cmp_rule, dfn_rule, eq_rule, expr_rule, min_rule,
    mul_rule, not_rule, or_rule, pow_rule, range_rule, shf_rule, tern_rule, una_rule,
};
use crate::parameters::{
    any_param, behind_keyrest_rule, behind_keyword_rule, behind_optional_rule,
    behind_required_rule, behind_rest_rule, block_param, bpar_rule, params_rule,
};
use crate::primaries::prim_rule;
use crate::statements::{
    alias_name_rule, body_rule, else_rule, program_rule, stmt_rule, stmts_rule, then_rule,
};
use crate::texts::{parts_rule, str_rule};
use ruby_grammar::{Grammar, Rule};
use src_text::{Mem, Seq};
use std::alloc::Global;

// A parameter of a list.
fn param_rule(alloc: Global, list: ParamList) -> Draft
    ensures { Makes result (spec.param_rule list) }
{
    match list {
        ParamList::Plain => any_param(alloc, Sort::WithDo),
        ParamList::PlainWithoutDo => any_param(alloc, Sort::WithoutDo),
        ParamList::OfBlock => block_param(alloc),
    }
}

// What a rule reads.
#[tactic(auto, unfolding(crate::specs::Grammar::part_of))]
fn part_of(alloc: Global, name: Name) -> Draft
    ensures { Makes result (spec.part_of name) }
{
    match name {
        Name::Item(sort) => item_rule(alloc, sort),
        Name::Cargs => cargs_rule(alloc),
        Name::Stmts => stmts_rule(alloc),
        Name::Else => else_rule(alloc),
        Name::Then => then_rule(alloc),
        Name::Body => body_rule(alloc),
        Name::Mname => mname_rule(alloc),
        Name::DefName => def_name_rule(alloc),
        Name::DefHead => def_head_rule(alloc),
        Name::Cpath => cpath_rule(alloc),
        Name::Parts => parts_rule(alloc),
        Name::Str => str_rule(alloc),
        Name::Args => args_rule(alloc),
        Name::BraceArgs => brace_args_rule(alloc),
        Name::Pargs => pargs_rule(alloc),
        Name::AliasName => alias_name_rule(alloc),
        Name::Mlhs => mlhs_rule(alloc),
        Name::Param(list) => param_rule(alloc, list),
        Name::BehindKeyrest(list) => behind_keyrest_rule(alloc, list),
        Name::BehindKeyword(list) => behind_keyword_rule(alloc, list),
        Name::BehindRest(list) => behind_rest_rule(alloc, list),
        Name::BehindOptional(list) => behind_optional_rule(alloc, list),
        Name::BehindRequired(list) => behind_required_rule(alloc, list),
        Name::Params(list) => params_rule(alloc, list),
        Name::Bpar => bpar_rule(alloc),
        Name::Doblock => doblock_rule(alloc),
        Name::BraceBlock => brace_block_rule(alloc),
        Name::Block(sort) => block_rule(alloc, sort),
        Name::Link(sort) => link_rule(alloc, sort),
        Name::Prim(sort) => prim_rule(alloc, sort),
        Name::PostParts(sort) => post_parts_rule(alloc, sort),
        Name::Command(sort) => command_rule(alloc, sort),
        Name::Lhs(sort) => lhs_rule(alloc, sort),
        Name::Masgn(sort) => masgn_rule(alloc, sort),
        Name::Sasgn(sort) => sasgn_rule(alloc, sort),
        Name::Post(sort) => post_rule(alloc, sort),
        Name::Una(sort) => una_rule(alloc, sort),
        Name::Pow(sort) => pow_rule(alloc, sort),
        Name::Min(sort) => min_rule(alloc, sort),
        Name::Mul(sort) => mul_rule(alloc, sort),
        Name::Add(sort) => add_rule(alloc, sort),
        Name::Shf(sort) => shf_rule(alloc, sort),
        Name::Band(sort) => band_rule(alloc, sort),
        Name::Bor(sort) => bor_rule(alloc, sort),
        Name::Cmp(sort) => cmp_rule(alloc, sort),
        Name::Eq(sort) => eq_rule(alloc, sort),
        Name::Dfn(sort) => dfn_rule(alloc, sort),
        Name::And(sort) => and_rule(alloc, sort),
        Name::Or(sort) => or_rule(alloc, sort),
        Name::Range(sort) => range_rule(alloc, sort),
        Name::Tern(sort) => tern_rule(alloc, sort),
        Name::Arg(sort) => arg_rule(alloc, sort),
        Name::Not(sort) => not_rule(alloc, sort),
        Name::Expr(sort) => expr_rule(alloc, sort),
        Name::Stmt => stmt_rule(alloc),
        Name::Program => program_rule(alloc),
    }
}

// Whether what a rule derives at a place is kept.
#[tactic(auto, unfolding(crate::specs::Grammar::is_kept))]
fn is_kept(name: Name) -> bool
    ensures { result ≡ spec.is_kept name }
{
    match name {
        Name::Stmt => true,
        Name::Arg(_) => true,
        Name::Not(_) => true,
        Name::Command(_) => true,
        Name::PostParts(_) => true,
        Name::Pargs => true,
        Name::Param(_) => true,
        _ => false,
    }
}

// The rules of names.
fn rules_of(alloc: Global, names: &[Name]) -> Mem<Seq<Rule>>
    ensures { IfOk result (λ rules. rules ≡ map spec.rule_of names.now) }
{
    let mut rules = Seq::new(alloc);
    for name in names {
        let part = part_of(alloc, *name).made()?;
        let kept = is_kept(*name);
        rules.push(Rule { part, kept })?;
    }
    Ok(rules)
}

const NAMES: [Name; 98] = [
    Name::Item(Sort::WithDo),
    Name::Item(Sort::WithoutDo),
    Name::Cargs,
    Name::Stmts,
    Name::Else,
    Name::Then,
    Name::Body,
    Name::Mname,
    Name::DefName,
    Name::DefHead,
    Name::Cpath,
    Name::Parts,
    Name::Str,
    Name::Args,
    Name::BraceArgs,
    Name::Pargs,
    Name::AliasName,
    Name::Mlhs,
    Name::Param(ParamList::Plain),
    Name::BehindKeyrest(ParamList::Plain),
    Name::BehindKeyword(ParamList::Plain),
    Name::BehindRest(ParamList::Plain),
    Name::BehindOptional(ParamList::Plain),
    Name::BehindRequired(ParamList::Plain),
    Name::Params(ParamList::Plain),
    Name::Param(ParamList::PlainWithoutDo),
    Name::BehindKeyrest(ParamList::PlainWithoutDo),
    Name::BehindKeyword(ParamList::PlainWithoutDo),
    Name::BehindRest(ParamList::PlainWithoutDo),
    Name::BehindOptional(ParamList::PlainWithoutDo),
    Name::BehindRequired(ParamList::PlainWithoutDo),
    Name::Params(ParamList::PlainWithoutDo),
    Name::Param(ParamList::OfBlock),
    Name::BehindKeyrest(ParamList::OfBlock),
    Name::BehindKeyword(ParamList::OfBlock),
    Name::BehindRest(ParamList::OfBlock),
    Name::BehindOptional(ParamList::OfBlock),
    Name::BehindRequired(ParamList::OfBlock),
    Name::Params(ParamList::OfBlock),
    Name::Bpar,
    Name::Doblock,
    Name::BraceBlock,
    Name::Block(Sort::WithDo),
    Name::Link(Sort::WithDo),
    Name::Prim(Sort::WithDo),
    Name::PostParts(Sort::WithDo),
    Name::Command(Sort::WithDo),
    Name::Lhs(Sort::WithDo),
    Name::Masgn(Sort::WithDo),
    Name::Sasgn(Sort::WithDo),
    Name::Post(Sort::WithDo),
    Name::Una(Sort::WithDo),
    Name::Pow(Sort::WithDo),
    Name::Min(Sort::WithDo),
    Name::Mul(Sort::WithDo),
    Name::Add(Sort::WithDo),
    Name::Shf(Sort::WithDo),
    Name::Band(Sort::WithDo),
    Name::Bor(Sort::WithDo),
    Name::Cmp(Sort::WithDo),
    Name::Eq(Sort::WithDo),
    Name::Dfn(Sort::WithDo),
    Name::And(Sort::WithDo),
    Name::Or(Sort::WithDo),
    Name::Range(Sort::WithDo),
    Name::Tern(Sort::WithDo),
    Name::Arg(Sort::WithDo),
    Name::Not(Sort::WithDo),
    Name::Expr(Sort::WithDo),
    Name::Block(Sort::WithoutDo),
    Name::Link(Sort::WithoutDo),
    Name::Prim(Sort::WithoutDo),
    Name::PostParts(Sort::WithoutDo),
    Name::Command(Sort::WithoutDo),
    Name::Lhs(Sort::WithoutDo),
    Name::Masgn(Sort::WithoutDo),
    Name::Sasgn(Sort::WithoutDo),
    Name::Post(Sort::WithoutDo),
    Name::Una(Sort::WithoutDo),
    Name::Pow(Sort::WithoutDo),
    Name::Min(Sort::WithoutDo),
    Name::Mul(Sort::WithoutDo),
    Name::Add(Sort::WithoutDo),
    Name::Shf(Sort::WithoutDo),
    Name::Band(Sort::WithoutDo),
    Name::Bor(Sort::WithoutDo),
    Name::Cmp(Sort::WithoutDo),
    Name::Eq(Sort::WithoutDo),
    Name::Dfn(Sort::WithoutDo),
    Name::And(Sort::WithoutDo),
    Name::Or(Sort::WithoutDo),
    Name::Range(Sort::WithoutDo),
    Name::Tern(Sort::WithoutDo),
    Name::Arg(Sort::WithoutDo),
    Name::Not(Sort::WithoutDo),
    Name::Expr(Sort::WithoutDo),
    Name::Stmt,
    Name::Program,
];

// All rules in the order of their numbers.
#[tactic(auto, unfolding(crate::specs::Grammar::names))]
fn all_rules(alloc: Global) -> Mem<Seq<Rule>>
    ensures { IfOk result (λ rules. rules ≡ map spec.rule_of spec.names) }
{
    rules_of(alloc, &NAMES)
}

/// The grammar of Ruby programs.
#[tactic(auto, unfolding(crate::specs::Grammar::ruby_grammar))]
pub fn grammar(alloc: Global) -> Mem<Grammar>
    ensures { IfOk result (λ grammar. grammar ≡ spec.ruby_grammar) }
{
    Ok(Grammar {
        rules: all_rules(alloc)?,
        start: rule_number(Name::Program),
    })
}
