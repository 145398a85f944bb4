//! Assignments.

ghost use Rattle.ruby_exprs.specs.Drafts.{Makes};
ghost use Rattle.ruby_exprs.specs.Assignments as spec;

use crate::draft::{Draft, call, kind, kinds, opened, prefix, several, sign};
use crate::labels::Label;
use crate::names::{Name, Sort};
use ruby_lexer::{RubyKind, Sign};
use std::alloc::Global;

/// `post:(post_parts ended in {name variable const top_const const_link name_link index})`
#[tactic(auto, unfolding(crate::specs::Assignments::lhs_rule))]
pub fn lhs_rule(alloc: Global, sort: Sort) -> Draft
    ensures { Makes result (spec.lhs_rule sort) }
{
    call(alloc, Name::PostParts(sort))
        .ended(&[
            Label::Name,
            Label::Variable,
            Label::Const,
            Label::TopConst,
            Label::ConstLink,
            Label::NameLink,
            Label::Index,
        ])
        .named(Label::Post)
}

/// `mlhs:("*"ᵖ? (Identifier / InstanceVariable))`
#[tactic(auto, unfolding(crate::specs::Assignments::mlhs_rule))]
pub fn mlhs_rule(alloc: Global) -> Draft
    ensures { Makes result spec.mlhs_rule }
{
    prefix(alloc, Sign::Star)
        .maybe()
        .then(kinds(alloc, &[RubyKind::Identifier, RubyKind::InstanceVariable]))
        .named(Label::Mlhs)
}

// arg° ("," arg°) ("," arg°)*
#[tactic(auto, unfolding(crate::specs::Assignments::several_values))]
fn several_values(alloc: Global, sort: Sort) -> Draft
    ensures { Makes result (spec.several_values sort) }
{
    several(
        opened(alloc, Name::Arg(sort)),
        opened(alloc, Name::Arg(sort)),
        opened(alloc, Name::Arg(sort)),
    )
}

/// `masgn:(mlhs ("," mlhs) ("," mlhs)* "=" values:(several_values / arg°))`
#[tactic(auto, unfolding(crate::specs::Assignments::masgn_rule))]
pub fn masgn_rule(alloc: Global, sort: Sort) -> Draft
    ensures { Makes result (spec.masgn_rule sort) }
{
    several(
        call(alloc, Name::Mlhs),
        call(alloc, Name::Mlhs),
        call(alloc, Name::Mlhs),
    )
    .then(sign(alloc, Sign::Equals))
    .then(
        several_values(alloc, sort)
            .or(opened(alloc, Name::Arg(sort)))
            .named(Label::Values),
    )
    .named(Label::Masgn)
}

/// `asgn:(lhs "=" (command / values:several_values))`
#[tactic(auto, unfolding(crate::specs::Assignments::sasgn_rule))]
pub fn sasgn_rule(alloc: Global, sort: Sort) -> Draft
    ensures { Makes result (spec.sasgn_rule sort) }
{
    call(alloc, Name::Lhs(sort))
        .then(sign(alloc, Sign::Equals))
        .then(call(alloc, Name::Command(sort)).or(several_values(alloc, sort).named(Label::Values)))
        .named(Label::Asgn)
}

// asgn:(lhs "=" arg°)
#[tactic(auto, unfolding(crate::specs::Assignments::asgn))]
fn asgn(alloc: Global, sort: Sort) -> Draft
    ensures { Makes result (spec.asgn sort) }
{
    call(alloc, Name::Lhs(sort))
        .then(sign(alloc, Sign::Equals))
        .then(opened(alloc, Name::Arg(sort)))
        .named(Label::Asgn)
}

// opasgn:(lhs Assigning arg°)
#[tactic(auto, unfolding(crate::specs::Assignments::opasgn))]
fn opasgn(alloc: Global, sort: Sort) -> Draft
    ensures { Makes result (spec.opasgn sort) }
{
    call(alloc, Name::Lhs(sort))
        .then(kind(alloc, RubyKind::Assigning))
        .then(opened(alloc, Name::Arg(sort)))
        .named(Label::Opasgn)
}

/// `asgn / opasgn / tern`
#[tactic(auto, unfolding(crate::specs::Assignments::arg_rule))]
pub fn arg_rule(alloc: Global, sort: Sort) -> Draft
    ensures { Makes result (spec.arg_rule sort) }
{
    asgn(alloc, sort)
        .or(opasgn(alloc, sort))
        .or(call(alloc, Name::Tern(sort)))
}
