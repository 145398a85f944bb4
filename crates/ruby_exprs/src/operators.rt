//! Operators, from the loosest to the tightest.

ghost use Rattle.ruby_exprs.specs.Drafts.{Makes};
ghost use Rattle.ruby_exprs.specs.Operators as spec;

use crate::draft::{
    Draft, call, chain, kinds, opened, operators, prefix, sign, signs, word, words,
};
use crate::labels::Label;
use crate::names::{Name, Sort};
use crate::statements::newlines;
use ruby_lexer::{Keyword, RubyKind, Sign};
use std::alloc::Global;

/// `expr~(not chain["and" / "or"](("and" / "or") Newline* not))`
#[tactic(auto, unfolding(crate::specs::Operators::expr_rule))]
pub fn expr_rule(alloc: Global, sort: Sort) -> Draft
    ensures { Makes result (spec.expr_rule sort) }
{
    call(alloc, Name::Not(sort))
        .then(chain(
            alloc,
            &[
                RubyKind::Keyword(Keyword::And),
                RubyKind::Keyword(Keyword::Or),
            ],
            words(alloc, &[Keyword::And, Keyword::Or])
                .then(newlines(alloc))
                .then(call(alloc, Name::Not(sort))),
        ))
        .chained(Label::Expr)
}

// not:("not" not°)
#[tactic(auto, unfolding(crate::specs::Operators::not_form))]
fn not_form(alloc: Global, sort: Sort) -> Draft
    ensures { Makes result (spec.not_form sort) }
{
    word(alloc, Keyword::Not)
        .then(opened(alloc, Name::Not(sort)))
        .named(Label::NotForm)
}

/// `not_form / masgn / sasgn / command / arg°`
#[tactic(auto, unfolding(crate::specs::Operators::not_rule))]
pub fn not_rule(alloc: Global, sort: Sort) -> Draft
    ensures { Makes result (spec.not_rule sort) }
{
    not_form(alloc, sort)
        .or(call(alloc, Name::Masgn(sort)))
        .or(call(alloc, Name::Sasgn(sort)))
        .or(call(alloc, Name::Command(sort)))
        .or(opened(alloc, Name::Arg(sort)))
}

// ("?" arg° Newline* ":" arg°)?
#[tactic(auto, unfolding(crate::specs::Operators::choice))]
fn choice(alloc: Global, sort: Sort) -> Draft
    ensures { Makes result (spec.choice sort) }
{
    sign(alloc, Sign::Question)
        .then(opened(alloc, Name::Arg(sort)))
        .then(newlines(alloc))
        .then(sign(alloc, Sign::Colon))
        .then(opened(alloc, Name::Arg(sort)))
        .maybe()
}

/// `tern~(range choice)`
#[tactic(auto, unfolding(crate::specs::Operators::tern_rule))]
pub fn tern_rule(alloc: Global, sort: Sort) -> Draft
    ensures { Makes result (spec.tern_rule sort) }
{
    call(alloc, Name::Range(sort))
        .then(choice(alloc, sort))
        .chained(Label::Tern)
}

// ((".." / "...") end:or?)?
#[tactic(auto, unfolding(crate::specs::Operators::range_end))]
fn range_end(alloc: Global, sort: Sort) -> Draft
    ensures { Makes result (spec.range_end sort) }
{
    signs(alloc, &[Sign::DotDot, Sign::DotDotDot])
        .then(call(alloc, Name::Or(sort)).maybe().named(Label::EndForm))
        .maybe()
}

// beginless:((".." / "...") or)
#[tactic(auto, unfolding(crate::specs::Operators::beginless))]
fn beginless(alloc: Global, sort: Sort) -> Draft
    ensures { Makes result (spec.beginless sort) }
{
    signs(alloc, &[Sign::DotDot, Sign::DotDotDot])
        .then(call(alloc, Name::Or(sort)))
        .named(Label::Beginless)
}

/// `range~(or range_end) / beginless`
#[tactic(auto, unfolding(crate::specs::Operators::range_rule))]
pub fn range_rule(alloc: Global, sort: Sort) -> Draft
    ensures { Makes result (spec.range_rule sort) }
{
    call(alloc, Name::Or(sort))
        .then(range_end(alloc, sort))
        .chained(Label::Range)
        .or(beginless(alloc, sort))
}

/// `or~(and chain["||"]("||" and))`
#[tactic(auto, unfolding(crate::specs::Operators::or_rule))]
pub fn or_rule(alloc: Global, sort: Sort) -> Draft
    ensures { Makes result (spec.or_rule sort) }
{
    operators(alloc, Label::OrForm, Name::And(sort), &[Sign::BarBar])
}

/// `and~(dfn chain["&&"]("&&" dfn))`
#[tactic(auto, unfolding(crate::specs::Operators::and_rule))]
pub fn and_rule(alloc: Global, sort: Sort) -> Draft
    ensures { Makes result (spec.and_rule sort) }
{
    operators(
        alloc,
        Label::AndForm,
        Name::Dfn(sort),
        &[Sign::AmpersandAmpersand],
    )
}

/// `defined:("defined?" dfn°) / eq`
#[tactic(auto, unfolding(crate::specs::Operators::dfn_rule))]
pub fn dfn_rule(alloc: Global, sort: Sort) -> Draft
    ensures { Makes result (spec.dfn_rule sort) }
{
    word(alloc, Keyword::Defined)
        .then(opened(alloc, Name::Dfn(sort)))
        .named(Label::DefinedForm)
        .or(call(alloc, Name::Eq(sort)))
}

/// `eq~(cmp (("==" / "!=" / "===" / "=~" / "!~" / "<=>") cmp)?)`
#[tactic(auto, unfolding(crate::specs::Operators::eq_rule))]
pub fn eq_rule(alloc: Global, sort: Sort) -> Draft
    ensures { Makes result (spec.eq_rule sort) }
{
    call(alloc, Name::Cmp(sort))
        .then(
            signs(
                alloc,
                &[
                    Sign::EqualsEquals,
                    Sign::BangEquals,
                    Sign::EqualsEqualsEquals,
                    Sign::EqualsTilde,
                    Sign::BangTilde,
                    Sign::Spaceship,
                ],
            )
            .then(call(alloc, Name::Cmp(sort)))
            .maybe(),
        )
        .chained(Label::Eq)
}

/// `cmp~(bor chain["<" / "<=" / ">" / ">="](("<" / "<=" / ">" / ">=") bor))`
#[tactic(auto, unfolding(crate::specs::Operators::cmp_rule))]
pub fn cmp_rule(alloc: Global, sort: Sort) -> Draft
    ensures { Makes result (spec.cmp_rule sort) }
{
    operators(
        alloc,
        Label::Cmp,
        Name::Bor(sort),
        &[
            Sign::Less,
            Sign::LessEquals,
            Sign::Greater,
            Sign::GreaterEquals,
        ],
    )
}

/// `bor~(band chain["|" / "^"](("|" / "^") band))`
#[tactic(auto, unfolding(crate::specs::Operators::bor_rule))]
pub fn bor_rule(alloc: Global, sort: Sort) -> Draft
    ensures { Makes result (spec.bor_rule sort) }
{
    operators(
        alloc,
        Label::Bor,
        Name::Band(sort),
        &[Sign::Bar, Sign::Caret],
    )
}

/// `band~(shf chain["&"]("&" shf))`
#[tactic(auto, unfolding(crate::specs::Operators::band_rule))]
pub fn band_rule(alloc: Global, sort: Sort) -> Draft
    ensures { Makes result (spec.band_rule sort) }
{
    operators(alloc, Label::Band, Name::Shf(sort), &[Sign::Ampersand])
}

/// `shf~(add chain["<<" / ">>"](("<<" / ">>") add))`
#[tactic(auto, unfolding(crate::specs::Operators::shf_rule))]
pub fn shf_rule(alloc: Global, sort: Sort) -> Draft
    ensures { Makes result (spec.shf_rule sort) }
{
    operators(
        alloc,
        Label::Shf,
        Name::Add(sort),
        &[Sign::LessLess, Sign::GreaterGreater],
    )
}

/// `add~(mul chain["+" / "-"](("+" / "-") mul))`
#[tactic(auto, unfolding(crate::specs::Operators::add_rule))]
pub fn add_rule(alloc: Global, sort: Sort) -> Draft
    ensures { Makes result (spec.add_rule sort) }
{
    operators(
        alloc,
        Label::Add,
        Name::Mul(sort),
        &[Sign::Plus, Sign::Minus],
    )
}

/// `mul~(min chain["*" / "/" / "%"](("*" / "/" / "%") min))`
#[tactic(auto, unfolding(crate::specs::Operators::mul_rule))]
pub fn mul_rule(alloc: Global, sort: Sort) -> Draft
    ensures { Makes result (spec.mul_rule sort) }
{
    operators(
        alloc,
        Label::Mul,
        Name::Min(sort),
        &[Sign::Star, Sign::Slash, Sign::Percent],
    )
}

/// `minus:("-"ᵖ min°) / pow`
#[tactic(auto, unfolding(crate::specs::Operators::min_rule))]
pub fn min_rule(alloc: Global, sort: Sort) -> Draft
    ensures { Makes result (spec.min_rule sort) }
{
    prefix(alloc, Sign::Minus)
        .then(opened(alloc, Name::Min(sort)))
        .named(Label::Minus)
        .or(call(alloc, Name::Pow(sort)))
}

/// `pow~(una ("**" min°)?)`
#[tactic(auto, unfolding(crate::specs::Operators::pow_rule))]
pub fn pow_rule(alloc: Global, sort: Sort) -> Draft
    ensures { Makes result (spec.pow_rule sort) }
{
    call(alloc, Name::Una(sort))
        .then(
            sign(alloc, Sign::StarStar)
                .then(opened(alloc, Name::Min(sort)))
                .maybe(),
        )
        .chained(Label::Pow)
}

/// `unary:(("!" / "~" / "+"ᵖ) una°) / post`
#[tactic(auto, unfolding(crate::specs::Operators::una_rule))]
pub fn una_rule(alloc: Global, sort: Sort) -> Draft
    ensures { Makes result (spec.una_rule sort) }
{
    kinds(
        alloc,
        &[
            RubyKind::Sign(Sign::Bang),
            RubyKind::Sign(Sign::Tilde),
            RubyKind::Prefix(Sign::Plus),
        ],
    )
    .then(opened(alloc, Name::Una(sort)))
    .named(Label::Unary)
    .or(call(alloc, Name::Post(sort)))
}
