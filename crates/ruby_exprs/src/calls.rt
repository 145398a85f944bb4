//! Arguments, blocks, and what stands behind a value.

ghost use Rattle.ruby_exprs.specs.Drafts.{Makes};
ghost use Rattle.ruby_exprs.specs.Calls as spec;

use crate::draft::{
    Draft, adjacent, blank_and_none_of, call, chain, kind, kinds, listed, opened, prefix, sign,
    signs, word,
};
use crate::labels::Label;
use crate::names::{Name, Sort};
use crate::statements::newlines;
use ruby_lexer::{Keyword, RubyKind, Sign};
use std::alloc::Global;

// splat:("*"ᵖ arg°)
#[tactic(auto, unfolding(crate::specs::Calls::splat))]
fn splat(alloc: Global, sort: Sort) -> Draft
    ensures { Makes result (spec.splat sort) }
{
    prefix(alloc, Sign::Star)
        .then(opened(alloc, Name::Arg(sort)))
        .named(Label::Splat)
}

// double_splat:("**"ᵖ arg°)
#[tactic(auto, unfolding(crate::specs::Calls::double_splat))]
fn double_splat(alloc: Global, sort: Sort) -> Draft
    ensures { Makes result (spec.double_splat sort) }
{
    prefix(alloc, Sign::StarStar)
        .then(opened(alloc, Name::Arg(sort)))
        .named(Label::DoubleSplat)
}

// block_pass:("&"ᵖ arg°)
#[tactic(auto, unfolding(crate::specs::Calls::block_pass))]
fn block_pass(alloc: Global, sort: Sort) -> Draft
    ensures { Makes result (spec.block_pass sort) }
{
    prefix(alloc, Sign::Ampersand)
        .then(opened(alloc, Name::Arg(sort)))
        .named(Label::BlockPass)
}

// label:(Label arg°?)
#[tactic(auto, unfolding(crate::specs::Calls::labelled))]
fn labelled(alloc: Global, sort: Sort) -> Draft
    ensures { Makes result (spec.labelled sort) }
{
    kind(alloc, RubyKind::Label)
        .then(opened(alloc, Name::Arg(sort)).maybe())
        .named(Label::LabelItem)
}

// pair:(arg° "=>" arg°)
#[tactic(auto, unfolding(crate::specs::Calls::pair))]
fn pair(alloc: Global, sort: Sort) -> Draft
    ensures { Makes result (spec.pair sort) }
{
    opened(alloc, Name::Arg(sort))
        .then(sign(alloc, Sign::Rocket))
        .then(opened(alloc, Name::Arg(sort)))
        .named(Label::Pair)
}

/// `splat / double_splat / block_pass / label / pair / arg°`
#[tactic(auto, unfolding(crate::specs::Calls::item_rule))]
pub fn item_rule(alloc: Global, sort: Sort) -> Draft
    ensures { Makes result (spec.item_rule sort) }
{
    splat(alloc, sort)
        .or(double_splat(alloc, sort))
        .or(block_pass(alloc, sort))
        .or(labelled(alloc, sort))
        .or(pair(alloc, sort))
        .or(opened(alloc, Name::Arg(sort)))
}

/// `cargs:(!!(a blank before any token but ("if" / "unless" / "while" / "until" / ".." / "...")) item⁻ ("," item⁻)*)`
#[tactic(auto, unfolding(crate::specs::Calls::cargs_rule))]
pub fn cargs_rule(alloc: Global) -> Draft
    ensures { Makes result spec.cargs_rule }
{
    blank_and_none_of(
        alloc,
        &[
            RubyKind::Keyword(Keyword::If),
            RubyKind::Keyword(Keyword::Unless),
            RubyKind::Keyword(Keyword::While),
            RubyKind::Keyword(Keyword::Until),
            RubyKind::Sign(Sign::DotDot),
            RubyKind::Sign(Sign::DotDotDot),
        ],
    )
    .ahead()
    .then(listed(
        call(alloc, Name::Item(Sort::WithoutDo)),
        call(alloc, Name::Item(Sort::WithoutDo)),
    ))
    .named(Label::Cargs)
}

/// `args:(item ("," item)* ","?)?`
#[tactic(auto, unfolding(crate::specs::Calls::args_rule))]
pub fn args_rule(alloc: Global) -> Draft
    ensures { Makes result spec.args_rule }
{
    listed(
        call(alloc, Name::Item(Sort::WithDo)),
        call(alloc, Name::Item(Sort::WithDo)),
    )
    .then(sign(alloc, Sign::Comma).maybe())
    .maybe()
    .named(Label::Args)
}

/// `pargs:((no blank "(") args Newline* ")")`
#[tactic(auto, unfolding(crate::specs::Calls::pargs_rule))]
pub fn pargs_rule(alloc: Global) -> Draft
    ensures { Makes result spec.pargs_rule }
{
    adjacent(alloc, Sign::LeftParen)
        .then(call(alloc, Name::Args))
        .then(newlines(alloc))
        .then(sign(alloc, Sign::RightParen))
        .named(Label::Pargs)
}

// item ended in {label pair double_splat}
#[tactic(auto, unfolding(crate::specs::Calls::brace_item))]
fn brace_item(alloc: Global) -> Draft
    ensures { Makes result spec.brace_item }
{
    call(alloc, Name::Item(Sort::WithDo)).ended(&[
        Label::LabelItem,
        Label::Pair,
        Label::DoubleSplat,
    ])
}

/// `args:(brace_item ("," brace_item)* ","?)?`
#[tactic(auto, unfolding(crate::specs::Calls::brace_args_rule))]
pub fn brace_args_rule(alloc: Global) -> Draft
    ensures { Makes result spec.brace_args_rule }
{
    listed(brace_item(alloc), brace_item(alloc))
        .then(sign(alloc, Sign::Comma).maybe())
        .maybe()
        .named(Label::Args)
}

/// `block:("do" bpar? body "end")`
#[tactic(auto, unfolding(crate::specs::Calls::doblock_rule))]
pub fn doblock_rule(alloc: Global) -> Draft
    ensures { Makes result spec.doblock_rule }
{
    word(alloc, Keyword::Do)
        .then(call(alloc, Name::Bpar).maybe())
        .then(call(alloc, Name::Body))
        .then(word(alloc, Keyword::End))
        .named(Label::Block)
}

/// `block:("{" bpar? stmts "}")`
#[tactic(auto, unfolding(crate::specs::Calls::brace_block_rule))]
pub fn brace_block_rule(alloc: Global) -> Draft
    ensures { Makes result spec.brace_block_rule }
{
    sign(alloc, Sign::LeftBrace)
        .then(call(alloc, Name::Bpar).maybe())
        .then(call(alloc, Name::Stmts))
        .then(sign(alloc, Sign::RightBrace))
        .named(Label::Block)
}

/// `brace_block / doblock; without do brace_block alone`
#[tactic(auto, unfolding(crate::specs::Calls::block_rule))]
pub fn block_rule(alloc: Global, sort: Sort) -> Draft
    ensures { Makes result (spec.block_rule sort) }
{
    match sort {
        Sort::WithDo => call(alloc, Name::BraceBlock).or(call(alloc, Name::Doblock)),
        Sort::WithoutDo => call(alloc, Name::BraceBlock),
    }
}

/// `name_of:(NamedWord / NamedConstant / NamedSelf / NamedOperator)`
#[tactic(auto, unfolding(crate::specs::Calls::mname_rule))]
pub fn mname_rule(alloc: Global) -> Draft
    ensures { Makes result spec.mname_rule }
{
    kinds(
        alloc,
        &[
            RubyKind::NamedWord,
            RubyKind::NamedConstant,
            RubyKind::NamedSelf,
            RubyKind::NamedOperator,
        ],
    )
    .named(Label::NameOf)
}

// call_link:(("." / "&.") mname pargs block?)
#[tactic(auto, unfolding(crate::specs::Calls::dot_call))]
fn dot_call(alloc: Global, sort: Sort) -> Draft
    ensures { Makes result (spec.dot_call sort) }
{
    signs(alloc, &[Sign::Dot, Sign::SafeDot])
        .then(call(alloc, Name::Mname))
        .then(call(alloc, Name::Pargs))
        .then(call(alloc, Name::Block(sort)).maybe())
        .named(Label::CallLink)
}

// call_link:(("." / "&.") mname block)
#[tactic(auto, unfolding(crate::specs::Calls::dot_block_call))]
fn dot_block_call(alloc: Global, sort: Sort) -> Draft
    ensures { Makes result (spec.dot_block_call sort) }
{
    signs(alloc, &[Sign::Dot, Sign::SafeDot])
        .then(call(alloc, Name::Mname))
        .then(call(alloc, Name::Block(sort)))
        .named(Label::CallLink)
}

// name_link:(("." / "&.") mname)
#[tactic(auto, unfolding(crate::specs::Calls::dot_name))]
fn dot_name(alloc: Global) -> Draft
    ensures { Makes result spec.dot_name }
{
    signs(alloc, &[Sign::Dot, Sign::SafeDot])
        .then(call(alloc, Name::Mname))
        .named(Label::NameLink)
}

// call_link:("::" mname pargs block?)
#[tactic(auto, unfolding(crate::specs::Calls::scope_call))]
fn scope_call(alloc: Global, sort: Sort) -> Draft
    ensures { Makes result (spec.scope_call sort) }
{
    sign(alloc, Sign::ColonColon)
        .then(call(alloc, Name::Mname))
        .then(call(alloc, Name::Pargs))
        .then(call(alloc, Name::Block(sort)).maybe())
        .named(Label::CallLink)
}

// call_link:("::" mname block)
#[tactic(auto, unfolding(crate::specs::Calls::scope_block_call))]
fn scope_block_call(alloc: Global, sort: Sort) -> Draft
    ensures { Makes result (spec.scope_block_call sort) }
{
    sign(alloc, Sign::ColonColon)
        .then(call(alloc, Name::Mname))
        .then(call(alloc, Name::Block(sort)))
        .named(Label::CallLink)
}

// name_link:("::" mname)
#[tactic(auto, unfolding(crate::specs::Calls::scope_name))]
fn scope_name(alloc: Global) -> Draft
    ensures { Makes result spec.scope_name }
{
    sign(alloc, Sign::ColonColon)
        .then(call(alloc, Name::Mname))
        .named(Label::NameLink)
}

// call_of_call:(("." / "&.") pargs block?)
#[tactic(auto, unfolding(crate::specs::Calls::call_of_call))]
fn call_of_call(alloc: Global, sort: Sort) -> Draft
    ensures { Makes result (spec.call_of_call sort) }
{
    signs(alloc, &[Sign::Dot, Sign::SafeDot])
        .then(call(alloc, Name::Pargs))
        .then(call(alloc, Name::Block(sort)).maybe())
        .named(Label::CallOfCall)
}

// const_link:("::" NamedConstant !pargs)
#[tactic(auto, unfolding(crate::specs::Calls::const_link))]
fn const_link(alloc: Global) -> Draft
    ensures { Makes result spec.const_link }
{
    sign(alloc, Sign::ColonColon)
        .then(kind(alloc, RubyKind::NamedConstant))
        .then(call(alloc, Name::Pargs).absent())
        .named(Label::ConstLink)
}

// index:("[" args Newline* "]")
#[tactic(auto, unfolding(crate::specs::Calls::index_link))]
fn index_link(alloc: Global) -> Draft
    ensures { Makes result spec.index_link }
{
    sign(alloc, Sign::LeftBracket)
        .then(call(alloc, Name::Args))
        .then(newlines(alloc))
        .then(sign(alloc, Sign::RightBracket))
        .named(Label::Index)
}

// call_link:(("." / "&.") mname pargs block?) / call_link:(("." / "&.") mname block) / name_link:(("." / "&.") mname) / call_of_call
#[tactic(auto, unfolding(crate::specs::Calls::dot_link))]
fn dot_link(alloc: Global, sort: Sort) -> Draft
    ensures { Makes result (spec.dot_link sort) }
{
    dot_call(alloc, sort)
        .or(dot_block_call(alloc, sort))
        .or(dot_name(alloc))
        .or(call_of_call(alloc, sort))
}

// const_link / call_link:("::" mname pargs block?) / call_link:("::" mname block) / name_link:("::" mname)
#[tactic(auto, unfolding(crate::specs::Calls::scope_link))]
fn scope_link(alloc: Global, sort: Sort) -> Draft
    ensures { Makes result (spec.scope_link sort) }
{
    const_link(alloc)
        .or(scope_call(alloc, sort))
        .or(scope_block_call(alloc, sort))
        .or(scope_name(alloc))
}

/// `dot_link / scope_link / index`
#[tactic(auto, unfolding(crate::specs::Calls::link_rule))]
pub fn link_rule(alloc: Global, sort: Sort) -> Draft
    ensures { Makes result (spec.link_rule sort) }
{
    dot_link(alloc, sort)
        .or(scope_link(alloc, sort))
        .or(index_link(alloc))
}

/// `prim chain["." / "&." / "::" / "["]link`
#[tactic(auto, unfolding(crate::specs::Calls::post_parts_rule))]
pub fn post_parts_rule(alloc: Global, sort: Sort) -> Draft
    ensures { Makes result (spec.post_parts_rule sort) }
{
    call(alloc, Name::Prim(sort)).then(chain(
        alloc,
        &[
            RubyKind::Sign(Sign::Dot),
            RubyKind::Sign(Sign::SafeDot),
            RubyKind::Sign(Sign::ColonColon),
            RubyKind::Sign(Sign::LeftBracket),
        ],
        call(alloc, Name::Link(sort)),
    ))
}

/// `post~post_parts`
#[tactic(auto, unfolding(crate::specs::Calls::post_rule))]
pub fn post_rule(alloc: Global, sort: Sort) -> Draft
    ensures { Makes result (spec.post_rule sort) }
{
    call(alloc, Name::PostParts(sort)).chained(Label::Post)
}

// post:(post_parts ended in {name name_link}) cargs
#[tactic(auto, unfolding(crate::specs::Calls::command_head))]
fn command_head(alloc: Global, sort: Sort) -> Draft
    ensures { Makes result (spec.command_head sort) }
{
    call(alloc, Name::PostParts(sort))
        .ended(&[Label::Name, Label::NameLink])
        .named(Label::Post)
        .then(call(alloc, Name::Cargs))
}

/// `command:(command_head doblock?); without do no doblock`
#[tactic(auto, unfolding(crate::specs::Calls::command_rule))]
pub fn command_rule(alloc: Global, sort: Sort) -> Draft
    ensures { Makes result (spec.command_rule sort) }
{
    match sort {
        Sort::WithDo => command_head(alloc, Sort::WithDo)
            .then(call(alloc, Name::Doblock).maybe())
            .named(Label::Command),
        Sort::WithoutDo => command_head(alloc, Sort::WithoutDo).named(Label::Command),
    }
}
