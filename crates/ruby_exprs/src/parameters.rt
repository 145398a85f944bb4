//! Parameters of methods, lambdas and blocks.

ghost use Rattle.ruby_exprs.specs.Drafts.{Makes};
ghost use Rattle.ruby_exprs.specs.Parameters as spec;

use crate::draft::{Draft, call, kind, opened, prefix, several, sign};
use crate::labels::Label;
use crate::names::{Name, ParamList, Sort};
use crate::statements::newlines;
use ruby_lexer::{RubyKind, Sign};
use std::alloc::Global;

// opt:(Identifier "=" arg°)
#[tactic(auto, unfolding(crate::specs::Parameters::opt_param))]
fn opt_param(alloc: Global, sort: Sort) -> Draft
    ensures { Makes result (spec.opt_param sort) }
{
    kind(alloc, RubyKind::Identifier)
        .then(sign(alloc, Sign::Equals))
        .then(opened(alloc, Name::Arg(sort)))
        .named(Label::Opt)
}

// rest:("*"ᵖ Identifier?)
#[tactic(auto, unfolding(crate::specs::Parameters::rest_param))]
fn rest_param(alloc: Global) -> Draft
    ensures { Makes result spec.rest_param }
{
    prefix(alloc, Sign::Star)
        .then(kind(alloc, RubyKind::Identifier).maybe())
        .named(Label::Rest)
}

// key:(Label arg°?)
#[tactic(auto, unfolding(crate::specs::Parameters::key_param))]
fn key_param(alloc: Global, sort: Sort) -> Draft
    ensures { Makes result (spec.key_param sort) }
{
    kind(alloc, RubyKind::Label)
        .then(opened(alloc, Name::Arg(sort)).maybe())
        .named(Label::Key)
}

// keyrest:("**"ᵖ Identifier?)
#[tactic(auto, unfolding(crate::specs::Parameters::keyrest_param))]
fn keyrest_param(alloc: Global) -> Draft
    ensures { Makes result spec.keyrest_param }
{
    prefix(alloc, Sign::StarStar)
        .then(kind(alloc, RubyKind::Identifier).maybe())
        .named(Label::Keyrest)
}

// blockarg:("&"ᵖ Identifier?)
#[tactic(auto, unfolding(crate::specs::Parameters::block_arg))]
fn block_arg(alloc: Global) -> Draft
    ensures { Makes result spec.block_arg }
{
    prefix(alloc, Sign::Ampersand)
        .then(kind(alloc, RubyKind::Identifier).maybe())
        .named(Label::Blockarg)
}

/// `opt / req:Identifier / rest / key / keyrest / blockarg`
#[tactic(auto, unfolding(crate::specs::Parameters::any_param))]
pub fn any_param(alloc: Global, sort: Sort) -> Draft
    ensures { Makes result (spec.any_param sort) }
{
    opt_param(alloc, sort)
        .or(kind(alloc, RubyKind::Identifier).named(Label::Req))
        .or(rest_param(alloc))
        .or(key_param(alloc, sort))
        .or(keyrest_param(alloc))
        .or(block_arg(alloc))
}

// group:("(" Identifier ("," Identifier) ("," Identifier)* ")")
#[tactic(auto, unfolding(crate::specs::Parameters::param_group))]
fn param_group(alloc: Global) -> Draft
    ensures { Makes result spec.param_group }
{
    sign(alloc, Sign::LeftParen)
        .then(several(
            kind(alloc, RubyKind::Identifier),
            kind(alloc, RubyKind::Identifier),
            kind(alloc, RubyKind::Identifier),
        ))
        .then(sign(alloc, Sign::RightParen))
        .named(Label::Group)
}

/// `group / param`
#[tactic(auto, unfolding(crate::specs::Parameters::block_param))]
pub fn block_param(alloc: Global) -> Draft
    ensures { Makes result spec.block_param }
{
    param_group(alloc).or(call(alloc, Name::Param(ParamList::Plain)))
}

/// `("," param ended in {blockarg})?`
#[tactic(auto, unfolding(crate::specs::Parameters::behind_keyrest_rule))]
pub fn behind_keyrest_rule(alloc: Global, list: ParamList) -> Draft
    ensures { Makes result (spec.behind_keyrest_rule list) }
{
    sign(alloc, Sign::Comma)
        .then(call(alloc, Name::Param(list)).ended(&[Label::Blockarg]))
        .maybe()
}

/// `("," param ended in {key})* ("," param ended in {keyrest})? behind_keyrest`
#[tactic(auto, unfolding(crate::specs::Parameters::behind_keyword_rule))]
pub fn behind_keyword_rule(alloc: Global, list: ParamList) -> Draft
    ensures { Makes result (spec.behind_keyword_rule list) }
{
    sign(alloc, Sign::Comma)
        .then(call(alloc, Name::Param(list)).ended(&[Label::Key]))
        .many()
        .then(
            sign(alloc, Sign::Comma)
                .then(call(alloc, Name::Param(list)).ended(&[Label::Keyrest]))
                .maybe(),
        )
        .then(call(alloc, Name::BehindKeyrest(list)))
}

/// `("," post:(param ended in {req group}))* behind_keyword`
#[tactic(auto, unfolding(crate::specs::Parameters::behind_rest_rule))]
pub fn behind_rest_rule(alloc: Global, list: ParamList) -> Draft
    ensures { Makes result (spec.behind_rest_rule list) }
{
    sign(alloc, Sign::Comma)
        .then(
            call(alloc, Name::Param(list))
                .ended(&[Label::Req, Label::Group])
                .named(Label::Post),
        )
        .many()
        .then(call(alloc, Name::BehindKeyword(list)))
}

/// `("," param ended in {opt})* ("," param ended in {rest})? behind_rest`
#[tactic(auto, unfolding(crate::specs::Parameters::behind_optional_rule))]
pub fn behind_optional_rule(alloc: Global, list: ParamList) -> Draft
    ensures { Makes result (spec.behind_optional_rule list) }
{
    sign(alloc, Sign::Comma)
        .then(call(alloc, Name::Param(list)).ended(&[Label::Opt]))
        .many()
        .then(
            sign(alloc, Sign::Comma)
                .then(call(alloc, Name::Param(list)).ended(&[Label::Rest]))
                .maybe(),
        )
        .then(call(alloc, Name::BehindRest(list)))
}

/// `("," param ended in {req group})* behind_optional`
#[tactic(auto, unfolding(crate::specs::Parameters::behind_required_rule))]
pub fn behind_required_rule(alloc: Global, list: ParamList) -> Draft
    ensures { Makes result (spec.behind_required_rule list) }
{
    sign(alloc, Sign::Comma)
        .then(call(alloc, Name::Param(list)).ended(&[Label::Req, Label::Group]))
        .many()
        .then(call(alloc, Name::BehindOptional(list)))
}

// param ended in {req group} behind_required / param ended in {opt} behind_optional / param ended in {rest} behind_rest
#[tactic(auto, unfolding(crate::specs::Parameters::from_required))]
fn from_required(alloc: Global, list: ParamList) -> Draft
    ensures { Makes result (spec.from_required list) }
{
    call(alloc, Name::Param(list))
        .ended(&[Label::Req, Label::Group])
        .then(call(alloc, Name::BehindRequired(list)))
        .or(
            call(alloc, Name::Param(list))
                .ended(&[Label::Opt])
                .then(call(alloc, Name::BehindOptional(list))),
        )
        .or(
            call(alloc, Name::Param(list))
                .ended(&[Label::Rest])
                .then(call(alloc, Name::BehindRest(list))),
        )
}

// (param ended in {key} behind_keyword / param ended in {keyrest} behind_keyrest / param ended in {blockarg})?
#[tactic(auto, unfolding(crate::specs::Parameters::from_keyword))]
fn from_keyword(alloc: Global, list: ParamList) -> Draft
    ensures { Makes result (spec.from_keyword list) }
{
    call(alloc, Name::Param(list))
        .ended(&[Label::Key])
        .then(call(alloc, Name::BehindKeyword(list)))
        .or(
            call(alloc, Name::Param(list))
                .ended(&[Label::Keyrest])
                .then(call(alloc, Name::BehindKeyrest(list))),
        )
        .or(call(alloc, Name::Param(list)).ended(&[Label::Blockarg]))
        .maybe()
}

/// `params:(from_required / from_keyword)`
#[tactic(auto, unfolding(crate::specs::Parameters::params_rule))]
pub fn params_rule(alloc: Global, list: ParamList) -> Draft
    ensures { Makes result (spec.params_rule list) }
{
    from_required(alloc, list)
        .or(from_keyword(alloc, list))
        .named(Label::Params)
}

/// `"|" block_params "|"`
#[tactic(auto, unfolding(crate::specs::Parameters::bpar_rule))]
pub fn bpar_rule(alloc: Global) -> Draft
    ensures { Makes result spec.bpar_rule }
{
    sign(alloc, Sign::Bar)
        .then(call(alloc, Name::Params(ParamList::OfBlock)))
        .then(sign(alloc, Sign::Bar))
}

/// `"(" params Newline* ")"`
#[tactic(auto, unfolding(crate::specs::Parameters::bracketed_params))]
pub fn bracketed_params(alloc: Global) -> Draft
    ensures { Makes result spec.bracketed_params }
{
    sign(alloc, Sign::LeftParen)
        .then(call(alloc, Name::Params(ParamList::Plain)))
        .then(newlines(alloc))
        .then(sign(alloc, Sign::RightParen))
}
