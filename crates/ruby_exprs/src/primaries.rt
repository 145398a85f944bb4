//! Values that no operator joins.

ghost use Rattle.ruby_exprs.specs.Drafts.{Makes};
ghost use Rattle.ruby_exprs.specs.Primaries as spec;

use crate::definitions::definition;
use crate::draft::{Draft, call, kind, kinds, prefix, sign, some, word, words};
use crate::forms::{branching, leaving};
use crate::labels::Label;
use crate::names::{Name, ParamList, Sort, list_of};
use crate::statements::newlines;
use crate::texts::{dsym, heredoc, regexp, word_list};
use ruby_lexer::{Keyword, RubyKind, Sign};
use std::alloc::Global;

// strs:(str str*)
#[tactic(auto, unfolding(crate::specs::Primaries::strs))]
fn strs(alloc: Global) -> Draft
    ensures { Makes result spec.strs }
{
    some(call(alloc, Name::Str), call(alloc, Name::Str)).named(Label::Strs)
}

// int:Integer / strs / sym:Symbol / dsym / regexp / words / heredoc
#[tactic(auto, unfolding(crate::specs::Primaries::literal))]
fn literal(alloc: Global) -> Draft
    ensures { Makes result spec.literal }
{
    kind(alloc, RubyKind::Integer)
        .named(Label::Int)
        .or(strs(alloc))
        .or(kind(alloc, RubyKind::Symbol).named(Label::Sym))
        .or(dsym(alloc))
        .or(regexp(alloc))
        .or(word_list(alloc))
        .or(heredoc(alloc))
}

// word:("nil" / "true" / "false" / "self" / "__FILE__")
#[tactic(auto, unfolding(crate::specs::Primaries::value_word))]
fn value_word(alloc: Global) -> Draft
    ensures { Makes result spec.value_word }
{
    words(
        alloc,
        &[
            Keyword::Nil,
            Keyword::True,
            Keyword::False,
            Keyword::SelfWord,
            Keyword::File,
        ],
    )
    .named(Label::Word)
}

// variable:(InstanceVariable / ClassVariable / GlobalVariable)
#[tactic(auto, unfolding(crate::specs::Primaries::variable))]
fn variable(alloc: Global) -> Draft
    ensures { Makes result spec.variable }
{
    kinds(
        alloc,
        &[
            RubyKind::InstanceVariable,
            RubyKind::ClassVariable,
            RubyKind::GlobalVariable,
        ],
    )
    .named(Label::Variable)
}

// top_const:("::"ᵖ Constant)
#[tactic(auto, unfolding(crate::specs::Primaries::top_const))]
fn top_const(alloc: Global) -> Draft
    ensures { Makes result spec.top_const }
{
    prefix(alloc, Sign::ColonColon)
        .then(kind(alloc, RubyKind::Constant))
        .named(Label::TopConst)
}

// const_call:(Constant pargs block?)
#[tactic(auto, unfolding(crate::specs::Primaries::const_call))]
fn const_call(alloc: Global, sort: Sort) -> Draft
    ensures { Makes result (spec.const_call sort) }
{
    kind(alloc, RubyKind::Constant)
        .then(call(alloc, Name::Pargs))
        .then(call(alloc, Name::Block(sort)).maybe())
        .named(Label::ConstCall)
}

// word / variable / top_const / const_call / const:Constant
#[tactic(auto, unfolding(crate::specs::Primaries::named_value))]
fn named_value(alloc: Global, sort: Sort) -> Draft
    ensures { Makes result (spec.named_value sort) }
{
    value_word(alloc)
        .or(variable(alloc))
        .or(top_const(alloc))
        .or(const_call(alloc, sort))
        .or(kind(alloc, RubyKind::Constant).named(Label::Const))
}

// group_of:("(" stmts ")")
#[tactic(auto, unfolding(crate::specs::Primaries::group_of))]
fn group_of(alloc: Global) -> Draft
    ensures { Makes result spec.group_of }
{
    sign(alloc, Sign::LeftParen)
        .then(call(alloc, Name::Stmts))
        .then(sign(alloc, Sign::RightParen))
        .named(Label::GroupOf)
}

// array:("["ᵖ args Newline* "]")
#[tactic(auto, unfolding(crate::specs::Primaries::array))]
fn array(alloc: Global) -> Draft
    ensures { Makes result spec.array }
{
    prefix(alloc, Sign::LeftBracket)
        .then(call(alloc, Name::Args))
        .then(newlines(alloc))
        .then(sign(alloc, Sign::RightBracket))
        .named(Label::Array)
}

// hash:("{"ᵖ brace_args Newline* "}")
#[tactic(auto, unfolding(crate::specs::Primaries::hash))]
fn hash(alloc: Global) -> Draft
    ensures { Makes result spec.hash }
{
    prefix(alloc, Sign::LeftBrace)
        .then(call(alloc, Name::BraceArgs))
        .then(newlines(alloc))
        .then(sign(alloc, Sign::RightBrace))
        .named(Label::Hash)
}

// "(" params ")" / params
#[tactic(auto, unfolding(crate::specs::Primaries::lambda_params))]
fn lambda_params(alloc: Global, sort: Sort) -> Draft
    ensures { Makes result (spec.lambda_params sort) }
{
    sign(alloc, Sign::LeftParen)
        .then(call(alloc, Name::Params(ParamList::Plain)))
        .then(sign(alloc, Sign::RightParen))
        .or(call(alloc, Name::Params(list_of(sort))))
}

// ("{" / "{"ᵖ) stmts "}" / "do" body "end"
#[tactic(auto, unfolding(crate::specs::Primaries::lambda_body))]
fn lambda_body(alloc: Global) -> Draft
    ensures { Makes result spec.lambda_body }
{
    kinds(
        alloc,
        &[
            RubyKind::Sign(Sign::LeftBrace),
            RubyKind::Prefix(Sign::LeftBrace),
        ],
    )
    .then(call(alloc, Name::Stmts))
    .then(sign(alloc, Sign::RightBrace))
    .or(
        word(alloc, Keyword::Do)
            .then(call(alloc, Name::Body))
            .then(word(alloc, Keyword::End)),
    )
}

// lambda:("->" lambda_params lambda_body)
#[tactic(auto, unfolding(crate::specs::Primaries::lambda))]
fn lambda(alloc: Global, sort: Sort) -> Draft
    ensures { Makes result (spec.lambda sort) }
{
    sign(alloc, Sign::Arrow)
        .then(lambda_params(alloc, sort))
        .then(lambda_body(alloc))
        .named(Label::Lambda)
}

// group_of / array / hash / lambda
#[tactic(auto, unfolding(crate::specs::Primaries::bracketed))]
fn bracketed(alloc: Global, sort: Sort) -> Draft
    ensures { Makes result (spec.bracketed sort) }
{
    group_of(alloc)
        .or(array(alloc))
        .or(hash(alloc))
        .or(lambda(alloc, sort))
}

// call:(Identifier pargs block?)
#[tactic(auto, unfolding(crate::specs::Primaries::call_of_name))]
fn call_of_name(alloc: Global, sort: Sort) -> Draft
    ensures { Makes result (spec.call_of_name sort) }
{
    kind(alloc, RubyKind::Identifier)
        .then(call(alloc, Name::Pargs))
        .then(call(alloc, Name::Block(sort)).maybe())
        .named(Label::Call)
}

// call:(Identifier block)
#[tactic(auto, unfolding(crate::specs::Primaries::call_with_block))]
fn call_with_block(alloc: Global, sort: Sort) -> Draft
    ensures { Makes result (spec.call_with_block sort) }
{
    kind(alloc, RubyKind::Identifier)
        .then(call(alloc, Name::Block(sort)))
        .named(Label::Call)
}

// call:(Identifier pargs block?) / call:(Identifier block) / name:Identifier
#[tactic(auto, unfolding(crate::specs::Primaries::name_or_call))]
fn name_or_call(alloc: Global, sort: Sort) -> Draft
    ensures { Makes result (spec.name_or_call sort) }
{
    call_of_name(alloc, sort)
        .or(call_with_block(alloc, sort))
        .or(kind(alloc, RubyKind::Identifier).named(Label::Name))
}

/// `literal / named_value / bracketed / branching / leaving / definition / name_or_call, nested in halves so that none is far down`
#[tactic(auto, unfolding(crate::specs::Primaries::prim_rule))]
pub fn prim_rule(alloc: Global, sort: Sort) -> Draft
    ensures { Makes result (spec.prim_rule sort) }
{
    literal(alloc)
        .or(named_value(alloc, sort))
        .or(bracketed(alloc, sort).or(branching(alloc, sort)))
        .or(
            leaving(alloc, sort)
                .or(definition(alloc, sort))
                .or(name_or_call(alloc, sort)),
        )
}
