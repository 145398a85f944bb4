//! Definitions of methods, classes and modules.

ghost use Rattle.ruby_exprs.specs.Drafts.{Makes};
ghost use Rattle.ruby_exprs.specs.Definitions as spec;

use crate::draft::{Draft, adjacent, call, kind, kinds, opened, opened_word, prefix, sign, word};
use crate::labels::Label;
use crate::names::{Name, Sort, list_of};
use crate::parameters::bracketed_params;
use crate::statements::line_end;
use ruby_lexer::{Keyword, RubyKind, Sign};
use std::alloc::Global;

// name_set:((NamedWord / NamedConstant / NamedSelf) (no blank "="))
#[tactic(auto, unfolding(crate::specs::Definitions::setter_name))]
fn setter_name(alloc: Global) -> Draft
    ensures { Makes result spec.setter_name }
{
    kinds(
        alloc,
        &[
            RubyKind::NamedWord,
            RubyKind::NamedConstant,
            RubyKind::NamedSelf,
        ],
    )
    .then(adjacent(alloc, Sign::Equals))
    .named(Label::NameSet)
}

/// `setter_name / name_of:name`
#[tactic(auto, unfolding(crate::specs::Definitions::def_name_rule))]
pub fn def_name_rule(alloc: Global) -> Draft
    ensures { Makes result spec.def_name_rule }
{
    setter_name(alloc).or(call(alloc, Name::Mname))
}

// self:(NamedSelf ".")?
#[tactic(auto, unfolding(crate::specs::Definitions::singleton_of))]
fn singleton_of(alloc: Global) -> Draft
    ensures { Makes result spec.singleton_of }
{
    kind(alloc, RubyKind::NamedSelf)
        .then(sign(alloc, Sign::Dot))
        .named(Label::SelfForm)
        .maybe()
}

/// `"def" self:(NamedSelf ".")? def_name`
#[tactic(auto, unfolding(crate::specs::Definitions::def_head_rule))]
pub fn def_head_rule(alloc: Global) -> Draft
    ensures { Makes result spec.def_head_rule }
{
    word(alloc, Keyword::Def)
        .then(singleton_of(alloc))
        .then(call(alloc, Name::DefName))
}

/// `cpath:("::"ᵖ? Constant ("::" NamedConstant)*)`
#[tactic(auto, unfolding(crate::specs::Definitions::cpath_rule))]
pub fn cpath_rule(alloc: Global) -> Draft
    ensures { Makes result spec.cpath_rule }
{
    prefix(alloc, Sign::ColonColon)
        .maybe()
        .then(kind(alloc, RubyKind::Constant))
        .then(
            sign(alloc, Sign::ColonColon)
                .then(kind(alloc, RubyKind::NamedConstant))
                .many(),
        )
        .named(Label::Cpath)
}

// short_def:(def_head bracketed_params? "=" arg°)
#[tactic(auto, unfolding(crate::specs::Definitions::short_def))]
fn short_def(alloc: Global, sort: Sort) -> Draft
    ensures { Makes result (spec.short_def sort) }
{
    call(alloc, Name::DefHead)
        .then(bracketed_params(alloc).maybe())
        .then(sign(alloc, Sign::Equals))
        .then(opened(alloc, Name::Arg(sort)))
        .named(Label::ShortDef)
}

// def:(def_head (bracketed_params / params T) body "end")
#[tactic(auto, unfolding(crate::specs::Definitions::def_form))]
fn def_form(alloc: Global, sort: Sort) -> Draft
    ensures { Makes result (spec.def_form sort) }
{
    call(alloc, Name::DefHead)
        .then(bracketed_params(alloc).or(call(alloc, Name::Params(list_of(sort))).then(line_end(
            alloc,
        ))))
        .then(call(alloc, Name::Body))
        .then(word(alloc, Keyword::End))
        .named(Label::DefForm)
}

// singleton_class:("class" "<<"ᵖ "self" T body "end")
#[tactic(auto, unfolding(crate::specs::Definitions::singleton_class))]
fn singleton_class(alloc: Global) -> Draft
    ensures { Makes result spec.singleton_class }
{
    word(alloc, Keyword::Class)
        .then(prefix(alloc, Sign::LessLess))
        .then(word(alloc, Keyword::SelfWord))
        .then(line_end(alloc))
        .then(call(alloc, Name::Body))
        .then(word(alloc, Keyword::End))
        .named(Label::SingletonClass)
}

// superclass:("<" expr°°)?
#[tactic(auto, unfolding(crate::specs::Definitions::superclass))]
fn superclass(alloc: Global, sort: Sort) -> Draft
    ensures { Makes result (spec.superclass sort) }
{
    sign(alloc, Sign::Less)
        .then(opened_word(alloc, Name::Expr(sort)))
        .maybe()
        .named(Label::Superclass)
}

// class:("class" cpath superclass T body "end")
#[tactic(auto, unfolding(crate::specs::Definitions::class_form))]
fn class_form(alloc: Global, sort: Sort) -> Draft
    ensures { Makes result (spec.class_form sort) }
{
    word(alloc, Keyword::Class)
        .then(call(alloc, Name::Cpath))
        .then(superclass(alloc, sort))
        .then(line_end(alloc))
        .then(call(alloc, Name::Body))
        .then(word(alloc, Keyword::End))
        .named(Label::ClassForm)
}

// module:("module" cpath T body "end")
#[tactic(auto, unfolding(crate::specs::Definitions::module_form))]
fn module_form(alloc: Global) -> Draft
    ensures { Makes result spec.module_form }
{
    word(alloc, Keyword::Module)
        .then(call(alloc, Name::Cpath))
        .then(line_end(alloc))
        .then(call(alloc, Name::Body))
        .then(word(alloc, Keyword::End))
        .named(Label::ModuleForm)
}

/// `short_def / def / singleton_class / class / module`
#[tactic(auto, unfolding(crate::specs::Definitions::definition))]
pub fn definition(alloc: Global, sort: Sort) -> Draft
    ensures { Makes result (spec.definition sort) }
{
    short_def(alloc, sort)
        .or(def_form(alloc, sort))
        .or(singleton_class(alloc))
        .or(class_form(alloc, sort))
        .or(module_form(alloc))
}
