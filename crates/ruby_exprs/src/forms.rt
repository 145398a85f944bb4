//! Forms that begin with a keyword.

ghost use Rattle.ruby_exprs.specs.Drafts.{Makes};
ghost use Rattle.ruby_exprs.specs.Forms as spec;

use crate::draft::{Draft, call, listed, opened, opened_word, some, word, words};
use crate::labels::Label;
use crate::names::{Name, Sort};
use crate::statements::line_end;
use ruby_lexer::Keyword;
use std::alloc::Global;

// elsif:("elsif" expr°° then stmts)
#[tactic(auto, unfolding(crate::specs::Forms::elsif_form))]
fn elsif_form(alloc: Global, sort: Sort) -> Draft
    ensures { Makes result (spec.elsif_form sort) }
{
    word(alloc, Keyword::Elsif)
        .then(opened_word(alloc, Name::Expr(sort)))
        .then(call(alloc, Name::Then))
        .then(call(alloc, Name::Stmts))
        .named(Label::ElsifForm)
}

// if:(("if" / "unless") expr°° then stmts elsif* else "end")
#[tactic(auto, unfolding(crate::specs::Forms::if_form))]
fn if_form(alloc: Global, sort: Sort) -> Draft
    ensures { Makes result (spec.if_form sort) }
{
    words(alloc, &[Keyword::If, Keyword::Unless])
        .then(opened_word(alloc, Name::Expr(sort)))
        .then(call(alloc, Name::Then))
        .then(call(alloc, Name::Stmts))
        .then(elsif_form(alloc, sort).many())
        .then(call(alloc, Name::Else))
        .then(word(alloc, Keyword::End))
        .named(Label::IfForm)
}

// when:("when" items:(item ("," item)*) then stmts)
#[tactic(auto, unfolding(crate::specs::Forms::when_form))]
fn when_form(alloc: Global, sort: Sort) -> Draft
    ensures { Makes result (spec.when_form sort) }
{
    word(alloc, Keyword::When)
        .then(listed(call(alloc, Name::Item(sort)), call(alloc, Name::Item(sort))).named(
            Label::Items,
        ))
        .then(call(alloc, Name::Then))
        .then(call(alloc, Name::Stmts))
        .named(Label::WhenForm)
}

// case:("case" subject:(expr°°?) T* when when* else "end")
#[tactic(auto, unfolding(crate::specs::Forms::case_form))]
fn case_form(alloc: Global, sort: Sort) -> Draft
    ensures { Makes result (spec.case_form sort) }
{
    word(alloc, Keyword::Case)
        .then(
            opened_word(alloc, Name::Expr(sort))
                .maybe()
                .named(Label::Subject),
        )
        .then(line_end(alloc).many())
        .then(some(when_form(alloc, sort), when_form(alloc, sort)))
        .then(call(alloc, Name::Else))
        .then(word(alloc, Keyword::End))
        .named(Label::CaseForm)
}

// while:(("while" / "until") expr⁻°° ("do" / T) stmts "end")
#[tactic(auto, unfolding(crate::specs::Forms::while_form))]
fn while_form(alloc: Global) -> Draft
    ensures { Makes result spec.while_form }
{
    words(alloc, &[Keyword::While, Keyword::Until])
        .then(opened_word(alloc, Name::Expr(Sort::WithoutDo)))
        .then(word(alloc, Keyword::Do).or(line_end(alloc)))
        .then(call(alloc, Name::Stmts))
        .then(word(alloc, Keyword::End))
        .named(Label::WhileForm)
}

// begin:("begin" body "end")
#[tactic(auto, unfolding(crate::specs::Forms::begin_form))]
fn begin_form(alloc: Global) -> Draft
    ensures { Makes result spec.begin_form }
{
    word(alloc, Keyword::Begin)
        .then(call(alloc, Name::Body))
        .then(word(alloc, Keyword::End))
        .named(Label::BeginForm)
}

// yield:(("yield" / "super") (pargs / cargs)? block?)
#[tactic(auto, unfolding(crate::specs::Forms::yield_form))]
fn yield_form(alloc: Global, sort: Sort) -> Draft
    ensures { Makes result (spec.yield_form sort) }
{
    words(alloc, &[Keyword::Yield, Keyword::Super])
        .then(
            call(alloc, Name::Pargs)
                .or(call(alloc, Name::Cargs))
                .maybe(),
        )
        .then(call(alloc, Name::Block(sort)).maybe())
        .named(Label::YieldForm)
}

// (!("if" / "unless" / "while" / "until") (command°° / arg° ("," arg°)*))?
#[tactic(auto, unfolding(crate::specs::Forms::returned))]
fn returned(alloc: Global, sort: Sort) -> Draft
    ensures { Makes result (spec.returned sort) }
{
    words(
        alloc,
        &[Keyword::If, Keyword::Unless, Keyword::While, Keyword::Until],
    )
    .absent()
    .then(opened_word(alloc, Name::Command(sort)).or(listed(
        opened(alloc, Name::Arg(sort)),
        opened(alloc, Name::Arg(sort)),
    )))
    .maybe()
}

// return:(("return" / "break" / "next") returned)
#[tactic(auto, unfolding(crate::specs::Forms::return_form))]
fn return_form(alloc: Global, sort: Sort) -> Draft
    ensures { Makes result (spec.return_form sort) }
{
    words(alloc, &[Keyword::Return, Keyword::Break, Keyword::Next])
        .then(returned(alloc, sort))
        .named(Label::ReturnForm)
}

/// `if / case / while / begin`
#[tactic(auto, unfolding(crate::specs::Forms::branching))]
pub fn branching(alloc: Global, sort: Sort) -> Draft
    ensures { Makes result (spec.branching sort) }
{
    if_form(alloc, sort)
        .or(case_form(alloc, sort))
        .or(while_form(alloc))
        .or(begin_form(alloc))
}

/// `yield / return`
#[tactic(auto, unfolding(crate::specs::Forms::leaving))]
pub fn leaving(alloc: Global, sort: Sort) -> Draft
    ensures { Makes result (spec.leaving sort) }
{
    yield_form(alloc, sort).or(return_form(alloc, sort))
}
