//! Statements and bodies.

ghost use Rattle.ruby_exprs.specs.Drafts.{Makes};
ghost use Rattle.ruby_exprs.specs.Statements as spec;

use crate::draft::{Draft, call, chain, kind, kinds, listed, opened, sign, some, word, words};
use crate::labels::Label;
use crate::names::{Name, Sort};
use ruby_lexer::{Keyword, RubyKind, Sign};
use std::alloc::Global;

/// `Newline / ";"`
#[tactic(auto, unfolding(crate::specs::Statements::line_end))]
pub fn line_end(alloc: Global) -> Draft
    ensures { Makes result spec.line_end }
{
    kinds(alloc, &[RubyKind::Newline, RubyKind::Sign(Sign::Semicolon)])
}

/// `Newline*`
#[tactic(auto, unfolding(crate::specs::Statements::newlines))]
pub fn newlines(alloc: Global) -> Draft
    ensures { Makes result spec.newlines }
{
    kind(alloc, RubyKind::Newline).many()
}

/// `program:(stmts End)`
#[tactic(auto, unfolding(crate::specs::Statements::program_rule))]
pub fn program_rule(alloc: Global) -> Draft
    ensures { Makes result spec.program_rule }
{
    call(alloc, Name::Stmts)
        .then(kind(alloc, RubyKind::End))
        .named(Label::Program)
}

// (T T* stmt°)*
#[tactic(auto, unfolding(crate::specs::Statements::more_statements))]
fn more_statements(alloc: Global) -> Draft
    ensures { Makes result spec.more_statements }
{
    some(line_end(alloc), line_end(alloc))
        .then(opened(alloc, Name::Stmt))
        .many()
}

/// `stmts:(T* (stmt° (T T* stmt°)*)? T*)`
#[tactic(auto, unfolding(crate::specs::Statements::stmts_rule))]
pub fn stmts_rule(alloc: Global) -> Draft
    ensures { Makes result spec.stmts_rule }
{
    line_end(alloc)
        .many()
        .then(
            opened(alloc, Name::Stmt)
                .then(more_statements(alloc))
                .maybe(),
        )
        .then(line_end(alloc).many())
        .named(Label::Stmts)
}

// symbol_name:Symbol
#[tactic(auto, unfolding(crate::specs::Statements::short_alias))]
fn short_alias(alloc: Global) -> Draft
    ensures { Makes result spec.short_alias }
{
    kind(alloc, RubyKind::Symbol).named(Label::SymbolName)
}

// symbol_name:(SymbolOpen Part* SymbolClose)
#[tactic(auto, unfolding(crate::specs::Statements::quoted_alias))]
fn quoted_alias(alloc: Global) -> Draft
    ensures { Makes result spec.quoted_alias }
{
    kind(alloc, RubyKind::SymbolOpen)
        .then(kind(alloc, RubyKind::Part).many())
        .then(kind(alloc, RubyKind::SymbolClose))
        .named(Label::SymbolName)
}

/// `symbol_name:Symbol / symbol_name:(SymbolOpen Part* SymbolClose) / name_of:name`
#[tactic(auto, unfolding(crate::specs::Statements::alias_name_rule))]
pub fn alias_name_rule(alloc: Global) -> Draft
    ensures { Makes result spec.alias_name_rule }
{
    short_alias(alloc)
        .or(quoted_alias(alloc))
        .or(call(alloc, Name::Mname))
}

// alias:("alias" alias_name alias_name)
#[tactic(auto, unfolding(crate::specs::Statements::alias_form))]
fn alias_form(alloc: Global) -> Draft
    ensures { Makes result spec.alias_form }
{
    word(alloc, Keyword::Alias)
        .then(call(alloc, Name::AliasName))
        .then(call(alloc, Name::AliasName))
        .named(Label::AliasForm)
}

// modifier:(("if" / "unless" / "rescue") expr / ("while" / "until") expr⁻)
#[tactic(auto, unfolding(crate::specs::Statements::modifier))]
fn modifier(alloc: Global) -> Draft
    ensures { Makes result spec.modifier }
{
    words(alloc, &[Keyword::If, Keyword::Unless, Keyword::Rescue])
        .then(call(alloc, Name::Expr(Sort::WithDo)))
        .or(words(alloc, &[Keyword::While, Keyword::Until]).then(call(
            alloc,
            Name::Expr(Sort::WithoutDo),
        )))
        .named(Label::Modifier)
}

/// `stmt~((alias / expr) chain["if" / "unless" / "while" / "until" / "rescue"]modifier)`
#[tactic(auto, unfolding(crate::specs::Statements::stmt_rule))]
pub fn stmt_rule(alloc: Global) -> Draft
    ensures { Makes result spec.stmt_rule }
{
    alias_form(alloc)
        .or(call(alloc, Name::Expr(Sort::WithDo)))
        .then(chain(
            alloc,
            &[
                RubyKind::Keyword(Keyword::If),
                RubyKind::Keyword(Keyword::Unless),
                RubyKind::Keyword(Keyword::While),
                RubyKind::Keyword(Keyword::Until),
                RubyKind::Keyword(Keyword::Rescue),
            ],
            modifier(alloc),
        ))
        .chained(Label::Stmt)
}

/// `"then" / T T* "then"?`
#[tactic(auto, unfolding(crate::specs::Statements::then_rule))]
pub fn then_rule(alloc: Global) -> Draft
    ensures { Makes result spec.then_rule }
{
    word(alloc, Keyword::Then).or(some(line_end(alloc), line_end(alloc)).then(word(
        alloc,
        Keyword::Then,
    ).maybe()))
}

/// `else:("else" stmts)?`
#[tactic(auto, unfolding(crate::specs::Statements::else_rule))]
pub fn else_rule(alloc: Global) -> Draft
    ensures { Makes result spec.else_rule }
{
    word(alloc, Keyword::Else)
        .then(call(alloc, Name::Stmts))
        .named(Label::ElseForm)
        .maybe()
}

// classes:(arg° ("," arg°)*)?
#[tactic(auto, unfolding(crate::specs::Statements::rescued_classes))]
fn rescued_classes(alloc: Global) -> Draft
    ensures { Makes result spec.rescued_classes }
{
    listed(
        opened(alloc, Name::Arg(Sort::WithDo)),
        opened(alloc, Name::Arg(Sort::WithDo)),
    )
    .maybe()
    .named(Label::Classes)
}

// ("=>" variable:Identifier)?
#[tactic(auto, unfolding(crate::specs::Statements::rescued_variable))]
fn rescued_variable(alloc: Global) -> Draft
    ensures { Makes result spec.rescued_variable }
{
    sign(alloc, Sign::Rocket)
        .then(kind(alloc, RubyKind::Identifier).named(Label::Variable))
        .maybe()
}

// rescue:("rescue" classes variable then stmts)
#[tactic(auto, unfolding(crate::specs::Statements::rescue_form))]
fn rescue_form(alloc: Global) -> Draft
    ensures { Makes result spec.rescue_form }
{
    word(alloc, Keyword::Rescue)
        .then(rescued_classes(alloc))
        .then(rescued_variable(alloc))
        .then(call(alloc, Name::Then))
        .then(call(alloc, Name::Stmts))
        .named(Label::RescueForm)
}

// ensure:("ensure" stmts)?
#[tactic(auto, unfolding(crate::specs::Statements::ensure_form))]
fn ensure_form(alloc: Global) -> Draft
    ensures { Makes result spec.ensure_form }
{
    word(alloc, Keyword::Ensure)
        .then(call(alloc, Name::Stmts))
        .named(Label::EnsureForm)
        .maybe()
}

/// `body:(stmts rescue* else ensure)`
#[tactic(auto, unfolding(crate::specs::Statements::body_rule))]
pub fn body_rule(alloc: Global) -> Draft
    ensures { Makes result spec.body_rule }
{
    call(alloc, Name::Stmts)
        .then(rescue_form(alloc).many())
        .then(call(alloc, Name::Else))
        .then(ensure_form(alloc))
        .named(Label::Body)
}
