//! Texts with code in them.

ghost use Rattle.ruby_exprs.specs.Drafts.{Makes};
ghost use Rattle.ruby_exprs.specs.Texts as spec;

use crate::draft::{Draft, call, kind};
use crate::labels::Label;
use crate::names::Name;
use ruby_lexer::RubyKind;
use std::alloc::Global;

// code:(CodeOpen stmts CodeClose)
#[tactic(auto, unfolding(crate::specs::Texts::code))]
fn code(alloc: Global) -> Draft
    ensures { Makes result spec.code }
{
    kind(alloc, RubyKind::CodeOpen)
        .then(call(alloc, Name::Stmts))
        .then(kind(alloc, RubyKind::CodeClose))
        .named(Label::Code)
}

/// `(Part / code)*`
#[tactic(auto, unfolding(crate::specs::Texts::parts_rule))]
pub fn parts_rule(alloc: Global) -> Draft
    ensures { Makes result spec.parts_rule }
{
    kind(alloc, RubyKind::Part).or(code(alloc)).many()
}

/// `str:(StringOpen parts StringClose)`
#[tactic(auto, unfolding(crate::specs::Texts::str_rule))]
pub fn str_rule(alloc: Global) -> Draft
    ensures { Makes result spec.str_rule }
{
    kind(alloc, RubyKind::StringOpen)
        .then(call(alloc, Name::Parts))
        .then(kind(alloc, RubyKind::StringClose))
        .named(Label::Str)
}

/// `dsym:(SymbolOpen parts SymbolClose)`
#[tactic(auto, unfolding(crate::specs::Texts::dsym))]
pub fn dsym(alloc: Global) -> Draft
    ensures { Makes result spec.dsym }
{
    kind(alloc, RubyKind::SymbolOpen)
        .then(call(alloc, Name::Parts))
        .then(kind(alloc, RubyKind::SymbolClose))
        .named(Label::Dsym)
}

/// `regexp:(RegexpOpen parts RegexpClose)`
#[tactic(auto, unfolding(crate::specs::Texts::regexp))]
pub fn regexp(alloc: Global) -> Draft
    ensures { Makes result spec.regexp }
{
    kind(alloc, RubyKind::RegexpOpen)
        .then(call(alloc, Name::Parts))
        .then(kind(alloc, RubyKind::RegexpClose))
        .named(Label::Regexp)
}

/// `words:(WordsOpen Word* WordsClose)`
#[tactic(auto, unfolding(crate::specs::Texts::word_list))]
pub fn word_list(alloc: Global) -> Draft
    ensures { Makes result spec.word_list }
{
    kind(alloc, RubyKind::WordsOpen)
        .then(kind(alloc, RubyKind::Word).many())
        .then(kind(alloc, RubyKind::WordsClose))
        .named(Label::Words)
}

/// `heredoc:(HeredocOpen parts HeredocClose)`
#[tactic(auto, unfolding(crate::specs::Texts::heredoc))]
pub fn heredoc(alloc: Global) -> Draft
    ensures { Makes result spec.heredoc }
{
    kind(alloc, RubyKind::HeredocOpen)
        .then(call(alloc, Name::Parts))
        .then(kind(alloc, RubyKind::HeredocClose))
        .named(Label::Heredoc)
}
