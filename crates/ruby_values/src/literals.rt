//! Nodes of one token, or of two.

ghost use Rattle.std.specs.Prelude.{◌≡◌, slice_get, IfOk};
ghost use Rattle.ruby_values.specs.declared.value.Value.TheVariants as value;
ghost use Rattle.ruby_values.specs.Making as making;
ghost use Rattle.ruby_values.specs.Places as places;
ghost use Rattle.ruby_values.specs.Literals as spec;

use crate::making::made;
use crate::places::{kind_at, text_at};
use crate::value::Value;
use ruby_lexer::{Keyword, RubyKind, RubyToken, RubyValue};
use ruby_tree::{Local, NodeKind};
use src_text::{Mem, Span};
use std::alloc::Global;

/// An integer.
pub fn integer(alloc: Global, tokens: &[RubyToken], at: Span, first: usize) -> Mem<Value>
    ensures { IfOk result (λ made. made ≡ value.Node (spec.integer tokens.now at first)) }
{
    made(alloc, at, NodeKind::Int(integer_at(tokens, first)))
}

fn integer_at(tokens: &[RubyToken], place: usize) -> i128
    ensures { result ≡ spec.integer_of_token (slice_get tokens.now place) }
{
    match tokens.get(place) {
        Some(token) => integer_of(&token.value),
        None => 0,
    }
}

fn integer_of(value: &RubyValue) -> i128
    ensures { result ≡ spec.integer_of value.now }
{
    match value {
        RubyValue::Integer(value) => *value,
        _ => 0,
    }
}

/// A symbol without quotes.
pub fn symbol(alloc: Global, tokens: &[RubyToken], at: Span, first: usize) -> Mem<Value>
    ensures { IfOk result (λ made. made ≡ value.Node (spec.symbol tokens.now at first)) }
{
    let text = text_at(alloc, tokens, first)?;
    made(alloc, at, NodeKind::Sym(text))
}

/// A bare word.
pub fn name(alloc: Global, tokens: &[RubyToken], at: Span, first: usize) -> Mem<Value>
    ensures { IfOk result (λ made. made ≡ value.Node (spec.name tokens.now at first)) }
{
    let text = text_at(alloc, tokens, first)?;
    made(alloc, at, NodeKind::Name(text))
}

/// A keyword that is a value.
pub fn keyword(alloc: Global, at: Span, kind: RubyKind) -> Mem<Value>
    ensures { IfOk result (λ made. made ≡ value.Node (making.node at (spec.keyword kind))) }
{
    made(alloc, at, keyword_node(kind))
}

fn keyword_node(kind: RubyKind) -> NodeKind
    ensures { result ≡ spec.keyword kind }
{
    match kind {
        RubyKind::Keyword(Keyword::True) => NodeKind::True,
        RubyKind::Keyword(Keyword::False) => NodeKind::False,
        RubyKind::Keyword(Keyword::SelfWord) => NodeKind::SelfRef,
        RubyKind::Keyword(Keyword::File) => NodeKind::File,
        _ => NodeKind::Nil,
    }
}

/// A variable with its signs, or the local variable of a `rescue`.
pub fn variable(alloc: Global, tokens: &[RubyToken], at: Span, first: usize) -> Mem<Value>
    ensures { IfOk result (λ made. made ≡ spec.variable_at tokens.now at first) }
{
    let name = text_at(alloc, tokens, first)?;
    match kind_at(tokens, first) {
        RubyKind::InstanceVariable => made(alloc, at, NodeKind::IVar(name)),
        RubyKind::ClassVariable => made(alloc, at, NodeKind::CVar(name)),
        RubyKind::GlobalVariable => made(alloc, at, NodeKind::GVar(name)),
        _ => Ok(Value::Local(Local { name, at })),
    }
}
