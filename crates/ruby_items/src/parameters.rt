//! Parameters.

ghost use Rattle.std.specs.Prelude.{◌≡◌, ◌++◌, IfOk, OnOk};
ghost use Rattle.std.specs.List.{flat_map};
ghost use Rattle.ruby_values.specs.declared.value.Value.TheVariants as value;
ghost use Rattle.ruby_values.specs.Making as making;
ghost use Rattle.ruby_items.specs.Parameters as spec;

use crate::items::without_colon;
use ruby_lexer::{RubyKind, RubyToken};
use ruby_tree::{Local, Node, Param};
use ruby_values::lists::with_room_among;
use ruby_values::making::next;
use ruby_values::places::{kind_at, span_at, text_at};
use ruby_values::queue::Queue;
use ruby_values::value::Value;
use src_text::{Boxed, Mem, Seq};
use std::alloc::Global;

/// The parameters among values.
pub fn params_among(alloc: Global, values: Seq<Value>) -> Mem<Seq<Param>>
    ensures { IfOk result (λ params. params ≡ spec.params_among values) }
{
    let mut params = with_room_among(alloc, values.len())?;
    for value in values.into_vec() {
        add_param(&mut params, value)?;
    }
    Ok(params)
}

fn add_param(params: &mut Seq<Param>, value: Value) -> Mem<()>
    ensures { OnOk result (params.new ≡ params.old ++ spec.param_among value) }
{
    match value {
        Value::Param(param) => params.push(param.into_inner()),
        _ => Ok(()),
    }
}

/// A parameter as a value.
pub fn param_value(alloc: Global, param: Param) -> Mem<Value>
    ensures { IfOk result (λ made. made ≡ value.Param param) }
{
    Ok(Value::Param(Boxed::new(alloc, param)?))
}

// A local variable where its word stands.
fn local_at(alloc: Global, tokens: &[RubyToken], place: usize) -> Mem<Local>
    ensures { IfOk result (λ local. local ≡ spec.local_at tokens.now place) }
{
    let name = text_at(alloc, tokens, place)?;
    Ok(Local {
        name,
        at: span_at(tokens, place),
    })
}

// A local variable where a label stands for it.
fn local_of_label(alloc: Global, tokens: &[RubyToken], place: usize) -> Mem<Local>
    ensures { IfOk result (λ local. local ≡ spec.local_of_label tokens.now place) }
{
    let name = text_at(alloc, tokens, place)?;
    Ok(Local {
        name,
        at: without_colon(span_at(tokens, place)),
    })
}

// The local variable behind a sign, if one stands there.
fn local_behind_sign(alloc: Global, tokens: &[RubyToken], leaves: &[usize]) -> Mem<Option<Local>>
    ensures { IfOk result (λ local. local ≡ spec.local_behind_sign tokens.now leaves.now) }
{
    match leaves.get(1) {
        Some(place) => Ok(Some(local_at(alloc, tokens, *place)?)),
        None => Ok(None),
    }
}

/// `a`.
pub fn required(alloc: Global, tokens: &[RubyToken], first: usize) -> Mem<Value>
    ensures { IfOk result (λ made. made ≡ value.Param (spec.required tokens.now first)) }
{
    let local = local_at(alloc, tokens, first)?;
    param_value(alloc, Param::Required(local))
}

/// `a = b`.
pub fn optional(
    alloc: Global,
    tokens: &[RubyToken],
    first: usize,
    nodes: &mut Queue<Boxed<Node>>,
) -> Mem<Value>
    ensures { IfOk result (λ made. made ≡ value.Param (spec.optional tokens.now first (making.first nodes.old))) }
{
    let default = next(alloc, nodes)?;
    let local = local_at(alloc, tokens, first)?;
    param_value(
        alloc,
        Param::Optional {
            local,
            default: default.into_inner(),
        },
    )
}

/// `a:` and `a: b`.
pub fn keyword_param(
    alloc: Global,
    tokens: &[RubyToken],
    first: usize,
    nodes: &mut Queue<Boxed<Node>>,
) -> Mem<Value>
    ensures { IfOk result (λ made. made ≡ value.Param (spec.keyword_param tokens.now first nodes.old)) }
{
    let local = local_of_label(alloc, tokens, first)?;
    param_value(alloc, keyword_with(local, nodes.next()))
}

fn keyword_with(local: Local, default: Option<Boxed<Node>>) -> Param
    ensures { result ≡ spec.keyword_with local default }
{
    match default {
        Some(default) => Param::OptionalKeyword {
            local,
            default: default.into_inner(),
        },
        None => Param::Keyword(local),
    }
}

/// What stands before a parameter that takes all that is left, or the block.
#[derive(Clone, Copy, Debug, PartialEq, Eq)]
pub enum Takes {
    Rest,
    RestKeywords,
    Block,
}

/// `*a`, `**a` and `&a`.
pub fn taking(alloc: Global, tokens: &[RubyToken], takes: Takes, leaves: &[usize]) -> Mem<Value>
    ensures { IfOk result (λ made. made ≡ value.Param (spec.taking tokens.now takes leaves.now)) }
{
    let local = local_behind_sign(alloc, tokens, leaves)?;
    param_value(alloc, taking_of(takes, local))
}

fn taking_of(takes: Takes, local: Option<Local>) -> Param
    ensures { result ≡ spec.taking_of takes local }
{
    match takes {
        Takes::Rest => Param::Rest(local),
        Takes::RestKeywords => Param::RestKeywords(local),
        Takes::Block => Param::Block(local),
    }
}

/// `(a, b)`.
pub fn group(alloc: Global, tokens: &[RubyToken], leaves: &[usize]) -> Mem<Value>
    ensures { IfOk result (λ made. made ≡ value.Param (spec.group tokens.now leaves.now)) }
{
    let locals = locals_among(alloc, tokens, leaves)?;
    param_value(alloc, Param::Group(locals))
}

fn locals_among(alloc: Global, tokens: &[RubyToken], leaves: &[usize]) -> Mem<Seq<Local>>
    ensures { IfOk result (λ locals. locals ≡ flat_map (spec.local_among tokens.now) leaves.now) }
{
    let mut locals = Seq::new(alloc);
    for place in leaves {
        if is_identifier(kind_at(tokens, *place)) {
            locals.push(local_at(alloc, tokens, *place)?)?;
        }
    }
    Ok(locals)
}

/// A required parameter behind an optional one or the rest. A group stays one.
pub fn trailing(param: Param) -> Param
    ensures { result ≡ spec.trailing param }
{
    match param {
        Param::Required(local) => Param::Trailing(local),
        Param::Optional { local, default } => Param::Optional { local, default },
        Param::Rest(local) => Param::Rest(local),
        Param::Trailing(local) => Param::Trailing(local),
        Param::Keyword(local) => Param::Keyword(local),
        Param::OptionalKeyword { local, default } => Param::OptionalKeyword { local, default },
        Param::RestKeywords(local) => Param::RestKeywords(local),
        Param::Block(local) => Param::Block(local),
        Param::Group(locals) => Param::Group(locals),
    }
}

fn is_identifier(kind: RubyKind) -> bool
    ensures { result ≡ spec.is_identifier kind }
{
    matches!(kind, RubyKind::Identifier)
}
