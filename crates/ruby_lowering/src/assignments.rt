//! Assignments.

ghost use Rattle.std.specs.Prelude.{◌≡◌, [], ◌∷◌, ◌++◌, IfOk};
ghost use Rattle.ruby_tree.specs.declared.parts.Item.TheVariants as item;
ghost use Rattle.ruby_values.specs.declared.value.Value.TheVariants as value;
ghost use Rattle.ruby_tree.specs.declared.nodes.NodeKind.TheViews.{out-NodeKind};
ghost use Rattle.ruby_lowering.specs.Assignments as spec;

use ruby_lexer::{RubyKind, RubyToken};
use ruby_tree::{Dot, Item, ListTarget, MethodName, Node, NodeKind, Target, Variable};
use ruby_values::lists::{listed, with_room};
use ruby_values::making::{boxed, made, next};
use ruby_values::names::setter;
use ruby_values::operators::sent;
use ruby_values::places::{kind_at, leaf, span_at, text_at};
use ruby_values::queue::Queue;
use ruby_values::statements::span_of_nodes;
use ruby_values::value::Value;
use src_text::{Boxed, Mem, Seq, Span, Text};
use std::alloc::Global;

/// `a = b`.
pub(crate) fn assignment(
    alloc: Global,
    at: Span,
    nodes: &mut Queue<Boxed<Node>>,
    list: Option<Seq<Node>>,
) -> Mem<Value>
    ensures { IfOk result (λ made. made ≡ value.Node (spec.assignment at nodes.old list)) }
{
    let left = next(alloc, nodes)?;
    let value = value_of(alloc, nodes, list)?;
    assigned(alloc, at, left, value)
}

// The value that is assigned, where it stands next.
fn value_of(
    alloc: Global,
    nodes: &mut Queue<Boxed<Node>>,
    list: Option<Seq<Node>>,
) -> Mem<Boxed<Node>>
    ensures { IfOk result (λ made. made ≡ spec.next_value nodes.old list) }
{
    match list {
        Some(values) => array_of(alloc, values),
        None => next(alloc, nodes),
    }
}

// The array that values beside each other are.
fn array_of(alloc: Global, values: Seq<Node>) -> Mem<Boxed<Node>>
    ensures { IfOk result (λ made. made ≡ spec.array_of values) }
{
    let at = span_of_nodes(values.as_slice(), 0);
    let mut items = with_room(alloc, values.len())?;
    for value in values.into_vec() {
        items.push(Item::Value(value))?;
    }
    boxed(alloc, at, NodeKind::ArrayOf(items))
}

// A value that is assigned to what stands on the left, which is read as a value.
fn assigned(alloc: Global, at: Span, left: Boxed<Node>, given: Boxed<Node>) -> Mem<Value>
    ensures { IfOk result (λ made. made ≡ value.Node (spec.assigned at left given)) }
{
    let Node { span, kind, .. } = left.into_inner();
    let kind = assigned_to(span, kind, given)?;
    made(alloc, at, kind)
}

// A value that is assigned to what is a node of a kind as a value.
fn assigned_to(span: Span, kind: NodeKind, value: Boxed<Node>) -> Mem<NodeKind>
    ensures { IfOk result (λ made. made ≡ spec.assigned_to span (out-NodeKind kind) value) }
{
    match kind {
        NodeKind::Name(name) => Ok(NodeKind::Asgn {
            target: Target::Local { name, at: span },
            value,
        }),
        NodeKind::IVar(name) => Ok(NodeKind::Asgn {
            target: Target::IVar { name, at: span },
            value,
        }),
        NodeKind::CVar(name) => Ok(NodeKind::Asgn {
            target: Target::CVar { name, at: span },
            value,
        }),
        NodeKind::GVar(name) => Ok(NodeKind::Asgn {
            target: Target::GVar { name, at: span },
            value,
        }),
        NodeKind::Const { scope, path } => Ok(NodeKind::Asgn {
            target: Target::Const {
                scope,
                path,
                at: span,
            },
            value,
        }),
        NodeKind::Call {
            receiver,
            dot,
            method,
            args,
            block,
        } => {
            drop(block);
            set_or_nil(receiver, dot, method, args, value)
        }
        other => {
            drop(other);
            Ok(NodeKind::Nil)
        }
    }
}

// The call of a setter, where there is a receiver.
fn set_or_nil(
    receiver: Option<Boxed<Node>>,
    dot: Dot,
    method: MethodName,
    args: Seq<Item>,
    value: Boxed<Node>,
) -> Mem<NodeKind>
    ensures { IfOk result (λ made. made ≡ spec.set_or_nil receiver dot method args value) }
{
    match receiver {
        Some(receiver) => set(receiver, dot, method, args, value),
        None => Ok(NodeKind::Nil),
    }
}

// The call of a setter.
fn set(
    receiver: Boxed<Node>,
    dot: Dot,
    method: MethodName,
    args: Seq<Item>,
    value: Boxed<Node>,
) -> Mem<NodeKind>
    ensures { IfOk result (λ made. made ≡ spec.set receiver dot method args value) }
{
    let method = setter(method)?;
    let args = with_value(args, value)?;
    Ok(NodeKind::AsgnCall {
        receiver,
        dot,
        method,
        args,
    })
}

// Arguments and one more.
fn with_value(args: Seq<Item>, value: Boxed<Node>) -> Mem<Seq<Item>>
    ensures { IfOk result (λ made. made ≡ args ++ item.Value value ∷ []) }
{
    let mut args = args;
    args.push(Item::Value(value.into_inner()))?;
    Ok(args)
}

/// `a += b`. The left side is read twice: as what is assigned to, and as a value.
pub(crate) fn changed(
    alloc: Global,
    tokens: &[RubyToken],
    at: Span,
    sign: usize,
    nodes: &mut Queue<Boxed<Node>>,
) -> Mem<Value>
    ensures { IfOk result (λ made. made ≡ value.Node (spec.changed tokens.now at sign nodes.old)) }
{
    let left = next(alloc, nodes)?;
    let value = changed_value(alloc, tokens, at, sign, nodes)?;
    assigned(alloc, at, left, value)
}

// The value that an operator makes of the old one, which stands behind the other.
fn changed_value(
    alloc: Global,
    tokens: &[RubyToken],
    at: Span,
    sign: usize,
    nodes: &mut Queue<Boxed<Node>>,
) -> Mem<Boxed<Node>>
    ensures { IfOk result (λ made. made ≡ spec.changed_value tokens.now at sign nodes.old) }
{
    let operator = text_at(alloc, tokens, sign)?;
    let right = next(alloc, nodes)?;
    let old = next(alloc, nodes)?;
    new_value(
        alloc,
        at,
        operator.as_str(),
        span_at(tokens, sign),
        old,
        right,
    )
}

// What an operator makes of an old value and another.
fn new_value(
    alloc: Global,
    at: Span,
    operator: &str,
    sign: Span,
    old: Boxed<Node>,
    right: Boxed<Node>,
) -> Mem<Boxed<Node>>
    ensures { IfOk result (λ made. made ≡ spec.new_value at operator.now sign old right) }
{
    if operator == "&&" {
        return boxed(alloc, at, NodeKind::And(old, right));
    }
    if operator == "||" {
        return boxed(alloc, at, NodeKind::Or(old, right));
    }
    sent(alloc, at, operator, sign, old, right)
}

/// One of several targets.
pub(crate) fn list_target(alloc: Global, tokens: &[RubyToken], leaves: &[usize]) -> Mem<Value>
    ensures { IfOk result (λ made. made ≡ value.Target (spec.list_target tokens.now leaves.now)) }
{
    let splat = leaves.len() == 2;
    let place = if splat {
        leaf(leaves, 1)
    } else {
        leaf(leaves, 0)
    };
    let name = text_at(alloc, tokens, place)?;
    let target = ListTarget {
        splat,
        variable: variable_of(kind_at(tokens, place), name),
        at: span_at(tokens, place),
    };
    Ok(Value::Target(Boxed::new(alloc, target)?))
}

fn variable_of(kind: RubyKind, name: Text) -> Variable
    ensures { result ≡ spec.variable_of kind name }
{
    match kind {
        RubyKind::InstanceVariable => Variable::Instance(name),
        _ => Variable::Local(name),
    }
}

/// `a, *b = c, d`.
pub(crate) fn list_assignment(
    alloc: Global,
    at: Span,
    targets: Seq<ListTarget>,
    list: Option<Seq<Node>>,
) -> Mem<Value>
    ensures { IfOk result (λ made. made ≡ value.Node (spec.list_assignment at targets list)) }
{
    let values = listed(alloc, list);
    let values_at = span_of_nodes(values.as_slice(), 0);
    made(
        alloc,
        at,
        NodeKind::MultiAsgn {
            targets,
            values,
            values_at,
        },
    )
}
