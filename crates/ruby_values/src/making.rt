//! How nodes are made and taken.

ghost use Rattle.std.specs.Prelude.{◌≡◌, IfOk, OnOk};
ghost use Rattle.ruby_values.specs.declared.value.Value.TheVariants as value;
ghost use Rattle.ruby_values.specs.Making as spec;
ghost use Rattle.ruby_values.specs.Lists.{behind_front};

use crate::queue::Queue;
use crate::value::Value;
use ruby_tree::{Node, NodeKind};
use src_text::{Boxed, Mem, Span};
use std::alloc::Global;

/// A node that has no number yet.
pub fn node(at: Span, kind: NodeKind) -> Node
    ensures { result ≡ spec.node at kind }
{
    Node {
        span: at,
        number: 0,
        kind,
    }
}

/// A node in a box.
pub fn boxed(alloc: Global, at: Span, kind: NodeKind) -> Mem<Boxed<Node>>
    ensures { IfOk result (λ made. made ≡ spec.node at kind) }
{
    Boxed::new(alloc, node(at, kind))
}

/// A node as a value.
pub fn made(alloc: Global, at: Span, kind: NodeKind) -> Mem<Value>
    ensures { IfOk result (λ made. made ≡ value.Node (spec.node at kind)) }
{
    let node = boxed(alloc, at, kind)?;
    Ok(Value::Node(node))
}

/// The node that stands where one is missing.
pub fn missing(alloc: Global) -> Mem<Boxed<Node>>
    ensures { IfOk result (λ made. made ≡ spec.missing) }
{
    boxed(alloc, Span { start: 0, end: 0 }, NodeKind::Nil)
}

/// Takes the first of the nodes.
pub fn next(alloc: Global, nodes: &mut Queue<Boxed<Node>>) -> Mem<Boxed<Node>>
    ensures node { IfOk result (λ node. node ≡ spec.first nodes.old) }
    ensures rest { nodes.new ≡ behind_front nodes.old }
{
    match nodes.next() {
        Some(node) => Ok(node),
        None => missing(alloc),
    }
}
