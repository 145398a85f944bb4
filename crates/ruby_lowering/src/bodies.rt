//! Bodies, and what has one.

ghost use Rattle.std.specs.Prelude.{◌≡◌, [], None, IfOk};
ghost use Rattle.ruby_tree.specs.declared.nodes.NodeKind.TheVariants as kind;
ghost use Rattle.ruby_values.specs.declared.value.Value.TheVariants as value;
ghost use Rattle.ruby_values.specs.Making as making;
ghost use Rattle.ruby_lowering.specs.Bodies as spec;

use ruby_lexer::RubyToken;
use ruby_tree::{Local, MethodName, Node, NodeKind, Param, Rescue};
use ruby_values::lists::listed;
use ruby_values::making::{boxed, made, next};
use ruby_values::places::end_of_code;
use ruby_values::queue::Queue;
use ruby_values::value::{PlacedPath, Value};
use src_text::{Boxed, Mem, Seq, Span};
use std::alloc::Global;

/// A body: its statements, or a `Begin` where it has `rescue`, `else` or `ensure`.
pub(crate) fn body(
    alloc: Global,
    tokens: &[RubyToken],
    behind: usize,
    nodes: &mut Queue<Boxed<Node>>,
    rescues: Seq<Rescue>,
    otherwise: Option<Boxed<Node>>,
    ensure: Option<Boxed<Node>>,
) -> Mem<Value>
    ensures { IfOk result (λ made. made ≡ value.Node (spec.body tokens.now behind (making.first nodes.old) rescues otherwise ensure)) }
{
    let statements = next(alloc, nodes)?;
    if is_plain(rescues.as_slice(), &otherwise, &ensure) {
        return Ok(Value::Node(statements));
    }
    let at = Span {
        start: statements.get().span.start,
        end: end_of_code(tokens, behind),
    };
    made(
        alloc,
        at,
        NodeKind::Begin {
            body: statements,
            rescues,
            otherwise,
            ensure,
        },
    )
}

// Whether a body has nothing but its statements.
fn is_plain(
    rescues: &[Rescue],
    otherwise: &Option<Boxed<Node>>,
    ensure: &Option<Boxed<Node>>,
) -> bool
    ensures { result ≡ spec.is_plain rescues.now otherwise.now ensure.now }
{
    match rescues {
        [] => are_missing(otherwise, ensure),
        [_, ..] => false,
    }
}

fn are_missing(otherwise: &Option<Boxed<Node>>, ensure: &Option<Boxed<Node>>) -> bool
    ensures { result ≡ spec.is_plain [] otherwise.now ensure.now }
{
    match otherwise {
        None => match ensure {
            None => true,
            Some(_) => false,
        },
        Some(_) => false,
    }
}

/// `begin`, which is a `Begin` also without `rescue`, `else` and `ensure`.
pub(crate) fn begin_form(alloc: Global, at: Span, nodes: &mut Queue<Boxed<Node>>) -> Mem<Value>
    ensures { IfOk result (λ made. made ≡ value.Node (spec.begin_form at (making.first nodes.old))) }
{
    let body = next(alloc, nodes)?;
    let kind = begin_kind(alloc, body.into_inner())?;
    made(alloc, at, kind)
}

fn begin_kind(alloc: Global, body: Node) -> Mem<NodeKind>
    ensures { IfOk result (λ made. made ≡ spec.begin_kind body) }
{
    if is_begin(&body) {
        let Node { kind, .. } = body;
        Ok(kind)
    } else {
        begin_of(alloc, body)
    }
}

// Whether a node is a `Begin` already.
fn is_begin(node: &Node) -> bool
    ensures { result ≡ spec.is_begin node.now }
{
    matches!(&node.kind, NodeKind::Begin { .. })
}

fn begin_of(alloc: Global, statements: Node) -> Mem<NodeKind>
    ensures { IfOk result (λ made. made ≡ kind.Begin statements [] None None) }
{
    let body = Boxed::new(alloc, statements)?;
    Ok(NodeKind::Begin {
        body,
        rescues: Seq::new(alloc),
        otherwise: None,
        ensure: None,
    })
}

/// `rescue`.
pub(crate) fn rescue(
    alloc: Global,
    classes: Option<Seq<Node>>,
    variable: Option<Local>,
    nodes: &mut Queue<Boxed<Node>>,
) -> Mem<Value>
    ensures { IfOk result (λ made. made ≡ value.Rescue (spec.rescue_of classes variable (making.first nodes.old))) }
{
    let body = next(alloc, nodes)?;
    let rescue = Rescue {
        classes: listed(alloc, classes),
        variable,
        body: body.into_inner(),
    };
    Ok(Value::Rescue(Boxed::new(alloc, rescue)?))
}

/// `def`.
pub(crate) fn definition(
    alloc: Global,
    at: Span,
    singleton: bool,
    method: Option<MethodName>,
    params: Option<Seq<Param>>,
    body: Boxed<Node>,
) -> Mem<Value>
    ensures { IfOk result (λ made. made ≡ value.Node (spec.definition at singleton method params body)) }
{
    match method {
        Some(method) => made(
            alloc,
            at,
            NodeKind::Def {
                singleton,
                method,
                params: listed(alloc, params),
                body,
            },
        ),
        None => made(alloc, at, NodeKind::Nil),
    }
}

/// The body that one value is.
pub(crate) fn value_body(alloc: Global, nodes: &mut Queue<Boxed<Node>>) -> Mem<Boxed<Node>>
    ensures { IfOk result (λ made. made ≡ spec.value_body (making.first nodes.old)) }
{
    let value = next(alloc, nodes)?;
    let at = value.get().span;
    let mut nodes = Seq::new(alloc);
    nodes.push(value.into_inner())?;
    boxed(alloc, at, NodeKind::Seq(nodes))
}

/// `class`.
pub(crate) fn class_form(
    alloc: Global,
    at: Span,
    path: Option<Boxed<PlacedPath>>,
    superclass: Option<Boxed<Node>>,
    nodes: &mut Queue<Boxed<Node>>,
) -> Mem<Value>
    ensures { IfOk result (λ made. made ≡ value.Node (spec.class_form at path superclass (making.first nodes.old))) }
{
    let body = next(alloc, nodes)?;
    match path {
        Some(placed) => {
            let PlacedPath { path, at: path_at } = placed.into_inner();
            made(
                alloc,
                at,
                NodeKind::ClassBody {
                    path,
                    path_at,
                    superclass,
                    body,
                },
            )
        }
        None => made(alloc, at, NodeKind::Nil),
    }
}

/// `module`.
pub(crate) fn module_form(
    alloc: Global,
    at: Span,
    path: Option<Boxed<PlacedPath>>,
    nodes: &mut Queue<Boxed<Node>>,
) -> Mem<Value>
    ensures { IfOk result (λ made. made ≡ value.Node (spec.module_form at path (making.first nodes.old))) }
{
    let body = next(alloc, nodes)?;
    match path {
        Some(placed) => {
            let PlacedPath { path, at: path_at } = placed.into_inner();
            made(
                alloc,
                at,
                NodeKind::ModuleBody {
                    path,
                    path_at,
                    body,
                },
            )
        }
        None => made(alloc, at, NodeKind::Nil),
    }
}

/// `class << self`.
pub(crate) fn singleton_form(alloc: Global, at: Span, nodes: &mut Queue<Boxed<Node>>) -> Mem<Value>
    ensures { IfOk result (λ made. made ≡ value.Node (spec.singleton_form at (making.first nodes.old))) }
{
    let body = next(alloc, nodes)?;
    made(alloc, at, NodeKind::SingletonBody(body))
}

/// A block.
pub(crate) fn block(
    alloc: Global,
    at: Span,
    params: Option<Seq<Param>>,
    nodes: &mut Queue<Boxed<Node>>,
) -> Mem<Value>
    ensures { IfOk result (λ made. made ≡ value.Node (spec.block at params (making.first nodes.old))) }
{
    let body = next(alloc, nodes)?;
    let params = listed(alloc, params);
    made(alloc, at, NodeKind::Block { params, body })
}

/// `->(a) { b }`.
pub(crate) fn lambda(
    alloc: Global,
    at: Span,
    params: Option<Seq<Param>>,
    nodes: &mut Queue<Boxed<Node>>,
) -> Mem<Value>
    ensures { IfOk result (λ made. made ≡ value.Node (spec.lambda at params (making.first nodes.old))) }
{
    let body = next(alloc, nodes)?;
    let params = listed(alloc, params);
    made(alloc, at, NodeKind::Lambda { params, body })
}
