//! Calls, and what is linked to a receiver.

ghost use Rattle.std.specs.Prelude.{◌≡◌, [], ◌∷◌, None, IfOk};
ghost use Rattle.ruby_tree.specs.declared.nodes.NodeKind.TheVariants as kind;
ghost use Rattle.ruby_tree.specs.declared.nodes.NodeKind.TheViews.{out-NodeKind};
ghost use Rattle.ruby_values.specs.declared.value.Value.TheVariants as value;
ghost use Rattle.ruby_values.specs.Making as making;
ghost use Rattle.ruby_lowering.specs.Calls as spec;

use ruby_items::items::{optional_items, plain_items};
use ruby_lexer::{Keyword, RubyKind, RubyToken, Sign};
use ruby_tree::{ConstPath, Dot, Item, MethodName, Node, NodeKind};
use ruby_values::making::{boxed, made, next};
use ruby_values::places::{span_at, text_at};
use ruby_values::queue::Queue;
use ruby_values::value::{Placed, Value};
use src_text::{Boxed, Mem, Seq, Span, Text};
use std::alloc::Global;

/// How a link is joined to its receiver, by the token that joins them.
pub(crate) fn dot_of(kind: RubyKind) -> Dot
    ensures { result ≡ spec.dot_of kind }
{
    match kind {
        RubyKind::Sign(Sign::SafeDot) => Dot::Safe,
        _ => Dot::Plain,
    }
}

/// A word as the name of a method.
pub(crate) fn word_name(alloc: Global, tokens: &[RubyToken], place: usize) -> Mem<MethodName>
    ensures { IfOk result (λ made. made ≡ spec.word_name tokens.now place) }
{
    let name = text_at(alloc, tokens, place)?;
    let at = span_at(tokens, place);
    Ok(MethodName { name, at })
}

/// A call that has no receiver, or waits for it.
pub(crate) fn call(
    alloc: Global,
    at: Span,
    dot: Dot,
    method: Option<MethodName>,
    items: Option<Seq<Placed>>,
    block: Option<Boxed<Node>>,
) -> Mem<Value>
    ensures { IfOk result (λ made. made ≡ value.Node (spec.call at dot method items block)) }
{
    let args = optional_items(alloc, items)?;
    match method {
        Some(method) => made(
            alloc,
            at,
            NodeKind::Call {
                receiver: None,
                dot,
                method,
                args,
                block,
            },
        ),
        None => made(alloc, at, NodeKind::Nil),
    }
}

// A constant of one word.
fn const_of(alloc: Global, at: Span, absolute: bool, word: Text) -> Mem<Value>
    ensures { IfOk result (λ made. made ≡ value.Node (making.node at (kind.Const None (record { absolute = absolute; words = word ∷ [] })))) }
{
    let mut words = Seq::new(alloc);
    words.push(word)?;
    made(
        alloc,
        at,
        NodeKind::Const {
            scope: None,
            path: ConstPath { absolute, words },
        },
    )
}

/// A value and its links.
pub(crate) fn linked(alloc: Global, nodes: &mut Queue<Boxed<Node>>) -> Mem<Value>
    ensures { IfOk result (λ made. made ≡ value.Node (spec.linked nodes.old)) }
{
    let mut receiver = next(alloc, nodes)?;
    for link in nodes.rest(alloc).into_vec() {
        receiver = joined(alloc, receiver, link)?;
    }
    Ok(Value::Node(receiver))
}

// A receiver and a link that waits for it.
fn joined(alloc: Global, receiver: Boxed<Node>, link: Boxed<Node>) -> Mem<Boxed<Node>>
    ensures { IfOk result (λ made. made ≡ spec.joined receiver link) }
{
    let Node { span, kind, .. } = link.into_inner();
    let at = Span {
        start: receiver.get().span.start,
        end: span.end,
    };
    match kind {
        NodeKind::Call {
            receiver: waiting,
            dot,
            method,
            args,
            block,
        } => {
            drop(waiting);
            boxed(
                alloc,
                at,
                NodeKind::Call {
                    receiver: Some(receiver),
                    dot,
                    method,
                    args,
                    block,
                },
            )
        }
        NodeKind::Const { scope, path } => {
            drop(scope);
            const_joined(alloc, at, receiver, path)
        }
        other => {
            drop(other);
            Ok(receiver)
        }
    }
}

// A constant behind a value: one constant with it, where that is a constant.
fn const_joined(alloc: Global, at: Span, receiver: Boxed<Node>, link: ConstPath) -> Mem<Boxed<Node>>
    ensures { IfOk result (λ made. made ≡ making.node at (spec.const_joined receiver link)) }
{
    if is_const(receiver.get()) {
        const_with(alloc, at, receiver, link)
    } else {
        const_behind(alloc, at, receiver, link)
    }
}

fn is_const(node: &Node) -> bool
    ensures { result ≡ spec.is_const node.now }
{
    matches!(&node.kind, NodeKind::Const { .. })
}

// A constant with the words of a link.
fn const_with(alloc: Global, at: Span, constant: Boxed<Node>, link: ConstPath) -> Mem<Boxed<Node>>
    ensures { IfOk result (λ made. made ≡ making.node at (spec.const_with constant link)) }
{
    let Node { kind, .. } = constant.into_inner();
    match kind {
        NodeKind::Const { scope, path } => {
            let path = longer_path(path, link)?;
            boxed(alloc, at, NodeKind::Const { scope, path })
        }
        other => {
            drop(other);
            boxed(alloc, at, NodeKind::Nil)
        }
    }
}

// A constant behind a value that is none.
fn const_behind(alloc: Global, at: Span, value: Boxed<Node>, path: ConstPath) -> Mem<Boxed<Node>>
    ensures { IfOk result (λ made. made ≡ making.node at (kind.Const (Some value) path)) }
{
    boxed(
        alloc,
        at,
        NodeKind::Const {
            scope: Some(value),
            path,
        },
    )
}

// A path and the words of another.
fn longer_path(path: ConstPath, link: ConstPath) -> Mem<ConstPath>
    ensures { IfOk result (λ made. made ≡ spec.longer_path path link) }
{
    let ConstPath {
        absolute,
        mut words,
    } = path;
    for word in link.words.into_vec() {
        words.push(word)?;
    }
    Ok(ConstPath { absolute, words })
}

/// A call whose arguments have no brackets.
pub(crate) fn command(
    alloc: Global,
    at: Span,
    nodes: &mut Queue<Boxed<Node>>,
    items: Option<Seq<Placed>>,
) -> Mem<Value>
    ensures { IfOk result (λ made. made ≡ value.Node (spec.command at nodes.old items)) }
{
    let called = next(alloc, nodes)?;
    let block = nodes.next();
    let args = optional_items(alloc, items)?;
    let Node { span, kind, .. } = called.into_inner();
    made(alloc, at, called_with(span, args, block, kind))
}

// What is called with arguments that have no brackets: a word, or a call without arguments.
fn called_with(span: Span, args: Seq<Item>, block: Option<Boxed<Node>>, kind: NodeKind) -> NodeKind
    ensures { result ≡ spec.called_with span args block (out-NodeKind kind) }
{
    match kind {
        NodeKind::Name(name) => NodeKind::Call {
            receiver: None,
            dot: Dot::Plain,
            method: MethodName { name, at: span },
            args,
            block,
        },
        NodeKind::Call {
            receiver,
            dot,
            method,
            args: none,
            block: missing,
        } => {
            drop(none);
            drop(missing);
            NodeKind::Call {
                receiver,
                dot,
                method,
                args,
                block,
            }
        }
        other => {
            drop(other);
            NodeKind::Nil
        }
    }
}

/// `super`, and `yield`.
pub(crate) fn yielded(
    alloc: Global,
    at: Span,
    word: RubyKind,
    items: Option<Seq<Placed>>,
    block: Option<Boxed<Node>>,
) -> Mem<Value>
    ensures { IfOk result (λ made. made ≡ value.Node (spec.yielded at word items block)) }
{
    if is_yield(word) {
        let args = optional_items(alloc, items)?;
        return made(alloc, at, NodeKind::Yield { args, block });
    }
    let args = items_or_none(alloc, items)?;
    made(alloc, at, NodeKind::Super { args, block })
}

fn items_or_none(alloc: Global, items: Option<Seq<Placed>>) -> Mem<Option<Seq<Item>>>
    ensures { IfOk result (λ made. made ≡ spec.items_or_none items) }
{
    match items {
        Some(items) => Ok(Some(plain_items(alloc, items)?)),
        None => Ok(None),
    }
}

/// A constant, where its word stands.
pub(crate) fn constant(
    alloc: Global,
    tokens: &[RubyToken],
    at: Span,
    absolute: bool,
    place: usize,
) -> Mem<Value>
    ensures { IfOk result (λ made. made ≡ value.Node (spec.constant tokens.now at absolute place)) }
{
    let word = text_at(alloc, tokens, place)?;
    const_of(alloc, at, absolute, word)
}

fn is_yield(kind: RubyKind) -> bool
    ensures { result ≡ spec.is_yield kind }
{
    matches!(kind, RubyKind::Keyword(Keyword::Yield))
}
