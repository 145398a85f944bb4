//! Statements, one behind the other and with modifiers.

ghost use Rattle.std.specs.Prelude.{◌≡◌, [], ◌∷◌, ◌++◌, IfOk, OnOk};
ghost use Rattle.std.specs.Option.{option_copied};
ghost use Rattle.ruby_values.specs.declared.value.Value.TheVariants as value;
ghost use Rattle.ruby_values.specs.Making as making;
ghost use Rattle.ruby_values.specs.Statements as spec;

use crate::lists::with_room_among;
use crate::making::{boxed, made, next};
use crate::places::end_before;
use crate::queue::Queue;
use crate::value::{Modifier, ModifierWord, Value};
use ruby_lexer::{Keyword, RubyKind, RubyToken};
use ruby_tree::{Arm, MethodName, Node, NodeKind, Rescue};
use src_text::{Boxed, Mem, Seq, Span};
use std::alloc::Global;

/// The nodes among values.
pub fn nodes_among(alloc: Global, values: Seq<Value>) -> Mem<Seq<Node>>
    ensures { IfOk result (λ nodes. nodes ≡ spec.nodes_among values) }
{
    let mut nodes = with_room_among(alloc, values.len())?;
    for value in values.into_vec() {
        add_node(&mut nodes, value)?;
    }
    Ok(nodes)
}

fn add_node(nodes: &mut Seq<Node>, value: Value) -> Mem<()>
    ensures { OnOk result (nodes.new ≡ nodes.old ++ spec.node_among value) }
{
    match value {
        Value::Node(node) => nodes.push(node.into_inner()),
        _ => Ok(()),
    }
}

/// The span from the first node's start to the last one's end, and an empty one where there is none.
pub fn span_of_nodes(nodes: &[Node], otherwise: u32) -> Span
    ensures { result ≡ spec.span_of_nodes nodes.now otherwise }
{
    Span {
        start: start_or(otherwise, nodes.get(0)),
        end: end_or(otherwise, nodes.last()),
    }
}

fn start_or(otherwise: u32, node: Option<&Node>) -> u32
    ensures { result ≡ spec.start_or otherwise (option_copied node.entry) }
{
    match node {
        Some(node) => node.span.start,
        None => otherwise,
    }
}

fn end_or(otherwise: u32, node: Option<&Node>) -> u32
    ensures { result ≡ spec.end_or otherwise (option_copied node.entry) }
{
    match node {
        Some(node) => node.span.end,
        None => otherwise,
    }
}

/// Statements one behind the other. Where there are none, they stand at the end of the token before their place.
pub fn statements(
    alloc: Global,
    tokens: &[RubyToken],
    first: usize,
    values: Seq<Value>,
) -> Mem<Value>
    ensures { IfOk result (λ made. made ≡ spec.statements tokens.now first values) }
{
    let nodes = nodes_among(alloc, values)?;
    let at = span_of_nodes(nodes.as_slice(), end_before(tokens, first));
    made(alloc, at, NodeKind::Seq(nodes))
}

/// A node with another span.
pub fn placed_at(alloc: Global, at: Span, nodes: &mut Queue<Boxed<Node>>) -> Mem<Value>
    ensures { IfOk result (λ made. made ≡ value.Node (spec.placed_at at (making.first nodes.old))) }
{
    let Node { kind, .. } = next(alloc, nodes)?.into_inner();
    made(alloc, at, kind)
}

/// A statement with its modifiers.
pub fn modified(
    alloc: Global,
    nodes: &mut Queue<Boxed<Node>>,
    modifiers: Seq<Modifier>,
) -> Mem<Value>
    ensures { IfOk result (λ made. made ≡ value.Node (spec.modified (making.first nodes.old) modifiers)) }
{
    let mut statement = next(alloc, nodes)?;
    for modifier in modifiers.into_vec() {
        statement = with_modifier(alloc, statement, modifier)?;
    }
    Ok(Value::Node(statement))
}

// A statement with a modifier.
fn with_modifier(alloc: Global, statement: Boxed<Node>, modifier: Modifier) -> Mem<Boxed<Node>>
    ensures { IfOk result (λ made. made ≡ spec.with_modifier statement modifier) }
{
    let Modifier { word, other } = modifier;
    let at = Span {
        start: statement.get().span.start,
        end: other.get().span.end,
    };
    let kind = modified_by(alloc, word, statement, other)?;
    boxed(alloc, at, kind)
}

// What a modifier makes of a statement.
fn modified_by(
    alloc: Global,
    word: ModifierWord,
    statement: Boxed<Node>,
    other: Boxed<Node>,
) -> Mem<NodeKind>
    ensures { IfOk result (λ made. made ≡ spec.modified_by word statement other) }
{
    match word {
        ModifierWord::If => one_arm(alloc, arm_of(other, Some(statement)), None),
        ModifierWord::Unless => one_arm(alloc, arm_of(other, None), Some(statement)),
        ModifierWord::While => Ok(NodeKind::While {
            condition: other,
            negated: false,
            body: statement,
        }),
        ModifierWord::Until => Ok(NodeKind::While {
            condition: other,
            negated: true,
            body: statement,
        }),
        ModifierWord::Rescue => rescued(alloc, statement, other),
    }
}

/// A condition and what is read where it holds.
pub fn arm_of(condition: Boxed<Node>, body: Option<Boxed<Node>>) -> Arm
    ensures { result ≡ spec.arm_of condition body }
{
    Arm {
        condition: condition.into_inner(),
        body: unboxed(body),
    }
}

/// A node that may be missing, without its box.
pub fn unboxed(node: Option<Boxed<Node>>) -> Option<Node>
    ensures { result ≡ node }
{
    match node {
        Some(node) => Some(node.into_inner()),
        None => None,
    }
}

/// An `If` of one arm.
pub fn one_arm(alloc: Global, arm: Arm, otherwise: Option<Boxed<Node>>) -> Mem<NodeKind>
    ensures { IfOk result (λ made. made ≡ spec.one_arm arm otherwise) }
{
    let arms = arms_of(alloc, arm)?;
    Ok(NodeKind::If { arms, otherwise })
}

fn arms_of(alloc: Global, arm: Arm) -> Mem<Seq<Arm>>
    ensures { IfOk result (λ arms. arms ≡ arm ∷ []) }
{
    let mut arms = Seq::new(alloc);
    arms.push(arm)?;
    Ok(arms)
}

// A statement with the modifier `rescue`.
fn rescued(alloc: Global, statement: Boxed<Node>, other: Boxed<Node>) -> Mem<NodeKind>
    ensures { IfOk result (λ made. made ≡ spec.rescued statement other) }
{
    let mut rescues = Seq::new(alloc);
    rescues.push(Rescue {
        classes: Seq::new(alloc),
        variable: None,
        body: other.into_inner(),
    })?;
    Ok(NodeKind::Begin {
        body: statement,
        rescues,
        otherwise: None,
        ensure: None,
    })
}

/// A modifier.
pub fn modifier(alloc: Global, word: ModifierWord, nodes: &mut Queue<Boxed<Node>>) -> Mem<Value>
    ensures { IfOk result (λ made. made ≡ value.Modifier (record { word = word; other = making.first nodes.old })) }
{
    let other = next(alloc, nodes)?;
    Ok(Value::Modifier(Modifier { word, other }))
}

/// The word of a modifier, by its token.
pub fn modifier_word(kind: RubyKind) -> ModifierWord
    ensures { result ≡ spec.modifier_word kind }
{
    match kind {
        RubyKind::Keyword(Keyword::Unless) => ModifierWord::Unless,
        RubyKind::Keyword(Keyword::While) => ModifierWord::While,
        RubyKind::Keyword(Keyword::Until) => ModifierWord::Until,
        RubyKind::Keyword(Keyword::Rescue) => ModifierWord::Rescue,
        _ => ModifierWord::If,
    }
}

/// `alias`.
pub fn alias(alloc: Global, at: Span, names: &mut Queue<MethodName>) -> Mem<Value>
    ensures { IfOk result (λ made. made ≡ spec.alias at names.old) }
{
    match (names.next(), names.next()) {
        (Some(new_name), Some(old_name)) => made(
            alloc,
            at,
            NodeKind::AliasOf { new_name, old_name },
        ),
        _ => made(alloc, at, NodeKind::Nil),
    }
}
