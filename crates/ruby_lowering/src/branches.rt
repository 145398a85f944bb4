//! `if`, `case` and `while`.

ghost use Rattle.std.specs.Prelude.{◌≡◌, ◌∷◌, IfOk};
ghost use Rattle.ruby_tree.specs.declared.nodes.NodeKind.TheVariants as kind;
ghost use Rattle.ruby_values.specs.declared.value.Value.TheVariants as value;
ghost use Rattle.ruby_values.specs.Making as making;
ghost use Rattle.ruby_lowering.specs.Branches as spec;

use ruby_items::items::elements;
use ruby_lexer::{Keyword, RubyKind};
use ruby_tree::{Arm, Node, NodeKind, When};
use ruby_values::making::{made, next, node};
use ruby_values::queue::Queue;
use ruby_values::statements::{arm_of, one_arm, unboxed};
use ruby_values::value::{Placed, PlacedArm, Value};
use src_text::{Boxed, Mem, Seq, Span};
use std::alloc::Global;

/// `if`.
pub(crate) fn if_form(
    alloc: Global,
    at: Span,
    nodes: &mut Queue<Boxed<Node>>,
    more: Seq<Arm>,
    otherwise: Option<Boxed<Node>>,
) -> Mem<Value>
    ensures { IfOk result (λ made. made ≡ value.Node (spec.if_form at nodes.old more otherwise)) }
{
    let arm = arm_in(alloc, nodes)?;
    let arms = with_first(alloc, arm, more)?;
    made(alloc, at, NodeKind::If { arms, otherwise })
}

// A condition and what is read where it holds.
fn arm_in(alloc: Global, nodes: &mut Queue<Boxed<Node>>) -> Mem<Arm>
    ensures { IfOk result (λ arm. arm ≡ spec.arm_in nodes.old) }
{
    let condition = next(alloc, nodes)?;
    let body = next(alloc, nodes)?;
    Ok(arm_of(condition, Some(body)))
}

fn with_first(alloc: Global, first: Arm, more: Seq<Arm>) -> Mem<Seq<Arm>>
    ensures { IfOk result (λ arms. arms ≡ first ∷ more) }
{
    let mut arms = Seq::new(alloc);
    arms.push(first)?;
    for arm in more.into_vec() {
        arms.push(arm)?;
    }
    Ok(arms)
}

/// `unless`: an `if` with its sides exchanged. Its `elsif` arms and its `else` are one `if` in its arm.
pub(crate) fn unless_form(
    alloc: Global,
    at: Span,
    nodes: &mut Queue<Boxed<Node>>,
    more: Seq<Arm>,
    more_start: u32,
    otherwise: Option<Boxed<Node>>,
) -> Mem<Value>
    ensures { IfOk result (λ made. made ≡ value.Node (spec.unless_form at nodes.old more more_start otherwise)) }
{
    let condition = next(alloc, nodes)?;
    let body = next(alloc, nodes)?;
    let other = other_side(at, more, more_start, otherwise);
    let arm = Arm {
        condition: condition.into_inner(),
        body: other,
    };
    let kind = one_arm(alloc, arm, Some(body))?;
    made(alloc, at, kind)
}

fn other_side(
    at: Span,
    more: Seq<Arm>,
    more_start: u32,
    otherwise: Option<Boxed<Node>>,
) -> Option<Node>
    ensures { result ≡ spec.other_side at more more_start otherwise }
{
    match more.as_slice() {
        [] => unboxed(otherwise),
        [_, ..] => Some(if_node(at, more, more_start, otherwise)),
    }
}

// The `if` of the `elsif` arms and the `else` of an `unless`.
fn if_node(at: Span, arms: Seq<Arm>, start: u32, otherwise: Option<Boxed<Node>>) -> Node
    ensures { result ≡ making.node (record { start = start; end = at.end }) (kind.If arms otherwise) }
{
    let span = Span { start, end: at.end };
    node(span, NodeKind::If { arms, otherwise })
}

/// `elsif`.
pub(crate) fn elsif(alloc: Global, at: Span, nodes: &mut Queue<Boxed<Node>>) -> Mem<Value>
    ensures { IfOk result (λ made. made ≡ value.Arm (record { arm = spec.arm_in nodes.old; start = at.start })) }
{
    let arm = arm_in(alloc, nodes)?;
    let placed = PlacedArm {
        arm,
        start: at.start,
    };
    Ok(Value::Arm(Boxed::new(alloc, placed)?))
}

/// `case`.
pub(crate) fn case_form(
    alloc: Global,
    at: Span,
    subject: Option<Boxed<Node>>,
    arms: Seq<When>,
    otherwise: Option<Boxed<Node>>,
) -> Mem<Value>
    ensures { IfOk result (λ made. made ≡ value.Node (making.node at (kind.Case subject arms otherwise))) }
{
    made(
        alloc,
        at,
        NodeKind::Case {
            subject,
            arms,
            otherwise,
        },
    )
}

/// `when`.
pub(crate) fn when(
    alloc: Global,
    items: Option<Seq<Placed>>,
    nodes: &mut Queue<Boxed<Node>>,
) -> Mem<Value>
    ensures { IfOk result (λ made. made ≡ value.When (spec.when_of items (making.first nodes.old))) }
{
    let values = elements(alloc, items)?;
    let body = next(alloc, nodes)?;
    let when = When {
        values,
        body: body.into_inner(),
    };
    Ok(Value::When(Boxed::new(alloc, when)?))
}

/// `while` and `until`.
pub(crate) fn while_form(
    alloc: Global,
    at: Span,
    word: RubyKind,
    nodes: &mut Queue<Boxed<Node>>,
) -> Mem<Value>
    ensures { IfOk result (λ made. made ≡ value.Node (spec.while_form at word nodes.old)) }
{
    let condition = next(alloc, nodes)?;
    let body = next(alloc, nodes)?;
    made(
        alloc,
        at,
        NodeKind::While {
            condition,
            negated: is_until(word),
            body,
        },
    )
}

/// `return`, `break` and `next`.
pub(crate) fn returned(alloc: Global, at: Span, word: RubyKind, values: Seq<Node>) -> Mem<Value>
    ensures { IfOk result (λ made. made ≡ value.Node (spec.returned at word values)) }
{
    made(alloc, at, returned_kind(word, values))
}

fn returned_kind(word: RubyKind, values: Seq<Node>) -> NodeKind
    ensures { result ≡ spec.returned_kind word values }
{
    match word {
        RubyKind::Keyword(Keyword::Break) => NodeKind::Break(values),
        RubyKind::Keyword(Keyword::Next) => NodeKind::Next(values),
        _ => NodeKind::Return(values),
    }
}

fn is_until(kind: RubyKind) -> bool
    ensures { result ≡ spec.is_until kind }
{
    matches!(kind, RubyKind::Keyword(Keyword::Until))
}
