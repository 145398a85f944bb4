//! Operators between values, and before one.

ghost use Rattle.std.specs.Prelude.{◌≡◌, [], ◌∷◌, Some, None, IfOk};
ghost use Rattle.ruby_values.specs.declared.value.Value.TheVariants as value;
ghost use Rattle.ruby_values.specs.Making as making;
ghost use Rattle.ruby_tree.specs.declared.nodes.NodeKind.TheVariants as kind;
ghost use Rattle.ruby_tree.specs.declared.parts.Item.TheVariants as item;
ghost use Rattle.ruby_values.specs.Operators as spec;
ghost use Rattle.ruby_values.specs.Places as places;

use crate::making::{boxed, made, next};
use crate::places::{kind_at, span_at};
use crate::queue::Queue;
use crate::statements::{arm_of, one_arm};
use crate::value::Value;
use ruby_lexer::{Keyword, RubyKind, RubyToken, Sign};
use ruby_tree::{Dot, Item, MethodName, Node, NodeKind};
use src_text::{Boxed, Mem, Seq, Span, Text};
use std::alloc::Global;

/// What an operator between two values makes of them.
#[derive(Clone, Copy, Debug, PartialEq, Eq)]
pub(crate) enum Operator {
    And,
    Or,
    NotMatches,
    /// A call of a method.
    Method,
}

// What a token between two values stands for.
fn operator_of(kind: RubyKind) -> Operator
    ensures { result ≡ spec.operator_of kind }
{
    match kind {
        RubyKind::Sign(Sign::AmpersandAmpersand) | RubyKind::Keyword(Keyword::And) => Operator::And,
        RubyKind::Sign(Sign::BarBar) | RubyKind::Keyword(Keyword::Or) => Operator::Or,
        RubyKind::Sign(Sign::BangTilde) => Operator::NotMatches,
        _ => Operator::Method,
    }
}

// The method that a sign calls.
fn method_of(kind: RubyKind) -> &'static str
    ensures { result.now ≡ spec.method_of kind }
{
    match kind {
        RubyKind::Sign(sign) => sign_method(sign),
        RubyKind::Prefix(sign) => prefix_method(sign),
        _ => "",
    }
}

fn prefix_method(sign: Sign) -> &'static str
    ensures { result.now ≡ spec.prefix_method sign }
{
    match sign {
        Sign::Minus => "-@",
        Sign::Plus => "+@",
        _ => "",
    }
}

fn sign_method(sign: Sign) -> &'static str
    ensures { result.now ≡ spec.sign_method sign }
{
    match sign {
        Sign::EqualsEquals => "==",
        Sign::BangEquals => "!=",
        Sign::EqualsEqualsEquals => "===",
        Sign::EqualsTilde => "=~",
        Sign::BangTilde => "=~",
        Sign::Spaceship => "<=>",
        Sign::Less => "<",
        Sign::LessEquals => "<=",
        Sign::Greater => ">",
        Sign::GreaterEquals => ">=",
        Sign::Bar => "|",
        Sign::Caret => "^",
        Sign::Ampersand => "&",
        Sign::LessLess => "<<",
        Sign::GreaterGreater => ">>",
        Sign::Plus => "+",
        Sign::Minus => "-",
        Sign::Star => "*",
        Sign::Slash => "/",
        Sign::Percent => "%",
        Sign::StarStar => "**",
        Sign::Tilde => "~",
        _ => "",
    }
}

/// A method's name where a sign stands for it.
pub fn sign_name(alloc: Global, name: &str, at: Span) -> Mem<MethodName>
    ensures { IfOk result (λ made. made ≡ spec.sign_name name.now at) }
{
    let name = Text::from_str(alloc, name)?;
    Ok(MethodName { name, at })
}

/// Values with operators between them, from the left on.
pub fn operators(
    alloc: Global,
    tokens: &[RubyToken],
    leaves: &[usize],
    nodes: &mut Queue<Boxed<Node>>,
) -> Mem<Value>
    ensures { IfOk result (λ made. made ≡ value.Node (spec.operators tokens.now leaves.now nodes.old)) }
{
    let mut left = next(alloc, nodes)?;
    let mut rest = leaves;
    while let [place, more @ ..] = rest {
        let kind = kind_at(tokens, *place);
        if !is_newline(kind) {
            let right = next(alloc, nodes)?;
            left = operated(alloc, kind, span_at(tokens, *place), left, right)?;
        }
        rest = more;
    }
    Ok(Value::Node(left))
}

// Two values with an operator between them.
fn operated(
    alloc: Global,
    kind: RubyKind,
    sign: Span,
    left: Boxed<Node>,
    right: Boxed<Node>,
) -> Mem<Boxed<Node>>
    ensures { IfOk result (λ made. made ≡ spec.operated kind sign left right) }
{
    let at = Span {
        start: left.get().span.start,
        end: right.get().span.end,
    };
    match operator_of(kind) {
        Operator::And => boxed(alloc, at, NodeKind::And(left, right)),
        Operator::Or => boxed(alloc, at, NodeKind::Or(left, right)),
        Operator::NotMatches => {
            let call = sent(alloc, at, "=~", sign, left, right)?;
            boxed(alloc, at, NodeKind::Not(call))
        }
        Operator::Method => sent(alloc, at, method_of(kind), sign, left, right),
    }
}

/// A call with one argument, written by a sign.
pub fn sent(
    alloc: Global,
    at: Span,
    name: &str,
    sign: Span,
    left: Boxed<Node>,
    right: Boxed<Node>,
) -> Mem<Boxed<Node>>
    ensures { IfOk result (λ made. made ≡ spec.sent at name.now sign left right) }
{
    let method = sign_name(alloc, name, sign)?;
    let args = one_value(alloc, right)?;
    boxed(
        alloc,
        at,
        NodeKind::Call {
            receiver: Some(left),
            dot: Dot::Plain,
            method,
            args,
            block: None,
        },
    )
}

fn one_value(alloc: Global, value: Boxed<Node>) -> Mem<Seq<Item>>
    ensures { IfOk result (λ made. made ≡ item.Value value ∷ []) }
{
    let mut items = Seq::new(alloc);
    items.push(Item::Value(value.into_inner()))?;
    Ok(items)
}

/// An operator before a value.
pub fn prefixed(
    alloc: Global,
    tokens: &[RubyToken],
    at: Span,
    first: usize,
    nodes: &mut Queue<Boxed<Node>>,
) -> Mem<Value>
    ensures { IfOk result (λ made. made ≡ value.Node (spec.prefixed at (places.kind_at tokens.now first) (places.span_at tokens.now first) (making.first nodes.old))) }
{
    let value = next(alloc, nodes)?;
    let kind = kind_at(tokens, first);
    if negates(kind) {
        return made(alloc, at, NodeKind::Not(value));
    }
    let method = sign_name(alloc, method_of(kind), span_at(tokens, first))?;
    made(
        alloc,
        at,
        NodeKind::Call {
            receiver: Some(value),
            dot: Dot::Plain,
            method,
            args: Seq::new(alloc),
            block: None,
        },
    )
}

fn negates(kind: RubyKind) -> bool
    ensures { result ≡ spec.negates kind }
{
    matches!(
        kind,
        RubyKind::Sign(Sign::Bang) | RubyKind::Keyword(Keyword::Not)
    )
}

/// `defined? a`.
pub fn defined(alloc: Global, at: Span, nodes: &mut Queue<Boxed<Node>>) -> Mem<Value>
    ensures { IfOk result (λ made. made ≡ value.Node (making.node at (kind.Defined (making.first nodes.old)))) }
{
    let value = next(alloc, nodes)?;
    made(alloc, at, NodeKind::Defined(value))
}

/// `a ? b : c`.
pub fn choice(alloc: Global, at: Span, nodes: &mut Queue<Boxed<Node>>) -> Mem<Value>
    ensures { IfOk result (λ made. made ≡ value.Node (spec.choice at nodes.old)) }
{
    let condition = next(alloc, nodes)?;
    let body = next(alloc, nodes)?;
    let otherwise = next(alloc, nodes)?;
    let kind = one_arm(alloc, arm_of(condition, Some(body)), Some(otherwise))?;
    made(alloc, at, kind)
}

/// `a..b` and `a..`.
pub fn range(
    alloc: Global,
    at: Span,
    sign: RubyKind,
    nodes: &mut Queue<Boxed<Node>>,
    last: Option<Boxed<Node>>,
) -> Mem<Value>
    ensures { IfOk result (λ made. made ≡ value.Node (spec.range at sign (Some (making.first nodes.old)) last)) }
{
    let first = next(alloc, nodes)?;
    made(
        alloc,
        at,
        NodeKind::RangeOf {
            first: Some(first),
            last,
            without_last: is_short(sign),
        },
    )
}

/// `..b`.
pub fn range_to(
    alloc: Global,
    at: Span,
    sign: RubyKind,
    nodes: &mut Queue<Boxed<Node>>,
) -> Mem<Value>
    ensures { IfOk result (λ made. made ≡ value.Node (spec.range at sign None (Some (making.first nodes.old)))) }
{
    let last = next(alloc, nodes)?;
    made(
        alloc,
        at,
        NodeKind::RangeOf {
            first: None,
            last: Some(last),
            without_last: is_short(sign),
        },
    )
}

fn is_newline(kind: RubyKind) -> bool
    ensures { result ≡ spec.is_newline kind }
{
    matches!(kind, RubyKind::Newline)
}

fn is_short(kind: RubyKind) -> bool
    ensures { result ≡ spec.is_short kind }
{
    matches!(kind, RubyKind::Sign(Sign::DotDotDot))
}
