//! Nodes whose forms are refused.

ghost use Rattle.std.specs.Prelude.{◌≡◌, map, Some};
ghost use Rattle.std.specs.Option.{option_copied, option_map};
ghost use Rattle.ruby_parser.specs.Refused as spec;

use ruby_lexer::Form;
use ruby_tree::{Arm, Item, Node, NodeKind, Param, Part, Rescue, Target, When};
use src_text::{Boxed, Span};

/// A node that is refused: where it stands, and its form.
#[derive(Clone, Copy, Debug, PartialEq, Eq)]
pub(crate) struct Refused {
    pub(crate) at: Span,
    pub(crate) form: Form,
}

/// The first of two: the one that begins first, of two with one start the outer.
pub(crate) fn first_of(one: Option<Refused>, other: Option<Refused>) -> Option<Refused>
    ensures { result ≡ spec.first_of one other }
{
    match (one, other) {
        (None, other) => other,
        (Some(one), None) => Some(one),
        (Some(one), Some(other)) => Some(first_refused(one, other)),
    }
}

fn first_refused(one: Refused, other: Refused) -> Refused
    ensures { result ≡ spec.first_refused one other }
{
    if comes_before(other.at, one.at) {
        return other;
    }
    one
}

fn comes_before(one: Span, other: Span) -> bool
    ensures { result ≡ spec.comes_before one other }
{
    if one.start == other.start {
        return one.end > other.end;
    }
    one.start < other.start
}

const REFUSED_CALLS: [(&str, Form); 7] = [
    ("using", Form::Using),
    ("refine", Form::Refine),
    ("define_method", Form::DefineMethod),
    ("eval", Form::Eval),
    ("instance_eval", Form::InstanceEval),
    ("class_eval", Form::ClassEval),
    ("module_eval", Form::ModuleEval),
];

const REFUSED_DEFINITIONS: [(&str, Form); 1] = [("method_missing", Form::MethodMissing)];

// The form that a table has for a name.
fn form_named(name: &str, table: &[(&str, Form)]) -> Option<Form>
    ensures { result ≡ spec.form_named name.now (map (λ e. (e.0.now, e.1)) table.now) }
{
    for (key, form) in table {
        if name == *key {
            return Some(*form);
        }
    }
    None
}

// The form for which a call of a method is refused.
fn called_form(name: &str) -> Option<Form>
    ensures { result ≡ spec.form_named name.now spec.refused_calls }
{
    form_named(name, &REFUSED_CALLS)
}

// The form for which a definition of a method is refused.
fn defined_form(name: &str) -> Option<Form>
    ensures { result ≡ spec.form_named name.now spec.refused_definitions }
{
    form_named(name, &REFUSED_DEFINITIONS)
}

// The form of a node that is refused for what it is.
fn own_form(kind: &NodeKind) -> Option<Form>
    ensures { result ≡ (spec.kinds_in kind.now).own }
{
    match kind {
        NodeKind::Call { method, .. } => called_form(method.name.as_str()),
        NodeKind::Def { method, .. } => defined_form(method.name.as_str()),
        _ => None,
    }
}

fn with_form(at: Span, form: Option<Form>) -> Option<Refused>
    ensures { result ≡ spec.with_form at form }
{
    match form {
        Some(form) => Some(Refused { at, form }),
        None => None,
    }
}

fn is_range(kind: &NodeKind) -> bool
    ensures { result ≡ (spec.kinds_in kind.now).range }
{
    matches!(kind, NodeKind::RangeOf { .. })
}

// A condition that is a range itself.
fn flip_flop(node: &Node) -> Option<Refused>
    ensures { result ≡ spec.flip_flop node.now.span (spec.kinds_in node.now.kind).range }
{
    if is_range(&node.kind) {
        return Some(Refused {
            at: node.span,
            form: Form::FlipFlop,
        });
    }
    None
}

/// The first refused node of a tree.
#[cycle(refused)]
pub(crate) fn refused_in(node: &Node) -> Option<Refused>
    ensures { result ≡ spec.refused_in node.now }
{
    first_of(
        with_form(node.span, own_form(&node.kind)),
        in_kind(&node.kind),
    )
}

#[cycle(refused)]
fn in_condition(node: &Node) -> Option<Refused>
    ensures { result ≡ spec.in_condition node.now }
{
    first_of(flip_flop(node), refused_in(node))
}

#[cycle(refused)]
fn in_kind(kind: &NodeKind) -> Option<Refused>
    ensures { result ≡ (spec.kinds_in kind.now).refused }
{
    match kind {
        NodeKind::StrParts(parts) => in_parts(parts.as_slice()),
        NodeKind::SymParts(parts) => in_parts(parts.as_slice()),
        NodeKind::Regexp { parts, .. } => in_parts(parts.as_slice()),
        NodeKind::Const { scope, .. } => in_option(scope),
        NodeKind::ArrayOf(items) => in_items(items.as_slice()),
        NodeKind::HashOf(items) => in_items(items.as_slice()),
        NodeKind::RangeOf { first, last, .. } => first_of(in_option(first), in_option(last)),
        NodeKind::Asgn { target, value } => first_of(in_target(target), refused_in(value.get())),
        NodeKind::MultiAsgn { values, .. } => in_nodes(values.as_slice()),
        NodeKind::Call {
            receiver,
            args,
            block,
            ..
        } => first_of(
            in_option(receiver),
            first_of(in_items(args.as_slice()), in_option(block)),
        ),
        NodeKind::AsgnCall { receiver, args, .. } => first_of(
            refused_in(receiver.get()),
            in_items(args.as_slice()),
        ),
        NodeKind::Block { params, body } => first_of(
            in_params(params.as_slice()),
            refused_in(body.get()),
        ),
        NodeKind::BlockPass(value) => refused_in(value.get()),
        NodeKind::Super {
            args: Some(args),
            block,
        } => first_of(in_items(args.as_slice()), in_option(block)),
        NodeKind::Super { args: None, block } => in_option(block),
        NodeKind::Yield { args, block } => first_of(in_items(args.as_slice()), in_option(block)),
        NodeKind::And(left, right) => first_of(refused_in(left.get()), refused_in(right.get())),
        NodeKind::Or(left, right) => first_of(refused_in(left.get()), refused_in(right.get())),
        NodeKind::Not(value) => refused_in(value.get()),
        NodeKind::Defined(value) => refused_in(value.get()),
        NodeKind::If { arms, otherwise } => first_of(
            in_arms(arms.as_slice()),
            in_option(otherwise),
        ),
        NodeKind::Case {
            subject,
            arms,
            otherwise,
        } => first_of(
            in_option(subject),
            first_of(in_whens(arms.as_slice()), in_option(otherwise)),
        ),
        NodeKind::While {
            condition,
            body,
            ..
        } => first_of(in_condition(condition.get()), refused_in(body.get())),
        NodeKind::Return(values) => in_nodes(values.as_slice()),
        NodeKind::Break(values) => in_nodes(values.as_slice()),
        NodeKind::Next(values) => in_nodes(values.as_slice()),
        NodeKind::Begin {
            body,
            rescues,
            otherwise,
            ensure,
        } => first_of(
            first_of(refused_in(body.get()), in_rescues(rescues.as_slice())),
            first_of(in_option(otherwise), in_option(ensure)),
        ),
        NodeKind::Seq(nodes) => in_nodes(nodes.as_slice()),
        NodeKind::Lambda { params, body } => first_of(
            in_params(params.as_slice()),
            refused_in(body.get()),
        ),
        NodeKind::Def { params, body, .. } => first_of(
            in_params(params.as_slice()),
            refused_in(body.get()),
        ),
        NodeKind::ClassBody {
            superclass,
            body,
            ..
        } => first_of(in_option(superclass), refused_in(body.get())),
        NodeKind::ModuleBody { body, .. } => refused_in(body.get()),
        NodeKind::SingletonBody(body) => refused_in(body.get()),
        NodeKind::Nil => None,
        NodeKind::True => None,
        NodeKind::False => None,
        NodeKind::Int(_) => None,
        NodeKind::Str(_) => None,
        NodeKind::Sym(_) => None,
        NodeKind::File => None,
        NodeKind::Words { .. } => None,
        NodeKind::SelfRef => None,
        NodeKind::Name(_) => None,
        NodeKind::IVar(_) => None,
        NodeKind::CVar(_) => None,
        NodeKind::GVar(_) => None,
        NodeKind::AliasOf { .. } => None,
    }
}

#[cycle(refused)]
fn in_option(node: &Option<Boxed<Node>>) -> Option<Refused>
    ensures { result ≡ spec.in_option (option_map spec.found_in node.now) }
{
    match node {
        Some(node) => refused_in(node.get()),
        None => None,
    }
}

#[cycle(refused)]
fn in_nodes(nodes: &[Node]) -> Option<Refused>
    ensures { result ≡ spec.in_list (map spec.found_in nodes.now) }
{
    let mut found = None;
    for node in nodes {
        found = first_of(found, refused_in(node));
    }
    found
}

#[cycle(refused)]
fn in_items(items: &[Item]) -> Option<Refused>
    ensures { result ≡ spec.firsts (map spec.in_item items.now) }
{
    let mut found = None;
    for item in items {
        found = first_of(found, in_item(item));
    }
    found
}

#[cycle(refused)]
fn in_item(item: &Item) -> Option<Refused>
    ensures { result ≡ spec.in_item item.now }
{
    match item {
        Item::Value(node) => refused_in(node),
        Item::Splat(node) => refused_in(node),
        Item::DoubleSplat(node) => refused_in(node),
        Item::Label { value, .. } => refused_in(value),
        Item::Pair { key, value } => first_of(refused_in(key), refused_in(value)),
    }
}

#[cycle(refused)]
fn in_parts(parts: &[Part]) -> Option<Refused>
    ensures { result ≡ spec.firsts (map spec.in_part parts.now) }
{
    let mut found = None;
    for part in parts {
        found = first_of(found, in_part(part));
    }
    found
}

#[cycle(refused)]
fn in_part(part: &Part) -> Option<Refused>
    ensures { result ≡ spec.in_part part.now }
{
    match part {
        Part::Text(_) => None,
        Part::Code(node) => refused_in(node),
    }
}

#[cycle(refused)]
fn in_target(target: &Target) -> Option<Refused>
    ensures { result ≡ spec.in_target target.now }
{
    match target {
        Target::Const { scope, .. } => in_option(scope),
        _ => None,
    }
}

#[cycle(refused)]
fn in_params(params: &[Param]) -> Option<Refused>
    ensures { result ≡ spec.firsts (map spec.in_param params.now) }
{
    let mut found = None;
    for param in params {
        found = first_of(found, in_param(param));
    }
    found
}

#[cycle(refused)]
fn in_param(param: &Param) -> Option<Refused>
    ensures { result ≡ spec.in_param param.now }
{
    match param {
        Param::Optional { default, .. } => refused_in(default),
        Param::OptionalKeyword { default, .. } => refused_in(default),
        _ => None,
    }
}

#[cycle(refused)]
fn in_arms(arms: &[Arm]) -> Option<Refused>
    ensures { result ≡ spec.firsts (map spec.in_arm arms.now) }
{
    let mut found = None;
    for arm in arms {
        found = first_of(found, in_arm(arm));
    }
    found
}

#[cycle(refused)]
fn in_arm(arm: &Arm) -> Option<Refused>
    ensures { result ≡ spec.in_arm arm.now }
{
    first_of(in_condition(&arm.condition), in_side(&arm.body))
}

#[cycle(refused)]
fn in_side(node: &Option<Node>) -> Option<Refused>
    ensures { result ≡ spec.in_option (option_map spec.found_in node.now) }
{
    match node {
        Some(node) => refused_in(node),
        None => None,
    }
}

#[cycle(refused)]
fn in_whens(whens: &[When]) -> Option<Refused>
    ensures { result ≡ spec.firsts (map spec.in_when whens.now) }
{
    let mut found = None;
    for when in whens {
        found = first_of(found, in_when(when));
    }
    found
}

#[cycle(refused)]
fn in_when(when: &When) -> Option<Refused>
    ensures { result ≡ spec.in_when when.now }
{
    first_of(in_items(when.values.as_slice()), refused_in(&when.body))
}

#[cycle(refused)]
fn in_rescues(rescues: &[Rescue]) -> Option<Refused>
    ensures { result ≡ spec.firsts (map spec.in_rescue rescues.now) }
{
    let mut found = None;
    for rescue in rescues {
        found = first_of(found, in_rescue(rescue));
    }
    found
}

#[cycle(refused)]
fn in_rescue(rescue: &Rescue) -> Option<Refused>
    ensures { result ≡ spec.in_rescue rescue.now }
{
    first_of(
        in_nodes(rescue.classes.as_slice()),
        refused_in(&rescue.body),
    )
}
