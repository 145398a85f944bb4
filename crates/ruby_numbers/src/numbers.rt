//! Numbers of nodes, in the order of the text.

ghost use Rattle.std.specs.Prelude.{◌≡◌, ◌+◌, [], ◌∷◌, map, Ok, IfOk, IfErr, OnOk};
ghost use Rattle.std.specs.Option.{option_map};
ghost use Rattle.ruby_numbers.specs.Numbers as spec;
ghost use Rattle.ruby_tree.specs.declared.nodes.NodeKind.TheVariants as kind;

use ruby_tree::{Arm, Item, Node, NodeKind, Param, Part, Rescue, Target, When};
use src_text::{Boxed, Mem, NoMemory, Seq};
use std::alloc::Global;

// The values of two calls, where both had memory.
fn both<A: Drop, B: Drop>(first: Mem<A>, second: Mem<B>) -> Mem<(A, B)>
    ensures first { IfOk result (λ values. first ≡ Ok values.0) }
    ensures second { IfOk result (λ values. second ≡ Ok values.1) }
{
    match (first, second) {
        (Ok(first), Ok(second)) => Ok((first, second)),
        _ => Err(NoMemory),
    }
}

// Takes the next number. More numbers than there are is answered as for want of memory.
fn take(next: &mut u32) -> Mem<u32>
    ensures number { IfOk result (λ number. number ≡ next.old) }
    ensures next { OnOk result (next.new ≡ next.old + 1) }
{
    let number = *next;
    match number.checked_add(1) {
        Some(behind) => {
            *next = behind;
            Ok(number)
        }
        None => Err(NoMemory),
    }
}

// An empty list with room for so many items.
fn with_room<T>(alloc: Global, items: usize) -> Mem<Seq<T>>
    ensures { IfOk result (λ list. list ≡ []) }
{
    let items = Vec::with_capacity(alloc, items)?;
    Ok(Seq::from_vec(items))
}

// Where a part begins, if it is there.
fn start_of(node: &Option<Boxed<Node>>) -> Option<u32>
    ensures { result ≡ spec.start_in (option_map spec.begun_in node.now) }
{
    match node {
        Some(node) => Some(node.get().span.start),
        None => None,
    }
}

fn start_of_side(node: &Option<Node>) -> Option<u32>
    ensures { result ≡ spec.start_in (option_map spec.begun_in node.now) }
{
    match node {
        Some(node) => Some(node.span.start),
        None => None,
    }
}

fn begins_before(one: Option<u32>, other: Option<u32>) -> bool
    ensures { result ≡ spec.begins_before one other }
{
    match (one, other) {
        (Some(one), Some(other)) => one < other,
        _ => false,
    }
}

fn sides_before(condition: u32, body: Option<u32>, otherwise: Option<u32>) -> bool
    ensures { result ≡ spec.sides_before condition body otherwise }
{
    begins_before(body, Some(condition)) || begins_before(otherwise, Some(condition))
}

// The arm that stands alone in a list, or the list.
fn only(arms: Seq<Arm>) -> Result<Arm, Seq<Arm>>
    ensures only { result ≡ spec.only arms }
    ensures one { IfOk result (λ arm. arms ≡ arm ∷ []) }
    ensures many { IfErr result (λ rest. arms ≡ rest) }
{
    if arms.len() != 1 {
        return Err(arms);
    }
    let mut items = arms.into_vec();
    match items.pop() {
        Some(arm) => Ok(arm),
        None => Err(Seq::from_vec(items)),
    }
}

// A list of one arm.
fn one_arm(alloc: Global, arm: Arm) -> Mem<Seq<Arm>>
    ensures { IfOk result (λ arms. arms ≡ arm ∷ []) }
{
    let mut arms = Seq::new(alloc);
    arms.push(arm)?;
    Ok(arms)
}

/// A tree whose nodes have numbers from the next one on, each before those in it.
#[cycle(numbering)]
pub fn numbered(alloc: Global, node: Node, next: &mut u32) -> Mem<Node>
    ensures made { IfOk result (λ made. made ≡ (spec.node_numbered node next.old).0) }
    ensures next { OnOk result (next.new ≡ (spec.node_numbered node next.old).1) }
{
    let Node { span, kind, .. } = node;
    let number = take(next);
    let kind = in_kind(alloc, kind, next);
    let (number, kind) = both(number, kind)?;
    Ok(Node { span, number, kind })
}

#[cycle(numbering)]
fn in_box(alloc: Global, node: Boxed<Node>, next: &mut u32) -> Mem<Boxed<Node>>
    ensures made { IfOk result (λ made. made ≡ (spec.node_numbered node next.old).0) }
    ensures next { OnOk result (next.new ≡ (spec.node_numbered node next.old).1) }
{
    let node = numbered(alloc, node.into_inner(), next)?;
    Boxed::new(alloc, node)
}

#[cycle(numbering)]
fn in_option(alloc: Global, node: Option<Boxed<Node>>, next: &mut u32) -> Mem<Option<Boxed<Node>>>
    ensures made { IfOk result (λ made. made ≡ (spec.node_option (option_map spec.begun_in node) next.old).0) }
    ensures next { OnOk result (next.new ≡ (spec.node_option (option_map spec.begun_in node) next.old).1) }
{
    match node {
        Some(node) => {
            let node = numbered(alloc, node.into_inner(), next)?;
            Ok(Some(Boxed::new(alloc, node)?))
        }
        None => Ok(None),
    }
}

#[cycle(numbering)]
fn in_side(alloc: Global, node: Option<Node>, next: &mut u32) -> Mem<Option<Node>>
    ensures made { IfOk result (λ made. made ≡ (spec.node_option (option_map spec.begun_in node) next.old).0) }
    ensures next { OnOk result (next.new ≡ (spec.node_option (option_map spec.begun_in node) next.old).1) }
{
    match node {
        Some(node) => Ok(Some(numbered(alloc, node, next)?)),
        None => Ok(None),
    }
}

#[cycle(numbering)]
fn in_nodes(alloc: Global, nodes: Seq<Node>, next: &mut u32) -> Mem<Seq<Node>>
    ensures made { IfOk result (λ made. made ≡ (spec.nodes_row (map spec.begun_in nodes) next.old).0) }
    ensures next { OnOk result (next.new ≡ (spec.nodes_row (map spec.begun_in nodes) next.old).1) }
{
    let mut done = with_room(alloc, nodes.len())?;
    for node in nodes.into_vec() {
        done.push(numbered(alloc, node, next)?)?;
    }
    Ok(done)
}

#[cycle(numbering)]
fn in_items(alloc: Global, items: Seq<Item>, next: &mut u32) -> Mem<Seq<Item>>
    ensures made { IfOk result (λ made. made ≡ (spec.row (map spec.item_numbered items) next.old).0) }
    ensures next { OnOk result (next.new ≡ (spec.row (map spec.item_numbered items) next.old).1) }
{
    let mut done = with_room(alloc, items.len())?;
    for item in items.into_vec() {
        done.push(in_item(alloc, item, next)?)?;
    }
    Ok(done)
}

#[cycle(numbering)]
fn in_parts(alloc: Global, parts: Seq<Part>, next: &mut u32) -> Mem<Seq<Part>>
    ensures made { IfOk result (λ made. made ≡ (spec.row (map spec.part_numbered parts) next.old).0) }
    ensures next { OnOk result (next.new ≡ (spec.row (map spec.part_numbered parts) next.old).1) }
{
    let mut done = with_room(alloc, parts.len())?;
    for part in parts.into_vec() {
        done.push(in_part(alloc, part, next)?)?;
    }
    Ok(done)
}

#[cycle(numbering)]
fn in_params(alloc: Global, params: Seq<Param>, next: &mut u32) -> Mem<Seq<Param>>
    ensures made { IfOk result (λ made. made ≡ (spec.row (map spec.param_numbered params) next.old).0) }
    ensures next { OnOk result (next.new ≡ (spec.row (map spec.param_numbered params) next.old).1) }
{
    let mut done = with_room(alloc, params.len())?;
    for param in params.into_vec() {
        done.push(in_param(alloc, param, next)?)?;
    }
    Ok(done)
}

#[cycle(numbering)]
fn in_arms(alloc: Global, arms: Seq<Arm>, next: &mut u32) -> Mem<Seq<Arm>>
    ensures made { IfOk result (λ made. made ≡ (spec.row_by spec.arm_number (map spec.sides_in arms) next.old).0) }
    ensures next { OnOk result (next.new ≡ (spec.row_by spec.arm_number (map spec.sides_in arms) next.old).1) }
{
    let mut done = with_room(alloc, arms.len())?;
    for arm in arms.into_vec() {
        done.push(in_arm(alloc, arm, next)?)?;
    }
    Ok(done)
}

#[cycle(numbering)]
fn in_whens(alloc: Global, whens: Seq<When>, next: &mut u32) -> Mem<Seq<When>>
    ensures made { IfOk result (λ made. made ≡ (spec.row (map spec.when_numbered whens) next.old).0) }
    ensures next { OnOk result (next.new ≡ (spec.row (map spec.when_numbered whens) next.old).1) }
{
    let mut done = with_room(alloc, whens.len())?;
    for when in whens.into_vec() {
        done.push(in_when(alloc, when, next)?)?;
    }
    Ok(done)
}

#[cycle(numbering)]
fn in_rescues(alloc: Global, rescues: Seq<Rescue>, next: &mut u32) -> Mem<Seq<Rescue>>
    ensures made { IfOk result (λ made. made ≡ (spec.row (map spec.rescue_numbered rescues) next.old).0) }
    ensures next { OnOk result (next.new ≡ (spec.row (map spec.rescue_numbered rescues) next.old).1) }
{
    let mut done = with_room(alloc, rescues.len())?;
    for rescue in rescues.into_vec() {
        done.push(in_rescue(alloc, rescue, next)?)?;
    }
    Ok(done)
}

#[cycle(numbering)]
fn in_kind(alloc: Global, kind: NodeKind, next: &mut u32) -> Mem<NodeKind>
    ensures made { IfOk result (λ made. made ≡ (spec.kind_numbered kind next.old).0) }
    ensures next { OnOk result (next.new ≡ (spec.kind_numbered kind next.old).1) }
{
    match kind {
        NodeKind::Nil => Ok(NodeKind::Nil),
        NodeKind::True => Ok(NodeKind::True),
        NodeKind::False => Ok(NodeKind::False),
        NodeKind::Int(value) => Ok(NodeKind::Int(value)),
        NodeKind::Str(text) => Ok(NodeKind::Str(text)),
        NodeKind::Sym(text) => Ok(NodeKind::Sym(text)),
        NodeKind::StrParts(parts) => {
            let parts = in_parts(alloc, parts, next)?;
            Ok(NodeKind::StrParts(parts))
        }
        NodeKind::SymParts(parts) => {
            let parts = in_parts(alloc, parts, next)?;
            Ok(NodeKind::SymParts(parts))
        }
        NodeKind::Regexp { parts, flags } => {
            let parts = in_parts(alloc, parts, next)?;
            Ok(NodeKind::Regexp { parts, flags })
        }
        NodeKind::File => Ok(NodeKind::File),
        NodeKind::Words { kind, words } => Ok(NodeKind::Words { kind, words }),
        NodeKind::SelfRef => Ok(NodeKind::SelfRef),
        NodeKind::Name(name) => Ok(NodeKind::Name(name)),
        NodeKind::IVar(name) => Ok(NodeKind::IVar(name)),
        NodeKind::CVar(name) => Ok(NodeKind::CVar(name)),
        NodeKind::GVar(name) => Ok(NodeKind::GVar(name)),
        NodeKind::Const { scope, path } => {
            let scope = in_option(alloc, scope, next)?;
            Ok(NodeKind::Const { scope, path })
        }
        NodeKind::ArrayOf(items) => {
            let items = in_items(alloc, items, next)?;
            Ok(NodeKind::ArrayOf(items))
        }
        NodeKind::HashOf(items) => {
            let items = in_items(alloc, items, next)?;
            Ok(NodeKind::HashOf(items))
        }
        NodeKind::RangeOf {
            first,
            last,
            without_last,
        } => {
            let first = in_option(alloc, first, next);
            let last = in_option(alloc, last, next);
            let (first, last) = both(first, last)?;
            Ok(NodeKind::RangeOf {
                first,
                last,
                without_last,
            })
        }
        NodeKind::Asgn { target, value } => {
            let target = in_target(alloc, target, next);
            let value = in_box(alloc, value, next);
            let (target, value) = both(target, value)?;
            Ok(NodeKind::Asgn { target, value })
        }
        NodeKind::MultiAsgn {
            targets,
            values,
            values_at,
        } => {
            let values = in_nodes(alloc, values, next)?;
            Ok(NodeKind::MultiAsgn {
                targets,
                values,
                values_at,
            })
        }
        NodeKind::Call {
            receiver,
            dot,
            method,
            args,
            block,
        } => {
            let receiver = in_option(alloc, receiver, next);
            let args = in_items(alloc, args, next);
            let block = in_option(alloc, block, next);
            let (receiver, (args, block)) = both(receiver, both(args, block))?;
            Ok(NodeKind::Call {
                receiver,
                dot,
                method,
                args,
                block,
            })
        }
        NodeKind::AsgnCall {
            receiver,
            dot,
            method,
            args,
        } => {
            let receiver = in_box(alloc, receiver, next);
            let args = in_items(alloc, args, next);
            let (receiver, args) = both(receiver, args)?;
            Ok(NodeKind::AsgnCall {
                receiver,
                dot,
                method,
                args,
            })
        }
        NodeKind::Block { params, body } => {
            let params = in_params(alloc, params, next);
            let body = in_box(alloc, body, next);
            let (params, body) = both(params, body)?;
            Ok(NodeKind::Block { params, body })
        }
        NodeKind::BlockPass(value) => {
            let value = in_box(alloc, value, next)?;
            Ok(NodeKind::BlockPass(value))
        }
        NodeKind::Super { args, block } => match args {
            Some(args) => {
                let args = in_items(alloc, args, next);
                let block = in_option(alloc, block, next);
                let (args, block) = both(args, block)?;
                Ok(NodeKind::Super {
                    args: Some(args),
                    block,
                })
            }
            None => {
                let block = in_option(alloc, block, next)?;
                Ok(NodeKind::Super { args: None, block })
            }
        },
        NodeKind::Yield { args, block } => {
            let args = in_items(alloc, args, next);
            let block = in_option(alloc, block, next);
            let (args, block) = both(args, block)?;
            Ok(NodeKind::Yield { args, block })
        }
        NodeKind::And(left, right) => {
            let left = in_box(alloc, left, next);
            let right = in_box(alloc, right, next);
            let (left, right) = both(left, right)?;
            Ok(NodeKind::And(left, right))
        }
        NodeKind::Or(left, right) => {
            let left = in_box(alloc, left, next);
            let right = in_box(alloc, right, next);
            let (left, right) = both(left, right)?;
            Ok(NodeKind::Or(left, right))
        }
        NodeKind::Not(value) => {
            let value = in_box(alloc, value, next)?;
            Ok(NodeKind::Not(value))
        }
        NodeKind::Defined(value) => {
            let value = in_box(alloc, value, next)?;
            Ok(NodeKind::Defined(value))
        }
        NodeKind::If { arms, otherwise } => in_if(alloc, arms, otherwise, next),
        NodeKind::Case {
            subject,
            arms,
            otherwise,
        } => {
            let subject = in_option(alloc, subject, next);
            let arms = in_whens(alloc, arms, next);
            let otherwise = in_option(alloc, otherwise, next);
            let (subject, (arms, otherwise)) = both(subject, both(arms, otherwise))?;
            Ok(NodeKind::Case {
                subject,
                arms,
                otherwise,
            })
        }
        NodeKind::While {
            condition,
            negated,
            body,
        } => {
            let body_first = body.get().span.start < condition.get().span.start;
            let (condition, body) = in_while(alloc, body_first, condition, body, next)?;
            Ok(NodeKind::While {
                condition,
                negated,
                body,
            })
        }
        NodeKind::Return(values) => {
            let values = in_nodes(alloc, values, next)?;
            Ok(NodeKind::Return(values))
        }
        NodeKind::Break(values) => {
            let values = in_nodes(alloc, values, next)?;
            Ok(NodeKind::Break(values))
        }
        NodeKind::Next(values) => {
            let values = in_nodes(alloc, values, next)?;
            Ok(NodeKind::Next(values))
        }
        NodeKind::Begin {
            body,
            rescues,
            otherwise,
            ensure,
        } => {
            let body = in_box(alloc, body, next);
            let rescues = in_rescues(alloc, rescues, next);
            let otherwise = in_option(alloc, otherwise, next);
            let ensure = in_option(alloc, ensure, next);
            let ((body, rescues), (otherwise, ensure)) = both(
                both(body, rescues),
                both(otherwise, ensure),
            )?;
            Ok(NodeKind::Begin {
                body,
                rescues,
                otherwise,
                ensure,
            })
        }
        NodeKind::Seq(nodes) => {
            let nodes = in_nodes(alloc, nodes, next)?;
            Ok(NodeKind::Seq(nodes))
        }
        NodeKind::Lambda { params, body } => {
            let params = in_params(alloc, params, next);
            let body = in_box(alloc, body, next);
            let (params, body) = both(params, body)?;
            Ok(NodeKind::Lambda { params, body })
        }
        NodeKind::Def {
            singleton,
            method,
            params,
            body,
        } => {
            let params = in_params(alloc, params, next);
            let body = in_box(alloc, body, next);
            let (params, body) = both(params, body)?;
            Ok(NodeKind::Def {
                singleton,
                method,
                params,
                body,
            })
        }
        NodeKind::ClassBody {
            path,
            path_at,
            superclass,
            body,
        } => {
            let superclass = in_option(alloc, superclass, next);
            let body = in_box(alloc, body, next);
            let (superclass, body) = both(superclass, body)?;
            Ok(NodeKind::ClassBody {
                path,
                path_at,
                superclass,
                body,
            })
        }
        NodeKind::ModuleBody {
            path,
            path_at,
            body,
        } => {
            let body = in_box(alloc, body, next)?;
            Ok(NodeKind::ModuleBody {
                path,
                path_at,
                body,
            })
        }
        NodeKind::SingletonBody(body) => {
            let body = in_box(alloc, body, next)?;
            Ok(NodeKind::SingletonBody(body))
        }
        NodeKind::AliasOf { new_name, old_name } => Ok(NodeKind::AliasOf { new_name, old_name }),
    }
}

// The arms of an `If` and its last side.
#[cycle(numbering)]
fn in_if(
    alloc: Global,
    arms: Seq<Arm>,
    otherwise: Option<Boxed<Node>>,
    next: &mut u32,
) -> Mem<NodeKind>
    ensures made { IfOk result (λ made. made ≡ kind.If (spec.if_number (map spec.sides_in arms) (option_map spec.begun_in otherwise) next.old).0.0 (spec.if_number (map spec.sides_in arms) (option_map spec.begun_in otherwise) next.old).0.1) }
    ensures next { OnOk result (next.new ≡ (spec.if_number (map spec.sides_in arms) (option_map spec.begun_in otherwise) next.old).1) }
{
    match only(arms) {
        Ok(arm) => {
            let (arm, otherwise) = in_choice(alloc, arm, otherwise, next)?;
            let (arms, otherwise) = both(one_arm(alloc, arm), Ok(otherwise))?;
            Ok(NodeKind::If { arms, otherwise })
        }
        Err(arms) => {
            let arms = in_arms(alloc, arms, next);
            let otherwise = in_option(alloc, otherwise, next);
            let (arms, otherwise) = both(arms, otherwise)?;
            Ok(NodeKind::If { arms, otherwise })
        }
    }
}

// The one arm of an `If` and its other side: the condition before or behind the sides, and these in their order.
#[cycle(numbering)]
fn in_choice(
    alloc: Global,
    arm: Arm,
    otherwise: Option<Boxed<Node>>,
    next: &mut u32,
) -> Mem<(Arm, Option<Boxed<Node>>)>
    ensures made { IfOk result (λ made. (made.0 ∷ [], made.1) ≡ (spec.choice_number (spec.sides_in arm) (option_map spec.begun_in otherwise) next.old).0) }
    ensures next { OnOk result (next.new ≡ (spec.choice_number (spec.sides_in arm) (option_map spec.begun_in otherwise) next.old).1) }
{
    let Arm { condition, body } = arm;
    let body_start = start_of_side(&body);
    let otherwise_start = start_of(&otherwise);
    let condition_behind = sides_before(condition.span.start, body_start, otherwise_start);
    let otherwise_first = begins_before(otherwise_start, body_start);
    if condition_behind {
        let sides = in_sides(alloc, otherwise_first, body, otherwise, next);
        let condition = numbered(alloc, condition, next);
        let (condition, (body, otherwise)) = both(condition, sides)?;
        Ok((Arm { condition, body }, otherwise))
    } else {
        let condition = numbered(alloc, condition, next);
        let sides = in_sides(alloc, otherwise_first, body, otherwise, next);
        let (condition, (body, otherwise)) = both(condition, sides)?;
        Ok((Arm { condition, body }, otherwise))
    }
}

// Both sides of an `If`, in their order.
#[cycle(numbering)]
fn in_sides(
    alloc: Global,
    otherwise_first: bool,
    body: Option<Node>,
    otherwise: Option<Boxed<Node>>,
    next: &mut u32,
) -> Mem<(Option<Node>, Option<Boxed<Node>>)>
    ensures made { IfOk result (λ made. made ≡ (spec.in_order otherwise_first (spec.node_option (option_map spec.begun_in body)) (spec.node_option (option_map spec.begun_in otherwise)) next.old).0) }
    ensures next { OnOk result (next.new ≡ (spec.in_order otherwise_first (spec.node_option (option_map spec.begun_in body)) (spec.node_option (option_map spec.begun_in otherwise)) next.old).1) }
{
    if otherwise_first {
        let otherwise = in_option(alloc, otherwise, next);
        let body = in_side(alloc, body, next);
        both(body, otherwise)
    } else {
        let body = in_side(alloc, body, next);
        let otherwise = in_option(alloc, otherwise, next);
        both(body, otherwise)
    }
}

// The condition and the body of a `while`, in their order.
#[cycle(numbering)]
fn in_while(
    alloc: Global,
    body_first: bool,
    condition: Boxed<Node>,
    body: Boxed<Node>,
    next: &mut u32,
) -> Mem<(Boxed<Node>, Boxed<Node>)>
    ensures made { IfOk result (λ made. made ≡ (spec.in_order body_first (spec.node_numbered condition) (spec.node_numbered body) next.old).0) }
    ensures next { OnOk result (next.new ≡ (spec.in_order body_first (spec.node_numbered condition) (spec.node_numbered body) next.old).1) }
{
    if body_first {
        let body = in_box(alloc, body, next);
        let condition = in_box(alloc, condition, next);
        both(condition, body)
    } else {
        let condition = in_box(alloc, condition, next);
        let body = in_box(alloc, body, next);
        both(condition, body)
    }
}

#[cycle(numbering)]
fn in_item(alloc: Global, item: Item, next: &mut u32) -> Mem<Item>
    ensures made { IfOk result (λ made. made ≡ (spec.item_numbered item next.old).0) }
    ensures next { OnOk result (next.new ≡ (spec.item_numbered item next.old).1) }
{
    match item {
        Item::Value(node) => {
            let node = numbered(alloc, node, next)?;
            Ok(Item::Value(node))
        }
        Item::Splat(node) => {
            let node = numbered(alloc, node, next)?;
            Ok(Item::Splat(node))
        }
        Item::DoubleSplat(node) => {
            let node = numbered(alloc, node, next)?;
            Ok(Item::DoubleSplat(node))
        }
        Item::Label { key, at, value } => {
            let value = numbered(alloc, value, next)?;
            Ok(Item::Label { key, at, value })
        }
        Item::Pair { key, value } => {
            let key = numbered(alloc, key, next);
            let value = numbered(alloc, value, next);
            let (key, value) = both(key, value)?;
            Ok(Item::Pair { key, value })
        }
    }
}

#[cycle(numbering)]
fn in_part(alloc: Global, part: Part, next: &mut u32) -> Mem<Part>
    ensures made { IfOk result (λ made. made ≡ (spec.part_numbered part next.old).0) }
    ensures next { OnOk result (next.new ≡ (spec.part_numbered part next.old).1) }
{
    match part {
        Part::Text(text) => Ok(Part::Text(text)),
        Part::Code(node) => {
            let node = numbered(alloc, node, next)?;
            Ok(Part::Code(node))
        }
    }
}

#[cycle(numbering)]
fn in_target(alloc: Global, target: Target, next: &mut u32) -> Mem<Target>
    ensures made { IfOk result (λ made. made ≡ (spec.target_numbered target next.old).0) }
    ensures next { OnOk result (next.new ≡ (spec.target_numbered target next.old).1) }
{
    match target {
        Target::Local { name, at } => Ok(Target::Local { name, at }),
        Target::IVar { name, at } => Ok(Target::IVar { name, at }),
        Target::CVar { name, at } => Ok(Target::CVar { name, at }),
        Target::GVar { name, at } => Ok(Target::GVar { name, at }),
        Target::Const { scope, path, at } => {
            let scope = in_option(alloc, scope, next)?;
            Ok(Target::Const { scope, path, at })
        }
    }
}

#[cycle(numbering)]
fn in_param(alloc: Global, param: Param, next: &mut u32) -> Mem<Param>
    ensures made { IfOk result (λ made. made ≡ (spec.param_numbered param next.old).0) }
    ensures next { OnOk result (next.new ≡ (spec.param_numbered param next.old).1) }
{
    match param {
        Param::Required(local) => Ok(Param::Required(local)),
        Param::Optional { local, default } => {
            let default = numbered(alloc, default, next)?;
            Ok(Param::Optional { local, default })
        }
        Param::Rest(local) => Ok(Param::Rest(local)),
        Param::Trailing(local) => Ok(Param::Trailing(local)),
        Param::Keyword(local) => Ok(Param::Keyword(local)),
        Param::OptionalKeyword { local, default } => {
            let default = numbered(alloc, default, next)?;
            Ok(Param::OptionalKeyword { local, default })
        }
        Param::RestKeywords(local) => Ok(Param::RestKeywords(local)),
        Param::Block(local) => Ok(Param::Block(local)),
        Param::Group(locals) => Ok(Param::Group(locals)),
    }
}

#[cycle(numbering)]
fn in_arm(alloc: Global, arm: Arm, next: &mut u32) -> Mem<Arm>
    ensures made { IfOk result (λ made. made ≡ (spec.arm_number (spec.sides_in arm) next.old).0) }
    ensures next { OnOk result (next.new ≡ (spec.arm_number (spec.sides_in arm) next.old).1) }
{
    let Arm { condition, body } = arm;
    let condition = numbered(alloc, condition, next);
    let body = in_side(alloc, body, next);
    let (condition, body) = both(condition, body)?;
    Ok(Arm { condition, body })
}

#[cycle(numbering)]
fn in_when(alloc: Global, when: When, next: &mut u32) -> Mem<When>
    ensures made { IfOk result (λ made. made ≡ (spec.when_numbered when next.old).0) }
    ensures next { OnOk result (next.new ≡ (spec.when_numbered when next.old).1) }
{
    let When { values, body } = when;
    let values = in_items(alloc, values, next);
    let body = numbered(alloc, body, next);
    let (values, body) = both(values, body)?;
    Ok(When { values, body })
}

#[cycle(numbering)]
fn in_rescue(alloc: Global, rescue: Rescue, next: &mut u32) -> Mem<Rescue>
    ensures made { IfOk result (λ made. made ≡ (spec.rescue_numbered rescue next.old).0) }
    ensures next { OnOk result (next.new ≡ (spec.rescue_numbered rescue next.old).1) }
{
    let Rescue {
        classes,
        variable,
        body,
    } = rescue;
    let classes = in_nodes(alloc, classes, next);
    let body = numbered(alloc, body, next);
    let (classes, body) = both(classes, body)?;
    Ok(Rescue {
        classes,
        variable,
        body,
    })
}
