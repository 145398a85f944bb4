//! What a concrete tree stands for.

ghost use Rattle.std.specs.Prelude.{◌≡◌, List, Some, IfOk, IfSome, map, slice_get};
ghost use Rattle.ruby_exprs.specs.Labels.{labels};
ghost use Rattle.ruby_lowering.specs.Lowering as spec;
ghost use Rattle.ruby_values.specs.declared.value.Value.{Value};

use crate::combining::{Place, combined, of_first_token};
use crate::parts::Parts;
use ruby_exprs::{Label, label_of};
use ruby_grammar::Tree;
use ruby_lexer::RubyToken;
use ruby_tree::Node;
use ruby_values::lists::with_room;
use ruby_values::making::missing;
use ruby_values::places::span_between;
use ruby_values::value::Value;
use src_text::{Boxed, Mem, Seq};
use std::alloc::Global;

/// What a concrete tree stands for. One place for a node's parts serves all nodes, since a node's trees are done before its parts are put.
#[cycle(lowering)]
pub(crate) fn lowered(
    alloc: Global,
    tokens: &[RubyToken],
    tree: &Tree,
    parts: &mut Parts,
) -> Mem<Value>
    ensures { IfOk result (λ made. made ≡ spec.lowered tokens.now tree.now) }
{
    match tree {
        Tree::Leaf(place) => Ok(Value::Leaf(*place)),
        Tree::Node(name, first, behind, trees) => {
            match by_first_token(alloc, tokens, *name, *first, *behind)? {
                Some(value) => Ok(value),
                None => {
                    let values = lowered_trees(alloc, tokens, *name, trees.as_slice(), parts)?;
                    named(alloc, tokens, *name, *first, *behind, values, parts)
                }
            }
        }
    }
}

// What trees stand for. The left side of an assignment by an operator is wanted twice, so it stands again behind the others.
#[cycle(lowering)]
fn lowered_trees(
    alloc: Global,
    tokens: &[RubyToken],
    name: u8,
    trees: &[Tree],
    parts: &mut Parts,
) -> Mem<Seq<Value>>
    ensures { IfOk result (λ values. values ≡ spec.wanted name (map (spec.lowered tokens.now) trees.now)) }
{
    let mut values = with_room(alloc, trees.len())?;
    for tree in trees {
        values.push(lowered(alloc, tokens, tree, parts)?)?;
    }
    if is_wanted_twice(name) {
        if let [first, ..] = trees {
            values.push(lowered(alloc, tokens, first, parts)?)?;
        }
    }
    Ok(values)
}

fn is_wanted_twice(name: u8) -> bool
    ensures { result ≡ spec.is_changed (slice_get labels name) }
{
    match label_of(name) {
        Some(label) => is_changed(label),
        None => false,
    }
}

fn is_changed(label: Label) -> bool
    ensures { result ≡ spec.is_changed (Some label) }
{
    matches!(label, Label::Opasgn)
}

// What a node stands for, where its first token alone tells, whatever its trees are.
fn by_first_token(
    alloc: Global,
    tokens: &[RubyToken],
    name: u8,
    first: usize,
    behind: usize,
) -> Mem<Option<Value>>
    ensures { IfOk result (λ made. IfSome made (λ made. (values : List Value) → made ≡ spec.named tokens.now name first behind values)) }
{
    let at = span_between(tokens, first, behind);
    match label_of(name) {
        Some(label) => of_first_token(alloc, tokens, label, Place { first, behind, at }),
        None => Ok(None),
    }
}

// What a node with a name stands for.
fn named(
    alloc: Global,
    tokens: &[RubyToken],
    name: u8,
    first: usize,
    behind: usize,
    values: Seq<Value>,
    parts: &mut Parts,
) -> Mem<Value>
    ensures { IfOk result (λ made. made ≡ spec.named tokens.now name first behind values) }
{
    let at = span_between(tokens, first, behind);
    match label_of(name) {
        Some(label) => {
            let place = Place { first, behind, at };
            combined(alloc, tokens, label, place, values, parts)
        }
        None => Ok(Value::Nothing),
    }
}

/// The node that a concrete tree stands for.
pub fn root_of(alloc: Global, tokens: &[RubyToken], tree: &Tree) -> Mem<Boxed<Node>>
    ensures { IfOk result (λ root. root ≡ spec.root_of tokens.now tree.now) }
{
    let mut parts = Parts::new(alloc);
    match lowered(alloc, tokens, tree, &mut parts)? {
        Value::Node(node) => Ok(node),
        other => {
            drop(other);
            missing(alloc)
        }
    }
}
