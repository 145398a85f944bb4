//! Items of arguments, arrays and hashes.

ghost use Rattle.std.specs.Prelude.{◌≡◌, ◌++◌, IfOk, OnOk};
ghost use Rattle.ruby_values.specs.declared.value.Value.TheVariants as value;
ghost use Rattle.ruby_values.specs.Making as making;
ghost use Rattle.ruby_items.specs.Items as spec;

use ruby_lexer::RubyToken;
use ruby_tree::{ConstPath, Item, Node, NodeKind};
use ruby_values::lists::{listed, with_room, with_room_among};
use ruby_values::making::{boxed, made, next, node};
use ruby_values::places::{span_at, text_at};
use ruby_values::queue::Queue;
use ruby_values::value::{Placed, Value};
use src_text::{Boxed, Mem, Seq, Span, Text};
use std::alloc::Global;

/// The items among values.
pub fn items_among(alloc: Global, values: Seq<Value>) -> Mem<Seq<Placed>>
    ensures { IfOk result (λ items. items ≡ spec.items_among values) }
{
    let mut items = with_room_among(alloc, values.len())?;
    for value in values.into_vec() {
        add_item(&mut items, value)?;
    }
    Ok(items)
}

fn add_item(items: &mut Seq<Placed>, value: Value) -> Mem<()>
    ensures { OnOk result (items.new ≡ items.old ++ spec.item_among value) }
{
    match value {
        Value::Node(node) => items.push(bare_item(node)),
        Value::Item(item) => items.push(item.into_inner()),
        _ => Ok(()),
    }
}

// A bare value as an item.
fn bare_item(node: Boxed<Node>) -> Placed
    ensures { result ≡ spec.bare_item node }
{
    let at = node.get().span;
    Placed {
        item: Item::Value(node.into_inner()),
        at,
    }
}

/// Items without their places.
pub fn plain_items(alloc: Global, items: Seq<Placed>) -> Mem<Seq<Item>>
    ensures { IfOk result (λ made. made ≡ spec.plain_items items) }
{
    let mut plain = with_room(alloc, items.len())?;
    for placed in items.into_vec() {
        plain.push(item_of(placed))?;
    }
    Ok(plain)
}

fn item_of(placed: Placed) -> Item
    ensures { result ≡ spec.plain_item placed }
{
    let Placed { item, .. } = placed;
    item
}

/// Items without their places, none where they are missing.
pub fn optional_items(alloc: Global, items: Option<Seq<Placed>>) -> Mem<Seq<Item>>
    ensures { IfOk result (λ made. made ≡ spec.optional_items items) }
{
    match items {
        Some(items) => plain_items(alloc, items),
        None => Ok(Seq::new(alloc)),
    }
}

/// What a sign before a value makes of it.
#[derive(Clone, Copy, Debug, PartialEq, Eq)]
pub enum Before {
    Star,
    StarStar,
    Ampersand,
}

/// `*a`, `**a` and `&a`.
pub fn signed_item(
    alloc: Global,
    at: Span,
    before: Before,
    nodes: &mut Queue<Boxed<Node>>,
) -> Mem<Value>
    ensures { IfOk result (λ made. made ≡ spec.signed_item at before (making.first nodes.old)) }
{
    let node = next(alloc, nodes)?;
    match before {
        Before::Star => placed(alloc, Item::Splat(node.into_inner()), at),
        Before::StarStar => placed(alloc, Item::DoubleSplat(node.into_inner()), at),
        Before::Ampersand => made(alloc, at, NodeKind::BlockPass(node)),
    }
}

fn placed(alloc: Global, item: Item, at: Span) -> Mem<Value>
    ensures { IfOk result (λ made. made ≡ spec.placed item at) }
{
    Ok(Value::Item(Boxed::new(alloc, Placed { item, at })?))
}

/// `a => b`.
pub fn pair(alloc: Global, at: Span, nodes: &mut Queue<Boxed<Node>>) -> Mem<Value>
    ensures { IfOk result (λ made. made ≡ spec.pair at nodes.old) }
{
    let key = next(alloc, nodes)?;
    let value = next(alloc, nodes)?;
    let item = Item::Pair {
        key: key.into_inner(),
        value: value.into_inner(),
    };
    placed(alloc, item, at)
}

/// `a: b` and `a:`.
pub fn label_item(
    alloc: Global,
    tokens: &[RubyToken],
    at: Span,
    first: usize,
    nodes: &mut Queue<Boxed<Node>>,
) -> Mem<Value>
    ensures { IfOk result (λ made. made ≡ spec.label_item tokens.now at first nodes.old) }
{
    let value = or_meant(alloc, tokens, first, nodes.next())?;
    let key = text_at(alloc, tokens, first)?;
    let item = Item::Label {
        key,
        at: span_at(tokens, first),
        value: value.into_inner(),
    };
    placed(alloc, item, at)
}

fn or_meant(
    alloc: Global,
    tokens: &[RubyToken],
    first: usize,
    value: Option<Boxed<Node>>,
) -> Mem<Boxed<Node>>
    ensures { IfOk result (λ made. made ≡ spec.or_meant tokens.now first value) }
{
    match value {
        Some(value) => Ok(value),
        None => meant_by_label(alloc, tokens, first),
    }
}

// What the word of a label means, where no value stands behind it.
fn meant_by_label(alloc: Global, tokens: &[RubyToken], first: usize) -> Mem<Boxed<Node>>
    ensures { IfOk result (λ made. made ≡ spec.meant_by_label tokens.now first) }
{
    let at = without_colon(span_at(tokens, first));
    let word = text_at(alloc, tokens, first)?;
    if begins_with_upper(word.as_str()) {
        let mut words = Seq::new(alloc);
        words.push(word)?;
        return boxed(
            alloc,
            at,
            NodeKind::Const {
                scope: None,
                path: ConstPath {
                    absolute: false,
                    words,
                },
            },
        );
    }
    boxed(alloc, at, NodeKind::Name(word))
}

fn begins_with_upper(word: &str) -> bool
    ensures { result ≡ spec.begins_with_upper word.now }
{
    match word.as_bytes() {
        [first, ..] => *first >= b'A' && *first <= b'Z',
        [] => false,
    }
}

/// The span of a label without its `:`.
pub(crate) fn without_colon(at: Span) -> Span
    ensures { result ≡ spec.without_colon at }
{
    Span {
        start: at.start,
        end: at.end.saturating_sub(1),
    }
}

/// Items on the way to elements: what isn't keyed before the first that is, what is keyed, and what isn't behind it.
#[derive(Drop)]
pub(crate) struct Sorting {
    before: Seq<Item>,
    keyed: Seq<Item>,
    behind: Seq<Item>,
    /// From the first keyed item's start to the last one's end.
    at: Span,
}

/// Items whose labels, pairs and `**` are one hash at the place of the first.
pub fn elements(alloc: Global, items: Option<Seq<Placed>>) -> Mem<Seq<Item>>
    ensures { IfOk result (λ made. made ≡ spec.elements items) }
{
    let sorted = sorted(alloc, listed(alloc, items))?;
    joined_elements(sorted)
}

fn unsorted(alloc: Global) -> Sorting
    ensures { result ≡ spec.unsorted }
{
    Sorting {
        before: Seq::new(alloc),
        keyed: Seq::new(alloc),
        behind: Seq::new(alloc),
        at: Span { start: 0, end: 0 },
    }
}

fn sorted(alloc: Global, items: Seq<Placed>) -> Mem<Sorting>
    ensures { IfOk result (λ made. made ≡ spec.sorted items) }
{
    let mut sorted = unsorted(alloc);
    for placed in items.into_vec() {
        sort(&mut sorted, placed)?;
    }
    Ok(sorted)
}

fn sort(sorted: &mut Sorting, placed: Placed) -> Mem<()>
    ensures { OnOk result (sorted.new ≡ spec.sort sorted.old placed) }
{
    let Placed { item, at } = placed;
    if is_keyed(&item) {
        sorted.at = joined_span(is_none(&sorted.keyed), sorted.at, at);
        sorted.keyed.push(item)
    } else if is_none(&sorted.keyed) {
        sorted.before.push(item)
    } else {
        sorted.behind.push(item)
    }
}

// Whether nothing is listed.
fn is_none<T>(list: &Seq<T>) -> bool
    ensures { result ≡ spec.is_none list.now }
{
    match list.as_slice() {
        [] => true,
        _ => false,
    }
}

fn joined_span(first: bool, before: Span, at: Span) -> Span
    ensures { result ≡ spec.joined_span first before at }
{
    if first {
        return at;
    }
    Span {
        start: before.start,
        end: at.end,
    }
}

fn is_keyed(item: &Item) -> bool
    ensures { result ≡ spec.is_keyed item.now }
{
    match item {
        Item::Label { .. } => true,
        Item::Pair { .. } => true,
        Item::DoubleSplat(_) => true,
        Item::Value(_) => false,
        Item::Splat(_) => false,
    }
}

fn joined_elements(sorted: Sorting) -> Mem<Seq<Item>>
    ensures { IfOk result (λ made. made ≡ spec.joined_elements sorted) }
{
    let Sorting {
        mut before,
        keyed,
        behind,
        at,
    } = sorted;
    if is_none(&keyed) {
        return Ok(before);
    }
    before.push(Item::Value(node(at, NodeKind::HashOf(keyed))))?;
    for item in behind.into_vec() {
        before.push(item)?;
    }
    Ok(before)
}

/// An array.
pub fn array(alloc: Global, at: Span, items: Option<Seq<Placed>>) -> Mem<Value>
    ensures { IfOk result (λ made. made ≡ value.Node (spec.array at items)) }
{
    let elements = elements(alloc, items)?;
    made(alloc, at, NodeKind::ArrayOf(elements))
}

/// A hash.
pub fn hash(alloc: Global, at: Span, items: Option<Seq<Placed>>) -> Mem<Value>
    ensures { IfOk result (λ made. made ≡ value.Node (spec.hash at items)) }
{
    let items = optional_items(alloc, items)?;
    made(alloc, at, NodeKind::HashOf(items))
}

/// The items of brackets.
pub fn passed_items(alloc: Global, items: Option<Seq<Placed>>) -> Value
    ensures { result ≡ spec.passed_items items }
{
    Value::Items(listed(alloc, items))
}
