//! What a node of a concrete tree stands for, by what its trees stand for.

ghost use Rattle.std.specs.Prelude.{◌≡◌, List, IfOk, IfSome};
ghost use Rattle.std.specs.List.{fold};
ghost use Rattle.ruby_lowering.specs.Parts.{add, gathered};
ghost use Rattle.ruby_values.specs.declared.value.Value.{Value};
ghost use Rattle.ruby_values.specs.declared.value.Value.TheVariants as value;
ghost use Rattle.ruby_lowering.specs.Combining as spec;
ghost use Rattle.ruby_items.specs.Items as items;
ghost use Rattle.ruby_items.specs.Parameters as parameters;
ghost use Rattle.ruby_values.specs.Statements as statements;

use crate::assignments::{assignment, changed, list_assignment, list_target};
use crate::bodies::{
    begin_form, block, body, class_form, definition, lambda, module_form, rescue, singleton_form,
    value_body,
};
use crate::branches::{case_form, elsif, if_form, returned, unless_form, when, while_form};
use crate::calls::{call, command, constant, dot_of, linked, word_name, yielded};
use crate::parts::{Parts, gather, leaves_among};
use crate::sorts::{Sort, sort_of};
use ruby_exprs::Label;
use ruby_items::items::{
    Before, array, hash, items_among, label_item, pair, passed_items, signed_item,
};
use ruby_items::parameters::{
    Takes, group, keyword_param, optional, param_value, params_among, required, taking, trailing,
};
use ruby_items::texts::{heredoc, parts_among, quoted_symbol, regexp, strings, word_list};
use ruby_lexer::{Keyword, RubyKind, RubyToken};
use ruby_tree::{Dot, Node, Param};
use ruby_values::literals::{integer, keyword, name, symbol, variable};
use ruby_values::making::next;
use ruby_values::names::{method_name, path, setter_name};
use ruby_values::operators::{choice, defined, operators, prefixed, range, range_to, sign_name};
use ruby_values::places::{kind_at, leaf, span_at, span_behind};
use ruby_values::queue::Queue;
use ruby_values::statements::{
    alias, modified, modifier, modifier_word, nodes_among, placed_at, statements,
};
use ruby_values::value::Value;
use src_text::{Boxed, Mem, Seq, Span};
use std::alloc::Global;

/// Where a node of the concrete tree stands.
#[derive(Clone, Copy)]
pub(crate) struct Place {
    /// The place of its first token.
    pub(crate) first: usize,
    /// The place behind its last token.
    pub(crate) behind: usize,
    /// From the one's start to the other's end.
    pub(crate) at: Span,
}

/// What a node stands for. The parts are a place for its values, in which nothing counts that is there already.
pub(crate) fn combined(
    alloc: Global,
    tokens: &[RubyToken],
    label: Label,
    place: Place,
    values: Seq<Value>,
    parts: &mut Parts,
) -> Mem<Value>
    ensures { IfOk result (λ made. made ≡ spec.combined tokens.now label place values) }
{
    of_sort(alloc, tokens, sort_of(label), label, place, values, parts)
}

/// What a node stands for, where its first token alone tells, whatever its values are.
pub(crate) fn of_first_token(
    alloc: Global,
    tokens: &[RubyToken],
    label: Label,
    place: Place,
) -> Mem<Option<Value>>
    ensures { IfOk result (λ made. IfSome made (λ made. (values : List Value) → made ≡ spec.combined tokens.now label place values)) }
{
    let at = place.at;
    let first = place.first;
    match label {
        Label::Int => Ok(Some(integer(alloc, tokens, at, first)?)),
        Label::Sym => Ok(Some(symbol(alloc, tokens, at, first)?)),
        Label::Word => Ok(Some(keyword(alloc, at, kind_at(tokens, first))?)),
        Label::Variable => Ok(Some(variable(alloc, tokens, at, first)?)),
        Label::Const => Ok(Some(constant(alloc, tokens, at, false, first)?)),
        Label::Name => Ok(Some(name(alloc, tokens, at, first)?)),
        _ => Ok(None),
    }
}

// What a node of a sort stands for.
fn of_sort(
    alloc: Global,
    tokens: &[RubyToken],
    sort: Sort,
    label: Label,
    place: Place,
    values: Seq<Value>,
    parts: &mut Parts,
) -> Mem<Value>
    ensures { IfOk result (λ made. made ≡ spec.of_sort tokens.now sort label place values) }
{
    match sort {
        Sort::List => list(alloc, tokens, label, place, values),
        Sort::Text => text(alloc, tokens, label, place, values),
        Sort::Tokens => of_leaves(alloc, tokens, label, place, values),
        _ => by_sorts(alloc, tokens, sort, label, place, values, parts),
    }
}

// What a node stands for, of which only the leaves count.
fn of_leaves(
    alloc: Global,
    tokens: &[RubyToken],
    label: Label,
    place: Place,
    values: Seq<Value>,
) -> Mem<Value>
    ensures { IfOk result (λ made. made ≡ spec.of_tokens tokens.now label place (gathered values).leaves) }
{
    let leaves = leaves_among(alloc, values)?;
    of_tokens(alloc, tokens, label, place, leaves.as_slice())
}

// What a node stands for whose values are put by their sorts first.
fn by_sorts(
    alloc: Global,
    tokens: &[RubyToken],
    sort: Sort,
    label: Label,
    place: Place,
    values: Seq<Value>,
    parts: &mut Parts,
) -> Mem<Value>
    ensures { IfOk result (λ made. made ≡ spec.of_parts tokens.now sort label place (gathered values)) }
{
    parts.clear(alloc);
    of_values(alloc, tokens, sort, label, place, values, parts)
}

// What a node stands for, of which only the values by their sorts count.
fn of_values(
    alloc: Global,
    tokens: &[RubyToken],
    sort: Sort,
    label: Label,
    place: Place,
    values: Seq<Value>,
    parts: &mut Parts,
) -> Mem<Value>
    ensures { IfOk result (λ made. made ≡ spec.of_parts tokens.now sort label place (fold add parts.old values)) }
{
    gather(parts, values)?;
    of_parts(alloc, tokens, sort, label, place, parts)
}

fn of_parts(
    alloc: Global,
    tokens: &[RubyToken],
    sort: Sort,
    label: Label,
    place: Place,
    parts: &mut Parts,
) -> Mem<Value>
    ensures { IfOk result (λ made. made ≡ spec.of_parts tokens.now sort label place parts.old) }
{
    match sort {
        Sort::Operators => operators(alloc, tokens, parts.leaves.as_slice(), &mut parts.nodes),
        Sort::Expression => expression(alloc, tokens, label, place, parts),
        Sort::Call => called(alloc, tokens, label, place, parts),
        Sort::Tokens => of_tokens(alloc, tokens, label, place, parts.leaves.as_slice()),
        Sort::Item => item(alloc, tokens, label, place, parts),
        Sort::Parameter => parameter(alloc, tokens, label, place, parts),
        Sort::Form => form(alloc, tokens, label, place, parts),
        Sort::Part => part(alloc, tokens, label, place, parts),
        Sort::List => Ok(Value::Nothing),
        Sort::Text => Ok(Value::Nothing),
    }
}

fn list(
    alloc: Global,
    tokens: &[RubyToken],
    label: Label,
    place: Place,
    values: Seq<Value>,
) -> Mem<Value>
    ensures { IfOk result (λ made. made ≡ spec.list_of tokens.now label place values) }
{
    match label {
        Label::Stmts => statements(alloc, tokens, place.first, values),
        Label::Values => nodes_value(alloc, values),
        Label::Classes => nodes_value(alloc, values),
        Label::Args => items_value(alloc, values),
        Label::Cargs => items_value(alloc, values),
        Label::Items => items_value(alloc, values),
        Label::Params => params_value(alloc, values),
        Label::ReturnForm => {
            let nodes = nodes_among(alloc, values)?;
            returned(alloc, place.at, kind_at(tokens, place.first), nodes)
        }
        _ => Ok(Value::Nothing),
    }
}

fn nodes_value(alloc: Global, values: Seq<Value>) -> Mem<Value>
    ensures { IfOk result (λ made. made ≡ value.Nodes (statements.nodes_among values)) }
{
    let nodes = nodes_among(alloc, values)?;
    Ok(Value::Nodes(nodes))
}

fn items_value(alloc: Global, values: Seq<Value>) -> Mem<Value>
    ensures { IfOk result (λ made. made ≡ value.Items (items.items_among values)) }
{
    let items = items_among(alloc, values)?;
    Ok(Value::Items(items))
}

fn params_value(alloc: Global, values: Seq<Value>) -> Mem<Value>
    ensures { IfOk result (λ made. made ≡ value.Params (parameters.params_among values)) }
{
    let params = params_among(alloc, values)?;
    Ok(Value::Params(params))
}

fn text(
    alloc: Global,
    tokens: &[RubyToken],
    label: Label,
    place: Place,
    values: Seq<Value>,
) -> Mem<Value>
    ensures { IfOk result (λ made. made ≡ spec.text_in tokens.now label place values) }
{
    match label {
        Label::Str => {
            let parts = parts_among(alloc, tokens, values)?;
            Ok(Value::Texts(parts))
        }
        Label::Strs => strings(alloc, tokens, place.at, values),
        Label::Dsym => quoted_symbol(alloc, tokens, place.at, values),
        Label::Regexp => regexp(alloc, tokens, place.at, place.behind, values),
        Label::Heredoc => heredoc(alloc, tokens, place.first, values),
        _ => Ok(Value::Nothing),
    }
}

fn expression(
    alloc: Global,
    tokens: &[RubyToken],
    label: Label,
    place: Place,
    parts: &mut Parts,
) -> Mem<Value>
    ensures { IfOk result (λ made. made ≡ spec.expression tokens.now label place parts.old) }
{
    let at = place.at;
    let sign = leaf(parts.leaves.as_slice(), 0);
    match label {
        Label::NotForm => prefixed(alloc, tokens, at, place.first, &mut parts.nodes),
        Label::Minus => prefixed(alloc, tokens, at, place.first, &mut parts.nodes),
        Label::Unary => prefixed(alloc, tokens, at, place.first, &mut parts.nodes),
        Label::DefinedForm => defined(alloc, at, &mut parts.nodes),
        Label::Tern => choice(alloc, at, &mut parts.nodes),
        Label::Range => range(
            alloc,
            at,
            kind_at(tokens, sign),
            &mut parts.nodes,
            parts.maybe.take(),
        ),
        Label::Beginless => range_to(alloc, at, kind_at(tokens, sign), &mut parts.nodes),
        Label::Asgn => assignment(alloc, at, &mut parts.nodes, parts.list.take()),
        Label::Opasgn => changed(alloc, tokens, at, sign, &mut parts.nodes),
        Label::Masgn => list_assignment(alloc, at, parts.targets.rest(alloc), parts.list.take()),
        _ => Ok(Value::Nothing),
    }
}

fn called(
    alloc: Global,
    tokens: &[RubyToken],
    label: Label,
    place: Place,
    parts: &mut Parts,
) -> Mem<Value>
    ensures { IfOk result (λ made. made ≡ spec.called tokens.now label place parts.old) }
{
    let at = place.at;
    let first = place.first;
    match label {
        Label::Post => linked_or_param(alloc, parts.param.take(), &mut parts.nodes),
        Label::CallLink => link(alloc, tokens, place, parts),
        Label::NameLink => link(alloc, tokens, place, parts),
        Label::CallOfCall => {
            let method = sign_name(alloc, "call", span_behind(tokens, first))?;
            call(
                alloc,
                at,
                dot_of(kind_at(tokens, first)),
                Some(method),
                parts.items.take(),
                parts.nodes.next(),
            )
        }
        Label::ConstLink => constant(alloc, tokens, at, false, leaf(parts.leaves.as_slice(), 1)),
        Label::Index => {
            let method = sign_name(alloc, "[]", span_at(tokens, first))?;
            call(
                alloc,
                at,
                Dot::Plain,
                Some(method),
                parts.items.take(),
                None,
            )
        }
        Label::Call => word_call(alloc, tokens, place, parts),
        Label::ConstCall => word_call(alloc, tokens, place, parts),
        Label::Command => command(alloc, at, &mut parts.nodes, parts.items.take()),
        Label::YieldForm => yielded(
            alloc,
            at,
            kind_at(tokens, first),
            parts.items.take(),
            parts.nodes.next(),
        ),
        _ => Ok(Value::Nothing),
    }
}

// A value with its links, or a parameter behind the rest.
fn linked_or_param(
    alloc: Global,
    param: Option<Boxed<Param>>,
    nodes: &mut Queue<Boxed<Node>>,
) -> Mem<Value>
    ensures { IfOk result (λ made. made ≡ spec.linked_or_param param nodes.old) }
{
    match param {
        Some(param) => param_value(alloc, trailing(param.into_inner())),
        None => linked(alloc, nodes),
    }
}

// A call behind a dot.
fn link(alloc: Global, tokens: &[RubyToken], place: Place, parts: &mut Parts) -> Mem<Value>
    ensures { IfOk result (λ made. made ≡ value.Node (spec.link tokens.now place parts.old)) }
{
    let dot = dot_of(kind_at(tokens, place.first));
    call(
        alloc,
        place.at,
        dot,
        parts.names.next(),
        parts.items.take(),
        parts.nodes.next(),
    )
}

// A call without a receiver.
fn word_call(alloc: Global, tokens: &[RubyToken], place: Place, parts: &mut Parts) -> Mem<Value>
    ensures { IfOk result (λ made. made ≡ value.Node (spec.word_call tokens.now place parts.old)) }
{
    let method = word_name(alloc, tokens, place.first)?;
    call(
        alloc,
        place.at,
        Dot::Plain,
        Some(method),
        parts.items.take(),
        parts.nodes.next(),
    )
}

fn of_tokens(
    alloc: Global,
    tokens: &[RubyToken],
    label: Label,
    place: Place,
    leaves: &[usize],
) -> Mem<Value>
    ensures { IfOk result (λ made. made ≡ spec.of_tokens tokens.now label place leaves.now) }
{
    let at = place.at;
    let first = place.first;
    match label {
        Label::Int => integer(alloc, tokens, at, first),
        Label::Sym => symbol(alloc, tokens, at, first),
        Label::Words => word_list(alloc, tokens, at, first, leaves),
        Label::Word => keyword(alloc, at, kind_at(tokens, first)),
        Label::Variable => variable(alloc, tokens, at, first),
        Label::TopConst => constant(alloc, tokens, at, true, leaf(leaves, 1)),
        Label::Const => constant(alloc, tokens, at, false, first),
        Label::Name => name(alloc, tokens, at, first),
        Label::NameOf => method_name(alloc, tokens, at, leaves),
        Label::NameSet => setter_name(alloc, tokens, at, leaves),
        Label::SymbolName => method_name(alloc, tokens, at, leaves),
        Label::Cpath => path(alloc, tokens, at, leaves),
        Label::Mlhs => list_target(alloc, tokens, leaves),
        _ => Ok(Value::Nothing),
    }
}

fn item(
    alloc: Global,
    tokens: &[RubyToken],
    label: Label,
    place: Place,
    parts: &mut Parts,
) -> Mem<Value>
    ensures { IfOk result (λ made. made ≡ spec.item_of tokens.now label place parts.old) }
{
    let at = place.at;
    match label {
        Label::Splat => signed_item(alloc, at, Before::Star, &mut parts.nodes),
        Label::DoubleSplat => signed_item(alloc, at, Before::StarStar, &mut parts.nodes),
        Label::BlockPass => signed_item(alloc, at, Before::Ampersand, &mut parts.nodes),
        Label::LabelItem => label_item(alloc, tokens, at, place.first, &mut parts.nodes),
        Label::Pair => pair(alloc, at, &mut parts.nodes),
        Label::Pargs => Ok(passed_items(alloc, parts.items.take())),
        Label::Array => array(alloc, at, parts.items.take()),
        Label::Hash => hash(alloc, at, parts.items.take()),
        _ => Ok(Value::Nothing),
    }
}

fn parameter(
    alloc: Global,
    tokens: &[RubyToken],
    label: Label,
    place: Place,
    parts: &mut Parts,
) -> Mem<Value>
    ensures { IfOk result (λ made. made ≡ spec.parameter tokens.now label place parts.old) }
{
    match label {
        Label::Opt => optional(alloc, tokens, place.first, &mut parts.nodes),
        Label::Req => required(alloc, tokens, place.first),
        Label::Rest => taking(alloc, tokens, Takes::Rest, parts.leaves.as_slice()),
        Label::Key => keyword_param(alloc, tokens, place.first, &mut parts.nodes),
        Label::Keyrest => taking(alloc, tokens, Takes::RestKeywords, parts.leaves.as_slice()),
        Label::Blockarg => taking(alloc, tokens, Takes::Block, parts.leaves.as_slice()),
        Label::Group => group(alloc, tokens, parts.leaves.as_slice()),
        _ => Ok(Value::Nothing),
    }
}

fn form(
    alloc: Global,
    tokens: &[RubyToken],
    label: Label,
    place: Place,
    parts: &mut Parts,
) -> Mem<Value>
    ensures { IfOk result (λ made. made ≡ spec.form_of tokens.now label place parts.old) }
{
    let at = place.at;
    match label {
        Label::IfForm => condition(alloc, tokens, place, parts),
        Label::CaseForm => case_form(
            alloc,
            at,
            parts.maybe.take(),
            parts.whens.rest(alloc),
            parts.otherwise.take(),
        ),
        Label::WhileForm => while_form(alloc, at, kind_at(tokens, place.first), &mut parts.nodes),
        Label::BeginForm => begin_form(alloc, at, &mut parts.nodes),
        Label::Lambda => lambda(alloc, at, parts.params.take(), &mut parts.nodes),
        Label::Block => block(alloc, at, parts.params.take(), &mut parts.nodes),
        Label::ShortDef => {
            let body = value_body(alloc, &mut parts.nodes)?;
            definition(
                alloc,
                at,
                parts.singleton,
                parts.names.next(),
                parts.params.take(),
                body,
            )
        }
        Label::DefForm => {
            let body = next(alloc, &mut parts.nodes)?;
            definition(
                alloc,
                at,
                parts.singleton,
                parts.names.next(),
                parts.params.take(),
                body,
            )
        }
        Label::SingletonClass => singleton_form(alloc, at, &mut parts.nodes),
        Label::ClassForm => class_form(
            alloc,
            at,
            parts.path.take(),
            parts.maybe.take(),
            &mut parts.nodes,
        ),
        Label::ModuleForm => module_form(alloc, at, parts.path.take(), &mut parts.nodes),
        Label::AliasForm => alias(alloc, at, &mut parts.names),
        _ => Ok(Value::Nothing),
    }
}

// `if` and `unless`.
fn condition(alloc: Global, tokens: &[RubyToken], place: Place, parts: &mut Parts) -> Mem<Value>
    ensures { IfOk result (λ made. made ≡ value.Node (spec.condition tokens.now place parts.old)) }
{
    let more = parts.arms.rest(alloc);
    let otherwise = parts.otherwise.take();
    if is_unless(kind_at(tokens, place.first)) {
        return unless_form(
            alloc,
            place.at,
            &mut parts.nodes,
            more,
            parts.arms_start,
            otherwise,
        );
    }
    if_form(alloc, place.at, &mut parts.nodes, more, otherwise)
}

fn part(
    alloc: Global,
    tokens: &[RubyToken],
    label: Label,
    place: Place,
    parts: &mut Parts,
) -> Mem<Value>
    ensures { IfOk result (λ made. made ≡ spec.part_of tokens.now label place parts.old) }
{
    let at = place.at;
    match label {
        Label::ElseForm => Ok(Value::Otherwise(next(alloc, &mut parts.nodes)?)),
        Label::Body => body(
            alloc,
            tokens,
            place.behind,
            &mut parts.nodes,
            parts.rescues.rest(alloc),
            parts.otherwise.take(),
            parts.ensure.take(),
        ),
        Label::RescueForm => rescue(
            alloc,
            parts.list.take(),
            parts.local.take(),
            &mut parts.nodes,
        ),
        Label::EnsureForm => Ok(Value::Ensure(next(alloc, &mut parts.nodes)?)),
        Label::SelfForm => Ok(Value::Singleton),
        Label::Code => placed_at(alloc, at, &mut parts.nodes),
        Label::GroupOf => placed_at(alloc, at, &mut parts.nodes),
        Label::ElsifForm => elsif(alloc, at, &mut parts.nodes),
        Label::Subject => Ok(Value::Maybe(parts.nodes.next())),
        Label::WhenForm => when(alloc, parts.items.take(), &mut parts.nodes),
        Label::Superclass => Ok(Value::Maybe(parts.nodes.next())),
        Label::EndForm => Ok(Value::Maybe(parts.nodes.next())),
        Label::Program => placed_at(
            alloc,
            Span {
                start: 0,
                end: at.end,
            },
            &mut parts.nodes,
        ),
        Label::Stmt => modified(alloc, &mut parts.nodes, parts.modifiers.rest(alloc)),
        Label::Modifier => modifier(
            alloc,
            modifier_word(kind_at(tokens, place.first)),
            &mut parts.nodes,
        ),
        _ => Ok(Value::Nothing),
    }
}

fn is_unless(kind: RubyKind) -> bool
    ensures { result ≡ spec.is_unless kind }
{
    matches!(kind, RubyKind::Keyword(Keyword::Unless))
}
