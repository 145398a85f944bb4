//! Strings and other texts with parts.

ghost use Rattle.std.specs.Prelude.{◌≡◌, ◌++◌, slice_get, IfOk, OnOk};
ghost use Rattle.ruby_values.specs.declared.value.Value.TheVariants as value;
ghost use Rattle.ruby_items.specs.Texts as spec;

use ruby_lexer::{RubyKind, RubyToken, RubyValue, WordsOf};
use ruby_tree::{NodeKind, Part, WordKind};
use ruby_values::making::made;
use ruby_values::places::{kind_at, span_at, text_at};
use ruby_values::value::Value;
use src_text::{Mem, Seq, Span, Text};
use std::alloc::Global;

/// The parts among values, as they are written.
pub fn parts_among(alloc: Global, tokens: &[RubyToken], values: Seq<Value>) -> Mem<Seq<Part>>
    ensures { IfOk result (λ parts. parts ≡ spec.parts_among tokens.now values) }
{
    let mut parts = Seq::new(alloc);
    for value in values.into_vec() {
        add_part(alloc, tokens, &mut parts, value)?;
    }
    Ok(parts)
}

fn add_part(alloc: Global, tokens: &[RubyToken], parts: &mut Seq<Part>, value: Value) -> Mem<()>
    ensures { OnOk result (parts.new ≡ parts.old ++ spec.parts_of tokens.now value) }
{
    match value {
        Value::Leaf(place) => add_text(alloc, tokens, parts, place),
        Value::Node(node) => parts.push(Part::Code(node.into_inner())),
        Value::Texts(more) => add_parts(parts, more),
        _ => Ok(()),
    }
}

fn add_text(alloc: Global, tokens: &[RubyToken], parts: &mut Seq<Part>, place: usize) -> Mem<()>
    ensures { OnOk result (parts.new ≡ parts.old ++ spec.text_part tokens.now place) }
{
    if !is_part(kind_at(tokens, place)) {
        return Ok(());
    }
    let text = text_at(alloc, tokens, place)?;
    parts.push(Part::Text(text))
}

fn add_parts(parts: &mut Seq<Part>, more: Seq<Part>) -> Mem<()>
    ensures { OnOk result (parts.new ≡ parts.old ++ more) }
{
    for part in more.into_vec() {
        parts.push(part)?;
    }
    Ok(())
}

/// Parts on the way to being joined: those that are done, and the text that goes on.
#[derive(Drop)]
pub(crate) struct Joining {
    done: Seq<Part>,
    run: Text,
}

// Parts in which texts beside each other are one, and empty ones aren't there.
fn joined_parts(alloc: Global, parts: Seq<Part>) -> Mem<Seq<Part>>
    ensures { IfOk result (λ made. made ≡ spec.joined_parts parts) }
{
    let mut joining = Joining {
        done: Seq::new(alloc),
        run: Text::new(alloc),
    };
    for part in parts.into_vec() {
        join(alloc, &mut joining, part)?;
    }
    end_run(alloc, &mut joining)?;
    let Joining { done, .. } = joining;
    Ok(done)
}

fn join(alloc: Global, joining: &mut Joining, part: Part) -> Mem<()>
    ensures { OnOk result (joining.new ≡ spec.join joining.old part) }
{
    match part {
        Part::Text(text) => joining.run.push_str(text.as_str()),
        Part::Code(code) => {
            end_run(alloc, joining)?;
            joining.done.push(Part::Code(code))
        }
    }
}

// Puts the text that goes on among those that are done, unless it is empty.
fn end_run(alloc: Global, joining: &mut Joining) -> Mem<()>
    ensures { OnOk result (joining.new ≡ spec.end_run joining.old) }
{
    if joining.run.as_str().is_empty() {
        return Ok(());
    }
    let run = std::mem::replace(&mut joining.run, Text::new(alloc));
    joining.done.push(Part::Text(run))
}

// The text that parts are, where no code stands in them.
fn plain_text(alloc: Global, parts: &[Part]) -> Mem<Option<Text>>
    ensures { IfOk result (λ text. text ≡ spec.plain_text parts.now) }
{
    match parts {
        [] => Ok(Some(Text::new(alloc))),
        [part] => only_text(part),
        _ => Ok(None),
    }
}

fn only_text(part: &Part) -> Mem<Option<Text>>
    ensures { IfOk result (λ text. text ≡ spec.only_text part.now) }
{
    match part {
        Part::Text(text) => Ok(Some(text.clone()?)),
        Part::Code(_) => Ok(None),
    }
}

/// Strings beside each other.
pub fn strings(alloc: Global, tokens: &[RubyToken], at: Span, values: Seq<Value>) -> Mem<Value>
    ensures { IfOk result (λ made. made ≡ value.Node (spec.strings tokens.now at values)) }
{
    let one = values.len() == 1;
    let raw = parts_among(alloc, tokens, values)?;
    let parts = joined_parts(alloc, raw)?;
    if !one {
        return made(alloc, at, NodeKind::StrParts(parts));
    }
    let plain = plain_text(alloc, parts.as_slice())?;
    made(alloc, at, str_or_parts(plain, parts))
}

fn str_or_parts(plain: Option<Text>, parts: Seq<Part>) -> NodeKind
    ensures { result ≡ spec.str_or_parts plain parts }
{
    match plain {
        Some(text) => NodeKind::Str(text),
        None => NodeKind::StrParts(parts),
    }
}

/// A symbol in quotes.
pub fn quoted_symbol(
    alloc: Global,
    tokens: &[RubyToken],
    at: Span,
    values: Seq<Value>,
) -> Mem<Value>
    ensures { IfOk result (λ made. made ≡ value.Node (spec.quoted_symbol tokens.now at values)) }
{
    let raw = parts_among(alloc, tokens, values)?;
    let parts = joined_parts(alloc, raw)?;
    let plain = plain_text(alloc, parts.as_slice())?;
    made(alloc, at, sym_or_parts(plain, parts))
}

fn sym_or_parts(plain: Option<Text>, parts: Seq<Part>) -> NodeKind
    ensures { result ≡ spec.sym_or_parts plain parts }
{
    match plain {
        Some(text) => NodeKind::Sym(text),
        None => NodeKind::SymParts(parts),
    }
}

/// A heredoc, at its opening.
pub fn heredoc(alloc: Global, tokens: &[RubyToken], first: usize, values: Seq<Value>) -> Mem<Value>
    ensures { IfOk result (λ made. made ≡ value.Node (spec.heredoc tokens.now first values)) }
{
    let raw = parts_among(alloc, tokens, values)?;
    let parts = joined_parts(alloc, raw)?;
    made(alloc, span_at(tokens, first), NodeKind::StrParts(parts))
}

/// A regexp, whose flags its last token carries.
pub fn regexp(
    alloc: Global,
    tokens: &[RubyToken],
    at: Span,
    behind: usize,
    values: Seq<Value>,
) -> Mem<Value>
    ensures { IfOk result (λ made. made ≡ value.Node (spec.regexp tokens.now at behind values)) }
{
    let raw = parts_among(alloc, tokens, values)?;
    let parts = joined_parts(alloc, raw)?;
    let flags = text_at(alloc, tokens, behind.saturating_sub(1))?;
    made(alloc, at, NodeKind::Regexp { parts, flags })
}

/// A word list.
pub fn word_list(
    alloc: Global,
    tokens: &[RubyToken],
    at: Span,
    first: usize,
    leaves: &[usize],
) -> Mem<Value>
    ensures { IfOk result (λ made. made ≡ value.Node (spec.word_list tokens.now at first leaves.now)) }
{
    let words = words_among(alloc, tokens, leaves)?;
    let kind = words_kind(tokens, first);
    made(alloc, at, NodeKind::Words { kind, words })
}

fn words_among(alloc: Global, tokens: &[RubyToken], leaves: &[usize]) -> Mem<Seq<Text>>
    ensures { IfOk result (λ words. words ≡ spec.words_among tokens.now leaves.now) }
{
    let mut words = Seq::new(alloc);
    for place in leaves {
        if is_word(kind_at(tokens, *place)) {
            words.push(text_at(alloc, tokens, *place)?)?;
        }
    }
    Ok(words)
}

fn words_kind(tokens: &[RubyToken], first: usize) -> WordKind
    ensures { result ≡ spec.words_kind_of (slice_get tokens.now first) }
{
    match tokens.get(first) {
        Some(token) => kind_of_words(&token.value),
        None => WordKind::Strings,
    }
}

fn kind_of_words(value: &RubyValue) -> WordKind
    ensures { result ≡ spec.kind_of_words value.now }
{
    match value {
        RubyValue::Words(WordsOf::Symbols) => WordKind::Symbols,
        _ => WordKind::Strings,
    }
}

fn is_part(kind: RubyKind) -> bool
    ensures { result ≡ spec.is_part kind }
{
    matches!(kind, RubyKind::Part)
}

fn is_word(kind: RubyKind) -> bool
    ensures { result ≡ spec.is_word kind }
{
    matches!(kind, RubyKind::Word)
}
