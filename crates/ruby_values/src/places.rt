//! What stands at a place of the tokens.

ghost use Rattle.std.specs.Prelude.{◌≡◌, ◌+◌, IfOk};
ghost use Rattle.ruby_values.specs.Places as spec;

use ruby_lexer::{RubyKind, RubyToken, RubyValue, Sign};
use src_text::{Mem, Span, Text};
use std::alloc::Global;

/// A token's span.
pub fn span_at(tokens: &[RubyToken], place: usize) -> Span
    ensures { result ≡ spec.span_at tokens.now place }
{
    match tokens.get(place) {
        Some(token) => token.span,
        None => Span { start: 0, end: 0 },
    }
}

/// The span of the token behind one.
pub fn span_behind(tokens: &[RubyToken], place: usize) -> Span
    ensures { result ≡ spec.span_at tokens.now (place + 1) }
{
    if place < tokens.len() {
        return span_at(tokens, place + 1);
    }
    Span { start: 0, end: 0 }
}

/// A token's kind.
pub fn kind_at(tokens: &[RubyToken], place: usize) -> RubyKind
    ensures { result ≡ spec.kind_at tokens.now place }
{
    match tokens.get(place) {
        Some(token) => token.kind,
        None => RubyKind::End,
    }
}

/// The text that a token carries.
pub fn text_at(alloc: Global, tokens: &[RubyToken], place: usize) -> Mem<Text>
    ensures { IfOk result (λ text. text ≡ spec.text_at tokens.now place) }
{
    match tokens.get(place) {
        Some(token) => text_of(alloc, &token.value),
        None => Ok(Text::new(alloc)),
    }
}

fn text_of(alloc: Global, value: &RubyValue) -> Mem<Text>
    ensures { IfOk result (λ text. text ≡ spec.text_of value.now) }
{
    match value {
        RubyValue::Text(text) => Ok(text.clone()?),
        _ => Ok(Text::new(alloc)),
    }
}

/// The end of the token before a place.
pub(crate) fn end_before(tokens: &[RubyToken], place: usize) -> u32
    ensures { result ≡ spec.end_before tokens.now place }
{
    if place == 0 {
        return 0;
    }
    span_at(tokens, place - 1).end
}

/// The span of the tokens from one place up to another.
pub fn span_between(tokens: &[RubyToken], first: usize, behind: usize) -> Span
    ensures { result ≡ spec.span_between tokens.now first behind }
{
    Span {
        start: span_at(tokens, first).start,
        end: end_before(tokens, behind),
    }
}

/// The end of the last token before a place that ends no statement.
pub fn end_of_code(tokens: &[RubyToken], behind: usize) -> u32
    ensures { result ≡ spec.end_of_code tokens.now behind }
{
    let mut left = behind;
    while left != 0 {
        if !ends_statement(kind_at(tokens, left - 1)) {
            return span_at(tokens, left - 1).end;
        }
        left -= 1;
    }
    0
}

// A line's end or a `;`.
fn ends_statement(kind: RubyKind) -> bool
    ensures { result ≡ spec.ends_statement kind }
{
    matches!(kind, RubyKind::Newline | RubyKind::Sign(Sign::Semicolon))
}

/// The place of a token among those of a tree.
pub fn leaf(leaves: &[usize], index: usize) -> usize
    ensures { result ≡ spec.leaf leaves.now index }
{
    match leaves.get(index) {
        Some(place) => *place,
        None => 0,
    }
}
