ghost use Rattle.std.specs.Prelude.{◌≡◌, ◌<◌, ◌+◌, ◌^◌, Ok};
ghost use Rattle.ruby_lexer.specs.declared.token.RubyValue.TheVariants as value;
ghost use Rattle.ruby_lexer.specs.Tokens as spec;
ghost use Rattle.ruby_lexer.specs.Answers.{Gives};

use crate::kind::RubyKind;
use crate::kinds::alias_behind;
use crate::refusal::{Form, RubyAt};
use crate::state::{Alias, State};
use crate::token::{RubyToken, RubyValue};
use src_text::{Span, Text};
use std::alloc::Global;

/// The text from a place to another, as far as it goes.
pub fn slice(text: &[u8], start: usize, end: usize) -> &[u8]
    ensures { result.now ≡ spec.slice text.now start end }
{
    if start <= end && end <= text.len() {
        &text[start..end]
    } else if start <= end && start <= text.len() {
        &text[start..]
    } else {
        &[]
    }
}

/// The value that a text is. A text that isn't whole characters is answered as out of memory; runs of a text's characters are.
pub fn text_value(alloc: Global, bytes: &[u8]) -> Result<RubyValue, RubyAt>
    ensures { Gives result (Ok (value.Text bytes.now)) }
{
    match std::str::from_utf8(bytes) {
        Ok(text) => Ok(RubyValue::Text(Text::from_str(alloc, text)?)),
        Err(_) => Err(RubyAt::NoMemory),
    }
}

/// The token that begins where the lexer stands and has so many bytes.
pub fn token(state: State, kind: RubyKind, value: RubyValue, len: usize) -> RubyToken
    requires { state.place + len < 2 ^ 32 }
    ensures { result ≡ spec.token state kind value len }
{
    RubyToken {
        kind,
        value,
        span: span(state.place, len),
        blank: state.blank,
    }
}

fn span(place: usize, len: usize) -> Span
    requires { place + len < 2 ^ 32 }
    ensures { result ≡ record { start = place; end = place + len } }
{
    Span {
        start: place as u32,
        end: (place + len) as u32,
    }
}

/// At the text's start.
pub fn start() -> State
    ensures { result ≡ spec.start }
{
    State {
        place: 0,
        blank: false,
        line_start: true,
        last: None,
        before: None,
        last_span: Span { start: 0, end: 0 },
        alias: Alias::Neither,
        bodies_end: None,
        part_start: 0,
    }
}

/// Behind a token.
pub fn put(state: State, token: &RubyToken) -> State
    ensures { result ≡ spec.put state token.now }
{
    State {
        place: token.span.end as usize,
        blank: false,
        line_start: false,
        last: Some(token.kind),
        before: state.last,
        last_span: token.span,
        alias: alias_behind(state.alias, token.kind),
        bodies_end: state.bodies_end,
        part_start: token.span.end,
    }
}

/// No token stands at the place, whose character has so many bytes.
pub fn no_token(place: usize, len: usize) -> RubyAt
    requires { place + len < 2 ^ 32 }
    ensures { result ≡ spec.no_token place len }
{
    RubyAt::Syntax(span(place, len))
}

/// The form that stands from here on for so many bytes is refused.
pub fn refused(state: State, len: usize, form: Form) -> RubyAt
    requires { state.place + len < 2 ^ 32 }
    ensures { result ≡ spec.refused state len form }
{
    RubyAt::Unsupported(span(state.place, len), form)
}

/// The span of the character here, which is one of ASCII.
pub fn here(state: State) -> Span
    requires { state.place + 1 < 2 ^ 32 }
    ensures { result ≡ spec.here state }
{
    span(state.place, 1)
}

/// The place behind a line's end, where the plain place behind it is this.
pub fn behind_line(bodies_end: Option<usize>, place: usize) -> usize
    ensures { result ≡ spec.behind_line bodies_end place }
{
    match bodies_end {
        Some(bodies_end) => bodies_end,
        None => place,
    }
}
