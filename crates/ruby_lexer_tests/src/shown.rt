use ruby_lexer::{RubyAt, RubyToken, RubyValue, tokens};
use std::alloc::Global;
use std::test::Fail;

// A token as its kind, what it carries and where it stands, with a `+` before it where a blank stands there.
fn shown_token(alloc: Global, token: &RubyToken) -> Result<String, Fail> {
    let mut out = String::new(alloc);
    out.push_str(if token.blank { "+" } else { "" })?;
    let kind = token.kind;
    let named = format!(in alloc; "{kind:?}")?;
    out.push_str(named.as_str())?;
    let value = shown_value(alloc, &token.value)?;
    out.push_str(value.as_str())?;
    let start = token.span.start;
    let end = token.span.end;
    let place = format!(in alloc; " {start}-{end}")?;
    out.push_str(place.as_str())?;
    Ok(out)
}

// What a token carries, with a blank before it.
fn shown_value(alloc: Global, value: &RubyValue) -> Result<String, Fail> {
    match value {
        RubyValue::Absent => Ok(String::new(alloc)),
        RubyValue::Text(text) => {
            let text = text.as_str();
            Ok(format!(in alloc; " {text:?}")?)
        }
        RubyValue::Integer(number) => Ok(format!(in alloc; " {number}")?),
        RubyValue::Words(words) => Ok(format!(in alloc; " {words:?}")?),
        RubyValue::Body(span) => {
            let start = span.start;
            let end = span.end;
            Ok(format!(in alloc; " of {start}-{end}")?)
        }
    }
}

/// The tokens of a text, or what is refused.
pub fn shown(alloc: Global, text: &str) -> Result<String, Fail> {
    let mut out = String::new(alloc);
    if text.len() >= 1 << 32 {
        return Ok(out);
    }
    match tokens(alloc, text) {
        Ok(found) => {
            for token in found.as_slice() {
                out.push_str(if out.is_empty() { "" } else { ", " })?;
                let one = shown_token(alloc, token)?;
                out.push_str(one.as_str())?;
            }
            Ok(out)
        }
        Err(refusal) => shown_refusal(alloc, refusal),
    }
}

// What is refused, and where.
fn shown_refusal(alloc: Global, refusal: RubyAt) -> Result<String, Fail> {
    match refusal {
        RubyAt::Syntax(at) => {
            let start = at.start;
            let end = at.end;
            Ok(format!(in alloc; "no token {start}-{end}")?)
        }
        RubyAt::TooDeep(at) => {
            let start = at.start;
            let end = at.end;
            Ok(format!(in alloc; "too deep {start}-{end}")?)
        }
        RubyAt::Unsupported(at, form) => {
            let start = at.start;
            let end = at.end;
            let name = form.name();
            Ok(format!(in alloc; "{name} {start}-{end}")?)
        }
        RubyAt::NoMemory => Ok(String::from_str(alloc, "no memory")?),
    }
}
