use ruby_tree::{ConstPath, Local, MethodName};
use src_text::{Mem, Span, Text};

// A word, behind a blank unless it is the first in its brackets.
pub fn word(out: &mut String, word: &str) -> Mem<()> {
    gap(out)?;
    out.push_str(word)?;
    Ok(())
}

fn gap(out: &mut String) -> Mem<()> {
    match out.as_bytes().last() {
        None => Ok(()),
        Some(b'(') => Ok(()),
        Some(_) => Ok(out.push_str(" ")?),
    }
}

// An opening bracket with the word that stands first in it; none where that is empty.
pub fn open(out: &mut String, first: &str) -> Mem<()> {
    word(out, "(")?;
    out.push_str(first)?;
    Ok(())
}

pub fn close(out: &mut String) -> Mem<()> {
    out.push_str(")")?;
    Ok(())
}

// What isn't there.
pub fn none(out: &mut String) -> Mem<()> {
    word(out, "-")
}

pub fn span(out: &mut String, at: Span) -> Mem<()> {
    let start = at.start;
    let end = at.end;
    gap(out)?;
    write!(out, "{start}-{end}")?;
    Ok(())
}

// An opening bracket with a node's kind and span.
pub fn begin(out: &mut String, kind: &str, at: Span) -> Mem<()> {
    open(out, kind)?;
    span(out, at)
}

pub fn number(out: &mut String, value: i128) -> Mem<()> {
    gap(out)?;
    write!(out, "{value}")?;
    Ok(())
}

// A text in quotes, with a backslash before quotes and backslashes, `\n` for a line's end and `\t` for a tab.
pub fn quoted(out: &mut String, text: &Text) -> Mem<()> {
    word(out, "\"")?;
    for c in text.as_str().chars() {
        character(out, c)?;
    }
    out.push_str("\"")?;
    Ok(())
}

fn character(out: &mut String, c: char) -> Mem<()> {
    match c {
        '"' => out.push_str("\\\"")?,
        '\\' => out.push_str("\\\\")?,
        '\n' => out.push_str("\\n")?,
        '\t' => out.push_str("\\t")?,
        _ => out.push(c)?,
    }
    Ok(())
}

pub fn all_quoted(out: &mut String, texts: &[Text]) -> Mem<()> {
    for text in texts {
        quoted(out, text)?;
    }
    Ok(())
}

pub fn path(out: &mut String, path: &ConstPath) -> Mem<()> {
    word(out, if path.absolute { "::" } else { "" })?;
    for (i, word) in path.words.as_slice().iter().enumerate() {
        out.push_str(if i == 0 { "" } else { "::" })?;
        out.push_str(word.as_str())?;
    }
    Ok(())
}

// A name and where it stands.
pub fn name(out: &mut String, name: &str, at: Span) -> Mem<()> {
    word(out, name)?;
    span(out, at)
}

pub fn method(out: &mut String, method: &MethodName) -> Mem<()> {
    name(out, method.name.as_str(), method.at)
}

// A local variable in brackets, or nothing.
pub fn local_or_none(out: &mut String, local: &Option<Local>) -> Mem<()> {
    match local {
        None => none(out),
        Some(local) => {
            open(out, "")?;
            name(out, local.name.as_str(), local.at)?;
            close(out)
        }
    }
}

// A local variable, if there is one, with what it is before it.
pub fn taken(out: &mut String, kind: &str, local: &Option<Local>) -> Mem<()> {
    open(out, kind)?;
    if let Some(local) = local {
        name(out, local.name.as_str(), local.at)?;
    }
    close(out)
}

pub fn local(out: &mut String, kind: &str, local: &Local) -> Mem<()> {
    open(out, kind)?;
    name(out, local.name.as_str(), local.at)?;
    close(out)
}
