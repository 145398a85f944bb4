use rbs_tree::TypeName;
use src_text::{Mem, Span, Text};

// A word, behind a blank unless it is the first in its brackets.
pub fn word(out: &mut String, word: &str) -> Mem<()> {
    gap(out)?;
    out.push_str(word)?;
    Ok(())
}

fn gap(out: &mut String) -> Mem<()> {
    match out.as_bytes().last() {
        None => Ok(()),
        Some(b'(') => Ok(()),
        Some(_) => Ok(out.push_str(" ")?),
    }
}

// An opening bracket with the word that stands first in it; none where that is empty.
pub fn open(out: &mut String, first: &str) -> Mem<()> {
    word(out, "(")?;
    out.push_str(first)?;
    Ok(())
}

pub fn close(out: &mut String) -> Mem<()> {
    out.push_str(")")?;
    Ok(())
}

pub fn span(out: &mut String, at: Span) -> Mem<()> {
    let start = at.start;
    let end = at.end;
    gap(out)?;
    write!(out, "{start}:{end}")?;
    Ok(())
}

pub fn number(out: &mut String, value: i128) -> Mem<()> {
    gap(out)?;
    write!(out, "{value}")?;
    Ok(())
}

// A text in quotes, with a backslash before quotes and backslashes, and `\n` for a line's end.
pub fn quoted(out: &mut String, text: &Text) -> Mem<()> {
    word(out, "\"")?;
    for c in text.as_str().chars() {
        character(out, c)?;
    }
    out.push_str("\"")?;
    Ok(())
}

fn character(out: &mut String, c: char) -> Mem<()> {
    match c {
        '"' => out.push_str("\\\"")?,
        '\\' => out.push_str("\\\\")?,
        '\n' => out.push_str("\\n")?,
        _ => out.push(c)?,
    }
    Ok(())
}

pub fn quoted_or_none(out: &mut String, text: &Option<Text>) -> Mem<()> {
    match text {
        None => word(out, "-"),
        Some(text) => quoted(out, text),
    }
}

pub fn all_quoted(out: &mut String, texts: &[Text]) -> Mem<()> {
    open(out, "")?;
    for text in texts {
        quoted(out, text)?;
    }
    close(out)
}

pub fn name(out: &mut String, name: &TypeName) -> Mem<()> {
    open(out, "n")?;
    span(out, name.at)?;
    out.push_str(" \"")?;
    out.push_str(if name.absolute { "::" } else { "" })?;
    path(out, name.path.as_slice())?;
    out.push_str("\")")?;
    Ok(())
}

fn path(out: &mut String, words: &[Text]) -> Mem<()> {
    for (i, word) in words.iter().enumerate() {
        out.push_str(if i == 0 { "" } else { "::" })?;
        out.push_str(word.as_str())?;
    }
    Ok(())
}
