ghost use Rattle.std.specs.Prelude.{◌≡◌, ◌++◌, OnOk, IfOk, string_bytes};
ghost use Rattle.std.specs.Char.{encode_utf8};
ghost use Rattle.rbs_printer.specs.Lists as lists;
ghost use Rattle.rbs_printer.specs.Words as spec;

use rbs_lexer::is_symbol_name;
use rbs_tree::TypeName;
use src_text::{Mem, Text};
use std::alloc::Global;

/// Prints a name.
#[tactic(auto, unfolding(crate::specs::Words::name_text))]
pub fn name(out: &mut Text, name: &TypeName) -> Mem<()>
    ensures { OnOk result (out.new ≡ out.old ++ spec.name_text name.now) }
{
    if name.absolute {
        out.push_str("::")?;
    }
    separated(out, "::", name.path.as_slice())
}

/// Prints some words with a sign between them.
pub fn separated(out: &mut Text, sign: &str, words: &[Text]) -> Mem<()>
    ensures { OnOk result (out.new ≡ out.old ++ spec.separated sign.now words.now) }
{
    match words {
        [] => Ok(()),
        [first, more @ ..] => {
            out.push_str(first.as_str())?;
            behind_each(out, sign, more)
        }
    }
}

// Prints some words, each with a sign before it.
fn behind_each(out: &mut Text, sign: &str, words: &[Text]) -> Mem<()>
    ensures { OnOk result (out.new ≡ out.old ++ spec.behind_each sign.now words.now) }
{
    let mut rest = words;
    while let [word, more @ ..] = rest {
        out.push_str(sign)?;
        out.push_str(word.as_str())?;
        rest = more;
    }
    Ok(())
}

/// Prints what stands between the texts of a list, where one stands before.
pub fn comma(out: &mut Text, begun: bool) -> Mem<()>
    ensures { OnOk result (out.new ≡ out.old ++ lists.comma begun) }
{
    out.push_str(if begun { ", " } else { "" })
}

/// Prints a string literal of a value.
#[tactic(auto, unfolding(crate::specs::Words::string_text))]
pub fn string(alloc: Global, out: &mut Text, value: &str) -> Mem<()>
    ensures { OnOk result (out.new ≡ out.old ++ spec.string_text value.now) }
{
    let inner = escaped(alloc, value)?;
    out.push_str("\"")?;
    out.push_str(inner.as_str())?;
    out.push_str("\"")
}

// The value as it stands between the quotes.
fn escaped(alloc: Global, value: &str) -> Mem<Text>
    ensures { IfOk result (λ text. text ≡ spec.escaped value.now) }
{
    let mut out = String::new(alloc);
    for c in value.chars() {
        escape(&mut out, c)?;
    }
    Ok(Text::from_string(out))
}

// Prints a character as it stands between the quotes.
#[tactic(auto, using(crate::proofs::Escapes::escaped_other, crate::proofs::Escapes::escaped_ascii))]
fn escape(out: &mut String, c: char) -> Mem<()>
    ensures { OnOk result (string_bytes out.new ≡ string_bytes out.old ++ spec.escaped (encode_utf8 c)) }
{
    match c {
        '"' => out.push_str("\\\"")?,
        '\\' => out.push_str("\\\\")?,
        '\n' => out.push_str("\\n")?,
        '\t' => out.push_str("\\t")?,
        _ => out.push(c)?,
    }
    Ok(())
}

/// Prints a symbol of a name.
#[tactic(auto, unfolding(crate::specs::Words::symbol_text))]
pub fn symbol(alloc: Global, out: &mut Text, name: &str) -> Mem<()>
    ensures { OnOk result (out.new ≡ out.old ++ spec.symbol_text name.now) }
{
    out.push_str(":")?;
    if names_itself(name) {
        out.push_str(name)
    } else {
        string(alloc, out, name)
    }
}

// Whether a symbol's name stands behind its `:` with no quotes.
#[tactic(auto, unfolding(crate::specs::Words::names_itself))]
fn names_itself(name: &str) -> bool
    ensures { result ≡ spec.names_itself name.now }
{
    is_symbol_name(name)
}

/// Prints an integer.
#[tactic(auto, unfolding(crate::specs::Words::integer_text))]
pub fn integer(alloc: Global, out: &mut Text, value: i128) -> Mem<()>
    ensures { OnOk result (out.new ≡ out.old ++ spec.integer_text value) }
{
    let digits = format!(in alloc; "{value}")?;
    out.push_str(digits.as_str())
}
