ghost use Rattle.std.specs.Prelude.{◌≡◌, ◌<◌};
ghost use Rattle.sig_rules.specs.Lines.{is_self_type};

use crate::file::{name_of, table_of};
use crate::shown::{alias_text, definition_text, line_text};
use definitions::{FreshTable, build};
use interfaces::shape;
use rbs_printer::type_text;
use rbs_tree::TypeName;
use sig_rules::{
    Both, BuildFault, Definition, Kind, Limit, LimitFault, Lines, Members, Sort, Steps,
};
use src_text::{Mem, NoMemory, Text};
use std::alloc::Global;
use std::marker::Brand;
use std::sync::ledger::{Blank, Ledger};
use type_meaning::sort;

/// The line of a name in the table of a file with this text.
pub fn line(alloc: Global, text: &str, word: &str, kind: Kind) -> Mem<String> {
    let table = sure_table(alloc, text)?;
    match table.line(&name_of(alloc, word)?, kind) {
        None => Ok(String::new(alloc)),
        Some(line) => line_text(alloc, line),
    }
}

// A table that has too much of something counts as too much for the memory.
fn sure_table(alloc: Global, text: &str) -> Mem<FreshTable> {
    match table_of(alloc, text) {
        Ok(table) => Ok(table),
        Err(_) => Err(NoMemory),
    }
}

/// What the table of a file with this text has of a side of a class or a module, or of an interface.
pub fn side(alloc: Global, text: &str, word: &str, kind: Kind) -> Mem<String> {
    let table = sure_table(alloc, text)?;
    match definition_of(&table, &name_of(alloc, word)?, kind) {
        None => Ok(String::new(alloc)),
        Some(definition) => definition_text(alloc, &table, definition),
    }
}

fn definition_of<'a>(table: &'a FreshTable, name: &TypeName, kind: Kind) -> Option<&'a Definition> {
    match table.shape(name) {
        None => table.definition(name, kind),
        Some(shape) => Some(shape),
    }
}

/// The same, made for this name alone.
pub fn side_alone(alloc: Global, text: &str, word: &str, kind: Kind) -> Mem<String> {
    let table = sure_table(alloc, text)?;
    match made_alone::<Brand>(alloc, &table, &name_of(alloc, word)?, kind, Blank::new(1)) {
        Ok(definition) => definition_text(alloc, &table, &definition),
        Err(_) => Err(NoMemory),
    }
}

// A side of a class or a module, or the shape of an interface, with a ledger for its step. What has no line counts as too much for the memory.
fn made_alone<G: Ledger>(
    alloc: Global,
    table: &FreshTable,
    name: &TypeName,
    kind: Kind,
    blank: Blank,
) -> Result<Definition, BuildFault>
    requires name { blank.name ≡ G.name }
    requires parts { blank.parts ≡ G.parts }
    requires some { 0 < G.parts }
{
    let sort = sort(table, name);
    if !has_lines(sort) {
        return Err(BuildFault::NoMemory);
    }
    let mut steps = Steps::<G>::new(blank);
    if sort == Sort::Interface {
        return shape(alloc, table, name, &mut steps);
    }
    let both = build(alloc, table, name, &mut steps)?;
    Ok(one_of(both, kind))
}

fn has_lines(sort: Sort) -> bool
    ensures { result ≡ is_self_type sort }
{
    match sort {
        Sort::Class => true,
        Sort::Module => true,
        Sort::Interface => true,
        _ => false,
    }
}

fn one_of(both: Both, kind: Kind) -> Definition {
    match kind {
        Kind::Instance => both.instance,
        Kind::Singleton => both.singleton,
    }
}

/// What an alias of this word stands for, behind its type parameters, or the type of the value that is asked for so.
pub fn standing(alloc: Global, text: &str, word: &str) -> Mem<Text> {
    let table = sure_table(alloc, text)?;
    match table.alias(&name_of(alloc, word)?) {
        None => value_text(alloc, &table, &Text::from_str(alloc, word)?),
        Some((params, ty)) => alias_text(alloc, params.as_slice(), ty),
    }
}

fn value_text(alloc: Global, table: &FreshTable, name: &Text) -> Mem<Text> {
    match table.value(name) {
        None => Text::from_str(alloc, "nothing"),
        Some(ty) => type_text(alloc, ty),
    }
}

/// How many methods a definition has, where a declaration of this head with so many methods is too much for a table.
pub fn too_many(alloc: Global, head: &str, member: &str, count: u64) -> Mem<Option<u64>> {
    let text = with_methods(alloc, head, member, count)?;
    match table_of(alloc, text.as_str()) {
        Ok(_) => Ok(None),
        Err(LimitFault::Limit(Limit::Methods, count)) => Ok(Some(count)),
        Err(_) => Err(NoMemory),
    }
}

// A declaration of this head with so many methods, whose names begin as this member does.
fn with_methods(alloc: Global, head: &str, member: &str, count: u64) -> Mem<String> {
    let mut out = String::new(alloc);
    out.push_str(head)?;
    for i in 0..count {
        let number = format!(in alloc; "{i}: () -> 1\n")?;
        out.push_str(member)?;
        out.push_str(number.as_str())?;
    }
    out.push_str("end\n")?;
    Ok(out)
}
