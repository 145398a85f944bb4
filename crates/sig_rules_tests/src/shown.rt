use name_resolver::resolve_noted;
use rbs_parser::{ParseFault, parse};
use rbs_tree::{Decl, Ty, TypeName, copy_name};
use sig_rules::{Declared, FileTree, Table, TableFault};
use src_text::{Mem, NoMemory, Seq, Text};
use std::alloc::Global;

// The declarations of a text; of one that has none, none.
fn decls_of(alloc: Global, text: &str) -> Mem<Seq<Decl>> {
    if text.len() >= 1 << 32 {
        return Ok(Seq::new(alloc));
    }
    match parse(alloc, text) {
        Ok(decls) => Ok(decls),
        Err(ParseFault::NoMemory) => Err(NoMemory),
        Err(_) => Ok(Seq::new(alloc)),
    }
}

// The table of a text's declarations.
fn table_of(alloc: Global, text: &str) -> Mem<Table> {
    let path = Text::from_str(alloc, "sig/a.rbs")?;
    let decls = decls_of(alloc, text)?;
    let mut files = Seq::new(alloc);
    files.push(FileTree { path, decls })?;
    match Table::new(alloc, files.as_slice()) {
        Ok(table) => Ok(table),
        Err(TableFault::Names(_)) => Err(NoMemory),
        Err(TableFault::NoMemory) => Err(NoMemory),
    }
}

// The names of types between brackets, as `[A, B::C]`.
fn names_of(alloc: Global, tuple: &str) -> Mem<Seq<TypeName>> {
    let text = format!(in alloc; "type t = {tuple}")?;
    let decls = decls_of(alloc, text.as_str())?;
    let mut names = Seq::new(alloc);
    if let [Decl::Alias { ty, .. }] = decls.as_slice() {
        put_names(alloc, ty, &mut names)?;
    }
    Ok(names)
}

fn put_names(alloc: Global, ty: &Ty, names: &mut Seq<TypeName>) -> Mem<()> {
    if let Ty::TupleOf(tys) = ty {
        for ty in tys.as_slice() {
            put_name(alloc, ty, names)?;
        }
    }
    Ok(())
}

fn put_name(alloc: Global, ty: &Ty, names: &mut Seq<TypeName>) -> Mem<()> {
    match ty {
        Ty::Instance(name, _) => names.push(copy_name(alloc, name)?),
        Ty::Interface(name, _) => names.push(copy_name(alloc, name)?),
        Ty::Alias(name, _) => names.push(copy_name(alloc, name)?),
        _ => Ok(()),
    }
}

fn name(out: &mut String, name: &TypeName) -> Mem<()> {
    let mut first = true;
    for word in name.path.as_slice() {
        if !first {
            out.push_str("::")?;
        }
        first = false;
        out.push_str(word.as_str())?;
    }
    Ok(())
}

/// What the last of the names stands for among the others, of which the last is the innermost, and the names that are asked.
pub fn resolution(alloc: Global, text: &str, names: &str) -> Mem<String> {
    let table = table_of(alloc, text)?;
    let names = names_of(alloc, names)?;
    let mut noted = Seq::new(alloc);
    let mut out = String::new(alloc);
    if let [context @ .., asked] = names.as_slice() {
        match resolve_noted(alloc, &table, context, asked, &mut noted)? {
            None => out.push_str("none")?,
            Some(found) => name(&mut out, &found)?,
        }
    }
    out.push_str(" of")?;
    for one in noted.as_slice() {
        out.push_str(" ")?;
        name(&mut out, one)?;
    }
    Ok(out)
}

/// The declarations that count of each of the names.
pub fn counting(alloc: Global, text: &str, names: &str) -> Mem<String> {
    let table = table_of(alloc, text)?;
    let names = names_of(alloc, names)?;
    let mut out = String::new(alloc);
    for one in names.as_slice() {
        name(&mut out, one)?;
        out.push_str(":")?;
        for entry in table.entries(one) {
            declared(&mut out, entry)?;
        }
        out.push_str(";")?;
    }
    Ok(out)
}

/// All declarations.
pub fn all(alloc: Global, text: &str, count: u64) -> Mem<String> {
    let table = table_of(alloc, text)?;
    let mut out = String::new(alloc);
    for i in 0..count {
        match table.decl_at(i) {
            None => out.push_str(" none")?,
            Some(entry) => declared(&mut out, entry)?,
        }
    }
    Ok(out)
}

// A declaration: its kind, its name as it is written and how many members of its own it has, behind its enclosing names.
fn declared(out: &mut String, declared: &Declared) -> Mem<()> {
    out.push_str(" ")?;
    for enclosing in declared.context.as_slice() {
        name(out, enclosing)?;
        out.push_str(">")?;
    }
    match &declared.decl {
        Decl::Class { name, members, .. } => piece(out, "class", name, members.len()),
        Decl::Module { name, members, .. } => piece(out, "module", name, members.len()),
        Decl::Interface { name, members, .. } => piece(out, "interface", name, members.len()),
        Decl::Alias { name, .. } => piece(out, "type", name, 0),
        Decl::Constant { name, .. } => piece(out, "constant", name, 0),
        Decl::Global { name, .. } => Ok(out.push_str(name.as_str())?),
        Decl::Use(_) => Ok(out.push_str("use")?),
        Decl::ClassAlias { name, .. } => piece(out, "class-alias", name, 0),
        Decl::ModuleAlias { name, .. } => piece(out, "module-alias", name, 0),
    }
}

fn piece(out: &mut String, kind: &str, written: &TypeName, members: usize) -> Mem<()> {
    out.push_str(kind)?;
    out.push_str("(")?;
    name(out, written)?;
    for _ in 0..members {
        out.push_str(".")?;
    }
    out.push_str(")")?;
    Ok(())
}
