use crate::file::is_own;
use definitions::FreshTable;
use rbs_printer::{method_text, type_text};
use rbs_tree::{MethodType, Ty, TypeName, copy_name, copy_tys};
use sig_rules::{Definition, Kind, Line, Method, Visibility};
use src_text::{Mem, Seq, Text};
use std::alloc::Global;

/// A line as types, and whether it is cut.
pub fn line_text(alloc: Global, line: &Line) -> Mem<String> {
    let mut out = String::new(alloc);
    for step in line.steps.as_slice() {
        let step = step.get();
        if !out.is_empty() {
            out.push_str(" ")?;
        }
        let text = step_text(alloc, step.kind, &step.name, step.args.as_slice())?;
        out.push_str(text.as_str())?;
    }
    if line.cut {
        out.push_str(" cut")?;
    }
    Ok(out)
}

// A step as the type of what it stands for.
fn step_text(alloc: Global, kind: Kind, name: &TypeName, args: &[Ty]) -> Mem<Text> {
    let name = copy_name(alloc, name)?;
    let args = copy_tys(alloc, args)?;
    type_text(alloc, &step_type(kind, name, args))
}

fn step_type(kind: Kind, name: TypeName, args: Seq<Ty>) -> Ty {
    match kind {
        Kind::Instance => Ty::Instance(name, args),
        Kind::Singleton => Ty::Singleton(name),
    }
}

/// The methods of a definition but those that only the core signatures declare, how many these are, and the variables: a line for each, in
/// the order of the lines as texts.
pub fn definition_text(alloc: Global, table: &FreshTable, definition: &Definition) -> Mem<String> {
    let mut lines = Seq::new(alloc);
    put_methods(alloc, table, definition, &mut lines)?;
    for entry in definition.variables.as_slice() {
        let (name, ty) = entry.get();
        lines.push(variable_line(alloc, name, ty)?)?;
    }
    sorted(alloc, lines)
}

fn put_methods(
    alloc: Global,
    table: &FreshTable,
    definition: &Definition,
    lines: &mut Seq<Text>,
) -> Mem<()> {
    let mut others: u64 = 0;
    for entry in definition.methods.as_slice() {
        let (name, method) = entry.get();
        if is_own(table, &method.owner) {
            lines.push(method_line(alloc, name, method)?)?;
        } else {
            others = others.saturating_add(1);
        }
    }
    let count = format!(in alloc; "{others} of the core")?;
    lines.push(Text::from_str(alloc, count.as_str())?)
}

// A method with its name, its owner on the side on which that declares it, its visibility and its overloads.
fn method_line(alloc: Global, name: &Text, method: &Method) -> Mem<Text> {
    let mut out = Text::from_str(alloc, name.as_str())?;
    out.push_str(" => ")?;
    out.push_str(step_text(alloc, method.kind, &method.owner, &[])?.as_str())?;
    out.push_str(visibility_word(method.visible))?;
    put_overloads(alloc, &mut out, method.overloads.as_slice())?;
    Ok(out)
}

fn visibility_word(visible: Visibility) -> &'static str {
    match visible {
        Visibility::Public => " public: ",
        Visibility::Private => " private: ",
    }
}

fn put_overloads(alloc: Global, out: &mut Text, overloads: &[MethodType]) -> Mem<()> {
    let mut first = true;
    for overload in overloads {
        if !first {
            out.push_str(" | ")?;
        }
        first = false;
        out.push_str(method_text(alloc, overload)?.as_str())?;
    }
    Ok(())
}

fn variable_line(alloc: Global, name: &Text, ty: &Ty) -> Mem<Text> {
    let mut out = Text::from_str(alloc, name.as_str())?;
    out.push_str(": ")?;
    out.push_str(type_text(alloc, ty)?.as_str())?;
    Ok(out)
}

// These lines in their order as texts.
fn sorted(alloc: Global, lines: Seq<Text>) -> Mem<String> {
    let mut lines = lines.into_vec();
    lines.sort_unstable();
    let mut out = String::new(alloc);
    for line in lines.as_slice() {
        out.push_str(line.as_str())?;
        out.push_str("\n")?;
    }
    Ok(out)
}

/// What an alias with these type parameters stands for, behind them.
pub fn alias_text(alloc: Global, params: &[Text], ty: &Ty) -> Mem<Text> {
    let mut out = Text::new(alloc);
    for param in params {
        out.push_str(param.as_str())?;
        out.push_str(" ")?;
    }
    out.push_str("= ")?;
    out.push_str(type_text(alloc, ty)?.as_str())?;
    Ok(out)
}
