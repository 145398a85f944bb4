use rbs_parser::parse;
use rbs_printer::{method_text, type_text};
use rbs_tree::{Decl, Member, MethodType, Ty};
use src_text::{Mem, Seq, Text};
use std::alloc::Global;

// How the type of a text is printed.
pub fn type_again(alloc: Global, text: &str) -> Mem<Text> {
    let decls = decls_of(alloc, "type t = ", text, "")?;
    match decls.as_slice() {
        [Decl::Alias { ty, .. }] => type_text(alloc, ty),
        _ => no_such(alloc),
    }
}

// How the method type of a text is printed.
pub fn method_again(alloc: Global, text: &str) -> Mem<Text> {
    let decls = decls_of(alloc, "class C def m: ", text, "\nend")?;
    match decls.as_slice() {
        [Decl::Class { members, .. }] => only_method(alloc, members.as_slice()),
        _ => no_such(alloc),
    }
}

fn only_method(alloc: Global, members: &[Member]) -> Mem<Text> {
    match members {
        [Member::Def { overloads, .. }] => only_overload(alloc, overloads.as_slice()),
        _ => no_such(alloc),
    }
}

fn only_overload(alloc: Global, overloads: &[MethodType]) -> Mem<Text> {
    match overloads {
        [method] => method_text(alloc, method),
        _ => no_such(alloc),
    }
}

// How the type is printed that the type of a text has inside: the result of a proc, or what isn't nil.
pub fn inner_text(alloc: Global, text: &str) -> Mem<Text> {
    let decls = decls_of(alloc, "type t = ", text, "")?;
    match decls.as_slice() {
        [Decl::Alias { ty, .. }] => inner_of(alloc, ty),
        _ => no_such(alloc),
    }
}

fn inner_of(alloc: Global, ty: &Ty) -> Mem<Text> {
    match ty {
        Ty::ProcOf(fun) => type_text(alloc, &fun.get().result),
        Ty::Optional(inner) => type_text(alloc, inner.get()),
        _ => no_such(alloc),
    }
}

// The declarations of a text with others around it; none where it isn't read.
fn decls_of(alloc: Global, before: &str, text: &str, behind: &str) -> Mem<Seq<Decl>> {
    let mut whole = Text::from_str(alloc, before)?;
    whole.push_str(text)?;
    whole.push_str(behind)?;
    let whole = whole.as_str();
    if whole.len() >= 1 << 32 {
        return Ok(Seq::new(alloc));
    }
    match parse(alloc, whole) {
        Ok(decls) => Ok(decls),
        Err(_) => Ok(Seq::new(alloc)),
    }
}

fn no_such(alloc: Global) -> Mem<Text> {
    Text::from_str(alloc, "nothing is read so")
}
