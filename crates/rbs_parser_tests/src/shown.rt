use crate::pieces::{close, name, open, quoted, quoted_or_none, span, word};
use crate::shown_types::{applied, method, ty};
use rbs_parser::{ParseFault, parse};
use rbs_tree::{
    AttrVar, Clause, Decl, Member, MethodType, Ref, Side, Sign, Ty, TypeName, TypeParam, VarScope,
};
use src_text::{Mem, Seq, Span, Text};
use std::alloc::Global;

// What `parse` answers for a text: its tree in brackets, or the kind of refusal and where.
pub fn shown(alloc: Global, text: &str) -> Mem<String> {
    let mut out = String::new(alloc);
    if text.len() >= 1 << 32 {
        return Ok(out);
    }
    match parse(alloc, text) {
        Ok(decls) => file(&mut out, decls.as_slice())?,
        Err(ParseFault::Syntax(at)) => refusal(&mut out, "Syntax", at)?,
        Err(ParseFault::TooDeep(at)) => refusal(&mut out, "TooDeep", at)?,
        Err(ParseFault::NoMemory) => word(&mut out, "NoMemory")?,
    }
    Ok(out)
}

fn refusal(out: &mut String, kind: &str, at: Span) -> Mem<()> {
    word(out, kind)?;
    span(out, at)
}

fn file(out: &mut String, decls: &[Decl]) -> Mem<()> {
    open(out, "file")?;
    for one in decls {
        decl(out, one)?;
    }
    close(out)
}

#[cycle(show_decls)]
fn decl(out: &mut String, decl: &Decl) -> Mem<()> {
    match decl {
        Decl::Class {
            name,
            params,
            superclass,
            members,
        } => {
            head(out, "class", name, params)?;
            ref_or_none(out, superclass)?;
            body(out, members.as_slice())
        }
        Decl::Module {
            name,
            params,
            self_types,
            members,
        } => {
            head(out, "module", name, params)?;
            refs(out, self_types.as_slice())?;
            body(out, members.as_slice())
        }
        Decl::Interface {
            name,
            params,
            members,
        } => {
            head(out, "interface", name, params)?;
            body(out, members.as_slice())
        }
        Decl::Alias { name, params, ty } => {
            head(out, "type", name, params)?;
            last(out, ty)
        }
        Decl::Constant { name, ty } => constant(out, name, ty),
        Decl::Global { name, at, ty } => {
            named(out, "global", *at, name)?;
            last(out, ty)
        }
        Decl::Use(clauses) => uses(out, clauses.as_slice()),
        Decl::ClassAlias { name, target } => other_name(out, "class-alias", name, target),
        Decl::ModuleAlias { name, target } => other_name(out, "module-alias", name, target),
    }
}

// The members of a declaration and its closing bracket.
#[cycle(show_decls)]
fn body(out: &mut String, members: &[Member]) -> Mem<()> {
    open(out, "")?;
    for one in members {
        member(out, one)?;
    }
    out.push_str("))")?;
    Ok(())
}

#[cycle(show_decls)]
fn member(out: &mut String, member: &Member) -> Mem<()> {
    match member {
        Member::Nested(inner) => decl(out, inner),
        Member::Def {
            name,
            at,
            side,
            public,
            overloads,
            more,
        } => {
            named(out, "def", *at, name)?;
            word(out, side_word(*side))?;
            word(out, visibility(*public))?;
            word(out, if *more { "more" } else { "whole" })?;
            methods(out, overloads.as_slice())
        }
        Member::Attr {
            name,
            at,
            side,
            public,
            reads,
            writes,
            variable,
            ty,
        } => {
            named(out, "attr", *at, name)?;
            word(out, side_word(*side))?;
            word(out, visibility(*public))?;
            word(out, access(*reads, *writes))?;
            attribute_variable(out, variable)?;
            last(out, ty)
        }
        Member::Include(of) => mixin(out, "include", of),
        Member::Extend(of) => mixin(out, "extend", of),
        Member::Prepend(of) => mixin(out, "prepend", of),
        Member::AliasOf {
            new_name,
            at,
            old_name,
            side,
        } => {
            named(out, "alias", *at, new_name)?;
            quoted(out, old_name)?;
            word(out, side_word(*side))?;
            close(out)
        }
        Member::Public => word(out, "(public)"),
        Member::Private => word(out, "(private)"),
        Member::Variable {
            name,
            at,
            scope,
            ty,
        } => {
            named(out, "var", *at, name)?;
            word(out, scope_word(*scope))?;
            last(out, ty)
        }
    }
}

fn head(out: &mut String, kind: &str, of: &TypeName, params: &Seq<TypeParam>) -> Mem<()> {
    open(out, kind)?;
    name(out, of)?;
    open(out, "")?;
    for param in params.as_slice() {
        type_param(out, param)?;
    }
    close(out)
}

fn type_param(out: &mut String, param: &TypeParam) -> Mem<()> {
    named(out, "tp", param.at, &param.name)?;
    word(
        out,
        if param.unchecked {
            "unchecked"
        } else {
            "checked"
        },
    )?;
    word(out, sign_word(param.sign))?;
    match &param.bound {
        None => word(out, "-")?,
        Some(bound) => ty(out, bound)?,
    }
    close(out)
}

// A type, and the closing bracket of what it stands last in.
fn last(out: &mut String, one: &Ty) -> Mem<()> {
    ty(out, one)?;
    close(out)
}

fn named(out: &mut String, kind: &str, at: Span, name: &Text) -> Mem<()> {
    open(out, kind)?;
    span(out, at)?;
    quoted(out, name)
}

fn constant(out: &mut String, of: &TypeName, ty: &Ty) -> Mem<()> {
    open(out, "const")?;
    name(out, of)?;
    last(out, ty)
}

fn other_name(out: &mut String, kind: &str, of: &TypeName, target: &TypeName) -> Mem<()> {
    open(out, kind)?;
    name(out, of)?;
    name(out, target)?;
    close(out)
}

fn uses(out: &mut String, clauses: &[Clause]) -> Mem<()> {
    open(out, "use")?;
    for clause in clauses {
        open(out, "clause")?;
        name(out, &clause.name)?;
        word(out, if clause.all { "all" } else { "one" })?;
        quoted_or_none(out, &clause.renamed)?;
        close(out)?;
    }
    close(out)
}

fn reference(out: &mut String, of: &Ref) -> Mem<()> {
    applied(out, "ref", &of.name, of.args.as_slice())
}

fn ref_or_none(out: &mut String, of: &Option<Ref>) -> Mem<()> {
    match of {
        None => word(out, "-"),
        Some(of) => reference(out, of),
    }
}

fn refs(out: &mut String, refs: &[Ref]) -> Mem<()> {
    open(out, "")?;
    for of in refs {
        reference(out, of)?;
    }
    close(out)
}

fn mixin(out: &mut String, kind: &str, of: &Ref) -> Mem<()> {
    open(out, kind)?;
    reference(out, of)?;
    close(out)
}

fn methods(out: &mut String, overloads: &[MethodType]) -> Mem<()> {
    for fun in overloads {
        method(out, fun)?;
    }
    close(out)
}

fn attribute_variable(out: &mut String, variable: &AttrVar) -> Mem<()> {
    match variable {
        AttrVar::Same => word(out, "same"),
        AttrVar::Absent => word(out, "absent"),
        AttrVar::Named(name) => quoted(out, name),
    }
}

fn access(reads: bool, writes: bool) -> &'static str {
    match (reads, writes) {
        (true, true) => "rw",
        (true, false) => "r",
        (false, true) => "w",
        (false, false) => "none",
    }
}

fn visibility(public: Option<bool>) -> &'static str {
    match public {
        None => "-",
        Some(true) => "public",
        Some(false) => "private",
    }
}

fn side_word(side: Side) -> &'static str {
    match side {
        Side::Instance => "instance",
        Side::Singleton => "singleton",
        Side::Both => "both",
    }
}

fn sign_word(sign: Sign) -> &'static str {
    match sign {
        Sign::Unmarked => "unmarked",
        Sign::Covariant => "out",
        Sign::Contravariant => "in",
    }
}

fn scope_word(scope: VarScope) -> &'static str {
    match scope {
        VarScope::Instance => "instance",
        VarScope::Singleton => "singleton",
        VarScope::Class => "class",
    }
}
