use crate::pieces::{all_quoted, close, name, number, open, quoted, quoted_or_none, word};
use rbs_tree::{BlockType, Field, Keyword, MethodType, Param, Ty, TypeName};
use src_text::{Boxed, Mem, Text};

#[cycle(show)]
pub fn ty(out: &mut String, one: &Ty) -> Mem<()> {
    match one {
        Ty::Instance(name, args) => applied(out, "instance", name, args.as_slice()),
        Ty::Interface(name, args) => applied(out, "iface", name, args.as_slice()),
        Ty::Alias(name, args) => applied(out, "alias-ty", name, args.as_slice()),
        Ty::Singleton(name) => applied(out, "singleton", name, &[]),
        Ty::IntLit(value) => integer(out, *value),
        Ty::StrLit(text) => literal(out, "str", text),
        Ty::SymLit(text) => literal(out, "sym", text),
        Ty::Var(name) => literal(out, "var", name),
        Ty::Union(tys) => listed(out, "union", tys.as_slice()),
        Ty::Inter(tys) => listed(out, "inter", tys.as_slice()),
        Ty::TupleOf(tys) => listed(out, "tuple", tys.as_slice()),
        Ty::Optional(inner) => {
            open(out, "opt")?;
            ty(out, inner.get())?;
            close(out)
        }
        Ty::RecordOf(fields) => record(out, fields.as_slice()),
        Ty::ProcOf(fun) => {
            open(out, "proc")?;
            method(out, fun.get())?;
            close(out)
        }
        _ => base(out, one),
    }
}

fn integer(out: &mut String, value: i128) -> Mem<()> {
    open(out, "int")?;
    number(out, value)?;
    close(out)
}

fn literal(out: &mut String, kind: &str, text: &Text) -> Mem<()> {
    open(out, kind)?;
    quoted(out, text)?;
    close(out)
}

fn base(out: &mut String, ty: &Ty) -> Mem<()> {
    open(out, "base")?;
    word(out, word_of(ty))?;
    close(out)
}

// The word of a type that is one word.
fn word_of(ty: &Ty) -> &'static str {
    match ty {
        Ty::True => "true",
        Ty::False => "false",
        Ty::Bool => "bool",
        Ty::Nil => "nil",
        Ty::Top => "top",
        Ty::Bot => "bot",
        Ty::Void => "void",
        Ty::Untyped => "untyped",
        Ty::SelfTy => "self",
        Ty::InstanceTy => "instance",
        Ty::ClassTy => "class",
        _ => "no word",
    }
}

#[cycle(show)]
pub fn applied(out: &mut String, kind: &str, of: &TypeName, args: &[Ty]) -> Mem<()> {
    open(out, kind)?;
    name(out, of)?;
    tys(out, args)?;
    close(out)
}

#[cycle(show)]
fn listed(out: &mut String, kind: &str, items: &[Ty]) -> Mem<()> {
    open(out, kind)?;
    tys(out, items)?;
    close(out)
}

#[cycle(show)]
fn tys(out: &mut String, items: &[Ty]) -> Mem<()> {
    for item in items {
        ty(out, item)?;
    }
    Ok(())
}

#[cycle(show)]
fn record(out: &mut String, fields: &[Field]) -> Mem<()> {
    open(out, "record")?;
    for field in fields {
        open(out, "")?;
        quoted(out, &field.key)?;
        ty(out, &field.ty)?;
        close(out)?;
    }
    close(out)
}

#[cycle(show)]
pub fn method(out: &mut String, fun: &MethodType) -> Mem<()> {
    open(out, "fn")?;
    all_quoted(out, fun.vars.as_slice())?;
    params(out, fun.required.as_slice())?;
    params(out, fun.optional.as_slice())?;
    param_or_none(out, &fun.rest)?;
    params(out, fun.trailing.as_slice())?;
    keywords(out, fun.keywords.as_slice())?;
    param_or_none(out, &fun.rest_keywords)?;
    block_or_none(out, &fun.block)?;
    ty(out, &fun.result)?;
    close(out)
}

#[cycle(show)]
fn params(out: &mut String, params: &[Param]) -> Mem<()> {
    open(out, "")?;
    for one in params {
        param(out, one)?;
    }
    close(out)
}

#[cycle(show)]
fn param(out: &mut String, param: &Param) -> Mem<()> {
    open(out, "p")?;
    ty(out, &param.ty)?;
    quoted_or_none(out, &param.name)?;
    close(out)
}

#[cycle(show)]
fn param_or_none(out: &mut String, one: &Option<Param>) -> Mem<()> {
    match one {
        None => word(out, "-"),
        Some(one) => param(out, one),
    }
}

#[cycle(show)]
fn keywords(out: &mut String, keywords: &[Keyword]) -> Mem<()> {
    open(out, "")?;
    for keyword in keywords {
        open(out, "k")?;
        quoted(out, &keyword.key)?;
        word(out, need(keyword.required))?;
        ty(out, &keyword.ty)?;
        close(out)?;
    }
    close(out)
}

#[cycle(show)]
fn block_or_none(out: &mut String, block: &Option<Boxed<BlockType>>) -> Mem<()> {
    let Some(block) = block else {
        return word(out, "-");
    };
    let block = block.get();
    open(out, "block")?;
    word(out, need(block.required))?;
    method(out, &block.fun)?;
    close(out)
}

fn need(required: bool) -> &'static str {
    if required { "required" } else { "optional" }
}
