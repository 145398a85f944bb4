ghost use Rattle.std.specs.Prelude.{◌≡◌, ◌++◌, OnOk, IfOk, Ok, false, map, drop, codes};
ghost use Rattle.rbs_printer.specs.Again.{IsSpelled, IsSpelledMethod, IsReadAgain, IsReadAgainMethod};
ghost use Rattle.rbs_printer.specs.Printed as spec;
ghost use Rattle.rbs_printer.specs.Lists.{continued};
ghost use Rattle.rbs_printer.specs.declared.level.Level.TheVariants as at;

use crate::fronts::{alias_leads, is_grouped};
use crate::functions::function;
use crate::level::Level;
use crate::words;
use rbs_tree::{Field, MethodType, Ty, TypeName};
use src_text::{Mem, Text};
use std::alloc::Global;

/// The text of a type.
#[tactic(auto, using(crate::proofs::Law::type_again))]
pub fn type_text(alloc: Global, ty: &Ty) -> Mem<Text>
    ensures text { IfOk result (λ text. text ≡ spec.type_text ty.now) }
    // A type that some tokens spell is read again from its text.
    ensures again { IfOk result (λ text. IsSpelled ty.now → IsReadAgain text ty.now) }
{
    let mut out = Text::new(alloc);
    any(alloc, &mut out, ty)?;
    Ok(out)
}

/// The text of a method type.
pub fn method_text(alloc: Global, m: &MethodType) -> Mem<Text>
    ensures text { IfOk result (λ text. text ≡ spec.method_text m.now) }
    // A method type that some tokens spell is read again from its text.
    ensures again { IfOk result (λ text. IsSpelledMethod m.now → IsReadAgainMethod text m.now) }
{
    let mut out = Text::new(alloc);
    function(alloc, &mut out, m)?;
    Ok(out)
}

/// Prints a type where any may stand.
#[cycle(printing)]
pub fn any(alloc: Global, out: &mut Text, ty: &Ty) -> Mem<()>
    ensures { OnOk result (out.new ≡ out.old ++ spec.any_text (spec.printed ty.now)) }
{
    placed(alloc, out, Level::Union, false, ty)?;
    Ok(())
}

/// Prints a type where a level is wanted, and maybe behind `alias |` or `alias &`; answers whether a `|` or `&` behind it would be
/// read as the name of a method.
#[cycle(printing)]
pub fn placed(alloc: Global, out: &mut Text, wanted: Level, behind: bool, ty: &Ty) -> Mem<bool>
    ensures text { OnOk result (out.new ≡ out.old ++ (spec.placed wanted behind (spec.printed ty.now)).text) }
    ensures leads { IfOk result (λ leads. leads ≡ (spec.placed wanted behind (spec.printed ty.now)).leads) }
{
    if is_grouped(wanted, behind, ty) {
        out.push_str("(")?;
        bare(alloc, out, false, ty)?;
        out.push_str(")")?;
        Ok(false)
    } else {
        bare(alloc, out, behind, ty)
    }
}

// Prints a type as it stands, without parentheses of its own.
#[cycle(printing)]
fn bare(alloc: Global, out: &mut Text, behind: bool, ty: &Ty) -> Mem<bool>
    ensures text { OnOk result (out.new ≡ out.old ++ ((spec.printed ty.now).piece behind).text) }
    ensures leads { IfOk result (λ leads. leads ≡ ((spec.printed ty.now).piece behind).leads) }
{
    match ty {
        Ty::Instance(name, args) => leads_nowhere(named(alloc, out, name, args.as_slice())),
        Ty::Interface(name, args) => leads_nowhere(named(alloc, out, name, args.as_slice())),
        Ty::Alias(name, args) => alias(alloc, out, behind, name, args.as_slice()),
        Ty::Singleton(name) => leads_nowhere(singleton(out, name)),
        Ty::IntLit(value) => leads_nowhere(words::integer(alloc, out, *value)),
        Ty::StrLit(value) => leads_nowhere(words::string(alloc, out, value.as_str())),
        Ty::SymLit(name) => leads_nowhere(words::symbol(alloc, out, name.as_str())),
        Ty::True => leads_nowhere(out.push_str("true")),
        Ty::False => leads_nowhere(out.push_str("false")),
        Ty::Bool => leads_nowhere(out.push_str("bool")),
        Ty::Nil => leads_nowhere(out.push_str("nil")),
        Ty::Top => leads_nowhere(out.push_str("top")),
        Ty::Bot => leads_nowhere(out.push_str("bot")),
        Ty::Void => leads_nowhere(out.push_str("void")),
        Ty::Untyped => leads_nowhere(out.push_str("untyped")),
        Ty::SelfTy => leads_nowhere(out.push_str("self")),
        Ty::InstanceTy => leads_nowhere(out.push_str("instance")),
        Ty::ClassTy => leads_nowhere(out.push_str("class")),
        Ty::Var(name) => leads_nowhere(out.push_str(name.as_str())),
        Ty::Union(tys) => parts(alloc, out, " | ", Level::Inter, tys.as_slice(), behind),
        Ty::Inter(tys) => parts(alloc, out, " & ", Level::Optional, tys.as_slice(), behind),
        Ty::Optional(inner) => leads_nowhere(optional(alloc, out, inner.get())),
        Ty::TupleOf(tys) => leads_nowhere(bracketed(alloc, out, tys.as_slice())),
        Ty::RecordOf(fields) => leads_nowhere(record_type(alloc, out, fields.as_slice())),
        Ty::ProcOf(fun) => proc(alloc, out, fun.get()),
    }
}

// Behind what was printed no name is read.
fn leads_nowhere(printed: Mem<()>) -> Mem<bool>
    ensures printed { OnOk result (printed ≡ Ok (tt {0})) }
    ensures leads { IfOk result (λ leads. leads ≡ false) }
{
    printed?;
    Ok(false)
}

#[cycle(printing)]
fn alias(alloc: Global, out: &mut Text, behind: bool, name: &TypeName, args: &[Ty]) -> Mem<bool>
    ensures text { OnOk result (out.new ≡ out.old ++ ((spec.alias name.now (map spec.printed args.now)).piece behind).text) }
    ensures leads { IfOk result (λ leads. leads ≡ ((spec.alias name.now (map spec.printed args.now)).piece behind).leads) }
{
    named(alloc, out, name, args)?;
    Ok(alias_leads(name, args, behind))
}

// Prints a name with its arguments.
#[cycle(printing)]
fn named(alloc: Global, out: &mut Text, name: &TypeName, args: &[Ty]) -> Mem<()>
    ensures { OnOk result (out.new ≡ out.old ++ spec.named_text name.now (map spec.printed args.now)) }
{
    words::name(out, name)?;
    match args {
        [] => Ok(()),
        _ => bracketed(alloc, out, args),
    }
}

fn singleton(out: &mut Text, name: &TypeName) -> Mem<()>
    ensures { OnOk result (out.new ≡ out.old ++ spec.singleton_text name.now) }
{
    out.push_str("singleton(")?;
    words::name(out, name)?;
    out.push_str(")")
}

#[cycle(printing)]
fn optional(alloc: Global, out: &mut Text, inner: &Ty) -> Mem<()>
    ensures { OnOk result (out.new ≡ out.old ++ (spec.text_at at.Base (spec.printed inner.now) ++ codes "?")) }
{
    placed(alloc, out, Level::Base, false, inner)?;
    out.push_str("?")
}

#[cycle(printing)]
fn proc(alloc: Global, out: &mut Text, fun: &MethodType) -> Mem<bool>
    ensures text { OnOk result (out.new ≡ out.old ++ (codes "^" ++ (spec.printed_method fun.now).text)) }
    ensures leads { IfOk result (λ leads. leads ≡ (spec.printed_method fun.now).leads) }
{
    out.push_str("^")?;
    function(alloc, out, fun)
}

// Prints a list of types between brackets.
#[cycle(printing)]
fn bracketed(alloc: Global, out: &mut Text, tys: &[Ty]) -> Mem<()>
    ensures { OnOk result (out.new ≡ out.old ++ spec.bracketed (map spec.printed tys.now)) }
{
    out.push_str("[")?;
    listed(alloc, out, tys)?;
    out.push_str("]")
}

// Prints types with a comma between them.
#[cycle(printing)]
fn listed(alloc: Global, out: &mut Text, tys: &[Ty]) -> Mem<()>
    ensures { OnOk result (out.new ≡ out.old ++ continued false (map spec.any_text (map spec.printed tys.now))) }
{
    let mut begun = false;
    for ty in tys {
        words::comma(out, begun)?;
        any(alloc, out, ty)?;
        begun = true;
    }
    Ok(())
}

#[cycle(printing)]
fn record_type(alloc: Global, out: &mut Text, fields: &[Field]) -> Mem<()>
    ensures { OnOk result (out.new ≡ out.old ++ spec.record_text (map spec.printed_field fields.now)) }
{
    match fields {
        [] => out.push_str("{ }"),
        _ => {
            out.push_str("{ ")?;
            listed_fields(alloc, out, fields)?;
            out.push_str(" }")
        }
    }
}

// Prints the fields of a record type with a comma between them.
#[cycle(printing)]
fn listed_fields(alloc: Global, out: &mut Text, fields: &[Field]) -> Mem<()>
    ensures { OnOk result (out.new ≡ out.old ++ continued false (map spec.printed_field fields.now)) }
{
    let mut begun = false;
    for field in fields {
        words::comma(out, begun)?;
        one_field(alloc, out, field)?;
        begun = true;
    }
    Ok(())
}

#[cycle(printing)]
fn one_field(alloc: Global, out: &mut Text, field: &Field) -> Mem<()>
    ensures { OnOk result (out.new ≡ out.old ++ spec.printed_field field.now) }
{
    key(alloc, out, &field.key, &field.ty)
}

/// Prints a key and its type.
#[cycle(printing)]
pub fn key(alloc: Global, out: &mut Text, key: &Text, ty: &Ty) -> Mem<()>
    ensures { OnOk result (out.new ≡ out.old ++ spec.key_text key.now (spec.printed ty.now)) }
{
    out.push_str(key.as_str())?;
    out.push_str(": ")?;
    any(alloc, out, ty)
}

// Prints the parts of a union or an intersection.
#[tactic(auto, using(crate::proofs::Lists::parts_text, crate::proofs::Lists::parts_leads))]
#[cycle(printing)]
fn parts(
    alloc: Global,
    out: &mut Text,
    sign: &str,
    wanted: Level,
    tys: &[Ty],
    behind: bool,
) -> Mem<bool>
    ensures text { OnOk result (out.new ≡ out.old ++ (spec.parts sign.now wanted (map spec.printed tys.now) behind).text) }
    ensures leads { IfOk result (λ leads. leads ≡ (spec.parts sign.now wanted (map spec.printed tys.now) behind).leads) }
{
    match tys {
        [] => Ok(false),
        [first, ..] => {
            let leads = placed(alloc, out, wanted, behind, first)?;
            other_parts(alloc, out, sign, wanted, tys, leads)
        }
    }
}

// Prints all parts but the first, behind what is printed.
#[cycle(printing)]
fn other_parts(
    alloc: Global,
    out: &mut Text,
    sign: &str,
    wanted: Level,
    tys: &[Ty],
    behind: bool,
) -> Mem<bool>
    ensures text { OnOk result (out.new ≡ (spec.and_parts sign.now wanted out.old behind (map spec.printed (drop 1 tys.now))).text) }
    ensures leads { IfOk result (λ leads. leads ≡ (spec.and_parts sign.now wanted out.old behind (map spec.printed (drop 1 tys.now))).leads) }
{
    let mut leads = behind;
    if let [_, more @ ..] = tys {
        for ty in more {
            out.push_str(sign)?;
            leads = placed(alloc, out, wanted, leads, ty)?;
        }
    }
    Ok(leads)
}
