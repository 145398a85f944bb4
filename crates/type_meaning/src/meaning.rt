ghost use Rattle.std.specs.Prelude.{◌≡◌, ◌++◌, map, IfOk};
ghost use Rattle.std.specs.Option.{option_map};
ghost use Rattle.sig_rules.specs.Types.{meant, meant_method};
ghost use Rattle.type_meaning.specs.Meaning.{meant_block, meant_field, meant_keyword, meant_param, meant_parts};

use crate::named::{instance, singleton_named, type_named};
use rbs_tree::{
    BlockType, Field, Keyword, MethodType, Param, Ty, TypeName, both, copy_optional_text,
    copy_texts, copy_ty,
};
use sig_rules::Names;
use src_text::{Boxed, Mem, Seq, Text};
use std::alloc::Global;

/// What a type means among these enclosing names and type parameters.
pub fn meant<N: Names>(
    alloc: Global,
    names: &N,
    context: &[TypeName],
    vars: &[Text],
    ty: &Ty,
) -> Mem<Ty>
    ensures { IfOk result (λ t. t ≡ meant (N.all names.now) context.now vars.now ty.now) }
{
    meant_ty(alloc, names, context, &[], vars, ty)
}

/// What a method type means among these enclosing names and type parameters; its own variables stand before those around it.
pub fn meant_method<N: Names>(
    alloc: Global,
    names: &N,
    context: &[TypeName],
    vars: &[Text],
    method: &MethodType,
) -> Mem<MethodType>
    ensures { IfOk result (λ m. m ≡ meant_method (N.all names.now) context.now vars.now method.now) }
{
    meant_parts(alloc, names, context, method.vars.as_slice(), vars, method)
}

// What a type means, the variables of a method type standing before the type parameters around it.
#[cycle(meaning)]
fn meant_ty<N: Names>(
    alloc: Global,
    names: &N,
    context: &[TypeName],
    own: &[Text],
    vars: &[Text],
    ty: &Ty,
) -> Mem<Ty>
    ensures { IfOk result (λ t. t ≡ meant (N.all names.now) context.now (own.now ++ vars.now) ty.now) }
{
    match ty {
        Ty::Instance(name, args) => {
            let args = meant_tys(alloc, names, context, own, vars, args.as_slice())?;
            instance(alloc, names, context, own, vars, name, args)
        }
        Ty::Interface(name, args) => {
            let args = meant_tys(alloc, names, context, own, vars, args.as_slice())?;
            type_named(alloc, names, context, name, args)
        }
        Ty::Alias(name, args) => {
            let args = meant_tys(alloc, names, context, own, vars, args.as_slice())?;
            type_named(alloc, names, context, name, args)
        }
        Ty::Singleton(name) => singleton_named(alloc, names, context, name),
        Ty::Union(tys) => {
            meant_tys(alloc, names, context, own, vars, tys.as_slice()).map(Ty::Union)
        }
        Ty::Inter(tys) => {
            meant_tys(alloc, names, context, own, vars, tys.as_slice()).map(Ty::Inter)
        }
        Ty::Optional(inner) => {
            let inner = meant_ty(alloc, names, context, own, vars, inner.get())?;
            Ok(Ty::Optional(Boxed::new(alloc, inner)?))
        }
        Ty::TupleOf(tys) => {
            meant_tys(alloc, names, context, own, vars, tys.as_slice()).map(Ty::TupleOf)
        }
        Ty::RecordOf(fields) => {
            meant_fields(alloc, names, context, own, vars, fields.as_slice()).map(Ty::RecordOf)
        }
        Ty::ProcOf(method) => {
            let method = meant_parts(alloc, names, context, own, vars, method.get())?;
            Ok(Ty::ProcOf(Boxed::new(alloc, method)?))
        }
        other => copy_ty(alloc, other),
    }
}

#[cycle(meaning)]
fn meant_tys<N: Names>(
    alloc: Global,
    names: &N,
    context: &[TypeName],
    own: &[Text],
    vars: &[Text],
    tys: &[Ty],
) -> Mem<Seq<Ty>>
    ensures { IfOk result (λ ts. ts ≡ map (meant (N.all names.now) context.now (own.now ++ vars.now)) tys.now) }
{
    let mut done = Seq::new(alloc);
    for ty in tys {
        done.push(meant_ty(alloc, names, context, own, vars, ty)?)?;
    }
    Ok(done)
}

#[cycle(meaning)]
fn meant_fields<N: Names>(
    alloc: Global,
    names: &N,
    context: &[TypeName],
    own: &[Text],
    vars: &[Text],
    fields: &[Field],
) -> Mem<Seq<Field>>
    ensures { IfOk result (λ fs. fs ≡ map (meant_field (N.all names.now) context.now (own.now ++ vars.now)) fields.now) }
{
    let mut done = Seq::new(alloc);
    for field in fields {
        let key = field.key.clone()?;
        let ty = meant_ty(alloc, names, context, own, vars, &field.ty)?;
        done.push(Field { key, ty })?;
    }
    Ok(done)
}

// What the parts of a method type mean. Its own variables are left as they are and aren't looked at.
#[cycle(meaning)]
fn meant_parts<N: Names>(
    alloc: Global,
    names: &N,
    context: &[TypeName],
    own: &[Text],
    vars: &[Text],
    method: &MethodType,
) -> Mem<MethodType>
    ensures { IfOk result (λ m. m ≡ meant_parts (N.all names.now) context.now (own.now ++ vars.now) method.now) }
{
    let bound = copy_texts(alloc, method.vars.as_slice());
    let leading = both(
        meant_params(alloc, names, context, own, vars, method.required.as_slice()),
        meant_params(alloc, names, context, own, vars, method.optional.as_slice()),
    );
    let others = both(
        meant_rest(alloc, names, context, own, vars, &method.rest),
        meant_params(alloc, names, context, own, vars, method.trailing.as_slice()),
    );
    let named = both(
        meant_keywords(alloc, names, context, own, vars, method.keywords.as_slice()),
        meant_rest(alloc, names, context, own, vars, &method.rest_keywords),
    );
    let last = both(
        meant_block(alloc, names, context, own, vars, &method.block),
        meant_ty(alloc, names, context, own, vars, &method.result),
    );
    let parts = both(both(bound, leading), both(others, both(named, last)))?;
    let ((bound, (required, optional)), ((rest, trailing), (named, (block, result)))) = parts;
    let (keywords, rest_keywords) = named;
    Ok(MethodType {
        vars: bound,
        required,
        optional,
        rest,
        trailing,
        keywords,
        rest_keywords,
        block,
        result,
    })
}

#[cycle(meaning)]
fn meant_params<N: Names>(
    alloc: Global,
    names: &N,
    context: &[TypeName],
    own: &[Text],
    vars: &[Text],
    params: &[Param],
) -> Mem<Seq<Param>>
    ensures { IfOk result (λ ps. ps ≡ map (meant_param (N.all names.now) context.now (own.now ++ vars.now)) params.now) }
{
    let mut done = Seq::new(alloc);
    for param in params {
        done.push(meant_param(alloc, names, context, own, vars, param)?)?;
    }
    Ok(done)
}

#[cycle(meaning)]
fn meant_rest<N: Names>(
    alloc: Global,
    names: &N,
    context: &[TypeName],
    own: &[Text],
    vars: &[Text],
    rest: &Option<Param>,
) -> Mem<Option<Param>>
    ensures { IfOk result (λ p. p ≡ option_map (meant_param (N.all names.now) context.now (own.now ++ vars.now)) rest.now) }
{
    match rest {
        None => Ok(None),
        Some(param) => Ok(Some(meant_param(alloc, names, context, own, vars, param)?)),
    }
}

#[cycle(meaning)]
fn meant_param<N: Names>(
    alloc: Global,
    names: &N,
    context: &[TypeName],
    own: &[Text],
    vars: &[Text],
    param: &Param,
) -> Mem<Param>
    ensures { IfOk result (λ p. p ≡ meant_param (N.all names.now) context.now (own.now ++ vars.now) param.now) }
{
    let (ty, name) = both(
        meant_ty(alloc, names, context, own, vars, &param.ty),
        copy_optional_text(&param.name),
    )?;
    Ok(Param { ty, name })
}

#[cycle(meaning)]
fn meant_keywords<N: Names>(
    alloc: Global,
    names: &N,
    context: &[TypeName],
    own: &[Text],
    vars: &[Text],
    keywords: &[Keyword],
) -> Mem<Seq<Keyword>>
    ensures { IfOk result (λ ks. ks ≡ map (meant_keyword (N.all names.now) context.now (own.now ++ vars.now)) keywords.now) }
{
    let mut done = Seq::new(alloc);
    for keyword in keywords {
        let key = keyword.key.clone()?;
        let ty = meant_ty(alloc, names, context, own, vars, &keyword.ty)?;
        done.push(Keyword {
            key,
            required: keyword.required,
            ty,
        })?;
    }
    Ok(done)
}

#[cycle(meaning)]
fn meant_block<N: Names>(
    alloc: Global,
    names: &N,
    context: &[TypeName],
    own: &[Text],
    vars: &[Text],
    block: &Option<Boxed<BlockType>>,
) -> Mem<Option<Boxed<BlockType>>>
    ensures { IfOk result (λ b. b ≡ option_map (meant_block (N.all names.now) context.now (own.now ++ vars.now)) block.now) }
{
    match block {
        None => Ok(None),
        Some(block) => {
            let fun = meant_parts(alloc, names, context, own, vars, &block.get().fun)?;
            let done = BlockType {
                required: block.get().required,
                fun,
            };
            Ok(Some(Boxed::new(alloc, done)?))
        }
    }
}
