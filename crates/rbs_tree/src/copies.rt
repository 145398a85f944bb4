ghost use Rattle.std.specs.Prelude.{◌≡◌, IfOk};

use crate::{
    BlockType, Field, Keyword, MethodType, Param, Ty, both, copy_name, copy_optional_text,
    copy_texts,
};
use src_text::{Boxed, Mem, Seq};
use std::alloc::Global;

/// A copy of a type.
#[cycle(copies)]
pub fn copy_ty(alloc: Global, ty: &Ty) -> Mem<Ty>
    ensures { IfOk result (λ copy. copy ≡ ty.now) }
{
    match ty {
        Ty::Instance(name, args) => {
            let (name, args) = both(copy_name(alloc, name), copy_tys(alloc, args.as_slice()))?;
            Ok(Ty::Instance(name, args))
        }
        Ty::Interface(name, args) => {
            let (name, args) = both(copy_name(alloc, name), copy_tys(alloc, args.as_slice()))?;
            Ok(Ty::Interface(name, args))
        }
        Ty::Alias(name, args) => {
            let (name, args) = both(copy_name(alloc, name), copy_tys(alloc, args.as_slice()))?;
            Ok(Ty::Alias(name, args))
        }
        Ty::Singleton(name) => copy_name(alloc, name).map(Ty::Singleton),
        Ty::IntLit(value) => Ok(Ty::IntLit(*value)),
        Ty::StrLit(text) => Ok(Ty::StrLit(text.clone()?)),
        Ty::SymLit(text) => Ok(Ty::SymLit(text.clone()?)),
        Ty::True => Ok(Ty::True),
        Ty::False => Ok(Ty::False),
        Ty::Bool => Ok(Ty::Bool),
        Ty::Nil => Ok(Ty::Nil),
        Ty::Top => Ok(Ty::Top),
        Ty::Bot => Ok(Ty::Bot),
        Ty::Void => Ok(Ty::Void),
        Ty::Untyped => Ok(Ty::Untyped),
        Ty::SelfTy => Ok(Ty::SelfTy),
        Ty::InstanceTy => Ok(Ty::InstanceTy),
        Ty::ClassTy => Ok(Ty::ClassTy),
        Ty::Var(name) => Ok(Ty::Var(name.clone()?)),
        Ty::Union(tys) => copy_tys(alloc, tys.as_slice()).map(Ty::Union),
        Ty::Inter(tys) => copy_tys(alloc, tys.as_slice()).map(Ty::Inter),
        Ty::Optional(inner) => Ok(Ty::Optional(Boxed::new(alloc, copy_ty(alloc, inner.get())?)?)),
        Ty::TupleOf(tys) => copy_tys(alloc, tys.as_slice()).map(Ty::TupleOf),
        Ty::RecordOf(fields) => copy_fields(alloc, fields.as_slice()).map(Ty::RecordOf),
        Ty::ProcOf(method) => Ok(Ty::ProcOf(Boxed::new(alloc, copy_method(alloc, method.get())?)?)),
    }
}

/// A copy of a list of types.
#[cycle(copies)]
pub fn copy_tys(alloc: Global, tys: &[Ty]) -> Mem<Seq<Ty>>
    ensures { IfOk result (λ copy. copy ≡ tys.now) }
{
    let mut copy = Seq::new(alloc);
    for ty in tys {
        copy.push(copy_ty(alloc, ty)?)?;
    }
    Ok(copy)
}

#[cycle(copies)]
fn copy_fields(alloc: Global, fields: &[Field]) -> Mem<Seq<Field>>
    ensures { IfOk result (λ copy. copy ≡ fields.now) }
{
    let mut copy = Seq::new(alloc);
    for field in fields {
        let key = field.key.clone()?;
        let ty = copy_ty(alloc, &field.ty)?;
        copy.push(Field { key, ty })?;
    }
    Ok(copy)
}

/// A copy of a method type.
#[cycle(copies)]
pub fn copy_method(alloc: Global, method: &MethodType) -> Mem<MethodType>
    ensures { IfOk result (λ copy. copy ≡ method.now) }
{
    let vars = copy_texts(alloc, method.vars.as_slice());
    let leading = both(
        copy_params(alloc, method.required.as_slice()),
        copy_params(alloc, method.optional.as_slice()),
    );
    let others = both(
        copy_rest(alloc, &method.rest),
        copy_params(alloc, method.trailing.as_slice()),
    );
    let named = both(
        copy_keywords(alloc, method.keywords.as_slice()),
        copy_rest(alloc, &method.rest_keywords),
    );
    let last = both(
        copy_block(alloc, &method.block),
        copy_ty(alloc, &method.result),
    );
    let parts = both(both(vars, leading), both(others, both(named, last)))?;
    let ((vars, (required, optional)), ((rest, trailing), (named, (block, result)))) = parts;
    let (keywords, rest_keywords) = named;
    Ok(MethodType {
        vars,
        required,
        optional,
        rest,
        trailing,
        keywords,
        rest_keywords,
        block,
        result,
    })
}

#[cycle(copies)]
fn copy_params(alloc: Global, params: &[Param]) -> Mem<Seq<Param>>
    ensures { IfOk result (λ copy. copy ≡ params.now) }
{
    let mut copy = Seq::new(alloc);
    for param in params {
        copy.push(copy_param(alloc, param)?)?;
    }
    Ok(copy)
}

#[cycle(copies)]
fn copy_rest(alloc: Global, rest: &Option<Param>) -> Mem<Option<Param>>
    ensures { IfOk result (λ copy. copy ≡ rest.now) }
{
    match rest {
        None => Ok(None),
        Some(param) => Ok(Some(copy_param(alloc, param)?)),
    }
}

#[cycle(copies)]
fn copy_param(alloc: Global, param: &Param) -> Mem<Param>
    ensures { IfOk result (λ copy. copy ≡ param.now) }
{
    let (ty, name) = both(copy_ty(alloc, &param.ty), copy_optional_text(&param.name))?;
    Ok(Param { ty, name })
}

#[cycle(copies)]
fn copy_keywords(alloc: Global, keywords: &[Keyword]) -> Mem<Seq<Keyword>>
    ensures { IfOk result (λ copy. copy ≡ keywords.now) }
{
    let mut copy = Seq::new(alloc);
    for keyword in keywords {
        let key = keyword.key.clone()?;
        let ty = copy_ty(alloc, &keyword.ty)?;
        copy.push(Keyword {
            key,
            required: keyword.required,
            ty,
        })?;
    }
    Ok(copy)
}

#[cycle(copies)]
fn copy_block(alloc: Global, block: &Option<Boxed<BlockType>>) -> Mem<Option<Boxed<BlockType>>>
    ensures { IfOk result (λ copy. copy ≡ block.now) }
{
    match block {
        None => Ok(None),
        Some(block) => {
            let fun = copy_method(alloc, &block.get().fun)?;
            let copy = BlockType {
                required: block.get().required,
                fun,
            };
            Ok(Some(Boxed::new(alloc, copy)?))
        }
    }
}

/// A copy of a list of method types.
pub fn copy_methods(alloc: Global, methods: &[MethodType]) -> Mem<Seq<MethodType>>
    ensures { IfOk result (λ copy. copy ≡ methods.now) }
{
    let mut copy = Seq::new(alloc);
    for method in methods {
        copy.push(copy_method(alloc, method)?)?;
    }
    Ok(copy)
}

/// A copy of a type that may be absent.
pub fn copy_optional_ty(alloc: Global, ty: &Option<Ty>) -> Mem<Option<Ty>>
    ensures { IfOk result (λ copy. copy ≡ ty.now) }
{
    match ty {
        None => Ok(None),
        Some(ty) => Ok(Some(copy_ty(alloc, ty)?)),
    }
}
