ghost use Rattle.std.specs.Prelude.{◌≡◌, ◌≢◌, ℕ, Some, IfOk, length, map, slice_get};
ghost use Rattle.std.specs.Option.{option_map};
ghost use Rattle.rbs_tree.specs.Substitution as spec;
ghost use Rattle.rbs_tree.specs.declared.types.Ty.{Var};

use crate::{
    BlockType, Field, Keyword, MethodType, Param, Ty, both, copy_name, copy_optional_text,
    copy_texts, copy_ty,
};
use src_text::{Boxed, Mem, Seq, Text};
use std::alloc::Global;

/// The type in which each variable of `vars` is the type at its place in `by`, all at once.
///
/// Of equal names the first counts. Other variables stay, and so do the variables that a method type binds itself.
#[cycle(substitution)]
pub fn subst(alloc: Global, ty: &Ty, vars: &Seq<Text>, by: &Seq<Ty>) -> Mem<Ty>
    requires { length vars.now ≡ length by.now }
    ensures { IfOk result (λ t. t ≡ spec.subst vars.now by.now ty.now) }
{
    match ty {
        Ty::Var(name) => chosen(alloc, name, vars.as_slice(), by.as_slice()),
        Ty::Instance(name, args) => {
            let args = subst_tys(alloc, args.as_slice(), vars, by);
            let (name, args) = both(copy_name(alloc, name), args)?;
            Ok(Ty::Instance(name, args))
        }
        Ty::Interface(name, args) => {
            let args = subst_tys(alloc, args.as_slice(), vars, by);
            let (name, args) = both(copy_name(alloc, name), args)?;
            Ok(Ty::Interface(name, args))
        }
        Ty::Alias(name, args) => {
            let args = subst_tys(alloc, args.as_slice(), vars, by);
            let (name, args) = both(copy_name(alloc, name), args)?;
            Ok(Ty::Alias(name, args))
        }
        Ty::Union(tys) => subst_tys(alloc, tys.as_slice(), vars, by).map(Ty::Union),
        Ty::Inter(tys) => subst_tys(alloc, tys.as_slice(), vars, by).map(Ty::Inter),
        Ty::Optional(inner) => {
            let inner = subst(alloc, inner.get(), vars, by)?;
            Ok(Ty::Optional(Boxed::new(alloc, inner)?))
        }
        Ty::TupleOf(tys) => subst_tys(alloc, tys.as_slice(), vars, by).map(Ty::TupleOf),
        Ty::RecordOf(fields) => subst_fields(alloc, fields.as_slice(), vars, by).map(Ty::RecordOf),
        Ty::ProcOf(method) => {
            let method = subst_method(alloc, method.get(), vars, by)?;
            Ok(Ty::ProcOf(Boxed::new(alloc, method)?))
        }
        other => copy_ty(alloc, other),
    }
}

#[cycle(substitution)]
fn subst_tys(alloc: Global, tys: &[Ty], vars: &Seq<Text>, by: &Seq<Ty>) -> Mem<Seq<Ty>>
    requires { length vars.now ≡ length by.now }
    ensures { IfOk result (λ ts. ts ≡ map (spec.subst vars.now by.now) tys.now) }
{
    let mut done = Seq::new(alloc);
    for ty in tys {
        done.push(subst(alloc, ty, vars, by)?)?;
    }
    Ok(done)
}

#[cycle(substitution)]
fn subst_fields(alloc: Global, fields: &[Field], vars: &Seq<Text>, by: &Seq<Ty>) -> Mem<Seq<Field>>
    requires { length vars.now ≡ length by.now }
    ensures { IfOk result (λ fs. fs ≡ map (spec.subst_field vars.now by.now) fields.now) }
{
    let mut done = Seq::new(alloc);
    for field in fields {
        let key = field.key.clone()?;
        let ty = subst(alloc, &field.ty, vars, by)?;
        done.push(Field { key, ty })?;
    }
    Ok(done)
}

/// The method type in which each variable of `vars` is the type at its place in `by`, as `subst` does it.
///
/// Its own variables are left as they are and aren't looked at: where one of them is among `vars`, or stands in a type of
/// `by`, the caller has to give it another name first.
#[cycle(substitution)]
pub fn subst_method(
    alloc: Global,
    method: &MethodType,
    vars: &Seq<Text>,
    by: &Seq<Ty>,
) -> Mem<MethodType>
    requires { length vars.now ≡ length by.now }
    ensures { IfOk result (λ m. m ≡ spec.subst_method vars.now by.now method.now) }
{
    let own = copy_texts(alloc, method.vars.as_slice());
    let leading = both(
        subst_params(alloc, method.required.as_slice(), vars, by),
        subst_params(alloc, method.optional.as_slice(), vars, by),
    );
    let others = both(
        subst_rest(alloc, &method.rest, vars, by),
        subst_params(alloc, method.trailing.as_slice(), vars, by),
    );
    let named = both(
        subst_keywords(alloc, method.keywords.as_slice(), vars, by),
        subst_rest(alloc, &method.rest_keywords, vars, by),
    );
    let last = both(
        subst_block(alloc, &method.block, vars, by),
        subst(alloc, &method.result, vars, by),
    );
    let parts = both(both(own, leading), both(others, both(named, last)))?;
    let ((own, (required, optional)), ((rest, trailing), (named, (block, result)))) = parts;
    let (keywords, rest_keywords) = named;
    Ok(MethodType {
        vars: own,
        required,
        optional,
        rest,
        trailing,
        keywords,
        rest_keywords,
        block,
        result,
    })
}

#[cycle(substitution)]
fn subst_params(alloc: Global, params: &[Param], vars: &Seq<Text>, by: &Seq<Ty>) -> Mem<Seq<Param>>
    requires { length vars.now ≡ length by.now }
    ensures { IfOk result (λ ps. ps ≡ map (spec.subst_param vars.now by.now) params.now) }
{
    let mut done = Seq::new(alloc);
    for param in params {
        done.push(subst_param(alloc, param, vars, by)?)?;
    }
    Ok(done)
}

#[cycle(substitution)]
fn subst_rest(
    alloc: Global,
    rest: &Option<Param>,
    vars: &Seq<Text>,
    by: &Seq<Ty>,
) -> Mem<Option<Param>>
    requires { length vars.now ≡ length by.now }
    ensures { IfOk result (λ p. p ≡ option_map (spec.subst_param vars.now by.now) rest.now) }
{
    match rest {
        None => Ok(None),
        Some(param) => Ok(Some(subst_param(alloc, param, vars, by)?)),
    }
}

#[cycle(substitution)]
fn subst_param(alloc: Global, param: &Param, vars: &Seq<Text>, by: &Seq<Ty>) -> Mem<Param>
    requires { length vars.now ≡ length by.now }
    ensures { IfOk result (λ p. p ≡ spec.subst_param vars.now by.now param.now) }
{
    let (ty, name) = both(
        subst(alloc, &param.ty, vars, by),
        copy_optional_text(&param.name),
    )?;
    Ok(Param { ty, name })
}

#[cycle(substitution)]
fn subst_keywords(
    alloc: Global,
    keywords: &[Keyword],
    vars: &Seq<Text>,
    by: &Seq<Ty>,
) -> Mem<Seq<Keyword>>
    requires { length vars.now ≡ length by.now }
    ensures { IfOk result (λ ks. ks ≡ map (spec.subst_keyword vars.now by.now) keywords.now) }
{
    let mut done = Seq::new(alloc);
    for keyword in keywords {
        let key = keyword.key.clone()?;
        let ty = subst(alloc, &keyword.ty, vars, by)?;
        done.push(Keyword {
            key,
            required: keyword.required,
            ty,
        })?;
    }
    Ok(done)
}

#[cycle(substitution)]
fn subst_block(
    alloc: Global,
    block: &Option<Boxed<BlockType>>,
    vars: &Seq<Text>,
    by: &Seq<Ty>,
) -> Mem<Option<Boxed<BlockType>>>
    requires { length vars.now ≡ length by.now }
    ensures { IfOk result (λ b. b ≡ option_map (spec.subst_block vars.now by.now) block.now) }
{
    match block {
        None => Ok(None),
        Some(block) => {
            let fun = subst_method(alloc, &block.get().fun, vars, by)?;
            let done = BlockType {
                required: block.get().required,
                fun,
            };
            Ok(Some(Boxed::new(alloc, done)?))
        }
    }
}

// The type at the place of a variable, or the variable itself.
fn chosen(alloc: Global, name: &Text, vars: &[Text], by: &[Ty]) -> Mem<Ty>
    requires { length vars.now ≡ length by.now }
    ensures { IfOk result (λ t. t ≡ spec.chosen vars.now by.now name.now) }
{
    let mut names = vars;
    let mut types = by;
    while let ([var, other_names @ ..], [ty, other_types @ ..]) = (names, types) {
        if var == name {
            return copy_ty(alloc, ty);
        }
        names = other_names;
        types = other_types;
    }
    Ok(Ty::Var(name.clone()?))
}

/// The law of a variable that is among others: it becomes the type at the first place of its name.
pub fn variable_is_replaced(name: &Text, vars: &Seq<Text>, by: &Seq<Ty>, place: usize)
    requires paired { length vars.now ≡ length by.now }
    requires first { spec.IsFirstAt vars.now name.now place }
    ensures { slice_get by.now place ≡ Some (spec.subst vars.now by.now (Var name.now)) }
{}

/// The law of a variable that isn't among others: it stays.
pub fn other_variable_stays(name: &Text, vars: &Seq<Text>, by: &Seq<Ty>)
    requires { (k : ℕ) → slice_get vars.now k ≢ Some name.now }
    ensures { spec.subst vars.now by.now (Var name.now) ≡ Var name.now }
{}
