ghost use Rattle.std.specs.Prelude.{◌≡◌, ◌↔◌, IsTrue};

use crate::{BlockType, Field, Keyword, MethodType, Param, Ty, same_name, same_texts};
use src_text::Boxed;

/// Whether two types are the same, their spans among all else.
#[cycle(comparisons)]
pub fn same_ty(a: &Ty, b: &Ty) -> bool
    ensures { IsTrue result ↔ (a.now ≡ b.now) }
{
    match (a, b) {
        (Ty::Instance(a, xs), Ty::Instance(b, ys)) => same_name(a, b)
            && same_tys(xs.as_slice(), ys.as_slice()),
        (Ty::Interface(a, xs), Ty::Interface(b, ys)) => same_name(a, b)
            && same_tys(xs.as_slice(), ys.as_slice()),
        (Ty::Alias(a, xs), Ty::Alias(b, ys)) => same_name(a, b)
            && same_tys(xs.as_slice(), ys.as_slice()),
        (Ty::Singleton(a), Ty::Singleton(b)) => same_name(a, b),
        (Ty::IntLit(a), Ty::IntLit(b)) => a == b,
        (Ty::StrLit(a), Ty::StrLit(b)) => a == b,
        (Ty::SymLit(a), Ty::SymLit(b)) => a == b,
        (Ty::True, Ty::True) => true,
        (Ty::False, Ty::False) => true,
        (Ty::Bool, Ty::Bool) => true,
        (Ty::Nil, Ty::Nil) => true,
        (Ty::Top, Ty::Top) => true,
        (Ty::Bot, Ty::Bot) => true,
        (Ty::Void, Ty::Void) => true,
        (Ty::Untyped, Ty::Untyped) => true,
        (Ty::SelfTy, Ty::SelfTy) => true,
        (Ty::InstanceTy, Ty::InstanceTy) => true,
        (Ty::ClassTy, Ty::ClassTy) => true,
        (Ty::Var(a), Ty::Var(b)) => a == b,
        (Ty::Union(xs), Ty::Union(ys)) => same_tys(xs.as_slice(), ys.as_slice()),
        (Ty::Inter(xs), Ty::Inter(ys)) => same_tys(xs.as_slice(), ys.as_slice()),
        (Ty::Optional(a), Ty::Optional(b)) => same_ty(a.get(), b.get()),
        (Ty::TupleOf(xs), Ty::TupleOf(ys)) => same_tys(xs.as_slice(), ys.as_slice()),
        (Ty::RecordOf(xs), Ty::RecordOf(ys)) => same_fields(xs.as_slice(), ys.as_slice()),
        (Ty::ProcOf(a), Ty::ProcOf(b)) => same_method(a.get(), b.get()),
        _ => false,
    }
}

/// Whether two lists of types are the same.
#[cycle(comparisons)]
pub fn same_tys(a: &[Ty], b: &[Ty]) -> bool
    ensures { IsTrue result ↔ (a.now ≡ b.now) }
{
    if a.len() != b.len() {
        return false;
    }
    for (i, ty) in a.iter().enumerate() {
        if !same_ty(ty, &b[i]) {
            return false;
        }
    }
    true
}

#[cycle(comparisons)]
fn same_fields(a: &[Field], b: &[Field]) -> bool
    ensures { IsTrue result ↔ (a.now ≡ b.now) }
{
    if a.len() != b.len() {
        return false;
    }
    for (i, field) in a.iter().enumerate() {
        if !same_field(field, &b[i]) {
            return false;
        }
    }
    true
}

#[cycle(comparisons)]
fn same_field(a: &Field, b: &Field) -> bool
    ensures { IsTrue result ↔ (a.now ≡ b.now) }
{
    a.key == b.key && same_ty(&a.ty, &b.ty)
}

/// Whether two method types are the same.
#[cycle(comparisons)]
pub fn same_method(a: &MethodType, b: &MethodType) -> bool
    ensures { IsTrue result ↔ (a.now ≡ b.now) }
{
    if !same_texts(a.vars.as_slice(), b.vars.as_slice()) {
        return false;
    }
    if !same_params(a.required.as_slice(), b.required.as_slice()) {
        return false;
    }
    if !same_params(a.optional.as_slice(), b.optional.as_slice()) {
        return false;
    }
    if !same_rest(&a.rest, &b.rest) {
        return false;
    }
    if !same_params(a.trailing.as_slice(), b.trailing.as_slice()) {
        return false;
    }
    if !same_keywords(a.keywords.as_slice(), b.keywords.as_slice()) {
        return false;
    }
    if !same_rest(&a.rest_keywords, &b.rest_keywords) {
        return false;
    }
    if !same_block(&a.block, &b.block) {
        return false;
    }
    same_ty(&a.result, &b.result)
}

#[cycle(comparisons)]
fn same_params(a: &[Param], b: &[Param]) -> bool
    ensures { IsTrue result ↔ (a.now ≡ b.now) }
{
    if a.len() != b.len() {
        return false;
    }
    for (i, param) in a.iter().enumerate() {
        if !same_param(param, &b[i]) {
            return false;
        }
    }
    true
}

#[cycle(comparisons)]
fn same_rest(a: &Option<Param>, b: &Option<Param>) -> bool
    ensures { IsTrue result ↔ (a.now ≡ b.now) }
{
    match (a, b) {
        (None, None) => true,
        (Some(a), Some(b)) => same_param(a, b),
        _ => false,
    }
}

#[cycle(comparisons)]
fn same_param(a: &Param, b: &Param) -> bool
    ensures { IsTrue result ↔ (a.now ≡ b.now) }
{
    a.name == b.name && same_ty(&a.ty, &b.ty)
}

#[cycle(comparisons)]
fn same_keywords(a: &[Keyword], b: &[Keyword]) -> bool
    ensures { IsTrue result ↔ (a.now ≡ b.now) }
{
    if a.len() != b.len() {
        return false;
    }
    for (i, keyword) in a.iter().enumerate() {
        if !same_keyword(keyword, &b[i]) {
            return false;
        }
    }
    true
}

#[cycle(comparisons)]
fn same_keyword(a: &Keyword, b: &Keyword) -> bool
    ensures { IsTrue result ↔ (a.now ≡ b.now) }
{
    a.key == b.key && a.required == b.required && same_ty(&a.ty, &b.ty)
}

#[cycle(comparisons)]
fn same_block(a: &Option<Boxed<BlockType>>, b: &Option<Boxed<BlockType>>) -> bool
    ensures { IsTrue result ↔ (a.now ≡ b.now) }
{
    match (a, b) {
        (None, None) => true,
        (Some(a), Some(b)) => a.get().required == b.get().required
            && same_method(&a.get().fun, &b.get().fun),
        _ => false,
    }
}
