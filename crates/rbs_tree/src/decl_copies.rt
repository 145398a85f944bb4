ghost use Rattle.std.specs.Prelude.{◌≡◌, IfOk};

use crate::{
    AttrVar, Clause, Decl, Member, Ref, TypeParam, both, copy_methods, copy_name,
    copy_optional_text, copy_optional_ty, copy_ty, copy_tys,
};
use src_text::{Mem, Seq};
use std::alloc::Global;

/// A copy of a declaration.
#[cycle(declarations)]
pub fn copy_decl(alloc: Global, decl: &Decl) -> Mem<Decl>
    ensures { IfOk result (λ copy. copy ≡ decl.now) }
{
    match decl {
        Decl::Class {
            name,
            params,
            superclass,
            members,
        } => {
            let head = both(
                copy_name(alloc, name),
                copy_type_params(alloc, params.as_slice()),
            );
            let body = both(
                copy_superclass(alloc, superclass),
                copy_members(alloc, members.as_slice()),
            );
            let ((name, params), (superclass, members)) = both(head, body)?;
            Ok(Decl::Class {
                name,
                params,
                superclass,
                members,
            })
        }
        Decl::Module {
            name,
            params,
            self_types,
            members,
        } => {
            let head = both(
                copy_name(alloc, name),
                copy_type_params(alloc, params.as_slice()),
            );
            let body = both(
                copy_refs(alloc, self_types.as_slice()),
                copy_members(alloc, members.as_slice()),
            );
            let ((name, params), (self_types, members)) = both(head, body)?;
            Ok(Decl::Module {
                name,
                params,
                self_types,
                members,
            })
        }
        Decl::Interface {
            name,
            params,
            members,
        } => {
            let head = both(
                copy_name(alloc, name),
                copy_type_params(alloc, params.as_slice()),
            );
            let members = copy_members(alloc, members.as_slice());
            let ((name, params), members) = both(head, members)?;
            Ok(Decl::Interface {
                name,
                params,
                members,
            })
        }
        Decl::Alias { name, params, ty } => {
            let head = both(
                copy_name(alloc, name),
                copy_type_params(alloc, params.as_slice()),
            );
            let ((name, params), ty) = both(head, copy_ty(alloc, ty))?;
            Ok(Decl::Alias { name, params, ty })
        }
        Decl::Constant { name, ty } => {
            let (name, ty) = both(copy_name(alloc, name), copy_ty(alloc, ty))?;
            Ok(Decl::Constant { name, ty })
        }
        Decl::Global { name, at, ty } => {
            let ty = copy_ty(alloc, ty)?;
            let name = name.clone()?;
            Ok(Decl::Global { name, at: *at, ty })
        }
        Decl::Use(clauses) => copy_clauses(alloc, clauses.as_slice()).map(Decl::Use),
        Decl::ClassAlias { name, target } => {
            let (name, target) = both(copy_name(alloc, name), copy_name(alloc, target))?;
            Ok(Decl::ClassAlias { name, target })
        }
        Decl::ModuleAlias { name, target } => {
            let (name, target) = both(copy_name(alloc, name), copy_name(alloc, target))?;
            Ok(Decl::ModuleAlias { name, target })
        }
    }
}

#[cycle(declarations)]
fn copy_members(alloc: Global, members: &[Member]) -> Mem<Seq<Member>>
    ensures { IfOk result (λ copy. copy ≡ members.now) }
{
    let mut copy = Seq::new(alloc);
    for member in members {
        copy.push(copy_member(alloc, member)?)?;
    }
    Ok(copy)
}

/// A copy of a member.
#[cycle(declarations)]
pub fn copy_member(alloc: Global, member: &Member) -> Mem<Member>
    ensures { IfOk result (λ copy. copy ≡ member.now) }
{
    match member {
        Member::Nested(decl) => copy_decl(alloc, decl).map(Member::Nested),
        Member::Def {
            name,
            at,
            side,
            public,
            overloads,
            more,
        } => {
            let overloads = copy_methods(alloc, overloads.as_slice())?;
            let name = name.clone()?;
            Ok(Member::Def {
                name,
                at: *at,
                side: *side,
                public: *public,
                overloads,
                more: *more,
            })
        }
        Member::Attr {
            name,
            at,
            side,
            public,
            reads,
            writes,
            variable,
            ty,
        } => {
            let (variable, ty) = both(copy_attr_var(variable), copy_ty(alloc, ty))?;
            let name = name.clone()?;
            Ok(Member::Attr {
                name,
                at: *at,
                side: *side,
                public: *public,
                reads: *reads,
                writes: *writes,
                variable,
                ty,
            })
        }
        Member::Include(target) => copy_ref(alloc, target).map(Member::Include),
        Member::Extend(target) => copy_ref(alloc, target).map(Member::Extend),
        Member::Prepend(target) => copy_ref(alloc, target).map(Member::Prepend),
        Member::AliasOf {
            new_name,
            at,
            old_name,
            side,
        } => {
            let new_name = new_name.clone()?;
            let old_name = old_name.clone()?;
            Ok(Member::AliasOf {
                new_name,
                at: *at,
                old_name,
                side: *side,
            })
        }
        Member::Public => Ok(Member::Public),
        Member::Private => Ok(Member::Private),
        Member::Variable {
            name,
            at,
            scope,
            ty,
        } => {
            let ty = copy_ty(alloc, ty)?;
            let name = name.clone()?;
            Ok(Member::Variable {
                name,
                at: *at,
                scope: *scope,
                ty,
            })
        }
    }
}

fn copy_attr_var(variable: &AttrVar) -> Mem<AttrVar>
    ensures { IfOk result (λ copy. copy ≡ variable.now) }
{
    match variable {
        AttrVar::Same => Ok(AttrVar::Same),
        AttrVar::Named(name) => Ok(AttrVar::Named(name.clone()?)),
        AttrVar::Absent => Ok(AttrVar::Absent),
    }
}

/// A copy of a list of type parameters.
pub fn copy_type_params(alloc: Global, params: &[TypeParam]) -> Mem<Seq<TypeParam>>
    ensures { IfOk result (λ copy. copy ≡ params.now) }
{
    let mut copy = Seq::new(alloc);
    for param in params {
        let bound = copy_optional_ty(alloc, &param.bound)?;
        let name = param.name.clone()?;
        copy.push(TypeParam {
            name,
            at: param.at,
            unchecked: param.unchecked,
            sign: param.sign,
            bound,
        })?;
    }
    Ok(copy)
}

fn copy_superclass(alloc: Global, superclass: &Option<Ref>) -> Mem<Option<Ref>>
    ensures { IfOk result (λ copy. copy ≡ superclass.now) }
{
    match superclass {
        None => Ok(None),
        Some(superclass) => Ok(Some(copy_ref(alloc, superclass)?)),
    }
}

fn copy_refs(alloc: Global, refs: &[Ref]) -> Mem<Seq<Ref>>
    ensures { IfOk result (λ copy. copy ≡ refs.now) }
{
    let mut copy = Seq::new(alloc);
    for target in refs {
        copy.push(copy_ref(alloc, target)?)?;
    }
    Ok(copy)
}

/// A copy of a name with its arguments.
pub fn copy_ref(alloc: Global, target: &Ref) -> Mem<Ref>
    ensures { IfOk result (λ copy. copy ≡ target.now) }
{
    let (name, args) = both(
        copy_name(alloc, &target.name),
        copy_tys(alloc, target.args.as_slice()),
    )?;
    Ok(Ref { name, args })
}

fn copy_clauses(alloc: Global, clauses: &[Clause]) -> Mem<Seq<Clause>>
    ensures { IfOk result (λ copy. copy ≡ clauses.now) }
{
    let mut copy = Seq::new(alloc);
    for clause in clauses {
        let (name, renamed) = both(
            copy_name(alloc, &clause.name),
            copy_optional_text(&clause.renamed),
        )?;
        copy.push(Clause {
            name,
            all: clause.all,
            renamed,
        })?;
    }
    Ok(copy)
}
