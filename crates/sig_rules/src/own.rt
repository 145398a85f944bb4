ghost use Rattle.std.specs.Prelude.{◌≡◌, [], ◌∷◌, ◌++◌, map, IfOk, OnOk};
ghost use Rattle.sig_rules.specs.Declarations.{found, found_member, own_members};

use rbs_tree::{
    Decl, Member, Ref, both, copy_decl, copy_member, copy_name, copy_ref, copy_type_params,
};
use src_text::{Mem, Seq};
use std::alloc::Global;

/// A copy of a declaration with its own members alone.
pub(crate) fn copy_own(alloc: Global, decl: &Decl) -> Mem<Decl>
    ensures { IfOk result (λ own. own ≡ (found decl.now).own) }
{
    match decl {
        Decl::Class {
            name,
            params,
            superclass,
            members,
        } => {
            let head = both(
                copy_name(alloc, name),
                copy_type_params(alloc, params.as_slice()),
            );
            let body = both(
                copy_superclass(alloc, superclass),
                copy_own_members(alloc, members.as_slice()),
            );
            let ((name, params), (superclass, members)) = both(head, body)?;
            Ok(Decl::Class {
                name,
                params,
                superclass,
                members,
            })
        }
        Decl::Module {
            name,
            params,
            self_types,
            members,
        } => {
            let head = both(
                copy_name(alloc, name),
                copy_type_params(alloc, params.as_slice()),
            );
            let body = both(
                copy_refs(alloc, self_types.as_slice()),
                copy_own_members(alloc, members.as_slice()),
            );
            let ((name, params), (self_types, members)) = both(head, body)?;
            Ok(Decl::Module {
                name,
                params,
                self_types,
                members,
            })
        }
        Decl::Interface {
            name,
            params,
            members,
        } => {
            let head = both(
                copy_name(alloc, name),
                copy_type_params(alloc, params.as_slice()),
            );
            let members = copy_own_members(alloc, members.as_slice());
            let ((name, params), members) = both(head, members)?;
            Ok(Decl::Interface {
                name,
                params,
                members,
            })
        }
        alone => copy_decl(alloc, alone),
    }
}

// Copies of the members that are no declarations.
#[tactic(auto, using(crate::proofs::WalkLemmas::own_members_more))]
fn copy_own_members(alloc: Global, members: &[Member]) -> Mem<Seq<Member>>
    ensures { IfOk result (λ own. own ≡ own_members (map found_member members.now)) }
{
    let mut own = Seq::new(alloc);
    for member in members {
        copy_own_member(alloc, member, &mut own)?;
    }
    Ok(own)
}

// Puts a copy of a member at the end, unless it is a declaration.
fn copy_own_member(alloc: Global, member: &Member, own: &mut Seq<Member>) -> Mem<()>
    ensures { OnOk result (own.new ≡ own.old ++ own_members (found_member member.now ∷ [])) }
{
    match member {
        Member::Nested(_) => Ok(()),
        plain => own.push(copy_member(alloc, plain)?),
    }
}

fn copy_superclass(alloc: Global, superclass: &Option<Ref>) -> Mem<Option<Ref>>
    ensures { IfOk result (λ copy. copy ≡ superclass.now) }
{
    match superclass {
        None => Ok(None),
        Some(superclass) => Ok(Some(copy_ref(alloc, superclass)?)),
    }
}

fn copy_refs(alloc: Global, refs: &[Ref]) -> Mem<Seq<Ref>>
    ensures { IfOk result (λ copy. copy ≡ refs.now) }
{
    let mut copy = Seq::new(alloc);
    for target in refs {
        copy.push(copy_ref(alloc, target)?)?;
    }
    Ok(copy)
}
