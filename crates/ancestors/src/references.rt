ghost use Rattle.std.specs.Prelude.{◌≡◌, [], false};
ghost use Rattle.std.specs.List.{flat_map};
ghost use Rattle.sig_rules.specs.declared.files.Declared.{Declared};
ghost use Rattle.sig_rules.specs.Lines.{is_class, is_mixin, superclass_of, self_types_of, include_of, prepend_of, extend_of};
ghost use Rattle.ancestors.specs.References.{fits, refs_in, refs_of};

use rbs_tree::{Decl, Member, Ref};
use sig_rules::{Declared, Sort};
use std::slice;
use type_meaning::members;

/// As what a declaration refers to a class, a module or an interface.
#[derive(Clone, Copy, Debug, PartialEq, Eq)]
pub(crate) enum Role {
    Superclass,
    SelfType,
    Include,
    Prepend,
    Extend,
}

/// Whether what is of this sort may be referred to so.
pub(crate) fn fits(role: Role, sort: Sort) -> bool
    ensures { result ≡ fits role sort }
{
    match role {
        Role::Superclass => is_class(sort),
        Role::SelfType => is_class(sort) || is_mixin(sort),
        _ => is_mixin(sort),
    }
}

fn is_class(sort: Sort) -> bool
    ensures { result ≡ is_class sort }
{
    match sort {
        Sort::Class => true,
        _ => false,
    }
}

fn is_mixin(sort: Sort) -> bool
    ensures { result ≡ is_mixin sort }
{
    match sort {
        Sort::Module => true,
        Sort::Interface => true,
        _ => false,
    }
}

/// Whether some of these declarations refer to something in a role.
pub(crate) fn any_refers(role: Role, entries: &[Declared]) -> bool
    ensures { result ≡ false → flat_map (λ (d : Declared). refs_of role d.decl) entries.now ≡ [] }
{
    let mut rest = entries;
    while let [declared, more @ ..] = rest {
        if refers(role, &declared.decl) {
            return true;
        }
        rest = more;
    }
    false
}

// Whether a declaration refers to something in a role.
#[tactic(auto, using(crate::proofs::ReferenceLemmas::refs_of_members))]
fn refers(role: Role, decl: &Decl) -> bool
    ensures { result ≡ false → refs_of role decl.now ≡ [] }
{
    match role {
        Role::Superclass => is_some_ref(superclass_of(decl)),
        Role::SelfType => is_some_ref(self_types_of(decl)),
        _ => members_refer(role, members(decl)),
    }
}

// Whether some of these members refer to something in a role.
fn members_refer(role: Role, members: &[Member]) -> bool
    ensures { result ≡ false → flat_map (refs_in role) members.now ≡ [] }
{
    let mut rest = members;
    while let [member, more @ ..] = rest {
        if is_some_ref(refs_in(role, member)) {
            return true;
        }
        rest = more;
    }
    false
}

fn is_some_ref(refs: &[Ref]) -> bool
    ensures { result ≡ false → refs.now ≡ [] }
{
    match refs {
        [] => false,
        [_, ..] => true,
    }
}

/// The superclass that a declaration names, if it does.
pub(crate) fn superclass_of(decl: &Decl) -> &[Ref]
    ensures { result.now ≡ superclass_of decl.now }
{
    match decl {
        Decl::Class {
            superclass: Some(superclass),
            ..
        } => slice::from_ref(superclass),
        _ => &[],
    }
}

/// The self types that a declaration names.
pub(crate) fn self_types_of(decl: &Decl) -> &[Ref]
    ensures { result.now ≡ self_types_of decl.now }
{
    match decl {
        Decl::Module { self_types, .. } => self_types.as_slice(),
        _ => &[],
    }
}

/// What a member refers to so.
pub(crate) fn refs_in(role: Role, member: &Member) -> &[Ref]
    ensures { result.now ≡ refs_in role member.now }
{
    match role {
        Role::Include => include_of(member),
        Role::Prepend => prepend_of(member),
        Role::Extend => extend_of(member),
        _ => &[],
    }
}

fn include_of(member: &Member) -> &[Ref]
    ensures { result.now ≡ include_of member.now }
{
    match member {
        Member::Include(target) => slice::from_ref(target),
        _ => &[],
    }
}

fn prepend_of(member: &Member) -> &[Ref]
    ensures { result.now ≡ prepend_of member.now }
{
    match member {
        Member::Prepend(target) => slice::from_ref(target),
        _ => &[],
    }
}

fn extend_of(member: &Member) -> &[Ref]
    ensures { result.now ≡ extend_of member.now }
{
    match member {
        Member::Extend(target) => slice::from_ref(target),
        _ => &[],
    }
}
