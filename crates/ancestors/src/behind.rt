ghost use Rattle.std.specs.Prelude.{◌≡◌, map, IfOk};
ghost use Rattle.sig_rules.specs.Declarations.{same_path};
ghost use Rattle.sig_rules.specs.Lines.{basic_object, behind_instances, behind_singletons, itself, self_types, superclasses};
ghost use Rattle.ancestors.specs.Pieces.{first_or_object, or_object};

use crate::applied::{itself, plain, referred};
use crate::references::Role;
use rbs_tree::TypeName;
use sig_rules::{Applied, Names, Sort};
use src_text::{Mem, Seq};
use std::alloc::Global;
use type_meaning::sort;

/// Whose lines of instances stand behind what a name itself brings.
pub(crate) fn behind_instances<N: Names>(
    alloc: Global,
    names: &N,
    applied: &Applied,
) -> Mem<Seq<Applied>>
    ensures { IfOk result (λ behind. behind ≡ behind_instances (N.all names.now) applied.now) }
{
    match sort(names, &applied.name) {
        Sort::Class => superclasses(alloc, names, applied),
        Sort::Module => self_types(alloc, names, applied),
        _ => Ok(Seq::new(alloc)),
    }
}

/// Whose lines of singletons stand behind a class or a module itself.
pub(crate) fn behind_singletons<N: Names>(
    alloc: Global,
    names: &N,
    applied: &Applied,
) -> Mem<Seq<Applied>>
    ensures { IfOk result (λ behind. behind ≡ behind_singletons (N.all names.now) applied.now) }
{
    match sort(names, &applied.name) {
        Sort::Class => all_itself(alloc, names, superclasses(alloc, names, applied)?),
        _ => Ok(Seq::new(alloc)),
    }
}

// Names with their own type parameters.
fn all_itself<N: Names>(alloc: Global, names: &N, found: Seq<Applied>) -> Mem<Seq<Applied>>
    ensures { IfOk result (λ all. all ≡ map (λ (a : Applied). itself (N.all names.now) a.name.path) found) }
{
    let mut all = Seq::new(alloc);
    for applied in found.as_slice() {
        all.push(itself(alloc, names, &applied.name)?)?;
    }
    Ok(all)
}

// The superclass of a class, if it has one.
fn superclasses<N: Names>(alloc: Global, names: &N, applied: &Applied) -> Mem<Seq<Applied>>
    ensures { IfOk result (λ s. s ≡ superclasses (N.all names.now) applied.now) }
{
    if is_basic_object(&applied.name) {
        return Ok(Seq::new(alloc));
    }
    first_or_object(alloc, referred(alloc, names, Role::Superclass, applied)?)
}

fn is_basic_object(name: &TypeName) -> bool
    ensures { result ≡ same_path name.now.path basic_object }
{
    match name.path.as_slice() {
        [word] => word.as_str() == "BasicObject",
        _ => false,
    }
}

// The first of these names, or else `::Object`.
#[tactic(auto, using(crate::proofs::PieceLemmas::first_is))]
fn first_or_object(alloc: Global, found: Seq<Applied>) -> Mem<Seq<Applied>>
    ensures { IfOk result (λ s. s ≡ first_or_object found) }
{
    let mut first = found.into_vec();
    first.truncate(1);
    or_object(alloc, Seq::from_vec(first))
}

// The self types of a module, or else `::Object`.
fn self_types<N: Names>(alloc: Global, names: &N, applied: &Applied) -> Mem<Seq<Applied>>
    ensures { IfOk result (λ s. s ≡ self_types (N.all names.now) applied.now) }
{
    or_object(alloc, referred(alloc, names, Role::SelfType, applied)?)
}

// These names, or else `::Object`.
fn or_object(alloc: Global, found: Seq<Applied>) -> Mem<Seq<Applied>>
    ensures { IfOk result (λ s. s ≡ or_object found) }
{
    if found.is_empty() {
        let mut object = found;
        object.push(plain(alloc, "Object")?)?;
        Ok(object)
    } else {
        Ok(found)
    }
}
