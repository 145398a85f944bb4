ghost use Rattle.std.specs.Prelude.{◌≡◌, length, map, IfOk, OnOk};
ghost use Rattle.rbs_tree.specs.Substitution as spec;
ghost use Rattle.sig_rules.specs.Instances.{all_apart_from, instance, in_row, variables};
ghost use Rattle.type_instances.specs.Variables.{own};

use crate::memory::{once_done, put};
use crate::parameters::{are_shown, shown_parameters};
use crate::renaming::set_apart;
use rbs_tree::{MethodType, Ty, subst, subst_method};
use src_text::{Mem, Seq, Text};
use std::alloc::Global;

/// A method type with types in place of the type parameters around it. A variable of its own hides a type parameter of its name, and one
/// that stands in these types gets another name first.
///
/// Where no type parameter is shown, it takes no memory.
pub fn instance(
    alloc: Global,
    params: &Seq<Text>,
    args: &Seq<Ty>,
    method: MethodType,
) -> Mem<MethodType>
    ensures { IfOk result (λ i. i ≡ instance params.now args.now method) }
{
    let mut made = method;
    let done = make_instance(alloc, params, args, &mut made);
    once_done(done, made)
}

// Makes a method type its instance.
fn make_instance(
    alloc: Global,
    params: &Seq<Text>,
    args: &Seq<Ty>,
    method: &mut MethodType,
) -> Mem<()>
    ensures { OnOk result (method.new ≡ instance params.now args.now method.old) }
{
    if are_shown(method.vars.as_slice(), params.as_slice(), args.as_slice()) {
        return substitute(alloc, params, args, method);
    }
    let shown = shown_parameters(
        alloc,
        method.vars.as_slice(),
        params.as_slice(),
        args.as_slice(),
    )?;
    substitute(alloc, &shown.names, &shown.types, method)
}

// Puts types in place of type parameters that are shown.
fn substitute(alloc: Global, names: &Seq<Text>, types: &Seq<Ty>, method: &mut MethodType) -> Mem<()>
    requires { length names.now ≡ length types.now }
    ensures { OnOk result
        (method.new ≡ spec.subst_method names.now types.now (all_apart_from (in_row (map variables types.now)) (own method.old) method.old)) }
{
    if names.is_empty() {
        return Ok(());
    }
    set_apart(alloc, types.as_slice(), &[], method)?;
    let other = subst_method(alloc, method, names, types)?;
    put(method, other);
    Ok(())
}

/// Types with types in place of type parameters.
///
/// Where there are no type parameters or no types for them, it takes no memory.
pub fn in_place(alloc: Global, vars: &Seq<Text>, by: &Seq<Ty>, tys: Seq<Ty>) -> Mem<Seq<Ty>>
    ensures { IfOk result (λ all. all ≡ map (spec.subst vars.now by.now) tys) }
{
    if vars.is_empty() || by.is_empty() {
        return Ok(tys);
    }
    if vars.len() == by.len() {
        return each_in_place(alloc, vars, by, tys.as_slice());
    }
    paired_in_place(alloc, vars, by, tys.as_slice())
}

// The same where a type parameter may have no type, or a type no type parameter.
fn paired_in_place(alloc: Global, vars: &Seq<Text>, by: &Seq<Ty>, tys: &[Ty]) -> Mem<Seq<Ty>>
    ensures { IfOk result (λ all. all ≡ map (spec.subst vars.now by.now) tys.now) }
{
    let shown = shown_parameters(alloc, &[], vars.as_slice(), by.as_slice())?;
    each_in_place(alloc, &shown.names, &shown.types, tys)
}

// The same where each type parameter has a type.
fn each_in_place(alloc: Global, vars: &Seq<Text>, by: &Seq<Ty>, tys: &[Ty]) -> Mem<Seq<Ty>>
    requires { length vars.now ≡ length by.now }
    ensures { IfOk result (λ all. all ≡ map (spec.subst vars.now by.now) tys.now) }
{
    let mut all = Seq::new(alloc);
    for ty in tys {
        all.push(subst(alloc, ty, vars, by)?)?;
    }
    Ok(all)
}
