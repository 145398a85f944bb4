ghost use Rattle.std.specs.Prelude.{◌≡◌, [], ◌∷◌, map, nat_eq, if◌then◌else◌, IfOk, OnOk};
ghost use Rattle.std.specs.Cmp.Lexicographic.{pointwise};
ghost use Rattle.std.specs.List.{list_any};
ghost use Rattle.rbs_tree.specs.declared.types.Ty.{Var};
ghost use Rattle.rbs_tree.specs.Substitution as spec;
ghost use Rattle.sig_rules.specs.Instances.{is_in, with_vars, renamed, apart_from, all_apart_from};
ghost use Rattle.type_instances.specs.Variables.{outer, own};

use crate::free_names::{free_name, is_outer};
use crate::memory::put;
use rbs_tree::{MethodType, Ty, copy_texts, subst_method};
use src_text::{Mem, Seq, Text};
use std::alloc::Global;

/// Gives each of a method type's own variables that is one of the names around it another name. Those are given as types, whose variables
/// they are, and as further names. Where none is, it takes no memory.
pub fn set_apart(alloc: Global, types: &[Ty], names: &[Text], method: &mut MethodType) -> Mem<()>
    ensures { OnOk result
        (method.new ≡ all_apart_from (outer types.now names.now) (own method.old) method.old) }
{
    if !has_outer(types, names, method.vars.as_slice()) {
        return Ok(());
    }
    let vars = copy_texts(alloc, method.vars.as_slice())?;
    set_each_apart(alloc, types, names, vars.as_slice(), method)
}

// The same with these variables of it, one after the other.
fn set_each_apart(
    alloc: Global,
    types: &[Ty],
    names: &[Text],
    vars: &[Text],
    method: &mut MethodType,
) -> Mem<()>
    ensures { OnOk result
        (method.new ≡ all_apart_from (outer types.now names.now) vars.now method.old) }
{
    for var in vars {
        set_one_apart(alloc, types, names, var, method)?;
    }
    Ok(())
}

// The same with one of them.
fn set_one_apart(
    alloc: Global,
    types: &[Ty],
    names: &[Text],
    var: &Text,
    method: &mut MethodType,
) -> Mem<()>
    ensures { OnOk result
        (method.new ≡ apart_from (outer types.now names.now) var.now method.old) }
{
    if !is_outer(types, names, var) {
        return Ok(());
    }
    let name = free_name(alloc, types, names, method, var)?;
    rename(alloc, var, &name, method)
}

// Whether some of these variables are among the names around.
fn has_outer(types: &[Ty], names: &[Text], vars: &[Text]) -> bool
    ensures { result ≡ list_any (is_in (outer types.now names.now)) vars.now }
{
    for var in vars {
        if is_outer(types, names, var) {
            return true;
        }
    }
    false
}

// Gives one of a method type's variables another name.
fn rename(alloc: Global, var: &Text, name: &Text, method: &mut MethodType) -> Mem<()>
    ensures { OnOk result (method.new ≡ renamed var.now name.now method.old) }
{
    let vars = renamed_vars(alloc, var, name, method.vars.as_slice())?;
    let parts = renamed_parts(alloc, var, name, method)?;
    put(method, with_vars(vars, parts));
    Ok(())
}

// A method type with another name for a variable, but for the place where it is bound.
fn renamed_parts(alloc: Global, var: &Text, name: &Text, method: &MethodType) -> Mem<MethodType>
    ensures { IfOk result
        (λ other. other ≡ spec.subst_method (var.now ∷ []) (Var name.now ∷ []) method.now) }
{
    let mut vars = Seq::new(alloc);
    vars.push(var.clone()?)?;
    let mut by = Seq::new(alloc);
    by.push(Ty::Var(name.clone()?))?;
    subst_method(alloc, method, &vars, &by)
}

// Variables with another name for one of them.
fn renamed_vars(alloc: Global, var: &Text, name: &Text, vars: &[Text]) -> Mem<Seq<Text>>
    ensures { IfOk result
        (λ all. all ≡ map (λ other. if pointwise nat_eq var.now other then name.now else other) vars.now) }
{
    let mut all = Seq::new(alloc);
    for other in vars {
        all.push(renamed_var(var, name, other)?)?;
    }
    Ok(all)
}

// A variable, or its other name.
fn renamed_var(var: &Text, name: &Text, other: &Text) -> Mem<Text>
    ensures { IfOk result
        (λ text. text ≡ (if pointwise nat_eq var.now other.now then name.now else other.now)) }
{
    if var == other {
        Ok(name.clone()?)
    } else {
        Ok(other.clone()?)
    }
}

// A method type with these variables.
fn with_vars(vars: Seq<Text>, method: MethodType) -> MethodType
    ensures { result ≡ with_vars vars method }
{
    let mut other = method;
    other.vars = vars;
    other
}
