ghost use Rattle.std.specs.Prelude.{◌≡◌, ◌++◌, IfOk, OnOk};
ghost use Rattle.sig_rules.specs.Methods.{new_overload};

use crate::memory::{once_done, put};
use crate::renaming::set_apart;
use rbs_tree::{MethodType, Ty, both, copy_method, copy_texts, copy_ty};
use src_text::{Mem, Seq, Text};
use std::alloc::Global;

/// The overload of `new` that an overload of `initialize` gives: with the type parameters of the class before its own variables.
pub fn new_overload(
    alloc: Global,
    params: &Seq<Text>,
    made: &Ty,
    method: &MethodType,
) -> Mem<MethodType>
    ensures { IfOk result (λ new. new ≡ new_overload params.now made.now method.now) }
{
    let mut new = copy_method(alloc, method)?;
    let done = make_new(alloc, params, made, &mut new);
    once_done(done, new)
}

// Makes an overload of `initialize` one of `new`.
fn make_new(alloc: Global, params: &Seq<Text>, made: &Ty, method: &mut MethodType) -> Mem<()>
    ensures { OnOk result (method.new ≡ new_overload params.now made.now method.old) }
{
    set_apart(alloc, &[], params.as_slice(), method)?;
    let vars = joined(alloc, params.as_slice(), method.vars.as_slice());
    let (vars, result) = both(vars, copy_ty(alloc, made))?;
    method.vars = vars;
    put(&mut method.result, result);
    Ok(())
}

// The texts of two lists, one behind the other.
fn joined(alloc: Global, first: &[Text], second: &[Text]) -> Mem<Seq<Text>>
    ensures { IfOk result (λ all. all ≡ first.now ++ second.now) }
{
    let mut all = copy_texts(alloc, first)?;
    for text in second {
        all.push(text.clone()?)?;
    }
    Ok(all)
}
