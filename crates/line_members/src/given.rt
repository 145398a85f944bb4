ghost use Rattle.std.specs.Prelude.{◌≡◌, IfOk};
ghost use Rattle.sig_rules.specs.Given.{given_methods, given_variables};
ghost use Rattle.sig_rules.specs.Methods.{applied_of};

use crate::applied::applied_of;
use given_members::{given_methods, given_variables, may_give_methods, may_give_variables};
use sig_rules::{GivenMethod, GivenVariable, Names, Step};
use src_text::{Mem, Seq};
use std::alloc::Global;

/// The methods that a step's declarations give. Where they may give none, nothing is made.
pub(crate) fn methods_at<N: Names>(alloc: Global, names: &N, step: &Step) -> Mem<Seq<GivenMethod>>
    ensures { IfOk result (λ given. given ≡ given_methods (N.all names.now) (applied_of (N.all names.now) step.now) step.now.kind) }
{
    if !may_give_methods(names, &step.name, step.kind) {
        return Ok(Seq::new(alloc));
    }
    let applied = applied_of(alloc, names, step)?;
    given_methods(alloc, names, &applied, step.kind)
}

/// The variables that a step's declarations give. Where they may give none, nothing is made.
pub(crate) fn variables_at<N: Names>(
    alloc: Global,
    names: &N,
    step: &Step,
) -> Mem<Seq<GivenVariable>>
    ensures { IfOk result (λ given. given ≡ given_variables (N.all names.now) (applied_of (N.all names.now) step.now) step.now.kind) }
{
    if !may_give_variables(names, &step.name, step.kind) {
        return Ok(Seq::new(alloc));
    }
    let applied = applied_of(alloc, names, step)?;
    given_variables(alloc, names, &applied, step.kind)
}
