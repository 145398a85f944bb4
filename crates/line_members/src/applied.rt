ghost use Rattle.std.specs.Prelude.{◌≡◌, map, IfOk};
ghost use Rattle.rbs_tree.specs.declared.types.Ty.TheVariants as t;
ghost use Rattle.rbs_tree.specs.declared.decls.TypeParam.{TypeParam};
ghost use Rattle.sig_rules.specs.Methods.{applied_of};
ghost use Rattle.sig_rules.specs.Types.{first_params};

use rbs_tree::{Ty, TypeName, TypeParam, copy_name, copy_tys};
use sig_rules::{Applied, Kind, Names, Step};
use src_text::{Mem, Seq};
use std::alloc::Global;
use type_meaning::first_params;

/// A step with its arguments; on the side of the class or the module itself they are its own type parameters.
pub(crate) fn applied_of<N: Names>(alloc: Global, names: &N, step: &Step) -> Mem<Applied>
    ensures { IfOk result (λ applied. applied ≡ applied_of (N.all names.now) step.now) }
{
    let name = copy_name(alloc, &step.name)?;
    let args = args_of(alloc, names, step)?;
    Ok(Applied { name, args })
}

// The arguments of a step.
fn args_of<N: Names>(alloc: Global, names: &N, step: &Step) -> Mem<Seq<Ty>>
    ensures { IfOk result (λ args. args ≡ (applied_of (N.all names.now) step.now).args) }
{
    match step.kind {
        Kind::Instance => copy_tys(alloc, step.args.as_slice()),
        Kind::Singleton => own_params(alloc, names, &step.name),
    }
}

/// The type parameters of a full name, as types.
#[tactic(auto, using(crate::proofs::AlongLemmas::as_types))]
pub(crate) fn own_params<N: Names>(alloc: Global, names: &N, name: &TypeName) -> Mem<Seq<Ty>>
    ensures { IfOk result (λ args. args ≡ map t.Var (first_params (N.all names.now) name.now.path)) }
{
    variables(alloc, first_params(names, name))
}

// Type parameters as types.
fn variables(alloc: Global, params: &[TypeParam]) -> Mem<Seq<Ty>>
    ensures { IfOk result (λ args. args ≡ map (λ (p : TypeParam). t.Var p.name) params.now) }
{
    let mut args = Seq::new(alloc);
    for param in params {
        args.push(Ty::Var(param.name.clone()?))?;
    }
    Ok(args)
}
