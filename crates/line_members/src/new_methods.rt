ghost use Rattle.std.specs.Prelude.{◌≡◌, [], ◌∷◌, map, IfOk};
ghost use Rattle.std.specs.Option.{option_copied};
ghost use Rattle.rbs_tree.specs.declared.types.Ty.TheVariants as t;
ghost use Rattle.sig_rules.specs.Declarations.{full_name};
ghost use Rattle.sig_rules.specs.Given.{simple};
ghost use Rattle.sig_rules.specs.Methods.{new_overload, new_overloads};
ghost use Rattle.sig_rules.specs.Types.{first_params};
ghost use Rattle.line_members.specs.Along.{is_class_itself, new_by};

use crate::applied::own_params;
use rbs_tree::{MethodType, Ty, TypeName, copy_name};
use sig_rules::{Kind, Method, Names, Sort, Step, Visibility, joined_name};
use src_text::{Mem, Seq, Text};
use std::alloc::Global;
use type_instances::new_overload;
use type_meaning::{first_params, param_names, sort};

/// Whether a step is a class itself.
pub(crate) fn is_class_itself<N: Names>(names: &N, step: &Step) -> bool
    ensures { result ≡ is_class_itself (N.all names.now) step.now }
{
    match step.kind {
        Kind::Instance => false,
        Kind::Singleton => match sort(names, &step.name) {
            Sort::Class => true,
            _ => false,
        },
    }
}

/// The `new` of a class by its `initialize`.
pub(crate) fn new_by<N: Names>(
    alloc: Global,
    names: &N,
    step: &Step,
    initialize: Option<&Method>,
) -> Mem<Method>
    ensures { IfOk result (λ new. new ≡ new_by (N.all names.now) step.now (option_copied initialize.entry)) }
{
    let overloads = new_overloads(alloc, names, &step.name, initialize)?;
    let owner = copy_name(alloc, &step.name)?;
    Ok(Method {
        overloads,
        visible: Visibility::Public,
        owner,
        kind: Kind::Singleton,
    })
}

// The overloads of the `new` of a class by its `initialize`.
fn new_overloads<N: Names>(
    alloc: Global,
    names: &N,
    name: &TypeName,
    initialize: Option<&Method>,
) -> Mem<Seq<MethodType>>
    ensures { IfOk result (λ overloads. overloads ≡ new_overloads (first_params (N.all names.now) name.now.path) name.now.path (option_copied initialize.entry)) }
{
    match initialize {
        None => unknown_new(alloc, names, name),
        Some(initialize) => known_new(alloc, names, name, initialize.overloads.as_slice()),
    }
}

// The overloads of `new` of a class with these overloads of `initialize`.
fn known_new<N: Names>(
    alloc: Global,
    names: &N,
    name: &TypeName,
    overloads: &[MethodType],
) -> Mem<Seq<MethodType>>
    ensures { IfOk result (λ news. news ≡ map (new_overload (first_params (N.all names.now) name.now.path) (t.Instance (full_name name.now.path) (map t.Var (first_params (N.all names.now) name.now.path)))) overloads.now) }
{
    let params = param_names(alloc, first_params(names, name))?;
    let args = own_params(alloc, names, name)?;
    let made = Ty::Instance(joined_name(alloc, &[], name.path.as_slice())?, args);
    new_overload_of_each(alloc, &params, &made, overloads)
}

// The overloads of `new` for these of `initialize`.
fn new_overload_of_each(
    alloc: Global,
    params: &Seq<Text>,
    made: &Ty,
    overloads: &[MethodType],
) -> Mem<Seq<MethodType>>
    ensures { IfOk result (λ news. news ≡ map (new_overload params.now made.now) overloads.now) }
{
    let mut news = Seq::new(alloc);
    for overload in overloads {
        news.push(new_overload(alloc, params, made, overload)?)?;
    }
    Ok(news)
}

// The overloads of `new` of a class without `initialize`: nothing is wanted, and the arguments of the class are unknown.
fn unknown_new<N: Names>(alloc: Global, names: &N, name: &TypeName) -> Mem<Seq<MethodType>>
    ensures { IfOk result (λ news. news ≡ simple [] (t.Instance (full_name name.now.path) (map (λ var. t.Untyped) (first_params (N.all names.now) name.now.path))) ∷ []) }
{
    let made = Ty::Instance(
        joined_name(alloc, &[], name.path.as_slice())?,
        unknown_args(alloc, names, name)?,
    );
    let mut news = Seq::new(alloc);
    news.push(without_params(alloc, made))?;
    Ok(news)
}

// `untyped` for each type parameter of a full name.
fn unknown_args<N: Names>(alloc: Global, names: &N, name: &TypeName) -> Mem<Seq<Ty>>
    ensures { IfOk result (λ args. args ≡ map (λ var. t.Untyped) (first_params (N.all names.now) name.now.path)) }
{
    let params = param_names(alloc, first_params(names, name))?;
    unknowns(alloc, params.as_slice())
}

// `untyped` for each of these.
fn unknowns(alloc: Global, params: &[Text]) -> Mem<Seq<Ty>>
    ensures { IfOk result (λ args. args ≡ map (λ var. t.Untyped) params.now) }
{
    let mut args = Seq::new(alloc);
    for _param in params {
        args.push(Ty::Untyped)?;
    }
    Ok(args)
}

// A method type without parameters.
fn without_params(alloc: Global, answer: Ty) -> MethodType
    ensures { result ≡ simple [] answer }
{
    MethodType {
        vars: Seq::new(alloc),
        required: Seq::new(alloc),
        optional: Seq::new(alloc),
        rest: None,
        trailing: Seq::new(alloc),
        keywords: Seq::new(alloc),
        rest_keywords: None,
        block: None,
        result: answer,
    }
}
