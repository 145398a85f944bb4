ghost use Rattle.std.specs.Prelude.{◌≡◌, map, IfOk};
ghost use Rattle.rbs_tree.specs.declared.decls.TypeParam.{TypeParam};
ghost use Rattle.sig_rules.specs.Types.{sort, sort_of, type_params, first_params, fitted, fitted_to};
ghost use Rattle.sig_rules.specs.Lines.{members};

use rbs_tree::{Decl, Member, Ty, TypeName, TypeParam};
use sig_rules::{Names, Sort};
use src_text::{Mem, NoMemory, Seq, Text};
use std::alloc::Global;

/// What a full name is the name of, by the first of its declarations that count.
pub fn sort<N: Names>(names: &N, name: &TypeName) -> Sort
    ensures { result ≡ sort (N.all names.now) name.now.path }
{
    match names.entries(name) {
        [] => Sort::Other,
        [first, ..] => sort_of(&first.decl),
    }
}

/// What a declaration declares.
pub fn sort_of(decl: &Decl) -> Sort
    ensures { result ≡ sort_of decl.now }
{
    match decl {
        Decl::Class { .. } => Sort::Class,
        Decl::Module { .. } => Sort::Module,
        Decl::Interface { .. } => Sort::Interface,
        Decl::Alias { .. } => Sort::Alias,
        _ => Sort::Other,
    }
}

/// The type parameters of a full name, as the first of its declarations that count has them.
pub fn first_params<'a, N: Names>(names: &'a N, name: &TypeName) -> &'a [TypeParam]
    ensures { map (λ (p : TypeParam). p.name) result.now ≡ first_params (N.all names.now) name.now.path }
{
    match names.entries(name) {
        [] => &[],
        [first, ..] => type_params(&first.decl),
    }
}

/// The type parameters of a declaration.
pub fn type_params(decl: &Decl) -> &[TypeParam]
    ensures { result.now ≡ type_params decl.now }
{
    match decl {
        Decl::Class { params, .. } => params.as_slice(),
        Decl::Module { params, .. } => params.as_slice(),
        Decl::Interface { params, .. } => params.as_slice(),
        Decl::Alias { params, .. } => params.as_slice(),
        _ => &[],
    }
}

/// The members of a declaration.
pub fn members(decl: &Decl) -> &[Member]
    ensures { result.now ≡ members decl.now }
{
    match decl {
        Decl::Class { members, .. } => members.as_slice(),
        Decl::Module { members, .. } => members.as_slice(),
        Decl::Interface { members, .. } => members.as_slice(),
        _ => &[],
    }
}

/// The names of type parameters.
pub fn param_names(alloc: Global, params: &[TypeParam]) -> Mem<Seq<Text>>
    ensures { IfOk result (λ names. names ≡ map (λ (p : TypeParam). p.name) params.now) }
{
    let mut names = Seq::new(alloc);
    for param in params {
        names.push(param.name.clone()?)?;
    }
    Ok(names)
}

/// As many arguments as a full name has type parameters: missing ones are `untyped`, and surplus ones are dropped.
pub fn fitted<N: Names>(names: &N, name: &TypeName, args: Seq<Ty>) -> Mem<Seq<Ty>>
    ensures { IfOk result (λ fit. fit ≡ fitted_to (N.all names.now) name.now.path args) }
{
    fitted_to(first_params(names, name).len(), args)
}

// So many arguments. They are kept in place, and take no memory where none is missing.
#[tactic(auto, using(crate::proofs::FittedLemmas::fitted_taken, crate::proofs::FittedLemmas::fitted_more, crate::proofs::FittedLemmas::fitted_whole))]
fn fitted_to(count: usize, args: Seq<Ty>) -> Mem<Seq<Ty>>
    ensures { IfOk result (λ fit. fit ≡ fitted count args) }
{
    let mut fit = args.into_vec();
    fit.truncate(count);
    while fit.len() < count {
        fit.push(Ty::Untyped)?;
    }
    Ok(Seq::from_vec(fit))
}
