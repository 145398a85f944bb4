ghost use Rattle.std.specs.Prelude.{◌≡◌, [], ◌∷◌, ◌++◌, map, if◌then◌else◌, IfOk, OnOk};
ghost use Rattle.std.specs.List.{flat_map};
ghost use Rattle.std.specs.Option.{option_copied, option_map};
ghost use Rattle.rbs_tree.specs.declared.types.Ty.TheVariants as t;
ghost use Rattle.sig_rules.specs.Declarations.{full_name};
ghost use Rattle.sig_rules.specs.Types.{meant};
ghost use Rattle.sig_rules.specs.Lines.{itself, plain, with_args};
ghost use Rattle.ancestors.specs.References.{applied_refs, around, chosen, fits, of_declaration, parameters_of, refs_in, refs_of, referred, scope_of, with_both};

use crate::references::{Role, any_refers, fits, refs_in, self_types_of, superclass_of};
use rbs_tree::{Decl, Member, Ref, Ty, TypeName, copy_name};
use sig_rules::{Applied, Declared, Names, copy_names, joined_name};
use src_text::{Mem, Seq, Text};
use std::alloc::Global;
use std::slice;
use type_instances::in_place;
use type_meaning::{first_params, fitted, meant, members, param_names, sort, type_params};

/// Among which enclosing names and type parameters a reference stands.
#[derive(Debug, Drop)]
pub(crate) struct Scope {
    /// The full names of the enclosing declarations, the innermost last.
    pub(crate) context: Seq<TypeName>,
    pub(crate) params: Seq<Text>,
}

/// The type parameters of a name, as its first declaration has them.
#[derive(Debug, Drop)]
pub(crate) struct Parameters {
    pub(crate) names: Seq<Text>,
    /// The same as types.
    pub(crate) variables: Seq<Ty>,
}

/// A full name with its own type parameters.
pub(crate) fn itself<N: Names>(alloc: Global, names: &N, name: &TypeName) -> Mem<Applied>
    ensures { IfOk result (λ a. a ≡ itself (N.all names.now) name.now.path) }
{
    let Parameters { variables, .. } = parameters_of(alloc, names, name)?;
    let name = joined_name(alloc, &[], name.path.as_slice())?;
    Ok(Applied {
        name,
        args: variables,
    })
}

// The type variables of these names.
fn variables(alloc: Global, names: &[Text]) -> Mem<Seq<Ty>>
    ensures { IfOk result (λ tys. tys ≡ map t.Var names.now) }
{
    let mut tys = Seq::new(alloc);
    for name in names {
        tys.push(Ty::Var(name.clone()?))?;
    }
    Ok(tys)
}

/// A full name of one word, without arguments.
pub(crate) fn plain(alloc: Global, word: &str) -> Mem<Applied>
    ensures { IfOk result (λ a. a ≡ plain (word.now ∷ [])) }
{
    let word = Text::from_str(alloc, word)?;
    let name = joined_name(alloc, &[], slice::from_ref(&word))?;
    let args = Seq::new(alloc);
    Ok(Applied { name, args })
}

/// What a name's declarations refer to in a role, in order. Nothing is copied where there is nothing.
#[tactic(auto, using(crate::proofs::ReferenceLemmas::none_referred))]
pub(crate) fn referred<N: Names>(
    alloc: Global,
    names: &N,
    role: Role,
    applied: &Applied,
) -> Mem<Seq<Applied>>
    ensures { IfOk result (λ all. all ≡ referred (N.all names.now) role applied.now) }
{
    if any_refers(role, names.entries(&applied.name)) {
        all_referred(alloc, names, role, applied)
    } else {
        Ok(Seq::new(alloc))
    }
}

// What a name's declarations refer to in a role, in order.
fn all_referred<N: Names>(
    alloc: Global,
    names: &N,
    role: Role,
    applied: &Applied,
) -> Mem<Seq<Applied>>
    ensures { IfOk result (λ all. all ≡ referred (N.all names.now) role applied.now) }
{
    let first = parameters_of(alloc, names, &applied.name)?;
    let mut all = Seq::new(alloc);
    for declared in names.entries(&applied.name) {
        add_of_declaration(alloc, names, role, applied, &first, declared, &mut all)?;
    }
    Ok(all)
}

// The type parameters of a full name.
fn parameters_of<N: Names>(alloc: Global, names: &N, name: &TypeName) -> Mem<Parameters>
    ensures { IfOk result (λ first. first ≡ parameters_of (N.all names.now) name.now.path) }
{
    let params = param_names(alloc, first_params(names, name))?;
    let variables = variables(alloc, params.as_slice())?;
    Ok(Parameters {
        names: params,
        variables,
    })
}

// Puts what a declaration of a name refers to in a role at the end.
fn add_of_declaration<N: Names>(
    alloc: Global,
    names: &N,
    role: Role,
    applied: &Applied,
    first: &Parameters,
    declared: &Declared,
    all: &mut Seq<Applied>,
) -> Mem<()>
    ensures { OnOk result (all.new ≡ all.old ++ of_declaration (N.all names.now) role applied.now first.now declared.now) }
{
    let scope = scope_of(alloc, role, &applied.name, declared)?;
    let found = applied_refs(alloc, names, role, &scope, &declared.decl)?;
    add_with_args(alloc, &scope.params, first, &applied.args, found, all)
}

// The enclosing names and the type parameters of a declaration of this name.
fn scope_of(alloc: Global, role: Role, name: &TypeName, declared: &Declared) -> Mem<Scope>
    ensures { IfOk result (λ scope. scope ≡ scope_of role name.now.path declared.now) }
{
    let context = around(alloc, role, name, declared)?;
    let params = param_names(alloc, type_params(&declared.decl))?;
    Ok(Scope { context, params })
}

// The enclosing names of what is referred to in a role by a declaration of this name.
fn around(alloc: Global, role: Role, name: &TypeName, declared: &Declared) -> Mem<Seq<TypeName>>
    ensures { IfOk result (λ context. context ≡ around role name.now.path declared.now) }
{
    let mut context = copy_names(alloc, declared.context.as_slice())?;
    match role {
        Role::Superclass => Ok(context),
        _ => {
            context.push(joined_name(alloc, &[], name.path.as_slice())?)?;
            Ok(context)
        }
    }
}

// What a declaration refers to in a role, with its own type parameters.
fn applied_refs<N: Names>(
    alloc: Global,
    names: &N,
    role: Role,
    scope: &Scope,
    decl: &Decl,
) -> Mem<Seq<Applied>>
    ensures { IfOk result (λ all. all ≡ applied_refs (N.all names.now) role scope.now (refs_of role decl.now)) }
{
    let mut all = Seq::new(alloc);
    add_refs_of(alloc, names, role, scope, decl, &mut all)?;
    Ok(all)
}

// Puts what a declaration refers to in a role at the end.
#[tactic(auto, using(crate::proofs::ReferenceLemmas::refs_of_members))]
fn add_refs_of<N: Names>(
    alloc: Global,
    names: &N,
    role: Role,
    scope: &Scope,
    decl: &Decl,
    all: &mut Seq<Applied>,
) -> Mem<()>
    ensures { OnOk result (all.new ≡ all.old ++ applied_refs (N.all names.now) role scope.now (refs_of role decl.now)) }
{
    match role {
        Role::Superclass => add_refs(alloc, names, role, scope, superclass_of(decl), all),
        Role::SelfType => add_refs(alloc, names, role, scope, self_types_of(decl), all),
        _ => add_members(alloc, names, role, scope, members(decl), all),
    }
}

// Puts what members refer to in a role at the end.
fn add_members<N: Names>(
    alloc: Global,
    names: &N,
    role: Role,
    scope: &Scope,
    members: &[Member],
    all: &mut Seq<Applied>,
) -> Mem<()>
    ensures { OnOk result (all.new ≡ all.old ++ applied_refs (N.all names.now) role scope.now (flat_map (refs_in role) members.now)) }
{
    for member in members {
        add_refs(alloc, names, role, scope, refs_in(role, member), all)?;
    }
    Ok(())
}

// Puts what is referred to in a role at the end.
fn add_refs<N: Names>(
    alloc: Global,
    names: &N,
    role: Role,
    scope: &Scope,
    refs: &[Ref],
    all: &mut Seq<Applied>,
) -> Mem<()>
    ensures { OnOk result (all.new ≡ all.old ++ applied_refs (N.all names.now) role scope.now refs.now) }
{
    for target in refs {
        add_ref(alloc, names, role, scope, target, all)?;
    }
    Ok(())
}

// Puts what is referred to in a role at the end, if it may stand there.
#[tactic(auto, using(crate::proofs::ReferenceLemmas::ref_none, crate::proofs::ReferenceLemmas::ref_some))]
fn add_ref<N: Names>(
    alloc: Global,
    names: &N,
    role: Role,
    scope: &Scope,
    target: &Ref,
    all: &mut Seq<Applied>,
) -> Mem<()>
    ensures { OnOk result (all.new ≡ all.old ++ applied_refs (N.all names.now) role scope.now (target.now ∷ [])) }
{
    match chosen(names, role, scope.context.as_slice(), &target.name) {
        None => Ok(()),
        Some(name) => {
            let args = all_meant(alloc, names, scope, target.args.as_slice())?;
            let args = fitted(names, name, args)?;
            let name = copy_name(alloc, name)?;
            all.push(Applied { name, args })
        }
    }
}

/// The full name that a name stands for among enclosing names, if it may stand in a role.
pub(crate) fn chosen<'a, N: Names>(
    names: &'a N,
    role: Role,
    context: &[TypeName],
    name: &TypeName,
) -> Option<&'a TypeName>
    ensures { option_copied result ≡ option_map full_name (chosen (N.all names.now) (fits role) context.now name.now) }
{
    let found = names.resolve(context, name)?;
    if fits(role, sort(names, found)) {
        Some(found)
    } else {
        None
    }
}

// What types mean among these enclosing names and type parameters.
fn all_meant<N: Names>(alloc: Global, names: &N, scope: &Scope, tys: &[Ty]) -> Mem<Seq<Ty>>
    ensures { IfOk result (λ all. all ≡ map (meant (N.all names.now) scope.now.context scope.now.params) tys.now) }
{
    let mut all = Seq::new(alloc);
    for ty in tys {
        all.push(meant(
            alloc,
            names,
            scope.context.as_slice(),
            scope.params.as_slice(),
            ty,
        )?)?;
    }
    Ok(all)
}

// Puts names at the end, with a declaration's type parameters replaced by those of the first, and these by arguments.
fn add_with_args(
    alloc: Global,
    params: &Seq<Text>,
    first: &Parameters,
    args: &Seq<Ty>,
    found: Seq<Applied>,
    all: &mut Seq<Applied>,
) -> Mem<()>
    ensures { OnOk result (all.new ≡ all.old ++ map (with_both params.now first.now args.now) found) }
{
    for applied in found.into_vec() {
        let by_first = with_args(alloc, params, &first.variables, applied)?;
        all.push(with_args(alloc, &first.names, args, by_first)?)?;
    }
    Ok(())
}

// A name with types in place of type parameters.
fn with_args(alloc: Global, params: &Seq<Text>, args: &Seq<Ty>, applied: Applied) -> Mem<Applied>
    ensures { IfOk result (λ put. put ≡ with_args params.now args.now applied) }
{
    let Applied { name, args: own } = applied;
    let args = in_place(alloc, params, args, own)?;
    Ok(Applied { name, args })
}
