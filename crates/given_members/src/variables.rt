ghost use Rattle.std.specs.Prelude.{◌≡◌, [], ◌∷◌, ◌++◌, length, map, IfOk, OnOk};
ghost use Rattle.std.specs.List.{flat_map};
ghost use Rattle.sig_rules.specs.Given.{attribute_variable, given_variables, given_variables_of, is_seen, only_if};
ghost use Rattle.sig_rules.specs.Lines.{itself, members};
ghost use Rattle.sig_rules.specs.Types.{first_params};
ghost use Rattle.given_members.specs.Meanings.{if_on_side, named, scope_of, ty_in, with_type};

use crate::scope::{Parameters, Scope, parameters_of, scope_of};
use crate::visibility::is_on_side;
use rbs_tree::{AttrVar, Member, Ty, VarScope};
use sig_rules::{Applied, Declared, GivenVariable, Kind, Names};
use src_text::{Mem, Seq, Text};
use std::alloc::Global;
use type_instances::in_place;
use type_meaning::members;

/// The variables of this kind that the declarations of a name give, with its arguments in place of its type parameters, in their order.
pub fn given_variables<N: Names>(
    alloc: Global,
    names: &N,
    applied: &Applied,
    kind: Kind,
) -> Mem<Seq<GivenVariable>>
    ensures { IfOk result (λ variables. variables ≡ given_variables (N.all names.now) applied.now kind) }
{
    let parameters = parameters_of(alloc, names, &applied.name)?;
    let mut variables = Seq::new(alloc);
    for declared in names.entries(&applied.name) {
        put_declaration(
            alloc,
            names,
            applied,
            &parameters,
            kind,
            declared,
            &mut variables,
        )?;
    }
    Ok(variables)
}

// Puts the variables of this kind that a declaration of a name gives at the end.
fn put_declaration<N: Names>(
    alloc: Global,
    names: &N,
    applied: &Applied,
    parameters: &Parameters,
    kind: Kind,
    declared: &Declared,
    variables: &mut Seq<GivenVariable>,
) -> Mem<()>
    requires names { parameters.now.names ≡ first_params (N.all names.now) applied.now.name.path }
    requires types { parameters.now.types ≡ (itself (N.all names.now) applied.now.name.path).args }
    ensures { OnOk result (variables.new ≡ variables.old ++ map (with_type (ty_in (scope_of (N.all names.now) applied.now declared.now))) (flat_map (given_variables_of kind) (members declared.now.decl))) }
{
    let scope = scope_of(alloc, names, applied, parameters, declared)?;
    put_members(alloc, &scope, kind, members(&declared.decl), variables)
}

// Puts the variables of this kind that the members of a declaration give at the end.
fn put_members<N: Names>(
    alloc: Global,
    scope: &Scope<'_, N>,
    kind: Kind,
    members: &[Member],
    variables: &mut Seq<GivenVariable>,
) -> Mem<()>
    ensures { OnOk result (variables.new ≡ variables.old ++ map (with_type (ty_in scope.now)) (flat_map (given_variables_of kind) members.now)) }
{
    for member in members {
        put_member(alloc, scope, kind, member, variables)?;
    }
    Ok(())
}

// Puts the variable of this kind that a member gives at the end, if it gives one.
fn put_member<N: Names>(
    alloc: Global,
    scope: &Scope<'_, N>,
    kind: Kind,
    member: &Member,
    variables: &mut Seq<GivenVariable>,
) -> Mem<()>
    ensures { OnOk result (variables.new ≡ variables.old ++ map (with_type (ty_in scope.now)) (given_variables_of kind member.now)) }
{
    match member {
        Member::Variable {
            name,
            scope: seen,
            ty,
            ..
        } => put_declared(alloc, scope, is_seen(kind, *seen), name, ty, variables),
        Member::Attr {
            name,
            side,
            variable,
            ty,
            ..
        } => {
            let on_side = is_on_side(kind, *side);
            put_attribute_variable(alloc, scope, on_side, name, variable, ty, variables)
        }
        _ => Ok(()),
    }
}

// Puts a declared variable at the end, if it is of the kind.
fn put_declared<N: Names>(
    alloc: Global,
    scope: &Scope<'_, N>,
    seen: bool,
    name: &Text,
    ty: &Ty,
    variables: &mut Seq<GivenVariable>,
) -> Mem<()>
    ensures { OnOk result (variables.new ≡ variables.old ++ map (with_type (ty_in scope.now)) (only_if seen (record { name = name.now; ty = ty.now }))) }
{
    if seen {
        put_variable(alloc, scope, name.clone()?, ty, variables)
    } else {
        Ok(())
    }
}

// Puts the variable of an attribute at the end, if the attribute is of the kind and has one.
fn put_attribute_variable<N: Names>(
    alloc: Global,
    scope: &Scope<'_, N>,
    on_side: bool,
    name: &Text,
    variable: &AttrVar,
    ty: &Ty,
    variables: &mut Seq<GivenVariable>,
) -> Mem<()>
    ensures { OnOk result (variables.new ≡ variables.old ++ map (with_type (ty_in scope.now)) (if_on_side on_side (named (attribute_variable name.now variable.now) ty.now))) }
{
    if on_side {
        match attribute_variable(alloc, name, variable)? {
            None => Ok(()),
            Some(name) => put_variable(alloc, scope, name, ty, variables),
        }
    } else {
        Ok(())
    }
}

// The name of an attribute's variable, if it has one.
fn attribute_variable(alloc: Global, name: &Text, variable: &AttrVar) -> Mem<Option<Text>>
    ensures { IfOk result (λ v. v ≡ attribute_variable name.now variable.now) }
{
    match variable {
        AttrVar::Absent => Ok(None),
        AttrVar::Named(other) => Ok(Some(other.clone()?)),
        AttrVar::Same => {
            let mut same = Text::from_str(alloc, "@")?;
            same.push_str(name.as_str())?;
            Ok(Some(same))
        }
    }
}

// Puts a variable at the end.
fn put_variable<N: Names>(
    alloc: Global,
    scope: &Scope<'_, N>,
    name: Text,
    ty: &Ty,
    variables: &mut Seq<GivenVariable>,
) -> Mem<()>
    ensures { OnOk result (variables.new ≡ variables.old ++ record { name = name; ty = ty_in scope.now ty.now } ∷ []) }
{
    let ty = scope.ty(alloc, ty)?;
    variables.push(GivenVariable { name, ty })
}

/// Whether a variable of a scope is one of this kind.
pub(crate) fn is_seen(kind: Kind, scope: VarScope) -> bool
    ensures { result ≡ is_seen kind scope }
{
    match scope {
        VarScope::Class => true,
        VarScope::Instance => matches!(kind, Kind::Instance),
        VarScope::Singleton => matches!(kind, Kind::Singleton),
    }
}

impl<'a, N: Names> Scope<'a, N> {
    // What a type means, with the arguments in place of the type parameters.
    fn ty(&self, alloc: Global, ty: &Ty) -> Mem<Ty>
        ensures { IfOk result (λ t. t ≡ ty_in self.now ty.now) }
    {
        let tys = single(alloc, self.meant(alloc, ty)?)?;
        let by_first = in_place(alloc, &self.own, &self.parameters.types, tys)?;
        let by_args = in_place(alloc, &self.parameters.names, self.args, by_first)?;
        Ok(only(by_args))
    }
}

// The list of a type alone.
fn single(alloc: Global, ty: Ty) -> Mem<Seq<Ty>>
    ensures { IfOk result (λ tys. tys ≡ ty ∷ []) }
{
    let mut tys = Seq::new(alloc);
    tys.push(ty)?;
    Ok(tys)
}

// The only type of a list.
fn only(tys: Seq<Ty>) -> Ty
    requires { length tys ≡ 1 }
    ensures { tys ≡ result ∷ [] }
{
    tys.into_vec().pop().unwrap()
}
