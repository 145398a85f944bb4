ghost use Rattle.std.specs.Prelude.{◌≡◌, ◌++◌, map, IfOk, OnOk};
ghost use Rattle.sig_rules.specs.declared.given.What.TheVariants.{AliasOf};
ghost use Rattle.sig_rules.specs.declared.method.Visibility.TheVariants.{Public};
ghost use Rattle.sig_rules.specs.Given.{given_methods, given_methods_in, given_methods_of, is_on_side, only_if, visibility};
ghost use Rattle.sig_rules.specs.Lines.{itself, members};
ghost use Rattle.sig_rules.specs.Types.{first_params};
ghost use Rattle.given_members.specs.Meanings.{method_in, scope_of, what_of, with_methods};

use crate::attributes::put_attribute;
use crate::scope::{Parameters, Scope, parameters_of, scope_of};
use crate::visibility::{Standing, is_on_side, section_behind};
use rbs_tree::{Member, MethodType};
use sig_rules::{Applied, Declared, GivenMethod, Kind, Names, Visibility, What};
use src_text::{Mem, Seq, Text};
use std::alloc::Global;
use type_meaning::members;

/// The methods of this kind that the declarations of a name give, with its arguments in place of its type parameters, in their order.
pub fn given_methods<N: Names>(
    alloc: Global,
    names: &N,
    applied: &Applied,
    kind: Kind,
) -> Mem<Seq<GivenMethod>>
    ensures { IfOk result (λ methods. methods ≡ given_methods (N.all names.now) applied.now kind) }
{
    let parameters = parameters_of(alloc, names, &applied.name)?;
    let mut methods = Seq::new(alloc);
    for declared in names.entries(&applied.name) {
        put_declaration(
            alloc,
            names,
            applied,
            &parameters,
            kind,
            declared,
            &mut methods,
        )?;
    }
    Ok(methods)
}

// Puts the methods of this kind that a declaration of a name gives at the end.
fn put_declaration<N: Names>(
    alloc: Global,
    names: &N,
    applied: &Applied,
    parameters: &Parameters,
    kind: Kind,
    declared: &Declared,
    methods: &mut Seq<GivenMethod>,
) -> Mem<()>
    requires names { parameters.now.names ≡ first_params (N.all names.now) applied.now.name.path }
    requires types { parameters.now.types ≡ (itself (N.all names.now) applied.now.name.path).args }
    ensures { OnOk result (methods.new ≡ methods.old ++ map (with_methods (method_in (scope_of (N.all names.now) applied.now declared.now))) (given_methods_in kind Public (members declared.now.decl))) }
{
    let scope = scope_of(alloc, names, applied, parameters, declared)?;
    put_members(alloc, &scope, kind, members(&declared.decl), methods)
}

// Puts the methods of this kind that the members of a declaration give at the end.
fn put_members<N: Names>(
    alloc: Global,
    scope: &Scope<'_, N>,
    kind: Kind,
    members: &[Member],
    methods: &mut Seq<GivenMethod>,
) -> Mem<()>
    ensures { OnOk result (methods.new ≡ methods.old ++ map (with_methods (method_in scope.now)) (given_methods_in kind Public members.now)) }
{
    let mut section = Visibility::Public;
    let mut rest = members;
    while let [member, more @ ..] = rest {
        put_member(alloc, scope, kind, section, member, methods)?;
        section = section_behind(section, member);
        rest = more;
    }
    Ok(())
}

// Puts the methods of this kind that a member in a section gives at the end.
fn put_member<N: Names>(
    alloc: Global,
    scope: &Scope<'_, N>,
    kind: Kind,
    section: Visibility,
    member: &Member,
    methods: &mut Seq<GivenMethod>,
) -> Mem<()>
    ensures { OnOk result (methods.new ≡ methods.old ++ map (with_methods (method_in scope.now)) (given_methods_of kind section member.now)) }
{
    match member {
        Member::Def {
            name,
            side,
            public,
            overloads,
            more,
            ..
        } => {
            let standing = Standing::new(kind, *side, *public, section);
            put_def(
                alloc,
                scope,
                standing,
                name,
                overloads.as_slice(),
                *more,
                methods,
            )
        }
        Member::Attr {
            name,
            side,
            public,
            reads,
            writes,
            ty,
            ..
        } => {
            let standing = Standing::new(kind, *side, *public, section);
            put_attribute(alloc, scope, standing, name, *reads, *writes, ty, methods)
        }
        Member::AliasOf {
            new_name,
            old_name,
            side,
            ..
        } => put_alias(is_on_side(kind, *side), new_name, old_name, methods),
        _ => Ok(()),
    }
}

// Puts a method with its overloads at the end, if it is of the kind.
fn put_def<N: Names>(
    alloc: Global,
    scope: &Scope<'_, N>,
    standing: Standing,
    name: &Text,
    overloads: &[MethodType],
    more: bool,
    methods: &mut Seq<GivenMethod>,
) -> Mem<()>
    ensures { OnOk result (methods.new ≡ methods.old ++ map (with_methods (method_in scope.now)) (only_if (is_on_side standing.kind standing.side) (record { name = name.now; visible = visibility standing.kind name.now standing.side standing.declared; what = what_of more overloads.now }))) }
{
    if standing.is_on_side() {
        let visible = standing.visibility(name);
        let name = name.clone()?;
        let what = what(scope.methods(alloc, overloads)?, more);
        methods.push(GivenMethod {
            name,
            visible,
            what,
        })
    } else {
        Ok(())
    }
}

// How a method with these overloads is declared.
fn what(overloads: Seq<MethodType>, more: bool) -> What
    ensures { result ≡ what_of more overloads }
{
    if more {
        What::Further(overloads)
    } else {
        What::Whole(overloads)
    }
}

// Puts a method's other name at the end, if the method is of the kind.
fn put_alias(
    on_side: bool,
    new_name: &Text,
    old_name: &Text,
    methods: &mut Seq<GivenMethod>,
) -> Mem<()>
    ensures { OnOk result (methods.new ≡ methods.old ++ only_if on_side (record { name = new_name.now; visible = Public; what = AliasOf old_name.now })) }
{
    if on_side {
        let name = new_name.clone()?;
        let what = What::AliasOf(old_name.clone()?);
        let visible = Visibility::Public;
        methods.push(GivenMethod {
            name,
            visible,
            what,
        })
    } else {
        Ok(())
    }
}
