ghost use Rattle.std.specs.Prelude.{◌≡◌, map, IfOk};
ghost use Rattle.rbs_tree.specs.declared.types.Ty.TheVariants.{Var};
ghost use Rattle.sig_rules.specs.Lines.{inside, itself};
ghost use Rattle.sig_rules.specs.Types.{first_params};
ghost use Rattle.given_members.specs.Meanings.{meant_in, scope_of};

use rbs_tree::{Ty, TypeName, both, copy_name};
use sig_rules::{Applied, Declared, Names, joined_name};
use src_text::{Mem, Seq, Text};
use std::alloc::Global;
use std::marker::Model;
use type_meaning::{first_params, meant, param_names, type_params};

/// The type parameters of a name, as the first of its declarations has them.
#[derive(Drop)]
pub(crate) struct Parameters {
    pub names: Seq<Text>,
    /// The same as types.
    pub types: Seq<Ty>,
}

/// Where a declaration of a name stands, and what stands for its type parameters.
#[derive(Drop)]
pub(crate) struct Scope<'a, N: Names> {
    pub names: &'a N,
    /// The enclosing names, and the declared one as the innermost.
    pub context: Seq<TypeName>,
    /// The declaration's own names for the type parameters.
    pub own: Seq<Text>,
    pub parameters: &'a Parameters,
    pub args: &'a Seq<Ty>,
}

impl<'a, N: Names> Model for Scope<'a, N> {
    ghost use Rattle.std.specs.Coded.{codes};
    ghost use Rattle.rbs_tree.specs.contracts.types.Ty as ty;
    ghost use Rattle.sig_rules.specs.contracts.files.Declared as declared;
    ghost use Rattle.given_members.specs.Meanings.{Scope as Seen};

    ghost Value = { Seen };

    ghost coded = { Prim.hlevel (codes, declared.the_row.coded, ty.the_row.coded) };

    ghost view = { λ s. record { all = N.all s.names.now; context = s.context; own = s.own; first = s.parameters.now.names; itself = s.parameters.now.types; args = s.args.now } };
}

impl<'a, N: Names> Scope<'a, N> {
    /// What a type means, before the arguments are put in.
    pub fn meant(&self, alloc: Global, ty: &Ty) -> Mem<Ty>
        ensures { IfOk result (λ t. t ≡ meant_in self.now ty.now) }
    {
        let context = self.context.as_slice();
        meant(alloc, self.names, context, self.own.as_slice(), ty)
    }
}

/// The type parameters of a full name.
pub(crate) fn parameters_of<N: Names>(alloc: Global, names: &N, name: &TypeName) -> Mem<Parameters>
    ensures names { IfOk result (λ p. p.names ≡ first_params (N.all names.now) name.now.path) }
    ensures types { IfOk result (λ p. p.types ≡ (itself (N.all names.now) name.now.path).args) }
{
    let names = param_names(alloc, first_params(names, name))?;
    let types = variables(alloc, names.as_slice())?;
    Ok(Parameters { names, types })
}

// The types of type parameters.
fn variables(alloc: Global, names: &[Text]) -> Mem<Seq<Ty>>
    ensures { IfOk result (λ types. types ≡ map Var names.now) }
{
    let mut types = Seq::new(alloc);
    for name in names {
        types.push(Ty::Var(name.clone()?))?;
    }
    Ok(types)
}

/// The scope of what stands in a declaration of a name with its arguments.
pub(crate) fn scope_of<'a, N: Names>(
    alloc: Global,
    names: &'a N,
    applied: &'a Applied,
    parameters: &'a Parameters,
    declared: &Declared,
) -> Mem<Scope<'a, N>>
    requires names { parameters.now.names ≡ first_params (N.all names.now) applied.now.name.path }
    requires types { parameters.now.types ≡ (itself (N.all names.now) applied.now.name.path).args }
    ensures { IfOk result (λ s. s ≡ scope_of (N.all names.now) applied.now declared.now) }
{
    let context = inside(alloc, &applied.name, declared);
    let own = param_names(alloc, type_params(&declared.decl));
    let (context, own) = both(context, own)?;
    Ok(Scope {
        names,
        context,
        own,
        parameters,
        args: &applied.args,
    })
}

// Among which names stands what is in a declaration of this name.
fn inside(alloc: Global, name: &TypeName, declared: &Declared) -> Mem<Seq<TypeName>>
    ensures { IfOk result (λ names. names ≡ inside name.now.path declared.now) }
{
    let mut names = Seq::new(alloc);
    for enclosing in declared.context.as_slice() {
        names.push(copy_name(alloc, enclosing)?)?;
    }
    names.push(joined_name(alloc, &[], name.path.as_slice())?)?;
    Ok(names)
}
