ghost use Rattle.std.specs.Prelude.{◌≡◌, true, IfOk, IfSome};
ghost use Rattle.std.specs.Option.{option_copied};
ghost use Rattle.sig_rules.specs.Lines.{is_self_type};
ghost use Rattle.sig_rules.specs.Methods.{declared_along, initialize_of, nothing_made};
ghost use Rattle.sig_rules.specs.Types.{sort};
ghost use Rattle.sig_rules.specs.declared.line.Kind.TheVariants.{Instance};
ghost use Rattle.sig_rules.specs.Lines.{line};
ghost use Rattle.line_members.specs.Along.{IsListed, first_class, is_class_itself, known_initialize, new_by};

use crate::entries::{Methods, method_named};
use crate::making::NothingMade;
use crate::methods::methods_along;
use crate::new_methods::{is_class_itself, new_by};
use method_steps::Making;
use rbs_tree::TypeName;
use sig_rules::{Kind, Lines, Method, Names, Shared, Step};
use src_text::{Mem, Seq};
use std::alloc::Global;

/// A class itself has the `new` that its `initialize` gives.
///
/// The `initialize` of one class is known, so it isn't looked for along its line again.
#[derive(Drop)]
pub(crate) struct NewMade<'a, L> {
    pub(crate) lines: &'a L,
    pub(crate) of: &'a TypeName,
    pub(crate) initialize: Option<&'a Method>,
}

impl<L: Lines> Making for NewMade<'_, L> {
    ghost use Rattle.line_members.specs.Along.{made_knowing};

    ghost made = { λ m. made_knowing (L.all m.lines.now) m.of.now.path (option_copied m.initialize) };

    #[tactic(auto, using(crate::proofs::MakingLemmas::first_is_made))]
    fn makes_new(&self, steps: &[Shared<Step>]) -> bool {
        first_class(self.lines, steps).is_some()
    }

    #[tactic(auto, using(crate::proofs::MakingLemmas::first_is_made))]
    fn first_new(&self, alloc: Global, steps: &[Shared<Step>]) -> Mem<Option<Method>> {
        match first_class(self.lines, steps) {
            None => Ok(None),
            Some(step) => Ok(Some(new_of(alloc, self.lines, self.of, self.initialize, step)?)),
        }
    }

    fn only_new(&self) {}
}

// The first of some steps that is a class itself.
fn first_class<'a, N: Names>(names: &N, steps: &'a [Shared<Step>]) -> Option<&'a Step>
    ensures first { option_copied result ≡ first_class (N.all names.now) steps.now }
    ensures class { IfSome result (λ step. is_class_itself (N.all names.now) step.now ≡ true) }
{
    let mut rest = steps;
    while let [step, more @ ..] = rest {
        if is_class_itself(names, step.get()) {
            return Some(step.get());
        }
        rest = more;
    }
    None
}

// The `new` of a class, where the `initialize` of one class is known.
fn new_of<L: Lines>(
    alloc: Global,
    lines: &L,
    known: &TypeName,
    initialize: Option<&Method>,
    step: &Step,
) -> Mem<Method>
    requires { is_class_itself (L.all lines.now) step.now ≡ true }
    ensures { IfOk result (λ new. new ≡ new_by (L.all lines.now) step.now (known_initialize (L.all lines.now) known.now.path (option_copied initialize.entry) step.now.name.path)) }
{
    if step.name.path == known.path {
        new_by(alloc, lines, step, initialize)
    } else {
        new_by_line(alloc, lines, step)
    }
}

// The `new` of a class, by the `initialize` along its line.
fn new_by_line<L: Lines>(alloc: Global, lines: &L, step: &Step) -> Mem<Method>
    requires { is_class_itself (L.all lines.now) step.now ≡ true }
    ensures { IfOk result (λ new. new ≡ new_by (L.all lines.now) step.now (initialize_of (L.all lines.now) step.now.name.path)) }
{
    let methods = instance_methods(alloc, lines, &step.name)?;
    new_by(
        alloc,
        lines,
        step,
        method_named(methods.as_slice(), "initialize"),
    )
}

// The methods of the instances of a class or a module of this full name, or of an interface.
fn instance_methods<L: Lines>(alloc: Global, lines: &L, name: &TypeName) -> Mem<Methods>
    requires { is_self_type (sort (L.all lines.now) name.now.path) ≡ true }
    ensures { IfOk result (IsListed (declared_along (L.all lines.now) nothing_made (line (L.all lines.now) name.now.path Instance).steps)) }
{
    let steps = steps_of(lines, name, Kind::Instance);
    methods_along(
        alloc,
        lines,
        &NothingMade,
        steps,
        steps.len(),
        Seq::new(alloc),
    )
}

/// The steps of the line of a class, a module or an interface.
pub(crate) fn steps_of<'a, L: Lines>(
    lines: &'a L,
    name: &TypeName,
    kind: Kind,
) -> &'a [Shared<Step>]
    requires { is_self_type (sort (L.all lines.now) name.now.path) ≡ true }
    ensures { result.now ≡ (line (L.all lines.now) name.now.path kind).steps }
{
    match lines.line(name, kind) {
        None => &[],
        Some(line) => line.steps.as_slice(),
    }
}
