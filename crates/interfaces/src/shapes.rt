ghost use Rattle.std.specs.Prelude.{◌≡◌, ◌≤◌, ◌+◌, [], ◌∷◌, true, IfOk, IfErr, OnOk};
ghost use Rattle.sig_rules.specs.Counts.{IsBuildFault, methods_count, most_methods};
ghost use Rattle.sig_rules.specs.declared.line.Kind.TheVariants.{Instance};
ghost use Rattle.sig_rules.specs.Lines.{is_self_type};
ghost use Rattle.sig_rules.specs.Types.{sort};
ghost use Rattle.sig_rules.specs.Worlds.{Defines};

use line_members::instance_definition;
use rbs_tree::TypeName;
use sig_rules::{BuildFault, Definition, Lines, Steps};
use std::alloc::Global;
use std::sync::ledger::Ledger;

/// The methods of an interface of this full name, each with what is found along its line. It is one step, and fails where there are more
/// than 4,096 methods.
pub fn shape<L: Lines, G: Ledger>(
    alloc: Global,
    lines: &L,
    name: &TypeName,
    steps: &mut Steps<G>,
) -> Result<Definition, BuildFault>
    requires { is_self_type (sort (L.all lines.now) name.now.path) ≡ true }
    ensures shape { IfOk result (Defines (L.all lines.now) name.now.path Instance) }
    ensures few { OnOk result (methods_count (L.all lines.now) name.now.path Instance ≤ most_methods) }
    ensures fault { IfErr result (IsBuildFault (L.all lines.now) name.now.path (Instance ∷ [])) }
    ensures steps { steps.new ≡ steps.old + 1 }
{
    steps.tick();
    instance_definition(alloc, lines, name)
}
