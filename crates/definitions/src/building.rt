ghost use Rattle.std.specs.Prelude.{◌≡◌, ◌≤◌, ◌+◌, [], ◌∷◌, true, IfOk, IfErr, OnOk};
ghost use Rattle.sig_rules.specs.Counts.{IsBuildFault, methods_count, most_methods};
ghost use Rattle.sig_rules.specs.declared.line.Kind.TheVariants.{Instance, Singleton};
ghost use Rattle.sig_rules.specs.Lines.{is_self_type};
ghost use Rattle.sig_rules.specs.Types.{sort};
ghost use Rattle.sig_rules.specs.Worlds.{Defines};

use line_members::both_definitions;
use rbs_tree::TypeName;
use sig_rules::{Both, BuildFault, Lines, Steps};
use std::alloc::Global;
use std::sync::ledger::Ledger;

/// Both sides of a class or a module of this full name, each with what is found along its line. It is one step, and fails where a side has
/// more than 4,096 methods.
pub fn build<L: Lines, G: Ledger>(
    alloc: Global,
    lines: &L,
    name: &TypeName,
    steps: &mut Steps<G>,
) -> Result<Both, BuildFault>
    requires { is_self_type (sort (L.all lines.now) name.now.path) ≡ true }
    ensures instance { IfOk result (λ both. Defines (L.all lines.now) name.now.path Instance both.instance) }
    ensures singleton { IfOk result (λ both. Defines (L.all lines.now) name.now.path Singleton both.singleton) }
    ensures few { OnOk result (methods_count (L.all lines.now) name.now.path Instance ≤ most_methods × methods_count (L.all lines.now) name.now.path Singleton ≤ most_methods) }
    ensures fault { IfErr result (IsBuildFault (L.all lines.now) name.now.path (Instance ∷ Singleton ∷ [])) }
    ensures steps { steps.new ≡ steps.old + 1 }
{
    steps.tick();
    both_definitions(alloc, lines, name)
}
