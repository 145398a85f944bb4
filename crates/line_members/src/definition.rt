ghost use Rattle.std.specs.Prelude.{◌≡◌, ◌≤◌, [], ◌∷◌, true, IfOk, IfErr, OnOk};
ghost use Rattle.sig_rules.specs.declared.line.Kind.TheVariants.{Instance, Singleton};
ghost use Rattle.sig_rules.specs.Counts.{IsBuildFault, methods_count, most_methods};
ghost use Rattle.sig_rules.specs.Lines.{is_self_type};
ghost use Rattle.sig_rules.specs.Types.{sort};
ghost use Rattle.sig_rules.specs.Worlds.{Defines};

use crate::sides::{instance_side, singleton_side};
use rbs_tree::TypeName;
use sig_rules::{Both, BuildFault, Definition, Lines};
use std::alloc::Global;

/// The methods and variables of the instances of a class or a module of this full name, or those of an interface, each with what is found
/// along the line. It fails where there are more than 4,096 methods.
pub fn instance_definition<L: Lines>(
    alloc: Global,
    lines: &L,
    name: &TypeName,
) -> Result<Definition, BuildFault>
    requires { is_self_type (sort (L.all lines.now) name.now.path) ≡ true }
    ensures defines { IfOk result (Defines (L.all lines.now) name.now.path Instance) }
    ensures few { OnOk result (methods_count (L.all lines.now) name.now.path Instance ≤ most_methods) }
    ensures fault { IfErr result (IsBuildFault (L.all lines.now) name.now.path (Instance ∷ [])) }
{
    let side = instance_side(alloc, lines, name, None)?;
    Ok(side.definition)
}

/// The methods and variables of both sides of a class or a module of this full name, each with what is found along its line. It fails
/// where a side has more than 4,096 methods.
pub fn both_definitions<L: Lines>(
    alloc: Global,
    lines: &L,
    name: &TypeName,
) -> Result<Both, BuildFault>
    requires { is_self_type (sort (L.all lines.now) name.now.path) ≡ true }
    ensures instance { IfOk result (λ both. Defines (L.all lines.now) name.now.path Instance both.instance) }
    ensures singleton { IfOk result (λ both. Defines (L.all lines.now) name.now.path Singleton both.singleton) }
    ensures few_instance { OnOk result (methods_count (L.all lines.now) name.now.path Instance ≤ most_methods) }
    ensures few_singleton { OnOk result (methods_count (L.all lines.now) name.now.path Singleton ≤ most_methods) }
    ensures fault { IfErr result (IsBuildFault (L.all lines.now) name.now.path (Instance ∷ Singleton ∷ [])) }
{
    let instance = instance_side(alloc, lines, name, None)?;
    let singleton = singleton_side(alloc, lines, name, &instance, None)?;
    Ok(Both {
        instance: instance.definition,
        singleton: singleton.definition,
    })
}
