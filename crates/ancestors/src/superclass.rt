ghost use Rattle.std.specs.Prelude.{◌≡◌, IfSome};
ghost use Rattle.std.specs.Option.{option_copied};
ghost use Rattle.sig_rules.specs.Types.{sort};

use crate::applied::chosen;
use crate::references::{Role, superclass_of};
use rbs_tree::TypeName;
use sig_rules::{Declared, Names, Sort};

/// The superclass that a declaration of this full name names, if one does. It is meant for the order in which lines are made, and that what is named is
/// a class is all that is said of it.
pub fn superclass_name<'a, N: Names>(names: &'a N, name: &TypeName) -> Option<&'a TypeName>
    ensures { IfSome (option_copied result) (λ found. sort (N.all names.now) found.path ≡ Sort.Class) }
{
    for declared in names.entries(name) {
        if let Some(found) = named_superclass(names, declared) {
            return Some(found);
        }
    }
    None
}

// The superclass that a declaration names, if it does.
#[tactic(auto, using(crate::proofs::ReferenceLemmas::chosen_class))]
fn named_superclass<'a, N: Names>(names: &'a N, declared: &Declared) -> Option<&'a TypeName>
    ensures { IfSome (option_copied result) (λ found. sort (N.all names.now) found.path ≡ Sort.Class) }
{
    match superclass_of(&declared.decl) {
        [] => None,
        [superclass, ..] => chosen(
            names,
            Role::Superclass,
            declared.context.as_slice(),
            &superclass.name,
        ),
    }
}
