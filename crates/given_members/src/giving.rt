ghost use Rattle.std.specs.Prelude.{◌≡◌, List, [], false};
ghost use Rattle.std.specs.List.{flat_map};
ghost use Rattle.rbs_tree.specs.declared.types.Ty.{Ty};
ghost use Rattle.sig_rules.specs.declared.method.Visibility.{Visibility};
ghost use Rattle.sig_rules.specs.Given.{given_methods, given_methods_in, given_methods_of, given_variables, given_variables_of};

use crate::variables::is_seen;
use crate::visibility::is_on_side;
use rbs_tree::{Member, TypeName};
use sig_rules::{Kind, Names};
use type_meaning::members;

/// Whether the declarations of a full name may give methods of this kind. Where they may not, they give none, whatever the name's arguments
/// are. It takes no memory.
pub fn may_give_methods<N: Names>(names: &N, name: &TypeName, kind: Kind) -> bool
    ensures { result ≡ false → (args : List Ty) → given_methods (N.all names.now) (record { name = name.now; args = args }) kind ≡ [] }
{
    for declared in names.entries(name) {
        if has_method(members(&declared.decl), kind) {
            return true;
        }
    }
    false
}

// Whether one of these members may be a method of this kind.
fn has_method(members: &[Member], kind: Kind) -> bool
    ensures { result ≡ false → (section : Visibility) → given_methods_in kind section members.now ≡ [] }
{
    let mut rest = members;
    while let [member, more @ ..] = rest {
        if is_method(member, kind) {
            return true;
        }
        rest = more;
    }
    false
}

// Whether a member may be a method of this kind.
fn is_method(member: &Member, kind: Kind) -> bool
    ensures { result ≡ false → (section : Visibility) → given_methods_of kind section member.now ≡ [] }
{
    match member {
        Member::Def { side, .. } => is_on_side(kind, *side),
        Member::Attr { side, .. } => is_on_side(kind, *side),
        Member::AliasOf { side, .. } => is_on_side(kind, *side),
        _ => false,
    }
}

/// Whether the declarations of a full name may give variables of this kind. Where they may not, they give none, whatever the name's
/// arguments are. It takes no memory.
pub fn may_give_variables<N: Names>(names: &N, name: &TypeName, kind: Kind) -> bool
    ensures { result ≡ false → (args : List Ty) → given_variables (N.all names.now) (record { name = name.now; args = args }) kind ≡ [] }
{
    for declared in names.entries(name) {
        if has_variable(members(&declared.decl), kind) {
            return true;
        }
    }
    false
}

// Whether one of these members may be a variable of this kind.
fn has_variable(members: &[Member], kind: Kind) -> bool
    ensures { result ≡ false → flat_map (given_variables_of kind) members.now ≡ [] }
{
    let mut rest = members;
    while let [member, more @ ..] = rest {
        if is_variable(member, kind) {
            return true;
        }
        rest = more;
    }
    false
}

// Whether a member may be a variable of this kind.
fn is_variable(member: &Member, kind: Kind) -> bool
    ensures { result ≡ false → given_variables_of kind member.now ≡ [] }
{
    match member {
        Member::Variable { scope, .. } => is_seen(kind, *scope),
        Member::Attr { side, .. } => is_on_side(kind, *side),
        _ => false,
    }
}
