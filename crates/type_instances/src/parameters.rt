ghost use Rattle.std.specs.Prelude.{◌≡◌, ◌↔◌, [], ◌∷◌, ◌++◌, false, length, if◌then◌else◌, IfOk, OnOk, IsTrue};
ghost use Rattle.std.specs.List.{list_any};
ghost use Rattle.sig_rules.specs.Instances.{is_in};
ghost use Rattle.type_instances.specs.Variables.{shown_names, shown_types};

use crate::variables::is_among;
use rbs_tree::{Ty, copy_ty};
use src_text::{Mem, Seq, Text};
use std::alloc::Global;

/// Type parameters that no variable hides, with the types in their place.
#[derive(Drop)]
pub struct Shown {
    pub names: Seq<Text>,
    pub types: Seq<Ty>,
}

/// The type parameters that none of these variables hides, with the types in their place. Where each is hidden, it takes no memory.
pub fn shown_parameters(alloc: Global, own: &[Text], params: &[Text], args: &[Ty]) -> Mem<Shown>
    ensures names { IfOk result (λ shown. shown.names ≡ shown_names own.now params.now args.now) }
    ensures types { IfOk result (λ shown. shown.types ≡ shown_types own.now params.now args.now) }
    ensures paired { IfOk result (λ shown. length shown.names ≡ length shown.types) }
{
    let mut shown = Shown {
        names: Seq::new(alloc),
        types: Seq::new(alloc),
    };
    let mut names = params;
    let mut types = args;
    while let [name, other_names @ ..] = names {
        match types {
            [] => return Ok(shown),
            [ty, other_types @ ..] => {
                show(alloc, own, name, ty, &mut shown)?;
                names = other_names;
                types = other_types;
            }
        }
    }
    Ok(shown)
}

// Adds a type parameter with its type, if it isn't hidden.
fn show(alloc: Global, own: &[Text], name: &Text, ty: &Ty, shown: &mut Shown) -> Mem<()>
    ensures names { OnOk result
        (shown.new.names ≡ (if is_in own.now name.now then shown.old.names else shown.old.names ++ name.now ∷ [])) }
    ensures types { OnOk result
        (shown.new.types ≡ (if is_in own.now name.now then shown.old.types else shown.old.types ++ ty.now ∷ [])) }
{
    if !is_among(own, name) {
        shown.names.push(name.clone()?)?;
        shown.types.push(copy_ty(alloc, ty)?)?;
    }
    Ok(())
}

/// Whether each of these type parameters has a type, and none is hidden by these variables.
pub fn are_shown(own: &[Text], params: &[Text], args: &[Ty]) -> bool
    ensures { IsTrue result
        ↔ (length params.now ≡ length args.now × list_any (is_in own.now) params.now ≡ false) }
{
    params.len() == args.len() && !are_hidden(own, params)
}

// Whether some of these type parameters are hidden by these variables.
fn are_hidden(own: &[Text], params: &[Text]) -> bool
    ensures { result ≡ list_any (is_in own.now) params.now }
{
    for name in params {
        if is_among(own, name) {
            return true;
        }
    }
    false
}
