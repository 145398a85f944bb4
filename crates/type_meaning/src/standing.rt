ghost use Rattle.std.specs.Prelude.{◌≡◌, [], Some, IfOk};
ghost use Rattle.sig_rules.specs.Types.{alias, meant, value};

use crate::full_names::param_names;
use crate::meaning::meant;
use rbs_tree::{Decl, Ty, TypeName};
use sig_rules::Names;
use src_text::{Mem, Seq, Text};
use std::alloc::Global;

/// The type parameters and the type of a type alias of this full name.
pub fn alias<N: Names>(alloc: Global, names: &N, name: &TypeName) -> Mem<Option<(Seq<Text>, Ty)>>
    ensures { IfOk result (λ a. a ≡ alias (N.all names.now) name.now.path) }
{
    match names.entries(name) {
        [] => Ok(None),
        [first, ..] => match &first.decl {
            Decl::Alias { params, ty, .. } => {
                let vars = param_names(alloc, params.as_slice())?;
                let context = first.context.as_slice();
                let ty = meant(alloc, names, context, vars.as_slice(), ty)?;
                Ok(Some((vars, ty)))
            }
            _ => Ok(None),
        },
    }
}

/// The type of a constant or a global of this full name.
pub fn value<N: Names>(alloc: Global, names: &N, name: &TypeName) -> Mem<Option<Ty>>
    ensures { IfOk result (λ v. v ≡ value (N.all names.now) name.now.path) }
{
    match names.entries(name) {
        [] => Ok(None),
        [first, ..] => match &first.decl {
            Decl::Constant { ty, .. } => constant(alloc, names, first.context.as_slice(), ty),
            Decl::Global { ty, .. } => constant(alloc, names, first.context.as_slice(), ty),
            _ => Ok(None),
        },
    }
}

// The type of a value among these enclosing names, in which no type parameter stands.
fn constant<N: Names>(alloc: Global, names: &N, context: &[TypeName], ty: &Ty) -> Mem<Option<Ty>>
    ensures { IfOk result (λ v. v ≡ Some (meant (N.all names.now) context.now [] ty.now)) }
{
    Ok(Some(meant(alloc, names, context, &[], ty)?))
}
