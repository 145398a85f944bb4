ghost use Rattle.std.specs.Prelude.{◌≡◌, ◌++◌};
ghost use Rattle.std.specs.Option.{option_map};
ghost use Rattle.sig_rules.specs.Declarations.{declared_path, full_path};

use crate::Declared;
use crate::names::words_before;
use rbs_tree::{Decl, TypeName};
use src_text::Text;
use std::slice;

/// The words of the full name that is declared, in two parts; of a `use` there is none.
pub(crate) fn declared_words(declared: &Declared) -> Option<(&[Text], &[Text])>
    ensures { option_map (λ w. w.0.now ++ w.1.now) result ≡ declared_path declared.now }
{
    match &declared.decl {
        Decl::Class { name, .. } => Some(words_of(declared.context.as_slice(), name)),
        Decl::Module { name, .. } => Some(words_of(declared.context.as_slice(), name)),
        Decl::Interface { name, .. } => Some(words_of(declared.context.as_slice(), name)),
        Decl::Alias { name, .. } => Some(words_of(declared.context.as_slice(), name)),
        Decl::Constant { name, .. } => Some(words_of(declared.context.as_slice(), name)),
        Decl::Global { name, .. } => Some((&[], slice::from_ref(name))),
        Decl::Use(_) => None,
        Decl::ClassAlias { name, .. } => Some(words_of(declared.context.as_slice(), name)),
        Decl::ModuleAlias { name, .. } => Some(words_of(declared.context.as_slice(), name)),
    }
}

// The words of the full name of a name that is declared in this context, in two parts.
fn words_of<'a>(context: &'a [TypeName], name: &'a TypeName) -> (&'a [Text], &'a [Text])
    ensures { result.0.now ++ result.1.now ≡ full_path context.now name.now }
{
    (words_before(context, name), name.path.as_slice())
}
