ghost use Rattle.std.specs.Prelude.{◌≡◌, [], ◌∷◌, ◌++◌, Some, IfOk};
ghost use Rattle.std.specs.Option.{option_map};
ghost use Rattle.rbs_tree.specs.declared.names.TypeName.{TypeName};
ghost use Rattle.sig_rules.specs.Declarations.{declared_path, full_name, full_path, innermost};

use rbs_tree::{Decl, TypeName};
use sig_rules::{Declared, joined_name};
use src_text::{Mem, Seq, Text};
use std::alloc::Global;
use std::slice;

/// The full name that is declared; of a `use` there is none.
pub(crate) fn declared_name(alloc: Global, declared: &Declared) -> Mem<Option<Seq<Text>>>
    ensures { IfOk result (λ path. path ≡ declared_path declared.now) }
{
    let context = declared.context.as_slice();
    match &declared.decl {
        Decl::Class { name, .. } => path_of(alloc, context, name),
        Decl::Module { name, .. } => path_of(alloc, context, name),
        Decl::Interface { name, .. } => path_of(alloc, context, name),
        Decl::Alias { name, .. } => path_of(alloc, context, name),
        Decl::Constant { name, .. } => path_of(alloc, context, name),
        Decl::Global { name, .. } => global_path(alloc, name),
        Decl::Use(_) => Ok(None),
        Decl::ClassAlias { name, .. } => path_of(alloc, context, name),
        Decl::ModuleAlias { name, .. } => path_of(alloc, context, name),
    }
}

// The words of the full name of a name that is declared in this context.
fn path_of(alloc: Global, context: &[TypeName], name: &TypeName) -> Mem<Option<Seq<Text>>>
    ensures { IfOk result (λ path. path ≡ Some (full_path context.now name.now)) }
{
    let full = joined_name(alloc, words_before(context, name), name.path.as_slice())?;
    Ok(Some(full.path))
}

// The name of a global, which is one word.
fn global_path(alloc: Global, name: &Text) -> Mem<Option<Seq<Text>>>
    ensures { IfOk result (λ path. path ≡ Some (name.now ∷ [])) }
{
    let full = joined_name(alloc, &[], slice::from_ref(name))?;
    Ok(Some(full.path))
}

// The words that a full name has before those that are written.
fn words_before<'a>(context: &'a [TypeName], name: &TypeName) -> &'a [Text]
    ensures { result.now ++ name.now.path ≡ full_path context.now name.now }
{
    if name.absolute {
        &[]
    } else {
        innermost_words(context)
    }
}

// The words of the innermost enclosing name.
#[tactic(auto, using(sig_rules::proofs::WalkLemmas::innermost_last))]
fn innermost_words(context: &[TypeName]) -> &[Text]
    ensures { result.now ≡ innermost context.now }
{
    match context {
        [] => &[],
        [.., last] => last.path.as_slice(),
    }
}
