ghost use Rattle.std.specs.Prelude.{◌≡◌, ◌++◌, ◌||◌, if◌then◌else◌, Some, None, nat_eq, IfOk};
ghost use Rattle.std.specs.List.{list_any};
ghost use Rattle.std.specs.Option.{option_copied};
ghost use Rattle.std.specs.Cmp.Lexicographic.{pointwise};
ghost use Rattle.rbs_tree.specs.declared.types.Ty.TheOpen.{Ty-F};
ghost use Rattle.sig_rules.specs.Names.{resolve};
ghost use Rattle.sig_rules.specs.Types.{by_sort, is_variable, last_word, meant_step, singleton_by_sort, singleton_named, type_named};

use crate::full_names::{fitted, sort};
use rbs_tree::{Ty, TypeName, both, copy_name};
use sig_rules::{Names, Sort};
use src_text::{Mem, Seq, Text};
use std::alloc::Global;

/// The type that a name with arguments stands for: a variable, if it is the name of one of the type parameters.
pub(crate) fn instance<N: Names>(
    alloc: Global,
    names: &N,
    context: &[TypeName],
    own: &[Text],
    vars: &[Text],
    name: &TypeName,
    args: Seq<Ty>,
) -> Mem<Ty>
    ensures { IfOk result (λ t. t ≡ meant_step (N.all names.now) context.now (own.now ++ vars.now) (Ty-F.Instance name.now args)) }
{
    match variable(own, vars, name) {
        Some(word) => Ok(Ty::Var(word.clone()?)),
        None => type_named(alloc, names, context, name, args),
    }
}

/// The type that a name with arguments stands for, if it is the name of no type parameter.
pub(crate) fn type_named<N: Names>(
    alloc: Global,
    names: &N,
    context: &[TypeName],
    name: &TypeName,
    args: Seq<Ty>,
) -> Mem<Ty>
    ensures { IfOk result (λ t. t ≡ type_named (N.all names.now) (resolve (N.all names.now) context.now name.now) args) }
{
    match names.resolve(context, name) {
        None => Ok(Ty::Untyped),
        Some(full) => {
            let (name, args) = both(copy_name(alloc, full), fitted(names, full, args))?;
            Ok(by_sort(sort(names, full), name, args))
        }
    }
}

/// The class or the module itself that a name stands for.
pub(crate) fn singleton_named<N: Names>(
    alloc: Global,
    names: &N,
    context: &[TypeName],
    name: &TypeName,
) -> Mem<Ty>
    ensures { IfOk result (λ t. t ≡ singleton_named (N.all names.now) (resolve (N.all names.now) context.now name.now)) }
{
    match names.resolve(context, name) {
        None => Ok(Ty::Untyped),
        Some(full) => {
            let name = copy_name(alloc, full)?;
            Ok(singleton_by_sort(sort(names, full), name))
        }
    }
}

// The type of a full name of this sort.
fn by_sort(sort: Sort, name: TypeName, args: Seq<Ty>) -> Ty
    ensures { result ≡ by_sort sort name args }
{
    match sort {
        Sort::Class => Ty::Instance(name, args),
        Sort::Module => Ty::Instance(name, args),
        Sort::Interface => Ty::Interface(name, args),
        Sort::Alias => Ty::Alias(name, args),
        Sort::Other => Ty::Untyped,
    }
}

// The class or the module itself of a full name of this sort.
fn singleton_by_sort(sort: Sort, name: TypeName) -> Ty
    ensures { result ≡ singleton_by_sort sort name }
{
    match sort {
        Sort::Class => Ty::Singleton(name),
        Sort::Module => Ty::Singleton(name),
        _ => Ty::Untyped,
    }
}

// The word of a name that is the name of one of the type parameters.
fn variable<'a>(own: &[Text], vars: &[Text], name: &'a TypeName) -> Option<&'a Text>
    ensures { option_copied result ≡ (if is_variable (own.now ++ vars.now) name.now then Some (last_word name.now.path) else None) }
{
    if name.absolute {
        return None;
    }
    match name.path.as_slice() {
        [word] => among(own, vars, word),
        _ => None,
    }
}

// The word, if it is among two lists.
fn among<'a>(own: &[Text], vars: &[Text], word: &'a Text) -> Option<&'a Text>
    ensures { option_copied result ≡ (if list_any (pointwise nat_eq word.now) (own.now ++ vars.now) then Some word.now else None) }
{
    if has(own, word) || has(vars, word) {
        Some(word)
    } else {
        None
    }
}

// Whether a word is among others.
fn has(words: &[Text], word: &Text) -> bool
    ensures { result ≡ list_any (pointwise nat_eq word.now) words.now }
{
    words.iter().any(|other| word == other)
}
