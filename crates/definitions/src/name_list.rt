ghost use Rattle.std.specs.Prelude.{◌≡◌, [], ◌∷◌, ◌++◌, map, reverse, IfOk, OnOk};
ghost use Rattle.sig_rules.specs.Declarations.{declared_names, declared_path, each_once, full_name, somes};
ghost use Rattle.sig_rules.specs.Sorted.{paths_of};

use crate::declared_name::declared_name;
use indexmap::IndexSet;
use rbs_tree::TypeName;
use sig_rules::{Declared, Names};
use src_text::{Mem, NoMemory, Seq, Span, Text};
use std::alloc::Global;

/// The full names that are declared, each once, by the last of its declarations.
pub(crate) fn declared_names<N: Names>(alloc: Global, names: &N) -> Mem<Seq<TypeName>>
    ensures { IfOk result (λ list. paths_of list ≡ declared_names (N.all names.now)) }
{
    each_once(alloc, declared_paths(alloc, names)?)
}

// The words of the declared names, in order.
fn declared_paths<N: Names>(alloc: Global, names: &N) -> Mem<Seq<Seq<Text>>>
    ensures { IfOk result (λ paths. paths ≡ somes (map declared_path (N.all names.now))) }
{
    let mut paths = Seq::new(alloc);
    for i in 0..u64::MAX {
        match names.decl_at(i) {
            None => return Ok(paths),
            Some(declared) => push_path(alloc, declared, &mut paths)?,
        }
    }
    Err(NoMemory)
}

// Puts the words of a declared name at the end, where there is one.
fn push_path(alloc: Global, declared: &Declared, paths: &mut Seq<Seq<Text>>) -> Mem<()>
    ensures { OnOk result (paths.new ≡ paths.old ++ somes (declared_path declared.now ∷ [])) }
{
    match declared_name(alloc, declared)? {
        None => Ok(()),
        Some(path) => paths.push(path),
    }
}

// The full names of these words, each once, by the last place at which it stands.
fn each_once(alloc: Global, paths: Seq<Seq<Text>>) -> Mem<Seq<TypeName>>
    ensures { IfOk result (λ list. paths_of list ≡ each_once paths) }
{
    last_to_first(alloc, seen_backwards(alloc, paths)?)
}

// The words, from the last to the first, each once.
fn seen_backwards(alloc: Global, paths: Seq<Seq<Text>>) -> Mem<IndexSet<Seq<Text>>>
    ensures { IfOk result (λ seen. reverse seen.keys ≡ each_once paths) }
{
    let mut rest = paths.into_vec();
    let mut seen = IndexSet::new(alloc);
    while let Some(path) = rest.pop() {
        seen.insert(path)?;
    }
    Ok(seen)
}

// The full names with these words, the last first.
fn last_to_first(alloc: Global, paths: IndexSet<Seq<Text>>) -> Mem<Seq<TypeName>>
    ensures { IfOk result (λ list. list ≡ map full_name (reverse paths.keys)) }
{
    let mut seen = paths;
    let mut list = Seq::new(alloc);
    while let Some(path) = seen.pop() {
        list.push(full_name(path))?;
    }
    Ok(list)
}

// The full name with these words.
fn full_name(path: Seq<Text>) -> TypeName
    ensures { result ≡ full_name path }
{
    TypeName {
        absolute: true,
        path,
        at: Span { start: 0, end: 0 },
    }
}
