ghost use Rattle.std.specs.Prelude.{◌≡◌, [], ◌∷◌, ◌++◌, map, IfOk, OnOk};
ghost use Rattle.sig_rules.specs.Declarations.{declared_path, full_name, somes};
ghost use Rattle.sig_rules.specs.Sorted.{AreNames};

use crate::Declared;
use crate::declared_name::declared_words;
use crate::names::{full_name, joined_words};
use rbs_tree::TypeName;
use src_text::{Mem, Seq, Text};
use std::alloc::Global;

/// The full names that are declared, rising by their words, each once. It sorts in O(n log n) comparisons.
pub(crate) fn sorted_names(alloc: Global, all: &[Declared]) -> Mem<Seq<TypeName>>
    ensures { IfOk result (λ names. AreNames all.now names) }
{
    let mut paths = declared_paths(alloc, all)?.into_vec();
    paths.sort_unstable();
    paths.dedup();
    full_names(alloc, paths)
}

// The words of the declared names, in order.
#[tactic(auto, using(crate::proofs::NameLemmas::paths_more))]
fn declared_paths(alloc: Global, all: &[Declared]) -> Mem<Seq<Seq<Text>>>
    ensures { IfOk result (λ paths. paths ≡ somes (map declared_path all.now)) }
{
    let mut paths = Seq::new(alloc);
    for declared in all {
        push_path(alloc, declared, &mut paths)?;
    }
    Ok(paths)
}

// Puts the words of a declared name at the end, where there is one.
fn push_path(alloc: Global, declared: &Declared, paths: &mut Seq<Seq<Text>>) -> Mem<()>
    ensures { OnOk result (paths.new ≡ paths.old ++ somes (declared_path declared.now ∷ [])) }
{
    match declared_words(declared) {
        None => Ok(()),
        Some((front, back)) => paths.push(joined_words(alloc, front, back)?),
    }
}

// The full names with these words.
fn full_names(alloc: Global, paths: Vec<Seq<Text>>) -> Mem<Seq<TypeName>>
    ensures { IfOk result (λ names. names ≡ map full_name paths.items) }
{
    let mut names = Seq::new(alloc);
    for path in paths {
        names.push(full_name(path))?;
    }
    Ok(names)
}
