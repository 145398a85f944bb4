ghost use Rattle.std.specs.Prelude.{◌≡◌, [], ◌∷◌, codes, IfOk};
ghost use Rattle.sig_rules.specs.Lines.{followed_by, instance_line, instances, itself, plain, singleton_line, singletons, turns};
ghost use Rattle.ancestors.specs.Known.{IsEndCount, Knows};

use crate::applied::{itself, plain};
use crate::knowing::{Known, NoLines};
use crate::known_part::known_count;
use crate::tasks::{Part, Piece};
use crate::walk::line_of;
use rbs_tree::TypeName;
use sig_rules::{Applied, Line, Names, Sort};
use src_text::{Mem, Seq};
use std::alloc::Global;
use type_meaning::sort;

/// The line of the instances of a class or a module of this full name, or of an interface.
pub fn instance_list<N: Names>(alloc: Global, names: &N, name: &TypeName) -> Mem<Line>
    ensures { IfOk result (λ line. line ≡ instance_line (N.all names.now) name.now.path) }
{
    instance_list_knowing(alloc, names, &NoLines, name)
}

/// The line of a class or a module of this full name itself; an interface has none.
pub fn singleton_list<N: Names>(alloc: Global, names: &N, name: &TypeName) -> Mem<Line>
    ensures { IfOk result (λ line. line ≡ singleton_line (N.all names.now) name.now.path) }
{
    singleton_list_knowing(alloc, names, &NoLines, name)
}

/// The line of the instances of a class or a module of this full name, or of an interface. It shares the steps of the lines that are known.
#[tactic(auto, using(crate::proofs::LineLemmas::only_instances))]
pub fn instance_list_knowing<N: Names, K: Known>(
    alloc: Global,
    names: &N,
    known: &K,
    name: &TypeName,
) -> Mem<Line>
    requires { Knows (N.all names.now) (K.lines known.now) }
    ensures { IfOk result (λ line. line ≡ instance_line (N.all names.now) name.now.path) }
{
    let own = itself(alloc, names, name)?;
    let mut pieces = Seq::new(alloc);
    pieces.push(Piece::Of(Part::Instances, own))?;
    line_of(alloc, names, known, None, pieces)
}

/// The line of a class or a module of this full name itself; an interface has none. It shares the steps of the lines that are known.
#[tactic(auto, using(crate::proofs::LineLemmas::of_class, crate::proofs::LineLemmas::of_module))]
pub fn singleton_list_knowing<N: Names, K: Known>(
    alloc: Global,
    names: &N,
    known: &K,
    name: &TypeName,
) -> Mem<Line>
    requires { Knows (N.all names.now) (K.lines known.now) }
    ensures { IfOk result (λ line. line ≡ singleton_line (N.all names.now) name.now.path) }
{
    match sort(names, name) {
        Sort::Class => class_singletons(alloc, names, known, name),
        Sort::Module => module_singletons(alloc, names, known, name),
        _ => Ok(Line {
            steps: Seq::new(alloc),
            cut: false,
        }),
    }
}

// The line of singletons, and behind it that of the instances of `::Class`.
fn class_singletons<N: Names, K: Known>(
    alloc: Global,
    names: &N,
    known: &K,
    name: &TypeName,
) -> Mem<Line>
    requires { Knows (N.all names.now) (K.lines known.now) }
    ensures { IfOk result (λ line. line ≡ followed_by (singletons (turns (N.all names.now)) (N.all names.now) [] (itself (N.all names.now) name.now.path)) (instances (turns (N.all names.now)) (N.all names.now) [] (plain (codes "Class" ∷ [])))) }
{
    let end = plain(alloc, "Class")?;
    let count = known_count(names, known, &end);
    singletons_before(alloc, names, known, count, name, end)
}

// The line of singletons, and behind it that of the instances of `::Module`.
fn module_singletons<N: Names, K: Known>(
    alloc: Global,
    names: &N,
    known: &K,
    name: &TypeName,
) -> Mem<Line>
    requires { Knows (N.all names.now) (K.lines known.now) }
    ensures { IfOk result (λ line. line ≡ followed_by (singletons (turns (N.all names.now)) (N.all names.now) [] (itself (N.all names.now) name.now.path)) (instances (turns (N.all names.now)) (N.all names.now) [] (plain (codes "Module" ∷ [])))) }
{
    let end = plain(alloc, "Module")?;
    singletons_before(alloc, names, known, None, name, end)
}

// The line of singletons, and behind it a line of instances.
#[tactic(auto, using(crate::proofs::LineLemmas::singletons_first))]
fn singletons_before<N: Names, K: Known>(
    alloc: Global,
    names: &N,
    known: &K,
    count: Option<usize>,
    name: &TypeName,
    end: Applied,
) -> Mem<Line>
    requires known { Knows (N.all names.now) (K.lines known.now) }
    requires count { IsEndCount (N.all names.now) count }
    ensures { IfOk result (λ line. line ≡ followed_by (singletons (turns (N.all names.now)) (N.all names.now) [] (itself (N.all names.now) name.now.path)) (instances (turns (N.all names.now)) (N.all names.now) [] end)) }
{
    let own = itself(alloc, names, name)?;
    let mut pieces = Seq::new(alloc);
    pieces.push(Piece::Of(Part::Singletons, own))?;
    pieces.push(Piece::Of(Part::Instances, end))?;
    line_of(alloc, names, known, count, pieces)
}
