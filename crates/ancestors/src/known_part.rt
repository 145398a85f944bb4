ghost use Rattle.std.specs.Prelude.{◌≡◌, ◌+◌, ◌-◌, ◌&&◌, [], map, length, nat_lt, take, not, IsTrue, IfSome};
ghost use Rattle.std.specs.Option.{option_copied};
ghost use Rattle.rbs_tree.specs.declared.decls.TypeParam.{TypeParam};
ghost use Rattle.rbs_tree.specs.declared.types.Ty.TheVariants as t;
ghost use Rattle.sig_rules.specs.Types.{first_params, sort};
ghost use Rattle.sig_rules.specs.Lines.{instances, is_on, turns};
ghost use Rattle.ancestors.specs.Known.{IsEndCount, Knows, on_any, part_line, uncut, whole_part};
ghost use Rattle.ancestors.specs.Walks.{trail_of};

use crate::knowing::Known;
use crate::stack::Stack;
use crate::tasks::Part;
use crate::trail::{Visited, is_below_turns, is_on};
use rbs_tree::{Ty, TypeName, TypeParam};
use sig_rules::{Applied, Kind, Line, Names, Shared, Sort, Step};
use src_text::Text;
use type_meaning::{first_params, sort};

/// The steps that a part of a name adds behind a trail, if its line is known and no name of the trail stands on it. Of the line of `::Class`
/// it is told how many steps it has, if that is known.
#[tactic(auto, using(crate::proofs::KnownLemmas::behind_trail))]
pub(crate) fn known_steps<'a, N: Names, K: Known>(
    names: &N,
    known: &'a K,
    end: Option<usize>,
    trail: &Stack<Visited>,
    part: Part,
    applied: &Applied,
) -> Option<&'a [Shared<Step>]>
    requires known { Knows (N.all names.now) (K.lines known.now) }
    requires end { IsEndCount (N.all names.now) end }
    ensures { IfSome (option_copied result) (λ steps. part_line (N.all names.now) (trail_of trail.now) part applied.now ≡ uncut steps) }
{
    match known_part(names, known, end, part, applied) {
        None => None,
        Some(steps) => {
            if fits_behind(names, trail, steps) {
                Some(steps)
            } else {
                None
            }
        }
    }
}

// Whether so many turns are left behind a trail as there are steps, and none of them is on the trail.
fn fits_behind<N: Names>(names: &N, trail: &Stack<Visited>, steps: &[Shared<Step>]) -> bool
    ensures { IsTrue result → IsTrue (nat_lt (length (trail_of trail.now) + length steps.now) (turns (N.all names.now)) && not (on_any (trail_of trail.now) steps.now)) }
{
    has_room(names, trail.len(), steps.len()) && !is_any_on(trail, steps)
}

// Whether lines have more turns than two numbers together.
fn has_room<N: Names>(names: &N, taken: usize, more: usize) -> bool
    ensures { IsTrue result → IsTrue (nat_lt (taken + more) (turns (N.all names.now))) }
{
    match taken.checked_add(more) {
        None => false,
        Some(sum) => is_below_turns(names, sum),
    }
}

// Whether a step is on a trail.
fn is_any_on(trail: &Stack<Visited>, steps: &[Shared<Step>]) -> bool
    ensures { result ≡ on_any (trail_of trail.now) steps.now }
{
    steps.iter().any(|step| is_step_on(trail, step))
}

fn is_step_on(trail: &Stack<Visited>, step: &Shared<Step>) -> bool
    ensures { result ≡ is_on (trail_of trail.now) step.now.name.path step.now.kind }
{
    let step = step.get();
    is_on(trail, &step.name, step.kind)
}

// The steps of a part of a name, if its line is known.
fn known_part<'a, N: Names, K: Known>(
    names: &N,
    known: &'a K,
    end: Option<usize>,
    part: Part,
    applied: &Applied,
) -> Option<&'a [Shared<Step>]>
    requires known { Knows (N.all names.now) (K.lines known.now) }
    requires end { IsEndCount (N.all names.now) end }
    ensures { IfSome (option_copied result) (λ steps. whole_part (N.all names.now) part applied.now ≡ uncut steps) }
{
    match part {
        Part::Brought => None,
        Part::Instances => known_instances(names, known, applied),
        Part::Singletons => known_singletons(names, known, end, applied),
    }
}

// The steps of a line of instances, if it is known and stands with the name's own type parameters.
fn known_instances<'a, N: Names, K: Known>(
    names: &N,
    known: &'a K,
    applied: &Applied,
) -> Option<&'a [Shared<Step>]>
    requires { Knows (N.all names.now) (K.lines known.now) }
    ensures { IfSome (option_copied result) (λ steps. whole_part (N.all names.now) Part.Instances applied.now ≡ uncut steps) }
{
    match known.known_line(&applied.name, Kind::Instance) {
        None => None,
        Some(line) => {
            if !line.cut && has_own_params(names, applied) {
                Some(line.steps.as_slice())
            } else {
                None
            }
        }
    }
}

// The steps of a line of singletons, if it is known, and also what stands behind it.
fn known_singletons<'a, N: Names, K: Known>(
    names: &N,
    known: &'a K,
    end: Option<usize>,
    applied: &Applied,
) -> Option<&'a [Shared<Step>]>
    requires known { Knows (N.all names.now) (K.lines known.now) }
    requires end { IsEndCount (N.all names.now) end }
    ensures { IfSome (option_copied result) (λ steps. whole_part (N.all names.now) Part.Singletons applied.now ≡ uncut steps) }
{
    match end {
        None => None,
        Some(count) => match known.known_line(&applied.name, Kind::Singleton) {
            None => None,
            Some(line) => {
                if is_own_class(names, applied) && !line.cut {
                    all_but(line.steps.as_slice(), count)
                } else {
                    None
                }
            }
        },
    }
}

// Whether this is a class with its own type parameters.
fn is_own_class<N: Names>(names: &N, applied: &Applied) -> bool
    ensures class { IsTrue result → sort (N.all names.now) applied.now.name.path ≡ Sort.Class }
    ensures own { IsTrue result → applied.now.args ≡ map t.Var (first_params (N.all names.now) applied.now.name.path) }
{
    match sort(names, &applied.name) {
        Sort::Class => has_own_params(names, applied),
        _ => false,
    }
}

// The steps without so many at the end.
fn all_but(steps: &[Shared<Step>], count: usize) -> Option<&[Shared<Step>]>
    ensures { IfSome (option_copied result) (λ front. front ≡ take (length steps.now - count) steps.now) }
{
    match steps.len().checked_sub(count) {
        None => None,
        Some(len) => Some(&steps[..len]),
    }
}

// Whether a name stands with its own type parameters.
fn has_own_params<N: Names>(names: &N, applied: &Applied) -> bool
    ensures { IsTrue result → applied.now.args ≡ map t.Var (first_params (N.all names.now) applied.now.name.path) }
{
    are_variables(applied.args.as_slice(), first_params(names, &applied.name))
}

// Whether types are the variables of these type parameters.
fn are_variables(tys: &[Ty], params: &[TypeParam]) -> bool
    ensures { IsTrue result → tys.now ≡ map t.Var (map (λ (p : TypeParam). p.name) params.now) }
{
    let mut rest = params;
    for ty in tys {
        match rest {
            [param, more @ ..] => {
                if !is_variable(ty, &param.name) {
                    return false;
                }
                rest = more;
            }
            [] => return false,
        }
    }
    rest.is_empty()
}

// Whether a type is this variable.
fn is_variable(ty: &Ty, name: &Text) -> bool
    ensures { IsTrue result → ty.now ≡ t.Var name.now }
{
    match ty {
        Ty::Var(word) => is_word(word, name),
        _ => false,
    }
}

fn is_word(word: &Text, name: &Text) -> bool
    ensures { IsTrue result → word.now ≡ name.now }
{
    word == name
}

/// How many steps the line of the instances of this class at the top has, if it is known and has no type parameters.
pub(crate) fn known_count<N: Names, K: Known>(
    names: &N,
    known: &K,
    class: &Applied,
) -> Option<usize>
    requires known { Knows (N.all names.now) (K.lines known.now) }
    ensures { IfSome result (λ count. count ≡ length (instances (turns (N.all names.now)) (N.all names.now) [] class.now).steps) }
{
    match known.known_line(&class.name, Kind::Instance) {
        None => None,
        Some(line) => {
            if has_own_params(names, class) {
                Some(line.steps.len())
            } else {
                None
            }
        }
    }
}
