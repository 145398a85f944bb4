ghost use Rattle.std.specs.Prelude.{◌≡◌, length, nat_lt};
ghost use Rattle.std.specs.List.{list_any};
ghost use Rattle.sig_rules.specs.Declarations.{same_path};
ghost use Rattle.sig_rules.specs.Lines.{is_on, same_kind, turns};
ghost use Rattle.ancestors.specs.Walks.{is_visit, may_enter, trail_of};

use crate::stack::Stack;
use rbs_tree::TypeName;
use sig_rules::{Kind, Names};

/// A name with its kind that leads to a place on a line.
#[derive(Debug, Drop)]
pub(crate) struct Visited {
    pub(crate) name: TypeName,
    pub(crate) kind: Kind,
}

/// Whether a name of this kind isn't left out behind a trail.
pub(crate) fn may_enter<N: Names>(
    names: &N,
    trail: &Stack<Visited>,
    name: &TypeName,
    kind: Kind,
) -> bool
    ensures { result ≡ may_enter (N.all names.now) (trail_of trail.now) name.now.path kind }
{
    has_turns_left(names, trail) && !is_on(trail, name, kind)
}

// Whether a trail is shorter than lines have turns.
fn has_turns_left<N: Names>(names: &N, trail: &Stack<Visited>) -> bool
    ensures { result ≡ nat_lt (length (trail_of trail.now)) (turns (N.all names.now)) }
{
    is_below_turns(names, trail.len())
}

/// Whether lines have more turns than so many. The declarations are not counted: it asks for one of them.
pub(crate) fn is_below_turns<N: Names>(names: &N, taken: usize) -> bool
    ensures { result ≡ nat_lt taken (turns (N.all names.now)) }
{
    if taken == 0 {
        return true;
    }
    names.decl_at(((taken - 1) / 2) as u64).is_some()
}

/// Whether a name is on a trail in this kind.
pub(crate) fn is_on(trail: &Stack<Visited>, name: &TypeName, kind: Kind) -> bool
    ensures { result ≡ is_on (trail_of trail.now) name.now.path kind }
{
    is_among(trail.bottom_up(), name, kind)
}

fn is_among(visited: &[Visited], name: &TypeName, kind: Kind) -> bool
    ensures { result ≡ list_any (is_visit name.now.path kind) visited.now }
{
    visited.iter().any(|visit| is_visit(visit, name, kind))
}

// Whether this is the name, in this kind.
fn is_visit(visit: &Visited, name: &TypeName, kind: Kind) -> bool
    ensures { result ≡ is_visit name.now.path kind visit.now }
{
    visit.name.path == name.path && same_kind(visit.kind, kind)
}

fn same_kind(a: Kind, b: Kind) -> bool
    ensures { result ≡ same_kind a b }
{
    match (a, b) {
        (Kind::Instance, Kind::Instance) => true,
        (Kind::Singleton, Kind::Singleton) => true,
        _ => false,
    }
}
