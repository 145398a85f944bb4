ghost use Rattle.std.specs.Prelude.{◌≡◌, ◌∷◌, ◌++◌, reverse, OnOk};
ghost use Rattle.sig_rules.specs.Declarations.{full_name};
ghost use Rattle.ancestors.specs.Pieces.{adds, kind_of, parts, pieces, singleton_step_of, step_of};
ghost use Rattle.ancestors.specs.References.{referred};

use crate::applied::referred;
use crate::behind::{behind_instances, behind_singletons};
use crate::references::Role;
use crate::stack::Stack;
use rbs_tree::TypeName;
use sig_rules::{Applied, Kind, Names, Step};
use src_text::{Mem, Seq, Span};
use std::alloc::Global;

/// What is taken from a name into a line.
#[derive(Clone, Copy, Debug, PartialEq, Eq)]
pub(crate) enum Part {
    /// What a module or an interface brings where it is mixed in.
    Brought,
    /// The line of instances.
    Instances,
    /// The line of a class or a module itself.
    Singletons,
}

/// A piece of a line.
#[derive(Debug, Drop)]
pub(crate) enum Piece {
    Of(Part, Applied),
    One(Step),
}

/// What is still to be done for a line.
#[derive(Debug, Drop)]
pub(crate) enum Task {
    /// A piece is added to the line.
    Add(Piece),
    /// The last name of the trail is left.
    Leave,
}

/// On which side a part of a name is.
pub(crate) fn kind_of(part: Part) -> Kind
    ensures { result ≡ kind_of part }
{
    match part {
        Part::Brought => Kind::Instance,
        Part::Instances => Kind::Instance,
        Part::Singletons => Kind::Singleton,
    }
}

/// Puts the pieces of a part of a name on the top.
pub(crate) fn put_pieces<N: Names>(
    alloc: Global,
    names: &N,
    part: Part,
    applied: Applied,
    tasks: &mut Stack<Task>,
) -> Mem<()>
    ensures { OnOk result (tasks.new ≡ adds (pieces (N.all names.now) part applied) ++ tasks.old) }
{
    match part {
        Part::Brought => put_brought(alloc, names, applied, tasks),
        Part::Instances => put_instances(alloc, names, applied, tasks),
        Part::Singletons => put_singletons(alloc, names, applied, tasks),
    }
}

// Puts the pieces of what a name brings on the top.
fn put_brought<N: Names>(
    alloc: Global,
    names: &N,
    applied: Applied,
    tasks: &mut Stack<Task>,
) -> Mem<()>
    ensures { OnOk result (tasks.new ≡ adds (pieces (N.all names.now) Part.Brought applied) ++ tasks.old) }
{
    put_mixed_in(alloc, names, Role::Include, &applied, tasks)?;
    let prepended = referred(alloc, names, Role::Prepend, &applied)?;
    put_step(step_of(applied), tasks)?;
    put_last_first(Part::Brought, prepended, tasks)
}

// Puts the pieces of a line of instances on the top.
fn put_instances<N: Names>(
    alloc: Global,
    names: &N,
    applied: Applied,
    tasks: &mut Stack<Task>,
) -> Mem<()>
    ensures { OnOk result (tasks.new ≡ adds (pieces (N.all names.now) Part.Instances applied) ++ tasks.old) }
{
    let behind = behind_instances(alloc, names, &applied)?;
    put_in_order(Part::Instances, behind, tasks)?;
    put_brought(alloc, names, applied, tasks)
}

// Puts the pieces of a line of a class or a module itself on the top.
fn put_singletons<N: Names>(
    alloc: Global,
    names: &N,
    applied: Applied,
    tasks: &mut Stack<Task>,
) -> Mem<()>
    ensures { OnOk result (tasks.new ≡ adds (pieces (N.all names.now) Part.Singletons applied) ++ tasks.old) }
{
    let behind = behind_singletons(alloc, names, &applied)?;
    put_in_order(Part::Singletons, behind, tasks)?;
    put_mixed_in(alloc, names, Role::Extend, &applied, tasks)?;
    put_step(singleton_step_of(alloc, applied), tasks)
}

// Puts what is mixed in on the top, the last on the very top.
fn put_mixed_in<N: Names>(
    alloc: Global,
    names: &N,
    role: Role,
    applied: &Applied,
    tasks: &mut Stack<Task>,
) -> Mem<()>
    ensures { OnOk result (tasks.new ≡ adds (parts Part.Brought (reverse (referred (N.all names.now) role applied.now))) ++ tasks.old) }
{
    let mixed = referred(alloc, names, role, applied)?;
    put_last_first(Part::Brought, mixed, tasks)
}

// Puts parts of names on the top, the last on the very top.
fn put_last_first(part: Part, names: Seq<Applied>, tasks: &mut Stack<Task>) -> Mem<()>
    ensures { OnOk result (tasks.new ≡ adds (parts part (reverse names)) ++ tasks.old) }
{
    for applied in names.into_vec() {
        tasks.push(Task::Add(Piece::Of(part, applied)))?;
    }
    Ok(())
}

// Puts parts of names on the top, the first on the very top.
fn put_in_order(part: Part, names: Seq<Applied>, tasks: &mut Stack<Task>) -> Mem<()>
    ensures { OnOk result (tasks.new ≡ adds (parts part names) ++ tasks.old) }
{
    let mut rest = names.into_vec();
    while let Some(applied) = rest.pop() {
        tasks.push(Task::Add(Piece::Of(part, applied)))?;
    }
    Ok(())
}

fn put_step(step: Step, tasks: &mut Stack<Task>) -> Mem<()>
    ensures { OnOk result (tasks.new ≡ Task.Add (Piece.One step) ∷ tasks.old) }
{
    tasks.push(Task::Add(Piece::One(step)))
}

// The step of a name on a line of instances.
fn step_of(applied: Applied) -> Step
    ensures { result ≡ step_of applied }
{
    let Applied { name, args } = applied;
    Step {
        name: full_name(name),
        kind: Kind::Instance,
        args,
    }
}

// The step of a class or a module itself.
fn singleton_step_of(alloc: Global, applied: Applied) -> Step
    ensures { result ≡ singleton_step_of applied }
{
    let Applied { name, .. } = applied;
    Step {
        name: full_name(name),
        kind: Kind::Singleton,
        args: Seq::new(alloc),
    }
}

// The full name with the words of a name.
fn full_name(name: TypeName) -> TypeName
    ensures { result ≡ full_name name.path }
{
    TypeName {
        absolute: true,
        path: name.path,
        at: Span { start: 0, end: 0 },
    }
}
