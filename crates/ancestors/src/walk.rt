ghost use Rattle.std.specs.Prelude.{◌≡◌, ◌++◌, IfOk, OnOk};
ghost use Rattle.ancestors.specs.Known.{IsEndCount, Knows, uncut};
ghost use Rattle.ancestors.specs.Pieces.{adds};
ghost use Rattle.ancestors.specs.Walks.{Takes, TakesPart, after_part, entered, left, line_of, with_line, with_step};

use crate::knowing::Known;
use crate::known_part::known_steps;
use crate::stack::Stack;
use crate::tasks::{Part, Piece, Task, kind_of, put_pieces};
use crate::trail::{Visited, may_enter};
use rbs_tree::copy_name;
use sig_rules::{Applied, Line, Names, Shared, Step};
use src_text::{Mem, Seq};
use std::alloc::Global;

/// A line on the way to its end.
#[derive(Debug, Drop)]
pub(crate) struct Walk {
    /// What is still to be done.
    tasks: Stack<Task>,
    /// The names that lead to the place.
    trail: Stack<Visited>,
    /// The line so far.
    line: Line,
}

/// The line of these pieces, one behind the other. Of the line of `::Class` it is told how many steps it has, if that is known.
#[tactic(auto, using(crate::proofs::WalkLemmas::begins))]
pub(crate) fn line_of<N: Names, K: Known>(
    alloc: Global,
    names: &N,
    known: &K,
    end: Option<usize>,
    pieces: Seq<Piece>,
) -> Mem<Line>
    requires known { Knows (N.all names.now) (K.lines known.now) }
    requires end { IsEndCount (N.all names.now) end }
    ensures { IfOk result (λ line. line ≡ line_of (N.all names.now) pieces) }
{
    let mut walk = Walk {
        tasks: tasks_of(alloc, pieces)?,
        trail: Stack::new(alloc),
        line: Line {
            steps: Seq::new(alloc),
            cut: false,
        },
    };
    while let Some(task) = walk.tasks.pop() {
        walk.take(alloc, names, known, end, task)?;
    }
    let Walk { line, .. } = walk;
    Ok(line)
}

// The tasks to add these pieces, the first on the top.
fn tasks_of(alloc: Global, pieces: Seq<Piece>) -> Mem<Stack<Task>>
    ensures { IfOk result (λ tasks. tasks ≡ adds pieces) }
{
    let mut tasks = Stack::new(alloc);
    let mut rest = pieces.into_vec();
    while let Some(piece) = rest.pop() {
        tasks.push(Task::Add(piece))?;
    }
    Ok(tasks)
}

// Puts more owners of these steps at the end.
fn put_steps(line: &mut Seq<Shared<Step>>, steps: &[Shared<Step>]) -> Mem<()>
    ensures { OnOk result (line.new ≡ line.old ++ steps.now) }
{
    for step in steps {
        line.push(step.share()?)?;
    }
    Ok(())
}

impl Walk {
    // Does a task that was taken off the top.
    fn take<N: Names, K: Known>(
        &mut self,
        alloc: Global,
        names: &N,
        known: &K,
        end: Option<usize>,
        task: Task,
    ) -> Mem<()>
        requires known { Knows (N.all names.now) (K.lines known.now) }
        requires end { IsEndCount (N.all names.now) end }
        ensures { OnOk result (Takes (N.all names.now) self.old task self.new) }
    {
        match task {
            Task::Leave => {
                self.leave();
                Ok(())
            }
            Task::Add(Piece::One(step)) => self.add_step(alloc, step),
            Task::Add(Piece::Of(part, applied)) => {
                self.take_part(alloc, names, known, end, part, applied)
            }
        }
    }

    // Leaves the last name of the trail.
    fn leave(&mut self)
        ensures { self.new ≡ left self.old }
    {
        self.trail.pop();
    }

    // Puts a step at the end of the line.
    fn add_step(&mut self, alloc: Global, step: Step) -> Mem<()>
        ensures { OnOk result (self.new ≡ with_step self.old step) }
    {
        self.line.steps.push(Shared::new(alloc, step)?)
    }

    // Adds a part of a name whole, if its line is known, or else piece by piece.
    fn take_part<N: Names, K: Known>(
        &mut self,
        alloc: Global,
        names: &N,
        known: &K,
        end: Option<usize>,
        part: Part,
        applied: Applied,
    ) -> Mem<()>
        requires known { Knows (N.all names.now) (K.lines known.now) }
        requires end { IsEndCount (N.all names.now) end }
        ensures { OnOk result (TakesPart (N.all names.now) self.old part applied self.new) }
    {
        match known_steps(names, known, end, &self.trail, part, &applied) {
            Some(steps) => self.add_steps(steps),
            None => self.begin_part(alloc, names, part, applied),
        }
    }

    // Puts more owners of these steps at the end of the line.
    #[tactic(auto, using(crate::proofs::LineLemmas::or_false))]
    fn add_steps(&mut self, steps: &[Shared<Step>]) -> Mem<()>
        ensures { OnOk result (self.new ≡ with_line self.old (uncut steps.now)) }
    {
        put_steps(&mut self.line.steps, steps)
    }

    // Puts the pieces of a part of a name on the top, or leaves the name out.
    fn begin_part<N: Names>(
        &mut self,
        alloc: Global,
        names: &N,
        part: Part,
        applied: Applied,
    ) -> Mem<()>
        ensures { OnOk result (self.new ≡ after_part (N.all names.now) self.old part applied) }
    {
        let kind = kind_of(part);
        if may_enter(names, &self.trail, &applied.name, kind) {
            self.enter(alloc, names, part, applied)
        } else {
            self.line.cut = true;
            Ok(())
        }
    }

    // Puts the pieces of a part of a name on the top.
    fn enter<N: Names>(&mut self, alloc: Global, names: &N, part: Part, applied: Applied) -> Mem<()>
        ensures { OnOk result (self.new ≡ entered (N.all names.now) self.old part applied) }
    {
        self.trail.push(Visited {
            name: copy_name(alloc, &applied.name)?,
            kind: kind_of(part),
        })?;
        self.tasks.push(Task::Leave)?;
        put_pieces(alloc, names, part, applied, &mut self.tasks)
    }
}
