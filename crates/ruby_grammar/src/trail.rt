//! What is known of a reading while it goes on.

ghost use Rattle.std.specs.Prelude.{◌≡◌, max, None};
ghost use Rattle.std.specs.Prelude.{List, Result, ℕ};
ghost use Rattle.ruby_grammar.specs.declared.step.Step.{Step};
ghost use Rattle.ruby_grammar.specs.declared.tree.Tree.{Tree};
ghost use Rattle.ruby_grammar.specs.Steps.{no_room, room_of_both, later_mark, counted_result};
ghost use Rattle.ruby_grammar.specs.Memos.{Goes, begun_at};

use crate::outcome::Outcome;
use crate::room::{Budget, Room};
use crate::row::Row;
use crate::step::{larger, later_mark, one_more, room_of_both};

/// How far a reading has come.
#[derive(Clone, Copy, Debug, PartialEq, Eq)]
pub struct Trail {
    /// The farthest place at which something that was tried failed; 0 where nothing did.
    pub far: usize,
    /// The room that the reading took.
    pub need: Room,
    /// The name of the label that ended last.
    pub mark: Option<u8>,
    /// The trees so far.
    pub row: Row,
}

impl Trail {
    /// A reading that begins behind these trees.
    pub fn from(row: Row) -> Trail
        ensures { result ≡ begun_at row }
    {
        Trail {
            far: 0,
            need: Room { rules: 0, words: 0 },
            mark: None,
            row,
        }
    }

    /// Something that was tried failed at a place.
    pub fn fails(&mut self, place: usize)
        ensures { self.new ≡ record { far = max self.old.far place; need = self.old.need; mark = self.old.mark; row = self.old.row } }
    {
        self.far = larger(self.far, place);
    }

    /// Goes back to where an earlier trail was; what was tried since then was tried.
    pub fn back_to(&mut self, mark: Option<u8>, row: Row)
        ensures { self.new ≡ record { far = self.old.far; need = self.old.need; mark = mark; row = row } }
    {
        self.mark = mark;
        self.row = row;
    }

    /// What was read before this trail was begun comes before it.
    pub fn join(&mut self, before: Trail)
        ensures { self.new ≡ record { far = max before.far self.old.far; need = room_of_both before.need self.old.need; mark = later_mark before.mark self.old.mark; row = self.old.row } }
    {
        self.far = larger(before.far, self.far);
        self.need = room_of_both(before.need, self.need);
        self.mark = later_mark(before.mark, self.mark);
    }

    /// Counts what was read as open in a budget; before it was begun this room was needed.
    pub fn counted(&mut self, budget: Budget, before: Room, outcome: Outcome) -> Outcome
        ensures row { self.new.row ≡ self.old.row }
        ensures goes { (r : Result Step ℕ) (ts : List Tree) (lists more : List (List Tree)) (begun : Trail) → Goes r ts lists (record { far = begun.far; need = no_room; mark = begun.mark; row = begun.row }) outcome more self.old → begun.need ≡ before → Goes (counted_result budget r) ts lists begun result more self.new }
    {
        match one_more(budget, self.need) {
            Some(need) => {
                self.need = room_of_both(before, need);
                outcome
            }
            None => Outcome::NoMemory,
        }
    }
}
