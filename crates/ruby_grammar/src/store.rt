//! What is kept while a list of tokens is read.

ghost use Rattle.std.specs.Prelude.{◌≡◌, ◌∷◌, [], ℕ, List, Result};
ghost use Rattle.ruby_grammar.specs.declared.token.Token.{Token};
ghost use Rattle.ruby_grammar.specs.declared.part.Rule.{Rule};
ghost use Rattle.ruby_grammar.specs.declared.step.Step.{Step};
ghost use Rattle.ruby_grammar.specs.declared.tree.Tree.{Tree};
ghost use Rattle.ruby_grammar.specs.declared.tree.Tree.TheVariants as tree;
ghost use Rattle.ruby_grammar.specs.declared.outcome.Outcome.TheVariants as outcome;
ghost use Rattle.ruby_grammar.specs.Steps as spec;
ghost use Rattle.ruby_grammar.specs.Meaning.{chained_trees, next_of, place_or, within};
ghost use Rattle.ruby_grammar.specs.Rows.{Extends, IsRow};
ghost use Rattle.ruby_grammar.specs.Memos.{Sound, Goes, Recalls, begun_at, outcome_of};

use crate::forest::Forest;
use crate::memo::{Kept, Memo};
use crate::outcome::Outcome;
use crate::room::Room;
use crate::row::Row;
use crate::set::{TokenSet, stands_in};
use crate::step::Step;
use crate::token::Token;
use crate::trail::Trail;
use src_text::NoMemory;

/// What was read before, its trees, and how far the reading has come.
#[derive(Drop)]
pub struct Store {
    pub memo: Memo,
    pub forest: Forest,
    pub trail: Trail,
}

impl Store {
    /// Takes a token of a set.
    pub fn token(&mut self, tokens: &[Token], set: &TokenSet, place: usize) -> Outcome
        ensures sound { (rules : List Rule) (given : List Token) → Sound rules given self.old.forest self.old.memo self.old.trail.row → Sound rules given self.new.forest self.new.memo self.new.trail.row }
        ensures extends { Extends self.old.forest self.new.forest }
        ensures goes { Goes (spec.token_read tokens.now set.now place) (tree.Leaf place ∷ []) self.old.forest self.old.trail result self.new.forest self.new.trail }
    {
        if stands_in(tokens, set, place) {
            match self.forest.leaf(self.trail.row, place) {
                Ok(row) => {
                    self.trail.row = row;
                    Outcome::Passed(place + 1)
                }
                Err(NoMemory) => Outcome::NoMemory,
            }
        } else {
            self.trail.fails(place);
            Outcome::Failed
        }
    }

    /// Makes a node of what derived behind a row, with its name as the mark.
    pub fn label(&mut self, base: Row, name: u8, place: usize, next: usize) -> Outcome
        ensures sound { (rules : List Rule) (given : List Token) (lists : List (List Tree)) (r : Result Step ℕ) (ts : List Tree) (begun : Trail) → IsRow lists base → Extends lists self.old.forest → begun.row ≡ base → Goes r ts lists begun (outcome.Passed next) self.old.forest self.old.trail → Sound rules given self.old.forest self.old.memo self.old.trail.row → Sound rules given self.new.forest self.new.memo self.new.trail.row }
        ensures extends { Extends self.old.forest self.new.forest }
        ensures goes { (lists : List (List Tree)) (r : Result Step ℕ) (ts : List Tree) (begun : Trail) → Extends lists self.old.forest → begun.row ≡ base → Goes r ts lists begun (outcome.Passed next) self.old.forest self.old.trail → Goes (spec.marked_result name r) (tree.Node name place (place_or place (next_of r)) ts ∷ []) lists begun result self.new.forest self.new.trail }
    {
        match self.forest.node(base, self.trail.row, name, place, next) {
            Ok(row) => {
                self.trail.back_to(Some(name), row);
                Outcome::Passed(next)
            }
            Err(NoMemory) => Outcome::NoMemory,
        }
    }

    /// Makes a node of what derived behind a row, but where it is one tree alone that; with its name as the mark.
    pub fn chained(&mut self, base: Row, name: u8, place: usize, next: usize) -> Outcome
        ensures sound { (rules : List Rule) (given : List Token) (lists : List (List Tree)) (r : Result Step ℕ) (ts : List Tree) (begun : Trail) → IsRow lists base → Extends lists self.old.forest → begun.row ≡ base → Goes r ts lists begun (outcome.Passed next) self.old.forest self.old.trail → Sound rules given self.old.forest self.old.memo self.old.trail.row → Sound rules given self.new.forest self.new.memo self.new.trail.row }
        ensures extends { Extends self.old.forest self.new.forest }
        ensures goes { (lists : List (List Tree)) (r : Result Step ℕ) (ts : List Tree) (begun : Trail) → Extends lists self.old.forest → begun.row ≡ base → Goes r ts lists begun (outcome.Passed next) self.old.forest self.old.trail → Goes (spec.marked_result name r) (chained_trees name place (place_or place (next_of r)) ts) lists begun result self.new.forest self.new.trail }
    {
        match self.forest.chained(base, self.trail.row, name, place, next) {
            Ok(row) => {
                self.trail.back_to(Some(name), row);
                Outcome::Passed(next)
            }
            Err(NoMemory) => Outcome::NoMemory,
        }
    }

    /// Goes on by what was read before.
    pub fn recall(&mut self, kept: Kept) -> Outcome
        ensures sound { (rules : List Rule) (given : List Token) (r : Result Step ℕ) (ts : List Tree) → Recalls r ts self.old.forest kept → Sound rules given self.old.forest self.old.memo self.old.trail.row → Sound rules given self.new.forest self.new.memo self.new.trail.row }
        ensures extends { Extends self.old.forest self.new.forest }
        ensures goes { (r : Result Step ℕ) (ts : List Tree) → Recalls r ts self.old.forest kept → Goes r ts self.old.forest self.old.trail result self.new.forest self.new.trail }
    {
        let before = self.trail;
        let Step {
            far,
            next,
            mark,
            need,
        } = kept.step;
        match next {
            None => {
                self.trail = Trail {
                    far,
                    need,
                    mark,
                    row: before.row,
                };
                self.trail.join(before);
                Outcome::Failed
            }
            Some(next) => match self.forest.moved(kept.base, kept.row, before.row) {
                Ok(row) => {
                    self.trail = Trail {
                        far,
                        need,
                        mark,
                        row,
                    };
                    self.trail.join(before);
                    Outcome::Passed(next)
                }
                Err(NoMemory) => Outcome::NoMemory,
            },
        }
    }

    /// Keeps what a rule read from a place on, and puts it behind what was read before.
    pub fn keep(&mut self, rule: usize, place: usize, before: Trail, next: Option<usize>) -> Outcome
        ensures sound { (rules : List Rule) (given : List Token) (room : Room) (lists : List (List Tree)) → IsRow lists before.row → Extends lists self.old.forest → Goes ((within rules given room.rules room.words rule).step place) ((within rules given room.rules room.words rule).trees place) lists (begun_at before.row) (outcome_of next) self.old.forest self.old.trail → Sound rules given self.old.forest self.old.memo self.old.trail.row → Sound rules given self.new.forest self.new.memo self.new.trail.row }
        ensures extends { Extends self.old.forest self.new.forest }
        ensures goes { (r : Result Step ℕ) (ts : List Tree) (lists : List (List Tree)) → Goes r ts lists (begun_at before.row) (outcome_of next) self.old.forest self.old.trail → Goes r ts lists before result self.new.forest self.new.trail }
    {
        let Trail {
            far,
            need,
            mark,
            row,
        } = self.trail;
        let kept = Kept {
            step: Step {
                far,
                next,
                mark,
                need,
            },
            base: before.row,
            row,
        };
        match self.memo.store(rule, place, kept) {
            Err(NoMemory) => Outcome::NoMemory,
            Ok(()) => {
                self.trail.join(before);
                match next {
                    None => Outcome::Failed,
                    Some(next) => Outcome::Passed(next),
                }
            }
        }
    }
}
