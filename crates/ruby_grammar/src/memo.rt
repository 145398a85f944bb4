//! What was read before.

ghost use Rattle.std.specs.Prelude.{◌≡◌, ◌++◌, ◌∷◌, [], IfSome, IfOk, OnOk, OnErr, ℕ};
ghost use Rattle.std.specs.List.{Contains};
ghost use Rattle.ruby_grammar.specs.declared.memo.Entry.{Entry};
ghost use Rattle.ruby_grammar.specs.declared.memo.Kept.{Kept};

use crate::row::Row;
use crate::step::Step;
use src_text::Mem;
use std::alloc::Global;
use std::marker::Model;

/// What is read, and its trees: those of the second row that the first doesn't have.
#[derive(Clone, Copy, Debug, PartialEq, Eq)]
pub struct Kept {
    /// The step; its mark counts only where it derives.
    pub step: Step,
    /// The trees before it, when it was read.
    pub base: Row,
    /// The trees before it, and its own.
    pub row: Row,
}

/// What a rule reads from a place on, in each room that is enough for the step's need.
#[derive(Clone, Copy, Debug, PartialEq, Eq)]
pub struct Entry {
    pub rule: usize,
    pub place: usize,
    pub kept: Kept,
    /// How many entries there were when the entry of the same place before this was the last; 0 where there is none.
    pub before: usize,
}

/// A growing table of entries, by their places.
#[derive(Drop)]
pub struct Memo {
    entries: Vec<Entry>,
    /// At each place, how many entries there were when its last one was the last; 0 where it has none.
    last: Vec<usize>,
}

impl Model for Memo {
    ghost use Rattle.std.specs.Prelude.{List};
    ghost use Rattle.ruby_grammar.specs.declared.memo.Entry.{Entry};

    ghost Value = { List Entry };

    ghost view = { λ m. m.entries.items };
}

impl Memo {
    /// A table for so many places, with nothing in it.
    pub fn new(alloc: Global, places: usize) -> Mem<Memo>
        ensures { IfOk result (λ memo. memo ≡ []) }
    {
        let mut last = Vec::new(alloc);
        for _ in 0..places {
            last.push(0)?;
        }
        Ok(Memo {
            entries: Vec::new(alloc),
            last,
        })
    }

    /// What a rule reads from a place on, where it is kept.
    #[inline(never)]
    pub fn find(&self, rule: usize, place: usize) -> Option<Kept>
        ensures { IfSome result (λ kept. (before : ℕ) × Contains self.now (record { rule = rule; place = place; kept = kept; before = before })) }
    {
        let mut left = match self.last.get(place) {
            Some(last) => *last,
            None => 0,
        };
        'entries: while left != 0 {
            let at = left - 1;
            match self.entries.get(at) {
                Some(entry) => {
                    if entry.rule == rule && entry.place == place {
                        return Some(entry.kept);
                    }
                    left = if entry.before < left { entry.before } else { 0 };
                }
                None => return None,
            }
        }
        None
    }

    /// Keeps what a rule reads from a place on.
    #[inline(never)]
    pub fn store(&mut self, rule: usize, place: usize, kept: Kept) -> Mem<()>
        ensures ok { OnOk result ((before : ℕ) × (self.new ≡ self.old ++ record { rule = rule; place = place; kept = kept; before = before } ∷ [])) }
        ensures err { OnErr result (self.new ≡ self.old) }
    {
        let before = match self.last.get(place) {
            Some(last) => *last,
            None => 0,
        };
        self.entries.push(Entry {
            rule,
            place,
            kept,
            before,
        })?;
        if place < self.last.len() {
            self.last[place] = self.entries.len();
        }
        Ok(())
    }
}
