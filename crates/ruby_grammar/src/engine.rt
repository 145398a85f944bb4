//! Reading by a grammar.

ghost use Rattle.std.specs.Prelude.{◌≡◌, ◌+◌, ◌<◌, ◌↔◌, ◌∷◌, [], ℕ, List, length, slice_get, Some, Result, Ok, IsTrue, if◌then◌else◌};
ghost use Rattle.std.specs.Option.{option_copied};
ghost use Rattle.ruby_grammar.specs.Steps as spec;
ghost use Rattle.ruby_grammar.specs.Tokens.{may_stand};
ghost use Rattle.ruby_grammar.specs.declared.room.Budget.{Budget};
ghost use Rattle.ruby_grammar.specs.declared.room.Budget.TheVariants as budget;
ghost use Rattle.ruby_grammar.specs.declared.step.Step.{Step};
ghost use Rattle.ruby_grammar.specs.declared.trail.Trail.{Trail};
ghost use Rattle.ruby_grammar.specs.declared.tree.Tree.{Tree};
ghost use Rattle.ruby_grammar.specs.declared.tree.Tree.TheVariants as tree;
ghost use Rattle.ruby_grammar.specs.Meaning.{Meaning, links, called, means, opens, within, part_in, next_of, place_or, row_trees, chained_trees, trees_of_either, with_trees};
ghost use Rattle.ruby_grammar.specs.Rows.{Extends, IsRow};
ghost use Rattle.ruby_grammar.specs.Memos.{Sound, Goes, Nests, Fits, work};

use crate::outcome::Outcome;
use crate::part::{Part, Rule};
use crate::room::{Budget, Room};
use crate::set::{TokenSet, in_table, may_stand, stands_in};
use crate::store::Store;
use crate::token::Token;
use crate::trail::Trail;
use src_text::Seq;

/// How many links a chain has at most.
#[tactic(auto, unfolding(crate::specs::Meaning::links))]
fn links_limit() -> usize
    ensures { result ≡ links }
{
    128
}

// The rule of a number.
pub fn rule_at(rules: &[Rule], number: usize) -> Option<&Rule>
    ensures { option_copied result ≡ slice_get rules.now number }
{
    rules.get(number)
}

// No token.
#[tactic(auto, using(crate::proofs::Reading::goes_passed))]
fn no_token(place: usize) -> Outcome
    ensures { (lists : List (List Tree)) (begun : Trail) → Goes (Ok (spec.passed place)) [] lists begun result lists begun }
{
    Outcome::Passed(place)
}

// Whether a table lets the token stand that stands at a place.
fn stands(tokens: &[Token], table: &Seq<bool>, place: usize) -> bool
    ensures { result ≡ may_stand table.now (slice_get tokens.now place) }
{
    place < tokens.len() && may_stand(table, tokens[place])
}

/// Whether a part has a guard that doesn't let the token stand that stands at a place: it fails there.
fn is_barred(tokens: &[Token], part: &Part, place: usize) -> bool
    ensures { IsTrue result → (opens : Budget → ℕ → Meaning) (calls : ℕ → Meaning) → (means tokens.now opens calls part.now).step place ≡ Ok (spec.failed place) }
{
    match part {
        Part::Guarded(table, _) => !stands(tokens, table, place),
        _ => false,
    }
}

// Whether a mark is in a table.
fn mark_in(labels: &Seq<bool>, mark: Option<u8>) -> bool
    ensures { result ≡ spec.mark_in labels.now mark }
{
    match mark {
        None => false,
        Some(name) => in_table(labels, name),
    }
}

// Whether a room is enough for a need.
fn fits(need: Room, room: Room) -> bool
    ensures { IsTrue result ↔ Fits need room }
{
    need.rules <= room.rules && need.words <= room.words
}

/// Reads by the part of a rule.
#[derive(Clone, Copy)]
pub struct Reader<'a, F> {
    pub rules: &'a [Rule],
    pub tokens: &'a [Token],
    /// What may still be opened.
    pub room: Room,
    /// The rule's number: it calls the rules below it.
    pub number: usize,
    /// Reads what is inside a rule.
    pub read: F,
}

impl<'a, F: Fn(&mut Store, &[Rule], &[Token], Room, usize, usize) -> Outcome> Reader<'a, F> {
    // What is inside a rule, where less is left to read.
    fn within(&self, store: &mut Store, room: Room, rule: usize, place: usize) -> Outcome
        requires nests { Nests (work (length self.now.rules.now) self.now.room self.now.number) self.now.rules.now (F.pre self.now.read) (F.post self.now.read) }
        requires sound { Sound self.now.rules.now self.now.tokens.now store.old.forest store.old.memo store.old.trail.row }
        requires less { work (length self.now.rules.now) room rule < work (length self.now.rules.now) self.now.room self.now.number }
        ensures sound { Sound self.now.rules.now self.now.tokens.now store.new.forest store.new.memo store.new.trail.row }
        ensures extends { Extends store.old.forest store.new.forest }
        ensures goes { Goes ((within self.now.rules.now self.now.tokens.now room.rules room.words rule).step place) ((within self.now.rules.now self.now.tokens.now room.rules room.words rule).trees place) store.old.forest store.old.trail result store.new.forest store.new.trail }
    {
        (self.read)(store, self.rules, self.tokens, room, rule, place)
    }

    // What a rule derives that is called.
    #[tactic(auto, using(crate::proofs::Within::called_above, crate::proofs::Extends::extends_same, crate::proofs::Reading::goes_failed))]
    fn called(&self, store: &mut Store, rule: usize, place: usize) -> Outcome
        requires nests { Nests (work (length self.now.rules.now) self.now.room self.now.number) self.now.rules.now (F.pre self.now.read) (F.post self.now.read) }
        requires sound { Sound self.now.rules.now self.now.tokens.now store.old.forest store.old.memo store.old.trail.row }
        ensures sound { Sound self.now.rules.now self.now.tokens.now store.new.forest store.new.memo store.new.trail.row }
        ensures extends { Extends store.old.forest store.new.forest }
        ensures goes { Goes ((called self.now.rules.now self.now.tokens.now (opens self.now.rules.now self.now.tokens.now self.now.room.rules self.now.room.words) self.now.number rule).step place) ((called self.now.rules.now self.now.tokens.now (opens self.now.rules.now self.now.tokens.now self.now.room.rules self.now.room.words) self.now.number rule).trees place) store.old.forest store.old.trail result store.new.forest store.new.trail }
    {
        if rule < self.number {
            self.within(store, self.room, rule, place)
        } else {
            store.trail.fails(place);
            Outcome::Failed
        }
    }

    // What a rule derives in less room.
    #[tactic(auto, using(crate::proofs::Extends::extends_same))]
    fn entered(&self, store: &mut Store, room: Room, rule: usize, place: usize) -> Outcome
        requires nests { Nests (work (length self.now.rules.now) self.now.room self.now.number) self.now.rules.now (F.pre self.now.read) (F.post self.now.read) }
        requires sound { Sound self.now.rules.now self.now.tokens.now store.old.forest store.old.memo store.old.trail.row }
        requires less { room.rules + room.words < self.now.room.rules + self.now.room.words }
        ensures sound { Sound self.now.rules.now self.now.tokens.now store.new.forest store.new.memo store.new.trail.row }
        ensures extends { Extends store.old.forest store.new.forest }
        ensures goes { Goes ((within self.now.rules.now self.now.tokens.now room.rules room.words rule).step place) ((within self.now.rules.now self.now.tokens.now room.rules room.words rule).trees place) store.old.forest store.old.trail result store.new.forest store.new.trail }
    {
        if rule < self.rules.len() {
            self.within(store, room, rule, place)
        } else {
            store.trail.fails(place);
            Outcome::Failed
        }
    }

    // What a rule derives that is opened in the first budget.
    #[tactic(auto, using(crate::proofs::Extends::extends_same, crate::proofs::Reading::goes_deep))]
    fn opened_rule(&self, store: &mut Store, rule: usize, place: usize) -> Outcome
        requires nests { Nests (work (length self.now.rules.now) self.now.room self.now.number) self.now.rules.now (F.pre self.now.read) (F.post self.now.read) }
        requires sound { Sound self.now.rules.now self.now.tokens.now store.old.forest store.old.memo store.old.trail.row }
        ensures sound { Sound self.now.rules.now self.now.tokens.now store.new.forest store.new.memo store.new.trail.row }
        ensures extends { Extends store.old.forest store.new.forest }
        ensures goes { Goes ((opens self.now.rules.now self.now.tokens.now self.now.room.rules self.now.room.words budget.Rules rule).step place) ((opens self.now.rules.now self.now.tokens.now self.now.room.rules self.now.room.words budget.Rules rule).trees place) store.old.forest store.old.trail result store.new.forest store.new.trail }
    {
        if self.room.rules == 0 {
            return Outcome::TooDeep(place);
        }
        let room = Room {
            rules: self.room.rules - 1,
            words: self.room.words,
        };
        let before = store.trail.need;
        store.trail.need = Room { rules: 0, words: 0 };
        let outcome = self.entered(store, room, rule, place);
        store.trail.counted(Budget::Rules, before, outcome)
    }

    // What a rule derives that is opened in the second budget.
    #[tactic(auto, using(crate::proofs::Extends::extends_same, crate::proofs::Reading::goes_deep))]
    fn opened_word(&self, store: &mut Store, rule: usize, place: usize) -> Outcome
        requires nests { Nests (work (length self.now.rules.now) self.now.room self.now.number) self.now.rules.now (F.pre self.now.read) (F.post self.now.read) }
        requires sound { Sound self.now.rules.now self.now.tokens.now store.old.forest store.old.memo store.old.trail.row }
        ensures sound { Sound self.now.rules.now self.now.tokens.now store.new.forest store.new.memo store.new.trail.row }
        ensures extends { Extends store.old.forest store.new.forest }
        ensures goes { Goes ((opens self.now.rules.now self.now.tokens.now self.now.room.rules self.now.room.words budget.Words rule).step place) ((opens self.now.rules.now self.now.tokens.now self.now.room.rules self.now.room.words budget.Words rule).trees place) store.old.forest store.old.trail result store.new.forest store.new.trail }
    {
        if self.room.words == 0 {
            return Outcome::TooDeep(place);
        }
        let room = Room {
            rules: self.room.rules,
            words: self.room.words - 1,
        };
        let before = store.trail.need;
        store.trail.need = Room { rules: 0, words: 0 };
        let outcome = self.entered(store, room, rule, place);
        store.trail.counted(Budget::Words, before, outcome)
    }

    // Reads by a part.
    #[cycle(scan)]
    #[tactic(auto, using(crate::proofs::Soundness::row_on))]
    fn scan(&self, store: &mut Store, part: &Part, place: usize) -> Outcome
        requires nests { Nests (work (length self.now.rules.now) self.now.room self.now.number) self.now.rules.now (F.pre self.now.read) (F.post self.now.read) }
        requires sound { Sound self.now.rules.now self.now.tokens.now store.old.forest store.old.memo store.old.trail.row }
        ensures sound { Sound self.now.rules.now self.now.tokens.now store.new.forest store.new.memo store.new.trail.row }
        ensures extends { Extends store.old.forest store.new.forest }
        ensures goes { Goes ((part_in self.now.rules.now self.now.tokens.now self.now.room self.now.number part.now).step place) ((part_in self.now.rules.now self.now.tokens.now self.now.room self.now.number part.now).trees place) store.old.forest store.old.trail result store.new.forest store.new.trail }
    {
        match part {
            Part::Empty => no_token(place),
            Part::Token(set) => store.token(self.tokens, set, place),
            Part::Both(first, second) => {
                let outcome = self.scan(store, first.get(), place);
                self.behind(store, outcome, second.get())
            }
            Part::Either(first, second) => {
                let begun = store.trail;
                let outcome = self.tried(store, first.get(), place);
                self.instead(store, begun, outcome, second.get(), place)
            }
            Part::Many(inner) => self.many(store, inner.get(), place),
            Part::Chain(head, link) => self.chain(store, head, link.get(), place),
            Part::Not(inner) => self.negated(store, inner.get(), place),
            Part::Label(name, inner) => self.labelled(store, *name, inner.get(), place),
            Part::Chained(name, inner) => self.chained(store, *name, inner.get(), place),
            Part::Call(rule) => self.called(store, *rule, place),
            Part::Open(budget, rule) => match budget {
                Budget::Rules => self.opened_rule(store, *rule, place),
                Budget::Words => self.opened_word(store, *rule, place),
            },
            Part::Ended(labels, inner) => self.ended(store, labels, inner.get(), place),
            Part::Guarded(table, inner) => self.guarded(store, table, inner.get(), place),
        }
    }

    // A part that is tried: where its guard bars the token that stands here, it isn't looked at.
    #[cycle(scan)]
    fn tried(&self, store: &mut Store, part: &Part, place: usize) -> Outcome
        requires nests { Nests (work (length self.now.rules.now) self.now.room self.now.number) self.now.rules.now (F.pre self.now.read) (F.post self.now.read) }
        requires sound { Sound self.now.rules.now self.now.tokens.now store.old.forest store.old.memo store.old.trail.row }
        ensures sound { Sound self.now.rules.now self.now.tokens.now store.new.forest store.new.memo store.new.trail.row }
        ensures extends { Extends store.old.forest store.new.forest }
        ensures goes { Goes ((part_in self.now.rules.now self.now.tokens.now self.now.room self.now.number part.now).step place) ((part_in self.now.rules.now self.now.tokens.now self.now.room self.now.number part.now).trees place) store.old.forest store.old.trail result store.new.forest store.new.trail }
    {
        if is_barred(self.tokens, part, place) {
            store.trail.fails(place);
            Outcome::Failed
        } else {
            self.scan(store, part, place)
        }
    }

    // A part behind what derives.
    #[cycle(scan)]
    fn behind(&self, store: &mut Store, first: Outcome, part: &Part) -> Outcome
        requires nests { Nests (work (length self.now.rules.now) self.now.room self.now.number) self.now.rules.now (F.pre self.now.read) (F.post self.now.read) }
        requires sound { Sound self.now.rules.now self.now.tokens.now store.old.forest store.old.memo store.old.trail.row }
        ensures sound { Sound self.now.rules.now self.now.tokens.now store.new.forest store.new.memo store.new.trail.row }
        ensures extends { Extends store.old.forest store.new.forest }
        ensures goes { (r : Result Step ℕ) (ts : List Tree) (lists : List (List Tree)) (begun : Trail) → Goes r ts lists begun first store.old.forest store.old.trail → Goes (spec.on_step r (λ s. spec.go_on (part_in self.now.rules.now self.now.tokens.now self.now.room self.now.number part.now).step s s.next)) (with_trees ts (part_in self.now.rules.now self.now.tokens.now self.now.room self.now.number part.now).trees (next_of r)) lists begun result store.new.forest store.new.trail }
    {
        match first {
            Outcome::Passed(mid) => self.scan(store, part, mid),
            Outcome::Failed => Outcome::Failed,
            Outcome::TooDeep(at) => Outcome::TooDeep(at),
            Outcome::NoMemory => Outcome::NoMemory,
        }
    }

    // A part in place of what doesn't derive.
    #[cycle(scan)]
    #[tactic(auto, using(crate::proofs::Soundness::row_sound))]
    fn instead(
        &self,
        store: &mut Store,
        begun: Trail,
        first: Outcome,
        part: &Part,
        place: usize,
    ) -> Outcome
        requires nests { Nests (work (length self.now.rules.now) self.now.room self.now.number) self.now.rules.now (F.pre self.now.read) (F.post self.now.read) }
        requires sound { Sound self.now.rules.now self.now.tokens.now store.old.forest store.old.memo store.old.trail.row }
        requires row { IsRow store.old.forest begun.row }
        ensures sound { Sound self.now.rules.now self.now.tokens.now store.new.forest store.new.memo store.new.trail.row }
        ensures extends { Extends store.old.forest store.new.forest }
        ensures goes { (r : Result Step ℕ) (ts : List Tree) (lists : List (List Tree)) → Extends lists store.old.forest → Goes r ts lists begun first store.old.forest store.old.trail → Goes (spec.on_step r (λ s. spec.or_try (part_in self.now.rules.now self.now.tokens.now self.now.room self.now.number part.now).step place s s.next)) (trees_of_either ts ((part_in self.now.rules.now self.now.tokens.now self.now.room self.now.number part.now).trees place) r) lists begun result store.new.forest store.new.trail }
    {
        match first {
            Outcome::Passed(next) => Outcome::Passed(next),
            Outcome::Failed => {
                store.trail.mark = begun.mark;
                store.trail.row = begun.row;
                self.scan(store, part, place)
            }
            Outcome::TooDeep(at) => Outcome::TooDeep(at),
            Outcome::NoMemory => Outcome::NoMemory,
        }
    }

    // A part, where a table lets the token stand that stands here.
    #[cycle(scan)]
    fn guarded(&self, store: &mut Store, table: &Seq<bool>, part: &Part, place: usize) -> Outcome
        requires nests { Nests (work (length self.now.rules.now) self.now.room self.now.number) self.now.rules.now (F.pre self.now.read) (F.post self.now.read) }
        requires sound { Sound self.now.rules.now self.now.tokens.now store.old.forest store.old.memo store.old.trail.row }
        ensures sound { Sound self.now.rules.now self.now.tokens.now store.new.forest store.new.memo store.new.trail.row }
        ensures extends { Extends store.old.forest store.new.forest }
        ensures goes { Goes (spec.guarded_read self.now.tokens.now table.now (part_in self.now.rules.now self.now.tokens.now self.now.room self.now.number part.now).step place) ((part_in self.now.rules.now self.now.tokens.now self.now.room self.now.number part.now).trees place) store.old.forest store.old.trail result store.new.forest store.new.trail }
    {
        if stands(self.tokens, table, place) {
            self.scan(store, part, place)
        } else {
            store.trail.fails(place);
            Outcome::Failed
        }
    }

    // No token, where a part doesn't derive; what failed in it is forgotten.
    #[cycle(scan)]
    fn negated(&self, store: &mut Store, part: &Part, place: usize) -> Outcome
        requires nests { Nests (work (length self.now.rules.now) self.now.room self.now.number) self.now.rules.now (F.pre self.now.read) (F.post self.now.read) }
        requires sound { Sound self.now.rules.now self.now.tokens.now store.old.forest store.old.memo store.old.trail.row }
        ensures sound { Sound self.now.rules.now self.now.tokens.now store.new.forest store.new.memo store.new.trail.row }
        ensures extends { Extends store.old.forest store.new.forest }
        ensures goes { Goes (spec.not_read (part_in self.now.rules.now self.now.tokens.now self.now.room self.now.number part.now).step place) [] store.old.forest store.old.trail result store.new.forest store.new.trail }
    {
        let begun = store.trail;
        match self.scan(store, part, place) {
            Outcome::Passed(_) => {
                store.trail.far = begun.far;
                store.trail.fails(place);
                Outcome::Failed
            }
            Outcome::Failed => {
                store.trail.far = begun.far;
                store.trail.back_to(begun.mark, begun.row);
                Outcome::Passed(place)
            }
            Outcome::TooDeep(at) => Outcome::TooDeep(at),
            Outcome::NoMemory => Outcome::NoMemory,
        }
    }

    // A node over a part, with its name as the mark.
    #[cycle(scan)]
    fn labelled(&self, store: &mut Store, name: u8, part: &Part, place: usize) -> Outcome
        requires nests { Nests (work (length self.now.rules.now) self.now.room self.now.number) self.now.rules.now (F.pre self.now.read) (F.post self.now.read) }
        requires sound { Sound self.now.rules.now self.now.tokens.now store.old.forest store.old.memo store.old.trail.row }
        ensures sound { Sound self.now.rules.now self.now.tokens.now store.new.forest store.new.memo store.new.trail.row }
        ensures extends { Extends store.old.forest store.new.forest }
        ensures goes { Goes (spec.marked_read name (part_in self.now.rules.now self.now.tokens.now self.now.room self.now.number part.now).step place) (tree.Node name place (place_or place (next_of ((part_in self.now.rules.now self.now.tokens.now self.now.room self.now.number part.now).step place))) ((part_in self.now.rules.now self.now.tokens.now self.now.room self.now.number part.now).trees place) ∷ []) store.old.forest store.old.trail result store.new.forest store.new.trail }
    {
        let base = store.trail.row;
        match self.scan(store, part, place) {
            Outcome::Passed(next) => store.label(base, name, place, next),
            Outcome::Failed => Outcome::Failed,
            Outcome::TooDeep(at) => Outcome::TooDeep(at),
            Outcome::NoMemory => Outcome::NoMemory,
        }
    }

    // A node over a part, but where it is one tree alone that; with its name as the mark.
    #[cycle(scan)]
    fn chained(&self, store: &mut Store, name: u8, part: &Part, place: usize) -> Outcome
        requires nests { Nests (work (length self.now.rules.now) self.now.room self.now.number) self.now.rules.now (F.pre self.now.read) (F.post self.now.read) }
        requires sound { Sound self.now.rules.now self.now.tokens.now store.old.forest store.old.memo store.old.trail.row }
        ensures sound { Sound self.now.rules.now self.now.tokens.now store.new.forest store.new.memo store.new.trail.row }
        ensures extends { Extends store.old.forest store.new.forest }
        ensures goes { Goes (spec.marked_read name (part_in self.now.rules.now self.now.tokens.now self.now.room self.now.number part.now).step place) (chained_trees name place (place_or place (next_of ((part_in self.now.rules.now self.now.tokens.now self.now.room self.now.number part.now).step place))) ((part_in self.now.rules.now self.now.tokens.now self.now.room self.now.number part.now).trees place)) store.old.forest store.old.trail result store.new.forest store.new.trail }
    {
        let base = store.trail.row;
        match self.scan(store, part, place) {
            Outcome::Passed(next) => store.chained(base, name, place, next),
            Outcome::Failed => Outcome::Failed,
            Outcome::TooDeep(at) => Outcome::TooDeep(at),
            Outcome::NoMemory => Outcome::NoMemory,
        }
    }

    // A part, where its mark is in a table.
    #[cycle(scan)]
    fn ended(&self, store: &mut Store, labels: &Seq<bool>, part: &Part, place: usize) -> Outcome
        requires nests { Nests (work (length self.now.rules.now) self.now.room self.now.number) self.now.rules.now (F.pre self.now.read) (F.post self.now.read) }
        requires sound { Sound self.now.rules.now self.now.tokens.now store.old.forest store.old.memo store.old.trail.row }
        ensures sound { Sound self.now.rules.now self.now.tokens.now store.new.forest store.new.memo store.new.trail.row }
        ensures extends { Extends store.old.forest store.new.forest }
        ensures goes { Goes (spec.ended_read labels.now (part_in self.now.rules.now self.now.tokens.now self.now.room self.now.number part.now).step place) ((part_in self.now.rules.now self.now.tokens.now self.now.room self.now.number part.now).trees place) store.old.forest store.old.trail result store.new.forest store.new.trail }
    {
        store.trail.mark = None;
        match self.scan(store, part, place) {
            Outcome::Passed(next) => {
                if mark_in(labels, store.trail.mark) {
                    Outcome::Passed(next)
                } else {
                    store.trail.fails(place);
                    Outcome::Failed
                }
            }
            Outcome::Failed => Outcome::Failed,
            Outcome::TooDeep(at) => Outcome::TooDeep(at),
            Outcome::NoMemory => Outcome::NoMemory,
        }
    }

    // As many of a part as derive.
    #[cycle(scan)]
    fn many(&self, store: &mut Store, part: &Part, place: usize) -> Outcome
        requires nests { Nests (work (length self.now.rules.now) self.now.room self.now.number) self.now.rules.now (F.pre self.now.read) (F.post self.now.read) }
        requires sound { Sound self.now.rules.now self.now.tokens.now store.old.forest store.old.memo store.old.trail.row }
        ensures sound { Sound self.now.rules.now self.now.tokens.now store.new.forest store.new.memo store.new.trail.row }
        ensures extends { Extends store.old.forest store.new.forest }
        ensures goes { Goes (spec.turns spec.no_more (part_in self.now.rules.now self.now.tokens.now self.now.room self.now.number part.now).step (length self.now.tokens.now + 1) (spec.passed place) place) (row_trees (part_in self.now.rules.now self.now.tokens.now self.now.room self.now.number part.now).step (part_in self.now.rules.now self.now.tokens.now self.now.room self.now.number part.now).trees (length self.now.tokens.now + 1) place) store.old.forest store.old.trail result store.new.forest store.new.trail }
    {
        let mut at = place;
        let mut fuel = self.tokens.len() + 1;
        'turns: while fuel != 0 {
            fuel -= 1;
            if is_barred(self.tokens, part, at) {
                store.trail.fails(at);
                return Outcome::Passed(at);
            }
            let begun = store.trail;
            match self.scan(store, part, at) {
                Outcome::Passed(next) => {
                    if at < next {
                        at = next;
                    } else {
                        store.trail.back_to(begun.mark, begun.row);
                        return Outcome::Passed(at);
                    }
                }
                Outcome::Failed => {
                    store.trail.back_to(begun.mark, begun.row);
                    return Outcome::Passed(at);
                }
                Outcome::TooDeep(at) => return Outcome::TooDeep(at),
                Outcome::NoMemory => return Outcome::NoMemory,
            }
        }
        Outcome::Passed(at)
    }

    // As many links as derive.
    #[cycle(scan)]
    fn chain(&self, store: &mut Store, head: &TokenSet, part: &Part, place: usize) -> Outcome
        requires nests { Nests (work (length self.now.rules.now) self.now.room self.now.number) self.now.rules.now (F.pre self.now.read) (F.post self.now.read) }
        requires sound { Sound self.now.rules.now self.now.tokens.now store.old.forest store.old.memo store.old.trail.row }
        ensures sound { Sound self.now.rules.now self.now.tokens.now store.new.forest store.new.memo store.new.trail.row }
        ensures extends { Extends store.old.forest store.new.forest }
        ensures goes { Goes (spec.turns (spec.full_chain self.now.tokens.now head.now) (part_in self.now.rules.now self.now.tokens.now self.now.room self.now.number part.now).step links (spec.passed place) place) (row_trees (part_in self.now.rules.now self.now.tokens.now self.now.room self.now.number part.now).step (part_in self.now.rules.now self.now.tokens.now self.now.room self.now.number part.now).trees links place) store.old.forest store.old.trail result store.new.forest store.new.trail }
    {
        let mut at = place;
        let mut fuel = links_limit();
        'turns: while fuel != 0 {
            fuel -= 1;
            if is_barred(self.tokens, part, at) {
                store.trail.fails(at);
                return Outcome::Passed(at);
            }
            let begun = store.trail;
            match self.scan(store, part, at) {
                Outcome::Passed(next) => {
                    if at < next {
                        at = next;
                    } else {
                        store.trail.back_to(begun.mark, begun.row);
                        return Outcome::Passed(at);
                    }
                }
                Outcome::Failed => {
                    store.trail.back_to(begun.mark, begun.row);
                    return Outcome::Passed(at);
                }
                Outcome::TooDeep(at) => return Outcome::TooDeep(at),
                Outcome::NoMemory => return Outcome::NoMemory,
            }
        }
        if stands_in(self.tokens, head, at) {
            Outcome::TooDeep(at)
        } else {
            store.trail.fails(at);
            Outcome::Passed(at)
        }
    }

    // What is inside the rule.
    fn scanned(&self, store: &mut Store, rule: &Rule, place: usize) -> Outcome
        requires nests { Nests (work (length self.now.rules.now) self.now.room self.now.number) self.now.rules.now (F.pre self.now.read) (F.post self.now.read) }
        requires sound { Sound self.now.rules.now self.now.tokens.now store.old.forest store.old.memo store.old.trail.row }
        requires is { slice_get self.now.rules.now self.now.number ≡ Some rule.now }
        ensures sound { Sound self.now.rules.now self.now.tokens.now store.new.forest store.new.memo store.new.trail.row }
        ensures extends { Extends store.old.forest store.new.forest }
        ensures goes { Goes ((within self.now.rules.now self.now.tokens.now self.now.room.rules self.now.room.words self.now.number).step place) ((within self.now.rules.now self.now.tokens.now self.now.room.rules self.now.room.words self.now.number).trees place) store.old.forest store.old.trail result store.new.forest store.new.trail }
    {
        self.scan(store, &rule.part, place)
    }

    // What is inside the rule, which is read once at a place.
    fn remembered(&self, store: &mut Store, rule: &Rule, place: usize) -> Outcome
        requires nests { Nests (work (length self.now.rules.now) self.now.room self.now.number) self.now.rules.now (F.pre self.now.read) (F.post self.now.read) }
        requires sound { Sound self.now.rules.now self.now.tokens.now store.old.forest store.old.memo store.old.trail.row }
        requires is { slice_get self.now.rules.now self.now.number ≡ Some rule.now }
        ensures sound { Sound self.now.rules.now self.now.tokens.now store.new.forest store.new.memo store.new.trail.row }
        ensures extends { Extends store.old.forest store.new.forest }
        ensures goes { Goes ((within self.now.rules.now self.now.tokens.now self.now.room.rules self.now.room.words self.now.number).step place) ((within self.now.rules.now self.now.tokens.now self.now.room.rules self.now.room.words self.now.number).trees place) store.old.forest store.old.trail result store.new.forest store.new.trail }
    {
        if is_barred(self.tokens, &rule.part, place) {
            store.trail.fails(place);
            return Outcome::Failed;
        }
        if let Some(kept) = store.memo.find(self.number, place) {
            if fits(kept.step.need, self.room) {
                return store.recall(kept);
            }
        }
        let before = store.trail;
        store.trail.far = 0;
        store.trail.need = Room { rules: 0, words: 0 };
        store.trail.mark = None;
        match self.scanned(store, rule, place) {
            Outcome::Passed(next) => store.keep(self.number, place, before, Some(next)),
            Outcome::Failed => store.keep(self.number, place, before, None),
            Outcome::TooDeep(at) => Outcome::TooDeep(at),
            Outcome::NoMemory => Outcome::NoMemory,
        }
    }
}

/// Reads what is inside a rule, where so many rules may be opened.
pub fn read_rule(
    store: &mut Store,
    rules: &[Rule],
    tokens: &[Token],
    room: Room,
    number: usize,
    place: usize,
) -> Outcome
    requires { Sound rules.now tokens.now store.old.forest store.old.memo store.old.trail.row }
    ensures sound { Sound rules.now tokens.now store.new.forest store.new.memo store.new.trail.row }
    ensures extends { Extends store.old.forest store.new.forest }
    ensures goes { Goes ((within rules.now tokens.now room.rules room.words number).step place) ((within rules.now tokens.now room.rules room.words number).trees place) store.old.forest store.old.trail result store.new.forest store.new.trail }
{
    match rule_at(rules, number) {
        None => {
            store.trail.fails(place);
            Outcome::Failed
        }
        Some(rule) => {
            let reader = Reader {
                rules,
                tokens,
                room,
                number,
                read: read_rule,
            };
            if rule.kept {
                reader.remembered(store, rule, place)
            } else {
                reader.scanned(store, rule, place)
            }
        }
    }
}
