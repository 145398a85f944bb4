//! What is read from a place on, without its trees.

ghost use Rattle.std.specs.Prelude.{◌≡◌, max, IfSome};
ghost use Rattle.ruby_grammar.specs.Steps as spec;

use crate::room::{Budget, Room};

/// A reading from a place on that isn't too deep.
#[derive(Clone, Copy, Debug, PartialEq, Eq)]
pub struct Step {
    /// The farthest place at which something that was tried failed; 0 where nothing did.
    pub far: usize,
    /// The place behind what derives.
    pub next: Option<usize>,
    /// The name of the label that ended last in what derives.
    pub mark: Option<u8>,
    /// The room that the reading takes.
    pub need: Room,
}

// The larger of two.
pub fn larger(a: usize, b: usize) -> usize
    ensures { result ≡ max a b }
{
    if a < b { b } else { a }
}

// The room for either of two.
pub fn room_of_both(a: Room, b: Room) -> Room
    ensures { result ≡ spec.room_of_both a b }
{
    Room {
        rules: larger(a.rules, b.rules),
        words: larger(a.words, b.words),
    }
}

// The room for one more rule that is open; none where that is no number.
pub fn one_more(budget: Budget, room: Room) -> Option<Room>
    ensures { IfSome result (λ more. more ≡ spec.one_more budget room) }
{
    match budget {
        Budget::Rules => match room.rules.checked_add(1) {
            None => None,
            Some(rules) => Some(Room {
                rules,
                words: room.words,
            }),
        },
        Budget::Words => match room.words.checked_add(1) {
            None => None,
            Some(words) => Some(Room {
                rules: room.rules,
                words,
            }),
        },
    }
}

// The mark that stands later.
pub fn later_mark(first: Option<u8>, then: Option<u8>) -> Option<u8>
    ensures { result ≡ spec.later_mark first then }
{
    match then {
        None => first,
        Some(_) => then,
    }
}
