//! The reading of a whole list of tokens.

ghost use Rattle.ruby_grammar.specs.Parsed.{budgets, parsed, Answers};
ghost use Rattle.std.specs.Prelude.{◌≡◌};

use crate::engine::read_rule;
use crate::forest::Forest;
use crate::guarded::guarded_rules;
use crate::memo::Memo;
use crate::outcome::Outcome;
use crate::part::Grammar;
use crate::room::Room;
use crate::row::Row;
use crate::store::Store;
use crate::token::Token;
use crate::trail::Trail;
use crate::tree::{Fault, Tree};
use src_text::{NoMemory, Seq};
use std::alloc::Global;

// How many rules may be open in each budget.
#[tactic(auto, unfolding(crate::specs::Parsed::budgets))]
fn budgets_limit() -> usize
    ensures { result ≡ budgets }
{
    128
}

/// The trees that the grammar's first rule derives from the first token on. Where it derives nothing, the fault is `Syntax` with the
/// farthest place at which something that was tried failed; where a rule or a link too many begins first, `TooDeep` with that place.
#[tactic(auto, using(crate::proofs::Soundness::new_sound, crate::proofs::Guards::within_guarded))]
pub fn parse(alloc: Global, grammar: &Grammar, tokens: &[Token]) -> Result<Seq<Tree>, Fault>
    ensures { Answers (parsed grammar.now tokens.now) result }
{
    let memo = match Memo::new(alloc, tokens.len() + 1) {
        Ok(memo) => memo,
        Err(NoMemory) => return Err(Fault::NoMemory),
    };
    let guarded = match guarded_rules(alloc, grammar.rules.as_slice()) {
        Ok(rules) => rules,
        Err(NoMemory) => return Err(Fault::NoMemory),
    };
    let mut store = Store {
        memo,
        forest: Forest::new(alloc),
        trail: Trail::from(Row { last: 0, height: 0 }),
    };
    let room = Room {
        rules: budgets_limit(),
        words: budgets_limit(),
    };
    let outcome = read_rule(
        &mut store,
        guarded.as_slice(),
        tokens,
        room,
        grammar.start,
        0,
    );
    let Store {
        memo: _,
        forest,
        trail,
    } = store;
    match outcome {
        Outcome::TooDeep(place) => Err(Fault::TooDeep(place)),
        Outcome::NoMemory => Err(Fault::NoMemory),
        Outcome::Failed => Err(Fault::Syntax(trail.far)),
        Outcome::Passed(_) => match forest.made(alloc, trail.row) {
            Ok(trees) => Ok(trees),
            Err(NoMemory) => Err(Fault::NoMemory),
        },
    }
}
