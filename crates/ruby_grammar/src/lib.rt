//! Ordered grammars as values, and an engine that reads lists of tokens by them.
//!
//! A grammar is a list of rules; a rule calls rules of lower numbers, and opens any rule while there is room in a budget. What a
//! grammar derives is defined in `specs/Meaning.antt`, once for all grammars. Nothing here knows of Ruby: a token is a number and
//! whether a blank stands before it, a part's name is a number.
#![tactic(auto)]

mod engine;
mod firsts;
mod forest;
mod guarded;
pub mod make;
mod memo;
mod outcome;
mod part;
mod room;
mod row;
mod set;
mod step;
mod store;
mod token;
mod trail;
mod tree;
mod whole;

pub use forest::Forest;
pub use memo::{Entry, Kept, Memo};
pub use outcome::Outcome;
pub use part::{Grammar, Part, Rule};
pub use room::{Budget, Room};
pub use row::{Cell, Row};
pub use set::{Blank, TokenSet};
pub use step::Step;
pub use store::Store;
pub use token::Token;
pub use trail::Trail;
pub use tree::{Fault, Tree};
pub use whole::parse;

#[cfg(test)]
mod tests;
