//! The grammar of RBS signatures, as a value, and what is known of every such grammar.
//!
//! `specs/` has the grammar rule by rule, as RBS's `docs/syntax.md` has it in this project's profile, and what it means that tokens
//! spell a tree. Nothing here reads tokens.
#![tactic(auto)]

mod laws;
mod parts;
mod stage;

pub use laws::{
    a_spelled_list_is_not_refused, every_list_is_spelled_or_refused, one_answer, one_tree,
};
pub use parts::{Overloads, Parameters, Words};
pub use stage::Stage;
