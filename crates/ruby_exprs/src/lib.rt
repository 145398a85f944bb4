//! The concrete trees of Ruby programs.
//!
//! Ruby's grammar as a value, and the reading of a text's tokens by it. This layer knows which tokens have a tree and where others are
//! refused; it doesn't know what a node of the tree means. It says each rule of the grammar in `specs/`, in files by subject.
#![tactic(auto)]

mod assignments;
mod calls;
mod definitions;
mod derived;
mod draft;
mod forms;
mod grammar;
mod kinds;
mod labels;
mod names;
mod operators;
mod parameters;
mod primaries;
mod statements;
mod texts;

pub use derived::derive;
pub use labels::{Label, label_of};
pub use ruby_grammar::Tree;
