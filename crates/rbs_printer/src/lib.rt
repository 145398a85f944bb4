//! The printing of types and method types, in the notation of RBS's `docs/syntax.md`.
//!
//! [`type_text`] and [`method_text`] give the text of a tree, with parentheses exactly where the text would else be read as another
//! tree or as none. What a text is read as is told by `rbs_lexer` and `rbs_grammar`; nothing is read here.
#![tactic(auto)]

mod fronts;
mod functions;
mod level;
mod types;
mod words;

pub use types::{method_text, type_text};
