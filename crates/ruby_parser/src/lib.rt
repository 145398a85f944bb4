//! The reading of Ruby programs.
//!
//! [`parse`] reads a text: its tokens, its concrete tree by Ruby's grammar, and the tree of the language. It promises that a refusal is
//! the first fault of the three, or the refused node that begins first. What a program means isn't known here.
#![tactic(auto)]

pub mod laws;
mod parser;
mod refused;

pub use parser::parse;
