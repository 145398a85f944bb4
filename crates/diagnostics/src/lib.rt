//! What is found in signatures and in Ruby code, in what order it is told, and the lines that a report prints of it.
//!
//! A [`Diagnostic`] has its place, its [`Code`], its message and its severity. This layer puts a list of them in order, each
//! once, and makes the text of each line and of the summary. It doesn't know how they are found, nor where lines are written.
#![tactic(auto)]

mod code;
mod diagnostic;
mod lines;
mod ordering;

pub use code::Code;
pub use diagnostic::Diagnostic;
pub use lines::{line_text, summary_text};
pub use ordering::order;

#[cfg(test)]
mod tests;
