//! Numbers of the nodes of a Ruby program's tree, in the order of the text.
#![tactic(auto)]

pub mod laws;
mod numbers;

pub use numbers::numbered;
