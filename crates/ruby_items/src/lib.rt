//! What is passed, what is taken and what is written in texts: items, parameters and strings.
//!
//! Which node of a concrete tree stands for what isn't known here.
#![tactic(auto)]

pub mod items;
pub mod parameters;
pub mod texts;
