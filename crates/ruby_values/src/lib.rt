//! What the pieces of Ruby programs stand for: names, literals, operators and statements as nodes.
//!
//! A concrete tree stands for a [`value::Value`]: a node, or a part of one. Which node of a concrete tree stands for what isn't known here.
#![tactic(auto)]

pub mod lists;
pub mod literals;
pub mod making;
pub mod names;
pub mod operators;
pub mod places;
pub mod queue;
pub mod statements;
pub mod value;
