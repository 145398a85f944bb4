//! What is found along a line of ancestors: the methods and the variables of both sides of a class or a module, and of an interface.
//!
//! Each method is that of the first step that declares it, and a class itself has the `new` that its `initialize` gives. A definition
//! lists them in the order in which they are first seen along the line, with a `new` that is made at the end, and shares those of the rest
//! of the line where they are known. How lines are made, and what a step gives, isn't known here.
#![tactic(auto)]

mod applied;
mod definition;
mod entries;
mod few;
mod given;
mod making;
mod methods;
mod new_made;
mod new_methods;
mod sides;
mod variables;

pub use definition::{both_definitions, instance_definition};
pub use sides::{Behind, Side, instance_side, singleton_side};
