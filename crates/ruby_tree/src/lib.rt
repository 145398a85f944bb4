//! Trees of Ruby programs: nodes with their places and numbers, and the items, targets, parameters and arms in them.
//!
//! A tree says what was written, with the short forms written out: `a += 1` is an assignment of a call, `unless` is an `if`
//! with its sides exchanged, operators are calls. Which texts have a tree, and what a node means, isn't known here.
#![tactic(auto)]

mod names;
mod nodes;
mod parts;

pub use names::{ConstPath, ListTarget, Local, MethodName, Variable};
pub use nodes::{Node, NodeKind, Program};
pub use parts::{Arm, Dot, Item, Param, Part, Rescue, Target, When, WordKind};
