//! The tree of the language that a concrete tree stands for, in which short forms are written out.
//!
//! Which tokens have a concrete tree, and which nodes are refused, isn't known here.
#![tactic(auto)]

mod assignments;
mod bodies;
mod branches;
mod calls;
mod combining;
mod lowering;
mod parts;
mod sorts;

pub use lowering::root_of;
