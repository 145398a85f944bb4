//! The shapes of interfaces: their methods, each as it is found along the interface's line.
//!
//! A shape that is made is counted as one step. How lines are made, and which interfaces a project has, isn't known here.
#![tactic(auto)]

mod shapes;

pub use shapes::shape;
