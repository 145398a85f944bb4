//! What the names of signatures stand for.
//!
//! A name is looked up in the enclosing declarations from the innermost outwards, and last at the top. What is asked on the way can be
//! noted, absent names among it, so that one knows on which names an answer hangs.
#![tactic(auto)]

mod noting;
mod resolution;

pub use noting::resolve_noted;
pub use resolution::resolve;
