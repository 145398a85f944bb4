//! Method types with types in place of the type parameters around them. No variable of a method type is taken for another.
#![tactic(auto)]

mod free_names;
mod instances;
mod memory;
mod overloads;
mod parameters;
mod renaming;
mod variables;

pub use instances::{in_place, instance};
pub use overloads::new_overload;
