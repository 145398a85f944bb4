//! The lines of ancestors, along which methods are looked for.
//!
//! A line is walked with a stack of what is still to be added, and no function calls itself: the longest chain of names takes no more of
//! the machine's stack than the shortest. What the names of a line declare isn't known here.
#![tactic(auto)]

mod applied;
mod behind;
mod knowing;
mod known_part;
mod lists;
mod references;
mod stack;
mod superclass;
mod tasks;
mod trail;
mod walk;

pub use knowing::Known;
pub use lists::{instance_list, instance_list_knowing, singleton_list, singleton_list_knowing};
pub use superclass::superclass_name;
