//! What a step of a line of ancestors gives: the methods from it on, by what its declarations give and what is found behind it.
#![tactic(auto)]

mod circles;
mod groups;
mod growing;
mod leads;
mod living;
mod making;
mod name_table;
mod rounds;
mod site;
mod slots;
mod step_methods;

pub use making::Making;
pub use name_table::NameTable;
pub use site::copy_method;
pub use step_methods::methods_from;
