//! The top: a check of a project, from the words of the command line to the bytes of the report.
//!
//! It reads the project through a `Tree`, has its texts read by the layers below, and writes through a `Sink`. Its clauses speak of
//! the tree's files alone: what is written is the report of exactly the files that were read. It knows no real folder and no stream.
#![tactic(auto)]

mod check;
mod distinct;
mod faults;
mod outcome;
mod plan;
mod project;
mod report;
mod ruby;
mod signature;
mod small;
mod writing;

pub use check::{has_one_list_of_faults, run, run_check};
pub use outcome::{Outcome, Part};
pub use plan::CheckPlan;
pub use sig_rules::Limit;
