//! Tests of the table of all that signatures define: lines of ancestors, the methods and variables along them, aliases and values.
//!
//! The rows of answers were worked out by the rules and not by this code. They stand beside the crates that they are about since a crate
//! with tests is proved twice.
#![tactic(auto)]

#[cfg(test)]
mod file;
#[cfg(test)]
mod line_tests;
#[cfg(test)]
mod shown;
#[cfg(test)]
mod side_tests;
#[cfg(test)]
mod table;
#[cfg(test)]
mod tests;
#[cfg(test)]
mod texts;
