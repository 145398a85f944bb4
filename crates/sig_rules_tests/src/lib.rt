//! Tests of the table of declarations and of what names stand for.
//!
//! They stand beside `sig_rules` and `name_resolver` since a crate with tests is proved twice.
#![tactic(auto)]

#[cfg(test)]
mod shown;
#[cfg(test)]
mod tests;
