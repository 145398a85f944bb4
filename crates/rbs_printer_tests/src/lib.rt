//! Tests of the printing of types: what the type of a text is printed as, and that the printed text is that of the same type.
//!
//! They stand beside `rbs_printer` since a crate with tests is proved twice.
#![tactic(auto)]

#[cfg(test)]
mod printed;
#[cfg(test)]
mod tests;
