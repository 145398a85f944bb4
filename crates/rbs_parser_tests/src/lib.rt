//! Tests of the parser of signatures: what stands in the tree of a text, and where a text is refused.
//!
//! They stand beside `rbs_parser` since a crate with tests is proved twice.
#![tactic(auto)]

#[cfg(test)]
mod pieces;
#[cfg(test)]
mod shown;
#[cfg(test)]
mod shown_types;
#[cfg(test)]
mod tests;
