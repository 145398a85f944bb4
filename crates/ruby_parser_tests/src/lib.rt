//! Tests of the reading of Ruby: the tree of a text, and where a text is refused.
//!
//! They stand beside `ruby_parser` since a crate with tests is proved twice.
#![tactic(auto)]

#[cfg(test)]
mod pieces;
#[cfg(test)]
mod shown;
#[cfg(test)]
mod shown_parts;
#[cfg(test)]
mod tests;
