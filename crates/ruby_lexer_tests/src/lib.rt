//! Tests of the lexer of Ruby: the tokens of a text, and where a text is refused.
//!
//! They stand beside `ruby_lexer` since a crate with tests is proved twice.
#![tactic(auto)]

#[cfg(test)]
mod shown;
#[cfg(test)]
mod tests;
