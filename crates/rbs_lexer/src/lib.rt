//! The tokens of RBS signatures.
//!
//! [`tokens`] cuts a text into the longest tokens, by the lexical rules of RBS's `docs/syntax.md` in this project's profile. It
//! promises that its tokens are the only ones of the text, and that it names the first place where none begins. Nothing here
//! knows the grammar above the tokens: whether a name of a method may stand at a place is told by the tokens before it.
#![tactic(auto)]

mod front;
mod gaps;
mod kind;
mod laws;
mod lexer;
mod numbers;
mod place;
mod quotes;
mod reading;
mod signs;
mod token;
mod walk;
mod words;

pub use front::{is_symbol_name, is_word};
pub use kind::Kind;
pub use laws::one_lexing;
pub use lexer::{lex, tokens};
pub use token::{BadToken, Lexed, Token};

#[cfg(test)]
mod tests;
