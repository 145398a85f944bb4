//! The tokens of Ruby programs.
//!
//! [`tokens`] cuts a text into its tokens, or answers the first place where none stands or one that is refused. It knows what is
//! asked of the tokens before a place, and nothing of the grammar above the tokens.
#![tactic(auto)]

mod blanks;
mod characters;
mod code;
mod heredocs;
mod kind;
mod kinds;
mod laws;
mod lexer;
mod lines;
mod machine;
mod numbers;
mod placing;
mod refusal;
mod sign_steps;
mod signs;
mod stack;
mod state;
mod strings;
mod symbols;
mod texts;
mod token;
mod words;

pub use kind::{Keyword, RubyKind, Sign};
pub use laws::{ends_once, steps_suffice};
pub use lexer::tokens;
pub use refusal::{Form, RubyAt};
pub use token::{RubyToken, RubyValue, WordsOf};
