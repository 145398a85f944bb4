//! Owned texts and lists, and places in a text.
//!
//! Contracts see a [`Text`] as its bytes, a [`Seq`] as its items and a [`Boxed`] as its value, so every layer above compares
//! them as plain data. Places are lines and UTF-16 units, as LSP 3.17 counts them. Nothing here knows of Ruby or of signatures.
#![tactic(auto)]

mod boxed;
mod memory;
mod place;
mod seq;
mod span;
mod text;

pub use boxed::Boxed;
pub use memory::{Mem, NoMemory};
pub use place::{LineIndex, line_index};
pub use seq::Seq;
pub use span::Span;
pub use text::Text;

#[cfg(test)]
mod tests;
