//! Tests of the trees of signatures: that memory suffices to copy declarations and types of each kind, and to put types into them.
//!
//! What a copy is, and what is put where, is proved; the trees are those of texts.
#![tactic(auto)]

#[cfg(test)]
mod tests;
