//! Trees as they are derived.

use src_text::Seq;

/// A concrete tree.
#[derive(Debug, Drop)]
pub enum Tree {
    /// A token, by its place.
    Leaf(usize),
    /// A part by its name, its first token's place, the place behind it, and its trees.
    Node(u8, usize, usize, Seq<Tree>),
}

/// Why a list of tokens has no trees.
#[derive(Clone, Copy, Debug, PartialEq, Eq)]
pub enum Fault {
    /// The farthest place at which something that was tried failed.
    Syntax(usize),
    /// The place at which one rule or one link too many begins.
    TooDeep(usize),
    NoMemory,
}
