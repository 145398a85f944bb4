use rbs_tree::{Decl, TypeName};
use src_text::{Seq, Text};

/// The declarations of a signature file.
#[derive(Debug, Drop)]
pub struct FileTree {
    pub path: Text,
    pub decls: Seq<Decl>,
}

/// A declaration with its own members alone: what is nested in it stands by itself.
#[derive(Debug, Drop)]
pub struct Declared {
    /// The path of its file.
    pub path: Text,
    /// The full names of the enclosing declarations, the innermost last.
    pub context: Seq<TypeName>,
    pub decl: Decl,
}
