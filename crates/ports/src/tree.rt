ghost use Rattle.std.specs.Prelude.{◌≡◌, List, ℕ, Option, IfOk, IfSome, IsTrue};
ghost use Rattle.ports.specs.Tree.{content_at, is_file_map, IsListing, HasTreeCause};

use src_text::{Seq, Text};
use std::alloc::Global;

/// Why a tree gave no answer.
#[derive(Clone, Copy, Debug, PartialEq, Eq)]
pub enum TreeFault {
    /// The outside failed.
    Failed,
    /// No memory could be had.
    NoMemory,
}

/// A direct child of a folder.
#[derive(Debug, Drop, PartialEq, Eq, PartialOrd, Ord)]
pub struct Entry {
    pub name: Text,
    pub folder: bool,
}

/// What stands in a folder.
#[derive(Debug, Drop, PartialEq, Eq)]
pub enum Listing {
    /// No file lies below it.
    Absent,
    /// Its direct children, names strictly rising by bytes.
    Found(Seq<Entry>),
}

/// What stands at a path.
#[derive(Debug, Drop, PartialEq, Eq)]
pub enum Content {
    /// No file.
    Absent,
    /// A file of these bytes.
    Found(Seq<u8>),
}

/// A tree of files, which no call changes.
pub trait Tree {
    /// Each path with its bytes, where the tree tells them. Paths rise by bytes, and none is a folder of another.
    ghost files: { Self → Option (List (List ℕ × List ℕ)) };

    /// How often a call has failed. It stands still at 2^64 - 1.
    ghost faults: { Self → ℕ };

    /// The direct children of a folder.
    fn list(&mut self, alloc: Global, folder: &str) -> Result<Listing, TreeFault>
        ensures same { files self.new ≡ files self.old }
        ensures listing { IfSome (files self.old) (λ files. IfOk result (λ listing. IsListing files folder.now listing)) }
        ensures cause { HasTreeCause (faults self.old) (faults self.new) result };

    /// The bytes of the file at a path.
    fn read(&mut self, alloc: Global, path: &str) -> Result<Content, TreeFault>
        ensures same { files self.new ≡ files self.old }
        ensures content { IfSome (files self.old) (λ files. IfOk result (λ content. content ≡ content_at files path.now)) }
        ensures cause { HasTreeCause (faults self.old) (faults self.new) result };

    ghost is_map: { (tree : Self) → IfSome (files tree) (λ files. IsTrue (is_file_map files)) };
}
