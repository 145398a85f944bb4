//! Rows of trees by their numbers.

/// A row of trees, by the number of the cell that ends it, and how many they are. Rows that begin alike share their beginning.
#[derive(Clone, Copy, Debug, PartialEq, Eq)]
pub struct Row {
    /// The last cell's number; 0 where there is no tree.
    pub last: usize,
    /// How many trees they are.
    pub height: usize,
}

/// A tree at the end of a row, and the number of the row before it.
#[derive(Clone, Copy, Debug, PartialEq, Eq)]
pub enum Cell {
    /// A token, by its place.
    Leaf {
        before: u32,
        place: u32,
    },
    /// A part by its name, its first token's place, and the place behind it; its trees are so many at the end of a row.
    Node {
        before: u32,
        name: u8,
        first: u32,
        behind: u32,
        last: u32,
        count: u32,
    },
}
