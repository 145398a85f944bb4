//! How many rules may be open.

/// What an opened rule is counted by.
#[derive(Clone, Copy, Debug, PartialEq, Eq)]
pub enum Budget {
    Rules,
    Words,
}

/// So many rules may still be opened in each budget.
#[derive(Clone, Copy, Debug, PartialEq, Eq)]
pub struct Room {
    pub rules: usize,
    pub words: usize,
}
