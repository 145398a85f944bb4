//! How a reading ends.

/// The place behind what derives, or why nothing does.
#[derive(Clone, Copy, Debug, PartialEq, Eq)]
pub enum Outcome {
    /// The place behind what derives.
    Passed(usize),
    /// Nothing derives.
    Failed,
    /// The place at which one rule or one link too many begins.
    TooDeep(usize),
    NoMemory,
}
