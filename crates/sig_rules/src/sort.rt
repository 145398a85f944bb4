/// What a full name is the name of, by the first of its declarations that count.
#[derive(Clone, Copy, Debug, PartialEq, Eq)]
pub enum Sort {
    Class,
    Module,
    Interface,
    Alias,
    /// A constant, a global, or nothing.
    Other,
}
