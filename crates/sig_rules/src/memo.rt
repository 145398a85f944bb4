use std::alloc::Global;

/// What is known of subtypes in one world, so that no question is answered twice. It holds no facts yet.
#[derive(Debug, Drop)]
pub struct Memo {
    alloc: Global,
}

impl Memo {
    /// A memo without facts. It takes no memory, and keeps what it would take it from.
    pub fn new(alloc: Global) -> Memo {
        Memo { alloc }
    }
}
