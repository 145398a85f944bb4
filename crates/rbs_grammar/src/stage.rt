/// Where a list stands whose next item hangs on the items before it.
#[derive(Clone, Copy, Debug, PartialEq, Eq)]
pub enum Stage {
    /// Behind an item that any other may follow.
    Open,
    /// Behind an optional positional parameter.
    Optional,
    /// Behind a parameter with `*`, or a positional one behind that or an optional one.
    Trailing,
    /// Behind a keyword parameter.
    Keyword,
    /// Where the list has to end.
    Done,
}
