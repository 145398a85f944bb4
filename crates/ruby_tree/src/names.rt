use src_text::{Seq, Span, Text};

/// A local variable where it is made: a parameter's, or the one behind the `=>` of a `rescue`.
#[derive(Debug, Drop)]
pub struct Local {
    pub name: Text,
    pub at: Span,
}

/// A method's name, and where it stands.
///
/// Where a sign stands for the name, the place is the sign's: the operator, the `+=`, the `[` of an index, the bracket behind `.`.
#[derive(Debug, Drop)]
pub struct MethodName {
    pub name: Text,
    pub at: Span,
}

/// A constant's words: `A`, `A::B` or `::A::B`.
#[derive(Debug, Drop)]
pub struct ConstPath {
    /// Whether `::` stands before the first word.
    pub absolute: bool,
    /// The words between the `::`, at least one.
    pub words: Seq<Text>,
}

/// One of several targets: the `a` and the `*@b` of `a, *@b = c`.
#[derive(Debug, Drop)]
pub struct ListTarget {
    /// Whether `*` stands before it.
    pub splat: bool,
    pub variable: Variable,
    /// Where the variable stands, without the `*`.
    pub at: Span,
}

/// A variable that may be one of several targets.
#[derive(Debug, Drop)]
pub enum Variable {
    /// `a`.
    Local(Text),
    /// `@a`, held with its `@`.
    Instance(Text),
}
