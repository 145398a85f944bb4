use crate::{ConstPath, Local, Node};
use src_text::{Boxed, Seq, Span, Text};

/// Whether a word list holds strings or symbols.
#[derive(Clone, Copy, Debug, PartialEq, Eq)]
pub enum WordKind {
    /// `%w`.
    Strings,
    /// `%i`.
    Symbols,
}

/// How a call is joined to its receiver.
#[derive(Clone, Copy, Debug, PartialEq, Eq)]
pub enum Dot {
    /// `.`, `::`, an operator or an index, or there is no receiver.
    Plain,
    /// `&.`.
    Safe,
}

/// A part of a string, a symbol or a regexp.
#[derive(Drop)]
#[cycle(nodes)]
pub enum Part {
    /// A text, never an empty one, and never beside another text.
    Text(Text),
    /// The `Seq` of a `#{ }`.
    Code(Node),
}

/// An argument, or an element of an array or a hash.
#[derive(Drop)]
#[cycle(nodes)]
pub enum Item {
    /// A value, or a `BlockPass`.
    Value(Node),
    /// `*a`.
    Splat(Node),
    /// `**a`.
    DoubleSplat(Node),
    /// `a: b`. Where nothing stands behind the `:`, the value is what the word means.
    Label {
        key: Text,
        /// The word and its `:`.
        at: Span,
        value: Node,
    },
    /// `a => b`.
    Pair {
        key: Node,
        value: Node,
    },
}

/// What one value is assigned to.
#[derive(Drop)]
#[cycle(nodes)]
pub enum Target {
    /// `a`.
    Local {
        name: Text,
        at: Span,
    },
    /// `@a`, held with its `@`.
    IVar {
        name: Text,
        at: Span,
    },
    /// `@@a`, held with its `@@`.
    CVar {
        name: Text,
        at: Span,
    },
    /// `$a`, held with its `$`.
    GVar {
        name: Text,
        at: Span,
    },
    /// `A::B`, `::A` or `a::B`.
    Const {
        /// The value before the `::`, where it is no constant.
        scope: Option<Boxed<Node>>,
        path: ConstPath,
        at: Span,
    },
}

/// A condition with what is read where it holds.
#[derive(Drop)]
#[cycle(nodes)]
pub struct Arm {
    pub condition: Node,
    /// `None` where this side is missing, as in `unless a then b end`.
    pub body: Option<Node>,
}

/// `when a, *b then c`.
#[derive(Drop)]
#[cycle(nodes)]
pub struct When {
    pub values: Seq<Item>,
    pub body: Node,
}

/// `rescue A, B => e then c`.
#[derive(Drop)]
#[cycle(nodes)]
pub struct Rescue {
    pub classes: Seq<Node>,
    pub variable: Option<Local>,
    pub body: Node,
}

/// A parameter of a method, a block or a lambda.
#[derive(Drop)]
#[cycle(nodes)]
pub enum Param {
    /// `a` before optional ones and the rest.
    Required(Local),
    /// `a = b`.
    Optional { local: Local, default: Node },
    /// `*a`.
    Rest(Option<Local>),
    /// `a` behind an optional one or the rest.
    Trailing(Local),
    /// `a:`.
    Keyword(Local),
    /// `a: b`.
    OptionalKeyword { local: Local, default: Node },
    /// `**a`.
    RestKeywords(Option<Local>),
    /// `&a`.
    Block(Option<Local>),
    /// `(a, b)`.
    Group(Seq<Local>),
}
