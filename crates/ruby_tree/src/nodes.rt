use crate::{
    Arm, ConstPath, Dot, Item, ListTarget, MethodName, Param, Part, Rescue, Target, When, WordKind,
};
use src_text::{Boxed, Seq, Span, Text};

/// A program: the `Seq` of its statements, whose span is the whole text.
#[derive(Drop)]
pub struct Program {
    pub root: Node,
}

/// A node of a program.
///
/// The parser numbers the nodes of a program from 0, in the order of the text, so that no two nodes of a program have one
/// number.
#[derive(Drop)]
#[cycle(nodes)]
pub struct Node {
    /// Where it stands, in bytes.
    pub span: Span,
    pub number: u32,
    pub kind: NodeKind,
}

/// What a node is.
#[derive(Drop)]
#[cycle(nodes)]
pub enum NodeKind {
    /// `nil`.
    Nil,
    /// `true`.
    True,
    /// `false`.
    False,
    /// An integer: `42`, `-1` or `0x2a`.
    Int(i128),
    /// A string without `#{ }`, held as what it stands for.
    Str(Text),
    /// A symbol without `#{ }`, held without its `:`.
    Sym(Text),
    /// A string with `#{ }`, a heredoc, or strings beside each other.
    StrParts(Seq<Part>),
    /// A symbol with `#{ }`.
    SymParts(Seq<Part>),
    /// `/a#{b}/i`. The texts keep their `\`.
    Regexp {
        parts: Seq<Part>,
        /// The letters behind the closing `/`.
        flags: Text,
    },
    /// `__FILE__`.
    File,
    /// `%w[a b]` or `%i[a b]`.
    Words {
        kind: WordKind,
        words: Seq<Text>,
    },
    /// `self`.
    SelfRef,
    /// A word without receiver, arguments and block: a local variable, or a call.
    Name(Text),
    /// `@a`, held with its `@`.
    IVar(Text),
    /// `@@a`, held with its `@@`.
    CVar(Text),
    /// `$a`, held with its `$`.
    GVar(Text),
    /// `A::B` or `::A`, or with a value that is no constant before it, as in `a::B`.
    Const {
        /// The value before the `::`. The path isn't absolute then.
        scope: Option<Boxed<Node>>,
        path: ConstPath,
    },
    /// `[a, *b]`. Its labels, pairs and `**` are one `HashOf` in it.
    ArrayOf(Seq<Item>),
    /// `{ a: 1, b => c, **d }`.
    HashOf(Seq<Item>),
    /// `a..b` or `a...b`, where one end may be missing.
    RangeOf {
        first: Option<Boxed<Node>>,
        last: Option<Boxed<Node>>,
        /// Whether it is written with `...`.
        without_last: bool,
    },
    /// `a = b`.
    Asgn {
        target: Target,
        value: Boxed<Node>,
    },
    /// `a, *b = c, d`.
    MultiAsgn {
        targets: Seq<ListTarget>,
        values: Seq<Node>,
        /// From the first value's start to the last one's end.
        values_at: Span,
    },
    /// A call that is no bare word, an index or an operator.
    Call {
        receiver: Option<Boxed<Node>>,
        dot: Dot,
        method: MethodName,
        args: Seq<Item>,
        /// A `Block`.
        block: Option<Boxed<Node>>,
    },
    /// `r.m = e` as a call of `m=`, and `r[i] = e` as a call of `[]=`, whose last argument is the value.
    AsgnCall {
        receiver: Boxed<Node>,
        dot: Dot,
        method: MethodName,
        args: Seq<Item>,
    },
    /// `{ |a| b }` or `do |a| b end`.
    Block {
        params: Seq<Param>,
        body: Boxed<Node>,
    },
    /// `&a` as an argument.
    BlockPass(Boxed<Node>),
    /// `super`.
    Super {
        /// `None` where it has neither arguments nor brackets.
        args: Option<Seq<Item>>,
        /// A `Block`.
        block: Option<Boxed<Node>>,
    },
    /// `yield`.
    Yield {
        args: Seq<Item>,
        /// A `Block`.
        block: Option<Boxed<Node>>,
    },
    /// `a && b` or `a and b`.
    And(Boxed<Node>, Boxed<Node>),
    /// `a || b` or `a or b`.
    Or(Boxed<Node>, Boxed<Node>),
    /// `!a` or `not a`.
    Not(Boxed<Node>),
    /// `defined? a`.
    Defined(Boxed<Node>),
    /// `if`, `unless`, their modifiers and `a ? b : c`.
    If {
        /// One, and one more for each `elsif`.
        arms: Seq<Arm>,
        otherwise: Option<Boxed<Node>>,
    },
    /// `case a when b then c else d end`.
    Case {
        subject: Option<Boxed<Node>>,
        arms: Seq<When>,
        otherwise: Option<Boxed<Node>>,
    },
    /// `while`, `until` and their modifiers.
    While {
        condition: Boxed<Node>,
        /// Whether it is an `until`.
        negated: bool,
        body: Boxed<Node>,
    },
    /// `return a, b`.
    Return(Seq<Node>),
    /// `break a, b`.
    Break(Seq<Node>),
    /// `next a, b`.
    Next(Seq<Node>),
    /// `begin .. end`, a body with `rescue`, `else` or `ensure`, and the modifier `rescue`.
    Begin {
        body: Boxed<Node>,
        rescues: Seq<Rescue>,
        otherwise: Option<Boxed<Node>>,
        ensure: Option<Boxed<Node>>,
    },
    /// Statements: of a program, a body, a branch, `( )` or `#{ }`.
    Seq(Seq<Node>),
    /// `->(a) { b }`.
    Lambda {
        params: Seq<Param>,
        body: Boxed<Node>,
    },
    /// `def m(a) .. end`, `def self.m ..` and `def m = a`.
    Def {
        /// Whether it is written with `self.`.
        singleton: bool,
        method: MethodName,
        params: Seq<Param>,
        body: Boxed<Node>,
    },
    /// `class A < B .. end`.
    ClassBody {
        path: ConstPath,
        path_at: Span,
        superclass: Option<Boxed<Node>>,
        body: Boxed<Node>,
    },
    /// `module A .. end`.
    ModuleBody {
        path: ConstPath,
        path_at: Span,
        body: Boxed<Node>,
    },
    /// `class << self .. end`.
    SingletonBody(Boxed<Node>),
    /// `alias new_name old_name`.
    AliasOf {
        new_name: MethodName,
        old_name: MethodName,
    },
}
