//! What a concrete tree stands for.

use ruby_tree::{
    Arm, ConstPath, Item, ListTarget, Local, MethodName, Node, Param, Part, Rescue, When,
};
use src_text::{Boxed, Seq, Span};

/// What a concrete tree stands for, as what stands around it wants it.
///
/// It is small, since it is moved often: what is large in it stands in a box.
#[derive(Drop)]
pub enum Value {
    /// Nothing that is wanted.
    Nothing,
    /// A token, by its place.
    Leaf(usize),
    /// A node. A link is one that waits for its receiver.
    Node(Boxed<Node>),
    /// A node that may be left out.
    Maybe(Option<Boxed<Node>>),
    /// Values beside each other, or the classes of a `rescue`.
    Nodes(Seq<Node>),
    /// An item that isn't a bare value.
    Item(Boxed<Placed>),
    Items(Seq<Placed>),
    Param(Boxed<Param>),
    Params(Seq<Param>),
    /// The name of a method that is called, defined or an alias.
    Name(MethodName),
    /// The name of a class or a module.
    Path(Boxed<PlacedPath>),
    /// One of several targets.
    Target(Boxed<ListTarget>),
    /// An `elsif`.
    Arm(Boxed<PlacedArm>),
    When(Boxed<When>),
    Rescue(Boxed<Rescue>),
    Otherwise(Boxed<Node>),
    Ensure(Boxed<Node>),
    Modifier(Modifier),
    /// The parts of a string, as they are written.
    Texts(Seq<Part>),
    /// The variable of a `rescue`.
    Local(Local),
    /// The `self.` before a name.
    Singleton,
}

/// An item and where it stands.
#[derive(Drop)]
pub struct Placed {
    pub item: Item,
    pub at: Span,
}

/// A path and where it stands.
#[derive(Drop)]
pub struct PlacedPath {
    pub path: ConstPath,
    pub at: Span,
}

/// An arm and where it begins.
#[derive(Drop)]
pub struct PlacedArm {
    pub arm: Arm,
    pub start: u32,
}

/// A modifier: its word, and what stands behind it.
#[derive(Drop)]
pub struct Modifier {
    pub word: ModifierWord,
    pub other: Boxed<Node>,
}

/// The word of a modifier.
#[derive(Clone, Copy, Debug, PartialEq, Eq)]
pub enum ModifierWord {
    If,
    Unless,
    While,
    Until,
    Rescue,
}
