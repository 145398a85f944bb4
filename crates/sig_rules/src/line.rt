use crate::Shared;
use rbs_tree::{Ty, TypeName};
use src_text::Seq;

/// Whose methods are meant.
#[derive(Clone, Copy, Debug, PartialEq, Eq)]
pub enum Kind {
    /// Those of the instances.
    Instance,
    /// Those of the class or the module itself.
    Singleton,
}

/// A class, a module or an interface with its arguments.
#[derive(Debug, Drop)]
pub struct Applied {
    /// The full name.
    pub name: TypeName,
    pub args: Seq<Ty>,
}

/// A class, a module or an interface on a line.
#[derive(Debug, Drop)]
pub struct Step {
    /// The full name.
    pub name: TypeName,
    pub kind: Kind,
    /// The arguments, as many as there are type parameters; none on the side of the class or the module itself.
    pub args: Seq<Ty>,
}

/// Where methods are looked for, in this order.
#[derive(Debug, Drop)]
pub struct Line {
    pub steps: Seq<Shared<Step>>,
    /// Whether a name was left out since it stood on the path already.
    pub cut: bool,
}
