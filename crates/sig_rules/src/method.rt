use crate::{Kind, Shared};
use rbs_tree::{MethodType, Ty, TypeName};
use src_text::{Seq, Text};

/// Who may call a method.
#[derive(Clone, Copy, Debug, PartialEq, Eq)]
pub enum Visibility {
    Public,
    Private,
}

/// A method as a line of ancestors gives it.
#[derive(Debug, Drop)]
pub struct Method {
    pub overloads: Seq<MethodType>,
    pub visible: Visibility,
    /// The class, the module or the interface that declares it.
    pub owner: TypeName,
    /// The side on which its owner declares it.
    pub kind: Kind,
}

/// The methods and the variables of one side of a class or a module, or the methods of an interface, by name.
#[derive(Debug, Drop)]
pub struct Definition {
    pub methods: Seq<Shared<(Text, Method)>>,
    pub variables: Seq<Shared<(Text, Ty)>>,
}

/// Both sides of a class or a module.
#[derive(Debug, Drop)]
pub struct Both {
    pub instance: Definition,
    pub singleton: Definition,
}
