use crate::Visibility;
use rbs_tree::{MethodType, Ty};
use src_text::{Seq, Text};

/// How a method is declared.
#[derive(Debug, Drop)]
pub enum What {
    /// By all its overloads.
    Whole(Seq<MethodType>),
    /// By further overloads, before those that there are.
    Further(Seq<MethodType>),
    /// As another name of a method.
    AliasOf(Text),
}

/// A method as a declaration gives it by itself.
#[derive(Debug, Drop)]
pub struct GivenMethod {
    pub name: Text,
    pub visible: Visibility,
    pub what: What,
}

/// A variable as a declaration gives it by itself.
#[derive(Debug, Drop)]
pub struct GivenVariable {
    pub name: Text,
    pub ty: Ty,
}
