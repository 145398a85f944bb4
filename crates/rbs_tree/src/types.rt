use crate::TypeName;
use src_text::{Boxed, Seq, Text};

/// A type, as RBS's `docs/syntax.md` writes them.
#[derive(Debug, Drop, PartialEq, Eq)]
#[cycle(types)]
pub enum Ty {
    /// A class or a module with its arguments: `Array[Integer]`.
    Instance(TypeName, Seq<Ty>),
    /// An interface with its arguments: `_Each[Integer]`.
    Interface(TypeName, Seq<Ty>),
    /// A type alias with its arguments: `json`.
    Alias(TypeName, Seq<Ty>),
    /// A class or a module itself: `singleton(String)`.
    Singleton(TypeName),
    /// An integer.
    IntLit(i128),
    /// A string, held as what it stands for.
    StrLit(Text),
    /// A symbol, held without its `:`.
    SymLit(Text),
    /// `true`.
    True,
    /// `false`.
    False,
    /// `bool`.
    Bool,
    /// `nil`.
    Nil,
    /// `top`.
    Top,
    /// `bot`.
    Bot,
    /// `void`.
    Void,
    /// `untyped`.
    Untyped,
    /// `self`.
    SelfTy,
    /// `instance`.
    InstanceTy,
    /// `class`.
    ClassTy,
    /// A type variable.
    Var(Text),
    /// `A | B`.
    Union(Seq<Ty>),
    /// `A & B`.
    Inter(Seq<Ty>),
    /// `A?`.
    Optional(Boxed<Ty>),
    /// `[A, B]`.
    TupleOf(Seq<Ty>),
    /// `{ a: A, b: B }`.
    RecordOf(Seq<Field>),
    /// `^(A) -> B`.
    ProcOf(Boxed<MethodType>),
}

/// A key of a record type with the type of its value.
#[derive(Debug, Drop, PartialEq, Eq)]
#[cycle(types)]
pub struct Field {
    pub key: Text,
    pub ty: Ty,
}

/// The type of a method, or of one of its overloads.
#[derive(Debug, Drop, PartialEq, Eq)]
#[cycle(types)]
pub struct MethodType {
    /// The type variables that the method type itself binds.
    pub vars: Seq<Text>,
    /// The required positional parameters before the optional ones.
    pub required: Seq<Param>,
    pub optional: Seq<Param>,
    /// The parameter with `*`.
    pub rest: Option<Param>,
    /// The required positional parameters after the optional ones and the rest.
    pub trailing: Seq<Param>,
    pub keywords: Seq<Keyword>,
    /// The parameter with `**`.
    pub rest_keywords: Option<Param>,
    pub block: Option<Boxed<BlockType>>,
    pub result: Ty,
}

/// A positional parameter.
#[derive(Debug, Drop, PartialEq, Eq)]
#[cycle(types)]
pub struct Param {
    pub ty: Ty,
    pub name: Option<Text>,
}

/// A keyword parameter.
#[derive(Debug, Drop, PartialEq, Eq)]
#[cycle(types)]
pub struct Keyword {
    pub key: Text,
    pub required: bool,
    pub ty: Ty,
}

/// The block of a method type.
#[derive(Debug, Drop, PartialEq, Eq)]
#[cycle(types)]
pub struct BlockType {
    pub required: bool,
    pub fun: MethodType,
}
