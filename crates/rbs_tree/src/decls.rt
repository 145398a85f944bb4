use crate::{MethodType, Ty, TypeName};
use src_text::{Seq, Span, Text};

/// A type parameter of a declaration: `unchecked out T`.
#[derive(Debug, Drop)]
pub struct TypeParam {
    pub name: Text,
    /// Where the name stands.
    pub at: Span,
    pub unchecked: bool,
    pub sign: Sign,
    /// The type that each argument has to be below.
    pub bound: Option<Ty>,
}

/// What is declared of a type parameter's variance.
#[derive(Clone, Copy, Debug, PartialEq, Eq)]
pub enum Sign {
    /// Neither `out` nor `in`.
    Unmarked,
    /// `out`.
    Covariant,
    /// `in`.
    Contravariant,
}

/// The name of a class, a module or an interface with its arguments.
#[derive(Debug, Drop)]
pub struct Ref {
    pub name: TypeName,
    pub args: Seq<Ty>,
}

/// One clause of a `use`.
#[derive(Debug, Drop)]
pub struct Clause {
    pub name: TypeName,
    /// Whether `::*` stands behind the name.
    pub all: bool,
    /// The name behind `as`.
    pub renamed: Option<Text>,
}

/// A declaration, as RBS's `docs/syntax.md` writes them.
#[derive(Debug, Drop)]
#[cycle(declarations)]
pub enum Decl {
    /// `class C[T] < S .. end`.
    Class {
        name: TypeName,
        params: Seq<TypeParam>,
        superclass: Option<Ref>,
        members: Seq<Member>,
    },
    /// `module M[T] : S .. end`.
    Module {
        name: TypeName,
        params: Seq<TypeParam>,
        self_types: Seq<Ref>,
        members: Seq<Member>,
    },
    /// `interface _I[T] .. end`.
    Interface {
        name: TypeName,
        params: Seq<TypeParam>,
        members: Seq<Member>,
    },
    /// `type t[T] = A`.
    Alias {
        name: TypeName,
        params: Seq<TypeParam>,
        ty: Ty,
    },
    /// `C: A`.
    Constant {
        name: TypeName,
        ty: Ty,
    },
    /// `$g: A`, the name held with its `$`.
    Global {
        name: Text,
        at: Span,
        ty: Ty,
    },
    /// `use A, B::*, C as D`.
    Use(Seq<Clause>),
    /// `class C = D`.
    ClassAlias {
        name: TypeName,
        target: TypeName,
    },
    /// `module M = N`.
    ModuleAlias {
        name: TypeName,
        target: TypeName,
    },
}

/// A member of a class, a module or an interface. Each span is that of the name beside it.
#[derive(Debug, Drop)]
#[cycle(declarations)]
pub enum Member {
    /// A declaration inside another.
    Nested(Decl),
    /// `def m: () -> A | ...`.
    Def {
        name: Text,
        at: Span,
        side: Side,
        /// Whether `public` or `private` stands directly before it; none where neither does.
        public: Option<bool>,
        overloads: Seq<MethodType>,
        /// Whether `...` ends the list.
        more: bool,
    },
    /// `attr_reader`, `attr_writer` and `attr_accessor`.
    Attr {
        name: Text,
        at: Span,
        side: Side,
        /// Whether `public` or `private` stands directly before it; none where neither does.
        public: Option<bool>,
        reads: bool,
        writes: bool,
        variable: AttrVar,
        ty: Ty,
    },
    /// `include M`.
    Include(Ref),
    /// `extend M`.
    Extend(Ref),
    /// `prepend M`.
    Prepend(Ref),
    /// `alias new old`.
    AliasOf {
        new_name: Text,
        at: Span,
        old_name: Text,
        side: Side,
    },
    /// `public`, for the members behind it.
    Public,
    /// `private`, for the members behind it.
    Private,
    /// `@v: A`, the name held with its `@` or `@@`.
    Variable {
        name: Text,
        at: Span,
        scope: VarScope,
        ty: Ty,
    },
}

/// Whose method a member is.
#[derive(Clone, Copy, Debug, PartialEq, Eq)]
pub enum Side {
    /// The instances'.
    Instance,
    /// The class's or the module's own: `self.`.
    Singleton,
    /// Both: `self?.`.
    Both,
}

/// The variable of an attribute.
#[derive(Debug, Drop)]
pub enum AttrVar {
    /// The one of the attribute's name.
    Same,
    /// The one in brackets: `(@v)`.
    Named(Text),
    /// None: `()`.
    Absent,
}

/// Whose variable a member is.
#[derive(Clone, Copy, Debug, PartialEq, Eq)]
pub enum VarScope {
    /// The instances': `@v`.
    Instance,
    /// The class's or the module's own: `self.@v`.
    Singleton,
    /// One for the class and its instances: `@@v`.
    Class,
}
