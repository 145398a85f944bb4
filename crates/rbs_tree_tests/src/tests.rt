use rbs_parser::parse;
use rbs_tree::{
    Decl, Sign, Ty, TypeParam, both, copy_decl, copy_ty, copy_type_params, same_ty, subst,
};
use src_text::{Mem, NoMemory, Seq, Span, Text};
use std::alloc::Global;
use std::test::Fail;

// Declarations and members of each kind that is read.
const DECLARATIONS: &str = "class A[unchecked out T, in U] < B[T]
  include M[T]
  extend M[T]
  prepend _I[T]
  public
  private def m: [X] (Integer, ?String s, *X, T last, a: 1, ?b: 2, **U) ?{ (T) -> void } -> self | ...
  def self?.n: () -> bool
  attr_reader a: 1
  attr_writer b(): 2
  attr_accessor self.c(@d): 3
  alias e m
  alias self.f self.m
  @g: 1
  self.@h: 1
  @@i: 1
  module N : _I[T], A
  end
end
interface _I[in T]
  def m: () -> T
end
type t[T] = T
K: Integer
$g: String
";

// A type with types of each kind.
const TYPES: &str = "type t = [
  A[Integer], _I[String], a[Symbol], singleton(A), 1, \"s\", :s, true, false, bool, nil, top, bot, void, untyped, self, instance, class,
  A | B, A & B, A?, [A], { a: A, b: B }, ^(A, ?B b, *C, D, e: E, ?f: F, **G) ?{ (A) -> B } -> C
]
";

fn decls_of(alloc: Global, text: &str) -> Mem<Seq<Decl>> {
    if text.len() >= 1 << 32 {
        return Err(NoMemory);
    }
    match parse(alloc, text) {
        Ok(decls) => Ok(decls),
        Err(_) => Err(NoMemory),
    }
}

// How many declarations of a text are copied, all of them.
fn copied(alloc: Global, text: &str) -> Mem<usize> {
    let decls = decls_of(alloc, text)?;
    let mut copies = Seq::new(alloc);
    for decl in decls.as_slice() {
        copies.push(copy_decl(alloc, decl)?)?;
    }
    Ok(copies.len())
}

#[test]
fn memory_suffices_for_copies(rt: HostRuntime) -> Result<(), Fail> {
    let alloc = rt.alloc();
    assert_eq!(rt; copied(alloc, DECLARATIONS)?, 5);
    assert_eq!(rt; bounds_copied(alloc, &Ty::Bool)?, 1);
    Ok(())
}

// How many type parameters are copied of one with this bound: none is read yet.
fn bounds_copied(alloc: Global, bound: &Ty) -> Mem<usize> {
    let (name, bound) = both(Text::from_str(alloc, "T"), copy_ty(alloc, bound))?;
    let mut params = Seq::new(alloc);
    params.push(TypeParam {
        name,
        at: Span { start: 0, end: 0 },
        unchecked: false,
        sign: Sign::Covariant,
        bound: Some(bound),
    })?;
    Ok(copy_type_params(alloc, params.as_slice())?.len())
}

// A type with another one in place of the variable T.
fn with_t(alloc: Global, ty: &Ty, by: &Ty) -> Mem<Ty> {
    let mut vars = Seq::new(alloc);
    vars.push(Text::from_str(alloc, "T")?)?;
    let mut types = Seq::new(alloc);
    types.push(copy_ty(alloc, by)?)?;
    replaced(alloc, ty, &vars, &types)
}

fn replaced(alloc: Global, ty: &Ty, vars: &Seq<Text>, by: &Seq<Ty>) -> Mem<Ty> {
    if vars.len() != by.len() {
        return Err(NoMemory);
    }
    subst(alloc, ty, vars, by)
}

// The variable of this name with a type in place of the variable T.
fn variable_with_t(alloc: Global, name: &str, by: &Ty) -> Mem<Ty> {
    let variable = Ty::Var(Text::from_str(alloc, name)?);
    with_t(alloc, &variable, by)
}

// Whether a type without variables stays as it is, and takes the place of a variable of this name.
fn takes_place(alloc: Global, ty: &Ty, name: &str) -> Mem<(bool, bool)> {
    let (whole, variable) = both(with_t(alloc, ty, ty), variable_with_t(alloc, name, ty))?;
    Ok((same_ty(&whole, ty), same_ty(&variable, ty)))
}

// The same of the type that a text declares.
fn declared_takes_place(alloc: Global, text: &str, name: &str) -> Mem<(bool, bool)> {
    let decls = decls_of(alloc, text)?;
    match decls.as_slice() {
        [Decl::Alias { ty, .. }] => takes_place(alloc, ty, name),
        _ => Err(NoMemory),
    }
}

#[test]
fn memory_suffices_for_substitution(rt: HostRuntime) -> Result<(), Fail> {
    let alloc = rt.alloc();
    assert_eq!(rt; declared_takes_place(alloc, TYPES, "T")?, (true, true));
    assert_eq!(rt; declared_takes_place(alloc, TYPES, "U")?, (true, false));
    Ok(())
}
