use crate::table::line;
use crate::texts::{MIXED_IN, OF_ITSELF, ON_THE_PATH, ROUND};
use sig_rules::Kind;
use std::test::Fail;

// Signatures, a name, whose methods are meant, and the line.
const LINES: &[(&str, &str, Kind, &str)] = &[
    // what is prepended comes first, what is included behind, the last one first; nothing is left out that stands there twice
    (
        MIXED_IN,
        "A",
        Kind::Instance,
        "::P1 ::P2 ::P1 ::A ::M2 ::M1 ::M1 ::S ::M1 ::Object ::Kernel ::BasicObject",
    ),
    (
        MIXED_IN,
        "A",
        Kind::Singleton,
        "singleton(::A) ::M2 ::M1 ::M1 singleton(::S) singleton(::Object) singleton(::BasicObject) ::Class ::Module ::Object ::Kernel ::BasicObject",
    ),
    // the superclass's arguments are put in
    (
        "class P[T, U]
  include M[U]
end
module M[X]
end
class A[Q] < P[Array[Q], Q]
end
class B < A[Integer]
end
",
        "B",
        Kind::Instance,
        "::B ::A[::Integer] ::P[::Array[::Integer], ::Integer] ::M[::Integer] ::Object ::Kernel ::BasicObject",
    ),
    // so are those of a module that is extended
    (
        "module M[E]
  def each: [R] () { (E) -> R } -> R
end
class L[R]
  include M[R]
  extend M[Array[R]]
end
class N[E] < L[E]
end
",
        "N",
        Kind::Singleton,
        "singleton(::N) singleton(::L) ::M[::Array[R]] singleton(::Object) singleton(::BasicObject) ::Class ::Module ::Object ::Kernel ::BasicObject",
    ),
    // missing arguments are unknown, surplus ones are dropped
    (
        "class A < Array
  include Comparable[Integer]
  def m: (Hash[Integer]) -> Integer[String]
  def n: () -> Array[Integer]
end
",
        "A",
        Kind::Instance,
        "::A ::Comparable ::Array[untyped] ::Enumerable[untyped] ::Object ::Kernel ::BasicObject",
    ),
    // interfaces
    (
        "interface _A[T]
end
interface _B[T]
  include _A[Array[T]]
  include _C
end
interface _C
end
class X
  include _B[Integer]
end
",
        "X",
        Kind::Instance,
        "::X ::_B[::Integer] ::_C ::_A[::Array[::Integer]] ::Object ::Kernel ::BasicObject",
    ),
    // self types stand at the end of a module's own line
    (
        OF_ITSELF,
        "M",
        Kind::Instance,
        "::M ::S ::Object ::Kernel ::BasicObject ::_Each[::Integer]",
    ),
    (
        OF_ITSELF,
        "A",
        Kind::Instance,
        "::A ::M ::Object ::Kernel ::BasicObject",
    ),
    // what stands on the path already is left out
    (ROUND, "A", Kind::Instance, "::A ::B cut"),
    (
        ROUND,
        "A",
        Kind::Singleton,
        "singleton(::A) singleton(::B) ::Class ::Module ::Object ::Kernel ::BasicObject cut",
    ),
    (
        ON_THE_PATH,
        "A",
        Kind::Instance,
        "::A ::M ::N ::Object ::Kernel ::BasicObject cut",
    ),
    (
        ON_THE_PATH,
        "K1",
        Kind::Instance,
        "::K1 ::H ::Object ::Kernel ::BasicObject cut",
    ),
    // a singleton is no instance
    (
        ON_THE_PATH,
        "E",
        Kind::Singleton,
        "singleton(::E) ::E ::Module ::Object ::Kernel ::BasicObject",
    ),
];

#[test]
fn lines_of_ancestors(rt: HostRuntime) -> Result<(), Fail> {
    let alloc = rt.alloc();
    for row in LINES {
        assert_eq!(rt; line(alloc, row.0, row.1, row.2)?.as_str(), row.3);
    }
    Ok(())
}
