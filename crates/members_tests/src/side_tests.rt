use crate::table::{side, side_alone};
use crate::texts::{
    ATTRIBUTES, BOTH, CHAIN, GIVEN, HELD, MADE, MERGED, NEW, OF_OBJECT, SHAPED, UNKNOWN,
};
use sig_rules::Kind;
use std::test::Fail;

// Signatures, a name, whose methods are meant, and what this side has.
const SIDES: &[(&str, &str, Kind, &str)] = &[
    // a method's own variable isn't captured
    (
        "class P[T]
  def a: [U, U1] (U, U1) -> T
  def b: [U1, U] (U1, U) { (U) -> U1 } -> T
  def c: [U2] (U2) -> T
end
class A[U] < P[U]
end
class B[U, U1] < P[U | U1]
end
",
        "B",
        Kind::Instance,
        "31 of the core
a => ::P public: [U2, U11] (U2, U11) -> (U | U1)
b => ::P public: [U11, U2] (U11, U2) { (U2) -> U11 } -> (U | U1)
c => ::P public: [U2] (U2) -> (U | U1)
",
    ),
    // merged declarations are read in the type parameters of the first
    (
        "class A[X]
  def m: [Y] (X, Y) -> Y
end
class A[Y]
  def n: [X] (Y, X) -> X
end
",
        "A",
        Kind::Instance,
        "31 of the core
m => ::A public: [Y] (X, Y) -> Y
n => ::A public: [X1] (X, X1) -> X1
",
    ),
    (
        MERGED,
        "C",
        Kind::Instance,
        "31 of the core
@t: 1
m => ::B public: (1) -> 1
n => ::B public: (1, 1) -> void
t => ::B public: () -> 1
",
    ),
    // further overloads stand before those behind them
    (
        "class P
  def m: (P) -> void
end
module M
  def m: (M) -> void | ...
end
class A < P
  include M
  def m: (A) -> void | ...
  def m: (B) -> void | (Object) -> void | ...
end
class B
end
class C
  def m: (A) -> void
end
class C
  def m: (B) -> void | ...
end
",
        "A",
        Kind::Instance,
        "31 of the core
m => ::A public: (::B) -> void | (::Object) -> void | (::A) -> void | (::M) -> void | (::P) -> void
",
    ),
    // what is prepended comes before what the class declares
    (
        "class A
  prepend M
  def m: () -> 1
  def n: () -> 2
end
module M
  def m: () -> 3 | ...
  private def n: () -> 4
end
",
        "A",
        Kind::Instance,
        "31 of the core
m => ::M public: () -> 3 | () -> 1
n => ::M private: () -> 4
",
    ),
    // the first whole declaration counts
    (
        "class A
  def m: () -> 1
  def m: () -> 2
  attr_reader m: 3
end
class A
  def m: () -> 4 | ...
  def m: () -> 5
end
",
        "A",
        Kind::Instance,
        "31 of the core
@m: 3
m => ::A public: () -> 4 | () -> 1
",
    ),
    // attributes
    (
        ATTRIBUTES,
        "A",
        Kind::Instance,
        "30 of the core
@a: 3
@p: 7
@r: 1
@t: 4
@w: 2
a => ::A public: () -> 3
a= => ::A public: (3 a) -> 3
p => ::A private: () -> 7
r => ::A public: () -> 1
s => ::A public: () -> 4
u= => ::A public: (5 u) -> 5
w= => ::A public: (2 w) -> 2
",
    ),
    (
        ATTRIBUTES,
        "A",
        Kind::Singleton,
        "40 of the core
@x: 6
new => singleton(::A) public: () -> ::A
x => singleton(::A) public: () -> 6
",
    ),
    // aliases, also of what is found behind, and one that leads nowhere and hides nothing
    (
        "class P
  def a: () -> 1
end
class X < P
  alias a nope
  alias c a
end
",
        "X",
        Kind::Instance,
        "31 of the core
a => ::P public: () -> 1
c => ::P public: () -> 1
",
    ),
    (
        "class P
  def m: () -> 0
end
class A < P
  def k: () -> 9
  alias m m
  def m: () -> 2 | ...
end
",
        "A",
        Kind::Instance,
        "31 of the core
k => ::A public: () -> 9
m => ::A public: () -> 2 | () -> 0
",
    ),
    // aliases in a circle
    (
        "class A
  alias a b
  alias b a
  alias c nope
  alias d d
  alias self.e self.nope
  alias f a
end
",
        "A",
        Kind::Instance,
        "31 of the core
",
    ),
    (
        "class A
  alias a b
  alias b a
  alias c nope
  alias d d
  alias self.e self.nope
  alias f a
end
",
        "A",
        Kind::Singleton,
        "40 of the core
new => singleton(::A) public: () -> ::A
",
    ),
    // visibility by sections and by words
    (
        "class A
  def a: () -> 1
  private
  def b: () -> 1
  public def c: () -> 1
  attr_reader d: 1
  public
  def e: () -> 1
  private def f: () -> 1
  def g: () -> 1
  private
end
class A
  def h: () -> 1
end
",
        "A",
        Kind::Instance,
        "31 of the core
@d: 1
a => ::A public: () -> 1
b => ::A private: () -> 1
c => ::A public: () -> 1
d => ::A private: () -> 1
e => ::A public: () -> 1
f => ::A private: () -> 1
g => ::A public: () -> 1
h => ::A public: () -> 1
",
    ),
    // a method of both sides
    (
        BOTH,
        "A",
        Kind::Instance,
        "31 of the core
m => ::A private: () -> 1
",
    ),
    (
        BOTH,
        "A",
        Kind::Singleton,
        "40 of the core
m => singleton(::A) public: () -> 1
",
    ),
    // names that stand for nothing
    (
        UNKNOWN,
        "B",
        Kind::Instance,
        "31 of the core
m => ::B public: () -> untyped
n => ::B public: () -> untyped
",
    ),
    (
        UNKNOWN,
        "A",
        Kind::Instance,
        "31 of the core
m => ::A public: (untyped) -> ::Array[untyped | untyped]
",
    ),
    // variables, each by the first step that has it
    (
        HELD,
        "A",
        Kind::Instance,
        "31 of the core
@@c: 1
@a: 2
@b: 1
@e: 4
",
    ),
    (
        HELD,
        "A",
        Kind::Singleton,
        "40 of the core
@@c: 1
@d: 1
new => singleton(::A) public: () -> ::A
",
    ),
    // of the class that all inherit from, which is that of classes as well
    (
        OF_OBJECT,
        "Object",
        Kind::Instance,
        "31 of the core
f => ::Object public: () -> ::Integer | (::String) -> ::Symbol
",
    ),
    (
        OF_OBJECT,
        "Object",
        Kind::Singleton,
        "40 of the core
f => ::Object public: () -> ::Integer | (::String) -> ::Symbol
new => singleton(::Object) public: () -> ::Object
",
    ),
    // interfaces, and what includes them
    (
        SHAPED,
        "_I",
        Kind::Instance,
        "0 of the core
k => ::_J public: (T) -> void
m => ::_I public: () -> T
n => ::_J public: (T) -> void
",
    ),
    (
        SHAPED,
        "_J",
        Kind::Instance,
        "0 of the core
n => ::_J public: (X) -> void
",
    ),
    (
        SHAPED,
        "A",
        Kind::Instance,
        "31 of the core
k => ::_J public: (::Integer) -> void
m => ::_I public: () -> ::Integer
n => ::_J public: (::Integer) -> void
",
    ),
    // a `new` that is declared before one that is made, and one that is made below an alias of another
    (
        NEW,
        "B",
        Kind::Singleton,
        "40 of the core
new => singleton(::B) public: (1) -> ::B | () -> ::A
",
    ),
    (
        NEW,
        "C",
        Kind::Singleton,
        "40 of the core
make => singleton(::C) public: () -> ::C
new => singleton(::C) public: () -> ::C
",
    ),
    (
        NEW,
        "D",
        Kind::Singleton,
        "40 of the core
make => singleton(::C) public: () -> ::C
new => singleton(::D) public: () -> ::D
",
    ),
    // a `new` that is declared behind the class, and one that an inherited `initialize` gives
    (
        GIVEN,
        "D",
        Kind::Singleton,
        "40 of the core
new => singleton(::C) public: (1) -> ::C
",
    ),
    (
        GIVEN,
        "B",
        Kind::Singleton,
        "40 of the core
new => singleton(::B) public: (::Integer) -> ::B | [U] (::Integer, U) { () -> U } -> ::B
",
    ),
    (
        GIVEN,
        "B",
        Kind::Instance,
        "30 of the core
initialize => ::A private: (::Integer) -> void | [U] (::Integer, U) { () -> U } -> ::Integer
",
    ),
    // a module itself has no `new`
    (
        GIVEN,
        "M",
        Kind::Singleton,
        "40 of the core
",
    ),
    // what `new` takes and gives
    (
        MADE,
        "A",
        Kind::Singleton,
        "40 of the core
new => singleton(::A) public: [T, T1] (T1) -> ::A[T] | [T, U] (T, U) -> ::A[T] | [T] (T) -> ::A[T]
",
    ),
    (
        MADE,
        "B",
        Kind::Singleton,
        "40 of the core
new => singleton(::B) public: [U, T] (T) -> ::B[U] | [U, U1] (U, U1) -> ::B[U] | [U] (U) -> ::B[U]
",
    ),
    (
        MADE,
        "C",
        Kind::Singleton,
        "40 of the core
new => singleton(::C) public: [T, T1] (T1) -> ::C[T] | [T, U] (::Array[T], U) -> ::C[T] | [T] (::Array[T]) -> ::C[T]
",
    ),
    (
        MADE,
        "D",
        Kind::Singleton,
        "40 of the core
new => singleton(::D) public: [T] (T) -> ::D | [U] (::Integer, U) -> ::D | (::Integer) -> ::D
",
    ),
    (
        "class A[T, T1]
  def initialize: [T] (T, T1) -> void | [T1, T] (T, T1) -> void
end
",
        "A",
        Kind::Singleton,
        "40 of the core
new => singleton(::A) public: [T, T1, T2] (T2, T1) -> ::A[T, T1] | [T, T1, T11, T2] (T2, T11) -> ::A[T, T1]
",
    ),
    // along a chain, whose classes stand in any order
    (
        CHAIN,
        "D",
        Kind::Instance,
        "31 of the core
@a: ::Array[::Integer]
a => ::C public: (2) -> 2 | (::Array[::Integer]) -> ::Array[::Integer]
b => ::B public: () -> ::Integer
c => ::C public: () -> 1
d => ::B public: () -> ::Integer
",
    ),
    (
        CHAIN,
        "D",
        Kind::Singleton,
        "40 of the core
new => singleton(::D) public: () -> ::D
",
    ),
];

#[test]
fn sides_of_a_table(rt: HostRuntime) -> Result<(), Fail> {
    let alloc = rt.alloc();
    for row in SIDES {
        assert_eq!(rt; side(alloc, row.0, row.1, row.2)?.as_str(), row.3);
    }
    Ok(())
}

#[test]
fn sides_made_alone(rt: HostRuntime) -> Result<(), Fail> {
    let alloc = rt.alloc();
    for row in SIDES {
        assert_eq!(rt; side_alone(alloc, row.0, row.1, row.2)?.as_str(), row.3);
    }
    Ok(())
}
