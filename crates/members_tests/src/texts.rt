/// A class with type parameters of one name, declared twice, and one below it.
pub const MERGED: &str = "class B[T, T]
  def m: (T) -> T
  attr_reader t: T
end
class C < B[1, 2]
end
class B[X, Y]
  def n: (X, Y) -> void
end
type t[T, T] = T
";

/// A module with self types.
pub const OF_ITSELF: &str = "class S
end
module M : S, _Each[Integer]
end
class A
  include M
end
";

/// Modules that lead to themselves.
pub const ON_THE_PATH: &str = "module M
  include N
end
module N
  include M
end
class A
  include M
end
module E
  extend E
end
module K1 : H
end
class H
  include K1
end
";

/// Two superclasses in a circle.
pub const ROUND: &str = "class A < B
end
class B < A
end
";

/// Modules that are included, prepended and extended, some of them twice.
pub const MIXED_IN: &str = "module M1
end
module M2
  include M1
end
module P1
end
module P2
  prepend P1
end
class S
  include M1
end
class A < S
  include M1
  prepend P1
  include M2
  prepend P2
  extend M1
  extend M2
end
";

/// Names that stand for nothing, or for no class.
pub const UNKNOWN: &str = "class A < Nope
  include Nope2
  def m: (Nope3[Nope4]) -> Array[_Nope | nope]
end
module M : Nope5
end
K: Integer
class B < K
  include K
  def m: () -> K
  def n: () -> singleton(Nope)
end
";

/// A constant and an alias.
pub const VALUES: &str = "K: Integer
class G[T]
end
type a = G[Integer]
";

/// Variables of each scope, one of them again.
pub const HELD: &str = "class P
  @a: 1
  @b: 1
  @@c: 1
  self.@d: 1
end
class A < P
  @a: 2
  @a: 3
  @e: 4
end
";

/// Attributes with and without variables.
pub const ATTRIBUTES: &str = "class A
  attr_reader r: 1
  attr_writer w: 2
  attr_accessor a: 3
  attr_reader s(@t): 4
  attr_writer u(): 5
  attr_reader self.x: 6
  private attr_reader p: 7
end
";

/// A method of both sides.
pub const BOTH: &str = "module A
  def self?.m: () -> 1
end
";

/// A class with an `initialize`, and classes below it.
pub const MADE: &str = "class A[T]
  def initialize: [T] (T) -> void | [U] (T, U) -> void | (T) -> void
end
class B[U] < A[U]
end
class C[T] < A[Array[T]]
end
class D < A[Integer]
end
";

/// A `new` that is declared, one that is made, and an alias of one that is made.
pub const NEW: &str = "class A
end
class B < A
  def self.new: (1) -> B | ...
end
class C
  alias self.make self.new
end
class D < C
end
";

/// A `new` that is declared for the class below, and an `initialize` that is declared public.
pub const GIVEN: &str = "class A[T]
  public def initialize: (T) -> void | [U] (T, U) { () -> U } -> Integer
end
class B < A[Integer]
end
class C
  def self.new: (1) -> C
end
class D < C
end
module M
end
";

/// An interface that includes another one, and a class that includes it.
pub const SHAPED: &str = "interface _I[T]
  def m: () -> T
  include _J[T]
  alias k n
end
interface _J[X]
  def n: (X) -> void
end
class A
  include _I[Integer]
end
";

/// A method more of the class that all inherit from.
pub const OF_OBJECT: &str = "class Object
  def f: () -> Integer | (String) -> Symbol
end
";

/// A chain of classes with arguments; its last has an alias of a method two classes behind.
pub const CHAIN: &str = "class D < C
  alias d b
end
class A[T]
  def a: (T) -> T
  @a: T
end
class C < B[Integer]
  def c: () -> 1
  def a: (2) -> 2 | ...
end
class B[U] < A[Array[U]]
  def b: () -> U
end
";
