//! The core signatures, which every project has before its own.
#![tactic(auto)]

ghost use Rattle.std.specs.Prelude.{◌≡◌};
ghost use Rattle.core_sigs.specs.Core.{core};

/// The text of the core signatures: the classes and modules that Ruby begins with, as far as this project knows them.
#[tactic(auto, unfolding(crate::specs::Core::core))]
pub fn core_text() -> &'static str
    ensures { result.now ≡ core }
{
    "interface _Each[out Elem]
  def each: () { (Elem) -> void } -> untyped
end
class BasicObject
  def initialize: () -> void
  def ==: (untyped) -> bool
  def !=: (untyped) -> bool
  def !: () -> bool
end
module Kernel : BasicObject
  def class: () -> class
  def nil?: () -> bool
  def is_a?: (Module) -> bool
  def kind_of?: (Module) -> bool
  def instance_of?: (Module) -> bool
  def respond_to?: (Symbol | String) -> bool
  def ===: (untyped) -> bool
  def to_s: () -> String
  def inspect: () -> String
  def hash: () -> Integer
  def freeze: () -> self
  def dup: () -> self
  def tap: () { (self) -> void } -> self
  def then: [X] () { (self) -> X } -> X
  def send: (Symbol | String, *untyped) -> untyped
  def extend: (*Module) -> self
  private
  def puts: (*untyped) -> nil
  def print: (*untyped) -> nil
  def p: (*untyped) -> untyped
  def raise: (?(Class | Exception | String), *untyped) -> bot
  def require: (String) -> bool
  def require_relative: (String) -> bool
  def loop: () { () -> void } -> untyped
  def lambda: () { () -> untyped } -> Proc
  def format: (String, *untyped) -> String
  def block_given?: () -> bool
  def Integer: (untyped) -> Integer
end
class Object < BasicObject
  include Kernel
end
class Module
  def name: () -> String?
  def attr_reader: (*(Symbol | String)) -> Array[Symbol]
  def attr_writer: (*(Symbol | String)) -> Array[Symbol]
  def attr_accessor: (*(Symbol | String)) -> Array[Symbol]
  def include: (*Module) -> self
  def prepend: (*Module) -> self
  def private: (*untyped) -> untyped
  def public: (*untyped) -> untyped
  def module_function: (*untyped) -> untyped
end
class Class < Module
end
module Comparable
  def <: (untyped) -> bool
  def <=: (untyped) -> bool
  def >: (untyped) -> bool
  def >=: (untyped) -> bool
end
class NilClass
  def to_a: () -> Array[untyped]
end
class TrueClass
end
class FalseClass
end
class Numeric
  include Comparable
end
class Float < Numeric
  def to_i: () -> Integer
end
class Integer < Numeric
  def +: (Integer) -> Integer
  def -: (Integer) -> Integer
  def *: (Integer) -> Integer
  def /: (Integer) -> Integer
  def %: (Integer) -> Integer
  def -@: () -> Integer
  def <=>: (untyped) -> Integer?
  def to_s: (?Integer) -> String
  def to_i: () -> Integer
  def zero?: () -> bool
  def times: () { (Integer) -> void } -> Integer
end
class String
  include Comparable
  def +: (String) -> String
  def *: (Integer) -> String
  def <<: (String) -> self
  def =~: (Regexp) -> Integer?
  def []: (Integer | Range[Integer] | String) -> String?
  def size: () -> Integer
  def length: () -> Integer
  def empty?: () -> bool
  def upcase: () -> String
  def downcase: () -> String
  def strip: () -> String
  def split: (?(String | Regexp)) -> Array[String]
  def include?: (String) -> bool
  def start_with?: (*String) -> bool
  def to_sym: () -> Symbol
  def to_i: () -> Integer
end
class Symbol
  def to_proc: () -> Proc
  def size: () -> Integer
end
class Regexp
  def match?: (String?) -> bool
end
class Proc
  def call: (*untyped) -> untyped
end
module Enumerable[unchecked out Elem] : _Each[Elem]
  def map: [U] () { (Elem) -> U } -> Array[U]
  def flat_map: [U] () { (Elem) -> Array[U] } -> Array[U]
  def select: () { (Elem) -> untyped } -> Array[Elem]
  def reject: () { (Elem) -> untyped } -> Array[Elem]
  def find: () { (Elem) -> untyped } -> Elem?
  def each_with_index: () { (Elem, Integer) -> void } -> self
  def each_with_object: [A] (A) { (Elem, A) -> void } -> A
  def inject: [A] (A) { (A, Elem) -> A } -> A | (Symbol) -> untyped
  def include?: (untyped) -> bool
  def first: () -> Elem? | (Integer) -> Array[Elem]
  def to_a: () -> Array[Elem]
  def sort: () -> Array[Elem]
  def sort_by: () { (Elem) -> untyped } -> Array[Elem]
  def min: () -> Elem?
  def max: () -> Elem?
  def sum: () -> Elem | [U] () { (Elem) -> U } -> U
  def count: () ?{ (Elem) -> untyped } -> Integer
  def any?: () ?{ (Elem) -> untyped } -> bool
  def all?: () ?{ (Elem) -> untyped } -> bool
  def group_by: [K] () { (Elem) -> K } -> Hash[K, Array[Elem]]
end
class Range[out Elem]
  include Enumerable[Elem]
  def each: () { (Elem) -> void } -> self
end
class Array[unchecked out Elem]
  include Enumerable[Elem]
  def each: () { (Elem) -> void } -> self
  def []: (Integer) -> Elem?
  def []=: (Integer, Elem) -> Elem
  def <<: (Elem) -> self
  def push: (*Elem) -> self
  def pop: () -> Elem?
  def last: () -> Elem?
  def +: [U] (Array[U]) -> Array[Elem | U]
  def size: () -> Integer
  def empty?: () -> bool
  def join: (?String) -> String
  def reverse: () -> Array[Elem]
end
class Hash[unchecked out K, unchecked out V]
  include Enumerable[[K, V]]
  def each: () { ([K, V]) -> void } -> self
  def []: (K) -> V?
  def []=: (K, V) -> V
  def fetch: (K) -> V
  def key?: (K) -> bool
  def keys: () -> Array[K]
  def values: () -> Array[V]
  def size: () -> Integer
  def empty?: () -> bool
end
class Exception
  def initialize: (?String) -> void
  def message: () -> String
end
class StandardError < Exception
end
class RuntimeError < StandardError
end
class ArgumentError < StandardError
end
class TypeError < StandardError
end
class KeyError < StandardError
end
"
}
