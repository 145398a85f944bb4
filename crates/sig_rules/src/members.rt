ghost use Rattle.std.specs.Prelude.{◌≡◌, ◌↔◌, IfOk, IsTrue};
ghost use Rattle.std.specs.Option.{option_copied};
ghost use Rattle.sig_rules.specs.Subtypes.{IsSubtype};
ghost use Rattle.sig_rules.specs.Worlds.{line_of, IsDefinition, IsShape, alias_of, value_of};

use crate::{Definition, Kind, Line, Memo, Names};
use rbs_tree::{Ty, TypeName};
use src_text::{Mem, Seq, Text};

/// The lines of a project's classes, modules and interfaces.
pub trait Lines: Names {
    /// The line of a class, a module or an interface of this full name.
    fn line(&self, name: &TypeName, kind: Kind) -> Option<&Line>
        ensures { option_copied result ≡ line_of (Self.all self.now) name.now.path kind };
}

/// The methods and variables of a project's classes, modules and interfaces, and what its other names stand for.
pub trait Members: Lines {
    /// One side of a class or a module of this full name.
    fn definition(&self, name: &TypeName, kind: Kind) -> Option<&Definition>
        ensures { IsDefinition (Self.all self.now) name.now.path kind (option_copied result) };

    /// The methods of an interface of this full name.
    fn shape(&self, name: &TypeName) -> Option<&Definition>
        ensures { IsShape (Self.all self.now) name.now.path (option_copied result) };

    /// The type parameters and the type of a type alias of this full name.
    fn alias(&self, name: &TypeName) -> Option<&(Seq<Text>, Ty)>
        ensures { option_copied result ≡ alias_of (Self.all self.now) name.now.path };

    /// The type of a constant by its full name, with `::` before each word, or of a global with its `$`.
    fn value(&self, name: &Text) -> Option<&Ty>
        ensures { option_copied result ≡ value_of (Self.all self.now) name.now };
}

/// A project in which types are compared.
pub trait World: Members {
    /// Whether a type is a subtype of another.
    fn subtype(&self, memo: &mut Memo, s: &Ty, t: &Ty) -> Mem<bool>
        ensures { IfOk result (λ found. IsTrue found ↔ IsSubtype (Self.all self.now) s.now t.now) };
}
