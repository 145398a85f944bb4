ghost use Rattle.std.specs.Prelude.{◌≡◌, List, slice_get};
ghost use Rattle.std.specs.Option.{option_copied, option_map};
ghost use Rattle.sig_rules.specs.declared.files.Declared.{Declared};
ghost use Rattle.sig_rules.specs.Declarations.{entries, full_name};
ghost use Rattle.sig_rules.specs.Names.{resolve};

use crate::Declared;
use rbs_tree::TypeName;

/// What the names of a project stand for. No call takes memory.
pub trait Names {
    /// All that the project's signatures declare, the core signatures first.
    ghost all: { Self → List Declared };

    /// The full name that a name stands for among the enclosing names, of which the last is the innermost.
    fn resolve(&self, context: &[TypeName], name: &TypeName) -> Option<&TypeName>
        ensures { option_copied result ≡ option_map full_name (resolve (all self.now) context.now name.now) };

    /// The declarations of a full name that count.
    fn entries(&self, name: &TypeName) -> &[Declared]
        ensures { result.now ≡ entries (all self.now) name.now.path };

    /// The declaration at a place, from 0, of the list of all, the clashes that `entries` leaves out among them.
    fn decl_at(&self, i: u64) -> Option<&Declared>
        ensures { option_copied result ≡ slice_get (all self.now) i };
}
