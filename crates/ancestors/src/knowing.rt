ghost use Rattle.std.specs.Prelude.{◌≡◌, Option, None};
ghost use Rattle.std.specs.Option.{option_copied};
ghost use Rattle.sig_rules.specs.declared.line.Kind.{Kind};
ghost use Rattle.sig_rules.specs.declared.line.Line.{Line};
ghost use Rattle.sig_rules.specs.Declarations.{Path};

use rbs_tree::TypeName;
use sig_rules::{Kind, Line};

/// Lines that are known already. No call takes memory.
pub trait Known {
    /// The line that is known of a name and a kind.
    ghost lines: { Self → Path → Kind → Option Line };

    /// The line of a full name, if it is known.
    fn known_line(&self, name: &TypeName, kind: Kind) -> Option<&Line>
        ensures { option_copied result ≡ lines self.now name.now.path kind };
}

/// No line is known.
pub(crate) struct NoLines;

impl Known for NoLines {
    ghost lines = { λ none path kind. None };

    fn known_line(&self, name: &TypeName, kind: Kind) -> Option<&Line>
        ensures { option_copied result ≡ None }
    {
        None
    }
}
