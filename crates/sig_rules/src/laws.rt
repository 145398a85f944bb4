//! Laws of the definitions. Each function is a law, and does no work.

ghost use Rattle.std.specs.Prelude.{◌≡◌, ◌+◌, ℕ, List, []};
ghost use Rattle.sig_rules.specs.declared.files.Declared.{Declared};
ghost use Rattle.sig_rules.specs.declared.line.Applied.{Applied};
ghost use Rattle.sig_rules.specs.Lines.{instances, singletons, turns};

/// More turns than these change no line: a trail has each declared name once in each kind at most.
pub fn more_turns_change_nothing()
    ensures instances { (all : List Declared) (more : ℕ) (a : Applied) → instances (turns all + more) all [] a ≡ instances (turns all) all [] a }
    ensures singletons { (all : List Declared) (more : ℕ) (a : Applied) → singletons (turns all + more) all [] a ≡ singletons (turns all) all [] a }
{}
