ghost use Rattle.std.specs.Prelude.{◌≡◌, ℕ, List, codes, false, None, IfOk};
ghost use Rattle.sig_rules.specs.declared.line.Step.{Step};
ghost use Rattle.sig_rules.specs.Methods.{Made, first_made, is_some, same_word};

use sig_rules::{Method, Shared, Step};
use src_text::Mem;
use std::alloc::Global;

/// What steps have without a declaration: nothing, or a `new`.
pub trait Making {
    /// What is made.
    ghost made: { Self → Made };

    /// Whether one of these steps has a `new` that is made.
    fn makes_new(&self, steps: &[Shared<Step>]) -> bool
        ensures { result ≡ is_some (first_made (made self.now) steps.now (codes "new")) };

    /// The `new` that the first of these steps has which has one that is made.
    fn first_new(&self, alloc: Global, steps: &[Shared<Step>]) -> Mem<Option<Method>>
        ensures { IfOk result (λ new. new ≡ first_made (made self.now) steps.now (codes "new")) };

    /// Nothing but `new` is made.
    fn only_new(&self)
        ensures { (step : Step) (name : List ℕ) → same_word name (codes "new") ≡ false → made self.now step name ≡ None };
}
