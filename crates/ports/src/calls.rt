ghost use Rattle.std.specs.Prelude.{◌≡◌, is_err};
ghost use Rattle.ports.specs.Causes.{HasCause};

use crate::Failed;
use src_text::Seq;

// The calls on a fake, of which some fail.
#[derive(Debug, Drop)]
pub(crate) struct Calls {
    pub(crate) number: u64,
    pub(crate) faults: u64,
    pub(crate) failing: Seq<u64>,
}

impl Calls {
    ghost use Rattle.ports.specs.Calls.{after_call, fails_next, no_calls};

    // No call yet. Those that `failing` numbers, from 1, will fail.
    pub(crate) fn new(failing: Seq<u64>) -> Calls
        ensures { result ≡ no_calls failing }
    {
        Calls {
            number: 0,
            faults: 0,
            failing,
        }
    }

    // Counts one more call, and its fault where it fails.
    pub(crate) fn begin(&mut self) -> Result<(), Failed>
        ensures fails { is_err result ≡ fails_next self.old }
        ensures after { self.new ≡ after_call self.old }
        ensures cause { HasCause self.old.faults self.new.faults result }
    {
        self.number = self.number.saturating_add(1);
        if self.failing.as_slice().contains(&self.number) {
            self.faults = self.faults.saturating_add(1);
            return Err(Failed);
        }
        Ok(())
    }
}
