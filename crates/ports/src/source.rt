ghost use Rattle.std.specs.Prelude.{List, ℕ, Option};
ghost use Rattle.std.specs.Io.{ReadsAtMost};
ghost use Rattle.std.specs.Io.KnownBytes.{ReadConsumes};
ghost use Rattle.ports.specs.Causes.{HasCause};

/// The outside failed. A call that answers this has moved nothing.
#[derive(Clone, Copy, Debug, PartialEq, Eq)]
pub struct Failed;

/// Where bytes come from.
pub trait Source {
    /// What is left, where the source tells it.
    ghost left: { Self → Option (List ℕ) };

    /// How often a read has failed. It stands still at 2^64 - 1.
    ghost faults: { Self → ℕ };

    /// Moves a prefix of what is left to the front of the buffer, and answers its length. 0 into a buffer that isn't empty is
    /// the end.
    fn read(&mut self, buf: &mut [u8]) -> Result<usize, Failed>
        ensures bound { ReadsAtMost result buf.new }
        ensures bytes { ReadConsumes (left self.old) (left self.new) result buf.new }
        ensures cause { HasCause (faults self.old) (faults self.new) result };
}
