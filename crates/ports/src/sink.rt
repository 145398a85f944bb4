ghost use Rattle.std.specs.Prelude.{List, ℕ, Option, IfOk, ◌≤◌, length};
ghost use Rattle.std.specs.Io.KnownBytes.{WriteAppends};
ghost use Rattle.ports.specs.Causes.{HasCause, HasStall};

use crate::Failed;

/// Where bytes go.
pub trait Sink {
    /// What the sink holds, where it tells it.
    ghost held: { Self → Option (List ℕ) };

    /// How often a write has failed. It stands still at 2^64 - 1.
    ghost faults: { Self → ℕ };

    /// How often a write has taken nothing of a piece that isn't empty. It stands still at 2^64 - 1.
    ghost stalls: { Self → ℕ };

    /// Appends a prefix of the piece, and answers its length. Where that is 0 and the piece isn't empty, the sink has stalled,
    /// which a caller treats as a failed write.
    fn write(&mut self, piece: &[u8]) -> Result<usize, Failed>
        ensures bound { IfOk result (λ n. n ≤ length piece.now) }
        ensures bytes { WriteAppends (held self.old) (held self.new) result piece.now }
        ensures cause { HasCause (faults self.old) (faults self.new) result }
        ensures stall { HasStall (stalls self.old) (stalls self.new) result piece.now };
}
