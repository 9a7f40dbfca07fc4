ghost use Rattle.std.specs.Prelude.{◌≡◌, ◌<◌, ◌≤◌, List, Option, ℕ, length, take, IfOk, OnOk, OnErr};
ghost use Rattle.sx_outside.specs.Faults.{Rose};
ghost use Rattle.sx_outside.specs.Transfer.{Gains, Stays};

use crate::Failed;

/// Takes bytes in pieces. A medium that takes nothing more counts a fault.
pub trait Sink {
    /// The bytes written so far, where the sink tells them.
    ghost written: { Self → Option (List ℕ) };

    /// How often the sink has failed. The count stands still at 2^64 - 1.
    ghost faults: { Self → ℕ };

    /// Writes a front of the piece, at least one byte, and tells how long it is.
    /// At `Failed` nothing was written. A call that succeeds leaves the count of faults.
    fn put(&mut self, piece: &[u8]) -> Result<usize, Failed>
        requires { 0 < length piece.now }
        ensures some { IfOk result (λ n. 0 < n) }
        ensures within { IfOk result (λ n. n ≤ length piece.now) }
        ensures put { IfOk result (λ n. Gains (written self.old) (take n piece.now) (written self.new)) }
        ensures nothing_written { OnErr result (Stays (written self.old) (written self.new)) }
        ensures cause { OnErr result (Rose (faults self.old) (faults self.new)) }
        ensures no_fault { OnOk result (faults self.new ≡ faults self.old) }
        ensures never_falls { faults self.old ≤ faults self.new };
}
