ghost use Rattle.std.specs.Prelude.{◌≡◌, ◌≤◌, ℕ, length, OnOk, OnErr, IfSome};
ghost use Rattle.sx_outside.specs.Faults.{Rose};
ghost use Rattle.sx_volume.specs.Counts.{plus};

use crate::Spot;
use sx_outside::Failed;

/// Reads the spots of one volume, beside its writer and the other ends.
pub trait ReadEnd {
    type Spot: Spot;

    /// The end reads a medium whose bytes are told.
    ghost tells: { Self → Type 0 };

    /// How often the end has failed. The count stands still at 2^64 - 1.
    ghost faults: { Self → ℕ };

    /// How many reads were made. The count stands still at 2^64 - 1.
    ghost reads: { Self → ℕ };

    /// Fills the room with the spot's bytes. At `Failed` the room may hold anything.
    fn read(&mut self, spot: &Self::Spot, room: &mut [u8]) -> Result<(), Failed>
        requires { length room.old ≡ Self.Spot.count spot.now }
        ensures filled { tells self.old → OnOk result (IfSome (Self.Spot.content spot.now) (λ bytes. room.new ≡ bytes)) }
        ensures goes_on_telling { tells self.old → tells self.new }
        ensures counted { reads self.new ≡ plus (reads self.old) 1 }
        ensures cause { OnErr result (Rose (faults self.old) (faults self.new)) }
        ensures no_fault { OnOk result (faults self.new ≡ faults self.old) }
        ensures never_falls { faults self.old ≤ faults self.new };
}
