ghost use Rattle.std.specs.Prelude.{◌≡◌, ◌≤◌, ◌↔◌, length, IsErr, OnOk, OnErr};
ghost use Rattle.sx_outside.specs.Faults.{Rose};
ghost use Rattle.sx_volume.specs.Counts.{plus};
ghost use Rattle.sx_volume.specs.Tally.{FailsNext, one_more, one_more_failed};

use crate::counter::Counter;
use crate::{MemSpot, ReadEnd};
use std::marker::Model;
use sx_outside::Failed;

/// Reads the spots of a volume in memory, and fails where it is told to.
#[derive(Drop)]
pub struct MemEnd {
    counter: Counter,
}

impl Model for MemEnd {
    ghost use Rattle.sx_volume.specs.Tally.{Tally};

    ghost Value = { Tally };

    ghost view = { λ end. end.counter };
}

impl MemEnd {
    /// Reads with the numbers in `failing`, counted from 1, fail, and no other.
    pub fn new(failing: Vec<u64>) -> MemEnd
        ensures { result ≡ record { calls = 0; failing = failing.items; faults = 0 } }
    {
        MemEnd {
            counter: Counter::new(failing),
        }
    }
}

impl ReadEnd for MemEnd {
    type Spot = MemSpot;

    ghost tells = { λ _. Unit {0} };

    ghost faults = { λ end. end.faults };

    ghost reads = { λ end. end.calls };

    fn read(&mut self, spot: &MemSpot, room: &mut [u8]) -> Result<(), Failed>
        requires { length room.old ≡ length spot.now }
        ensures filled { OnOk result (room.new ≡ spot.now) }
        ensures goes_on_telling { Unit {0} }
        ensures counted { self.new.calls ≡ plus self.old.calls 1 }
        ensures cause { OnErr result (Rose self.old.faults self.new.faults) }
        ensures no_fault { OnOk result (self.new.faults ≡ self.old.faults) }
        ensures never_falls { self.old.faults ≤ self.new.faults }

        ensures fails { IsErr result ↔ FailsNext self.old }
        ensures ok { OnOk result (self.new ≡ one_more self.old) }
        ensures err { OnErr result (self.new ≡ one_more_failed self.old) }
    {
        self.counter.count()?;
        room.copy_from_slice(spot.as_slice());
        Ok(())
    }
}
