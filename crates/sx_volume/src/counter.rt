ghost use Rattle.std.specs.Prelude.{◌≡◌, ◌+◌, ◌≤◌, ◌↔◌, IsTrue, IsErr, OnOk, OnErr, Contains};
ghost use Rattle.sx_volume.specs.Tally.{FailsNext, one_more, one_more_failed};

use std::marker::Model;
use sx_outside::Failed;

// Counts calls, and fails the listed ones.
#[derive(Drop)]
pub struct Counter {
    made: u64,
    failing: Vec<u64>,
    faults: u64,
}

impl Model for Counter {
    ghost use Rattle.sx_volume.specs.Tally.{Tally};

    ghost Value = { Tally };

    ghost view = { λ counter. record {
      calls = counter.made;
      failing = counter.failing.items;
      faults = counter.faults;
    } };
}

impl Counter {
    // No call came yet.
    pub fn new(failing: Vec<u64>) -> Counter
        ensures { result ≡ record { calls = 0; failing = failing.items; faults = 0 } }
    {
        Counter {
            made: 0,
            failing,
            faults: 0,
        }
    }

    // Counts one call more that failed.
    pub fn fail(&mut self) -> Failed
        ensures failed { self.new ≡ one_more_failed self.old }
        ensures never_falls { self.old.faults ≤ self.new.faults }
    {
        self.made = self.made.saturating_add(1);
        self.faults = self.faults.saturating_add(1);
        Failed
    }

    // Counts one call more, which fails where its number is listed.
    pub fn count(&mut self) -> Result<(), Failed>
        ensures fails { IsErr result ↔ FailsNext self.old }
        ensures ok { OnOk result (self.new ≡ one_more self.old) }
        ensures err { OnErr result (self.new ≡ one_more_failed self.old) }
        ensures never_falls { self.old.faults ≤ self.new.faults }
    {
        if is_listed(&self.failing, self.made) {
            return Err(self.fail());
        }
        self.made = self.made.saturating_add(1);
        Ok(())
    }
}

// Whether the call after so many calls is listed, where the numbers count from 1.
fn is_listed(numbers: &[u64], calls: u64) -> bool
    ensures { IsTrue result ↔ Contains numbers.now (calls + 1) }
{
    numbers
        .iter()
        .any(|number| *number > 0 && *number - 1 == calls)
}
