ghost use Rattle.std.specs.Prelude.{◌≡◌, [], ◌∷◌, Some};
ghost use Rattle.sx_outside.specs.Clock.{Ticks};

use crate::Clock;

/// A clock that stands still.
#[derive(Clone, Copy, Debug, PartialEq, Eq)]
pub struct StillClock {
    /// What it always answers, in milliseconds since the start of 1970 in UTC.
    pub moment: i64,
}

impl Clock for StillClock {
    ghost moments = { λ clock. Some (clock.moment ∷ []) };

    fn now(&mut self) -> i64
        ensures ticks { Ticks (Some (self.old.moment ∷ [])) result (Some (self.new.moment ∷ [])) }
        ensures moment { result ≡ self.old.moment }
        ensures stands { self.new ≡ self.old }
    {
        self.moment
    }
}
