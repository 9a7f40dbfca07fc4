ghost use Rattle.std.specs.Prelude.{◌≡◌, ◌<◌, length, Some, vec_len};
ghost use Rattle.sx_outside.specs.Clock.{Ticks};

use crate::Clock;
use std::marker::Model;

/// A clock that answers the moments of a list in turn, and the last one again and again.
#[derive(Drop)]
pub struct ListClock {
    moments: Vec<i64>,
    at: usize,
}

impl Model for ListClock {
    ghost use Rattle.std.specs.Prelude.{◌<◌, List, ℤ, drop, vec_len};

    ghost Value = { List ℤ };

    ghost view = { λ c. drop c.at c.moments.items };

    ghost invariant = { λ c. c.at < vec_len c.moments };
}

impl ListClock {
    /// Makes a clock of these moments, at least one, in milliseconds since the start of 1970 in UTC.
    pub fn new(moments: Vec<i64>) -> ListClock
        requires { 0 < vec_len moments }
        ensures { result ≡ moments.items }
    {
        ListClock { moments, at: 0 }
    }
}

impl Clock for ListClock {
    ghost moments = { λ clock. Some clock };

    fn now(&mut self) -> i64
        ensures { Ticks (Some self.old) result (Some self.new) }
    {
        let now = self.moments[self.at];
        if self.at + 1 < self.moments.len() {
            self.at += 1;
        }
        now
    }
}
