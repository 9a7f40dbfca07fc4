ghost use Rattle.std.specs.Prelude.{List, Option, ℤ};
ghost use Rattle.sx_outside.specs.Clock.{Ticks};

/// Tells the time. It cannot fail.
pub trait Clock {
    /// The moments to come, where the clock tells them: at least one.
    ghost moments: { Self → Option (List ℤ) };

    /// The milliseconds since the start of 1970 in UTC, negative before it.
    fn now(&mut self) -> i64
        ensures { Ticks (moments self.old) result (moments self.new) };
}
