ghost use Rattle.std.specs.Prelude.{◌≡◌, ◌↔◌, ◌<◌, ◌^◌, ◌/◌, None, IfSome, IsSome};
ghost use Rattle.std.specs.Time.{system_time_nanos};
ghost use Rattle.sirix.specs.Millis.{millis_of};

use std::time;
use std::time::{SystemTime, UNIX_EPOCH};
use sx_outside::Clock;

/// The wall clock of the system. It tells no moment before it comes.
///
/// Where the system's clock cannot be read, or stands before 1970, this one answers what it answered last, and 0
/// at first.
#[derive(Drop)]
pub struct SystemClock<'a, R> {
    rt: &'a R,
    last: i64,
}

impl<'a, R> SystemClock<'a, R> {
    /// A clock that has answered nothing yet.
    pub fn new(rt: &'a R) -> SystemClock<'a, R> {
        SystemClock { rt, last: 0 }
    }
}

impl<R: time::Clock> Clock for SystemClock<'_, R> {
    ghost moments = { λ _. None };

    fn now(&mut self) -> i64 {
        if let Ok(now) = SystemTime::now(self.rt) {
            self.last = millis_since_1970(now).unwrap_or(self.last);
        }
        self.last
    }
}

// The whole milliseconds since the start of 1970 in UTC, where a signed number of 64 bits has them.
fn millis_since_1970(now: SystemTime) -> Option<i64>
    ensures fits { IsSome result ↔ (system_time_nanos now / 1_000_000 < 2 ^ 63) }
    ensures value { IfSome result (λ millis. millis ≡ millis_of now) }
{
    let passed = now.duration_since(UNIX_EPOCH).ok()?;
    i64::try_from(passed.as_millis()).ok()
}

#[cfg(test)]
mod tests {
    use super::*;
    use std::cell::Cell;
    use std::io;
    use std::io::ErrorKind;
    use std::test::Fail;
    use std::time::Duration;

    // A system whose clock answers these moments in turn, and cannot be asked where there is none.
    #[derive(Drop)]
    struct Turns<'a> {
        moments: &'a [Option<Duration>],
        at: Cell<usize>,
    }

    impl time::Clock for Turns<'_> {
        fn monotonic(&self) -> io::Result<Duration> {
            Err(io::Error::from(ErrorKind::Unsupported))
        }

        fn since_1970(&self) -> io::Result<Duration> {
            let at = self.at.get();
            self.at.set(at.saturating_add(1));
            match self.moments.get(at) {
                Some(Some(moment)) => Ok(*moment),
                _ => Err(io::Error::from(ErrorKind::Unsupported)),
            }
        }
    }

    #[test]
    fn it_answers_milliseconds_and_the_last_again(rt: HostRuntime) {
        let moments = [
            None,
            Some(Duration::from_millis(1_796_083_200_123)),
            None,
            Some(Duration::from_micros(1_999)),
            Some(Duration::from_secs(u64::MAX / 2)),
        ];
        let system = Turns {
            moments: &moments,
            at: Cell::new(0),
        };
        let mut clock = SystemClock::new(&system);
        for want in [0, 1_796_083_200_123, 1_796_083_200_123, 1, 1] {
            assert_eq!(rt; clock.now(), want);
        }
    }

    #[test]
    fn it_goes_with_the_system(rt: HostRuntime) -> Result<(), Fail> {
        let before = time::Clock::since_1970(&rt)?;
        let now = SystemClock::new(&rt).now();
        let after = time::Clock::since_1970(&rt)?;
        // The first of January 2026.
        assert!(rt; now > 1_767_225_600_000);
        assert!(rt; i128::from(now) * 1_000 + 1_000 > before.as_micros() as i128);
        assert!(rt; i128::from(now) * 1_000 <= after.as_micros() as i128);
        Ok(())
    }
}
