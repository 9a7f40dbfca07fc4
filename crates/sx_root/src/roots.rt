ghost use Rattle.std.specs.Prelude.{◌≡◌, ◌≤◌, ◌<◌, ◌^◌, List, ℤ, length};
ghost use Rattle.sx_root.specs.Times.{IsAtTime, NeverFall, time_of};

/// A list of revisions with their times.
pub trait Roots {
    /// The time of each revision, the first of them first.
    ghost times: { Self → List ℤ };

    /// How many revisions there are.
    fn count(&self) -> u32
        ensures { result ≡ length (times self.now) };

    /// The time of a revision, counted from 1, in milliseconds since 1970 in UTC.
    fn time(&self, revision: u32) -> i64
        requires least { 1 ≤ revision }
        requires most { revision ≤ length (times self.now) }
        ensures { result ≡ time_of (times self.now) revision };
}

/// The greatest revision whose time is at most this one, and 0 where there is none, by binary search over times that never
/// fall.
pub fn at_time<L: Roots>(list: &L, time: i64) -> u32
    requires { NeverFall (L.times list.now) }
    ensures { IsAtTime (L.times list.now) time result }
{
    let mut found = 0;
    let mut left = list.count();
    while left > 0 {
        let half = left - left / 2;
        if list.time(found + half) <= time {
            found += half;
            left -= half;
        } else {
            left = half - 1;
        }
    }
    found
}
