ghost use Rattle.std.specs.Prelude.{◌↔◌, ◌+◌, IsTrue, Contains};

// Whether the call after so many calls is listed, where the numbers count from 1.
pub fn is_listed(numbers: &[u64], calls: u64) -> bool
    ensures { IsTrue result ↔ Contains numbers.now (calls + 1) }
{
    numbers
        .iter()
        .any(|number| *number > 0 && *number - 1 == calls)
}
