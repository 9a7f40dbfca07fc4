//! How many paths there may be.
ghost use Rattle.std.specs.Prelude.{◌↔◌, ◌+◌, ◌≤◌, IsTrue};

/// Whether there is room for so many paths more.
///
/// The number of a path is at most 1,073,741,823.
pub fn room(count: u32, more: u32) -> bool
    ensures { IsTrue result ↔ (count + more ≤ 1_073_741_823) }
{
    u64::from(count) + u64::from(more) <= 1_073_741_823
}
