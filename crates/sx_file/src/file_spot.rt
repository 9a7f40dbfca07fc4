ghost use Rattle.std.specs.Prelude.{None};

use sx_volume::Spot;

/// A range of a real file that was written, by its place and length. It does not tell its bytes.
#[derive(Clone, Copy, Debug, PartialEq, Eq)]
pub struct FileSpot {
    /// The place of the first byte.
    pub at: u64,
    /// How many bytes the range has.
    pub count: u32,
}

impl Spot for FileSpot {
    ghost count = { λ spot. spot.count };

    ghost content = { λ _. None };

    fn bytes(&self) -> u32 {
        self.count
    }
}
