ghost use Rattle.std.specs.Prelude.{◌≡◌, ◌<◌, ◌^◌, Some, length, IfOk};

use crate::Spot;
use std::alloc::{AllocError, Global};
use std::marker::Model;

/// A range of a volume in memory. It has its bytes by itself, so later writes to the volume do not change them.
#[derive(Drop)]
pub struct MemSpot {
    bytes: Vec<u8>,
}

impl Model for MemSpot {
    ghost use Rattle.std.specs.Prelude.{◌<◌, ◌^◌, List, ℕ, vec_len};

    ghost Value = { List ℕ };

    ghost view = { λ spot. spot.bytes.items };

    ghost invariant = { λ spot. vec_len spot.bytes < 2 ^ 32 };
}

impl MemSpot {
    /// A spot with a copy of these bytes. Errors: `AllocError` where memory runs out.
    pub fn new(alloc: Global, bytes: &[u8]) -> Result<MemSpot, AllocError>
        requires { length bytes.now < 2 ^ 32 }
        ensures { IfOk result (λ spot. spot ≡ bytes.now) }
    {
        Ok(MemSpot {
            bytes: bytes.to_vec(alloc)?,
        })
    }

    /// The bytes of the range.
    pub fn as_slice(&self) -> &[u8]
        ensures { result.now ≡ self.now }
    {
        &self.bytes
    }
}

impl Spot for MemSpot {
    ghost count = { λ spot. length spot };

    ghost content = { λ spot. Some spot };

    fn bytes(&self) -> u32 {
        self.bytes.len() as u32
    }
}
