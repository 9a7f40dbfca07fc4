//! Bytes that take little room where they are few.
ghost use Rattle.std.specs.Prelude.{◌≡◌, ◌≤◌, IfOk, length, take};

use std::alloc::{AllocError, Global};
use std::marker::Model;

/// The greatest number of bytes that need no memory of their own.
const SHORT_BYTES: usize = 14;

/// Bytes, in place where there are at most 14, else on the heap.
#[derive(Drop)]
enum Kept {
    /// The first `len` of the bytes.
    Short { len: u8, bytes: [u8; SHORT_BYTES] },
    Long(Box<Vec<u8>>),
}

/// Bytes that are written once.
pub(crate) struct Compact {
    kept: Kept,
}

// One call wherever bytes are let go, for the short and the long alike.
impl Drop for Compact {
    fn drop(self) {
        let Compact { kept: _ } = self;
    }
}

impl Model for Compact {
    ghost use Rattle.std.specs.Prelude.{List, ℕ};
    ghost use Rattle.sx_tree.specs.Compact.{kept_bytes, IsKept};

    ghost Value = { List ℕ };

    ghost view = { λ c. kept_bytes c.kept };

    ghost invariant = { λ c. IsKept c.kept };
}

impl Compact {
    /// These bytes.
    pub(crate) fn new(alloc: Global, bytes: &[u8]) -> Result<Compact, AllocError>
        ensures { IfOk result (λ compact. compact ≡ bytes.now) }
    {
        if bytes.len() <= SHORT_BYTES {
            return Ok(Compact::short(bytes));
        }
        let long = Box::new(alloc, bytes.to_vec(alloc)?)?;
        Ok(Compact {
            kept: Kept::Long(long),
        })
    }

    /// These few bytes.
    fn short(few: &[u8]) -> Compact
        requires { length few.now ≤ 14 }
        ensures { result ≡ few.now }
    {
        let mut bytes = [0; SHORT_BYTES];
        bytes[..few.len()].copy_from_slice(few);
        Compact {
            kept: Kept::Short {
                len: few.len() as u8,
                bytes,
            },
        }
    }

    pub(crate) fn as_slice(&self) -> &[u8]
        ensures { result.now ≡ self.now }
    {
        match &self.kept {
            Kept::Short { len, bytes } => &bytes[..*len as usize],
            Kept::Long(bytes) => bytes.as_slice(),
        }
    }
}
