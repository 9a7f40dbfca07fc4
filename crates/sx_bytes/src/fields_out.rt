ghost use Rattle.std.specs.Prelude.{◌≡◌, ◌↔◌, ◌++◌, [], ◌∷◌, IsTrue, OnOk, OnErr, length, take};
ghost use Rattle.std.specs.Int.{w32, w64, w128, to_be_bytes};

use std::alloc::{AllocError, Global};
use std::marker::Model;

/// Bytes that grow at the end by fields. In contracts it is the list of the bytes.
///
/// A field is appended whole, or where memory runs out not at all.
#[derive(Drop)]
pub struct FieldsOut {
    bytes: Vec<u8>,
}

impl Model for FieldsOut {
    ghost use Rattle.std.specs.Prelude.{List, ℕ};

    ghost Value = { List ℕ };

    ghost view = { λ out. out.bytes.items };
}

impl FieldsOut {
    /// No bytes yet. What is appended takes its memory from the allocator.
    pub fn new(alloc: Global) -> FieldsOut
        ensures { result ≡ [] }
    {
        FieldsOut {
            bytes: Vec::new(alloc),
        }
    }

    /// How many bytes there are.
    pub fn len(&self) -> usize
        ensures { result ≡ length self.now }
    {
        self.bytes.len()
    }

    pub fn is_empty(&self) -> bool
        ensures { IsTrue result ↔ (self.now ≡ []) }
    {
        self.bytes.is_empty()
    }

    /// Takes the bytes from this place on away again.
    pub fn truncate(&mut self, len: usize)
        ensures { self.new ≡ take len self.old }
    {
        self.bytes.truncate(len);
    }

    /// Appends one byte.
    pub fn u8(&mut self, x: u8) -> Result<(), AllocError>
        ensures ok { OnOk result (self.new ≡ self.old ++ x ∷ []) }
        ensures err { OnErr result (self.new ≡ self.old) }
    {
        self.bytes.push(x)?;
        Ok(())
    }

    /// Appends the number in 4 bytes, the highest first.
    pub fn u32(&mut self, x: u32) -> Result<(), AllocError>
        ensures ok { OnOk result (self.new ≡ self.old ++ to_be_bytes w32 x) }
        ensures err { OnErr result (self.new ≡ self.old) }
    {
        self.bytes.extend_from_slice(&x.to_be_bytes())
    }

    /// Appends the number in 8 bytes, the highest first.
    pub fn u64(&mut self, x: u64) -> Result<(), AllocError>
        ensures ok { OnOk result (self.new ≡ self.old ++ to_be_bytes w64 x) }
        ensures err { OnErr result (self.new ≡ self.old) }
    {
        self.bytes.extend_from_slice(&x.to_be_bytes())
    }

    /// Appends the number in 16 bytes, the highest first.
    pub fn u128(&mut self, x: u128) -> Result<(), AllocError>
        ensures ok { OnOk result (self.new ≡ self.old ++ to_be_bytes w128 x) }
        ensures err { OnErr result (self.new ≡ self.old) }
    {
        self.bytes.extend_from_slice(&x.to_be_bytes())
    }

    /// Appends the bytes.
    pub fn bytes(&mut self, x: &[u8]) -> Result<(), AllocError>
        ensures ok { OnOk result (self.new ≡ self.old ++ x.now) }
        ensures err { OnErr result (self.new ≡ self.old) }
    {
        self.bytes.extend_from_slice(x)
    }

    /// The bytes.
    pub fn into_vec(self) -> Vec<u8>
        ensures { result.items ≡ self }
    {
        self.bytes
    }
}
