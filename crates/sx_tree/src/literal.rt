//! The text of a JSON number.
ghost use Rattle.std.specs.Prelude.{◌≡◌, ◌≤◌, IfOk, IfErr, length};
ghost use Rattle.sx_tree.specs.Number.{IsNumber};

use crate::compact::Compact;
use crate::number::number_front;
use crate::text::{Text, TextFault};
use std::alloc::{AllocError, Global};
use std::marker::Model;
use thiserror::Error;

/// The greatest number of bytes of a literal.
pub const LITERAL_BYTES: usize = 64;

/// Why bytes are no literal.
#[derive(Clone, Copy, Debug, PartialEq, Eq, Drop, Error)]
pub enum LiteralFault {
    /// There are more than 64 bytes, and this is how many.
    #[error("a number of {bytes} bytes is too long")]
    TooLong { bytes: u64 },
    /// No number goes on with the byte at this place, or it ended too soon, at the length.
    #[error("no number goes on at byte {at}")]
    Bad { at: u64 },
    #[error("out of memory")]
    OutOfMemory,
}

/// The text of a number of RFC 8259 section 6, of at most 64 bytes, kept as it was written.
#[derive(Drop)]
pub struct Literal {
    bytes: Compact,
}

impl Model for Literal {
    ghost use Rattle.std.specs.Prelude.{List, ℕ, ◌≤◌, length};
    ghost use Rattle.sx_tree.specs.Number.{IsNumber};

    ghost Value = { List ℕ };

    ghost view = { λ l. l.bytes };

    ghost invariant = { λ l. ∥ IsNumber l.bytes ∥₁ × (length l.bytes ≤ 64) };
}

impl Literal {
    ghost use Rattle.sx_tree.specs.LiteralFault.{ExplainsLiteral};

    /// The literal of these bytes.
    ///
    /// # Errors
    ///
    /// `TooLong` above 64 bytes; then `Bad` at the first byte with which no number goes on, which is
    /// the length where the number ended too soon; then `OutOfMemory`.
    pub fn new(alloc: Global, bytes: &[u8]) -> Result<Literal, LiteralFault>
        ensures same { IfOk result (λ literal. literal ≡ bytes.now) }
        ensures number { IfOk result (λ _. IsNumber bytes.now) }
        ensures short { IfOk result (λ _. length bytes.now ≤ 64) }
        ensures fault { IfErr result (ExplainsLiteral bytes.now) }
    {
        if bytes.len() > LITERAL_BYTES {
            return Err(LiteralFault::TooLong {
                bytes: bytes.len() as u64,
            });
        }
        let front = number_front(bytes);
        if front.len < bytes.len() || !front.is_number {
            return Err(LiteralFault::Bad {
                at: front.len as u64,
            });
        }
        match Compact::new(alloc, bytes) {
            Ok(bytes) => Ok(Literal { bytes }),
            Err(_) => Err(LiteralFault::OutOfMemory),
        }
    }

    /// The literal of these bytes, which are a number and no more than 64.
    pub fn of_number(alloc: Global, bytes: &[u8]) -> Result<Literal, AllocError>
        requires number { IsNumber bytes.now }
        requires short { length bytes.now ≤ 64 }
        ensures { IfOk result (λ literal. literal ≡ bytes.now) }
    {
        let bytes = Compact::new(alloc, bytes)?;
        Ok(Literal { bytes })
    }

    /// The bytes of the number.
    pub fn as_bytes(&self) -> &[u8]
        ensures same { result.now ≡ self.now }
        ensures number { ∥ IsNumber self.now ∥₁ }
        ensures short { length self.now ≤ 64 }
    {
        self.bytes.as_slice()
    }

    /// The literal as a text.
    pub fn to_text(&self, alloc: Global) -> Result<Text, AllocError>
        ensures { IfOk result (λ text. text ≡ self.now) }
    {
        match Text::new(alloc, self.as_bytes()) {
            Ok(text) => Ok(text),
            Err(TextFault::OutOfMemory) => Err(AllocError),
            Err(TextFault::NotUtf8 { .. }) => unreachable!(),
            Err(TextFault::TooLong { .. }) => unreachable!(),
        }
    }

    /// An equal literal.
    pub fn copy(&self, alloc: Global) -> Result<Literal, AllocError>
        ensures { IfOk result (λ literal. literal ≡ self.now) }
    {
        let bytes = Compact::new(alloc, self.bytes.as_slice())?;
        Ok(Literal { bytes })
    }
}
