//! A text of a JSON document: a string's content, or a name.
ghost use Rattle.std.specs.Prelude.{◌≡◌, ◌≤◌, IfOk, IfErr, IsUtf8, length};

use crate::compact::Compact;
use std::alloc::{AllocError, Global};
use std::marker::Model;
use std::str;
use thiserror::Error;

/// The greatest number of bytes of a text.
pub const TEXT_BYTES: usize = 1_048_576;

/// Why bytes are no text.
#[derive(Clone, Copy, Debug, PartialEq, Eq, Drop, Error)]
pub enum TextFault {
    /// The bytes from this place on do not begin with a character in UTF-8.
    #[error("no UTF-8 at byte {at}")]
    NotUtf8 { at: u64 },
    /// There are more than 1,048,576 bytes, and this is how many.
    #[error("a text of {bytes} bytes is too long")]
    TooLong { bytes: u64 },
    #[error("out of memory")]
    OutOfMemory,
}

/// A text in UTF-8, of at most 1,048,576 bytes.
#[derive(Drop)]
pub struct Text {
    bytes: Compact,
}

impl Model for Text {
    ghost use Rattle.std.specs.Prelude.{List, ℕ, ◌≤◌, IsUtf8, length};

    ghost Value = { List ℕ };

    ghost view = { λ t. t.bytes };

    ghost invariant = { λ t. ∥ IsUtf8 t.bytes ∥₁ × (length t.bytes ≤ 1_048_576) };
}

impl Text {
    ghost use Rattle.sx_tree.specs.TextFault.{ExplainsText};

    /// The text of these bytes.
    ///
    /// # Errors
    ///
    /// `NotUtf8` at the first place where the bytes are no UTF-8, as `std::str::from_utf8` tells it;
    /// then `TooLong` above 1,048,576 bytes; then `OutOfMemory`.
    pub fn new(alloc: Global, bytes: &[u8]) -> Result<Text, TextFault>
        ensures same { IfOk result (λ text. text ≡ bytes.now) }
        ensures utf8 { IfOk result (λ _. IsUtf8 bytes.now) }
        ensures short { IfOk result (λ _. length bytes.now ≤ 1_048_576) }
        ensures fault { IfErr result (ExplainsText bytes.now) }
    {
        if let Err(error) = str::from_utf8(bytes) {
            return Err(TextFault::NotUtf8 {
                at: error.valid_up_to() as u64,
            });
        }
        if bytes.len() > TEXT_BYTES {
            return Err(TextFault::TooLong {
                bytes: bytes.len() as u64,
            });
        }
        match Compact::new(alloc, bytes) {
            Ok(bytes) => Ok(Text { bytes }),
            Err(_) => Err(TextFault::OutOfMemory),
        }
    }

    /// The text of these bytes, which are in UTF-8 and no more than 1,048,576.
    pub fn of_utf8(alloc: Global, bytes: &[u8]) -> Result<Text, AllocError>
        requires utf8 { IsUtf8 bytes.now }
        requires short { length bytes.now ≤ 1_048_576 }
        ensures { IfOk result (λ text. text ≡ bytes.now) }
    {
        let bytes = Compact::new(alloc, bytes)?;
        Ok(Text { bytes })
    }

    /// The text.
    pub fn as_str(&self) -> &str
        ensures same { result.now ≡ self.now }
        ensures utf8 { IsUtf8 self.now }
        ensures short { length self.now ≤ 1_048_576 }
    {
        unsafe { str::from_utf8_unchecked(self.bytes.as_slice()) }
    }

    /// The bytes of the text.
    pub fn as_bytes(&self) -> &[u8]
        ensures same { result.now ≡ self.now }
        ensures utf8 { IsUtf8 self.now }
        ensures short { length self.now ≤ 1_048_576 }
    {
        self.bytes.as_slice()
    }

    /// An equal text.
    pub fn copy(&self, alloc: Global) -> Result<Text, AllocError>
        ensures { IfOk result (λ text. text ≡ self.now) }
    {
        let bytes = Compact::new(alloc, self.bytes.as_slice())?;
        Ok(Text { bytes })
    }
}
