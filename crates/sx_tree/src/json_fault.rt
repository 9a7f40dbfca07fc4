//! Why bytes are no JSON text within the limits.
ghost use Rattle.std.specs.Prelude.{◌≡◌};
ghost use Rattle.sx_tree.specs.declared.json_fault.JsonFault.TheVariants.{OutOfMemory};

use std::alloc::AllocError;
use thiserror::Error;

/// Why bytes are no JSON text (RFC 8259), or one past the limits.
#[derive(Clone, Copy, Debug, PartialEq, Eq, Drop, Error)]
pub enum JsonFault {
    /// No text goes on with the byte at this place.
    #[error("no text goes on at byte {at}")]
    BadByte { at: u64 },
    /// More than 256 arrays and objects stand around the bracket at this place, with its own.
    #[error("nested too deep at byte {at}")]
    TooDeep { at: u64 },
    /// The name whose opening quote stands at this place is there before in its object.
    #[error("the name at byte {at} is there before")]
    DuplicateName { at: u64 },
    /// The surrogate escape whose backslash stands at this place is no part of a pair.
    #[error("a lone surrogate at byte {at}")]
    LoneSurrogate { at: u64 },
    /// The number that begins at this place has more than 64 bytes.
    #[error("the number at byte {at} is too long")]
    NumberTooLong { at: u64 },
    /// The string whose opening quote stands at this place stands for more than 1,048,576 bytes.
    #[error("the string at byte {at} is too long")]
    StringTooLong { at: u64 },
    /// The text ends where no value ended.
    #[error("the text ends too soon")]
    Ended,
    #[error("out of memory")]
    OutOfMemory,
}

impl From<AllocError> for JsonFault {
    ghost from_gives = { λ _ e. e ≡ OutOfMemory };

    fn from(_error: AllocError) -> JsonFault {
        JsonFault::OutOfMemory
    }
}
