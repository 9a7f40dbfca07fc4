//! Why a body could not be read or written.
ghost use Rattle.std.specs.Prelude.{◌≡◌};
ghost use Rattle.sx_whole.specs.Broken.{broken_length, broken_record};

use std::alloc::AllocError;
use sx_bytes::{Damage, Fields, number_damage};
use thiserror::Error;

/// The rule that a record stands where one is asked for, and that the numbers of the nodes ascend below 2^30.
pub const BROKEN_RECORD: u8 = 20;

/// The rule that there are as many bytes as the numbers and records take.
pub const BROKEN_LENGTH: u8 = 21;

/// Why a body could not be read.
#[derive(Clone, Copy, Debug, PartialEq, Eq, Error)]
pub enum WholeFault {
    /// The bytes are the body of no document: the first rule that they break.
    #[error("damaged at {}, rule {}", .0.place, .0.rule)]
    Damaged(Damage),
    #[error("out of memory")]
    OutOfMemory,
}

impl From<AllocError> for WholeFault {
    ghost use Rattle.std.specs.Prelude.{◌≡◌};
    ghost use Rattle.sx_whole.specs.declared.fault.WholeFault.TheVariants.{OutOfMemory};

    ghost from_gives = { λ _ e. e ≡ OutOfMemory };

    fn from(_: AllocError) -> Self {
        WholeFault::OutOfMemory
    }
}

/// Why a body could not be written.
#[derive(Clone, Copy, Debug, PartialEq, Eq, Error)]
pub enum WriteFault {
    /// There are 2^32 nodes, whose number takes more than 4 bytes.
    #[error("too many nodes")]
    TooMany,
    #[error("out of memory")]
    OutOfMemory,
}

impl From<AllocError> for WriteFault {
    ghost use Rattle.std.specs.Prelude.{◌≡◌};
    ghost use Rattle.sx_whole.specs.declared.fault.WriteFault.TheVariants.{OutOfMemory};

    ghost from_gives = { λ _ e. e ≡ OutOfMemory };

    fn from(_: AllocError) -> Self {
        WriteFault::OutOfMemory
    }
}

/// What is told of a node or a path of this number, for which no record stands.
pub(crate) fn broken_record(place: u64, number: u32) -> WholeFault
    ensures { result ≡ WholeFault.Damaged (broken_record place number) }
{
    WholeFault::Damaged(number_damage(place, BROKEN_RECORD, 0, u64::from(number)))
}

/// What is told where too few or too many bytes are left.
pub(crate) fn broken_length(place: u64, fields: &Fields) -> WholeFault
    ensures { result ≡ WholeFault.Damaged (broken_length place fields.now) }
{
    WholeFault::Damaged(number_damage(place, BROKEN_LENGTH, 0, fields.left() as u64))
}
