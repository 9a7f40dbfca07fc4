use std::alloc::{AllocError, AllocFailed};
use sx_bytes::Damage;
use sx_outside::Failed;
use thiserror::Error;

/// Why a volume was not made or opened.
#[derive(Clone, Copy, Debug, PartialEq, Eq, Error)]
pub enum LogFault {
    /// A call of the volume failed.
    #[error("the volume failed")]
    Failed,
    /// The volume is neither born nor unborn, and this is its first byte.
    #[error("not a volume of this program, first byte {first}")]
    NotOurs { first: u8 },
    /// There is no birth part yet.
    #[error("the volume is not born")]
    Unborn,
    /// There is a birth part already.
    #[error("the volume is born already")]
    Born,
    /// The birth part or a group breaks a rule.
    #[error("damaged at {}, rule {}", .0.place, .0.rule)]
    Damaged(Damage),
    #[error("out of memory")]
    OutOfMemory,
}

impl From<Failed> for LogFault {
    ghost use Rattle.std.specs.Prelude.{◌≡◌};
    ghost use Rattle.sx_log.specs.declared.fault.LogFault.TheVariants.{Failed};

    ghost from_gives = { λ _ e. e ≡ Failed };

    fn from(_: Failed) -> Self {
        LogFault::Failed
    }
}

impl From<AllocError> for LogFault {
    ghost use Rattle.std.specs.Prelude.{◌≡◌};
    ghost use Rattle.sx_log.specs.declared.fault.LogFault.TheVariants.{OutOfMemory};

    ghost from_gives = { λ _ e. e ≡ OutOfMemory };

    fn from(_: AllocError) -> Self {
        LogFault::OutOfMemory
    }
}

impl<T: Drop> From<AllocFailed<T>> for LogFault {
    ghost use Rattle.std.specs.Prelude.{◌≡◌};
    ghost use Rattle.sx_log.specs.declared.fault.LogFault.TheVariants.{OutOfMemory};

    ghost from_gives = { λ _ e. e ≡ OutOfMemory };

    fn from(_: AllocFailed<T>) -> Self {
        LogFault::OutOfMemory
    }
}

/// Why a commit has no room.
#[derive(Clone, Copy, Debug, PartialEq, Eq, Error)]
pub enum RoomFault {
    /// There would be more than 16,777,216 frames or revisions. These are the numbers so far.
    #[error("the log is full, with {frames} frames and {revisions} revisions")]
    LogFull { frames: u32, revisions: u32 },
    /// The group would have more than 268,435,456 bytes. These are the bytes that it would have.
    #[error("a commit of {bytes} bytes is too large")]
    CommitTooLarge { bytes: u64 },
}
