use std::alloc::AllocError;
use sx_bytes::Damage;
use thiserror::Error;

/// Why a frame was not opened.
#[derive(Clone, Copy, Debug, PartialEq, Eq, Error)]
pub enum FrameFault {
    /// The frame breaks a rule.
    #[error("damaged at {}, rule {}", .0.place, .0.rule)]
    Damaged(Damage),
    #[error("out of memory")]
    OutOfMemory,
}

impl From<AllocError> for FrameFault {
    ghost use Rattle.std.specs.Prelude.{◌≡◌};
    ghost use Rattle.sx_frame.specs.declared.fault.FrameFault.TheVariants.{OutOfMemory};

    ghost from_gives = { λ _ e. e ≡ OutOfMemory };

    fn from(_: AllocError) -> Self {
        FrameFault::OutOfMemory
    }
}
