//! Why an edit is not done.
use std::alloc::AllocError;
use sx_bytes::Damage;
use sx_tree::edit::EditRefusal;
use sx_view::Fault;
use thiserror::Error;

/// Why an edit is not done. It changes nothing then.
#[derive(Clone, Copy, Debug, PartialEq, Eq, Error)]
pub enum EditFault {
    /// The document does not allow the edit.
    #[error("the edit is refused")]
    Refused(EditRefusal),
    /// A call of the object below failed.
    #[error("a read failed")]
    Failed,
    /// What was read is damaged.
    #[error("the volume is damaged")]
    Damaged(Damage),
    #[error("out of memory")]
    OutOfMemory,
}

impl From<AllocError> for EditFault {
    ghost use Rattle.std.specs.Prelude.{◌≡◌};
    ghost use Rattle.sx_edit.specs.declared.fault.EditFault.TheVariants.{OutOfMemory};

    ghost from_gives = { λ _ e. e ≡ OutOfMemory };

    fn from(_: AllocError) -> Self {
        EditFault::OutOfMemory
    }
}

impl From<Fault> for EditFault {
    ghost use Rattle.std.specs.Prelude.{◌≡◌};
    ghost use Rattle.sx_edit.specs.EditFault.{edit_fault};

    ghost from_gives = { λ fault e. e ≡ edit_fault fault };

    fn from(fault: Fault) -> Self {
        match fault {
            Fault::Failed => EditFault::Failed,
            Fault::Damaged(damage) => EditFault::Damaged(damage),
            Fault::OutOfMemory => EditFault::OutOfMemory,
        }
    }
}
