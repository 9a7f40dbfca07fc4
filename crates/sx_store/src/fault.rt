use std::alloc::AllocError;
use sx_bytes::Damage;
use sx_edit::EditFault;
use sx_tree::edit::EditRefusal;
use sx_view::Fault;
use thiserror::Error;

/// Why an edit was not taken. It changed nothing.
#[derive(Clone, Copy, Debug, PartialEq, Eq, Drop, Error)]
pub enum WriterFault {
    /// An earlier commit of this writer failed in this stage.
    #[error("the writer stopped when a commit failed in stage {stage}")]
    Stopped { stage: u8 },
    #[error("{0}")]
    Refused(EditRefusal),
    /// A read of the writer's end failed.
    #[error("a read failed")]
    Failed,
    /// The last revision stands for no document.
    #[error("the volume is damaged")]
    Damaged(Damage),
    #[error("out of memory")]
    OutOfMemory,
}

impl From<AllocError> for WriterFault {
    ghost use Rattle.std.specs.Prelude.{◌≡◌};
    ghost use Rattle.sx_store.specs.declared.fault.WriterFault.TheVariants.{OutOfMemory};

    ghost from_gives = { λ _ e. e ≡ OutOfMemory };

    fn from(_: AllocError) -> Self {
        WriterFault::OutOfMemory
    }
}

impl From<Fault> for WriterFault {
    ghost use Rattle.std.specs.Prelude.{◌≡◌};
    ghost use Rattle.sx_store.specs.Faults.{writer_fault};

    ghost from_gives = { λ fault e. e ≡ writer_fault fault };

    fn from(fault: Fault) -> Self {
        match fault {
            Fault::Failed => WriterFault::Failed,
            Fault::Damaged(damage) => WriterFault::Damaged(damage),
            Fault::OutOfMemory => WriterFault::OutOfMemory,
        }
    }
}

impl From<EditFault> for WriterFault {
    ghost use Rattle.std.specs.Prelude.{◌≡◌};
    ghost use Rattle.sx_store.specs.Faults.{fault_of_edit};

    ghost from_gives = { λ fault e. e ≡ fault_of_edit fault };

    fn from(fault: EditFault) -> Self {
        match fault {
            EditFault::Refused(refusal) => WriterFault::Refused(refusal),
            EditFault::Failed => WriterFault::Failed,
            EditFault::Damaged(damage) => WriterFault::Damaged(damage),
            EditFault::OutOfMemory => WriterFault::OutOfMemory,
        }
    }
}

/// Why a commit was not accepted. After each but `Failed` the open edits stand as they did.
#[derive(Clone, Copy, Debug, PartialEq, Eq, Drop, Error)]
pub enum CommitFault {
    /// An earlier commit of this writer failed in this stage.
    #[error("the writer stopped when a commit failed in stage {stage}")]
    Stopped { stage: u8 },
    /// A read of the writer's end failed.
    #[error("a read failed")]
    ReadFailed,
    /// The last revision, or the draft with the open edits, is that of no document.
    #[error("the volume is damaged")]
    Damaged(Damage),
    /// The log has so many frames and so many revisions, and no room for more.
    #[error("the log has {frames} frames and {revisions} revisions, and no room for more")]
    LogFull { frames: u32, revisions: u32 },
    /// The commit would have so many bytes, which is more than 268,435,456.
    #[error("the commit would have {bytes} bytes")]
    CommitTooLarge { bytes: u64 },
    #[error("out of memory")]
    OutOfMemory,
    /// The volume failed: in stage 1 before the commit's gate was touched, in stage 2 at the gate. The open edits are
    /// dropped, and the writer has stopped.
    #[error("the volume failed in stage {stage} of a commit")]
    Failed { stage: u8 },
}

impl From<AllocError> for CommitFault {
    ghost use Rattle.std.specs.Prelude.{◌≡◌};
    ghost use Rattle.sx_store.specs.declared.fault.CommitFault.TheVariants.{OutOfMemory};

    ghost from_gives = { λ _ e. e ≡ OutOfMemory };

    fn from(_: AllocError) -> Self {
        CommitFault::OutOfMemory
    }
}

impl From<Fault> for CommitFault {
    ghost use Rattle.std.specs.Prelude.{◌≡◌};
    ghost use Rattle.sx_store.specs.Faults.{commit_fault};

    ghost from_gives = { λ fault e. e ≡ commit_fault fault };

    fn from(fault: Fault) -> Self {
        match fault {
            Fault::Failed => CommitFault::ReadFailed,
            Fault::Damaged(damage) => CommitFault::Damaged(damage),
            Fault::OutOfMemory => CommitFault::OutOfMemory,
        }
    }
}

/// A commit that was accepted.
#[derive(Clone, Copy, Debug, PartialEq, Eq)]
pub struct Committed {
    /// The number of the revision, from 1.
    pub revision: u32,
    /// In milliseconds since the start of 1970 in UTC: the clock's moment, or the last commit's time where that is greater.
    pub time: i64,
}
