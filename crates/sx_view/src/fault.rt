//! Why a reading failed.
use std::alloc::AllocError;
use sx_bytes::Damage;
use thiserror::Error;

/// Why records could not be read.
#[derive(Clone, Copy, Debug, PartialEq, Eq, Error)]
pub enum Fault {
    /// A call of the object below failed.
    #[error("a read failed")]
    Failed,
    /// What was read is damaged.
    #[error("the volume is damaged")]
    Damaged(Damage),
    #[error("out of memory")]
    OutOfMemory,
}

impl From<AllocError> for Fault {
    ghost use Rattle.std.specs.Prelude.{◌≡◌};
    ghost use Rattle.sx_view.specs.declared.fault.Fault.TheVariants.{OutOfMemory};

    ghost from_gives = { λ _ e. e ≡ OutOfMemory };

    fn from(_: AllocError) -> Self {
        Fault::OutOfMemory
    }
}

/// Why a question has no answer.
#[derive(Clone, Copy, Debug, PartialEq, Eq, Error)]
pub enum QueryFault {
    /// There is no such revision: the one that was asked for, and the last one that was seen.
    #[error("revision {asked} is not there, the last is {seen}")]
    Missing { asked: u32, seen: u32 },
    /// There is no such node.
    #[error("node {node} is not there")]
    NoNode { node: u32 },
    /// There is no such path.
    #[error("path {path} is not there")]
    NoPath { path: u32 },
    /// A call of the object below failed.
    #[error("a read failed")]
    Failed,
    /// What was read is damaged.
    #[error("the volume is damaged")]
    Damaged(Damage),
    #[error("out of memory")]
    OutOfMemory,
}

impl From<AllocError> for QueryFault {
    ghost use Rattle.std.specs.Prelude.{◌≡◌};
    ghost use Rattle.sx_view.specs.declared.fault.QueryFault.TheVariants.{OutOfMemory};

    ghost from_gives = { λ _ e. e ≡ OutOfMemory };

    fn from(_: AllocError) -> Self {
        QueryFault::OutOfMemory
    }
}

impl From<Fault> for QueryFault {
    ghost use Rattle.std.specs.Prelude.{◌≡◌};
    ghost use Rattle.sx_view.specs.QueryFault.{query_fault};

    ghost from_gives = { λ fault e. e ≡ query_fault fault };

    fn from(fault: Fault) -> Self {
        match fault {
            Fault::Failed => QueryFault::Failed,
            Fault::Damaged(damage) => QueryFault::Damaged(damage),
            Fault::OutOfMemory => QueryFault::OutOfMemory,
        }
    }
}
