//! How a run ends.
ghost use Rattle.std.specs.Prelude.{◌≡◌};
ghost use Rattle.sx_shell.specs.Code as code;

use sx_bytes::Damage;
use sx_store::LogFault;

/// How a run ended.
#[derive(Clone, Copy, Debug, PartialEq, Eq)]
pub enum Status {
    /// The input was read to its end.
    Done,
    /// The words are no command.
    Usage,
    /// The source failed.
    ReadFault,
    /// The sink failed.
    WriteFault,
    /// The volume failed, at opening or in a commit.
    VolumeFault,
    /// The volume breaks a rule.
    Damaged(Damage),
    /// The volume is neither born nor unborn, and this is its first byte.
    NotOurs { first: u8 },
    /// The volume has no birth part yet.
    Unborn,
    /// The volume has a birth part already.
    Born,
    /// A revision was asked for that is not there: so many are.
    Missing { asked: u32, seen: u32 },
    /// Memory ran out.
    OutOfMemory,
}

impl Status {
    ghost use Rattle.std.specs.Prelude.{◌≡◌};
    ghost use Rattle.sx_shell.specs.Code.{code_of};

    /// The exit status of the program.
    pub fn code(self) -> u8
        ensures { result ≡ code_of self }
    {
        match self {
            Status::Done => 0,
            Status::Usage => 2,
            Status::ReadFault => 10,
            Status::WriteFault => 11,
            Status::VolumeFault => 12,
            Status::Damaged(_) => 13,
            Status::NotOurs { .. } => 15,
            Status::Unborn => 16,
            Status::Born => 17,
            Status::Missing { .. } => 18,
            Status::OutOfMemory => 20,
        }
    }
}

/// How a call ends that meets this fault of a volume.
pub(crate) fn status_of(fault: LogFault) -> Status
    ensures { result ≡ code.status_of fault }
{
    match fault {
        LogFault::Failed => Status::VolumeFault,
        LogFault::NotOurs { first } => Status::NotOurs { first },
        LogFault::Unborn => Status::Unborn,
        LogFault::Born => Status::Born,
        LogFault::Damaged(damage) => Status::Damaged(damage),
        LogFault::OutOfMemory => Status::OutOfMemory,
    }
}
