//! What is kept in memory of a volume's log.
ghost use Rattle.std.specs.Prelude.{◌+◌, ◌^◌, ◌<◌};

use crate::Birth;
use sx_frame::FrameList;
use sx_root::RevisionRoot;

/// What is kept in memory of a group.
#[derive(Drop)]
pub struct GroupRow {
    /// The head of the revision.
    pub root: RevisionRoot,
    /// Where the group begins, in bytes from the start of the volume.
    pub place: u64,
    /// Of each frame the length and the digest.
    pub table: FrameList,
}

/// A list of groups, the first revision first.
#[derive(Drop)]
pub struct Groups {
    pub(crate) rows: Vec<GroupRow>,
}

/// The group that comes next: none, or one that the volume holds, or one that stands behind the closed gate.
#[derive(Drop)]
pub(crate) enum Pending {
    Nothing,
    Held(GroupRow),
    Staged(GroupRow),
}

/// The log of a volume: its birth, its groups, and where the closed gate behind them is.
#[derive(Drop)]
pub struct Log {
    pub birth: Birth,
    pub groups: Groups,
    /// The place of the closed gate, in bytes from the start of the volume. The place behind it fits 64 bits too.
    pub end: u64,
    pub(crate) pending: Pending,
    ghost end_fits: { end + 1 < 2 ^ 64 },
}

impl Groups {
    ghost use Rattle.std.specs.Prelude.{◌≡◌};
    ghost use Rattle.sx_log.specs.Kept.{listed};

    /// The groups, one a revision from 1 on.
    pub fn as_slice(&self) -> &[GroupRow]
        ensures { result.now ≡ listed self.now }
    {
        self.rows.as_slice()
    }
}
