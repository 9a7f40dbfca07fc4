use sx_bytes::Damage;
use sx_tree::edit::EditRefusal;
use sx_tree::json_fault::JsonFault;
use sx_tree::query::Answer;

/// What is said of a line.
#[derive(Drop)]
pub enum Said {
    /// It was done, and there is nothing to tell.
    Done,
    /// The first new number.
    First(u32),
    Committed {
        revision: u32,
        /// In milliseconds since the start of 1970 in UTC.
        time: i64,
    },
    /// The revision that is open now.
    Opened(u32),
    Answer(Answer),
    /// The line is no command.
    NoCommand,
    /// The fault of the line's JSON text, which is not `OutOfMemory`.
    Json(JsonFault),
    Refused(EditRefusal),
    /// There are fewer revisions than the number asked for.
    Missing {
        asked: u32,
        seen: u32,
    },
    /// There is no such node.
    NoNode {
        node: u32,
    },
    /// There is no such path.
    NoPath {
        path: u32,
    },
    /// A read failed.
    Failed,
    Damaged(Damage),
    /// The volume has no room for one more commit, which would have so many frames and so many revisions before it.
    LogFull {
        frames: u32,
        revisions: u32,
    },
    /// The commit would have more bytes than one may have: so many.
    CommitTooLarge {
        bytes: u64,
    },
    /// The volume failed in this stage of a commit.
    FailedStage {
        stage: u8,
    },
    /// An earlier commit failed in this stage, and no edit or commit is taken any more.
    Stopped {
        stage: u8,
    },
}

/// A reply, with the client's number exactly where the line stands in a block.
#[derive(Drop)]
pub struct Reply {
    pub client: Option<u32>,
    pub said: Said,
}
