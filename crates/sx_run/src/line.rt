use sx_tree::edit::Edit;
use sx_tree::json_fault::JsonFault;
use sx_tree::query::{Query, Which};

/// What a client asks for.
#[derive(Drop)]
pub enum Command {
    /// Joins the open edits, where it is accepted.
    Edit(Edit),
    /// Drops the open edits.
    Rollback,
    /// Makes the open edits a revision.
    Commit,
    /// Opens a revision for the client's questions.
    Open(Which),
    /// A question about the revision that the client has open.
    Ask(Query),
    /// Ends the run. Nothing behind it counts.
    Quit,
}

/// What a line of a script says. Client 0 is the writer `w`, and client i from 1 to 31 the reader `r` and i.
#[derive(Drop)]
pub enum Line {
    /// It gives no reply.
    Skip,
    /// It is no command.
    Refused { client: u32 },
    /// It is a command but for its JSON text. The fault is never `OutOfMemory`.
    BadJson { client: u32, fault: JsonFault },
    Command { client: u32, command: Command },
}
