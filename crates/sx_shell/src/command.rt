//! The commands of the program.
use sx_tree::bytes::Bytes;
use sx_tree::text::Text;

/// What the words ask for.
#[derive(Drop)]
pub enum Wanted {
    /// To run a script over the volume in the file.
    Live {
        file: Bytes,
    },
    /// To make a volume in the file, with this window and these names of fields.
    Create {
        file: Bytes,
        window: u8,
        from: Text,
        to: Text,
    },
    /// To write the text of a revision of the volume in the file.
    Show {
        file: Bytes,
        revision: u32,
    },
    /// To read all frames of the volume in the file.
    Check {
        file: Bytes,
    },
}

/// Which call runs a command, and the file that it works on.
#[derive(Drop)]
pub enum Target {
    /// `live`.
    Live(Bytes),
    /// `show` or `check`, which write nothing into the file.
    Still(Bytes),
    /// `create`.
    Create(Bytes),
    /// The words are no command.
    Usage,
}
