//! What a script answers, by definitions: its lines and commands, a run over them, and the replies' bytes.
//!
//! The folder `specs/` is the crate; the types are those that the definitions speak of. It knows nothing of how a volume
//! keeps the commits.
#![tactic(auto)]

mod line;
mod reply;

pub use line::{Command, Line};
pub use reply::{Reply, Said};
