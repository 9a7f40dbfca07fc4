//! The log on a volume: a birth part, and groups of frames behind it, one a commit, each behind a gate that is opened when the
//! group is safe.
#![tactic(auto)]

mod birth;
mod commit;
mod creation;
mod fault;
mod limits;
mod log;
mod opening;
mod reading;
mod rules;

pub use birth::Birth;
pub use commit::{hold, seal_group, stage};
pub use creation::create;
pub use fault::{LogFault, RoomFault};
pub use limits::room;
pub use log::{GroupRow, Groups, Log};
pub use opening::open;
