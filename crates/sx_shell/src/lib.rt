//! The shell: the call that runs a script over a volume, from its bytes to the bytes of its replies, and the call of the commands that
//! run no script.
#![tactic(auto)]

mod command;
mod desk;
mod serve;
mod shell;
mod status;
mod still_check;
mod still_create;
mod still_end;
mod still_run;
mod still_show;
mod words;
mod write;

pub use command::{Target, Wanted};
pub use shell::run_live;
pub use status::Status;
pub use still_run::run_still;
pub use words::{live_file, target, wanted};
