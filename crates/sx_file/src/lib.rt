//! The volume over a file.
//!
//! `File` is what a volume asks of a file, with what a disk keeps of it, and `FileVolume` is the volume over any such file.
//! Two files are here: the one in memory, which tells all, and std's, `StdFile`, which tells nothing and is the one place
//! where the program's bytes meet the system. `open` opens a real file, and locks it.
#![tactic(auto)]

mod file;
mod file_end;
mod file_spot;
mod file_volume;
mod mem_file;
mod opening;
mod std_file;

pub use file::File;
pub use file_end::FileEnd;
pub use file_spot::FileSpot;
pub use file_volume::FileVolume;
pub use opening::{Opened, open};
pub use std_file::StdFile;
