//! The volume: the medium that keeps the log, with one writer and many read ends.
//!
//! A volume tells its bytes where it can. It fails only with a risen count of faults, and its calls that
//! write need no memory: what they need is taken before, by `ready` and `hold`.
//!
//! What a crash may leave is told by two tests of a list of bytes, of now and of all moments since one, and each call
//! says how they go on. `MemVolume` keeps its bytes in memory with a record of its calls, from which both tests follow,
//! and fails where it is told to. `FuseVolume` passes so many calls on to one and then fails each.
#![tactic(auto)]

mod content;
mod counter;
mod end;
mod fuse_volume;
mod held_piece;
mod mem_end;
mod mem_file;
mod mem_spot;
mod mem_volume;
mod spot;
mod volume;

pub use end::ReadEnd;
pub use fuse_volume::FuseVolume;
pub use held_piece::{HeldPiece, range_of};
pub use mem_end::MemEnd;
pub use mem_file::MemFile;
pub use mem_spot::MemSpot;
pub use mem_volume::MemVolume;
pub use spot::Spot;
pub use volume::Volume;
