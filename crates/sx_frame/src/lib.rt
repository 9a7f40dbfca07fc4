//! Frames: a kind and a body as bytes under a digest, and the row that a table keeps of each.
#![tactic(auto)]

mod fault;
mod frame;
mod table;

pub use fault::FrameFault;
pub use frame::{Frame, open, seal};
pub use table::{FrameList, FrameRow};
