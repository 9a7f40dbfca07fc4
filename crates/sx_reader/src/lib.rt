//! Where the frames of a volume are read, and the document that each holds.
#![tactic(auto)]

mod cell;
mod check;
mod document;
mod frame;

pub use cell::{Cell, cell_in, cells_of};
pub use check::check_frames;
pub use document::read_document;
pub use frame::OTHER_KIND;
