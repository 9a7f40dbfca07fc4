//! Cells: a frame of a volume is named by its spot and its digest, and may stand in memory beside that name.
//!
//! A cell is shared by any number of threads, and its frame comes and goes. Each frame in it is the one that it names.
//! A call takes one turn on the cell's word and waits for nobody. Where the turn is lost nothing is shown, put or taken.
#![tactic(auto)]

mod cell;
mod cells;
mod name;

pub use cell::Cell;
pub use cells::Cells;
