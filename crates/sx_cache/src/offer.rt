use std::alloc::AllocError;
use std::sync::{Arc, Wait};
use sx_cell::Cell;
use sx_volume::Spot;

/// What became of a frame that was offered with its cell.
#[derive(Clone, Copy, Debug, PartialEq, Eq)]
pub enum Offer {
    /// It is the newest, and nothing was given up for it.
    Kept,
    /// It is the newest, and the eldest was emptied and went: frame k.
    Evicted { k: u32 },
    /// It is not in the list, since the eldest, frame k, was not emptied.
    KeptOut { k: u32 },
}

/// Takes the frames that were filled, and bounds how many stay so.
pub trait Offers<S: Spot> {
    /// Offers frame k with its cell, which was filled. It may wait.
    /// Errors: `AllocError` where memory runs out.
    fn offer<R: Wait>(&self, rt: &R, k: u32, cell: &Arc<Cell<S>>) -> Result<(), AllocError>;
}
