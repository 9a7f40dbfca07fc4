//! The name of a frame, and a frame that it names.
ghost use Rattle.std.specs.Arc.{arc_value};
ghost use Rattle.sx_cell.specs.FrameOf.{IsFrameOf};

use counted_slot::Fits;
use std::marker::PhantomData;
use std::sync::Arc;
use sx_frame::Frame;
use sx_volume::Spot;

/// Names a frame of a volume. In contracts a cell is its name: whether the frame stands in the cell is not told.
#[derive(Drop)]
pub(crate) struct Name<S: Spot> {
    /// Where the frame is read.
    pub spot: S,
    /// The SHA-256 of the frame's bytes.
    pub digest: [u8; 32],
    /// The place of the frame in its volume, in bytes from the start.
    pub place: u64,
}

/// A frame that stands in a cell.
#[derive(Drop)]
pub(crate) struct Filled<S: Spot> {
    pub frame: Arc<Frame>,
    pub of: PhantomData<S>,
}

impl<S: Spot> Fits for Filled<S> {
    type Tag = Name<S>;

    ghost fits = { λ name filled. IsFrameOf (S.content name.spot) name.digest (arc_value filled.frame) };
}
