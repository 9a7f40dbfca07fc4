//! A frame with the cell that names it.
ghost use Rattle.std.specs.Prelude.{◌<◌, ◌^◌, length};
ghost use Rattle.std.specs.Arc.{arc_value};
ghost use Rattle.sx_cell.specs.FrameOf.{IsFrameOf};

use std::alloc::{AllocError, Global};
use std::sync::Arc;
use sx_cell::Cell;
use sx_frame::{Frame, seal};
use sx_tree::bytes::Bytes;
use sx_volume::{MemSpot, Spot};

#[derive(Drop)]
pub(crate) struct Page {
    pub cell: Arc<Cell<MemSpot>>,
    pub frame: Arc<Frame>,
    ghost named: { let content = ⟦<MemSpot as Spot>⟧.content (arc_value cell).spot in
        IsFrameOf content (arc_value cell).digest (arc_value frame) },
}

/// A page of this kind, whose body is the text, at a place.
pub(crate) fn page_of(alloc: Global, kind: u8, text: &[u8], place: u64) -> Result<Page, AllocError>
    requires { length text.now < 2 ^ 20 }
{
    let body = Bytes::from_vec(text.to_vec(alloc)?);
    let frame = Frame { kind, body };
    let mut bytes = Vec::new(alloc);
    let digest = seal(&frame, &mut bytes)?;
    let spot = MemSpot::new(alloc, &bytes)?;
    let cell = Cell::new(alloc, spot, digest, place)?;
    let frame = Arc::new(alloc, frame)?;
    Ok(Page { cell, frame })
}

impl Page {
    /// Fills the cell with the frame.
    pub fn fill(&self) -> bool {
        let Ok(frame) = Arc::try_clone(&self.frame) else {
            return false;
        };
        self.cell.fill(frame)
    }

    /// Whether a peek shows the page's frame, and None where it shows nothing.
    pub fn is_shown(&self) -> Option<bool> {
        let frame = self.cell.peek()?;
        Some(frame.kind == self.frame.kind && frame.body.as_slice() == self.frame.body.as_slice())
    }
}
