ghost use Rattle.std.specs.Prelude.{◌≡◌, ◌%◌, ◌<◌, ◌≤◌, IfOk, IfSome};
ghost use Rattle.std.specs.Arc.{arc_value};
ghost use Rattle.counted_slot.specs.Counting.{readers, IsTurn};
ghost use Rattle.sx_cell.specs.FrameOf.{IsFrameOf};

use crate::name::{Filled, Name};
use counted_slot::{Counted, FREE, MOST_READERS, ONE_READER, PRESENT, TAKEN};
use std::alloc::{AllocError, Global};
use std::marker::{Model, PhantomData};
use std::sync::Arc;
use sx_frame::Frame;
use sx_volume::Spot;

/// Names a frame of a volume by its spot and its digest, and has room for that frame.
pub struct Cell<S: Spot> {
    name: Name<S>,
    slot: Counted<Option<Filled<S>>>,
}

impl<S: Spot> Model for Cell<S> {
    ghost use Rattle.std.specs.Prelude.{◌≡◌, ◌≤◌};
    ghost use Rattle.sx_cell.specs.declared.name.Name.{Name};

    ghost Value = { Name S };

    ghost view = { λ cell. cell.name };

    ghost invariant = { λ cell. (cell.slot ≡ cell.name) × (5 ≤ S.count cell.name.spot) };
}

// Written out: a derived drop is proved once more in each crate above.
impl<S: Spot> Drop for Cell<S> {
    fn drop(self) {
        let Cell { name, slot } = self;
        drop(slot);
        drop(name);
    }
}

impl<S: Spot> Cell<S> {
    /// A cell of the frame that the spot names, without the frame.
    /// The place is that of the frame in its volume, in bytes from the start.
    /// Errors: `AllocError` where memory runs out.
    pub fn new(
        alloc: Global,
        spot: S,
        digest: [u8; 32],
        place: u64,
    ) -> Result<Arc<Cell<S>>, AllocError>
        requires { 5 ≤ S.count spot }
        ensures spot { IfOk result (λ cell. (arc_value cell).spot ≡ spot) }
        ensures digest { IfOk result (λ cell. (arc_value cell).digest ≡ digest) }
        ensures place { IfOk result (λ cell. (arc_value cell).place ≡ place) }
    {
        let name = Name {
            spot,
            digest,
            place,
        };
        let slot = Counted::new(None, &name);
        Ok(Arc::new(alloc, Cell { name, slot })?)
    }

    /// Where the frame is read. It has at least the 5 bytes that each frame has.
    pub fn spot(&self) -> &S
        ensures spot { result.now ≡ self.now.spot }
        ensures enough { 5 ≤ S.count self.now.spot }
    {
        &self.name.spot
    }

    /// The SHA-256 of the frame's bytes.
    pub fn digest(&self) -> &[u8; 32]
        ensures { result.now ≡ self.now.digest }
    {
        &self.name.digest
    }

    /// The place of the frame in its volume, in bytes from the start.
    pub fn place(&self) -> u64
        ensures { result ≡ self.now.place }
    {
        self.name.place
    }

    /// The frame, where it stands in the cell and the turn is won.
    /// None says nothing: the frame may be there all the same.
    pub fn peek(&self) -> Option<Arc<Frame>>
        ensures { let content = S.content self.now.spot in
            IfSome result (λ frame. IsFrameOf content self.now.digest (arc_value frame)) }
    {
        let seen = self.slot.load();
        let read = with_reader(seen)?;
        let (found, claim) = self.slot.turn(seen, read);
        if found != seen {
            claim.done();
            return None;
        }
        let frame = match claim.get() {
            Some(filled) => Arc::try_clone(&filled.frame).ok(),
            None => None,
        };
        claim.leave();
        frame
    }

    /// Puts the frame into the cell. True where this turn put it; else it is dropped.
    pub fn fill(&self, frame: Arc<Frame>) -> bool
        requires { IsFrameOf (S.content self.now.spot) self.now.digest (arc_value frame) }
    {
        let (found, claim) = self.slot.turn(FREE, TAKEN);
        if found != FREE {
            claim.done();
            return false;
        }
        let filled = Filled {
            frame,
            of: PhantomData,
        };
        drop(claim.put(Some(filled), PRESENT));
        true
    }

    /// Takes the frame out of the cell. True where this turn took what stood there.
    pub fn empty(&self) -> bool {
        let (found, claim) = self.slot.turn(PRESENT, TAKEN);
        if found != PRESENT {
            claim.done();
            return false;
        }
        claim.put(None, FREE).is_some()
    }
}

// The word with one more reader, where a frame stands there and one more can be counted.
fn with_reader(word: u64) -> Option<u64>
    ensures turn { IfSome result (IsTurn word) }
    ensures gains { IfSome result (λ read. (read % 4 < 3) × (readers word < readers read)) }
{
    if word % 4 != PRESENT || word / ONE_READER >= MOST_READERS {
        return None;
    }
    Some(word + ONE_READER)
}
