//! A frame is read.
ghost use Rattle.std.specs.Prelude.{◌≡◌, ◌+◌, ◌≤◌, ◌⊎◌, IfErr, IfOk};
ghost use Rattle.sx_outside.specs.Faults.{Rose};
ghost use Rattle.sx_reader.specs.Frames.{BreaksHead, ExplainsRead, IsFrameOf, IsReadOf};
ghost use Rattle.sx_whole.specs.Stands.{whole_kind};

use crate::Cell;
use std::alloc::Global;
use sx_bytes::number_damage;
use sx_frame::{Frame, FrameFault};
use sx_view::Fault;
use sx_volume::{ReadEnd, Spot};

/// The rule that a frame has the kind that is asked for.
pub const OTHER_KIND: u8 = 16;

/// The kind of a frame that holds a whole document.
const WHOLE_KIND: u8 = 5;

/// The bytes of the cell's spot, as the end reads them.
fn read_bytes<S: Spot, E: ReadEnd<Spot = S>>(
    alloc: Global,
    end: &mut E,
    cell: &Cell<S>,
) -> Result<Vec<u8>, Fault>
    ensures read { IfOk result (λ bytes. IsReadOf S.Spot (E.tells end.old) cell.now bytes.items) }
    ensures fault { IfErr result (λ fault. ((fault ≡ Fault.Failed) × Rose (E.faults end.old) (E.faults end.new)) ⊎ (fault ≡ Fault.OutOfMemory)) }
    ensures one_read { E.reads end.new ≤ E.reads end.old + 1 }
    ensures goes_on_telling { E.tells end.old → E.tells end.new }
    ensures never_falls { E.faults end.old ≤ E.faults end.new }
{
    let mut bytes = vec![in alloc; 0u8; cell.spot.bytes() as usize]?;
    match end.read(&cell.spot, &mut bytes) {
        Ok(()) => Ok(bytes),
        Err(_) => Err(Fault::Failed),
    }
}

/// The frame at the cell's place, which holds a whole document.
pub(crate) fn read_frame<S: Spot, E: ReadEnd<Spot = S>>(
    alloc: Global,
    end: &mut E,
    cell: &Cell<S>,
) -> Result<Frame, Fault>
    requires long { 5 ≤ S.count cell.now.spot }
    ensures whole { IfOk result (λ frame. frame.kind ≡ whole_kind) }
    ensures frame { IfOk result (λ frame. IsFrameOf S.Spot (E.tells end.old) cell.now frame) }
    ensures fault { IfErr result (ExplainsRead S.Spot (E.tells end.old) (Rose (E.faults end.old) (E.faults end.new)) cell.now BreaksHead) }
    ensures one_read { E.reads end.new ≤ E.reads end.old + 1 }
    ensures goes_on_telling { E.tells end.old → E.tells end.new }
    ensures never_falls { E.faults end.old ≤ E.faults end.new }
{
    let bytes = read_bytes(alloc, end, cell)?;
    match sx_frame::open(alloc, &bytes, &cell.row.digest, cell.place) {
        Ok(frame) if frame.kind == WHOLE_KIND => Ok(frame),
        Ok(frame) => Err(Fault::Damaged(number_damage(
            cell.place,
            OTHER_KIND,
            u64::from(WHOLE_KIND),
            u64::from(frame.kind),
        ))),
        Err(FrameFault::Damaged(damage)) => Err(Fault::Damaged(damage)),
        Err(FrameFault::OutOfMemory) => Err(Fault::OutOfMemory),
    }
}
