//! What is kept of each frame.
ghost use Rattle.std.specs.Prelude.{◌≡◌, ◌+◌, ◌*◌, ◌≤◌, ◌++◌, ◌⊎◌, [], IfOk, IfSome, IsTrue, OnOk, Some, map};
ghost use Rattle.std.specs.List.{AllByRecursion};
ghost use Rattle.sx_log.specs.Kept.{listed};
ghost use Rattle.sx_reader.specs.Cells.{AreCells, IsCell, LieBelow, StartBelow, TellPieces, TellsPiece, placed, placed_from, placed_of};
ghost use Rattle.sx_volume.specs.Held.{LiesInHeld, held_range};

use std::alloc::{AllocError, Global};
use sx_frame::FrameRow;
use sx_log::{GroupRow, Log};
use sx_volume::{Spot, Volume};

/// Bytes of a group in front of its table and its frames: the head, and the digest behind the table.
const HEAD_BYTES: u64 = 80;

/// Bytes of a row of a table.
const ROW_BYTES: u64 = 36;

/// A frame of the volume: where its bytes are read, where they stand, and the length and the digest that they have.
#[derive(Drop)]
pub struct Cell<S> {
    pub spot: S,
    /// In bytes from the start of the volume.
    pub place: u64,
    pub row: FrameRow,
}

/// The cell of a frame at this place of a calm volume, or of the piece that the volume holds.
///
/// Errors: `AllocError` where memory runs out.
pub fn cell_in<V: Volume>(
    alloc: Global,
    volume: &V,
    place: u64,
    row: FrameRow,
) -> Result<Cell<V::Spot>, AllocError>
    requires there { LiesInHeld (V.held volume.now) place row.bytes ⊎ (IsTrue (V.calm volume.now) × (place + row.bytes ≤ V.size volume.now)) }
    ensures place { IfOk result (λ cell. cell.place ≡ place) }
    ensures row { IfOk result (λ cell. cell.row ≡ row) }
    ensures count { IfOk result (λ cell. V.Spot.count cell.spot ≡ row.bytes) }
    ensures held { IfOk result (λ cell. IfSome (V.bytes volume.now) (λ _. LiesInHeld (V.held volume.now) place row.bytes
        → V.Spot.content cell.spot ≡ Some (held_range (V.held volume.now) place row.bytes))) }
    ensures told { IfOk result (λ cell. IfSome (V.bytes volume.now) (λ all. (LiesInHeld (V.held volume.now) place row.bytes → ⊥)
        → TellsPiece V.Spot.Spot all cell)) }
{
    let spot = volume.spot(alloc, place, row.bytes)?;
    Ok(Cell { spot, place, row })
}

/// Adds the cells of a group's frames, which lie before this place.
fn add_group<V: Volume>(
    alloc: Global,
    volume: &V,
    end: u64,
    group: &GroupRow,
    cells: &mut Vec<Cell<V::Spot>>,
) -> Result<(), AllocError>
    requires calm { IsTrue (V.calm volume.now) }
    requires free { V.held volume.now ≡ Some (0, []) }
    requires end { end ≤ V.size volume.now }
    requires start { group.now.place + (80 + 36 * group.now.root.frames) ≤ end }
    requires below { LieBelow end (placed_from (group.now.place + (80 + 36 * group.now.root.frames)) group.now.table) }
    requires each { AllByRecursion (IsCell V.Spot.Spot) cells.old.items }
    requires told { TellPieces V.Spot.Spot (V.bytes volume.now) cells.old.items }
    ensures placed { OnOk result (map placed cells.new.items
        ≡ map placed cells.old.items ++ placed_from (group.now.place + (80 + 36 * group.now.root.frames)) group.now.table) }
    ensures each { OnOk result (AllByRecursion (IsCell V.Spot.Spot) cells.new.items) }
    ensures told { OnOk result (TellPieces V.Spot.Spot (V.bytes volume.now) cells.new.items) }
{
    let mut place = group.place + (HEAD_BYTES + ROW_BYTES * u64::from(group.root.frames));
    for row in group.table.as_slice() {
        let cell = cell_in(alloc, volume, place, *row)?;
        cells.push(cell)?;
        place += u64::from(row.bytes);
    }
    Ok(())
}

/// The cells of all frames of a log, in the order of their numbers. The volume is calm, and the piece that it holds has no bytes.
///
/// Errors: `AllocError` where memory runs out.
pub fn cells_of<V: Volume>(
    alloc: Global,
    volume: &V,
    log: &Log,
) -> Result<Vec<Cell<V::Spot>>, AllocError>
    requires calm { IsTrue (V.calm volume.now) }
    requires free { V.held volume.now ≡ Some (0, []) }
    requires end { log.now.end ≤ V.size volume.now }
    requires starts { StartBelow log.now.end (listed log.now.groups) }
    requires below { LieBelow log.now.end (placed_of log.now) }
    ensures cells { IfOk result (λ cells. AreCells V.Spot.Spot log.now cells.items) }
    ensures told { IfOk result (λ cells. TellPieces V.Spot.Spot (V.bytes volume.now) cells.items) }
{
    let mut cells = Vec::new(alloc);
    for group in log.groups.as_slice() {
        add_group(alloc, volume, log.end, group, &mut cells)?;
    }
    Ok(cells)
}
