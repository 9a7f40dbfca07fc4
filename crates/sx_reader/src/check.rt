//! All frames of a volume are checked.
ghost use Rattle.std.specs.Prelude.{◌≡◌, ◌+◌, ◌<◌, ◌≤◌, ◌^◌, IfErr, OnOk, length};
ghost use Rattle.std.specs.List.{AllByRecursion};
ghost use Rattle.sx_outside.specs.Faults.{Rose};
ghost use Rattle.sx_reader.specs.Asked.{BreaksAsking, ExplainsEach, ExplainsSome, KeepAll, KeepEach, KeepsAsking, asked_from};
ghost use Rattle.sx_reader.specs.Cells.{AreCells, IsCell};
ghost use Rattle.sx_reader.specs.Frames.{ExplainsRead};

use crate::Cell;
use crate::document::read_whole;
use crate::frame::read_frame;
use std::alloc::Global;
use sx_log::Log;
use sx_view::Fault;
use sx_volume::{ReadEnd, Spot};

/// Checks a frame, from which a whole document is asked or no more than that it is a frame of one.
fn check_cell<S: Spot, E: ReadEnd<Spot = S>>(
    alloc: Global,
    end: &mut E,
    cell: &Cell<S>,
    whole: bool,
) -> Result<(), Fault>
    requires long { 5 ≤ S.count cell.now.spot }
    ensures kept { OnOk result (E.tells end.old → KeepsAsking S.Spot whole cell.now) }
    ensures fault { IfErr result (ExplainsRead S.Spot (E.tells end.old) (Rose (E.faults end.old) (E.faults end.new)) cell.now (BreaksAsking whole)) }
    ensures goes_on_telling { E.tells end.old → E.tells end.new }
    ensures never_falls { E.faults end.old ≤ E.faults end.new }
{
    if whole {
        read_whole(alloc, end, cell)?;
    } else {
        read_frame(alloc, end, cell)?;
    }
    Ok(())
}

/// Checks a group's frames, before which there are so many. The group's node root leads to the frame of which a whole document is
/// asked.
fn check_group<S: Spot, E: ReadEnd<Spot = S>>(
    alloc: Global,
    end: &mut E,
    node_root: u32,
    cells: &[Cell<S>],
    before: u32,
) -> Result<(), Fault>
    requires each { AllByRecursion (IsCell S.Spot) cells.now }
    requires few { before + length cells.now < 2 ^ 32 }
    ensures kept { OnOk result (E.tells end.old → KeepEach S.Spot (asked_from node_root before cells.now) cells.now) }
    ensures fault { IfErr result (ExplainsEach S.Spot (E.tells end.old) (Rose (E.faults end.old) (E.faults end.new)) (asked_from node_root before cells.now) cells.now) }
    ensures goes_on_telling { E.tells end.old → E.tells end.new }
    ensures never_falls { E.faults end.old ≤ E.faults end.new }
{
    let mut number = before;
    for cell in cells {
        number += 1;
        check_cell(alloc, end, cell, number == node_root)?;
    }
    Ok(())
}

/// Checks all frames of a log: of the frame to which the node root of its group leads a whole document is asked, and of each other
/// frame no more than that it is a frame of one.
///
/// # Errors
///
/// `Failed` only where the end's faults rose. `Damaged` by the first rule that some frame breaks, as in reading a document. `OutOfMemory`.
pub fn check_frames<S: Spot, E: ReadEnd<Spot = S>>(
    alloc: Global,
    end: &mut E,
    log: &Log,
    cells: &[Cell<S>],
) -> Result<(), Fault>
    requires cells { AreCells S.Spot log.now cells.now }
    requires few { length cells.now < 2 ^ 32 }
    ensures kept { OnOk result (E.tells end.old → KeepAll S.Spot log.now cells.now) }
    ensures fault { IfErr result (ExplainsSome S.Spot (E.tells end.old) (Rose (E.faults end.old) (E.faults end.new)) log.now cells.now) }
    ensures goes_on_telling { E.tells end.old → E.tells end.new }
    ensures never_falls { E.faults end.old ≤ E.faults end.new }
{
    let mut before = 0;
    for group in log.groups.as_slice() {
        let behind = before + group.table.len();
        check_group(
            alloc,
            end,
            group.root.node_root,
            &cells[before..behind],
            before as u32,
        )?;
        before = behind;
    }
    Ok(())
}
