//! The document of a revision.
ghost use Rattle.std.specs.Prelude.{◌≡◌, ◌+◌, ◌≤◌, [], IfErr, IfOk, List, Some, ℕ, length};
ghost use Rattle.std.specs.List.{AllByRecursion};
ghost use Rattle.std.specs.FinMap.{empty};
ghost use Rattle.sx_model.specs.Records.{node};
ghost use Rattle.sx_model.specs.State.{State, empty_document};
ghost use Rattle.sx_outside.specs.Faults.{Rose};
ghost use Rattle.sx_reader.specs.Cells.{IsCell};
ghost use Rattle.sx_reader.specs.Documents.{ExplainsAt, GivesDocument, IsDocumentAt, IsDocumentIn, IsDocumentOf, TellsAt, paths_of};
ghost use Rattle.sx_reader.specs.Frames.{BreaksFrame, ExplainsRead, IsReadOf};
ghost use Rattle.sx_view.specs.Rows.{row_of};

use crate::Cell;
use crate::frame::read_frame;
use std::alloc::{AllocError, Global};
use sx_tree::record::{Kind, NodeRecord};
use sx_tree::text::{Text, TextFault};
use sx_view::{Fault, MemRecords, RecordsMut};
use sx_volume::{ReadEnd, Spot};
use sx_whole::{Document, WholeFault};

/// The document that has no child: the Document alone, and no path.
fn no_document(alloc: Global) -> Result<Document, AllocError>
    ensures nodes { IfOk result (IsDocumentOf empty_document) }
    ensures no_paths { IfOk result (λ document. paths_of document ≡ empty) }
{
    let mut nodes = MemRecords::new(alloc);
    nodes.put(alloc, 0, lone_document(alloc)?)?;
    Ok(Document {
        nodes,
        paths: MemRecords::new(alloc),
        count: 1,
        path_count: 0,
    })
}

/// The empty text.
fn empty_text(alloc: Global) -> Result<Text, AllocError>
    ensures { IfOk result (λ text. text ≡ []) }
{
    match Text::new(alloc, b"") {
        Ok(text) => Ok(text),
        Err(TextFault::OutOfMemory) => Err(AllocError),
        Err(TextFault::NotUtf8 { .. }) => unreachable!(),
        Err(TextFault::TooLong { .. }) => unreachable!(),
    }
}

/// The record of the Document alone.
fn lone_document(alloc: Global) -> Result<NodeRecord, AllocError>
    ensures { IfOk result (λ document. Some (row_of document) ≡ node empty_document 0) }
{
    let label = empty_text(alloc)?;
    let hash = sx_hash::local(Kind::Document, label.as_bytes());
    Ok(NodeRecord {
        kind: Kind::Document,
        parent: None,
        left: None,
        right: None,
        first: None,
        last: None,
        children: 0,
        descendants: 0,
        hash,
        path: 0,
        label,
    })
}

/// The document that the cell's frame holds.
pub(crate) fn read_whole<S: Spot, E: ReadEnd<Spot = S>>(
    alloc: Global,
    end: &mut E,
    cell: &Cell<S>,
) -> Result<Document, Fault>
    requires long { 5 ≤ S.count cell.now.spot }
    ensures document { IfOk result (λ document. (bytes : List ℕ) × IsReadOf S.Spot (E.tells end.old) cell.now bytes
        × IsDocumentIn cell.now.row.digest bytes document) }
    ensures fault { IfErr result (ExplainsRead S.Spot (E.tells end.old) (Rose (E.faults end.old) (E.faults end.new)) cell.now BreaksFrame) }
    ensures one_read { E.reads end.new ≤ E.reads end.old + 1 }
    ensures goes_on_telling { E.tells end.old → E.tells end.new }
    ensures never_falls { E.faults end.old ≤ E.faults end.new }
{
    let frame = read_frame(alloc, end, cell)?;
    match sx_whole::read(alloc, frame.body.as_slice(), cell.place) {
        Ok(document) => Ok(document),
        Err(WholeFault::Damaged(damage)) => Err(Fault::Damaged(damage)),
        Err(WholeFault::OutOfMemory) => Err(Fault::OutOfMemory),
    }
}

/// The document to which the reference leads: the number of its frame and 1 more, or 0 for the document that has no child.
/// The end makes at most one read.
///
/// # Errors
///
/// `Failed` only where the end's faults rose. `Damaged` by the first rule that the frame breaks, with its place: rule 1 where its
/// digest is another one, rule 17 where its length is, rule 16 where it holds no whole document, and rules 20 and 21 where its body is
/// that of no document. `OutOfMemory`.
pub fn read_document<S: Spot, E: ReadEnd<Spot = S>>(
    alloc: Global,
    end: &mut E,
    cells: &[Cell<S>],
    node_root: u32,
) -> Result<Document, Fault>
    requires there { node_root ≤ length cells.now }
    requires each { AllByRecursion (IsCell S.Spot) cells.now }
    ensures document { IfOk result (IsDocumentAt S.Spot (E.tells end.old) cells.now node_root) }
    ensures of_state { E.tells end.old → (state : State) → TellsAt S.Spot state cells.now node_root → GivesDocument state result }
    ensures fault { IfErr result (ExplainsAt S.Spot (E.tells end.old) (Rose (E.faults end.old) (E.faults end.new)) cells.now node_root) }
    ensures one_read { E.reads end.new ≤ E.reads end.old + 1 }
    ensures goes_on_telling { E.tells end.old → E.tells end.new }
    ensures never_falls { E.faults end.old ≤ E.faults end.new }
{
    if node_root == 0 {
        return Ok(no_document(alloc)?);
    }
    read_whole(alloc, end, &cells[node_root as usize - 1])
}
