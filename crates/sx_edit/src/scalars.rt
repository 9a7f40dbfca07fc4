//! Another scalar in a scalar's place.
ghost use Rattle.std.specs.Prelude.{◌≡◌, ◌≤◌, ◌^◌, List, IfErr, OnOk};
ghost use Rattle.sx_outside.specs.Faults.{Rose};
ghost use Rattle.sx_model.specs.Edit as model;
ghost use Rattle.sx_model.specs.Records.{PathRow};
ghost use Rattle.sx_edit.specs.Answers.{AnswersEach, GetsFew};
ghost use Rattle.sx_edit.specs.EditFault.{ExplainsEdit};
ghost use Rattle.sx_edit.specs.Gets.{GetsAtMost};
ghost use Rattle.sx_edit.specs.Pathways.{kept};
ghost use Rattle.sx_edit.specs.Steps.{GoesOn};

use crate::climb::climb;
use crate::fault::EditFault;
use crate::kinds::is_scalar;
use crate::label::scalar_label;
use crate::reads::read;
use crate::relabel::relabel;
use std::alloc::Global;
use sx_tree::edit::{EditRefusal, Edited};
use sx_tree::json::Scalar;
use sx_tree::record::NodeRecord;
use sx_view::RecordsMut;

/// The scalar node keeps its number and has this scalar. On a fault the records may be half changed.
pub(crate) fn set_scalar<N: RecordsMut<NodeRecord>>(
    alloc: Global,
    nodes: &mut N,
    next: u32,
    node: u32,
    value: &Scalar,
) -> Result<Edited, EditFault>
    requires few { next ≤ 2 ^ 30 }
    ensures answers { (table : List PathRow)
        → AnswersEach (model.set_scalar node value.now) next (kept (N.told nodes.old) table)
        (kept (N.told nodes.new) table) result }
    ensures gets { OnOk result (GetsFew node next (N.told nodes.old) (N.gets nodes.old) (N.gets nodes.new)) }
    ensures work { OnOk result (GetsAtMost (model.set_scalar node value.now) next (N.told nodes.old)
        (N.gets nodes.old) (N.gets nodes.new)) }
    ensures goes_on { GoesOn N.told N.faults N.damages N.has_mark N.marks nodes.old nodes.new }
    ensures fault { (table : List PathRow) → IfErr result (ExplainsEdit (model.set_scalar node value.now) next
        (N.told nodes.old) table
        (N.damages nodes.old) (Rose (N.faults nodes.old) (N.faults nodes.new))) }
{
    let Some(entry) = read(alloc, nodes, node)? else {
        return Err(EditFault::Refused(EditRefusal::NoNode { node }));
    };
    if !is_scalar(entry.kind) {
        return Err(EditFault::Refused(EditRefusal::WrongKind {
            node,
            kind: entry.kind,
        }));
    }
    let ascent = climb(alloc, nodes, next, node, entry.parent)?;
    let label = scalar_label(alloc, value)?;
    let path = entry.path;
    relabel(alloc, nodes, node, entry, ascent.seen, label, path)?;
    Ok(Edited { first: None, next })
}
