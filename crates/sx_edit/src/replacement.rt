//! A value in the place of a node with all below it.
ghost use Rattle.std.specs.Prelude.{◌≡◌, ◌-◌, ◌≤◌, ◌^◌, IfErr, length, min, OnOk};
ghost use Rattle.sx_outside.specs.Faults.{Rose};
ghost use Rattle.sx_tree.specs.Value.{value_of};
ghost use Rattle.sx_model.specs.Edit as model;
ghost use Rattle.sx_edit.specs.Answers.{AnswersEach};
ghost use Rattle.sx_edit.specs.EditFault.{ExplainsEdit};
ghost use Rattle.sx_edit.specs.Gets.{GetsAtMost};
ghost use Rattle.sx_edit.specs.Pathways.{kept};
ghost use Rattle.sx_edit.specs.Steps.{GoesOn};

use crate::climb::survey;
use crate::fault::EditFault;
use crate::fill::fill;
use crate::kinds::is_value;
use crate::reads::{erase_all, parent_of, read};
use crate::removal::{gap_of, tree_of, uproot};
use crate::room::make_room;
use std::alloc::Global;
use sx_paths::PathTable;
use sx_tree::edit::{EditRefusal, Edited};
use sx_tree::json::Json;
use sx_tree::record::NodeRecord;
use sx_view::RecordsMut;

/// The value takes the place of the node with all below it. On a fault the records may be half changed.
pub(crate) fn replace<N: RecordsMut<NodeRecord>>(
    alloc: Global,
    nodes: &mut N,
    paths: &mut PathTable,
    had: u32,
    next: u32,
    node: u32,
    value: &Json,
) -> Result<Edited, EditFault>
    requires few { next ≤ 2 ^ 30 }
    requires had { had ≡ min (length paths.old.paths) (2 ^ 32 - 1) }
    ensures answers { AnswersEach (model.replace node (value_of value.now)) next
        (kept (N.told nodes.old) paths.old.paths)
        (kept (N.told nodes.new) paths.new.paths) result }
    ensures work { OnOk result (GetsAtMost (model.replace node (value_of value.now)) next (N.told nodes.old)
        (N.gets nodes.old) (N.gets nodes.new)) }
    ensures same_mark { paths.new.marked ≡ paths.old.marked }
    ensures goes_on { GoesOn N.told N.faults N.damages N.has_mark N.marks nodes.old nodes.new }
    ensures fault { IfErr result (ExplainsEdit (model.replace node (value_of value.now)) next
        (N.told nodes.old) paths.old.paths
        (N.damages nodes.old) (Rose (N.faults nodes.old) (N.faults nodes.new))) }
{
    let Some(entry) = read(alloc, nodes, node)? else {
        return Err(EditFault::Refused(EditRefusal::NoNode { node }));
    };
    if !is_value(entry.kind) {
        return Err(EditFault::Refused(EditRefusal::WrongKind {
            node,
            kind: entry.kind,
        }));
    }
    let parent = parent_of(node, &entry)?;
    let gap = gap_of(node, parent, &entry);
    let rim = survey(alloc, nodes, next, gap)?;
    let more = make_room(next, rim.levels, 0, value)?;
    let tree = tree_of(node, &entry)?;
    let path = entry.path;
    let gone = uproot(alloc, nodes, paths, next, node, &entry)?;
    erase_all(alloc, nodes, gone)?;
    fill(
        alloc,
        nodes,
        paths,
        had,
        next,
        gap,
        rim,
        Some(tree),
        None,
        value,
        path,
    )?;
    Ok(Edited {
        first: Some(next),
        next: next + more,
    })
}
