//! Another name of a key.
ghost use Rattle.std.specs.Prelude.{◌≡◌, ◌-◌, ◌≤◌, ◌^◌, IfErr, length, min, OnOk};
ghost use Rattle.sx_outside.specs.Faults.{Rose};
ghost use Rattle.sx_model.specs.Edit as model;
ghost use Rattle.sx_edit.specs.Answers.{AnswersEach};
ghost use Rattle.sx_edit.specs.EditFault.{ExplainsEdit};
ghost use Rattle.sx_edit.specs.Gets.{GetsAtMost};
ghost use Rattle.sx_edit.specs.Pathways.{kept};
ghost use Rattle.sx_edit.specs.Steps.{GoesOn};

use crate::climb::climb;
use crate::fault::EditFault;
use crate::kinds::is_key;
use crate::label::Label;
use crate::names::find_key;
use crate::paths::{name_step, step_onto};
use crate::reads::{parent_of, read, read_linked, write_all};
use crate::relabel::relabel;
use crate::repath::repath;
use crate::trees::Over;
use std::alloc::Global;
use sx_paths::PathTable;
use sx_tree::edit::{EditRefusal, Edited};
use sx_tree::record::{Kind, NodeRecord};
use sx_tree::text::Text;
use sx_view::RecordsMut;

/// The key has this name. On a fault the records may be half changed.
pub(crate) fn rename<N: RecordsMut<NodeRecord>>(
    alloc: Global,
    nodes: &mut N,
    paths: &mut PathTable,
    had: u32,
    next: u32,
    node: u32,
    name: &Text,
) -> Result<Edited, EditFault>
    requires few { next ≤ 2 ^ 30 }
    requires had { had ≡ min (length paths.old.paths) (2 ^ 32 - 1) }
    ensures answers { AnswersEach (model.rename node name.now) next (kept (N.told nodes.old) paths.old.paths)
        (kept (N.told nodes.new) paths.new.paths) result }
    ensures work { OnOk result (GetsAtMost (model.rename node name.now) next (N.told nodes.old)
        (N.gets nodes.old) (N.gets nodes.new)) }
    ensures same_mark { paths.new.marked ≡ paths.old.marked }
    ensures goes_on { GoesOn N.told N.faults N.damages N.has_mark N.marks nodes.old nodes.new }
    ensures fault { IfErr result (ExplainsEdit (model.rename node name.now) next (N.told nodes.old) paths.old.paths
        (N.damages nodes.old) (Rose (N.faults nodes.old) (N.faults nodes.new))) }
{
    let Some(entry) = read(alloc, nodes, node)? else {
        return Err(EditFault::Refused(EditRefusal::NoNode { node }));
    };
    if !is_key(entry.kind) {
        return Err(EditFault::Refused(EditRefusal::WrongKind {
            node,
            kind: entry.kind,
        }));
    }
    let parent = parent_of(node, &entry)?;
    let above = read_linked(alloc, nodes, node, parent)?;
    if let Some(taken) = find_key(alloc, nodes, next, parent, above.first, name, Some(node))? {
        return Err(EditFault::Refused(EditRefusal::NameTaken { node: taken }));
    }
    let ascent = climb(alloc, nodes, next, node, Some(parent))?;
    let step = name_step(alloc, name)?;
    let path = step_onto(alloc, paths, had, node, above.path, step)?;
    let text = name.copy(alloc)?;
    let kind = Kind::Key;
    let over = Over { kind, path };
    let moved = repath(alloc, nodes, paths, had, next, node, over, entry.first)?;
    let label = Label { kind, text };
    relabel(alloc, nodes, node, entry, ascent.seen, label, path)?;
    write_all(alloc, nodes, moved)?;
    Ok(Edited { first: None, next })
}
