//! A value that becomes the document's child.
ghost use Rattle.std.specs.Prelude.{◌≡◌, ◌+◌, ◌-◌, ◌≤◌, ◌^◌, ℕ, None, IfErr, IfOk, length, min, option_and_then, OnOk};
ghost use Rattle.std.specs.Option.{ForSome};
ghost use Rattle.std.specs.FinMap as map;
ghost use Rattle.sx_outside.specs.Faults.{Rose};
ghost use Rattle.sx_tree.specs.Value.{value_of};
ghost use Rattle.sx_model.specs.Edit as model;
ghost use Rattle.sx_edit.specs.Answers.{AnswersEach};
ghost use Rattle.sx_edit.specs.Damage.{Explains, IsDamaged};
ghost use Rattle.sx_edit.specs.EditFault.{ExplainsEdit};
ghost use Rattle.sx_edit.specs.Gets.{GetsAtMost};
ghost use Rattle.sx_edit.specs.Pathways.{kept};
ghost use Rattle.sx_edit.specs.Steps.{GoesOn};

use crate::fault::EditFault;
use crate::insertion::insert;
use crate::reads::read;
use crate::replacement::replace;
use std::alloc::Global;
use sx_paths::PathTable;
use sx_tree::edit::{Edited, Place};
use sx_tree::json::Json;
use sx_tree::record::NodeRecord;
use sx_view::{Fault, RecordsMut};

/// The document.
const DOCUMENT: u32 = 0;

/// The document's child, where it has one.
fn document_child<N: RecordsMut<NodeRecord>>(
    alloc: Global,
    nodes: &mut N,
) -> Result<Option<u32>, Fault>
    ensures child { IfOk result (λ child. ForSome (N.told nodes.old)
        (λ records. child ≡ option_and_then (λ r. r.first) (map.get records 0))) }
    ensures gets { N.gets nodes.new ≤ N.gets nodes.old + 1 }
    ensures same { N.told nodes.new ≡ N.told nodes.old }
    ensures goes_on { GoesOn N.told N.faults N.damages N.has_mark N.marks nodes.old nodes.new }
    ensures fault { (next : ℕ) → IfErr result
        (Explains next (N.told nodes.old) (N.damages nodes.old) (Rose (N.faults nodes.old) (N.faults nodes.new))) }
    ensures untold { IfErr result (λ fault. IsDamaged fault → N.told nodes.old ≡ None) }
{
    match read(alloc, nodes, DOCUMENT)? {
        Some(entry) => Ok(entry.first),
        None => Ok(None),
    }
}

/// The value takes the place of the document's child, or becomes its child. On a fault the records may be half
/// changed.
pub(crate) fn load<N: RecordsMut<NodeRecord>>(
    alloc: Global,
    nodes: &mut N,
    paths: &mut PathTable,
    had: u32,
    next: u32,
    value: &Json,
) -> Result<Edited, EditFault>
    requires few { next ≤ 2 ^ 30 }
    requires had { had ≡ min (length paths.old.paths) (2 ^ 32 - 1) }
    ensures answers { AnswersEach (model.load (value_of value.now)) next (kept (N.told nodes.old) paths.old.paths)
        (kept (N.told nodes.new) paths.new.paths) result }
    ensures work { OnOk result (GetsAtMost (model.load (value_of value.now)) next (N.told nodes.old)
        (N.gets nodes.old) (N.gets nodes.new)) }
    ensures same_mark { paths.new.marked ≡ paths.old.marked }
    ensures goes_on { GoesOn N.told N.faults N.damages N.has_mark N.marks nodes.old nodes.new }
    ensures fault { IfErr result (ExplainsEdit (model.load (value_of value.now)) next
        (N.told nodes.old) paths.old.paths
        (N.damages nodes.old) (Rose (N.faults nodes.old) (N.faults nodes.new))) }
{
    match document_child(alloc, nodes)? {
        Some(child) => replace(alloc, nodes, paths, had, next, child, value),
        None => insert(
            alloc,
            nodes,
            paths,
            had,
            next,
            Place::Last(DOCUMENT),
            None,
            value,
        ),
    }
}
