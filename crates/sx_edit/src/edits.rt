//! Edits, whole or not at all.
ghost use Rattle.std.specs.Prelude.{◌≡◌, ◌-◌, ◌≤◌, ◌^◌, ℕ, None, Some, IfErr, IsFalse, IsSome, IsTrue, OnErr, OnOk, length, min};
ghost use Rattle.sx_outside.specs.Faults.{Rose};
ghost use Rattle.sx_tree.specs.declared.edit.Edit.TheVariants as edits;
ghost use Rattle.sx_tree.specs.declared.json.Scalar.{Scalar};
ghost use Rattle.sx_model.specs.Edit.{edit_of};
ghost use Rattle.sx_edit.specs.Answers.{AnswersEach, GetsFew};
ghost use Rattle.sx_edit.specs.EditFault.{ExplainsEdit};
ghost use Rattle.sx_edit.specs.Gets.{GetsAtMost};
ghost use Rattle.sx_edit.specs.Pathways.{kept};
ghost use Rattle.sx_edit.specs.Steps.{GoesOn};

use crate::fault::EditFault;
use crate::insertion::insert;
use crate::loading::load;
use crate::removal::remove;
use crate::renaming::rename;
use crate::replacement::replace;
use crate::scalars::set_scalar;
use std::alloc::Global;
use sx_paths::PathTable;
use sx_tree::edit::{Edit, Edited};
use sx_tree::record::NodeRecord;
use sx_view::RecordsMut;

/// Keeps what an edit did since the marks where it is done, and else restores records and paths at the marks.
fn settle<N: RecordsMut<NodeRecord>>(
    nodes: &mut N,
    paths: &mut PathTable,
    outcome: Result<Edited, EditFault>,
) -> Result<Edited, EditFault>
    requires marked { IsTrue (N.has_mark nodes.old) }
    requires paths_marked { IsSome paths.old.marked }
    ensures same { result ≡ outcome }
    ensures kept { OnOk result (N.same nodes.old nodes.new) }
    ensures kept_paths { OnOk result (paths.new.paths ≡ paths.old.paths) }
    ensures undone { OnErr result ((a : N) → N.marks a nodes.old → N.same a nodes.new) }
    ensures undone_paths { OnErr result (paths.old.marked ≡ Some paths.new.paths) }
    ensures no_mark { IsFalse (N.has_mark nodes.new) }
    ensures no_mark_of_paths { paths.new.marked ≡ None }
    ensures same_base { N.same_base nodes.old nodes.new }
    ensures same_gets { N.gets nodes.new ≡ N.gets nodes.old }
    ensures never_falls { N.faults nodes.old ≤ N.faults nodes.new }
{
    match outcome {
        Ok(edited) => {
            nodes.keep();
            paths.keep();
            Ok(edited)
        }
        Err(fault) => {
            nodes.undo();
            paths.undo();
            Err(fault)
        }
    }
}

/// Does the edit, before which there were `had` paths. On a fault records and paths may be half changed.
fn change<N: RecordsMut<NodeRecord>>(
    alloc: Global,
    nodes: &mut N,
    paths: &mut PathTable,
    had: u32,
    edit: &Edit,
    next: u32,
) -> Result<Edited, EditFault>
    requires few { next ≤ 2 ^ 30 }
    requires had { had ≡ min (length paths.old.paths) (2 ^ 32 - 1) }
    ensures answers { AnswersEach (edit_of edit.now) next (kept (N.told nodes.old) paths.old.paths)
        (kept (N.told nodes.new) paths.new.paths) result }
    ensures gets { (node : ℕ) → (value : Scalar) → edit.now ≡ edits.SetScalar node value
        → OnOk result (GetsFew node next (N.told nodes.old) (N.gets nodes.old) (N.gets nodes.new)) }
    ensures work { OnOk result (GetsAtMost (edit_of edit.now) next (N.told nodes.old)
        (N.gets nodes.old) (N.gets nodes.new)) }
    ensures same_mark { paths.new.marked ≡ paths.old.marked }
    ensures goes_on { GoesOn N.told N.faults N.damages N.has_mark N.marks nodes.old nodes.new }
    ensures fault { IfErr result (ExplainsEdit (edit_of edit.now) next (N.told nodes.old) paths.old.paths
        (N.damages nodes.old) (Rose (N.faults nodes.old) (N.faults nodes.new))) }
{
    match edit {
        Edit::Load { value } => load(alloc, nodes, paths, had, next, value),
        Edit::Insert { place, name, value } => insert(
            alloc,
            nodes,
            paths,
            had,
            next,
            *place,
            name.as_ref(),
            value,
        ),
        Edit::SetScalar { node, value } => set_scalar(alloc, nodes, next, *node, value),
        Edit::Replace { node, value } => replace(alloc, nodes, paths, had, next, *node, value),
        Edit::Rename { node, name } => rename(alloc, nodes, paths, had, next, *node, name),
        Edit::Remove { node } => remove(alloc, nodes, paths, next, *node),
    }
}

/// Changes the document of which these are the records and the paths, as the edit asks. `next` is the number that the
/// next new node takes, at most 1,073,741,824. Paths that are not there get the next numbers, in preorder of their
/// nodes, and none goes; a count is how many values stand on the path.
///
/// # Errors
///
/// `Refused` by the first of these that stands: `NoNode` where the node that the edit names is not there; `WrongKind`
/// where the edit is not for a node of its kind, or of its place; `NameTaken` where another key of the object has the
/// name; `DocumentFull` where the document has a child beside which another one would come; `TooDeep` where more than
/// 256 arrays and objects would nest; `NumbersSpent` where new nodes need numbers of 1,073,741,824 and above;
/// `NameMissing` for a member of an object without a name; `NameUnasked` for a name anywhere else; `PathsSpent`, with
/// how many paths there are, where new ones need numbers of 1,073,741,824 and above. `Failed` only where the faults
/// of the object below rose; `Damaged` with a damage of that object, or where the records and paths are those of no document, and
/// never over those of one; `OutOfMemory`. After each error records and paths are as they were, without a mark. Whatever comes, the
/// records stand over the same object as before.
pub fn apply<N: RecordsMut<NodeRecord>>(
    alloc: Global,
    nodes: &mut N,
    paths: &mut PathTable,
    edit: &Edit,
    next: u32,
) -> Result<Edited, EditFault>
    requires { next ≤ 2 ^ 30 }
    ensures answers { AnswersEach (edit_of edit.now) next (kept (N.told nodes.old) paths.old.paths)
        (kept (N.told nodes.new) paths.new.paths) result }
    // A scalar that is set is got once, and each node above it.
    ensures gets { (node : ℕ) → (value : Scalar) → edit.now ≡ edits.SetScalar node value
        → OnOk result (GetsFew node next (N.told nodes.old) (N.gets nodes.old) (N.gets nodes.new)) }
    // Of all nodes only those around the edit are got: above it, beside it, and those that go or move.
    ensures work { OnOk result (GetsAtMost (edit_of edit.now) next (N.told nodes.old)
        (N.gets nodes.old) (N.gets nodes.new)) }
    ensures unchanged { OnErr result (N.same nodes.old nodes.new) }
    ensures unchanged_paths { OnErr result (paths.new.paths ≡ paths.old.paths) }
    ensures no_mark { IsFalse (N.has_mark nodes.new) }
    ensures no_mark_of_paths { paths.new.marked ≡ None }
    ensures same_base { N.same_base nodes.old nodes.new }
    ensures never_falls { N.faults nodes.old ≤ N.faults nodes.new }
    ensures fault { IfErr result (ExplainsEdit (edit_of edit.now) next (N.told nodes.old) paths.old.paths
        (N.damages nodes.old) (Rose (N.faults nodes.old) (N.faults nodes.new))) }
{
    let had = paths.len();
    nodes.begin();
    paths.begin();
    let outcome = change(alloc, nodes, paths, had, edit, next);
    settle(nodes, paths, outcome)
}
