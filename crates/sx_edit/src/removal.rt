//! A node that goes with all below it.
ghost use Rattle.std.specs.Prelude.{◌≡◌, ◌+◌, ◌≤◌, ◌^◌, ◌++◌, ℕ, List, [], None, Some, IfErr, IfOk, OnOk, Option, length};
ghost use Rattle.sx_outside.specs.Faults.{Rose};
ghost use Rattle.sx_model.specs.Edit as model;
ghost use Rattle.sx_edit.specs.Answers.{AnswersEach};
ghost use Rattle.sx_edit.specs.EditFault.{ExplainsEdit};
ghost use Rattle.sx_tree.specs.declared.record.NodeRecord.{NodeRecord as TheRecord};
ghost use Rattle.sx_view.specs.Records.{RecordMap};
ghost use Rattle.sx_edit.specs.Damage.{ExplainsBoth, IsDamaged, IsMiscountedFault, Reach};
ghost use Rattle.sx_edit.specs.Drift.{Drifts};
ghost use Rattle.sx_edit.specs.Links.{IsRecord, Walks, first_tops, path_left, paths_left, preorder};
ghost use Rattle.sx_edit.specs.Mend.{IsLeftOut, IsUprooted};
ghost use Rattle.sx_edit.specs.Gets.{GetsAtMost};
ghost use Rattle.sx_edit.specs.Pathways.{kept};
ghost use Rattle.sx_edit.specs.Seen.{AreReached};
ghost use Rattle.sx_edit.specs.Steps.{GoesOn};

use crate::clear::clear;
use crate::climb::survey;
use crate::damage::misplaced;
use crate::fault::EditFault;
use crate::kinds::is_key;
use crate::mend::mend;
use crate::paths::leave_path;
use crate::reads::{erase_all, read, read_linked};
use crate::trees::{Gap, Tree, push_number};
use std::alloc::Global;
use sx_paths::PathTable;
use sx_tree::edit::{EditRefusal, Edited};
use sx_tree::record::NodeRecord;
use sx_view::{Fault, RecordsMut};

/// The tree of a node, whose record this is.
pub(crate) fn tree_of(node: u32, entry: &NodeRecord) -> Result<Tree, Fault>
    ensures tree { IfOk result (λ tree. (tree.number ≡ node) × (tree.nodes ≡ entry.now.descendants + 1)
        × (tree.hash ≡ entry.now.hash)) }
    ensures many { IfErr result (λ fault. 2 ^ 32 ≤ entry.now.descendants + 1) }
    ensures fault { (o : Option (RecordMap TheRecord)) (reach : Reach) → reach.node ≡ node
        → IsRecord o node entry.now → IfErr result (IsMiscountedFault o reach) }
{
    match entry.descendants.checked_add(1) {
        Some(nodes) => Ok(Tree {
            number: node,
            nodes,
            hash: entry.hash,
        }),
        None => {
            let count = u64::from(entry.descendants) + 1;
            Err(Fault::Damaged(misplaced(node, count)))
        }
    }
}

/// The node goes with all below it. On a fault the records may be half changed.
pub(crate) fn remove<N: RecordsMut<NodeRecord>>(
    alloc: Global,
    nodes: &mut N,
    paths: &mut PathTable,
    next: u32,
    node: u32,
) -> Result<Edited, EditFault>
    requires { next ≤ 2 ^ 30 }
    ensures answers { AnswersEach (model.remove node) next (kept (N.told nodes.old) paths.old.paths)
        (kept (N.told nodes.new) paths.new.paths) result }
    ensures work { OnOk result (GetsAtMost (model.remove node) next (N.told nodes.old)
        (N.gets nodes.old) (N.gets nodes.new)) }
    ensures same_mark { paths.new.marked ≡ paths.old.marked }
    ensures goes_on { GoesOn N.told N.faults N.damages N.has_mark N.marks nodes.old nodes.new }
    ensures fault { IfErr result (ExplainsEdit (model.remove node) next (N.told nodes.old) paths.old.paths
        (N.damages nodes.old) (Rose (N.faults nodes.old) (N.faults nodes.new))) }
{
    let Some(entry) = read(alloc, nodes, node)? else {
        return Err(EditFault::Refused(EditRefusal::NoNode { node }));
    };
    let kind = entry.kind;
    let Some(parent) = entry.parent else {
        return Err(EditFault::Refused(EditRefusal::WrongKind { node, kind }));
    };
    let above = read_linked(alloc, nodes, node, parent)?;
    if is_key(above.kind) {
        return Err(EditFault::Refused(EditRefusal::WrongKind { node, kind }));
    }
    let tree = tree_of(node, &entry)?;
    let gap = gap_of(node, parent, &entry);
    let rim = survey(alloc, nodes, next, gap)?;
    let gone = uproot(alloc, nodes, paths, next, node, &entry)?;
    erase_all(alloc, nodes, gone)?;
    mend(alloc, nodes, gap, rim, Some(tree), None)?;
    Ok(Edited { first: None, next })
}

/// The gap that the node, whose record this is, leaves below the parent.
pub(crate) fn gap_of(node: u32, parent: u32, entry: &NodeRecord) -> Gap
    ensures parent { result.parent ≡ parent }
    ensures left { result.left ≡ entry.now.left }
    ensures right { result.right ≡ entry.now.right }
    ensures reached { (o : Option (RecordMap TheRecord)) → IsRecord o node entry.now → entry.now.parent ≡ Some parent
        → AreReached o result }
{
    Gap {
        parent,
        near: node,
        left: entry.left,
        right: entry.right,
    }
}

/// Goes through the node, whose record this is, and all below it, and counts their values out of their paths. Gives
/// them.
pub(crate) fn uproot<N: RecordsMut<NodeRecord>>(
    alloc: Global,
    nodes: &mut N,
    paths: &mut PathTable,
    next: u32,
    node: u32,
    entry: &NodeRecord,
) -> Result<Vec<u32>, Fault>
    requires { IsRecord (N.told nodes.old) node entry.now }
    ensures uprooted { IfOk result (λ gone. IsUprooted node entry.now.first next (N.told nodes.old) gone.items) }
    ensures left_out { OnOk result (IsLeftOut node entry.now next (kept (N.told nodes.old) paths.old.paths)
        (Some paths.new.paths)) }
    ensures cannot { IfErr result (λ fault. IsDamaged fault
        → IsLeftOut node entry.now next (kept (N.told nodes.old) paths.old.paths) None) }
    ensures gets { IfOk result (λ gone. N.gets nodes.new + 1 ≤ N.gets nodes.old + length gone.items) }
    ensures same { N.told nodes.new ≡ N.told nodes.old }
    ensures same_mark { paths.new.marked ≡ paths.old.marked }
    ensures goes_on { GoesOn N.told N.faults N.damages N.has_mark N.marks nodes.old nodes.new }
    ensures drifts { OnOk result ((visited : List TheRecord)
        × (Walks preorder (N.told nodes.old) (first_tops entry.now.first) visited []
        × Drifts 0 (paths_left visited ++ path_left entry.now) paths.old.paths paths.new.paths)) }
    ensures fault { (reach : Reach) → reach.next ≡ next → reach.node ≡ node
        → IfErr result (ExplainsBoth reach (N.told nodes.old) paths.old.paths
        (N.damages nodes.old) (Rose (N.faults nodes.old) (N.faults nodes.new))) }
{
    let mut gone = clear(alloc, nodes, paths, next, node, entry.first)?;
    leave_path(paths, node, entry)?;
    push_number(&mut gone, node)?;
    Ok(gone)
}
