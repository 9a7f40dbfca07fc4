//! Where a new value comes.
ghost use Rattle.std.specs.Prelude.{◌≡◌, ◌+◌, ◌≤◌, ◌<◌, ◌^◌, if◌then◌else◌, List, None, Some, IfErr, IfOk, IfSome};
ghost use Rattle.sx_outside.specs.Faults.{Rose};
ghost use Rattle.sx_model.specs.Edit as model;
ghost use Rattle.sx_edit.specs.Drift.{IsPathNear};
ghost use Rattle.sx_edit.specs.Links.{IsNear, LeadsTo};
ghost use Rattle.sx_edit.specs.EditFault.{ExplainsEdit};
ghost use Rattle.sx_model.specs.Records.{PathRow};
ghost use Rattle.sx_edit.specs.Places.{IsPlace, IsNoPlace, place_below, place_beside};
ghost use Rattle.sx_edit.specs.Seen.{AreReached};
ghost use Rattle.sx_edit.specs.Steps.{GoesOn};

use crate::fault::EditFault;
use crate::kinds::{has_no_places, is_key};
use crate::reads::{read, read_linked};
use crate::trees::{Gap, Target};
use std::alloc::Global;
use sx_tree::edit::{EditRefusal, Place};
use sx_tree::record::NodeRecord;
use sx_view::RecordsMut;

/// The gap at an end of the children of the node with this record.
fn gap_below(node: u32, entry: &NodeRecord, last: bool) -> Gap
    ensures parent { result.parent ≡ node }
    ensures left { result.left ≡ (if last then entry.now.last else None) }
    ensures right { result.right ≡ (if last then None else entry.now.first) }
    ensures near { result.near ≡ node }
{
    if last {
        Gap {
            parent: node,
            near: node,
            left: entry.last,
            right: None,
        }
    } else {
        Gap {
            parent: node,
            near: node,
            left: None,
            right: entry.first,
        }
    }
}

/// The gap beside the node with this record.
fn gap_beside(parent: u32, node: u32, entry: &NodeRecord, after: bool) -> Gap
    requires { node < 2 ^ 30 }
    ensures parent { result.parent ≡ parent }
    ensures left { result.left ≡ (if after then Some node else entry.now.left) }
    ensures right { result.right ≡ (if after then entry.now.right else Some node) }
    ensures near { result.near ≡ node }
{
    if after {
        Gap {
            parent,
            near: node,
            left: Some(node),
            right: entry.right,
        }
    } else {
        Gap {
            parent,
            near: node,
            left: entry.left,
            right: Some(node),
        }
    }
}

/// The place at an end of a node's children.
fn below<N: RecordsMut<NodeRecord>>(
    alloc: Global,
    nodes: &mut N,
    next: u32,
    node: u32,
    last: bool,
) -> Result<Target, EditFault>
    requires { next ≤ 2 ^ 30 }
    ensures place { IfOk result (IsPlace (place_below last node) next (N.told nodes.old)) }
    ensures parent_fits { IfOk result (λ target. target.gap.parent < 2 ^ 30) }
    ensures reached { IfOk result (λ target. AreReached (N.told nodes.old) target.gap) }
    ensures first { IfOk result (λ target. IfSome target.first
        (λ to. LeadsTo (N.told nodes.old) target.gap.parent to)) }
    ensures near { IfOk result (λ target. IsNear (N.told nodes.old) node target.gap.parent) }
    ensures path { IfOk result (λ target. IsPathNear (N.told nodes.old) node target.path) }
    ensures gets { N.gets nodes.new ≤ N.gets nodes.old + 2 }
    ensures none { IfErr result (IsNoPlace (place_below last node) next (N.told nodes.old)) }
    ensures same { N.told nodes.new ≡ N.told nodes.old }
    ensures goes_on { GoesOn N.told N.faults N.damages N.has_mark N.marks nodes.old nodes.new }
    ensures fault { (edit : model.Edit) (table : List PathRow) → IfErr result (ExplainsEdit edit next (N.told nodes.old) table
        (N.damages nodes.old) (Rose (N.faults nodes.old) (N.faults nodes.new))) }
{
    if node >= next {
        return Err(EditFault::Refused(EditRefusal::NoNode { node }));
    }
    let Some(entry) = read(alloc, nodes, node)? else {
        return Err(EditFault::Refused(EditRefusal::NoNode { node }));
    };
    let kind = entry.kind;
    if has_no_places(kind) {
        return Err(EditFault::Refused(EditRefusal::WrongKind { node, kind }));
    }
    Ok(Target {
        gap: gap_below(node, &entry, last),
        kind,
        path: entry.path,
        first: entry.first,
    })
}

/// The place beside a node.
fn beside<N: RecordsMut<NodeRecord>>(
    alloc: Global,
    nodes: &mut N,
    next: u32,
    node: u32,
    after: bool,
) -> Result<Target, EditFault>
    requires { next ≤ 2 ^ 30 }
    ensures place { IfOk result (IsPlace (place_beside after node) next (N.told nodes.old)) }
    ensures parent_fits { IfOk result (λ target. target.gap.parent < 2 ^ 30) }
    ensures reached { IfOk result (λ target. AreReached (N.told nodes.old) target.gap) }
    ensures first { IfOk result (λ target. IfSome target.first
        (λ to. LeadsTo (N.told nodes.old) target.gap.parent to)) }
    ensures near { IfOk result (λ target. IsNear (N.told nodes.old) node target.gap.parent) }
    ensures path { IfOk result (λ target. IsPathNear (N.told nodes.old) node target.path) }
    ensures gets { N.gets nodes.new ≤ N.gets nodes.old + 2 }
    ensures none { IfErr result (IsNoPlace (place_beside after node) next (N.told nodes.old)) }
    ensures same { N.told nodes.new ≡ N.told nodes.old }
    ensures goes_on { GoesOn N.told N.faults N.damages N.has_mark N.marks nodes.old nodes.new }
    ensures fault { (edit : model.Edit) (table : List PathRow) → IfErr result (ExplainsEdit edit next (N.told nodes.old) table
        (N.damages nodes.old) (Rose (N.faults nodes.old) (N.faults nodes.new))) }
{
    if node >= next {
        return Err(EditFault::Refused(EditRefusal::NoNode { node }));
    }
    let Some(entry) = read(alloc, nodes, node)? else {
        return Err(EditFault::Refused(EditRefusal::NoNode { node }));
    };
    let kind = entry.kind;
    let Some(parent) = entry.parent else {
        return Err(EditFault::Refused(EditRefusal::WrongKind { node, kind }));
    };
    let above = read_linked(alloc, nodes, node, parent)?;
    if is_key(above.kind) {
        return Err(EditFault::Refused(EditRefusal::WrongKind { node, kind }));
    }
    Ok(Target {
        gap: gap_beside(parent, node, &entry, after),
        kind: above.kind,
        path: above.path,
        first: above.first,
    })
}

/// What stands around the place.
pub(crate) fn target_of<N: RecordsMut<NodeRecord>>(
    alloc: Global,
    nodes: &mut N,
    next: u32,
    place: Place,
) -> Result<Target, EditFault>
    requires { next ≤ 2 ^ 30 }
    ensures place { IfOk result (IsPlace place next (N.told nodes.old)) }
    ensures parent_fits { IfOk result (λ target. target.gap.parent < 2 ^ 30) }
    ensures reached { IfOk result (λ target. AreReached (N.told nodes.old) target.gap) }
    ensures first { IfOk result (λ target. IfSome target.first
        (λ to. LeadsTo (N.told nodes.old) target.gap.parent to)) }
    ensures near { IfOk result (λ target. IsNear (N.told nodes.old) (model.named_by place) target.gap.parent) }
    ensures path { IfOk result (λ target. IsPathNear (N.told nodes.old) (model.named_by place) target.path) }
    ensures gets { N.gets nodes.new ≤ N.gets nodes.old + 2 }
    ensures none { IfErr result (IsNoPlace place next (N.told nodes.old)) }
    ensures same { N.told nodes.new ≡ N.told nodes.old }
    ensures goes_on { GoesOn N.told N.faults N.damages N.has_mark N.marks nodes.old nodes.new }
    ensures fault { (edit : model.Edit) (table : List PathRow) → IfErr result (ExplainsEdit edit next (N.told nodes.old) table
        (N.damages nodes.old) (Rose (N.faults nodes.old) (N.faults nodes.new))) }
{
    match place {
        Place::First(node) => below(alloc, nodes, next, node, false),
        Place::Last(node) => below(alloc, nodes, next, node, true),
        Place::Before(node) => beside(alloc, nodes, next, node, false),
        Place::After(node) => beside(alloc, nodes, next, node, true),
    }
}
