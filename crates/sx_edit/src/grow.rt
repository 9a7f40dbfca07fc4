//! Trees of values, written below their top.
ghost use Rattle.std.specs.Prelude.{◌≡◌, ◌+◌, ◌<◌, ◌≤◌, ◌^◌, ℕ, List, None, [], ◌∷◌, suc, true, IfErr, IfOk, OnOk, Option};
ghost use Rattle.sx_tree.specs.Record.{IsLink};
ghost use Rattle.sx_view.specs.Rows.{row_of};
ghost use Rattle.sx_tree.specs.declared.record.NodeRecord.{NodeRecord as TheRecord};
ghost use Rattle.sx_model.specs.Records.{PathRow};
ghost use Rattle.sx_view.specs.Records.{RecordMap};
ghost use Rattle.sx_tree.specs.Value as plain;
ghost use Rattle.sx_tree.specs.Value.{value_of, values_of, fields_of, nodes_of_values, nodes_of_fields};
ghost use Rattle.sx_model.specs.Hash.{local_hash};
ghost use Rattle.sx_model.specs.Holes.{shown};
ghost use Rattle.sx_model.specs.Numbered.{numbered_values, numbered_fields};
ghost use Rattle.sx_edit.specs.Damage.{Reach};
ghost use Rattle.sx_edit.specs.Drift.{Drifts, IsKnown, IsThere};
ghost use Rattle.sx_edit.specs.EditFault.{IsBreachEdit};
ghost use Rattle.sx_edit.specs.Grow.{IsAdded, IsGrown, IsKept, IsOneMore, IsKeyOver, StopsGrowing, array_node, linked, object_node, only_if};
ghost use Rattle.sx_edit.specs.Grow.{paths_under_node, rows_under_node, top_of, top_row, trees_below, value_paths};
ghost use Rattle.sx_edit.specs.Pathways.{kept};
ghost use Rattle.sx_edit.specs.Steps.{GoesOn};

use crate::children::{no_children, one_more, top_over};
use crate::fault::EditFault;
use crate::label::{Label, empty_text, scalar_label};
use crate::paths::{count_in, name_step, step_onto};
use crate::reads::add;
use crate::trees::Children;
use std::alloc::{AllocError, Global};
use sx_paths::PathTable;
use sx_tree::json::{Json, Members};
use sx_tree::record::{Kind, NodeRecord, Step};
use sx_tree::text::Text;
use sx_view::RecordsMut;

/// Links the record to the nodes around it.
pub(crate) fn link(
    top: NodeRecord,
    parent: u32,
    left: Option<u32>,
    right: Option<u32>,
) -> NodeRecord
    requires parent_fits { parent < 2 ^ 30 }
    requires left_fits { IsLink left }
    requires right_fits { IsLink right }
    ensures { row_of result ≡ linked parent left right (row_of top) }
{
    NodeRecord {
        kind: top.kind,
        parent: Some(parent),
        left,
        right,
        first: top.first,
        last: top.last,
        children: top.children,
        descendants: top.descendants,
        hash: top.hash,
        path: top.path,
        label: top.label,
    }
}

/// The number, where it is asked for.
fn asked(more: bool, number: u32) -> Option<u32>
    requires { more ≡ true → number < 2 ^ 30 }
    ensures is { result ≡ only_if more number }
    ensures fits { IsLink result }
{
    if more { Some(number) } else { None }
}

/// Puts the child of this record, below which all records are there, behind the children of the parent, where more
/// may follow.
fn hang<N: RecordsMut<NodeRecord>>(
    alloc: Global,
    nodes: &mut N,
    parent: u32,
    children: Children,
    child: NodeRecord,
    more: bool,
) -> Result<Children, AllocError>
    requires few { children.count ≤ children.nodes }
    requires room { parent + 1 + children.nodes + (child.descendants + 1) ≤ 2 ^ 30 }
    requires beyond { more ≡ true → parent + 1 + children.nodes + (child.descendants + 1) < 2 ^ 30 }
    ensures children { IfOk result (λ new. IsOneMore children new
        (parent + 1 + children.nodes) child.descendants child.hash) }
    ensures added { OnOk result (IsAdded ((
      parent + 1 + children.nodes,
      linked parent children.last
          (only_if more (parent + 1 + children.nodes + (child.descendants + 1))) (row_of child),
    ) ∷ []) (N.told nodes.old) (N.told nodes.new)) }
    ensures same_gets { N.gets nodes.new ≡ N.gets nodes.old }
    ensures goes_on { GoesOn N.told N.faults N.damages N.has_mark N.marks nodes.old nodes.new }
{
    let number = parent + 1 + children.nodes;
    let right = asked(more, number + (child.descendants + 1));
    let after = one_more(children, number, &child);
    add(
        alloc,
        nodes,
        number,
        link(child, parent, children.last, right),
    )?;
    Ok(after)
}

/// Writes all records below the top of the value's tree, which gets this number, and the next ones in preorder, and
/// counts its values. Gives the record of the top, but for its links to its parent and its siblings. The value's path
/// is there. There were `had` paths before the edit.
///
/// # Errors
///
/// `Refused(PathsSpent)` where there is no room for a path; `Damaged` where a path or a count is not as it must be;
/// `OutOfMemory`.
#[cycle(grow)]
pub(crate) fn grow<N: RecordsMut<NodeRecord>>(
    alloc: Global,
    nodes: &mut N,
    paths: &mut PathTable,
    had: u32,
    value: &Json,
    number: u32,
    path: u32,
) -> Result<NodeRecord, EditFault>
    requires room { number + plain.nodes (value_of value.now) ≤ 2 ^ 30 }
    requires path_fits { path < 2 ^ 30 }
    ensures top { IfOk result (λ top. row_of top ≡ top_row path (top_of (value_of value.now) number)
        (trees_below (value_of value.now) number)) }
    ensures grown { OnOk result (IsGrown (value_paths (value_of value.now) number)
        (rows_under_node (top_of (value_of value.now) number) (trees_below (value_of value.now) number)) path
        (kept (N.told nodes.old) paths.old.paths) (kept (N.told nodes.new) paths.new.paths)) }
    ensures stops { IfErr result (StopsGrowing (value_paths (value_of value.now) number) path
        (plain.nodes (value_of value.now)) had paths.old.paths) }
    ensures drifts { OnOk result (Drifts (plain.nodes (value_of value.now)) [] paths.old.paths paths.new.paths) }
    ensures fault { (o : Option (RecordMap TheRecord)) (table : List PathRow) (reach : Reach) (plus : ℕ) (minus : List ℕ)
        → reach.next + plus ≤ number → number + plain.nodes (value_of value.now) ≤ reach.next + reach.more
        → IsKnown o reach number paths.old.paths path → Drifts plus minus table paths.old.paths
        → IfErr result (IsBreachEdit o table reach) }
    ensures same_mark { paths.new.marked ≡ paths.old.marked }
    ensures same_gets { N.gets nodes.new ≡ N.gets nodes.old }
    ensures goes_on { GoesOn N.told N.faults N.damages N.has_mark N.marks nodes.old nodes.new }
{
    count_in(paths, number, path)?;
    match value {
        Json::Scalar(scalar) => {
            let label = scalar_label(alloc, scalar)?;
            Ok(top_over(label, no_children(), path))
        }
        Json::Array(items) => {
            let below = grow_items(alloc, nodes, paths, had, items.as_slice(), number, path)?;
            let text = empty_text(alloc)?;
            let kind = Kind::Array;
            Ok(top_over(Label { kind, text }, below, path))
        }
        Json::Object(members) => {
            let below = grow_members(alloc, nodes, paths, had, members, number, path)?;
            let text = empty_text(alloc)?;
            let kind = Kind::Object;
            Ok(top_over(Label { kind, text }, below, path))
        }
    }
}

/// Writes the trees of the values below the parent, whose path has this number, and gives what it keeps of them.
#[cycle(grow)]
fn grow_items<N: RecordsMut<NodeRecord>>(
    alloc: Global,
    nodes: &mut N,
    paths: &mut PathTable,
    had: u32,
    values: &[Json],
    parent: u32,
    path: u32,
) -> Result<Children, EditFault>
    requires room { parent + 1 + nodes_of_values (values_of values.now) ≤ 2 ^ 30 }
    requires path_fits { path < 2 ^ 30 }
    ensures children { IfOk result (λ children. IsKept children
        (shown local_hash (numbered_values (values_of values.now) (suc parent)))) }
    ensures grown { OnOk result (IsGrown (paths_under_node (array_node parent)
        (numbered_values (values_of values.now) (suc parent)))
        (rows_under_node (array_node parent) (numbered_values (values_of values.now) (suc parent))) path
        (kept (N.told nodes.old) paths.old.paths) (kept (N.told nodes.new) paths.new.paths)) }
    ensures stops { IfErr result (StopsGrowing
        (paths_under_node (array_node parent) (numbered_values (values_of values.now) (suc parent)))
        path (nodes_of_values (values_of values.now)) had paths.old.paths) }
    ensures drifts { OnOk result (Drifts (nodes_of_values (values_of values.now)) [] paths.old.paths paths.new.paths) }
    ensures fault { (o : Option (RecordMap TheRecord)) (table : List PathRow) (reach : Reach) (plus : ℕ) (minus : List ℕ)
        → reach.next + plus ≤ parent + 1
        → parent + 1 + nodes_of_values (values_of values.now) ≤ reach.next + reach.more
        → IsThere paths.old.paths path → Drifts plus minus table paths.old.paths
        → IfErr result (IsBreachEdit o table reach) }
    ensures same_mark { paths.new.marked ≡ paths.old.marked }
    ensures same_gets { N.gets nodes.new ≡ N.gets nodes.old }
    ensures goes_on { GoesOn N.told N.faults N.damages N.has_mark N.marks nodes.old nodes.new }
{
    let mut children = no_children();
    for (place, value) in values.iter().enumerate() {
        let number = parent + 1 + children.nodes;
        let on = step_onto(alloc, paths, had, number, path, Step::Item)?;
        let top = grow(alloc, nodes, paths, had, value, number, on)?;
        let more = place + 1 < values.len();
        children = hang(alloc, nodes, parent, children, top, more)?;
    }
    Ok(children)
}

/// Writes the Keys of the members below the parent, whose path has this number, with their values, and gives what it
/// keeps of them.
#[cycle(grow)]
fn grow_members<N: RecordsMut<NodeRecord>>(
    alloc: Global,
    nodes: &mut N,
    paths: &mut PathTable,
    had: u32,
    members: &Members,
    parent: u32,
    path: u32,
) -> Result<Children, EditFault>
    requires room { parent + 1 + nodes_of_fields (fields_of members.now) ≤ 2 ^ 30 }
    requires path_fits { path < 2 ^ 30 }
    ensures children { IfOk result (λ children. IsKept children
        (shown local_hash (numbered_fields (fields_of members.now) (suc parent)))) }
    ensures grown { OnOk result (IsGrown (paths_under_node (object_node parent)
        (numbered_fields (fields_of members.now) (suc parent)))
        (rows_under_node (object_node parent) (numbered_fields (fields_of members.now) (suc parent))) path
        (kept (N.told nodes.old) paths.old.paths) (kept (N.told nodes.new) paths.new.paths)) }
    ensures stops { IfErr result (StopsGrowing
        (paths_under_node (object_node parent) (numbered_fields (fields_of members.now) (suc parent)))
        path (nodes_of_fields (fields_of members.now)) had paths.old.paths) }
    ensures drifts { OnOk result (Drifts (nodes_of_fields (fields_of members.now)) [] paths.old.paths paths.new.paths) }
    ensures fault { (o : Option (RecordMap TheRecord)) (table : List PathRow) (reach : Reach) (plus : ℕ) (minus : List ℕ)
        → reach.next + plus ≤ parent + 1
        → parent + 1 + nodes_of_fields (fields_of members.now) ≤ reach.next + reach.more
        → IsThere paths.old.paths path → Drifts plus minus table paths.old.paths
        → IfErr result (IsBreachEdit o table reach) }
    ensures same_mark { paths.new.marked ≡ paths.old.marked }
    ensures same_gets { N.gets nodes.new ≡ N.gets nodes.old }
    ensures goes_on { GoesOn N.told N.faults N.damages N.has_mark N.marks nodes.old nodes.new }
{
    let names = members.names();
    let values = members.values();
    let mut children = no_children();
    for (place, value) in values.iter().enumerate() {
        let name = &names[place];
        let number = parent + 1 + children.nodes;
        let step = name_step(alloc, name)?;
        let on = step_onto(alloc, paths, had, number, path, step)?;
        let top = grow(alloc, nodes, paths, had, value, number + 1, on)?;
        let key = key_over(alloc, nodes, number, name, top)?;
        let more = place + 1 < values.len();
        children = hang(alloc, nodes, parent, children, key, more)?;
    }
    Ok(children)
}

/// Puts the value of this record, below which all records are there, below the Key of this number. Gives the record
/// of the Key, but for its links to its parent and its siblings. A Key stands on the path of its value.
pub(crate) fn key_over<N: RecordsMut<NodeRecord>>(
    alloc: Global,
    nodes: &mut N,
    number: u32,
    name: &Text,
    value: NodeRecord,
) -> Result<NodeRecord, AllocError>
    requires { number + (value.descendants + 2) ≤ 2 ^ 30 }
    ensures key { IfOk result (IsKeyOver number name.now (row_of value)) }
    ensures added { OnOk result (IsAdded ((number + 1, linked number None None (row_of value)) ∷ [])
        (N.told nodes.old) (N.told nodes.new)) }
    ensures same_gets { N.gets nodes.new ≡ N.gets nodes.old }
    ensures goes_on { GoesOn N.told N.faults N.damages N.has_mark N.marks nodes.old nodes.new }
{
    let path = value.path;
    let below = hang(alloc, nodes, number, no_children(), value, false)?;
    let text = name.copy(alloc)?;
    let kind = Kind::Key;
    Ok(top_over(Label { kind, text }, below, path))
}
