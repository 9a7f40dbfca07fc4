//! What stands around a gap among siblings, once one tree took the place of another there.
ghost use Rattle.std.specs.Prelude.{◌≡◌, ◌+◌, ◌-◌, ◌^◌, ◌%◌, ◌<◌, ◌≤◌, ℕ, None, Some, IfErr, IfOk, OnOk, Option, option_map};
ghost use Rattle.std.specs.Option.{option_or};
ghost use Rattle.sx_tree.specs.Record.{IsLink};
ghost use Rattle.sx_tree.specs.declared.record.NodeRecord.{NodeRecord as TheRecord};
ghost use Rattle.sx_view.specs.Records.{RecordMap};
ghost use Rattle.sx_view.specs.Rows.{row_of};
ghost use Rattle.sx_edit.specs.Damage.{IsDamaged, IsMiscountedAtMost, IsMiscountedFault, Reach};
ghost use Rattle.sx_edit.specs.Links.{IsRecord};
ghost use Rattle.sx_edit.specs.Mend.{IsMended, adopted, end, hash_of_tree, nodes_of_tree, number_of_tree, trees_of_tree};
ghost use Rattle.sx_edit.specs.Seen.{IsLeaving, IsRim, entry_of};
ghost use Rattle.sx_edit.specs.Steps.{GoesOn};
ghost use Rattle.sx_edit.specs.Told.{IsChanged};

use crate::damage::misplaced;
use crate::lift::{Shift, fitting, lift};
use crate::reads::write;
use crate::trees::{Gap, Rim, Seen, Tree, push_seen};
use std::alloc::{AllocError, Global};
use sx_tree::record::NodeRecord;
use sx_view::{Fault, RecordsMut};

/// Gives the node, where there is one, another right sibling.
fn link_right<N: RecordsMut<NodeRecord>>(
    alloc: Global,
    nodes: &mut N,
    node: Option<Seen>,
    right: Option<u32>,
) -> Result<(), AllocError>
    requires { IsLink right }
    ensures done { OnOk result (IsChanged (option_map entry_of node) (λ w. record w { right = right })
        (N.told nodes.old) (N.told nodes.new)) }
    ensures same_gets { N.gets nodes.new ≡ N.gets nodes.old }
    ensures goes_on { GoesOn N.told N.faults N.damages N.has_mark N.marks nodes.old nodes.new }
{
    let Some(seen) = node else {
        return Ok(());
    };
    let mut entry = seen.record;
    entry.right = right;
    write(alloc, nodes, seen.node, entry)
}

/// Gives the node, where there is one, another left sibling.
fn link_left<N: RecordsMut<NodeRecord>>(
    alloc: Global,
    nodes: &mut N,
    node: Option<Seen>,
    left: Option<u32>,
) -> Result<(), AllocError>
    requires { IsLink left }
    ensures done { OnOk result (IsChanged (option_map entry_of node) (λ w. record w { left = left })
        (N.told nodes.old) (N.told nodes.new)) }
    ensures same_gets { N.gets nodes.new ≡ N.gets nodes.old }
    ensures goes_on { GoesOn N.told N.faults N.damages N.has_mark N.marks nodes.old nodes.new }
{
    let Some(seen) = node else {
        return Ok(());
    };
    let mut entry = seen.record;
    entry.left = left;
    write(alloc, nodes, seen.node, entry)
}

/// The parent of the gap, with its children at the ends, and how many they are.
fn adopt(parent: Seen, gap: Gap, old: Option<Tree>, new: Option<Tree>) -> Result<Seen, Fault>
    requires { IsLink (number_of_tree new) }
    ensures adopted { IfOk result (λ seen. entry_of seen
        ≡ (parent.node, adopted gap old new (row_of parent.record))) }
    ensures cannot { IfErr result (λ fault. parent.record.children + trees_of_tree new < 2 ^ 32
        → trees_of_tree old ≤ parent.record.children + trees_of_tree new → ⊥) }
    ensures fault { (o : Option (RecordMap TheRecord)) (reach : Reach) → IsRecord o parent.node parent.record
        → IsLeaving o reach parent.node old → IfErr result (IsMiscountedFault o reach) }
{
    let node = parent.node;
    let mut record = parent.record;
    let count = u64::from(record.children) + u64::from(count_of(new));
    let Some(children) = fitting(count, count_of(old)) else {
        return Err(Fault::Damaged(misplaced(node, count)));
    };
    record.children = children;
    record.first = end_of(gap.left, next_to(new, gap.right), record.first);
    record.last = end_of(gap.right, next_to(new, gap.left), record.last);
    Ok(Seen { node, record })
}

/// The child at an end of a list: the other one where none stands on this side of the gap, else the one that was
/// there.
fn end_of(side: Option<u32>, other: Option<u32>, was: Option<u32>) -> Option<u32>
    requires other_fits { IsLink other }
    requires was_fits { IsLink was }
    ensures is { result ≡ end side other was }
    ensures fits { IsLink result }
{
    match side {
        Some(_) => was,
        None => other,
    }
}

/// How many trees that is.
fn count_of(tree: Option<Tree>) -> u32
    ensures { result ≡ trees_of_tree tree }
{
    if tree.is_some() { 1 } else { 0 }
}

/// The tree's node, where there is a tree, else the other one.
fn next_to(tree: Option<Tree>, other: Option<u32>) -> Option<u32>
    requires tree_fits { IsLink (number_of_tree tree) }
    requires other_fits { IsLink other }
    ensures is { result ≡ option_or (number_of_tree tree) other }
    ensures fits { IsLink result }
{
    match tree {
        Some(tree) => Some(tree.number),
        None => other,
    }
}

/// How the new tree in the old one's place changes what the nodes above keep.
fn shift_of(old: Option<Tree>, new: Option<Tree>) -> Shift
    ensures plus { result.plus ≡ nodes_of_tree new }
    ensures minus { result.minus ≡ nodes_of_tree old }
    ensures hash { result.hash ≡ (hash_of_tree new + (2 ^ 128 - hash_of_tree old)) % 2 ^ 128 }
{
    let (minus, before) = old.map_or((0, 0), |tree| (tree.nodes, tree.hash));
    let (plus, after) = new.map_or((0, 0), |tree| (tree.nodes, tree.hash));
    Shift {
        plus,
        minus,
        hash: after.wrapping_sub(before),
    }
}

/// Puts right what stands around the gap, as it was read, where the records of the old tree are gone and those of the
/// new one there: the links of the neighbours, the parent's children, and along the ancestors the number of nodes and
/// the hash.
pub(crate) fn mend<N: RecordsMut<NodeRecord>>(
    alloc: Global,
    nodes: &mut N,
    gap: Gap,
    rim: Rim,
    old: Option<Tree>,
    new: Option<Tree>,
) -> Result<(), Fault>
    requires { IsLink (number_of_tree new) }
    ensures done { (next : ℕ) → OnOk result (IsMended next gap rim old new (N.told nodes.old) (N.told nodes.new)) }
    ensures cannot { (next : ℕ) → IfErr result (λ fault. IsDamaged fault
        → IsMended next gap rim old new (N.told nodes.old) None) }
    ensures same_gets { N.gets nodes.new ≡ N.gets nodes.old }
    ensures goes_on { GoesOn N.told N.faults N.damages N.has_mark N.marks nodes.old nodes.new }
    ensures fault { (o : Option (RecordMap TheRecord)) (reach : Reach) → nodes_of_tree new ≡ reach.more
        → IsLeaving o reach gap.parent old → IsRim o gap rim → IfErr result (IsMiscountedAtMost o reach) }
{
    let mut above = rim.above;
    link_right(alloc, nodes, rim.left, next_to(new, gap.right))?;
    link_left(alloc, nodes, rim.right, next_to(new, gap.left))?;
    let parent = adopt(rim.parent, gap, old, new)?;
    push_seen(&mut above, parent)?;
    lift(alloc, nodes, above, shift_of(old, new))
}
