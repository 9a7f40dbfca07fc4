//! Records that are read, written and taken away.
ghost use Rattle.std.specs.Prelude.{◌≡◌, ◌+◌, ◌≤◌, ℕ, [], ◌∷◌, None, Some, IfErr, IfOk, IfSome, OnOk, Option, option_map};
ghost use Rattle.std.specs.Option.{ForSome};
ghost use Rattle.std.specs.FinMap as map;
ghost use Rattle.sx_outside.specs.Faults.{Rose};
ghost use Rattle.sx_tree.specs.declared.record.NodeRecord.{NodeRecord as TheRecord};
ghost use Rattle.sx_view.specs.Records.{RecordMap};
ghost use Rattle.sx_edit.specs.Damage.{Explains, IsBrokenFault, IsDamaged};
ghost use Rattle.sx_edit.specs.Links.{IsAbsent, IsReached, IsRecord};
ghost use Rattle.sx_view.specs.Rows.{row_of};
ghost use Rattle.sx_edit.specs.Grow.{IsAdded};
ghost use Rattle.sx_edit.specs.Seen.{with_records, without};
ghost use Rattle.sx_edit.specs.Steps.{GoesOn};
ghost use Rattle.sx_tree.specs.declared.record.Kind.TheVariants.{Document};
ghost use Rattle.sx_view.specs.declared.fault.Fault.TheVariants.{OutOfMemory};

use crate::damage::{broken_link, misplaced_kind};
use crate::trees::Seen;
use std::alloc::{AllocError, Global};
use sx_tree::record::NodeRecord;
use sx_view::{Fault, RecordsMut};

/// The record of the node, where there is one.
pub(crate) fn read<N: RecordsMut<NodeRecord>>(
    alloc: Global,
    nodes: &mut N,
    node: u32,
) -> Result<Option<NodeRecord>, Fault>
    ensures found { IfOk result (λ found. ForSome (N.told nodes.old) (λ records. found ≡ map.get records node)) }
    ensures same { N.told nodes.new ≡ N.told nodes.old }
    ensures goes_on { GoesOn N.told N.faults N.damages N.has_mark N.marks nodes.old nodes.new }
    ensures gets { N.gets nodes.new ≤ N.gets nodes.old + 1 }
    ensures fault { (next : ℕ) → IfErr result (Explains next (N.told nodes.old) (N.damages nodes.old) (Rose (N.faults nodes.old)
        (N.faults nodes.new))) }
    ensures untold { IfErr result (λ fault. IsDamaged fault → N.told nodes.old ≡ None) }
{
    nodes.get(alloc, node)
}

/// The record of a node to which a link of another one leads.
pub(crate) fn read_linked<N: RecordsMut<NodeRecord>>(
    alloc: Global,
    nodes: &mut N,
    from: u32,
    to: u32,
) -> Result<NodeRecord, Fault>
    requires { IsReached (N.told nodes.old) from to }
    ensures found { IfOk result (λ found. IsRecord (N.told nodes.old) to found) }
    ensures same { N.told nodes.new ≡ N.told nodes.old }
    ensures goes_on { GoesOn N.told N.faults N.damages N.has_mark N.marks nodes.old nodes.new }
    ensures gets { N.gets nodes.new ≤ N.gets nodes.old + 1 }
    ensures fault { (next : ℕ) → IfErr result (Explains next (N.told nodes.old) (N.damages nodes.old) (Rose (N.faults nodes.old)
        (N.faults nodes.new))) }
    ensures absent { IfErr result (λ fault. IsDamaged fault → IsAbsent (N.told nodes.old) to) }
{
    match read(alloc, nodes, to)? {
        Some(record) => Ok(record),
        None => Err(Fault::Damaged(broken_link(from, to))),
    }
}

/// Gives the node the record.
pub(crate) fn write<N: RecordsMut<NodeRecord>>(
    alloc: Global,
    nodes: &mut N,
    node: u32,
    entry: NodeRecord,
) -> Result<(), AllocError>
    ensures ok { OnOk result (N.told nodes.new ≡ option_map (λ records. map.insert records node entry)
        (N.told nodes.old)) }
    ensures same_gets { N.gets nodes.new ≡ N.gets nodes.old }
    ensures goes_on { GoesOn N.told N.faults N.damages N.has_mark N.marks nodes.old nodes.new }
{
    nodes.put(alloc, node, entry)
}

/// Gives each of the nodes its record.
pub(crate) fn write_all<N: RecordsMut<NodeRecord>>(
    alloc: Global,
    nodes: &mut N,
    mut left: Vec<Seen>,
) -> Result<(), AllocError>
    ensures ok { OnOk result (N.told nodes.new ≡ option_map (with_records left.items) (N.told nodes.old)) }
    ensures same_gets { N.gets nodes.new ≡ N.gets nodes.old }
    ensures goes_on { GoesOn N.told N.faults N.damages N.has_mark N.marks nodes.old nodes.new }
{
    while let Some(seen) = left.pop() {
        write(alloc, nodes, seen.node, seen.record)?;
    }
    Ok(())
}

/// Takes the nodes' records away.
pub(crate) fn erase_all<N: RecordsMut<NodeRecord>>(
    alloc: Global,
    nodes: &mut N,
    mut left: Vec<u32>,
) -> Result<(), AllocError>
    ensures ok { OnOk result (N.told nodes.new ≡ option_map (without left.items) (N.told nodes.old)) }
    ensures same_gets { N.gets nodes.new ≡ N.gets nodes.old }
    ensures goes_on { GoesOn N.told N.faults N.damages N.has_mark N.marks nodes.old nodes.new }
{
    while let Some(node) = left.pop() {
        erase(alloc, nodes, node)?;
    }
    Ok(())
}

/// Takes the node's record away.
fn erase<N: RecordsMut<NodeRecord>>(
    alloc: Global,
    nodes: &mut N,
    node: u32,
) -> Result<(), AllocError>
    ensures ok { OnOk result (N.told nodes.new ≡ option_map (λ records. map.remove records node) (N.told nodes.old)) }
    ensures same_gets { N.gets nodes.new ≡ N.gets nodes.old }
    ensures goes_on { GoesOn N.told N.faults N.damages N.has_mark N.marks nodes.old nodes.new }
{
    nodes.drop_record(alloc, node)
}

/// Gives a new node the record.
pub(crate) fn add<N: RecordsMut<NodeRecord>>(
    alloc: Global,
    nodes: &mut N,
    node: u32,
    entry: NodeRecord,
) -> Result<(), AllocError>
    ensures added { OnOk result (IsAdded ((node, row_of entry) ∷ []) (N.told nodes.old) (N.told nodes.new)) }
    ensures same_gets { N.gets nodes.new ≡ N.gets nodes.old }
    ensures goes_on { GoesOn N.told N.faults N.damages N.has_mark N.marks nodes.old nodes.new }
{
    nodes.put(alloc, node, entry)
}

/// The node above a node, by the record of this one, which is not the document's.
pub(crate) fn parent_of(node: u32, entry: &NodeRecord) -> Result<u32, Fault>
    ensures parent { IfOk result (λ parent. entry.now.parent ≡ Some parent) }
    ensures none { IfErr result (λ fault. entry.now.parent ≡ None) }
    ensures fault { (o : Option (RecordMap TheRecord)) (next : ℕ) → IsRecord o node entry.now
        → (entry.now.kind ≡ Document → ⊥) → IfErr result (IsBrokenFault o next) }
{
    match entry.parent {
        Some(parent) => Ok(parent),
        None => Err(Fault::Damaged(misplaced_kind(node, entry.kind))),
    }
}
