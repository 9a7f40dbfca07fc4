//! Another kind, label and path of a node.
ghost use Rattle.std.specs.Prelude.{◌≡◌, ◌<◌, ◌^◌, IfErr, OnOk};
ghost use Rattle.sx_view.specs.Rows.{row_of};
ghost use Rattle.sx_edit.specs.Links.{IsRecord};
ghost use Rattle.sx_edit.specs.Edited.{IsRelabeled};
ghost use Rattle.sx_edit.specs.Seen.{upward};
ghost use Rattle.sx_edit.specs.Steps.{GoesOn};
ghost use Rattle.sx_view.specs.declared.fault.Fault.TheVariants.{OutOfMemory};

use crate::label::Label;
use crate::lift::{Shift, lift};
use crate::reads::write;
use crate::trees::Seen;
use std::alloc::Global;
use sx_hash::local;
use sx_tree::record::NodeRecord;
use sx_view::{Fault, RecordsMut};

/// Gives the node, whose record this is, another kind and label, and the path of this number, and adapts the hashes
/// above it: of these nodes, the nearest last.
pub(crate) fn relabel<N: RecordsMut<NodeRecord>>(
    alloc: Global,
    nodes: &mut N,
    node: u32,
    entry: NodeRecord,
    above: Vec<Seen>,
    label: Label,
    path: u32,
) -> Result<(), Fault>
    requires there { IsRecord (N.told nodes.old) node entry }
    requires path_fits { path < 2 ^ 30 }
    ensures done { OnOk result (IsRelabeled node label.kind label.text path (upward above.items) (N.told nodes.old)
        (N.told nodes.new)) }
    ensures same_gets { N.gets nodes.new ≡ N.gets nodes.old }
    ensures goes_on { GoesOn N.told N.faults N.damages N.has_mark N.marks nodes.old nodes.new }
    ensures memory { IfErr result (λ fault. fault ≡ OutOfMemory) }
{
    let before = local(entry.kind, entry.label.as_bytes());
    let after = local(label.kind, label.text.as_bytes());
    let more = after.wrapping_sub(before);
    let changed = NodeRecord {
        kind: label.kind,
        parent: entry.parent,
        left: entry.left,
        right: entry.right,
        first: entry.first,
        last: entry.last,
        children: entry.children,
        descendants: entry.descendants,
        hash: entry.hash.wrapping_add(more),
        path,
        label: label.text,
    };
    write(alloc, nodes, node, changed)?;
    let shift = Shift {
        plus: 0,
        minus: 0,
        hash: more,
    };
    lift(alloc, nodes, above, shift)
}
