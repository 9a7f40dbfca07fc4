//! Records of nodes to which links lead.
ghost use Rattle.std.specs.Prelude.{◌≡◌, ◌+◌, ◌≤◌, IfErr, IfOk, Some, option_map};
ghost use Rattle.sx_outside.specs.Faults.{Rose};
ghost use Rattle.sx_view.specs.Records.{Explains, ExplainsFault};
ghost use Rattle.sx_view.specs.Rows.{row_of};
ghost use Rattle.sx_cursor.specs.Damage.{IsBrokenLink};
ghost use Rattle.sx_cursor.specs.Told.{Tells};

use crate::damage::broken_link;
use std::alloc::Global;
use sx_tree::record::NodeRecord;
use sx_view::{Fault, Records};

/// The record of the node. None where there is none.
///
/// # Errors
///
/// `Failed` only where the faults of the object below rose; `Damaged` only with a damage of that object; `OutOfMemory`.
pub fn read<N: Records<NodeRecord>>(
    alloc: Global,
    records: &mut N,
    node: u32,
) -> Result<Option<NodeRecord>, Fault>
    ensures found { IfOk result (λ found. Tells (N.told records.old) node (option_map row_of found)) }
    ensures fault { IfErr result (ExplainsFault (N.damages records.old) (Rose (N.faults records.old) (N.faults records.new))) }
    ensures gets { N.gets records.new ≤ N.gets records.old + 1 }
    ensures never_falls { N.faults records.old ≤ N.faults records.new }
    ensures keeps { N.keeps records.old records.new }
    ensures same { N.told records.new ≡ N.told records.old }
{
    records.get(alloc, node)
}

/// The record of a node to which a link of another one leads.
///
/// # Errors
///
/// `Failed` only where the faults of the object below rose; `Damaged` where there is no such record, and else only
/// with a damage of that object; `OutOfMemory`.
pub fn read_linked<N: Records<NodeRecord>>(
    alloc: Global,
    records: &mut N,
    from: u32,
    to: u32,
) -> Result<NodeRecord, Fault>
    ensures found { IfOk result (λ found. Tells (N.told records.old) to (Some (row_of found))) }
    ensures fault { IfErr result (Explains (N.damages records.old) (Rose (N.faults records.old) (N.faults records.new))
        (IsBrokenLink (N.told records.old) from to)) }
    ensures gets { N.gets records.new ≤ N.gets records.old + 1 }
    ensures never_falls { N.faults records.old ≤ N.faults records.new }
    ensures keeps { N.keeps records.old records.new }
    ensures same { N.told records.new ≡ N.told records.old }
{
    match records.get(alloc, to)? {
        Some(record) => Ok(record),
        None => Err(Fault::Damaged(broken_link(from, to))),
    }
}
