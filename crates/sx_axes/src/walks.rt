//! The start of a walk.
ghost use Rattle.std.specs.Prelude.{◌≡◌, ◌+◌, ◌≤◌, IfErr, IfNone, IfOk, IfSome, None};
ghost use Rattle.sx_view.specs.Records.{IsDamaged};
ghost use Rattle.sx_cursor.specs.Damage.{IsOfGet};
ghost use Rattle.sx_cursor.specs.Told.{Tells};
ghost use Rattle.sx_axes.specs.Broken.{IsReady};
ghost use Rattle.sx_axes.specs.Walk.{HasNoAxis, Starts};

use crate::iterator::Walk;
use std::alloc::Global;
use sx_tree::query::Axis;
use sx_tree::record::NodeRecord;
use sx_view::{Fault, Records};

/// The walk along an axis of the node of this number. None where there is no such node. It visits at most `count` nodes, of which
/// those above the node are some where the axis lists what follows or precedes it.
///
/// # Errors
///
/// `Failed` only where the faults of the object below rose; `Damaged` only where the records are not told; `OutOfMemory`. A step
/// of the walk is `Failed` only where the faults of the object below rose; `Damaged` where a link leads to a node that has no
/// record, or links lead on after `count` visits, and else only where the records are not told; `OutOfMemory`.
pub fn walk<'a, N: Records<NodeRecord>>(
    alloc: Global,
    records: &'a mut N,
    axis: Axis,
    node: u32,
    count: u32,
) -> Result<Option<Walk<'a, N>>, Fault>
    ensures starts { IfOk result (λ found. IfSome found (λ walk. Starts (N.told records.old) axis node walk.course)) }
    ensures ready { IfOk result (λ found. IfSome found (λ walk. IsReady (N.told walk.records.now) walk.course)) }
    ensures count { IfOk result (λ found. IfSome found (λ walk. (walk.course.left ≡ count) × (walk.course.count ≡ count))) }
    ensures same_records { IfOk result (λ found. IfSome found (λ walk. (walk.records.ghost_name ≡ records.entry.ghost_name)
        × N.keeps records.old walk.records.now)) }
    ensures gets { IfOk result (λ found. IfSome found (λ walk. N.gets walk.records.now ≤ N.gets records.old + 1)) }
    ensures absent { IfOk result (λ found. IfNone found (Tells (N.told records.old) node None × HasNoAxis (N.told records.old) axis node)) }
    ensures fault { IfErr result (IsOfGet N.Records records.old) }
    ensures damaged { IfErr result (λ fault. IsDamaged fault → N.told records.old ≡ None) }
{
    match records.get(alloc, node)? {
        Some(record) => Ok(Some(Walk::start(alloc, records, axis, node, &record, count))),
        None => Ok(None),
    }
}
