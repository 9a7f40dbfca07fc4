//! Counts and hashes of the nodes above a change.
ghost use Rattle.std.specs.Prelude.{◌≡◌, ◌-◌, ◌≤◌, ◌<◌, ◌^◌, ◌⊎◌, ℕ, IfErr, IfNone, IfSome, OnOk, Option};
ghost use Rattle.sx_tree.specs.declared.record.NodeRecord.{NodeRecord as TheRecord};
ghost use Rattle.sx_view.specs.Records.{RecordMap};
ghost use Rattle.sx_edit.specs.Damage.{IsDamaged, IsMiscountedAtMost, IsSpent, Reach};
ghost use Rattle.sx_edit.specs.Seen.{AreCounted, upward};
ghost use Rattle.sx_edit.specs.Steps.{GoesOn};
ghost use Rattle.sx_edit.specs.Told.{CannotLift, IsLifted};
ghost use Rattle.sx_view.specs.declared.fault.Fault.TheVariants.{OutOfMemory};

use crate::damage::misplaced;
use crate::reads::write;
use crate::trees::Seen;
use std::alloc::Global;
use sx_tree::record::NodeRecord;
use sx_view::{Fault, RecordsMut};

/// How trees that take the place of others change what the nodes above them keep.
#[derive(Clone, Copy)]
pub(crate) struct Shift {
    /// So many nodes come.
    pub(crate) plus: u32,
    /// So many nodes go.
    pub(crate) minus: u32,
    /// The sum of the new trees' hashes less that of the old ones, modulo 2^128.
    pub(crate) hash: u128,
}

/// The count less so many, where it is at least that and fits.
pub(crate) fn fitting(count: u64, minus: u32) -> Option<u32>
    ensures some { IfSome result (λ n. (n ≡ count - minus) × (minus ≤ count)) }
    ensures none { IfNone result (minus ≤ count → count < 2 ^ 32 → ⊥) }
    ensures spent { IfNone result (IsSpent count minus) }
{
    let less = count.checked_sub(u64::from(minus))?;
    if less > u64::from(u32::MAX) {
        return None;
    }
    Some(less as u32)
}

/// Makes the nodes, of which the nearest is the last, keep what the shift of the trees below them asks for.
pub(crate) fn lift<N: RecordsMut<NodeRecord>>(
    alloc: Global,
    nodes: &mut N,
    mut left: Vec<Seen>,
    shift: Shift,
) -> Result<(), Fault>
    ensures done { OnOk result (IsLifted (upward left.items) shift.plus shift.minus shift.hash
        (N.told nodes.old) (N.told nodes.new)) }
    ensures cannot { IfErr result (λ fault. IsDamaged fault
        → CannotLift (upward left.items) shift.plus shift.minus) }
    ensures level { shift.plus ≡ 0 → shift.minus ≡ 0 → IfErr result (λ fault. fault ≡ OutOfMemory) }
    ensures same_gets { N.gets nodes.new ≡ N.gets nodes.old }
    ensures goes_on { GoesOn N.told N.faults N.damages N.has_mark N.marks nodes.old nodes.new }
    ensures fault { (o : Option (RecordMap TheRecord)) (reach : Reach) → shift.plus ≡ reach.more
        → AreCounted o reach shift.minus left.items → IfErr result (IsMiscountedAtMost o reach) }
{
    let mut share = shift.hash;
    while let Some(seen) = left.pop() {
        let mut record = seen.record;
        let count = u64::from(record.descendants) + u64::from(shift.plus);
        let Some(descendants) = fitting(count, shift.minus) else {
            return Err(Fault::Damaged(misplaced(seen.node, count)));
        };
        share = share.wrapping_mul(257);
        record.descendants = descendants;
        record.hash = record.hash.wrapping_add(share);
        write(alloc, nodes, seen.node, record)?;
    }
    Ok(())
}
