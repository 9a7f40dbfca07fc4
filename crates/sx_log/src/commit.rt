//! A commit in three calls: the group is held, is put behind the closed gate, and then the gate is opened.
ghost use Rattle.std.specs.Prelude.{ℕ, ◌≡◌, ◌+◌, ◌<◌, ◌≤◌, ◌⊎◌, ◌++◌, [], ◌∷◌, List, Some, IfOk, IfSome, IsSome, IsTrue, OnErr, OnOk, length, slice_set, take};
ghost use Rattle.std.specs.Arc.{arc_value};
ghost use Rattle.std.specs.Option.{option_map};
ghost use Rattle.sx_layout.specs.Born.{HasLog};
ghost use Rattle.sx_layout.specs.FrameGroup.{FrameGroup, IsFrameGroup};
ghost use Rattle.sx_log.specs.Calls.{GoesOn, IsSettled};
ghost use Rattle.sx_log.specs.Committing.{HasStaged, HoldsNext, IsBehind, IsNext, KeepsLog, OnlyHolds, SameLog, SameNext, sealed_bytes, with_sealed, with_staged};
ghost use Rattle.sx_log.specs.Creating.{birth_of};
ghost use Rattle.sx_log.specs.Kept.{listed, row_at};
ghost use Rattle.sx_outside.specs.Faults.{Rose};
ghost use Rattle.sx_volume.specs.Held.{IsHeldFor, held_piece};
ghost use Rattle.sx_volume.specs.Images.{Follows, NoSync, Only, Puts, Syncs};

use crate::log::Pending;
use crate::opening::{ROW_BYTES, read_table};
use crate::reading::OPEN;
use crate::rules::DIGEST_BYTES;
use crate::{GroupRow, Log};
use std::alloc::{AllocError, Global};
use std::mem;
use std::sync::Arc;
use sx_bytes::Fields;
use sx_outside::Failed;
use sx_root::RevisionRoot;
use sx_volume::Volume;

/// Takes the memory for one more group: room for its row, five calls of the volume, and the piece that the volume holds for
/// the place behind the gate. The bytes are those of a group that follows the last one of the log, and of the closed gate
/// behind it. A group that was held before is held no more.
///
/// Errors: `AllocError` where memory runs out, and then the log and the volume are as before. No call of the volume that
/// writes is made.
pub fn hold<V: Volume>(
    alloc: Global,
    log: &mut Log,
    volume: &mut V,
    group: Arc<Vec<u8>>,
) -> Result<(), AllocError>
    requires next { (next : FrameGroup) × IsNext (listed log.old.groups) (arc_value group).items next }
    ensures held { OnOk result ((next : FrameGroup) → IsNext (listed log.old.groups) (arc_value group).items next → HoldsNext V.Volume log.new volume.new next) }
    ensures nothing_done { OnErr result (SameNext log.old log.new × (V.held volume.new ≡ V.held volume.old)) }
    ensures keeps { (groups : List FrameGroup) → KeepsLog V.Volume log.old volume.old groups → KeepsLog V.Volume log.new volume.new groups }
    ensures same { SameLog log.old log.new }
    ensures only { OnlyHolds V.Volume volume.old volume.new }
{
    let place = log.end + 1;
    let row = read_row(alloc, place, group.as_slice())?;
    log.groups.rows.reserve(1)?;
    hold_piece(alloc, volume, place, group)?;
    log.pending = Pending::Held(row);
    Ok(())
}

/// Puts the held group behind the closed gate, in place of what stands there, and syncs: the volume is cut where something
/// stands behind the gate, then the group is appended. A crash leaves the log as it was, also during the call.
///
/// Errors: `Failed` where a call of the volume failed, and then the log is not to be used any more.
pub fn stage<V: Volume>(log: &mut Log, volume: &mut V) -> Result<(), Failed>
    requires held { (group : FrameGroup) × HoldsNext V.Volume log.old volume.old group }
    requires gate { log.old.end < V.size volume.old }
    ensures bytes { OnOk result ((group : FrameGroup) → HoldsNext V.Volume log.old volume.old group
        → V.bytes volume.new ≡ option_map (with_staged log.old.end group) (V.bytes volume.old)) }
    ensures staged { OnOk result ((group : FrameGroup) → HoldsNext V.Volume log.old volume.old group → HasStaged V.Volume log.new volume.new group) }
    ensures keeps { OnOk result ((groups : List FrameGroup) → KeepsLog V.Volume log.old volume.old groups → KeepsLog V.Volume log.new volume.new groups) }
    ensures synced { OnOk result (IfSome (V.bytes volume.old) (λ _. Syncs (V.moment volume.old) (V.moment volume.new) (V.synced volume.old) (V.synced volume.new))) }
    ensures no_sync { OnErr result (NoSync (V.synced volume.old) (V.synced volume.new)) }
    ensures during { (groups : List FrameGroup) → KeepsLog V.Volume log.old volume.old groups
        → IfSome (V.bytes volume.old) (λ _. (image : List ℕ) → V.was_image volume.new (V.moment volume.old) image → HasLog image (birth_of log.old.birth) groups) }
    ensures behind { Follows (IsBehind log.old.end) (V.is_image volume.old) (V.was_image volume.new (V.moment volume.old)) }
    ensures same { SameLog log.old log.new }
    ensures calm { OnOk result (IsTrue (V.calm volume.new)) }
    ensures spare { V.spare volume.old ≤ V.spare volume.new + 3 }
    ensures told { IsSome (V.bytes volume.old) → IsSome (V.bytes volume.new) }
    ensures cause { OnErr result (Rose (V.faults volume.old) (V.faults volume.new)) }
    ensures no_fault { OnOk result (V.faults volume.new ≡ V.faults volume.old) }
    ensures on { GoesOn V.Volume volume.old volume.new }
{
    put_behind(volume, log.end)?;
    let Pending::Held(row) = mem::replace(&mut log.pending, Pending::Nothing) else {
        unreachable!("a group is held");
    };
    log.pending = Pending::Staged(row);
    Ok(())
}

/// Opens the gate in front of the staged group, syncs, and enters the group in the log. From then on each crash leaves the
/// groups with this one. A crash during the call leaves them with this one or without.
///
/// Errors: `Failed` where a call of the volume failed, and then the log is not to be used any more.
pub fn seal_group<V: Volume>(log: &mut Log, volume: &mut V) -> Result<(), Failed>
    requires staged { (group : FrameGroup) × HasStaged V.Volume log.old volume.old group }
    ensures bytes { OnOk result ((group : FrameGroup) → HasStaged V.Volume log.old volume.old group
        → V.bytes volume.new ≡ option_map (with_sealed log.old.end group) (V.bytes volume.old)) }
    ensures settled { OnOk result (IsSettled V.Volume volume.new) }
    ensures entered { OnOk result ((group : FrameGroup) → HasStaged V.Volume log.old volume.old group
        → listed log.new.groups ≡ listed log.old.groups ++ row_at (log.old.end + 1) group ∷ []) }
    ensures gate { OnOk result (log.new.end + 1 ≡ V.size volume.new) }
    ensures keeps { OnOk result ((groups : List FrameGroup) (group : FrameGroup) → KeepsLog V.Volume log.old volume.old groups
        → HasStaged V.Volume log.old volume.old group → KeepsLog V.Volume log.new volume.new (groups ++ group ∷ [])) }
    ensures synced { OnOk result (IfSome (V.bytes volume.old) (λ _. Syncs (V.moment volume.old) (V.moment volume.new) (V.synced volume.old) (V.synced volume.new))) }
    ensures no_sync { OnErr result (NoSync (V.synced volume.old) (V.synced volume.new)) }
    ensures during { (groups : List FrameGroup) (group : FrameGroup) → KeepsLog V.Volume log.old volume.old groups → HasStaged V.Volume log.old volume.old group
        → IfSome (V.bytes volume.old) (λ _. (image : List ℕ) → V.was_image volume.new (V.moment volume.old) image
        → HasLog image (birth_of log.old.birth) groups ⊎ HasLog image (birth_of log.old.birth) (groups ++ group ∷ [])) }
    ensures opened { (groups : List FrameGroup) (group : FrameGroup) → KeepsLog V.Volume log.old volume.old groups → HasStaged V.Volume log.old volume.old group
        → IfSome (V.bytes volume.old) (λ _. (image : List ℕ) → V.was_image volume.new (V.moment volume.old) image
        → HasLog (slice_set image log.old.end OPEN) (birth_of log.old.birth) (groups ++ group ∷ [])) }
    ensures same { OnErr result (SameLog log.old log.new) }
    ensures calm { OnOk result (IsTrue (V.calm volume.new)) }
    ensures birth { log.new.birth ≡ log.old.birth }
    ensures told { IsSome (V.bytes volume.old) → IsSome (V.bytes volume.new) }
    ensures cause { OnErr result (Rose (V.faults volume.old) (V.faults volume.new)) }
    ensures no_fault { OnOk result (V.faults volume.new ≡ V.faults volume.old) }
    ensures on { GoesOn V.Volume volume.old volume.new }
{
    open_gate(volume, log.end)?;
    let Pending::Staged(row) = mem::replace(&mut log.pending, Pending::Nothing) else {
        unreachable!("a group is staged");
    };
    log.groups.rows.push_reserved(row);
    log.end = volume.len() - 1;
    Ok(())
}

// What is kept of the group that these bytes are, with the closed gate behind it, where it begins at this place.
fn read_row(alloc: Global, place: u64, bytes: &[u8]) -> Result<GroupRow, AllocError>
    requires { (group : FrameGroup) × IsFrameGroup group × (bytes.now ≡ sealed_bytes group) }
    ensures { IfOk result (λ row. (group : FrameGroup) → IsFrameGroup group → bytes.now ≡ sealed_bytes group → row ≡ row_at place group) }
{
    let mut fields = Fields::new(bytes);
    let Some(root) = RevisionRoot::read(&mut fields) else {
        unreachable!("a group begins with a head");
    };
    let count = ROW_BYTES * root.frames as usize + DIGEST_BYTES;
    let table = read_table(alloc, &fields.rest()[..count], root.frames)?;
    Ok(GroupRow { root, place, table })
}

// Makes five calls ready, and has the volume hold the piece for this place.
fn hold_piece<V: Volume>(
    alloc: Global,
    volume: &mut V,
    place: u64,
    piece: Arc<Vec<u8>>,
) -> Result<(), AllocError>
    ensures held { OnOk result (V.held volume.new ≡ Some (place, (arc_value piece).items)) }
    ensures spare { OnOk result (5 ≤ V.spare volume.new) }
    ensures nothing_done { OnErr result (V.held volume.new ≡ V.held volume.old) }
    ensures only { OnlyHolds V.Volume volume.old volume.new }
{
    volume.ready(alloc, 5)?;
    volume.hold(alloc, place, piece)
}

// Puts the held piece behind the gate, in place of what stood there, and syncs.
fn put_behind<V: Volume>(volume: &mut V, gate: u64) -> Result<(), Failed>
    requires gate { gate < V.size volume.old }
    requires held { IsHeldFor (V.held volume.old) (gate + 1) }
    requires spare { 3 ≤ V.spare volume.old }
    ensures put { OnOk result (V.bytes volume.new ≡ option_map (λ all. take (gate + 1) all ++ held_piece (V.held volume.old)) (V.bytes volume.old)) }
    ensures settled { OnOk result (IsSettled V.Volume volume.new) }
    ensures size { OnOk result (V.size volume.new ≡ gate + 1 + length (held_piece (V.held volume.old))) }
    ensures spare { V.spare volume.old ≤ V.spare volume.new + 3 }
    ensures calm { OnOk result (IsTrue (V.calm volume.new)) }
    ensures synced { OnOk result (IfSome (V.bytes volume.old) (λ _. Syncs (V.moment volume.old) (V.moment volume.new) (V.synced volume.old) (V.synced volume.new))) }
    ensures no_sync { OnErr result (NoSync (V.synced volume.old) (V.synced volume.new)) }
    ensures images { Follows (IsBehind gate) (V.is_image volume.old) (V.was_image volume.new (V.moment volume.old)) }
    ensures told { IsSome (V.bytes volume.old) → IsSome (V.bytes volume.new) }
    ensures cause { OnErr result (Rose (V.faults volume.old) (V.faults volume.new)) }
    ensures no_fault { OnOk result (V.faults volume.new ≡ V.faults volume.old) }
    ensures on { GoesOn V.Volume volume.old volume.new }
{
    cut_behind(volume, gate)?;
    volume.append()?;
    volume.sync()
}

// Cuts what stands behind the gate.
fn cut_behind<V: Volume>(volume: &mut V, gate: u64) -> Result<(), Failed>
    requires gate { gate < V.size volume.old }
    requires spare { 0 < V.spare volume.old }
    ensures cut { OnOk result (V.bytes volume.new ≡ option_map (λ all. take (gate + 1) all) (V.bytes volume.old)) }
    ensures size { OnOk result (V.size volume.new ≡ gate + 1) }
    ensures same_held { V.held volume.new ≡ V.held volume.old }
    ensures spare { V.spare volume.old ≤ V.spare volume.new + 1 }
    ensures no_sync { NoSync (V.synced volume.old) (V.synced volume.new) }
    ensures images { Follows (IsBehind gate) (V.is_image volume.old) (V.was_image volume.new (V.moment volume.old)) }
    ensures told { IsSome (V.bytes volume.old) → IsSome (V.bytes volume.new) }
    ensures cause { OnErr result (Rose (V.faults volume.old) (V.faults volume.new)) }
    ensures no_fault { OnOk result (V.faults volume.new ≡ V.faults volume.old) }
    ensures on { GoesOn V.Volume volume.old volume.new }
{
    let len = volume.len();
    if gate + 1 < len {
        volume.cut(gate + 1)?;
    }
    Ok(())
}

// Opens the gate, and syncs.
fn open_gate<V: Volume>(volume: &mut V, gate: u64) -> Result<(), Failed>
    requires gate { gate < V.size volume.old }
    requires spare { 2 ≤ V.spare volume.old }
    ensures opened { OnOk result (V.bytes volume.new ≡ option_map (λ all. slice_set all gate OPEN) (V.bytes volume.old)) }
    ensures settled { OnOk result (IsSettled V.Volume volume.new) }
    ensures size { V.size volume.new ≡ V.size volume.old }
    ensures calm { OnOk result (IsTrue (V.calm volume.new)) }
    ensures synced { OnOk result (IfSome (V.bytes volume.old) (λ _. Syncs (V.moment volume.old) (V.moment volume.new) (V.synced volume.old) (V.synced volume.new))) }
    ensures no_sync { OnErr result (NoSync (V.synced volume.old) (V.synced volume.new)) }
    ensures images { Follows (Puts gate) (V.is_image volume.old) (V.was_image volume.new (V.moment volume.old)) }
    ensures told { IsSome (V.bytes volume.old) → IsSome (V.bytes volume.new) }
    ensures cause { OnErr result (Rose (V.faults volume.old) (V.faults volume.new)) }
    ensures no_fault { OnOk result (V.faults volume.new ≡ V.faults volume.old) }
    ensures on { GoesOn V.Volume volume.old volume.new }
{
    volume.put_byte(gate, OPEN)?;
    volume.sync()
}
