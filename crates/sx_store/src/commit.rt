//! The open edits are made a revision.
ghost use Rattle.std.specs.Prelude.{◌≡◌, ◌+◌, ◌<◌, ◌≤◌, ◌≤ℤ◌, ◌≢◌, ◌↔◌, ◌⊎◌, ◌++◌, [], ◌∷◌, List, ℕ, ℤ, IfOk, take, drop, vec_len, vec_capacity, None, Some, Err, IfErr, IfSome, IsErrOf, IsSome, OnErr, OnOk, FitsSigned};
ghost use Rattle.sx_bytes.specs.declared.damage.Damage.{Damage};
ghost use Rattle.sx_layout.specs.FrameGroup.{FrameGroup};
ghost use Rattle.sx_log.specs.Calls.{GoesOn};
ghost use Rattle.sx_log.specs.Committing.{HoldsNext, IsNext, KeepsLog, OnlyHolds, SameLog, sealed_bytes};
ghost use Rattle.sx_log.specs.Kept.{listed, row_at};
ghost use Rattle.sx_outside.specs.Faults.{Rose};
ghost use Rattle.sx_reader.specs.Cells.{IsCell, placed};
ghost use Rattle.sx_run.specs.Run.{Book, current, next_commit};
ghost use Rattle.sx_store.specs.Commits.{Adds, Commits, IsNoFailure, IsWriteFault, Leaves, LeavesLog, LeavesWritten};
ghost use Rattle.sx_store.specs.Damage.{IsCommitDamage};
ghost use Rattle.sx_store.specs.Groups.{IsGroupAfter};
ghost use Rattle.sx_store.specs.Shows.{Shows, birth_in, count_of, last_root_of, stage_of};
ghost use Rattle.sx_store.specs.Room.{room};
ghost use Rattle.sx_store.specs.Sound.{GrowsFrom, HoldAll, IsSound, IsWhole, SameBut, SameDraft};
ghost use Rattle.sx_volume.specs.Images.{Elapses};
ghost use Rattle.sx_whole.specs.Stands.{ShowsState};

use crate::Ledger;
use crate::fault::{CommitFault, Committed};
use crate::group::{NewGroup, make_group};
use std::alloc::{AllocError, Global};
use std::sync::Arc;
use sx_reader::{Cell, cell_in};
use sx_root::RevisionRoot;
use sx_volume::{ReadEnd, Spot, Volume};

/// Bytes of a group with one frame in front of the frame.
const FRAME_PLACE: u64 = 116;

/// The group of the open edits, which follows the last revision and has this time. The open edits are the same after it.
pub(crate) fn next_group<S: Spot, E: ReadEnd<Spot = S>>(
    alloc: Global,
    ledger: &mut Ledger<S>,
    end: &mut E,
    last: &RevisionRoot,
    time: i64,
) -> Result<NewGroup, CommitFault>
    requires whole { IsWhole S.Spot ledger.old }
    requires last { last.now ≡ last_root_of ledger.old }
    requires after { last.now.time ≤ℤ time }
    ensures group { IfOk result (IsGroupAfter last.now) }
    ensures time { IfOk result (λ made. made.root.time ≡ time) }
    ensures has { E.tells end.old → (book : Book) → Shows S.Spot ledger.old book → IfOk result (λ made. (group : FrameGroup)
        × ShowsState (last.now.revision + 1) time (current book) group × (made.root ≡ group.root) × (made.bytes.items ≡ sealed_bytes group)
        × (made.row ∷ [] ≡ group.table)) }
    ensures room { E.tells end.old → (book : Book) → Shows S.Spot ledger.old book → (moment : ℤ) → OnOk result (room (book.commits ++ next_commit book moment ∷ []) ≡ None) }
    ensures refuses { E.tells end.old → (book : Book) → Shows S.Spot ledger.old book → (moment : ℤ)
        → IfErr result (λ fault. Commits S.Spot book (next_commit book moment) (Err fault) ledger.new) }
    ensures shown { E.tells end.old → (book : Book) → Shows S.Spot ledger.old book → Shows S.Spot ledger.new book }
    ensures same { SameBut ledger.old ledger.new }
    ensures same_draft { SameDraft S.Spot (E.tells end.old) ledger.old ledger.new }
    ensures no_failure { IfErr result IsNoFailure }
    ensures not_stopped { (stage : ℕ) → IsErrOf result (CommitFault.Stopped stage) → ⊥ }
    ensures read_failed { IsErrOf result CommitFault.ReadFailed → Rose (E.faults end.old) (E.faults end.new) }
    ensures damaged { (damage : Damage) → IsErrOf result (CommitFault.Damaged damage) → IsCommitDamage S.Spot (E.tells end.old) ledger.old.draft ledger.old damage }
    ensures one_read { E.reads end.new ≤ E.reads end.old + 1 }
    ensures goes_on_telling { E.tells end.old → E.tells end.new }
    ensures never_falls { E.faults end.old ≤ E.faults end.new }
{
    let place = ledger.log.end + 1;
    let mut draft = ledger.take_draft(alloc, end)?;
    let made = make_group(alloc, last, &mut draft, time, place);
    ledger.draft = Some(draft);
    made
}

/// Makes the group a revision.
pub(crate) fn add<V: Volume>(
    alloc: Global,
    ledger: &mut Ledger<V::Spot>,
    volume: &mut V,
    group: NewGroup,
) -> Result<Committed, CommitFault>
    requires sound { IsSound V.Volume V.Spot.Spot volume.old ledger.old }
    requires writes { stage_of ledger.old ≡ None }
    requires next { IsGroupAfter (last_root_of ledger.old) group }
    ensures sound { IsSound V.Volume V.Spot.Spot volume.new ledger.new }
    ensures adds { OnOk result (IfSome (V.bytes volume.old) (λ _. (next : FrameGroup) → IsNext (listed ledger.old.log.groups) group.bytes.items next → next.table ≡ group.row ∷ []
        → Adds V.Spot.Spot ledger.old next ledger.new)) }
    ensures leaves { IfSome (V.bytes volume.old) (λ _. (next : FrameGroup) → IsNext (listed ledger.old.log.groups) group.bytes.items next
        → LeavesLog V.Spot.Spot ledger.old next result (V.moment volume.old) (V.was_image volume.new) (V.synced volume.new)) }
    ensures done { IfOk result (λ done. (done.revision ≡ group.root.revision) × (done.time ≡ group.root.time)) }
    ensures goes_on { OnOk result ((stage_of ledger.new ≡ None) × (ledger.new.draft ≡ None)) }
    ensures fails { (stage : ℕ) → IsErrOf result (CommitFault.Failed stage) → (stage_of ledger.new ≡ Some stage) × (ledger.new.draft ≡ None)
        × SameLog ledger.old.log ledger.new.log × (ledger.new.cells.items ≡ ledger.old.cells.items) × ((stage ≡ 1) ⊎ (stage ≡ 2)) }
    ensures refuses { IfErr result IsWriteFault }
    ensures same_ledger { IfErr result (λ fault. IsNoFailure fault → SameBut ledger.old ledger.new × (ledger.new.draft ≡ ledger.old.draft)) }
    ensures same_bytes { IfErr result (λ fault. IsNoFailure fault → V.bytes volume.new ≡ V.bytes volume.old) }
    ensures same_birth { birth_in ledger.new ≡ birth_in ledger.old }
    ensures counts { OnOk result (count_of ledger.new ≡ count_of ledger.old + 1) }
    ensures told { IsSome (V.bytes volume.old) → IsSome (V.bytes volume.new) }
    ensures time { Elapses (V.moment volume.old) (V.moment volume.new) (V.was_image volume.old) (V.was_image volume.new) (V.synced volume.old) (V.synced volume.new) }
    ensures cause { IfErr result (λ fault. (stage : ℕ) → fault ≡ CommitFault.Failed stage → Rose (V.faults volume.old) (V.faults volume.new)) }
    ensures no_fault { ((stage : ℕ) → IsErrOf result (CommitFault.Failed stage) → ⊥) → V.faults volume.new ≡ V.faults volume.old }
    ensures never_falls { V.faults volume.old ≤ V.faults volume.new }
{
    let root = group.root;
    let cell = hold_group(alloc, ledger, volume, group)?;
    if let Err(stage) = write_group(ledger, volume) {
        ledger.draft = None;
        ledger.stopped = Some(stage);
        return Err(CommitFault::Failed { stage });
    }
    ledger.cells.push_reserved(cell);
    ledger.draft = None;
    Ok(Committed {
        revision: root.revision,
        time: root.time,
    })
}

// Takes all memory that the commit needs: the volume holds the group, whose frame has the cell.
fn hold_group<V: Volume>(
    alloc: Global,
    ledger: &mut Ledger<V::Spot>,
    volume: &mut V,
    group: NewGroup,
) -> Result<Cell<V::Spot>, AllocError>
    requires sound { IsSound V.Volume V.Spot.Spot volume.old ledger.old }
    requires writes { stage_of ledger.old ≡ None }
    requires next { IsGroupAfter (last_root_of ledger.old) group }
    ensures sound { IsSound V.Volume V.Spot.Spot volume.new ledger.new }
    ensures held { OnOk result ((next : FrameGroup) → IsNext (listed ledger.old.log.groups) group.bytes.items next → HoldsNext V.Volume ledger.new.log volume.new next) }
    ensures cell { IfOk result (λ cell. (placed cell ≡ (ledger.old.log.end + 117, group.row)) × IsCell V.Spot.Spot cell) }
    ensures content { IfOk result (λ cell. IfSome (V.bytes volume.old) (λ _. V.Spot.content cell.spot ≡ Some (take group.row.bytes (drop 116 group.bytes.items)))) }
    ensures room { OnOk result (vec_len ledger.new.cells < vec_capacity ledger.new.cells) }
    ensures same { SameBut ledger.old ledger.new }
    ensures same_draft { ledger.new.draft ≡ ledger.old.draft }
    ensures only { OnlyHolds V.Volume volume.old volume.new }
{
    let NewGroup { row, bytes, .. } = group;
    let place = ledger.log.end + 1 + FRAME_PLACE;
    let bytes = Arc::new(alloc, bytes)?;
    ledger.cells.reserve(1)?;
    sx_log::hold(alloc, &mut ledger.log, volume, bytes)?;
    cell_in(alloc, volume, place, row)
}

// Writes the group that is held. An error is the stage that failed.
fn write_group<V: Volume>(ledger: &mut Ledger<V::Spot>, volume: &mut V) -> Result<(), u8>
    requires held { (group : FrameGroup) × HoldsNext V.Volume ledger.old.log volume.old group }
    requires gate { ledger.old.log.end < V.size volume.old }
    ensures entered { OnOk result ((group : FrameGroup) → HoldsNext V.Volume ledger.old.log volume.old group
        → listed ledger.new.log.groups ≡ listed ledger.old.log.groups ++ row_at (ledger.old.log.end + 1) group ∷ []) }
    ensures keeps { OnOk result ((groups : List FrameGroup) (group : FrameGroup) → KeepsLog V.Volume ledger.old.log volume.old groups
        → HoldsNext V.Volume ledger.old.log volume.old group → KeepsLog V.Volume ledger.new.log volume.new (groups ++ group ∷ [])) }
    ensures leaves { (groups : List FrameGroup) (group : FrameGroup) → KeepsLog V.Volume ledger.old.log volume.old groups → HoldsNext V.Volume ledger.old.log volume.old group
        → IfSome (V.bytes volume.old) (λ _. LeavesWritten (birth_in ledger.old) groups group result (V.moment volume.old) (V.was_image volume.new) (V.synced volume.new)) }
    ensures tells { OnOk result (IsSome (V.bytes volume.new) → IsSome (V.bytes volume.old)) }
    ensures stage { IfErr result (λ stage. (stage ≡ 1) ⊎ (stage ≡ 2)) }
    ensures same { OnErr result (SameLog ledger.old.log ledger.new.log) }
    ensures birth { ledger.new.log.birth ≡ ledger.old.log.birth }
    ensures others { (ledger.new.cells ≡ ledger.old.cells) × (ledger.new.draft ≡ ledger.old.draft) × (ledger.new.stopped ≡ ledger.old.stopped) }
    ensures told { IsSome (V.bytes volume.old) → IsSome (V.bytes volume.new) }
    ensures cause { OnErr result (Rose (V.faults volume.old) (V.faults volume.new)) }
    ensures no_fault { OnOk result (V.faults volume.new ≡ V.faults volume.old) }
    ensures on { GoesOn V.Volume volume.old volume.new }
{
    if sx_log::stage(&mut ledger.log, volume).is_err() {
        return Err(1);
    }
    if sx_log::seal_group(&mut ledger.log, volume).is_err() {
        return Err(2);
    }
    Ok(())
}
