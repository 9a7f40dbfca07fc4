//! All frames are checked.
ghost use Rattle.std.specs.Prelude.{◌≡◌, ◌≢◌, ◌≤◌, ◌⊎◌, List, ℕ, Some, IfErr, IfOk, IfSome, IsErrOf, OnOk, length};
ghost use Rattle.sx_bytes.specs.declared.damage.Damage.{Damage};
ghost use Rattle.sx_layout.specs.Birth.{Birth, IsNotOurs, IsUnborn};
ghost use Rattle.sx_layout.specs.Born.{Reading, Reads};
ghost use Rattle.sx_model.specs.Commit.{Commit};
ghost use Rattle.sx_outside.specs.Faults.{Rose};
ghost use Rattle.sx_reader.specs.Asked.{ExplainsSome, KeepAll};
ghost use Rattle.sx_run.specs.Run.{Book};
ghost use Rattle.sx_shell.specs.Still.{ChecksReading, IsChecked, IsCheckedDamage, IsDamage, IsUndamaged, IsUnwritten};
ghost use Rattle.sx_shell.specs.Still.{LeavesBytes, Writes, checked_line, unchecked_status};
ghost use Rattle.sx_store.specs.Shows.{Shows};
ghost use Rattle.sx_store.specs.Sound.{IsWhole};
ghost use Rattle.sx_whole.specs.Stands.{Stands};

use crate::Status;
use crate::status::status_of;
use crate::still_end::write_line;
use std::alloc::{AllocError, Global};
use sx_outside::Sink;
use sx_store::{CheckFault, Ledger, open_one};
use sx_volume::{ReadEnd, Spot, Volume};

/// Writes how many commits and frames there are, where all frames are whole, and a line feed.
pub(crate) fn check<V: Volume, K: Sink>(
    alloc: Global,
    volume: &mut V,
    end: &mut V::End,
    sink: &mut K,
) -> Status
    ensures checked { (image : List ℕ) (birth : Birth) (commits : List Commit) → V.bytes volume.old ≡ Some image
        → Stands image (Some birth) commits
        → V.End.tells end.old → IsChecked result × IsUndamaged result }
    ensures written { (image before : List ℕ) (birth : Birth) (commits : List Commit)
        → V.bytes volume.old ≡ Some image → Stands image (Some birth) commits
        → V.End.tells end.old → K.written sink.old ≡ Some before
        → (after : List ℕ) × (K.written sink.new ≡ Some after)
        × Writes (checked_line (length commits) (length commits)) result before after }
    ensures exactly { (image : List ℕ) (reading : Reading) → V.bytes volume.old ≡ Some image → Reads image reading
        → V.End.tells end.old → ChecksReading reading result }
    ensures damaged { (damage : Damage) → result ≡ Status.Damaged damage
        → IsDamage V.Spot.Spot (V.bytes volume.old) damage (IsCheckedDamage V.Spot.Spot (V.End.tells end.old) damage) }
    ensures unborn { result ≡ Status.Unborn → IfSome (V.bytes volume.old) IsUnborn }
    ensures not_ours { (first : ℕ) → result ≡ Status.NotOurs first
        → IfSome (V.bytes volume.old) (λ image. IsNotOurs image first) }
    ensures ends { (result ≢ Status.Usage) × (result ≢ Status.ReadFault) × (result ≢ Status.Born) }
    ensures never_missing { (asked seen : ℕ) → result ≢ Status.Missing asked seen }
    ensures unwritten { IsUnwritten result → sink.new ≡ sink.old }
    ensures kept { LeavesBytes V.Volume volume.old volume.new result }
    ensures volume_fault { result ≡ Status.VolumeFault → Rose (V.faults volume.old) (V.faults volume.new)
        ⊎ Rose (V.End.faults end.old) (V.End.faults end.new) }
    ensures write_fault { result ≡ Status.WriteFault → Rose (K.faults sink.old) (K.faults sink.new) }
    ensures volume_faults { V.faults volume.old ≤ V.faults volume.new }
    ensures end_faults { V.End.faults end.old ≤ V.End.faults end.new }
    ensures sink_faults { K.faults sink.old ≤ K.faults sink.new }
{
    match open_one(alloc, volume) {
        Ok(ledger) => write_line(sink, frames_line(alloc, &ledger, end)),
        Err(fault) => status_of(fault),
    }
}

// The line of all frames, where each of them is whole.
fn frames_line<S: Spot, E: ReadEnd<Spot = S>>(
    alloc: Global,
    ledger: &Ledger<S>,
    end: &mut E,
) -> Result<Vec<u8>, Status>
    requires whole { IsWhole S.Spot ledger.now }
    ensures line { (book : Book) → Shows S.Spot ledger.now book
        → IfOk result (λ line. line.items ≡ checked_line (length book.commits) (length book.commits)) }
    ensures undamaged { E.tells end.old → (book : Book) → Shows S.Spot ledger.now book → IfErr result IsUndamaged }
    ensures kept { OnOk result (E.tells end.old → KeepAll S.Spot ledger.now.log ledger.now.cells.items) }
    ensures checked { IfErr result IsChecked }
    ensures unwritten { IfErr result IsUnwritten }
    ensures damaged { (damage : Damage) → IsErrOf result (Status.Damaged damage)
        → IsCheckedDamage S.Spot (E.tells end.old) damage ledger.now }
    ensures cause { IsErrOf result Status.VolumeFault → Rose (E.faults end.old) (E.faults end.new) }
    ensures never_falls { E.faults end.old ≤ E.faults end.new }
{
    match ledger.check(alloc, end) {
        Ok(()) => counts_line(alloc, ledger.count(), ledger.frames()),
        Err(fault) => Err(unchecked_status(fault)),
    }
}

// The line of so many commits and frames.
fn counts_line(alloc: Global, commits: u32, frames: u32) -> Result<Vec<u8>, Status>
    ensures line { IfOk result (λ line. line.items ≡ checked_line commits frames) }
    ensures fault { IfErr result (λ status. status ≡ Status.OutOfMemory) }
{
    match format!(in alloc; "ok {commits} {frames}\n") {
        Ok(line) => Ok(line.into_bytes()),
        Err(AllocError) => Err(Status::OutOfMemory),
    }
}

// How a call ends that meets this fault of a check.
fn unchecked_status(fault: CheckFault) -> Status
    ensures { result ≡ unchecked_status fault }
{
    match fault {
        CheckFault::Failed => Status::VolumeFault,
        CheckFault::Damaged(damage) => Status::Damaged(damage),
        CheckFault::OutOfMemory => Status::OutOfMemory,
    }
}
