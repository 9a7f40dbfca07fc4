//! The store of a volume is opened.
ghost use Rattle.std.specs.Prelude.{◌≡◌, ◌≢◌, ◌≤◌, [], List, ℕ, Some, None, IfSome, IfOk, IfErr, OnOk, OnErr, IsErrOf, IsSome};
ghost use Rattle.sx_layout.specs.Birth.{Birth};
ghost use Rattle.sx_layout.specs.Born.{Reading, Reads};
ghost use Rattle.sx_log.specs.Committing.{OnlyHolds};
ghost use Rattle.sx_model.specs.Commit.{Commit};
ghost use Rattle.sx_outside.specs.Faults.{Rose};
ghost use Rattle.sx_run.specs.Run.{book_of};
ghost use Rattle.sx_store.specs.Opening.{Explains, IsGiven, IsOther, IsSynced, IsSyncedOrNot};
ghost use Rattle.sx_store.specs.Shows.{Shows, birth_in, stage_of};
ghost use Rattle.sx_store.specs.Sound.{IsReadOf, IsSound};
ghost use Rattle.sx_volume.specs.Images.{Elapses};
ghost use Rattle.sx_whole.specs.Stands.{Stands};

use crate::Ledger;
use std::alloc::{AllocError, Global};
use std::sync::Arc;
use sx_log::LogFault;
use sx_reader::cells_of;
use sx_volume::Volume;

// The volume holds no piece any more.
fn drop_held<V: Volume>(alloc: Global, volume: &mut V) -> Result<(), AllocError>
    ensures held { OnOk result (V.held volume.new ≡ Some (0, [])) }
    ensures only { OnlyHolds V.Volume volume.old volume.new }
    ensures no_fault { V.faults volume.new ≡ V.faults volume.old }
{
    let nothing = Arc::new(alloc, Vec::new(alloc))?;
    volume.hold(alloc, 0, nothing)
}

/// Opens the store of a volume: it syncs, and reads the birth part and of each group the head and the table, and no frame.
///
/// # Errors
///
/// `Unborn` and `NotOurs` where the volume is such, `Damaged` for the first rule that is broken, `Failed` only where a call of the
/// volume failed, `OutOfMemory`.
pub fn open_one<V: Volume>(alloc: Global, volume: &mut V) -> Result<Ledger<V::Spot>, LogFault>
    ensures exactly { IfSome (V.bytes volume.old) (λ image. (reading : Reading) → Reads image reading → IsGiven V.Spot.Spot reading result) }
    ensures reads { IfOk result (λ ledger. IfSome (V.bytes volume.old) (λ image. IsReadOf V.Spot.Spot image ledger)) }
    ensures shows { IfOk result (λ ledger. (image : List ℕ) (birth : Birth) (commits : List Commit) → V.bytes volume.old ≡ Some image
        → Stands image (Some birth) commits → Shows V.Spot.Spot ledger (book_of commits) × (birth_in ledger ≡ birth)) }
    ensures writes { IfOk result (λ ledger. stage_of ledger ≡ None) }
    ensures undamaged { (image : List ℕ) (birth : Birth) (commits : List Commit) → V.bytes volume.old ≡ Some image → Stands image (Some birth) commits → IfErr result IsOther }
    ensures explains { IfErr result (Explains (V.bytes volume.old)) }

    ensures sound { IfOk result (λ ledger. IsSound V.Volume V.Spot.Spot volume.new ledger) }
    ensures told { IsSome (V.bytes volume.old) → IsSome (V.bytes volume.new) }
    ensures nothing_done { IfErr result (λ fault. fault ≢ LogFault.Failed → V.bytes volume.new ≡ V.bytes volume.old) }
    ensures same_bytes { OnOk result (V.bytes volume.new ≡ V.bytes volume.old) }
    ensures same_size { V.size volume.new ≡ V.size volume.old }
    ensures synced { OnOk result (IfSome (V.bytes volume.old) (λ image. IsSynced V.Volume image volume.old volume.new)) }
    ensures synced_or_not { OnErr result (IsSyncedOrNot V.Volume volume.old volume.new) }
    ensures time { Elapses (V.moment volume.old) (V.moment volume.new) (V.was_image volume.old) (V.was_image volume.new) (V.synced volume.old) (V.synced volume.new) }
    ensures cause { IsErrOf result LogFault.Failed → Rose (V.faults volume.old) (V.faults volume.new) }
    ensures no_fault { (IsErrOf result LogFault.Failed → ⊥) → V.faults volume.new ≡ V.faults volume.old }
    ensures never_falls { V.faults volume.old ≤ V.faults volume.new }
{
    let log = sx_log::open(alloc, volume)?;
    drop_held(alloc, volume)?;
    let cells = cells_of(alloc, volume, &log)?;
    Ok(Ledger {
        log,
        cells,
        draft: None,
        stopped: None,
    })
}
