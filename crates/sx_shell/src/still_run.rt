//! The commands that run no script: a volume is made, a revision is shown, all frames are checked.
ghost use Rattle.std.specs.Prelude.{◌≡◌, ◌≢◌, ◌<◌, ◌≤◌, ◌⊎◌, List, ℕ, Option, Some, IfSome, length, map};
ghost use Rattle.std.specs.String.{string_bytes};
ghost use Rattle.sx_bytes.specs.declared.damage.Damage.{Damage};
ghost use Rattle.sx_layout.specs.Birth.{Birth, IsNotOurs, IsUnborn};
ghost use Rattle.sx_layout.specs.Born.{Reading, Reads};
ghost use Rattle.sx_log.specs.Calls.{IsSettled, IsUnsynced};
ghost use Rattle.sx_log.specs.Creating.{IsEmptySince, IsTaken, Tells, newborn};
ghost use Rattle.sx_model.specs.Commit.{Commit};
ghost use Rattle.sx_outside.specs.Faults.{Rose};
ghost use Rattle.sx_shell.specs.Still.{ChecksReading, IsChecked, IsCheckedDamage, IsDamage, IsLeft, IsMade, IsNotMade};
ghost use Rattle.sx_shell.specs.Still.{IsOfCreate, IsShown, IsShownDamage};
ghost use Rattle.sx_shell.specs.Still.{IsUndamaged, IsUnwritten, LeavesBytes, ShowsReading, WantsNone, WantsReading};
ghost use Rattle.sx_shell.specs.Still.{Writes, checked_line, due_status, shown_line};
ghost use Rattle.sx_shell.specs.Words.{wanted};
ghost use Rattle.sx_whole.specs.Stands.{Stands};

use crate::Status;
use crate::command::Wanted;
use crate::still_check::check;
use crate::still_create::make;
use crate::still_show::show;
use crate::words::wanted;
use std::alloc::Global;
use sx_outside::Sink;
use sx_volume::Volume;

/// Does all that `sirix create`, `sirix show` and `sirix check` do: makes a volume, or writes the text of a revision or how
/// many commits and frames there are, and a line feed. The words are those behind the program's name.
///
/// `Usage` comes only where the words are none of these commands, and then nothing is touched. `NotOurs`, `Unborn`, `Born`
/// and `Damaged` come where the volume is such, `Missing` where `show` asks for a revision that is not there; `VolumeFault`
/// only where the volume or the end failed, `WriteFault` only where the sink did. Nothing is written before all is known.
pub fn run_still<V: Volume, K: Sink>(
    alloc: Global,
    words: &[String],
    volume: &mut V,
    end: &mut V::End,
    sink: &mut K,
) -> Status
    ensures usage { result ≡ Status.Usage → WantsNone (wanted (map string_bytes words.now)) }
    ensures no_command { WantsNone (wanted (map string_bytes words.now)) → (result ≡ Status.Usage)
        ⊎ (result ≡ Status.OutOfMemory) }
    ensures untouched { WantsNone (wanted (map string_bytes words.now)) → (volume.new ≡ volume.old)
        × (end.new ≡ end.old) × (sink.new ≡ sink.old) }

    // `create`
    ensures made { (file from to : List ℕ) (window : ℕ)
        → wanted (map string_bytes words.now) ≡ Some (Wanted.Create file window from to)
        → IsOfCreate result × IfSome (V.bytes volume.old) (λ image. IsMade image result) }
    ensures newborn { (file from to : List ℕ) (window : ℕ)
        → wanted (map string_bytes words.now) ≡ Some (Wanted.Create file window from to)
        → result ≡ Status.Done
        → Tells (newborn (record { window = window; from = from; to = to })) (V.bytes volume.old) (V.bytes volume.new)
        × IsSettled V.Volume volume.new }
    ensures empty { (file from to : List ℕ) (window : ℕ)
        → wanted (map string_bytes words.now) ≡ Some (Wanted.Create file window from to)
        → IfSome (V.bytes volume.old) (λ image. IsUnborn image
        → IsEmptySince V.Volume volume.old volume.new ⊎ ((result ≢ Status.Done) × IsUnsynced V.Volume volume.old volume.new)) }
    ensures taken { (file from to : List ℕ) (window : ℕ)
        → wanted (map string_bytes words.now) ≡ Some (Wanted.Create file window from to)
        → IfSome (V.bytes volume.old) (λ image. IsTaken image → IsLeft V.Volume image volume.old volume.new result) }
    ensures not_made { (file from to : List ℕ) (window : ℕ)
        → wanted (map string_bytes words.now) ≡ Some (Wanted.Create file window from to)
        → IsNotMade result → V.bytes volume.new ≡ V.bytes volume.old }
    ensures nothing_written { (file from to : List ℕ) (window : ℕ)
        → wanted (map string_bytes words.now) ≡ Some (Wanted.Create file window from to)
        → (end.new ≡ end.old) × (sink.new ≡ sink.old) }

    // `show`
    ensures shown { (file image : List ℕ) (r : ℕ) (birth : Birth) (commits : List Commit)
        → wanted (map string_bytes words.now) ≡ Some (Wanted.Show file r)
        → V.bytes volume.old ≡ Some image → Stands image (Some birth) commits → V.End.tells end.old
        → IsShown (length commits) r result × IsUndamaged result }
    ensures text { (file image before : List ℕ) (r : ℕ) (birth : Birth) (commits : List Commit)
        → wanted (map string_bytes words.now) ≡ Some (Wanted.Show file r)
        → V.bytes volume.old ≡ Some image → Stands image (Some birth) commits → V.End.tells end.old
        → K.written sink.old ≡ Some before
        → (after : List ℕ) × (K.written sink.new ≡ Some after) × Writes (shown_line commits r) result before after }
    ensures shows_exactly { (file image : List ℕ) (r : ℕ) (reading : Reading)
        → wanted (map string_bytes words.now) ≡ Some (Wanted.Show file r)
        → V.bytes volume.old ≡ Some image → Reads image reading → ShowsReading reading r result }
    ensures shows_damage { (file : List ℕ) (r : ℕ) (damage : Damage)
        → wanted (map string_bytes words.now) ≡ Some (Wanted.Show file r)
        → result ≡ Status.Damaged damage
        → IsDamage V.Spot.Spot (V.bytes volume.old) damage (IsShownDamage V.Spot.Spot (V.End.tells end.old) r damage) }

    // `check`
    ensures checked { (file image : List ℕ) (birth : Birth) (commits : List Commit)
        → wanted (map string_bytes words.now) ≡ Some (Wanted.Check file)
        → V.bytes volume.old ≡ Some image → Stands image (Some birth) commits → V.End.tells end.old
        → IsChecked result × IsUndamaged result }
    ensures counts { (file image before : List ℕ) (birth : Birth) (commits : List Commit)
        → wanted (map string_bytes words.now) ≡ Some (Wanted.Check file)
        → V.bytes volume.old ≡ Some image → Stands image (Some birth) commits → V.End.tells end.old
        → K.written sink.old ≡ Some before
        → (after : List ℕ) × (K.written sink.new ≡ Some after)
        × Writes (checked_line (length commits) (length commits)) result before after }
    ensures checks_exactly { (file image : List ℕ) (reading : Reading)
        → wanted (map string_bytes words.now) ≡ Some (Wanted.Check file)
        → V.bytes volume.old ≡ Some image → Reads image reading → V.End.tells end.old → ChecksReading reading result }
    ensures checks_damage { (file : List ℕ) (damage : Damage)
        → wanted (map string_bytes words.now) ≡ Some (Wanted.Check file)
        → result ≡ Status.Damaged damage
        → IsDamage V.Spot.Spot (V.bytes volume.old) damage (IsCheckedDamage V.Spot.Spot (V.End.tells end.old) damage) }

    // Where no count of faults rises over a volume that stands, with or without a birth, the end is the one that is due.
    ensures complete { (asked : Wanted) (image : List ℕ) (birth : Option Birth) (commits : List Commit)
        → wanted (map string_bytes words.now) ≡ Some asked
        → V.bytes volume.old ≡ Some image → Stands image birth commits → V.End.tells end.old
        → (Rose (V.faults volume.old) (V.faults volume.new) → ⊥)
        → (Rose (V.End.faults end.old) (V.End.faults end.new) → ⊥)
        → (Rose (K.faults sink.old) (K.faults sink.new) → ⊥) → (result ≡ due_status asked birth commits)
        ⊎ (result ≡ Status.OutOfMemory) }

    ensures kept { WantsReading (wanted (map string_bytes words.now))
        → LeavesBytes V.Volume volume.old volume.new result }
    ensures unwritten { IsUnwritten result → sink.new ≡ sink.old }
    ensures unborn { result ≡ Status.Unborn → WantsReading (wanted (map string_bytes words.now))
        × IfSome (V.bytes volume.old) IsUnborn }
    ensures not_ours { (first : ℕ) → result ≡ Status.NotOurs first
        → WantsReading (wanted (map string_bytes words.now))
        → IfSome (V.bytes volume.old) (λ image. IsNotOurs image first) }
    ensures born { result ≡ Status.Born → (file from to : List ℕ) × (window : ℕ)
        × (wanted (map string_bytes words.now) ≡ Some (Wanted.Create file window from to)) }
    ensures missing { (asked seen : ℕ) → result ≡ Status.Missing asked seen
        → (file : List ℕ) × (wanted (map string_bytes words.now) ≡ Some (Wanted.Show file asked)) × (seen < asked) }
    ensures never_read { result ≢ Status.ReadFault }
    ensures volume_fault { result ≡ Status.VolumeFault → Rose (V.faults volume.old) (V.faults volume.new)
        ⊎ Rose (V.End.faults end.old) (V.End.faults end.new) }
    ensures write_fault { result ≡ Status.WriteFault → Rose (K.faults sink.old) (K.faults sink.new) }
    ensures volume_faults { V.faults volume.old ≤ V.faults volume.new }
    ensures end_faults { V.End.faults end.old ≤ V.End.faults end.new }
    ensures sink_faults { K.faults sink.old ≤ K.faults sink.new }
{
    match wanted(alloc, words) {
        Ok(
            Some(
                Wanted::Create {
                    window,
                    from,
                    to,
                    ..
                },
            ),
        ) => make(alloc, volume, &sx_log::Birth { window, from, to }),
        Ok(Some(Wanted::Show { revision, .. })) => show(alloc, volume, end, sink, revision),
        Ok(Some(Wanted::Check { .. })) => check(alloc, volume, end, sink),
        Ok(Some(Wanted::Live { .. }) | None) => Status::Usage,
        Err(_) => Status::OutOfMemory,
    }
}
