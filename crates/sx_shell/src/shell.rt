ghost use Rattle.std.specs.Prelude.{◌≡◌, ◌≢◌, ◌≤◌, ◌++◌, ◌↔◌, ◌⊎◌, List, ℕ, Option, Some, None, IfSome, IsSome, map, vec_len};
ghost use Rattle.std.specs.String.{string_bytes};
ghost use Rattle.sx_bytes.specs.declared.damage.Damage.{Damage};
ghost use Rattle.sx_layout.specs.Birth.{Birth, IsNotOurs, IsUnborn};
ghost use Rattle.sx_layout.specs.Born as born;
ghost use Rattle.sx_layout.specs.Born.{Reading, Reads};
ghost use Rattle.sx_model.specs.Commit.{Commit};
ghost use Rattle.sx_outside.specs.Faults.{Rose};
ghost use Rattle.sx_run.specs.Run.{Course, started};
ghost use Rattle.sx_script.specs.Waiting.{nothing_taken};
ghost use Rattle.sx_shell.specs.Desk.{IsEndOf, IsRead};
ghost use Rattle.sx_shell.specs.Done.{Continues, IsAt, place};
ghost use Rattle.sx_shell.specs.Live.{EndsAs, HasNoFault, HasRun, IsAfterOpening, IsKept, IsNoLog, IsRefusal, IsWhole};
ghost use Rattle.sx_shell.specs.Medium.{AllTell, EndsGoOn, medium};
ghost use Rattle.sx_shell.specs.Progress.{Advanced, Ended, Progress, Start};
ghost use Rattle.sx_shell.specs.Shows.{IsReady};
ghost use Rattle.sx_shell.specs.Words.{IsLive};
ghost use Rattle.sx_store.specs.Opening.{Explains, IsSynced, IsUnsynced};
ghost use Rattle.sx_store.specs.Shows.{stage_of};
ghost use Rattle.sx_whole.specs.Stands.{Stands};

use crate::Status;
use crate::desk::Desk;
use crate::serve::serve;
use crate::status::status_of;
use crate::words::live_file;
use std::alloc::Global;
use std::sync::Wait;
use sx_outside::{Clock, Gate, Sink, Source};
use sx_script::{Line, LineReader, PullFault, Pulled, command};
use sx_store::{LogFault, Writer, open_one};
use sx_volume::Volume;

/// Does all that `sirix live FILE` does: opens the volume, runs the script that the source gives, and writes
/// the replies to the sink, each before more of the source is asked for.
///
/// The words are those behind the program's name. End 0 reads for the writer's client `w`, and end i for reader i; where a read fails, or
/// what is read breaks a rule, the reply says so, and the run goes on. The gate is not used yet.
///
/// `Usage` comes exactly where the words are no such command, and then nothing is touched; `ReadFault` and `WriteFault` only where the
/// source or the sink failed; `VolumeFault` where the volume failed, at opening, or at the end of the input or at `quit` where it
/// failed in a commit; `Unborn` where the volume has no birth part yet, and `NotOurs` where it is none of this program; `Damaged` where
/// its birth part or a group breaks a rule, for the first that does. `Born` and `Missing` never come.
pub fn run_live<R: Wait, V: Volume, S: Source, K: Sink, C: Clock, G: Gate>(
    rt: &R,
    alloc: Global,
    words: &[String],
    volume: &mut V,
    ends: &mut Vec<V::End>,
    source: &mut S,
    sink: &mut K,
    clock: &mut C,
    gate: &G,
) -> Status
    requires { vec_len ends.old ≡ 32 }

    // Over a volume that stands for some commits, with a birth, and ends that tell what they read, the bytes written are those of a run
    // that begins over these, over the script's items, as far as the status says, and the volume then stands for the commits of that
    // run. A crash at any moment leaves commits of that run. A reply that a read failed is one that the client's end has counted.
    ensures run { (image input before : List ℕ) (birth : Birth) (commits : List Commit) → V.bytes volume.old ≡ Some image → Stands image (Some birth) commits
        → AllTell V.End.ReadEnd ends.old.items → S.left source.old ≡ Some input → K.written sink.old ≡ Some before
        → (left written : List ℕ) × (S.left source.new ≡ Some left) × (K.written sink.new ≡ Some (before ++ written))
        × HasRun (medium birth V.Volume V.Spot.Spot V.End.ReadEnd)
        (record { old = volume.old; new = volume.new; ends = ends.old.items; ends_after = ends.new.items })
        (started commits (C.moments clock.old)) (record { input = input; left = left; written = written }) result }

    // Where no count of faults rises, all of the script is run, unless memory runs out.
    ensures complete { IsLive (map string_bytes words.now) → (image : List ℕ) (birth : Birth) (commits : List Commit)
        → V.bytes volume.old ≡ Some image → Stands image (Some birth) commits
        → (Rose (S.faults source.old) (S.faults source.new) → ⊥) → (Rose (K.faults sink.old) (K.faults sink.new) → ⊥) → (Rose (V.faults volume.old) (V.faults volume.new) → ⊥)
        → (result ≡ Status.Done) ⊎ (result ≡ Status.OutOfMemory) }

    // Over a volume that keeps the rules, whatever it stands for, all that it has is kept, and a crash leaves it.
    ensures kept { IsLive (map string_bytes words.now) → (image : List ℕ) → V.bytes volume.old ≡ Some image → IsWhole image → IsKept V.Volume volume.old volume.new image result }

    ensures usage { (result ≡ Status.Usage) ↔ (IsLive (map string_bytes words.now) → ⊥) }
    ensures untouched { result ≡ Status.Usage
        → (volume.new ≡ volume.old) × (ends.new ≡ ends.old) × (source.new ≡ source.old) × (sink.new ≡ sink.old) × (clock.new ≡ clock.old) }
    ensures done { result ≡ Status.Done → (S.faults source.new ≡ S.faults source.old) × (K.faults sink.new ≡ K.faults sink.old) × (V.faults volume.new ≡ V.faults volume.old) }
    ensures read_fault { result ≡ Status.ReadFault → Rose (S.faults source.old) (S.faults source.new) }
    ensures write_fault { result ≡ Status.WriteFault → Rose (K.faults sink.old) (K.faults sink.new) }
    ensures volume_fault { result ≡ Status.VolumeFault → Rose (V.faults volume.old) (V.faults volume.new) }

    // A volume that is not opened is told by what its bytes are read as.
    ensures unborn { result ≡ Status.Unborn → IfSome (V.bytes volume.old) IsUnborn }
    ensures unborn_exactly { IsLive (map string_bytes words.now) → (image : List ℕ) → V.bytes volume.old ≡ Some image → IsUnborn image → EndsAs Status.Unborn result }
    ensures not_ours { (first : ℕ) → result ≡ Status.NotOurs first → IfSome (V.bytes volume.old) (λ image. IsNotOurs image first) }
    ensures not_ours_exactly { IsLive (map string_bytes words.now) → (image : List ℕ) (first : ℕ) → V.bytes volume.old ≡ Some image → IsNotOurs image first → EndsAs (Status.NotOurs first) result }
    ensures damaged { (damage : Damage) → result ≡ Status.Damaged damage → Explains (V.bytes volume.old) (LogFault.Damaged damage) }
    ensures damaged_exactly { IsLive (map string_bytes words.now) → (image : List ℕ) (damage : Damage) → V.bytes volume.old ≡ Some image → Reads image (born.Damaged damage) → EndsAs (Status.Damaged damage) result }
    // Nothing is read or written then, and the volume is as it was, its images too. So it is where its bytes are read so, whatever the
    // status is.
    ensures refused_alone { IsRefusal result → (ends.new ≡ ends.old) × (source.new ≡ source.old) × (sink.new ≡ sink.old) × (V.bytes volume.new ≡ V.bytes volume.old) }
    ensures unread { IfSome (V.bytes volume.old) (λ image. (reading : Reading) → Reads image reading → IsNoLog reading
        → (ends.new ≡ ends.old) × (source.new ≡ source.old) × (sink.new ≡ sink.old) × (result ≢ Status.VolumeFault → V.bytes volume.new ≡ V.bytes volume.old)) }
    ensures unread_images { IfSome (V.bytes volume.old) (λ image. (reading : Reading) → Reads image reading → IsNoLog reading
        → IsSynced V.Volume image volume.old volume.new ⊎ IsUnsynced V.Volume volume.old volume.new) }
    ensures born_never { result ≢ Status.Born }
    ensures missing_never { (asked seen : ℕ) → result ≢ Status.Missing asked seen }
    ensures told { IsSome (V.bytes volume.old) → IsSome (V.bytes volume.new) }
    ensures ends { vec_len ends.new ≡ 32 }
    ensures end_faults { EndsGoOn V.End.ReadEnd ends.old.items ends.new.items }
    ensures source_faults { S.faults source.old ≤ S.faults source.new }
    ensures sink_faults { K.faults sink.old ≤ K.faults sink.new }
    ensures volume_faults { V.faults volume.old ≤ V.faults volume.new }
{
    if live_file(words).is_none() {
        return Status::Usage;
    }
    let ledger = match open_one(alloc, volume) {
        Ok(ledger) => ledger,
        Err(fault) => return status_of(fault),
    };
    let mut desk = Desk {
        writer: Writer { volume, ledger },
        revisions: [0; 32],
    };
    let status = drive(rt, alloc, &mut desk, ends, source, sink, clock);
    let Desk { writer, .. } = desk;
    let Writer { volume, ledger } = writer;
    take_back(volume);
    drop(ledger);
    status
}

// The volume that a writer held is the caller's again.
fn take_back<V>(volume: &mut V)
    ensures { volume.new ≡ volume.old }
{}

// Runs the script from its first line on.
fn drive<R: Wait, V: Volume, S: Source, K: Sink, C: Clock>(
    rt: &R,
    alloc: Global,
    desk: &mut Desk<'_, V>,
    ends: &mut [V::End],
    source: &mut S,
    sink: &mut K,
    clock: &mut C,
) -> Status
    requires ready { IsReady V.Volume V.Spot.Spot desk.old.writer.volume.now desk.old.writer.ledger ends.old desk.old.revisions }
    requires going { stage_of desk.old.writer.ledger ≡ None }
    ensures same_reference { desk.new.writer.volume.ghost_name ≡ desk.old.writer.volume.ghost_name }
    ensures ready { IsReady V.Volume V.Spot.Spot desk.new.writer.volume.now desk.new.writer.ledger ends.new desk.new.revisions }
    ensures continues { Continues V.Volume V.Spot.Spot desk.old.writer.volume.now desk.new.writer.volume.now desk.old.writer.ledger desk.new.writer.ledger }
    ensures ends { EndsGoOn V.End.ReadEnd ends.old ends.new }
    ensures ran { (birth : Birth) (start : Start V.End) → Progress (medium birth V.Volume V.Spot.Spot V.End.ReadEnd) start (S.left source.old) nothing_taken (place desk.old.writer.volume.now desk.old.writer.ledger ends.old desk.old.revisions (K.written sink.old) (C.moments clock.old))
        → Ended (medium birth V.Volume V.Spot.Spot V.End.ReadEnd) start (S.left source.new) (place desk.new.writer.volume.now desk.new.writer.ledger ends.new desk.new.revisions (K.written sink.new) (C.moments clock.new)) result }
    ensures after_opening { IsAfterOpening result }
    ensures ended { IsEndOf (stage_of desk.new.writer.ledger) (Some result) }
    ensures read_fault { result ≡ Status.ReadFault → Rose (S.faults source.old) (S.faults source.new) }
    ensures write_fault { result ≡ Status.WriteFault → Rose (K.faults sink.old) (K.faults sink.new) }
    ensures no_read_fault { result ≡ Status.Done → S.faults source.new ≡ S.faults source.old }
    ensures no_write_fault { result ≡ Status.Done → K.faults sink.new ≡ K.faults sink.old }
    ensures source_faults { S.faults source.old ≤ S.faults source.new }
    ensures sink_faults { K.faults sink.old ≤ K.faults sink.new }
{
    let mut reader = LineReader::new(alloc);
    for _ in rt.forever() {
        if let Some(status) = advance(alloc, desk, ends, &mut reader, source, sink, clock) {
            return status;
        }
    }
    unreachable!()
}

// Takes one step of reading, and runs the line that it gives, where it gives one. The result is how the run ended.
fn advance<V: Volume, S: Source, K: Sink, C: Clock>(
    alloc: Global,
    desk: &mut Desk<'_, V>,
    ends: &mut [V::End],
    reader: &mut LineReader,
    source: &mut S,
    sink: &mut K,
    clock: &mut C,
) -> Option<Status>
    requires ready { IsReady V.Volume V.Spot.Spot desk.old.writer.volume.now desk.old.writer.ledger ends.old desk.old.revisions }
    ensures same_reference { desk.new.writer.volume.ghost_name ≡ desk.old.writer.volume.ghost_name }
    ensures ready { IsReady V.Volume V.Spot.Spot desk.new.writer.volume.now desk.new.writer.ledger ends.new desk.new.revisions }
    ensures continues { Continues V.Volume V.Spot.Spot desk.old.writer.volume.now desk.new.writer.volume.now desk.old.writer.ledger desk.new.writer.ledger }
    ensures ends { EndsGoOn V.End.ReadEnd ends.old ends.new }
    ensures ran { (birth : Birth) (start : Start V.End) → Progress (medium birth V.Volume V.Spot.Spot V.End.ReadEnd) start (S.left source.old) reader.old (place desk.old.writer.volume.now desk.old.writer.ledger ends.old desk.old.revisions (K.written sink.old) (C.moments clock.old))
        → Advanced (medium birth V.Volume V.Spot.Spot V.End.ReadEnd) start (S.left source.new) reader.new (place desk.new.writer.volume.now desk.new.writer.ledger ends.new desk.new.revisions (K.written sink.new) (C.moments clock.new)) result }
    ensures ended { IsEndOf (stage_of desk.new.writer.ledger) result }
    ensures read_fault { result ≡ Some Status.ReadFault → Rose (S.faults source.old) (S.faults source.new) }
    ensures write_fault { result ≡ Some Status.WriteFault → Rose (K.faults sink.old) (K.faults sink.new) }
    ensures no_read_fault { HasNoFault result → S.faults source.new ≡ S.faults source.old }
    ensures no_write_fault { HasNoFault result → K.faults sink.new ≡ K.faults sink.old }
    ensures source_faults { S.faults source.old ≤ S.faults source.new }
    ensures sink_faults { K.faults sink.old ≤ K.faults sink.new }
{
    match reader.pull(source) {
        Ok(Pulled::Line(line)) => read_line(alloc, desk, ends, sink, clock, line.as_slice()),
        Ok(Pulled::Long) => serve(alloc, desk, ends, sink, clock, &Line::Refused { client: 0 }),
        Ok(Pulled::More) => None,
        Ok(Pulled::End) => Some(desk.end()),
        Err(PullFault::Failed) => Some(Status::ReadFault),
        Err(PullFault::OutOfMemory) => Some(Status::OutOfMemory),
    }
}

// Reads what a line says, and serves it.
fn read_line<V: Volume, K: Sink, C: Clock>(
    alloc: Global,
    desk: &mut Desk<'_, V>,
    ends: &mut [V::End],
    sink: &mut K,
    clock: &mut C,
    line: &[u8],
) -> Option<Status>
    requires ready { IsReady V.Volume V.Spot.Spot desk.old.writer.volume.now desk.old.writer.ledger ends.old desk.old.revisions }
    ensures same_reference { desk.new.writer.volume.ghost_name ≡ desk.old.writer.volume.ghost_name }
    ensures ready { IsReady V.Volume V.Spot.Spot desk.new.writer.volume.now desk.new.writer.ledger ends.new desk.new.revisions }
    ensures continues { Continues V.Volume V.Spot.Spot desk.old.writer.volume.now desk.new.writer.volume.now desk.old.writer.ledger desk.new.writer.ledger }
    ensures ends { EndsGoOn V.End.ReadEnd ends.old ends.new }
    ensures read { (birth : Birth) (course : Course) → IsAt (medium birth V.Volume V.Spot.Spot V.End.ReadEnd) (place desk.old.writer.volume.now desk.old.writer.ledger ends.old desk.old.revisions (K.written sink.old) (C.moments clock.old)) course
        → IsRead (medium birth V.Volume V.Spot.Spot V.End.ReadEnd) course line.now (place desk.old.writer.volume.now desk.old.writer.ledger ends.old desk.old.revisions (K.written sink.old) (C.moments clock.old))
        (place desk.new.writer.volume.now desk.new.writer.ledger ends.new desk.new.revisions (K.written sink.new) (C.moments clock.new)) result }
    ensures ended { IsEndOf (stage_of desk.new.writer.ledger) result }
    ensures no_read { result ≢ Some Status.ReadFault }
    ensures write_fault { result ≡ Some Status.WriteFault → Rose (K.faults sink.old) (K.faults sink.new) }
    ensures no_fault { result ≢ Some Status.WriteFault → K.faults sink.new ≡ K.faults sink.old }
    ensures never_falls { K.faults sink.old ≤ K.faults sink.new }
{
    match command(alloc, line) {
        Ok(said) => serve(alloc, desk, ends, sink, clock, &said),
        Err(_) => Some(Status::OutOfMemory),
    }
}
