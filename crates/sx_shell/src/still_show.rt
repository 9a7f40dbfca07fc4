//! A revision is shown.
ghost use Rattle.std.specs.Prelude.{◌≡◌, ◌≢◌, ◌≤◌, ◌⊎◌, List, ℕ, Some, IfErr, IfOk, IfSome, IsErrOf, OnOk, ◌++◌, ◌<◌};
ghost use Rattle.std.specs.Prelude.{length};
ghost use Rattle.sx_bytes.specs.declared.damage.Damage.{Damage};
ghost use Rattle.sx_layout.specs.Birth.{Birth, IsNotOurs, IsUnborn};
ghost use Rattle.sx_layout.specs.Born.{Reading, Reads};
ghost use Rattle.sx_model.specs.Commit.{Commit};
ghost use Rattle.sx_outside.specs.Faults.{Rose};
ghost use Rattle.sx_query.specs.Gives.{IsText};
ghost use Rattle.sx_run.specs.Run.{Book};
ghost use Rattle.sx_shell.specs.Still.{IsDamage, IsShown, IsShownDamage, IsUndamaged, IsUnwritten, LeavesBytes};
ghost use Rattle.sx_shell.specs.Still.{ShowsReading, Writes, answered_line, shown_line, unanswered_status};
ghost use Rattle.sx_store.specs.Shows.{Shows, count_of};
ghost use Rattle.sx_store.specs.Sound.{IsWhole};
ghost use Rattle.sx_whole.specs.Stands.{Stands};

use crate::Status;
use crate::status::status_of;
use crate::still_end::write_line;
use std::alloc::{AllocError, Global};
use sx_cursor::broken_link;
use sx_outside::Sink;
use sx_store::{Ledger, QueryFault, open_one};
use sx_tree::query::{Answer, Query};
use sx_volume::{ReadEnd, Spot, Volume};

/// Writes the text of a revision, or `empty` where the document has no value, and a line feed.
pub(crate) fn show<V: Volume, K: Sink>(
    alloc: Global,
    volume: &mut V,
    end: &mut V::End,
    sink: &mut K,
    revision: u32,
) -> Status
    ensures shown { (image : List ℕ) (birth : Birth) (commits : List Commit) → V.bytes volume.old ≡ Some image
        → Stands image (Some birth) commits
        → V.End.tells end.old → IsShown (length commits) revision result × IsUndamaged result }
    ensures written { (image before : List ℕ) (birth : Birth) (commits : List Commit)
        → V.bytes volume.old ≡ Some image → Stands image (Some birth) commits
        → V.End.tells end.old → K.written sink.old ≡ Some before → (after : List ℕ)
        × (K.written sink.new ≡ Some after) × Writes (shown_line commits revision) result before after }
    ensures exactly { (image : List ℕ) (reading : Reading) → V.bytes volume.old ≡ Some image → Reads image reading
        → ShowsReading reading revision result }
    ensures damaged { (damage : Damage) → result ≡ Status.Damaged damage
        → IsDamage V.Spot.Spot (V.bytes volume.old) damage (IsShownDamage V.Spot.Spot (V.End.tells end.old) revision damage) }
    ensures unborn { result ≡ Status.Unborn → IfSome (V.bytes volume.old) IsUnborn }
    ensures not_ours { (first : ℕ) → result ≡ Status.NotOurs first
        → IfSome (V.bytes volume.old) (λ image. IsNotOurs image first) }
    ensures missing { (asked seen : ℕ) → result ≡ Status.Missing asked seen → (asked ≡ revision) × (seen < revision) }
    ensures ends { (result ≢ Status.Usage) × (result ≢ Status.ReadFault) × (result ≢ Status.Born) }
    ensures unwritten { IsUnwritten result → sink.new ≡ sink.old }
    ensures kept { LeavesBytes V.Volume volume.old volume.new result }
    ensures volume_fault { result ≡ Status.VolumeFault → Rose (V.faults volume.old) (V.faults volume.new)
        ⊎ Rose (V.End.faults end.old) (V.End.faults end.new) }
    ensures write_fault { result ≡ Status.WriteFault → Rose (K.faults sink.old) (K.faults sink.new) }
    ensures volume_faults { V.faults volume.old ≤ V.faults volume.new }
    ensures end_faults { V.End.faults end.old ≤ V.End.faults end.new }
    ensures sink_faults { K.faults sink.old ≤ K.faults sink.new }
{
    match open_one(alloc, volume) {
        Ok(ledger) => write_line(sink, revision_line(alloc, &ledger, end, revision)),
        Err(fault) => status_of(fault),
    }
}

// The line of a revision.
fn revision_line<S: Spot, E: ReadEnd<Spot = S>>(
    alloc: Global,
    ledger: &Ledger<S>,
    end: &mut E,
    revision: u32,
) -> Result<Vec<u8>, Status>
    requires whole { IsWhole S.Spot ledger.now }
    ensures line { E.tells end.old → (book : Book) → Shows S.Spot ledger.now book
        → IfOk result (λ line. line.items ≡ shown_line book.commits revision) }
    ensures undamaged { E.tells end.old → (book : Book) → Shows S.Spot ledger.now book → IfErr result IsUndamaged }
    ensures there { OnOk result (revision ≤ count_of ledger.now) }
    ensures shown { IfErr result (IsShown (count_of ledger.now) revision) }
    ensures unwritten { IfErr result IsUnwritten }
    ensures damaged { (damage : Damage) → IsErrOf result (Status.Damaged damage)
        → IsShownDamage S.Spot (E.tells end.old) revision damage ledger.now }
    ensures cause { IsErrOf result Status.VolumeFault → Rose (E.faults end.old) (E.faults end.new) }
    ensures never_falls { E.faults end.old ≤ E.faults end.new }
{
    let seen = ledger.count();
    if revision > seen {
        return Err(Status::Missing {
            asked: revision,
            seen,
        });
    }
    match ledger.answer(alloc, end, revision, &Query::Text(0)) {
        Ok(answer) => answer_line(alloc, &answer),
        Err(fault) => Err(unanswered_status(fault)),
    }
}

// The line of a text.
fn answer_line(alloc: Global, answer: &Answer) -> Result<Vec<u8>, Status>
    requires { IsText answer.now }
    ensures line { IfOk result (λ line. line.items ≡ answered_line answer.now) }
    ensures fault { IfErr result (λ status. status ≡ Status.OutOfMemory) }
{
    let mut line = Vec::new(alloc);
    match append_answer(&mut line, answer) {
        Ok(()) => Ok(line),
        Err(AllocError) => Err(Status::OutOfMemory),
    }
}

// Appends the line of a text.
fn append_answer(line: &mut Vec<u8>, answer: &Answer) -> Result<(), AllocError>
    requires { IsText answer.now }
    ensures { OnOk result (line.new.items ≡ line.old.items ++ answered_line answer.now) }
{
    match answer {
        Answer::Text(text) => line.extend_from_slice(text.as_slice())?,
        Answer::Empty => line.extend_from_slice(b"empty")?,
        _ => unreachable!("the answer is a text"),
    }
    line.push(b'\n')?;
    Ok(())
}

// How a call ends whose question for the text of the Document has no answer.
fn unanswered_status(fault: QueryFault) -> Status
    requires missing { (asked seen : ℕ) → fault ≢ QueryFault.Missing asked seen }
    requires path { (path : ℕ) → fault ≢ QueryFault.NoPath path }
    ensures { result ≡ unanswered_status fault }
{
    match fault {
        QueryFault::Missing { .. } => unreachable!("the revision is there"),
        QueryFault::NoNode { node } => Status::Damaged(broken_link(0, node)),
        QueryFault::NoPath { .. } => unreachable!("no path is asked for"),
        QueryFault::Failed => Status::VolumeFault,
        QueryFault::Damaged(damage) => Status::Damaged(damage),
        QueryFault::OutOfMemory => Status::OutOfMemory,
    }
}
