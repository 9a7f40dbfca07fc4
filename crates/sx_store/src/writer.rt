ghost use Rattle.std.specs.Prelude.{◌≡◌, ◌+◌, ◌≤◌, ◌↔◌, ℕ, ℤ, Some, None, IfSome, IfErr, OnOk, OnErr, IsErrOf, IsSome, FitsSigned, []};
ghost use Rattle.std.specs.Int.{w64};
ghost use Rattle.sx_bytes.specs.declared.damage.Damage.{Damage};
ghost use Rattle.sx_model.specs.Edit.{IsEdit, edit_of};
ghost use Rattle.sx_outside.specs.Clock.{Ticks};
ghost use Rattle.sx_outside.specs.Faults.{Rose};
ghost use Rattle.sx_run.specs.Run.{Book, next_commit};
ghost use Rattle.sx_store.specs.Commits.{Commits, IsNoFailure, Leaves};
ghost use Rattle.sx_store.specs.Damage.{IsCommitDamage, IsEditDamage};
ghost use Rattle.sx_store.specs.Edits.{Edits};
ghost use Rattle.sx_store.specs.Shows.{Shows, birth_in, count_of, stage_of};
ghost use Rattle.sx_store.specs.Sound.{GrowsFrom, HoldAll, IsSound, IsWhole, SameBut, SameDraft};
ghost use Rattle.sx_volume.specs.Images.{Elapses};

use crate::commit::{add, next_group};
use crate::fault::{CommitFault, Committed, WriterFault};
use crate::ledger::Ledger;
use std::alloc::Global;
use sx_outside::Clock;
use sx_tree::edit::{Edit, Edited};
use sx_volume::{ReadEnd, Volume};

/// A writer over its volume. To have the volume back, take the writer apart. The ends that its calls read are those of the volume.
/// Questions are asked of its ledger.
#[derive(Drop)]
pub struct Writer<'a, V: Volume> {
    pub volume: &'a mut V,
    pub ledger: Ledger<V::Spot>,
}

impl<V: Volume> Writer<'_, V> {
    /// Takes an edit into the open edits. Where none is open, the last revision is read, in one read of the end.
    ///
    /// # Errors
    ///
    /// The writer is as it was. `Stopped` exactly where an earlier commit failed, `Refused` as the edits say, `Failed` only where the end's
    /// faults rose, `Damaged` by the first rule that the last revision's frame breaks, or by the rule that its records break, and never
    /// where the ledger shows commits, `OutOfMemory`.
    pub fn edit(
        &mut self,
        alloc: Global,
        end: &mut V::End,
        edit: &Edit,
    ) -> Result<Edited, WriterFault>
        requires whole { IsWhole V.Spot.Spot self.old.ledger }
        requires within { IsEdit (edit_of edit.now) }
        ensures same_reference { self.new.volume.ghost_name ≡ self.old.volume.ghost_name }
        ensures same_volume { self.new.volume.now ≡ self.old.volume.now }
        ensures edited { V.End.tells end.old → (book : Book) → Shows V.Spot.Spot self.old.ledger book → stage_of self.old.ledger ≡ None
            → Edits V.Spot.Spot book (edit_of edit.now) result self.new.ledger }
        ensures stopped { (stage : ℕ) → IsErrOf result (WriterFault.Stopped stage) ↔ (stage_of self.old.ledger ≡ Some stage) }
        ensures failed { IsErrOf result WriterFault.Failed → Rose (V.End.faults end.old) (V.End.faults end.new) }
        ensures damaged { (damage : Damage) → IsErrOf result (WriterFault.Damaged damage)
            → IsEditDamage V.Spot.Spot (V.End.tells end.old) (edit_of edit.now) self.old.ledger.draft self.old.ledger damage }
        ensures refused { OnErr result (SameDraft V.Spot.Spot (V.End.tells end.old) self.old.ledger self.new.ledger) }
        ensures same_stopped { (stage : ℕ) → stage_of self.old.ledger ≡ Some stage → self.new.ledger ≡ self.old.ledger }
        ensures same { SameBut self.old.ledger self.new.ledger }
        ensures sound { IsSound V.Volume V.Spot.Spot self.old.volume.now self.old.ledger → IsSound V.Volume V.Spot.Spot self.new.volume.now self.new.ledger }
        ensures same_stage { stage_of self.new.ledger ≡ stage_of self.old.ledger }
        ensures grows { GrowsFrom V.Spot.Spot self.old.ledger self.new.ledger }
        ensures one_read { V.End.reads end.new ≤ V.End.reads end.old + 1 }
        ensures goes_on_telling { V.End.tells end.old → V.End.tells end.new }
        ensures never_falls { V.End.faults end.old ≤ V.End.faults end.new }
    {
        if let Some(stage) = self.ledger.stopped {
            return Err(WriterFault::Stopped { stage });
        }
        let mut draft = self.ledger.take_draft(alloc, end)?;
        let edited = draft.apply(alloc, edit);
        self.ledger.draft = Some(draft);
        Ok(edited?)
    }

    /// Drops the open edits. The next number is the last commit's again.
    pub fn rollback(&mut self)
        ensures same_reference { self.new.volume.ghost_name ≡ self.old.volume.ghost_name }
        ensures same_volume { self.new.volume.now ≡ self.old.volume.now }
        ensures dropped { (book : Book) → Shows V.Spot.Spot self.old.ledger book → Shows V.Spot.Spot self.new.ledger (record book { edits = [] }) }
        ensures same { SameBut self.old.ledger self.new.ledger }
        ensures sound { IsSound V.Volume V.Spot.Spot self.old.volume.now self.old.ledger → IsSound V.Volume V.Spot.Spot self.new.volume.now self.new.ledger }
        ensures same_stage { stage_of self.new.ledger ≡ stage_of self.old.ledger }
        ensures grows { GrowsFrom V.Spot.Spot self.old.ledger self.new.ledger }
    {
        self.ledger.draft = None;
    }

    /// Makes the open edits a revision. Its time is the greater of the clock's moment and the last commit's time.
    ///
    /// At `Ok` each crash from then on leaves the commits with this one. A crash during the call leaves those from before it, with
    /// this one or without.
    ///
    /// # Errors
    ///
    /// `Stopped` exactly where an earlier commit failed; `ReadFailed` only where the end's faults rose, and only where no edit is open;
    /// `Damaged` where the document tells of more nodes than there are numbers, and where no edit is open also by the first rule that
    /// the last revision's frame breaks, or by the rule that its paths break, and never where the ledger shows commits; `LogFull`
    /// exactly where the log has room for no frame or revision more, then `CommitTooLarge` exactly where the commit would have more than
    /// 268,435,456 bytes; `OutOfMemory`, before the volume is written. After these nothing has changed but the clock. `Failed` only where
    /// the volume failed: the open edits are dropped, and the writer has stopped.
    pub fn commit<C: Clock>(
        &mut self,
        alloc: Global,
        end: &mut V::End,
        clock: &mut C,
    ) -> Result<Committed, CommitFault>
        requires sound { IsSound V.Volume V.Spot.Spot self.old.volume.now self.old.ledger }
        ensures same_reference { self.new.volume.ghost_name ≡ self.old.volume.ghost_name }
        ensures sound { IsSound V.Volume V.Spot.Spot self.new.volume.now self.new.ledger }
        ensures commits { V.End.tells end.old → (book : Book) → Shows V.Spot.Spot self.old.ledger book → stage_of self.old.ledger ≡ None
            → (moment : ℤ) × FitsSigned w64 moment × Ticks (C.moments clock.old) moment (C.moments clock.new)
            × (IfSome (V.bytes self.old.volume.now) (λ _. Commits V.Spot.Spot book (next_commit book moment) result self.new.ledger
            × Leaves (birth_in self.old.ledger) book (next_commit book moment) result (V.moment self.old.volume.now) (V.was_image self.new.volume.now) (V.synced self.new.volume.now))) }
        ensures ticks { stage_of self.old.ledger ≡ None → (moment : ℤ) × FitsSigned w64 moment × Ticks (C.moments clock.old) moment (C.moments clock.new) }
        ensures goes_on { OnOk result (stage_of self.new.ledger ≡ None) }
        ensures fails { (stage : ℕ) → IsErrOf result (CommitFault.Failed stage) → stage_of self.new.ledger ≡ Some stage }
        ensures stopped { (stage : ℕ) → IsErrOf result (CommitFault.Stopped stage) ↔ (stage_of self.old.ledger ≡ Some stage) }
        ensures same_clock { (stage : ℕ) → stage_of self.old.ledger ≡ Some stage → C.moments clock.new ≡ C.moments clock.old }
        ensures same_volume { (stage : ℕ) → stage_of self.old.ledger ≡ Some stage → self.new.volume.now ≡ self.old.volume.now }
        ensures same_stopped { (stage : ℕ) → stage_of self.old.ledger ≡ Some stage → self.new.ledger ≡ self.old.ledger }
        ensures same_ledger { IfErr result (λ fault. IsNoFailure fault → SameBut self.old.ledger self.new.ledger
            × SameDraft V.Spot.Spot (V.End.tells end.old) self.old.ledger self.new.ledger) }
        ensures same_bytes { IfErr result (λ fault. IsNoFailure fault → V.bytes self.new.volume.now ≡ V.bytes self.old.volume.now) }
        ensures read_failed { IsErrOf result CommitFault.ReadFailed → Rose (V.End.faults end.old) (V.End.faults end.new) }
        ensures damaged { (damage : Damage) → IsErrOf result (CommitFault.Damaged damage)
            → IsCommitDamage V.Spot.Spot (V.End.tells end.old) self.old.ledger.draft self.old.ledger damage }
        ensures same_birth { birth_in self.new.ledger ≡ birth_in self.old.ledger }
        ensures counts { count_of self.old.ledger ≤ count_of self.new.ledger }
        ensures grows { IfSome (V.bytes self.old.volume.now) (λ _. GrowsFrom V.Spot.Spot self.old.ledger self.new.ledger) }
        ensures keeps { stage_of self.old.ledger ≡ None
            → HoldAll V.Spot.Spot (V.bytes self.old.volume.now) (V.was_image self.new.volume.now (V.moment self.old.volume.now)) self.old.ledger }
        ensures told { IsSome (V.bytes self.old.volume.now) → IsSome (V.bytes self.new.volume.now) }
        ensures time { Elapses (V.moment self.old.volume.now) (V.moment self.new.volume.now) (V.was_image self.old.volume.now) (V.was_image self.new.volume.now) (V.synced self.old.volume.now) (V.synced self.new.volume.now) }
        ensures cause { IfErr result (λ fault. (stage : ℕ) → fault ≡ CommitFault.Failed stage → Rose (V.faults self.old.volume.now) (V.faults self.new.volume.now)) }
        ensures no_fault { ((stage : ℕ) → IsErrOf result (CommitFault.Failed stage) → ⊥) → V.faults self.new.volume.now ≡ V.faults self.old.volume.now }
        ensures never_falls { V.faults self.old.volume.now ≤ V.faults self.new.volume.now }
        ensures one_read { V.End.reads end.new ≤ V.End.reads end.old + 1 }
        ensures goes_on_telling { V.End.tells end.old → V.End.tells end.new }
        ensures end_never_falls { V.End.faults end.old ≤ V.End.faults end.new }
    {
        if let Some(stage) = self.ledger.stopped {
            return Err(CommitFault::Stopped { stage });
        }
        let last = self.ledger.root(self.ledger.count());
        let time = clock.now().max(last.time);
        let group = next_group(alloc, &mut self.ledger, end, &last, time)?;
        add(alloc, &mut self.ledger, self.volume, group)
    }
}
