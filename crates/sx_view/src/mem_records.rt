//! Records in memory.
ghost use Rattle.std.specs.Prelude.{◌≡◌, IfOk, IfSome, IsFalse, Some};
ghost use Rattle.std.specs.FinMap as map;
ghost use Rattle.sx_view.specs.Slots.{CanRewind, CanRewind-prop};

use crate::slots::{Change, forget, numbers_in, put_noted, record_in, rewind};
use crate::{Fault, Records, RecordsMut};
use std::alloc::{AllocError, Global};
use std::collections::BTreeMap;
use sx_record::Record;
use sx_tree::numbers::Numbers;

/// Records in memory, which fail only for want of memory.
#[derive(Drop)]
pub struct MemRecords<R> {
    alloc: Global,
    /// While there is a mark, a record that is dropped leaves its slot empty.
    slots: BTreeMap<u32, Option<R>>,
    /// The changes since the mark, where there is one.
    changes: Option<Vec<Change<R>>>,
    gets: u64,
    ghost can_rewind: { CanRewind slots changes } by { CanRewind-prop slots changes },
}

impl<R: Record> MemRecords<R> {
    /// No record.
    pub fn new(alloc: Global) -> MemRecords<R>
        ensures told { ⟦<MemRecords<R> as Records<R>>⟧.told result ≡ Some map.empty }
        ensures no_mark { IsFalse (⟦<MemRecords<R> as RecordsMut<R>>⟧.has_mark result) }
        ensures no_gets { ⟦<MemRecords<R> as Records<R>>⟧.gets result ≡ 0 }
    {
        MemRecords {
            alloc,
            slots: BTreeMap::new(alloc),
            changes: None,
            gets: 0,
        }
    }

    /// The numbers that have records, in ascending order. Their length is how many records there are.
    pub fn numbers(&self, alloc: Global) -> Result<Numbers, AllocError>
        ensures { IfOk result (λ numbers. IfSome (⟦<MemRecords<R> as Records<R>>⟧.told self.now) (λ records. numbers ≡ map.keys records)) }
    {
        numbers_in(alloc, &self.slots)
    }
}

impl<R: Record> Records<R> for MemRecords<R> {
    ghost use Rattle.std.specs.Prelude.{◌≡◌, Some, refl};
    ghost use Rattle.std.proofs.Common.{ap, ◌∙◌};
    ghost use Rattle.sx_view.specs.Slots.{held, at_mark};

    ghost told = { λ s. Some (held s.slots.entries) };

    ghost gets = { λ s. s.gets };

    ghost faults = { λ _. 0 };

    ghost damages = { λ _ _. ⊥ };

    ghost keeps = { λ a b. (held b.slots.entries ≡ held a.slots.entries) × (at_mark b.slots b.changes ≡ at_mark a.slots a.changes) };

    ghost untold = { λ a damage is. absurd is };

    ghost keeps_told = { λ a b kept. ap Some kept.0 };

    ghost keeps_damages = { λ a b kept damage is. is };

    ghost keeps_itself = { λ a. (refl, refl) };

    ghost keeps_then = { λ a b c first second. (second.0 ∙ first.0, second.1 ∙ first.1) };

    fn get(&mut self, alloc: Global, k: u32) -> Result<Option<R>, Fault> {
        self.gets = self.gets.saturating_add(1);
        match record_in(&self.slots, k) {
            Some(there) => Ok(Some(there.copy(alloc)?)),
            None => Ok(None),
        }
    }
}

impl<R: Record> RecordsMut<R> for MemRecords<R> {
    ghost use Rattle.std.specs.Prelude.{◌≡◌, Some, is_some, refl};
    ghost use Rattle.std.proofs.Common.{ap, ◌∙◌};
    ghost use Rattle.sx_view.specs.Slots.{at_mark, held};

    ghost has_mark = { λ s. is_some (at_mark s.slots s.changes) };

    ghost same = { λ a b. held b.slots.entries ≡ held a.slots.entries };

    ghost marks = { λ a b. at_mark b.slots b.changes ≡ Some (held a.slots.entries) };

    ghost same_base = { λ _ _. Unit {0} };

    ghost same_told = { λ a b is. ap Some is };

    ghost same_itself = { λ a. refl };

    ghost same_then = { λ a b c first second. second ∙ first };

    ghost same_base_itself = { λ a. tt };

    ghost same_base_then = { λ a b c first second. tt };

    ghost marks_same_base = { λ a b marked. tt };

    ghost same_base_damages = { λ a b same damage is. is };

    ghost keeps_same = { λ a b kept. kept.0 };

    ghost keeps_same_base = { λ a b kept. tt };

    ghost keeps_mark = { λ a b kept. ap is_some kept.1 };

    ghost keeps_marked = { λ a b c kept is. kept.1 ∙ is };

    fn put(&mut self, _alloc: Global, k: u32, value: R) -> Result<(), AllocError> {
        match &mut self.changes {
            Some(changes) => put_noted(&mut self.slots, changes, k, Some(value)),
            None => {
                self.slots.insert(k, Some(value))?;
                Ok(())
            }
        }
    }

    fn drop_record(&mut self, _alloc: Global, k: u32) -> Result<(), AllocError> {
        match &mut self.changes {
            Some(changes) => put_noted(&mut self.slots, changes, k, None),
            None => {
                self.slots.remove(&k);
                Ok(())
            }
        }
    }

    fn begin(&mut self) {
        self.keep();
        self.changes = Some(Vec::new(self.alloc));
    }

    fn undo(&mut self) {
        if let Some(mut changes) = self.changes.take() {
            rewind(&mut self.slots, &mut changes);
        }
    }

    fn keep(&mut self) {
        if let Some(mut changes) = self.changes.take() {
            forget(&mut self.slots, &mut changes);
        }
    }
}
