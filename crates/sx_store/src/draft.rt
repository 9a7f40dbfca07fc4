//! The document with the open edits.
ghost use Rattle.std.specs.Prelude.{◌≡◌, ◌+◌, ◌≤◌, IfErr, IfOk, IsErrOf, OnErr, Some, length, min};
ghost use Rattle.std.specs.List.{AllByRecursion};
ghost use Rattle.sx_bytes.specs.declared.damage.Damage.{Damage};
ghost use Rattle.sx_edit.specs.EditFault.{ExplainsEdit};
ghost use Rattle.sx_model.specs.Edit.{edit_of, number_limit};
ghost use Rattle.sx_model.specs.State.{State};
ghost use Rattle.sx_outside.specs.Faults.{Rose};
ghost use Rattle.sx_paths.specs.Load.{HasBrokenPath};
ghost use Rattle.sx_reader.specs.Cells.{IsCell};
ghost use Rattle.sx_reader.specs.Documents.{TellsAt};
ghost use Rattle.sx_store.specs.Damage.{IsDamagedAt, IsLoaded, Kept, KeepsAt};
ghost use Rattle.sx_store.specs.Drafts.{AnswersDraft, GivesDraft, IsRootOf, ShowsDraft};
ghost use Rattle.sx_store.specs.Shows.{records_of};
ghost use Rattle.sx_store.specs.Sound.{IsSameDocument};

use std::alloc::Global;
use sx_edit::EditFault;
use sx_paths::PathTable;
use sx_reader::{Cell, read_document};
use sx_root::RevisionRoot;
use sx_tree::edit::{Edit, Edited};
use sx_tree::record::NodeRecord;
use sx_view::{Fault, MemRecords};
use sx_volume::{ReadEnd, Spot};

/// The document with the open edits.
#[derive(Drop)]
pub(crate) struct Draft {
    /// Its nodes by their numbers.
    pub(crate) nodes: MemRecords<NodeRecord>,
    pub(crate) paths: PathTable,
    /// The number that the next new node takes.
    pub(crate) next: u32,
}

/// Node numbers are below this one.
const NUMBER_LIMIT: u32 = 1 << 30;

impl Draft {
    /// Does the edit. After each error the draft is as it was.
    pub(crate) fn apply(&mut self, alloc: Global, edit: &Edit) -> Result<Edited, EditFault>
        ensures answers { (state : State) → state.next ≤ number_limit → ShowsDraft state self.old → AnswersDraft (edit_of edit.now) state self.new result }
        ensures refused { OnErr result (IsSameDocument self.old self.new) }
        ensures fault { IfErr result (ExplainsEdit (edit_of edit.now) (min self.old.next number_limit) (Some (records_of self.old)) self.old.paths.paths
            (λ _. ⊥) (Rose 0 0)) }
    {
        let next = self.next.min(NUMBER_LIMIT);
        let edited = sx_edit::apply(alloc, &mut self.nodes, &mut self.paths, edit, next)?;
        self.next = edited.next;
        Ok(edited)
    }
}

/// The document of a revision, without an edit.
pub(crate) fn draft_of<S: Spot, E: ReadEnd<Spot = S>>(
    alloc: Global,
    end: &mut E,
    cells: &[Cell<S>],
    root: &RevisionRoot,
) -> Result<Draft, Fault>
    requires there { root.now.node_root ≤ length cells.now }
    requires each { AllByRecursion (IsCell S.Spot) cells.now }
    ensures of_state { E.tells end.old → (state : State) → IsRootOf state root.now → TellsAt S.Spot state cells.now root.now.node_root → GivesDraft state result }
    ensures made { IfOk result (λ draft. (kept : Kept) × KeepsAt S.Spot (E.tells end.old) cells.now root.now.node_root kept × IsLoaded kept root.now.paths draft) }
    ensures next { IfOk result (λ draft. draft.next ≡ root.now.next) }
    ensures failed { IsErrOf result Fault.Failed → Rose (E.faults end.old) (E.faults end.new) }
    ensures damaged { (damage : Damage) → IsErrOf result (Fault.Damaged damage)
        → IsDamagedAt S.Spot (E.tells end.old) cells.now root.now.node_root (λ kept damage. HasBrokenPath (Some kept.paths) root.now.paths damage) damage }
    ensures one_read { E.reads end.new ≤ E.reads end.old + 1 }
    ensures goes_on_telling { E.tells end.old → E.tells end.new }
    ensures never_falls { E.faults end.old ≤ E.faults end.new }
{
    let mut document = read_document(alloc, end, cells, root.node_root)?;
    let paths = PathTable::load(alloc, &mut document.paths, root.paths)?;
    Ok(Draft {
        nodes: document.nodes,
        paths,
        next: root.next,
    })
}
