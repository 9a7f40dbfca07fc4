//! The paths on which values stand, in the table of paths.
ghost use Rattle.std.specs.Prelude.{◌≡◌, ◌+◌, ◌<◌, ◌≤◌, ◌-◌, ◌^◌, ◌⊎◌, ℕ, List, [], ◌∷◌, true, false, None, Some, IfErr, IfOk, OnOk, length, min, Option};
ghost use Rattle.sx_model.specs.Records.{PathRow};
ghost use Rattle.sx_paths.specs.Table.{row_at};
ghost use Rattle.sx_tree.specs.declared.record.NodeRecord.{NodeRecord as TheRecord};
ghost use Rattle.sx_view.specs.Records.{RecordMap};
ghost use Rattle.sx_tree.specs.declared.record.Step.TheVariants.{Name};
ghost use Rattle.sx_model.specs.Tree as tree;
ghost use Rattle.sx_edit.specs.Damage.{HasBefore, IsBreachFault, NeedsPath, Reach};
ghost use Rattle.sx_edit.specs.Drift.{Drifts, IsBase, IsKnown, IsThere};
ghost use Rattle.sx_edit.specs.EditFault.{IsBreachEdit};
ghost use Rattle.sx_edit.specs.Links.{ComesTo, IsRecord, path_left, paths_left};
ghost use Rattle.sx_edit.specs.Pathways.{CannotCountIn, IsCountedIn, IsCountedOut, IsNodeOut, IsOnto, StopsOnto};

use crate::damage::misplaced;
use crate::fault::EditFault;
use crate::kinds::is_value;
use std::alloc::{AllocError, Global};
use sx_paths::PathTable;
use sx_tree::edit::EditRefusal;
use sx_tree::record::{NodeRecord, Step};
use sx_tree::text::Text;
use sx_view::Fault;

/// The greatest number of a path.
const LAST: u32 = 1_073_741_823;

/// Whether one path more may come.
fn has_room(paths: &PathTable) -> bool
    ensures room { result ≡ true → length paths.now.paths + 1 ≤ 1_073_741_823 }
    ensures full { result ≡ false → 1_073_741_823 ≤ length paths.now.paths }
{
    paths.len() < LAST
}

/// Whether other paths may go on from the path: it is the document's, or there.
fn is_base(paths: &PathTable, path: u32) -> bool
    ensures not_top { result ≡ false → path ≡ 0 → ⊥ }
    ensures absent { result ≡ false → row_at paths.now.paths path ≡ None }
    ensures base { result ≡ true → (path ≡ 0) ⊎ IsThere paths.now.paths path }
{
    path == 0 || paths.record(path).is_some()
}

/// The step to the value under the name.
pub(crate) fn name_step(alloc: Global, name: &Text) -> Result<Step, AllocError>
    ensures { IfOk result (λ step. step ≡ Name name.now) }
{
    let name = name.copy(alloc)?;
    Ok(Step::Name(name))
}

/// The number of the path that goes on from the parent's by the step, for this node. Where it is not there, it comes
/// with the next number, and no value stands on it. There were `had` paths before the edit.
///
/// # Errors
///
/// `Refused(PathsSpent)` where it is not there and there is no room; `Damaged` where its number is above
/// 1,073,741,823 or not above its parent's, or the parent's path is not there.
pub(crate) fn step_onto(
    alloc: Global,
    paths: &mut PathTable,
    had: u32,
    node: u32,
    parent: u32,
    step: Step,
) -> Result<u32, EditFault>
    requires { parent < 2 ^ 30 }
    ensures onto { IfOk result (λ number. IsOnto parent step number paths.old.paths paths.new.paths) }
    ensures fits { IfOk result (λ number. number < 2 ^ 30) }
    ensures stops { IfErr result (StopsOnto parent step had paths.old.paths) }
    ensures same_mark { paths.new.marked ≡ paths.old.marked }
    ensures there { IfOk result (λ number. IsThere paths.new.paths number) }
    ensures drifts { OnOk result (Drifts 0 [] paths.old.paths paths.new.paths) }
    ensures fault { (o : Option (RecordMap TheRecord)) (table : List PathRow) (reach : Reach) (plus : ℕ) (minus : List ℕ)
        → NeedsPath o reach node → IsBase o reach node paths.old.paths parent
        → Drifts plus minus table paths.old.paths → IfErr result (IsBreachEdit o table reach) }
{
    if let Some(number) = paths.find(parent, &step) {
        if number <= parent {
            return Err(EditFault::Damaged(misplaced(node, u64::from(number))));
        }
        if number > LAST {
            return Err(EditFault::Damaged(misplaced(node, u64::from(number))));
        }
        return Ok(number);
    }
    if !is_base(paths, parent) {
        return Err(EditFault::Damaged(misplaced(node, u64::from(parent))));
    }
    if !has_room(paths) {
        return Err(EditFault::Refused(EditRefusal::PathsSpent { paths: had }));
    }
    Ok(paths.enter(alloc, parent, step)?)
}

/// Counts one value more on the path, for this node.
///
/// # Errors
///
/// `Damaged` where the path is not there, or its count would leave its type.
pub(crate) fn count_in(paths: &mut PathTable, node: u32, path: u32) -> Result<(), Fault>
    ensures done { OnOk result (IsCountedIn path paths.old.paths paths.new.paths) }
    ensures cannot { IfErr result (λ fault. CannotCountIn path paths.old.paths) }
    ensures same_mark { paths.new.marked ≡ paths.old.marked }
    ensures there { OnOk result (IsThere paths.new.paths path) }
    ensures drifts { OnOk result (Drifts 1 [] paths.old.paths paths.new.paths) }
    ensures fault { (o : Option (RecordMap TheRecord)) (table : List PathRow) (reach : Reach) (plus : ℕ) (minus : List ℕ) (came : ℕ)
        → IsKnown o reach node paths.old.paths path → HasBefore o reach node came → plus ≤ came → came + 1 ≤ 2 ^ 30
        → Drifts plus minus table paths.old.paths → IfErr result (IsBreachFault o table reach) }
{
    let Some(entry) = paths.record(path) else {
        return Err(Fault::Damaged(misplaced(node, u64::from(path))));
    };
    let count = entry.count;
    if count == u32::MAX {
        return Err(Fault::Damaged(misplaced(node, u64::from(count) + 1)));
    }
    paths.count_in(path, 1);
    Ok(())
}

/// Counts one value less on the path, for this node.
///
/// # Errors
///
/// `Damaged` where the path is not there, or no value stands on it.
pub(crate) fn count_out(paths: &mut PathTable, node: u32, path: u32) -> Result<(), Fault>
    ensures done { OnOk result (IsCountedOut path paths.old.paths (Some paths.new.paths)) }
    ensures cannot { IfErr result (λ fault. IsCountedOut path paths.old.paths None) }
    ensures same_mark { paths.new.marked ≡ paths.old.marked }
    ensures drifts { OnOk result (Drifts 0 (path ∷ []) paths.old.paths paths.new.paths) }
    ensures fault { (o : Option (RecordMap TheRecord)) (table : List PathRow) (reach : Reach) (plus : ℕ)
        (visited : List TheRecord) (own : TheRecord)
        → IsRecord o node own → tree.is_value own.kind ≡ true → own.path ≡ path → ComesTo o reach.node visited node
        → Drifts plus (paths_left visited) table paths.old.paths → IfErr result (IsBreachFault o table reach) }
{
    let Some(entry) = paths.record(path) else {
        return Err(Fault::Damaged(misplaced(node, u64::from(path))));
    };
    if entry.count == 0 {
        return Err(Fault::Damaged(misplaced(node, 0)));
    }
    paths.count_out(path, 1);
    Ok(())
}

/// Counts the node, whose record this is, out of its path, where it is a value.
///
/// # Errors
///
/// `Damaged` where the path is not there, or no value stands on it.
pub(crate) fn leave_path(paths: &mut PathTable, node: u32, entry: &NodeRecord) -> Result<(), Fault>
    ensures done { OnOk result (IsNodeOut entry.now.kind entry.now.path paths.old.paths (Some paths.new.paths)) }
    ensures cannot { IfErr result (λ fault. IsNodeOut entry.now.kind entry.now.path paths.old.paths None) }
    ensures same_mark { paths.new.marked ≡ paths.old.marked }
    ensures drifts { OnOk result (Drifts 0 (path_left entry.now) paths.old.paths paths.new.paths) }
    ensures fault { (o : Option (RecordMap TheRecord)) (table : List PathRow) (reach : Reach) (plus : ℕ)
        (visited : List TheRecord) → IsRecord o node entry.now → ComesTo o reach.node visited node
        → Drifts plus (paths_left visited) table paths.old.paths → IfErr result (IsBreachFault o table reach) }
{
    if is_value(entry.kind) {
        return count_out(paths, node, entry.path);
    }
    Ok(())
}
