//! Trees that stand on other paths.
ghost use Rattle.std.specs.Prelude.{◌≡◌, ◌+◌, ◌<◌, ◌≤◌, ◌^◌, ℕ, List, [], ◌∷◌, None, Some, IfErr, IfNone, IfOk, IfSome, OnOk, Option, length};
ghost use Rattle.sx_outside.specs.Faults.{Rose};
ghost use Rattle.sx_tree.specs.declared.record.NodeRecord.{NodeRecord as TheRecord};
ghost use Rattle.sx_model.specs.Records.{PathRow};
ghost use Rattle.sx_view.specs.Records.{RecordMap};
ghost use Rattle.sx_model.specs.Edit as model;
ghost use Rattle.sx_edit.specs.Damage.{IsBreachFault, NeedsPath, Reach};
ghost use Rattle.sx_edit.specs.Drift.{Drifts, IsThere};
ghost use Rattle.sx_edit.specs.EditFault.{ExplainsEdit, IsBreachEdit};
ghost use Rattle.sx_edit.specs.Links.{ComesTo, IsRecord, LeadsTo, first_tops, path_left, paths_left};
ghost use Rattle.sx_edit.specs.Pathways.{kept};
ghost use Rattle.sx_edit.specs.Repath.{AllLead, AllThere, CannotExchange, IsExchanged, IsRepathed, IsUnder, StopsRepathing, StopsUnder, first_goals, goal_of, goals_of, with_goal};
ghost use Rattle.sx_edit.specs.Seen.{entries_of};
ghost use Rattle.sx_edit.specs.Steps.{GoesOn};
ghost use Rattle.sx_edit.specs.Told.{IsWalked, numbers_of};

use crate::damage::endless;
use crate::fault::EditFault;
use crate::kinds::is_value;
use crate::paths::{count_in, count_out, name_step, step_onto};
use crate::reads::read_linked;
use crate::trees::{Move, Over, Seen, push_seen};
use std::alloc::{AllocError, Global};
use sx_paths::PathTable;
use sx_tree::record::{Kind, NodeRecord, Step};
use sx_tree::text::Text;
use sx_view::{Fault, RecordsMut};

/// Adds the link at the end, where there is one.
fn push_move(
    moves: &mut Vec<Move>,
    over: Over,
    from: u32,
    to: Option<u32>,
) -> Result<(), AllocError>
    ensures goals { OnOk result (goals_of moves.new.items
        ≡ with_goal over.kind over.path to (goals_of moves.old.items)) }
    ensures lead { (o : Option (RecordMap TheRecord)) → IfSome to (λ to. LeadsTo o from to) → AllLead o moves.old.items
        → OnOk result (AllLead o moves.new.items) }
    ensures there { (table : List PathRow) → IsThere table over.path → AllThere table moves.old.items
        → OnOk result (AllThere table moves.new.items) }
{
    if let Some(to) = to {
        moves.push(Move { over, from, to })?;
    }
    Ok(())
}

/// Takes the last link.
fn pop_move(moves: &mut Vec<Move>) -> Option<Move>
    ensures some { IfSome result (λ at. goals_of moves.old.items
        ≡ goal_of at.over.kind at.over.path at.to ∷ goals_of moves.new.items) }
    ensures none { IfNone result (goals_of moves.old.items ≡ []) }
    ensures lead { (o : Option (RecordMap TheRecord)) → AllLead o moves.old.items
        → AllLead o moves.new.items × IfSome result (λ at. LeadsTo o at.from at.to) }
    ensures there { (table : List PathRow) → AllThere table moves.old.items
        → AllThere table moves.new.items × IfSome result (λ at. IsThere table at.over.path) }
{
    moves.pop()
}

/// The number of the new path of a child with this label.
fn path_under(
    alloc: Global,
    paths: &mut PathTable,
    had: u32,
    over: Over,
    node: u32,
    label: &Text,
) -> Result<u32, EditFault>
    ensures under { IfOk result (λ number. IsUnder over.kind over.path label.now number
        paths.old.paths paths.new.paths) }
    ensures fits { IfOk result (λ number. number < 2 ^ 30) }
    ensures stops { IfErr result (StopsUnder over.kind over.path label.now had paths.old.paths) }
    ensures same_mark { paths.new.marked ≡ paths.old.marked }
    ensures there { IsThere paths.old.paths over.path → IfOk result (λ number. IsThere paths.new.paths number) }
    ensures drifts { OnOk result (Drifts 0 [] paths.old.paths paths.new.paths) }
    ensures fault { (o : Option (RecordMap TheRecord)) (table : List PathRow) (reach : Reach) (plus : ℕ) (minus : List ℕ)
        → NeedsPath o reach node → IsThere paths.old.paths over.path
        → Drifts plus minus table paths.old.paths → IfErr result (IsBreachEdit o table reach) }
{
    match over.kind {
        Kind::Document => step_onto(alloc, paths, had, node, 0, Step::Top),
        Kind::Object => {
            let step = name_step(alloc, label)?;
            step_onto(alloc, paths, had, node, over.path, step)
        }
        Kind::Array => step_onto(alloc, paths, had, node, over.path, Step::Item),
        _ => Ok(over.path),
    }
}

/// Counts a node of this kind out of the old path and into the new one, where it is a value.
fn change_path(
    paths: &mut PathTable,
    node: u32,
    kind: Kind,
    old: u32,
    new: u32,
) -> Result<(), Fault>
    ensures done { OnOk result (IsExchanged kind old new paths.old.paths paths.new.paths) }
    ensures cannot { IfErr result (λ fault. CannotExchange kind old new paths.old.paths) }
    ensures same_mark { paths.new.marked ≡ paths.old.marked }
    ensures drifts { (own : TheRecord) → own.kind ≡ kind → own.path ≡ old
        → OnOk result (Drifts (length (path_left own)) (path_left own) paths.old.paths paths.new.paths) }
    ensures fault { (o : Option (RecordMap TheRecord)) (table : List PathRow) (reach : Reach) (plus : ℕ)
        (visited : List TheRecord) (own : TheRecord)
        → IsRecord o node own → own.kind ≡ kind → own.path ≡ old → IsThere paths.old.paths new
        → ComesTo o reach.node visited node → plus ≤ length (paths_left visited)
        → length (paths_left visited) + 1 ≤ 2 ^ 30 → Drifts plus (paths_left visited) table paths.old.paths
        → IfErr result (IsBreachFault o table reach) }
{
    if is_value(kind) {
        count_out(paths, node, old)?;
        count_in(paths, node, new)?;
    }
    Ok(())
}

/// Finds the paths that go on from the node's new one for the trees from this child of the node on to the right, with
/// all below them, and counts their values there. Gives their nodes, with the records that they are to have.
///
/// # Errors
///
/// `Refused(PathsSpent)` where there is no room for a path; `Damaged` where a record, a path or a count is not as it
/// must be; `Failed`; `OutOfMemory`.
pub(crate) fn repath<N: RecordsMut<NodeRecord>>(
    alloc: Global,
    nodes: &mut N,
    paths: &mut PathTable,
    had: u32,
    next: u32,
    node: u32,
    over: Over,
    first: Option<u32>,
) -> Result<Vec<Seen>, EditFault>
    requires { IfSome first (λ to. LeadsTo (N.told nodes.old) node to) }
    ensures done { IfOk result (λ moved. IsRepathed (first_goals over.kind over.path first) next
        (kept (N.told nodes.old) paths.old.paths) paths.new.paths (entries_of moved.items)) }
    ensures stops { IfErr result (StopsRepathing (first_goals over.kind over.path first) next had
        (kept (N.told nodes.old) paths.old.paths)) }
    ensures walked { IfOk result (λ moved. IsWalked (first_tops first) next (N.told nodes.old)
        (numbers_of (entries_of moved.items))) }
    ensures gets { IfOk result (λ moved. N.gets nodes.new ≤ N.gets nodes.old + length moved.items) }
    ensures same { N.told nodes.new ≡ N.told nodes.old }
    ensures same_mark { paths.new.marked ≡ paths.old.marked }
    ensures goes_on { GoesOn N.told N.faults N.damages N.has_mark N.marks nodes.old nodes.new }
    ensures fault { (table : List PathRow) (name : List ℕ) (own : TheRecord) → IsRecord (N.told nodes.old) node own
        → own.first ≡ first → IsThere paths.old.paths over.path → Drifts 0 [] table paths.old.paths → next ≤ 2 ^ 30
        → IfErr result (ExplainsEdit (model.rename node name) next (N.told nodes.old) table
        (N.damages nodes.old) (Rose (N.faults nodes.old) (N.faults nodes.new))) }
{
    let mut moved: Vec<Seen> = Vec::new(alloc);
    let mut left: Vec<Move> = Vec::new(alloc);
    push_move(&mut left, over, node, first)?;
    for _turn in 0..next {
        let Some(at) = pop_move(&mut left) else {
            return Ok(moved);
        };
        let mut record = read_linked(alloc, nodes, at.from, at.to)?;
        let path = path_under(alloc, paths, had, at.over, at.to, &record.label)?;
        change_path(paths, at.to, record.kind, record.path, path)?;
        push_move(&mut left, at.over, at.to, record.right)?;
        let below = Over {
            kind: record.kind,
            path,
        };
        push_move(&mut left, below, at.to, record.first)?;
        record.path = path;
        let one = Seen {
            node: at.to,
            record,
        };
        push_seen(&mut moved, one)?;
    }
    match pop_move(&mut left) {
        Some(_) => Err(EditFault::Damaged(endless(next))),
        None => Ok(moved),
    }
}
