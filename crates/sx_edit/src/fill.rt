//! Values that come into a gap among siblings.
ghost use Rattle.std.specs.Prelude.{◌≡◌, ◌+◌, ◌<◌, ◌≤◌, ◌^◌, ℕ, List, IfErr, IfOk, OnOk, Option};
ghost use Rattle.std.specs.Option.{option_copied};
ghost use Rattle.sx_tree.specs.declared.record.NodeRecord.{NodeRecord as TheRecord};
ghost use Rattle.sx_model.specs.Records.{PathRow};
ghost use Rattle.sx_view.specs.Records.{RecordMap};
ghost use Rattle.sx_tree.specs.Value as plain;
ghost use Rattle.sx_tree.specs.Value.{value_of};
ghost use Rattle.sx_view.specs.Rows.{row_of};
ghost use Rattle.sx_edit.specs.Damage.{Reach};
ghost use Rattle.sx_edit.specs.Drift.{Drifts, IsKnownOn};
ghost use Rattle.sx_edit.specs.EditFault.{IsBreachEdit, IsBrokenEdit};
ghost use Rattle.sx_edit.specs.Fill.{IsFilled, StopsFilling, entering_below, entering_nodes, entering_paths, entering_rows, entering_top, enters};
ghost use Rattle.sx_edit.specs.Grow.{IsGrown, StopsGrowing, top_row};
ghost use Rattle.sx_edit.specs.Pathways.{kept};
ghost use Rattle.sx_edit.specs.Seen.{IsLeaving, IsRim};
ghost use Rattle.sx_edit.specs.Steps.{GoesOn};

use crate::fault::EditFault;
use crate::grow::{grow, key_over, link};
use crate::mend::mend;
use crate::reads::add;
use crate::trees::{Gap, Rim, Tree};
use std::alloc::Global;
use sx_paths::PathTable;
use sx_tree::json::Json;
use sx_tree::record::NodeRecord;
use sx_tree::text::Text;
use sx_view::RecordsMut;

/// Writes all records below the top of what comes in: of the value, or of a new Key over it where there is a name,
/// and counts its values. Gives the record of the top, but for its links to its parent and its siblings.
fn enter<N: RecordsMut<NodeRecord>>(
    alloc: Global,
    nodes: &mut N,
    paths: &mut PathTable,
    had: u32,
    next: u32,
    name: Option<&Text>,
    value: &Json,
    path: u32,
) -> Result<NodeRecord, EditFault>
    requires room { next + entering_nodes (option_copied name) (value_of value.now) ≤ 2 ^ 30 }
    requires path_fits { path < 2 ^ 30 }
    ensures top { IfOk result (λ top. row_of top ≡ top_row path
        (entering_top (option_copied name.entry) (value_of value.now) next)
        (entering_below (option_copied name.entry) (value_of value.now) next)) }
    ensures grown { OnOk result (IsGrown (entering_paths (option_copied name.entry) (value_of value.now) next)
        (entering_rows (option_copied name.entry) (value_of value.now) next) path
        (kept (N.told nodes.old) paths.old.paths) (kept (N.told nodes.new) paths.new.paths)) }
    ensures stops { IfErr result (StopsGrowing (entering_paths (option_copied name.entry) (value_of value.now) next)
        path (plain.nodes (value_of value.now)) had paths.old.paths) }
    ensures fault { (o : Option (RecordMap TheRecord)) (table : List PathRow) (reach : Reach) (minus : List ℕ)
        → reach.next ≡ next → reach.more ≡ entering_nodes (option_copied name.entry) (value_of value.now)
        → IsKnownOn o reach paths.old.paths path → Drifts 0 minus table paths.old.paths
        → IfErr result (IsBreachEdit o table reach) }
    ensures same_gets { N.gets nodes.new ≡ N.gets nodes.old }
    ensures same_mark { paths.new.marked ≡ paths.old.marked }
    ensures goes_on { GoesOn N.told N.faults N.damages N.has_mark N.marks nodes.old nodes.new }
{
    match name {
        None => grow(alloc, nodes, paths, had, value, next, path),
        Some(name) => {
            let top = grow(alloc, nodes, paths, had, value, next + 1, path)?;
            Ok(key_over(alloc, nodes, next, name, top)?)
        }
    }
}

/// Puts the value, under a name below a new Key, into the gap, where the records of the old tree are gone, with the
/// next numbers. The path of the value is there. There were `had` paths before the edit.
///
/// # Errors
///
/// `Refused(PathsSpent)` where there is no room for a path; `Damaged` where a record, a path or a count is not as it
/// must be; `Failed`; `OutOfMemory`.
pub(crate) fn fill<N: RecordsMut<NodeRecord>>(
    alloc: Global,
    nodes: &mut N,
    paths: &mut PathTable,
    had: u32,
    next: u32,
    gap: Gap,
    rim: Rim,
    old: Option<Tree>,
    name: Option<&Text>,
    value: &Json,
    path: u32,
) -> Result<(), EditFault>
    requires parent_fits { gap.parent < 2 ^ 30 }
    requires room { next + entering_nodes (option_copied name) (value_of value.now) ≤ 2 ^ 30 }
    requires path_fits { path < 2 ^ 30 }
    ensures done { OnOk result (IsFilled next gap rim old
        (enters (option_copied name.entry) (value_of value.now) path had)
        (kept (N.told nodes.old) paths.old.paths) (kept (N.told nodes.new) paths.new.paths)) }
    ensures stops { IfErr result (StopsFilling next gap rim old
        (enters (option_copied name.entry) (value_of value.now) path had)
        (kept (N.told nodes.old) paths.old.paths)) }
    ensures same_mark { paths.new.marked ≡ paths.old.marked }
    ensures goes_on { GoesOn N.told N.faults N.damages N.has_mark N.marks nodes.old nodes.new }
    ensures same_gets { N.gets nodes.new ≡ N.gets nodes.old }
    ensures fault { (o : Option (RecordMap TheRecord)) (table : List PathRow) (reach : Reach) (minus : List ℕ)
        → reach.next ≡ next → reach.more ≡ entering_nodes (option_copied name.entry) (value_of value.now)
        → IsRim o gap rim → IsLeaving o reach gap.parent old
        → IsKnownOn o reach paths.old.paths path → Drifts 0 minus table paths.old.paths
        → IfErr result (IsBrokenEdit o table reach) }
{
    let top = enter(alloc, nodes, paths, had, next, name, value, path)?;
    let tree = Tree {
        number: next,
        nodes: top.descendants + 1,
        hash: top.hash,
    };
    add(
        alloc,
        nodes,
        next,
        link(top, gap.parent, gap.left, gap.right),
    )?;
    Ok(mend(alloc, nodes, gap, rim, old, Some(tree))?)
}
