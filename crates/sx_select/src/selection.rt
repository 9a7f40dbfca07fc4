//! The nodes to which a path leads.
ghost use Rattle.std.specs.Prelude.{◌≡◌, ◌+◌, ◌≤◌, IfErr, IfOk};
ghost use Rattle.sx_outside.specs.Faults.{Rose};
ghost use Rattle.sx_cursor.specs.Told.{IsNoDocument};
ghost use Rattle.sx_view.specs.Records.{Explains, IsDamaged};
ghost use Rattle.sx_text.specs.Text.{IsBroken};
ghost use Rattle.sx_select.specs.Selected.{Selects, VisitsEachOnce};

use crate::level::Level;
use crate::pending::Search;
use std::alloc::Global;
use sx_cursor::{endless, read};
use sx_tree::numbers::Numbers;
use sx_tree::query::PathExpr;
use sx_tree::record::NodeRecord;
use sx_view::{Fault, Records};

/// The number of the document itself.
const DOCUMENT: u32 = 0;

/// The nodes to which the path leads, in preorder, each once: from the document's child on, each step is taken from all nodes to
/// which the steps before it lead. It visits each node of the document at most once, and at most `count` nodes, and takes memory
/// for the nodes that are open at a time. Where there is no document, nothing is selected.
///
/// # Errors
///
/// `Failed` only where the faults of the object below rose; `Damaged` where a link leads to a node that has no record, a Key has
/// no child, or links lead on after `count` nodes, and else only where the records are not told; `OutOfMemory`.
pub fn select<N: Records<NodeRecord>>(
    alloc: Global,
    records: &mut N,
    path: &PathExpr,
    count: u32,
) -> Result<Numbers, Fault>
    ensures selects { IfOk result (Selects (N.told records.old) path.now.steps) }
    ensures sound { IfErr result (λ fault. IsDamaged fault → IsNoDocument (N.told records.old) count) }
    ensures fault { IfErr result (Explains (N.damages records.old) (Rose (N.faults records.old) (N.faults records.new)) (IsBroken (N.told records.old) count)) }
    ensures once { IfOk result (λ _. VisitsEachOnce (N.told records.old) (N.gets records.old) (N.gets records.new)) }
    ensures never_falls { N.faults records.old ≤ N.faults records.new }
    ensures keeps { N.keeps records.old records.new }
{
    let Some(document) = read(alloc, records, DOCUMENT)? else {
        let nothing = Numbers::new(alloc);
        return Ok(nothing);
    };
    if count == 0 {
        return Err(Fault::Damaged(endless(count)));
    }
    let steps = path.steps.as_slice();
    let top = Level::top(alloc, steps)?;
    let level = top.below(alloc, steps, &document)?;
    let outer = Vec::new(alloc);
    let search = Search {
        outer,
        level,
        from: 0,
        next: document.first,
        left: count - 1,
    };
    let mut selected = Numbers::new(alloc);
    search.finish(alloc, records, steps, count, &mut selected)?;
    Ok(selected)
}
