//! The nodes of trees that go, and their values taken from the counts of paths.
ghost use Rattle.std.specs.Prelude.{◌≡◌, ◌+◌, ◌≤◌, List, [], ◌∷◌, None, Some, IfErr, IfNone, IfOk, IfSome, OnOk, Option, length};
ghost use Rattle.sx_outside.specs.Faults.{Rose};
ghost use Rattle.sx_tree.specs.declared.record.NodeRecord.{NodeRecord as TheRecord};
ghost use Rattle.sx_view.specs.Records.{RecordMap};
ghost use Rattle.sx_edit.specs.Clear.{AllLead, tops_of};
ghost use Rattle.sx_edit.specs.Damage.{ExplainsBoth, IsDamaged, Reach};
ghost use Rattle.sx_edit.specs.Drift.{Drifts};
ghost use Rattle.sx_edit.specs.Links.{IsRecord, LeadsTo, Walks, first_tops, paths_left, preorder, with_top};
ghost use Rattle.sx_edit.specs.Steps.{GoesOn};
ghost use Rattle.sx_edit.specs.Pathways.{kept};
ghost use Rattle.sx_edit.specs.Told.{IsDiscounted, IsWalked};

use crate::damage::endless;
use crate::paths::leave_path;
use crate::reads::read_linked;
use crate::trees::push_number;
use std::alloc::{AllocError, Global};
use sx_paths::PathTable;
use sx_tree::record::NodeRecord;
use sx_view::{Fault, RecordsMut};

/// A link from one node to another.
#[derive(Clone, Copy)]
struct Link {
    from: u32,
    to: u32,
}

/// Adds the link at the end, where there is one.
fn push_link(links: &mut Vec<Link>, from: u32, to: Option<u32>) -> Result<(), AllocError>
    ensures tops { OnOk result (tops_of links.new.items ≡ with_top to (tops_of links.old.items)) }
    ensures lead { (o : Option (RecordMap TheRecord)) → IfSome to (λ to. LeadsTo o from to) → AllLead o links.old.items
        → OnOk result (AllLead o links.new.items) }
{
    if let Some(to) = to {
        links.push(Link { from, to })?;
    }
    Ok(())
}

/// Takes the last link.
fn pop_link(links: &mut Vec<Link>) -> Option<Link>
    ensures some { IfSome result (λ link. tops_of links.old.items ≡ link.to ∷ tops_of links.new.items) }
    ensures none { IfNone result (tops_of links.old.items ≡ []) }
    ensures lead { (o : Option (RecordMap TheRecord)) → AllLead o links.old.items
        → AllLead o links.new.items × IfSome result (λ link. LeadsTo o link.from link.to) }
{
    links.pop()
}

/// Goes through the trees from this child of the node on to the right, with all below them, and counts their values
/// out of their paths. Gives their nodes.
pub(crate) fn clear<N: RecordsMut<NodeRecord>>(
    alloc: Global,
    nodes: &mut N,
    paths: &mut PathTable,
    next: u32,
    node: u32,
    first: Option<u32>,
) -> Result<Vec<u32>, Fault>
    requires { IfSome first (λ to. LeadsTo (N.told nodes.old) node to) }
    ensures walked { IfOk result (λ gone. IsWalked (first_tops first) next (N.told nodes.old) gone.items) }
    ensures discounted { OnOk result (IsDiscounted (first_tops first) next (kept (N.told nodes.old) paths.old.paths)
        (Some paths.new.paths)) }
    ensures cannot { IfErr result (λ fault. IsDamaged fault
        → IsDiscounted (first_tops first) next (kept (N.told nodes.old) paths.old.paths) None) }
    ensures gets { IfOk result (λ gone. N.gets nodes.new ≤ N.gets nodes.old + length gone.items) }
    ensures same { N.told nodes.new ≡ N.told nodes.old }
    ensures same_mark { paths.new.marked ≡ paths.old.marked }
    ensures goes_on { GoesOn N.told N.faults N.damages N.has_mark N.marks nodes.old nodes.new }
    ensures drifts { OnOk result ((visited : List TheRecord)
        × (Walks preorder (N.told nodes.old) (first_tops first) visited []
        × Drifts 0 (paths_left visited) paths.old.paths paths.new.paths)) }
    ensures fault { (reach : Reach) (own : TheRecord) → reach.next ≡ next
        → IsRecord (N.told nodes.old) reach.node own → own.first ≡ first
        → IfErr result (ExplainsBoth reach (N.told nodes.old) paths.old.paths
        (N.damages nodes.old) (Rose (N.faults nodes.old) (N.faults nodes.new))) }
{
    let mut gone: Vec<u32> = Vec::new(alloc);
    let mut left: Vec<Link> = Vec::new(alloc);
    push_link(&mut left, node, first)?;
    for _turn in 0..next {
        let Some(link) = pop_link(&mut left) else {
            return Ok(gone);
        };
        let entry = read_linked(alloc, nodes, link.from, link.to)?;
        leave_path(paths, link.to, &entry)?;
        push_number(&mut gone, link.to)?;
        push_link(&mut left, link.to, entry.right)?;
        push_link(&mut left, link.to, entry.first)?;
    }
    match pop_link(&mut left) {
        Some(_) => Err(Fault::Damaged(endless(next))),
        None => Ok(gone),
    }
}
