//! What stands around a gap, read before anything is changed.
ghost use Rattle.std.specs.Prelude.{◌≡◌, ◌+◌, ◌≤◌, ◌^◌, ℕ, None, Some, IfErr, IfOk, IfSome, length, reverse};
ghost use Rattle.sx_outside.specs.Faults.{Rose};
ghost use Rattle.sx_edit.specs.Damage.{Explains, IsDamaged};
ghost use Rattle.sx_edit.specs.Links.{IsReached};
ghost use Rattle.sx_edit.specs.Room.{CountsLevels};
ghost use Rattle.sx_edit.specs.Seen.{AreReached, CannotSurvey, IsChain, IsNoSight, IsRim, IsSight};
ghost use Rattle.sx_edit.specs.Steps.{GoesOn};

use crate::damage::endless;
use crate::kinds::levels;
use crate::reads::read_linked;
use crate::trees::{Ascent, Gap, Rim, Seen, push_seen};
use std::alloc::Global;
use sx_tree::record::NodeRecord;
use sx_view::{Fault, RecordsMut};

/// The nodes from this one up to the top, the nearest first, and how many arrays and objects there are among them.
fn ascend<N: RecordsMut<NodeRecord>>(
    alloc: Global,
    nodes: &mut N,
    next: u32,
    from: u32,
    node: Option<u32>,
) -> Result<Ascent, Fault>
    requires few { next ≤ 2 ^ 30 }
    requires reached { IfSome node (λ to. IsReached (N.told nodes.old) from to) }
    ensures chain { IfOk result (λ ascent. IsChain (N.told nodes.old) node ascent.seen.items) }
    ensures counted { IfOk result (λ ascent. CountsLevels node next (N.told nodes.old) (Some ascent.levels)) }
    ensures low { IfOk result (λ ascent. ascent.levels ≤ next) }
    ensures gets { IfOk result (λ ascent. N.gets nodes.new ≤ N.gets nodes.old + length ascent.seen.items) }
    ensures cannot { IfErr result (λ fault. IsDamaged fault → CountsLevels node next (N.told nodes.old) None) }
    ensures same { N.told nodes.new ≡ N.told nodes.old }
    ensures goes_on { GoesOn N.told N.faults N.damages N.has_mark N.marks nodes.old nodes.new }
    ensures fault { IfErr result (Explains next (N.told nodes.old) (N.damages nodes.old) (Rose (N.faults nodes.old) (N.faults nodes.new))) }
{
    let mut seen: Vec<Seen> = Vec::new(alloc);
    let mut count = 0;
    let mut child = from;
    let mut at = node;
    for _turn in 0..next {
        let Some(number) = at else {
            return Ok(Ascent {
                seen,
                levels: count,
            });
        };
        let record = read_linked(alloc, nodes, child, number)?;
        count += levels(record.kind);
        at = record.parent;
        child = number;
        let one = Seen {
            node: number,
            record,
        };
        push_seen(&mut seen, one)?;
    }
    match at {
        Some(_) => Err(Fault::Damaged(endless(next))),
        None => Ok(Ascent {
            seen,
            levels: count,
        }),
    }
}

/// The nodes from this one up to the top, the nearest last.
pub(crate) fn climb<N: RecordsMut<NodeRecord>>(
    alloc: Global,
    nodes: &mut N,
    next: u32,
    from: u32,
    node: Option<u32>,
) -> Result<Ascent, Fault>
    requires few { next ≤ 2 ^ 30 }
    requires reached { IfSome node (λ to. IsReached (N.told nodes.old) from to) }
    ensures chain { IfOk result (λ ascent. IsChain (N.told nodes.old) node (reverse ascent.seen.items)) }
    ensures counted { IfOk result (λ ascent. CountsLevels node next (N.told nodes.old) (Some ascent.levels)) }
    ensures low { IfOk result (λ ascent. ascent.levels ≤ next) }
    ensures gets { IfOk result (λ ascent. N.gets nodes.new ≤ N.gets nodes.old + length ascent.seen.items) }
    ensures cannot { IfErr result (λ fault. IsDamaged fault → CountsLevels node next (N.told nodes.old) None) }
    ensures same { N.told nodes.new ≡ N.told nodes.old }
    ensures goes_on { GoesOn N.told N.faults N.damages N.has_mark N.marks nodes.old nodes.new }
    ensures fault { IfErr result (Explains next (N.told nodes.old) (N.damages nodes.old) (Rose (N.faults nodes.old) (N.faults nodes.new))) }
{
    let ascent = ascend(alloc, nodes, next, from, node)?;
    let mut seen = ascent.seen;
    seen.as_mut_slice().reverse();
    Ok(Ascent {
        seen,
        levels: ascent.levels,
    })
}

/// The node, where there is one, as a link of another one leads to it.
fn sight<N: RecordsMut<NodeRecord>>(
    alloc: Global,
    nodes: &mut N,
    from: u32,
    node: Option<u32>,
) -> Result<Option<Seen>, Fault>
    requires { IfSome node (λ to. IsReached (N.told nodes.old) from to) }
    ensures sight { IfOk result (IsSight (N.told nodes.old) node) }
    ensures cannot { IfErr result (λ fault. IsDamaged fault → IsNoSight (N.told nodes.old) node) }
    ensures gets { N.gets nodes.new ≤ N.gets nodes.old + 1 }
    ensures same { N.told nodes.new ≡ N.told nodes.old }
    ensures goes_on { GoesOn N.told N.faults N.damages N.has_mark N.marks nodes.old nodes.new }
    ensures fault { (next : ℕ) → IfErr result (Explains next (N.told nodes.old) (N.damages nodes.old) (Rose (N.faults nodes.old)
        (N.faults nodes.new))) }
{
    let Some(number) = node else {
        return Ok(None);
    };
    let record = read_linked(alloc, nodes, from, number)?;
    Ok(Some(Seen {
        node: number,
        record,
    }))
}

/// Reads what stands around the gap.
pub(crate) fn survey<N: RecordsMut<NodeRecord>>(
    alloc: Global,
    nodes: &mut N,
    next: u32,
    gap: Gap,
) -> Result<Rim, Fault>
    requires few { next ≤ 2 ^ 30 }
    requires reached { AreReached (N.told nodes.old) gap }
    ensures rim { IfOk result (IsRim (N.told nodes.old) gap) }
    ensures counted { IfOk result (λ rim. CountsLevels (Some gap.parent) next (N.told nodes.old) (Some rim.levels)) }
    ensures low { IfOk result (λ rim. rim.levels ≤ next) }
    ensures gets { IfOk result (λ rim. N.gets nodes.new ≤ N.gets nodes.old + (3 + length rim.above.items)) }
    ensures cannot { IfErr result (λ fault. IsDamaged fault → CannotSurvey next gap (N.told nodes.old)) }
    ensures same { N.told nodes.new ≡ N.told nodes.old }
    ensures goes_on { GoesOn N.told N.faults N.damages N.has_mark N.marks nodes.old nodes.new }
    ensures fault { IfErr result (Explains next (N.told nodes.old) (N.damages nodes.old) (Rose (N.faults nodes.old) (N.faults nodes.new))) }
{
    let left = sight(alloc, nodes, gap.near, gap.left)?;
    let right = sight(alloc, nodes, gap.near, gap.right)?;
    let ascent = climb(alloc, nodes, next, gap.near, Some(gap.parent))?;
    let levels = ascent.levels;
    let mut above = ascent.seen;
    match above.pop() {
        Some(parent) => Ok(Rim {
            left,
            right,
            parent,
            above,
            levels,
        }),
        None => unreachable!(),
    }
}
