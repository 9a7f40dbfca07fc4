//! Questions about an axis of a node.
ghost use Rattle.std.specs.Prelude.{◌≡◌, ◌≤◌, ◌⊎◌, IfErr, IfOk, None, Some};
ghost use Rattle.sx_outside.specs.Faults.{Rose};
ghost use Rattle.sx_axes.specs.Broken.{IsBroken};
ghost use Rattle.sx_view.specs.Records as views;
ghost use Rattle.sx_cursor.specs.Told.{IsNoDocument, Tells};
ghost use Rattle.sx_run.specs.Answers.{ValidNames};
ghost use Rattle.sx_tree.specs.declared.query.Query.TheVariants as queries;
ghost use Rattle.sx_view.specs.Rows.{row_of};
ghost use Rattle.sx_query.specs.Causes.{Explains, IsAbsent, Nothing};
ghost use Rattle.sx_query.specs.Gives.{GivesOfNodes};
ghost use Rattle.sx_query.specs.OnAxis.{AreOnAxis};

use std::alloc::Global;
use sx_axes::Walk;
use sx_cursor::read;
use sx_tree::numbers::Numbers;
use sx_tree::query::{Answer, Axis};
use sx_tree::record::NodeRecord;
use sx_view::{Fault, QueryFault, Records};

/// The numbers on the axis of the node, whose record this is.
fn numbers_on<N: Records<NodeRecord>>(
    alloc: Global,
    nodes: &mut N,
    axis: Axis,
    node: u32,
    told: &NodeRecord,
    count: u32,
) -> Result<Numbers, Fault>
    requires there { Tells (N.told nodes.old) node (Some (row_of told.now)) }
    ensures lists { IfOk result (AreOnAxis (N.told nodes.old) axis node) }
    ensures sound { IfErr result (λ fault. views.IsDamaged fault → IsNoDocument (N.told nodes.old) count) }
    ensures fault { IfErr result (views.Explains (N.damages nodes.old)
        (Rose (N.faults nodes.old) (N.faults nodes.new)) (IsBroken (N.told nodes.old) count)) }
    ensures never_falls { N.faults nodes.old ≤ N.faults nodes.new }
    ensures keeps { N.keeps nodes.old nodes.new }
{
    let mut numbers = Numbers::new(alloc);
    for step in Walk::start(alloc, nodes, axis, node, told, count) {
        numbers.push(step?)?;
    }
    Ok(numbers)
}

/// The numbers on the axis of the node, as an answer. It visits at most `count` nodes.
pub(crate) fn answer_axis<N: Records<NodeRecord>>(
    alloc: Global,
    nodes: &mut N,
    axis: Axis,
    node: u32,
    count: u32,
) -> Result<Answer, QueryFault>
    ensures gives { (names : ValidNames)
        → GivesOfNodes (N.told nodes.old) count names (queries.Axis axis node) result }
    ensures fault { IfErr result (Explains (IsAbsent (N.told nodes.old) node) Nothing
        (Rose (N.faults nodes.old) (N.faults nodes.new))
        (λ damage. N.damages nodes.old damage ⊎ IsBroken (N.told nodes.old) count damage)) }
    ensures never_falls { N.faults nodes.old ≤ N.faults nodes.new }
    ensures keeps { N.keeps nodes.old nodes.new }
{
    let Some(record) = read(alloc, nodes, node)? else {
        return Err(QueryFault::NoNode { node });
    };
    let numbers = numbers_on(alloc, nodes, axis, node, &record, count)?;
    Ok(Answer::Nodes(numbers))
}
