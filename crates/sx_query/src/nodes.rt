//! Questions about one node: its record, its hash, and its text with all below it.
ghost use Rattle.std.specs.Prelude.{◌≡◌, ◌+◌, ◌≤◌, ◌⊎◌, ℕ, IfErr, IfOk, None, Some};
ghost use Rattle.sx_outside.specs.Faults.{Rose};
ghost use Rattle.sx_run.specs.Answers.{ValidNames};
ghost use Rattle.sx_text.specs.Text.{IsBroken};
ghost use Rattle.sx_tree.specs.declared.query.Query.TheVariants as queries;
ghost use Rattle.sx_view.specs.Rows.{row_of};
ghost use Rattle.sx_cursor.specs.Told.{Tells};
ghost use Rattle.sx_query.specs.Causes.{Explains, IsAbsent, Nothing};
ghost use Rattle.sx_query.specs.Gives.{GivesOfNodes, IsText};

use std::alloc::Global;
use sx_cursor::read;
use sx_text::text;
use sx_tree::bytes::Bytes;
use sx_tree::query::Answer;
use sx_tree::record::NodeRecord;
use sx_view::{QueryFault, Records};

/// The record of the node.
fn record_of<N: Records<NodeRecord>>(
    alloc: Global,
    nodes: &mut N,
    node: u32,
) -> Result<NodeRecord, QueryFault>
    ensures found { IfOk result (λ found. Tells (N.told nodes.old) node (Some (row_of found))) }
    ensures fault { IfErr result (Explains (IsAbsent (N.told nodes.old) node) Nothing
        (Rose (N.faults nodes.old) (N.faults nodes.new)) (N.damages nodes.old)) }
    ensures gets { N.gets nodes.new ≤ N.gets nodes.old + 1 }
    ensures never_falls { N.faults nodes.old ≤ N.faults nodes.new }
    ensures keeps { N.keeps nodes.old nodes.new }
{
    match read(alloc, nodes, node)? {
        Some(record) => Ok(record),
        None => Err(QueryFault::NoNode { node }),
    }
}

/// The record of the node, as an answer.
pub(crate) fn answer_node<N: Records<NodeRecord>>(
    alloc: Global,
    nodes: &mut N,
    node: u32,
) -> Result<Answer, QueryFault>
    ensures gives { (count : ℕ) (names : ValidNames)
        → GivesOfNodes (N.told nodes.old) count names (queries.Node node) result }
    ensures fault { IfErr result (Explains (IsAbsent (N.told nodes.old) node) Nothing
        (Rose (N.faults nodes.old) (N.faults nodes.new)) (N.damages nodes.old)) }
    ensures gets { N.gets nodes.new ≤ N.gets nodes.old + 1 }
    ensures never_falls { N.faults nodes.old ≤ N.faults nodes.new }
    ensures keeps { N.keeps nodes.old nodes.new }
{
    let record = record_of(alloc, nodes, node)?;
    Ok(Answer::Node(record))
}

/// The hash of the node, as an answer.
pub(crate) fn answer_hash<N: Records<NodeRecord>>(
    alloc: Global,
    nodes: &mut N,
    node: u32,
) -> Result<Answer, QueryFault>
    ensures gives { (count : ℕ) (names : ValidNames)
        → GivesOfNodes (N.told nodes.old) count names (queries.Hash node) result }
    ensures fault { IfErr result (Explains (IsAbsent (N.told nodes.old) node) Nothing
        (Rose (N.faults nodes.old) (N.faults nodes.new)) (N.damages nodes.old)) }
    ensures gets { N.gets nodes.new ≤ N.gets nodes.old + 1 }
    ensures never_falls { N.faults nodes.old ≤ N.faults nodes.new }
    ensures keeps { N.keeps nodes.old nodes.new }
{
    let record = record_of(alloc, nodes, node)?;
    Ok(Answer::Hash(record.hash))
}

/// The text of the node with all below it, as an answer. It visits at most `count` nodes.
pub(crate) fn answer_text<N: Records<NodeRecord>>(
    alloc: Global,
    nodes: &mut N,
    node: u32,
    count: u32,
) -> Result<Answer, QueryFault>
    ensures gives { (names : ValidNames)
        → GivesOfNodes (N.told nodes.old) count names (queries.Text node) result }
    ensures text { IfOk result IsText }
    ensures fault { IfErr result (Explains (IsAbsent (N.told nodes.old) node) Nothing
        (Rose (N.faults nodes.old) (N.faults nodes.new))
        (λ damage. N.damages nodes.old damage ⊎ IsBroken (N.told nodes.old) count damage)) }
    ensures never_falls { N.faults nodes.old ≤ N.faults nodes.new }
    ensures keeps { N.keeps nodes.old nodes.new }
{
    let mut written = Bytes::new(alloc);
    if !text(alloc, nodes, node, count, &mut written)? {
        return Err(QueryFault::NoNode { node });
    }
    match written.as_slice() {
        [] => Ok(Answer::Empty),
        _ => Ok(Answer::Text(written)),
    }
}
