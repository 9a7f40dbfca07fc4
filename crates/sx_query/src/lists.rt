//! Questions that search the whole document.
ghost use Rattle.std.specs.Prelude.{◌≡◌, ◌≤◌, ◌⊎◌, IfErr, None};
ghost use Rattle.sx_outside.specs.Faults.{Rose};
ghost use Rattle.sx_run.specs.Answers.{ValidNames};
ghost use Rattle.sx_text.specs.Text as texts;
ghost use Rattle.sx_valid.specs.Valid as times;
ghost use Rattle.sx_tree.specs.declared.query.Query.TheVariants as queries;
ghost use Rattle.sx_query.specs.Causes.{Explains, Nothing};
ghost use Rattle.sx_query.specs.Gives.{GivesOfNodes, names_of};

use crate::about::About;
use std::alloc::Global;
use sx_select::select;
use sx_tree::query::{Answer, PathExpr};
use sx_tree::record::NodeRecord;
use sx_valid::valid_at;
use sx_view::{QueryFault, Records};

/// The nodes to which the path leads, as an answer. It visits at most `count` nodes.
pub(crate) fn answer_select<N: Records<NodeRecord>>(
    alloc: Global,
    nodes: &mut N,
    path: &PathExpr,
    count: u32,
) -> Result<Answer, QueryFault>
    ensures gives { (names : ValidNames)
        → GivesOfNodes (N.told nodes.old) count names (queries.Select path.now) result }
    ensures fault { IfErr result (Explains Nothing Nothing
        (Rose (N.faults nodes.old) (N.faults nodes.new))
        (λ damage. N.damages nodes.old damage ⊎ texts.IsBroken (N.told nodes.old) count damage)) }
    ensures never_falls { N.faults nodes.old ≤ N.faults nodes.new }
    ensures keeps { N.keeps nodes.old nodes.new }
{
    let selected = select(alloc, nodes, path, count)?;
    Ok(Answer::Nodes(selected))
}

/// The objects that are valid at the time, in milliseconds since the start of 1970 in UTC, as an answer.
pub(crate) fn answer_valid<N: Records<NodeRecord>>(
    alloc: Global,
    nodes: &mut N,
    about: &About<'_>,
    time: i64,
) -> Result<Answer, QueryFault>
    ensures gives { GivesOfNodes (N.told nodes.old) about.now.nodes (names_of about.now) (queries.Valid time) result }
    ensures fault { IfErr result (Explains Nothing Nothing
        (Rose (N.faults nodes.old) (N.faults nodes.new))
        (λ damage. N.damages nodes.old damage ⊎ times.IsBroken (N.told nodes.old) about.now.nodes damage)) }
    ensures never_falls { N.faults nodes.old ≤ N.faults nodes.new }
    ensures keeps { N.keeps nodes.old nodes.new }
{
    let valid = valid_at(alloc, nodes, about.from, about.to, time, about.nodes)?;
    Ok(Answer::Nodes(valid))
}
