//! Questions about a document at a revision.
ghost use Rattle.std.specs.Prelude.{◌≡◌, ◌+◌, ◌<◌, ◌≤◌, ◌≢◌, ◌↔◌, ◌⊎◌, ℕ, Err, IfOk, None, Ok};
ghost use Rattle.sx_bytes.specs.declared.damage.Damage.{Damage};
ghost use Rattle.sx_outside.specs.Faults.{Rose};
ghost use Rattle.sx_cursor.specs.Told.{Tells};
ghost use Rattle.sx_tree.specs.declared.query.Answer.TheVariants as answers;
ghost use Rattle.sx_tree.specs.declared.query.Query.TheVariants as queries;
ghost use Rattle.sx_view.specs.declared.fault.QueryFault.TheVariants as faults;
ghost use Rattle.sx_query.specs.Causes.{AsksOneRecord, HasFailed, IsAboutNode, IsCause, IsOfBelow};
ghost use Rattle.sx_query.specs.Gives.{GivesEach, IsText};

use crate::about::About;
use crate::lists::{answer_select, answer_valid};
use crate::nodes::{answer_hash, answer_node, answer_text};
use crate::paths::answer_path;
use crate::walk::answer_axis;
use std::alloc::Global;
use sx_tree::query::{Answer, Query};
use sx_view::{QueryFault, Views};

/// What the question answers about the revision whose nodes and paths have these records, in one object. A text, an axis, a
/// selection and a search for valid objects visit at most as many nodes as there are.
///
/// # Errors
///
/// `NoNode` where the node of a text, a record, a hash or an axis has no record. `NoPath` exactly where the number of
/// the path is 0 or above the number of paths. `Failed` only where the faults of one of the objects below rose.
/// `Damaged` with a damage of the object below, or where records break a rule, and so never over the records of a
/// document: 23 where a link leads to a node that has no record, 24 where links lead on after as many nodes as there
/// are, 26 where a kind cannot stand where it does, a Key has no child, or a path has no record or a parent that is
/// not before it. `OutOfMemory`. `Missing` never comes.
pub fn ask<V: Views>(
    alloc: Global,
    view: &mut V,
    about: &About<'_>,
    query: &Query,
) -> Result<Answer, QueryFault>
    ensures answers { GivesEach (V.Records-1.told view.old) (V.Records-2.told view.old) about.now query.now result }
    ensures paths { query.now ≡ queries.Paths → result ≡ Ok (answers.Total about.now.paths) }
    ensures texts { (node : ℕ) → query.now ≡ queries.Text node → IfOk result IsText }
    ensures no_node { (node : ℕ) → result ≡ Err (faults.NoNode node)
        → IsAboutNode query.now node × Tells (V.Records-1.told view.old) node None }
    ensures no_path { (path : ℕ) → (result ≡ Err (faults.NoPath path))
        ↔ ((query.now ≡ queries.Path path) × ((path ≡ 0) ⊎ (about.now.paths < path))) }
    ensures never_missing { (asked seen : ℕ) → result ≢ Err (faults.Missing asked seen) }
    ensures failed { result ≡ Err faults.Failed
        → HasFailed query.now (Rose (V.Records-1.faults view.old) (V.Records-1.faults view.new))
        (Rose (V.Records-2.faults view.old) (V.Records-2.faults view.new)) }
    ensures damaged { (damage : Damage) → result ≡ Err (faults.Damaged damage)
        → IsOfBelow query.now (V.Records-1.damages view.old) (V.Records-2.damages view.old) damage
        ⊎ IsCause query.now (V.Records-1.told view.old) (V.Records-2.told view.old) about.now damage }
    ensures few_gets { AsksOneRecord query.now → V.Records-1.gets view.new ≤ V.Records-1.gets view.old + 1 }
    ensures keeps_nodes { V.Records-1.keeps view.old view.new }
    ensures keeps_paths { V.Records-2.keeps view.old view.new }
{
    match query {
        Query::Text(node) => answer_text(alloc, view, *node, about.nodes),
        Query::Node(node) => answer_node(alloc, view, *node),
        Query::Hash(node) => answer_hash(alloc, view, *node),
        Query::Axis(axis, node) => answer_axis(alloc, view, *axis, *node, about.nodes),
        Query::Path(path) => answer_path(alloc, view, *path, about.paths),
        Query::Paths => Ok(Answer::Total(about.paths)),
        Query::Select(path) => answer_select(alloc, view, path, about.nodes),
        Query::Valid(time) => answer_valid(alloc, view, about, *time),
    }
}
