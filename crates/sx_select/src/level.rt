//! How far the steps of a path have led to the nodes of one level.
ghost use Rattle.std.specs.Prelude.{◌≡◌, IfOk, false};
ghost use Rattle.sx_model.specs.Tree.{is_document};
ghost use Rattle.sx_select.specs.Marks.{last_below, leads_below, marks_below, no_marks};

use crate::mark::Mark;
use std::alloc::{AllocError, Global};
use sx_tree::record::{Kind, NodeRecord};
use sx_tree::steps::PathStep;

/// A level of siblings: a mark for each step, and whether they are selected.
#[derive(Drop)]
pub(crate) struct Level {
    pub marks: Vec<Mark>,
    pub last: bool,
}

/// Whether the step leads to the children of the node, which stands on a level with this mark.
fn leads(step: &PathStep, mark: Mark, node: &NodeRecord) -> bool
    ensures { result ≡ leads_below step.now mark node.now.kind node.now.label }
{
    match step {
        PathStep::Name(name) => {
            matches!(node.kind, Kind::Key)
                && node.label.as_bytes() == name.as_bytes()
                && mark.object
        }
        PathStep::Item => matches!(node.kind, Kind::Array) && mark.here,
        PathStep::Anywhere(name) => {
            matches!(node.kind, Kind::Key) && node.label.as_bytes() == name.as_bytes() && mark.above
        }
    }
}

impl Level {
    /// The level of the document itself.
    pub(crate) fn top(alloc: Global, steps: &[PathStep]) -> Result<Level, AllocError>
        ensures marks { IfOk result (λ level. level.marks.items ≡ no_marks steps.now) }
        ensures last { IfOk result (λ level. level.last ≡ false) }
    {
        let mut marks = Vec::new(alloc);
        let mut rest = steps;
        while let [_, later @ ..] = rest {
            marks.push(Mark {
                here: false,
                object: false,
                above: false,
            })?;
            rest = later;
        }
        Ok(Level { marks, last: false })
    }

    /// The level below a node on this one.
    pub(crate) fn below(
        &self,
        alloc: Global,
        steps: &[PathStep],
        node: &NodeRecord,
    ) -> Result<Level, AllocError>
        ensures marks { IfOk result (λ level. level.marks.items
            ≡ marks_below steps.now self.now.marks.items node.now.kind node.now.label (is_document node.now.kind)) }
        ensures last { IfOk result (λ level. level.last
            ≡ last_below steps.now self.now.marks.items node.now.kind node.now.label (is_document node.now.kind)) }
    {
        let object = matches!(node.kind, Kind::Object);
        let mut marks = Vec::new(alloc);
        let mut comes = matches!(node.kind, Kind::Document);
        let mut rest = steps;
        let mut above = self.marks.as_slice();
        while let [step, later @ ..] = rest {
            let [mark, others @ ..] = above else {
                return Ok(Level { marks, last: false });
            };
            marks.push(Mark {
                here: comes,
                object: object && mark.here,
                above: mark.here || mark.above,
            })?;
            comes = leads(step, *mark, node);
            rest = later;
            above = others;
        }
        Ok(Level { marks, last: comes })
    }
}
