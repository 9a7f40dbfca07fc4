//! The steps of a path through a document.
ghost use Rattle.std.specs.Prelude.{◌≡◌, [], ◌∷◌, ◌++◌, OnErr, OnOk, length};

use crate::text::Text;
use std::alloc::{AllocError, Global};
use std::marker::Model;

/// One step from nodes to nodes.
#[derive(Drop)]
pub enum PathStep {
    /// From each object to the value of the member of this name.
    Name(Text),
    /// From each array to its elements.
    Item,
    /// To the value of each member of this name below.
    Anywhere(Text),
}

/// A list of steps.
#[derive(Drop)]
pub struct Steps {
    steps: Vec<PathStep>,
}

impl Model for Steps {
    ghost use Rattle.std.specs.Prelude.{List};
    ghost use Rattle.sx_tree.specs.declared.steps.PathStep.{PathStep};

    ghost Value = { List PathStep };

    ghost view = { λ s. s.steps.items };
}

impl Steps {
    /// No steps.
    pub fn new(alloc: Global) -> Steps
        ensures { result ≡ [] }
    {
        Steps {
            steps: Vec::new(alloc),
        }
    }

    pub fn len(&self) -> usize
        ensures { result ≡ length self.now }
    {
        self.steps.len()
    }

    pub fn as_slice(&self) -> &[PathStep]
        ensures { result.now ≡ self.now }
    {
        self.steps.as_slice()
    }

    /// Adds a step at the end. A failure changes nothing.
    pub fn push(&mut self, step: PathStep) -> Result<(), AllocError>
        ensures ok { OnOk result (self.new ≡ self.old ++ step ∷ []) }
        ensures err { OnErr result (self.new ≡ self.old) }
    {
        self.steps.push(step)?;
        Ok(())
    }
}
