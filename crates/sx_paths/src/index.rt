//! Where a path is found by its last step.
ghost use Rattle.std.specs.Prelude.{◌≡◌, ℕ, None, Some, IfOk, OnErr, OnOk};
ghost use Rattle.sx_tree.specs.declared.record.Step.{Step};
ghost use Rattle.sx_paths.specs.Words.{given_at, number_by, IsIndex};

use crate::words::Words;
use std::alloc::{AllocError, Global};
use std::collections::BTreeMap;
use sx_tree::record::Step;

/// The numbers of paths, by the parent's number and the last step.
#[derive(Drop)]
pub(crate) struct Index {
    words: Words,
    /// By the parent's number and the number of the step.
    numbers: BTreeMap<(u32, u64), u32>,
}

impl Index {
    /// No path.
    pub(crate) fn new(alloc: Global) -> Index
        ensures empty { (parent : ℕ) (step : Step) → number_by result parent step ≡ None }
        ensures index { IsIndex result }
    {
        Index {
            words: Words::new(alloc),
            numbers: BTreeMap::new(alloc),
        }
    }

    pub(crate) fn find(&self, parent: u32, step: &Step) -> Option<u32>
        ensures { result ≡ number_by self.now parent step.now }
    {
        let word = self.words.word(step)?;
        self.numbers.get(&(parent, word)).copied()
    }

    /// Gives a path its number, instead of one that it had.
    pub(crate) fn put(
        &mut self,
        alloc: Global,
        parent: u32,
        step: &Step,
        number: u32,
    ) -> Result<(), AllocError>
        requires { IsIndex self.old }
        ensures ok { OnOk result ((p : ℕ) (s : Step) → number_by self.new p s ≡ given_at parent step.now (Some number) (number_by self.old) p s) }
        ensures err { OnErr result ((p : ℕ) (s : Step) → number_by self.new p s ≡ number_by self.old p s) }
        ensures index { IsIndex self.new }
    {
        let word = self.words.learn(alloc, step)?;
        self.numbers.insert((parent, word), number)?;
        Ok(())
    }

    /// Takes a path away, where it is there.
    pub(crate) fn remove(&mut self, parent: u32, step: &Step)
        requires { IsIndex self.old }
        ensures removed { (p : ℕ) (s : Step) → number_by self.new p s ≡ given_at parent step.now None (number_by self.old) p s }
        ensures index { IsIndex self.new }
    {
        if let Some(word) = self.words.word(step) {
            self.numbers.remove(&(parent, word));
        }
    }
}
