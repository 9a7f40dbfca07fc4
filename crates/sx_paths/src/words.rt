//! Numbers for steps.
ghost use Rattle.std.specs.Prelude.{◌≡◌, ℕ, List, IfOk, OnErr, Some};
ghost use Rattle.std.specs.BTreeMap.{get_by_text};
ghost use Rattle.sx_tree.specs.declared.record.Step.{Step};
ghost use Rattle.sx_paths.specs.Words.{word_of, AreNumbered};

use std::alloc::{AllocError, Global};
use std::collections::BTreeMap;
use sx_tree::record::Step;
use sx_tree::text::Text;

/// The number of the step to the document's child.
const TOP: u64 = 0;

/// The number of the step to an element of an array.
const ITEM: u64 = 1;

/// The least number of a name.
const NAMES: u64 = 2;

/// Steps that were met, each by a number of its own.
#[derive(Drop)]
pub(crate) struct Words {
    /// The numbers of the names.
    names: BTreeMap<String, u64>,
}

impl Words {
    /// No name.
    pub(crate) fn new(alloc: Global) -> Words
        ensures { AreNumbered result.names }
    {
        Words {
            names: BTreeMap::new(alloc),
        }
    }

    /// The number of the step. None where it was not met.
    pub(crate) fn word(&self, step: &Step) -> Option<u64>
        ensures { result ≡ word_of self.now.names step.now }
    {
        match step {
            Step::Top => Some(TOP),
            Step::Item => Some(ITEM),
            Step::Name(name) => self.names.get(name.as_str()).copied(),
        }
    }

    /// The number of the step, which from now on is met.
    pub(crate) fn learn(&mut self, alloc: Global, step: &Step) -> Result<u64, AllocError>
        requires { AreNumbered self.old.names }
        ensures ok { IfOk result (λ word. word_of self.new.names step.now ≡ Some word) }
        ensures kept { (other : Step) (word : ℕ) → word_of self.old.names other ≡ Some word → word_of self.new.names other ≡ Some word }
        ensures numbered { AreNumbered self.new.names }
    {
        match step {
            Step::Top => Ok(TOP),
            Step::Item => Ok(ITEM),
            Step::Name(name) => self.learn_name(alloc, name),
        }
    }

    fn learn_name(&mut self, alloc: Global, name: &Text) -> Result<u64, AllocError>
        requires { AreNumbered self.old.names }
        ensures ok { IfOk result (λ word. get_by_text self.new.names name.now ≡ Some word) }
        ensures kept { (other : List ℕ) (word : ℕ) → get_by_text self.old.names other ≡ Some word → get_by_text self.new.names other ≡ Some word }
        ensures numbered { AreNumbered self.new.names }
    {
        if let Some(word) = self.names.get(name.as_str()) {
            return Ok(*word);
        }
        let key = String::from_str(alloc, name.as_str())?;
        let word = self.names.len() as u64 + NAMES;
        self.names.insert(key, word)?;
        Ok(word)
    }
}
