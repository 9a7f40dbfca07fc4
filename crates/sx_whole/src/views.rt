//! The records of a document, as one object.
use crate::document::Document;
use std::alloc::Global;
use sx_tree::record::{NodeRecord, PathRecord};
use sx_view::{Fault, MemRecords, Records, Views};

impl Records<NodeRecord> for Document {
    ghost use Rattle.std.specs.Prelude.{◌≡◌, refl};
    ghost use Rattle.std.proofs.Common.{◌∙◌};

    ghost told = { λ d. ⟦<MemRecords<NodeRecord> as Records<NodeRecord>>⟧.told d.nodes };

    ghost gets = { λ d. ⟦<MemRecords<NodeRecord> as Records<NodeRecord>>⟧.gets d.nodes };

    ghost faults = { λ _. 0 };

    ghost damages = { λ _ _. ⊥ };

    ghost keeps = { λ a b. (⟦<MemRecords<NodeRecord> as Records<NodeRecord>>⟧.told b.nodes ≡ ⟦<MemRecords<NodeRecord> as Records<NodeRecord>>⟧.told a.nodes)
        × (⟦<MemRecords<PathRecord> as Records<PathRecord>>⟧.told b.paths ≡ ⟦<MemRecords<PathRecord> as Records<PathRecord>>⟧.told a.paths) };

    ghost untold = { λ a damage is. absurd is };

    ghost keeps_told = { λ a b kept. kept.0 };

    ghost keeps_damages = { λ a b kept damage is. is };

    ghost keeps_itself = { λ a. (refl, refl) };

    ghost keeps_then = { λ a b c first second. (second.0 ∙ first.0, second.1 ∙ first.1) };

    fn get(&mut self, alloc: Global, k: u32) -> Result<Option<NodeRecord>, Fault> {
        self.nodes.get(alloc, k)
    }
}

impl Records<PathRecord> for Document {
    ghost use Rattle.std.specs.Prelude.{◌≡◌, refl};
    ghost use Rattle.std.proofs.Common.{◌∙◌};

    ghost told = { λ d. ⟦<MemRecords<PathRecord> as Records<PathRecord>>⟧.told d.paths };

    ghost gets = { λ d. ⟦<MemRecords<PathRecord> as Records<PathRecord>>⟧.gets d.paths };

    ghost faults = { λ _. 0 };

    ghost damages = { λ _ _. ⊥ };

    ghost keeps = { λ a b. (⟦<MemRecords<NodeRecord> as Records<NodeRecord>>⟧.told b.nodes ≡ ⟦<MemRecords<NodeRecord> as Records<NodeRecord>>⟧.told a.nodes)
        × (⟦<MemRecords<PathRecord> as Records<PathRecord>>⟧.told b.paths ≡ ⟦<MemRecords<PathRecord> as Records<PathRecord>>⟧.told a.paths) };

    ghost untold = { λ a damage is. absurd is };

    ghost keeps_told = { λ a b kept. kept.1 };

    ghost keeps_damages = { λ a b kept damage is. is };

    ghost keeps_itself = { λ a. (refl, refl) };

    ghost keeps_then = { λ a b c first second. (second.0 ∙ first.0, second.1 ∙ first.1) };

    fn get(&mut self, alloc: Global, k: u32) -> Result<Option<PathRecord>, Fault> {
        self.paths.get(alloc, k)
    }
}

impl Views for Document {
    ghost paths_kept = { λ a b kept. kept };

    ghost nodes_kept = { λ a b kept. kept };
}
