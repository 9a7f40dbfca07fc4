//! The text of a path, read again.
ghost use Rattle.std.specs.Prelude.{◌≤◌, List, length};
ghost use Rattle.sx_tree.specs.declared.record.Step.{Step};
ghost use Rattle.sx_model.specs.PathText.{SpellsPath};
ghost use Rattle.sx_model.specs.WrittenPath.{path_text_of, steps_asked};
ghost use Rattle.sx_select.specs.ReadBack.{HaveTexts};

/// The text of a path spells the path's steps behind the top, so that `parse` gives them, where they are at most 256.
pub fn spell_what_is_asked()
    ensures { (path : List Step) → HaveTexts path → length (steps_asked path) ≤ 256
        → SpellsPath (path_text_of path) (steps_asked path) }
{}
