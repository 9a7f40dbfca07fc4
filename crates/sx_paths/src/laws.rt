//! What holds of the paths of a document, and of the table of them.
ghost use Rattle.std.specs.Prelude.{◌≡◌, ◌-◌, ◌++◌, ◌∷◌, [], List, false, true, ℕ};
ghost use Rattle.std.specs.List.{position_from};
ghost use Rattle.sx_tree.specs.declared.record.Step.{Step};
ghost use Rattle.sx_model.specs.Commit.{Commit, IsLegal, state_of};
ghost use Rattle.sx_model.specs.Edit.{AreAccepted, Edit, after};
ghost use Rattle.sx_model.specs.Paths.{number_of, same_path};
ghost use Rattle.sx_paths.specs.Listed.{AreListed, IsBase, counted, has_path, rows_of_paths};
ghost use Rattle.sx_paths.specs.Table.{number_in, recount};

/// In each revision, and in each state to which accepted edits lead from there, each path is listed once, behind the
/// one from which it goes on.
pub fn list_parents_first()
    ensures { (commits : List Commit) (r : ℕ) (edits : List Edit) → IsLegal commits
        → AreAccepted edits (state_of commits r) → AreListed (after edits (state_of commits r)).paths }
{}

/// In the table of a list of paths the number that is found is that of the path in the list.
pub fn find_in_list()
    ensures { (count : List Step → ℕ) (listed : List (List Step)) (path : List Step) (step : Step)
        → AreListed listed → IsBase listed path
        → number_in (rows_of_paths count listed) (number_of listed path) step
        ≡ position_from (same_path (step ∷ path)) 1 listed }
{}

/// The table of a list of paths with a new entry is that of the list with the new path.
pub fn enter_into_list()
    ensures { (count : List Step → ℕ) (listed : List (List Step)) (step : Step) (path : List Step)
        → AreListed listed → IsBase listed path → has_path listed (step ∷ path) ≡ false → count (step ∷ path) ≡ 0
        → rows_of_paths count listed ++ record { parent = number_of listed path; step = step; count = 0 } ∷ []
        ≡ rows_of_paths count (listed ++ (step ∷ path) ∷ []) }
{}

/// The table of a list of paths with another count in one entry is that of the list with this count on the path.
pub fn count_in_list()
    ensures { (count : List Step → ℕ) (change : ℕ → ℕ) (listed : List (List Step)) (path : List Step)
        → AreListed listed → has_path listed path ≡ true
        → recount change (number_of listed path - 1) (rows_of_paths count listed)
        ≡ rows_of_paths (counted change path count) listed }
{}
