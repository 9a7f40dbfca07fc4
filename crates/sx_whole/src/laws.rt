//! What holds of bodies.
ghost use Rattle.std.specs.Prelude.{◌≡◌, List, ℕ};
ghost use Rattle.sx_tree.specs.declared.record.NodeRecord.{NodeRecord};
ghost use Rattle.sx_model.specs.Records.{PathRow};
ghost use Rattle.sx_whole.specs.Body.{AreWhole, body_bytes};

/// No two documents have one body.
pub fn one_body()
    ensures { (nodes others : List (ℕ × NodeRecord)) (rows other_rows : List PathRow) → AreWhole nodes rows
        → AreWhole others other_rows
        → body_bytes nodes rows ≡ body_bytes others other_rows → (nodes ≡ others) × (rows ≡ other_rows) }
{}
