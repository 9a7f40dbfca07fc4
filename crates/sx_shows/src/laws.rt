//! What holds of fragments, pages and groups.
ghost use Rattle.std.specs.Prelude.{◌≡◌, ◌+◌, ◌≤◌, List, ℕ, Some, slice_get};
ghost use Rattle.sx_layout.specs.Birth.{Birth};
ghost use Rattle.sx_layout.specs.FrameGroup.{FrameGroup, first_root};
ghost use Rattle.sx_layout.specs.Rules.{Follow, KeepCounts};
ghost use Rattle.sx_model.specs.Commit.{Commit, IsLegal};
ghost use Rattle.sx_shows.specs.Leads.{LeavesLead};
ghost use Rattle.sx_shows.specs.Leaves.{NodesAreTold, PathsAreTold};
ghost use Rattle.sx_shows.specs.Shows.{AreWithin, Shows};

/// The window law: at each revision each leaf of nodes is told by at most as many fragments as the window says.
pub fn window_of_nodes()
    ensures { (commits : List Commit) (w l r : ℕ) → IsLegal commits → 1 ≤ w → NodesAreTold commits w l r }
{}

/// The same of each leaf of paths.
pub fn window_of_paths()
    ensures { (commits : List Commit) (w l r : ℕ) → 1 ≤ w → PathsAreTold commits w l r }
{}

/// The groups that show commits under a birth are one list.
pub fn one_list()
    ensures { (birth : Birth) (groups others : List FrameGroup) (commits : List Commit)
        → Shows birth groups commits → Shows birth others commits → groups ≡ others }
{}

/// From the roots of each revision the pages lead to the frames of each leaf's fragments, newest first.
pub fn pages_lead()
    ensures { (birth : Birth) (groups : List FrameGroup) (commits : List Commit) (place : ℕ) (group : FrameGroup)
        → Shows birth groups commits → 1 ≤ birth.window → slice_get groups place ≡ Some group
        → LeavesLead birth.window groups commits (place + 1) group }
{}

/// Groups that show commits keep what opening asks of the numbers of their trees and of the lengths of their frames.
pub fn counts_keep()
    ensures { (birth : Birth) (groups : List FrameGroup) (commits : List Commit)
        → Shows birth groups commits → KeepCounts first_root groups }
{}

/// Within the limits they follow one another as opening asks.
pub fn order_keeps()
    ensures { (birth : Birth) (groups : List FrameGroup) (commits : List Commit)
        → Shows birth groups commits → AreWithin groups → Follow first_root groups }
{}
