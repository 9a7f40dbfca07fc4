//! Where a walk goes on.
use sx_tree::query::Axis;

/// Where a walk goes on, and how far it may go.
#[derive(Clone, Copy)]
pub struct Course {
    pub(crate) axis: Axis,
    /// The node that was read last, whose links lead on.
    pub(crate) from: u32,
    /// The node that comes next on this level.
    pub(crate) next: Option<u32>,
    /// The node above this level.
    pub(crate) up: Option<u32>,
    /// How many nodes above this level were visited on the way down.
    pub(crate) levels: u32,
    /// How many visits are left.
    pub(crate) left: u32,
    /// How many visits there were at the start.
    pub(crate) count: u32,
}

/// What one read on leads to.
#[derive(Clone, Copy)]
pub(crate) enum Passage {
    /// To a node that is listed.
    Comes(u32),
    /// Past a node that is not listed now.
    Passed,
    /// To the end.
    Ended,
}
