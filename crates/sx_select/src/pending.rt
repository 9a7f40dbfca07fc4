//! What is left of a search.
use crate::level::Level;

/// A node whose children are searched, with its level and the sibling behind it.
#[derive(Drop)]
pub(crate) struct Up {
    pub number: u32,
    pub right: Option<u32>,
    pub level: Level,
}

/// How far a search has come.
#[derive(Drop)]
pub(crate) struct Search {
    /// The nodes above, the outermost first.
    pub outer: Vec<Up>,
    /// The level where it stands.
    pub level: Level,
    /// The node that links to the next one.
    pub from: u32,
    /// The node of the level that comes next.
    pub next: Option<u32>,
    /// How many visits are left.
    pub left: u32,
}
