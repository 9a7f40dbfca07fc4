//! How far one step of a path has led.

/// What is known of the nodes of one level and the set from which a step is taken.
#[derive(Clone, Copy)]
pub(crate) struct Mark {
    /// The nodes of the level are in the set.
    pub here: bool,
    /// The node above them is an Object in the set.
    pub object: bool,
    /// Some node above them is in the set.
    pub above: bool,
}
