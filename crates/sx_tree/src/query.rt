//! Questions about a document at a revision, and their answers.
use crate::bytes::Bytes;
use crate::numbers::Numbers;
use crate::record::NodeRecord;
use crate::steps::Steps;

/// Which revision is opened.
#[derive(Clone, Copy, Debug, PartialEq, Eq)]
pub enum Which {
    /// The last one.
    Latest,
    /// The one after so many commits.
    Number(u32),
}

/// The nodes that stand in one relation to a node.
#[derive(Clone, Copy, Debug, PartialEq, Eq)]
pub enum Axis {
    Child,
    Descendant,
    Ancestor,
    /// Those behind the node in preorder, but for its descendants.
    Following,
    /// Those before the node in preorder, but for its ancestors.
    Preceding,
    FollowingSibling,
    PrecedingSibling,
}

/// A path through the document: from its child on, step by step.
#[derive(Drop)]
pub struct PathExpr {
    pub steps: Steps,
}

/// A question about a document at a revision.
#[derive(Drop)]
pub enum Query {
    /// The text of a node with all below it.
    Text(u32),
    Node(u32),
    Hash(u32),
    Axis(Axis, u32),
    /// The path of this number.
    Path(u32),
    /// How many paths there are.
    Paths,
    /// The nodes to which a path leads.
    Select(PathExpr),
    /// The objects that are valid at a time, in milliseconds since the start of 1970 in UTC.
    Valid(i64),
}

/// What a question answers.
#[derive(Drop)]
pub enum Answer {
    Text(Bytes),
    /// The text of a document without a child.
    Empty,
    Node(NodeRecord),
    Hash(u128),
    /// Nodes by their numbers.
    Nodes(Numbers),
    /// A path's text, and how many values stand on it.
    Path { count: u32, text: Bytes },
    /// How many there are.
    Total(u32),
}
