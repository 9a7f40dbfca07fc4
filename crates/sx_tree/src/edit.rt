//! Edits of a document, and why one is refused.
use crate::json::{Json, Scalar};
use crate::record::Kind;
use crate::text::Text;
use thiserror::Error;

/// Where a new value comes: at an end of a node's children, or beside a node.
#[derive(Clone, Copy, Debug, PartialEq, Eq)]
pub enum Place {
    /// The first child of the node.
    First(u32),
    /// The last child of the node.
    Last(u32),
    /// The sibling before the node.
    Before(u32),
    /// The sibling behind the node.
    After(u32),
}

/// One change of a document. New nodes take the next numbers, in preorder.
#[derive(Drop)]
pub enum Edit {
    /// The value takes the place of the document's child, or becomes its child.
    Load {
        value: Json,
    },
    /// The value comes to the place. Among the members of an object it comes below a new key of the name.
    Insert {
        place: Place,
        name: Option<Text>,
        value: Json,
    },
    /// A scalar node keeps its number and has this scalar.
    SetScalar {
        node: u32,
        value: Scalar,
    },
    /// The value takes the place of the node with all below it.
    Replace {
        node: u32,
        value: Json,
    },
    /// A key has this name.
    Rename {
        node: u32,
        name: Text,
    },
    /// The node goes with all below it.
    Remove {
        node: u32,
    },
}

/// What an accepted edit did to the numbers of nodes.
#[derive(Clone, Copy, Debug, PartialEq, Eq)]
pub struct Edited {
    /// The first new number. None where the edit makes no node.
    pub first: Option<u32>,
    /// The number that the next new node takes.
    pub next: u32,
}

/// Why an edit is refused. Where several reasons stand, the first of them in this order is told. A refused
/// edit changes nothing.
#[derive(Clone, Copy, Debug, PartialEq, Eq, Drop, Error)]
pub enum EditRefusal {
    /// There is no such node.
    #[error("there is no node {node}")]
    NoNode { node: u32 },
    /// The edit is not for a node of this kind, or not for one that stands there.
    #[error("the edit is not for node {node}")]
    WrongKind { node: u32, kind: Kind },
    /// Another key of the object, which is this node, has the name.
    #[error("node {node} has the name")]
    NameTaken { node: u32 },
    /// The document, which is node 0, has a child.
    #[error("the document has a child")]
    DocumentFull { node: u32 },
    /// So many arrays and objects would nest, which is more than 256. 4,294,967,295 where it is greater.
    #[error("{depth} arrays and objects would nest")]
    TooDeep { depth: u32 },
    /// The new nodes need numbers of 1,073,741,824 and above. This is the number that the next one would take.
    #[error("the numbers of nodes are spent at {next}")]
    NumbersSpent { next: u32 },
    /// A member of an object needs a name.
    #[error("a member needs a name")]
    NameMissing,
    /// Only a member of an object has a name.
    #[error("only a member of an object has a name")]
    NameUnasked,
    /// There would be more than 1,073,741,823 paths. So many there are.
    #[error("the numbers of paths are spent after {paths}")]
    PathsSpent { paths: u32 },
}
