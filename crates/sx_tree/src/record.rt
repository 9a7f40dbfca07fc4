//! What is kept of a node and of a path.

ghost use Rattle.std.specs.Prelude.{◌<◌, ◌^◌};
ghost use Rattle.sx_tree.specs.Record.{IsLink, IsLabel};

use crate::text::Text;

/// What a node is.
#[derive(Clone, Copy, Debug, PartialEq, Eq)]
pub enum Kind {
    Document,
    Object,
    Array,
    Key,
    Str,
    Number,
    Bool,
    Null,
}

/// A node, with its nearest kin by their numbers.
#[derive(Drop)]
pub struct NodeRecord {
    pub kind: Kind,
    pub parent: Option<u32>,
    /// The sibling before.
    pub left: Option<u32>,
    /// The sibling behind.
    pub right: Option<u32>,
    /// The first child.
    pub first: Option<u32>,
    /// The last child.
    pub last: Option<u32>,
    /// How many children there are.
    pub children: u32,
    /// How many nodes are below.
    pub descendants: u32,
    /// The hash of the node with all below.
    pub hash: u128,
    /// The number of the path.
    pub path: u32,
    /// A key's name, a string's content, a number's literal, or one byte 0 or 1 for a boolean. Else empty.
    pub label: Text,
    ghost parent_fits: { IsLink parent },
    ghost left_fits: { IsLink left },
    ghost right_fits: { IsLink right },
    ghost first_fits: { IsLink first },
    ghost last_fits: { IsLink last },
    ghost children_fits: { children < 4_294_967_296 },
    ghost descendants_fits: { descendants < 4_294_967_296 },
    ghost hash_fits: { hash < 2 ^ 128 },
    ghost path_fits: { path < 1_073_741_824 },
    ghost label_fits: { ∥ IsLabel kind label ∥₁ },
}

/// The last step of a path.
#[derive(Drop)]
pub enum Step {
    /// The document's child.
    Top,
    /// An element of an array.
    Item,
    /// The value under a name.
    Name(Text),
}

/// A path, with how many values stand on it.
#[derive(Drop)]
pub struct PathRecord {
    /// The number of the path without its last step, 0 for the top path.
    pub parent: u32,
    pub step: Step,
    /// How many values stand on the path.
    pub count: u32,
    ghost parent_fits: { parent < 1_073_741_824 },
    ghost count_fits: { count < 4_294_967_296 },
}
