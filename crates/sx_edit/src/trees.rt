//! Trees among siblings, and where they stand.
ghost use Rattle.std.specs.Prelude.{◌≡◌, ◌<◌, ◌^◌, [], ◌∷◌, ◌++◌, OnOk};
ghost use Rattle.sx_tree.specs.Record.{IsLink};

use std::alloc::AllocError;
use sx_tree::record::{Kind, NodeRecord};

/// A node that was read, with its record.
#[derive(Drop)]
pub(crate) struct Seen {
    pub(crate) node: u32,
    pub(crate) record: NodeRecord,
}

/// Adds the node at the end. A failure changes nothing.
pub(crate) fn push_seen(seen: &mut Vec<Seen>, one: Seen) -> Result<(), AllocError>
    ensures { OnOk result (seen.new.items ≡ seen.old.items ++ one ∷ []) }
{
    seen.push(one)?;
    Ok(())
}

/// Adds the number at the end. A failure changes nothing.
pub(crate) fn push_number(numbers: &mut Vec<u32>, number: u32) -> Result<(), AllocError>
    ensures { OnOk result (numbers.new.items ≡ numbers.old.items ++ number ∷ []) }
{
    numbers.push(number)?;
    Ok(())
}

/// What stands around a gap, as it was read: the siblings beside it, the node above it, and those above that one, the
/// nearest last.
#[derive(Drop)]
pub(crate) struct Rim {
    pub(crate) left: Option<Seen>,
    pub(crate) right: Option<Seen>,
    pub(crate) parent: Seen,
    pub(crate) above: Vec<Seen>,
    /// How many arrays and objects there are from the parent up.
    pub(crate) levels: u32,
}

/// Nodes from one up to the top, and how many arrays and objects are among them.
#[derive(Drop)]
pub(crate) struct Ascent {
    pub(crate) seen: Vec<Seen>,
    pub(crate) levels: u32,
}

/// A tree.
#[derive(Clone, Copy)]
pub(crate) struct Tree {
    /// Its node.
    pub(crate) number: u32,
    /// How many nodes it has.
    pub(crate) nodes: u32,
    /// The hash of its node.
    pub(crate) hash: u128,
    ghost hash_fits: { hash < 2 ^ 128 },
}

/// Where a tree stands or comes: the node above it, and the siblings to both sides.
#[derive(Clone, Copy)]
pub(crate) struct Gap {
    pub(crate) parent: u32,
    /// The node by whose links the siblings are known.
    pub(crate) near: u32,
    pub(crate) left: Option<u32>,
    pub(crate) right: Option<u32>,
    ghost left_fits: { IsLink left },
    ghost right_fits: { IsLink right },
}

/// What a node keeps of its children.
#[derive(Clone, Copy)]
pub(crate) struct Children {
    pub(crate) first: Option<u32>,
    pub(crate) last: Option<u32>,
    /// How many there are.
    pub(crate) count: u32,
    /// How many nodes they are, with all below them.
    pub(crate) nodes: u32,
    /// The sum of their hashes, modulo 2^128.
    pub(crate) hash: u128,
    ghost first_fits: { IsLink first },
    ghost last_fits: { IsLink last },
    ghost hash_fits: { hash < 2 ^ 128 },
}

/// Where a new value comes.
#[derive(Clone, Copy)]
pub(crate) struct Target {
    pub(crate) gap: Gap,
    /// The kind of the node above.
    pub(crate) kind: Kind,
    /// The number of the path of the node above.
    pub(crate) path: u32,
    /// The first child of the node above.
    pub(crate) first: Option<u32>,
    ghost first_fits: { IsLink first },
    ghost path_fits: { path < 2 ^ 30 },
}

/// The kind of a node, and the number of its new path.
#[derive(Clone, Copy)]
pub(crate) struct Over {
    pub(crate) kind: Kind,
    pub(crate) path: u32,
    ghost path_fits: { path < 2 ^ 30 },
}

/// A link to a child of the node, which is still on its old path.
#[derive(Clone, Copy)]
pub(crate) struct Move {
    pub(crate) over: Over,
    pub(crate) from: u32,
    pub(crate) to: u32,
}
