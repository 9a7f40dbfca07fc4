//! What is told of records that are those of no document.
ghost use Rattle.std.specs.Prelude.{◌≡◌};
ghost use Rattle.sx_cursor.specs.Damage.{broken_link, endless, misplaced};

use sx_bytes::{Damage, number_damage};

/// A link leads to a node that has no record.
pub const BROKEN_LINK: u8 = 23;

/// Links lead on after as many nodes as there are.
pub const ENDLESS: u8 = 24;

/// A kind cannot stand where it does, or a Key has no child.
pub const MISPLACED: u8 = 26;

/// What is told of a node that links to a node with no record.
pub fn broken_link(from: u32, to: u32) -> Damage
    ensures { result ≡ broken_link from to }
{
    number_damage(0, BROKEN_LINK, u64::from(from), u64::from(to))
}

/// What is told where links lead on after so many nodes.
pub fn endless(count: u32) -> Damage
    ensures { result ≡ endless count }
{
    number_damage(0, ENDLESS, u64::from(count), u64::from(count) + 1)
}

/// What is told of a child whose kind cannot stand where it does: the child, and the byte of its kind. Of a Key without a
/// child: the Key, and 0.
pub fn misplaced(node: u32, byte: u8) -> Damage
    ensures { result ≡ misplaced node byte }
{
    number_damage(0, MISPLACED, u64::from(node), u64::from(byte))
}
