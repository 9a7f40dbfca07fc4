//! What is told of records that are those of no document.
ghost use Rattle.std.specs.Prelude.{◌≡◌};
ghost use Rattle.sx_tree.specs.Record as records;
ghost use Rattle.sx_edit.specs.Damage as words;

use crate::kinds::kind_byte;
use sx_bytes::{Damage, number_damage};
use sx_tree::record::Kind;

/// A link leads to a node that has no record.
pub const BROKEN_LINK: u8 = 23;

/// Links lead on after as many nodes as there can be.
pub const ENDLESS: u8 = 24;

/// A kind cannot stand where it does, or a count leaves its type.
pub const MISPLACED: u8 = 26;

/// The node links to a node that has no record.
pub(crate) fn broken_link(from: u32, to: u32) -> Damage
    ensures { result ≡ words.broken_link from to }
{
    number_damage(0, BROKEN_LINK, u64::from(from), u64::from(to))
}

/// After as many nodes as the next new node's number, links lead on.
pub(crate) fn endless(next: u32) -> Damage
    ensures { result ≡ words.endless next }
{
    number_damage(0, ENDLESS, u64::from(next), u64::from(next) + 1)
}

/// The node has this value where none can stand.
pub(crate) fn misplaced(node: u32, value: u64) -> Damage
    ensures { result ≡ words.misplaced node value }
{
    number_damage(0, MISPLACED, u64::from(node), value)
}

/// A node of this kind stands where none can.
pub(crate) fn misplaced_kind(node: u32, kind: Kind) -> Damage
    ensures { result ≡ words.misplaced node (records.kind_byte kind) }
{
    misplaced(node, u64::from(kind_byte(kind)))
}
