// The rules that a group keeps, in their order, and what is told of the first that is broken. Nothing is read here.
ghost use Rattle.std.specs.Prelude.{◌≡◌, ◌+◌, ◌*◌, ◌^◌, ◌<◌, ◌≤◌, ◌++◌, [], ◌∷◌, length};
ghost use Rattle.std.specs.Option.{option_map};
ghost use Rattle.sx_frame.specs.Violation.{damage_at};
ghost use Rattle.sx_layout.specs.FrameGroup.{frames_after, group_size};
ghost use Rattle.sx_layout.specs.Rule.{first_broken};
ghost use Rattle.sx_layout.specs.Rules.{count_rules, digest_rule, order_rules, size_rules, table_rules};
ghost use Rattle.sx_log.specs.Opening.{part_rules};

use crate::limits::{GROUP_LIMIT, LEAST_GROUP, LOG_LIMIT, ROW_BYTES};
use sha2::{Digest, Sha256};
use sx_bytes::{Damage, number_damage};
use sx_frame::FrameRow;
use sx_root::RevisionRoot;

/// Bytes of a revision's head.
pub(crate) const HEAD_BYTES: usize = 48;

/// Bytes of a digest.
pub(crate) const DIGEST_BYTES: usize = 32;

/// The number that a node takes is at most this one.
const NUMBER_LIMIT: u64 = 1 << 30;

/// There are at most so many paths.
const PATH_LIMIT: u64 = 1_073_741_823;

/// The fewest bytes of a frame.
const LEAST_FRAME: u64 = 5;

/// The bytes of a group with this head, with the gate behind it.
pub(crate) fn size_of(root: &RevisionRoot) -> u64
    ensures { result ≡ group_size root.now.frames root.now.body }
{
    LEAST_GROUP + ROW_BYTES * u64::from(root.frames) + u64::from(root.body)
}

/// Rule 6, with so many bytes left behind the gate.
pub(crate) fn size_damage(place: u64, left: u64, root: &RevisionRoot) -> Option<Damage>
    ensures { result ≡ option_map (damage_at place) (first_broken (size_rules left root.now)) }
{
    let size = size_of(root);
    if left < size {
        return Some(number_damage(place, 6, left, size));
    }
    if size > GROUP_LIMIT {
        return Some(number_damage(place, 6, GROUP_LIMIT, size));
    }
    None
}

/// The rules on a group whose size is right: 1 and 7 to 15. The head and what is behind it are those bytes that the root and the
/// table were read from, with the digest at the end.
pub(crate) fn part_damage(
    place: u64,
    last: &RevisionRoot,
    root: &RevisionRoot,
    head: &[u8; 48],
    behind: &[u8],
    table: &[FrameRow],
) -> Option<Damage>
    requires head { length behind.now ≡ 36 * root.now.frames + 32 }
    requires small { length table.now < 2 ^ 32 }
    ensures { result ≡ option_map (damage_at place) (first_broken (part_rules last.now root.now (head.now ++ behind.now) table.now)) }
{
    if let Some(damage) = digest_damage(place, head, behind) {
        return Some(damage);
    }
    if let Some(damage) = order_damage(place, last, root) {
        return Some(damage);
    }
    if let Some(damage) = count_damage(place, last, root) {
        return Some(damage);
    }
    table_damage(place, root, table)
}

// Rule 1: the digest at the end is that of all before it.
fn digest_damage(place: u64, head: &[u8; 48], behind: &[u8]) -> Option<Damage>
    requires { 32 ≤ length behind.now }
    ensures { result ≡ option_map (damage_at place) (first_broken (digest_rule (head.now ++ behind.now) (16 + length behind.now) ∷ [])) }
{
    let (table, kept) = behind.split_last_chunk::<DIGEST_BYTES>()?;
    let mut hasher = Sha256::new();
    hasher.update(head.as_slice());
    hasher.update(table);
    let found = hasher.finalize();
    if *kept != found {
        return Some(Damage {
            place,
            rule: 1,
            kept: *kept,
            found,
        });
    }
    None
}

// Rules 7 to 11, behind a group with the root `last`.
fn order_damage(place: u64, last: &RevisionRoot, root: &RevisionRoot) -> Option<Damage>
    ensures { result ≡ option_map (damage_at place) (first_broken (order_rules last.now root.now)) }
{
    let revision = u64::from(last.revision) + 1;
    let before = frames_after(last);
    let after = frames_after(root);
    if u64::from(root.revision) != revision {
        Some(number_damage(place, 7, revision, u64::from(root.revision)))
    } else if root.time < last.time {
        let kept = last.time.cast_unsigned();
        Some(number_damage(place, 8, kept, root.time.cast_unsigned()))
    } else if u64::from(root.first_frame) != before {
        Some(number_damage(place, 9, before, u64::from(root.first_frame)))
    } else if after > LOG_LIMIT {
        Some(number_damage(place, 10, LOG_LIMIT, after))
    } else if u64::from(root.revision) > LOG_LIMIT {
        Some(number_damage(place, 10, LOG_LIMIT, u64::from(root.revision)))
    } else if u64::from(root.node_root) > after {
        Some(number_damage(place, 11, after, u64::from(root.node_root)))
    } else if u64::from(root.path_root) > after {
        Some(number_damage(place, 11, after, u64::from(root.path_root)))
    } else {
        None
    }
}

// How many frames there are up to this revision.
fn frames_after(root: &RevisionRoot) -> u64
    ensures { result ≡ frames_after root.now }
{
    u64::from(root.first_frame) + u64::from(root.frames)
}

// Rules 12 to 14, behind a group with the root `last`.
fn count_damage(place: u64, last: &RevisionRoot, root: &RevisionRoot) -> Option<Damage>
    ensures { result ≡ option_map (damage_at place) (first_broken (count_rules last.now root.now)) }
{
    let next = u64::from(root.next);
    let nodes = u64::from(root.nodes);
    let paths = u64::from(root.paths);
    if next < u64::from(last.next) {
        Some(number_damage(place, 12, u64::from(last.next), next))
    } else if next > NUMBER_LIMIT {
        Some(number_damage(place, 12, NUMBER_LIMIT, next))
    } else if nodes < 1 {
        Some(number_damage(place, 13, 1, nodes))
    } else if nodes > next {
        Some(number_damage(place, 13, next, nodes))
    } else if paths < u64::from(last.paths) {
        Some(number_damage(place, 14, u64::from(last.paths), paths))
    } else if paths > PATH_LIMIT {
        Some(number_damage(place, 14, PATH_LIMIT, paths))
    } else {
        None
    }
}

// Rule 15: the lengths of the frames.
fn table_damage(place: u64, root: &RevisionRoot, table: &[FrameRow]) -> Option<Damage>
    requires { length table.now < 2 ^ 32 }
    ensures { result ≡ option_map (damage_at place) (first_broken (table_rules root.now table.now)) }
{
    let mut sum: u64 = 0;
    for row in table {
        let bytes = bytes_of(row);
        if bytes < LEAST_FRAME {
            return Some(number_damage(place, 15, LEAST_FRAME, bytes));
        }
        sum += bytes;
    }
    if u64::from(root.body) != sum {
        return Some(number_damage(place, 15, sum, u64::from(root.body)));
    }
    None
}

// The bytes of a frame.
fn bytes_of(row: &FrameRow) -> u64
    ensures value { result ≡ row.now.bytes }
    ensures small { result ≤ 4_294_967_295 }
{
    u64::from(row.bytes)
}
