//! Hashes of nodes: of a kind and a label, and how a node's hash follows that of a child.
#![tactic(auto)]

ghost use Rattle.std.specs.Prelude.{◌≡◌, ◌+◌, ◌-◌, ◌*◌, ◌%◌, ◌^◌, ◌<◌, ℕ};
ghost use Rattle.sx_model.specs.Hash.{local_hash};
ghost use Rattle.sx_tree.specs.Record.{kind_byte};

use byteorder::{BigEndian, ByteOrder};
use sha2::{Digest, Sha256};
use sx_tree::record::Kind;

/// The byte that stands for a kind.
fn byte_of(kind: Kind) -> u8
    ensures { result ≡ kind_byte kind }
{
    match kind {
        Kind::Document => 0,
        Kind::Object => 1,
        Kind::Array => 2,
        Kind::Key => 3,
        Kind::Str => 4,
        Kind::Number => 5,
        Kind::Bool => 6,
        Kind::Null => 7,
    }
}

/// The hash of a kind and a label: the first 16 bytes of SHA-256 (FIPS 180-4) over the kind's byte and the label, the
/// highest byte first.
pub fn local(kind: Kind, label: &[u8]) -> u128
    ensures { result ≡ local_hash kind label.now }
{
    let mut hasher = Sha256::new();
    hasher.update(&[byte_of(kind)]);
    hasher.update(label);
    let digest = hasher.finalize();
    BigEndian::read_u128(&digest[..16])
}

/// The hash of a node of which one child's hash was `old` and is `new`: `parent + 257 * (new - old)`, modulo 2^128.
pub fn swap_share(parent: u128, old: u128, new: u128) -> u128
    ensures formula { result ≡ (parent + 257 * (new + (2 ^ 128 - old))) % 2 ^ 128 }
    ensures adapted { (others : ℕ) → parent ≡ (others + 257 * old) % 2 ^ 128 → result ≡ (others + 257 * new) % 2 ^ 128 }
{
    parent.wrapping_add(new.wrapping_sub(old).wrapping_mul(257))
}
