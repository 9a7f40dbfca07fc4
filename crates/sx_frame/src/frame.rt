ghost use Rattle.std.specs.Prelude.{◌≡◌, ◌+◌, ◌<◌, ◌≤◌, ◌^◌, ◌++◌, ◌∷◌, length, IfErr, IfOk, MatchResult, OnErr, OnOk, vec_capacity, vec_len};
ghost use Rattle.std.specs.Int.{to_be_bytes, w32};
ghost use Rattle.sha2.specs.Sha256.{sha256};
ghost use Rattle.sx_frame.specs.declared.frame.Frame.{Frame};
ghost use Rattle.sx_frame.specs.Frame.{Explains, body_length, frame_bytes};

use crate::FrameFault;
use sha2::{Digest, Sha256};
use std::alloc::{AllocError, Global};
use sx_bytes::{Damage, Fields, number_damage};
use sx_tree::bytes::Bytes;

/// Bytes of a frame in front of its body: the kind, and the length of the body in four bytes.
const HEAD_BYTES: usize = 5;

/// A piece of a revision: what the body is, told by the kind, and the body.
#[derive(Drop)]
pub struct Frame {
    pub kind: u8,
    pub body: Bytes,
}

/// Appends the frame's bytes, and answers their SHA-256.
/// Errors: `AllocError` where memory runs out, and then nothing is appended.
pub fn seal(frame: &Frame, out: &mut Vec<u8>) -> Result<[u8; 32], AllocError>
    requires { length frame.now.body < 2 ^ 28 }
    ensures appended { OnOk result (out.new.items ≡ out.old.items ++ frame_bytes frame.now) }
    ensures digest { IfOk result (λ digest. digest ≡ sha256 (frame_bytes frame.now)) }
    ensures nothing_done { OnErr result (out.new.items ≡ out.old.items) }
{
    let start = out.len();
    let body = frame.body.as_slice();
    out.reserve(HEAD_BYTES + body.len())?;
    out.push_reserved(frame.kind);
    append_reserved(out, &(body.len() as u32).to_be_bytes());
    append_reserved(out, body);
    Ok(Sha256::digest(&out[start..]))
}

/// Opens the frame that begins at the place in its volume, whose bytes these are and whose digest is told by its table.
/// Errors: `Damaged` where the digest is another one, then where the length in the frame is not that of its body, and
/// `OutOfMemory`.
pub fn open(alloc: Global, bytes: &[u8], digest: &[u8; 32], place: u64) -> Result<Frame, FrameFault>
    requires { 5 ≤ length bytes.now }
    ensures digest { OnOk result (sha256 bytes.now ≡ digest.now) }
    ensures frame { IfOk result (λ frame. bytes.now ≡ frame_bytes frame) }
    ensures undoes { (frame : Frame) → length frame.body < 2 ^ 28 → bytes.now ≡ frame_bytes frame → sha256 bytes.now ≡ digest.now → MatchResult result (λ opened. opened ≡ frame) (λ fault. fault ≡ FrameFault.OutOfMemory) }
    ensures fault { IfErr result (Explains bytes.now digest.now place) }
{
    let found = Sha256::digest(bytes);
    if found != *digest {
        return Err(FrameFault::Damaged(Damage {
            place,
            rule: 1,
            kept: *digest,
            found,
        }));
    }
    let (kind, length, body) = parts(bytes);
    if body.len() as u64 != u64::from(length) {
        return Err(FrameFault::Damaged(number_damage(
            place,
            17,
            body.len() as u64,
            u64::from(length),
        )));
    }
    let body = Bytes::from_vec(body.to_vec(alloc)?);
    Ok(Frame { kind, body })
}

// Appends bytes for which there is room.
fn append_reserved(out: &mut Vec<u8>, bytes: &[u8])
    requires { vec_len out.old + length bytes.now ≤ vec_capacity out.old }
    ensures items { out.new.items ≡ out.old.items ++ bytes.now }
    ensures room { vec_capacity out.old ≤ vec_capacity out.new }
{
    let Ok(()) = out.extend_from_slice(bytes) else {
        unreachable!("there is room");
    };
}

// The kind, the length that is told, and what stands behind both.
fn parts(bytes: &[u8]) -> (u8, u32, &[u8])
    requires { 5 ≤ length bytes.now }
    ensures length { result.1 ≡ body_length bytes.now }
    ensures body { length result.2.now + 5 ≡ length bytes.now }
    ensures bytes { bytes.now ≡ result.0 ∷ (to_be_bytes w32 result.1 ++ result.2.now) }
{
    let mut fields = Fields::new(bytes);
    let (Some(kind), Some(length)) = (fields.u8(), fields.u32()) else {
        unreachable!("a frame has at least 5 bytes");
    };
    (kind, length, fields.rest())
}
