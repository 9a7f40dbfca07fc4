//! Frames: their bytes, their digest and their faults.
use std::alloc::{AllocError, Global};
use std::test::Fail;
use sx_bytes::Damage;
use sx_frame::{Frame, FrameFault, open, seal};
use sx_tree::bytes::Bytes;

/// A frame of kind 1 with the body `leaf`, and its SHA-256 by another program.
const SEALED: [u8; 9] = [1, 0, 0, 0, 4, b'l', b'e', b'a', b'f'];

const DIGEST: [u8; 32] = [
    0x32, 0xec, 0x76, 0x1d, 0x4e, 0x85, 0xa3, 0xbf, 0x86, 0x89, 0xcd, 0x36, 0xe7, 0x1b, 0xbb, 0xe0,
    0xde, 0xf6, 0x3d, 0xc7, 0xb0, 0xcd, 0xcf, 0x68, 0x49, 0xe2, 0xd8, 0x32, 0x95, 0x01, 0xb6, 0xfe,
];

/// That of the same bytes with 5 for the length, by another program.
const LONGER: [u8; 32] = [
    0xd0, 0xc7, 0xe7, 0x7e, 0x04, 0xbb, 0xf0, 0x6e, 0x79, 0xe7, 0xbd, 0xe1, 0xf8, 0xb1, 0xde, 0x23,
    0xa6, 0x5c, 0x5e, 0x60, 0x87, 0x86, 0xea, 0x9d, 0x96, 0xae, 0x8c, 0xd3, 0x6c, 0x31, 0x8d, 0xe7,
];

// What opening answers in place of a frame.
fn fault_of(alloc: Global, bytes: &[u8; 9], digest: &[u8; 32]) -> Option<FrameFault> {
    open(alloc, bytes, digest, 614).err()
}

// The number in 32 bytes.
fn wide(number: u8) -> [u8; 32] {
    let mut bytes = [0; 32];
    bytes[31] = number;
    bytes
}

#[test]
fn a_frame_of_a_leaf(rt: HostRuntime) -> Result<(), Fail> {
    let alloc = rt.alloc();
    let leaf = Frame {
        kind: 1,
        body: Bytes::from_vec(b"leaf".to_vec(alloc)?),
    };
    let mut out = b"in front ".to_vec(alloc)?;
    assert!(rt; leaf.body.len() < 268_435_456);
    assert_eq!(rt; seal(&leaf, &mut out)?, DIGEST);
    assert_eq!(rt; &out[9..], SEALED.as_slice());
    let opened = open(alloc, &SEALED, &DIGEST, 614)?;
    assert_eq!(rt; opened.kind, 1);
    assert_eq!(rt; opened.body.as_slice(), b"leaf".as_slice());
    Ok(())
}

#[test]
fn damaged_frames(rt: HostRuntime) -> Result<(), Fail> {
    let alloc = rt.alloc();
    let mut longer = SEALED;
    longer[4] = 5;
    let other = FrameFault::Damaged(Damage {
        place: 614,
        rule: 1,
        kept: DIGEST,
        found: LONGER,
    });
    assert_eq!(rt; fault_of(alloc, &longer, &DIGEST), Some(other));
    let wrong = FrameFault::Damaged(Damage {
        place: 614,
        rule: 17,
        kept: wide(4),
        found: wide(5),
    });
    assert_eq!(rt; fault_of(alloc, &longer, &LONGER), Some(wrong));
    Ok(())
}
