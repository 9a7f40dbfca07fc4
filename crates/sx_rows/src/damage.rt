use crate::checks::{ends, opens, still};
use crate::run::{NONE, check};
use crate::volumes::{NEWBORN, three};
use sha2::{Digest, Sha256};
use std::alloc::{AllocError, Global};
use std::process::Abort;
use std::test::Fail;
use sx_bytes::{Damage, number_damage};
use sx_shell::Status;

const SCRIPT: &[u8] = b"load 7\ncommit\nopen 1\ntext 0\n";

// Over these volumes no line is run. What is told is told, and the bytes stay.
#[test]
fn volumes_that_are_not_opened_are_told(rt: HostRuntime) -> Result<(), Fail> {
    let alloc = rt.alloc();
    let (mut short, mut unmarked) = (three(alloc)?, three(alloc)?);
    assert!(rt; short.len() == 618 && unmarked.len() == 618);
    short.truncate(617);
    unmarked[174] = 0;
    let mut format = NEWBORN.to_vec(alloc)?;
    format[9] = 1;
    let digest = Sha256::digest(&format[1..141]);
    format[141..173].copy_from_slice(&digest);
    for (start, status) in [
        (b"".as_slice(), Status::Unborn),
        (b"x", Status::Unborn),
        (b"\0hello", Status::Unborn),
        (b"hello", Status::NotOurs { first: 104 }),
        (&NEWBORN[..173], Status::NotOurs { first: 1 }),
        (&format, Status::Damaged(number_damage(1, 2, 0, 1))),
        (
            &unmarked,
            Status::Damaged(number_damage(174, 5, 0x5358_4752, 0x0058_4752)),
        ),
        (&short, Status::Damaged(number_damage(174, 6, 443, 444))),
    ] {
        let ran = still(&rt, alloc, start, SCRIPT, 9, NONE)?;
        ends(&rt, alloc, &ran, status, b"")?;
        assert_eq!(rt; ran.volume.as_slice(), start);
        assert_eq!(rt; check(alloc, start)?.status, status);
    }
    Ok(())
}

// The volume with another byte at the place, in its only frame, and with the digests that it ought to have.
fn forged<R: Abort>(rt: &R, alloc: Global, place: usize, byte: u8) -> Result<Vec<u8>, AllocError> {
    let mut bytes = three(alloc)?;
    assert!(rt; bytes.len() == 618 && place < 618);
    bytes[place] = byte;
    let frame = Sha256::digest(&bytes[290..617]);
    bytes[226..258].copy_from_slice(&frame);
    let head = Sha256::digest(&bytes[174..258]);
    bytes[258..290].copy_from_slice(&head);
    Ok(bytes)
}

// A byte of the frame is another one: the question and `check` tell it, and the run goes on.
#[test]
fn a_changed_frame_is_told(rt: HostRuntime) -> Result<(), Fail> {
    let alloc = rt.alloc();
    let mut bytes = three(alloc)?;
    assert!(rt; bytes.len() == 618);
    let mut damage = Damage {
        place: 290,
        rule: 1,
        kept: [0; 32],
        found: [0; 32],
    };
    damage.kept.copy_from_slice(&bytes[226..258]);
    bytes[400] ^= 1;
    damage.found = Sha256::digest(&bytes[290..617]);
    let script = b"open 1\ntext 0\nset 2 9\ncommit\nload 5\nopen 0\ntext 0";
    let said =
        b"ok 1\nrefused Damaged 290 1\nrefused Damaged 290 1\nrefused Damaged 290 1\nrefused Damaged 290 1\nok 0\nok empty\n";
    opens(&rt, alloc, &bytes, script, 9, said)?;
    assert_eq!(rt; check(alloc, &bytes)?.status, Status::Damaged(damage));
    Ok(())
}

// Frames that have their digest, and break another rule.
#[test]
fn a_frame_that_is_no_document_is_told(rt: HostRuntime) -> Result<(), Fail> {
    let alloc = rt.alloc();
    for (place, byte, said, status) in [
        // The kind, and the length of the body.
        (
            290,
            1,
            b"ok 1\nrefused Damaged 290 16\n".as_slice(),
            Status::Damaged(number_damage(290, 16, 5, 1)),
        ),
        (
            294,
            0,
            b"ok 1\nrefused Damaged 290 17\n",
            Status::Damaged(number_damage(290, 17, 322, 256)),
        ),
        // One node more, and a name behind the last path.
        (
            298,
            6,
            b"ok 1\nrefused Damaged 290 20\n",
            Status::Damaged(number_damage(290, 20, 0, 2)),
        ),
        (
            616,
            1,
            b"ok 1\nrefused Damaged 290 20\n",
            Status::Damaged(number_damage(290, 20, 0, 2)),
        ),
        // One path fewer: the last one is left.
        (
            590,
            1,
            b"ok 1\nrefused Damaged 290 21\n",
            Status::Damaged(number_damage(290, 21, 0, 13)),
        ),
        // The Document's child is a node that has no record.
        (319, 9, b"ok 1\nrefused Damaged 0 23\n", Status::Done),
    ] {
        let bytes = forged(&rt, alloc, place, byte)?;
        opens(&rt, alloc, &bytes, b"open 1\ntext 0", 9, said)?;
        assert_eq!(rt; check(alloc, &bytes)?.status, status);
    }
    // The Document tells of more nodes than there are numbers: no group may follow that says so.
    let bytes = forged(&rt, alloc, 331, 9)?;
    let script = b"set 3 9\ncommit\nrollback\nopen 1\ntext 0";
    let said = b"ok\nrefused Damaged 618 13\nok\nok 1\nok [1,2,3]\n";
    opens(&rt, alloc, &bytes, script, 9, said)
}
