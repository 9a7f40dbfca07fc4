use crate::checks::{ends, opens, still};
use crate::faults::{calls_of_opening, volume};
use crate::volumes::NEWBORN;
use std::alloc::Global;
use std::process::Abort;
use std::sync::Wait;
use std::test::Fail;
use sx_shell::Status;
use sx_volume::MemVolume;

const LOOK: &[u8] = b"open latest\ntext 0\nopen 1\ntext 0";

const NOTHING: &[u8] = b"ok 0\nok empty\nrefused Missing 1 0\nok empty\n";

const FIRST: &[u8] = b"ok 1\nok [7]\nok 1\nok [7]\n";

const BOTH: &[u8] = b"ok 2\nok {\"a\":8}\nok 1\nok [7]\n";

// Images of the volume, the least of which has so many bytes: the least, the volume as it reads with the byte 1 on the gate,
// and one with a wrong last byte. What is seen differs where the gate's byte is 1.
fn leaves<R: Abort + Wait>(
    rt: &R,
    alloc: Global,
    volume: &MemVolume,
    kept: usize,
    closed: &[u8],
    open: &[u8],
) -> Result<(), Fail> {
    let bytes = volume.as_slice();
    assert!(rt; kept <= bytes.len());
    let mut tail = bytes[kept..].to_vec(alloc)?;
    opens(rt, alloc, &volume.image(alloc, b"", 0)?, LOOK, 9, closed)?;
    opens(rt, alloc, &volume.image(alloc, &tail, 1)?, LOOK, 9, open)?;
    if let Some(last) = tail.last_mut() {
        *last = b'?';
    }
    opens(rt, alloc, &volume.image(alloc, &tail, 7)?, LOOK, 9, closed)
}

const TWO: &[u8] = b"load [7]\ncommit\nload {\"a\":8}\ncommit";

const AT_1: &[u8] = b"ok 1\nrefused Failed 1\nrefused Stopped 1\nrefused Stopped 1\n";

const AT_1_GATE: &[u8] = b"ok 1\nrefused Failed 2\nrefused Stopped 2\nrefused Stopped 2\n";

const AT_2: &[u8] = b"ok 1\nok 1 1000\nok 3\nrefused Failed 1\n";

const AT_2_GATE: &[u8] = b"ok 1\nok 1 1000\nok 3\nrefused Failed 2\n";

// The calls of a commit are an append, a sync, the gate's byte and a sync, behind a cut where something stands behind the
// gate. Each fails in turn. A crash then leaves the commits that were acknowledged, and one more only where the gate's byte
// is 1 and its sync failed.
#[test]
fn a_crash_leaves_the_commits_that_were_acknowledged(rt: HostRuntime) -> Result<(), Fail> {
    let alloc = rt.alloc();
    let before = calls_of_opening(&rt, alloc)?;
    let mut junk = NEWBORN.to_vec(alloc)?;
    junk.extend_from_slice(b"hello")?;
    // The call behind those of the opening that fails, the least length that a crash leaves, the replies, and what is seen of
    // an image where the gate's byte is not 1, and where it is.
    for (call, kept, said, closed, open) in [
        (1, 174, AT_1, NOTHING, NOTHING),
        (2, 174, AT_1, NOTHING, NOTHING),
        (3, 502, AT_1_GATE, NOTHING, NOTHING),
        (4, 502, AT_1_GATE, NOTHING, FIRST),
        (5, 502, AT_2, FIRST, FIRST),
        (6, 502, AT_2, FIRST, FIRST),
        (7, 902, AT_2_GATE, FIRST, FIRST),
        (8, 902, AT_2_GATE, FIRST, BOTH),
    ] {
        let failing = [before.saturating_add(call)];
        let ran = still(&rt, alloc, NEWBORN, TWO, 9, volume(&failing))?;
        ends(&rt, alloc, &ran, Status::VolumeFault, said)?;
        leaves(&rt, alloc, &ran.volume, kept, closed, open)?;
    }
    for (call, kept, said, open) in [
        (1, 179, AT_1, NOTHING),
        (3, 174, AT_1, NOTHING),
        (5, 502, AT_1_GATE, FIRST),
    ] {
        let failing = [before.saturating_add(call)];
        let ran = still(&rt, alloc, &junk, TWO, 9, volume(&failing))?;
        ends(&rt, alloc, &ran, Status::VolumeFault, said)?;
        leaves(&rt, alloc, &ran.volume, kept, NOTHING, open)?;
    }
    let ran = still(
        &rt,
        alloc,
        NEWBORN,
        TWO,
        9,
        volume(&[before.saturating_add(9)]),
    )?;
    assert_eq!(rt; ran.status, Status::Done);
    opens(&rt, alloc, &ran.volume.image(alloc, b"", 0)?, LOOK, 9, BOTH)
}
