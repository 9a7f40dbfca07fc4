use crate::checks::{ends, opens, still};
use crate::run::{Failing, NONE};
use crate::volumes::{NEWBORN, THREE, three};
use std::alloc::Global;
use std::process::Abort;
use std::sync::Wait;
use std::test::Fail;
use sx_shell::Status;

/// Such calls of the volume fail, and no other.
pub(crate) fn volume(calls: &[u64]) -> Failing<'_> {
    Failing {
        volume: calls,
        ..NONE
    }
}

/// How many calls of a newborn volume the opening makes: those behind which nothing was said where they failed.
pub(crate) fn calls_of_opening<R: Abort + Wait>(rt: &R, alloc: Global) -> Result<u64, Fail> {
    let mut calls = 0;
    for call in 1..20 {
        let ran = still(rt, alloc, NEWBORN, b"load 1\ncommit", 9, volume(&[call]))?;
        assert_eq!(rt; ran.status, Status::VolumeFault);
        if !ran.output.is_empty() {
            break;
        }
        calls = call;
    }
    Ok(calls)
}

const FIRST: &[u8] = b"load [7]\ncommit\nopen 1\ntext 0\n";

// The source gives five bytes a call.
#[test]
fn faults_end_a_run_by_their_status(rt: HostRuntime) -> Result<(), Fail> {
    let alloc = rt.alloc();
    for (call, said) in [
        (1, b"".as_slice()),
        (2, b""),
        (3, b"ok 1\n"),
        (4, b"ok 1\n"),
        (5, b"ok 1\nok 1 1000\n"),
        (7, b"ok 1\nok 1 1000\nok 1\nok [7]\n"),
    ] {
        let failing = Failing {
            source: &[call],
            ..NONE
        };
        let ran = still(&rt, alloc, NEWBORN, FIRST, 5, failing)?;
        ends(&rt, alloc, &ran, Status::ReadFault, said)?;
    }
    for (script, call, said) in [
        (b"open 0".as_slice(), 1, b"".as_slice()),
        (FIRST, 3, b"ok 1\nok 1 1000\n"),
    ] {
        let failing = Failing {
            sink: &[call],
            ..NONE
        };
        let ran = still(&rt, alloc, NEWBORN, script, 5, failing)?;
        ends(&rt, alloc, &ran, Status::WriteFault, said)?;
    }
    Ok(())
}

// Nothing is written where the source fails at once.
#[test]
fn a_source_that_fails_at_once_leaves_the_volume(rt: HostRuntime) -> Result<(), Fail> {
    let alloc = rt.alloc();
    let start = three(alloc)?;
    let failing = Failing {
        source: &[1],
        ..NONE
    };
    let ran = still(&rt, alloc, &start, FIRST, 5, failing)?;
    ends(&rt, alloc, &ran, Status::ReadFault, b"")?;
    let bytes = ran.volume.as_slice();
    assert!(rt; bytes.len() == 618);
    assert_eq!(rt; bytes[173..], *THREE);
    Ok(())
}

const SECOND: &[u8] =
    b"load [1]\ncommit\nload [2]\ncommit\nload 5\ncommit\nload [\nrollback\nopen latest\ntext 0\nopen 2\n";

const SECOND_AND_QUIT: &[u8] =
    b"load [1]\ncommit\nload [2]\ncommit\nload 5\ncommit\nload [\nrollback\nopen latest\ntext 0\nopen 2\nquit\ntext 0\n";

const FAILED_1: &[u8] =
    b"ok 1\nok 1 1000\nok 3\nrefused Failed 1\nrefused Stopped 1\nrefused Stopped 1\nrefused Json Ended\nok\nok 1\nok [1]\nrefused Missing 2 1\n";

const FAILED_2: &[u8] =
    b"ok 1\nok 1 1000\nok 3\nrefused Failed 2\nrefused Stopped 2\nrefused Stopped 2\nrefused Json Ended\nok\nok 1\nok [1]\nrefused Missing 2 1\n";

// A commit that fails stops the writer, and the run goes on to its end. The calls of a commit are an append, a sync, the
// gate's byte and a sync.
#[test]
fn a_commit_that_fails_stops_the_writer(rt: HostRuntime) -> Result<(), Fail> {
    let alloc = rt.alloc();
    let before = calls_of_opening(&rt, alloc)?.saturating_add(4);
    for (call, want) in [(1, FAILED_1), (2, FAILED_1), (3, FAILED_2), (4, FAILED_2)] {
        for script in [SECOND, SECOND_AND_QUIT] {
            let failing = [before.saturating_add(call)];
            let ran = still(&rt, alloc, NEWBORN, script, 5, volume(&failing))?;
            ends(&rt, alloc, &ran, Status::VolumeFault, want)?;
        }
    }
    Ok(())
}

// Where a fault of the source or of the sink comes behind one of the volume, that one ends the run.
#[test]
fn the_fault_that_ends_a_run_is_told(rt: HostRuntime) -> Result<(), Fail> {
    let alloc = rt.alloc();
    let failing = Failing {
        source: &[1000],
        sink: &[3],
        volume: &[calls_of_opening(&rt, alloc)?.saturating_add(1)],
        ends: &[],
    };
    let ran = still(&rt, alloc, NEWBORN, FIRST, 5, failing)?;
    ends(
        &rt,
        alloc,
        &ran,
        Status::WriteFault,
        b"ok 1\nrefused Failed 1\n",
    )
}

// The first read of each end fails. Asked again, the same line is answered.
#[test]
fn a_read_that_fails_refuses_one_line(rt: HostRuntime) -> Result<(), Fail> {
    let alloc = rt.alloc();
    let failing = Failing { ends: &[1], ..NONE };
    for (script, want) in [
        (
            b"open latest\ntext 0\ntext 0\nr1: open 1\nr1: hash 2\nr1: text 2\nr2: axis child 1\nr2: open 1\nr2: axis child 1\nr2: axis child 1".as_slice(),
            b"ok 1\nrefused Failed\nok [1,2,3]\nok 1\nrefused Failed\nok 1\nrefused NoNode 1\nok 1\nrefused Failed\nok 2 3 4\n".as_slice(),
        ),
        (
            b"set 2 9\nset 2 9\ncommit\nopen 2\ntext 0",
            b"refused Failed\nok\nok 2 1000\nok 2\nok [9,2,3]\n",
        ),
        (
            b"commit\ncommit\nopen 2\ntext 0",
            b"refused Failed\nok 2 1000\nok 2\nok [1,2,3]\n",
        ),
    ] {
        let ran = still(&rt, alloc, &three(alloc)?, script, 9, failing)?;
        ends(&rt, alloc, &ran, Status::Done, want)?;
    }
    opens(&rt, alloc, &three(alloc)?, b"text 0", 9, b"ok empty\n")
}
