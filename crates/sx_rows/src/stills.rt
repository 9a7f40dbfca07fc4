//! The commands that run no script: making a volume, showing a revision, and checking all frames.
use crate::checks::{opens, still, text};
use crate::run::{NONE, Ran, run_still_over, run_words, words_of};
use crate::volumes::{NEWBORN, three};
use std::alloc::Global;
use std::process::Abort;
use std::sync::Wait;
use std::test::Fail;
use sx_outside::StillClock;
use sx_shell::{Status, Target, target};
use sx_tree::bytes::Bytes;
use sx_volume::{FuseVolume, MemVolume};

// The words over a volume with these bytes.
fn over(alloc: Global, words: &[&str], start: &[u8]) -> Result<Ran, Fail> {
    let mut volume = MemVolume::new(alloc, start.to_vec(alloc)?, Vec::new(alloc))?;
    let (status, output) = run_still_over(alloc, words, &mut volume, &[])?;
    Ok(Ran {
        status,
        output,
        volume,
    })
}

// Making a volume takes seven calls: all but the last one leave it unborn.
#[test]
fn a_volume_is_made_by_seven_calls(rt: HostRuntime) -> Result<(), Fail> {
    let alloc = rt.alloc();
    for calls in 0..8 {
        let empty = MemVolume::new(alloc, Vec::new(alloc), Vec::new(alloc))?;
        let mut fuse = FuseVolume::new(empty, calls);
        let (status, output) = run_still_over(alloc, &["create", "f"], &mut fuse, &[])?;
        assert!(rt; output.is_empty());
        let left = fuse.into_inner();
        let ran = still(&rt, alloc, left.as_slice(), b"", 9, NONE)?;
        if calls < 7 {
            assert_eq!(rt; status, Status::VolumeFault);
        } else {
            assert_eq!(rt; status, Status::Done);
        }
        if calls < 6 {
            assert_eq!(rt; ran.status, Status::Unborn);
            let again = over(alloc, &["create", "f"], left.as_slice())?;
            assert_eq!(rt; again.status, Status::Done);
            assert_eq!(rt; again.volume.as_slice(), NEWBORN);
        } else {
            assert_eq!(rt; ran.status, Status::Done);
            assert_eq!(rt; left.as_slice(), NEWBORN);
        }
    }
    Ok(())
}

#[test]
fn a_volume_is_made_only_where_there_is_none(rt: HostRuntime) -> Result<(), Fail> {
    let alloc = rt.alloc();
    let whole = three(alloc)?;
    for (start, status) in [
        (b"hello".as_slice(), Status::NotOurs { first: 104 }),
        (NEWBORN, Status::Born),
        (&whole, Status::Born),
    ] {
        let ran = over(alloc, &["create", "f"], start)?;
        assert_eq!(rt; ran.status, status);
        assert_eq!(rt; ran.volume.as_slice(), start);
    }
    // The names of the fields that tell when an object is valid.
    let ran = over(alloc, &["create", "f", "1", "from", "to"], b"\0old")?;
    assert_eq!(rt; ran.status, Status::Done);
    let script = b"load {\"from\":\"2024-01-01T00:00:00Z\"}\ncommit\nopen 1\nvalid 1704067200000";
    opens(
        &rt,
        alloc,
        ran.volume.as_slice(),
        script,
        9,
        b"ok 1\nok 1 1000\nok 1\nok 1\n",
    )
}

#[test]
fn revisions_are_shown_and_frames_checked(rt: HostRuntime) -> Result<(), Fail> {
    let alloc = rt.alloc();
    let whole = three(alloc)?;
    for (words, start, status, want) in [
        (
            ["show", "f", "1"].as_slice(),
            whole.as_slice(),
            Status::Done,
            "[1,2,3]\n",
        ),
        (&["show", "f", "0"], &whole, Status::Done, "empty\n"),
        (
            &["show", "f", "2"],
            &whole,
            Status::Missing { asked: 2, seen: 1 },
            "",
        ),
        (&["show", "--", "f", "0"], NEWBORN, Status::Done, "empty\n"),
        (&["show", "f", "0"], b"", Status::Unborn, ""),
        (&["check", "f"], &whole, Status::Done, "ok 1 1\n"),
        (&["check", "f"], NEWBORN, Status::Done, "ok 0 0\n"),
        (
            &["check", "f"],
            b"hello",
            Status::NotOurs { first: 104 },
            "",
        ),
    ] {
        let ran = over(alloc, words, start)?;
        assert_eq!(rt; text(alloc, &ran.output)?.as_str(), want);
        assert_eq!(rt; ran.status, status);
        assert_eq!(rt; ran.volume.as_slice(), start);
    }
    // The end's first read fails.
    for words in [["show", "f", "1"].as_slice(), &["check", "f"]] {
        let mut volume = MemVolume::new(alloc, three(alloc)?, Vec::new(alloc))?;
        let (status, output) = run_still_over(alloc, words, &mut volume, &[1])?;
        assert_eq!(rt; status, Status::VolumeFault);
        assert!(rt; output.is_empty());
    }
    Ok(())
}

// No call takes these words, and nothing is touched.
fn refuses<R: Abort + Wait>(rt: &R, alloc: Global, words: &[&str]) -> Result<(), Fail> {
    let ran = over(alloc, words, b"hello")?;
    assert_eq!(rt; ran.status, Status::Usage);
    assert_eq!(rt; ran.volume.as_slice(), b"hello".as_slice());
    let list = words_of(alloc, words)?;
    let mut clock = StillClock { moment: 1000 };
    let ran = run_words(rt, alloc, &list, b"hello", b"", 5, NONE, &mut clock)?;
    assert_eq!(rt; ran.status, Status::Usage);
    assert_eq!(rt; ran.volume.as_slice(), b"hello".as_slice());
    assert!(rt; matches!(target(alloc, &list)?, Target::Usage));
    Ok(())
}

#[test]
fn other_words_are_refused(rt: HostRuntime) -> Result<(), Fail> {
    let alloc = rt.alloc();
    for words in [
        [].as_slice(),
        &["live"],
        &["live", "-x"],
        &["live", "a", "b"],
        &["Live", "a"],
        &["--", "live", "a"],
        &["create", "f", "9"],
        &["create", "f", "2", "a", "a"],
        &["create", "f", "1", "a", "a"],
        &["create", "f", "1", "validTo"],
        &["create", "f", "1", ""],
        &[
            "create",
            "f",
            "1",
            "aaaaaaaaaaaaaaaaaaaaaaaaaaaaaaaaaaaaaaaaaaaaaaaaaaaaaaaaaaaaaaaaa",
        ],
        &["show", "f"],
        &["show", "f", "01"],
        &["show", "f", "4294967296"],
        &["check"],
        &["help"],
        &["--help"],
    ] {
        refuses(&rt, alloc, words)?;
    }
    Ok(())
}

#[test]
fn words_name_their_file(rt: HostRuntime) -> Result<(), Fail> {
    let alloc = rt.alloc();
    for (words, file) in [
        (["live", "--", "-x"].as_slice(), "-x"),
        (&["live", "-"], "-"),
        (&["check", "f", "--"], "f"),
        (&["show", "--", "--", "0"], "--"),
        (&["create", "f"], "f"),
    ] {
        let found = match target(alloc, &words_of(alloc, words)?)? {
            Target::Live(found) | Target::Still(found) | Target::Create(found) => found,
            Target::Usage => Bytes::new(alloc),
        };
        assert_eq!(rt; text(alloc, found.as_slice())?.as_str(), file);
    }
    Ok(())
}
