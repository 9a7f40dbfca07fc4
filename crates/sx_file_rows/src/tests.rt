use crate::calls::{Call, end_reads, fails_to_write, make, reads};
use crate::files::{has, is_refused, may_write, opened, replies, writes};
use std::alloc::Global;
use std::fs;
use std::fs::OpenOptions;
use std::io::ErrorKind;
use std::test::Fail;
use sx_file::{File, FileVolume, StdFile, open};
use sx_outside::Failed;
use sx_volume::{MemEnd, MemFile};

// A volume over a file in memory that has these bytes.
fn in_memory(alloc: Global, bytes: &[u8], failing: &[u64]) -> Result<FileVolume<MemFile>, Fail> {
    let mut file = MemFile::new(alloc, bytes.to_vec(alloc)?, failing.to_vec(alloc)?)?;
    file.reserve(1000)?;
    Ok(FileVolume::new(file, bytes.len() as u64))
}

// Calls over an empty file, and what is read behind each.
const CALLS: [(Call<'static>, &[u8]); 9] = [
    (Call::Append(b"log"), b"log"),
    (Call::Append(b"ger"), b"logger"),
    (Call::Sync, b"logger"),
    (Call::Put(1, b'a'), b"lagger"),
    (Call::Put(5, b'!'), b"lagge!"),
    (Call::Cut(4), b"lagg"),
    (Call::Append(b"ing in"), b"lagging in"),
    (Call::Cut(8), b"lagging "),
    (Call::Sync, b"lagging "),
];

#[test]
fn a_real_file_goes_as_one_in_memory(rt: HostRuntime) -> Result<(), Fail> {
    let alloc = rt.alloc();
    let mut memory = in_memory(alloc, b"", &[])?;
    fs::write(&rt, "calls.sirix", "")?;
    let (mut volume, _ends) = opened(&rt, alloc, "calls.sirix", 0)?;
    for (call, want) in CALLS {
        make(&rt, alloc, &mut memory, call, want)?;
        make(&rt, alloc, &mut volume, call, want)?;
        has(&rt, "calls.sirix", want)?;
    }
    Ok(())
}

const RANGES: [(u64, &[u8]); 3] = [(0, b"lagging "), (3, b"ging"), (8, b"")];

#[test]
fn an_end_reads_a_range_of_a_real_file(rt: HostRuntime) -> Result<(), Fail> {
    let alloc = rt.alloc();
    fs::write(&rt, "ends.sirix", "lagging ")?;
    let (mut volume, mut ends) = opened(&rt, alloc, "ends.sirix", 2)?;
    for end in ends.iter_mut() {
        for (at, want) in RANGES {
            end_reads(&rt, alloc, &mut volume, end, at, want)?;
        }
    }
    Ok(())
}

#[test]
fn an_end_reads_a_range_of_a_file_in_memory(rt: HostRuntime) -> Result<(), Fail> {
    let alloc = rt.alloc();
    let mut volume = in_memory(alloc, b"lagging ", &[])?;
    let mut end = MemEnd::new(Vec::new(alloc));
    for (at, want) in RANGES {
        end_reads(&rt, alloc, &mut volume, &mut end, at, want)?;
    }
    Ok(())
}

#[test]
fn a_second_opening_is_refused(rt: HostRuntime) -> Result<(), Fail> {
    let alloc = rt.alloc();
    fs::write(&rt, "locked.sirix", "log")?;
    let (volume, ends) = opened(&rt, alloc, "locked.sirix", 3)?;
    is_refused(&rt, alloc, "locked.sirix", ErrorKind::WouldBlock);
    // The handle of an end keeps the file locked by itself.
    drop(volume);
    is_refused(&rt, alloc, "locked.sirix", ErrorKind::WouldBlock);
    drop(ends);
    let (mut volume, _ends) = opened(&rt, alloc, "locked.sirix", 0)?;
    reads(&rt, alloc, &mut volume, b"log")
}

#[test]
fn what_is_no_file_is_refused(rt: HostRuntime) -> Result<(), Fail> {
    for (path, kind) in [
        ("none/a.sirix", ErrorKind::NotFound),
        (".", ErrorKind::IsADirectory),
        ("/dev/null", ErrorKind::InvalidInput),
    ] {
        is_refused(&rt, rt.alloc(), path, kind);
    }
    assert!(rt; !fs::exists(&rt, "none")?);
    Ok(())
}

#[test]
fn a_read_only_file_is_refused(rt: HostRuntime) -> Result<(), Fail> {
    fs::write(&rt, "read-only.sirix", "log")?;
    let mut permissions = fs::metadata(&rt, "read-only.sirix")?.permissions();
    permissions.set_readonly(true);
    fs::set_permissions(&rt, "read-only.sirix", permissions)?;
    // Who may write anything is refused nothing.
    let may = may_write(&rt, "read-only.sirix");
    assert_eq!(rt;
        open(&rt, rt.alloc(), "read-only.sirix", 1, false).is_ok(),
        may
    );
    has(&rt, "read-only.sirix", b"log")?;
    fs::remove_file(&rt, "read-only.sirix")?;
    Ok(())
}

#[test]
fn a_real_file_that_may_not_be_written_fails(rt: HostRuntime) -> Result<(), Fail> {
    fs::write(&rt, "unwritten.sirix", "log")?;
    let file = StdFile::new(fs::File::open(&rt, "unwritten.sirix")?);
    fails_to_write(&rt, rt.alloc(), &mut FileVolume::new(file, 3))
}

#[test]
fn a_file_in_memory_fails_where_it_is_told_to(rt: HostRuntime) -> Result<(), Fail> {
    let alloc = rt.alloc();
    fails_to_write(&rt, alloc, &mut in_memory(alloc, b"log", &[1, 2, 3])?)
}

// That a call asks the system shows at a file of which the system refuses it.
#[test]
fn each_call_asks_the_system(rt: HostRuntime) -> Result<(), Fail> {
    let device = OpenOptions::new()
        .read(true)
        .write(true)
        .open(&rt, "/dev/null")?;
    let mut file = StdFile::new(device);
    assert_eq!(rt; file.sync(), Err(Failed));
    assert_eq!(rt; file.set_len(0), Err(Failed));
    assert_eq!(rt; file.read_at(0, &mut [0]), Err(Failed));
    fs::write(&rt, "synced.sirix", "log")?;
    let mut file = StdFile::new(fs::File::open(&rt, "synced.sirix")?);
    assert_eq!(rt; file.sync(), Ok(()));
    assert_eq!(rt; file.len(), Ok(3));
    Ok(())
}

// A volume that was just made, by another program.
const NEWBORN: &[u8] = b"\
    \x01\x53\x58\x53\x4e\x41\x50\x30\x31\x00\x01\x09\x76\x61\x6c\x69\x64\x46\x72\x6f\x6d\x00\x00\x00\
    \x00\x00\x00\x00\x00\x00\x00\x00\x00\x00\x00\x00\x00\x00\x00\x00\x00\x00\x00\x00\x00\x00\x00\x00\
    \x00\x00\x00\x00\x00\x00\x00\x00\x00\x00\x00\x00\x00\x00\x00\x00\x00\x00\x00\x00\x00\x00\x00\x00\
    \x00\x00\x00\x00\x07\x76\x61\x6c\x69\x64\x54\x6f\x00\x00\x00\x00\x00\x00\x00\x00\x00\x00\x00\x00\
    \x00\x00\x00\x00\x00\x00\x00\x00\x00\x00\x00\x00\x00\x00\x00\x00\x00\x00\x00\x00\x00\x00\x00\x00\
    \x00\x00\x00\x00\x00\x00\x00\x00\x00\x00\x00\x00\x00\x00\x00\x00\x00\x00\x00\x00\x00\x2e\x87\x1e\
    \x80\x19\x5e\xef\xe8\x59\x77\xab\x95\xbf\xb0\xe2\x96\x71\xcf\xcd\x56\x83\xe6\x8e\xc7\x09\x4f\x81\
    \x8d\x9f\xa2\xe7\x98\x00\
";

// What stands from its last byte on after a commit of `[7]` at the start of the year 2100, and one of `{"a":8.50}`, by another program.
const GROUPS: &[u8] = b"\
    \x01\x53\x58\x47\x52\x00\x00\x00\x01\x00\x00\x03\xbb\x2c\xc3\xd8\x00\x00\x00\x00\x00\x00\x00\x00\
    \x01\x00\x00\x00\x01\x00\x00\x00\x00\x00\x00\x00\x03\x00\x00\x00\x03\x00\x00\x00\x02\x00\x00\x00\
    \xd3\x00\x00\x00\xd3\x58\x76\x25\x91\x9c\x76\xc7\xc6\x8d\x23\x8d\xcb\xef\x24\xbf\xf0\xe2\x86\x85\
    \x2a\x76\x8e\x4d\x48\x04\xaf\x81\x18\x7a\x58\xa5\x9d\x94\x9f\x03\xf6\x2b\x4c\x86\x08\x2a\x72\x5b\
    \x7c\x19\xa6\xdd\xcd\xb6\x61\x40\x58\xbc\xe8\xef\xb7\xf1\x8e\x6c\x2e\xe4\x56\xea\xe3\x05\x00\x00\
    \x00\xce\x00\x00\x00\x03\x00\x00\x00\x00\x00\xff\xff\xff\xff\xff\xff\xff\xff\xff\xff\xff\xff\x00\
    \x00\x00\x01\x00\x00\x00\x01\x00\x00\x00\x01\x00\x00\x00\x02\xf6\xce\x3e\xb9\x26\x9b\x29\x4c\xa8\
    \x00\xec\x23\x6e\x1c\x55\xa9\x00\x00\x00\x00\x00\x00\x00\x00\x00\x00\x00\x01\x02\x00\x00\x00\x00\
    \xff\xff\xff\xff\xff\xff\xff\xff\x00\x00\x00\x02\x00\x00\x00\x02\x00\x00\x00\x01\x00\x00\x00\x01\
    \x36\x52\x47\xeb\x30\xf5\xf1\xbc\xf7\x14\x47\x5f\xdc\xd5\xce\x7d\x00\x00\x00\x01\x00\x00\x00\x00\
    \x00\x00\x00\x02\x05\x00\x00\x00\x01\xff\xff\xff\xff\xff\xff\xff\xff\xff\xff\xff\xff\xff\xff\xff\
    \xff\x00\x00\x00\x00\x00\x00\x00\x00\x30\x2a\x66\x2c\xf5\x3a\xbb\x51\xdd\xc1\xf6\xf2\xc7\x4f\x4e\
    \x7c\x00\x00\x00\x02\x00\x00\x00\x01\x37\x00\x00\x00\x02\x00\x00\x00\x00\x00\x00\x00\x00\x01\x00\
    \x00\x00\x00\x00\x00\x00\x01\x01\x00\x00\x00\x01\x00\x00\x00\x00\x01\x53\x58\x47\x52\x00\x00\x00\
    \x02\x00\x00\x03\xbb\x2c\xc3\xd8\x00\x00\x00\x00\x01\x00\x00\x00\x01\x00\x00\x00\x02\x00\x00\x00\
    \x00\x00\x00\x00\x06\x00\x00\x00\x04\x00\x00\x00\x03\x00\x00\x01\x1e\x00\x00\x01\x1e\x34\xa7\x0c\
    \xf8\xa1\xcf\x3b\x79\x7e\x53\x7a\x41\xd4\x8e\xcb\xf2\x88\x34\x70\xed\x0f\x1e\x9e\x3f\x20\xfb\x68\
    \x40\xb5\x7d\x03\x0e\x07\x10\xfa\x54\xe6\xee\x93\x2b\x89\xa0\xcd\xeb\xf4\x1c\x4a\x67\xbb\x24\x6e\
    \xfb\x5b\x23\x60\xda\xbb\xd3\x6d\xf3\x28\xb0\xe8\x0c\x05\x00\x00\x01\x19\x00\x00\x00\x04\x00\x00\
    \x00\x00\x00\xff\xff\xff\xff\xff\xff\xff\xff\xff\xff\xff\xff\x00\x00\x00\x03\x00\x00\x00\x03\x00\
    \x00\x00\x01\x00\x00\x00\x03\x62\x22\xca\x8a\x06\xb3\x8b\x79\xcc\x94\x50\x1c\x1e\x35\xc1\xcb\x00\
    \x00\x00\x00\x00\x00\x00\x00\x00\x00\x00\x03\x01\x00\x00\x00\x00\xff\xff\xff\xff\xff\xff\xff\xff\
    \x00\x00\x00\x04\x00\x00\x00\x04\x00\x00\x00\x01\x00\x00\x00\x02\xe2\x11\xdc\xe2\x0a\xfc\x04\x0c\
    \xd4\x5b\x93\x77\xbd\xa5\x18\x9f\x00\x00\x00\x01\x00\x00\x00\x00\x00\x00\x00\x04\x03\x00\x00\x00\
    \x03\xff\xff\xff\xff\xff\xff\xff\xff\x00\x00\x00\x05\x00\x00\x00\x05\x00\x00\x00\x01\x00\x00\x00\
    \x01\xdf\xb6\x66\x64\x4e\x88\x2e\x80\xc6\xd1\xab\xb9\x03\x2d\xa4\xbc\x00\x00\x00\x03\x00\x00\x00\
    \x01\x61\x00\x00\x00\x05\x05\x00\x00\x00\x04\xff\xff\xff\xff\xff\xff\xff\xff\xff\xff\xff\xff\xff\
    \xff\xff\xff\x00\x00\x00\x00\x00\x00\x00\x00\x10\x08\x15\xf5\xfc\x26\x99\x69\xd2\xf1\x65\x10\x16\
    \x01\x11\x1a\x00\x00\x00\x03\x00\x00\x00\x04\x38\x2e\x35\x30\x00\x00\x00\x03\x00\x00\x00\x00\x00\
    \x00\x00\x00\x01\x00\x00\x00\x00\x00\x00\x00\x01\x01\x00\x00\x00\x00\x00\x00\x00\x00\x00\x00\x00\
    \x01\x02\x00\x00\x00\x01\x00\x00\x00\x01\x61\x00\
";

// The volume with so many of its bytes, of which the last is a closed gate.
fn volume_of(alloc: Global, len: usize) -> Result<Vec<u8>, Fail> {
    let mut bytes = NEWBORN[..173].to_vec(alloc)?;
    bytes.extend_from_slice(GROUPS)?;
    bytes.truncate(len);
    if let Some(gate) = bytes.last_mut() {
        *gate = 0;
    }
    Ok(bytes)
}

#[test]
fn a_run_leaves_its_commits_in_the_file(rt: HostRuntime) -> Result<(), Fail> {
    let alloc = rt.alloc();
    fs::write(&rt, "run.sirix", volume_of(alloc, 502)?)?;
    for (script, output) in [
        (
            b"open 1\ntext 0\nload { \"a\": 8.50 }\ncommit\nload 9\nquit\ncommit".as_slice(),
            b"ok 1\nok [7]\nok 3\nok 2 4102444800000\nok 6\n".as_slice(),
        ),
        (b"open latest\ntext 0\n", b"ok 2\nok {\"a\":8.50}\n"),
    ] {
        replies(&rt, alloc, "run.sirix", script, output)?;
        has(&rt, "run.sirix", &volume_of(alloc, 905)?)?;
    }
    writes(
        &rt,
        alloc,
        "run.sirix",
        &["show", "run.sirix", "1"],
        "[7]\n",
    )?;
    writes(&rt, alloc, "run.sirix", &["check", "run.sirix"], "ok 2 2\n")?;
    has(&rt, "run.sirix", &volume_of(alloc, 905)?)
}

#[test]
fn a_volume_is_made_in_a_file(rt: HostRuntime) -> Result<(), Fail> {
    let alloc = rt.alloc();
    is_refused(&rt, alloc, "made.sirix", ErrorKind::NotFound);
    drop(open(&rt, alloc, "made.sirix", 1, true)?);
    writes(&rt, alloc, "made.sirix", &["create", "made.sirix"], "")?;
    has(&rt, "made.sirix", NEWBORN)?;
    fs::remove_file(&rt, "made.sirix")?;
    Ok(())
}
