//! Commits on a volume: what the three calls leave, one commit behind another, and where a call fails.
ghost use Rattle.std.specs.Prelude.{ℕ, ◌≡◌, ◌+◌, ◌<◌, ◌++◌, [], ◌∷◌, length, IfOk, OnOk};
ghost use Rattle.std.specs.Arc.{arc_value};
ghost use Rattle.sx_layout.specs.FrameGroup.{FrameGroup};
ghost use Rattle.sx_log.specs.Committing.{IsNext, sealed_bytes};
ghost use Rattle.sx_log.specs.Kept.{listed, row_at};
ghost use Rattle.sx_log_rows.specs.Commits.{first_group, second_group};
ghost use Rattle.sx_volume.specs.Medium.{bytes_of};

use std::alloc::{AllocError, Global};
use std::sync::Arc;
use std::test::Fail;
use sx_frame::FrameRow;
use sx_log::{Log, hold, open, seal_group, stage};
use sx_root::RevisionRoot;
use sx_volume::{FuseVolume, MemVolume, Volume};

/// A volume that was just made with the birth of the defaults, by another program.
const NEWBORN: [u8; 174] = [
    0x01, 0x53, 0x58, 0x53, 0x4e, 0x41, 0x50, 0x30, 0x31, 0x00, 0x03, 0x09, 0x76, 0x61, 0x6c, 0x69,
    0x64, 0x46, 0x72, 0x6f, 0x6d, 0x00, 0x00, 0x00, 0x00, 0x00, 0x00, 0x00, 0x00, 0x00, 0x00, 0x00,
    0x00, 0x00, 0x00, 0x00, 0x00, 0x00, 0x00, 0x00, 0x00, 0x00, 0x00, 0x00, 0x00, 0x00, 0x00, 0x00,
    0x00, 0x00, 0x00, 0x00, 0x00, 0x00, 0x00, 0x00, 0x00, 0x00, 0x00, 0x00, 0x00, 0x00, 0x00, 0x00,
    0x00, 0x00, 0x00, 0x00, 0x00, 0x00, 0x00, 0x00, 0x00, 0x00, 0x00, 0x00, 0x07, 0x76, 0x61, 0x6c,
    0x69, 0x64, 0x54, 0x6f, 0x00, 0x00, 0x00, 0x00, 0x00, 0x00, 0x00, 0x00, 0x00, 0x00, 0x00, 0x00,
    0x00, 0x00, 0x00, 0x00, 0x00, 0x00, 0x00, 0x00, 0x00, 0x00, 0x00, 0x00, 0x00, 0x00, 0x00, 0x00,
    0x00, 0x00, 0x00, 0x00, 0x00, 0x00, 0x00, 0x00, 0x00, 0x00, 0x00, 0x00, 0x00, 0x00, 0x00, 0x00,
    0x00, 0x00, 0x00, 0x00, 0x00, 0x00, 0x00, 0x00, 0x00, 0x00, 0x00, 0x00, 0x00, 0x48, 0x2e, 0xf9,
    0x60, 0x1e, 0x23, 0x36, 0x6e, 0x28, 0x8d, 0xc5, 0xf4, 0x2d, 0xc6, 0x63, 0x60, 0x97, 0xd5, 0xf7,
    0xa1, 0x9e, 0xda, 0xe2, 0x6b, 0x7d, 0xd4, 0x43, 0xd2, 0x7a, 0x7d, 0x54, 0xfc, 0x00,
];

/// The group of the first commit and the closed gate behind it, by another program.
const FIRST: [u8; 126] = [
    0x53, 0x58, 0x47, 0x52, 0x00, 0x00, 0x00, 0x01, 0x00, 0x00, 0x00, 0x00, 0x00, 0x00, 0x03, 0xe8,
    0x00, 0x00, 0x00, 0x00, 0x00, 0x00, 0x00, 0x01, 0x00, 0x00, 0x00, 0x01, 0x00, 0x00, 0x00, 0x00,
    0x00, 0x00, 0x00, 0x01, 0x00, 0x00, 0x00, 0x01, 0x00, 0x00, 0x00, 0x00, 0x00, 0x00, 0x00, 0x09,
    0x00, 0x00, 0x00, 0x09, 0x32, 0xec, 0x76, 0x1d, 0x4e, 0x85, 0xa3, 0xbf, 0x86, 0x89, 0xcd, 0x36,
    0xe7, 0x1b, 0xbb, 0xe0, 0xde, 0xf6, 0x3d, 0xc7, 0xb0, 0xcd, 0xcf, 0x68, 0x49, 0xe2, 0xd8, 0x32,
    0x95, 0x01, 0xb6, 0xfe, 0x40, 0x74, 0x34, 0x48, 0xef, 0x87, 0xc0, 0x06, 0xdb, 0x02, 0x57, 0x83,
    0xfb, 0x68, 0xa5, 0xad, 0x06, 0x2a, 0x46, 0xec, 0x3b, 0x37, 0xb4, 0xff, 0x71, 0x5b, 0x13, 0x83,
    0x2d, 0xa9, 0xbf, 0xc5, 0x01, 0x00, 0x00, 0x00, 0x04, 0x6c, 0x65, 0x61, 0x66, 0x00,
];

/// That of the second commit.
const SECOND: [u8; 167] = [
    0x53, 0x58, 0x47, 0x52, 0x00, 0x00, 0x00, 0x02, 0x00, 0x00, 0x00, 0x00, 0x00, 0x00, 0x03, 0xe8,
    0x00, 0x00, 0x00, 0x01, 0x00, 0x00, 0x00, 0x02, 0x00, 0x00, 0x00, 0x02, 0x00, 0x00, 0x00, 0x00,
    0x00, 0x00, 0x00, 0x03, 0x00, 0x00, 0x00, 0x02, 0x00, 0x00, 0x00, 0x00, 0x00, 0x00, 0x00, 0x0e,
    0x00, 0x00, 0x00, 0x05, 0x39, 0x5c, 0x2f, 0x55, 0x98, 0xa1, 0x64, 0x3a, 0x20, 0x51, 0x54, 0xc6,
    0xf4, 0xc4, 0x6c, 0xe3, 0x68, 0x95, 0xb2, 0x8e, 0x6c, 0x35, 0x66, 0x0a, 0x95, 0xe5, 0xc6, 0xfd,
    0x5e, 0xf9, 0xae, 0xab, 0x00, 0x00, 0x00, 0x09, 0x32, 0xec, 0x76, 0x1d, 0x4e, 0x85, 0xa3, 0xbf,
    0x86, 0x89, 0xcd, 0x36, 0xe7, 0x1b, 0xbb, 0xe0, 0xde, 0xf6, 0x3d, 0xc7, 0xb0, 0xcd, 0xcf, 0x68,
    0x49, 0xe2, 0xd8, 0x32, 0x95, 0x01, 0xb6, 0xfe, 0x03, 0xa9, 0xe1, 0x76, 0x1e, 0xf5, 0x7a, 0xf6,
    0x53, 0x74, 0x52, 0x8f, 0x4e, 0x0a, 0xfb, 0x44, 0xa2, 0x36, 0x13, 0x54, 0x53, 0x5b, 0xd8, 0x9a,
    0xad, 0xfc, 0x89, 0xd2, 0x26, 0xbd, 0xab, 0x2c, 0x02, 0x00, 0x00, 0x00, 0x00, 0x01, 0x00, 0x00,
    0x00, 0x04, 0x6c, 0x65, 0x61, 0x66, 0x00,
];

/// The SHA-256 of a frame of kind 1 with the body `leaf`.
const LEAF: [u8; 32] = [
    0x32, 0xec, 0x76, 0x1d, 0x4e, 0x85, 0xa3, 0xbf, 0x86, 0x89, 0xcd, 0x36, 0xe7, 0x1b, 0xbb, 0xe0,
    0xde, 0xf6, 0x3d, 0xc7, 0xb0, 0xcd, 0xcf, 0x68, 0x49, 0xe2, 0xd8, 0x32, 0x95, 0x01, 0xb6, 0xfe,
];

/// The SHA-256 of a frame of kind 2 with no body.
const EMPTY: [u8; 32] = [
    0x39, 0x5c, 0x2f, 0x55, 0x98, 0xa1, 0x64, 0x3a, 0x20, 0x51, 0x54, 0xc6, 0xf4, 0xc4, 0x6c, 0xe3,
    0x68, 0x95, 0xb2, 0x8e, 0x6c, 0x35, 0x66, 0x0a, 0x95, 0xe5, 0xc6, 0xfd, 0x5e, 0xf9, 0xae, 0xab,
];

const FIRST_ROOT: RevisionRoot = RevisionRoot {
    revision: 1,
    time: 1000,
    first_frame: 0,
    frames: 1,
    node_root: 1,
    path_root: 0,
    next: 1,
    nodes: 1,
    paths: 0,
    body: 9,
};

const SECOND_ROOT: RevisionRoot = RevisionRoot {
    revision: 2,
    time: 1000,
    first_frame: 1,
    frames: 2,
    node_root: 2,
    path_root: 0,
    next: 3,
    nodes: 2,
    paths: 0,
    body: 14,
};

/// Where it ended.
#[derive(Clone, Copy, Debug, PartialEq, Eq)]
enum Stop {
    Memory,
    Open,
    Stage,
    Seal,
}

impl From<AllocError> for Stop {
    fn from(_: AllocError) -> Self {
        Stop::Memory
    }
}

// The three calls of a commit.
fn commit<V: Volume>(
    alloc: Global,
    log: &mut Log,
    volume: &mut V,
    piece: Arc<Vec<u8>>,
) -> Result<(), Stop>
    requires next { (group : FrameGroup) × IsNext (listed log.old.groups) (arc_value piece).items group }
    requires gate { log.old.end < V.size volume.old }
    ensures entered { OnOk result ((group : FrameGroup) → IsNext (listed log.old.groups) (arc_value piece).items group → listed log.new.groups ≡ listed log.old.groups ++ row_at (log.old.end + 1) group ∷ []) }
    ensures gate { OnOk result (log.new.end + 1 ≡ V.size volume.new) }
{
    hold(alloc, log, volume, piece)?;
    let Ok(()) = stage(log, volume) else {
        return Err(Stop::Stage);
    };
    let Ok(()) = seal_group(log, volume) else {
        return Err(Stop::Seal);
    };
    Ok(())
}

fn first_piece(alloc: Global) -> Result<Arc<Vec<u8>>, AllocError>
    ensures { IfOk result (λ piece. (arc_value piece).items ≡ sealed_bytes first_group) }
{
    let piece = Arc::new(alloc, FIRST.to_vec(alloc)?)?;
    Ok(piece)
}

fn second_piece(alloc: Global) -> Result<Arc<Vec<u8>>, AllocError>
    ensures { IfOk result (λ piece. (arc_value piece).items ≡ sealed_bytes second_group) }
{
    let piece = Arc::new(alloc, SECOND.to_vec(alloc)?)?;
    Ok(piece)
}

// Commits the first group to a log without groups.
fn commit_first<V: Volume>(alloc: Global, log: &mut Log, volume: &mut V) -> Result<(), Stop>
    requires none { listed log.old.groups ≡ [] }
    requires gate { log.old.end < V.size volume.old }
    ensures entered { OnOk result (listed log.new.groups ≡ row_at (log.old.end + 1) first_group ∷ []) }
    ensures gate { OnOk result (log.new.end < V.size volume.new) }
{
    let piece = first_piece(alloc)?;
    commit(alloc, log, volume, piece)
}

// Commits the second group to a log with the first alone.
fn commit_second<V: Volume>(alloc: Global, log: &mut Log, volume: &mut V) -> Result<(), Stop>
    requires first { (place : ℕ) × (listed log.old.groups ≡ row_at place first_group ∷ []) }
    requires gate { log.old.end < V.size volume.old }
{
    let piece = second_piece(alloc)?;
    commit(alloc, log, volume, piece)
}

// The bytes of a volume with these groups, each with the gate behind it, and with these bytes behind the last gate.
fn volume_bytes(alloc: Global, groups: &[&[u8]], behind: &[u8]) -> Result<Vec<u8>, AllocError> {
    let mut bytes = NEWBORN.to_vec(alloc)?;
    for group in groups {
        let _gate = bytes.pop();
        bytes.push(1)?;
        bytes.extend_from_slice(group)?;
    }
    bytes.extend_from_slice(behind)?;
    Ok(bytes)
}

// A newborn volume with these bytes behind its gate, and its log.
fn opened(alloc: Global, behind: &[u8]) -> Result<(Log, MemVolume), Stop>
    ensures none { IfOk result (λ made. listed made.0.groups ≡ []) }
    ensures gate { IfOk result (λ made. made.0.end < length (bytes_of made.1)) }
{
    let bytes = volume_bytes(alloc, &[], behind)?;
    let mut volume = MemVolume::new(alloc, bytes, Vec::new(alloc))?;
    let Ok(log) = open(alloc, &mut volume) else {
        return Err(Stop::Open);
    };
    if !log.groups.as_slice().is_empty() || log.end >= volume.len() {
        return Err(Stop::Open);
    }
    Ok((log, volume))
}

// Two commits, one behind the other.
fn committed(alloc: Global) -> Result<(Log, MemVolume), Stop> {
    let (mut log, mut volume) = opened(alloc, b"")?;
    commit_first(alloc, &mut log, &mut volume)?;
    commit_second(alloc, &mut log, &mut volume)?;
    Ok((log, volume))
}

// A commit over a volume with bytes behind its gate, whose fuse lets so many calls pass: the answer, and what is left.
fn stopped(alloc: Global, calls: u64) -> Result<(Result<(), Stop>, MemVolume), Stop> {
    let (mut log, volume) = opened(alloc, b"junk")?;
    let mut fuse = FuseVolume::new(volume, calls);
    let answer = commit_first(alloc, &mut log, &mut fuse);
    Ok((answer, fuse.into_inner()))
}

// How many groups are found.
fn count_of(alloc: Global, volume: &mut MemVolume) -> Result<usize, Stop> {
    match open(alloc, volume) {
        Ok(log) => Ok(log.groups.as_slice().len()),
        Err(_) => Err(Stop::Open),
    }
}

// The volume after two commits, byte by byte.
#[test]
fn bytes_of_two_commits(rt: HostRuntime) -> Result<(), Fail> {
    let alloc = rt.alloc();
    let (log, volume) = committed(alloc)?;
    let bytes = volume_bytes(alloc, &[&FIRST, &SECOND], b"")?;
    assert_eq!(rt; volume.as_slice(), bytes.as_slice());
    assert_eq!(rt; (volume.as_slice().len(), log.end), (467, 466));
    Ok(())
}

// What the log keeps of them.
#[test]
fn rows_of_two_commits(rt: HostRuntime) -> Result<(), Fail> {
    let alloc = rt.alloc();
    let (log, _) = committed(alloc)?;
    let leaf = FrameRow {
        bytes: 9,
        digest: LEAF,
    };
    let empty = FrameRow {
        bytes: 5,
        digest: EMPTY,
    };
    let [first, second] = log.groups.as_slice() else {
        panic!(rt; "two rows");
    };
    assert_eq!(rt; (first.root, first.place), (FIRST_ROOT, 174));
    assert_eq!(rt; first.table.as_slice(), [leaf].as_slice());
    assert_eq!(rt; (second.root, second.place), (SECOND_ROOT, 300));
    assert_eq!(rt; second.table.as_slice(), [empty, leaf].as_slice());
    Ok(())
}

// Five calls over a volume with bytes behind its gate, stopped after each, and what then stands.
#[test]
fn five_calls(rt: HostRuntime) -> Result<(), Fail> {
    let alloc = rt.alloc();
    let closed = volume_bytes(alloc, &[], b"")?;
    let junk = volume_bytes(alloc, &[], b"junk")?;
    let staged = volume_bytes(alloc, &[], &FIRST)?;
    let sealed = volume_bytes(alloc, &[&FIRST], b"")?;
    let table = [
        (0, Err(Stop::Stage), junk.as_slice(), 0),
        (1, Err(Stop::Stage), closed.as_slice(), 0),
        (2, Err(Stop::Stage), staged.as_slice(), 0),
        (3, Err(Stop::Seal), staged.as_slice(), 0),
        (4, Err(Stop::Seal), sealed.as_slice(), 1),
        (5, Ok(()), sealed.as_slice(), 1),
    ];
    for (calls, answer, bytes, groups) in table {
        let (given, mut left) = stopped(alloc, calls)?;
        assert_eq!(rt; given, answer, "after {calls} calls");
        assert_eq!(rt; left.as_slice(), bytes, "after {calls} calls");
        assert_eq!(rt; count_of(alloc, &mut left)?, groups, "after {calls} calls");
    }
    Ok(())
}
