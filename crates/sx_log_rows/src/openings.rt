//! Volumes are opened: the logs that they have, and the damage that is told of each rule.
use crate::births::{DEFAULT, Part, default_birth, volume_bytes};
use sha2::{Digest, Sha256};
use std::alloc::{AllocError, Global};
use std::test::Fail;
use sx_bytes::Damage;
use sx_log::{Log, LogFault, create, open};
use sx_volume::{FuseVolume, MemVolume};

// The words of a head, each of 4 bytes.
const REVISION: usize = 1;

const EARLY: usize = 2;

const TIME: usize = 3;

const FIRST: usize = 4;

const FRAMES: usize = 5;

const NODE_ROOT: usize = 6;

const PATH_ROOT: usize = 7;

const NEXT: usize = 8;

const NODES: usize = 9;

const PATHS: usize = 10;

const BODY: usize = 11;

/// The mark, as a number.
const MARK: u64 = 1_398_294_354;

/// Two frames of 5 and 7 bytes, at the time 1000. The group has 165 bytes, with the gate behind it.
const GROUP_1: [u32; 12] = [0x5358_4752, 1, 0, 1000, 0, 2, 1, 2, 5, 5, 2, 12];

/// A frame of 6 bytes, at the same time. The group has 123 bytes, with the gate behind it.
const GROUP_2: [u32; 12] = [0x5358_4752, 2, 0, 1000, 2, 1, 3, 2, 5, 5, 2, 6];

/// The place of the second group: 174 + 165.
const PLACE_2: u64 = 339;

// The number in 32 bytes.
fn wide(number: u64) -> [u8; 32] {
    let mut bytes = [0; 32];
    bytes[24..].copy_from_slice(&number.to_be_bytes());
    bytes
}

// What is told of a rule on a number.
fn told(place: u64, rule: u8, kept: u64, found: u64) -> Option<LogFault> {
    Some(LogFault::Damaged(Damage {
        place,
        rule,
        kept: wide(kept),
        found: wide(found),
    }))
}

// The group with this head and frames of these lengths, up to its frames.
fn part_of(alloc: Global, words: &[u32; 12], lengths: &[u32]) -> Result<Vec<u8>, AllocError> {
    let mut part = Vec::new(alloc);
    for word in words {
        part.extend_from_slice(&word.to_be_bytes())?;
    }
    for length in lengths {
        part.extend_from_slice(&length.to_be_bytes())?;
        part.extend_from_slice(&[7; 32])?;
    }
    let digest = Sha256::digest(part.as_slice());
    part.extend_from_slice(&digest)?;
    Ok(part)
}

// A volume with both groups, the second with these words in its head, frames of these lengths, and these bytes behind its digest.
fn two_groups(
    alloc: Global,
    words: &[(usize, u32)],
    lengths: &[u32],
    behind: &[u8],
) -> Result<Vec<u8>, AllocError> {
    let mut second = GROUP_2;
    for (word, value) in words {
        if let Some(place) = second.get_mut(*word) {
            *place = *value;
        }
    }
    let mut bytes = volume_bytes(alloc, 1, DEFAULT, &[1])?;
    bytes.extend_from_slice(&part_of(alloc, &GROUP_1, &[5, 7])?)?;
    bytes.extend_from_slice(&[9; 12])?;
    bytes.push(1)?;
    bytes.extend_from_slice(&part_of(alloc, &second, lengths)?)?;
    bytes.extend_from_slice(behind)?;
    Ok(bytes)
}

// The log of these bytes.
fn log_of(alloc: Global, bytes: &[u8]) -> Result<Result<Log, LogFault>, Fail> {
    let mut volume = MemVolume::new(alloc, bytes.to_vec(alloc)?, Vec::new(alloc))?;
    Ok(open(alloc, &mut volume))
}

/// What opening answers in place of a log.
pub(crate) fn fault_of(alloc: Global, bytes: &[u8]) -> Result<Option<LogFault>, Fail> {
    Ok(log_of(alloc, bytes)?.err())
}

// Seven calls make a volume, and it is opened after each.
#[test]
fn opened_after_each_call(rt: HostRuntime) -> Result<(), Fail> {
    let alloc = rt.alloc();
    for calls in 0..8 {
        let empty = MemVolume::new(alloc, Vec::new(alloc), Vec::new(alloc))?;
        let mut fuse = FuseVolume::new(empty, calls);
        let birth = default_birth(alloc)?;
        assert_eq!(rt; create(alloc, &mut fuse, &birth).is_ok(), calls == 7);
        let left = fuse.into_inner();
        let answer = if calls < 6 {
            Some(LogFault::Unborn)
        } else {
            None
        };
        assert_eq!(rt;
            fault_of(alloc, left.as_slice())?,
            answer,
            "after {calls} calls"
        );
    }
    assert_eq!(rt;
        fault_of(alloc, b"hello")?,
        Some(LogFault::NotOurs { first: 104 })
    );
    Ok(())
}

// Both groups, with a gate that is not open and what stands behind it.
#[test]
fn a_log_of_two_groups(rt: HostRuntime) -> Result<(), Fail> {
    let alloc = rt.alloc();
    for behind in [[9, 9, 9, 9, 9, 9, 0, 1, 2], [9, 9, 9, 9, 9, 9, 2, 1, 1]] {
        let bytes = two_groups(alloc, &[], &[6], &behind)?;
        let log = log_of(alloc, &bytes)??;
        assert_eq!(rt; log.birth.window, 3);
        assert_eq!(rt; log.birth.from.as_bytes(), b"validFrom".as_slice());
        assert_eq!(rt; log.birth.to.as_bytes(), b"validTo".as_slice());
        assert_eq!(rt; log.end, 461);
        let rows = log.groups.as_slice();
        assert_eq!(rt; rows.len(), 2);
        let (first, second) = (&rows[0], &rows[1]);
        assert_eq!(rt; (first.place, second.place), (174, PLACE_2));
        assert_eq!(rt; (first.root.revision, second.root.revision), (1, 2));
        assert_eq!(rt; (first.root.body, second.root.body), (12, 6));
        let (one, two) = (first.table.as_slice(), second.table.as_slice());
        assert!(rt; one.len() == 2 && two.len() == 1);
        assert_eq!(rt; (one[0].bytes, one[1].bytes, two[0].bytes), (5, 7, 6));
        assert_eq!(rt; two[0].digest, [7; 32]);
    }
    Ok(())
}

// The rules 1 to 4 of the birth part.
#[test]
fn damaged_birth_parts(rt: HostRuntime) -> Result<(), Fail> {
    let alloc = rt.alloc();
    let long = [b'a'; 64];
    let (format, window) = (2, 9);
    let table: [(Part, Option<LogFault>); 12] = [
        (DEFAULT, None),
        (
            Part {
                window: 1,
                ..DEFAULT
            },
            None,
        ),
        (
            Part {
                window: 8,
                ..DEFAULT
            },
            None,
        ),
        (
            Part {
                from_length: 64,
                from: &long,
                ..DEFAULT
            },
            None,
        ),
        (Part { format, ..DEFAULT }, told(1, 2, 0, 2)),
        (
            Part {
                format: 1,
                window,
                ..DEFAULT
            },
            told(1, 2, 0, 1),
        ),
        (
            Part {
                window: 0,
                ..DEFAULT
            },
            told(1, 3, 8, 0),
        ),
        (
            Part {
                window,
                to: b"",
                ..DEFAULT
            },
            told(1, 3, 8, 9),
        ),
        (
            Part {
                from_length: 0,
                from: b"",
                ..DEFAULT
            },
            told(1, 4, 0, 0),
        ),
        (
            Part {
                to_length: 65,
                to: &long,
                ..DEFAULT
            },
            told(1, 4, 0, 9),
        ),
        (
            Part {
                filler: 1,
                ..DEFAULT
            },
            told(1, 4, 0, 9),
        ),
        (
            Part {
                to_length: 9,
                to: b"validFrom",
                ..DEFAULT
            },
            told(1, 4, 0, 9),
        ),
    ];
    for (part, answer) in table {
        let bytes = volume_bytes(alloc, 1, part, &[0])?;
        assert_eq!(rt; fault_of(alloc, &bytes)?, answer);
    }
    let other = volume_bytes(alloc, 1, Part { format, ..DEFAULT }, &[0])?;
    let mut bytes = volume_bytes(alloc, 1, DEFAULT, &[0])?;
    assert!(rt; other.len() == 174 && bytes.len() == 174);
    let mut damage = Damage {
        place: 1,
        rule: 1,
        kept: [0; 32],
        found: [0; 32],
    };
    damage.kept.copy_from_slice(&bytes[141..173]);
    damage.found.copy_from_slice(&other[141..173]);
    bytes[9] = format;
    assert_eq!(rt; fault_of(alloc, &bytes)?, Some(LogFault::Damaged(damage)));
    Ok(())
}

// The rules 7 to 14 on the second group: each bound, its neighbour, and the rule that comes behind it.
#[test]
fn damaged_heads(rt: HostRuntime) -> Result<(), Fail> {
    let alloc = rt.alloc();
    let table: [(&[(usize, u32)], Option<(u8, u64, u64)>); 30] = [
        (&[], None),
        (&[(REVISION, 1)], Some((7, 2, 1))),
        (&[(REVISION, 3), (TIME, 999)], Some((7, 2, 3))),
        (&[(TIME, 1001)], None),
        (&[(TIME, 999), (FIRST, 1)], Some((8, 1000, 999))),
        (&[(EARLY, 0x8000_0000), (TIME, 0)], Some((8, 1000, 1 << 63))),
        (&[(FIRST, 1), (NODE_ROOT, 4)], Some((9, 2, 1))),
        (&[(FIRST, 3)], Some((9, 2, 3))),
        (&[(FIRST, 0xffff_ffff)], Some((9, 2, 0xffff_ffff))),
        (&[(NODE_ROOT, 0), (PATH_ROOT, 0)], None),
        (&[(NODE_ROOT, 4), (PATH_ROOT, 5)], Some((11, 3, 4))),
        (&[(PATH_ROOT, 3)], None),
        (&[(PATH_ROOT, 4), (NEXT, 4)], Some((11, 3, 4))),
        (&[(NEXT, 4), (NODES, 0)], Some((12, 5, 4))),
        (&[(NEXT, 6)], None),
        (&[(NEXT, 1 << 30)], None),
        (&[(NEXT, 1_073_741_825)], Some((12, 1 << 30, 1_073_741_825))),
        (&[(NODES, 0), (PATHS, 1)], Some((13, 1, 0))),
        (&[(NODES, 1)], None),
        (&[(NODES, 6)], Some((13, 5, 6))),
        (&[(NODES, 6), (NEXT, 6)], None),
        (&[(NODES, 7), (NEXT, 6), (PATHS, 1)], Some((13, 6, 7))),
        (&[(PATHS, 1)], Some((14, 2, 1))),
        (&[(PATHS, 3)], None),
        (&[(PATHS, 1_073_741_823)], None),
        (&[(PATHS, 1 << 30)], Some((14, 1_073_741_823, 1 << 30))),
        (&[(PATHS, 0), (BODY, 5)], Some((14, 2, 0))),
        (&[(BODY, 5)], Some((15, 6, 5))),
        (
            &[(0, 0x5358_4753), (REVISION, 9)],
            Some((5, MARK, 0x5358_4753)),
        ),
        (&[(0, 0), (BODY, 0xffff_ffff)], Some((5, MARK, 0))),
    ];
    for (words, answer) in table {
        let bytes = two_groups(alloc, words, &[6], &[9, 9, 9, 9, 9, 9, 0])?;
        let fault = match answer {
            Some((rule, kept, found)) => told(PLACE_2, rule, kept, found),
            None => None,
        };
        assert_eq!(rt; fault_of(alloc, &bytes)?, fault, "{words:?}");
    }
    Ok(())
}

// The rules 6 and 15 on the second group, with these frames and so many bytes behind the table.
#[test]
fn damaged_sizes(rt: HostRuntime) -> Result<(), Fail> {
    let alloc = rt.alloc();
    let behind = [0; 12];
    let table: [(u32, &[u32], u32, usize, Option<LogFault>); 13] = [
        (0, &[], 0, 1, None),
        (0, &[], 0, 0, told(PLACE_2, 6, 80, 81)),
        (1, &[6], 6, 7, None),
        (1, &[6], 6, 6, told(PLACE_2, 6, 122, 123)),
        (1, &[6], 7, 7, told(PLACE_2, 6, 123, 124)),
        (1, &[6], 7, 8, told(PLACE_2, 15, 6, 7)),
        (1, &[5], 5, 6, None),
        (1, &[4], 4, 5, told(PLACE_2, 15, 5, 4)),
        (2, &[5, 4], 10, 11, told(PLACE_2, 15, 5, 4)),
        (2, &[5, 6], 10, 11, told(PLACE_2, 15, 11, 10)),
        (2, &[5, 6], 11, 12, None),
        (2, &[6], 6, 7, told(PLACE_2, 6, 123, 159)),
        (
            1,
            &[6],
            0xffff_ffff,
            7,
            told(PLACE_2, 6, 123, 4_294_967_412),
        ),
    ];
    for (frames, lengths, body, count, answer) in table {
        let words = [
            (FRAMES, frames),
            (BODY, body),
            (NODE_ROOT, 0),
            (PATH_ROOT, 0),
        ];
        assert!(rt; count <= behind.len());
        let bytes = two_groups(alloc, &words, lengths, &behind[..count])?;
        assert_eq!(rt; fault_of(alloc, &bytes)?, answer, "{frames} {body} {count}");
    }
    Ok(())
}

// Too few bytes for a head come before the mark, and the mark before the size; the size comes before the digest, and the digest before
// the others.
#[test]
fn the_order_of_rules(rt: HostRuntime) -> Result<(), Fail> {
    let alloc = rt.alloc();
    for (left, mark, answer) in [
        (0, true, told(174, 6, 0, 48)),
        (47, true, told(174, 6, 47, 48)),
        (47, false, told(174, 6, 47, 48)),
        (48, false, told(174, 5, MARK, 0)),
        (48, true, told(174, 6, 48, 165)),
        (49, false, told(174, 5, MARK, 0)),
    ] {
        let part = part_of(alloc, &GROUP_1, &[5, 7])?;
        assert!(rt; left <= part.len());
        let mut bytes = volume_bytes(alloc, 1, DEFAULT, &[1])?;
        bytes.extend_from_slice(&part[..left])?;
        if !mark {
            bytes.truncate(174);
            bytes.extend_from_slice(&[0; 49][..left.min(49)])?;
        }
        assert_eq!(rt; fault_of(alloc, &bytes)?, answer, "{left} {mark}");
    }
    let good = two_groups(alloc, &[(REVISION, 9)], &[6], &[0; 7])?;
    let mut bytes = two_groups(alloc, &[(REVISION, 8)], &[6], &[0; 7])?;
    assert!(rt; good.len() == 462 && bytes.len() == 462);
    let mut damage = Damage {
        place: PLACE_2,
        rule: 1,
        kept: [0; 32],
        found: [0; 32],
    };
    damage.kept.copy_from_slice(&bytes[423..455]);
    damage.found.copy_from_slice(&good[423..455]);
    bytes[346] = 9;
    assert_eq!(rt; fault_of(alloc, &bytes)?, Some(LogFault::Damaged(damage)));
    bytes.truncate(461);
    assert_eq!(rt; fault_of(alloc, &bytes)?, told(PLACE_2, 6, 122, 123));
    Ok(())
}

// A sync and eight reads, each of which fails once.
#[test]
fn calls_that_fail(rt: HostRuntime) -> Result<(), Fail> {
    let alloc = rt.alloc();
    let bytes = two_groups(alloc, &[], &[6], &[0; 7])?;
    for call in 1..11 {
        let mut failing = Vec::new(alloc);
        failing.push(call)?;
        let mut volume = MemVolume::new(alloc, bytes.to_vec(alloc)?, failing)?;
        let fault = open(alloc, &mut volume).err();
        assert_eq!(rt;
            fault,
            if call < 10 {
                Some(LogFault::Failed)
            } else {
                None
            }
        );
        assert_eq!(rt; volume.as_slice(), bytes.as_slice());
    }
    Ok(())
}
