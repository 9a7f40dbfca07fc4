//! Volumes are made: what the calls leave, and which volumes are unborn.
ghost use Rattle.std.specs.Prelude.{IfOk};
ghost use Rattle.sx_log.specs.Creating.{CanBeBorn, birth_of};

use crate::openings::fault_of;
use sha2::{Digest, Sha256};
use std::alloc::{AllocError, Global};
use std::test::Fail;
use sx_log::{Birth, LogFault, create};
use sx_tree::text::Text;
use sx_volume::{FuseVolume, MemVolume};

/// The SHA-256 of the birth part of the defaults, by another program.
const DIGEST: [u8; 32] = [
    0x48, 0x2e, 0xf9, 0x60, 0x1e, 0x23, 0x36, 0x6e, 0x28, 0x8d, 0xc5, 0xf4, 0x2d, 0xc6, 0x63, 0x60,
    0x97, 0xd5, 0xf7, 0xa1, 0x9e, 0xda, 0xe2, 0x6b, 0x7d, 0xd4, 0x43, 0xd2, 0x7a, 0x7d, 0x54, 0xfc,
];

/// A birth part that may break a rule, under the digest that it ought to have.
#[derive(Clone, Copy)]
pub(crate) struct Part<'a> {
    pub(crate) format: u8,
    pub(crate) window: u8,
    pub(crate) from_length: u8,
    pub(crate) from: &'a [u8],
    pub(crate) to_length: u8,
    pub(crate) to: &'a [u8],
    /// What stands behind the names.
    pub(crate) filler: u8,
}

/// The birth part of the defaults.
pub(crate) const DEFAULT: Part<'static> = Part {
    format: 0,
    window: 3,
    from_length: 9,
    from: b"validFrom",
    to_length: 7,
    to: b"validTo",
    filler: 0,
};

// The birth of the defaults.
pub(crate) fn default_birth(alloc: Global) -> Result<Birth, Fail>
    ensures { IfOk result (λ birth. CanBeBorn (birth_of birth)) }
{
    Ok(Birth {
        window: 3,
        from: Text::new(alloc, b"validFrom")?,
        to: Text::new(alloc, b"validTo")?,
    })
}

// The bytes of a volume: this first byte, the part, and these bytes behind it.
pub(crate) fn volume_bytes(
    alloc: Global,
    first: u8,
    part: Part,
    behind: &[u8],
) -> Result<Vec<u8>, AllocError> {
    let mut fields = Vec::new(alloc);
    fields.extend_from_slice(b"SXSNAP01")?;
    fields.push(part.format)?;
    fields.push(part.window)?;
    put_name(&mut fields, part.from_length, part.from, part.filler)?;
    put_name(&mut fields, part.to_length, part.to, part.filler)?;
    let mut bytes = Vec::new(alloc);
    bytes.push(first)?;
    bytes.extend_from_slice(&fields)?;
    bytes.extend_from_slice(&Sha256::digest(fields.as_slice()))?;
    bytes.extend_from_slice(behind)?;
    Ok(bytes)
}

fn put_name(out: &mut Vec<u8>, length: u8, name: &[u8], filler: u8) -> Result<(), AllocError> {
    out.push(length)?;
    out.extend_from_slice(name)?;
    for _ in name.len()..64 {
        out.push(filler)?;
    }
    Ok(())
}

// What making a volume over these bytes answers.
fn made_over(alloc: Global, bytes: &[u8]) -> Result<Result<(), LogFault>, Fail> {
    let mut volume = MemVolume::new(alloc, bytes.to_vec(alloc)?, Vec::new(alloc))?;
    let birth = default_birth(alloc)?;
    Ok(create(alloc, &mut volume, &birth))
}

// Seven calls over an empty volume, stopped after each.
#[test]
fn seven_calls(rt: HostRuntime) -> Result<(), Fail> {
    let alloc = rt.alloc();
    for calls in 0..8 {
        let empty = MemVolume::new(alloc, Vec::new(alloc), Vec::new(alloc))?;
        let mut fuse = FuseVolume::new(empty, calls);
        let birth = default_birth(alloc)?;
        let answer = create(alloc, &mut fuse, &birth);
        let stopped = if calls < 7 {
            Err(LogFault::Failed)
        } else {
            Ok(())
        };
        assert_eq!(rt; answer, stopped, "after {calls} calls");
        let left = fuse.into_inner();
        let again = made_over(alloc, left.as_slice())?;
        let answer = if calls < 6 {
            Ok(())
        } else {
            Err(LogFault::Born)
        };
        assert_eq!(rt; again, answer, "again after {calls} calls");
    }
    Ok(())
}

// The 174 bytes of a newborn volume, over each kind of unborn one.
#[test]
fn newborn_volumes(rt: HostRuntime) -> Result<(), Fail> {
    let alloc = rt.alloc();
    let newborn = volume_bytes(alloc, 1, DEFAULT, &[0])?;
    assert_eq!(rt; newborn.len(), 174);
    assert_eq!(rt; &newborn[141..173], DIGEST.as_slice());
    let whole = volume_bytes(alloc, 7, DEFAULT, &[0])?;
    let unborn: [&[u8]; 6] = [b"", b"h", b"\0", b"\x01", b"\0 and more", &whole];
    for bytes in unborn {
        let mut volume = MemVolume::new(alloc, bytes.to_vec(alloc)?, Vec::new(alloc))?;
        let birth = default_birth(alloc)?;
        assert_eq!(rt; create(alloc, &mut volume, &birth), Ok(()));
        assert_eq!(rt; volume.as_slice(), newborn.as_slice());
    }
    Ok(())
}

// Volumes of 174 bytes and their neighbours.
#[test]
fn unborn_and_not_ours(rt: HostRuntime) -> Result<(), Fail> {
    let alloc = rt.alloc();
    let long = [b'a'; 64];
    let table: [(u8, Part, &[u8], Result<(), LogFault>); 20] = [
        (7, DEFAULT, &[0], Ok(())),
        (0, DEFAULT, &[0], Ok(())),
        (1, DEFAULT, &[0], Err(LogFault::Born)),
        (1, DEFAULT, &[1, 2, 3], Err(LogFault::Born)),
        (1, DEFAULT, &[], Err(LogFault::NotOurs { first: 1 })),
        (7, DEFAULT, &[1], Err(LogFault::NotOurs { first: 7 })),
        (7, DEFAULT, &[2], Err(LogFault::NotOurs { first: 7 })),
        (7, DEFAULT, &[], Err(LogFault::NotOurs { first: 7 })),
        (7, DEFAULT, &[0, 0], Err(LogFault::NotOurs { first: 7 })),
        (
            7,
            Part {
                window: 1,
                ..DEFAULT
            },
            &[0],
            Ok(()),
        ),
        (
            7,
            Part {
                window: 8,
                ..DEFAULT
            },
            &[0],
            Ok(()),
        ),
        (
            7,
            Part {
                from_length: 64,
                from: &long,
                ..DEFAULT
            },
            &[0],
            Ok(()),
        ),
        (
            7,
            Part {
                format: 2,
                ..DEFAULT
            },
            &[0],
            Err(LogFault::NotOurs { first: 7 }),
        ),
        (
            7,
            Part {
                window: 0,
                ..DEFAULT
            },
            &[0],
            Err(LogFault::NotOurs { first: 7 }),
        ),
        (
            7,
            Part {
                window: 9,
                ..DEFAULT
            },
            &[0],
            Err(LogFault::NotOurs { first: 7 }),
        ),
        (
            7,
            Part {
                from_length: 0,
                from: b"",
                ..DEFAULT
            },
            &[0],
            Err(LogFault::NotOurs { first: 7 }),
        ),
        (
            7,
            Part {
                to_length: 65,
                to: &long,
                ..DEFAULT
            },
            &[0],
            Err(LogFault::NotOurs { first: 7 }),
        ),
        (
            7,
            Part {
                to_length: 2,
                to: b"\xc3\x28",
                ..DEFAULT
            },
            &[0],
            Err(LogFault::NotOurs { first: 7 }),
        ),
        (
            7,
            Part {
                filler: 1,
                ..DEFAULT
            },
            &[0],
            Err(LogFault::NotOurs { first: 7 }),
        ),
        (
            7,
            Part {
                to_length: 9,
                to: b"validFrom",
                ..DEFAULT
            },
            &[0],
            Err(LogFault::NotOurs { first: 7 }),
        ),
    ];
    for (first, part, behind, answer) in table {
        let bytes = volume_bytes(alloc, first, part, behind)?;
        assert_eq!(rt; made_over(alloc, &bytes)?, answer);
        let opened = match answer {
            Ok(()) => LogFault::Unborn,
            Err(fault) => fault,
        };
        if opened != LogFault::Born {
            assert_eq!(rt; fault_of(alloc, &bytes)?, Some(opened));
        }
    }
    Ok(())
}

// A changed digest, another magic, and other bytes.
#[test]
fn other_bytes(rt: HostRuntime) -> Result<(), Fail> {
    let alloc = rt.alloc();
    assert_eq!(rt;
        made_over(alloc, b"hello")?,
        Err(LogFault::NotOurs { first: 104 })
    );
    for (place, first, answer) in [
        (172, 7, Err(LogFault::NotOurs { first: 7 })),
        (1, 7, Err(LogFault::NotOurs { first: 7 })),
        (172, 1, Err(LogFault::Born)),
        (8, 1, Err(LogFault::NotOurs { first: 1 })),
    ] {
        let mut bytes = volume_bytes(alloc, first, DEFAULT, &[0])?;
        assert!(rt; place < bytes.len());
        bytes[place] ^= 1;
        assert_eq!(rt; made_over(alloc, &bytes)?, answer);
    }
    Ok(())
}
