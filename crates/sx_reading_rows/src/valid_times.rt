//! Objects that are valid at a time.
use crate::documents::{NONE, Row, records_of};
use std::alloc::Global;
use std::test::Fail;
use sx_cursor::{broken_link, endless, misplaced};
use sx_tree::numbers::Numbers;
use sx_tree::record::NodeRecord;
use sx_tree::text::Text;
use sx_valid::valid_at;
use sx_view::{Fault, MemRecords};

/// The nodes of `[{"validFrom":"2024-01-01T00:00:00Z","validTo":"2025-01-01T00:00:00Z"},{"validFrom":"2024-06-01T00:00:00Z"}]`.
const SPANS: [Row; 10] = [
    Row {
        number: 0,
        kind: 0,
        links: [NONE, NONE, NONE, 1, 1],
        label: b"",
    },
    Row {
        number: 1,
        kind: 2,
        links: [0, NONE, NONE, 2, 7],
        label: b"",
    },
    Row {
        number: 2,
        kind: 1,
        links: [1, NONE, 7, 3, 5],
        label: b"",
    },
    Row {
        number: 3,
        kind: 3,
        links: [2, NONE, 5, 4, 4],
        label: b"validFrom",
    },
    Row {
        number: 4,
        kind: 4,
        links: [3, NONE, NONE, NONE, NONE],
        label: b"2024-01-01T00:00:00Z",
    },
    Row {
        number: 5,
        kind: 3,
        links: [2, 3, NONE, 6, 6],
        label: b"validTo",
    },
    Row {
        number: 6,
        kind: 4,
        links: [5, NONE, NONE, NONE, NONE],
        label: b"2025-01-01T00:00:00Z",
    },
    Row {
        number: 7,
        kind: 1,
        links: [1, 2, NONE, 8, 8],
        label: b"",
    },
    Row {
        number: 8,
        kind: 3,
        links: [7, NONE, NONE, 9, 9],
        label: b"validFrom",
    },
    Row {
        number: 9,
        kind: 4,
        links: [8, NONE, NONE, NONE, NONE],
        label: b"2024-06-01T00:00:00Z",
    },
];

/// The nodes of `{"validTo":null,"validFrom":"2024-01-01T00:00:00Z","in":{"validFrom":"soon"},
/// "at":{"validFrom":"2024-01-01T00:00:00Z","validTo":7}}`.
const ODD: [Row; 16] = [
    Row {
        number: 0,
        kind: 0,
        links: [NONE, NONE, NONE, 1, 1],
        label: b"",
    },
    Row {
        number: 1,
        kind: 1,
        links: [0, NONE, NONE, 2, 8],
        label: b"",
    },
    Row {
        number: 2,
        kind: 3,
        links: [1, NONE, 4, 3, 3],
        label: b"validTo",
    },
    Row {
        number: 3,
        kind: 7,
        links: [2, NONE, NONE, NONE, NONE],
        label: b"",
    },
    Row {
        number: 4,
        kind: 3,
        links: [1, 2, 6, 5, 5],
        label: b"validFrom",
    },
    Row {
        number: 5,
        kind: 4,
        links: [4, NONE, NONE, NONE, NONE],
        label: b"2024-01-01T00:00:00Z",
    },
    Row {
        number: 6,
        kind: 3,
        links: [1, 4, 8, 7, 7],
        label: b"in",
    },
    Row {
        number: 7,
        kind: 1,
        links: [6, NONE, NONE, 10, 10],
        label: b"",
    },
    Row {
        number: 8,
        kind: 3,
        links: [1, 6, NONE, 9, 9],
        label: b"at",
    },
    Row {
        number: 9,
        kind: 1,
        links: [8, NONE, NONE, 12, 14],
        label: b"",
    },
    Row {
        number: 10,
        kind: 3,
        links: [7, NONE, NONE, 11, 11],
        label: b"validFrom",
    },
    Row {
        number: 11,
        kind: 4,
        links: [10, NONE, NONE, NONE, NONE],
        label: b"soon",
    },
    Row {
        number: 12,
        kind: 3,
        links: [9, NONE, 14, 13, 13],
        label: b"validFrom",
    },
    Row {
        number: 13,
        kind: 4,
        links: [12, NONE, NONE, NONE, NONE],
        label: b"2024-01-01T00:00:00Z",
    },
    Row {
        number: 14,
        kind: 3,
        links: [9, 12, NONE, 15, 15],
        label: b"validTo",
    },
    Row {
        number: 15,
        kind: 5,
        links: [14, NONE, NONE, NONE, NONE],
        label: b"7",
    },
];

/// The valid objects, by the default names.
fn valid(
    alloc: Global,
    records: &mut MemRecords<NodeRecord>,
    time: i64,
    count: u32,
) -> Result<Result<Numbers, Fault>, Fail> {
    let from = Text::new(alloc, b"validFrom")?;
    let to = Text::new(alloc, b"validTo")?;
    Ok(valid_at(alloc, records, &from, &to, time, count))
}

/// At an instant at which an object begins it is valid, and at one at which it ends it is not.
#[test]
fn four_moments(rt: HostRuntime) -> Result<(), Fail> {
    let alloc = rt.alloc();
    let mut records = records_of(alloc, &SPANS)?;
    let rows: [(i64, &[u32]); 5] = [
        (1_704_067_199_999, &[]),
        (1_704_067_200_000, &[2]),
        (1_717_199_999_999, &[2]),
        (1_717_200_000_000, &[2, 7]),
        (1_735_689_600_000, &[7]),
    ];
    for (time, expected) in rows {
        assert_eq!(rt; valid(alloc, &mut records, time, 10)??.as_slice(), expected);
    }
    Ok(())
}

/// Null is an open end; a string that is no instant begins nothing, and a number ends nothing.
#[test]
fn other_fields(rt: HostRuntime) -> Result<(), Fail> {
    let alloc = rt.alloc();
    let mut records = records_of(alloc, &ODD)?;
    assert_eq!(rt;
        valid(alloc, &mut records, 1_704_067_200_000, 16)??.as_slice(),
        [1].as_slice()
    );
    let mut nothing = records_of(alloc, &[])?;
    assert_eq!(rt; valid(alloc, &mut nothing, 0, 1)??.len(), 0);
    Ok(())
}

/// Records that are those of no document, with what is told of each.
#[test]
fn no_documents(rt: HostRuntime) -> Result<(), Fail> {
    let alloc = rt.alloc();
    let mut bare = records_of(
        alloc,
        &[
            Row {
                number: 0,
                kind: 0,
                links: [NONE, NONE, NONE, 1, 1],
                label: b"",
            },
            Row {
                number: 1,
                kind: 1,
                links: [0, NONE, NONE, 2, 2],
                label: b"",
            },
            Row {
                number: 2,
                kind: 3,
                links: [1, NONE, NONE, NONE, NONE],
                label: b"validTo",
            },
        ],
    )?;
    let no_value = valid(alloc, &mut bare, 0, 9)?.map(|found| found.len());
    assert_eq!(rt; no_value, Err(Fault::Damaged(misplaced(2, 0))));
    let mut broken = records_of(
        alloc,
        &[
            Row {
                number: 0,
                kind: 0,
                links: [NONE, NONE, NONE, 1, 1],
                label: b"",
            },
            Row {
                number: 1,
                kind: 2,
                links: [0, NONE, NONE, 2, 2],
                label: b"",
            },
        ],
    )?;
    let link = valid(alloc, &mut broken, 0, 9)?.map(|found| found.len());
    assert_eq!(rt; link, Err(Fault::Damaged(broken_link(1, 2))));
    let mut round = records_of(
        alloc,
        &[
            Row {
                number: 0,
                kind: 0,
                links: [NONE, NONE, NONE, 1, 1],
                label: b"",
            },
            Row {
                number: 1,
                kind: 2,
                links: [0, NONE, 1, NONE, NONE],
                label: b"",
            },
        ],
    )?;
    let round_walk = valid(alloc, &mut round, 0, 9)?.map(|found| found.len());
    assert_eq!(rt; round_walk, Err(Fault::Damaged(endless(9))));
    Ok(())
}
