//! Documents in memory.
use std::alloc::Global;
use std::test::Fail;
use sx_bytes::{Fields, FieldsOut};
use sx_record::Record;
use sx_tree::record::NodeRecord;
use sx_view::{MemRecords, RecordsMut};

/// No link.
pub(crate) const NONE: u32 = u32::MAX;

/// A node as its record's bytes have it: its number, the byte of its kind, its parent, its siblings to the left and to the
/// right, its first and its last child, and its label. Its counts, its hash and its path play no part here.
#[derive(Drop)]
pub(crate) struct Row {
    pub(crate) number: u32,
    pub(crate) kind: u8,
    pub(crate) links: [u32; 5],
    pub(crate) label: &'static [u8],
}

/// The nodes of `{"orders":[{"id":17,"state":"open","lines":[{"sku":"A-1","qty":2}]}]}`.
pub(crate) const ORDERS: [Row; 16] = [
    Row {
        number: 0,
        kind: 0,
        links: [NONE, NONE, NONE, 1, 1],
        label: b"",
    },
    Row {
        number: 1,
        kind: 1,
        links: [0, NONE, NONE, 2, 2],
        label: b"",
    },
    Row {
        number: 2,
        kind: 3,
        links: [1, NONE, NONE, 3, 3],
        label: b"orders",
    },
    Row {
        number: 3,
        kind: 2,
        links: [2, NONE, NONE, 4, 4],
        label: b"",
    },
    Row {
        number: 4,
        kind: 1,
        links: [3, NONE, NONE, 5, 9],
        label: b"",
    },
    Row {
        number: 5,
        kind: 3,
        links: [4, NONE, 7, 6, 6],
        label: b"id",
    },
    Row {
        number: 6,
        kind: 5,
        links: [5, NONE, NONE, NONE, NONE],
        label: b"17",
    },
    Row {
        number: 7,
        kind: 3,
        links: [4, 5, 9, 8, 8],
        label: b"state",
    },
    Row {
        number: 8,
        kind: 4,
        links: [7, NONE, NONE, NONE, NONE],
        label: b"open",
    },
    Row {
        number: 9,
        kind: 3,
        links: [4, 7, NONE, 10, 10],
        label: b"lines",
    },
    Row {
        number: 10,
        kind: 2,
        links: [9, NONE, NONE, 11, 11],
        label: b"",
    },
    Row {
        number: 11,
        kind: 1,
        links: [10, NONE, NONE, 12, 14],
        label: b"",
    },
    Row {
        number: 12,
        kind: 3,
        links: [11, NONE, 14, 13, 13],
        label: b"sku",
    },
    Row {
        number: 13,
        kind: 4,
        links: [12, NONE, NONE, NONE, NONE],
        label: b"A-1",
    },
    Row {
        number: 14,
        kind: 3,
        links: [11, 12, NONE, 15, 15],
        label: b"qty",
    },
    Row {
        number: 15,
        kind: 5,
        links: [14, NONE, NONE, NONE, NONE],
        label: b"2",
    },
];

/// The record of a node.
fn record_of(alloc: Global, row: &Row) -> Result<NodeRecord, Fail> {
    let mut out = FieldsOut::new(alloc);
    out.u8(row.kind)?;
    for link in row.links {
        out.u32(link)?;
    }
    out.u32(0)?;
    out.u32(0)?;
    out.u128(0)?;
    out.u32(0)?;
    out.u32(u32::try_from(row.label.len())?)?;
    out.bytes(row.label)?;
    let bytes = out.into_vec();
    let mut fields = Fields::new(&bytes);
    Ok(NodeRecord::decode(alloc, &mut fields)?.ok_or("a row is a record")?)
}

/// The records of these nodes.
pub(crate) fn records_of(alloc: Global, rows: &[Row]) -> Result<MemRecords<NodeRecord>, Fail> {
    let mut records = MemRecords::new(alloc);
    for row in rows {
        records.put(alloc, row.number, record_of(alloc, row)?)?;
    }
    Ok(records)
}
