//! The nodes to which paths lead.
use crate::documents::{NONE, ORDERS, Row, records_of};
use std::alloc::Global;
use std::test::Fail;
use sx_cursor::{broken_link, endless, misplaced};
use sx_select::{parse, select};
use sx_tree::bytes::Bytes;
use sx_tree::numbers::Numbers;
use sx_tree::record::NodeRecord;
use sx_view::{Fault, MemRecords, Records};

/// What the path of this text selects.
fn selected<N: Records<NodeRecord>>(
    alloc: Global,
    records: &mut N,
    text: &[u8],
    count: u32,
) -> Result<Numbers, Fail> {
    let path = parse(alloc, text)?.ok_or("the text is a path")?;
    Ok(select(alloc, records, &path, count)?)
}

/// Paths through the orders.
#[test]
fn orders(rt: HostRuntime) -> Result<(), Fail> {
    let alloc = rt.alloc();
    let mut records = records_of(alloc, &ORDERS)?;
    let rows: [(&[u8], &[u32]); 12] = [
        (b"//state", &[8]),
        (b"/orders[]/lines[]/qty", &[15]),
        (b".", &[1]),
        (b"/orders", &[3]),
        (b".//lines[]", &[11]),
        (b"//orders//qty", &[15]),
        (b"/\"or\\u0064ers\"[]/id", &[6]),
        (b"//\"state\"", &[8]),
        (b"/none", &[]),
        (b"[]", &[]),
        (b"/id", &[]),
        (b"//state[]", &[]),
    ];
    for (text, expected) in rows {
        let found = selected(alloc, &mut records, text, 16)?;
        assert_eq!(rt; found.as_slice(), expected);
    }
    Ok(())
}

/// A node, as a row.
fn row(number: u32, kind: u8, links: [u32; 5], label: &'static [u8]) -> Row {
    Row {
        number,
        kind,
        links,
        label,
    }
}

/// The nodes of `{"a":[{"a":[1]},[2]],"\n":3}`: matches inside matches stand in preorder, each once.
#[test]
fn inside_one_another(rt: HostRuntime) -> Result<(), Fail> {
    let alloc = rt.alloc();
    let mut records = records_of(
        alloc,
        &[
            row(0, 0, [NONE, NONE, NONE, 1, 1], b""),
            row(1, 1, [0, NONE, NONE, 2, 10], b""),
            row(2, 3, [1, NONE, 10, 3, 3], b"a"),
            row(3, 2, [2, NONE, NONE, 4, 8], b""),
            row(4, 1, [3, NONE, 8, 5, 5], b""),
            row(5, 3, [4, NONE, NONE, 6, 6], b"a"),
            row(6, 2, [5, NONE, NONE, 7, 7], b""),
            row(7, 5, [6, NONE, NONE, NONE, NONE], b"1"),
            row(8, 2, [3, 4, NONE, 9, 9], b""),
            row(9, 5, [8, NONE, NONE, NONE, NONE], b"2"),
            row(10, 3, [1, 2, NONE, 11, 11], b"\n"),
            row(11, 5, [10, NONE, NONE, NONE, NONE], b"3"),
        ],
    )?;
    let rows: [(&[u8], &[u32]); 6] = [
        (b"//a", &[3, 6]),
        (b"//a[]", &[4, 7, 8]),
        (b"//a[][]", &[9]),
        (b"//a//a", &[6]),
        (b"/\"\\n\"", &[11]),
        (b"/a[]/a[]", &[7]),
    ];
    for (text, expected) in rows {
        let found = selected(alloc, &mut records, text, 12)?;
        assert_eq!(rt; found.as_slice(), expected);
    }
    Ok(())
}

/// Nothing is selected in a document without a child, nor where there is none.
#[test]
fn nothing(rt: HostRuntime) -> Result<(), Fail> {
    let alloc = rt.alloc();
    let mut empty = records_of(alloc, &[row(0, 0, [NONE; 5], b"")])?;
    assert_eq!(rt; selected(alloc, &mut empty, b".", 1)?.len(), 0);
    assert_eq!(rt; selected(alloc, &mut empty, b"//a", 1)?.len(), 0);
    let mut none = MemRecords::new(alloc);
    assert_eq!(rt; selected(alloc, &mut none, b".", 1)?.len(), 0);
    Ok(())
}

/// 256 arrays, each the only element of the one before, and a number in the last: a path of 256 steps leads to it. One of 257
/// steps is none.
#[test]
fn steps(rt: HostRuntime) -> Result<(), Fail> {
    let alloc = rt.alloc();
    let mut rows = Vec::new(alloc);
    rows.push(row(0, 0, [NONE, NONE, NONE, 1, 1], b""))?;
    for k in 1..257 {
        rows.push(row(k, 2, [k - 1, NONE, NONE, k + 1, k + 1], b""))?;
    }
    rows.push(row(257, 5, [256, NONE, NONE, NONE, NONE], b"1"))?;
    let mut records = records_of(alloc, &rows)?;
    let mut text = Bytes::new(alloc);
    for _ in 0..256 {
        text.extend_from_slice(b"[]")?;
    }
    let found = selected(alloc, &mut records, text.as_slice(), 258)?;
    assert_eq!(rt; found.as_slice(), [257].as_slice());
    text.extend_from_slice(b"[]")?;
    assert!(rt; parse(alloc, text.as_slice())?.is_none());
    Ok(())
}

/// Records that are those of no document, with what is told of each.
#[test]
fn damage(rt: HostRuntime) -> Result<(), Fail> {
    let alloc = rt.alloc();
    let path = parse(alloc, b"//a")?.ok_or("the text is a path")?;
    let document = row(0, 0, [NONE, NONE, NONE, 1, 1], b"");
    let mut cut = records_of(alloc, &[document])?;
    let link = select(alloc, &mut cut, &path, 9);
    assert_eq!(rt; link.err(), Some(Fault::Damaged(broken_link(0, 1))));
    let mut round = records_of(
        alloc,
        &[
            row(0, 0, [NONE, NONE, NONE, 1, 1], b""),
            row(1, 2, [0, NONE, NONE, 1, 1], b""),
        ],
    )?;
    let endless_search = select(alloc, &mut round, &path, 9);
    assert_eq!(rt; endless_search.err(), Some(Fault::Damaged(endless(9))));
    let mut bare = records_of(
        alloc,
        &[
            row(0, 0, [NONE, NONE, NONE, 1, 1], b""),
            row(1, 1, [0, NONE, NONE, 2, 2], b""),
            row(2, 3, [1, NONE, NONE, NONE, NONE], b"a"),
        ],
    )?;
    let no_value = select(alloc, &mut bare, &path, 9);
    assert_eq!(rt; no_value.err(), Some(Fault::Damaged(misplaced(2, 0))));
    Ok(())
}
