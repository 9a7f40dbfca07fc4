//! The axes of nodes.
use crate::documents::{NONE, ORDERS, Row, records_of};
use std::alloc::Global;
use std::test::Fail;
use sx_axes::walk;
use sx_cursor::{broken_link, endless};
use sx_tree::numbers::Numbers;
use sx_tree::query::Axis;
use sx_tree::record::NodeRecord;
use sx_view::{Fault, MemRecords, Records};

/// All that the walk lists.
fn listed<N: Records<NodeRecord>>(
    alloc: Global,
    records: &mut N,
    axis: Axis,
    node: u32,
    count: u32,
) -> Result<Numbers, Fault> {
    let mut found = Numbers::new(alloc);
    if let Some(mut steps) = walk(alloc, records, axis, node, count)? {
        while let Some(step) = steps.next() {
            found.push(step?)?;
        }
    }
    Ok(found)
}

/// Every axis on the orders, as the definition lists them.
#[test]
fn orders(rt: HostRuntime) -> Result<(), Fail> {
    let alloc = rt.alloc();
    let mut records = records_of(alloc, &ORDERS)?;
    let rows: [(Axis, u32, &[u32]); 14] = [
        (Axis::Ancestor, 8, &[7, 4, 3, 2, 1, 0]),
        (Axis::Following, 8, &[9, 10, 11, 12, 13, 14, 15]),
        (Axis::Preceding, 8, &[6, 5]),
        (Axis::FollowingSibling, 5, &[7, 9]),
        (Axis::PrecedingSibling, 9, &[7, 5]),
        (Axis::Descendant, 9, &[10, 11, 12, 13, 14, 15]),
        (Axis::Child, 4, &[5, 7, 9]),
        (Axis::Child, 15, &[]),
        (Axis::Descendant, 6, &[]),
        (Axis::Following, 0, &[]),
        (Axis::Preceding, 15, &[13, 12, 8, 7, 6, 5]),
        (Axis::Following, 5, &[7, 8, 9, 10, 11, 12, 13, 14, 15]),
        (Axis::FollowingSibling, 0, &[]),
        (Axis::Ancestor, 0, &[]),
    ];
    for (axis, node, expected) in rows {
        let found = listed(alloc, &mut records, axis, node, 16)?;
        assert_eq!(rt; found.as_slice(), expected);
    }
    assert!(rt; walk(alloc, &mut records, Axis::Child, 16, 16)?.is_none());
    Ok(())
}

/// The nodes of `[1,2,3]`, where the links to the right of the first and of the last element are these.
fn three(alloc: Global, first: u32, last: u32) -> Result<MemRecords<NodeRecord>, Fail> {
    records_of(
        alloc,
        &[
            Row {
                number: 0,
                kind: 0,
                links: [NONE, NONE, NONE, 1, 1],
                label: b"",
            },
            Row {
                number: 1,
                kind: 2,
                links: [0, NONE, NONE, 2, 4],
                label: b"",
            },
            Row {
                number: 2,
                kind: 5,
                links: [1, NONE, first, NONE, NONE],
                label: b"1",
            },
            Row {
                number: 3,
                kind: 5,
                links: [1, 2, 4, NONE, NONE],
                label: b"2",
            },
            Row {
                number: 4,
                kind: 5,
                links: [1, 3, last, NONE, NONE],
                label: b"3",
            },
        ],
    )
}

/// Links that lead on for ever, and links to nodes that have no record: the walk goes as far as it can, tells of it, and ends.
#[test]
fn damage(rt: HostRuntime) -> Result<(), Fail> {
    let alloc = rt.alloc();
    let mut round = three(alloc, 2, NONE)?;
    let endless_child = listed(alloc, &mut round, Axis::Child, 1, 5);
    assert_eq!(rt; endless_child.err(), Some(Fault::Damaged(endless(5))));
    let mut cut = three(alloc, 3, 9)?;
    let mut steps = walk(alloc, &mut cut, Axis::Descendant, 0, 5)?.ok_or("the document is there")?;
    for expected in [1, 2, 3, 4] {
        assert_eq!(rt; steps.next(), Some(Ok(expected)));
    }
    assert_eq!(rt; steps.next(), Some(Err(Fault::Damaged(broken_link(4, 9)))));
    assert!(rt; steps.next().is_none());
    let again = steps.into_records();
    let sibling = listed(alloc, again, Axis::FollowingSibling, 4, 5);
    assert_eq!(rt; sibling.err(), Some(Fault::Damaged(broken_link(4, 9))));
    let mut whole = three(alloc, 3, NONE)?;
    let few = listed(alloc, &mut whole, Axis::Preceding, 4, 2);
    assert_eq!(rt; few.err(), Some(Fault::Damaged(endless(2))));
    let back = listed(alloc, &mut whole, Axis::Preceding, 4, 5)?;
    assert_eq!(rt; back.as_slice(), [3, 2].as_slice());
    Ok(())
}
