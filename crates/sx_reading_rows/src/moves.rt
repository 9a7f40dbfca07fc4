//! Moves of a cursor.
use crate::documents::{NONE, ORDERS, Row, records_of};
use std::test::Fail;
use sx_cursor::{Cursor, broken_link};
use sx_tree::record::Kind;
use sx_view::{Fault, Records};

#[test]
fn moves(rt: HostRuntime) -> Result<(), Fail> {
    let alloc = rt.alloc();
    let mut records = records_of(alloc, &ORDERS)?;
    let mut cursor = Cursor::new(alloc, &mut records, 7)?.ok_or("node 7 is there")?;
    assert!(rt; cursor.to_right(alloc)?);
    assert_eq!(rt; cursor.at(), 9);
    assert!(rt; !cursor.to_right(alloc)?);
    assert_eq!(rt; cursor.at(), 9);
    assert!(rt; cursor.to_left(alloc)?);
    assert!(rt; cursor.to_parent(alloc)?);
    assert_eq!(rt; cursor.at(), 4);
    assert!(rt; cursor.to_last(alloc)?);
    assert_eq!(rt; cursor.at(), 9);
    assert!(rt; cursor.to_first(alloc)?);
    assert_eq!(rt; cursor.record().kind, Kind::Array);
    assert!(rt; cursor.to(alloc, 15)?);
    assert_eq!(rt; cursor.record().label.as_bytes(), b"2".as_slice());
    assert!(rt; !cursor.to(alloc, 16)?);
    assert_eq!(rt; cursor.at(), 15);
    let again = cursor.into_records();
    assert!(rt; Cursor::new(alloc, again, 16)?.is_none());
    Ok(())
}

/// A link to a node that has no record.
#[test]
fn broken(rt: HostRuntime) -> Result<(), Fail> {
    let alloc = rt.alloc();
    let mut records = records_of(
        alloc,
        &[Row {
            number: 3,
            kind: 2,
            links: [NONE, NONE, NONE, NONE, 8],
            label: b"",
        }],
    )?;
    let mut cursor = Cursor::new(alloc, &mut records, 3)?.ok_or("node 3 is there")?;
    let last = cursor.to_last(alloc);
    assert_eq!(rt; last, Err(Fault::Damaged(broken_link(3, 8))));
    assert_eq!(rt; cursor.at(), 3);
    Ok(())
}
