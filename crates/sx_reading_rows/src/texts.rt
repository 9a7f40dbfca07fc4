//! The texts of nodes.
use crate::documents::{NONE, ORDERS, Row, records_of};
use std::test::Fail;
use sx_cursor::{broken_link, endless, misplaced};
use sx_text::text;
use sx_tree::bytes::Bytes;
use sx_view::{Fault, Records};

/// Nodes of the orders with their texts: the whole, an object, a Key, a string and a number.
#[test]
fn orders(rt: HostRuntime) -> Result<(), Fail> {
    let alloc = rt.alloc();
    let mut records = records_of(alloc, &ORDERS)?;
    let rows: [(u32, &[u8]); 5] = [
        (
            0,
            b"{\"orders\":[{\"id\":17,\"state\":\"open\",\"lines\":[{\"sku\":\"A-1\",\"qty\":2}]}]}",
        ),
        (
            4,
            b"{\"id\":17,\"state\":\"open\",\"lines\":[{\"sku\":\"A-1\",\"qty\":2}]}",
        ),
        (7, b"\"state\":\"open\""),
        (13, b"\"A-1\""),
        (15, b"2"),
    ];
    for (node, expected) in rows {
        let mut out = Bytes::new(alloc);
        assert!(rt; text(alloc, &mut records, node, 16, &mut out)?);
        assert_eq!(rt; out.as_slice(), expected);
    }
    let mut out = Bytes::new(alloc);
    assert!(rt; !text(alloc, &mut records, 16, 16, &mut out)?);
    assert_eq!(rt; out.len(), 0);
    Ok(())
}

/// The nodes of `[true,false,null,"\n"]`, and an empty document.
#[test]
fn scalars_and_nothing(rt: HostRuntime) -> Result<(), Fail> {
    let alloc = rt.alloc();
    let mut records = records_of(
        alloc,
        &[
            Row {
                number: 0,
                kind: 0,
                links: [NONE, NONE, NONE, 1, 1],
                label: b"",
            },
            Row {
                number: 1,
                kind: 2,
                links: [0, NONE, NONE, 2, 5],
                label: b"",
            },
            Row {
                number: 2,
                kind: 6,
                links: [1, NONE, 3, NONE, NONE],
                label: b"\x01",
            },
            Row {
                number: 3,
                kind: 6,
                links: [1, 2, 4, NONE, NONE],
                label: b"\x00",
            },
            Row {
                number: 4,
                kind: 7,
                links: [1, 3, 5, NONE, NONE],
                label: b"",
            },
            Row {
                number: 5,
                kind: 4,
                links: [1, 4, NONE, NONE, NONE],
                label: b"\n",
            },
        ],
    )?;
    let mut out = Bytes::new(alloc);
    assert!(rt; text(alloc, &mut records, 0, 6, &mut out)?);
    assert_eq!(rt; out.as_slice(), b"[true,false,null,\"\\n\"]".as_slice());
    let mut empty = records_of(
        alloc,
        &[Row {
            number: 0,
            kind: 0,
            links: [NONE; 5],
            label: b"",
        }],
    )?;
    let mut nothing = Bytes::new(alloc);
    assert!(rt; text(alloc, &mut empty, 0, 1, &mut nothing)?);
    assert_eq!(rt; nothing.len(), 0);
    Ok(())
}

/// Records that are those of no document, with what is told of each; what was written before is still there.
#[test]
fn damage(rt: HostRuntime) -> Result<(), Fail> {
    let alloc = rt.alloc();
    let mut no_child = records_of(
        alloc,
        &[Row {
            number: 0,
            kind: 0,
            links: [NONE, NONE, NONE, 1, 1],
            label: b"",
        }],
    )?;
    let mut out = Bytes::new(alloc);
    out.push(b'x')?;
    let link = text(alloc, &mut no_child, 0, 9, &mut out);
    assert_eq!(rt; link, Err(Fault::Damaged(broken_link(0, 1))));
    assert_eq!(rt; out.as_slice(), b"x".as_slice());
    let mut round = records_of(
        alloc,
        &[Row {
            number: 1,
            kind: 2,
            links: [NONE, NONE, NONE, 1, 1],
            label: b"",
        }],
    )?;
    let endless_walk = text(alloc, &mut round, 1, 9, &mut out);
    assert_eq!(rt; endless_walk, Err(Fault::Damaged(endless(9))));
    let mut bare = records_of(
        alloc,
        &[Row {
            number: 1,
            kind: 3,
            links: [NONE; 5],
            label: b"a",
        }],
    )?;
    let no_value = text(alloc, &mut bare, 1, 9, &mut out);
    assert_eq!(rt; no_value, Err(Fault::Damaged(misplaced(1, 0))));
    let mut wrong = records_of(
        alloc,
        &[
            Row {
                number: 1,
                kind: 2,
                links: [NONE, NONE, NONE, 2, 2],
                label: b"",
            },
            Row {
                number: 2,
                kind: 3,
                links: [1, NONE, NONE, NONE, NONE],
                label: b"a",
            },
        ],
    )?;
    let key_in_array = text(alloc, &mut wrong, 1, 9, &mut out);
    assert_eq!(rt; key_in_array, Err(Fault::Damaged(misplaced(2, 3))));
    assert_eq!(rt; out.as_slice(), b"x".as_slice());
    Ok(())
}
