//! Bodies by hand.
use crate::{WholeFault, read, write};
use std::alloc::Global;
use std::process::Abort;
use std::test::Fail;
use sx_bytes::{FieldsOut, number_damage};
use sx_paths::PathTable;

/// The record of the empty document's node.
const DOCUMENT: &[u8] =
    b"\x00\xff\xff\xff\xff\xff\xff\xff\xff\xff\xff\xff\xff\xff\xff\xff\xff\xff\xff\xff\xff\x00\x00\x00\x00\x00\x00\x00\x00\x6e\x34\x0b\x9c\xff\xb3\x7a\x98\x9c\xa5\x44\xe6\xbb\x78\x0a\x2c\x00\x00\x00\x00\x00\x00\x00\x00";

/// The record of the path of an array's elements, on which two values stand.
const ITEMS: &[u8] = b"\x00\x00\x00\x01\x01\x00\x00\x00\x02\x00\x00\x00\x00";

/// The record of the top path.
const TOP: &[u8] = b"\x00\x00\x00\x00\x00\x00\x00\x00\x01\x00\x00\x00\x00";

/// The body with nodes of these numbers, these paths, and these bytes behind.
fn body(alloc: Global, numbers: &[u32], paths: &[&[u8]], behind: &[u8]) -> Result<Vec<u8>, Fail> {
    let mut out = FieldsOut::new(alloc);
    out.u32(u32::try_from(numbers.len())?)?;
    for number in numbers {
        out.u32(*number)?;
        out.bytes(DOCUMENT)?;
    }
    out.u32(u32::try_from(paths.len())?)?;
    for path in paths {
        out.bytes(path)?;
    }
    out.bytes(behind)?;
    Ok(out.into_vec())
}

/// The bytes are no body: the rule, and what is found.
fn refuse(rt: &impl Abort, alloc: Global, bytes: &[u8], rule: u8, found: u64) {
    let fault = read(alloc, bytes, 7).err();
    let told = WholeFault::Damaged(number_damage(7, rule, 0, found));
    assert_eq!(rt; fault, Some(told));
}

#[test]
fn bodies(rt: HostRuntime) -> Result<(), Fail> {
    let alloc = rt.alloc();
    let bytes = body(alloc, &[0], &[], &[])?;
    assert_eq!(rt; bytes.len(), 65);
    for (numbers, paths) in [(&[0][..], &[][..]), (&[0, 5, 1_073_741_823], &[TOP, ITEMS])] {
        let bytes = body(alloc, numbers, paths, &[])?;
        let mut document = read(alloc, &bytes, 7)?;
        assert_eq!(rt; document.count as usize, numbers.len());
        assert_eq!(rt; document.path_count as usize, paths.len());
        assert_eq!(rt; document.nodes.numbers(alloc)?.as_slice(), numbers);
        let table = PathTable::load(alloc, &mut document.paths, document.path_count)?;
        let mut out = FieldsOut::new(alloc);
        write(alloc, &mut document.nodes, &table, &mut out)?;
        assert_eq!(rt; out.into_vec(), bytes);
    }
    refuse(&rt, alloc, &body(alloc, &[0], &[], &[9])?, 21, 1);
    refuse(&rt, alloc, &body(alloc, &[1, 0], &[], &[])?, 20, 0);
    refuse(
        &rt,
        alloc,
        &body(alloc, &[0, 1_073_741_824], &[], &[])?,
        20,
        1_073_741_824,
    );
    refuse(
        &rt,
        alloc,
        &body(alloc, &[0], &[TOP, DOCUMENT], &[])?,
        20,
        2,
    );
    refuse(&rt, alloc, &[0, 0, 0, 0, 0, 0], 21, 2);
    refuse(&rt, alloc, &[0, 0, 0], 21, 3);
    Ok(())
}
