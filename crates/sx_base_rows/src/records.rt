//! Records of nodes and of paths, and their bytes.
use std::alloc::Global;
use std::process::Abort;
use std::test::Fail;
use sx_bytes::{Fields, FieldsOut};
use sx_record::Record;
use sx_tree::record::{Kind, NodeRecord, PathRecord, Step};

/// A node: its bytes, its kind, its links, its numbers, and its label.
struct Row {
    bytes: &'static [u8],
    kind: Kind,
    links: [Option<u32>; 5],
    numbers: [u32; 3],
    hash: u128,
    label: &'static [u8],
}

/// The empty document; the nodes of `[1,2,3]`; and one node of each other kind.
const ROWS: [Row; 11] = [
    Row {
        bytes: b"\x00\xff\xff\xff\xff\xff\xff\xff\xff\xff\xff\xff\xff\xff\xff\xff\xff\xff\xff\xff\xff\x00\x00\x00\x00\x00\x00\x00\x00\x6e\x34\x0b\x9c\xff\xb3\x7a\x98\x9c\xa5\x44\xe6\xbb\x78\x0a\x2c\x00\x00\x00\x00\x00\x00\x00\x00",
        kind: Kind::Document,
        links: [None, None, None, None, None],
        numbers: [0, 0, 0],
        hash: 0x6e340b9cffb37a989ca544e6bb780a2c,
        label: b"",
    },
    Row {
        bytes: b"\x00\xff\xff\xff\xff\xff\xff\xff\xff\xff\xff\xff\xff\x00\x00\x00\x01\x00\x00\x00\x01\x00\x00\x00\x01\x00\x00\x00\x04\xb1\x57\xf3\x2f\x79\x47\xda\xcc\x9e\xb9\x42\x0b\xfd\x64\x9e\xd5\x00\x00\x00\x00\x00\x00\x00\x00",
        kind: Kind::Document,
        links: [None, None, None, Some(1), Some(1)],
        numbers: [1, 4, 0],
        hash: 0xb157f32f7947dacc9eb9420bfd649ed5,
        label: b"",
    },
    Row {
        bytes: b"\x02\x00\x00\x00\x00\xff\xff\xff\xff\xff\xff\xff\xff\x00\x00\x00\x02\x00\x00\x00\x04\x00\x00\x00\x03\x00\x00\x00\x03\x8c\xb6\x6d\x7a\x18\x61\x33\x2d\x06\xfb\x18\xe4\x41\x00\xeb\xa9\x00\x00\x00\x01\x00\x00\x00\x00",
        kind: Kind::Array,
        links: [Some(0), None, None, Some(2), Some(4)],
        numbers: [3, 3, 1],
        hash: 0x8cb66d7a1861332d06fb18e44100eba9,
        label: b"",
    },
    Row {
        bytes: b"\x05\x00\x00\x00\x01\xff\xff\xff\xff\x00\x00\x00\x03\xff\xff\xff\xff\xff\xff\xff\xff\x00\x00\x00\x00\x00\x00\x00\x00\xb1\x2e\xf9\xe8\x41\x9f\xa7\xee\xdb\xd0\x72\xf0\x78\x83\x7a\x3a\x00\x00\x00\x02\x00\x00\x00\x01\x31",
        kind: Kind::Number,
        links: [Some(1), None, Some(3), None, None],
        numbers: [0, 0, 2],
        hash: 0xb12ef9e8419fa7eedbd072f078837a3a,
        label: b"\x31",
    },
    Row {
        bytes: b"\x05\x00\x00\x00\x01\x00\x00\x00\x02\x00\x00\x00\x04\xff\xff\xff\xff\xff\xff\xff\xff\x00\x00\x00\x00\x00\x00\x00\x00\x46\x84\xb1\xd2\xa0\x3a\x2a\xe7\xd9\x5b\xea\xf9\xd5\xd5\x54\x3a\x00\x00\x00\x02\x00\x00\x00\x01\x32",
        kind: Kind::Number,
        links: [Some(1), Some(2), Some(4), None, None],
        numbers: [0, 0, 2],
        hash: 0x4684b1d2a03a2ae7d95beaf9d5d5543a,
        label: b"\x32",
    },
    Row {
        bytes: b"\x05\x00\x00\x00\x01\x00\x00\x00\x03\xff\xff\xff\xff\xff\xff\xff\xff\xff\xff\xff\xff\x00\x00\x00\x00\x00\x00\x00\x00\xaf\x56\x3f\x13\x01\x5a\x5a\x4a\xc9\x05\x10\x62\xa3\x30\x71\x34\x00\x00\x00\x02\x00\x00\x00\x01\x33",
        kind: Kind::Number,
        links: [Some(1), Some(3), None, None, None],
        numbers: [0, 0, 2],
        hash: 0xaf563f13015a5a4ac9051062a3307134,
        label: b"\x33",
    },
    Row {
        bytes: b"\x01\x00\x00\x00\x00\xff\xff\xff\xff\xff\xff\xff\xff\xff\xff\xff\xff\xff\xff\xff\xff\x00\x00\x00\x00\x00\x00\x00\x00\x4b\xf5\x12\x2f\x34\x45\x54\xc5\x3b\xde\x2e\xbb\x8c\xd2\xb7\xe3\x00\x00\x00\x01\x00\x00\x00\x00",
        kind: Kind::Object,
        links: [Some(0), None, None, None, None],
        numbers: [0, 0, 1],
        hash: 0x4bf5122f344554c53bde2ebb8cd2b7e3,
        label: b"",
    },
    Row {
        bytes: b"\x03\x00\x00\x00\x01\x00\x00\x00\x02\x00\x00\x00\x06\x00\x00\x00\x04\x00\x00\x00\x04\x00\x00\x00\x01\x00\x00\x00\x01\x12\x9e\x1e\x4d\x5b\x74\x15\x9d\x9c\xca\xdd\x68\xc3\x39\xe3\x28\x00\x00\x00\x09\x00\x00\x00\x02\xc3\xa4",
        kind: Kind::Key,
        links: [Some(1), Some(2), Some(6), Some(4), Some(4)],
        numbers: [1, 1, 9],
        hash: 0x129e1e4d5b74159d9ccadd68c339e328,
        label: b"\xc3\xa4",
    },
    Row {
        bytes: b"\x04\x00\x00\x00\x01\xff\xff\xff\xff\xff\xff\xff\xff\xff\xff\xff\xff\xff\xff\xff\xff\x00\x00\x00\x00\x00\x00\x00\x00\xfe\x43\x8e\x2b\xba\x96\xc4\x42\x09\x77\x61\x2e\xad\x77\x25\x76\x00\x00\x00\x02\x00\x00\x00\x02\x68\x69",
        kind: Kind::Str,
        links: [Some(1), None, None, None, None],
        numbers: [0, 0, 2],
        hash: 0xfe438e2bba96c4420977612ead772576,
        label: b"\x68\x69",
    },
    Row {
        bytes: b"\x06\x00\x00\x00\x01\xff\xff\xff\xff\xff\xff\xff\xff\xff\xff\xff\xff\xff\xff\xff\xff\x00\x00\x00\x00\x00\x00\x00\x00\x23\x47\xf5\xa2\xb0\x7e\x86\x17\xc5\x6f\xf8\xa8\xf8\x8f\x2d\x97\x00\x00\x00\x02\x00\x00\x00\x01\x01",
        kind: Kind::Bool,
        links: [Some(1), None, None, None, None],
        numbers: [0, 0, 2],
        hash: 0x2347f5a2b07e8617c56ff8a8f88f2d97,
        label: b"\x01",
    },
    Row {
        bytes: b"\x07\x00\x00\x00\x04\xff\xff\xff\xff\xff\xff\xff\xff\xff\xff\xff\xff\xff\xff\xff\xff\x00\x00\x00\x00\x00\x00\x00\x00\xca\x35\x87\x58\xf6\xd2\x7e\x6c\xf4\x52\x72\x93\x79\x77\xa7\x48\x00\x00\x00\x09\x00\x00\x00\x00",
        kind: Kind::Null,
        links: [Some(4), None, None, None, None],
        numbers: [0, 0, 9],
        hash: 0xca358758f6d27e6cf45272937977a748,
        label: b"",
    },
];

/// A key with the name `hi`.
const KEY: [u8; 55] = [
    3, 0, 0, 0, 0, 255, 255, 255, 255, 255, 255, 255, 255, 255, 255, 255, 255, 255, 255, 255, 255,
    0, 0, 0, 0, 0, 0, 0, 0, 0, 0, 0, 0, 0, 0, 0, 0, 0, 0, 0, 0, 0, 0, 0, 0, 0, 0, 0, 1, 0, 0, 0, 2,
    104, 105,
];

/// What makes bytes of no node out of those of the key: up to three bytes, each with its place.
const NO_NODES: [[(usize, u8); 3]; 15] = [
    // A kind above 7.
    [(0, 8); 3],
    // A link or a path number of 2^30.
    [(1, 0x40); 3],
    [(5, 0x40); 3],
    [(9, 0x40); 3],
    [(13, 0x40); 3],
    [(17, 0x40); 3],
    [(45, 0x40); 3],
    // A label of a kind that has none.
    [(0, 0); 3],
    [(0, 1); 3],
    [(0, 2); 3],
    [(0, 7); 3],
    // A number that is no literal, and a boolean of two bytes.
    [(0, 5); 3],
    [(0, 6); 3],
    // A boolean of value 2.
    [(0, 6), (52, 1), (53, 2)],
    // A name that is no UTF-8.
    [(54, 0xff); 3],
];

/// The bytes are read, are those that are written, and a copy is the same.
fn read<R: Record>(rt: &impl Abort, alloc: Global, bytes: &[u8]) -> Result<R, Fail> {
    let mut fields = Fields::new(bytes);
    let record = R::decode(alloc, &mut fields)?.ok_or("the bytes are a record")?;
    assert_eq!(rt; fields.left(), 0);
    let mut out = FieldsOut::new(alloc);
    out.u8(7)?;
    record.encode(&mut out)?;
    let written = out.into_vec();
    assert_eq!(rt; written.first(), Some(&7));
    assert_eq!(rt; written.get(1..), Some(bytes));
    assert!(rt; record.same(&record.copy(alloc)?));
    Ok(record)
}

/// The bytes are of no record, and none is taken.
fn refuse<R: Record>(rt: &impl Abort, alloc: Global, bytes: &[u8]) -> Result<(), Fail> {
    let mut fields = Fields::new(bytes);
    assert!(rt; R::decode(alloc, &mut fields)?.is_none());
    assert_eq!(rt; fields.left(), bytes.len());
    Ok(())
}

#[test]
fn nodes(rt: HostRuntime) -> Result<(), Fail> {
    let alloc = rt.alloc();
    for row in &ROWS {
        let node: NodeRecord = read(&rt, alloc, row.bytes)?;
        assert_eq!(rt; node.kind, row.kind);
        assert_eq!(rt;
            [node.parent, node.left, node.right, node.first, node.last],
            row.links
        );
        assert_eq!(rt; [node.children, node.descendants, node.path], row.numbers);
        assert_eq!(rt; node.hash, row.hash);
        assert_eq!(rt; node.label.as_bytes(), row.label);
    }
    fragment(&rt, alloc)
}

/// The body of the fragment that has the nodes of `[1,2,3]`: the leaf, the bits of its records and those of its
/// tombstones, and the records.
fn fragment(rt: &impl Abort, alloc: Global) -> Result<(), Fail> {
    let mut body = FieldsOut::new(alloc);
    body.u32(0)?;
    body.u64(31)?;
    body.u64(0)?;
    let mut records = FieldsOut::new(alloc);
    let sizes = [53, 53, 54, 54, 54];
    for (row, size) in ROWS[1..6].iter().zip(&sizes) {
        let before = records.len();
        read::<NodeRecord>(rt, alloc, row.bytes)?.encode(&mut records)?;
        assert_eq!(rt; records.len() - before, *size);
    }
    assert_eq!(rt; records.len(), 268);
    body.bytes(&records.into_vec())?;
    assert_eq!(rt; body.len(), 288);
    let head = [0, 0, 0, 0, 0, 0, 0, 0, 0, 0, 0, 31, 0, 0, 0, 0, 0, 0, 0, 0];
    assert_eq!(rt; body.into_vec().get(..20), Some(head.as_slice()));
    Ok(())
}

#[test]
fn no_nodes(rt: HostRuntime) -> Result<(), Fail> {
    let alloc = rt.alloc();
    for changes in &NO_NODES {
        let mut bytes = KEY;
        for (place, byte) in changes {
            assert!(rt; *place < 55);
            bytes[*place] = *byte;
        }
        refuse::<NodeRecord>(&rt, alloc, &bytes)?;
    }
    for len in 0..KEY.len() {
        refuse::<NodeRecord>(&rt, alloc, &KEY[..len])?;
    }
    Ok(())
}

#[test]
fn paths(rt: HostRuntime) -> Result<(), Fail> {
    let alloc = rt.alloc();
    let top: PathRecord = read(
        &rt,
        alloc,
        b"\x00\x00\x00\x00\x00\x00\x00\x00\x01\x00\x00\x00\x00",
    )?;
    assert_eq!(rt; (top.parent, top.count), (0, 1));
    assert!(rt; matches!(top.step, Step::Top));
    let item: PathRecord = read(
        &rt,
        alloc,
        b"\x00\x00\x00\x01\x01\x00\x00\x00\x03\x00\x00\x00\x00",
    )?;
    assert_eq!(rt; (item.parent, item.count), (1, 3));
    assert!(rt; matches!(item.step, Step::Item));
    let name: PathRecord = read(
        &rt,
        alloc,
        b"\x00\x00\x00\x02\x02\x00\x00\x01\x02\x00\x00\x00\x01\x61",
    )?;
    assert_eq!(rt; (name.parent, name.count), (2, 258));
    match &name.step {
        Step::Name(name) => assert_eq!(rt; name.as_bytes(), b"a".as_slice()),
        Step::Top | Step::Item => assert!(rt; false),
    }
    assert!(rt; !top.same(&item) && !item.same(&name));
    let refused: [&[u8]; 5] = [
        b"\x40\x00\x00\x00\x01\x00\x00\x00\x03\x00\x00\x00\x00",
        b"\x00\x00\x00\x01\x03\x00\x00\x00\x03\x00\x00\x00\x00",
        b"\x00\x00\x00\x01\x01\x00\x00\x00\x03\x00\x00\x00\x01\x61",
        b"\x00\x00\x00\x01\x02\x00\x00\x00\x03\x00\x00\x00\x01\xff",
        b"\x00\x00\x00\x01\x02\x00\x00\x00\x03\x00\x00\x00\x01",
    ];
    for bytes in refused {
        refuse::<PathRecord>(&rt, alloc, bytes)?;
    }
    Ok(())
}
