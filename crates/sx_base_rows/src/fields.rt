//! Fields of fixed widths.
use std::test::Fail;
use sx_bytes::{Fields, FieldsOut};

/// One field of each kind, and what is left behind it.
const BYTES: [u8; 34] = [
    1, 2, 3, 4, 5, 6, 7, 8, 9, 10, 11, 12, 13, 14, 15, 16, 17, 18, 19, 20, 21, 22, 23, 24, 25, 26,
    27, 28, 29, b'e', b'n', b'd', 0xfe, 0xff,
];

#[test]
fn fields_of_each_kind(rt: HostRuntime) -> Result<(), Fail> {
    let mut out = FieldsOut::new(rt.alloc());
    out.u8(0x01)?;
    out.u32(0x0203_0405)?;
    out.u64(0x0607_0809_0a0b_0c0d)?;
    out.u128(0x0e0f_1011_1213_1415_1617_1819_1a1b_1c1d)?;
    out.bytes(b"end\xfe\xff")?;
    let bytes = out.into_vec();
    assert_eq!(rt; bytes.as_slice(), BYTES.as_slice());

    let mut fields = Fields::new(&bytes);
    assert_eq!(rt; fields.u8(), Some(0x01));
    assert_eq!(rt; fields.u32(), Some(0x0203_0405));
    assert_eq!(rt; fields.u64(), Some(0x0607_0809_0a0b_0c0d));
    assert_eq!(rt;
        fields.u128(),
        Some(0x0e0f_1011_1213_1415_1617_1819_1a1b_1c1d)
    );
    assert_eq!(rt; fields.bytes(6), None);
    assert_eq!(rt; fields.left(), 5);
    assert_eq!(rt; fields.bytes(3), Some(b"end".as_slice()));
    assert_eq!(rt; fields.u32(), None);
    assert_eq!(rt; fields.rest(), b"\xfe\xff".as_slice());
    Ok(())
}
