//! JSON texts, read and written.
use std::alloc::{AllocError, Global};
use std::test::Fail;
use sx_json::{JsonFault, read, read_string, write};
use sx_tree::bytes::Bytes;
use sx_tree::json::{Items, Json};
use sx_tree::text::TEXT_BYTES;

fn fault_of(alloc: Global, text: &[u8]) -> Option<JsonFault> {
    read(alloc, text).err()
}

fn nested(alloc: Global, count: usize) -> Result<Bytes, AllocError> {
    let mut text = Bytes::new(alloc);
    for _ in 0..count {
        text.push(b'[')?;
    }
    for _ in 0..count {
        text.push(b']')?;
    }
    Ok(text)
}

/// Each text, and what is written of what was read.
#[test]
fn rewrites(rt: HostRuntime) -> Result<(), Fail> {
    let rows: [(&[u8], &[u8]); 8] = [
        (b" [ -0 , 1.50e+3 ] ", b"[-0,1.50e+3]"),
        (
            b"{\"b\":null,\"a\":{},\"c\":[[],true,false]}",
            b"{\"b\":null,\"a\":{},\"c\":[[],true,false]}",
        ),
        (
            b"\"\\\"\\\\\\/\\b\\f\\n\\r\\t\"",
            b"\"\\\"\\\\/\\b\\f\\n\\r\\t\"",
        ),
        (
            b"\"\\u0041\\u00e9\\u20AC\\ud83d\\ude00\"",
            b"\"A\xc3\xa9\xe2\x82\xac\xf0\x9f\x98\x80\"",
        ),
        (b"\"\\u0000\\u001f\\u007f\"", b"\"\\u0000\\u001f\x7f\""),
        (b"\t\r\n1\n", b"1"),
        (
            b"1111111111111111111111111111111111111111111111111111111111111111",
            b"1111111111111111111111111111111111111111111111111111111111111111",
        ),
        (b"{\"\":\"\\u00e4\"}", b"{\"\":\"\xc3\xa4\"}"),
    ];
    for (text, written) in rows {
        let mut out = Bytes::new(rt.alloc());
        write(rt.alloc(), &read(rt.alloc(), text)?, &mut out)?;
        assert_eq!(rt; out.as_slice(), written);
    }
    Ok(())
}

/// Each text, and its fault.
#[test]
fn faults(rt: HostRuntime) -> Result<(), Fail> {
    let rows: [(&[u8], JsonFault); 34] = [
        (b"", JsonFault::Ended),
        (b"[1", JsonFault::Ended),
        (b"\"\\ud800", JsonFault::Ended),
        (b"-", JsonFault::Ended),
        (b"tru", JsonFault::Ended),
        (b"01", JsonFault::BadByte { at: 1 }),
        (b"1.x", JsonFault::BadByte { at: 2 }),
        (b"trux", JsonFault::BadByte { at: 3 }),
        (b"[1,]", JsonFault::BadByte { at: 3 }),
        (b"{\"a\" 1}", JsonFault::BadByte { at: 5 }),
        (b"{\"a\":1,}", JsonFault::BadByte { at: 7 }),
        (b"{1", JsonFault::BadByte { at: 1 }),
        (b"1 2", JsonFault::BadByte { at: 2 }),
        (b"\"\n\"", JsonFault::BadByte { at: 1 }),
        (b"\"\\x\"", JsonFault::BadByte { at: 2 }),
        (b"\"\\u12g4\"", JsonFault::BadByte { at: 5 }),
        (b"\"a\xc3", JsonFault::BadByte { at: 2 }),
        (b"\"\xff\"", JsonFault::BadByte { at: 1 }),
        (b"1\xc3\xa9", JsonFault::BadByte { at: 1 }),
        (b"x\xff", JsonFault::BadByte { at: 0 }),
        (b"{\"a\":1,\"a\":2}", JsonFault::DuplicateName { at: 7 }),
        (b"{\"a\":1,\"\\u0061\"x", JsonFault::DuplicateName { at: 7 }),
        (b"\"\\udc00\"", JsonFault::LoneSurrogate { at: 1 }),
        (b"\"\\ud800\"", JsonFault::LoneSurrogate { at: 1 }),
        (b"\"\\ud800x", JsonFault::LoneSurrogate { at: 1 }),
        (b"\"\\ud800\\n", JsonFault::LoneSurrogate { at: 1 }),
        (b"\"\\ud800\\x", JsonFault::BadByte { at: 8 }),
        (b"\"\\ud800\\u0041", JsonFault::LoneSurrogate { at: 1 }),
        (b"\"\\ud800\\u1g", JsonFault::BadByte { at: 10 }),
        (b"\"\\ud800\n", JsonFault::BadByte { at: 7 }),
        (b"\"\\ud800\xff", JsonFault::BadByte { at: 7 }),
        (
            b"11111111111111111111111111111111111111111111111111111111111111111",
            JsonFault::NumberTooLong { at: 0 },
        ),
        (
            b"1111111111111111111111111111111111111111111111111111111111111111e",
            JsonFault::NumberTooLong { at: 0 },
        ),
        (
            b"1111111111111111111111111111111111111111111111111111111111111111x",
            JsonFault::BadByte { at: 64 },
        ),
    ];
    for (text, fault) in rows {
        assert_eq!(rt; fault_of(rt.alloc(), text), Some(fault));
    }
    Ok(())
}

/// An object's text up to a comma, with 40 names that ascend or fall.
fn names_from(alloc: Global, first: u8, falls: bool) -> Result<Bytes, AllocError> {
    let mut text = Bytes::new(alloc);
    text.push(b'{')?;
    for place in 0..40 {
        let name = if falls {
            first.wrapping_sub(place)
        } else {
            first.wrapping_add(place)
        };
        text.extend_from_slice(&[b'"', name, b'"', b':', b'0', b','])?;
    }
    Ok(text)
}

/// All of many names are kept, and one that comes again is told.
#[test]
fn many_names(rt: HostRuntime) -> Result<(), Fail> {
    for (first, falls) in [(b'0', false), (b'W', true)] {
        let mut whole = names_from(rt.alloc(), first, falls)?;
        whole.extend_from_slice(b"\"\":0}")?;
        let mut out = Bytes::new(rt.alloc());
        write(rt.alloc(), &read(rt.alloc(), whole.as_slice())?, &mut out)?;
        assert_eq!(rt; out.as_slice(), whole.as_slice());
        for again in [first, b'A'] {
            let mut text = names_from(rt.alloc(), first, falls)?;
            text.extend_from_slice(&[b'"', again, b'"'])?;
            let fault = fault_of(rt.alloc(), text.as_slice());
            assert_eq!(rt; fault, Some(JsonFault::DuplicateName { at: 241 }));
        }
    }
    Ok(())
}

#[test]
fn nesting(rt: HostRuntime) -> Result<(), Fail> {
    let deepest = nested(rt.alloc(), 256)?;
    assert_eq!(rt; read(rt.alloc(), deepest.as_slice())?.depth(), 256);
    let deeper = nested(rt.alloc(), 257)?;
    assert_eq!(rt;
        fault_of(rt.alloc(), deeper.as_slice()),
        Some(JsonFault::TooDeep { at: 256 })
    );
    Ok(())
}

#[test]
fn strings(rt: HostRuntime) -> Result<(), Fail> {
    let (name, used) = read_string(rt.alloc(), b"\"a\\u00e9\" \xff")?;
    assert_eq!(rt; name.as_bytes(), b"a\xc3\xa9".as_slice());
    assert_eq!(rt; used, 9);
    let rows: [(&[u8], JsonFault); 4] = [
        (b"x", JsonFault::BadByte { at: 0 }),
        (b"\"a", JsonFault::Ended),
        (b"\"a\xff", JsonFault::BadByte { at: 2 }),
        (b"\"\\udc00\xff", JsonFault::LoneSurrogate { at: 1 }),
    ];
    for (text, fault) in rows {
        assert_eq!(rt; read_string(rt.alloc(), text).err(), Some(fault));
    }
    Ok(())
}

/// A string behind these bytes: as many letters as a text may have bytes, and then more.
fn full(alloc: Global, before: &[u8], more: &[u8]) -> Result<Bytes, AllocError> {
    let letters = Vec::from_elem(alloc, b'a', TEXT_BYTES)?;
    let mut text = Bytes::new(alloc);
    text.extend_from_slice(before)?;
    text.push(b'"')?;
    text.extend_from_slice(&letters)?;
    text.extend_from_slice(more)?;
    text.push(b'"')?;
    Ok(text)
}

/// What stands behind 1,048,576 letters in a string, whose opening quote stands at 1, and the fault.
///
/// A lone surrogate stands for no character, so no byte of it takes the string past the limit, and its own
/// fault is told. The letter behind a high one shows that this is alone, and would take the string past the
/// limit: at one byte the fault of the surrogate comes first. The definition agrees, since it tells what is
/// wrong in a piece before it counts the piece.
#[test]
fn full_strings(rt: HostRuntime) -> Result<(), Fail> {
    let too_long = Some(JsonFault::StringTooLong { at: 1 });
    let lone = Some(JsonFault::LoneSurrogate { at: 1_048_578 });
    let bad = Some(JsonFault::BadByte { at: 1_048_578 });
    let rows: [(&[u8], Option<JsonFault>); 11] = [
        (b"", None),
        (b"a", too_long),
        (b"\xc3\xa9", too_long),
        (b"\\n", too_long),
        (b"\\u0041", too_long),
        (b"\\ud83d\\ude00", too_long),
        (b"\\udc00", lone),
        (b"\\ud800", lone),
        (b"\\ud800a", lone),
        (b"\n", bad),
        (b"\xff", bad),
    ];
    for (more, fault) in rows {
        let text = full(rt.alloc(), b" ", more)?;
        assert_eq!(rt; fault_of(rt.alloc(), text.as_slice()), fault);
    }
    let text = full(rt.alloc(), b"", b"")?;
    let (_, used) = read_string(rt.alloc(), text.as_slice())?;
    assert_eq!(rt; used, 1_048_578);
    Ok(())
}

fn written(alloc: Global, value: &Json) -> Result<Bytes, AllocError> {
    let mut out = Bytes::new(alloc);
    write(alloc, value, &mut out)?;
    Ok(out)
}

/// What is written of what was read is read again, and is written the same.
#[test]
fn reads_back(rt: HostRuntime) -> Result<(), Fail> {
    let alloc = rt.alloc();
    let deepest = nested(alloc, 256)?;
    let rows: [&[u8]; 5] = [
        b" {\"a\":[1.50e+3,{\"\\u0062\":\"\\/\"}],\"c\":[]}",
        b"\"\\u0000\\u001F\\u007f\\\"\\\\\\b\\f\\n\\r\\t\"",
        b"\"\\ud83d\\ude00\xc3\xa9\"",
        b"[true, false, null]",
        deepest.as_slice(),
    ];
    for text in rows {
        let first = written(alloc, &read(alloc, text)?)?;
        let second = written(alloc, &read(alloc, first.as_slice())?)?;
        assert_eq!(rt; second.as_slice(), first.as_slice());
    }
    Ok(())
}

/// A value that nests too deep to be read is written.
#[test]
fn deeper_than_read(rt: HostRuntime) -> Result<(), Fail> {
    let alloc = rt.alloc();
    let mut items = Items::new(alloc);
    items.push(read(alloc, nested(alloc, 256)?.as_slice())?)?;
    let out = written(alloc, &Json::Array(items))?;
    let deeper = nested(alloc, 257)?;
    assert_eq!(rt; out.as_slice(), deeper.as_slice());
    Ok(())
}
