//! The plain types of a JSON document.
use std::alloc::{AllocError, Global};
use std::test::Fail;
use sx_tree::bytes::Bytes;
use sx_tree::json::{Items, Json, Members, Scalar};
use sx_tree::literal::{Literal, LiteralFault};
use sx_tree::member_list::MemberFault;
use sx_tree::text::{TEXT_BYTES, Text, TextFault};

fn letters(alloc: Global, count: usize) -> Result<Vec<u8>, AllocError> {
    Vec::from_elem(alloc, b'a', count)
}

#[test]
fn bytes(rt: HostRuntime) -> Result<(), Fail> {
    let mut bytes = Bytes::from_vec(letters(rt.alloc(), 1)?);
    bytes.push(b'b')?;
    bytes.extend_from_slice(b"cd")?;
    assert_eq!(rt; bytes.len(), 4);
    assert_eq!(rt; bytes.into_vec().as_slice(), b"abcd".as_slice());
    Ok(())
}

#[test]
fn texts(rt: HostRuntime) -> Result<(), Fail> {
    let longest = letters(rt.alloc(), TEXT_BYTES)?;
    let text = Text::new(rt.alloc(), &longest)?.copy(rt.alloc())?;
    assert_eq!(rt; text.as_str().len(), TEXT_BYTES);
    let too_long = letters(rt.alloc(), TEXT_BYTES + 1)?;
    let refused: [(&[u8], TextFault); 4] = [
        (&too_long, TextFault::TooLong { bytes: 1_048_577 }),
        (b"a\xc3", TextFault::NotUtf8 { at: 1 }),
        (b"\xc3\xa4\xff!", TextFault::NotUtf8 { at: 2 }),
        (b"\xed\xa0\x80", TextFault::NotUtf8 { at: 0 }),
    ];
    for (bytes, fault) in refused {
        assert_eq!(rt; Text::new(rt.alloc(), bytes).map(|_| ()), Err(fault));
    }
    Ok(())
}

#[test]
fn literals(rt: HostRuntime) -> Result<(), Fail> {
    let digits = [b'1'; 65];
    let accepted: [&[u8]; 4] = [b"0", b"-0", b"1.50e+3", &digits[..64]];
    for text in accepted {
        let literal = Literal::new(rt.alloc(), text)?.copy(rt.alloc())?;
        assert_eq!(rt; literal.as_bytes(), text);
        assert_eq!(rt; literal.to_text(rt.alloc())?.as_bytes(), text);
    }
    let refused: [(&[u8], LiteralFault); 8] = [
        (b"01", LiteralFault::Bad { at: 1 }),
        (b"+1", LiteralFault::Bad { at: 0 }),
        (b"1.", LiteralFault::Bad { at: 2 }),
        (b".5", LiteralFault::Bad { at: 0 }),
        (b"1e", LiteralFault::Bad { at: 2 }),
        (b"-", LiteralFault::Bad { at: 1 }),
        (b"", LiteralFault::Bad { at: 0 }),
        (&digits, LiteralFault::TooLong { bytes: 65 }),
    ];
    for (text, fault) in refused {
        let found = Literal::new(rt.alloc(), text).map(|_| ());
        assert_eq!(rt; found, Err(fault));
    }
    Ok(())
}

fn name(alloc: Global, bytes: &[u8]) -> Result<Text, Fail> {
    Ok(Text::new(alloc, bytes)?)
}

// {"a":[1,[]],"b":null}
#[test]
fn counts(rt: HostRuntime) -> Result<(), Fail> {
    let alloc = rt.alloc();
    let mut items = Items::new(alloc);
    items.push(Json::Scalar(Scalar::Number(Literal::new(alloc, b"1")?)))?;
    items.push(Json::Array(Items::new(alloc)))?;
    let mut members = Members::new(alloc);
    members.push(alloc, name(alloc, b"a")?, Json::Array(items))?;
    members.push(alloc, name(alloc, b"b")?, Json::Scalar(Scalar::Null))?;
    let taken = members.push(alloc, name(alloc, b"b")?, Json::Scalar(Scalar::Null));
    assert_eq!(rt; taken, Err(MemberFault::Taken { index: 1 }));
    let value = Json::Object(members);
    assert_eq!(rt; value.depth(), 3);
    assert_eq!(rt; value.nodes(), 7);
    Ok(())
}
