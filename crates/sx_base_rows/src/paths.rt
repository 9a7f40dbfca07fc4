//! The texts of paths.
use std::alloc::{AllocError, Global};
use std::test::Fail;
use sx_select::parse;
use sx_tree::bytes::Bytes;
use sx_tree::query::PathExpr;
use sx_tree::steps::PathStep;

/// The path's steps: `N` or `A` with the name in brackets, or `I`.
fn listed(alloc: Global, path: &PathExpr) -> Result<Bytes, AllocError> {
    let mut list = Bytes::new(alloc);
    for step in path.steps.as_slice() {
        match step {
            PathStep::Name(name) => {
                list.extend_from_slice(b"N(")?;
                list.extend_from_slice(name.as_bytes())?;
                list.push(b')')?;
            }
            PathStep::Item => list.push(b'I')?,
            PathStep::Anywhere(name) => {
                list.extend_from_slice(b"A(")?;
                list.extend_from_slice(name.as_bytes())?;
                list.push(b')')?;
            }
        }
    }
    Ok(list)
}

#[test]
fn steps_in_order(rt: HostRuntime) -> Result<(), Fail> {
    let rows: [(&[u8], &[u8]); 9] = [
        (b".", b""),
        (b"/a", b"N(a)"),
        (b"./a", b"N(a)"),
        (b"[]", b"I"),
        (b".//total", b"A(total)"),
        (b"/orders[]/total", b"N(orders)IN(total)"),
        (b"/_a-1Z[][]//b", b"N(_a-1Z)IIA(b)"),
        (
            b"/\"a b\"//\"\"/\"\\u00e9\\/\\\"\"",
            b"N(a b)A()N(\xc3\xa9/\")",
        ),
        (b"/\"1\"/true", b"N(1)N(true)"),
    ];
    for (text, steps) in rows {
        let path = parse(rt.alloc(), text)?;
        assert!(rt; path.is_some());
        if let Some(path) = path {
            let list = listed(rt.alloc(), &path)?;
            assert_eq!(rt; list.as_slice(), steps);
        }
    }
    Ok(())
}

#[test]
fn no_paths(rt: HostRuntime) -> Result<(), Fail> {
    let rows: [&[u8]; 15] = [
        b"",
        b"..",
        b"a",
        b".a",
        b"/",
        b"/a/",
        b"///a",
        b"/1",
        b"/-a",
        b" /a",
        b"/a ",
        b"[ ]",
        b"/\"a",
        b"/\"\\ud800\"",
        b"/a\xc3\xa4",
    ];
    for text in rows {
        let path = parse(rt.alloc(), text)?;
        assert!(rt; path.is_none());
    }
    Ok(())
}

#[test]
fn at_most_256_steps(rt: HostRuntime) -> Result<(), Fail> {
    let mut text = Bytes::new(rt.alloc());
    text.push(b'.')?;
    for _ in 0..256 {
        text.extend_from_slice(b"[]")?;
    }
    let path = parse(rt.alloc(), text.as_slice())?;
    assert!(rt; path.is_some());
    if let Some(path) = path {
        assert_eq!(rt; path.steps.len(), 256);
    }
    text.extend_from_slice(b"/a")?;
    let path = parse(rt.alloc(), text.as_slice())?;
    assert!(rt; path.is_none());
    Ok(())
}
