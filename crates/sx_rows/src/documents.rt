use crate::checks::replies;
use std::test::Fail;

#[test]
fn documents_are_kept_as_they_were_written(rt: HostRuntime) -> Result<(), Fail> {
    replies(
        &rt,
        rt.alloc(),
        &[
            (
                b"load [1,2,3]\ncommit\nopen latest\ntext 0",
                b"ok 1\nok 1 1000\nok 1\nok [1,2,3]\n",
            ),
            (
                b"load [-0,1.50e+3]\ncommit\nopen 1\ntext 0\n",
                b"ok 1\nok 1 1000\nok 1\nok [-0,1.50e+3]\n",
            ),
            // The canonical text has no blanks, and escapes no more than it must.
            (
                b"load  { \"b\" : [ ] , \"a\" : \"\\u0041\\n\\u001F\\/\" }\ncommit\nopen 1\ntext 0",
                b"ok 1\nok 1 1000\nok 1\nok {\"b\":[],\"a\":\"A\\n\\u001f/\"}\n",
            ),
            (
                b"load \"\\ud83d\\ude00\"\ncommit\nopen 1\ntext 0",
                b"ok 1\nok 1 1000\nok 1\nok \"\xf0\x9f\x98\x80\"\n",
            ),
            (
                b"load true\nload null\ncommit\nopen 1\ntext 0",
                b"ok 1\nok 2\nok 1 1000\nok 1\nok null\n",
            ),
        ],
    )
}

// A text with its first fault, and the place of that in the text.
#[test]
fn other_texts_are_refused_with_their_fault(rt: HostRuntime) -> Result<(), Fail> {
    replies(
        &rt,
        rt.alloc(),
        &[
            (b"load 01", b"refused Json BadByte 1\n"),
            (b"load +1", b"refused Json BadByte 0\n"),
            (b"load [1", b"refused Json Ended\n"),
            (b"load ", b"refused Json Ended\n"),
            (b"load  1", b"ok 1\n"),
            (b"load 1 \t", b"ok 1\n"),
            (b"load 1 2", b"refused Json BadByte 2\n"),
            (b"load {\"a\":1,\"a\":2}", b"refused Json DuplicateName 7\n"),
            (b"load \"\\ud800\"", b"refused Json LoneSurrogate 1\n"),
            (b"load \"\xff\"", b"refused Json BadByte 1\n"),
            (b"w: load [\nw: load []", b"refused Json Ended\nok 1\n"),
        ],
    )
}

#[test]
fn a_number_has_at_most_64_bytes(rt: HostRuntime) -> Result<(), Fail> {
    let alloc = rt.alloc();
    let mut script = b"load ".to_vec(alloc)?;
    script.extend_from_slice(&vec![in alloc; b'1'; 64]?)?;
    replies(&rt, alloc, &[(&script, b"ok 1\n")])?;
    script.push(b'1')?;
    replies(&rt, alloc, &[(&script, b"refused Json NumberTooLong 0\n")])
}

// At most 256 arrays and objects nest.
#[test]
fn documents_nest_to_a_limit(rt: HostRuntime) -> Result<(), Fail> {
    let alloc = rt.alloc();
    for (depth, open, close, want) in [
        (256, b"[".as_slice(), b"]".as_slice(), b"ok 1\n".as_slice()),
        (257, b"[", b"]", b"refused Json TooDeep 256\n"),
        (256, b"{\"\":", b"}", b"ok 1\n"),
        (257, b"{\"\":", b"}", b"refused Json TooDeep 1024\n"),
    ] {
        let mut script = b"load ".to_vec(alloc)?;
        for _ in 0..depth {
            script.extend_from_slice(open)?;
        }
        script.push(b'1')?;
        for _ in 0..depth {
            script.extend_from_slice(close)?;
        }
        replies(&rt, alloc, &[(&script, want)])?;
    }
    Ok(())
}
