//! Lines of a script, and what they say.
use std::alloc::{AllocError, Global};
use std::test::Fail;
use sx_outside::MemSource;
use sx_script::{Command, Line, LineReader, PullFault, Pulled, command};
use sx_tree::bytes::Bytes;
use sx_tree::query::Which;

// Pulls until something is given.
fn given(reader: &mut LineReader, source: &mut MemSource) -> Result<Pulled, PullFault> {
    for _ in 0..1000 {
        match reader.pull(source)? {
            Pulled::More => {}
            pulled => return Ok(pulled),
        }
    }
    Ok(Pulled::More)
}

fn shown(alloc: Global, pulled: Result<Pulled, PullFault>) -> Result<Bytes, AllocError> {
    let mut out = Bytes::new(alloc);
    match pulled {
        Ok(Pulled::Line(line)) => return Ok(line),
        Ok(Pulled::Long) => out.extend_from_slice(b"(long)")?,
        Ok(Pulled::More) => out.extend_from_slice(b"(more)")?,
        Ok(Pulled::End) => out.extend_from_slice(b"(end)")?,
        Err(PullFault::Failed) => out.extend_from_slice(b"(failed)")?,
        Err(PullFault::OutOfMemory) => return Err(AllocError),
    }
    Ok(out)
}

#[test]
fn lines_end_with_feeds_and_with_the_source(rt: HostRuntime) -> Result<(), Fail> {
    let alloc = rt.alloc();
    for most in [1, 2, 1000] {
        let text = Vec::from_slice(alloc, b"a\n\nbc\r\n\x00d")?;
        let mut source = MemSource::new(text, most, Vec::new(alloc));
        let mut reader = LineReader::new(alloc);
        for wanted in [b"a".as_slice(), b"", b"bc\r", b"\x00d", b"(end)", b"(end)"] {
            let pulled = given(&mut reader, &mut source);
            assert_eq!(rt; shown(alloc, pulled)?.as_slice(), wanted, "{most}");
        }
    }
    Ok(())
}

// The second and the fourth call of the source fail.
#[test]
fn a_source_is_asked_only_where_no_line_waits(rt: HostRuntime) -> Result<(), Fail> {
    let alloc = rt.alloc();
    let text = Vec::from_slice(alloc, b"a\nb\nc")?;
    let mut source = MemSource::new(text, 1000, Vec::from_slice(alloc, &[2u64, 4])?);
    let mut reader = LineReader::new(alloc);
    for wanted in [b"a".as_slice(), b"b", b"(failed)", b"c", b"(end)", b"(end)"] {
        let pulled = reader.pull(&mut source);
        assert_eq!(rt; shown(alloc, pulled)?.as_slice(), wanted);
    }
    Ok(())
}

#[test]
fn a_long_line_is_skipped(rt: HostRuntime) -> Result<(), Fail> {
    let alloc = rt.alloc();
    let mut text = Vec::from_elem(alloc, b'a', 8_388_609)?;
    text.extend_from_slice(b"\nb\n")?;
    text.extend_from_slice(&Vec::from_elem(alloc, b'c', 8_388_608)?)?;
    let mut source = MemSource::new(text, 1_000_000, Vec::new(alloc));
    let mut reader = LineReader::new(alloc);
    for wanted in [6, 1, 8_388_608, 5] {
        let pulled = given(&mut reader, &mut source);
        assert_eq!(rt; shown(alloc, pulled)?.len(), wanted);
    }
    Ok(())
}

fn told(alloc: Global, line: &Line) -> Result<String, AllocError> {
    match line {
        Line::Skip => format!(in alloc; "skip"),
        Line::Refused { client } => format!(in alloc; "{client} refused"),
        Line::BadJson { client, fault } => format!(in alloc; "{client} {fault}"),
        Line::Command { client, command } => match command {
            Command::Edit(_) => format!(in alloc; "{client} edit"),
            Command::Rollback => format!(in alloc; "{client} rollback"),
            Command::Commit => format!(in alloc; "{client} commit"),
            Command::Open(Which::Latest) => format!(in alloc; "{client} latest"),
            Command::Open(Which::Number(revision)) => format!(in alloc; "{client} open {revision}"),
            Command::Ask(_) => format!(in alloc; "{client} ask"),
            Command::Quit => format!(in alloc; "{client} quit"),
        },
    }
}

#[test]
fn commands(rt: HostRuntime) -> Result<(), Fail> {
    let rows: [(&[u8], &str); 36] = [
        (b"", "skip"),
        (b"\r", "skip"),
        (b" \t ", "skip"),
        (b"# x", "skip"),
        (b" # x", "0 refused"),
        (b"frob", "0 refused"),
        (b"\xff", "0 refused"),
        (b"commit", "0 commit"),
        (b"commit\r", "0 commit"),
        (b"commit\r\r", "0 refused"),
        (b"commit now", "0 refused"),
        (b"w: commit", "0 commit"),
        (b"w:commit", "0 refused"),
        (b"r1: commit", "1 refused"),
        (b"rollback", "0 rollback"),
        (b"r2: rollback", "2 refused"),
        (b"quit", "0 quit"),
        (b"w: quit", "0 refused"),
        (b"r3: quit", "3 refused"),
        (b"open latest", "0 latest"),
        (b"open -1", "0 refused"),
        (b"open +1", "0 refused"),
        (b"open 01", "0 refused"),
        (b"open 4294967295", "0 open 4294967295"),
        (b"open 4294967296", "0 refused"),
        (b"r7: open 1", "7 open 1"),
        (b"r31: text 0", "31 ask"),
        (b"r32: open 1", "0 refused"),
        (b"r01: open 1", "0 refused"),
        (b"r0: open 1", "0 refused"),
        (b"text 01", "0 refused"),
        (b" load 1", "0 refused"),
        (b"load  1", "0 edit"),
        (b"load", "0 refused"),
        (b"load [1", "0 the text ends too soon"),
        (b"r1: load [", "1 refused"),
    ];
    for (line, wanted) in rows {
        let said = command(rt.alloc(), line)?;
        assert_eq!(rt; told(rt.alloc(), &said)?.as_str(), wanted);
    }
    Ok(())
}

#[test]
fn edits(rt: HostRuntime) -> Result<(), Fail> {
    let rows: [(&[u8], &str); 20] = [
        (b"insert first 0 1", "0 edit"),
        (b"w: insert after 1073741823 {}\r", "0 edit"),
        (b"insert first 1073741824 1", "0 refused"),
        (b"insert middle 0 1", "0 refused"),
        (b"field last 9 \"\" [true]", "0 edit"),
        (b"field first 0 \"a\"1", "0 refused"),
        (b"field first 0 a 1", "0 no text goes on at byte 0"),
        (b"set 1  1.50 ", "0 edit"),
        (b"set 1 [1]", "0 refused"),
        (b"set 01 1", "0 refused"),
        (b"replace 2 {\"a\":[]}", "0 edit"),
        (b"replace 1 01", "0 no text goes on at byte 1"),
        (b"rename 2 \"b\"", "0 edit"),
        (b"rename 2 \"b\" ", "0 refused"),
        (b"rename 2 x", "0 no text goes on at byte 0"),
        (b"r1: rename 2 x", "1 refused"),
        (b"remove 7", "0 edit"),
        (b"remove 1 ", "0 refused"),
        (b"remove -1", "0 refused"),
        (b"r1: remove 2", "1 refused"),
    ];
    for (line, wanted) in rows {
        let said = command(rt.alloc(), line)?;
        assert_eq!(rt; told(rt.alloc(), &said)?.as_str(), wanted);
    }
    Ok(())
}

#[test]
fn questions(rt: HostRuntime) -> Result<(), Fail> {
    let rows: [(&[u8], &str); 20] = [
        (b"text 0", "0 ask"),
        (b"text 00", "0 refused"),
        (b"r31: node 5", "31 ask"),
        (b"node -0", "0 refused"),
        (b"hash 1073741823", "0 ask"),
        (b"hash 1073741824", "0 refused"),
        (b"axis following-sibling 5", "0 ask"),
        (b"axis up 0", "0 refused"),
        (b"axis child  0", "0 refused"),
        (b"path 3", "0 ask"),
        (b"path", "0 refused"),
        (b"r2: paths", "2 ask"),
        (b"paths ", "0 refused"),
        (b"select /a[]//\"b c\"", "0 ask"),
        (b"select .", "0 ask"),
        (b"select  .", "0 refused"),
        (b"valid -9223372036854775808", "0 ask"),
        (b"valid -9223372036854775809", "0 refused"),
        (b"valid -0", "0 refused"),
        (b"valid 1700000000000", "0 ask"),
    ];
    for (line, wanted) in rows {
        let said = command(rt.alloc(), line)?;
        assert_eq!(rt; told(rt.alloc(), &said)?.as_str(), wanted);
    }
    Ok(())
}

#[test]
fn a_text_is_refused_with_its_fault(rt: HostRuntime) -> Result<(), Fail> {
    for (line, wanted) in [
        (b"load ".as_slice(), "0 the text ends too soon"),
        (b"w: load [x", "0 no text goes on at byte 1"),
        (b"load 1\r", "0 edit"),
    ] {
        let said = command(rt.alloc(), line)?;
        assert_eq!(rt; told(rt.alloc(), &said)?.as_str(), wanted);
    }
    Ok(())
}
