ghost use Rattle.std.specs.Prelude.{◌≡◌, vec_len};

use std::alloc::Global;
use std::fs;
use std::fs::{Files, OpenOptions};
use std::io::ErrorKind;
use std::process::Abort;
use std::sync::Wait;
use std::test::Fail;
use sx_file::{FileEnd, FileVolume, Opened, StdFile, open};
use sx_outside::{MemSink, MemSource, OpenGate, StillClock};
use sx_shell::{Status, run_live, run_still};

/// The file has to have these bytes.
pub(crate) fn has<R: Abort + Alloc + Files>(rt: &R, path: &str, want: &[u8]) -> Result<(), Fail> {
    let bytes = fs::read(rt, path)?;
    assert_eq!(rt; bytes.as_slice(), want);
    Ok(())
}

/// The file, which has to open, as a volume with so many ends.
pub(crate) fn opened<R: Files<File = fs::File>>(
    rt: &R,
    alloc: Global,
    path: &str,
    ends: usize,
) -> Result<(FileVolume<StdFile>, Vec<FileEnd>), Fail> {
    let Opened { volume, ends } = open(rt, alloc, path, ends, false)?;
    Ok((volume, ends))
}

/// The opening has to be refused by an error of this kind.
pub(crate) fn is_refused<R: Abort + Files<File = fs::File>>(
    rt: &R,
    alloc: Global,
    path: &str,
    kind: ErrorKind,
) {
    let why = open(rt, alloc, path, 1, false)
        .err()
        .map(|error| error.kind());
    assert_eq!(rt; why, Some(kind), "{path}");
}

/// Whether the system lets the file be opened for writing.
pub(crate) fn may_write<R: Files>(rt: &R, path: &str) -> bool {
    OpenOptions::new().write(true).open(rt, path).is_ok()
}

/// A run of the script over the file has to end well with these replies.
pub(crate) fn replies<R: Abort + Files<File = fs::File> + Wait>(
    rt: &R,
    alloc: Global,
    path: &str,
    script: &[u8],
    want: &[u8],
) -> Result<(), Fail> {
    let (mut volume, mut ends) = opened(rt, alloc, path, 32)?;
    assert_eq!(rt; ends.len(), 32);
    let output = run(rt, alloc, &mut volume, &mut ends, script)?;
    assert_eq!(rt; output.as_slice(), want);
    Ok(())
}

/// These words over the file, which run no script, have to end well and to write this.
pub(crate) fn writes<R: Abort + Files<File = fs::File>>(
    rt: &R,
    alloc: Global,
    path: &str,
    words: &[&str],
    want: &str,
) -> Result<(), Fail> {
    let (mut volume, mut ends) = opened(rt, alloc, path, 1)?;
    let mut list = Vec::new(alloc);
    for word in words {
        list.push(String::from_str(alloc, word)?)?;
    }
    let mut sink = MemSink::new(alloc, 1000, Vec::new(alloc))?;
    for end in ends.iter_mut() {
        let status = run_still(alloc, &list, &mut volume, end, &mut sink);
        assert_eq!(rt; status, Status::Done);
    }
    assert_eq!(rt; sink.bytes(), want.as_bytes());
    Ok(())
}

fn run<R: Abort + Wait>(
    rt: &R,
    alloc: Global,
    volume: &mut FileVolume<StdFile>,
    ends: &mut Vec<FileEnd>,
    script: &[u8],
) -> Result<Vec<u8>, Fail>
    requires { vec_len ends.old ≡ 32 }
{
    let words = [
        String::from_str(alloc, "live")?,
        String::from_str(alloc, "file")?,
    ];
    let mut source = MemSource::new(script.to_vec(alloc)?, 1000, Vec::new(alloc));
    let mut sink = MemSink::new(alloc, 1000, Vec::new(alloc))?;
    let status = run_live(
        rt,
        alloc,
        &words,
        volume,
        ends,
        &mut source,
        &mut sink,
        &mut StillClock { moment: 1000 },
        &OpenGate,
    );
    assert_eq!(rt; status, Status::Done);
    Ok(sink.bytes().to_vec(alloc)?)
}
