//! Roots of revisions: their bytes, and the revision at a time.
use std::test::Fail;
use sx_bytes::{Fields, FieldsOut};
use sx_root::{RevisionRoot, Roots, at_time};

/// The first commit of a log, at the time 1000, with ten frames of 522 bytes.
const ROOT: RevisionRoot = RevisionRoot {
    revision: 1,
    time: 1000,
    first_frame: 0,
    frames: 10,
    node_root: 5,
    path_root: 10,
    next: 5,
    nodes: 5,
    paths: 2,
    body: 522,
};

const BYTES: [u8; 48] = [
    b'S', b'X', b'G', b'R', 0, 0, 0, 1, 0, 0, 0, 0, 0, 0, 3, 232, 0, 0, 0, 0, 0, 0, 0, 10, 0, 0, 0,
    5, 0, 0, 0, 10, 0, 0, 0, 5, 0, 0, 0, 5, 0, 0, 0, 2, 0, 0, 2, 10,
];

/// Three commits, at the times 1000, 1000 and 2000.
struct Commits;

impl Roots for Commits {
    ghost use Rattle.std.specs.Prelude.{[], ◌∷◌, pos};

    ghost times = { λ _. pos 1000 ∷ pos 1000 ∷ pos 2000 ∷ [] };

    fn count(&self) -> u32 {
        3
    }

    fn time(&self, revision: u32) -> i64 {
        if revision < 3 { 1000 } else { 2000 }
    }
}

#[test]
fn the_revision_at_a_time(rt: HostRuntime) -> Result<(), Fail> {
    for (time, revision) in [(999, 0), (1000, 2), (1999, 2), (2000, 3)] {
        assert_eq!(rt; at_time(&Commits, time), revision);
    }
    Ok(())
}

#[test]
fn the_bytes_of_a_root(rt: HostRuntime) -> Result<(), Fail> {
    let mut out = FieldsOut::new(rt.alloc());
    ROOT.write(&mut out)?;
    let bytes = out.into_vec();
    assert_eq!(rt; bytes.as_slice(), BYTES.as_slice());
    let mut fields = Fields::new(&bytes);
    assert_eq!(rt; RevisionRoot::read(&mut fields), Some(ROOT));
    assert_eq!(rt; fields.left(), 0);
    let mut other = BYTES;
    other[3] = b'S';
    let mut fields = Fields::new(&other);
    assert_eq!(rt; RevisionRoot::read(&mut fields), None);
    assert_eq!(rt; fields.left(), 48);
    let mut short = Fields::new(&BYTES[..47]);
    assert_eq!(rt; RevisionRoot::read(&mut short), None);
    assert_eq!(rt; short.left(), 47);
    Ok(())
}
