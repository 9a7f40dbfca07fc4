use crate::run::{Failing, NONE, Ran, run};
use crate::volumes::NEWBORN;
use std::alloc::Global;
use std::process::Abort;
use std::sync::Wait;
use std::test::Fail;
use sx_outside::StillClock;
use sx_shell::Status;

/// Over a newborn volume, with a clock that stands at 1000, each script has these replies, one byte a call and in one
/// piece.
pub(crate) fn replies<R: Abort + Wait>(
    rt: &R,
    alloc: Global,
    rows: &[(&[u8], &[u8])],
) -> Result<(), Fail> {
    for (script, want) in rows {
        for most in [1, script.len()] {
            opens(rt, alloc, NEWBORN, script, most, want)?;
        }
    }
    Ok(())
}

/// Over a volume with these bytes the script has these replies.
pub(crate) fn opens<R: Abort + Wait>(
    rt: &R,
    alloc: Global,
    start: &[u8],
    script: &[u8],
    most: usize,
    want: &[u8],
) -> Result<(), Fail> {
    let ran = still(rt, alloc, start, script, most, NONE)?;
    ends(rt, alloc, &ran, Status::Done, want)
}

/// A run with a clock that stands at 1000.
pub(crate) fn still<R: Wait>(
    rt: &R,
    alloc: Global,
    start: &[u8],
    script: &[u8],
    most: usize,
    failing: Failing,
) -> Result<Ran, Fail> {
    let mut clock = StillClock { moment: 1000 };
    Ok(run(rt, alloc, start, script, most, failing, &mut clock)?)
}

/// The run ended so, and with these replies.
pub(crate) fn ends<R: Abort>(
    rt: &R,
    alloc: Global,
    ran: &Ran,
    status: Status,
    want: &[u8],
) -> Result<(), Fail> {
    assert_eq!(rt;
        text(alloc, &ran.output)?.as_str(),
        text(alloc, want)?.as_str()
    );
    assert_eq!(rt; ran.status, status);
    Ok(())
}

/// The bytes as a text that a failed test shows.
pub(crate) fn text(alloc: Global, bytes: &[u8]) -> Result<String, Fail> {
    Ok(String::from_utf8(bytes.to_vec(alloc)?)?)
}
