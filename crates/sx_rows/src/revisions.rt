use crate::checks::{ends, opens, replies, still};
use crate::run::{NONE, run};
use crate::volumes::{NEWBORN, three};
use std::test::Fail;
use sx_outside::ListClock;
use sx_shell::Status;

#[test]
fn revisions_are_read(rt: HostRuntime) -> Result<(), Fail> {
    replies(
        &rt,
        rt.alloc(),
        &[
            (b"open 0\ntext 0", b"ok 0\nok empty\n"),
            (b"text 0\nopen latest", b"ok empty\nok 0\n"),
            (b"commit\nopen 1\ntext 0", b"ok 1 1000\nok 1\nok empty\n"),
            (
                b"load 7\ncommit\nopen 2\ntext 0",
                b"ok 1\nok 1 1000\nrefused Missing 2 1\nok empty\n",
            ),
            // Open edits are seen by no client, and a load takes the place of the one before.
            (
                b"load [7]\nload -0\nopen latest\ntext 0\ncommit\nload 8\nopen 1\ntext 0",
                b"ok 1\nok 3\nok 0\nok empty\nok 1 1000\nok 4\nok 1\nok -0\n",
            ),
            (
                b"load [1]\nrollback\nload [2]\ncommit\nrollback\ncommit\nopen 2\ntext 0",
                b"ok 1\nok\nok 1\nok 1 1000\nok\nok 2 1000\nok 2\nok [2]\n",
            ),
            (
                b"load {\"a\":1}\ncommit\nload {\"a\":2}\ncommit\nopen 2\ntext 0\nopen 1\ntext 0",
                b"ok 1\nok 1 1000\nok 4\nok 2 1000\nok 2\nok {\"a\":2}\nok 1\nok {\"a\":1}\n",
            ),
        ],
    )
}

#[test]
fn each_client_has_its_revision(rt: HostRuntime) -> Result<(), Fail> {
    replies(
        &rt,
        rt.alloc(),
        &[
            (
                b"load [7]\ncommit\nload 8\ncommit\nr7: open 1\ntext 0\nr7: text 0",
                b"ok 1\nok 1 1000\nok 3\nok 2 1000\nok 1\nok empty\nok [7]\n",
            ),
            (
                b"load [7]\nw: commit\nr31: open latest\nload 8\ncommit\nw: open latest\nr31: text 0\nw: text 0\nr1: text 0\nr31: open 3\nr31: text 0",
                b"ok 1\nok 1 1000\nok 1\nok 3\nok 2 1000\nok 2\nok [7]\nok 8\nok empty\nrefused Missing 3 2\nok [7]\n",
            ),
        ],
    )
}

#[test]
fn times_never_fall(rt: HostRuntime) -> Result<(), Fail> {
    let alloc = rt.alloc();
    let mut clock = ListClock::new([1000, 900, 2000].to_vec(alloc)?);
    let script = b"commit\ncommit\ncommit";
    let ran = run(&rt, alloc, NEWBORN, script, 9, NONE, &mut clock)?;
    ends(
        &rt,
        alloc,
        &ran,
        Status::Done,
        b"ok 1 1000\nok 2 1000\nok 3 2000\n",
    )
}

// The second volume begins with the first one but for its last gate.
#[test]
fn the_volume_has_the_group(rt: HostRuntime) -> Result<(), Fail> {
    let alloc = rt.alloc();
    let script = b"load [1,2,3]\ncommit\nload 4";
    let ran = still(&rt, alloc, NEWBORN, script, 9, NONE)?;
    ends(&rt, alloc, &ran, Status::Done, b"ok 1\nok 1 1000\nok 5\n")?;
    let wanted = three(alloc)?;
    assert_eq!(rt; ran.volume.as_slice(), wanted.as_slice());
    Ok(())
}

#[test]
fn a_run_goes_on_where_the_last_one_ended(rt: HostRuntime) -> Result<(), Fail> {
    let alloc = rt.alloc();
    let script = b"load [7]\ncommit\nload 8\ncommit";
    let first = still(&rt, alloc, NEWBORN, script, 9, NONE)?;
    let mut clock = ListClock::new([900, 2000].to_vec(alloc)?);
    let script =
        b"text 0\nopen 1\ntext 0\nopen 2\ntext 0\nopen 3\nreplace 3 \"x\"\ncommit\nopen 3\ntext 0\nopen 1\ntext 0\ncommit\nopen 5\n";
    let ran = run(
        &rt,
        alloc,
        first.volume.as_slice(),
        script,
        9,
        NONE,
        &mut clock,
    )?;
    ends(
        &rt,
        alloc,
        &ran,
        Status::Done,
        b"ok empty\nok 1\nok [7]\nok 2\nok 8\nrefused Missing 3 2\nok 4\nok 3 1000\nok 3\nok \"x\"\nok 1\nok [7]\nok 4 2000\nrefused Missing 5 4\n",
    )?;
    let script = b"open latest\ntext 0\nload 9";
    let start = ran.volume.as_slice();
    opens(&rt, alloc, start, script, 9, b"ok 4\nok \"x\"\nok 5\n")
}
