use crate::checks::{opens, replies};
use crate::volumes::NEWBORN;
use std::test::Fail;

#[test]
fn other_lines_are_refused(rt: HostRuntime) -> Result<(), Fail> {
    replies(
        &rt,
        rt.alloc(),
        &[
            (b"", b""),
            (b"\n \t \r\n# load 7\n\r", b""),
            (b"open 0\r\ntext 0\r\r", b"ok 0\nrefused line\n"),
            (
                b"load\n load 1\nfrob\n\x80",
                b"refused line\nrefused line\nrefused line\nrefused line\n",
            ),
            (
                b"commit now\nr1: commit\nr1: load [\nr1: rollback",
                b"refused line\nrefused line\nrefused line\nrefused line\n",
            ),
            (
                b"open -1\nopen 01\nopen 4294967296\nopen",
                b"refused line\nrefused line\nrefused line\nrefused line\n",
            ),
            (
                b"text 1\ntext\ntext 00\nr32: text 0\nr0: text 0\nr01: text 0",
                b"refused NoNode 1\nrefused line\nrefused line\nrefused line\nrefused line\nrefused line\n",
            ),
            (
                b"set 1 []\nset 1 [\nrename 2 x\nnode 1073741824\naxis parent 0\nselect a\nvalid +1",
                b"refused line\nrefused Json Ended\nrefused Json BadByte 0\nrefused line\nrefused line\nrefused line\nrefused line\n",
            ),
        ],
    )
}

#[test]
fn a_line_has_at_most_8_388_608_bytes(rt: HostRuntime) -> Result<(), Fail> {
    let alloc = rt.alloc();
    let mut script = vec![in alloc; b'#'; 8_388_608]?;
    script.extend_from_slice(b"\nopen 0\n")?;
    opens(&rt, alloc, NEWBORN, &script, 65_536, b"ok 0\n")?;
    let mut script = vec![in alloc; b'#'; 8_388_609]?;
    script.extend_from_slice(b"\nopen 0\n")?;
    opens(
        &rt,
        alloc,
        NEWBORN,
        &script,
        65_536,
        b"refused line\nok 0\n",
    )
}

#[test]
fn a_run_ends_at_quit(rt: HostRuntime) -> Result<(), Fail> {
    replies(
        &rt,
        rt.alloc(),
        &[
            (b"quit\nopen 0\nload 1\ncommit", b""),
            (b"open 0\nquit\r\nfrob", b"ok 0\n"),
            (
                b"w: quit\nr1: quit\nquit now\nopen 0\n",
                b"refused line\nrefused line\nrefused line\nok 0\n",
            ),
        ],
    )
}
