//! The room of a log at its limits.
use std::test::Fail;
use sx_log::{RoomFault, room};

#[test]
fn room_at_its_limits(rt: HostRuntime) -> Result<(), Fail> {
    let table: [(u32, u32, &[u32], Result<u64, RoomFault>); 10] = [
        (0, 0, &[], Ok(81)),
        (16_777_209, 5, &[5; 7], Ok(368)),
        (
            16_777_210,
            5,
            &[5; 7],
            Err(RoomFault::LogFull {
                frames: 16_777_210,
                revisions: 5,
            }),
        ),
        (16_777_216, 5, &[], Ok(81)),
        (
            16_777_217,
            5,
            &[],
            Err(RoomFault::LogFull {
                frames: 16_777_217,
                revisions: 5,
            }),
        ),
        (0, 16_777_215, &[], Ok(81)),
        (
            0,
            16_777_216,
            &[],
            Err(RoomFault::LogFull {
                frames: 0,
                revisions: 16_777_216,
            }),
        ),
        (0, 0, &[268_435_339], Ok(268_435_456)),
        (
            0,
            0,
            &[268_435_340],
            Err(RoomFault::CommitTooLarge { bytes: 268_435_457 }),
        ),
        (
            0,
            16_777_216,
            &[268_435_340],
            Err(RoomFault::LogFull {
                frames: 0,
                revisions: 16_777_216,
            }),
        ),
    ];
    for (frames, revisions, lengths, answer) in table {
        assert_eq!(rt; room(frames, revisions, lengths), answer);
    }
    Ok(())
}
