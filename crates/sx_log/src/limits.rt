ghost use Rattle.std.specs.Prelude.{◌≡◌, ◌≤◌, ◌*◌, length, sum};
ghost use Rattle.sx_log.specs.Room.{room_for};

use crate::RoomFault;

/// A log has at most so many frames, and at most so many revisions.
pub(crate) const LOG_LIMIT: u64 = 16_777_216;

/// The greatest length of a group with the gate behind it, in bytes.
pub(crate) const GROUP_LIMIT: u64 = 268_435_456;

/// Bytes of a group without frames and of the gate behind it.
pub(crate) const LEAST_GROUP: u64 = 81;

/// Bytes that a group has for each frame beside the frame.
pub(crate) const ROW_BYTES: u64 = 36;

/// The bytes of a group of frames of these lengths, with the gate behind it, in a log that has so many frames and revisions.
/// Errors: `LogFull` where the log would have too many frames or revisions with it, and then `CommitTooLarge`.
pub fn room(frames: u32, revisions: u32, lengths: &[u32]) -> Result<u64, RoomFault>
    ensures { result ≡ room_for frames revisions lengths.now }
{
    let count = lengths.len() as u64;
    if u64::from(frames).saturating_add(count) > LOG_LIMIT || u64::from(revisions) + 1 > LOG_LIMIT {
        return Err(RoomFault::LogFull { frames, revisions });
    }
    let bytes = LEAST_GROUP + ROW_BYTES * count + sum_of(lengths);
    if bytes > GROUP_LIMIT {
        return Err(RoomFault::CommitTooLarge { bytes });
    }
    Ok(bytes)
}

// The sum of the lengths.
fn sum_of(lengths: &[u32]) -> u64
    requires { length lengths.now ≤ 16_777_216 }
    ensures sum { result ≡ sum lengths.now }
    ensures small { result ≤ 16_777_216 * 4_294_967_295 }
{
    let mut total: u64 = 0;
    for bytes in lengths {
        total += u64::from(*bytes);
    }
    total
}
