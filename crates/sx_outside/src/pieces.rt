ghost use Rattle.std.specs.Prelude.{◌≡◌, length, take, drop, min};

// Moves a front of the bytes into the room, at most so many and as far as both go, and says how many.
pub fn move_front(bytes: &[u8], most: usize, room: &mut [u8]) -> usize
    ensures count { result ≡ min most (min (length room.old) (length bytes.now)) }
    ensures moved { take result room.new ≡ take result bytes.now }
    ensures beyond { drop result room.new ≡ drop result room.old }
{
    let count = most.min(room.len()).min(bytes.len());
    room[..count].copy_from_slice(&bytes[..count]);
    count
}
