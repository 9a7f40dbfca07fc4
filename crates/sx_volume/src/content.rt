ghost use Rattle.std.specs.Prelude.{◌≡◌, ◌+◌, ◌<◌, ◌≤◌, ◌^◌, IfOk, length, vec_len, vec_capacity};
ghost use Rattle.sx_volume.specs.Change.{Appended, Put, Cut, Synced, AreBytes, after_change, image_of, settled, with_byte_at};
ghost use Rattle.sx_volume.specs.Content.{pending_in};

use std::alloc::{AllocError, Global};

// The bytes of a volume in memory, with what a crash may do to them.
#[derive(Drop)]
pub struct Content {
    pub bytes: Vec<u8>,
    // The least and the greatest length since the last sync.
    pub least: usize,
    pub greatest: usize,
    // The places where a byte was put since then.
    pub places: Vec<usize>,
    // Nothing was written since then.
    pub calm: bool,
}

impl Content {
    // These bytes, all of them kept.
    pub fn new(alloc: Global, bytes: Vec<u8>) -> Content
        ensures { pending_in result ≡ settled bytes.items }
    {
        let len = bytes.len();
        Content {
            bytes,
            least: len,
            greatest: len,
            places: Vec::new(alloc),
            calm: true,
        }
    }

    // Appends a piece for which there is room.
    pub fn append(&mut self, piece: &[u8])
        requires { vec_len self.old.bytes + length piece.now ≤ vec_capacity self.old.bytes }
        ensures appended { pending_in self.new ≡ after_change (pending_in self.old) (Appended piece.now) }
        ensures bytes { vec_capacity self.old.bytes ≤ vec_capacity self.new.bytes }
        ensures longer { vec_len self.new.bytes ≡ vec_len self.old.bytes + length piece.now }
        ensures places { self.new.places ≡ self.old.places }
        ensures piece { AreBytes piece.now }
    {
        let Ok(()) = self.bytes.extend_from_slice(piece) else {
            unreachable!("there is room");
        };
        self.greatest = self.greatest.max(self.bytes.len());
        self.calm = false;
    }

    // Writes one byte, with room for one place more.
    pub fn put(&mut self, at: usize, byte: u8)
        requires place { at < vec_len self.old.bytes }
        requires room { vec_len self.old.places < vec_capacity self.old.places }
        ensures put { pending_in self.new ≡ after_change (pending_in self.old) (Put at byte) }
        ensures bytes { vec_capacity self.new.bytes ≡ vec_capacity self.old.bytes }
        ensures places { vec_capacity self.new.places ≡ vec_capacity self.old.places }
        ensures one_more { vec_len self.new.places ≡ vec_len self.old.places + 1 }
    {
        self.bytes[at] = byte;
        self.places.push_reserved(at);
        self.calm = false;
    }

    // Drops what stands behind this length.
    pub fn cut(&mut self, len: usize)
        requires { len ≤ vec_len self.old.bytes }
        ensures cut { pending_in self.new ≡ after_change (pending_in self.old) (Cut len) }
        ensures bytes { vec_capacity self.new.bytes ≡ vec_capacity self.old.bytes }
        ensures places { self.new.places ≡ self.old.places }
    {
        self.bytes.truncate(len);
        self.least = self.least.min(len);
        self.calm = false;
    }

    // Keeps what is there, whatever comes.
    pub fn sync(&mut self)
        ensures synced { pending_in self.new ≡ after_change (pending_in self.old) Synced }
        ensures bytes { self.new.bytes ≡ self.old.bytes }
        ensures places { vec_capacity self.new.places ≡ vec_capacity self.old.places }
    {
        self.least = self.bytes.len();
        self.greatest = self.bytes.len();
        self.places.clear();
        self.calm = true;
    }

    // What a crash leaves with this tail behind the least length, and with this byte where one was put.
    pub fn image(&self, alloc: Global, tail: &[u8], gate: u8) -> Result<Vec<u8>, AllocError>
        requires { self.now.least ≤ vec_len self.now.bytes }
        ensures value { IfOk result (λ image. image.items ≡ image_of (pending_in self.now) tail.now gate) }
        ensures tail { AreBytes tail.now }
    {
        let mut image = self.bytes[..self.least].to_vec(alloc)?;
        let room = self.greatest.saturating_sub(self.least);
        image.extend_from_slice(&tail[..tail.len().min(room)])?;
        set_each(&mut image, &self.places, gate);
        Ok(image)
    }
}

// Writes one byte at each place that lies there.
fn set_each(bytes: &mut [u8], places: &[usize], byte: u8)
    ensures { bytes.new ≡ with_byte_at byte places.now bytes.old }
{
    for at in places {
        if *at < bytes.len() {
            bytes[*at] = byte;
        }
    }
}
