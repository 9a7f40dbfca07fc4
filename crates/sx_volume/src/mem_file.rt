ghost use Rattle.std.specs.Prelude.{◌≡◌, ◌+◌, ◌-◌, ◌++◌, ◌<◌, ◌≤◌, ◌↔◌, ◌⊎◌, ◌^◌, [], ◌∷◌, length, take, drop, IsErr, OnOk, OnErr, IfOk};
ghost use Rattle.sx_volume.specs.Change.{Appended, Put, Cut, Synced, AreBytes, IsImage, image_of};
ghost use Rattle.sx_volume.specs.Stored.{pending_of, bytes_in, after_look, after_fault, after_these, puts_of, changes_by};
ghost use Rattle.sx_volume.specs.Tally.{FailsNext};

use crate::content::Content;
use crate::counter::Counter;
use std::alloc::{AllocError, Global};
use std::marker::Model;
use sx_outside::Failed;

// A call that changed the file or synced it. The bytes that were appended stand elsewhere, one piece behind another.
#[derive(Drop)]
pub enum Call {
    Append { count: usize },
    PutByte { at: usize, byte: u8 },
    Cut { len: usize },
    Sync,
}

/// A file in memory, which tells its bytes and fails where it is told to.
///
/// It keeps a record of its calls, from which all that a crash may leave at each moment is known. The memory for what
/// may still come is taken before, as room: a call that finds too little of it fails, as on a disk that is full.
#[derive(Drop)]
pub struct MemFile {
    first: Vec<u8>,
    calls: Vec<Call>,
    appended: Vec<u8>,
    content: Content,
    room: usize,
    tally: Counter,
}

impl Model for MemFile {
    ghost use Rattle.sx_volume.specs.Stored.{Stored};

    ghost Value = { Stored };

    ghost use Rattle.sx_volume.specs.Kept.{stored_in, IsStored};

    ghost view = { stored_in };

    ghost invariant = { IsStored };
}

impl MemFile {
    /// A file with these bytes, all of them kept, and with no room yet. Of its calls of `read`, `append`, `put`,
    /// `write`, `cut` and `sync`, counted together from 1, those with the numbers in `failing` fail, and of the others
    /// those alone that find too little room.
    /// Errors: `AllocError` where memory runs out.
    pub fn new(alloc: Global, bytes: Vec<u8>, failing: Vec<u64>) -> Result<MemFile, AllocError>
        ensures { IfOk result (λ file. file ≡ record {
          first = bytes.items;
          changes = [];
          room = 0;
          tally = record { calls = 0; failing = failing.items; faults = 0 };
        }) }
    {
        Ok(MemFile {
            first: bytes.to_vec(alloc)?,
            calls: Vec::new(alloc),
            appended: Vec::new(alloc),
            content: Content::new(alloc, bytes),
            room: 0,
            tally: Counter::new(failing),
        })
    }

    /// All the bytes, as they are read.
    pub fn as_slice(&self) -> &[u8]
        ensures { result.now ≡ bytes_in self.now }
    {
        &self.content.bytes
    }

    /// One of the images that a crash may leave now. Behind the least length since the last sync that succeeded it has
    /// the tail, as far as that goes and at most up to the greatest length since then, and ends there. Each byte that
    /// was written over since then is the gate.
    /// Errors: `AllocError` where memory runs out.
    pub fn image(&self, alloc: Global, tail: &[u8], gate: u8) -> Result<Vec<u8>, AllocError>
        ensures value { IfOk result (λ image. image.items ≡ image_of (pending_of self.now) tail.now gate) }
        ensures image { IfOk result (λ image. IsImage (pending_of self.now) image.items) }
    {
        self.content.image(alloc, tail, gate)
    }

    /// Makes the room at least so large, by taking the memory for it. A change or a sync takes one of it, and an append
    /// or a write one more for each byte.
    /// Errors: `AllocError` where memory runs out; then the room is as it was.
    pub fn reserve(&mut self, room: usize) -> Result<(), AllocError>
        ensures ok { OnOk result (room ≤ self.new.room) }
        ensures err { OnErr result (self.new ≡ self.old) }
        ensures same { self.new ≡ record self.old { room = self.new.room } }
        ensures never_falls { self.old.room ≤ self.new.room }
    {
        if self.room < room {
            self.content.bytes.reserve(room)?;
            self.content.places.reserve(room)?;
            self.calls.reserve(room)?;
            self.appended.reserve(room)?;
            self.room = room;
        }
        Ok(())
    }

    /// Fills the room with the bytes from the place on.
    pub fn read(&mut self, at: usize, room: &mut [u8]) -> Result<(), Failed>
        requires { at + length room.old ≤ length (bytes_in self.old) }
        ensures fails { IsErr result ↔ FailsNext self.old.tally }
        ensures filled { OnOk result (room.new ≡ take (length room.old) (drop at (bytes_in self.old))) }
        ensures done { OnOk result (self.new ≡ after_look self.old) }
        ensures failed { OnErr result (self.new ≡ after_fault self.old) }
        ensures never_falls { self.old.tally.faults ≤ self.new.tally.faults }
    {
        self.tally.count()?;
        room.copy_from_slice(&self.content.bytes[at..at + room.len()]);
        Ok(())
    }

    /// Appends the piece.
    pub fn append(&mut self, piece: &[u8]) -> Result<(), Failed>
        ensures fails { IsErr result ↔ (FailsNext self.old.tally ⊎ (self.old.room ≤ length piece.now)) }
        ensures done { OnOk result (self.new ≡ after_these (after_look self.old) (Appended piece.now ∷ []) (length piece.now + 1)) }
        ensures piece { AreBytes piece.now }
        ensures failed { OnErr result (self.new ≡ after_fault self.old) }
        ensures never_falls { self.old.tally.faults ≤ self.new.tally.faults }
    {
        self.begin(piece.len())?;
        self.append_next(piece);
        Ok(())
    }

    /// Writes one byte over the byte at that place.
    pub fn put(&mut self, at: usize, byte: u8) -> Result<(), Failed>
        requires { at < length (bytes_in self.old) }
        ensures fails { IsErr result ↔ (FailsNext self.old.tally ⊎ (self.old.room ≡ 0)) }
        ensures done { OnOk result (self.new ≡ after_these (after_look self.old) (Put at byte ∷ []) 1) }
        ensures failed { OnErr result (self.new ≡ after_fault self.old) }
        ensures never_falls { self.old.tally.faults ≤ self.new.tally.faults }
    {
        self.begin(0)?;
        self.put_next(at, byte);
        Ok(())
    }

    /// Writes the piece at a place within the file or at its end.
    pub fn write(&mut self, at: usize, piece: &[u8]) -> Result<(), Failed>
        requires { at ≤ length (bytes_in self.old) }
        ensures fails { IsErr result ↔ (FailsNext self.old.tally ⊎ (self.old.room ≤ length piece.now)) }
        ensures done { OnOk result (self.new ≡ after_these (after_look self.old) (changes_by (length (bytes_in self.old)) at piece.now) (length piece.now + 1)) }
        ensures fits { OnOk result (at + length piece.now < 2 ^ 64) }
        ensures piece { AreBytes piece.now }
        ensures failed { OnErr result (self.new ≡ after_fault self.old) }
        ensures never_falls { self.old.tally.faults ≤ self.new.tally.faults }
    {
        self.begin(piece.len())?;
        let (over, behind) = piece.split_at(piece.len().min(self.as_slice().len() - at));
        self.put_each(at, over);
        self.append_next(behind);
        Ok(())
    }

    /// Makes the length `len`, by dropping what stands behind.
    pub fn cut(&mut self, len: usize) -> Result<(), Failed>
        requires { len ≤ length (bytes_in self.old) }
        ensures fails { IsErr result ↔ (FailsNext self.old.tally ⊎ (self.old.room ≡ 0)) }
        ensures done { OnOk result (self.new ≡ after_these (after_look self.old) (Cut len ∷ []) 1) }
        ensures failed { OnErr result (self.new ≡ after_fault self.old) }
        ensures never_falls { self.old.tally.faults ≤ self.new.tally.faults }
    {
        self.begin(0)?;
        self.content.cut(len);
        self.calls.push_reserved(Call::Cut { len });
        self.room -= 1;
        Ok(())
    }

    /// Keeps all that is there through a crash.
    pub fn sync(&mut self) -> Result<(), Failed>
        ensures fails { IsErr result ↔ (FailsNext self.old.tally ⊎ (self.old.room ≡ 0)) }
        ensures done { OnOk result (self.new ≡ after_these (after_look self.old) (Synced ∷ []) 1) }
        ensures failed { OnErr result (self.new ≡ after_fault self.old) }
        ensures never_falls { self.old.tally.faults ≤ self.new.tally.faults }
    {
        self.begin(0)?;
        self.content.sync();
        self.calls.push_reserved(Call::Sync);
        self.room -= 1;
        Ok(())
    }

    // Counts a call that will take one of the room and so much more.
    fn begin(&mut self, more: usize) -> Result<(), Failed>
        ensures fails { IsErr result ↔ (FailsNext self.old.tally ⊎ (self.old.room ≤ more)) }
        ensures room { OnOk result (more < self.old.room) }
        ensures done { OnOk result (self.new ≡ after_look self.old) }
        ensures failed { OnErr result (self.new ≡ after_fault self.old) }
        ensures never_falls { self.old.tally.faults ≤ self.new.tally.faults }
    {
        if self.room <= more {
            return Err(self.tally.fail());
        }
        self.tally.count()
    }

    // Writes one byte over another. It is no call by itself.
    fn put_next(&mut self, at: usize, byte: u8)
        requires place { at < length (bytes_in self.old) }
        requires room { 0 < self.old.room }
        ensures { self.new ≡ after_these self.old (Put at byte ∷ []) 1 }
    {
        self.content.put(at, byte);
        self.calls.push_reserved(Call::PutByte { at, byte });
        self.room -= 1;
    }

    // Appends a piece. It is no call by itself.
    fn append_next(&mut self, piece: &[u8])
        requires { length piece.now < self.old.room }
        ensures done { self.new ≡ after_these self.old (Appended piece.now ∷ []) (length piece.now + 1) }
        ensures piece { AreBytes piece.now }
    {
        self.content.append(piece);
        let Ok(()) = self.appended.extend_from_slice(piece) else {
            unreachable!("there is room");
        };
        self.calls
            .push_reserved(Call::Append { count: piece.len() });
        self.room -= piece.len() + 1;
    }

    // Writes the bytes of a piece over those from the place on, one after another.
    fn put_each(&mut self, at: usize, piece: &[u8])
        requires place { at + length piece.now ≤ length (bytes_in self.old) }
        requires fits { at + length piece.now < 2 ^ 64 }
        requires room { length piece.now ≤ self.old.room }
        ensures { self.new ≡ after_these self.old (puts_of at piece.now) (length piece.now) }
    {
        for (i, byte) in piece.iter().enumerate() {
            self.put_next(at + i, *byte);
        }
    }
}
