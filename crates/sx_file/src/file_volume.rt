ghost use Rattle.std.specs.Prelude.{◌≡◌, ◌≤◌, ◌-◌, ◌^◌, None, false, length};
ghost use Rattle.std.specs.Option.{ForSome};
ghost use Rattle.sx_outside.specs.Faults.{Rose};
ghost use Rattle.sx_volume.specs.Images.{IsWithin, Elapses, NoSync};
ghost use Rattle.sx_file.specs.Length.{length_in, told_length};

use crate::File;
use std::alloc::{AllocError, Global};
use std::marker::Model;
use std::sync::Arc;
use sx_outside::Failed;
use sx_volume::{HeldPiece, Volume, range_of};

/// A volume over a file. It tells its bytes where the file does.
///
/// It fails only where the file does. What a call that failed leaves is found by asking the length.
/// Its calls need no memory, so that they are always ready.
#[derive(Drop)]
pub struct FileVolume<F: File> {
    file: F,
    size: u64,
    held: Option<HeldPiece>,
    calm: bool,
    bytes_read: u64,
}

impl<F: File> Model for FileVolume<F> {
    ghost use Rattle.std.specs.Prelude.{◌≡◌};
    ghost use Rattle.sx_volume.specs.Held.{place_and_bytes};
    ghost use Rattle.sx_file.specs.Length.{length_in};
    ghost use Rattle.sx_file.specs.OnFile.{OnFile};

    ghost Value = { OnFile F };

    ghost view = { λ v. record {
      file = v.file;
      size = v.size;
      held = place_and_bytes v.held;
      calm = v.calm;
      bytes_read = v.bytes_read;
    } };

    ghost invariant = { λ v. length_in (F.bytes v.file) v.size ≡ v.size };
}

impl<F: File> FileVolume<F> {
    /// A volume over the file, whose length was asked. Nothing is held, and it is not calm before its first sync.
    pub fn new(file: F, size: u64) -> FileVolume<F>
        requires { ForSome (F.bytes file) (λ all. length all ≡ size) }
        ensures { result ≡ record {
          file = file;
          size = size;
          held = None;
          calm = false;
          bytes_read = 0;
        } }
    {
        FileVolume {
            file,
            size,
            held: None,
            calm: false,
            bytes_read: 0,
        }
    }
}

// The length of the file after a call that failed, or the given one where it cannot be asked.
fn length_or<F: File>(file: &mut F, otherwise: u64) -> u64
    ensures exact { ForSome (F.bytes file.old) (λ all. length all ≡ result) }
    ensures same_bytes { F.bytes file.new ≡ F.bytes file.old }
    ensures never_falls { F.faults file.old ≤ F.faults file.new }
    ensures no_image_more { IsWithin (F.is_image file.old) (F.was_image file.new (F.moment file.old)) }
    ensures no_sync { NoSync (F.synced file.old) (F.synced file.new) }
    ensures time { Elapses (F.moment file.old) (F.moment file.new) (F.was_image file.old) (F.was_image file.new) (F.synced file.old) (F.synced file.new) }
{
    match file.len() {
        Ok(len) => len,
        Err(Failed) => otherwise,
    }
}

impl<F: File> Volume for FileVolume<F> {
    type Spot = F::Spot;

    type End = F::End;

    ghost bytes = { λ volume. F.bytes volume.file };

    ghost size = { λ volume. length_in (F.bytes volume.file) volume.size };

    ghost faults = { λ volume. F.faults volume.file };

    ghost spare = { λ _. 2 ^ 32 - 1 };

    ghost bytes_read = { λ volume. volume.bytes_read };

    ghost held = { λ volume. volume.held };

    ghost calm = { λ volume. volume.calm };

    ghost moment = { λ volume. F.moment volume.file };

    ghost is_image = { λ volume. F.is_image volume.file };

    ghost was_image = { λ volume. F.was_image volume.file };

    ghost synced = { λ volume. F.synced volume.file };

    ghost counts_now = { λ volume. F.counts_now volume.file };

    ghost only_now = { λ volume. F.only_now volume.file };

    ghost synced_by_now = { λ volume. F.synced_by_now volume.file };

    ghost told_size = { λ volume. told_length (F.bytes volume.file) volume.size };

    ghost reads = { λ volume. F.reads volume.file };

    fn len(&self) -> u64 {
        self.size
    }

    fn read_at(&mut self, at: u64, room: &mut [u8]) -> Result<(), Failed> {
        self.bytes_read = self.bytes_read.saturating_add(room.len() as u64);
        self.file.read_at(at, room)
    }

    fn hold(&mut self, _alloc: Global, at: u64, piece: Arc<Vec<u8>>) -> Result<(), AllocError> {
        self.held = Some(HeldPiece { at, piece });
        Ok(())
    }

    fn ready(&mut self, _alloc: Global, _calls: u32) -> Result<(), AllocError> {
        Ok(())
    }

    fn append(&mut self) -> Result<(), Failed> {
        let Some(held) = &self.held else {
            unreachable!("the caller holds a piece");
        };
        let count = held.piece.len() as u64;
        self.calm = false;
        match self.file.write_at(self.size, held.piece.as_slice()) {
            Ok(()) => {
                self.held = None;
                self.size += count;
                Ok(())
            }
            Err(Failed) => {
                self.size = length_or(&mut self.file, self.size.saturating_add(count));
                Err(Failed)
            }
        }
    }

    fn put_byte(&mut self, at: u64, byte: u8) -> Result<(), Failed> {
        self.calm = false;
        self.file.write_at(at, &[byte])
    }

    fn cut(&mut self, len: u64) -> Result<(), Failed> {
        self.calm = false;
        match self.file.set_len(len) {
            Ok(()) => {
                self.size = len;
                Ok(())
            }
            Err(Failed) => {
                self.size = length_or(&mut self.file, self.size);
                Err(Failed)
            }
        }
    }

    fn sync(&mut self) -> Result<(), Failed> {
        self.file.sync()?;
        self.calm = true;
        Ok(())
    }

    fn spot(&self, alloc: Global, at: u64, count: u32) -> Result<F::Spot, AllocError> {
        match range_of(&self.held, at, count) {
            Some(range) => self.file.spot_of(alloc, at, range),
            None => self.file.spot_at(alloc, at, count),
        }
    }
}
