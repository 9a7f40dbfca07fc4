ghost use Rattle.std.specs.Prelude.{Some, length};
ghost use Rattle.sx_volume.specs.Change.{IsImage};
ghost use Rattle.sx_volume.specs.Replay.{WasImage, SyncAt, counts_now, only_now, synced_by_now, as_read};
ghost use Rattle.sx_volume.specs.Stored.{pending_of, bytes_in};
ghost use Rattle.sx_file.specs.Length.{told_something};

use crate::File;
use std::alloc::{AllocError, Global};
use sx_outside::Failed;
use sx_volume::{MemEnd, MemFile, MemSpot};

impl File for MemFile {
    type Spot = MemSpot;

    type End = MemEnd;

    ghost bytes = { λ file. Some (bytes_in file) };

    ghost faults = { λ file. file.tally.faults };

    ghost moment = { λ file. length file.changes };

    ghost is_image = { λ file. IsImage (pending_of file) };

    ghost was_image = { λ file. WasImage file.first file.changes };

    ghost synced = { λ file. SyncAt file.changes };

    ghost counts_now = { λ file. counts_now file.first file.changes };

    ghost only_now = { λ file. only_now file.first file.changes };

    ghost synced_by_now = { λ file. synced_by_now file.changes };

    ghost reads = { λ file. as_read file.first file.changes };

    ghost nothing_known = { λ file c silent. told_something (bytes_in file) silent };

    fn len(&mut self) -> Result<u64, Failed> {
        Ok(self.as_slice().len() as u64)
    }

    fn read_at(&mut self, at: u64, room: &mut [u8]) -> Result<(), Failed> {
        self.read(at as usize, room)
    }

    fn write_at(&mut self, at: u64, piece: &[u8]) -> Result<(), Failed> {
        self.write(at as usize, piece)?;
        Ok(())
    }

    fn set_len(&mut self, len: u64) -> Result<(), Failed> {
        self.cut(len as usize)?;
        Ok(())
    }

    fn sync(&mut self) -> Result<(), Failed> {
        MemFile::sync(self)?;
        Ok(())
    }

    fn spot_of(&self, alloc: Global, _at: u64, piece: &[u8]) -> Result<MemSpot, AllocError> {
        MemSpot::new(alloc, piece)
    }

    fn spot_at(&self, alloc: Global, at: u64, count: u32) -> Result<MemSpot, AllocError> {
        let at = at as usize;
        MemSpot::new(alloc, &self.as_slice()[at..at + count as usize])
    }
}
