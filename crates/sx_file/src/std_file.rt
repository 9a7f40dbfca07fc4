ghost use Rattle.std.specs.Prelude.{◌≡◌, ◌≤◌, None, IsOk, IfOk, OnOk, OnErr};
ghost use Rattle.sx_outside.specs.Faults.{Rose};

use crate::{File, FileEnd, FileSpot};
use std::alloc::{AllocError, Global};
use std::os::unix::fs::FileExt;
use std::{fs, io};
use sx_outside::Failed;

/// A real file, by one handle. It tells nothing: each call asks the system once, and each error is a fault.
///
/// That these calls do what their names say, and that the disk keeps what was synced, is trusted.
#[derive(Drop)]
pub struct StdFile {
    file: fs::File,
    faults: u64,
}

impl StdFile {
    /// The file of this handle, which is open for reading and, where it is to be written, for writing.
    pub fn new(file: fs::File) -> StdFile
        ensures { ⟦<StdFile as File>⟧.faults result ≡ 0 }
    {
        StdFile { file, faults: 0 }
    }

    // What the system answered, where each error counts as a fault.
    fn count<T: Drop>(&mut self, answer: io::Result<T>) -> Result<T, Failed>
        ensures passed_on { IfOk result (λ value. answer ≡ Ok value) }
        ensures no_other { IsOk answer → IsOk result }
        ensures same { OnOk result (self.new.faults ≡ self.old.faults) }
        ensures cause { OnErr result (Rose self.old.faults self.new.faults) }
        ensures never_falls { self.old.faults ≤ self.new.faults }
    {
        match answer {
            Ok(value) => Ok(value),
            Err(_) => {
                self.faults = self.faults.saturating_add(1);
                Err(Failed)
            }
        }
    }
}

impl File for StdFile {
    type Spot = FileSpot;

    type End = FileEnd;

    ghost bytes = { λ _. None };

    ghost faults = { λ file. file.faults };

    ghost moment = { λ _. 0 };

    ghost is_image = { λ _ _. Unit {0} };

    ghost was_image = { λ _ _ _. Unit {0} };

    ghost synced = { λ _ _. ⊥ };

    ghost counts_now = { λ _ _ _ _ _. tt };

    ghost only_now = { λ _ _ _. tt };

    ghost synced_by_now = { λ _ _ never. absurd never };

    ghost reads = { λ _ _ _. tt };

    ghost nothing_known = { λ _ _ _. tt };

    fn len(&mut self) -> Result<u64, Failed> {
        let metadata = self.file.metadata();
        self.count(metadata.map(|metadata| metadata.len()))
    }

    fn read_at(&mut self, at: u64, room: &mut [u8]) -> Result<(), Failed> {
        let read = self.file.read_exact_at(room, at);
        self.count(read)
    }

    fn write_at(&mut self, at: u64, piece: &[u8]) -> Result<(), Failed> {
        let written = match at.checked_add(piece.len() as u64) {
            Some(_) => self.file.write_all_at(piece, at),
            None => Err(io::Error::from(io::ErrorKind::InvalidInput)),
        };
        self.count(written)
    }

    fn set_len(&mut self, len: u64) -> Result<(), Failed> {
        let cut = self.file.set_len(len);
        self.count(cut)
    }

    fn sync(&mut self) -> Result<(), Failed> {
        let synced = self.file.sync_all();
        self.count(synced)
    }

    fn spot_of(&self, _alloc: Global, at: u64, piece: &[u8]) -> Result<FileSpot, AllocError> {
        Ok(FileSpot {
            at,
            count: piece.len() as u32,
        })
    }

    fn spot_at(&self, _alloc: Global, at: u64, count: u32) -> Result<FileSpot, AllocError> {
        Ok(FileSpot { at, count })
    }
}
