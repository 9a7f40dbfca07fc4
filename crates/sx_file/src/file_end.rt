ghost use Rattle.std.specs.Prelude.{◌≡◌};

use crate::{File, FileSpot, StdFile};
use sx_outside::Failed;
use sx_volume::ReadEnd;

/// Reads the spots of a real file by a handle of its own. It claims nothing of the bytes that it reads.
#[derive(Drop)]
pub struct FileEnd {
    file: StdFile,
    reads: u64,
}

impl FileEnd {
    /// An end that has read nothing yet.
    pub fn new(file: StdFile) -> FileEnd
        ensures faults { ⟦<FileEnd as ReadEnd>⟧.faults result ≡ ⟦<StdFile as File>⟧.faults file }
        ensures reads { ⟦<FileEnd as ReadEnd>⟧.reads result ≡ 0 }
    {
        FileEnd { file, reads: 0 }
    }
}

impl ReadEnd for FileEnd {
    type Spot = FileSpot;

    ghost tells = { λ _. ⊥ };

    ghost faults = { λ end. ⟦<StdFile as File>⟧.faults end.file };

    ghost reads = { λ end. end.reads };

    fn read(&mut self, spot: &FileSpot, room: &mut [u8]) -> Result<(), Failed> {
        self.reads = self.reads.saturating_add(1);
        self.file.read_at(spot.at, room)
    }
}
