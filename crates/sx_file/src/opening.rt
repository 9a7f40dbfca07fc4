ghost use Rattle.std.specs.Prelude.{◌≡◌, IfOk, vec_len};

use crate::{File, FileEnd, FileVolume, StdFile};
use std::alloc::Global;
use std::fs::{Files, OpenOptions};
use std::io::ErrorKind;
use std::path::Path;
use std::{fs, io};
use sx_volume::Volume;

/// A real file that is open as a volume, with the ends that read beside it.
///
/// No other opening of the file succeeds before all of it is dropped.
#[derive(Drop)]
pub struct Opened {
    /// The volume over the file.
    pub volume: FileVolume<StdFile>,
    /// Its ends, each by a handle of its own.
    pub ends: Vec<FileEnd>,
}

/// Opens the file for reading and writing, with so many ends. Where there is none it is made, if `make` is set. It waits
/// for nobody.
/// Errors: `NotFound` where there is no file and none is to be made, `WouldBlock` where the file is open elsewhere,
/// `InvalidInput` where it is no file of bytes but a device or a pipe, `OutOfMemory` where memory runs out, and any other
/// that the system answers.
pub fn open<R: Files<File = fs::File>>(
    rt: &R,
    alloc: Global,
    path: &str,
    ends: usize,
    make: bool,
) -> io::Result<Opened>
    ensures { IfOk result (λ opened. vec_len opened.ends ≡ ends) }
{
    let file = OpenOptions::new()
        .read(true)
        .write(true)
        .create(make)
        .open(rt, path)?;
    if !file.metadata()?.is_file() {
        return Err(io::Error::from(ErrorKind::InvalidInput));
    }
    file.try_lock()?;
    // Where a standard stream is closed, the file has its number. A duplicate never has, so that no reply goes
    // into the volume.
    let volume = volume_over(StdFile::new(file.try_clone()?))?;
    if volume.len() == 0 {
        keep_name(rt, path)?;
    }
    let ends = make_ends(alloc, &file, ends)?;
    Ok(Opened { volume, ends })
}

// The volume over the file as it is.
fn volume_over(mut file: StdFile) -> io::Result<FileVolume<StdFile>> {
    match file.len() {
        Ok(size) => Ok(FileVolume::new(file, size)),
        Err(_) => Err(io::Error::from(ErrorKind::Other)),
    }
}

// Makes the name of a new file last through a crash, by a sync of the folder that it stands in.
fn keep_name<R: Files<File = fs::File>>(rt: &R, path: &str) -> io::Result<()> {
    let folder = match Path::new(path).parent() {
        Some(folder) if folder != Path::new("") => folder,
        _ => Path::new("."),
    };
    fs::File::open(rt, folder)?.sync_all()
}

// Ends over the file, each by a handle of its own.
fn make_ends(alloc: Global, file: &fs::File, count: usize) -> io::Result<Vec<FileEnd>>
    ensures { IfOk result (λ ends. vec_len ends ≡ count) }
{
    let mut ends = Vec::new(alloc);
    while ends.len() < count {
        ends.push(FileEnd::new(StdFile::new(file.try_clone()?)))?;
    }
    Ok(ends)
}
