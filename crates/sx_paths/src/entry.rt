//! What the table keeps of each path.
ghost use Rattle.std.specs.Prelude.{◌≡◌, ◌<◌};

use sx_tree::record::PathRecord;

/// A path, and how many values stood on it at the mark.
#[derive(Drop)]
pub(crate) struct Entry {
    pub(crate) path: PathRecord,
    /// The count when the mark was made, where the stamp is that mark's.
    before: u32,
    /// The number of the latest mark since which the count was changed.
    stamp: u64,
    ghost before_fits: { before < 4_294_967_296 },
}

impl Entry {
    ghost use Rattle.sx_paths.specs.Table.{row_of};
    ghost use Rattle.sx_paths.specs.Entries.{row_before};

    pub(crate) fn new(path: PathRecord, stamp: u64) -> Entry
        ensures row { row_of result.path ≡ row_of path }
        ensures stamp { result.stamp ≡ stamp }
    {
        let before = path.count;
        Entry {
            path,
            before,
            stamp,
        }
    }

    /// Changes the count, and notes the one before where it was not noted since the mark.
    pub(crate) fn set_count(&mut self, count: u32, stamp: u64)
        ensures row { row_of self.new.path ≡ record (row_of self.old.path) { count = count } }
        ensures before { row_before stamp self.new ≡ row_before stamp self.old }
        ensures stamp { self.new.stamp ≡ stamp }
    {
        if self.stamp != stamp {
            self.before = self.path.count;
            self.stamp = stamp;
        }
        self.path.count = count;
    }

    /// Puts back the count at the mark.
    pub(crate) fn restore(&mut self, stamp: u64)
        ensures row { row_of self.new.path ≡ row_before stamp self.old }
        ensures stamp { self.new.stamp ≡ self.old.stamp }
    {
        if self.stamp == stamp {
            self.path.count = self.before;
        }
    }

    /// Forgets the mark since which the count was changed.
    pub(crate) fn forget_stamp(&mut self)
        ensures row { row_of self.new.path ≡ row_of self.old.path }
        ensures stamp { self.new.stamp ≡ 0 }
    {
        self.stamp = 0;
    }
}
