//! The table of paths.
ghost use Rattle.std.specs.Prelude.{◌≡◌, ◌+◌, ◌-◌, ◌<◌, ◌≤◌, ◌++◌, ◌∷◌, [], ℕ, IfNone, IfOk, IfSome, IsSome, IsSomeAnd, None, OnErr, OnOk, Some, length, unwrap_or};
ghost use Rattle.std.specs.Option.{option_copied, option_map};
ghost use Rattle.sx_paths.specs.Table.{number_in, recount, row_at, row_of};

use crate::entries::{cut, next_stamp, note, restore};
use crate::entry::Entry;
use crate::index::Index;
use std::alloc::{AllocError, Global};
use std::marker::Model;
use sx_tree::record::{PathRecord, Step};

/// The paths of a document. Their numbers are 1, 2, and so on in the order in which they came; none goes, and a count may
/// fall to 0.
///
/// Contracts see the list of the paths, and that at the mark where there is one.
#[derive(Drop)]
pub struct PathTable {
    entries: Vec<Entry>,
    index: Index,
    /// How many paths there were at the mark.
    mark: Option<usize>,
    /// The number of the latest mark.
    stamp: u64,
}

impl Model for PathTable {
    ghost use Rattle.sx_paths.specs.Table.{Table};
    ghost use Rattle.sx_paths.specs.Entries.{IsTable, table_of};

    ghost Value = { Table };

    ghost view = { λ t. table_of t.stamp t.mark t.entries.items };

    ghost invariant = { λ t. IsTable t.stamp t.mark t.entries.items t.index };
}

impl PathTable {
    /// No path, and no mark.
    pub(crate) fn new(alloc: Global) -> PathTable
        ensures paths { result.paths ≡ [] }
        ensures no_mark { result.marked ≡ None }
    {
        PathTable {
            entries: Vec::new(alloc),
            index: Index::new(alloc),
            mark: None,
            stamp: 0,
        }
    }

    /// The number of the path that goes on from the parent by the step: of more, the least. None exactly where there is none.
    pub fn find(&self, parent: u32, step: &Step) -> Option<u32>
        ensures { result ≡ number_in self.now.paths parent step.now }
    {
        self.index.find(parent, step)
    }

    /// How many paths there are.
    pub fn len(&self) -> u32
        ensures { result ≡ length self.now.paths }
    {
        self.entries.len() as u32
    }

    /// The path of the number. None exactly where there is none.
    pub fn record(&self, p: u32) -> Option<&PathRecord>
        ensures { option_map row_of (option_copied result) ≡ row_at self.now.paths p }
    {
        let place = p.checked_sub(1)?;
        let entry = self.entries.get(place as usize)?;
        Some(&entry.path)
    }

    /// Adds a path at the end. A failure changes nothing.
    pub(crate) fn add(&mut self, alloc: Global, path: PathRecord) -> Result<(), AllocError>
        requires { length self.old.paths + 1 < 4_294_967_296 }
        ensures ok { OnOk result (self.new ≡ record self.old { paths = self.old.paths ++ row_of path ∷ [] }) }
        ensures err { OnErr result (self.new ≡ self.old) }
    {
        self.entries.reserve(1)?;
        let number = self.entries.len() as u32 + 1;
        note(&mut self.index, alloc, &path, number)?;
        self.entries.push_reserved(Entry::new(path, self.stamp));
        Ok(())
    }

    /// Adds the path that goes on from the parent by the step, on which no value stands yet. It gets the next number.
    ///
    /// The path is not there, its parent is below 2^30, and there is room. A failure changes nothing.
    pub fn enter(&mut self, alloc: Global, parent: u32, step: Step) -> Result<u32, AllocError>
        requires absent { number_in self.old.paths parent step ≡ None }
        requires room { length self.old.paths + 1 ≤ 1_073_741_823 }
        requires parent { parent < 1_073_741_824 }
        ensures number { IfOk result (λ number. number ≡ length self.old.paths + 1) }
        ensures entered { OnOk result (self.new ≡ record self.old { paths = self.old.paths ++ record { parent = parent; step = step; count = 0 } ∷ [] }) }
        ensures err { OnErr result (self.new ≡ self.old) }
    {
        let count = 0;
        self.add(
            alloc,
            PathRecord {
                parent,
                step,
                count,
            },
        )?;
        Ok(self.entries.len() as u32)
    }

    /// Counts so many values more on the path. The path is there, and the count stays below 2^32.
    pub fn count_in(&mut self, p: u32, n: u32)
        requires { IsSomeAnd (row_at self.old.paths p) (λ row. row.count + n < 4_294_967_296) }
        ensures { self.new ≡ record self.old { paths = recount (λ count. count + n) (p - 1) self.old.paths } }
    {
        let entry = &mut self.entries[p as usize - 1];
        let count = entry.path.count + n;
        entry.set_count(count, self.stamp);
    }

    /// Counts so many values less on the path. The path is there, and has so many.
    pub fn count_out(&mut self, p: u32, n: u32)
        requires { IsSomeAnd (row_at self.old.paths p) (λ row. n ≤ row.count) }
        ensures { self.new ≡ record self.old { paths = recount (λ count. count - n) (p - 1) self.old.paths } }
    {
        let entry = &mut self.entries[p as usize - 1];
        let count = entry.path.count - n;
        entry.set_count(count, self.stamp);
    }

    /// Marks the table as it is, instead of an earlier mark.
    pub fn begin(&mut self)
        ensures { self.new ≡ record self.old { marked = Some self.old.paths } }
    {
        self.stamp = next_stamp(&mut self.entries, self.stamp);
        self.mark = Some(self.entries.len());
    }

    /// Restores the table at the mark, and drops the mark.
    pub fn undo(&mut self)
        requires { IsSome self.old.marked }
        ensures paths { self.old.marked ≡ Some self.new.paths }
        ensures no_mark { self.new.marked ≡ None }
    {
        if let Some(len) = self.mark.take() {
            cut(&mut self.entries, &mut self.index, len);
            restore(&mut self.entries, self.stamp);
        }
    }

    /// Drops the mark.
    pub fn keep(&mut self)
        ensures { self.new ≡ record self.old { marked = None } }
    {
        self.mark = None;
    }
}
