//! The entries of the table in their order.
ghost use Rattle.std.specs.Prelude.{◌≡◌, ◌-◌, ◌<◌, ◌≤◌, ℕ, OnErr, OnOk, length, map, take};
ghost use Rattle.sx_tree.specs.declared.record.Step.{Step};
ghost use Rattle.sx_paths.specs.Table.{row_of};
ghost use Rattle.sx_paths.specs.Entries.{AreStamped, IsIndexOf, left_at, noted_at, row_before, rows_of, stamps_of};
ghost use Rattle.sx_paths.specs.Words.{IsIndex, number_by};

use crate::entry::Entry;
use crate::index::Index;
use std::alloc::{AllocError, Global};
use sx_tree::record::PathRecord;

/// Takes away the paths behind the first so many, the last one first.
pub(crate) fn cut(entries: &mut Vec<Entry>, index: &mut Index, count: usize)
    requires within { count ≤ length entries.old.items }
    requires few { length entries.old.items < 4_294_967_296 }
    requires indexed { IsIndexOf index.old (rows_of entries.old.items) }
    ensures entries { entries.new.items ≡ take count entries.old.items }
    ensures indexed { IsIndexOf index.new (rows_of entries.new.items) }
{
    while entries.len() > count {
        if let Some(entry) = entries.pop() {
            leave(index, &entry.path, entries.len() as u32 + 1);
        }
    }
}

/// Puts a path into the index, where it has no number there.
pub(crate) fn note(
    index: &mut Index,
    alloc: Global,
    path: &PathRecord,
    number: u32,
) -> Result<(), AllocError>
    requires { IsIndex index.old }
    ensures index { IsIndex index.new }
    ensures ok { OnOk result ((parent : ℕ) (step : Step) → number_by index.new parent step ≡ noted_at path.now number (number_by index.old) parent step) }
    ensures err { OnErr result ((parent : ℕ) (step : Step) → number_by index.new parent step ≡ number_by index.old parent step) }
{
    if index.find(path.parent, &path.step).is_some() {
        return Ok(());
    }
    index.put(alloc, path.parent, &path.step, number)
}

/// Takes a path out of the index, where it has this number there.
fn leave(index: &mut Index, path: &PathRecord, number: u32)
    requires { IsIndex index.old }
    ensures index { IsIndex index.new }
    ensures numbers { (parent : ℕ) (step : Step) → number_by index.new parent step ≡ left_at path.now number (number_by index.old) parent step }
{
    if index.find(path.parent, &path.step) == Some(number) {
        index.remove(path.parent, &path.step);
    }
}

/// Puts back the counts at the mark.
pub(crate) fn restore(entries: &mut [Entry], stamp: u64)
    ensures rows { rows_of entries.new ≡ map (row_before stamp) entries.old }
    ensures stamps { stamps_of entries.new ≡ stamps_of entries.old }
{
    for entry in entries.iter_mut() {
        entry.restore(stamp);
    }
}

/// Forgets the marks since which counts were changed.
fn forget_stamps(entries: &mut [Entry])
    ensures rows { rows_of entries.new ≡ rows_of entries.old }
    ensures none { AreStamped 0 entries.new }
{
    for entry in entries.iter_mut() {
        entry.forget_stamp();
    }
}

/// The number of a new mark, which no entry has.
pub(crate) fn next_stamp(entries: &mut [Entry], stamp: u64) -> u64
    requires { AreStamped stamp entries.old }
    ensures rows { rows_of entries.new ≡ rows_of entries.old }
    ensures fresh { AreStamped (result - 1) entries.new }
    ensures positive { 1 ≤ result }
{
    if stamp == u64::MAX {
        forget_stamps(entries);
        return 1;
    }
    stamp + 1
}
