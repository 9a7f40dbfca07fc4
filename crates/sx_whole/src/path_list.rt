//! The paths of a body.
ghost use Rattle.std.specs.Prelude.{◌≡◌, ◌+◌, ◌<◌, ◌≤◌, ◌^◌, ◌++◌, [], ◌∷◌, IfErr, IfOk, List, ℕ, length, flat_map};
ghost use Rattle.std.specs.Int.{w32, to_be_bytes};
ghost use Rattle.sx_paths.specs.Table.{row_of};
ghost use Rattle.sx_whole.specs.Body.{AreNumbered, AreRows, IsRow, listed, path_entry, rows_of};
ghost use Rattle.sx_whole.specs.Broken.{BreaksPaths, BreaksSecond, Explains, HasNoPath, broken_record};

use crate::fault::{WholeFault, broken_record};
use crate::node_list::read_number;
use std::alloc::Global;
use sx_bytes::Fields;
use sx_record::Record;
use sx_tree::record::PathRecord;
use sx_view::{MemRecords, Records, RecordsMut};

/// The path at the front, which has this number.
fn read_path(
    alloc: Global,
    fields: &mut Fields,
    number: u32,
    place: u64,
) -> Result<PathRecord, WholeFault>
    ensures found { IfOk result (λ path. fields.old ≡ path_entry (row_of path) ++ fields.new) }
    ensures known { IfOk result (λ path. IsRow (row_of path)) }
    ensures fault { IfErr result (Explains (λ damage. HasNoPath fields.old × (damage ≡ broken_record place number))) }
{
    match PathRecord::decode(alloc, fields)? {
        Some(path) => Ok(path),
        None => Err(broken_record(place, number)),
    }
}

/// So many paths at the front.
fn read_all(
    alloc: Global,
    fields: &mut Fields,
    count: u32,
    place: u64,
) -> Result<MemRecords<PathRecord>, WholeFault>
    ensures found { IfOk result (λ paths. fields.old ≡ flat_map path_entry (rows_of
        (⟦<MemRecords<PathRecord> as Records<PathRecord>>⟧.told paths)) ++ fields.new) }
    ensures numbered { IfOk result (λ paths. AreNumbered
        (⟦<MemRecords<PathRecord> as Records<PathRecord>>⟧.told paths)) }
    ensures rows { IfOk result (λ paths. AreRows (rows_of
        (⟦<MemRecords<PathRecord> as Records<PathRecord>>⟧.told paths))) }
    ensures count { IfOk result (λ paths. length (rows_of
        (⟦<MemRecords<PathRecord> as Records<PathRecord>>⟧.told paths)) ≡ count) }
    ensures fault { IfErr result (Explains (BreaksPaths place count fields.old)) }
{
    let mut paths = MemRecords::new(alloc);
    for before in 0..count {
        let path = read_path(alloc, fields, before + 1, place)?;
        paths.put(alloc, before + 1, path)?;
    }
    Ok(paths)
}

/// The number of paths at the front, and so many paths.
pub(crate) fn read_paths(
    alloc: Global,
    fields: &mut Fields,
    place: u64,
) -> Result<(u32, MemRecords<PathRecord>), WholeFault>
    ensures found { IfOk result (λ all. let rows = rows_of
        (⟦<MemRecords<PathRecord> as Records<PathRecord>>⟧.told all.1) in
        fields.old ≡ to_be_bytes w32 (length rows) ++ (flat_map path_entry rows ++ fields.new)) }
    ensures numbered { IfOk result (λ all. AreNumbered (⟦<MemRecords<PathRecord> as Records<PathRecord>>⟧.told all.1)) }
    ensures rows { IfOk result (λ all. AreRows (rows_of
        (⟦<MemRecords<PathRecord> as Records<PathRecord>>⟧.told all.1))) }
    ensures few { IfOk result (λ all. length (rows_of
        (⟦<MemRecords<PathRecord> as Records<PathRecord>>⟧.told all.1)) < 2 ^ 32) }
    ensures count { IfOk result (λ all. all.0 ≡ length (rows_of
        (⟦<MemRecords<PathRecord> as Records<PathRecord>>⟧.told all.1))) }
    ensures fault { IfErr result (Explains (BreaksSecond place fields.old)) }
{
    let count = read_number(fields, place)?;
    let paths = read_all(alloc, fields, count, place)?;
    Ok((count, paths))
}
