//! The table from records.
ghost use Rattle.std.specs.Prelude.{◌≡◌, ◌+◌, ◌<◌, ◌≤◌, IfErr, IfOk, IfSome, None, Some, length};
ghost use Rattle.std.specs.Option.{option_map};
ghost use Rattle.std.specs.FinMap as map;
ghost use Rattle.sx_outside.specs.Faults.{Rose};
ghost use Rattle.sx_view.specs.Records.{Explains, IsDamaged};
ghost use Rattle.sx_paths.specs.Load.{HasBrokenPath, IsBrokenPath, TellsFrom, broken_path};
ghost use Rattle.sx_paths.specs.OfState.{AreNoPaths, AreRows};
ghost use Rattle.sx_paths.specs.Table.{row_of};

use crate::table::PathTable;
use std::alloc::Global;
use sx_bytes::{Damage, number_damage};
use sx_tree::record::PathRecord;
use sx_view::{Fault, Records};

/// A path has no record, or its parent is not before it.
pub const BROKEN_PATH: u8 = 26;

/// What is told of a path that has no record, or whose parent is not before it.
pub fn broken_path(path: u32) -> Damage
    ensures { result ≡ broken_path path }
{
    number_damage(0, BROKEN_PATH, 0, u64::from(path))
}

/// The record of the path, whose parent is before it.
///
/// # Errors
///
/// `Failed` only where the faults of the object below rose; `Damaged` by rule 26 where the path has no record, or its
/// parent is not before it, and else only where the records are not told; `OutOfMemory`.
pub fn read_path<P: Records<PathRecord>>(
    alloc: Global,
    records: &mut P,
    path: u32,
) -> Result<PathRecord, Fault>
    ensures found { IfOk result (λ found. IfSome (P.told records.old)
        (λ told. option_map row_of (map.get told path) ≡ Some (row_of found))) }
    ensures before { IfOk result (λ found. found.parent < path) }
    ensures fault { IfErr result (Explains (P.damages records.old) (Rose (P.faults records.old) (P.faults records.new))
        (IsBrokenPath (P.told records.old) path)) }
    ensures gets { P.gets records.new ≤ P.gets records.old + 1 }
    ensures never_falls { P.faults records.old ≤ P.faults records.new }
    ensures keeps { P.keeps records.old records.new }
    ensures same { P.told records.new ≡ P.told records.old }
{
    let Some(found) = records.get(alloc, path)? else {
        return Err(Fault::Damaged(broken_path(path)));
    };
    if found.parent >= path {
        return Err(Fault::Damaged(broken_path(path)));
    }
    Ok(found)
}

impl PathTable {
    /// The table of the paths 1 to `count` of the records, with no mark.
    ///
    /// # Errors
    ///
    /// `Failed` only where the faults of the object below rose; `Damaged` by rule 26 where one of the paths has no
    /// record, or its parent is not before it, and else only where the records are not told: never over the records of
    /// a document that has so many paths; `OutOfMemory`.
    pub fn load<P: Records<PathRecord>>(
        alloc: Global,
        records: &mut P,
        count: u32,
    ) -> Result<PathTable, Fault>
        ensures paths { IfOk result (λ table. IfSome (P.told records.old) (λ told. TellsFrom told 1 table.paths)) }
        ensures count { IfOk result (λ table. length table.paths ≡ count) }
        ensures no_mark { IfOk result (λ table. table.marked ≡ None) }
        ensures of_state { IfOk result (λ table. AreRows (P.told records.old) count table.paths) }
        ensures sound { IfErr result (λ fault. IsDamaged fault → AreNoPaths (P.told records.old) count) }
        ensures fault { IfErr result (Explains (P.damages records.old) (Rose (P.faults records.old) (P.faults records.new))
            (HasBrokenPath (P.told records.old) count)) }
        ensures gets { P.gets records.new ≤ P.gets records.old + count }
        ensures never_falls { P.faults records.old ≤ P.faults records.new }
        ensures keeps { P.keeps records.old records.new }
    {
        let mut table = PathTable::new(alloc);
        for before in 0..count {
            let path = read_path(alloc, records, before + 1)?;
            table.add(alloc, path)?;
        }
        Ok(table)
    }
}
