//! The table of paths, and their texts.
ghost use Rattle.std.specs.Prelude.{◌≡◌};

use std::alloc::Global;
use std::test::Fail;
use sx_paths::{PathTable, broken_path, room};
use sx_select::{parse, path_text};
use sx_tree::bytes::Bytes;
use sx_tree::record::{PathRecord, Step};
use sx_tree::text::Text;
use sx_view::{Fault, MemRecords, RecordsMut};

/// The last step: that to the document's child is `.`, that to an element `[]`, and else it is a name.
fn step_of(alloc: Global, step: &[u8]) -> Result<Step, Fail> {
    match step {
        b"." => Ok(Step::Top),
        b"[]" => Ok(Step::Item),
        name => Ok(Step::Name(Text::new(alloc, name)?)),
    }
}

/// The records of paths with these parents and last steps, on each of which one value stands.
fn paths_of(alloc: Global, paths: &[(u32, &[u8])]) -> Result<MemRecords<PathRecord>, Fail> {
    let mut records = MemRecords::new(alloc);
    let mut number: u32 = 0;
    for (parent, step) in paths {
        number = u32::saturating_add(number, 1);
        if *parent < 1_073_741_824 {
            let path = PathRecord {
                parent: *parent,
                step: step_of(alloc, step)?,
                count: 1,
            };
            records.put(alloc, number, path)?;
        }
    }
    Ok(records)
}

/// The texts of the paths of the orders, and of one whose name has to be escaped.
#[test]
fn texts(rt: HostRuntime) -> Result<(), Fail> {
    let alloc = rt.alloc();
    let mut records = paths_of(
        alloc,
        &[
            (0, b"."),
            (1, b"orders"),
            (2, b"[]"),
            (3, b"id"),
            (3, b"state"),
            (3, b"lines"),
            (6, b"[]"),
            (7, b"sku"),
            (7, b"qty"),
            (2, b"\"\n"),
        ],
    )?;
    let rows: [(u32, &[u8]); 6] = [
        (1, b"."),
        (2, b"/\"orders\""),
        (3, b"/\"orders\"[]"),
        (5, b"/\"orders\"[]/\"state\""),
        (9, b"/\"orders\"[]/\"lines\"[]/\"qty\""),
        (10, b"/\"orders\"/\"\\\"\\n\""),
    ];
    for (path, expected) in rows {
        let mut text = Bytes::new(alloc);
        assert!(rt; path_text(alloc, &mut records, path, &mut text)?);
        assert_eq!(rt; text.as_slice(), expected);
        assert!(rt; parse(alloc, text.as_slice())?.is_some());
    }
    for path in [0, 11] {
        let mut text = Bytes::new(alloc);
        assert!(rt; !path_text(alloc, &mut records, path, &mut text)?);
        assert!(rt; text.as_slice().is_empty());
    }
    Ok(())
}

/// A path with no record, and one whose parent is not before it.
#[test]
fn damage(rt: HostRuntime) -> Result<(), Fail> {
    let alloc = rt.alloc();
    let mut missing = paths_of(alloc, &[(0, b"."), (1, b"[]"), (2, b"[]")])?;
    missing.drop_record(alloc, 2)?;
    let mut text = Bytes::new(alloc);
    let fault = path_text(alloc, &mut missing, 3, &mut text).err();
    assert_eq!(rt; fault, Some(Fault::Damaged(broken_path(2))));
    let fault = PathTable::load(alloc, &mut missing, 3).err();
    assert_eq!(rt; fault, Some(Fault::Damaged(broken_path(2))));
    let mut looping = paths_of(alloc, &[(0, b"."), (2, b"[]")])?;
    let fault = path_text(alloc, &mut looping, 2, &mut text).err();
    assert_eq!(rt; fault, Some(Fault::Damaged(broken_path(2))));
    let fault = PathTable::load(alloc, &mut looping, 2).err();
    assert_eq!(rt; fault, Some(Fault::Damaged(broken_path(2))));
    assert!(rt; text.as_slice().is_empty());
    Ok(())
}

#[test]
fn limit(rt: HostRuntime) -> Result<(), Fail> {
    assert!(rt; room(1_073_741_822, 1));
    assert!(rt; !room(1_073_741_823, 1));
    Ok(())
}

/// The elements of an array of arrays have one path.
#[test]
fn arrays(rt: HostRuntime) -> Result<(), Fail> {
    let alloc = rt.alloc();
    let mut records = paths_of(alloc, &[(0, b"."), (1, b"[]"), (2, b"[]")])?;
    let table = PathTable::load(alloc, &mut records, 3)?;
    assert_eq!(rt; table.find(1, &Step::Item), Some(2));
    assert_eq!(rt; table.find(2, &Step::Item), Some(3));
    assert!(rt; table.find(3, &Step::Item).is_none());
    Ok(())
}

/// How many values stand on the path.
fn count_of(table: &PathTable, path: u32) -> Option<u32> {
    Some(table.record(path)?.count)
}

/// Counts so many values more on the path, where that can be.
fn more(table: &mut PathTable, path: u32, n: u32) -> bool
    ensures marked { table.new.marked ≡ table.old.marked }
{
    let Some(found) = table.record(path) else {
        return false;
    };
    if found.count > 1_000 || n > 1_000 {
        return false;
    }
    table.count_in(path, n);
    true
}

/// Counts so many values less on the path, where that can be.
fn fewer(table: &mut PathTable, path: u32, n: u32) -> bool
    ensures marked { table.new.marked ≡ table.old.marked }
{
    let Some(found) = table.record(path) else {
        return false;
    };
    if found.count < n {
        return false;
    }
    table.count_out(path, n);
    true
}

/// Enters a path, where it is missing and there is room.
fn enter(alloc: Global, table: &mut PathTable, parent: u32, step: Step) -> Result<Option<u32>, Fail>
    ensures marked { table.new.marked ≡ table.old.marked }
{
    if table.find(parent, &step).is_some()
        || table.record(1_073_741_823).is_some()
        || parent >= 1_073_741_824
    {
        return Ok(None);
    }
    let number = table.enter(alloc, parent, step)?;
    Ok(Some(number))
}

/// The paths of `{"a":1}`: the member goes, another one comes, and after this was undone the first comes again.
#[test]
fn member(rt: HostRuntime) -> Result<(), Fail> {
    let alloc = rt.alloc();
    let mut records = paths_of(alloc, &[(0, b"."), (1, b"a")])?;
    let mut table = PathTable::load(alloc, &mut records, 2)?;
    assert_eq!(rt; table.find(0, &Step::Top), Some(1));
    assert_eq!(rt; table.find(1, &step_of(alloc, b"a")?), Some(2));
    assert!(rt; table.find(1, &Step::Item).is_none());
    let mut text = Bytes::new(alloc);
    assert!(rt; path_text(alloc, &mut records, 2, &mut text)?);
    assert_eq!(rt; text.as_slice(), b"/\"a\"".as_slice());
    assert!(rt; fewer(&mut table, 2, 1));
    assert_eq!(rt; count_of(&table, 2), Some(0));
    table.begin();
    assert!(rt; more(&mut table, 2, 3));
    let entered = enter(alloc, &mut table, 1, step_of(alloc, b"b")?)?;
    assert_eq!(rt; entered, Some(3));
    assert!(rt; more(&mut table, 3, 1));
    assert_eq!(rt; count_of(&table, 3), Some(1));
    table.undo();
    assert!(rt; table.find(1, &step_of(alloc, b"b")?).is_none());
    assert!(rt; table.record(3).is_none());
    assert_eq!(rt; count_of(&table, 2), Some(0));
    table.begin();
    assert!(rt; more(&mut table, 2, 1));
    table.keep();
    assert_eq!(rt; count_of(&table, 2), Some(1));
    Ok(())
}
