//! Maps of records.
use std::alloc::Global;
use std::test::Fail;
use sx_tree::record::{PathRecord, Step};
use sx_view::{Fault, MemRecords, QueryFault, Records, RecordsMut, Refs};

/// A record that can be told from others by its count.
fn counted(count: u32) -> PathRecord {
    PathRecord {
        parent: 1,
        step: Step::Item,
        count,
    }
}

/// The counts of the records 1, 2 and 3.
fn counts<M: Records<PathRecord>>(
    alloc: Global,
    records: &mut M,
) -> Result<[Option<u32>; 3], Fault> {
    let first = records.get(alloc, 1)?.map(|r| r.count);
    let second = records.get(alloc, 2)?.map(|r| r.count);
    let third = records.get(alloc, 3)?.map(|r| r.count);
    Ok([first, second, third])
}

#[test]
fn puts_and_drops_undone(rt: HostRuntime) -> Result<(), Fail> {
    let alloc = rt.alloc();
    let mut records = MemRecords::new(alloc);
    records.put(alloc, 1, counted(10))?;
    records.put(alloc, 2, counted(20))?;
    records.begin();
    records.put(alloc, 1, counted(11))?;
    records.drop_record(alloc, 2)?;
    records.put(alloc, 3, counted(30))?;
    records.put(alloc, 2, counted(22))?;
    records.drop_record(alloc, 3)?;
    records.undo();
    assert_eq!(rt; counts(alloc, &mut records)?, [Some(10), Some(20), None]);
    records.begin();
    records.put(alloc, 1, counted(11))?;
    records.drop_record(alloc, 2)?;
    records.put(alloc, 3, counted(33))?;
    assert_eq!(rt; counts(alloc, &mut records)?, [Some(11), None, Some(33)]);
    records.keep();
    assert_eq!(rt; counts(alloc, &mut records)?, [Some(11), None, Some(33)]);
    Ok(())
}

#[test]
fn faults_and_refs(rt: HostRuntime) {
    assert_eq!(rt; QueryFault::from(Fault::Failed), QueryFault::Failed);
    assert_eq!(rt;
        QueryFault::from(Fault::OutOfMemory),
        QueryFault::OutOfMemory
    );
    assert!(rt; Refs::new().as_slice().is_empty());
}
