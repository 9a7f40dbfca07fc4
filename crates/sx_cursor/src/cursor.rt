//! A place in the records of a document.
ghost use Rattle.std.specs.Prelude.{◌≡◌, ◌+◌, ◌≤◌, IfErr, IfOk, IfSome, IfNone, None, Some, option_map};
ghost use Rattle.sx_outside.specs.Faults.{Rose};
ghost use Rattle.sx_view.specs.Records.{Explains, ExplainsFault, IsDamaged};
ghost use Rattle.sx_view.specs.Rows.{row_of};
ghost use Rattle.sx_cursor.specs.Cursor.{BreaksOff, IsMoved, IsMovedTo, IsNoPlace, Stands, place_of};
ghost use Rattle.sx_cursor.specs.Damage.{IsOfGet};
ghost use Rattle.sx_cursor.specs.Told.{Tells};

use crate::reads::read_linked;
use std::alloc::Global;
use sx_tree::record::NodeRecord;
use sx_view::{Fault, Records};

/// A node of the records, with its record. It goes from node to node.
#[derive(Drop)]
pub struct Cursor<'a, N: Records<NodeRecord>> {
    records: &'a mut N,
    at: u32,
    record: NodeRecord,
}

impl<'a, N: Records<NodeRecord>> Cursor<'a, N> {
    /// The cursor at the node of this number. None where there is no record of it.
    ///
    /// # Errors
    ///
    /// `Failed` only where the faults of the object below rose; `Damaged` only with a damage of that object; `OutOfMemory`.
    pub fn new(alloc: Global, records: &'a mut N, at: u32) -> Result<Option<Cursor<'a, N>>, Fault>
        ensures there { IfOk result (λ found. IfSome found (λ cursor. (cursor.at ≡ at) × Stands (N.told records.old) (place_of cursor.at cursor.record))) }
        ensures same_records { IfOk result (λ found. IfSome found (λ cursor. (cursor.records.ghost_name ≡ records.entry.ghost_name)
            × N.keeps records.old cursor.records.now)) }
        ensures gets { IfOk result (λ found. IfSome found (λ cursor. N.gets cursor.records.now ≤ N.gets records.old + 1)) }
        ensures absent { IfOk result (λ found. IfNone found (Tells (N.told records.old) at None)) }
        ensures fault { IfErr result (IsOfGet N.Records records.old) }
        ensures damaged { IfErr result (λ fault. IsDamaged fault → N.told records.old ≡ None) }
    {
        match records.get(alloc, at)? {
            Some(record) => Ok(Some(Cursor {
                records,
                at,
                record,
            })),
            None => Ok(None),
        }
    }

    /// Goes along this link of the node where it stands.
    fn follow(&mut self, alloc: Global, link: Option<u32>) -> Result<bool, Fault>
        ensures same_records { self.new.records.ghost_name ≡ self.old.records.ghost_name }
        ensures keeps { N.keeps self.old.records.now self.new.records.now }
        ensures gets { N.gets self.new.records.now ≤ N.gets self.old.records.now + 1 }
        ensures never_falls { N.faults self.old.records.now ≤ N.faults self.new.records.now }
        ensures moved { IfOk result (IsMoved (λ _. link) (N.told self.old.records.now) (place_of self.old.at self.old.record) (place_of self.new.at self.new.record)) }
        ensures stays { IfErr result (λ _. place_of self.new.at self.new.record ≡ place_of self.old.at self.old.record) }
        ensures fault { IfErr result (Explains (N.damages self.old.records.now) (Rose (N.faults self.old.records.now) (N.faults self.new.records.now))
            (BreaksOff (λ _. link) (N.told self.old.records.now) (place_of self.old.at self.old.record))) }
    {
        let Some(to) = link else {
            return Ok(false);
        };
        self.record = read_linked(alloc, self.records, self.at, to)?;
        self.at = to;
        Ok(true)
    }

    /// Goes to the node of this number. False where there is no record of it, and the place is kept.
    ///
    /// # Errors
    ///
    /// The place is kept. `Failed` only where the faults of the object below rose; `Damaged` only with a damage of that object;
    /// `OutOfMemory`.
    pub fn to(&mut self, alloc: Global, k: u32) -> Result<bool, Fault>
        ensures same_records { self.new.records.ghost_name ≡ self.old.records.ghost_name }
        ensures keeps { N.keeps self.old.records.now self.new.records.now }
        ensures gets { N.gets self.new.records.now ≤ N.gets self.old.records.now + 1 }
        ensures never_falls { N.faults self.old.records.now ≤ N.faults self.new.records.now }
        ensures moved { IfOk result (IsMovedTo k (N.told self.old.records.now) (place_of self.old.at self.old.record) (place_of self.new.at self.new.record)) }
        ensures stays { IfErr result (λ _. place_of self.new.at self.new.record ≡ place_of self.old.at self.old.record) }
        ensures fault { IfErr result (ExplainsFault (N.damages self.old.records.now) (Rose (N.faults self.old.records.now) (N.faults self.new.records.now))) }
    {
        match self.records.get(alloc, k)? {
            Some(record) => {
                self.record = record;
                self.at = k;
                Ok(true)
            }
            None => Ok(false),
        }
    }

    /// Goes to the parent of the node. False where there is no parent, and the place is kept.
    ///
    /// # Errors
    ///
    /// The place is kept. `Failed` only where the faults of the object below rose; `Damaged` where the link leads to a node
    /// that has no record, and else only with a damage of that object; `OutOfMemory`.
    pub fn to_parent(&mut self, alloc: Global) -> Result<bool, Fault>
        ensures same_records { self.new.records.ghost_name ≡ self.old.records.ghost_name }
        ensures keeps { N.keeps self.old.records.now self.new.records.now }
        ensures gets { N.gets self.new.records.now ≤ N.gets self.old.records.now + 1 }
        ensures never_falls { N.faults self.old.records.now ≤ N.faults self.new.records.now }
        ensures moved { IfOk result (IsMoved (λ w. w.parent) (N.told self.old.records.now) (place_of self.old.at self.old.record) (place_of self.new.at self.new.record)) }
        ensures stays { IfErr result (λ _. place_of self.new.at self.new.record ≡ place_of self.old.at self.old.record) }
        ensures fault { IfErr result (Explains (N.damages self.old.records.now) (Rose (N.faults self.old.records.now) (N.faults self.new.records.now))
            (BreaksOff (λ w. w.parent) (N.told self.old.records.now) (place_of self.old.at self.old.record))) }
        ensures sound { IfErr result (λ fault. IsDamaged fault → IsNoPlace (N.told self.old.records.now) (place_of self.old.at self.old.record)) }
    {
        self.follow(alloc, self.record.parent)
    }

    /// Goes to the first child of the node. False where there is no child, and the place is kept.
    ///
    /// # Errors
    ///
    /// The place is kept. `Failed` only where the faults of the object below rose; `Damaged` where the link leads to a node
    /// that has no record, and else only with a damage of that object; `OutOfMemory`.
    pub fn to_first(&mut self, alloc: Global) -> Result<bool, Fault>
        ensures same_records { self.new.records.ghost_name ≡ self.old.records.ghost_name }
        ensures keeps { N.keeps self.old.records.now self.new.records.now }
        ensures gets { N.gets self.new.records.now ≤ N.gets self.old.records.now + 1 }
        ensures never_falls { N.faults self.old.records.now ≤ N.faults self.new.records.now }
        ensures moved { IfOk result (IsMoved (λ w. w.first) (N.told self.old.records.now) (place_of self.old.at self.old.record) (place_of self.new.at self.new.record)) }
        ensures stays { IfErr result (λ _. place_of self.new.at self.new.record ≡ place_of self.old.at self.old.record) }
        ensures fault { IfErr result (Explains (N.damages self.old.records.now) (Rose (N.faults self.old.records.now) (N.faults self.new.records.now))
            (BreaksOff (λ w. w.first) (N.told self.old.records.now) (place_of self.old.at self.old.record))) }
        ensures sound { IfErr result (λ fault. IsDamaged fault → IsNoPlace (N.told self.old.records.now) (place_of self.old.at self.old.record)) }
    {
        self.follow(alloc, self.record.first)
    }

    /// Goes to the last child of the node. False where there is no child, and the place is kept.
    ///
    /// # Errors
    ///
    /// The place is kept. `Failed` only where the faults of the object below rose; `Damaged` where the link leads to a node
    /// that has no record, and else only with a damage of that object; `OutOfMemory`.
    pub fn to_last(&mut self, alloc: Global) -> Result<bool, Fault>
        ensures same_records { self.new.records.ghost_name ≡ self.old.records.ghost_name }
        ensures keeps { N.keeps self.old.records.now self.new.records.now }
        ensures gets { N.gets self.new.records.now ≤ N.gets self.old.records.now + 1 }
        ensures never_falls { N.faults self.old.records.now ≤ N.faults self.new.records.now }
        ensures moved { IfOk result (IsMoved (λ w. w.last) (N.told self.old.records.now) (place_of self.old.at self.old.record) (place_of self.new.at self.new.record)) }
        ensures stays { IfErr result (λ _. place_of self.new.at self.new.record ≡ place_of self.old.at self.old.record) }
        ensures fault { IfErr result (Explains (N.damages self.old.records.now) (Rose (N.faults self.old.records.now) (N.faults self.new.records.now))
            (BreaksOff (λ w. w.last) (N.told self.old.records.now) (place_of self.old.at self.old.record))) }
        ensures sound { IfErr result (λ fault. IsDamaged fault → IsNoPlace (N.told self.old.records.now) (place_of self.old.at self.old.record)) }
    {
        self.follow(alloc, self.record.last)
    }

    /// Goes to the sibling before the node. False where there is none, and the place is kept.
    ///
    /// # Errors
    ///
    /// The place is kept. `Failed` only where the faults of the object below rose; `Damaged` where the link leads to a node
    /// that has no record, and else only with a damage of that object; `OutOfMemory`.
    pub fn to_left(&mut self, alloc: Global) -> Result<bool, Fault>
        ensures same_records { self.new.records.ghost_name ≡ self.old.records.ghost_name }
        ensures keeps { N.keeps self.old.records.now self.new.records.now }
        ensures gets { N.gets self.new.records.now ≤ N.gets self.old.records.now + 1 }
        ensures never_falls { N.faults self.old.records.now ≤ N.faults self.new.records.now }
        ensures moved { IfOk result (IsMoved (λ w. w.left) (N.told self.old.records.now) (place_of self.old.at self.old.record) (place_of self.new.at self.new.record)) }
        ensures stays { IfErr result (λ _. place_of self.new.at self.new.record ≡ place_of self.old.at self.old.record) }
        ensures fault { IfErr result (Explains (N.damages self.old.records.now) (Rose (N.faults self.old.records.now) (N.faults self.new.records.now))
            (BreaksOff (λ w. w.left) (N.told self.old.records.now) (place_of self.old.at self.old.record))) }
        ensures sound { IfErr result (λ fault. IsDamaged fault → IsNoPlace (N.told self.old.records.now) (place_of self.old.at self.old.record)) }
    {
        self.follow(alloc, self.record.left)
    }

    /// Goes to the sibling behind the node. False where there is none, and the place is kept.
    ///
    /// # Errors
    ///
    /// The place is kept. `Failed` only where the faults of the object below rose; `Damaged` where the link leads to a node
    /// that has no record, and else only with a damage of that object; `OutOfMemory`.
    pub fn to_right(&mut self, alloc: Global) -> Result<bool, Fault>
        ensures same_records { self.new.records.ghost_name ≡ self.old.records.ghost_name }
        ensures keeps { N.keeps self.old.records.now self.new.records.now }
        ensures gets { N.gets self.new.records.now ≤ N.gets self.old.records.now + 1 }
        ensures never_falls { N.faults self.old.records.now ≤ N.faults self.new.records.now }
        ensures moved { IfOk result (IsMoved (λ w. w.right) (N.told self.old.records.now) (place_of self.old.at self.old.record) (place_of self.new.at self.new.record)) }
        ensures stays { IfErr result (λ _. place_of self.new.at self.new.record ≡ place_of self.old.at self.old.record) }
        ensures fault { IfErr result (Explains (N.damages self.old.records.now) (Rose (N.faults self.old.records.now) (N.faults self.new.records.now))
            (BreaksOff (λ w. w.right) (N.told self.old.records.now) (place_of self.old.at self.old.record))) }
        ensures sound { IfErr result (λ fault. IsDamaged fault → IsNoPlace (N.told self.old.records.now) (place_of self.old.at self.old.record)) }
    {
        self.follow(alloc, self.record.right)
    }

    /// The record of the node where it stands.
    pub fn record(&self) -> &NodeRecord
        ensures { result.now ≡ self.now.record }
    {
        &self.record
    }

    /// The number of the node where it stands.
    pub fn at(&self) -> u32
        ensures { result ≡ self.now.at }
    {
        self.at
    }

    /// The records, which can be used again.
    pub fn into_records(self) -> &'a mut N
        ensures same_records { result.ghost_name ≡ self.entry.records.ghost_name }
        ensures same { result.now ≡ self.entry.records.now }
    {
        self.records
    }
}
