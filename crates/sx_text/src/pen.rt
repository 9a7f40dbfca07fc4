//! A text that is being written, node after node.
ghost use Rattle.std.specs.Prelude.{◌≡◌, ◌+◌, ◌≤◌, ◌<◌, ◌++◌, ℕ, IfErr, IfOk, MatchResult, Option, None, Some, false, true, length, take};
ghost use Rattle.sx_outside.specs.Faults.{Rose};
ghost use Rattle.sx_view.specs.Records.{Explains, IsDamaged, RecordMap};
ghost use Rattle.sx_tree.specs.declared.record.NodeRecord.{NodeRecord};
ghost use Rattle.sx_text.specs.Pen.{GoesOn, IsRead, Writes, damaged, wrote};
ghost use Rattle.sx_text.specs.Text.{IsBroken};

use crate::pieces::{append_closing, append_comma, append_opening, byte_of, may_stand};
use std::alloc::Global;
use sx_cursor::{endless, misplaced, read_linked};
use sx_tree::bytes::Bytes;
use sx_tree::record::{Kind, NodeRecord};
use sx_view::{Fault, Records};

/// A node whose text has begun and has not ended, and the sibling behind it.
#[derive(Clone, Copy)]
pub(crate) struct Open {
    pub number: u32,
    pub kind: Kind,
    pub right: Option<u32>,
}

/// How far a text has come.
#[derive(Drop)]
pub(crate) struct Pen {
    /// The open nodes around the innermost one, the outermost first.
    pub outer: Vec<Open>,
    /// The innermost open node.
    pub above: Open,
    /// The node that links to the next one.
    pub from: u32,
    /// The child of the innermost open node that comes next.
    pub next: Option<u32>,
    /// Whether a child of the innermost open node has come.
    pub begun: bool,
    /// How many visits are left.
    pub left: u32,
}

impl Pen {
    /// Goes on to the child that comes next.
    fn enter<N: Records<NodeRecord>>(
        &mut self,
        alloc: Global,
        records: &mut N,
        number: u32,
        count: u32,
        out: &mut Bytes,
    ) -> Result<(), Fault>
        requires next { self.old.next ≡ Some number }
        requires read { IsRead (N.told records.old) self.old }
        ensures read { IfOk result (λ _. IsRead (N.told records.old) self.new) }
        ensures writes { MatchResult result (λ _. GoesOn (N.told records.old) self.old out.old true self.new out.new)
            (λ fault. IsDamaged fault → Writes (N.told records.old) self.old out.old damaged) }
        ensures left { IfOk result (λ _. self.new.left + 1 ≡ self.old.left) }
        ensures outer { IfOk result (λ _. length self.new.outer.items ≡ length self.old.outer.items + 1) }
        ensures fault { IfErr result (Explains (N.damages records.old) (Rose (N.faults records.old) (N.faults records.new)) (IsBroken (N.told records.old) count)) }
        ensures begins { take (length out.old) out.new ≡ out.old }
        ensures gets { N.gets records.new ≤ N.gets records.old + 1 }
        ensures never_falls { N.faults records.old ≤ N.faults records.new }
        ensures keeps { N.keeps records.old records.new }
        ensures same { N.told records.new ≡ N.told records.old }
    {
        if self.left == 0 {
            return Err(Fault::Damaged(endless(count)));
        }
        let node = read_linked(alloc, records, self.from, number)?;
        if !may_stand(self.above.kind, node.kind) {
            return Err(Fault::Damaged(misplaced(number, byte_of(node.kind))));
        }
        append_comma(self.begun, out)?;
        append_opening(&node, out)?;
        let Ok(()) = self.outer.push(self.above) else {
            return Err(Fault::OutOfMemory);
        };
        self.above = Open {
            number,
            kind: node.kind,
            right: node.right,
        };
        self.from = number;
        self.next = node.first;
        self.begun = false;
        self.left -= 1;
        Ok(())
    }

    /// Ends the innermost open node, and goes on behind it. False where it was the last one.
    fn leave(&mut self, out: &mut Bytes) -> Result<bool, Fault>
        requires next { self.old.next ≡ None }
        ensures read { (o : Option (RecordMap NodeRecord)) → IsRead o self.old → IfOk result (λ on. on ≡ true → IsRead o self.new) }
        ensures writes { (o : Option (RecordMap NodeRecord)) → MatchResult result (λ on. GoesOn o self.old out.old on self.new out.new)
            (λ fault. IsDamaged fault → Writes o self.old out.old damaged) }
        ensures left { self.new.left ≡ self.old.left }
        ensures outer { IfOk result (λ on. on ≡ true → length self.new.outer.items + 1 ≡ length self.old.outer.items) }
        ensures fault { (count : ℕ) (o : Option (RecordMap NodeRecord)) → IsRead o self.old → IfErr result (Explains (λ _. ⊥) ⊥ (IsBroken o count)) }
        ensures begins { take (length out.old) out.new ≡ out.old }
    {
        if !self.begun && matches!(self.above.kind, Kind::Key) {
            return Err(Fault::Damaged(misplaced(self.above.number, 0)));
        }
        append_closing(self.above.kind, out)?;
        let Some(open) = self.outer.pop() else {
            return Ok(false);
        };
        self.from = self.above.number;
        self.next = self.above.right;
        self.above = open;
        self.begun = true;
        Ok(true)
    }

    /// Goes on by one node that comes, or by the end of one. False where all is written.
    fn advance<N: Records<NodeRecord>>(
        &mut self,
        alloc: Global,
        records: &mut N,
        count: u32,
        out: &mut Bytes,
    ) -> Result<bool, Fault>
        requires read { IsRead (N.told records.old) self.old }
        ensures read { IfOk result (λ on. on ≡ true → IsRead (N.told records.old) self.new) }
        ensures writes { MatchResult result (λ on. GoesOn (N.told records.old) self.old out.old on self.new out.new)
            (λ fault. IsDamaged fault → Writes (N.told records.old) self.old out.old damaged) }
        ensures less { IfOk result (λ on. on ≡ true → self.new.left + self.new.left + length self.new.outer.items < self.old.left + self.old.left + length self.old.outer.items) }
        ensures fault { IfErr result (Explains (N.damages records.old) (Rose (N.faults records.old) (N.faults records.new)) (IsBroken (N.told records.old) count)) }
        ensures begins { take (length out.old) out.new ≡ out.old }
        ensures gets { IfOk result (λ _. N.gets records.new + self.new.left ≤ N.gets records.old + self.old.left) }
        ensures ends { IfOk result (λ on. on ≡ false → self.new.left ≡ self.old.left) }
        ensures never_falls { N.faults records.old ≤ N.faults records.new }
        ensures keeps { N.keeps records.old records.new }
        ensures same { N.told records.new ≡ N.told records.old }
    {
        match self.next {
            Some(number) => {
                self.enter(alloc, records, number, count, out)?;
                Ok(true)
            }
            None => self.leave(out),
        }
    }

    /// Writes all that is left, and answers how many visits are left then.
    pub(crate) fn finish<N: Records<NodeRecord>>(
        self,
        alloc: Global,
        records: &mut N,
        count: u32,
        out: &mut Bytes,
    ) -> Result<u32, Fault>
        requires read { IsRead (N.told records.old) self }
        ensures writes { MatchResult result (λ rest. Writes (N.told records.old) self out.old (wrote out.new rest))
            (λ fault. IsDamaged fault → Writes (N.told records.old) self out.old damaged) }
        ensures fault { IfErr result (Explains (N.damages records.old) (Rose (N.faults records.old) (N.faults records.new)) (IsBroken (N.told records.old) count)) }
        ensures begins { take (length out.old) out.new ≡ out.old }
        ensures gets { IfOk result (λ rest. N.gets records.new + rest ≤ N.gets records.old + self.left) }
        ensures never_falls { N.faults records.old ≤ N.faults records.new }
        ensures keeps { N.keeps records.old records.new }
        ensures same { N.told records.new ≡ N.told records.old }
    {
        let mut pen = self;
        while pen.advance(alloc, records, count, out)? {}
        Ok(pen.left)
    }
}
