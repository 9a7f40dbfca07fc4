//! A search for the selected nodes, node after node in preorder.
ghost use Rattle.std.specs.Prelude.{◌≡◌, ◌+◌, ◌≤◌, ◌<◌, ◌++◌, OnOk, IfErr, IfOk, MatchResult, List, Option, None, Some, ℕ, false, true, length};
ghost use Rattle.sx_outside.specs.Faults.{Rose};
ghost use Rattle.sx_view.specs.Records.{Explains, IsDamaged, RecordMap};
ghost use Rattle.sx_tree.specs.declared.record.NodeRecord.{NodeRecord};
ghost use Rattle.sx_tree.specs.declared.steps.PathStep.{PathStep};
ghost use Rattle.sx_text.specs.Text.{IsBroken};
ghost use Rattle.sx_select.specs.Marks.{listed_one};
ghost use Rattle.sx_select.specs.Search.{Finds, GoesOn, IsRead, damaged, found, standing};

use crate::pending::{Search, Up};
use std::alloc::{AllocError, Global};
use std::mem;
use sx_cursor::{endless, misplaced, read_linked};
use sx_tree::numbers::Numbers;
use sx_tree::record::{Kind, NodeRecord};
use sx_tree::steps::PathStep;
use sx_view::{Fault, Records};

/// Adds the number of a node that is selected.
fn list(selected: bool, number: u32, out: &mut Numbers) -> Result<(), AllocError>
    ensures { OnOk result (out.new ≡ out.old ++ listed_one selected number) }
{
    if selected { out.push(number) } else { Ok(()) }
}

impl Search {
    /// Goes on to the node that comes next.
    fn enter<N: Records<NodeRecord>>(
        &mut self,
        alloc: Global,
        records: &mut N,
        steps: &[PathStep],
        number: u32,
        count: u32,
        out: &mut Numbers,
    ) -> Result<(), Fault>
        requires next { self.old.next ≡ Some number }
        requires read { IsRead (N.told records.old) self.old }
        ensures read { IfOk result (λ _. IsRead (N.told records.old) self.new) }
        ensures finds { MatchResult result (λ _. GoesOn steps.now (N.told records.old) (standing self.old out.old) true (standing self.new out.new))
            (λ fault. IsDamaged fault → Finds steps.now (N.told records.old) self.old out.old damaged) }
        ensures left { IfOk result (λ _. self.new.left + 1 ≡ self.old.left) }
        ensures outer { IfOk result (λ _. length self.new.outer.items ≤ length self.old.outer.items + 1) }
        ensures fault { IfErr result (Explains (N.damages records.old) (Rose (N.faults records.old) (N.faults records.new)) (IsBroken (N.told records.old) count)) }
        ensures gets { N.gets records.new ≤ N.gets records.old + 1 }
        ensures never_falls { N.faults records.old ≤ N.faults records.new }
        ensures keeps { N.keeps records.old records.new }
        ensures same { N.told records.new ≡ N.told records.old }
    {
        if self.left == 0 {
            return Err(Fault::Damaged(endless(count)));
        }
        let node = read_linked(alloc, records, self.from, number)?;
        list(self.level.last, number, out)?;
        let Some(_) = node.first else {
            if matches!(node.kind, Kind::Key) {
                return Err(Fault::Damaged(misplaced(number, 0)));
            }
            self.from = number;
            self.next = node.right;
            self.left -= 1;
            return Ok(());
        };
        let below = self.level.below(alloc, steps, &node)?;
        let level = mem::replace(&mut self.level, below);
        let Ok(()) = self.outer.push(Up {
            number,
            right: node.right,
            level,
        })
        else {
            return Err(Fault::OutOfMemory);
        };
        self.from = number;
        self.next = node.first;
        self.left -= 1;
        Ok(())
    }

    /// Goes on behind the node above. False where there is none.
    fn leave(&mut self) -> bool
        requires next { self.old.next ≡ None }
        ensures read { (o : Option (RecordMap NodeRecord)) → IsRead o self.old → result ≡ true → IsRead o self.new }
        ensures finds { (steps : List PathStep) (o : Option (RecordMap NodeRecord)) (listed : List ℕ)
            → GoesOn steps o (standing self.old listed) result (standing self.new listed) }
        ensures left { self.new.left ≡ self.old.left }
        ensures outer { result ≡ true → length self.new.outer.items + 1 ≡ length self.old.outer.items }
    {
        let Some(up) = self.outer.pop() else {
            return false;
        };
        let Up {
            number,
            right,
            level,
        } = up;
        self.from = number;
        self.next = right;
        self.level = level;
        true
    }

    /// Goes on by one node that comes, or by the end of a level. False where all is listed.
    fn advance<N: Records<NodeRecord>>(
        &mut self,
        alloc: Global,
        records: &mut N,
        steps: &[PathStep],
        count: u32,
        out: &mut Numbers,
    ) -> Result<bool, Fault>
        requires read { IsRead (N.told records.old) self.old }
        ensures read { IfOk result (λ on. on ≡ true → IsRead (N.told records.old) self.new) }
        ensures finds { MatchResult result (λ on. GoesOn steps.now (N.told records.old) (standing self.old out.old) on (standing self.new out.new))
            (λ fault. IsDamaged fault → Finds steps.now (N.told records.old) self.old out.old damaged) }
        ensures less { IfOk result (λ on. on ≡ true → self.new.left + self.new.left + length self.new.outer.items < self.old.left + self.old.left + length self.old.outer.items) }
        ensures fault { IfErr result (Explains (N.damages records.old) (Rose (N.faults records.old) (N.faults records.new)) (IsBroken (N.told records.old) count)) }
        ensures gets { IfOk result (λ _. N.gets records.new + self.new.left ≤ N.gets records.old + self.old.left) }
        ensures ends { IfOk result (λ on. on ≡ false → self.new.left ≡ self.old.left) }
        ensures never_falls { N.faults records.old ≤ N.faults records.new }
        ensures keeps { N.keeps records.old records.new }
        ensures same { N.told records.new ≡ N.told records.old }
    {
        match self.next {
            Some(number) => {
                self.enter(alloc, records, steps, number, count, out)?;
                Ok(true)
            }
            None => Ok(self.leave()),
        }
    }

    /// Lists all that is left, and answers how many visits are left then.
    pub(crate) fn finish<N: Records<NodeRecord>>(
        self,
        alloc: Global,
        records: &mut N,
        steps: &[PathStep],
        count: u32,
        out: &mut Numbers,
    ) -> Result<u32, Fault>
        requires read { IsRead (N.told records.old) self }
        ensures finds { MatchResult result (λ rest. Finds steps.now (N.told records.old) self out.old (found out.new rest))
            (λ fault. IsDamaged fault → Finds steps.now (N.told records.old) self out.old damaged) }
        ensures fault { IfErr result (Explains (N.damages records.old) (Rose (N.faults records.old) (N.faults records.new)) (IsBroken (N.told records.old) count)) }
        ensures gets { IfOk result (λ rest. N.gets records.new + rest ≤ N.gets records.old + self.left) }
        ensures never_falls { N.faults records.old ≤ N.faults records.new }
        ensures keeps { N.keeps records.old records.new }
        ensures same { N.told records.new ≡ N.told records.old }
    {
        let mut search = self;
        while search.advance(alloc, records, steps, count, out)? {}
        Ok(search.left)
    }
}
