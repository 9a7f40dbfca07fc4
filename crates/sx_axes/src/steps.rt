//! The steps of a walk, each of at most one read.
ghost use Rattle.std.specs.Prelude.{◌≡◌, ◌+◌, ◌≤◌, ◌<◌, ◌⊎◌, IfErr, IfOk, IfSome, None, Ok, Option, Some, false, true};
ghost use Rattle.sx_outside.specs.Faults.{Rose};
ghost use Rattle.sx_tree.specs.declared.record.NodeRecord.{NodeRecord};
ghost use Rattle.sx_view.specs.Records.{Explains, IsDamaged, RecordMap};
ghost use Rattle.sx_view.specs.Rows.{row_of};
ghost use Rattle.sx_cursor.specs.Told.{Tells};
ghost use Rattle.sx_tree.specs.declared.query.Axis.TheVariants.{Preceding};
ghost use Rattle.sx_axes.specs.Broken.{HasLink, IsBroken, LeadsTo, IsReady};
ghost use Rattle.sx_axes.specs.Course.{GoesAhead, GoesAlong, HasEnded, first_link, goes_to_end, link_of, reads_left};
ghost use Rattle.sx_axes.specs.Start.{IsStart};
ghost use Rattle.sx_axes.specs.declared.course.Passage.TheVariants.{Ended};
ghost use Rattle.sx_axes.specs.Gives.{Advances, Follows, GetsNearer, TakesMore};

use crate::course::{Course, Passage};
use std::alloc::Global;
use sx_cursor::{endless, read_linked};
use sx_tree::query::Axis;
use sx_tree::record::NodeRecord;
use sx_view::{Fault, Records};

/// The link of the node along which its axis begins.
fn first_link(axis: Axis, node: &NodeRecord) -> Option<u32>
    ensures { result ≡ first_link axis (row_of node.now) }
{
    match axis {
        Axis::Child | Axis::Descendant => node.first,
        Axis::Ancestor => node.parent,
        Axis::Following | Axis::FollowingSibling => node.right,
        Axis::Preceding | Axis::PrecedingSibling => node.left,
    }
}

impl Course {
    /// The course along an axis of the node whose record this is.
    pub(crate) fn start(axis: Axis, node: u32, told: &NodeRecord, count: u32) -> Course
        ensures { IsStart axis node (row_of told.now) count result }
    {
        Course {
            axis,
            from: node,
            next: first_link(axis, told),
            up: told.parent,
            levels: 0,
            left: count,
            count,
        }
    }

    /// The course at its end.
    pub(crate) fn ended(&self) -> Course
        ensures ended { HasEnded result }
        ensures axis { result.axis ≡ self.now.axis }
        ensures count { result.count ≡ self.now.count }
        ensures none { reads_left result ≡ 0 }
        ensures ready { (o : Option (RecordMap NodeRecord)) → IsReady o result }
    {
        Course {
            axis: self.axis,
            from: self.from,
            next: None,
            up: None,
            levels: 0,
            left: 0,
            count: self.count,
        }
    }

    /// The record of a node that takes a visit. A link of the last node leads to it.
    fn visit<N: Records<NodeRecord>>(
        &self,
        alloc: Global,
        records: &mut N,
        to: u32,
    ) -> Result<NodeRecord, Fault>
        requires linked { LeadsTo (N.told records.old) self.now.from to }
        ensures found { IfOk result (λ found. Tells (N.told records.old) to (Some (row_of found))) }
        ensures room { IfOk result (λ _. 0 < self.now.left) }
        ensures fault { IfErr result (Explains (N.damages records.old) (Rose (N.faults records.old) (N.faults records.new)) (IsBroken (N.told records.old) self.now.count)) }
        ensures none { IfErr result (λ fault. IsDamaged fault → (self.now.left ≡ 0) ⊎ Tells (N.told records.old) to None) }
        ensures gets { N.gets records.new ≤ N.gets records.old + 1 }
        ensures within { N.gets records.new ≤ N.gets records.old + self.now.left }
        ensures never_falls { N.faults records.old ≤ N.faults records.new }
        ensures keeps { N.keeps records.old records.new }
        ensures same { N.told records.new ≡ N.told records.old }
    {
        if self.left == 0 {
            return Err(Fault::Damaged(endless(self.count)));
        }
        read_linked(alloc, records, self.from, to)
    }

    /// The record of the node above. It takes a visit, but where it was visited on the way down.
    fn climb<N: Records<NodeRecord>>(
        &self,
        alloc: Global,
        records: &mut N,
        up: u32,
    ) -> Result<NodeRecord, Fault>
        requires linked { LeadsTo (N.told records.old) self.now.from up }
        ensures found { IfOk result (λ found. Tells (N.told records.old) up (Some (row_of found))) }
        ensures room { IfOk result (λ _. 0 < self.now.levels + self.now.left) }
        ensures fault { IfErr result (Explains (N.damages records.old) (Rose (N.faults records.old) (N.faults records.new)) (IsBroken (N.told records.old) self.now.count)) }
        ensures none { IfErr result (λ fault. IsDamaged fault → (self.now.levels + self.now.left ≡ 0) ⊎ Tells (N.told records.old) up None) }
        ensures gets { N.gets records.new ≤ N.gets records.old + 1 }
        ensures within { N.gets records.new ≤ N.gets records.old + (self.now.levels + self.now.left) }
        ensures never_falls { N.faults records.old ≤ N.faults records.new }
        ensures keeps { N.keeps records.old records.new }
        ensures same { N.told records.new ≡ N.told records.old }
    {
        if self.levels == 0 {
            return self.visit(alloc, records, up);
        }
        read_linked(alloc, records, self.from, up)
    }

    /// The link of this node along which the axis goes on.
    fn link(&self, node: &NodeRecord) -> Option<u32>
        requires { GoesAlong self.now.axis }
        ensures along { result ≡ link_of self.now.axis (row_of node.now) }
        ensures linked { IfSome result (HasLink (row_of node.now)) }
    {
        match self.axis {
            Axis::Ancestor => node.parent,
            Axis::PrecedingSibling => node.left,
            _ => node.right,
        }
    }

    /// Goes on along one link of each node.
    fn along<N: Records<NodeRecord>>(
        &mut self,
        alloc: Global,
        records: &mut N,
    ) -> Result<Passage, Fault>
        requires ready { IsReady (N.told records.old) self.old }
        requires along { GoesAlong self.old.axis }
        ensures ready { IfOk result (λ _. IsReady (N.told records.old) self.new) }
        ensures advances { IfOk result (λ passage. Advances (N.told records.old) self.old passage self.new) }
        ensures beyond { IfErr result (λ fault. IsDamaged fault → TakesMore (N.told records.old) self.old) }
        ensures fault { IfErr result (Explains (N.damages records.old) (Rose (N.faults records.old) (N.faults records.new)) (IsBroken (N.told records.old) self.old.count)) }
        ensures nearer { IfOk result (λ passage. GetsNearer self.old passage self.new) }
        ensures ended { HasEnded self.old → result ≡ Ok Ended }
        ensures reads { IfOk result (λ _. N.gets records.new + reads_left self.new ≤ N.gets records.old + reads_left self.old) }
        ensures within { IfErr result (λ _. N.gets records.new ≤ N.gets records.old + reads_left self.old) }
        ensures axis { self.new.axis ≡ self.old.axis }
        ensures count { self.new.count ≡ self.old.count }
        ensures never_falls { N.faults records.old ≤ N.faults records.new }
        ensures keeps { N.keeps records.old records.new }
        ensures same { N.told records.new ≡ N.told records.old }
    {
        let Some(to) = self.next else {
            return Ok(Passage::Ended);
        };
        let record = self.visit(alloc, records, to)?;
        let next = self.link(&record);
        *self = Course {
            axis: self.axis,
            from: to,
            next,
            up: None,
            levels: self.levels,
            left: self.left - 1,
            count: self.count,
        };
        Ok(Passage::Comes(to))
    }

    /// Goes on in preorder: to the first child, to the sibling behind, or behind the node above.
    fn ahead<N: Records<NodeRecord>>(
        &mut self,
        alloc: Global,
        records: &mut N,
    ) -> Result<Passage, Fault>
        requires ready { IsReady (N.told records.old) self.old }
        requires ahead { GoesAhead self.old.axis }
        ensures ready { IfOk result (λ _. IsReady (N.told records.old) self.new) }
        ensures advances { IfOk result (λ passage. Advances (N.told records.old) self.old passage self.new) }
        ensures beyond { IfErr result (λ fault. IsDamaged fault → TakesMore (N.told records.old) self.old) }
        ensures fault { IfErr result (Explains (N.damages records.old) (Rose (N.faults records.old) (N.faults records.new)) (IsBroken (N.told records.old) self.old.count)) }
        ensures nearer { IfOk result (λ passage. GetsNearer self.old passage self.new) }
        ensures ended { HasEnded self.old → result ≡ Ok Ended }
        ensures reads { IfOk result (λ _. N.gets records.new + reads_left self.new ≤ N.gets records.old + reads_left self.old) }
        ensures within { IfErr result (λ _. N.gets records.new ≤ N.gets records.old + reads_left self.old) }
        ensures axis { self.new.axis ≡ self.old.axis }
        ensures count { self.new.count ≡ self.old.count }
        ensures never_falls { N.faults records.old ≤ N.faults records.new }
        ensures keeps { N.keeps records.old records.new }
        ensures same { N.told records.new ≡ N.told records.old }
    {
        let Some(to) = self.next else {
            return self.ahead_of_above(alloc, records);
        };
        let record = self.visit(alloc, records, to)?;
        if record.first.is_some() {
            *self = Course {
                axis: self.axis,
                from: to,
                next: record.first,
                up: record.parent,
                levels: self.levels + 1,
                left: self.left - 1,
                count: self.count,
            };
            return Ok(Passage::Comes(to));
        }
        *self = Course {
            axis: self.axis,
            from: to,
            next: record.right,
            up: record.parent,
            levels: self.levels,
            left: self.left - 1,
            count: self.count,
        };
        Ok(Passage::Comes(to))
    }

    /// Whether the axis goes on behind the node above.
    fn goes_above(&self) -> bool
        ensures on { result ≡ true → self.now.levels ≡ 0 → goes_to_end self.now.axis ≡ true }
        ensures low { result ≡ false → (self.now.levels ≡ 0) × (goes_to_end self.now.axis ≡ false) }
    {
        self.levels > 0 || matches!(self.axis, Axis::Following)
    }

    /// Goes on behind the node above.
    fn ahead_of_above<N: Records<NodeRecord>>(
        &mut self,
        alloc: Global,
        records: &mut N,
    ) -> Result<Passage, Fault>
        requires ready { IsReady (N.told records.old) self.old }
        requires ahead { GoesAhead self.old.axis }
        requires last { self.old.next ≡ None }
        ensures ready { IfOk result (λ _. IsReady (N.told records.old) self.new) }
        ensures advances { IfOk result (λ passage. Advances (N.told records.old) self.old passage self.new) }
        ensures beyond { IfErr result (λ fault. IsDamaged fault → TakesMore (N.told records.old) self.old) }
        ensures fault { IfErr result (Explains (N.damages records.old) (Rose (N.faults records.old) (N.faults records.new)) (IsBroken (N.told records.old) self.old.count)) }
        ensures nearer { IfOk result (λ passage. GetsNearer self.old passage self.new) }
        ensures ended { HasEnded self.old → result ≡ Ok Ended }
        ensures reads { IfOk result (λ _. N.gets records.new + reads_left self.new ≤ N.gets records.old + reads_left self.old) }
        ensures within { IfErr result (λ _. N.gets records.new ≤ N.gets records.old + reads_left self.old) }
        ensures axis { self.new.axis ≡ self.old.axis }
        ensures count { self.new.count ≡ self.old.count }
        ensures never_falls { N.faults records.old ≤ N.faults records.new }
        ensures keeps { N.keeps records.old records.new }
        ensures same { N.told records.new ≡ N.told records.old }
    {
        if !self.goes_above() {
            return Ok(Passage::Ended);
        }
        let Some(up) = self.up else {
            return Ok(Passage::Ended);
        };
        let record = self.climb(alloc, records, up)?;
        if self.levels == 0 {
            *self = Course {
                axis: self.axis,
                from: up,
                next: record.right,
                up: record.parent,
                levels: 0,
                left: self.left - 1,
                count: self.count,
            };
            return Ok(Passage::Passed);
        }
        *self = Course {
            axis: self.axis,
            from: up,
            next: record.right,
            up: record.parent,
            levels: self.levels - 1,
            left: self.left,
            count: self.count,
        };
        Ok(Passage::Passed)
    }

    /// Goes on back: down to the last child, to the sibling before, or to the node above.
    fn back<N: Records<NodeRecord>>(
        &mut self,
        alloc: Global,
        records: &mut N,
    ) -> Result<Passage, Fault>
        requires ready { IsReady (N.told records.old) self.old }
        requires back { self.old.axis ≡ Preceding }
        ensures ready { IfOk result (λ _. IsReady (N.told records.old) self.new) }
        ensures advances { IfOk result (λ passage. Advances (N.told records.old) self.old passage self.new) }
        ensures beyond { IfErr result (λ fault. IsDamaged fault → TakesMore (N.told records.old) self.old) }
        ensures fault { IfErr result (Explains (N.damages records.old) (Rose (N.faults records.old) (N.faults records.new)) (IsBroken (N.told records.old) self.old.count)) }
        ensures nearer { IfOk result (λ passage. GetsNearer self.old passage self.new) }
        ensures ended { HasEnded self.old → result ≡ Ok Ended }
        ensures reads { IfOk result (λ _. N.gets records.new + reads_left self.new ≤ N.gets records.old + reads_left self.old) }
        ensures within { IfErr result (λ _. N.gets records.new ≤ N.gets records.old + reads_left self.old) }
        ensures axis { self.new.axis ≡ self.old.axis }
        ensures count { self.new.count ≡ self.old.count }
        ensures never_falls { N.faults records.old ≤ N.faults records.new }
        ensures keeps { N.keeps records.old records.new }
        ensures same { N.told records.new ≡ N.told records.old }
    {
        let Some(to) = self.next else {
            return self.back_to_above(alloc, records);
        };
        let record = self.visit(alloc, records, to)?;
        if record.last.is_some() {
            *self = Course {
                axis: self.axis,
                from: to,
                next: record.last,
                up: record.parent,
                levels: self.levels + 1,
                left: self.left - 1,
                count: self.count,
            };
            return Ok(Passage::Passed);
        }
        *self = Course {
            axis: self.axis,
            from: to,
            next: record.left,
            up: record.parent,
            levels: self.levels,
            left: self.left - 1,
            count: self.count,
        };
        Ok(Passage::Comes(to))
    }

    /// Goes on to the node above, which is listed where it was visited on the way down.
    fn back_to_above<N: Records<NodeRecord>>(
        &mut self,
        alloc: Global,
        records: &mut N,
    ) -> Result<Passage, Fault>
        requires ready { IsReady (N.told records.old) self.old }
        requires back { self.old.axis ≡ Preceding }
        requires first { self.old.next ≡ None }
        ensures ready { IfOk result (λ _. IsReady (N.told records.old) self.new) }
        ensures advances { IfOk result (λ passage. Advances (N.told records.old) self.old passage self.new) }
        ensures beyond { IfErr result (λ fault. IsDamaged fault → TakesMore (N.told records.old) self.old) }
        ensures fault { IfErr result (Explains (N.damages records.old) (Rose (N.faults records.old) (N.faults records.new)) (IsBroken (N.told records.old) self.old.count)) }
        ensures nearer { IfOk result (λ passage. GetsNearer self.old passage self.new) }
        ensures ended { HasEnded self.old → result ≡ Ok Ended }
        ensures reads { IfOk result (λ _. N.gets records.new + reads_left self.new ≤ N.gets records.old + reads_left self.old) }
        ensures within { IfErr result (λ _. N.gets records.new ≤ N.gets records.old + reads_left self.old) }
        ensures axis { self.new.axis ≡ self.old.axis }
        ensures count { self.new.count ≡ self.old.count }
        ensures never_falls { N.faults records.old ≤ N.faults records.new }
        ensures keeps { N.keeps records.old records.new }
        ensures same { N.told records.new ≡ N.told records.old }
    {
        let Some(up) = self.up else {
            return Ok(Passage::Ended);
        };
        let record = self.climb(alloc, records, up)?;
        if self.levels == 0 {
            *self = Course {
                axis: self.axis,
                from: up,
                next: record.left,
                up: record.parent,
                levels: 0,
                left: self.left - 1,
                count: self.count,
            };
            return Ok(Passage::Passed);
        }
        *self = Course {
            axis: self.axis,
            from: up,
            next: record.left,
            up: record.parent,
            levels: self.levels - 1,
            left: self.left,
            count: self.count,
        };
        Ok(Passage::Comes(up))
    }

    /// Goes on by one read.
    pub(crate) fn advance<N: Records<NodeRecord>>(
        &mut self,
        alloc: Global,
        records: &mut N,
    ) -> Result<Passage, Fault>
        requires ready { IsReady (N.told records.old) self.old }
        ensures ready { IfOk result (λ _. IsReady (N.told records.old) self.new) }
        ensures advances { IfOk result (λ passage. Advances (N.told records.old) self.old passage self.new) }
        ensures beyond { IfErr result (λ fault. IsDamaged fault → TakesMore (N.told records.old) self.old) }
        ensures fault { IfErr result (Explains (N.damages records.old) (Rose (N.faults records.old) (N.faults records.new)) (IsBroken (N.told records.old) self.old.count)) }
        ensures nearer { IfOk result (λ passage. GetsNearer self.old passage self.new) }
        ensures ended { HasEnded self.old → result ≡ Ok Ended }
        ensures reads { IfOk result (λ _. N.gets records.new + reads_left self.new ≤ N.gets records.old + reads_left self.old) }
        ensures within { IfErr result (λ _. N.gets records.new ≤ N.gets records.old + reads_left self.old) }
        ensures axis { self.new.axis ≡ self.old.axis }
        ensures count { self.new.count ≡ self.old.count }
        ensures never_falls { N.faults records.old ≤ N.faults records.new }
        ensures keeps { N.keeps records.old records.new }
        ensures same { N.told records.new ≡ N.told records.old }
    {
        match self.axis {
            Axis::Descendant | Axis::Following => self.ahead(alloc, records),
            Axis::Preceding => self.back(alloc, records),
            _ => self.along(alloc, records),
        }
    }

    /// Goes on to the next node that is listed. None at the end.
    pub(crate) fn follow<N: Records<NodeRecord>>(
        &mut self,
        alloc: Global,
        records: &mut N,
    ) -> Result<Option<u32>, Fault>
        requires ready { IsReady (N.told records.old) self.old }
        ensures ready { IfOk result (λ _. IsReady (N.told records.old) self.new) }
        ensures follows { IfOk result (λ found. Follows (N.told records.old) self.old found self.new) }
        ensures beyond { IfErr result (λ fault. IsDamaged fault → TakesMore (N.told records.old) self.old) }
        ensures fault { IfErr result (Explains (N.damages records.old) (Rose (N.faults records.old) (N.faults records.new)) (IsBroken (N.told records.old) self.old.count)) }
        ensures nearer { IfOk result (λ found. IfSome found (λ _. reads_left self.new < reads_left self.old)) }
        ensures ended { HasEnded self.old → result ≡ Ok None }
        ensures reads { IfOk result (λ _. N.gets records.new + reads_left self.new ≤ N.gets records.old + reads_left self.old) }
        ensures within { IfErr result (λ _. N.gets records.new ≤ N.gets records.old + reads_left self.old) }
        ensures axis { self.new.axis ≡ self.old.axis }
        ensures count { self.new.count ≡ self.old.count }
        ensures never_falls { N.faults records.old ≤ N.faults records.new }
        ensures keeps { N.keeps records.old records.new }
        ensures same { N.told records.new ≡ N.told records.old }
    {
        loop {
            match self.advance(alloc, records)? {
                Passage::Comes(number) => return Ok(Some(number)),
                Passage::Passed => {}
                Passage::Ended => return Ok(None),
            }
        }
    }
}
