//! A walk along an axis of a node.
ghost use Rattle.std.specs.Prelude.{◌≡◌, ◌+◌, ◌≤◌, Some};
ghost use Rattle.std.specs.Iterator.{at_most};
ghost use Rattle.sx_view.specs.Rows.{row_of};
ghost use Rattle.sx_cursor.specs.Told.{Tells};
ghost use Rattle.sx_axes.specs.Broken.{IsReady};
ghost use Rattle.sx_axes.specs.Course.{reads_left, turns_left};
ghost use Rattle.sx_axes.specs.Walk.{Starts, Walks};

use crate::course::Course;
use std::alloc::Global;
use sx_tree::query::Axis;
use sx_tree::record::NodeRecord;
use sx_view::{Fault, Records};

/// A walk along an axis of a node: an iterator of the numbers on it. After a fault it ends.
#[derive(Drop)]
pub struct Walk<'a, N: Records<NodeRecord>> {
    records: &'a mut N,
    alloc: Global,
    course: Course,
}

impl<'a, N: Records<NodeRecord>> Walk<'a, N> {
    /// The walk along an axis of the node whose record this is. It visits at most `count` nodes.
    pub fn start(
        alloc: Global,
        records: &'a mut N,
        axis: Axis,
        node: u32,
        told: &NodeRecord,
        count: u32,
    ) -> Walk<'a, N>
        requires there { Tells (N.told records.old) node (Some (row_of told.now)) }
        ensures same_records { result.records.ghost_name ≡ records.entry.ghost_name }
        ensures same { result.records.now ≡ records.old }
        ensures starts { Starts (N.told records.old) axis node result.course }
        ensures ready { IsReady (N.told records.old) result.course }
        ensures count { (result.course.left ≡ count) × (result.course.count ≡ count) }
        ensures reads { reads_left result.course ≤ count + count }
    {
        let course = Course::start(axis, node, told, count);
        Walk {
            records,
            alloc,
            course,
        }
    }

    /// The records, which can be used again.
    pub fn into_records(self) -> &'a mut N
        ensures same_records { result.ghost_name ≡ self.entry.records.ghost_name }
        ensures same { result.now ≡ self.entry.records.now }
    {
        self.records
    }
}

impl<'a, N: Records<NodeRecord>> Iterator for Walk<'a, N> {
    type Item = Result<u32, Fault>;

    ghost can_next = { λ s. IsReady (N.told s.records.now) s.course };

    ghost next_gives = { λ s given t. (t.records.ghost_name ≡ s.records.ghost_name) × Walks N.Records s.records.now t.records.now s.course given t.course };

    ghost remaining = { λ s. at_most (turns_left s.course) };

    fn next(&mut self) -> Option<Result<u32, Fault>> {
        match self.course.follow(self.alloc, self.records) {
            Ok(Some(number)) => Some(Ok(number)),
            Ok(None) => {
                self.course = self.course.ended();
                None
            }
            Err(fault) => {
                self.course = self.course.ended();
                Some(Err(fault))
            }
        }
    }
}
