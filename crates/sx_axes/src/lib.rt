//! Walks along the axes of a node.
#![tactic(auto)]

mod course;
mod iterator;
mod steps;
mod walks;

pub use course::Course;
pub use iterator::Walk;
pub use walks::walk;
