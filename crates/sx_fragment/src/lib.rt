//! Leaves: 64 slots with the records of as many numbers in a row.
#![tactic(auto)]

mod leaf;

pub use leaf::Leaf;
