//! The objects of a document that are valid at a time.
#![tactic(auto)]

mod asked;
mod fields;
mod instants;
mod objects;
mod survey;

pub use objects::valid_at;
