//! Records as bytes: each has one spelling, and no spelling begins another's.
#![tactic(auto)]

mod node;
mod path;
mod record;
mod text;

pub use record::Record;
