//! Edits of a document over its records, in place.
#![tactic(auto)]

mod children;
mod clear;
mod climb;
mod damage;
mod edits;
mod fault;
mod fill;
mod grow;
mod insertion;
mod kinds;
mod label;
mod lift;
mod loading;
mod mend;
mod names;
mod paths;
mod places;
mod reads;
mod relabel;
mod removal;
mod renaming;
mod repath;
mod replacement;
mod room;
mod scalars;
mod trees;

pub use edits::apply;
pub use fault::EditFault;
