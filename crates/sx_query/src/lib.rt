//! What questions about a document at a revision answer, over the records of its nodes and paths.
#![tactic(auto)]

mod about;
mod lists;
mod nodes;
mod paths;
mod question;
mod walk;

pub use about::About;
pub use question::ask;
