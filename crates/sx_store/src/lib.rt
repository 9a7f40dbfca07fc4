//! The store: the one crate below the shell that knows how commits are kept.
//!
//! A writer takes edits and commits them, and answers questions about every revision. A commit is one group of the log with one
//! frame, which holds the whole document.
#![tactic(auto)]

mod commit;
mod draft;
mod fault;
mod group;
mod ledger;
mod opening;
mod writer;

pub use fault::{CommitFault, Committed, WriterFault};
pub use ledger::Ledger;
pub use opening::open_one;
pub use sx_log::LogFault;
pub use sx_view::{Fault as CheckFault, QueryFault};
pub use writer::Writer;
