//! Which groups of frames show which commits: the fragments of leaves, the pages above them, and the frames of each revision.
//!
//! The folder `specs/` is the crate, and `laws` says what holds of its words.
#![tactic(auto)]

mod laws;

pub use laws::{counts_keep, one_list, order_keeps, pages_lead, window_of_nodes, window_of_paths};
