//! What a document is and does: JSON texts, values, states, edits and commits, as definitions alone.
//!
//! The folder `specs/` is the crate. The definitions know nothing of files, caches or clients.
#![tactic(auto)]
