//! A whole document as the bytes of one body: its nodes with their numbers, and its paths.
#![tactic(auto)]

mod document;
mod fault;
mod laws;
mod node_list;
mod path_list;
#[cfg(test)]
mod tests;
mod views;
mod writing;

pub use document::{Document, read};
pub use fault::{BROKEN_LENGTH, BROKEN_RECORD, WholeFault, WriteFault};
pub use laws::one_body;
pub use writing::write;
