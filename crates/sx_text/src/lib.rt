//! The text of a node with all below it.
#![tactic(auto)]

mod node_text;
mod pen;
mod pieces;

pub use node_text::text;
