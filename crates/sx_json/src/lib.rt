//! Reads and writes JSON texts (RFC 8259).
#![tactic(auto)]

pub mod fault;
pub mod front;
pub mod reader;
mod scalars;
mod strings;
pub mod writer;

pub use fault::JsonFault;
pub use front::read_string;
pub use reader::read;
pub use writer::{hex_digit, write, write_string};
