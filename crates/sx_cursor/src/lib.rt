//! A place in the records of a document, and what is told where they are those of none.
#![tactic(auto)]

mod cursor;
mod damage;
mod reads;

pub use cursor::Cursor;
pub use damage::{broken_link, endless, misplaced};
pub use reads::{read, read_linked};
