//! The table of the paths of a document: which path has which number, and how many values stand on it.
#![tactic(auto)]

mod entries;
mod entry;
mod index;
mod laws;
mod limit;
mod load;
mod table;
mod words;

pub use laws::{count_in_list, enter_into_list, find_in_list, list_parents_first};
pub use limit::room;
pub use load::{BROKEN_PATH, broken_path, read_path};
pub use table::PathTable;
