//! Paths through a document: their text, and the nodes to which they lead.
#![tactic(auto)]

mod level;
mod mark;
mod path;
mod pending;
mod read_back;
mod search;
mod selection;
mod text_of_path;

pub use path::parse;
pub use read_back::spell_what_is_asked;
pub use selection::select;
pub use text_of_path::path_text;
