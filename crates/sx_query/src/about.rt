//! What a question needs to know of a revision beside its records.
use sx_tree::text::Text;

/// What a question needs to know of a revision beside its records.
#[derive(Clone, Copy)]
pub struct About<'a> {
    /// How many nodes there are, the Document among them.
    pub nodes: u32,
    /// How many paths there are.
    pub paths: u32,
    /// The name of the field that tells from when on an object is valid.
    pub from: &'a Text,
    /// The name of the field that tells up to when it is valid.
    pub to: &'a Text,
}
