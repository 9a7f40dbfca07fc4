//! The roots of revisions: the head that the volume keeps of each, and the revision at a time.
#![tactic(auto)]

mod root;
mod roots;

pub use root::RevisionRoot;
pub use roots::{Roots, at_time};
