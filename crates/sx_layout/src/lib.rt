//! What the bytes of a volume stand for, as definitions alone.
//!
//! The folder `specs/` is the crate. It says nothing of how the bytes came to be.
#![tactic(auto)]
