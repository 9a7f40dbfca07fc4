//! Fields as bytes: numbers with the highest byte first, and pieces of bytes, read and written one after
//! another; and what is told of a place whose bytes are damaged.
#![tactic(auto)]

mod damage;
mod fields;
mod fields_out;

pub use damage::{Damage, number_damage};
pub use fields::Fields;
pub use fields_out::FieldsOut;
