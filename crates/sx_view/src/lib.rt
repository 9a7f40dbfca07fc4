//! Records by their numbers: what reads them, what changes them, and why that can fail.
#![tactic(auto)]

mod fault;
mod mem_records;
mod records;
mod refs;
mod slots;
mod views;

pub use fault::{Fault, QueryFault};
pub use mem_records::MemRecords;
pub use records::{Records, RecordsMut};
pub use refs::Refs;
pub use views::Views;
