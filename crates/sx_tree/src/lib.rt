//! The plain types of a JSON document (RFC 8259).
#![tactic(auto)]

pub mod bytes;
mod compact;
pub mod edit;
pub mod json;
pub mod json_fault;
pub mod literal;
pub mod member_list;
mod named_list;
mod names;
pub mod number;
pub mod numbers;
pub mod query;
pub mod record;
pub mod steps;
pub mod text;
mod text_order;
