//! Cells shared by threads, and caches whose order was worked out by hand. The crate has tests, and one look-up with
//! clauses of its own.
#![tactic(auto)]

#[cfg(test)]
mod cells;
#[cfg(test)]
mod leaves;
pub mod look_up;
#[cfg(test)]
mod page;
#[cfg(test)]
mod residents;
#[cfg(test)]
mod threads;
