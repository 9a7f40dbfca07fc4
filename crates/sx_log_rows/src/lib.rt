//! Frames, roots and volumes with a birth, with the bytes that they must have. The crate has tests alone.
#![tactic(auto)]

#[cfg(test)]
mod births;
#[cfg(test)]
mod commits;
#[cfg(test)]
mod frames;
#[cfg(test)]
mod openings;
#[cfg(test)]
mod rooms;
#[cfg(test)]
mod roots;
