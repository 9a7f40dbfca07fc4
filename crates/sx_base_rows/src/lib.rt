//! The base crates by their public calls alone. The crate has tests alone.
#![tactic(auto)]

#[cfg(test)]
mod fields;
#[cfg(test)]
mod lines;
#[cfg(test)]
mod maps;
#[cfg(test)]
mod outside;
#[cfg(test)]
mod paths;
#[cfg(test)]
mod records;
#[cfg(test)]
mod replies;
#[cfg(test)]
mod texts;
#[cfg(test)]
mod trees;
#[cfg(test)]
mod volumes;
