//! Whole runs over a volume in memory, with the bytes that they must write. The crate has tests alone.
#![tactic(auto)]

#[cfg(test)]
mod checks;
#[cfg(test)]
mod crashes;
#[cfg(test)]
mod damage;
#[cfg(test)]
mod documents;
#[cfg(test)]
mod edits;
#[cfg(test)]
mod faults;
#[cfg(test)]
mod lines;
#[cfg(test)]
mod revisions;
#[cfg(test)]
mod run;
#[cfg(test)]
mod stills;
#[cfg(test)]
mod streams;
#[cfg(test)]
mod volumes;
