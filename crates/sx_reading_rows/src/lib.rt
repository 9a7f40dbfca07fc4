//! Reading within a revision, by its public calls alone. The crate has tests alone.
#![tactic(auto)]

#[cfg(test)]
mod axes;
#[cfg(test)]
mod documents;
#[cfg(test)]
mod moves;
#[cfg(test)]
mod paths;
#[cfg(test)]
mod selections;
#[cfg(test)]
mod texts;
#[cfg(test)]
mod valid_times;
