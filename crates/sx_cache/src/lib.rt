//! Caches that order by last use: the leaves that one client read, and the frames whose cells stay filled.
#![tactic(auto)]

mod limits;
mod offer;
mod private_cache;
mod residency;
mod residents;

pub use limits::{MOST_RESIDENTS, PRIVATE_LEAVES};
pub use offer::{Offer, Offers};
pub use private_cache::PrivateCache;
pub use residency::Residency;
pub use residents::Residents;
