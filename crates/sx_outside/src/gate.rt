use std::marker::Sync;

/// A place where a test may hold the clients of a block. It changes nothing of the store.
pub trait Gate: Sync {
    /// Comes before the client's step, both counted as the block counts them.
    fn pass(&self, client: u32, step: u32);
}
