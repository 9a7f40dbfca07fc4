//! The frames whose cells stay filled, for all clients together.
ghost use Rattle.std.specs.Prelude.{◌≤◌};

use crate::{MOST_RESIDENTS, Offers, Residents};
use std::alloc::{AllocError, Global};
use std::sync::{Arc, Mutex, Wait};
use sx_cell::Cell;
use sx_volume::Spot;

/// A list of residents behind a lock. Under the lock it always is a list by last use, with no more frames than places.
#[derive(Drop)]
pub struct Residency<S: Spot> {
    residents: Mutex<Residents<S>>,
}

impl<S: Spot> Residency<S> {
    /// No frames, and so many places. Errors: `AllocError` where memory runs out.
    pub fn new(alloc: Global, places: u32) -> Result<Residency<S>, AllocError>
        requires { (1 ≤ places) × (places ≤ MOST_RESIDENTS) }
    {
        Ok(Residency {
            residents: Mutex::new(Residents::new(alloc, places)?),
        })
    }

    /// Takes the lock and offers frame k with its cell to the list. It may wait.
    /// Errors: `AllocError` where memory runs out.
    pub fn offer<R: Wait>(&self, rt: &R, k: u32, cell: &Arc<Cell<S>>) -> Result<(), AllocError> {
        let mut residents = self.residents.lock(rt);
        residents.offer(k, cell)?;
        Ok(())
    }
}

impl<S: Spot> Offers<S> for Residency<S> {
    fn offer<R: Wait>(&self, rt: &R, k: u32, cell: &Arc<Cell<S>>) -> Result<(), AllocError> {
        Residency::offer(self, rt, k, cell)
    }
}
