//! The frames whose cells stay filled.
ghost use Rattle.std.specs.Prelude.{◌≡◌, ◌≤◌, ◌<◌, [], IfOk, OnErr, OnOk, false, length, nat_eq, true};
ghost use Rattle.std.specs.Arc.{arc_value};
ghost use Rattle.sx_cache.specs.ByUse.{IsByUse};
ghost use Rattle.sx_cache.specs.OfferEnds.{HasNoPlace, HasRoom, IsEldest, IsNewest, OfferEnds};

use crate::{MOST_RESIDENTS, Offer};
use lru::LruCache;
use std::alloc::{AllocError, Global};
use std::marker::Model;
use std::num::NonZeroUsize;
use std::sync::Arc;
use sx_cell::Cell;
use sx_volume::Spot;

/// Frames by their number with their cells. In contracts it is their list with the last used first, and how many places
/// there are.
#[derive(Drop)]
pub struct Residents<S: Spot> {
    cells: LruCache<u32, Arc<Cell<S>>>,
}

impl<S: Spot> Model for Residents<S> {
    ghost use Rattle.sx_cache.specs.ByUse.{by_value};
    ghost use Rattle.sx_cache.specs.ResidentList.{ResidentList};

    ghost Value = { ResidentList S };

    ghost view = { λ it. record { list = by_value it.cells.entries; places = it.cells.cap } };
}

impl<S: Spot> Residents<S> {
    /// No frames, and so many places. Errors: `AllocError` where memory runs out.
    pub fn new(alloc: Global, places: u32) -> Result<Residents<S>, AllocError>
        requires { (1 ≤ places) × (places ≤ MOST_RESIDENTS) }
        ensures list { IfOk result (λ it. it.list ≡ []) }
        ensures places { IfOk result (λ it. it.places ≡ places) }
    {
        let Some(places) = NonZeroUsize::new(places as usize) else {
            unreachable!("it is above 0");
        };
        Ok(Residents {
            cells: LruCache::new(alloc, places)?,
        })
    }

    /// How many frames there are, at most one a place. No two have one number.
    pub fn len(&self) -> usize
        ensures len { result ≡ length self.now.list }
        ensures listed { IsByUse self.now.places nat_eq self.now.list }
    {
        self.cells.len()
    }

    /// Offers frame k with its cell. Where it is there or has room it is the newest. Else the eldest cell is emptied once.
    /// Where that took its frame the eldest goes for k. Where not, the list stays and the offered cell is emptied once.
    /// Errors: `AllocError` where memory runs out, and then the list is as it was.
    pub fn offer(&mut self, k: u32, cell: &Arc<Cell<S>>) -> Result<Offer, AllocError>
        ensures ok { IfOk result (λ offer. OfferEnds k (arc_value cell.now) offer self.old self.new) }
        ensures err { OnErr result (self.new ≡ self.old) }
    {
        let copy = Arc::try_clone(cell)?;
        if self.has_room(k) {
            self.put(k, copy)?;
            return Ok(Offer::Kept);
        }
        let (eldest, emptied) = self.empty_eldest();
        if emptied {
            self.put(k, copy)?;
            return Ok(Offer::Evicted { k: eldest });
        }
        cell.empty();
        Ok(Offer::KeptOut { k: eldest })
    }

    // Whether frame k is there or has a place.
    fn has_room(&self, k: u32) -> bool
        ensures room { result ≡ true → HasRoom k self.now }
        ensures no_place { result ≡ false → HasNoPlace k self.now }
        ensures not_empty { result ≡ false → 0 < length self.now.list }
    {
        self.cells.contains(&k) || self.cells.len() < self.cells.cap().get()
    }

    // Makes frame k the newest. Where there is no place for it, the eldest goes.
    fn put(&mut self, k: u32, cell: Arc<Cell<S>>) -> Result<(), AllocError>
        ensures ok { OnOk result (IsNewest k self.old (arc_value cell) self.new) }
        ensures err { OnErr result (self.new ≡ self.old) }
    {
        prove!(self.cells.len() <= self.cells.cap().get());
        self.cells.put(k, cell)?;
        Ok(())
    }

    // The number of the eldest, and whether its cell was emptied by this call.
    fn empty_eldest(&self) -> (u32, bool)
        requires { 0 < length self.now.list }
        ensures { IsEldest self.now result.0 }
    {
        let Some((k, cell)) = self.cells.peek_lru() else {
            unreachable!("the list is not empty");
        };
        (*k, cell.empty())
    }
}
