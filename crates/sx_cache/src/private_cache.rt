//! The leaves that one client read.
ghost use Rattle.std.specs.Prelude.{◌≡◌, [], IfOk, None, true, false, OnErr, OnOk, is_some, length, option_map, slice_get};
ghost use Rattle.std.specs.Arc.{arc_value};
ghost use Rattle.std.specs.Borrow.{sem};
ghost use Rattle.std.specs.Map.{lookup};
ghost use Rattle.lru.specs.LruCache.{promoted};
ghost use Rattle.sx_cache.specs.ByUse.{IsByUse, is_leaf, same_leaf, with_newest};
ghost use Rattle.sx_cache.specs.PrivateUse.{LeavesPromoted};

use crate::PRIVATE_LEAVES;
use lru::LruCache;
use std::alloc::{AllocError, Global};
use std::marker::Model;
use std::num::NonZeroUsize;
use std::sync::Arc;
use sx_fragment::Leaf;

/// Leaves by revision and number. In contracts it is their list with the last used first.
#[derive(Drop)]
pub struct PrivateCache<R> {
    leaves: LruCache<(u32, u32), Arc<Leaf<R>>>,
}

impl<R> Model for PrivateCache<R> {
    ghost use Rattle.std.specs.Prelude.{◌≡◌, ℕ, List, Option};
    ghost use Rattle.sx_cache.specs.ByUse.{by_value};
    ghost use Rattle.sx_cache.specs.declared.limits.TheConstants.{PRIVATE_LEAVES};

    ghost Value = { List ((ℕ × ℕ) × List (Option R)) };

    ghost view = { λ cache. by_value cache.leaves.entries };

    ghost invariant = { λ cache. cache.leaves.cap ≡ PRIVATE_LEAVES };
}

impl<R: Drop> PrivateCache<R> {
    /// No leaves. Errors: `AllocError` where memory runs out.
    pub fn new(alloc: Global) -> Result<PrivateCache<R>, AllocError>
        ensures { IfOk result (λ cache. cache ≡ []) }
    {
        let Some(places) = NonZeroUsize::new(PRIVATE_LEAVES) else {
            unreachable!("it is above 0");
        };
        Ok(PrivateCache {
            leaves: LruCache::new(alloc, places)?,
        })
    }

    /// How many leaves there are, at most 16. No two have one revision and number.
    pub fn len(&self) -> usize
        ensures len { result ≡ length self.now }
        ensures listed { IsByUse PRIVATE_LEAVES same_leaf self.now }
    {
        self.leaves.len()
    }

    /// The leaf of this number at revision r, which is then the newest. None exactly where it is not there.
    pub fn get(&mut self, r: u32, leaf: u32) -> Option<&Arc<Leaf<R>>>
        ensures* promotes { sem 𝓛 (LeavesPromoted R.row self.entry r leaf) }
        ensures value { option_map (λ it. arc_value it.now) result ≡ lookup (is_leaf r leaf) self.old }
    {
        let there = self.promote(r, leaf);
        self.newest_if(there)
    }

    /// Keeps the leaf as the newest, in place of one of its revision and number.
    /// Where there is no place, the eldest goes. Errors: `AllocError` where memory runs out, and then nothing changes.
    pub fn put(&mut self, r: u32, leaf: u32, value: Arc<Leaf<R>>) -> Result<(), AllocError>
        ensures ok { let with_it = with_newest PRIVATE_LEAVES (is_leaf r leaf) (r, leaf) (arc_value value) self.old in
            OnOk result (self.new ≡ with_it) }
        ensures err { OnErr result (self.new ≡ self.old) }
    {
        prove!(self.leaves.len() <= PRIVATE_LEAVES);
        self.leaves.put((r, leaf), value)?;
        Ok(())
    }

    // Makes the leaf the newest, and tells whether it is there.
    fn promote(&mut self, r: u32, leaf: u32) -> bool
        ensures there { result ≡ is_some (lookup (is_leaf r leaf) self.old) }
        ensures promoted { self.new ≡ promoted (is_leaf r leaf) self.old }
    {
        self.leaves.promote(&(r, leaf))
    }

    // The newest leaf, where it is asked for.
    fn newest_if(&self, asked: bool) -> Option<&Arc<Leaf<R>>>
        ensures asked { let newest = option_map (λ e. e.1) (slice_get self.now 0) in
            asked ≡ true → option_map (λ it. arc_value it.now) result ≡ newest }
        ensures not_asked { asked ≡ false → result ≡ None }
    {
        if !asked {
            return None;
        }
        let (_, leaf) = self.leaves.peek_mru()?;
        Some(leaf)
    }
}
