//! A caller of a private cache, which knows the order that a look-up leaves.
ghost use Rattle.std.specs.Prelude.{◌≡◌, is_some};
ghost use Rattle.std.specs.Map.{lookup};
ghost use Rattle.lru.specs.LruCache.{promoted};
ghost use Rattle.sx_cache.specs.ByUse.{is_leaf};

use sx_cache::PrivateCache;

/// Whether the leaf is there. It is then the newest.
pub fn look_up<R: Drop>(cache: &mut PrivateCache<R>, r: u32, leaf: u32) -> bool
    ensures there { result ≡ is_some (lookup (is_leaf r leaf) cache.old) }
    ensures newest { cache.new ≡ promoted (is_leaf r leaf) cache.old }
{
    cache.get(r, leaf).is_some()
}
