//! The order of a private cache, worked out by hand.
use crate::look_up::look_up;
use std::alloc::{AllocError, Global};
use std::sync::Arc;
use std::test::Fail;
use sx_cache::PrivateCache;
use sx_fragment::Leaf;

// A leaf with a number in slot 3 alone.
fn leaf_of(alloc: Global, number: u32) -> Result<Arc<Leaf<u32>>, AllocError> {
    let mut slots = Vec::new(alloc);
    for s in 0..64 {
        slots.push(if s == 3 { Some(number) } else { None })?;
    }
    if slots.len() != 64 {
        return Err(AllocError);
    }
    Ok(Arc::new(alloc, Leaf::new(slots))?)
}

#[test]
fn a_leaf_has_its_slots(rt: HostRuntime) -> Result<(), Fail> {
    let leaf = leaf_of(rt.alloc(), 7)?;
    assert_eq!(rt;
        (leaf.get(3), leaf.get(2), leaf.get(63)),
        (Some(&7), None, None)
    );
    Ok(())
}

#[test]
fn the_leaf_used_longest_ago_goes(rt: HostRuntime) -> Result<(), Fail> {
    let alloc = rt.alloc();
    let mut cache = PrivateCache::new(alloc)?;
    assert_eq!(rt; (cache.len(), look_up(&mut cache, 1, 0)), (0, false));
    for leaf in 0..16 {
        cache.put(1, leaf, leaf_of(alloc, leaf)?)?;
    }
    // 1/0 is used again, so 1/1 is the eldest and goes for 2/0, and then 1/2 for 2/1.
    assert_eq!(rt; cache.get(1, 0).and_then(|leaf| leaf.get(3)), Some(&0));
    cache.put(2, 0, leaf_of(alloc, 20)?)?;
    cache.put(2, 1, leaf_of(alloc, 21)?)?;
    for (r, leaf, want) in [
        (1, 1, false),
        (1, 2, false),
        (1, 0, true),
        (1, 3, true),
        (2, 0, true),
        (2, 1, true),
    ] {
        assert_eq!(rt; look_up(&mut cache, r, leaf), want, "at {r} {leaf}");
    }
    // One in place of another: none goes.
    cache.put(1, 4, leaf_of(alloc, 44)?)?;
    assert_eq!(rt; cache.get(1, 4).and_then(|leaf| leaf.get(3)), Some(&44));
    assert_eq!(rt; (cache.len(), look_up(&mut cache, 1, 5)), (16, true));
    Ok(())
}
