//! Offers to a list of residents with two places, worked out by hand.
use crate::page::{Page, page_of};
use std::alloc::{AllocError, Global};
use std::sync::{Arc, Wait};
use std::test::Fail;
use std::thread;
use std::thread::Threads;
use sx_cache::{Offer, Offers, Residency, Residents};
use sx_cell::Cell;
use sx_volume::{MemSpot, Spot};

// A page whose cell is filled.
fn filled_page(alloc: Global, text: &[u8; 1]) -> Result<Page, AllocError> {
    let page = page_of(alloc, 1, text, 174)?;
    if page.fill() {
        Ok(page)
    } else {
        Err(AllocError)
    }
}

#[test]
fn the_eldest_is_emptied_for_a_newer_one(rt: HostRuntime) -> Result<(), Fail> {
    let alloc = rt.alloc();
    let (one, two, three, four) = (
        filled_page(alloc, b"1")?,
        filled_page(alloc, b"2")?,
        filled_page(alloc, b"3")?,
        filled_page(alloc, b"4")?,
    );
    let mut residents = Residents::new(alloc, 2)?;
    for (k, page) in [(1, &one), (2, &two), (1, &one)] {
        assert_eq!(rt; residents.offer(k, &page.cell), Ok(Offer::Kept), "at {k}");
    }
    // 2 is the eldest.
    assert_eq!(rt;
        residents.offer(3, &three.cell),
        Ok(Offer::Evicted { k: 2 })
    );
    assert_eq!(rt;
        (two.is_shown(), one.is_shown(), three.is_shown()),
        (None, Some(true), Some(true))
    );
    // 1 is the eldest, and somebody emptied its cell.
    assert!(rt; one.cell.empty());
    assert_eq!(rt; residents.offer(4, &four.cell), Ok(Offer::KeptOut { k: 1 }));
    assert_eq!(rt; (four.is_shown(), three.is_shown()), (None, Some(true)));
    assert_eq!(rt;
        (residents.offer(1, &one.cell), residents.len()),
        (Ok(Offer::Kept), 2)
    );
    Ok(())
}

// Offers through the bound alone.
fn offer<S: Spot, O: Offers<S>, R: Wait>(rt: &R, to: &O, k: u32, cell: &Arc<Cell<S>>) -> bool {
    to.offer(rt, k, cell).is_ok()
}

// Offers by four threads, over any spot that threads may share.
fn offer_by_threads<S: Spot + Send + Sync, R: Threads + Wait + Sync>(
    rt: &R,
    alloc: Global,
    to: &Residency<S>,
    k: u32,
    cell: &Arc<Cell<S>>,
) -> Result<Vec<bool>, AllocError> {
    thread::map_indices(rt, alloc, 4, &|_| offer(rt, to, k, cell))
}

#[test]
fn a_residency_bounds_the_filled_cells(rt: HostRuntime) -> Result<(), Fail> {
    let alloc = rt.alloc();
    let residency: Residency<MemSpot> = Residency::new(alloc, 1)?;
    let (one, two) = (filled_page(alloc, b"1")?, filled_page(alloc, b"2")?);
    assert!(rt; residency.offer(&rt, 1, &one.cell).is_ok());
    let offered = offer_by_threads(&rt, alloc, &residency, 2, &two.cell)?;
    assert_eq!(rt; offered.as_slice(), [true; 4].as_slice());
    assert_eq!(rt; (one.is_shown(), two.is_shown()), (None, Some(true)));
    Ok(())
}
