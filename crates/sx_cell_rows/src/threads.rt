//! A cell that threads share.
use crate::page::{Page, page_of};
use std::test::Fail;
use std::thread;

/// How many threads, and how often each of them peeks, fills and empties.
const THREADS: usize = 32;

const TIMES: u32 = 100_000;

/// What a thread met at its turns.
#[derive(Clone, Copy, Drop)]
struct Met {
    filled: u64,
    emptied: u64,
    others: u64,
}

// The turns of a thread. Another page's frame must not be shown.
fn turns(page: &Page) -> Met {
    let mut met = Met {
        filled: 0,
        emptied: 0,
        others: 0,
    };
    for _ in 0..TIMES {
        met.filled = met.filled.wrapping_add(u64::from(page.fill()));
        if page.is_shown() == Some(false) {
            met.others = met.others.wrapping_add(1);
        }
        met.emptied = met.emptied.wrapping_add(u64::from(page.cell.empty()));
    }
    met
}

#[test]
fn each_frame_shown_is_the_cells(rt: HostRuntime) -> Result<(), Fail> {
    let page = page_of(rt.alloc(), 2, b"a page of 64 references", 1137)?;
    let all = thread::map_indices(&rt, rt.alloc(), THREADS, &|_| turns(&page))?;
    let mut sum = Met {
        filled: 0,
        emptied: u64::from(page.cell.empty()),
        others: 0,
    };
    for met in &all {
        sum.filled = sum.filled.wrapping_add(met.filled);
        sum.emptied = sum.emptied.wrapping_add(met.emptied);
        sum.others = sum.others.wrapping_add(met.others);
    }
    assert_eq!(rt; sum.others, 0);
    assert!(rt; sum.filled > 0);
    assert_eq!(rt; sum.filled, sum.emptied);
    Ok(())
}

#[test]
fn a_filled_cell_is_found_by_another_thread(rt: HostRuntime) -> Result<(), Fail> {
    let page = page_of(rt.alloc(), 1, b"leaf", 174)?;
    assert!(rt; page.fill());
    let shown = thread::spawn(&rt, move || page.is_shown())?.join(&rt);
    assert_eq!(rt; shown, Some(true));
    Ok(())
}
