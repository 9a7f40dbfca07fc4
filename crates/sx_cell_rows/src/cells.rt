//! A cell by its calls, in one thread.
use crate::page::page_of;
use std::sync::Arc;
use std::test::Fail;
use sx_cell::Cells;
use sx_volume::Spot;

#[test]
fn a_cell_is_filled_shown_and_emptied(rt: HostRuntime) -> Result<(), Fail> {
    let page = page_of(rt.alloc(), 1, b"leaf", 174)?;
    assert_eq!(rt; page.cell.spot().bytes(), 9);
    assert_eq!(rt;
        page.cell.spot().as_slice(),
        [1, 0, 0, 0, 4, 108, 101, 97, 102].as_slice()
    );
    assert_eq!(rt; page.cell.digest()[0], 50);
    assert_eq!(rt; page.cell.place(), 174);
    assert_eq!(rt; (page.is_shown(), page.cell.empty()), (None, false));
    assert_eq!(rt; (page.fill(), page.fill()), (true, false));
    assert_eq!(rt;
        (page.is_shown(), page.is_shown()),
        (Some(true), Some(true))
    );
    assert_eq!(rt; (page.cell.empty(), page.cell.empty()), (true, false));
    assert_eq!(rt; page.is_shown(), None);
    assert_eq!(rt; (page.fill(), page.is_shown()), (true, Some(true)));
    Ok(())
}

#[test]
fn cells_are_listed(rt: HostRuntime) -> Result<(), Fail> {
    let alloc = rt.alloc();
    let mut cells = Cells::new(alloc);
    for place in [174, 183] {
        cells.push(page_of(alloc, 1, b"leaf", place)?.cell)?;
    }
    assert_eq!(rt; cells.len(), 2);
    for (cell, place) in cells.as_slice().iter().zip([174, 183]) {
        assert_eq!(rt; cell.place(), place);
    }
    Ok(())
}
