//! Cells that contracts see as a list.
ghost use Rattle.std.specs.Prelude.{◌≡◌, [], ◌∷◌, ◌++◌, OnErr, OnOk, length, map};
ghost use Rattle.std.specs.Arc.{arc_value};

use crate::Cell;
use std::alloc::{AllocError, Global};
use std::marker::Model;
use std::sync::Arc;
use sx_volume::Spot;

/// A list of cells, as of the frames of a revision in their order.
#[derive(Drop)]
pub struct Cells<S: Spot> {
    cells: Vec<Arc<Cell<S>>>,
}

impl<S: Spot> Model for Cells<S> {
    ghost use Rattle.std.specs.Prelude.{List, map};
    ghost use Rattle.std.specs.Arc.{arc_value};
    ghost use Rattle.sx_cell.specs.declared.name.Name.{Name};

    ghost Value = { List (Name S) };

    ghost view = { λ it. map arc_value it.cells.items };
}

impl<S: Spot> Cells<S> {
    /// No cells.
    pub fn new(alloc: Global) -> Cells<S>
        ensures { result ≡ [] }
    {
        Cells {
            cells: Vec::new(alloc),
        }
    }

    /// How many there are.
    pub fn len(&self) -> usize
        ensures { result ≡ length self.now }
    {
        self.cells.len()
    }

    /// The cells, in their order.
    pub fn as_slice(&self) -> &[Arc<Cell<S>>]
        ensures { map arc_value result.now ≡ self.now }
    {
        self.cells.as_slice()
    }

    /// Adds a cell at the end. A failure changes nothing.
    pub fn push(&mut self, cell: Arc<Cell<S>>) -> Result<(), AllocError>
        ensures ok { OnOk result (self.new ≡ self.old ++ arc_value cell ∷ []) }
        ensures err { OnErr result (self.new ≡ self.old) }
    {
        self.cells.push(cell)?;
        Ok(())
    }
}
