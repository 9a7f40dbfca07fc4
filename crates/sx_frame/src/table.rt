//! The table of a group: what is kept of each frame beside its bytes.
ghost use Rattle.std.specs.Prelude.{◌≡◌, ◌==◌, [], ◌∷◌, ◌++◌, length, OnErr, OnOk};

use std::alloc::{AllocError, Global};
use std::marker::Model;

/// The length of a frame in bytes, and the SHA-256 of its bytes.
#[derive(Clone, Copy, Debug, PartialEq, Eq)]
pub struct FrameRow {
    pub bytes: u32,
    pub digest: [u8; 32],
}

/// A list of rows, one a frame.
#[derive(Drop)]
pub struct FrameList {
    rows: Vec<FrameRow>,
}

impl Model for FrameList {
    ghost use Rattle.std.specs.Prelude.{List};
    ghost use Rattle.sx_frame.specs.declared.table.FrameRow.{FrameRow};

    ghost Value = { List FrameRow };

    ghost view = { λ list. list.rows.items };
}

impl FrameList {
    /// No rows.
    pub fn new(alloc: Global) -> FrameList
        ensures { result ≡ [] }
    {
        FrameList {
            rows: Vec::new(alloc),
        }
    }

    pub fn len(&self) -> usize
        ensures { result ≡ length self.now }
    {
        self.rows.len()
    }

    pub fn is_empty(&self) -> bool
        ensures { result ≡ (length self.now == 0) }
    {
        self.rows.is_empty()
    }

    pub fn as_slice(&self) -> &[FrameRow]
        ensures { result.now ≡ self.now }
    {
        self.rows.as_slice()
    }

    /// Adds a row at the end. A failure changes nothing.
    pub fn push(&mut self, row: FrameRow) -> Result<(), AllocError>
        ensures ok { OnOk result (self.new ≡ self.old ++ row ∷ []) }
        ensures err { OnErr result (self.new ≡ self.old) }
    {
        self.rows.push(row)?;
        Ok(())
    }
}
