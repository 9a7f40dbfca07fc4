//! A line that has not ended.
ghost use Rattle.std.specs.Prelude.{◌≡◌, ◌++◌, ◌≤◌, ◌<◌, ◌↔◌, IsTrue, OnOk, OnErr, [], length, true, false};
ghost use Rattle.sx_run.specs.Line.{line_limit};
ghost use Rattle.sx_script.specs.Waiting.{kept};

use std::alloc::{AllocError, Global};
use std::marker::Model;
use sx_tree::bytes::Bytes;

/// The greatest length of a line without its line feed, in bytes.
pub(crate) const LINE_LIMIT: usize = 8_388_608;

/// How many bytes of a line are kept: one past the limit tells that the line is too long.
const KEPT: usize = LINE_LIMIT + 1;

/// What is kept of a line that has not ended.
#[derive(Drop)]
pub(crate) struct Partial {
    bytes: Vec<u8>,
}

impl Model for Partial {
    ghost use Rattle.std.specs.Prelude.{◌≤◌, List, ℕ, vec_len};

    ghost Value = { List ℕ };

    ghost view = { λ p. p.bytes.items };

    ghost invariant = { λ p. vec_len p.bytes ≤ 8_388_609 };
}

impl Partial {
    pub(crate) fn new(alloc: Global) -> Partial
        ensures { result ≡ [] }
    {
        Partial {
            bytes: Vec::new(alloc),
        }
    }

    /// Puts the piece behind what is kept, as far as it is kept. A failure changes nothing.
    pub(crate) fn append(&mut self, piece: &[u8]) -> Result<(), AllocError>
        ensures ok { OnOk result (self.new ≡ kept (self.old ++ piece.now)) }
        ensures err { OnErr result (self.new ≡ self.old) }
        ensures within { length self.new ≤ KEPT }
    {
        let room = KEPT - self.bytes.len();
        let piece = &piece[..room.min(piece.len())];
        self.bytes.extend_from_slice(piece)
    }

    pub(crate) fn len(&self) -> usize
        ensures { result ≡ length self.now }
    {
        self.bytes.len()
    }

    pub(crate) fn is_empty(&self) -> bool
        ensures { IsTrue result ↔ (self.now ≡ []) }
    {
        self.bytes.is_empty()
    }

    pub(crate) fn into_bytes(self) -> Bytes
        ensures { result ≡ self }
    {
        Bytes::from_vec(self.bytes)
    }
}
