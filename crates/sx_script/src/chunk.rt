//! The bytes that a source gave at once.
ghost use Rattle.std.specs.Prelude.{◌≡◌, ◌<◌, ◌≤◌, [], OnErr, OnOk, IfErr, IfOk, drop, false, length, true, vec_len};
ghost use Rattle.sx_outside.specs.Faults.{Rose};
ghost use Rattle.sx_script.specs.Waiting.{IsAtEnd, IsMoved};

use crate::line_reader::PullFault;
use std::alloc::{AllocError, Global};
use std::marker::Model;
use sx_outside::Source;

/// How many bytes are asked of a source at once.
pub(crate) const CHUNK: usize = 65_536;

/// The bytes that the source gave at its last call, but for those that are done with.
#[derive(Drop)]
pub(crate) struct Chunk {
    bytes: Vec<u8>,
    at: usize,
    filled: usize,
}

impl Model for Chunk {
    ghost use Rattle.std.specs.Prelude.{◌≤◌, List, ℕ, slice_range, vec_len};

    ghost Value = { List ℕ };

    ghost view = { λ c. slice_range c.bytes.items c.at c.filled };

    ghost invariant = { λ c. (c.at ≤ c.filled) × (c.filled ≤ vec_len c.bytes) × (vec_len c.bytes ≤ 65_536) };
}

impl Chunk {
    /// No bytes, and no memory yet.
    pub(crate) fn new(alloc: Global) -> Chunk
        ensures { result ≡ [] }
    {
        Chunk {
            bytes: Vec::new(alloc),
            at: 0,
            filled: 0,
        }
    }

    /// The bytes.
    pub(crate) fn rest(&self) -> &[u8]
        ensures { result.now ≡ self.now }
    {
        &self.bytes[self.at..self.filled]
    }

    /// Is done with the first bytes, so many.
    pub(crate) fn skip(&mut self, count: usize)
        requires { count ≤ length self.old }
        ensures { self.new ≡ drop count self.old }
    {
        self.at += count;
    }

    /// Is done with all bytes.
    pub(crate) fn clear(&mut self)
        ensures { self.new ≡ [] }
    {
        self.at = self.filled;
    }

    /// Takes what the source gives next, and tells whether it gave any.
    pub(crate) fn fill<S: Source>(
        &mut self,
        alloc: Global,
        source: &mut S,
    ) -> Result<bool, PullFault>
        ensures moved { OnOk result (IsMoved (S.left source.old) self.new (S.left source.new)) }
        ensures some { IfOk result (λ some. some ≡ true → 0 < length self.new) }
        ensures within { length self.new ≤ CHUNK }
        ensures none { IfOk result (λ some. some ≡ false → self.new ≡ []) }
        ensures at_end { IfOk result (λ some. some ≡ false → IsAtEnd (S.left source.old) (S.left source.new)) }
        ensures empty { OnErr result (self.new ≡ []) }
        ensures nothing_taken { OnErr result (IsMoved (S.left source.old) [] (S.left source.new)) }
        ensures cause { IfErr result (λ fault. fault ≡ PullFault.Failed → Rose (S.faults source.old) (S.faults source.new)) }
        ensures no_fault { OnOk result (S.faults source.new ≡ S.faults source.old) }
        ensures never_falls { S.faults source.old ≤ S.faults source.new }
    {
        self.at = 0;
        self.filled = 0;
        take_room(alloc, &mut self.bytes)?;
        let taken = source.next(&mut self.bytes)?;
        self.filled = taken;
        Ok(taken > 0)
    }
}

/// Takes the memory of a chunk, where there is none.
fn take_room(alloc: Global, bytes: &mut Vec<u8>) -> Result<(), AllocError>
    requires { vec_len bytes.old ≤ CHUNK }
    ensures some { OnOk result (0 < vec_len bytes.new) }
    ensures within { vec_len bytes.new ≤ CHUNK }
{
    if bytes.is_empty() {
        *bytes = vec![in alloc; 0; CHUNK]?;
    }
    Ok(())
}
