//! Cuts what a source gives into lines.
ghost use Rattle.std.specs.Prelude.{◌≡◌, ◌≤◌, ◌++◌, ◌⊎◌, ℕ, List, [], length, true, false, IfOk, IfErr, OnOk, OnErr};
ghost use Rattle.sx_outside.specs.Faults.{Rose};
ghost use Rattle.sx_run.specs.Lines.{HasNoFeed};

use crate::chunk::{CHUNK, Chunk};
use crate::feed::feed_at;
use crate::partial::{LINE_LIMIT, Partial};
use std::alloc::{AllocError, Global};
use std::marker::Model;
use std::mem;
use sx_outside::{Failed, Source};
use sx_tree::bytes::Bytes;
use thiserror::Error;

/// What one step of reading gave.
#[derive(Drop)]
pub enum Pulled {
    /// A line, without its line feed, of at most 8,388,608 bytes. A carriage return before the line feed stays.
    Line(Bytes),
    /// A line above that limit has ended.
    Long,
    /// Bytes were taken, and no line ended.
    More,
    /// The source told its end, and nothing is left.
    End,
}

/// Why a step of reading gave nothing.
#[derive(Clone, Copy, Debug, PartialEq, Eq, Drop, Error)]
pub enum PullFault {
    /// The source failed. Nothing was taken.
    #[error("the source failed")]
    Failed,
    #[error("out of memory")]
    OutOfMemory,
}

impl From<Failed> for PullFault {
    ghost use Rattle.std.specs.Prelude.{◌≡◌};
    ghost use Rattle.sx_script.specs.declared.line_reader.PullFault.TheVariants.{Failed};

    ghost from_gives = { λ _ e. e ≡ Failed };

    fn from(_: Failed) -> Self {
        PullFault::Failed
    }
}

impl From<AllocError> for PullFault {
    ghost use Rattle.std.specs.Prelude.{◌≡◌};
    ghost use Rattle.sx_script.specs.declared.line_reader.PullFault.TheVariants.{OutOfMemory};

    ghost from_gives = { λ _ e. e ≡ OutOfMemory };

    fn from(_: AllocError) -> Self {
        PullFault::OutOfMemory
    }
}

/// Cuts what a source gives into lines, with memory for one line and one chunk of 65,536 bytes. A line ends with a line
/// feed or with the end of the source. Behind the last line feed an empty rest is no line.
#[derive(Drop)]
pub struct LineReader {
    alloc: Global,
    chunk: Chunk,
    line: Partial,
    ended: bool,
}

impl Model for LineReader {
    ghost use Rattle.std.specs.Prelude.{◌≡◌, ◌≤◌, [], length, true};
    ghost use Rattle.sx_script.specs.Waiting.{Waiting};

    ghost Value = { Waiting };

    ghost view = { λ r. record { line = r.line; rest = r.chunk; ended = r.ended } };

    ghost invariant = { λ r. (length r.line ≤ 8_388_609) × (r.ended ≡ true → (r.line ≡ []) × (r.chunk ≡ [])) };
}

impl LineReader {
    ghost use Rattle.sx_script.specs.Waiting.{IsAtEnd, IsCut, IsEnd, IsMoved, IsPulled, IsUnpulled, IsWhole, nothing_taken};

    /// A reader that has taken nothing yet.
    pub fn new(alloc: Global) -> LineReader
        ensures { result ≡ nothing_taken }
    {
        LineReader {
            alloc,
            chunk: Chunk::new(alloc),
            line: Partial::new(alloc),
            ended: false,
        }
    }

    /// Goes on by at most one call of the source, and by none where a whole line waits or the source told its end.
    /// Of a line above the limit no more than one byte past the limit is kept.
    ///
    /// # Errors
    ///
    /// `Failed` only where the source failed: nothing was taken, and all lines that have ended are given. `OutOfMemory`:
    /// nothing is lost, and the next step goes on from here.
    pub fn pull<S: Source>(&mut self, source: &mut S) -> Result<Pulled, PullFault>
        ensures pulled { IfOk result (λ pulled. (piece : List ℕ) × (length piece ≤ CHUNK) × IsMoved (S.left source.old) piece (S.left source.new)
            × IsPulled self.old piece (IsAtEnd (S.left source.old) (S.left source.new)) pulled self.new) }
        ensures unpulled { IfErr result (λ fault. (piece : List ℕ) × (length piece ≤ CHUNK) × IsMoved (S.left source.old) piece (S.left source.new)
            × IsUnpulled self.old piece fault self.new) }
        // No call is made where a line waits or after the end.
        ensures unasked { (HasNoFeed self.old.rest → ⊥) ⊎ (self.old.ended ≡ true) → source.new ≡ source.old }
        ensures cause { IfErr result (λ fault. fault ≡ PullFault.Failed → Rose (S.faults source.old) (S.faults source.new)) }
        ensures no_fault { OnOk result (S.faults source.new ≡ S.faults source.old) }
        ensures never_falls { S.faults source.old ≤ S.faults source.new }
    {
        if self.ended {
            return Ok(Pulled::End);
        }
        if let Some(line) = self.cut()? {
            return Ok(line);
        }
        if !self.chunk.fill(self.alloc, source)? {
            return Ok(self.last());
        }
        match self.cut()? {
            Some(line) => Ok(line),
            None => Ok(Pulled::More),
        }
    }

    // The line that ends in the chunk, where one does. Else all of the chunk goes to the line.
    fn cut(&mut self) -> Result<Option<Pulled>, AllocError>
        requires { self.old.ended ≡ false }
        ensures ok { IfOk result (λ found. IsCut self.old found self.new) }
        ensures err { OnErr result (self.new ≡ self.old) }
    {
        let rest = self.chunk.rest();
        match feed_at(rest) {
            Some(len) => {
                self.line.append(&rest[..len])?;
                self.chunk.skip(len + 1);
                Ok(Some(self.whole()))
            }
            None => {
                self.line.append(rest)?;
                self.chunk.clear();
                Ok(None)
            }
        }
    }

    // The line has ended.
    fn whole(&mut self) -> Pulled
        ensures line { IsWhole result self.old.line }
        ensures next { self.new ≡ record self.old { line = [] } }
    {
        let line = mem::replace(&mut self.line, Partial::new(self.alloc));
        if line.len() > LINE_LIMIT {
            Pulled::Long
        } else {
            Pulled::Line(line.into_bytes())
        }
    }

    // The source told its end: the rest is the last line, where there is one.
    fn last(&mut self) -> Pulled
        requires { self.old.rest ≡ [] }
        ensures { IsEnd self.old result self.new }
    {
        let last = if self.line.is_empty() {
            Pulled::End
        } else {
            self.whole()
        };
        self.ended = true;
        last
    }
}
