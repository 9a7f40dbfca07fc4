ghost use Rattle.std.specs.Prelude.{◌≡◌, ◌<◌, ◌≤◌, length, take, IfOk, OnOk, OnErr};
ghost use Rattle.sx_outside.specs.Faults.{Rose};
ghost use Rattle.sx_outside.specs.Memory.{one_more};
ghost use Rattle.sx_outside.specs.Transfer.{Gains, Stays};

use crate::retries::write_through;
use crate::{Failed, Sink};
use std::io::Write;

/// A sink over a writer. It tells the bytes that the writer tells. Where a write is interrupted, it
/// begins again, at most 16 times a call. Each other error of the writer is a fault, and so is a write
/// of no byte.
#[derive(Drop)]
pub struct StdSink<W: Write> {
    writer: W,
    faults: u64,
}

impl<W: Write> StdSink<W> {
    /// Makes a sink that writes behind what the writer holds.
    pub fn new(writer: W) -> StdSink<W>
        ensures written { ⟦<StdSink<W> as Sink>⟧.written result ≡ W.contents writer }
        ensures faults { ⟦<StdSink<W> as Sink>⟧.faults result ≡ 0 }
    {
        StdSink { writer, faults: 0 }
    }
}

impl<W: Write> Sink for StdSink<W> {
    ghost written = { λ sink. W.contents sink.writer };

    ghost faults = { λ sink. sink.faults };

    fn put(&mut self, piece: &[u8]) -> Result<usize, Failed>
        requires { 0 < length piece.now }
        ensures some { IfOk result (λ n. 0 < n) }
        ensures within { IfOk result (λ n. n ≤ length piece.now) }
        ensures put { let written = ⟦<StdSink<W> as Sink>⟧.written in
            IfOk result (λ n. Gains (written self.old) (take n piece.now) (written self.new)) }
        ensures nothing_written { let written = ⟦<StdSink<W> as Sink>⟧.written in
            OnErr result (Stays (written self.old) (written self.new)) }
        ensures cause { let faults = ⟦<StdSink<W> as Sink>⟧.faults in
            OnErr result (Rose (faults self.old) (faults self.new)) }
        ensures no_fault { let faults = ⟦<StdSink<W> as Sink>⟧.faults in
            OnOk result (faults self.new ≡ faults self.old) }
        ensures never_falls { let faults = ⟦<StdSink<W> as Sink>⟧.faults in faults self.old ≤ faults self.new }

        ensures one_fault { let faults = ⟦<StdSink<W> as Sink>⟧.faults in
            OnErr result (faults self.new ≡ one_more (faults self.old)) }
    {
        match write_through(&mut self.writer, piece) {
            Ok(count) if count > 0 => Ok(count),
            _ => {
                self.faults = self.faults.saturating_add(1);
                Err(Failed)
            }
        }
    }
}
