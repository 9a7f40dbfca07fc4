ghost use Rattle.std.specs.Prelude.{◌≡◌, ◌<◌, ◌≤◌, length, take, IfOk, OnOk, OnErr};
ghost use Rattle.sx_outside.specs.Faults.{Rose};
ghost use Rattle.sx_outside.specs.Memory.{one_more};
ghost use Rattle.sx_outside.specs.Transfer.{Takes, Stays};

use crate::retries::read_through;
use crate::{Failed, Source};
use std::io::Read;

/// A source over a reader. It tells the bytes that the reader tells. Where a read is interrupted, it
/// begins again, at most 16 times a call. Each other error of the reader is a fault.
#[derive(Drop)]
pub struct StdSource<R: Read> {
    reader: R,
    faults: u64,
}

impl<R: Read> StdSource<R> {
    /// Makes a source of what the reader gives from here on.
    pub fn new(reader: R) -> StdSource<R>
        ensures left { ⟦<StdSource<R> as Source>⟧.left result ≡ R.remaining reader }
        ensures faults { ⟦<StdSource<R> as Source>⟧.faults result ≡ 0 }
    {
        StdSource { reader, faults: 0 }
    }
}

impl<R: Read> Source for StdSource<R> {
    ghost left = { λ source. R.remaining source.reader };

    ghost faults = { λ source. source.faults };

    fn next(&mut self, room: &mut [u8]) -> Result<usize, Failed>
        requires { 0 < length room.old }
        ensures within { IfOk result (λ n. n ≤ length room.old) }
        ensures taken { let left = ⟦<StdSource<R> as Source>⟧.left in
            IfOk result (λ n. Takes (left self.old) (take n room.new) (left self.new)) }
        ensures nothing_taken { let left = ⟦<StdSource<R> as Source>⟧.left in
            OnErr result (Stays (left self.old) (left self.new)) }
        ensures cause { let faults = ⟦<StdSource<R> as Source>⟧.faults in
            OnErr result (Rose (faults self.old) (faults self.new)) }
        ensures no_fault { let faults = ⟦<StdSource<R> as Source>⟧.faults in
            OnOk result (faults self.new ≡ faults self.old) }
        ensures never_falls { let faults = ⟦<StdSource<R> as Source>⟧.faults in faults self.old ≤ faults self.new }

        ensures one_fault { let faults = ⟦<StdSource<R> as Source>⟧.faults in
            OnErr result (faults self.new ≡ one_more (faults self.old)) }
    {
        match read_through(&mut self.reader, room) {
            Ok(count) => Ok(count),
            Err(_) => {
                self.faults = self.faults.saturating_add(1);
                Err(Failed)
            }
        }
    }
}
