ghost use Rattle.std.specs.Prelude.{◌≡◌, ◌≢◌, ◌≤◌, None, Some};
ghost use Rattle.sx_layout.specs.Birth.{Birth};
ghost use Rattle.sx_outside.specs.Faults.{Rose};
ghost use Rattle.sx_run.specs.Reply.{reply_bytes};
ghost use Rattle.sx_run.specs.Run.{Course};
ghost use Rattle.sx_script.specs.Told.{IsTold, IsWithin};
ghost use Rattle.sx_shell.specs.Desk.{IsEndOf, IsTaken, IsWritten};
ghost use Rattle.sx_shell.specs.Done.{Continues, IsAt, IsServed, place};
ghost use Rattle.sx_shell.specs.Medium.{EndsGoOn, medium};
ghost use Rattle.sx_shell.specs.Shows.{IsReady};
ghost use Rattle.sx_store.specs.Shows.{stage_of};

use crate::Status;
use crate::desk::Desk;
use crate::write::write_all;
use std::alloc::Global;
use sx_outside::{Clock, Sink};
use sx_script::{Command, Line, Reply, Said, reply};
use sx_tree::bytes::Bytes;
use sx_volume::Volume;

/// Runs what a line says and writes its reply. The result is how that ended the run, if it did.
pub(crate) fn serve<V: Volume, K: Sink, C: Clock>(
    alloc: Global,
    desk: &mut Desk<'_, V>,
    ends: &mut [V::End],
    sink: &mut K,
    clock: &mut C,
    line: &Line,
) -> Option<Status>
    requires ready { IsReady V.Volume V.Spot.Spot desk.old.writer.volume.now desk.old.writer.ledger ends.old desk.old.revisions }
    requires within { IsWithin line.now }
    requires taken { IsTaken line.now }
    ensures same_reference { desk.new.writer.volume.ghost_name ≡ desk.old.writer.volume.ghost_name }
    ensures ready { IsReady V.Volume V.Spot.Spot desk.new.writer.volume.now desk.new.writer.ledger ends.new desk.new.revisions }
    ensures continues { Continues V.Volume V.Spot.Spot desk.old.writer.volume.now desk.new.writer.volume.now desk.old.writer.ledger desk.new.writer.ledger }
    ensures ends { EndsGoOn V.End.ReadEnd ends.old ends.new }
    ensures served { (birth : Birth) (course : Course) → IsAt (medium birth V.Volume V.Spot.Spot V.End.ReadEnd) (place desk.old.writer.volume.now desk.old.writer.ledger ends.old desk.old.revisions (K.written sink.old) (C.moments clock.old)) course
        → IsServed (medium birth V.Volume V.Spot.Spot V.End.ReadEnd) course line.now (place desk.old.writer.volume.now desk.old.writer.ledger ends.old desk.old.revisions (K.written sink.old) (C.moments clock.old))
        (place desk.new.writer.volume.now desk.new.writer.ledger ends.new desk.new.revisions (K.written sink.new) (C.moments clock.new)) result }
    ensures ended { IsEndOf (stage_of desk.new.writer.ledger) result }
    ensures no_read { result ≢ Some Status.ReadFault }
    ensures write_fault { result ≡ Some Status.WriteFault → Rose (K.faults sink.old) (K.faults sink.new) }
    ensures no_fault { result ≢ Some Status.WriteFault → K.faults sink.new ≡ K.faults sink.old }
    ensures never_falls { K.faults sink.old ≤ K.faults sink.new }
{
    match line {
        Line::Skip => None,
        Line::Refused { .. } => say(alloc, sink, Said::NoCommand),
        Line::BadJson { fault, .. } => say(alloc, sink, Said::Json(*fault)),
        Line::Command { client, command } => match command {
            Command::Quit => Some(desk.end()),
            _ => match desk.run(alloc, ends, clock, *client, command) {
                Ok(said) => say(alloc, sink, said),
                Err(_) => Some(Status::OutOfMemory),
            },
        },
    }
}

// Writes a reply.
fn say<K: Sink>(alloc: Global, sink: &mut K, said: Said) -> Option<Status>
    requires told { IsTold said }
    ensures written { IsWritten (reply_bytes None said) (K.written sink.old) (K.written sink.new) result }
    ensures no_read { result ≢ Some Status.ReadFault }
    ensures write_fault { result ≡ Some Status.WriteFault → Rose (K.faults sink.old) (K.faults sink.new) }
    ensures no_fault { result ≢ Some Status.WriteFault → K.faults sink.new ≡ K.faults sink.old }
    ensures never_falls { K.faults sink.old ≤ K.faults sink.new }
{
    let mut bytes = Bytes::new(alloc);
    let said = Reply { client: None, said };
    if reply(alloc, &said, &mut bytes).is_err() {
        return Some(Status::OutOfMemory);
    }
    match write_all(sink, bytes.as_slice()) {
        Ok(()) => None,
        Err(_) => Some(Status::WriteFault),
    }
}
