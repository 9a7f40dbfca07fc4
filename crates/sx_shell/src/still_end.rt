//! How a command ends that runs no script.
ghost use Rattle.std.specs.Prelude.{◌≡◌, ◌≤◌, ◌⊎◌, IfErr, IfOk, IfSome, List, ℕ, OnErr, Some};
ghost use Rattle.sx_outside.specs.Faults.{Rose};
ghost use Rattle.sx_shell.specs.Still.{Writes};

use crate::Status;
use crate::write::write_all;
use sx_outside::Sink;

/// Writes the line, where there is one.
pub(crate) fn write_line<K: Sink>(sink: &mut K, answer: Result<Vec<u8>, Status>) -> Status
    ensures done { IfOk answer (λ _. (result ≡ Status.Done) ⊎ (result ≡ Status.WriteFault)) }
    ensures written { IfOk answer (λ line. IfSome (K.written sink.old) (λ before. (after : List ℕ)
        × (K.written sink.new ≡ Some after) × Writes line.items result before after)) }
    ensures ended { IfErr answer (λ status. result ≡ status) }
    ensures unwritten { OnErr answer (sink.new ≡ sink.old) }
    ensures cause { IfOk answer (λ _. result ≡ Status.WriteFault → Rose (K.faults sink.old) (K.faults sink.new)) }
    ensures never_falls { K.faults sink.old ≤ K.faults sink.new }
{
    match answer {
        Ok(line) => match write_all(sink, &line) {
            Ok(()) => Status::Done,
            Err(_) => Status::WriteFault,
        },
        Err(status) => status,
    }
}
