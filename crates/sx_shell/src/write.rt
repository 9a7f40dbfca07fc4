ghost use Rattle.std.specs.Prelude.{◌≡◌, ◌<◌, ◌≤◌, ◌++◌, List, ℕ, Some, length, IfOk, IfSome, OnOk, OnErr};
ghost use Rattle.sx_outside.specs.Faults.{Rose};
ghost use Rattle.sx_outside.specs.Transfer.{Gains, Stays};

use sx_outside::{Failed, Sink};

/// Writes all the bytes. At `Failed` a front of them was written.
pub(crate) fn write_all<K: Sink>(sink: &mut K, bytes: &[u8]) -> Result<(), Failed>
    ensures all { IfSome (K.written sink.old) (λ before. OnOk result (K.written sink.new ≡ Some (before ++ bytes.now))) }
    ensures front { IfSome (K.written sink.old) (λ before. OnErr result ((front : List ℕ) × (rest : List ℕ) × (bytes.now ≡ front ++ rest) × (K.written sink.new ≡ Some (before ++ front)))) }
    ensures cause { OnErr result (Rose (K.faults sink.old) (K.faults sink.new)) }
    ensures no_fault { OnOk result (K.faults sink.new ≡ K.faults sink.old) }
    ensures never_falls { K.faults sink.old ≤ K.faults sink.new }
{
    let mut rest = bytes;
    while !rest.is_empty() {
        rest = write_some(sink, rest)?;
    }
    Ok(())
}

// Writes a front of the bytes, at least one, and hands back the rest.
fn write_some<'a, K: Sink>(sink: &mut K, bytes: &'a [u8]) -> Result<&'a [u8], Failed>
    requires { 0 < length bytes.now }
    ensures shorter { IfOk result (λ rest. length rest.now < length bytes.now) }
    ensures put { IfOk result (λ rest. (front : List ℕ) × (bytes.now ≡ front ++ rest.now) × Gains (K.written sink.old) front (K.written sink.new)) }
    ensures nothing_written { OnErr result (Stays (K.written sink.old) (K.written sink.new)) }
    ensures cause { OnErr result (Rose (K.faults sink.old) (K.faults sink.new)) }
    ensures no_fault { OnOk result (K.faults sink.new ≡ K.faults sink.old) }
    ensures never_falls { K.faults sink.old ≤ K.faults sink.new }
{
    let n = sink.put(bytes)?;
    Ok(&bytes[n..])
}
