//! A volume is made.
ghost use Rattle.std.specs.Prelude.{◌≡◌, ◌≢◌, ◌≤◌, ◌⊎◌, List, ℕ, Some, IfSome};
ghost use Rattle.sx_layout.specs.Birth.{IsUnborn};
ghost use Rattle.sx_log.specs.Calls.{IsSettled, IsUnsynced};
ghost use Rattle.sx_log.specs.Creating.{CanBeBorn, IsEmptySince, IsTaken, Tells, birth_of, newborn};
ghost use Rattle.sx_outside.specs.Faults.{Rose};
ghost use Rattle.sx_shell.specs.Still.{IsLeft, IsMade, IsNotMade, IsOfCreate};

use crate::Status;
use crate::status::status_of;
use std::alloc::Global;
use sx_log::{Birth, create};
use sx_volume::Volume;

/// Makes a volume with this birth.
pub(crate) fn make<V: Volume>(alloc: Global, volume: &mut V, birth: &Birth) -> Status
    requires { CanBeBorn (birth_of birth.now) }
    ensures made { IfSome (V.bytes volume.old) (λ image. IsMade image result) }
    ensures ends { IsOfCreate result }
    ensures newborn { result ≡ Status.Done
        → Tells (newborn (birth_of birth.now)) (V.bytes volume.old) (V.bytes volume.new)
        × IsSettled V.Volume volume.new }
    ensures kept { IsNotMade result → V.bytes volume.new ≡ V.bytes volume.old }
    ensures empty { IfSome (V.bytes volume.old) (λ image. IsUnborn image
        → IsEmptySince V.Volume volume.old volume.new ⊎ ((result ≢ Status.Done) × IsUnsynced V.Volume volume.old volume.new)) }
    ensures taken { IfSome (V.bytes volume.old) (λ image. IsTaken image → IsLeft V.Volume image volume.old volume.new result) }
    ensures cause { result ≡ Status.VolumeFault → Rose (V.faults volume.old) (V.faults volume.new) }
    ensures never_falls { V.faults volume.old ≤ V.faults volume.new }
{
    match create(alloc, volume, birth) {
        Ok(()) => Status::Done,
        Err(fault) => status_of(fault),
    }
}
