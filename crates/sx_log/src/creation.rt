// A volume is made: its birth part is written behind the closed birth gate, and then the gate is opened.
ghost use Rattle.std.specs.Prelude.{◌≡◌, ◌≢◌, ◌+◌, ◌<◌, ◌≤◌, ◌++◌, ◌⊎◌, [], ◌∷◌, List, ℕ, Some, IfSome, IfOk, IfErr, OnOk, OnErr, IsErr, IsErrOf, IsSome, IsTrue, IsUtf8, length, slice_get, slice_set};
ghost use Rattle.std.specs.Arc.{arc_value};
ghost use Rattle.std.specs.Option.{option_map};
ghost use Rattle.sx_layout.specs.Birth.{IsBirth, IsUnborn, birth_part, padded};
ghost use Rattle.sx_layout.specs.Born.{HasLog, StandsForNone};
ghost use Rattle.sx_log.specs.Calls.{GoesOn, IsSettled, IsSynced, IsUnsynced, OnlyReads};
ghost use Rattle.sx_log.specs.Creating.{CanBeBorn, HasPart, IsEmptySince, IsMade, IsOfCreate, IsOther, IsRefusal, IsShort, IsShut, IsTaken, StayShut, Tells, birth_of, newborn};
ghost use Rattle.sx_outside.specs.Faults.{Rose};
ghost use Rattle.sx_volume.specs.Held.{IsHeldFor, held_piece};
ghost use Rattle.sx_volume.specs.Images.{IsWithin, NoSync, Syncs};

use crate::reading::{CLOSED, FORMAT, Finding, MAGIC, OPEN, ZEROS, byte_at, find_birth};
use crate::{Birth, LogFault};
use sha2::{Digest, Sha256};
use std::alloc::{AllocError, Global};
use std::sync::Arc;
use sx_outside::Failed;
use sx_tree::text::Text;
use sx_volume::Volume;

/// Makes an unborn volume one with this birth and no commits.
///
/// It syncs, closes the birth gate and syncs, writes the birth part and syncs, and opens the gate and syncs. Over no byte at all
/// that makes seven calls of the volume; else it reads first, and cuts what stood behind the gate.
///
/// `Born` and `NotOurs` come where the volume is such, and then nothing is written. `Failed` comes only where a call of the volume
/// failed.
pub fn create<V: Volume>(alloc: Global, volume: &mut V, birth: &Birth) -> Result<(), LogFault>
    requires { CanBeBorn (birth_of birth.now) }
    ensures exactly { IfSome (V.bytes volume.old) (λ image. IsMade image result) }
    ensures answers { IfErr result IsOfCreate }
    ensures born { OnOk result (Tells (newborn (birth_of birth.now)) (V.bytes volume.old) (V.bytes volume.new)) }
    ensures log { OnOk result (HasLog (newborn (birth_of birth.now)) (birth_of birth.now) []) }
    ensures settled { OnOk result (IsSettled V.Volume volume.new) }
    ensures empty { IfSome (V.bytes volume.old) (λ image. IsUnborn image
        → IsEmptySince V.Volume volume.old volume.new ⊎ (IsErr result × IsUnsynced V.Volume volume.old volume.new)) }

    // A refusal leaves the bytes, and a crash leaves them from the sync on. So it is over each volume that is not unborn, whatever the
    // answer is, unless a call failed.
    ensures refused { IfErr result (λ fault. IsRefusal fault → V.bytes volume.new ≡ V.bytes volume.old) }
    ensures refused_images { IfErr result (λ fault. IsRefusal fault → IfSome (V.bytes volume.old) (λ image. IsSynced V.Volume image volume.old volume.new)) }
    ensures same_bytes { IfSome (V.bytes volume.old) (λ image. IsTaken image
        → (IsErrOf result LogFault.Failed → ⊥) → V.bytes volume.new ≡ V.bytes volume.old) }
    ensures same_images { IfSome (V.bytes volume.old) (λ image. IsTaken image
        → IsSynced V.Volume image volume.old volume.new ⊎ IsUnsynced V.Volume volume.old volume.new) }
    ensures cause { IsErrOf result LogFault.Failed → Rose (V.faults volume.old) (V.faults volume.new) }
    ensures no_fault { (IsErrOf result LogFault.Failed → ⊥) → V.faults volume.new ≡ V.faults volume.old }
    ensures on { GoesOn V.Volume volume.old volume.new }
{
    let part = Arc::new(alloc, part_with_gate(alloc, birth)?)?;
    begin(alloc, volume, 8)?;
    make_unborn(alloc, volume, part)
}

// Makes the birth part where the volume is unborn.
fn make_unborn<V: Volume>(alloc: Global, volume: &mut V, part: Arc<Vec<u8>>) -> Result<(), LogFault>
    requires part { HasPart (CLOSED ∷ (arc_value part).items) }
    requires settled { IsSettled V.Volume volume.old }
    requires spare { 7 ≤ V.spare volume.old }
    ensures exactly { IfSome (V.bytes volume.old) (λ image. IsMade image result) }
    ensures answers { IfErr result IsOfCreate }
    ensures made { OnOk result (Tells (OPEN ∷ (arc_value part).items) (V.bytes volume.old) (V.bytes volume.new)) }
    ensures settled { OnOk result (IsSettled V.Volume volume.new) }
    ensures refused { IfErr result (λ fault. IsRefusal fault → OnlyReads V.Volume volume.old volume.new) }
    ensures taken { IfSome (V.bytes volume.old) (λ image. IsTaken image → OnlyReads V.Volume volume.old volume.new) }
    ensures images { IfSome (V.bytes volume.old) (λ image. IsUnborn image → (c : List ℕ) → V.was_image volume.new (V.moment volume.old) c → StandsForNone c) }
    ensures cause { IsErrOf result LogFault.Failed → Rose (V.faults volume.old) (V.faults volume.new) }
    ensures no_fault { (IsErrOf result LogFault.Failed → ⊥) → V.faults volume.new ≡ V.faults volume.old }
    ensures on { GoesOn V.Volume volume.old volume.new }
{
    match find_birth(volume)? {
        Finding::Unborn => make(alloc, volume, part),
        Finding::Born(_) => Err(LogFault::Born),
        Finding::NotOurs(first) => Err(LogFault::NotOurs { first }),
    }
}

/// Closes the birth gate of a volume that is not born, and syncs.
fn close_birth_gate<V: Volume>(alloc: Global, volume: &mut V) -> Result<(), LogFault>
    requires unborn { IfSome (V.bytes volume.old) IsUnborn }
    requires settled { IsSettled V.Volume volume.old }
    requires spare { 2 ≤ V.spare volume.old }
    ensures shut { OnOk result (IsShut (V.bytes volume.new)) }
    ensures size { OnOk result (1 ≤ V.size volume.new) }
    ensures settled { OnOk result (IsSettled V.Volume volume.new) }
    ensures goes_on_telling { IsSome (V.bytes volume.old) → IsSome (V.bytes volume.new) }
    ensures spare { V.spare volume.old ≤ V.spare volume.new + 2 }
    ensures fault { IfErr result IsOther }
    ensures images { IfSome (V.bytes volume.old) (λ _. (c : List ℕ) → V.was_image volume.new (V.moment volume.old) c → StandsForNone c) }
    ensures cause { IsErrOf result LogFault.Failed → Rose (V.faults volume.old) (V.faults volume.new) }
    ensures no_fault { (IsErrOf result LogFault.Failed → ⊥) → V.faults volume.new ≡ V.faults volume.old }
    ensures on { GoesOn V.Volume volume.old volume.new }
{
    shut_birth_gate(alloc, volume)?;
    volume.sync()?;
    Ok(())
}

// Closes it: over no byte the byte is appended, and over another byte than 0 it is put.
fn shut_birth_gate<V: Volume>(alloc: Global, volume: &mut V) -> Result<(), LogFault>
    requires unborn { IfSome (V.bytes volume.old) IsUnborn }
    requires settled { IsSettled V.Volume volume.old }
    requires spare { 1 ≤ V.spare volume.old }
    ensures shut { OnOk result (IsShut (V.bytes volume.new)) }
    ensures size { OnOk result (1 ≤ V.size volume.new) }
    ensures goes_on_telling { IsSome (V.bytes volume.old) → IsSome (V.bytes volume.new) }
    ensures spare { V.spare volume.old ≤ V.spare volume.new + 1 }
    ensures fault { IfErr result IsOther }
    ensures images { IfSome (V.bytes volume.old) (λ _. (c : List ℕ) → V.was_image volume.new (V.moment volume.old) c → StandsForNone c) }
    ensures cause { IsErrOf result LogFault.Failed → Rose (V.faults volume.old) (V.faults volume.new) }
    ensures no_fault { (IsErrOf result LogFault.Failed → ⊥) → V.faults volume.new ≡ V.faults volume.old }
    ensures on { GoesOn V.Volume volume.old volume.new }
{
    if volume.len() == 0 {
        let gate = Vec::from_slice(alloc, &[CLOSED])?;
        volume.hold(alloc, 0, Arc::new(alloc, gate)?)?;
        volume.append()?;
        return Ok(());
    }
    if byte_at(volume, 0)? != CLOSED {
        volume.put_byte(0, CLOSED)?;
    }
    Ok(())
}

// Behind the closed birth gate writes the birth part with the closed gate of the first group, in place of what stood there, and
// syncs.
fn write_part<V: Volume>(alloc: Global, volume: &mut V, part: Arc<Vec<u8>>) -> Result<(), LogFault>
    requires shut { IsShut (V.bytes volume.old) }
    requires settled { IsSettled V.Volume volume.old }
    requires size { 1 ≤ V.size volume.old }
    requires spare { 3 ≤ V.spare volume.old }
    ensures written { OnOk result (V.bytes volume.new ≡ option_map (λ _. CLOSED ∷ (arc_value part).items) (V.bytes volume.old)) }
    ensures size { OnOk result (1 ≤ V.size volume.new) }
    ensures settled { OnOk result (IsSettled V.Volume volume.new) }
    ensures spare { V.spare volume.old ≤ V.spare volume.new + 3 }
    ensures fault { IfErr result IsOther }
    ensures images { StayShut (V.bytes volume.old) (V.was_image volume.new (V.moment volume.old)) }
    ensures cause { IsErrOf result LogFault.Failed → Rose (V.faults volume.old) (V.faults volume.new) }
    ensures no_fault { (IsErrOf result LogFault.Failed → ⊥) → V.faults volume.new ≡ V.faults volume.old }
    ensures on { GoesOn V.Volume volume.old volume.new }
{
    cut_to_gate(volume)?;
    append_part(alloc, volume, part)?;
    volume.sync()?;
    Ok(())
}

// Cuts what stands behind the birth gate.
fn cut_to_gate<V: Volume>(volume: &mut V) -> Result<(), Failed>
    requires shut { IsShut (V.bytes volume.old) }
    requires settled { IsSettled V.Volume volume.old }
    requires size { 1 ≤ V.size volume.old }
    requires spare { 1 ≤ V.spare volume.old }
    ensures cut { OnOk result (V.bytes volume.new ≡ option_map (λ _. CLOSED ∷ []) (V.bytes volume.old)) }
    ensures size { OnOk result (V.size volume.new ≡ 1) }
    ensures spare { V.spare volume.old ≤ V.spare volume.new + 1 }
    ensures images { StayShut (V.bytes volume.old) (V.was_image volume.new (V.moment volume.old)) }
    ensures cause { OnErr result (Rose (V.faults volume.old) (V.faults volume.new)) }
    ensures no_fault { OnOk result (V.faults volume.new ≡ V.faults volume.old) }
    ensures on { GoesOn V.Volume volume.old volume.new }
{
    if volume.len() <= 1 {
        return Ok(());
    }
    volume.cut(1)?;
    Ok(())
}

// Appends the birth part behind the closed birth gate.
fn append_part<V: Volume>(alloc: Global, volume: &mut V, part: Arc<Vec<u8>>) -> Result<(), LogFault>
    requires shut { StayShut (V.bytes volume.old) (V.is_image volume.old) }
    requires size { V.size volume.old ≡ 1 }
    requires spare { 1 ≤ V.spare volume.old }
    ensures written { OnOk result (V.bytes volume.new ≡ option_map (λ all. all ++ (arc_value part).items) (V.bytes volume.old)) }
    ensures size { OnOk result (1 ≤ V.size volume.new) }
    ensures spare { V.spare volume.old ≤ V.spare volume.new + 1 }
    ensures fault { IfErr result IsOther }
    ensures images { StayShut (V.bytes volume.old) (V.was_image volume.new (V.moment volume.old)) }
    ensures cause { IsErrOf result LogFault.Failed → Rose (V.faults volume.old) (V.faults volume.new) }
    ensures no_fault { (IsErrOf result LogFault.Failed → ⊥) → V.faults volume.new ≡ V.faults volume.old }
    ensures on { GoesOn V.Volume volume.old volume.new }
{
    volume.hold(alloc, 1, part)?;
    volume.append()?;
    Ok(())
}

// Opens the birth gate in front of a birth part, and syncs.
fn open_birth_gate<V: Volume>(volume: &mut V) -> Result<(), Failed>
    requires part { IfSome (V.bytes volume.old) HasPart }
    requires settled { IsSettled V.Volume volume.old }
    requires size { 1 ≤ V.size volume.old }
    requires spare { 2 ≤ V.spare volume.old }
    ensures opened { OnOk result (V.bytes volume.new ≡ option_map (λ all. slice_set all 0 OPEN) (V.bytes volume.old)) }
    ensures settled { OnOk result (IsSettled V.Volume volume.new) }
    ensures images { IfSome (V.bytes volume.old) (λ _. (c : List ℕ) → V.was_image volume.new (V.moment volume.old) c → StandsForNone c) }
    ensures cause { OnErr result (Rose (V.faults volume.old) (V.faults volume.new)) }
    ensures no_fault { OnOk result (V.faults volume.new ≡ V.faults volume.old) }
    ensures on { GoesOn V.Volume volume.old volume.new }
{
    volume.put_byte(0, OPEN)?;
    volume.sync()
}

// Makes the birth part of a volume that is not born. The part has the closed gate of the first group at its end.
fn make<V: Volume>(alloc: Global, volume: &mut V, part: Arc<Vec<u8>>) -> Result<(), LogFault>
    requires part { HasPart (CLOSED ∷ (arc_value part).items) }
    requires unborn { IfSome (V.bytes volume.old) IsUnborn }
    requires settled { IsSettled V.Volume volume.old }
    requires spare { 7 ≤ V.spare volume.old }
    ensures made { OnOk result (Tells (OPEN ∷ (arc_value part).items) (V.bytes volume.old) (V.bytes volume.new)) }
    ensures settled { OnOk result (IsSettled V.Volume volume.new) }
    ensures fault { IfErr result IsOther }
    ensures images { IfSome (V.bytes volume.old) (λ _. (c : List ℕ) → V.was_image volume.new (V.moment volume.old) c → StandsForNone c) }
    ensures cause { IsErrOf result LogFault.Failed → Rose (V.faults volume.old) (V.faults volume.new) }
    ensures no_fault { (IsErrOf result LogFault.Failed → ⊥) → V.faults volume.new ≡ V.faults volume.old }
    ensures on { GoesOn V.Volume volume.old volume.new }
{
    close_birth_gate(alloc, volume)?;
    write_part(alloc, volume, part)?;
    open_birth_gate(volume)?;
    Ok(())
}

// The birth part, with the closed gate of the first group behind it.
fn part_with_gate(alloc: Global, birth: &Birth) -> Result<Vec<u8>, AllocError>
    requires { CanBeBorn (birth_of birth.now) }
    ensures part { IfOk result (λ part. part.items ≡ birth_part (birth_of birth.now) ++ CLOSED ∷ []) }
    ensures birth { OnOk result (IsBirth (birth_of birth.now)) }
{
    let mut part = Vec::new(alloc);
    part.extend_from_slice(&MAGIC)?;
    part.push(FORMAT)?;
    part.push(birth.window)?;
    put_name(&mut part, &birth.from)?;
    put_name(&mut part, &birth.to)?;
    let digest = Sha256::digest(part.as_slice());
    part.extend_from_slice(&digest)?;
    part.push(CLOSED)?;
    Ok(part)
}

// Appends the length of the name, the name, and zeros up to 64 bytes.
fn put_name(out: &mut Vec<u8>, name: &Text) -> Result<(), AllocError>
    requires { IsShort name.now }
    ensures put { OnOk result (out.new.items ≡ out.old.items ++ (length name.now ∷ padded name.now)) }
    ensures utf8 { IsUtf8 name.now }
{
    let bytes = name.as_bytes();
    out.push(bytes.len() as u8)?;
    out.extend_from_slice(bytes)?;
    let (_, zeros) = ZEROS.split_at(bytes.len());
    out.extend_from_slice(zeros)?;
    Ok(())
}

/// Syncs, with so many calls ready, this one among them.
pub(crate) fn begin<V: Volume>(alloc: Global, volume: &mut V, calls: u32) -> Result<(), LogFault>
    requires { 1 ≤ calls }
    ensures settled { OnOk result (IsSettled V.Volume volume.new) }
    ensures calm { OnOk result (IsTrue (V.calm volume.new)) }
    ensures same_bytes { OnOk result (V.bytes volume.new ≡ V.bytes volume.old) }
    ensures same_size { V.size volume.new ≡ V.size volume.old }
    ensures same_held { V.held volume.new ≡ V.held volume.old }
    ensures same_read { V.bytes_read volume.new ≡ V.bytes_read volume.old }
    ensures nothing_done { IsErrOf result LogFault.OutOfMemory → V.bytes volume.new ≡ V.bytes volume.old }
    ensures told { IsSome (V.bytes volume.old) → IsSome (V.bytes volume.new) }
    ensures spare { OnOk result (calls ≤ V.spare volume.new + 1) }
    ensures fault { IfErr result IsOther }
    ensures synced { OnOk result (IfSome (V.bytes volume.old) (λ _. Syncs (V.moment volume.old) (V.moment volume.new) (V.synced volume.old) (V.synced volume.new))) }
    ensures no_sync { OnErr result (NoSync (V.synced volume.old) (V.synced volume.new)) }
    ensures images { IsWithin (V.is_image volume.old) (V.was_image volume.new (V.moment volume.old)) }
    ensures cause { IsErrOf result LogFault.Failed → Rose (V.faults volume.old) (V.faults volume.new) }
    ensures no_fault { (IsErrOf result LogFault.Failed → ⊥) → V.faults volume.new ≡ V.faults volume.old }
    ensures on { GoesOn V.Volume volume.old volume.new }
{
    volume.ready(alloc, calls)?;
    volume.sync()?;
    Ok(())
}
