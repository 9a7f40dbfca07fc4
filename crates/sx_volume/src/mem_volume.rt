ghost use Rattle.std.specs.Prelude.{◌≡◌, ◌+◌, ◌-◌, ◌++◌, ◌<◌, ◌≤◌, ◌↔◌, ◌⊎◌, [], ◌∷◌, List, Option, Some, None, ℕ, IsTrue, IsSome, length, take, drop, slice_set, IsErr, OnOk, OnErr, IfOk, IfSome};
ghost use Rattle.std.specs.Arc.{arc_value};
ghost use Rattle.sx_outside.specs.Faults.{Rose};
ghost use Rattle.sx_volume.specs.Change.{AreBytes, image_of};
ghost use Rattle.sx_volume.specs.Counts.{plus};
ghost use Rattle.sx_volume.specs.Held.{IsHeldFor, LiesInHeld, held_piece, held_range};
ghost use Rattle.sx_volume.specs.Images.{Only, IsWithin, Follows, Appends, Puts, Cuts, Elapses, NoSync, Syncs};
ghost use Rattle.sx_volume.specs.Medium.{Medium, pending, bytes_of, is_calm, moment_of, MayLeave, MayHaveLeft, HadSync, after_failure, after_read, after_failed_read, after_append, after_put, after_cut, after_sync};
ghost use Rattle.sx_volume.specs.Replay.{counts_now, only_now, synced_by_now, told_length, as_read};
ghost use Rattle.sx_volume.specs.Tally.{FailsNext};

use crate::held_piece::{HeldPiece, range_of};
use crate::{MemEnd, MemFile, MemSpot, Volume};
use std::alloc::{AllocError, Global};
use std::marker::Model;
use std::sync::Arc;
use sx_outside::Failed;

/// A volume in memory, which tells its bytes and fails where it is told to.
///
/// It stands on a file in memory, whose record of calls tells all that a crash may leave at each moment.
#[derive(Drop)]
pub struct MemVolume {
    file: MemFile,
    held: Option<HeldPiece>,
    spare: usize,
    bytes_read: u64,
}

impl Model for MemVolume {
    ghost use Rattle.sx_volume.specs.Medium.{Medium};

    ghost Value = { Medium };

    ghost use Rattle.sx_volume.specs.Kept.{medium_in, HasRoom};

    ghost view = { medium_in };

    ghost invariant = { HasRoom };
}

impl MemVolume {
    /// A volume with these bytes, all of them kept, and with nothing held. Of its calls of `read_at`, `append`,
    /// `put_byte`, `cut` and `sync`, counted together from 1, those with the numbers in `failing` fail, and no other.
    /// Errors: `AllocError` where memory runs out.
    pub fn new(alloc: Global, bytes: Vec<u8>, failing: Vec<u64>) -> Result<MemVolume, AllocError>
        ensures value { IfOk result (λ volume. volume ≡ record {
          first = bytes.items;
          changes = [];
          held = None;
          spare = 0;
          tally = record { calls = 0; failing = failing.items; faults = 0 };
          bytes_read = 0;
        }) }
        ensures told { IfOk result (λ volume. bytes_of volume ≡ bytes.items) }
        ensures kept { IfOk result (λ volume. Only bytes.items (MayLeave volume)) }
    {
        Ok(MemVolume {
            file: MemFile::new(alloc, bytes, failing)?,
            held: None,
            spare: 0,
            bytes_read: 0,
        })
    }

    /// All the bytes, as they are read.
    pub fn as_slice(&self) -> &[u8]
        ensures { result.now ≡ bytes_of self.now }
    {
        self.file.as_slice()
    }

    /// One of the images that a crash may leave now. Behind the least length since the last sync that succeeded it has
    /// the tail, as far as that goes and at most up to the greatest length since then, and ends there. Each byte that
    /// `put_byte` wrote since then is the gate.
    /// Errors: `AllocError` where memory runs out.
    pub fn image(&self, alloc: Global, tail: &[u8], gate: u8) -> Result<Vec<u8>, AllocError>
        ensures value { IfOk result (λ image. image.items ≡ image_of (pending self.now) tail.now gate) }
        ensures image { IfOk result (λ image. MayLeave self.now image.items) }
    {
        self.file.image(alloc, tail, gate)
    }

    // What `append` does.
    fn append_held(&mut self) -> Result<(), Failed>
        requires held { IsHeldFor self.old.held (length (bytes_of self.old)) }
        requires spare { 0 < self.old.spare }
        ensures fails { IsErr result ↔ FailsNext self.old.tally }
        ensures done { OnOk result (self.new ≡ after_append self.old) }
        ensures piece { OnOk result (AreBytes (held_piece self.old.held)) }
        ensures failed { OnErr result (self.new ≡ after_failure self.old) }
        ensures never_falls { self.old.tally.faults ≤ self.new.tally.faults }
    {
        let Some(held) = &self.held else {
            unreachable!("the caller holds a piece");
        };
        self.file.append(held.piece.as_slice())?;
        self.held = None;
        self.spare -= 1;
        Ok(())
    }

    // What `put_byte` does.
    fn put(&mut self, at: usize, byte: u8) -> Result<(), Failed>
        requires place { at < length (bytes_of self.old) }
        requires spare { 0 < self.old.spare }
        ensures fails { IsErr result ↔ FailsNext self.old.tally }
        ensures done { OnOk result (self.new ≡ after_put self.old at byte) }
        ensures failed { OnErr result (self.new ≡ after_failure self.old) }
        ensures never_falls { self.old.tally.faults ≤ self.new.tally.faults }
    {
        self.file.put(at, byte)?;
        self.spare -= 1;
        Ok(())
    }

    // What `cut` does.
    fn cut_to(&mut self, len: usize) -> Result<(), Failed>
        requires place { len ≤ length (bytes_of self.old) }
        requires spare { 0 < self.old.spare }
        ensures fails { IsErr result ↔ FailsNext self.old.tally }
        ensures done { OnOk result (self.new ≡ after_cut self.old len) }
        ensures failed { OnErr result (self.new ≡ after_failure self.old) }
        ensures never_falls { self.old.tally.faults ≤ self.new.tally.faults }
    {
        self.file.cut(len)?;
        self.spare -= 1;
        Ok(())
    }

    // What `sync` does.
    fn keep(&mut self) -> Result<(), Failed>
        requires { 0 < self.old.spare }
        ensures fails { IsErr result ↔ FailsNext self.old.tally }
        ensures done { OnOk result (self.new ≡ after_sync self.old) }
        ensures failed { OnErr result (self.new ≡ after_failure self.old) }
        ensures never_falls { self.old.tally.faults ≤ self.new.tally.faults }
    {
        self.file.sync()?;
        self.spare -= 1;
        Ok(())
    }
}

impl Volume for MemVolume {
    type Spot = MemSpot;

    type End = MemEnd;

    ghost bytes = { λ volume. Some (bytes_of volume) };

    ghost size = { λ volume. length (bytes_of volume) };

    ghost faults = { λ volume. volume.tally.faults };

    ghost spare = { λ volume. volume.spare };

    ghost bytes_read = { λ volume. volume.bytes_read };

    ghost held = { λ volume. volume.held };

    ghost calm = { is_calm };

    ghost moment = { moment_of };

    ghost is_image = { MayLeave };

    ghost was_image = { MayHaveLeft };

    ghost synced = { HadSync };

    ghost counts_now = { λ volume. counts_now volume.first volume.changes };

    ghost only_now = { λ volume. only_now volume.first volume.changes };

    ghost synced_by_now = { λ volume. synced_by_now volume.changes };

    ghost told_size = { λ volume all. told_length (bytes_of volume) all };

    ghost reads = { λ volume. as_read volume.first volume.changes };

    fn len(&self) -> u64 {
        self.file.as_slice().len() as u64
    }

    fn read_at(&mut self, at: u64, room: &mut [u8]) -> Result<(), Failed>
        requires { at + length room.old ≤ length (bytes_of self.old) }
        ensures filled { OnOk result (room.new ≡ take (length room.old) (drop at (bytes_of self.old))) }
        ensures same_bytes { Some (bytes_of self.new) ≡ Some (bytes_of self.old) }
        ensures same_size { length (bytes_of self.new) ≡ length (bytes_of self.old) }
        ensures same_held { self.new.held ≡ self.old.held }
        ensures spare { self.old.spare ≤ self.new.spare }
        ensures counted { self.new.bytes_read ≡ plus self.old.bytes_read (length room.old) }
        ensures calm { IsTrue (is_calm self.old) → IsTrue (is_calm self.new) }
        ensures cause { OnErr result (Rose self.old.tally.faults self.new.tally.faults) }
        ensures no_fault { OnOk result (self.new.tally.faults ≡ self.old.tally.faults) }
        ensures never_falls { self.old.tally.faults ≤ self.new.tally.faults }
        ensures no_image_more { IsWithin (MayLeave self.old) (MayHaveLeft self.new (moment_of self.old)) }
        ensures no_image_less { IsWithin (MayLeave self.new) (MayLeave self.old) }
        ensures no_sync { NoSync (HadSync self.old) (HadSync self.new) }
        ensures time { Elapses (moment_of self.old) (moment_of self.new) (MayHaveLeft self.old) (MayHaveLeft self.new) (HadSync self.old) (HadSync self.new) }

        ensures fails { IsErr result ↔ FailsNext self.old.tally }
        ensures read { OnOk result (self.new ≡ after_read self.old (length room.old)) }
        ensures failed { OnErr result (self.new ≡ after_failed_read self.old (length room.old)) }
    {
        self.bytes_read = self.bytes_read.saturating_add(room.len() as u64);
        self.file.read(at as usize, room)
    }

    fn hold(&mut self, _alloc: Global, at: u64, piece: Arc<Vec<u8>>) -> Result<(), AllocError>
        ensures ok { OnOk result (self.new.held ≡ Some (at, (arc_value piece).items)) }
        ensures err { OnErr result (self.new.held ≡ self.old.held) }
        ensures same_bytes { Some (bytes_of self.new) ≡ Some (bytes_of self.old) }
        ensures same_size { length (bytes_of self.new) ≡ length (bytes_of self.old) }
        ensures same_read { self.new.bytes_read ≡ self.old.bytes_read }
        ensures spare { self.old.spare ≤ self.new.spare }
        ensures calm { IsTrue (is_calm self.old) → IsTrue (is_calm self.new) }
        ensures no_fault { self.new.tally.faults ≡ self.old.tally.faults }
        ensures never_falls { self.old.tally.faults ≤ self.new.tally.faults }
        ensures no_image_more { IsWithin (MayLeave self.old) (MayHaveLeft self.new (moment_of self.old)) }
        ensures no_image_less { IsWithin (MayLeave self.new) (MayLeave self.old) }
        ensures no_sync { NoSync (HadSync self.old) (HadSync self.new) }
        ensures time { Elapses (moment_of self.old) (moment_of self.new) (MayHaveLeft self.old) (MayHaveLeft self.new) (HadSync self.old) (HadSync self.new) }

        ensures holds { OnOk result (self.new ≡ record self.old { held = Some (at, (arc_value piece).items) }) }
        ensures refused { OnErr result (self.new ≡ self.old) }
    {
        let room = piece.len().checked_add(self.spare).ok_or(AllocError)?;
        self.file.reserve(room)?;
        self.held = Some(HeldPiece { at, piece });
        Ok(())
    }

    fn ready(&mut self, _alloc: Global, calls: u32) -> Result<(), AllocError>
        ensures ok { OnOk result (calls ≤ self.new.spare) }
        ensures spare { self.old.spare ≤ self.new.spare }
        ensures err { OnErr result (self.new.spare ≡ self.old.spare) }
        ensures same_bytes { Some (bytes_of self.new) ≡ Some (bytes_of self.old) }
        ensures same_size { length (bytes_of self.new) ≡ length (bytes_of self.old) }
        ensures same_held { self.new.held ≡ self.old.held }
        ensures same_read { self.new.bytes_read ≡ self.old.bytes_read }
        ensures calm { IsTrue (is_calm self.old) → IsTrue (is_calm self.new) }
        ensures no_fault { self.new.tally.faults ≡ self.old.tally.faults }
        ensures never_falls { self.old.tally.faults ≤ self.new.tally.faults }
        ensures no_image_more { IsWithin (MayLeave self.old) (MayHaveLeft self.new (moment_of self.old)) }
        ensures no_image_less { IsWithin (MayLeave self.new) (MayLeave self.old) }
        ensures no_sync { NoSync (HadSync self.old) (HadSync self.new) }
        ensures time { Elapses (moment_of self.old) (moment_of self.new) (MayHaveLeft self.old) (MayHaveLeft self.new) (HadSync self.old) (HadSync self.new) }

        ensures readied { self.new ≡ record self.old { spare = self.new.spare } }
    {
        let calls = calls as usize;
        if self.spare < calls {
            let held = self.held.as_ref().map_or(0, |held| held.piece.len());
            self.file
                .reserve(held.checked_add(calls).ok_or(AllocError)?)?;
            self.spare = calls;
        }
        Ok(())
    }

    fn append(&mut self) -> Result<(), Failed>
        requires held { IsHeldFor self.old.held (length (bytes_of self.old)) }
        requires spare { 0 < self.old.spare }
        ensures appended { OnOk result (Some (bytes_of self.new) ≡ Some (bytes_of self.old ++ held_piece self.old.held)) }
        ensures longer { OnOk result (length (bytes_of self.new) ≡ length (bytes_of self.old) + length (held_piece self.old.held)) }
        ensures held_no_more { OnOk result (self.new.held ≡ None) }
        ensures same_read { self.new.bytes_read ≡ self.old.bytes_read }
        ensures spare { self.old.spare ≤ self.new.spare + 1 }
        ensures cause { OnErr result (Rose self.old.tally.faults self.new.tally.faults) }
        ensures no_fault { OnOk result (self.new.tally.faults ≡ self.old.tally.faults) }
        ensures never_falls { self.old.tally.faults ≤ self.new.tally.faults }
        ensures goes_on_telling { IsSome (Some (bytes_of self.old)) → IsSome (Some (bytes_of self.new)) }
        ensures images { Follows (Appends (length (bytes_of self.old) + length (held_piece self.old.held))) (MayLeave self.old) (MayHaveLeft self.new (moment_of self.old)) }
        ensures no_sync { NoSync (HadSync self.old) (HadSync self.new) }
        ensures time { Elapses (moment_of self.old) (moment_of self.new) (MayHaveLeft self.old) (MayHaveLeft self.new) (HadSync self.old) (HadSync self.new) }

        ensures fails { IsErr result ↔ FailsNext self.old.tally }
        ensures done { OnOk result (self.new ≡ after_append self.old) }
        ensures failed { OnErr result (self.new ≡ after_failure self.old) }
    {
        self.append_held()?;
        Ok(())
    }

    fn put_byte(&mut self, at: u64, byte: u8) -> Result<(), Failed>
        requires place { at < length (bytes_of self.old) }
        requires spare { 0 < self.old.spare }
        ensures written { OnOk result (Some (bytes_of self.new) ≡ Some (slice_set (bytes_of self.old) at byte)) }
        ensures same_size { length (bytes_of self.new) ≡ length (bytes_of self.old) }
        ensures same_held { self.new.held ≡ self.old.held }
        ensures same_read { self.new.bytes_read ≡ self.old.bytes_read }
        ensures spare { self.old.spare ≤ self.new.spare + 1 }
        ensures cause { OnErr result (Rose self.old.tally.faults self.new.tally.faults) }
        ensures no_fault { OnOk result (self.new.tally.faults ≡ self.old.tally.faults) }
        ensures never_falls { self.old.tally.faults ≤ self.new.tally.faults }
        ensures goes_on_telling { IsSome (Some (bytes_of self.old)) → IsSome (Some (bytes_of self.new)) }
        ensures images { Follows (Puts at) (MayLeave self.old) (MayHaveLeft self.new (moment_of self.old)) }
        ensures no_sync { NoSync (HadSync self.old) (HadSync self.new) }
        ensures time { Elapses (moment_of self.old) (moment_of self.new) (MayHaveLeft self.old) (MayHaveLeft self.new) (HadSync self.old) (HadSync self.new) }

        ensures fails { IsErr result ↔ FailsNext self.old.tally }
        ensures done { OnOk result (self.new ≡ after_put self.old at byte) }
        ensures failed { OnErr result (self.new ≡ after_failure self.old) }
    {
        let place = at as usize;
        self.put(place, byte)?;
        Ok(())
    }

    fn cut(&mut self, len: u64) -> Result<(), Failed>
        requires place { len ≤ length (bytes_of self.old) }
        requires spare { 0 < self.old.spare }
        ensures cut { OnOk result (Some (bytes_of self.new) ≡ Some (take len (bytes_of self.old))) }
        ensures size { OnOk result (length (bytes_of self.new) ≡ len) }
        ensures same_held { self.new.held ≡ self.old.held }
        ensures same_read { self.new.bytes_read ≡ self.old.bytes_read }
        ensures spare { self.old.spare ≤ self.new.spare + 1 }
        ensures cause { OnErr result (Rose self.old.tally.faults self.new.tally.faults) }
        ensures no_fault { OnOk result (self.new.tally.faults ≡ self.old.tally.faults) }
        ensures never_falls { self.old.tally.faults ≤ self.new.tally.faults }
        ensures goes_on_telling { IsSome (Some (bytes_of self.old)) → IsSome (Some (bytes_of self.new)) }
        ensures images { Follows (Cuts len) (MayLeave self.old) (MayHaveLeft self.new (moment_of self.old)) }
        ensures no_sync { NoSync (HadSync self.old) (HadSync self.new) }
        ensures time { Elapses (moment_of self.old) (moment_of self.new) (MayHaveLeft self.old) (MayHaveLeft self.new) (HadSync self.old) (HadSync self.new) }

        ensures fails { IsErr result ↔ FailsNext self.old.tally }
        ensures done { OnOk result (self.new ≡ after_cut self.old len) }
        ensures failed { OnErr result (self.new ≡ after_failure self.old) }
    {
        self.cut_to(len as usize)?;
        Ok(())
    }

    fn sync(&mut self) -> Result<(), Failed>
        requires { 0 < self.old.spare }
        ensures same_bytes { OnOk result (Some (bytes_of self.new) ≡ Some (bytes_of self.old)) }
        ensures calm { OnOk result (IsTrue (is_calm self.new)) }
        ensures same_size { length (bytes_of self.new) ≡ length (bytes_of self.old) }
        ensures same_held { self.new.held ≡ self.old.held }
        ensures same_read { self.new.bytes_read ≡ self.old.bytes_read }
        ensures spare { self.old.spare ≤ self.new.spare + 1 }
        ensures cause { OnErr result (Rose self.old.tally.faults self.new.tally.faults) }
        ensures no_fault { OnOk result (self.new.tally.faults ≡ self.old.tally.faults) }
        ensures never_falls { self.old.tally.faults ≤ self.new.tally.faults }
        ensures goes_on_telling { IsSome (Some (bytes_of self.old)) → IsSome (Some (bytes_of self.new)) }
        ensures durable { OnOk result (Only (bytes_of self.old) (MayLeave self.new)) }
        ensures images { IsWithin (MayLeave self.old) (MayHaveLeft self.new (moment_of self.old)) }
        ensures synced { OnOk result (Syncs (moment_of self.old) (moment_of self.new) (HadSync self.old) (HadSync self.new)) }
        ensures no_sync { OnErr result (NoSync (HadSync self.old) (HadSync self.new)) }
        ensures time { Elapses (moment_of self.old) (moment_of self.new) (MayHaveLeft self.old) (MayHaveLeft self.new) (HadSync self.old) (HadSync self.new) }

        ensures fails { IsErr result ↔ FailsNext self.old.tally }
        ensures done { OnOk result (self.new ≡ after_sync self.old) }
        ensures failed { OnErr result (self.new ≡ after_failure self.old) }
    {
        self.keep()?;
        Ok(())
    }

    fn spot(&self, alloc: Global, at: u64, count: u32) -> Result<MemSpot, AllocError> {
        let range = match range_of(&self.held, at, count) {
            Some(range) => range,
            None => &self.file.as_slice()[at as usize..at as usize + count as usize],
        };
        MemSpot::new(alloc, range)
    }
}
