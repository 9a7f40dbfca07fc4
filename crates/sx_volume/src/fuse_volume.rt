ghost use Rattle.std.specs.Prelude.{◌≡◌, ◌+◌, ◌-◌, ◌++◌, ◌<◌, ◌≤◌, ◌↔◌, ◌⊎◌, List, Option, Some, None, ℕ, IsTrue, IsSome, length, take, drop, slice_set, IsErr, OnOk, OnErr, IfOk, IfSome};
ghost use Rattle.std.specs.Arc.{arc_value};
ghost use Rattle.sx_outside.specs.Faults.{Rose};
ghost use Rattle.sx_volume.specs.Counts.{plus};
ghost use Rattle.sx_volume.specs.Fuse.{Blows, blown, passed, reading};
ghost use Rattle.sx_volume.specs.Held.{IsHeldFor, held_piece};
ghost use Rattle.sx_volume.specs.Images.{Only, IsWithin, Follows, Appends, Puts, Cuts, Elapses, NoSync, Syncs};
ghost use Rattle.sx_volume.specs.Medium.{bytes_of, is_calm, moment_of, MayLeave, MayHaveLeft, HadSync, after_failure, after_read, after_failed_read, after_append, after_put, after_cut, after_sync};
ghost use Rattle.sx_volume.specs.Replay.{counts_now, only_now, synced_by_now, told_length, as_read};

use crate::{MemEnd, MemSpot, MemVolume, Volume};
use std::alloc::{AllocError, Global};
use std::marker::Model;
use std::sync::Arc;
use sx_outside::Failed;

/// A volume in memory behind a fuse: it passes so many calls on, and then fails each.
///
/// The calls that count are those of `read_at`, `append`, `put_byte`, `cut` and `sync`.
#[derive(Drop)]
pub struct FuseVolume {
    inner: MemVolume,
    left: u64,
    faults: u64,
    bytes_read: u64,
}

impl Model for FuseVolume {
    ghost use Rattle.sx_volume.specs.Fuse.{Fuse};

    ghost Value = { Fuse };

    ghost view = { λ fuse. record { inner = fuse.inner; left = fuse.left; faults = fuse.faults; bytes_read = fuse.bytes_read } };
}

impl FuseVolume {
    /// Passes so many calls on to the volume.
    pub fn new(inner: MemVolume, calls: u64) -> FuseVolume
        ensures { result ≡ record { inner = inner; left = calls; faults = 0; bytes_read = 0 } }
    {
        FuseVolume {
            inner,
            left: calls,
            faults: 0,
            bytes_read: 0,
        }
    }

    /// The volume behind the fuse.
    pub fn into_inner(self) -> MemVolume
        ensures { result ≡ self.inner }
    {
        self.inner
    }

    // Counts one call more, which is passed on where the fuse still holds.
    fn pass(&mut self) -> Result<(), Failed>
        ensures fails { IsErr result ↔ (self.old.left ≡ 0) }
        ensures same_inner { self.new.inner ≡ self.old.inner }
        ensures ok { OnOk result (self.new ≡ passed self.old self.old.inner) }
        ensures err { OnErr result (self.new ≡ record self.old { faults = plus self.old.faults 1 }) }
        ensures never_falls { self.old.faults ≤ self.new.faults }
    {
        if self.left == 0 {
            self.faults = self.faults.saturating_add(1);
            return Err(Failed);
        }
        self.left -= 1;
        Ok(())
    }

    // What a call that was passed on answers. Where it failed that is a fault of this volume too.
    fn note(&mut self, answer: Result<(), Failed>) -> Result<(), Failed>
        ensures same { result ≡ answer }
        ensures same_inner { self.new.inner ≡ self.old.inner }
        ensures ok { OnOk result (self.new ≡ self.old) }
        ensures err { OnErr result (self.new ≡ record self.old { faults = plus self.old.faults 1 }) }
        ensures never_falls { self.old.faults ≤ self.new.faults }
    {
        if answer.is_err() {
            self.faults = self.faults.saturating_add(1);
        }
        answer
    }
}

impl Volume for FuseVolume {
    type Spot = MemSpot;

    type End = MemEnd;

    ghost bytes = { λ fuse. Some (bytes_of fuse.inner) };

    ghost size = { λ fuse. length (bytes_of fuse.inner) };

    ghost faults = { λ fuse. fuse.faults };

    ghost spare = { λ fuse. fuse.inner.spare };

    ghost bytes_read = { λ fuse. fuse.bytes_read };

    ghost held = { λ fuse. fuse.inner.held };

    ghost calm = { λ fuse. is_calm fuse.inner };

    ghost moment = { λ fuse. moment_of fuse.inner };

    ghost is_image = { λ fuse. MayLeave fuse.inner };

    ghost was_image = { λ fuse. MayHaveLeft fuse.inner };

    ghost synced = { λ fuse. HadSync fuse.inner };

    ghost counts_now = { λ fuse. counts_now fuse.inner.first fuse.inner.changes };

    ghost only_now = { λ fuse. only_now fuse.inner.first fuse.inner.changes };

    ghost synced_by_now = { λ fuse. synced_by_now fuse.inner.changes };

    ghost told_size = { λ fuse all. told_length (bytes_of fuse.inner) all };

    ghost reads = { λ fuse. as_read fuse.inner.first fuse.inner.changes };

    fn len(&self) -> u64 {
        self.inner.len()
    }

    fn read_at(&mut self, at: u64, room: &mut [u8]) -> Result<(), Failed>
        requires { at + length room.old ≤ length (bytes_of self.old.inner) }
        ensures filled { OnOk result (room.new ≡ take (length room.old) (drop at (bytes_of self.old.inner))) }
        ensures same_bytes { Some (bytes_of self.new.inner) ≡ Some (bytes_of self.old.inner) }
        ensures same_size { length (bytes_of self.new.inner) ≡ length (bytes_of self.old.inner) }
        ensures same_held { self.new.inner.held ≡ self.old.inner.held }
        ensures spare { self.old.inner.spare ≤ self.new.inner.spare }
        ensures counted { self.new.bytes_read ≡ plus self.old.bytes_read (length room.old) }
        ensures calm { IsTrue (is_calm self.old.inner) → IsTrue (is_calm self.new.inner) }
        ensures cause { OnErr result (Rose self.old.faults self.new.faults) }
        ensures no_fault { OnOk result (self.new.faults ≡ self.old.faults) }
        ensures never_falls { self.old.faults ≤ self.new.faults }
        ensures no_image_more { IsWithin (MayLeave self.old.inner) (MayHaveLeft self.new.inner (moment_of self.old.inner)) }
        ensures no_image_less { IsWithin (MayLeave self.new.inner) (MayLeave self.old.inner) }
        ensures no_sync { NoSync (HadSync self.old.inner) (HadSync self.new.inner) }
        ensures time { Elapses (moment_of self.old.inner) (moment_of self.new.inner) (MayHaveLeft self.old.inner) (MayHaveLeft self.new.inner) (HadSync self.old.inner) (HadSync self.new.inner) }

        ensures fails { IsErr result ↔ Blows self.old }
        ensures read { OnOk result (self.new ≡ passed (reading self.old (length room.old)) (after_read self.old.inner (length room.old))) }
        ensures failed { OnErr result (self.new ≡ blown (reading self.old (length room.old)) (after_failed_read self.old.inner (length room.old))) }
    {
        self.bytes_read = self.bytes_read.saturating_add(room.len() as u64);
        self.pass()?;
        let read = self.inner.read_at(at, room);
        self.note(read)
    }

    fn hold(&mut self, alloc: Global, at: u64, piece: Arc<Vec<u8>>) -> Result<(), AllocError>
        ensures ok { OnOk result (self.new.inner.held ≡ Some (at, (arc_value piece).items)) }
        ensures err { OnErr result (self.new.inner.held ≡ self.old.inner.held) }
        ensures same_bytes { Some (bytes_of self.new.inner) ≡ Some (bytes_of self.old.inner) }
        ensures same_size { length (bytes_of self.new.inner) ≡ length (bytes_of self.old.inner) }
        ensures same_read { self.new.bytes_read ≡ self.old.bytes_read }
        ensures spare { self.old.inner.spare ≤ self.new.inner.spare }
        ensures calm { IsTrue (is_calm self.old.inner) → IsTrue (is_calm self.new.inner) }
        ensures no_fault { self.new.faults ≡ self.old.faults }
        ensures never_falls { self.old.faults ≤ self.new.faults }
        ensures no_image_more { IsWithin (MayLeave self.old.inner) (MayHaveLeft self.new.inner (moment_of self.old.inner)) }
        ensures no_image_less { IsWithin (MayLeave self.new.inner) (MayLeave self.old.inner) }
        ensures no_sync { NoSync (HadSync self.old.inner) (HadSync self.new.inner) }
        ensures time { Elapses (moment_of self.old.inner) (moment_of self.new.inner) (MayHaveLeft self.old.inner) (MayHaveLeft self.new.inner) (HadSync self.old.inner) (HadSync self.new.inner) }

        ensures holds { OnOk result (self.new ≡ record self.old { inner = record self.old.inner { held = Some (at, (arc_value piece).items) } }) }
        ensures refused { OnErr result (self.new ≡ self.old) }
    {
        self.inner.hold(alloc, at, piece)
    }

    fn ready(&mut self, alloc: Global, calls: u32) -> Result<(), AllocError>
        ensures ok { OnOk result (calls ≤ self.new.inner.spare) }
        ensures spare { self.old.inner.spare ≤ self.new.inner.spare }
        ensures err { OnErr result (self.new.inner.spare ≡ self.old.inner.spare) }
        ensures same_bytes { Some (bytes_of self.new.inner) ≡ Some (bytes_of self.old.inner) }
        ensures same_size { length (bytes_of self.new.inner) ≡ length (bytes_of self.old.inner) }
        ensures same_held { self.new.inner.held ≡ self.old.inner.held }
        ensures same_read { self.new.bytes_read ≡ self.old.bytes_read }
        ensures calm { IsTrue (is_calm self.old.inner) → IsTrue (is_calm self.new.inner) }
        ensures no_fault { self.new.faults ≡ self.old.faults }
        ensures never_falls { self.old.faults ≤ self.new.faults }
        ensures no_image_more { IsWithin (MayLeave self.old.inner) (MayHaveLeft self.new.inner (moment_of self.old.inner)) }
        ensures no_image_less { IsWithin (MayLeave self.new.inner) (MayLeave self.old.inner) }
        ensures no_sync { NoSync (HadSync self.old.inner) (HadSync self.new.inner) }
        ensures time { Elapses (moment_of self.old.inner) (moment_of self.new.inner) (MayHaveLeft self.old.inner) (MayHaveLeft self.new.inner) (HadSync self.old.inner) (HadSync self.new.inner) }

        ensures readied { self.new ≡ record self.old { inner = record self.old.inner { spare = self.new.inner.spare } } }
    {
        self.inner.ready(alloc, calls)
    }

    fn append(&mut self) -> Result<(), Failed>
        requires held { IsHeldFor self.old.inner.held (length (bytes_of self.old.inner)) }
        requires spare { 0 < self.old.inner.spare }
        ensures appended { OnOk result (Some (bytes_of self.new.inner) ≡ Some (bytes_of self.old.inner ++ held_piece self.old.inner.held)) }
        ensures longer { OnOk result (length (bytes_of self.new.inner) ≡ length (bytes_of self.old.inner) + length (held_piece self.old.inner.held)) }
        ensures held_no_more { OnOk result (self.new.inner.held ≡ None) }
        ensures same_read { self.new.bytes_read ≡ self.old.bytes_read }
        ensures spare { self.old.inner.spare ≤ self.new.inner.spare + 1 }
        ensures cause { OnErr result (Rose self.old.faults self.new.faults) }
        ensures no_fault { OnOk result (self.new.faults ≡ self.old.faults) }
        ensures never_falls { self.old.faults ≤ self.new.faults }
        ensures goes_on_telling { IsSome (Some (bytes_of self.old.inner)) → IsSome (Some (bytes_of self.new.inner)) }
        ensures images { Follows (Appends (length (bytes_of self.old.inner) + length (held_piece self.old.inner.held))) (MayLeave self.old.inner) (MayHaveLeft self.new.inner (moment_of self.old.inner)) }
        ensures no_sync { NoSync (HadSync self.old.inner) (HadSync self.new.inner) }
        ensures time { Elapses (moment_of self.old.inner) (moment_of self.new.inner) (MayHaveLeft self.old.inner) (MayHaveLeft self.new.inner) (HadSync self.old.inner) (HadSync self.new.inner) }

        ensures fails { IsErr result ↔ Blows self.old }
        ensures done { OnOk result (self.new ≡ passed self.old (after_append self.old.inner)) }
        ensures failed { OnErr result (self.new ≡ blown self.old (after_failure self.old.inner)) }
    {
        self.pass()?;
        let appended = self.inner.append();
        self.note(appended)
    }

    fn put_byte(&mut self, at: u64, byte: u8) -> Result<(), Failed>
        requires place { at < length (bytes_of self.old.inner) }
        requires spare { 0 < self.old.inner.spare }
        ensures written { OnOk result (Some (bytes_of self.new.inner) ≡ Some (slice_set (bytes_of self.old.inner) at byte)) }
        ensures same_size { length (bytes_of self.new.inner) ≡ length (bytes_of self.old.inner) }
        ensures same_held { self.new.inner.held ≡ self.old.inner.held }
        ensures same_read { self.new.bytes_read ≡ self.old.bytes_read }
        ensures spare { self.old.inner.spare ≤ self.new.inner.spare + 1 }
        ensures cause { OnErr result (Rose self.old.faults self.new.faults) }
        ensures no_fault { OnOk result (self.new.faults ≡ self.old.faults) }
        ensures never_falls { self.old.faults ≤ self.new.faults }
        ensures goes_on_telling { IsSome (Some (bytes_of self.old.inner)) → IsSome (Some (bytes_of self.new.inner)) }
        ensures images { Follows (Puts at) (MayLeave self.old.inner) (MayHaveLeft self.new.inner (moment_of self.old.inner)) }
        ensures no_sync { NoSync (HadSync self.old.inner) (HadSync self.new.inner) }
        ensures time { Elapses (moment_of self.old.inner) (moment_of self.new.inner) (MayHaveLeft self.old.inner) (MayHaveLeft self.new.inner) (HadSync self.old.inner) (HadSync self.new.inner) }

        ensures fails { IsErr result ↔ Blows self.old }
        ensures done { OnOk result (self.new ≡ passed self.old (after_put self.old.inner at byte)) }
        ensures failed { OnErr result (self.new ≡ blown self.old (after_failure self.old.inner)) }
    {
        self.pass()?;
        let written = self.inner.put_byte(at, byte);
        self.note(written)
    }

    fn cut(&mut self, len: u64) -> Result<(), Failed>
        requires place { len ≤ length (bytes_of self.old.inner) }
        requires spare { 0 < self.old.inner.spare }
        ensures cut { OnOk result (Some (bytes_of self.new.inner) ≡ Some (take len (bytes_of self.old.inner))) }
        ensures size { OnOk result (length (bytes_of self.new.inner) ≡ len) }
        ensures same_held { self.new.inner.held ≡ self.old.inner.held }
        ensures same_read { self.new.bytes_read ≡ self.old.bytes_read }
        ensures spare { self.old.inner.spare ≤ self.new.inner.spare + 1 }
        ensures cause { OnErr result (Rose self.old.faults self.new.faults) }
        ensures no_fault { OnOk result (self.new.faults ≡ self.old.faults) }
        ensures never_falls { self.old.faults ≤ self.new.faults }
        ensures goes_on_telling { IsSome (Some (bytes_of self.old.inner)) → IsSome (Some (bytes_of self.new.inner)) }
        ensures images { Follows (Cuts len) (MayLeave self.old.inner) (MayHaveLeft self.new.inner (moment_of self.old.inner)) }
        ensures no_sync { NoSync (HadSync self.old.inner) (HadSync self.new.inner) }
        ensures time { Elapses (moment_of self.old.inner) (moment_of self.new.inner) (MayHaveLeft self.old.inner) (MayHaveLeft self.new.inner) (HadSync self.old.inner) (HadSync self.new.inner) }

        ensures fails { IsErr result ↔ Blows self.old }
        ensures done { OnOk result (self.new ≡ passed self.old (after_cut self.old.inner len)) }
        ensures failed { OnErr result (self.new ≡ blown self.old (after_failure self.old.inner)) }
    {
        self.pass()?;
        let cut = self.inner.cut(len);
        self.note(cut)
    }

    fn sync(&mut self) -> Result<(), Failed>
        requires { 0 < self.old.inner.spare }
        ensures same_bytes { OnOk result (Some (bytes_of self.new.inner) ≡ Some (bytes_of self.old.inner)) }
        ensures calm { OnOk result (IsTrue (is_calm self.new.inner)) }
        ensures same_size { length (bytes_of self.new.inner) ≡ length (bytes_of self.old.inner) }
        ensures same_held { self.new.inner.held ≡ self.old.inner.held }
        ensures same_read { self.new.bytes_read ≡ self.old.bytes_read }
        ensures spare { self.old.inner.spare ≤ self.new.inner.spare + 1 }
        ensures cause { OnErr result (Rose self.old.faults self.new.faults) }
        ensures no_fault { OnOk result (self.new.faults ≡ self.old.faults) }
        ensures never_falls { self.old.faults ≤ self.new.faults }
        ensures goes_on_telling { IsSome (Some (bytes_of self.old.inner)) → IsSome (Some (bytes_of self.new.inner)) }
        ensures durable { OnOk result (Only (bytes_of self.old.inner) (MayLeave self.new.inner)) }
        ensures images { IsWithin (MayLeave self.old.inner) (MayHaveLeft self.new.inner (moment_of self.old.inner)) }
        ensures synced { OnOk result (Syncs (moment_of self.old.inner) (moment_of self.new.inner) (HadSync self.old.inner) (HadSync self.new.inner)) }
        ensures no_sync { OnErr result (NoSync (HadSync self.old.inner) (HadSync self.new.inner)) }
        ensures time { Elapses (moment_of self.old.inner) (moment_of self.new.inner) (MayHaveLeft self.old.inner) (MayHaveLeft self.new.inner) (HadSync self.old.inner) (HadSync self.new.inner) }

        ensures fails { IsErr result ↔ Blows self.old }
        ensures done { OnOk result (self.new ≡ passed self.old (after_sync self.old.inner)) }
        ensures failed { OnErr result (self.new ≡ blown self.old (after_failure self.old.inner)) }
    {
        self.pass()?;
        let synced = self.inner.sync();
        self.note(synced)
    }

    fn spot(&self, alloc: Global, at: u64, count: u32) -> Result<MemSpot, AllocError> {
        self.inner.spot(alloc, at, count)
    }
}
