ghost use Rattle.std.specs.Prelude.{◌≡◌, ◌+◌, ◌<◌, ◌≤◌, ◌^◌, List, Option, Some, None, ℕ, IsSome, IsOk, length, take, drop, OnOk, OnErr, IfOk, IfSome};
ghost use Rattle.std.specs.Option.{ForSome, option_map};
ghost use Rattle.sx_outside.specs.Faults.{Rose};
ghost use Rattle.sx_volume.specs.Images.{Only, IsWithin, Follows, Cuts, Elapses, NoSync, Syncs};
ghost use Rattle.sx_file.specs.Writes.{with_piece, IsInPart, Writes};

use std::alloc::{AllocError, Global};
use sx_outside::Failed;
use sx_volume::{ReadEnd, Spot};

/// A file of bytes on a disk: what a volume asks of it, each call exact or a fault.
///
/// What is written may be lost or torn by a crash until a sync has succeeded. What a disk keeps of a file is said here,
/// and nowhere else.
pub trait File {
    /// Names a range of the file for its readers.
    type Spot: Spot;

    /// Reads such ranges, beside the one that writes.
    type End: ReadEnd<Spot = Self::Spot>;

    /// The bytes as they are read, where the file tells them.
    ghost bytes: { Self → Option (List ℕ) };

    /// How often the file has failed. The count stands still at 2^64 - 1.
    ghost faults: { Self → ℕ };

    /// The number of moments so far. It never falls.
    ghost moment: { Self → ℕ };

    /// A crash now may leave these bytes.
    ghost is_image: { Self → List ℕ → Type 0 };

    /// A crash at some moment since that one, within a call or between two, may have left these bytes.
    ghost was_image: { Self → ℕ → List ℕ → Type 0 };

    /// A sync succeeded at this moment.
    ghost synced: { Self → ℕ → Type 0 };

    /// Asks the length in bytes. A file that tells its bytes always answers.
    fn len(&mut self) -> Result<u64, Failed>
        ensures exact { IfOk result (λ len. ForSome (bytes self.old) (λ all. length all ≡ len)) }
        ensures answers { IsSome (bytes self.old) → IsOk result }
        ensures same_bytes { bytes self.new ≡ bytes self.old }
        ensures cause { OnErr result (Rose (faults self.old) (faults self.new)) }
        ensures no_fault { OnOk result (faults self.new ≡ faults self.old) }
        ensures never_falls { faults self.old ≤ faults self.new }
        ensures no_image_more { IsWithin (is_image self.old) (was_image self.new (moment self.old)) }
        ensures no_image_less { IsWithin (is_image self.new) (is_image self.old) }
        ensures no_sync { NoSync (synced self.old) (synced self.new) }
        ensures time { Elapses (moment self.old) (moment self.new) (was_image self.old) (was_image self.new) (synced self.old) (synced self.new) };

    /// Fills the room with the bytes from the place on. At `Failed` the room may hold anything.
    fn read_at(&mut self, at: u64, room: &mut [u8]) -> Result<(), Failed>
        requires place { ForSome (bytes self.old) (λ all. at + length room.old ≤ length all) }
        ensures filled { OnOk result (IfSome (bytes self.old) (λ all. room.new ≡ take (length room.old) (drop at all))) }
        ensures same_bytes { bytes self.new ≡ bytes self.old }
        ensures cause { OnErr result (Rose (faults self.old) (faults self.new)) }
        ensures no_fault { OnOk result (faults self.new ≡ faults self.old) }
        ensures never_falls { faults self.old ≤ faults self.new }
        ensures no_image_more { IsWithin (is_image self.old) (was_image self.new (moment self.old)) }
        ensures no_image_less { IsWithin (is_image self.new) (is_image self.old) }
        ensures no_sync { NoSync (synced self.old) (synced self.new) }
        ensures time { Elapses (moment self.old) (moment self.new) (was_image self.old) (was_image self.new) (synced self.old) (synced self.new) };

    /// Writes the piece at a place within the file or at its end. At `Failed` it may be written in part. A file has fewer
    /// than 2^64 bytes, and a write that would make it longer fails.
    fn write_at(&mut self, at: u64, piece: &[u8]) -> Result<(), Failed>
        requires place { ForSome (bytes self.old) (λ all. at ≤ length all) }
        ensures fits { OnOk result (at + length piece.now < 2 ^ 64) }
        ensures written { OnOk result (bytes self.new ≡ option_map (with_piece at piece.now) (bytes self.old)) }
        ensures in_part { OnErr result (IsInPart at (at + length piece.now) (bytes self.old) (bytes self.new)) }
        ensures cause { OnErr result (Rose (faults self.old) (faults self.new)) }
        ensures no_fault { OnOk result (faults self.new ≡ faults self.old) }
        ensures never_falls { faults self.old ≤ faults self.new }
        ensures images { ForSome (bytes self.old) (λ all. Follows (Writes at (length all) (at + length piece.now)) (is_image self.old) (was_image self.new (moment self.old))) }
        ensures no_sync { NoSync (synced self.old) (synced self.new) }
        ensures time { Elapses (moment self.old) (moment self.new) (was_image self.old) (was_image self.new) (synced self.old) (synced self.new) };

    /// Makes the length `len`, at most the present one, by dropping what stands behind.
    fn set_len(&mut self, len: u64) -> Result<(), Failed>
        requires place { ForSome (bytes self.old) (λ all. len ≤ length all) }
        ensures cut { OnOk result (bytes self.new ≡ option_map (take len) (bytes self.old)) }
        ensures goes_on_telling { IsSome (bytes self.old) → IsSome (bytes self.new) }
        ensures cause { OnErr result (Rose (faults self.old) (faults self.new)) }
        ensures no_fault { OnOk result (faults self.new ≡ faults self.old) }
        ensures never_falls { faults self.old ≤ faults self.new }
        ensures images { Follows (Cuts len) (is_image self.old) (was_image self.new (moment self.old)) }
        ensures no_sync { NoSync (synced self.old) (synced self.new) }
        ensures time { Elapses (moment self.old) (moment self.new) (was_image self.old) (was_image self.new) (synced self.old) (synced self.new) };

    /// At `Ok` all that was written is kept through a crash.
    fn sync(&mut self) -> Result<(), Failed>
        ensures same_bytes { bytes self.new ≡ bytes self.old }
        ensures cause { OnErr result (Rose (faults self.old) (faults self.new)) }
        ensures no_fault { OnOk result (faults self.new ≡ faults self.old) }
        ensures never_falls { faults self.old ≤ faults self.new }
        ensures durable { OnOk result (IfSome (bytes self.old) (λ all. Only all (is_image self.new))) }
        ensures images { IsWithin (is_image self.old) (was_image self.new (moment self.old)) }
        ensures synced { OnOk result (IfSome (bytes self.old) (λ _. Syncs (moment self.old) (moment self.new) (synced self.old) (synced self.new))) }
        ensures no_sync { OnErr result (NoSync (synced self.old) (synced self.new)) }
        ensures time { Elapses (moment self.old) (moment self.new) (was_image self.old) (was_image self.new) (synced self.old) (synced self.new) };

    /// A spot for bytes that are to stand at the place.
    fn spot_of(&self, alloc: Global, at: u64, piece: &[u8]) -> Result<Self::Spot, AllocError>
        requires { length piece.now < 2 ^ 32 }
        ensures count { IfOk result (λ spot. Self.Spot.count spot ≡ length piece.now) }
        ensures content { IfOk result (λ spot. IfSome (bytes self.now) (λ _. Self.Spot.content spot ≡ Some piece.now)) };

    /// A spot for a range that stands in the file. What the spot tells never changes.
    fn spot_at(&self, alloc: Global, at: u64, count: u32) -> Result<Self::Spot, AllocError>
        requires { ForSome (bytes self.now) (λ all. at + count ≤ length all) }
        ensures count { IfOk result (λ spot. Self.Spot.count spot ≡ count) }
        ensures content { IfOk result (λ spot. IfSome (bytes self.now) (λ all. Self.Spot.content spot ≡ Some (take count (drop at all)))) };

    /// This moment is one of those since an earlier one.
    ghost counts_now: { (file : Self) (t : ℕ) (c : List ℕ) → t ≤ moment file → is_image file c → was_image file t c };

    /// Since this moment there is no other.
    ghost only_now: { (file : Self) (c : List ℕ) → was_image file (moment file) c → is_image file c };

    /// No sync is one of the future.
    ghost synced_by_now: { (file : Self) (t : ℕ) → synced file t → t ≤ moment file };

    /// The file as it reads is one of its images.
    ghost reads: { (file : Self) (all : List ℕ) → bytes file ≡ Some all → is_image file all };

    /// Of a file that does not tell its bytes nothing is known: a crash may leave anything.
    ghost nothing_known: { (file : Self) (c : List ℕ) → bytes file ≡ None → is_image file c };
}
