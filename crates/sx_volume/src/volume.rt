ghost use Rattle.std.specs.Prelude.{◌≡◌, ◌+◌, ◌++◌, ◌<◌, ◌≤◌, ◌⊎◌, List, Option, Some, None, ℕ, Bool, IsTrue, IsSome, length, take, drop, slice_set, OnOk, OnErr, IfOk, IfSome};
ghost use Rattle.std.specs.Arc.{arc_value};
ghost use Rattle.std.specs.Option.{option_map};
ghost use Rattle.sx_outside.specs.Faults.{Rose};
ghost use Rattle.sx_volume.specs.Counts.{plus};
ghost use Rattle.sx_volume.specs.Images.{Only, IsWithin, Follows, Appends, Puts, Cuts, Elapses, NoSync, Syncs};
ghost use Rattle.sx_volume.specs.Held.{IsHeldFor, LiesInHeld, held_piece, held_range};

use crate::{ReadEnd, Spot};
use std::alloc::{AllocError, Global};
use std::sync::Arc;
use sx_outside::Failed;

/// The medium of a log: bytes that grow at the end, one writer, and spots for readers.
///
/// What is written may be lost or torn by a crash until a sync has succeeded.
/// `append`, `put_byte`, `cut` and `sync` each use one spare call, which `ready` provides, and need no memory.
pub trait Volume {
    type Spot: Spot;

    type End: ReadEnd<Spot = Self::Spot>;

    /// The bytes as they are read, where the volume tells them.
    ghost bytes: { Self → Option (List ℕ) };

    /// The length in bytes.
    ghost size: { Self → ℕ };

    /// How often the volume has failed. The count stands still at 2^64 - 1.
    ghost faults: { Self → ℕ };

    /// How many of the calls that write can be made before the next `ready`.
    ghost spare: { Self → ℕ };

    /// How many bytes were read by `read_at`. The count stands still at 2^64 - 1.
    ghost bytes_read: { Self → ℕ };

    /// The piece that is held for the next append, and the place that it is held for.
    ghost held: { Self → Option (ℕ × List ℕ) };

    /// Nothing was written since the last sync that succeeded.
    ghost calm: { Self → Bool };

    /// The number of moments so far. It never falls.
    ghost moment: { Self → ℕ };

    /// A crash now may leave these bytes. Of a volume that does not tell its bytes nothing is known: there any list
    /// passes, and passes `was_image` too.
    ghost is_image: { Self → List ℕ → Type 0 };

    /// A crash at some moment since that one, within a call or between two, may have left these bytes.
    ghost was_image: { Self → ℕ → List ℕ → Type 0 };

    /// A sync succeeded at this moment. Of a volume that does not tell its bytes nothing is known.
    ghost synced: { Self → ℕ → Type 0 };

    /// The length in bytes.
    fn len(&self) -> u64
        ensures value { result ≡ size self.now }
        ensures told { IfSome (bytes self.now) (λ all. length all ≡ result) };

    /// Fills the room with the bytes from the place on. At `Failed` the room may hold anything.
    fn read_at(&mut self, at: u64, room: &mut [u8]) -> Result<(), Failed>
        requires { at + length room.old ≤ size self.old }
        ensures filled { OnOk result (IfSome (bytes self.old) (λ all. room.new ≡ take (length room.old) (drop at all))) }
        ensures same_bytes { bytes self.new ≡ bytes self.old }
        ensures same_size { size self.new ≡ size self.old }
        ensures same_held { held self.new ≡ held self.old }
        ensures spare { spare self.old ≤ spare self.new }
        ensures counted { bytes_read self.new ≡ plus (bytes_read self.old) (length room.old) }
        ensures calm { IsTrue (calm self.old) → IsTrue (calm self.new) }
        ensures cause { OnErr result (Rose (faults self.old) (faults self.new)) }
        ensures no_fault { OnOk result (faults self.new ≡ faults self.old) }
        ensures never_falls { faults self.old ≤ faults self.new }
        ensures no_image_more { IsWithin (is_image self.old) (was_image self.new (moment self.old)) }
        ensures no_image_less { IsWithin (is_image self.new) (is_image self.old) }
        ensures no_sync { NoSync (synced self.old) (synced self.new) }
        ensures time { Elapses (moment self.old) (moment self.new) (was_image self.old) (was_image self.new) (synced self.old) (synced self.new) };

    /// Keeps the piece for the append at that place, instead of one that was held before, and takes the memory
    /// that the append will need. A refusal changes nothing.
    fn hold(&mut self, alloc: Global, at: u64, piece: Arc<Vec<u8>>) -> Result<(), AllocError>
        ensures ok { OnOk result (held self.new ≡ Some (at, (arc_value piece).items)) }
        ensures err { OnErr result (held self.new ≡ held self.old) }
        ensures same_bytes { bytes self.new ≡ bytes self.old }
        ensures same_size { size self.new ≡ size self.old }
        ensures same_read { bytes_read self.new ≡ bytes_read self.old }
        ensures spare { spare self.old ≤ spare self.new }
        ensures calm { IsTrue (calm self.old) → IsTrue (calm self.new) }
        ensures no_fault { faults self.new ≡ faults self.old }
        ensures never_falls { faults self.old ≤ faults self.new }
        ensures no_image_more { IsWithin (is_image self.old) (was_image self.new (moment self.old)) }
        ensures no_image_less { IsWithin (is_image self.new) (is_image self.old) }
        ensures no_sync { NoSync (synced self.old) (synced self.new) }
        ensures time { Elapses (moment self.old) (moment self.new) (was_image self.old) (was_image self.new) (synced self.old) (synced self.new) };

    /// Makes the spare calls at least so many, by taking the memory that they need. A refusal changes nothing.
    fn ready(&mut self, alloc: Global, calls: u32) -> Result<(), AllocError>
        ensures ok { OnOk result (calls ≤ spare self.new) }
        ensures spare { spare self.old ≤ spare self.new }
        ensures err { OnErr result (spare self.new ≡ spare self.old) }
        ensures same_bytes { bytes self.new ≡ bytes self.old }
        ensures same_size { size self.new ≡ size self.old }
        ensures same_held { held self.new ≡ held self.old }
        ensures same_read { bytes_read self.new ≡ bytes_read self.old }
        ensures calm { IsTrue (calm self.old) → IsTrue (calm self.new) }
        ensures no_fault { faults self.new ≡ faults self.old }
        ensures never_falls { faults self.old ≤ faults self.new }
        ensures no_image_more { IsWithin (is_image self.old) (was_image self.new (moment self.old)) }
        ensures no_image_less { IsWithin (is_image self.new) (is_image self.old) }
        ensures no_sync { NoSync (synced self.old) (synced self.new) }
        ensures time { Elapses (moment self.old) (moment self.new) (was_image self.old) (was_image self.new) (synced self.old) (synced self.new) };

    /// Appends the held piece, which is held no more.
    fn append(&mut self) -> Result<(), Failed>
        requires held { IsHeldFor (held self.old) (size self.old) }
        requires spare { 0 < spare self.old }
        ensures appended { OnOk result (bytes self.new ≡ option_map (λ all. all ++ held_piece (held self.old)) (bytes self.old)) }
        ensures longer { OnOk result (size self.new ≡ size self.old + length (held_piece (held self.old))) }
        ensures held_no_more { OnOk result (held self.new ≡ None) }
        ensures same_read { bytes_read self.new ≡ bytes_read self.old }
        ensures spare { spare self.old ≤ spare self.new + 1 }
        ensures cause { OnErr result (Rose (faults self.old) (faults self.new)) }
        ensures no_fault { OnOk result (faults self.new ≡ faults self.old) }
        ensures never_falls { faults self.old ≤ faults self.new }
        ensures goes_on_telling { IsSome (bytes self.old) → IsSome (bytes self.new) }
        ensures images { Follows (Appends (size self.old + length (held_piece (held self.old)))) (is_image self.old) (was_image self.new (moment self.old)) }
        ensures no_sync { NoSync (synced self.old) (synced self.new) }
        ensures time { Elapses (moment self.old) (moment self.new) (was_image self.old) (was_image self.new) (synced self.old) (synced self.new) };

    /// Writes one byte over the byte at that place.
    fn put_byte(&mut self, at: u64, byte: u8) -> Result<(), Failed>
        requires place { at < size self.old }
        requires spare { 0 < spare self.old }
        ensures written { OnOk result (bytes self.new ≡ option_map (λ all. slice_set all at byte) (bytes self.old)) }
        ensures same_size { size self.new ≡ size self.old }
        ensures same_held { held self.new ≡ held self.old }
        ensures same_read { bytes_read self.new ≡ bytes_read self.old }
        ensures spare { spare self.old ≤ spare self.new + 1 }
        ensures cause { OnErr result (Rose (faults self.old) (faults self.new)) }
        ensures no_fault { OnOk result (faults self.new ≡ faults self.old) }
        ensures never_falls { faults self.old ≤ faults self.new }
        ensures goes_on_telling { IsSome (bytes self.old) → IsSome (bytes self.new) }
        ensures images { Follows (Puts at) (is_image self.old) (was_image self.new (moment self.old)) }
        ensures no_sync { NoSync (synced self.old) (synced self.new) }
        ensures time { Elapses (moment self.old) (moment self.new) (was_image self.old) (was_image self.new) (synced self.old) (synced self.new) };

    /// Makes the length `len`, by dropping what stands behind.
    fn cut(&mut self, len: u64) -> Result<(), Failed>
        requires place { len ≤ size self.old }
        requires spare { 0 < spare self.old }
        ensures cut { OnOk result (bytes self.new ≡ option_map (λ all. take len all) (bytes self.old)) }
        ensures size { OnOk result (size self.new ≡ len) }
        ensures same_held { held self.new ≡ held self.old }
        ensures same_read { bytes_read self.new ≡ bytes_read self.old }
        ensures spare { spare self.old ≤ spare self.new + 1 }
        ensures cause { OnErr result (Rose (faults self.old) (faults self.new)) }
        ensures no_fault { OnOk result (faults self.new ≡ faults self.old) }
        ensures never_falls { faults self.old ≤ faults self.new }
        ensures goes_on_telling { IsSome (bytes self.old) → IsSome (bytes self.new) }
        ensures images { Follows (Cuts len) (is_image self.old) (was_image self.new (moment self.old)) }
        ensures no_sync { NoSync (synced self.old) (synced self.new) }
        ensures time { Elapses (moment self.old) (moment self.new) (was_image self.old) (was_image self.new) (synced self.old) (synced self.new) };

    /// At `Ok` all that was written is kept through a crash, and the volume is calm.
    fn sync(&mut self) -> Result<(), Failed>
        requires { 0 < spare self.old }
        ensures same_bytes { OnOk result (bytes self.new ≡ bytes self.old) }
        ensures calm { OnOk result (IsTrue (calm self.new)) }
        ensures same_size { size self.new ≡ size self.old }
        ensures same_held { held self.new ≡ held self.old }
        ensures same_read { bytes_read self.new ≡ bytes_read self.old }
        ensures spare { spare self.old ≤ spare self.new + 1 }
        ensures cause { OnErr result (Rose (faults self.old) (faults self.new)) }
        ensures no_fault { OnOk result (faults self.new ≡ faults self.old) }
        ensures never_falls { faults self.old ≤ faults self.new }
        ensures goes_on_telling { IsSome (bytes self.old) → IsSome (bytes self.new) }
        ensures durable { OnOk result (IfSome (bytes self.old) (λ all. Only all (is_image self.new))) }
        ensures images { IsWithin (is_image self.old) (was_image self.new (moment self.old)) }
        ensures synced { OnOk result (IfSome (bytes self.old) (λ _. Syncs (moment self.old) (moment self.new) (synced self.old) (synced self.new))) }
        ensures no_sync { OnErr result (NoSync (synced self.old) (synced self.new)) }
        ensures time { Elapses (moment self.old) (moment self.new) (was_image self.old) (was_image self.new) (synced self.old) (synced self.new) };

    /// A spot for a range of the held piece, or of a calm volume. What the spot tells never changes.
    fn spot(&self, alloc: Global, at: u64, count: u32) -> Result<Self::Spot, AllocError>
        requires { LiesInHeld (held self.now) at count ⊎ (IsTrue (calm self.now) × (at + count ≤ size self.now)) }
        ensures bytes { IfOk result (λ spot. Self.Spot.count spot ≡ count) }
        ensures held { IfOk result (λ spot. IfSome (bytes self.now) (λ all. LiesInHeld (held self.now) at count → Self.Spot.content spot ≡ Some (held_range (held self.now) at count))) }
        ensures read { IfOk result (λ spot. IfSome (bytes self.now) (λ all. (LiesInHeld (held self.now) at count → ⊥) → Self.Spot.content spot ≡ Some (take count (drop at all)))) };

    /// This moment is one of those since an earlier one.
    ghost counts_now: { (volume : Self) (t : ℕ) (c : List ℕ) → t ≤ moment volume → is_image volume c → was_image volume t c };

    /// Since this moment there is no other.
    ghost only_now: { (volume : Self) (c : List ℕ) → was_image volume (moment volume) c → is_image volume c };

    /// No sync is one of the future.
    ghost synced_by_now: { (volume : Self) (t : ℕ) → synced volume t → t ≤ moment volume };

    /// Where the bytes are told, they have the volume's length.
    ghost told_size: { (volume : Self) (all : List ℕ) → bytes volume ≡ Some all → length all ≡ size volume };

    /// The volume as it reads is one of its images.
    ghost reads: { (volume : Self) (all : List ℕ) → bytes volume ≡ Some all → is_image volume all };
}
