//! What reads records, and what changes them.
ghost use Rattle.std.specs.Prelude.{◌≡◌, ◌+◌, ◌-◌, ◌^◌, ◌≤◌, Bool, IsFalse, IsTrue, None, Option, ℕ, min, IfOk, IfErr, IfSome, OnErr, OnOk};
ghost use Rattle.std.specs.Option.{option_map};
ghost use Rattle.std.specs.FinMap as map;
ghost use Rattle.sx_bytes.specs.declared.damage.Damage.{Damage};
ghost use Rattle.sx_outside.specs.Faults.{Rose};
ghost use Rattle.sx_view.specs.Records.{RecordMap, ExplainsFault};

use crate::Fault;
use std::alloc::{AllocError, Global};

/// Records by their numbers.
pub trait Records<R> {
    /// Which number has which record, where the object tells it.
    ghost told: { Self → Option (RecordMap R) };

    /// How many gets were made. The count stands still at 2^64 - 1.
    ghost gets: { Self → ℕ };

    /// How often the object below failed. The count stands still at 2^64 - 1.
    ghost faults: { Self → ℕ };

    /// Which damages of what is below it the object may answer. Where it tells its records there are none.
    ghost damages: { Self → Damage → Type 0 };

    /// What a call that reads leaves: all that the object tells, through whichever of its traits.
    ghost keeps: { Self → Self → Type 0 };

    /// The record of the number. None where there is none.
    ///
    /// # Errors
    ///
    /// `Failed` only where the faults of the object below rose; `Damaged` only with a damage of the object below, and so never
    /// where the records are told; `OutOfMemory`.
    fn get(&mut self, alloc: Global, k: u32) -> Result<Option<R>, Fault>
        ensures found { IfOk result (λ found. IfSome (told self.old) (λ records. found ≡ map.get records k)) }
        ensures fault { IfErr result (ExplainsFault (damages self.old) (Rose (faults self.old) (faults self.new))) }
        ensures counted { gets self.new ≡ min (gets self.old + 1) (2 ^ 64 - 1) }
        ensures never_falls { faults self.old ≤ faults self.new }
        ensures keeps { keeps self.old self.new };

    ghost untold: { (a : Self) (damage : Damage) → damages a damage → told a ≡ None };

    ghost keeps_told: { (a b : Self) → keeps a b → told b ≡ told a };

    ghost keeps_damages: { (a b : Self) → keeps a b → (damage : Damage) → damages b damage → damages a damage };

    ghost keeps_itself: { (a : Self) → keeps a a };

    ghost keeps_then: { (a b c : Self) → keeps a b → keeps b c → keeps a c };
}

/// Records that can be changed, and changed back to how they were at a mark.
pub trait RecordsMut<R>: Records<R> {
    /// Whether there is a mark.
    ghost has_mark: { Self → Bool };

    /// The two hold the same records, whether or not they tell them.
    ghost same: { Self → Self → Type 0 };

    /// The second has a mark, at which the records were those of the first.
    ghost marks: { Self → Self → Type 0 };

    /// The two stand over the same object below, which no call that changes records changes.
    ghost same_base: { Self → Self → Type 0 };

    /// Gives the number the record, instead of one that it had. Where memory runs out nothing is changed.
    fn put(&mut self, alloc: Global, k: u32, value: R) -> Result<(), AllocError>
        ensures ok { OnOk result (Self.told self.new ≡ option_map (λ records. map.insert records k value) (Self.told self.old)) }
        ensures err { OnErr result (same self.old self.new) }
        ensures same_mark { has_mark self.new ≡ has_mark self.old }
        ensures same_marked { (a : Self) → marks a self.old → marks a self.new }
        ensures same_base { same_base self.old self.new }
        ensures same_gets { Self.gets self.new ≡ Self.gets self.old }
        ensures never_falls { Self.faults self.old ≤ Self.faults self.new };

    /// Takes away the record of the number, where there is one. Where memory runs out nothing is changed.
    fn drop_record(&mut self, alloc: Global, k: u32) -> Result<(), AllocError>
        ensures ok { OnOk result (Self.told self.new ≡ option_map (λ records. map.remove records k) (Self.told self.old)) }
        ensures err { OnErr result (same self.old self.new) }
        ensures same_mark { has_mark self.new ≡ has_mark self.old }
        ensures same_marked { (a : Self) → marks a self.old → marks a self.new }
        ensures same_base { same_base self.old self.new }
        ensures same_gets { Self.gets self.new ≡ Self.gets self.old }
        ensures never_falls { Self.faults self.old ≤ Self.faults self.new };

    /// Marks the records as they are, instead of an earlier mark.
    fn begin(&mut self)
        ensures has_mark { IsTrue (has_mark self.new) }
        ensures marked { marks self.old self.new }
        ensures same { same self.old self.new }
        ensures same_base { same_base self.old self.new }
        ensures same_gets { Self.gets self.new ≡ Self.gets self.old }
        ensures never_falls { Self.faults self.old ≤ Self.faults self.new };

    /// Restores the records at the mark, also where they are not told, and drops it.
    fn undo(&mut self)
        requires { IsTrue (has_mark self.old) }
        ensures restored { (a : Self) → marks a self.old → same a self.new }
        ensures no_mark { IsFalse (has_mark self.new) }
        ensures same_base { same_base self.old self.new }
        ensures same_gets { Self.gets self.new ≡ Self.gets self.old }
        ensures never_falls { Self.faults self.old ≤ Self.faults self.new };

    /// Drops the mark.
    fn keep(&mut self)
        ensures same { same self.old self.new }
        ensures no_mark { IsFalse (has_mark self.new) }
        ensures same_base { same_base self.old self.new }
        ensures same_gets { Self.gets self.new ≡ Self.gets self.old }
        ensures never_falls { Self.faults self.old ≤ Self.faults self.new };

    ghost same_told: { (a b : Self) → same a b → Self.told b ≡ Self.told a };

    ghost same_itself: { (a : Self) → same a a };

    ghost same_then: { (a b c : Self) → same a b → same b c → same a c };

    ghost same_base_itself: { (a : Self) → same_base a a };

    ghost same_base_then: { (a b c : Self) → same_base a b → same_base b c → same_base a c };

    ghost marks_same_base: { (a b : Self) → marks a b → same_base a b };

    ghost same_base_damages: { (a b : Self) → same_base a b → (damage : Damage) → Self.damages b damage → Self.damages a damage };

    ghost keeps_same: { (a b : Self) → Self.keeps a b → same a b };

    ghost keeps_same_base: { (a b : Self) → Self.keeps a b → same_base a b };

    ghost keeps_mark: { (a b : Self) → Self.keeps a b → has_mark b ≡ has_mark a };

    ghost keeps_marked: { (a b c : Self) → Self.keeps b c → marks a b → marks a c };
}
