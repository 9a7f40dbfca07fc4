ghost use Rattle.std.specs.Prelude.{◌≡◌, ◌≢◌, ◌↔◌, ◌++◌, List, ℕ, IsNone, IsTrue, IfOk, IfNone, IfSome, OnErr, OnOk};

use std::alloc::{AllocError, Global};
use sx_bytes::{Fields, FieldsOut};

/// A value that has one spelling in bytes.
pub trait Record: Drop {
    /// The bytes that spell a record.
    ghost spelling: { Self → List ℕ };

    /// Holds of the values of the type.
    ghost is_record: { Self → Type 0 };

    /// Appends the spelling, or where memory runs out nothing.
    fn encode(&self, out: &mut FieldsOut) -> Result<(), AllocError>
        ensures ok { OnOk result (out.new ≡ out.old ++ spelling self.now) }
        ensures err { OnErr result (out.new ≡ out.old) }
        ensures known { is_record self.now };

    /// The record that the front of the bytes spells. None exactly where no front is a spelling. Nothing is
    /// taken then, nor where memory runs out.
    fn decode(alloc: Global, fields: &mut Fields) -> Result<Option<Self>, AllocError>
        ensures found { IfOk result (λ found. IfSome found (λ r. is_record r × (fields.old ≡ spelling r ++ fields.new))) }
        ensures none { IfOk result (λ found. IfNone found ((r : Self) (rest : List ℕ) → is_record r → fields.old ≢ spelling r ++ rest)) }
        ensures none_taken { IfOk result (λ found. IfNone found (fields.new ≡ fields.old)) }
        ensures err { OnErr result (fields.new ≡ fields.old) };

    /// Whether the two are equal.
    fn same(&self, other: &Self) -> bool
        ensures { IsTrue result ↔ (self.now ≡ other.now) };

    /// An equal record.
    fn copy(&self, alloc: Global) -> Result<Self, AllocError>
        ensures { IfOk result (λ r. r ≡ self.now) };

    /// No two records have one spelling, and no spelling begins another's.
    ghost one_spelling: { (a b : Self) (x y : List ℕ) → is_record a → is_record b → spelling a ++ x ≡ spelling b ++ y → (a ≡ b) × (x ≡ y) };
}
