ghost use Rattle.std.specs.Prelude.{◌≡◌, List, Option, ℕ, length, IfSome};

/// An immutable range of a volume that was written, by its place and length.
pub trait Spot: Drop {
    /// How many bytes the range has.
    ghost count: { Self → ℕ };

    /// The bytes of the range, where the spot tells them. They never change.
    ghost content: { Self → Option (List ℕ) };

    /// How many bytes the range has.
    fn bytes(&self) -> u32
        ensures value { result ≡ count self.now }
        ensures told { IfSome (content self.now) (λ bytes. length bytes ≡ result) };
}
